//! The weights of nets: those of the named file, or 1 for each.

ghost use Rattle.std.specs.Prelude.{◌≡◌, Some, IfOk, length};
ghost use Rattle.sf_options.specs.Seen.{text_of};
ghost use Rattle.sf_designs.specs.Loads.{ReadsShelf};
ghost use Rattle.sf_designs.specs.Outcome.{Ends};
ghost use Rattle.sf_designs.specs.Reading.{WeightsRead};

use crate::parsing::parse_weights;
use crate::reading::load_text;
use crate::stop::Stop;
use crate::weighed::same_weights;
use sf_io::Shelf;
use std::alloc::Global;

/// A weight for each of so many nets.
pub fn read_net_weights<S: Shelf>(
    alloc: Global,
    shelf: &mut S,
    nets: usize,
    name: Option<&str>,
) -> Result<Vec<u8>, Stop>
    ensures weights { Ends (λ v. v.items) result
        (WeightsRead (S.seen shelf.old).holds (text_of name.entry) nets) }
    ensures one_each { IfOk result (λ v. length v.items ≡ nets) }
    ensures shelf { ReadsShelf (S.seen shelf.old) (S.seen shelf.new) result }
{
    match name {
        None => Ok(same_weights(alloc, nets)?),
        Some(name) => read_weights_file(alloc, shelf, nets, name),
    }
}

/// The weight of each net, as the file of this name says.
fn read_weights_file<S: Shelf>(
    alloc: Global,
    shelf: &mut S,
    nets: usize,
    name: &str,
) -> Result<Vec<u8>, Stop>
    ensures weights { Ends (λ v. v.items) result (WeightsRead (S.seen shelf.old).holds (Some name.now) nets) }
    ensures one_each { IfOk result (λ v. length v.items ≡ nets) }
    ensures shelf { ReadsShelf (S.seen shelf.old) (S.seen shelf.new) result }
{
    let text = load_text(alloc, shelf, name)?;
    parse_weights(alloc, &text, nets as u64)
}
