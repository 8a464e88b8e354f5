//! The design for which the named files stand, with what is known of it.

ghost use Rattle.sf_options.specs.Seen.{design_seen, weights_seen};
ghost use Rattle.sf_designs.specs.Loads.{ReadsShelf};
ghost use Rattle.sf_designs.specs.Outcome.{Ends};
ghost use Rattle.sf_program.specs.Knowing.{KnownRead};

use sf_designs::{Stop, read_design};
use sf_io::Shelf;
use sf_known::know_alone;
use sf_model::Design;
use sf_options::{BoundsChoice, DesignWords, WeightWords};
use std::alloc::Global;

/// The design for which the named files stand, which knows what was asked for.
pub fn read_known<S: Shelf>(
    alloc: Global,
    shelf: &mut S,
    words: &DesignWords<'_>,
    weights: WeightWords<'_>,
    bounds: BoundsChoice,
) -> Result<Design, Stop>
    ensures design { Ends (λ x. x) result (KnownRead (S.seen shelf.old).holds
        (design_seen words.now) (weights_seen weights.entry) bounds) }
    ensures shelf { ReadsShelf (S.seen shelf.old) (S.seen shelf.new) result }
{
    let design = read_design(alloc, shelf, words, weights)?;
    let known = know_alone(alloc, bounds, design)?;
    Ok(known)
}
