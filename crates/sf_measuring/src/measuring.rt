//! The command `measure`.

ghost use Rattle.std.specs.Prelude.{◌≡◌, length, All, IfOk};
ghost use Rattle.sf_model.specs.Cost.{right_end, upper_end, spots_cost};
ghost use Rattle.sf_model.specs.Legal.{block_count};
ghost use Rattle.sf_model.specs.Wire.{wire};
ghost use Rattle.sf_place.specs.Spots.{HasNearCorner, IsByNumber};
ghost use Rattle.sf_place.specs.Verdict.{AreLegal, IsVerdict};
ghost use Rattle.sf_options.specs.Seen.{measure_seen};
ghost use Rattle.sf_designs.specs.Loads.{ReadsShelf};
ghost use Rattle.sf_measuring.specs.Measured.{MeasureAnswers, SpotsRead, legal_text, verdict_status, verdict_text};
ghost use Rattle.sf_designs.specs.Outcome.{Ends};

use crate::placed_lines::place_blocks;
use sf_designs::{Stop, Work, read_design, read_places_file};
use sf_io::{Shelf, Status};
use sf_lex::Scale;
use sf_model::{Design, Spot};
use sf_options::MeasureWords;
use sf_place::{Verdict, check_spots};
use sf_wire::{spots_cost, spots_size, wire};
use std::alloc::{AllocError as NoMemory, Global};

/// Where the placed file of this name puts the blocks of a design, by number.
pub fn read_spots<S: Shelf>(
    alloc: Global,
    shelf: &mut S,
    scale: Scale,
    name: &str,
    design: &Design,
) -> Result<Vec<Spot>, Stop>
    ensures spots { Ends (λ v. v.items) result
        (SpotsRead (S.seen shelf.old).holds scale.per_unit name.now design.now) }
    ensures one_each { IfOk result (λ v. length v.items ≡ block_count design.now) }
    ensures by_number { IfOk result (λ v. IsByNumber v.items) }
    ensures near { IfOk result (λ v. All HasNearCorner v.items) }
    ensures shelf { ReadsShelf (S.seen shelf.old) (S.seen shelf.new) result }
{
    let file = read_places_file(alloc, shelf, "placed", scale, name)?;
    place_blocks(alloc, design.blocks.as_slice(), file.places.as_slice())
}

/// The status that goes with the verdict.
fn verdict_status(verdict: Verdict) -> Status
    ensures { result ≡ verdict_status verdict }
{
    match verdict {
        Verdict::Legal => Status::Done,
        _ => Status::No,
    }
}

/// The lines of a legal placement.
fn legal_text(alloc: Global, design: &Design, spots: &[Spot]) -> Result<Vec<u8>, NoMemory>
    requires { AreLegal design.now spots.now }
    ensures { let design = design.now in let spots = spots.now in IfOk result (λ text. text.items ≡
        legal_text (spots_cost design spots) (right_end spots) (upper_end spots) (wire design spots)) }
{
    let cost = spots_cost(design, spots);
    let (width, height) = spots_size(spots);
    let area = width * height;
    let wires = wire(design, spots);
    let text = format!(in alloc;
        "status Legal\ncost {cost}\nsize {width} {height}\narea {area}\nwire {wires}\n"
    )?;
    Ok(text.into_bytes())
}

/// What is printed of a verdict.
fn verdict_text(
    alloc: Global,
    design: &Design,
    spots: &[Spot],
    verdict: Verdict,
) -> Result<Vec<u8>, NoMemory>
    requires { IsVerdict design.now spots.now verdict }
    ensures { IfOk result (λ text. text.items ≡ verdict_text design.now spots.now verdict) }
{
    let text = match verdict {
        Verdict::Legal => return legal_text(alloc, design, spots),
        Verdict::Unlisted(block) => format!(in alloc; "status Unlisted {block}\n")?,
        Verdict::Outside(block) => format!(in alloc; "status Outside {block}\n")?,
        Verdict::Overlap(first, other) => format!(in alloc; "status Overlap {first} {other}\n")?,
    };
    Ok(text.into_bytes())
}

/// Whether the blocks of the named design are legally placed by the placed file, and at what cost. Nothing
/// is stored.
pub fn measure<S: Shelf>(
    alloc: Global,
    words: &MeasureWords<'_>,
    shelf: &mut S,
) -> Result<Work, Stop>
    ensures answer { MeasureAnswers (measure_seen words.now) (S.seen shelf.old).holds result }
    ensures shelf { ReadsShelf (S.seen shelf.old) (S.seen shelf.new) result }
{
    let design = read_design(alloc, shelf, &words.design, words.weights)?;
    let spots = read_spots(alloc, shelf, words.design.scale, words.placed, &design)?;
    let verdict = check_spots(&design, &spots);
    let text = verdict_text(alloc, &design, &spots, verdict)?;
    Ok(Work::printed(alloc, verdict_status(verdict), text))
}
