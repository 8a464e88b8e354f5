//! The reader of pl files.

ghost use Rattle.std.specs.Prelude.{◌≡◌, ◌≤◌, ◌<◌, ℕ, List, Ok, IfOk, length};
ghost use Rattle.sf_lex.specs.Scan.{numbered_rest, line_of};
ghost use Rattle.sf_lex.specs.Gap.{first_word};
ghost use Rattle.sf_lex.specs.declared.field.Gap.TheVariants.{Blanks};
ghost use Rattle.sf_gsrc.specs.Blocks.{content, Gives};
ghost use Rattle.sf_gsrc.specs.Places.{place_at, places_from, places_read, PlacesStandFor};
ghost use Rattle.sf_gsrc.specs.PlacesKept.{KeepsPlace, KeepsPlaces};

use crate::content::{next_content, open};
use crate::fault::GsrcFault;
use crate::found::at_line;
use crate::output::{GsrcPlaces, Place, PlaceList};
use crate::place_line::read_place_line;
use sf_lex::{Scale, Scan, Word};
use sf_model::Name;
use std::alloc::Global;

/// The next line with content.
fn take_line(
    alloc: Global,
    places: &mut Vec<Place>,
    line: &Word,
    scale: Scale,
) -> Result<(), GsrcFault>
    requires content { 0 < length (first_word Blanks line.now.text.now) }
    ensures { KeepsPlace result places.old.items places.new.items
        (place_at scale.per_unit (line_of line.now)) }
{
    match read_place_line(line.text, scale) {
        Ok(said) => {
            let name = Name::new(alloc, said.name)?;
            places.push(Place {
                name,
                x: said.x,
                y: said.y,
                size: said.size,
            })?;
            Ok(())
        }
        Err(fault) => Err(at_line(fault, line.line)),
    }
}

/// What the lines behind the title say.
fn read_lines(alloc: Global, scan: &mut Scan, scale: Scale) -> Result<Vec<Place>, GsrcFault>
    ensures { KeepsPlaces result (places_from scale.per_unit (content (numbered_rest scan.old))) }
{
    let mut places = Vec::new(alloc);
    while let Some(line) = next_content(scan) {
        take_line(alloc, &mut places, &line, scale)?;
    }
    Ok(places)
}

/// What the text stands for, or its first fault.
#[tactic(auto, unfolding(crate::specs::Places::places_read))]
fn read_exactly(alloc: Global, text: &[u8], scale: Scale) -> Result<GsrcPlaces, GsrcFault>
    ensures { Gives result (places_read scale.per_unit text.now) }
{
    let (mut scan, _) = open(text, b"pl")?;
    let places = read_lines(alloc, &mut scan, scale)?;
    Ok(GsrcPlaces {
        places: PlaceList::from_vec(places),
    })
}

/// The places for which a pl file stands, in whole units of the scale, or its first fault.
pub fn read_pl(alloc: Global, text: &[u8], scale: u64) -> Result<GsrcPlaces, GsrcFault>
    requires scale_low { 1 ≤ scale }
    requires scale_high { scale ≤ 1000 }
    // What is read is what the text stands for.
    ensures stands { IfOk result (PlacesStandFor scale text.now) }
    // What the text stands for is read, unless memory runs out.
    ensures only { (out : GsrcPlaces) → PlacesStandFor scale text.now out → Gives result (Ok out) }
    // Which fault it is.
    ensures exact { Gives result (places_read scale text.now) }
{
    read_exactly(alloc, text, Scale { per_unit: scale })
}

/// A pl file stands for at most one list of places.
pub fn places_stand_for_one()
    ensures { (scale : ℕ) (text : List ℕ) (a b : GsrcPlaces) → PlacesStandFor scale text a
        → PlacesStandFor scale text b → a ≡ b }
{}
