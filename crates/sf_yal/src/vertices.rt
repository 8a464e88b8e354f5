//! The vertices of a module's outline, and the box round them.

ghost use Rattle.std.specs.Prelude.{◌≡◌, Ok, Err};
ghost use Rattle.sf_lex.specs.Text.{words, is_blank_byte};
ghost use Rattle.sf_yal.specs.Box.{length_read, number_in, vertex_fault, dimensions_said};

use crate::fault::YalFault;
use crate::piece::count_words;
use sf_lex::{BoxSize, Gap, LENGTH_LIMIT, NumberFault, Scale, VertexFault, read_box, read_signed};

/// A length with a sign or without one.
pub fn read_length(word: &[u8], scale: Scale) -> Result<i64, NumberFault>
    ensures { result ≡ length_read scale.per_unit word.now }
{
    read_signed(word, scale.per_unit, LENGTH_LIMIT)
}

/// What was read, or its fault at this line.
pub fn number_at(number: Result<i64, NumberFault>, line: u64) -> Result<i64, YalFault>
    ensures { result ≡ number_in line number }
{
    match number {
        Ok(value) => Ok(value),
        Err(fault) => Err(YalFault::BadNumber(line, fault)),
    }
}

/// The fault of vertices at this line.
fn fault_at(line: u64, fault: VertexFault) -> YalFault
    ensures { result ≡ vertex_fault line fault }
{
    match fault {
        VertexFault::Missing => YalFault::BadStatement(line),
        VertexFault::BadNumber(number) => YalFault::BadNumber(line, number),
    }
}

/// The bounding box of the vertices that a statement lists.
#[tactic(auto, unfolding(crate::specs::Box::dimensions_said))]
pub fn read_dimensions(places: &[u8], line: u64, scale: Scale) -> Result<BoxSize, YalFault>
    ensures { result ≡ dimensions_said scale.per_unit line (words is_blank_byte places.now) }
{
    let count = count_words(places);
    if count < 4 || count % 2 != 0 {
        return Err(YalFault::BadStatement(line));
    }
    match read_box(places, Gap::Blanks, (count / 2) as u64, scale) {
        Ok(size) => Ok(size),
        Err(fault) => Err(fault_at(line, fault)),
    }
}
