//! What a line of a pl file says by itself. Nothing here takes memory.

ghost use Rattle.std.specs.Prelude.{◌≡◌, ◌≤◌, IfOk, Ok, Err};
ghost use Rattle.std.specs.Option.{option_map};
ghost use Rattle.sf_lex.specs.Text.{words};
ghost use Rattle.sf_lex.specs.Gap.{is_gap, first_word};
ghost use Rattle.sf_gsrc.specs.Line.{coordinate_in_word};
ghost use Rattle.sf_gsrc.specs.PlaceLine.{length_in_word, sides_said, size_in_words, spot_said, place_said};
ghost use Rattle.sf_lex.specs.Results.{seen};
ghost use Rattle.sf_gsrc.specs.PlacesKept.{place_in};

use crate::fault::LineFault;
use sf_lex::{Gap, LENGTH_LIMIT, Scale, next_field, read_decimal, read_signed, split_word};

/// A name at its place, and its size where the line tells one.
#[derive(Clone, Copy)]
pub struct PlaceLine<'a> {
    pub name: &'a [u8],
    pub x: i64,
    pub y: i64,
    pub size: Option<(u64, u64)>,
}

/// A coordinate.
fn read_coordinate(word: &[u8], scale: Scale) -> Result<i64, LineFault>
    ensures { result ≡ coordinate_in_word scale.per_unit word.now }
{
    Ok(read_signed(word, scale.per_unit, LENGTH_LIMIT)?)
}

/// The length of a side.
fn read_length(word: &[u8], scale: Scale) -> Result<u64, LineFault>
    ensures { result ≡ length_in_word scale.per_unit word.now }
{
    Ok(read_decimal(word, scale.per_unit, LENGTH_LIMIT)?)
}

/// The two words of the sides, where `DIMS` follows.
#[tactic(auto, unfolding(crate::specs::PlaceLine::sides_said))]
fn next_sides(rest: &[u8]) -> Result<Option<(&[u8], &[u8])>, LineFault>
    ensures { seen (option_map (λ s. (s.0.now, s.1.now))) result
        ≡ sides_said (words (is_gap Gap.Sizes) rest.now) }
{
    match next_field(rest, Gap::Sizes) {
        Some((b"DIMS", rest)) => {
            let Some((w, rest)) = next_field(rest, Gap::Sizes) else {
                return Err(LineFault::BadLine);
            };
            let Some((h, _)) = next_field(rest, Gap::Sizes) else {
                return Err(LineFault::BadLine);
            };
            Ok(Some((w, h)))
        }
        _ => Ok(None),
    }
}

/// The size that two words are, where there are such.
#[tactic(auto, unfolding(crate::specs::PlaceLine::size_in_words))]
fn read_size(sides: Option<(&[u8], &[u8])>, scale: Scale) -> Result<Option<(u64, u64)>, LineFault>
    ensures { result ≡ size_in_words scale.per_unit (option_map (λ s. (s.0.now, s.1.now)) sides.entry) }
{
    let Some((w, h)) = sides else {
        return Ok(None);
    };
    let w = read_length(w, scale)?;
    let h = read_length(h, scale)?;
    if w == 0 || h == 0 {
        return Err(LineFault::ZeroSide);
    }
    Ok(Some((w, h)))
}

/// What a line says: a name, two coordinates, and maybe a size.
#[tactic(auto, unfolding(crate::specs::PlaceLine::place_said, crate::specs::PlaceLine::spot_said))]
pub fn read_place_line(line: &[u8], scale: Scale) -> Result<PlaceLine<'_>, LineFault>
    ensures says { seen place_in result ≡ place_said scale.per_unit line.now }
    ensures name { IfOk result (λ s. s.name.now ≡ first_word Gap.Blanks line.now) }
{
    let (name, rest) = split_word(line, Gap::Blanks);
    let (x, rest) = split_word(rest, Gap::Blanks);
    let (y, rest) = split_word(rest, Gap::Blanks);
    if y.is_empty() {
        return Err(LineFault::BadLine);
    }
    let sides = next_sides(rest)?;
    let x = read_coordinate(x, scale)?;
    let y = read_coordinate(y, scale)?;
    let size = read_size(sides, scale)?;
    Ok(PlaceLine { name, x, y, size })
}
