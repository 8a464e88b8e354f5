//! The outline of a chip: `WxH`, two decimals in the unit of the file.
ghost use Rattle.std.specs.Prelude.{ℕ, ◌≤◌, IfSome, IfNone};
ghost use Rattle.sf_words.specs.Outline.{IsSide, IsOutline, OutlineSays};
ghost use Rattle.sf_options.specs.Seen.{text_of};

use sf_lex::{Scale, read_decimal, split_at_byte};
use sf_model::MOST_SIDE;

/// Reads a side, in scaled units.
fn read_side(text: &[u8], scale: Scale) -> Option<u32>
    ensures side { IfSome result (IsSide scale.per_unit text.now) }
    ensures bound { IfSome result (λ side. side ≤ MOST_SIDE) }
    ensures none { IfNone result ((side : ℕ) → IsSide scale.per_unit text.now side → ⊥) }
{
    match read_decimal(text, scale.per_unit, MOST_SIDE) {
        Ok(side) if side > 0 => Some(side as u32),
        _ => None,
    }
}

/// Reads the sides of an outline that is given.
fn read_sides(text: &[u8], scale: Scale) -> Option<(u32, u32)>
    ensures outline { IfSome result (λ sides. IsOutline scale.per_unit text.now sides.0 sides.1) }
    ensures width { IfSome result (λ sides. sides.0 ≤ MOST_SIDE) }
    ensures height { IfSome result (λ sides. sides.1 ≤ MOST_SIDE) }
    ensures none { IfNone result ((width height : ℕ) → IsOutline scale.per_unit text.now width height → ⊥) }
{
    let (before, after) = split_at_byte(text, b'x');
    let width = read_side(before, scale)?;
    let height = read_side(after, scale)?;
    Some((width, height))
}

/// Reads the width and the height of the outline in scaled units, of the scale.
pub fn read_outline(text: Option<&str>, scale: Scale) -> Option<(u32, u32)>
    ensures outline { IfSome result (λ sides.
        OutlineSays scale.per_unit (text_of text.entry) sides.0 sides.1) }
    ensures width_low { IfSome result (λ sides. 1 ≤ sides.0) }
    ensures width_high { IfSome result (λ sides. sides.0 ≤ MOST_SIDE) }
    ensures height_low { IfSome result (λ sides. 1 ≤ sides.1) }
    ensures height_high { IfSome result (λ sides. sides.1 ≤ MOST_SIDE) }
    ensures none { IfNone result ((width height : ℕ)
        → OutlineSays scale.per_unit (text_of text.entry) width height → ⊥) }
{
    match text {
        None => Some((MOST_SIDE as u32, MOST_SIDE as u32)),
        Some(text) => read_sides(text.as_bytes(), scale),
    }
}
