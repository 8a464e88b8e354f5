//! Lengths in the unit of the file.

ghost use Rattle.std.specs.Prelude.{◌≡◌, ◌++◌, ◌<◌, ◌≤◌, OnOk, string_bytes};
ghost use Rattle.sf_pl_writer.specs.Length.{IsScale, decimals, length_text, signed_text};

use std::alloc::AllocError as NoMemory;

/// Adds a length with its sign.
pub fn push_signed(text: &mut String, length: i64, scale: u64) -> Result<(), NoMemory>
    requires { IsScale scale }
    ensures { OnOk result (string_bytes text.new ≡ string_bytes text.old ++ signed_text scale length) }
{
    if length < 0 {
        text.push_str("-")?;
    }
    push_length(text, length.unsigned_abs(), scale)
}

/// Adds a length: its whole part, and where a rest is left a point and the digits of the rest.
pub fn push_length(text: &mut String, length: u64, scale: u64) -> Result<(), NoMemory>
    requires { IsScale scale }
    ensures { OnOk result (string_bytes text.new ≡ string_bytes text.old ++ length_text scale length) }
{
    let whole = length / scale;
    let rest = length % scale;
    write!(text, "{whole}")?;
    if rest == 0 {
        return Ok(());
    }
    text.push_str(".")?;
    push_decimals(text, rest, scale, 3)
}

/// Adds the digits of a rest by long division.
fn push_decimals(text: &mut String, rest: u64, scale: u64, places: u32) -> Result<(), NoMemory>
    requires scale { IsScale scale }
    requires rest { rest < scale }
    ensures { OnOk result (string_bytes text.new ≡ string_bytes text.old ++ decimals places scale rest) }
{
    if places == 0 || rest == 0 {
        return Ok(());
    }
    let digit = 10 * rest / scale;
    write!(text, "{digit}")?;
    push_decimals(text, 10 * rest % scale, scale, places - 1)
}
