//! A cost as a word of a text.

ghost use Rattle.std.specs.Prelude.{◌≡◌, ◌++◌, OnOk, string_bytes};
ghost use Rattle.sf_model.specs.CostText.{cost_text};

use crate::MAX;
use std::alloc::AllocError as NoMemory;

/// Adds a cost, or a bound of costs: its digits, or `none` for `MAX`.
pub fn push_cost(text: &mut String, cost: u64) -> Result<(), NoMemory>
    ensures { OnOk result (string_bytes text.new ≡ string_bytes text.old ++ cost_text cost) }
{
    if cost == MAX {
        text.push_str("none")
    } else {
        write!(text, "{cost}")
    }
}
