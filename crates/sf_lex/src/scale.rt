//! How finely the lengths of a text are counted.

ghost use Rattle.std.specs.Prelude.{◌≤◌};

/// How many whole units one unit of a text is.
#[derive(Clone, Copy)]
pub struct Scale {
    /// From 1 to 1000.
    pub per_unit: u64,
    ghost low: { 1 ≤ per_unit },
    ghost high: { per_unit ≤ 1000 },
}
