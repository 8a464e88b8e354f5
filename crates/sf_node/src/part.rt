//! The parts of a bound.

ghost use Rattle.std.specs.Prelude.{◌≡◌, ℕ};
ghost use Rattle.sf_node.specs.declared.part.Part.{Part as PartName};
ghost use Rattle.sf_node.specs.ByPart.{AreValues, first_part};

/// A part of the bound of a subproblem: what its areas cost at least, the same with the range, the pair or
/// the hull of each net, and all of it.
#[derive(Clone, Copy, Debug, PartialEq, Eq)]
pub enum Part {
    Area,
    Range,
    Pair,
    Hull,
    Full,
}

/// The values of all parts but the full one, at one subproblem, in the units of costs.
#[derive(Clone, Copy)]
pub struct PartValues {
    pub area: u64,
    pub range: u64,
    pub pair: u64,
    pub hull: u64,
}

impl PartValues {
    /// The first part whose value is at least the cost: the full one where no other is.
    pub fn first(&self, cost: u64) -> Part
        ensures { (part : PartName → ℕ) → AreValues part self.now → result ≡ first_part part cost }
    {
        if cost <= self.area {
            Part::Area
        } else if cost <= self.range {
            Part::Range
        } else if cost <= self.pair {
            Part::Pair
        } else if cost <= self.hull {
            Part::Hull
        } else {
            Part::Full
        }
    }
}
