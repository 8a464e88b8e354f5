//! What reaches share, and how far apart their ends are.

ghost use Rattle.std.specs.Prelude.{◌≡◌, ◌≤◌, ◌-ℤ◌};
ghost use Rattle.sf_standard.specs.Hull.{to_nat};
ghost use Rattle.sf_nets.specs.Ends.{IsFitInterval, IsFitReach, shared, met, reach_gap};

use crate::reach::Reach;
use sf_standard::Interval;

/// What two intervals share.
fn shared(first: Interval, second: Interval) -> Interval
    ensures { result ≡ shared first second }
{
    Interval {
        low: first.low.max(second.low),
        high: first.high.min(second.high),
    }
}

/// What two reaches share.
pub fn met(first: Reach, second: Reach) -> Reach
    ensures is { result ≡ met first second }
    ensures near { IsFitReach first → IsFitReach second → IsFitReach result }
{
    Reach {
        across: shared(first.across, second.across),
        upward: shared(first.upward, second.upward),
    }
}

/// How far the lower end lies above the upper one, or 0.
#[tactic(auto, using(sf_model::proofs::Used::to_nat_none, crate::proofs::ToNat::to_nat_abs))]
fn difference(interval: Interval) -> u64
    requires near { IsFitInterval interval }
    ensures is { result ≡ to_nat (interval.low -ℤ interval.high) }
    ensures small { result ≤ 1400000000 }
{
    if interval.low <= interval.high {
        return 0;
    }
    (interval.low - interval.high) as u64
}

/// How far apart the ends are, across and upward.
pub fn reach_gap(reach: Reach) -> u64
    requires near { IsFitReach reach }
    ensures is { result ≡ reach_gap reach }
    ensures small { result ≤ 2800000000 }
{
    difference(reach.across) + difference(reach.upward)
}
