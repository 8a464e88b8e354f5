//! What the wires take at least, by each part of the bound.

ghost use Rattle.std.specs.Prelude.{◌≡◌, ◌+◌, ◌*◌, ◌^◌, max};
ghost use Rattle.sf_nets.specs.WireParts.{AreAtMost};

use crate::wires::weighed;

/// What wires take at least, by range, by pair, by hull and by the greatest of these: of one net, or summed
/// over all nets, each as often as its weight says.
#[derive(Clone, Copy)]
pub struct WireParts {
    pub range: u64,
    pub pair: u64,
    pub hull: u64,
    pub full: u64,
}

/// No wires.
pub const NO_WIRES: WireParts = WireParts {
    range: 0,
    pair: 0,
    hull: 0,
    full: 0,
};

impl WireParts {
    /// The parts of one net.
    pub fn of_net(range: u64, pair: u64, hull: u64) -> WireParts
        ensures range { result.range ≡ range }
        ensures pair { result.pair ≡ pair }
        ensures hull { result.hull ≡ hull }
        ensures full { result.full ≡ max range (max pair hull) }
    {
        WireParts {
            range,
            pair,
            hull,
            full: range.max(pair.max(hull)),
        }
    }

    /// These with the parts of one more net, as often as its weight says.
    pub fn with_net(self, weight: u8, net: WireParts) -> WireParts
        requires sums { AreAtMost (2 ^ 60) self }
        requires small { AreAtMost 2800000000 net }
        ensures range { result.range ≡ self.range + weight * net.range }
        ensures pair { result.pair ≡ self.pair + weight * net.pair }
        ensures hull { result.hull ≡ self.hull + weight * net.hull }
        ensures full { result.full ≡ self.full + weight * net.full }
    {
        WireParts {
            range: self.range + weighed(weight, net.range),
            pair: self.pair + weighed(weight, net.pair),
            hull: self.hull + weighed(weight, net.hull),
            full: self.full + weighed(weight, net.full),
        }
    }
}
