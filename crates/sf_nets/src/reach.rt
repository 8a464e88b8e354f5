//! An interval across and one upward.

use sf_standard::Interval;

/// What some intervals across and upward share: the greatest lower end and the least upper end of each. In
/// doubled units.
#[derive(Clone, Copy)]
pub struct Reach {
    pub across: Interval,
    pub upward: Interval,
}

/// The reach that no interval has narrowed.
pub const ANYWHERE: Reach = Reach {
    across: Interval {
        low: -700_000_000,
        high: 700_000_000,
    },
    upward: Interval {
        low: -700_000_000,
        high: 700_000_000,
    },
};
