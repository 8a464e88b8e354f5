//! The range of a net's pins along one axis.

ghost use Rattle.std.specs.Prelude.{◌≡◌, ◌≤◌, ◌^◌, ◌-ℤ◌, nat_abs};
ghost use Rattle.std.specs.Int.{int_max, int_min};
ghost use Rattle.sf_model.specs.Limits.{IsDoubledCoordinate};

/// The least and the greatest of some doubled coordinates.
#[derive(Clone, Copy)]
pub struct Extent {
    pub least: i64,
    pub greatest: i64,
}

impl Extent {
    /// That of one coordinate.
    pub fn of(at: i64) -> Extent
        requires { IsDoubledCoordinate at }
        ensures least { result.least ≡ at }
        ensures greatest { result.greatest ≡ at }
    {
        Extent {
            least: at,
            greatest: at,
        }
    }

    /// With one coordinate more.
    pub fn with(self, at: i64) -> Extent
        ensures least { result.least ≡ int_min self.least at }
        ensures greatest { result.greatest ≡ int_max self.greatest at }
    {
        Extent {
            least: self.least.min(at),
            greatest: self.greatest.max(at),
        }
    }

    /// How far they are apart.
    pub fn spread(self) -> u64
        requires least { IsDoubledCoordinate self.least }
        requires greatest { IsDoubledCoordinate self.greatest }
        ensures apart { result ≡ nat_abs (self.greatest -ℤ self.least) }
        ensures bounded { result ≤ 2 ^ 22 }
    {
        (self.greatest - self.least).unsigned_abs()
    }
}
