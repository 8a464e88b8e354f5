//! The sums over the items and the unused blocks.

ghost use Rattle.std.specs.Prelude.{◌≡◌};
ghost use Rattle.sf_frames.specs.Sums.{AreWithin, joined};

use crate::least::Least;

/// The sum of the least areas of some groups, and their greatest least sides.
#[derive(Clone, Copy)]
pub struct Sums {
    pub area: u64,
    pub w: u32,
    pub h: u32,
}

/// The sums after two of the groups became one; none where a group fits in no way.
pub fn joined(
    sums: Option<Sums>,
    left: Option<Least>,
    right: Option<Least>,
    made: Option<Least>,
) -> Option<Sums>
    requires { AreWithin sums left right made }
    ensures { result ≡ joined sums left right made }
{
    let (Some(sums), Some(left), Some(right), Some(made)) = (sums, left, right, made) else {
        return None;
    };
    Some(Sums {
        area: sums.area - (left.area + right.area) + made.area,
        w: sums.w.max(made.w),
        h: sums.h.max(made.h),
    })
}
