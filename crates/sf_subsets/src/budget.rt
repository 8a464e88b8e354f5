//! How much area the plans of a set may take.

ghost use Rattle.std.specs.Prelude.{◌≡◌, ◌^◌, ◌≤◌, length, All};
ghost use Rattle.sf_subsets.specs.Sets.{total};
ghost use Rattle.sf_subsets.specs.declared.limits.TheConstants.{MOST_BLOCKS};

/// What the plans of a set may take: the least areas of its blocks, and so much dead space.
#[derive(Drop)]
pub struct Budget {
    pub leasts: Vec<u64>,
    pub dead: u64,
    pub ghost few: { length leasts.items ≤ MOST_BLOCKS },
    pub ghost small: { All (λ n. n ≤ 2 ^ 41) leasts.items },
    pub ghost modest: { dead ≤ 2 ^ 41 },
}

impl Budget {
    ghost use Rattle.sf_subsets.specs.Gathering.{limit_of};

    /// The greatest area that a plan of the set may have.
    pub fn limit(&self, set: usize) -> u64
        ensures is { result ≡ limit_of self.now set }
        ensures small { result ≤ 2 ^ 47 }
    {
        total_of(&self.leasts, set) + self.dead
    }
}

/// The sum of the numbers of the blocks of a set.
pub fn total_of(leasts: &[u64], set: usize) -> u64
    requires few { length leasts.now ≤ MOST_BLOCKS }
    requires small { All (λ n. n ≤ 2 ^ 41) leasts.now }
    ensures is { result ≡ total leasts.now set }
    ensures small { result ≤ 2 ^ 46 }
{
    let mut sum = 0;
    let mut left = set;
    for least in leasts {
        if left % 2 == 1 {
            sum += *least;
        }
        left /= 2;
    }
    sum
}
