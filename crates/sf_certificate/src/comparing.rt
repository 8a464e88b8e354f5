//! The order of paths.

ghost use Rattle.std.specs.Prelude.{◌≡◌};
ghost use Rattle.sf_node.specs.Order.{rank, steps_cmp};
ghost use Rattle.sf_certificate.specs.Ranks.{block_of, kind_of};

use sf_node::Step;
use std::cmp::Ordering;

/// The block that a step names, or 0. Apart from the kind, so that no branch is taken for either.
fn block_of(step: Step) -> u16
    ensures { result ≡ block_of step }
{
    match step {
        Step::Beside | Step::Above => 0,
        Step::Block(block) | Step::Left(block) | Step::Right(block) => block,
    }
}

/// A number for each kind of step.
fn kind_of(step: Step) -> u32
    ensures { result ≡ kind_of step }
{
    match step {
        Step::Beside => 0,
        Step::Above => 1,
        Step::Block(_) => 2,
        Step::Left(_) => 3,
        Step::Right(_) => 4,
    }
}

/// A number for each step, no two alike.
pub fn rank(step: Step) -> u32
    ensures { result ≡ rank step }
{
    3 * u32::from(block_of(step)) + kind_of(step)
}

/// The order of two lists of steps: by the first step in which they differ, and a list right before those
/// that go on from it.
pub fn compare_steps(first: &[Step], second: &[Step]) -> Ordering
    ensures { result ≡ steps_cmp first.now second.now }
{
    let mut left = first;
    let mut right = second;
    while let Some((x, more)) = left.split_first() {
        let Some((y, rest)) = right.split_first() else {
            return Ordering::Greater;
        };
        let order = rank(*x).cmp(&rank(*y));
        if order != Ordering::Equal {
            return order;
        }
        left = more;
        right = rest;
    }
    if right.is_empty() {
        Ordering::Equal
    } else {
        Ordering::Less
    }
}
