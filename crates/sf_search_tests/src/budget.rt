//! Accounts that draw from one budget.

use sf_budget::Budget;
use std::alloc::{AllocError, Global};

/// What two accounts draw in turn of 10,000, where these parts are asked for, and what is left for both at last.
fn draws(alloc: Global) -> Result<[u64; 5], AllocError> {
    let (budget, mut one) = Budget::new(alloc, 10_000)?;
    let mut two = budget.split(&mut one);
    let first = budget.draw(&mut one, 4);
    let second = budget.draw(&mut two, 4);
    let third = budget.draw(&mut two, 8);
    let all = budget.draw(&mut one, 0);
    let none = budget.draw(&mut two, 4);
    budget.join(&mut one, two);
    budget.finish(one);
    Ok([first, second, third, all, none])
}

/// A quarter of 10,000 is 2,500, of the rest 1,732, and an eighth of what then is left is 610: each is raised to a
/// multiple of 1,024. The last 3,856 are drawn at once, since 0 parts count as one, and then nothing is left.
#[test]
fn draws_are_parts_of_what_is_left(rt: HostRuntime) {
    assert!(rt; draws(rt.alloc()) == Ok([3_072, 2_048, 1_024, 3_856, 0]));
}
