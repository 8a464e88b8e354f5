//! Seats that offer and read, split off and joined again.

use sf_incumbent::Incumbent;
use std::alloc::{AllocError, Global};

/// What offers by two seats and a read by the first one answer, and what is left of all.
fn answers(alloc: Global) -> Result<[u64; 5], AllocError> {
    let (word, mut one) = Incumbent::new(alloc, 9, 2)?;
    let mut two = word.split(&mut one);
    let first = word.offer(&mut one, 7);
    let second = word.offer(&mut two, 8);
    let third = word.offer(&mut two, 6);
    let read = word.read(&mut one);
    word.join(&mut one, two);
    Ok([first, second, third, read, word.finish(one)])
}

/// A seat sees what another one offers, and the least offer of all is left.
#[test]
fn the_least_offer_of_all_seats_is_left(rt: HostRuntime) {
    assert!(rt; answers(rt.alloc()) == Ok([7, 7, 6, 6, 6]));
}
