//! Stretches that a team puts, takes and steals, and what is left of a new team. They are told by their floors.

use sf_bounds::Standard;
use sf_cursor::{Cursor, Stretch};
use sf_frontier::{Owner, Place, Served, finish, team};
use sf_model::{Design, Shape};
use sf_test_designs::{WIDE, bare, block};
use std::alloc::{AllocError, Global};

struct AnyStretch;

impl Served for AnyStretch {
    ghost serves = { λ t. Unit {0} };
}

fn one_block(alloc: Global) -> Result<Design, AllocError> {
    let block = block(alloc, Shape { w: 1, h: 1 })?;
    bare(alloc, vec![in alloc; block]?, WIDE, 0)
}

/// A stretch from the root with this floor.
fn stretch(alloc: Global, design: &Design, floor: usize) -> Result<Stretch, AllocError> {
    Ok(Stretch {
        cursor: Cursor::new(alloc, design, &Standard)?,
        floor,
    })
}

/// The floor of a stretch that there may be.
fn floor_of(stretch: Option<Stretch>) -> Option<usize> {
    match stretch {
        Some(stretch) => Some(stretch.floor),
        None => None,
    }
}

/// The floor of what the first thief takes.
fn stolen(place: &mut Place<AnyStretch>) -> Option<usize> {
    let thief = place.thieves.get_mut(0)?;
    floor_of(thief.take())
}

/// Whether a thousand stretches are put.
fn thousand_are_put(alloc: Global) -> Result<bool, AllocError> {
    let design = one_block(alloc)?;
    let mut owner = Owner::<AnyStretch>::alone(alloc, 2)?;
    for floor in 0..1000 {
        if owner.put(stretch(alloc, &design, floor)?).is_err() {
            return Ok(false);
        }
    }
    Ok(true)
}

#[test]
fn a_thousand_puts_succeed(rt: HostRuntime) {
    assert!(rt; thousand_are_put(rt.alloc()) == Ok(true));
}

/// Whether the owner of a place puts three stretches.
fn three_are_put(
    alloc: Global,
    design: &Design,
    place: &mut Place<AnyStretch>,
) -> Result<bool, AllocError> {
    for floor in 0..3 {
        if place.owner.put(stretch(alloc, design, floor)?).is_err() {
            return Ok(false);
        }
    }
    Ok(true)
}

/// The first of two places puts three stretches. The floors of what the second owner takes, of what the first one's
/// thief takes, of what the second one's does, and of what the first owner takes then.
fn floors_taken(alloc: Global) -> Result<Option<[Option<usize>; 4]>, AllocError> {
    let design = one_block(alloc)?;
    let mut places = team::<AnyStretch>(alloc, 2)?;
    if !three_are_put(alloc, &design, &mut places[0])? {
        return Ok(None);
    }
    let other = floor_of(places[1].owner.take());
    let own = stolen(&mut places[0]);
    let first = stolen(&mut places[1]);
    let last = floor_of(places[0].owner.take());
    Ok(Some([other, own, first, last]))
}

#[test]
fn the_thief_takes_the_first_and_the_owner_the_last(rt: HostRuntime) {
    assert!(rt; floors_taken(rt.alloc()) == Ok(Some([None, None, Some(0), Some(2)])));
}

/// How many stretches are left of a team of three.
fn left_of_three(alloc: Global) -> Result<usize, AllocError> {
    let places = team::<AnyStretch>(alloc, 3)?;
    Ok(finish(alloc, places)?.left.as_slice().len())
}

#[test]
fn nothing_is_left_of_a_new_team(rt: HostRuntime) {
    assert!(rt; left_of_three(rt.alloc()) == Ok(0));
}
