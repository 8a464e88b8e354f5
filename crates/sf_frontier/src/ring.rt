//! A team: a deque for each worker, and a thief at the next one.

ghost use Rattle.std.specs.Prelude.{◌≡◌, ◌<◌, ◌≤◌, length, All, IfOk};
ghost use Rattle.sf_frontier.specs.Team.{IsTeam, IsNewPlace, IsNewOwner, IsNewThief, HasSlots};

use crate::ends::{Owner, Thief};
use crate::place::Place;
use crate::rule::Served;
use std::alloc::{AllocError as NoMemory, Global};
use std::mem;

/// How many tasks a deque is made for. It grows as it needs to.
const FIRST_SLOTS: usize = 64;

/// One deque for each worker, and for each worker a thief on the next worker's deque; the first is next after
/// the last. A worker alone has no thief.
pub fn team<T: Served>(alloc: Global, workers: u16) -> Result<Vec<Place<T>>, NoMemory>
    requires { 1 ≤ workers }
    ensures team { IfOk result (λ places. IsTeam places.items × (length places.items ≡ workers)) }
    ensures new { IfOk result (λ places. All IsNewPlace places.items) }
    ensures slots { IfOk result (λ places. All (HasSlots 64) places.items) }
{
    let owner = Owner::alone(alloc, FIRST_SLOTS)?;
    if workers == 1 {
        let mut places = Vec::new(alloc);
        places.push(Place {
            owner,
            thieves: Vec::new(alloc),
        })?;
        return Ok(places);
    }
    let (owner, thief) = owner.thief()?;
    ring(alloc, owner, thief, workers)
}

/// The first worker's deque is made, and its thief goes to the last worker.
fn ring<T: Served>(
    alloc: Global,
    mut owner: Owner<T>,
    first: Thief<T>,
    workers: u16,
) -> Result<Vec<Place<T>>, NoMemory>
    requires some { 1 ≤ workers }
    requires deque { (owner.deque ≡ first.deque) × (owner.deque.parts ≡ 2) }
    requires new { IsNewOwner owner × IsNewThief first }
    requires slots { 64 ≤ owner.deque.first_slots }
    ensures team { IfOk result (λ places. IsTeam places.items × (length places.items ≡ workers)) }
    ensures new { IfOk result (λ places. All IsNewPlace places.items) }
    ensures slots { IfOk result (λ places. All (HasSlots 64) places.items) }
{
    let mut places = Vec::new(alloc);
    for _ in 1..workers {
        let (next, thief) = Owner::alone(alloc, FIRST_SLOTS)?.thief()?;
        let thieves = vec![in alloc; thief]?;
        let owner = mem::replace(&mut owner, next);
        places.push(Place { owner, thieves })?;
    }
    let thieves = vec![in alloc; first]?;
    places.push(Place { owner, thieves })?;
    Ok(places)
}
