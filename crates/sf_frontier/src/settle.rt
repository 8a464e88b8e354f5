//! The end of a team: what is left in its deques is taken out.

ghost use Rattle.std.specs.Prelude.{◌≡◌, List, ◌++◌, All, IfOk};
ghost use Rattle.sf_cursor.specs.declared.stretch.Stretch.{Stretch};
ghost use Rattle.sf_frontier.specs.Ends.{IsDrained};
ghost use Rattle.sf_frontier.specs.Team.{IsTeam, IsFinished};

use crate::ends::Owner;
use crate::left::Finish;
use crate::place::Place;
use crate::rule::Served;
use sf_cursor::{Stretch, Stretches};
use std::alloc::{AllocError as NoMemory, Global};

/// Takes what is left in the deques of a team. Of each deque, what was put is what its owner took, what its
/// thief took and what is left; of what the owner did not take, the thief took the first.
pub fn finish<T: Served>(alloc: Global, mut places: Vec<Place<T>>) -> Result<Finish, NoMemory>
    requires { IsTeam places.items }
    ensures finished { IfOk result (λ done. IsFinished places.items done.left) }
    ensures served { IfOk result (λ done. All T.serves done.left) }
{
    let mut left = Vec::new(alloc);
    let Some(last) = places.pop() else {
        unreachable!()
    };
    let Place {
        mut owner,
        mut thieves,
    } = last;
    let Some(first) = thieves.pop() else {
        drain(owner, &mut left)?;
        return Ok(Finish {
            left: Stretches::from_vec(left),
        });
    };
    while let Some(place) = places.pop() {
        let Place {
            owner: before,
            mut thieves,
        } = place;
        let Some(thief) = thieves.pop() else {
            unreachable!()
        };
        drain(owner.join(thief), &mut left)?;
        owner = before;
    }
    drain(owner.join(first), &mut left)?;
    Ok(Finish {
        left: Stretches::from_vec(left),
    })
}

/// Takes what is left in the deque of an owner that has all parts of it.
fn drain<T: Served>(mut owner: Owner<T>, left: &mut Vec<Stretch>) -> Result<(), NoMemory>
    requires { owner.deque.parts ≡ 1 }
    ensures left { IfOk result (λ _. (more : List Stretch) × (left.new.items ≡ left.old.items ++ more)
        × IsDrained owner more × All T.serves more) }
{
    loop {
        left.reserve(1)?;
        match owner.take() {
            Some(task) => left.push_reserved(task),
            None => return Ok(()),
        }
    }
}
