//! Where a worker takes its tasks from, and where it puts them.

ghost use Rattle.std.specs.Prelude.{◌≡◌, ◌+◌, ◌<◌, ◌≤◌, [], ◌∷◌, IfSome};
ghost use Rattle.std.specs.Prelude.{vec_len, vec_capacity};
ghost use Rattle.sf_cursor.specs.declared.stretch.Stretch.{Stretch};
ghost use Rattle.sf_worker.specs.Takes.{IsFound, IsStolen, PutsAll, SamePuts};

use sf_cursor::Stretch;
use sf_frontier::{Owner, Place, Served, Thief};

/// How often a worker without a task tries to steal one before it ends its pass: for longer than a victim takes
/// between two looks at its deque.
const TRIES: u32 = 10_000;

/// The first task, else one of its own, else a stolen one.
pub fn find<T: Served>(first: &mut Option<Stretch>, place: &mut Place<T>) -> Option<Stretch>
    requires { IfSome first.old T.serves }
    ensures same { SamePuts place.old place.new }
    ensures found { IsFound T.serves first.old place.old first.new place.new result }
{
    if let Some(task) = first.take() {
        return Some(task);
    }
    if let Some(task) = place.owner.take() {
        return Some(task);
    }
    steal(&mut place.thieves)
}

/// Some tries at each thief, so that one whose victim has nothing to share yet waits a moment.
fn steal<T: Served>(thieves: &mut Vec<Thief<T>>) -> Option<Stretch>
    ensures { IsStolen T.serves thieves.old.items thieves.new.items result }
{
    for _ in 0..TRIES {
        if let Some(task) = try_each(thieves) {
            return Some(task);
        }
    }
    None
}

/// One try at each thief.
fn try_each<T: Served>(thieves: &mut Vec<Thief<T>>) -> Option<Stretch>
    ensures { IsStolen T.serves thieves.old.items thieves.new.items result }
{
    for i in 0..thieves.len() {
        let thief = &mut thieves[i];
        if let Some(task) = thief.take() {
            return Some(task);
        }
    }
    None
}

/// Puts a task, or keeps it where it comes back.
pub fn put<T: Served>(owner: &mut Owner<T>, kept: &mut Vec<Stretch>, task: Stretch)
    requires room { vec_len kept.old < vec_capacity kept.old }
    requires served { T.serves task }
    ensures room { (vec_capacity kept.new ≡ vec_capacity kept.old)
        × (vec_len kept.new ≤ vec_len kept.old + 1) }
    ensures put { PutsAll T.serves owner.old owner.new kept.old.items kept.new.items (task ∷ []) }
{
    if let Err(task) = owner.put(task) {
        kept.push_reserved(task);
    }
}
