//! A team whose jobs end only where two of them are done at once, and a team with more jobs than its
//! channel holds.

ghost use Rattle.std.specs.Prelude.{◌<◌};

use sf_team::{Gives, start_team};
use std::alloc::{AllocError, Global};
use std::sync::atomic::{AtomicU64, Ordering};
use std::sync::{Arc, Wait};
use std::thread::Threads;

/// How often a job looks whether another one came.
const TURNS: u64 = 100_000_000;

/// Nothing is said of what a job comes to.
struct Anything;

impl Gives<u64, u64> for Anything {
    ghost gives = { λ job answer. Unit {0} };
}

/// Waits until this many jobs came, or the turns run out, and says whether they came.
fn meets(came: &AtomicU64, wanted: u64) -> bool {
    came.fetch_add(1, Ordering::SeqCst);
    for _ in 0..TURNS {
        if came.load(Ordering::SeqCst) >= wanted {
            return true;
        }
    }
    false
}

/// What these jobs come to: their number, or nothing where too few came at once.
fn answers<R: Threads + Wait + Copy + Send + 'static>(
    rt: R,
    alloc: Global,
    team: u16,
    count: u64,
    wanted: u64,
) -> Result<Vec<Option<u64>>, AllocError>
    requires { 0 < team }
{
    let came = AtomicU64::new(0);
    let does = Arc::new(alloc, move |job: &u64| -> Option<u64> {
        if meets(&came, wanted) {
            Some(*job)
        } else {
            None
        }
    })?;
    let mut team = start_team::<R, u64, u64, Anything, _>(rt, alloc, &does, team)?;
    for job in 0..count {
        team.give(&rt, Arc::new(alloc, job)?)?;
    }
    Ok(team.finish(&rt, &*does))
}

/// Whether each of so many jobs came to its number, in their order.
fn are_numbers(all: &[Option<u64>], count: u64) -> bool {
    let mut number = 0;
    for answer in all {
        if number >= count || *answer != Some(number) {
            return false;
        }
        number += 1;
    }
    number == count
}

/// Two workers do two jobs at once, and a team of any size does each job that it is given.
#[test]
fn answers_of_teams(rt: HostRuntime) -> Result<(), AllocError> {
    for (team, count, wanted) in [(2, 2, 2), (1, 20, 1), (4, 100, 1), (3, 0, 1)] {
        let all = answers(rt, rt.alloc(), team, count, wanted)?;
        assert!(rt; are_numbers(&all, count), "{team} {count}");
    }
    Ok(())
}
