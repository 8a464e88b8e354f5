//! The answers of the workers, and the caller's own.

ghost use Rattle.std.specs.Prelude.{◌≡◌, List, All, map};
ghost use Rattle.std.specs.List.{AllZip};
ghost use Rattle.std.specs.Arc.{arc_value};
ghost use Rattle.std.specs.Fn.{FnReturnsAt};
ghost use Rattle.crossbeam_channel.specs.Claims.{view, IsSeatAt};
ghost use Rattle.crossbeam_channel.specs.Ends.{sends_on};
ghost use Rattle.sf_team.specs.Answers.{AreRight, IsTable};
ghost use Rattle.sf_team.specs.Rule.{IsCaller};

use crate::gives::Gives;
use crate::message::Done;
use crate::rule::{JobPass, Jobs, Knows, Worker};
use crate::start::Handle;
use std::sync::Arc;
use std::thread::Threads;

/// Puts answers into the table. An answer under no job's number is left out.
fn note<J, D: Drop, W: Gives<J, D>>(table: &mut [Option<D>], mut all: Vec<Done<D>>)
    ensures { (given : List J) → IsTable W.gives given table.old → AreRight W.gives given all.items
        → IsTable W.gives given table.new }
{
    while let Some(done) = all.pop() {
        let Done { number, answer } = done;
        if number < table.len() {
            table[number] = Some(answer);
        }
    }
}

/// Joins the workers, and notes what they answered.
pub fn join_all<R: Threads, J: Drop, D: Drop, W: Gives<J, D>>(
    rt: &R,
    jobs: &Jobs<J>,
    pass: &mut JobPass<J>,
    mut handles: Vec<Handle<J, D, W>>,
    table: &mut [Option<D>],
)
    requires channel { IsSeatAt (sends_on jobs.now) pass.old }
    requires caller { (given : List J) × IsCaller given (view pass.old) }
    requires handles { All (λ h. sends_on h.promise.jobs.value ≡ sends_on jobs.now) handles.items }
    ensures { (given : List J) → IsCaller given (view pass.old) → IsTable W.gives given table.old
        → IsTable W.gives given table.new }
{
    while let Some(handle) = handles.pop() {
        let (theirs, all) = handle.join(rt);
        jobs.absorb::<Worker>(pass, theirs);
        jobs.learn_as::<Knows>(pass);
        note::<J, D, W>(table, all);
    }
}

/// Does what the table has no answer to.
pub fn fill<J: Drop, D: Drop, W: Gives<J, D>, F: Fn(&J) -> Option<D>>(
    does: &F,
    given: &[Arc<J>],
    table: &mut [Option<D>],
)
    requires callable { F.IsAlwaysCallable does.now }
    requires gives { (job : _) (answer : _) → FnReturnsAt F.Fn does.now job answer → W.gives job answer }
    requires table { IsTable W.gives (map arc_value given.now) table.old }
    ensures { AllZip W.gives (map arc_value given.now) table.new }
{
    for (number, job) in given.iter().enumerate() {
        if table[number].is_none() {
            table[number] = does(job);
        }
    }
}
