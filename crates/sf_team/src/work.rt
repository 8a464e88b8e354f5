//! What a worker does.

ghost use Rattle.std.specs.Prelude.{◌≡◌, false, []};
ghost use Rattle.std.specs.Fn.{FnReturnsAt};
ghost use Rattle.crossbeam_channel.specs.Claims.{view, IsSeatAt};
ghost use Rattle.crossbeam_channel.specs.Ends.{receives_on};
ghost use Rattle.sf_team.specs.Answers.{AreAnswers};
ghost use Rattle.sf_team.specs.Rule.{hand};

use crate::gives::Gives;
use crate::message::{Done, Message};
use crate::rule::{JobPass, Queue, Takes};
use std::alloc::Global;
use std::sync::Wait;

/// Takes jobs and does them, until a stop mark comes, the channel has no sender or memory runs out. A job
/// that comes to nothing for want of memory is left to the caller.
pub fn work<R: Wait, J: Drop, D: Drop, W: Gives<J, D>, F: Fn(&J) -> Option<D>>(
    rt: &R,
    alloc: Global,
    does: &F,
    jobs: &Queue<J>,
    mut pass: JobPass<J>,
) -> (JobPass<J>, Vec<Done<D>>)
    requires callable { F.IsAlwaysCallable does.now }
    requires gives { (job : _) (answer : _) → FnReturnsAt F.Fn does.now job answer → W.gives job answer }
    requires channel { IsSeatAt (receives_on jobs.now) pass }
    requires new { view pass ≡ hand false [] [] }
    ensures channel { IsSeatAt (receives_on jobs.now) result.0 }
    ensures answers { AreAnswers W.gives (view result.0).taken result.1.items }
{
    let mut all = Vec::new(alloc);
    for _ in rt.forever() {
        if all.reserve(1).is_err() {
            return (pass, all);
        }
        match jobs.recv_as::<Takes, R>(rt, &mut pass) {
            Ok(Message::Work(numbered)) => {
                if let Some(answer) = does(&numbered.job) {
                    all.push_reserved(Done {
                        number: numbered.number,
                        answer,
                    });
                }
            }
            Ok(Message::Stop) => return (pass, all),
            Err(_) => return (pass, all),
        }
    }
    unreachable!()
}
