//! What the caller sends.

ghost use Rattle.std.specs.Prelude.{◌≡◌, ◌∷◌, [], ◌++◌, List, map, OnOk, OnErr};
ghost use Rattle.std.specs.Arc.{arc_value};
ghost use Rattle.crossbeam_channel.specs.Claims.{view, IsSeatAt};
ghost use Rattle.crossbeam_channel.specs.Ends.{sends_on};
ghost use Rattle.sf_team.specs.Rule.{IsCaller};

use crate::message::{Message, Numbered};
use crate::rule::{JobPass, Jobs, Sends};
use std::alloc::AllocError;
use std::sync::{Arc, Wait};

/// Keeps a job and sends it. One that can't be sent is left to the caller.
pub fn send_job<R: Wait, J: Drop>(
    rt: &R,
    jobs: &Jobs<J>,
    pass: &mut JobPass<J>,
    given: &mut Vec<Arc<J>>,
    job: Arc<J>,
) -> Result<(), AllocError>
    requires channel { IsSeatAt (sends_on jobs.now) pass.old }
    requires caller { IsCaller (map arc_value given.old.items) (view pass.old) }
    ensures channel { IsSeatAt (sends_on jobs.now) pass.new }
    ensures caller { IsCaller (map arc_value given.new.items) (view pass.new) }
    ensures given { OnOk result
        (map arc_value given.new.items ≡ map arc_value given.old.items ++ arc_value job ∷ []) }
    ensures kept { OnErr result (given.new.items ≡ given.old.items) }
{
    let number = given.as_slice().len();
    given.reserve(1)?;
    let kept = Arc::try_clone(&job)?;
    given.push_reserved(kept);
    let _ = jobs.send_as::<Sends, R>(rt, pass, Message::Work(Numbered { number, job }));
    Ok(())
}

/// Sends a stop mark for each worker. One that can't be sent has no worker that waits for it.
pub fn stop_all<R: Wait, J: Drop>(rt: &R, jobs: &Jobs<J>, pass: &mut JobPass<J>, workers: usize)
    requires channel { IsSeatAt (sends_on jobs.now) pass.old }
    requires caller { (given : List J) × IsCaller given (view pass.old) }
    ensures channel { IsSeatAt (sends_on jobs.now) pass.new }
    ensures caller { (given : List J) → IsCaller given (view pass.old) → IsCaller given (view pass.new) }
{
    for _ in 0..workers {
        let _ = jobs.send_as::<Sends, R>(rt, pass, Message::Stop);
    }
}
