//! Starting workers.

ghost use Rattle.std.specs.Prelude.{◌≡◌, false, [], All, IfSome};
ghost use Rattle.std.specs.Arc.{arc_value};
ghost use Rattle.std.specs.Fn.{FnReturnsAt};
ghost use Rattle.crossbeam_channel.specs.Claims.{view, IsSeatAt};
ghost use Rattle.crossbeam_channel.specs.Ends.{sends_on, receives_on};
ghost use Rattle.sf_team.specs.Answers.{AreAnswers};
ghost use Rattle.sf_team.specs.Rule.{hand};

use crate::gives::Gives;
use crate::message::Done;
use crate::rule::{JobPass, Jobs, Queue, Worker};
use crate::work::work;
use std::alloc::Global;
use std::marker::PhantomData;
use std::snapshot::Snapshot;
use std::sync::{Arc, Wait};
use std::thread;
use std::thread::{Promise, PromisedHandle, Threads};

/// What a worker hands back: its pass, and answers to what it took.
#[derive(Drop)]
pub struct FromWorker<J: Drop, W> {
    pub jobs: Snapshot<Jobs<J>>,
    gives: PhantomData<W>,
}

impl<J: Drop, D: Drop, W: Gives<J, D>> Promise<(JobPass<J>, Vec<Done<D>>)> for FromWorker<J, W> {
    ghost use Rattle.crossbeam_channel.specs.Claims.{view, IsSeatAt};
    ghost use Rattle.crossbeam_channel.specs.Ends.{sends_on};
    ghost use Rattle.sf_team.specs.Answers.{AreAnswers};

    ghost kept_by = { λ p r. IsSeatAt (sends_on p.jobs.value) r.0 × AreAnswers W.gives (view r.0).taken r.1.items };
}

/// A worker that was started.
pub type Handle<J, D, W> = PromisedHandle<(JobPass<J>, Vec<Done<D>>), FromWorker<J, W>>;

/// Starts a worker with an end of the channel and a pass of its own, if it can be started.
fn spawn<
    R: Threads + Wait + Copy + Send + 'static,
    J: Send + Sync + Drop + 'static,
    D: Send + Drop + 'static,
    W: Gives<J, D> + Send + Sync + 'static,
    F: Fn(&J) -> Option<D> + Send + Sync + Drop + 'static,
>(
    rt: R,
    alloc: Global,
    does: Arc<F>,
    jobs: &Jobs<J>,
    mine: Queue<J>,
    theirs: JobPass<J>,
) -> Option<Handle<J, D, W>>
    requires callable { F.IsAlwaysCallable (arc_value does) }
    requires gives { (job : _) (answer : _) → FnReturnsAt F.Fn (arc_value does) job answer
        → W.gives job answer }
    requires channel { IsSeatAt (sends_on jobs.now) theirs }
    requires one { receives_on mine ≡ sends_on jobs.now }
    requires new { view theirs ≡ hand false [] [] }
    ensures { IfSome result (λ h. sends_on h.promise.jobs.value ≡ sends_on jobs.now) }
{
    let started = thread::spawn_with(
        &rt,
        FromWorker {
            jobs: Snapshot::of(jobs),
            gives: PhantomData,
        },
        move ||
            requires { F.IsAlwaysCallable (arc_value does)
                × ((job : _) (answer : _) → FnReturnsAt F.Fn (arc_value does) job answer → W.gives job answer)
                × IsSeatAt (receives_on mine) theirs × (view theirs ≡ hand false [] []) }
            ensures { IsSeatAt (receives_on mine) result.0 × AreAnswers W.gives (view result.0).taken result.1.items }
        { work::<R, J, D, W, F>(&rt, alloc, &*does, &mine, theirs) },
    );
    match started {
        Ok(handle) => Some(handle),
        Err(_) => None,
    }
}

/// Starts a worker, if it can be started.
fn start<
    R: Threads + Wait + Copy + Send + 'static,
    J: Send + Sync + Drop + 'static,
    D: Send + Drop + 'static,
    W: Gives<J, D> + Send + Sync + 'static,
    F: Fn(&J) -> Option<D> + Send + Sync + Drop + 'static,
>(
    rt: R,
    alloc: Global,
    does: &Arc<F>,
    jobs: &Jobs<J>,
    queue: &Queue<J>,
    pass: &mut JobPass<J>,
) -> Option<Handle<J, D, W>>
    requires callable { F.IsAlwaysCallable (arc_value does.now) }
    requires gives { (job : _) (answer : _) → FnReturnsAt F.Fn (arc_value does.now) job answer
        → W.gives job answer }
    requires channel { IsSeatAt (sends_on jobs.now) pass.old }
    requires one { receives_on queue.now ≡ sends_on jobs.now }
    ensures channel { IsSeatAt (sends_on jobs.now) pass.new }
    ensures view { view pass.new ≡ view pass.old }
    ensures handle { IfSome result (λ h. sends_on h.promise.jobs.value ≡ sends_on jobs.now) }
{
    let Ok(mine) = queue.try_clone() else {
        return None;
    };
    let Ok(does) = Arc::try_clone(does) else {
        return None;
    };
    let theirs = jobs.another::<Worker>(pass);
    spawn(rt, alloc, does, jobs, mine, theirs)
}

/// Starts as many workers as can be started, and at most this many.
pub fn start_all<
    R: Threads + Wait + Copy + Send + 'static,
    J: Send + Sync + Drop + 'static,
    D: Send + Drop + 'static,
    W: Gives<J, D> + Send + Sync + 'static,
    F: Fn(&J) -> Option<D> + Send + Sync + Drop + 'static,
>(
    rt: R,
    alloc: Global,
    does: &Arc<F>,
    jobs: &Jobs<J>,
    queue: &Queue<J>,
    pass: &mut JobPass<J>,
    team: u16,
) -> Vec<Handle<J, D, W>>
    requires callable { F.IsAlwaysCallable (arc_value does.now) }
    requires gives { (job : _) (answer : _) → FnReturnsAt F.Fn (arc_value does.now) job answer
        → W.gives job answer }
    requires channel { IsSeatAt (sends_on jobs.now) pass.old }
    requires one { receives_on queue.now ≡ sends_on jobs.now }
    ensures channel { IsSeatAt (sends_on jobs.now) pass.new }
    ensures view { view pass.new ≡ view pass.old }
    ensures handles { All (λ h. sends_on h.promise.jobs.value ≡ sends_on jobs.now) result.items }
{
    let mut handles = Vec::new(alloc);
    for _ in 0..team {
        if handles.reserve(1).is_err() {
            break;
        }
        if let Some(handle) = start(rt, alloc, does, jobs, queue, pass) {
            handles.push_reserved(handle);
        }
    }
    handles
}
