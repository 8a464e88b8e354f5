//! The caller's side of a team.

ghost use Rattle.std.specs.Prelude.{◌≡◌, ◌<◌, [], ◌∷◌, ◌++◌, IfOk, OnOk, OnErr};
ghost use Rattle.std.specs.List.{AllZip};
ghost use Rattle.std.specs.Arc.{arc_value};
ghost use Rattle.std.specs.Fn.{FnReturnsAt};

use crate::gives::Gives;
use crate::join::{fill, join_all};
use crate::rule::{Caller, Hand, JobPass, Jobs};
use crate::send::{send_job, stop_all};
use crate::start::{Handle, start_all};
use crossbeam_channel::bounded_with;
use std::alloc::{AllocError, Global};
use std::marker::Model;
use std::sync::{Arc, Wait};
use std::thread::Threads;

/// A team at work on the jobs that it was given. Its value is the list of these jobs, in their order.
#[derive(Drop)]
pub struct Team<J: Drop, D: Drop, W: Gives<J, D>> {
    jobs: Jobs<J>,
    pass: JobPass<J>,
    handles: Vec<Handle<J, D, W>>,
    given: Vec<Arc<J>>,
    table: Vec<Option<D>>,
}

impl<J: Drop, D: Drop, W: Gives<J, D>> Model for Team<J, D, W> {
    ghost use Rattle.std.specs.Prelude.{◌≡◌, List, All, map};
    ghost use Rattle.std.specs.Arc.{arc_value};
    ghost use Rattle.crossbeam_channel.specs.Claims.{view as known, IsSeatAt};
    ghost use Rattle.crossbeam_channel.specs.Ends.{sends_on};
    ghost use Rattle.sf_team.specs.Answers.{IsTable};
    ghost use Rattle.sf_team.specs.Rule.{IsCaller};

    ghost Value = { List J };

    ghost view = { λ t. map arc_value t.given.items };

    ghost invariant = { λ t. IsSeatAt (sends_on t.jobs) t.pass
        × IsCaller (map arc_value t.given.items) (known t.pass)
        × All (λ h. sends_on h.promise.jobs.value ≡ sends_on t.jobs) t.handles.items
        × IsTable W.gives (map arc_value t.given.items) t.table.items };
}

/// Starts a team of at most so many workers, and of as many of these as can be started. No job is given yet.
pub fn start_team<
    R: Threads + Wait + Copy + Send + 'static,
    J: Send + Sync + Drop + 'static,
    D: Send + Drop + 'static,
    W: Gives<J, D> + Send + Sync + 'static,
    F: Fn(&J) -> Option<D> + Send + Sync + Drop + 'static,
>(rt: R, alloc: Global, does: &Arc<F>, team: u16) -> Result<Team<J, D, W>, AllocError>
    requires some { 0 < team }
    requires callable { F.IsAlwaysCallable (arc_value does.now) }
    requires gives { (job : _) (answer : _) → FnReturnsAt F.Fn (arc_value does.now) job answer
        → W.gives job answer }
    ensures { IfOk result (λ t. t ≡ []) }
{
    let capacity = 2 * usize::from(team);
    let (jobs, queue, mut pass) = bounded_with::<_, Hand<J>, Caller, Global>(alloc, capacity)?;
    let handles = start_all(rt, alloc, does, &jobs, &queue, &mut pass, team);
    Ok(Team {
        jobs,
        pass,
        handles,
        given: Vec::new(alloc),
        table: Vec::new(alloc),
    })
}

impl<J: Drop, D: Drop, W: Gives<J, D>> Team<J, D, W> {
    /// Gives the team one more job. The call waits while the channel is full.
    pub fn give<R: Wait>(&mut self, rt: &R, job: Arc<J>) -> Result<(), AllocError>
        ensures given { OnOk result (self.new ≡ self.old ++ arc_value job ∷ []) }
        ensures kept { OnErr result (self.new ≡ self.old) }
    {
        self.table.reserve(1)?;
        send_job(rt, &self.jobs, &mut self.pass, &mut self.given, job)?;
        self.table.push_reserved(None);
        Ok(())
    }

    /// What each job comes to, in the order in which they were given: what it gives by itself, whatever the
    /// team and the schedule. The caller does what no worker answered.
    pub fn finish<R: Threads + Wait, F: Fn(&J) -> Option<D>>(
        self,
        rt: &R,
        does: &F,
    ) -> Vec<Option<D>>
        requires callable { F.IsAlwaysCallable does.now }
        requires gives { (job : _) (answer : _) → FnReturnsAt F.Fn does.now job answer → W.gives job answer }
        ensures { AllZip W.gives self result.items }
    {
        let Team {
            jobs,
            mut pass,
            handles,
            given,
            mut table,
        } = self;
        stop_all(rt, &jobs, &mut pass, handles.len());
        join_all(rt, &jobs, &mut pass, handles, &mut table);
        fill::<J, D, W, F>(does, &given, &mut table);
        table
    }
}
