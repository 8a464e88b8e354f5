//! Doing all jobs of a jobs file with a team of threads.

ghost use Rattle.std.specs.Prelude.{◌≡◌, ◌<◌, ℕ, List, All, length, map, option_map, IfOk, Option};
ghost use Rattle.std.specs.List.{AllZip};
ghost use Rattle.std.specs.Option.{ForSome};
ghost use Rattle.sf_io.specs.Outside.{Contents};
ghost use Rattle.sf_lex.specs.Scan.{Line};
ghost use Rattle.sf_options.specs.Seen.{plan_seen};
ghost use Rattle.sf_jobs.specs.Job.{SaysJob};
ghost use Rattle.sf_jobs.specs.Seen.{told_seen};
ghost use Rattle.sf_designs.specs.Loads.{Reads};
ghost use Rattle.sf_batch.specs.declared.job.BuiltJob.{BuiltJob};
ghost use Rattle.sf_batch.specs.Alone.{LacksMemory};
ghost use Rattle.sf_batch.specs.Built.{IsFound};
ghost use Rattle.sf_batch.specs.Progress.{AreDone, FitsLine, IsUnderWay};

use crate::answers::silent;
use crate::begun::{Begun, begin_job};
use crate::job::{BuiltJob, FoundJob, Searched, search_job};
use sf_io::{Gate, Shelf, Status};
use sf_jobs::Answer;
use sf_options::PlanWords;
use sf_team::{Team, start_team};
use std::alloc::{AllocError as NoMemory, Global};
use std::sync::{Arc, Wait};
use std::thread::Threads;

/// The team of a batch.
type JobTeam = Team<BuiltJob, FoundJob, Searched>;

/// An answer for each of so many jobs, as if the memory sufficed for none.
fn undone(alloc: Global, count: usize) -> Result<Vec<Answer>, NoMemory>
    ensures count { IfOk result (λ table. length table.items ≡ count) }
    ensures undone { IfOk result (λ table. All (λ answer. LacksMemory (told_seen answer)) table.items) }
{
    let mut table = Vec::new(alloc);
    for _ in 0..count {
        table.push(silent(alloc, Status::NoMemory))?;
    }
    Ok(table)
}

/// Gives the team a job. Where the memory doesn't suffice for that, the job is left undone.
fn give_job<R: Wait>(rt: &R, alloc: Global, team: &mut JobTeam, job: BuiltJob)
    ensures { (held : Option Contents) (lines : List Line) → FitsLine held lines job
        → All (FitsLine held lines) team.old → All (FitsLine held lines) team.new }
{
    if let Ok(job) = Arc::new(alloc, job) {
        let _ = team.give(rt, job);
    }
}

/// Begins one job after another: what is told at once goes into the table, and what is built to the team.
fn begin_all<R: Wait, S: Shelf>(
    rt: &R,
    alloc: Global,
    jobs: &[Option<PlanWords<'_>>],
    shelf: &mut S,
    team: &mut JobTeam,
    table: &mut [Answer],
)
    requires { length table.old ≡ length jobs.now }
    ensures under_way { (lines : List Line) (faults : ℕ) →
        let held = (S.seen shelf.old).holds in
        AllZip SaysJob lines (map (option_map plan_seen) jobs.now) →
        IsUnderWay held lines faults (S.seen shelf.old).load_faults (map told_seen table.old) team.old →
        IsUnderWay held lines faults (S.seen shelf.new).load_faults (map told_seen table.new) team.new }
    ensures reads { Reads (S.seen shelf.old) (S.seen shelf.new) }
{
    for (number, asked) in jobs.iter().enumerate() {
        match begin_job(alloc, shelf, number, asked) {
            Begun::Told(answer) => table[number] = answer,
            Begun::Built(job) => give_job(rt, alloc, team, job),
        }
    }
}

/// Puts what the team found into the table.
fn note_found(table: &mut [Answer], mut all: Vec<Option<FoundJob>>)
    requires { All (λ found. ForSome found (λ f. f.number < length table.old)) all.items }
    ensures { (held : Option Contents) (lines : List Line) (faults faults_then : ℕ) (given : List BuiltJob) →
        AllZip IsFound given all.items →
        IsUnderWay held lines faults faults_then (map told_seen table.old) given →
        IsUnderWay held lines faults faults_then (map told_seen table.new) given }
{
    while let Some(found) = all.pop() {
        if let Some(FoundJob { number, answer }) = found {
            table[number] = answer;
        }
    }
}

/// What each job comes to, in the order of the jobs.
pub fn do_jobs<
    R: Threads + Wait + Sync + Copy + Send + 'static,
    S: Shelf,
    G: Gate + Drop + Send + 'static,
>(
    rt: &R,
    alloc: Global,
    jobs: &[Option<PlanWords<'_>>],
    team: u16,
    shelf: &mut S,
    gate: Arc<G>,
) -> Result<Vec<Answer>, NoMemory>
    requires team { 0 < team }
    requires lines { (lines : List Line) × AllZip SaysJob lines (map (option_map plan_seen) jobs.now) }
    ensures done { (lines : List Line) → AllZip SaysJob lines (map (option_map plan_seen) jobs.now) →
        let first = S.seen shelf.old in IfOk result (λ all.
        AreDone first.holds lines first.load_faults (S.seen shelf.new).load_faults (map told_seen all.items)) }
    ensures reads { Reads (S.seen shelf.old) (S.seen shelf.new) }
{
    let mut table = undone(alloc, jobs.len())?;
    let worker = *rt;
    let does = Arc::new(
        alloc,
        move |job: &BuiltJob| -> Option<FoundJob>
            ensures { IsFound job.now result }
        { search_job(&worker, alloc, job, &*gate) },
    )?;
    let mut team = start_team::<R, BuiltJob, FoundJob, Searched, _>(*rt, alloc, &does, team)?;
    begin_all(rt, alloc, jobs, shelf, &mut team, &mut table);
    let found = team.finish(rt, &*does);
    note_found(&mut table, found);
    Ok(table)
}
