//! The answer to a jobs file.

ghost use Rattle.std.specs.Prelude.{◌<◌, ℕ, List, Ok, Err, IfOk, IfErr, map, option_map};
ghost use Rattle.sf_options.specs.Seen.{plan_seen};
ghost use Rattle.sf_jobs.specs.Jobs.{JobsRefused};
ghost use Rattle.sf_designs.specs.Loads.{IsNoLoad, ReadsShelf, TellsNoLoad};
ghost use Rattle.sf_designs.specs.Outcome.{Ends, Stops};
ghost use Rattle.sf_designs.specs.Reading.{TextRead};
ghost use Rattle.sf_batch.specs.Batch.{IsBatch, JobsRead, JobsTextRead, JobsTextRefuses};

use crate::doing::do_jobs;
use sf_designs::{Stop, bare_fault, load_text, over_limit};
use sf_io::{Gate, Shelf};
use sf_jobs::{Answer, JobsFault, TeamWords, batch_status, batch_text, read_jobs};
use sf_options::PlanWords;
use std::alloc::{AllocError as NoMemory, Global};
use std::sync::{Arc, Wait};
use std::thread::Threads;

/// Why the text of a jobs file is refused.
fn jobs_fault(alloc: Global, fault: JobsFault) -> Result<Stop, NoMemory>
    ensures refused { (text : List ℕ) → JobsRefused text fault →
        IfOk result (λ stop. Stops stop (JobsTextRefuses text)) }
    ensures tells { IfOk result IsNoLoad }
{
    match fault {
        JobsFault::BadLine(line) => bare_fault(alloc, "jobs", line, "BadLine"),
        JobsFault::TooMany(found) => over_limit(alloc, "jobs", found, 256),
        JobsFault::NoMemory => Err(NoMemory),
    }
}

/// What the text of a jobs file asks for.
fn parse_jobs(alloc: Global, text: &[u8]) -> Result<Vec<Option<PlanWords<'_>>>, Stop>
    ensures jobs { Ends (λ v. map (option_map plan_seen) v.items) result (JobsTextRead text.now) }
    ensures tells { TellsNoLoad result }
{
    match read_jobs(alloc, text) {
        Ok(jobs) => Ok(jobs),
        Err(fault) => Err(jobs_fault(alloc, fault)?),
    }
}

/// What the jobs of this text come to.
fn answer_text<
    R: Threads + Wait + Sync + Copy + Send + 'static,
    S: Shelf,
    G: Gate + Drop + Send + 'static,
>(
    rt: &R,
    alloc: Global,
    text: &[u8],
    team: u16,
    shelf: &mut S,
    gate: Arc<G>,
) -> Result<Answer, Stop>
    requires { 0 < team }
    ensures batch { IfOk result (λ a. IsBatch (S.seen shelf.old) (S.seen shelf.new) text.now a.status a.text.items) }
    ensures refused { IfErr result (λ stop. Stops stop (JobsTextRefuses text.now)) }
    ensures shelf { ReadsShelf (S.seen shelf.old) (S.seen shelf.new) result }
{
    let jobs = parse_jobs(alloc, text)?;
    let all = do_jobs(rt, alloc, &jobs, team, shelf, gate)?;
    let text = batch_text(alloc, &all)?;
    Ok(Answer {
        status: batch_status(&all),
        text,
    })
}

/// What the jobs file comes to that the words name.
pub fn answer_file<
    R: Threads + Wait + Sync + Copy + Send + 'static,
    S: Shelf,
    G: Gate + Drop + Send + 'static,
>(rt: &R, alloc: Global, words: &TeamWords<'_>, shelf: &mut S, gate: Arc<G>) -> Result<Answer, Stop>
    ensures batch { IfOk result (λ a. (text : List ℕ)
        × TextRead (S.seen shelf.old).holds words.now.jobs.now (Ok text)
        × IsBatch (S.seen shelf.old) (S.seen shelf.new) text a.status a.text.items) }
    ensures refused { IfErr result (λ stop. Stops stop
        (λ why. JobsRead (S.seen shelf.old).holds words.now.jobs.now (Err why))) }
    ensures shelf { ReadsShelf (S.seen shelf.old) (S.seen shelf.new) result }
{
    let text = load_text(alloc, shelf, words.jobs)?;
    answer_text(rt, alloc, &text, words.team, shelf, gate)
}
