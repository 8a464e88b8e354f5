//! A job whose design is built, and its search.

ghost use Rattle.sf_batch.specs.Built.{IsFound};

use sf_io::Gate;
use sf_jobs::Answer;
use sf_model::Design;
use sf_options::BoundsChoice;
use sf_program::{Names, search_design};
use sf_team::Gives;
use std::alloc::Global;
use std::thread::Threads;

/// A job whose design is built, with its number in the jobs file and its budget.
#[derive(Drop)]
pub struct BuiltJob {
    pub number: usize,
    pub nodes: Option<u64>,
    pub design: Design,
}

/// What the search of a job told, under the job's number.
#[derive(Drop)]
pub struct FoundJob {
    pub number: usize,
    pub answer: Answer,
}

/// Says what a built job comes to: what a search of its design tells.
pub struct Searched;

impl Gives<BuiltJob, FoundJob> for Searched {
    ghost use Rattle.sf_batch.specs.Built.{IsFound};

    ghost gives = { IsFound };
}

/// Searches the design of a job by one worker, or gives nothing where the memory doesn't suffice. The text of
/// the certificate is dropped.
pub fn search_job<R: Threads + Sync, G: Gate>(
    rt: &R,
    alloc: Global,
    job: &BuiltJob,
    gate: &G,
) -> Option<FoundJob>
    ensures { IsFound job.now result }
{
    let names = Names {
        cert: "",
        pl: None,
        scale: 1,
    };
    let Ok(work) = search_design(
        rt,
        alloc,
        BoundsChoice::Standard,
        &job.design,
        None,
        job.nodes,
        1,
        names,
        gate,
    ) else {
        return None;
    };
    Some(FoundJob {
        number: job.number,
        answer: Answer {
            status: work.status,
            text: work.text,
        },
    })
}
