//! How a job begins: its files are read and its design is built, or it is refused.

ghost use Rattle.std.specs.Prelude.{option_map};
ghost use Rattle.sf_lex.specs.Scan.{Line};
ghost use Rattle.sf_options.specs.Seen.{plan_seen};
ghost use Rattle.sf_jobs.specs.Job.{SaysJob};
ghost use Rattle.sf_designs.specs.Loads.{Reads};
ghost use Rattle.sf_batch.specs.Progress.{Begins, IsCounted};

use crate::answers::{answer_of, usage_answer};
use crate::job::BuiltJob;
use sf_io::Shelf;
use sf_jobs::Answer;
use sf_options::PlanWords;
use sf_program::read_plan;
use std::alloc::Global;

/// A job before its search.
#[derive(Drop)]
pub enum Begun {
    /// It has its answer, since it is refused or its files can't be read.
    Told(Answer),
    /// Its design is built.
    Built(BuiltJob),
}

/// Reads the files of a job and builds its design. Words that mean nothing have no files.
pub fn begin_job<S: Shelf>(
    alloc: Global,
    shelf: &mut S,
    number: usize,
    asked: &Option<PlanWords<'_>>,
) -> Begun
    ensures begins { (line : Line) → SaysJob line (option_map plan_seen asked.now)
        → Begins (S.seen shelf.old).holds number line result }
    ensures reads { Reads (S.seen shelf.old) (S.seen shelf.new) }
    ensures counted { IsCounted (S.seen shelf.old).load_faults (S.seen shelf.new).load_faults result }
{
    let Some(words) = asked else {
        return Begun::Told(usage_answer(alloc));
    };
    match read_plan(alloc, shelf, words) {
        Ok(design) => Begun::Built(BuiltJob {
            number,
            nodes: words.nodes,
            design,
        }),
        Err(stop) => Begun::Told(answer_of(alloc, stop)),
    }
}
