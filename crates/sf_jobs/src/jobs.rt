//! The jobs of a jobs file.

ghost use Rattle.std.specs.Prelude.{◌≡◌, IfOk, IfErr, map, option_map};
ghost use Rattle.sf_options.specs.Seen.{plan_seen};
ghost use Rattle.sf_jobs.specs.Jobs.{JobsStand, JobsRefused};

use crate::fault::JobsFault;
use crate::plan::read_job;
use sf_gsrc::next_content;
use sf_lex::Scan;
use sf_options::PlanWords;
use std::alloc::Global;

/// How many jobs there may be.
const MOST_JOBS: u64 = 256;

/// What the words of each job of a jobs file mean, in the order of its lines. A job is a line of the five
/// words BLOCKS, NETS, PL, WIRE and NODES; it means nothing where a name begins with a hyphen, but for the
/// single hyphens that leave out NETS and PL. The name of each certificate is empty, since none is stored.
pub fn read_jobs(alloc: Global, text: &[u8]) -> Result<Vec<Option<PlanWords<'_>>>, JobsFault>
    ensures jobs { IfOk result (λ jobs. JobsStand text.now (map (option_map plan_seen) jobs.items)) }
    ensures refused { IfErr result (JobsRefused text.now) }
{
    let mut jobs = Vec::new(alloc);
    let mut found = 0;
    let mut scan = Scan::new(text);
    while let Some(line) = next_content(&mut scan) {
        let Some(job) = read_job(&line) else {
            return Err(JobsFault::BadLine(line.line));
        };
        if found < MOST_JOBS {
            jobs.push(job)?;
        }
        found += 1;
    }
    if found > MOST_JOBS {
        return Err(JobsFault::TooMany(found));
    }
    Ok(jobs)
}
