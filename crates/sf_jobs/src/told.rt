//! What is printed of a list of jobs, and how the batch program ends.

ghost use Rattle.std.specs.Prelude.{◌≡◌, ◌++◌, IfOk, map, string_bytes};
ghost use Rattle.sf_jobs.specs.Seen.{told_seen};
ghost use Rattle.sf_jobs.specs.Told.{status_number, job_line, is_search_end};
ghost use Rattle.sf_jobs.specs.Told.{batch_text, batch_status};

use sf_io::Status;
use std::alloc::{AllocError as NoMemory, Global};

/// How a job, or a whole batch, ended, and what is printed of it.
#[derive(Drop)]
pub struct Answer {
    pub status: Status,
    pub text: Vec<u8>,
}

/// The number of a status.
fn number_of(status: Status) -> u8
    ensures { result ≡ status_number status }
{
    status as u8
}

/// The line of a job.
fn job_line(alloc: Global, number: usize, status: Status) -> Result<String, NoMemory>
    ensures { IfOk result (λ line. string_bytes line ≡ job_line number status) }
{
    let status = number_of(status);
    let line = format!(in alloc; "job {number} {status}\n")?;
    Ok(line)
}

/// Puts a job's line and its text behind those of the jobs before it.
fn push_job(alloc: Global, all: &mut Vec<u8>, number: usize, told: &Answer) -> Result<(), NoMemory>
    ensures { IfOk result (λ done. all.new.items
        ≡ all.old.items ++ (job_line number told.now.status ++ told.now.text.items)) }
{
    let line = job_line(alloc, number, told.status)?;
    all.extend_from_slice(line.as_bytes())?;
    all.extend_from_slice(&told.text)?;
    Ok(())
}

/// The texts of all jobs in their order, each behind a line with its number and its status.
pub fn batch_text(alloc: Global, all: &[Answer]) -> Result<Vec<u8>, NoMemory>
    ensures { IfOk result (λ text. text.items ≡ batch_text (map told_seen all.now)) }
{
    let mut text = Vec::new(alloc);
    for (number, told) in all.iter().enumerate() {
        push_job(alloc, &mut text, number, told)?;
    }
    Ok(text)
}

/// Whether a search with this status came to its end.
fn is_search_end(status: Status) -> bool
    ensures { result ≡ is_search_end status }
{
    matches!(status, Status::Done | Status::NoneFits | Status::Open)
}

/// The first status of a job that isn't that of a search which came to its end, or `Done` where there is
/// none.
pub fn batch_status(all: &[Answer]) -> Status
    ensures { result ≡ batch_status (map told_seen all.now) }
{
    match all.split_first() {
        None => Status::Done,
        Some((told, rest)) => {
            if is_search_end(told.status) {
                batch_status(rest)
            } else {
                told.status
            }
        }
    }
}
