//! Answers that no search gives.

ghost use Rattle.std.specs.Prelude.{◌≡◌, ◌⊎◌};
ghost use Rattle.sf_jobs.specs.Seen.{told_seen};
ghost use Rattle.sf_program.specs.Answer.{usage_line};
ghost use Rattle.sf_batch.specs.Alone.{LacksMemory, silent, told_of};

use sf_designs::Stop;
use sf_io::Status;
use sf_jobs::Answer;
use sf_program::usage;
use std::alloc::Global;

/// An answer that prints nothing.
pub fn silent(alloc: Global, status: Status) -> Answer
    ensures { told_seen result ≡ silent status }
{
    Answer {
        status,
        text: Vec::new(alloc),
    }
}

/// The answer where a stage stops: the line of a refusal, or nothing.
pub fn answer_of(alloc: Global, stop: Stop) -> Answer
    ensures { told_seen result ≡ told_of stop }
{
    match stop {
        Stop::Refused(status, text) => Answer { status, text },
        Stop::ReadFault => silent(alloc, Status::ReadFault),
        Stop::NoMemory => silent(alloc, Status::NoMemory),
    }
}

/// The answer to words that mean nothing.
pub fn usage_answer(alloc: Global) -> Answer
    ensures { ((result.status ≡ Status.Usage) × (result.text.items ≡ usage_line))
        ⊎ LacksMemory (told_seen result) }
{
    match usage(alloc) {
        Ok(work) => Answer {
            status: work.status,
            text: work.text,
        },
        Err(_) => silent(alloc, Status::NoMemory),
    }
}
