//! The batch program: the words, files and standard output of the host, handed to its one call.
#![tactic(auto)]

ghost use Rattle.std.specs.Prelude.{map, string_bytes};
ghost use Rattle.floorbatch.specs.Ending.{MayEnd};

use sf_batch::run_batch;
use sf_host::{code_of, host_words};
use sf_io::{HostShelf, HostSink, OpenGate, Status};
use std::alloc::AllocError as NoMemory;
use std::process::ExitCode;
use std::sync::{Arc, Wait};
use std::thread::Threads;

/// Does what the words ask for.
fn answer<T: Threads + Wait + Sync + Copy + Send + 'static>(
    rt: HostRuntime,
    threads: &T,
    words: &[String],
) -> Status
    ensures { MayEnd (map string_bytes words.now) result }
{
    let alloc = rt.alloc();
    let mut shelf = HostShelf::new(rt, alloc);
    let mut sink = HostSink::new(rt);
    match Arc::new(alloc, OpenGate) {
        Ok(gate) => run_batch(threads, alloc, words, &mut shelf, &mut sink, gate),
        Err(_) => Status::NoMemory,
    }
}

/// The words of the system, read and obeyed.
fn main(rt: HostRuntime) -> ExitCode {
    match host_words(rt) {
        Ok(words) => code_of(answer(rt, &rt, &words)),
        Err(NoMemory) => code_of(Status::NoMemory),
    }
}
