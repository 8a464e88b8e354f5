//! The top call.

ghost use Rattle.std.specs.Prelude.{◌≡◌, ◌≢◌, ℕ, List, map, string_bytes};
ghost use Rattle.std.specs.Io.KnownBytes.{Appends};
ghost use Rattle.sf_io.specs.Outside.{Rose, Took};
ghost use Rattle.sf_io.specs.declared.status.Status.{Status};
ghost use Rattle.sf_designs.specs.Loads.{Reads};
ghost use Rattle.sf_batch.specs.Batch.{BatchAnswers};

use crate::answers::{answer_of, usage_answer};
use crate::file::answer_file;
use sf_io::{Gate, Shelf, Sink, Status, write_all};
use sf_jobs::{Answer, read_team_words};
use std::alloc::Global;
use std::sync::{Arc, Wait};
use std::thread::Threads;

/// What the words are answered, before anything is printed.
fn answer<
    R: Threads + Wait + Sync + Copy + Send + 'static,
    S: Shelf,
    G: Gate + Drop + Send + 'static,
>(rt: &R, alloc: Global, words: &[String], shelf: &mut S, gate: Arc<G>) -> Answer
    ensures answer { BatchAnswers (map string_bytes words.now)
        (S.seen shelf.old) (S.seen shelf.new) result.status result.text.items }
    ensures reads { Reads (S.seen shelf.old) (S.seen shelf.new) }
{
    let Some(words) = read_team_words(words) else {
        return usage_answer(alloc);
    };
    match answer_file(rt, alloc, &words, shelf, gate) {
        Ok(answer) => answer,
        Err(stop) => answer_of(alloc, stop),
    }
}

/// Plans the designs of a jobs file with a team of threads, prints what each job prints alone, in the order of
/// the jobs, and says how the batch ended. The words are those after the program's name.
pub fn run_batch<
    R: Threads + Wait + Sync + Copy + Send + 'static,
    S: Shelf,
    K: Sink,
    G: Gate + Drop + Send + 'static,
>(rt: &R, alloc: Global, words: &[String], shelf: &mut S, out: &mut K, gate: Arc<G>) -> Status
    // The answer is printed whole: each job's text as the job prints it alone, in the order of the jobs, or
    // the one line of words or a jobs file that are refused, or nothing.
    ensures answer { result ≢ Status.WriteFault → (printed : List ℕ)
        × BatchAnswers (map string_bytes words.now) (S.seen shelf.old) (S.seen shelf.new) result printed
        × Appends (K.seen out.old).taken (K.seen out.new).taken printed }

    // A failed load and a failed print are told only where one was counted.
    ensures read_fault { result ≡ Status.ReadFault →
        Rose (S.seen shelf.old).load_faults (S.seen shelf.new).load_faults }
    ensures write_fault { result ≡ Status.WriteFault → Rose (K.seen out.old).faults (K.seen out.new).faults }

    // Where a print failed, a first part of the answer was taken.
    ensures halted { result ≡ Status.WriteFault → (status : Status) × (printed : List ℕ)
        × BatchAnswers (map string_bytes words.now) (S.seen shelf.old) (S.seen shelf.new) status printed
        × Took (K.seen out.old).taken (K.seen out.new).taken printed }

    // Nothing is stored.
    ensures held { (S.seen shelf.new).holds ≡ (S.seen shelf.old).holds }
    ensures stores { (S.seen shelf.new).store_faults ≡ (S.seen shelf.old).store_faults }
{
    let answer = answer(rt, alloc, words, shelf, gate);
    match write_all(out, &answer.text) {
        Ok(()) => answer.status,
        Err(_) => Status::WriteFault,
    }
}
