//! The top call.

ghost use Rattle.std.specs.Prelude.{◌≡◌, ◌≢◌, ◌≤◌, ◌⊎◌, map, Some, OnOk, OnErr, IsFalse, string_bytes};
ghost use Rattle.std.specs.Io.KnownBytes.{Appends};
ghost use Rattle.sf_io.specs.Outside.{Contents, Rose};
ghost use Rattle.sf_options.specs.Options.{Command, GenOptions, PlanOptions, ResumeOptions};
ghost use Rattle.sf_words.specs.Meaning.{Means};
ghost use Rattle.sf_options.specs.Options.{gen, plan, resume};
ghost use Rattle.sf_program.specs.Answer.{IsAnswer, IsDone, IsHalted, IsSilent, RefusesWords};
ghost use Rattle.sf_program.specs.Answer.{StoreOrPrintFailed};
ghost use Rattle.sf_program.specs.Complete.{IsTaken, MayEnd};
ghost use Rattle.sf_program.specs.Headline.{HasSearched, IsHeadline, IsHeadlineOn};
ghost use Rattle.sf_program.specs.Generated.{GenRead};
ghost use Rattle.sf_designs.specs.Outcome.{lost};
ghost use Rattle.sf_program.specs.Planned.{PlanRead};
ghost use Rattle.sf_designs.specs.Stores.{AfterStores, StoppedAt, stored_in};

use crate::commands::work;
use crate::laws::{answers_are_one, taken_texts_are_answered};
use sf_designs::{Store, Work};
use sf_io::{Failed, Gate, NeverShelf, NeverSink, Shelf, Sink, Status, write_all};
use std::alloc::Global;
use std::thread::Threads;

/// Stores texts one after another, up to the first store that fails.
fn store_all<S: Shelf>(shelf: &mut S, stores: &[Store]) -> Result<(), Failed>
    ensures stored { let stores = stored_in stores.now in
        OnOk result (AfterStores (S.seen shelf.old).holds stores (S.seen shelf.new).holds) }
    ensures stopped { let stores = stored_in stores.now in
        OnErr result (StoppedAt (S.seen shelf.old).holds stores (S.seen shelf.new).holds) }
    ensures failed { OnErr result (Rose (S.seen shelf.old).store_faults (S.seen shelf.new).store_faults) }
    ensures later { (S.seen shelf.old).store_faults ≤ (S.seen shelf.new).store_faults }
    ensures loads { (S.seen shelf.new).load_faults ≡ (S.seen shelf.old).load_faults }
{
    match stores.split_first() {
        None => Ok(()),
        Some((first, rest)) => {
            shelf.store(first.name.as_str(), &first.bytes)?;
            store_all(shelf, rest)
        }
    }
}

/// Stores and prints an answer.
fn finish<S: Shelf, K: Sink>(shelf: &mut S, out: &mut K, work: &Work) -> Status
    requires { IsAnswer work.now.status }
    ensures done { let stores = stored_in work.now.stores.items in IsAnswer result →
        (result ≡ work.now.status)
        × AfterStores (S.seen shelf.old).holds stores (S.seen shelf.new).holds
        × Appends (K.seen out.old).taken (K.seen out.new).taken work.now.text.items }
    ensures only { IsAnswer result ⊎ (result ≡ Status.WriteFault) }
    ensures write_fault { result ≡ Status.WriteFault →
        Rose (S.seen shelf.old).store_faults (S.seen shelf.new).store_faults
        ⊎ Rose (K.seen out.old).faults (K.seen out.new).faults }
    ensures halted { let stores = stored_in work.now.stores.items in result ≡ Status.WriteFault →
        StoreOrPrintFailed stores work.now.text.items
        (S.seen shelf.old) (S.seen shelf.new) (K.seen out.old) (K.seen out.new) }
{
    if store_all(shelf, &work.stores).is_err() {
        return Status::WriteFault;
    }
    match write_all(out, &work.text) {
        Ok(()) => work.status,
        Err(_) => Status::WriteFault,
    }
}

/// Does what the words ask for, and says how it ended. The words are those after the program's name.
pub fn run<R: Threads + Sync, S: Shelf, K: Sink, G: Gate>(
    rt: &R,
    alloc: Global,
    words: &[String],
    shelf: &mut S,
    out: &mut K,
    gate: &G,
) -> Status
    // The headline: what is printed of a search is a floorplan of the blocks read, its cost, and a bound
    // that none undercuts.
    ensures headline { HasSearched result → (o : PlanOptions) → Means (map string_bytes words.now) (plan o) →
        IsHeadline (PlanRead (S.seen shelf.old).holds o) o.nodes
        (K.seen out.old).taken (K.seen out.new).taken result }
    ensures generated { HasSearched result → (o : GenOptions) → Means (map string_bytes words.now) (gen o) →
        IsHeadline (GenRead o) o.nodes (K.seen out.old).taken (K.seen out.new).taken result }
    ensures resumed { HasSearched result → (o : ResumeOptions) → Means (map string_bytes words.now) (resume o) →
        IsHeadlineOn o (S.seen shelf.old).holds (K.seen out.old).taken (K.seen out.new).taken result }

    // Where nothing fails, the answer that the words and the texts on the shelf have is stored and printed
    // whole. The checker says Yes to each certificate that is stored, and each closed subproblem of it
    // names the first part of the bound that is at least the cost.
    ensures answer { IsAnswer result → IsDone (map string_bytes words.now)
        (S.seen shelf.old).holds (S.seen shelf.new).holds
        (K.seen out.old).taken (K.seen out.new).taken result }

    // A fault of reading or of writing is told only where one was counted.
    ensures read_fault { result ≡ Status.ReadFault →
        Rose (S.seen shelf.old).load_faults (S.seen shelf.new).load_faults }
    ensures write_fault { result ≡ Status.WriteFault →
        Rose (S.seen shelf.old).store_faults (S.seen shelf.new).store_faults
        ⊎ Rose (K.seen out.old).faults (K.seen out.new).faults }

    // That a load failed is told only of a file that the words name, at its turn, and only where its load
    // may fail. Where the shelf holds the files and no load is to fail, and every stage takes what they
    // say, nothing is refused.
    ensures lost { result ≡ Status.ReadFault →
        RefusesWords (map string_bytes words.now) (S.seen shelf.old).holds lost }
    ensures complete { (command : Command) (contents : Contents) →
        Means (map string_bytes words.now) command →
        (S.seen shelf.old).holds ≡ Some contents → IsFalse contents.may_fail → IsTaken command contents →
        MayEnd command result }

    // What is stored and printed where something failed, and which count rose.
    ensures halted { result ≡ Status.WriteFault → IsHalted (map string_bytes words.now)
        (S.seen shelf.old) (S.seen shelf.new) (K.seen out.old) (K.seen out.new) }
    ensures silent { IsSilent result →
        ((S.seen shelf.new).holds ≡ (S.seen shelf.old).holds)
        × ((K.seen out.new).taken ≡ (K.seen out.old).taken) }
{
    // By these laws the answer is no other than any that the words and the texts have, and no refusal of
    // what is taken.
    answers_are_one();
    taken_texts_are_answered();
    match work(rt, alloc, words, shelf, gate) {
        Ok(work) => finish(shelf, out, &work),
        Err(fault) => fault,
    }
}

/// The same over an outside that never fails: no fault of reading or of writing is answered.
pub fn run_unfailing<R: Threads + Sync, G: Gate>(
    rt: &R,
    alloc: Global,
    words: &[String],
    shelf: &mut NeverShelf,
    out: &mut NeverSink,
    gate: &G,
) -> Status
    ensures read { result ≢ Status.ReadFault }
    ensures written { result ≢ Status.WriteFault }
{
    run(rt, alloc, words, shelf, out, gate)
}
