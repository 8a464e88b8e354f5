//! From the words to their answer.

ghost use Rattle.std.specs.Prelude.{◌≡◌, [], IfErr, IfOk, map, string_bytes};
ghost use Rattle.sf_io.specs.Outside.{Rose};
ghost use Rattle.sf_options.specs.Seen.{command_seen};
ghost use Rattle.sf_program.specs.Answer.{Answers, HasScale, IsSilent, Obeys, RefusesWords, usage_line};
ghost use Rattle.sf_designs.specs.Loads.{Reads, ReadsShelf};
ghost use Rattle.sf_designs.specs.Outcome.{lost};
ghost use Rattle.sf_designs.specs.Stores.{Gives, stored_in};

use crate::checking::check;
use crate::generating::generate;
use crate::planning::plan;
use crate::resuming::resume;
use sf_designs::{Stop, Work};
use sf_io::{Gate, Shelf, Status};
use sf_measuring::{measure, shape};
use sf_options::CommandWords;
use sf_words::read_words;
use std::alloc::Global;
use std::thread::Threads;

/// The answer to words that mean nothing.
pub fn usage(alloc: Global) -> Result<Work, Status>
    ensures status { IfOk result (λ w. w.status ≡ Status.Usage) }
    ensures stores { IfOk result (λ w. stored_in w.stores.items ≡ []) }
    ensures text { IfOk result (λ w. w.text.items ≡ usage_line) }
    ensures fault { IfErr result (λ status. status ≡ Status.NoMemory) }
{
    match Vec::from_slice(alloc, b"error Usage\n") {
        Ok(text) => Ok(Work::printed(alloc, Status::Usage, text)),
        Err(_) => Err(Status::NoMemory),
    }
}

/// Does what a command asks for, but for stores and prints.
fn obey<R: Threads + Sync, S: Shelf, G: Gate>(
    rt: &R,
    alloc: Global,
    command: CommandWords<'_>,
    shelf: &mut S,
    gate: &G,
) -> Result<Work, Stop>
    requires scale { HasScale (command_seen command) }
    ensures answer { Obeys (command_seen command.entry) (S.seen shelf.old).holds result }
    ensures shelf { ReadsShelf (S.seen shelf.old) (S.seen shelf.new) result }
{
    match command {
        CommandWords::Plan(words) => plan(rt, alloc, &words, shelf, gate),
        CommandWords::Check(words) => check(alloc, &words, shelf),
        CommandWords::Resume(words) => resume(rt, alloc, &words, shelf, gate),
        CommandWords::Measure(words) => measure(alloc, &words, shelf),
        CommandWords::Shape(words) => shape(alloc, &words, shelf),
        CommandWords::Gen(words) => generate(rt, alloc, &words, gate),
    }
}

/// What the words are answered, before anything of it is stored or printed. A refusal is an answer as any
/// other: its line is printed. Where a load failed or the memory didn't suffice, there is only a status.
pub fn work<R: Threads + Sync, S: Shelf, G: Gate>(
    rt: &R,
    alloc: Global,
    words: &[String],
    shelf: &mut S,
    gate: &G,
) -> Result<Work, Status>
    ensures answer { let words = map string_bytes words.now in
        IfOk result (Gives (Answers words (S.seen shelf.old).holds)) }
    ensures fault { IfErr result IsSilent }
    ensures lost { let words = map string_bytes words.now in IfErr result (λ status.
        status ≡ Status.ReadFault → RefusesWords words (S.seen shelf.old).holds lost) }
    ensures counted { IfErr result (λ status.
        status ≡ Status.ReadFault → Rose (S.seen shelf.old).load_faults (S.seen shelf.new).load_faults) }
    ensures read { Reads (S.seen shelf.old) (S.seen shelf.new) }
{
    match read_words(alloc, words) {
        Err(_) => Err(Status::NoMemory),
        Ok(None) => usage(alloc),
        Ok(Some(command)) => match obey(rt, alloc, command, shelf, gate) {
            Ok(work) => Ok(work),
            Err(Stop::Refused(status, line)) => Ok(Work::printed(alloc, status, line)),
            Err(Stop::ReadFault) => Err(Status::ReadFault),
            Err(Stop::NoMemory) => Err(Status::NoMemory),
        },
    }
}
