//! The program: the words, files and standard output of the host, handed to the floorplanner's one call.
#![tactic(auto)]

ghost use Rattle.std.specs.Prelude.{◌≡◌, map, IfSome, string_bytes};
ghost use Rattle.std.specs.Process.{exit_status};
ghost use Rattle.sf_io.specs.declared.status.Status.{Status};
ghost use Rattle.sf_words.specs.Meaning.{Means};
ghost use Rattle.sf_options.specs.Seen.{command_seen};
ghost use Rattle.floorplan.specs.Ending.{MayEnd, NamesBudget};
ghost use Rattle.sf_host.specs.Number.{number};

mod losses;
mod progress;

use losses::{CountingShelf, design_of, may_lose};
use progress::{AfterProgress, Progress};
use sf_host::{code_of, host_words};
use sf_io::{HostShelf, HostSink, OpenGate, Status};
use sf_options::CommandWords;
use sf_program::run;
use sf_words::read_words;
use std::alloc::{AllocError as NoMemory, Global};
use std::env;
use std::process::ExitCode;
use std::thread::Threads;

/// Set and not empty where the standard error is a terminal on which the progress of a search is to be
/// told. The program can't ask the system for it; its start script does.
const TOLD_WHERE: &str = "FLOORPLAN_PROGRESS";

/// The command that the words mean, where memory suffices to read them.
fn named_command(alloc: Global, words: &[String]) -> Option<CommandWords<'_>>
    ensures { IfSome result (λ command. Means (map string_bytes words.now) (command_seen command)) }
{
    match read_words(alloc, words) {
        Ok(command) => command,
        Err(_) => None,
    }
}

/// The budget that a command names, where it names one.
fn named_budget(command: &CommandWords<'_>) -> Option<u64>
    ensures { IfSome result (NamesBudget (command_seen command.now)) }
{
    match command {
        CommandWords::Plan(options) => options.nodes,
        CommandWords::Resume(options) => Some(options.nodes),
        CommandWords::Gen(options) => options.nodes,
        _ => None,
    }
}

/// Progress is to be told.
fn is_told(rt: HostRuntime) -> bool {
    match env::var(&rt, TOLD_WHERE) {
        Ok(text) => !text.is_empty(),
        Err(_) => false,
    }
}

/// The command that the words mean, where its progress is to be told or something may be lost of its files.
/// Else the words are not read once more, which would take longer than a small search.
fn told_command(rt: HostRuntime, words: &[String]) -> Option<CommandWords<'_>> {
    if is_told(rt) || may_lose(words) {
        return named_command(rt.alloc(), words);
    }
    None
}

/// The gate that tells the progress of a search, where it is to be told.
fn progress_of(
    rt: HostRuntime,
    command: &Option<CommandWords<'_>>,
) -> Option<Progress<HostRuntime>> {
    if !is_told(rt) {
        return None;
    }
    let budget = match command {
        Some(command) => named_budget(command),
        None => None,
    };
    Some(Progress::new(rt, budget))
}

/// Does what the words ask for, over these files. Where progress is told, its line is gone before anything
/// is printed.
fn obey<T: Threads + Sync>(
    rt: HostRuntime,
    threads: &T,
    words: &[String],
    shelf: &mut CountingShelf<'_, HostShelf<HostRuntime>>,
    progress: Option<Progress<HostRuntime>>,
) -> Status
    ensures { MayEnd (map string_bytes words.now) result }
{
    let alloc = rt.alloc();
    let mut sink = HostSink::new(rt);
    match progress {
        None => run(threads, alloc, words, shelf, &mut sink, &OpenGate),
        Some(progress) => {
            let mut sink = AfterProgress::new(sink, &progress);
            let status = run(threads, alloc, words, shelf, &mut sink, &progress);
            progress.clear();
            status
        }
    }
}

/// Does what the words ask for. What a design was read without is told behind all output.
fn answer<T: Threads + Sync>(rt: HostRuntime, threads: &T, words: &[String]) -> Status
    ensures { MayEnd (map string_bytes words.now) result }
{
    let alloc = rt.alloc();
    let command = told_command(rt, words);
    let files = HostShelf::new(rt, alloc);
    let mut shelf = CountingShelf::new(files, alloc, design_of(&command));
    let status = obey(rt, threads, words, &mut shelf, progress_of(rt, &command));
    shelf.tell(&rt, status);
    status
}

/// Does what the words ask for, and says what the process ends with.
fn exit_code<T: Threads + Sync>(rt: HostRuntime, threads: &T, words: &[String]) -> ExitCode
    ensures { (status : Status) × MayEnd (map string_bytes words.now) status
        × (exit_status result ≡ number status) }
{
    code_of(answer(rt, threads, words))
}

/// The words of the system, read and obeyed.
fn main(rt: HostRuntime) -> ExitCode {
    match host_words(rt) {
        Ok(words) => exit_code(rt, &rt, &words),
        Err(NoMemory) => code_of(Status::NoMemory),
    }
}
