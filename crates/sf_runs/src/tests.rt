//! Whole runs over a shelf and a sink in memory, as tables of what is given and what is answered.

mod batch;
mod beginning;
mod bounds;
mod checking;
mod failing;
mod generating;
mod limits;
mod many;
mod measuring;
mod paths;
mod planning;
mod reading;
mod resuming;
mod rewriting;
mod shaping;
mod texts;
mod weights;
mod words;
mod workers;

use sf_io::{Gate, MemShelf, MemSink, OpenGate, PartShelf, PartSink, Status};
use sf_program::run;
use std::alloc::{AllocError, Global};
use std::process::Abort;
use std::test::Fail;
use std::thread::Threads;

/// The name and the bytes of a file.
type Text = (&'static str, &'static [u8]);

/// All names that the rows of the tables use.
const NAMES: [&str; 9] = [
    "a.blocks",
    "a.nets",
    "a.pl",
    "a.yal",
    "a.weights",
    "a.cert",
    "b.cert",
    "a.out",
    "a.expr",
];

/// What a run prints. Where the whole of it is given, nothing is stored but what the row names; where only
/// some lines are given, the other lines and the other stored texts are free.
#[derive(Clone, Copy)]
enum Printed {
    Whole(&'static str),
    Lines(&'static str),
}

/// What a run is given, and what it answers, prints and stores.
#[derive(Clone, Copy)]
struct Row {
    command: &'static str,
    options: &'static str,
    files: &'static [Text],
    status: Status,
    printed: Printed,
    stored: &'static [Text],
}

/// What a row says that names nothing of its own.
const GIVEN: Row = Row {
    command: "",
    options: "",
    files: &[],
    status: Status::Done,
    printed: Printed::Whole(""),
    stored: &[],
};

/// The words of a search of blocks alone.
const PLAN_WORDS: &str = "plan --format gsrc --blocks a.blocks --cert a.cert";

/// A search of blocks alone.
const PLAN: Row = Row {
    command: PLAN_WORDS,
    ..GIVEN
};

/// A search of blocks with nets and places.
const PLAN_WIRED: Row = Row {
    command: "plan --format gsrc --blocks a.blocks --nets a.nets --pl a.pl --cert a.cert",
    ..GIVEN
};

/// A search of a YAL file.
const PLAN_YAL: Row = Row {
    command: "plan --format yal --yal a.yal --cert a.cert",
    ..GIVEN
};

/// The words of a check of a certificate of blocks alone.
const CHECK_WORDS: &str = "check --format gsrc --blocks a.blocks --cert a.cert";

/// A check of a certificate of blocks alone.
const CHECK: Row = Row {
    command: CHECK_WORDS,
    ..GIVEN
};

/// The words of a check of a certificate of blocks with nets and places.
const CHECK_WIRED: &str =
    "check --format gsrc --blocks a.blocks --nets a.nets --pl a.pl --cert a.cert";

/// The words of these texts, one behind the other.
fn words_of(alloc: Global, texts: &[&str]) -> Result<Vec<String>, AllocError> {
    let mut words = Vec::new(alloc);
    for text in texts {
        for word in text.split_ascii_whitespace() {
            words.push(String::from_str(alloc, word)?)?;
        }
    }
    Ok(words)
}

/// A list of this number alone.
fn only(alloc: Global, number: u64) -> Result<Vec<u64>, AllocError> {
    let mut numbers = Vec::new(alloc);
    numbers.push(number)?;
    Ok(numbers)
}

/// A shelf with these files, of which the call of this number fails; none fails where it is 0.
fn shelf_of(alloc: Global, files: &[(&str, &[u8])], failing_call: u64) -> Result<MemShelf, Fail> {
    let mut shelf = MemShelf::new(alloc, only(alloc, failing_call)?);
    for (name, text) in files {
        shelf.add(name, text)?;
    }
    Ok(shelf)
}

/// What a run over the shelf answers and prints, where the put of this number fails.
fn answer(
    rt: &(impl Threads + Sync),
    alloc: Global,
    words: &[String],
    shelf: &mut MemShelf,
    failing_put: u64,
) -> Result<(Status, String), Fail> {
    answer_at(rt, alloc, words, shelf, failing_put, &OpenGate)
}

/// The same, with a gate that is called before each decision of a worker.
fn answer_at(
    rt: &(impl Threads + Sync),
    alloc: Global,
    words: &[String],
    shelf: &mut MemShelf,
    failing_put: u64,
    gate: &impl Gate,
) -> Result<(Status, String), Fail> {
    let mut out = MemSink::new(alloc, only(alloc, failing_put)?);
    let status = run(rt, alloc, words, shelf, &mut out, gate);
    let printed = str::from_utf8(out.bytes())?;
    Ok((status, String::from_str(alloc, printed)?))
}

/// Whether the text has this line.
fn has_line(text: &str, wanted: &str) -> bool {
    for line in text.lines() {
        if line == wanted {
            return true;
        }
    }
    false
}

/// Whether a run printed what it was to print.
fn is_printed(wanted: Printed, printed: &str) -> bool {
    match wanted {
        Printed::Whole(text) => printed == text,
        Printed::Lines(lines) => {
            for line in lines.lines() {
                if !has_line(printed, line) {
                    return false;
                }
            }
            true
        }
    }
}

/// Whether the words of these texts over the shelf come to this status, and print this.
fn comes_to(
    rt: &(impl Threads + Sync),
    alloc: Global,
    shelf: &mut MemShelf,
    texts: &[&str],
    status: Status,
    wanted: Printed,
) -> Result<bool, Fail> {
    let words = words_of(alloc, texts)?;
    let (found, printed) = answer(rt, alloc, &words, shelf, 0)?;
    Ok(found == status && is_printed(wanted, printed.as_str()))
}

/// What stands under this name.
fn text_of<'a>(texts: &[(&str, &'a [u8])], wanted: &str) -> Option<&'a [u8]> {
    for (name, text) in texts {
        if *name == wanted {
            return Some(*text);
        }
    }
    None
}

/// Whether the name holds what the row says of it.
fn is_held(row: &Row, name: &str, held: Option<&[u8]>) -> bool {
    let stored = text_of(row.stored, name);
    let is_told = matches!(row.printed, Printed::Whole(_)) || stored.is_some();
    !is_told || held == stored.or(text_of(row.files, name))
}

/// What differs from the row where the words run over its files, with a failing call and a failing put where these
/// numbers aren't 0: the status, what is printed, or what a name holds.
fn difference(
    rt: &(impl Threads + Sync),
    alloc: Global,
    row: &Row,
    words: &[String],
    failing_call: u64,
    failing_put: u64,
) -> Result<Option<&'static str>, Fail> {
    let mut shelf = shelf_of(alloc, row.files, failing_call)?;
    let (status, printed) = answer(rt, alloc, words, &mut shelf, failing_put)?;
    if status != row.status {
        return Ok(Some("status"));
    }
    if !is_printed(row.printed, printed.as_str()) {
        return Ok(Some("printed"));
    }
    for name in NAMES {
        if !is_held(row, name, shelf.bytes(name)) {
            return Ok(Some(name));
        }
    }
    Ok(None)
}

/// The same of the row's own words, where nothing fails.
fn row_difference(
    rt: &(impl Threads + Sync),
    alloc: Global,
    row: &Row,
) -> Result<Option<&'static str>, Fail> {
    let words = words_of(alloc, &[row.command, row.options])?;
    difference(rt, alloc, row, &words, 0, 0)
}

/// Runs each row of these tables.
fn assert_rows(
    rt: &(impl Abort + Threads + Sync),
    alloc: Global,
    tables: &[&[Row]],
) -> Result<(), Fail> {
    for rows in tables {
        for row in *rows {
            let differs = row_difference(rt, alloc, row)?;
            let (command, options) = (row.command, row.options);
            assert!(rt; differs.is_none(), "{command} {options}: {differs:?}");
        }
    }
    Ok(())
}

/// Whether the words over files that are refused print this line, and store nothing, over a shelf whose stores keep a
/// part and a sink that takes three bytes a put.
fn is_refused_in_parts(
    rt: &(impl Threads + Sync),
    alloc: Global,
    words: &[String],
    files: &[(&str, &[u8])],
    line: &str,
) -> Result<bool, Fail> {
    let mut parts = PartShelf::new(shelf_of(alloc, files, 0)?, 0);
    let mut out = PartSink::new(alloc, line.len());
    let status = run(rt, alloc, words, &mut parts, &mut out, &OpenGate);
    for name in NAMES {
        if parts.bytes(name) != text_of(files, name) {
            return Ok(false);
        }
    }
    Ok(status == Status::BadInput && out.bytes() == line.as_bytes())
}

/// Whether they do so there, and print this line over a shelf and a sink that take all.
fn is_refused(
    rt: &(impl Threads + Sync),
    alloc: Global,
    words: &[String],
    files: &[(&str, &[u8])],
    line: &str,
) -> Result<bool, Fail> {
    let mut shelf = shelf_of(alloc, files, 0)?;
    let (status, printed) = answer(rt, alloc, words, &mut shelf, 0)?;
    let is_told = status == Status::BadInput && printed.as_str() == line;
    Ok(is_told && is_refused_in_parts(rt, alloc, words, files, line)?)
}
