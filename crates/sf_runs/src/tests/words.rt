//! Words of the command line: lists without a meaning, ranges of values, and all options of each command.

use super::texts::{
    BESIDE, CELL_BLOCKS, CELL_CERT, CELL_LINES, CELL_NETS, CELL_PADS, CELL_PLACES, CELLS, ONE,
    ONE_CERT, ONE_LINES,
};
use super::{GIVEN, PLAN, PLAN_WORDS, Printed, Row, Text, assert_rows, difference, words_of};
use sf_io::Status;
use std::alloc::{AllocError, Global};
use std::test::Fail;
use std::thread::Threads;

const USAGE: Row = Row {
    files: &[("a.blocks", ONE)],
    status: Status::Usage,
    printed: Printed::Whole("error Usage\n"),
    ..GIVEN
};

const PLAN_ONE: Row = Row {
    files: &[("a.blocks", ONE)],
    printed: Printed::Whole(ONE_LINES),
    stored: &[("a.cert", ONE_CERT)],
    ..PLAN
};

const UNPLANNED: Row = Row {
    command: PLAN_WORDS,
    ..USAGE
};

/// Lists of words without a meaning, the empty list first.
pub const MEANINGLESS: &[Row] = &[
    USAGE,
    Row {
        command: "plan --format gsrc --blocks a.blocks",
        ..USAGE
    },
    Row {
        options: "--workers 17",
        ..UNPLANNED
    },
    Row {
        options: "--area-weight 0 --wire-weight 0",
        ..UNPLANNED
    },
    Row {
        options: "--shapes 1",
        ..UNPLANNED
    },
    Row {
        options: "--shapes 257",
        ..UNPLANNED
    },
    Row {
        options: "--outline 1048577x1",
        ..UNPLANNED
    },
    Row {
        command: "shape --format gsrc --blocks a.blocks --expr a.expr --net-weights a.weights",
        ..USAGE
    },
    Row {
        command: "gen --seed 7 --count 4 --out g --net-weights a.weights",
        ..USAGE
    },
    Row {
        options: "--rewrite b.cert",
        ..UNPLANNED
    },
    Row {
        options: "--begin",
        ..UNPLANNED
    },
    Row {
        command: "measure --format gsrc --blocks a.blocks --begin a.out",
        ..USAGE
    },
    Row {
        command: "check --format gsrc --blocks a.blocks --cert a.cert --rewrite",
        ..USAGE
    },
    Row {
        command: "gen --seed 7 --seed 7 --count 4 --out g",
        ..USAGE
    },
    Row {
        command: "gen --seed 7 --count 321 --out g",
        ..USAGE
    },
    Row {
        command: "gen --help",
        ..USAGE
    },
];

/// Values at the ends of a range.
pub const AT_ENDS: &[Row] = &[
    Row {
        options: "--shapes 2",
        ..PLAN_ONE
    },
    Row {
        options: "--shapes 256",
        ..PLAN_ONE
    },
];

const GSRC: &[Text] = &[
    ("a.blocks", CELL_BLOCKS),
    ("a.nets", CELL_NETS),
    ("a.pl", CELL_PADS),
    ("a.weights", b"2 1\n"),
    ("a.cert", CELL_CERT),
    ("a.out", CELL_PLACES),
    ("a.expr", BESIDE),
];

const YAL: &[Text] = &[
    ("a.yal", CELLS),
    ("a.weights", b"2 1\n"),
    ("a.cert", CELL_CERT),
    ("a.out", CELL_PLACES),
    ("a.expr", BESIDE),
];

const ALL_OF_PLAN: Row = Row {
    options: "--per-unit 1 --fixed --shapes 16 --outline 1048576x1048576 --area-weight 1 --wire-weight 1 --net-weights a.weights --cert a.cert --pl-out a.out --workers 1 --nodes 20 --starts 0 --moves 9 --start-seed 1 --improve 9 --bounds standard",
    printed: Printed::Whole(CELL_LINES),
    stored: &[("a.cert", CELL_CERT), ("a.out", CELL_PLACES)],
    ..GIVEN
};

const CHECK: Row = Row {
    options: "--per-unit 1 --fixed --shapes 16 --outline 1048576x1048576 --area-weight 1 --wire-weight 1 --net-weights a.weights --cert a.cert --rewrite b.cert --bounds standard",
    printed: Printed::Whole("status Yes\ncost 32\nbound 32\ndecided 9\n"),
    stored: &[("b.cert", CELL_CERT)],
    ..GIVEN
};

const MEASURE: Row = Row {
    options: "--per-unit 1 --fixed --shapes 16 --outline 1048576x1048576 --area-weight 1 --wire-weight 1 --net-weights a.weights --placed a.out",
    printed: Printed::Whole("status Legal\ncost 32\nsize 4 2\narea 8\nwire 24\n"),
    ..GIVEN
};

const SHAPE: Row = Row {
    options: "--per-unit 1 --fixed --shapes 16 --outline 1048576x1048576 --expr a.expr",
    printed: Printed::Whole("4 2\nleast 4 2 8\n"),
    ..GIVEN
};

/// Each command with all of its options that go with a format.
const ALL_OPTIONS: &[Row] = &[
    Row {
        command: "plan --format gsrc --blocks a.blocks --nets a.nets --pl a.pl",
        files: GSRC,
        ..ALL_OF_PLAN
    },
    Row {
        command: "plan --format yal --yal a.yal",
        files: YAL,
        ..ALL_OF_PLAN
    },
    Row {
        command: "check --format gsrc --blocks a.blocks --nets a.nets --pl a.pl",
        files: GSRC,
        ..CHECK
    },
    Row {
        command: "check --format yal --yal a.yal",
        files: YAL,
        ..CHECK
    },
    Row {
        command: "measure --format gsrc --blocks a.blocks --nets a.nets --pl a.pl",
        files: GSRC,
        ..MEASURE
    },
    Row {
        command: "measure --format yal --yal a.yal",
        files: YAL,
        ..MEASURE
    },
    Row {
        command: "shape --format gsrc --blocks a.blocks --nets a.nets --pl a.pl",
        files: GSRC,
        ..SHAPE
    },
    Row {
        command: "shape --format yal --yal a.yal",
        files: YAL,
        ..SHAPE
    },
];

/// The same words with `--name=value` in place of `--name value`.
fn joined(alloc: Global, words: &[String]) -> Result<Vec<String>, AllocError> {
    let mut joined: Vec<String> = Vec::new(alloc);
    for word in words {
        match joined.last_mut() {
            Some(last) if last.starts_with("--") && !word.starts_with("--") => {
                last.push_str("=")?;
                last.push_str(word.as_str())?;
            }
            _ => joined.push(word.clone()?)?,
        }
    }
    Ok(joined)
}

#[test]
fn meanings(rt: HostRuntime) -> Result<(), Fail> {
    assert_rows(&rt, rt.alloc(), &[MEANINGLESS, AT_ENDS])
}

/// What differs from the row where its words are given in either spelling.
fn spelling_difference(
    rt: &(impl Threads + Sync),
    alloc: Global,
    row: &Row,
) -> Result<Option<&'static str>, Fail> {
    let words = words_of(alloc, &[row.command, row.options])?;
    let differs = difference(rt, alloc, row, &words, 0, 0)?;
    if differs.is_some() {
        return Ok(differs);
    }
    difference(rt, alloc, row, &joined(alloc, &words)?, 0, 0)
}

#[test]
fn all_options(rt: HostRuntime) -> Result<(), Fail> {
    for row in ALL_OPTIONS {
        let differs = spelling_difference(&rt, rt.alloc(), row)?;
        assert!(rt; differs.is_none(), "{}: {differs:?}", row.command);
    }
    Ok(())
}
