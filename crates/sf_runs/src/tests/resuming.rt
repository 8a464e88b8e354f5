//! Searches that go on from a certificate.

use super::texts::{CLOSED_ROOT, EQUALS, TWO};
use super::{GIVEN, Printed, Row, answer, assert_rows, comes_to, has_line, shelf_of, words_of};
use sf_io::{MemShelf, Status};
use std::alloc::Global;
use std::test::Fail;
use std::thread::Threads;

const RESUME_WORDS: &str = "resume --format gsrc --blocks a.blocks --cert a.cert --cert-out b.cert";

/// A search that goes on from a certificate of blocks alone.
pub const RESUME: Row = Row {
    command: RESUME_WORDS,
    ..GIVEN
};

/// The root of two equal blocks is extended, and nothing below it is decided.
const ROOT_DECIDED: &[u8] =
    b"slicing-certificate 2\nblocks 2\ncost none\nbound 12\nplan none\ntree\nE\nO\nO\n";

/// The same, with a bound that is not its own.
const OTHER_BOUND: &[u8] =
    b"slicing-certificate 2\nblocks 2\ncost none\nbound 13\nplan none\ntree\nE\nO\nO\n";

/// Nothing is decided.
pub const OPEN_ROOT: &[u8] =
    b"slicing-certificate 2\nblocks 2\ncost none\nbound 12\nplan none\ntree\nO\n";

/// Nothing is decided, and the text ends before its tree.
const CUT_OFF: &[u8] = b"slicing-certificate 2\nblocks 2\ncost none\nbound 12\nplan none\ntree\n";

/// The plan of two equal blocks is found, and one subproblem is open, whose bound is the cost.
const LAST_OPEN: &[u8] =
    b"slicing-certificate 1\nblocks 2\ncost 12\nbound 12\nplan 0:2x3 1:2x3 *\ntree\nE\nE\nE\nC\nC\nO\n";

const LAST_CLOSED: &[u8] =
    b"slicing-certificate 2\nblocks 2\ncost 12\nbound 12\nplan 0:2x3 1:2x3 *\ntree\nE\nE\nE\nC a\nC a\nC a\n";

const FOUND: Printed = Printed::Whole(
    "status Optimal\ncost 12\nbound 12\ndecided 6\nsize 4 3\narea 12\nwire 0\nplan 0:2x3 1:2x3 *\n",
);

const OPTIMAL: Row = Row {
    printed: Printed::Lines("status Optimal\ncost 12\nbound 12"),
    ..RESUME
};

const ONE_MORE: Row = Row {
    status: Status::Open,
    printed: Printed::Lines("status Open\ncost none\nbound 12\ndecided 2\nplan none"),
    ..RESUME
};

const FROM_ROOT_DECIDED: &[Row] = &[
    Row {
        options: "--nodes 10",
        files: &[("a.blocks", EQUALS), ("a.cert", ROOT_DECIDED)],
        ..OPTIMAL
    },
    Row {
        options: "--nodes 10 --workers 4",
        files: &[("a.blocks", EQUALS), ("a.cert", ROOT_DECIDED)],
        ..OPTIMAL
    },
    Row {
        options: "--nodes 1",
        files: &[("a.blocks", EQUALS), ("a.cert", ROOT_DECIDED)],
        ..ONE_MORE
    },
    Row {
        options: "--nodes 1 --workers 2",
        files: &[("a.blocks", EQUALS), ("a.cert", ROOT_DECIDED)],
        ..ONE_MORE
    },
];

/// What is stored follows from the certificate that is read where one subproblem is left, and where none is.
const FROM_THE_LAST: &[Row] = &[
    Row {
        options: "--nodes 1",
        files: &[("a.blocks", EQUALS), ("a.cert", LAST_OPEN)],
        printed: FOUND,
        stored: &[("b.cert", LAST_CLOSED)],
        ..RESUME
    },
    Row {
        options: "--nodes 100 --workers 2 --pl-out a.out",
        files: &[("a.blocks", EQUALS), ("a.cert", LAST_OPEN)],
        printed: FOUND,
        stored: &[
            ("b.cert", LAST_CLOSED),
            (
                "a.out",
                b"UCLA pl 1.0\nb0 0 0 DIMS = (2, 3) : N\nb1 2 0 DIMS = (2, 3) : N\n",
            ),
        ],
        ..RESUME
    },
    Row {
        command: "resume --format gsrc --blocks a.blocks --cert a.cert --cert-out a.cert",
        options: "--nodes 1",
        files: &[("a.blocks", EQUALS), ("a.cert", LAST_OPEN)],
        printed: FOUND,
        stored: &[("a.cert", LAST_CLOSED)],
        ..GIVEN
    },
    Row {
        options: "--nodes 1",
        files: &[("a.blocks", EQUALS), ("a.cert", LAST_CLOSED)],
        printed: FOUND,
        stored: &[("b.cert", LAST_CLOSED)],
        ..RESUME
    },
];

/// The sum of what is decided and of the budget is tested, after the check; a long search isn't.
const LIMITS: &[Row] = &[
    Row {
        options: "--nodes 4000000",
        files: &[("a.blocks", EQUALS), ("a.cert", OPEN_ROOT)],
        ..OPTIMAL
    },
    Row {
        options: "--nodes 3999999",
        files: &[("a.blocks", EQUALS), ("a.cert", ROOT_DECIDED)],
        ..OPTIMAL
    },
    Row {
        options: "--nodes 4000000",
        files: &[("a.blocks", EQUALS), ("a.cert", ROOT_DECIDED)],
        status: Status::OverLimit,
        printed: Printed::Whole("error OverLimit nodes 4000001 4000000\n"),
        ..RESUME
    },
    Row {
        options: "--nodes 4000000 --long",
        files: &[("a.blocks", EQUALS), ("a.cert", ROOT_DECIDED)],
        ..OPTIMAL
    },
    Row {
        options: "--nodes 1000000000000 --long",
        files: &[("a.blocks", EQUALS), ("a.cert", ROOT_DECIDED)],
        ..OPTIMAL
    },
    Row {
        command: "plan --format gsrc --blocks a.blocks --cert b.cert",
        options: "--nodes 1000000000000 --long",
        files: &[("a.blocks", EQUALS)],
        printed: FOUND,
        stored: &[("b.cert", LAST_CLOSED)],
        ..GIVEN
    },
];

/// A certificate that isn't valid, or no certificate: nothing is stored, whatever the budget is.
const REJECTED: &[Row] = &[
    Row {
        options: "--nodes 4000000",
        files: &[("a.blocks", EQUALS), ("a.cert", OTHER_BOUND)],
        status: Status::No,
        printed: Printed::Whole("status No BoundDiffers 13 12\n"),
        ..RESUME
    },
    Row {
        options: "--nodes 1 --fixed",
        files: &[("a.blocks", TWO), ("a.cert", CLOSED_ROOT)],
        status: Status::No,
        printed: Printed::Whole("status No NotClosed 0 12 15\n"),
        ..RESUME
    },
    Row {
        options: "--nodes 4000000",
        files: &[("a.blocks", EQUALS), ("a.cert", CUT_OFF)],
        status: Status::BadInput,
        printed: Printed::Whole("error BadInput cert 6 Truncated\n"),
        ..RESUME
    },
    Row {
        options: "--nodes 1",
        files: &[("a.blocks", EQUALS)],
        status: Status::ReadFault,
        ..RESUME
    },
    Row {
        options: "--nodes 1",
        files: &[("a.cert", OPEN_ROOT)],
        status: Status::ReadFault,
        ..RESUME
    },
];

#[test]
fn from_a_certificate(rt: HostRuntime) -> Result<(), Fail> {
    assert_rows(&rt, rt.alloc(), &[FROM_ROOT_DECIDED, FROM_THE_LAST])
}

#[test]
fn limits(rt: HostRuntime) -> Result<(), Fail> {
    assert_rows(&rt, rt.alloc(), &[LIMITS])
}

#[test]
fn rejected(rt: HostRuntime) -> Result<(), Fail> {
    assert_rows(&rt, rt.alloc(), &[REJECTED])
}

/// How a search ends that goes on by one decision, where what it stores is valid.
fn ends_step(
    rt: &(impl Threads + Sync),
    alloc: Global,
    shelf: &mut MemShelf,
    workers: &str,
) -> Result<Option<Status>, Fail> {
    let step = "--cert b.cert --cert-out b.cert --nodes 1 --fixed";
    let words = words_of(
        alloc,
        &["resume --format gsrc --blocks a.blocks", step, workers],
    )?;
    let (status, printed) = answer(rt, alloc, &words, shelf, 0)?;
    let check = ["check --format gsrc --blocks a.blocks --fixed --cert b.cert"];
    let is_valid = comes_to(rt, alloc, shelf, &check, Status::Done, Printed::Lines(""))?;
    if !is_valid || (status != Status::Open && !has_line(printed.as_str(), "cost 15")) {
        return Ok(None);
    }
    Ok(Some(status))
}

/// How it ends after at most twenty such steps from an open root.
fn ends_one_by_one(
    rt: &(impl Threads + Sync),
    alloc: Global,
    workers: &str,
) -> Result<Option<Status>, Fail> {
    let mut shelf = shelf_of(alloc, &[("a.blocks", TWO), ("b.cert", OPEN_ROOT)], 0)?;
    for _ in 0..20 {
        let ended = ends_step(rt, alloc, &mut shelf, workers)?;
        if ended != Some(Status::Open) {
            return Ok(ended);
        }
    }
    Ok(None)
}

/// A search of two blocks decides nine subproblems; gone on with one by one, it comes to the same cost, and
/// each certificate on the way is valid.
#[test]
fn one_by_one(rt: HostRuntime) -> Result<(), Fail> {
    for workers in ["--workers 1", "--workers 2", "--workers 4"] {
        let ended = ends_one_by_one(&rt, rt.alloc(), workers)?;
        assert!(rt; ended == Some(Status::Done), "{workers}");
    }
    Ok(())
}
