//! Certificates that are stored anew with the first parts that close their subproblems.

use super::texts::{
    CELL_BLOCKS, CELL_CERT, CELL_NETS, CELL_PADS, CLOSED_ROOT, JOINED, JOINED_CERT, ONE, SQUARES,
    TWO, TWO_CERT, TWO_UNNAMED,
};
use super::{GIVEN, Printed, Row, assert_rows, comes_to, shelf_of};
use sf_io::Status;
use std::alloc::Global;
use std::test::Fail;
use std::thread::Threads;

const REWRITE: Row = Row {
    command: "check --format gsrc --blocks a.blocks --cert a.cert --rewrite b.cert",
    ..GIVEN
};

/// Two squares of side 2 and a net of both. No part before the pair is as high as the cost.
const LATE_PARTS: &[u8] =
    b"slicing-certificate 2\nblocks 2\ncost 12\nbound 12\nplan 0:2x2 1:2x2 *\ntree\nE\nE\nE\nC f\nC h\nC p\n";

const CUT_OFF: &[u8] =
    b"slicing-certificate 2\nblocks 1\ncost 12\nbound 12\nplan 0:3x4\ntree\nE\nC\n";

const TWO_YES: Printed = Printed::Whole("status Yes\ncost 15\nbound 15\ndecided 9\n");

const ROWS: &[Row] = &[
    Row {
        options: "--fixed",
        files: &[("a.blocks", TWO), ("a.cert", TWO_UNNAMED)],
        printed: TWO_YES,
        stored: &[("b.cert", TWO_CERT)],
        ..REWRITE
    },
    Row {
        command: "check --format gsrc --blocks a.blocks --cert a.cert --rewrite a.cert",
        options: "--fixed",
        files: &[("a.blocks", TWO), ("a.cert", TWO_UNNAMED)],
        printed: TWO_YES,
        stored: &[("a.cert", TWO_CERT)],
        ..GIVEN
    },
    Row {
        options: "--nets a.nets --wire-weight 1",
        files: &[
            ("a.blocks", SQUARES),
            ("a.nets", JOINED),
            ("a.cert", LATE_PARTS),
            ("b.cert", b"what stood here before\n"),
        ],
        printed: Printed::Whole("status Yes\ncost 12\nbound 12\ndecided 6\n"),
        stored: &[("b.cert", JOINED_CERT)],
        ..REWRITE
    },
    Row {
        options: "--fixed",
        files: &[("a.blocks", TWO), ("a.cert", CLOSED_ROOT)],
        status: Status::No,
        printed: Printed::Whole("status No NotClosed 0 12 15\n"),
        ..REWRITE
    },
    Row {
        files: &[("a.blocks", ONE), ("a.cert", CUT_OFF)],
        status: Status::BadInput,
        printed: Printed::Whole("error BadInput cert 8 Truncated\n"),
        ..REWRITE
    },
];

#[test]
fn rewritten_certificates(rt: HostRuntime) -> Result<(), Fail> {
    assert_rows(&rt, rt.alloc(), &[ROWS])
}

const DESIGN: &str =
    "--format gsrc --blocks a.blocks --nets a.nets --pl a.pl --wire-weight 1 --cert a.cert";

/// Whether what so many workers store is stored anew as it was, and is this, if one is given.
fn is_kept(
    rt: &(impl Threads + Sync),
    alloc: Global,
    workers: &str,
    cert: Option<&[u8]>,
) -> Result<bool, Fail> {
    let files = [
        ("a.blocks", CELL_BLOCKS),
        ("a.nets", CELL_NETS),
        ("a.pl", CELL_PADS),
    ];
    let mut shelf = shelf_of(alloc, &files, 0)?;
    let plan = ["plan", DESIGN, "--workers", workers];
    let check = ["check", DESIGN, "--rewrite b.cert"];
    let none = Printed::Lines("");
    let is_done = comes_to(rt, alloc, &mut shelf, &plan, Status::Done, none)?
        && comes_to(rt, alloc, &mut shelf, &check, Status::Done, none)?;
    let stored = shelf.bytes("b.cert");
    Ok(
        is_done
            && stored.is_some()
            && stored == shelf.bytes("a.cert")
            && (cert.is_none() || stored == cert),
    )
}

/// With two workers the order of the decisions is free, and so are the tags; the parts that they name are
/// not.
#[test]
fn what_several_workers_store(rt: HostRuntime) -> Result<(), Fail> {
    assert!(rt; is_kept(&rt, rt.alloc(), "1", Some(CELL_CERT))?);
    assert!(rt; is_kept(&rt, rt.alloc(), "2", None)?);
    Ok(())
}
