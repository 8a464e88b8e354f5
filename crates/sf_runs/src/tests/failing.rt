//! Runs in which a load, a store or a put fails, or a store and a put do a part of what they are asked for.

use super::checking::UNREADABLE;
use super::reading::{READ, REFUSED};
use super::texts::{FAR_PAD, ONE, ONE_CERT, PADDED, PADDED_CERT, PADDED_LINES, TO_PAD};
use super::words::{AT_ENDS, MEANINGLESS};
use super::{
    CHECK, GIVEN, NAMES, PLAN, PLAN_WIRED, Printed, Row, difference, is_held, is_printed, shelf_of,
    words_of,
};
use sf_io::{OpenGate, PartShelf, PartSink, Status};
use sf_program::run;
use std::alloc::Global;
use std::test::Fail;
use std::thread::Threads;

/// A run with the numbers of the call of the shelf and of the put that fail; none fails where the number
/// is 0.
struct Case {
    call: u64,
    put: u64,
    row: Row,
}

const ONE_BLOCK: Row = Row {
    files: &[("a.blocks", ONE)],
    ..PLAN
};

/// Three loads, for the blocks, the nets and the pads, then two stores.
const ALL_FILES: Row = Row {
    options: "--wire-weight 1 --pl-out a.out",
    files: &[("a.blocks", PADDED), ("a.nets", TO_PAD), ("a.pl", FAR_PAD)],
    ..PLAN_WIRED
};

/// Two loads, for the blocks and the certificate, then a store.
const REWRITE: Row = Row {
    options: "--rewrite b.cert",
    files: &[("a.blocks", ONE), ("a.cert", ONE_CERT)],
    ..CHECK
};

/// Two loads, for the blocks and the certificate, then two stores.
const RESUME: Row = Row {
    command: "resume --format gsrc --blocks a.blocks --cert a.cert",
    options: "--cert-out b.cert --pl-out a.out --nodes 1",
    files: &[("a.blocks", ONE), ("a.cert", ONE_CERT)],
    ..GIVEN
};

const ONE_PLACE: &[u8] = b"UCLA pl 1.0\nb0 0 0 DIMS = (3, 4) : N\n";

const PADDED_PLACES: &[u8] = b"UCLA pl 1.0\nb0 0 0 DIMS = (2, 2) : N\np0 10 0\n";

const CASES: &[Case] = &[
    Case {
        call: 0,
        put: 0,
        row: Row {
            files: &[],
            status: Status::ReadFault,
            ..ONE_BLOCK
        },
    },
    Case {
        call: 2,
        put: 0,
        row: Row {
            status: Status::WriteFault,
            ..ONE_BLOCK
        },
    },
    Case {
        call: 0,
        put: 1,
        row: Row {
            status: Status::WriteFault,
            stored: &[("a.cert", ONE_CERT)],
            ..ONE_BLOCK
        },
    },
    Case {
        call: 1,
        put: 0,
        row: Row {
            status: Status::ReadFault,
            ..ALL_FILES
        },
    },
    Case {
        call: 2,
        put: 0,
        row: Row {
            status: Status::ReadFault,
            ..ALL_FILES
        },
    },
    Case {
        call: 3,
        put: 0,
        row: Row {
            status: Status::ReadFault,
            ..ALL_FILES
        },
    },
    Case {
        call: 4,
        put: 0,
        row: Row {
            status: Status::WriteFault,
            ..ALL_FILES
        },
    },
    Case {
        call: 5,
        put: 0,
        row: Row {
            status: Status::WriteFault,
            stored: &[("a.cert", PADDED_CERT)],
            ..ALL_FILES
        },
    },
    Case {
        call: 0,
        put: 1,
        row: Row {
            status: Status::WriteFault,
            stored: &[("a.cert", PADDED_CERT), ("a.out", PADDED_PLACES)],
            ..ALL_FILES
        },
    },
    Case {
        call: 2,
        put: 0,
        row: Row {
            status: Status::ReadFault,
            ..REWRITE
        },
    },
    Case {
        call: 3,
        put: 0,
        row: Row {
            status: Status::WriteFault,
            ..REWRITE
        },
    },
    Case {
        call: 0,
        put: 1,
        row: Row {
            status: Status::WriteFault,
            stored: &[("b.cert", ONE_CERT)],
            ..REWRITE
        },
    },
    Case {
        call: 2,
        put: 0,
        row: Row {
            status: Status::ReadFault,
            ..RESUME
        },
    },
    Case {
        call: 3,
        put: 0,
        row: Row {
            status: Status::WriteFault,
            ..RESUME
        },
    },
    Case {
        call: 4,
        put: 0,
        row: Row {
            status: Status::WriteFault,
            stored: &[("b.cert", ONE_CERT)],
            ..RESUME
        },
    },
    Case {
        call: 0,
        put: 1,
        row: Row {
            status: Status::WriteFault,
            stored: &[("b.cert", ONE_CERT), ("a.out", ONE_PLACE)],
            ..RESUME
        },
    },
];

/// What differs from the row of a run.
fn case_difference(
    rt: &(impl Threads + Sync),
    alloc: Global,
    case: &Case,
) -> Result<Option<&'static str>, Fail> {
    let words = words_of(alloc, &[case.row.command, case.row.options])?;
    difference(rt, alloc, &case.row, &words, case.call, case.put)
}

#[test]
fn failing_calls(rt: HostRuntime) -> Result<(), Fail> {
    for case in CASES {
        let differs = case_difference(&rt, rt.alloc(), case)?;
        let (command, call, put) = (case.row.command, case.call, case.put);
        assert!(rt; differs.is_none(), "{command} {call} {put}: {differs:?}");
    }
    Ok(())
}

/// A run over a shelf of which the load of this number fails, the first stores are whole and each later one
/// keeps half of its bytes, and over a sink that takes three bytes a put, as far as there is room. No load
/// fails where the number is 0.
#[derive(Clone, Copy)]
struct Part {
    load: u64,
    whole: u64,
    room: usize,
    row: Row,
}

/// Both files are stored, and there is room for each report.
const ALL_DONE: Part = Part {
    load: 0,
    whole: 2,
    room: 1000,
    row: GIVEN,
};

const HALF_CERT: &[u8] = b"slicing-certificate 2\nblocks 1\ncost";

const LOST: Row = Row {
    status: Status::ReadFault,
    ..ALL_FILES
};

/// The same calls fail, with a part of each store and print done.
const PARTS: &[Part] = &[
    Part {
        row: Row {
            files: &[],
            status: Status::ReadFault,
            ..ONE_BLOCK
        },
        ..ALL_DONE
    },
    Part {
        whole: 0,
        row: Row {
            status: Status::WriteFault,
            stored: &[("a.cert", HALF_CERT)],
            ..ONE_BLOCK
        },
        ..ALL_DONE
    },
    Part {
        room: 10,
        row: Row {
            status: Status::WriteFault,
            printed: Printed::Whole("status Opt"),
            stored: &[("a.cert", ONE_CERT)],
            ..ONE_BLOCK
        },
        ..ALL_DONE
    },
    Part {
        load: 1,
        row: LOST,
        ..ALL_DONE
    },
    Part {
        load: 2,
        row: LOST,
        ..ALL_DONE
    },
    Part {
        load: 3,
        row: LOST,
        ..ALL_DONE
    },
    Part {
        whole: 0,
        row: Row {
            status: Status::WriteFault,
            stored: &[("a.cert", HALF_CERT)],
            ..ALL_FILES
        },
        ..ALL_DONE
    },
    Part {
        whole: 1,
        row: Row {
            status: Status::WriteFault,
            stored: &[
                ("a.cert", PADDED_CERT),
                ("a.out", b"UCLA pl 1.0\nb0 0 0 DIM"),
            ],
            ..ALL_FILES
        },
        ..ALL_DONE
    },
    Part {
        room: 5,
        row: Row {
            status: Status::WriteFault,
            printed: Printed::Whole("statu"),
            stored: &[("a.cert", PADDED_CERT), ("a.out", PADDED_PLACES)],
            ..ALL_FILES
        },
        ..ALL_DONE
    },
    Part {
        row: Row {
            printed: Printed::Whole(PADDED_LINES),
            stored: &[("a.cert", PADDED_CERT), ("a.out", PADDED_PLACES)],
            ..ALL_FILES
        },
        ..ALL_DONE
    },
    Part {
        room: 7,
        row: Row {
            files: &[("a.blocks", ONE), ("a.cert", ONE_CERT)],
            status: Status::WriteFault,
            printed: Printed::Whole("status "),
            ..CHECK
        },
        ..ALL_DONE
    },
    Part {
        whole: 0,
        row: Row {
            status: Status::WriteFault,
            stored: &[("b.cert", HALF_CERT)],
            ..REWRITE
        },
        ..ALL_DONE
    },
    Part {
        whole: 1,
        room: 7,
        row: Row {
            status: Status::WriteFault,
            printed: Printed::Whole("status "),
            stored: &[("b.cert", ONE_CERT)],
            ..REWRITE
        },
        ..ALL_DONE
    },
    Part {
        room: 4,
        row: Row {
            files: &[("a.blocks", b"")],
            status: Status::WriteFault,
            printed: Printed::Whole("erro"),
            ..ONE_BLOCK
        },
        ..ALL_DONE
    },
    Part {
        room: 11,
        row: Row {
            command: "plan --help",
            status: Status::WriteFault,
            printed: Printed::Whole("error Usage"),
            ..GIVEN
        },
        ..ALL_DONE
    },
];

/// What differs from the row over a shelf and a sink that take only a part.
fn part_difference(
    rt: &(impl Threads + Sync),
    alloc: Global,
    row: &Row,
    part: &Part,
) -> Result<Option<&'static str>, Fail> {
    let words = words_of(alloc, &[row.command, row.options])?;
    let mut shelf = PartShelf::new(shelf_of(alloc, row.files, part.load)?, part.whole);
    let mut out = PartSink::new(alloc, part.room);
    let status = run(rt, alloc, &words, &mut shelf, &mut out, &OpenGate);
    if status != row.status {
        return Ok(Some("status"));
    }
    if !is_printed(row.printed, str::from_utf8(out.bytes())?) {
        return Ok(Some("printed"));
    }
    for name in NAMES {
        if !is_held(row, name, shelf.bytes(name)) {
            return Ok(Some(name));
        }
    }
    Ok(None)
}

#[test]
fn parts_of_calls(rt: HostRuntime) -> Result<(), Fail> {
    for part in PARTS {
        let differs = part_difference(&rt, rt.alloc(), &part.row, part)?;
        assert!(rt; differs.is_none(), "{}: {differs:?}", part.row.command);
    }
    for rows in [READ, REFUSED, UNREADABLE, MEANINGLESS, AT_ENDS] {
        for row in rows {
            let differs = part_difference(&rt, rt.alloc(), row, &ALL_DONE)?;
            assert!(rt; differs.is_none(), "{}: {differs:?}", row.command);
        }
    }
    Ok(())
}
