//! Certificates and what is said of them.

use super::texts::{
    CELL_BLOCKS, CELL_NETS, CELL_PADS, CELLS, CLOSED_ROOT, EQUALS, FAR_PAD, FIVE, JOINED,
    JOINED_CERT, NOWHERE, ONE, PADDED, SOFT, SQUARES, TO_PAD, TWO, TWO_CERT, TWO_UNNAMED,
};
use super::{
    CHECK, CHECK_WIRED, CHECK_WORDS, GIVEN, Printed, Row, Text, answer, assert_rows, has_line,
    is_refused, shelf_of, words_of,
};
use sf_io::Status;
use std::alloc::Global;
use std::test::Fail;
use std::thread::Threads;

const THREE: &[u8] = b"UCSC blocks 1.0
NumSoftRectangularBlocks : 0
NumHardRectilinearBlocks : 1
NumTerminals : 0
b0 hardrectilinear 4 (0, 0) (0, 3) (3, 3) (3, 0)
";

const OTHER_COST: &[u8] =
    b"slicing-certificate 1\nblocks 2\ncost 14\nbound 15\nplan 0:2x3 1:3x2 *\ntree\nE\nE\nE\nC\nC\nE\nE\nC\nC\n";

const OTHER_PLAN: &[u8] =
    b"slicing-certificate 1\nblocks 2\ncost 15\nbound 15\nplan 0:2x4 1:3x2 *\ntree\nE\nE\nE\nC\nC\nE\nE\nC\nC\n";

const OTHER_BOUND: &[u8] =
    b"slicing-certificate 1\nblocks 2\ncost none\nbound 13\nplan none\ntree\nE\nO\nO\n";

const TOO_DEEP: &[u8] =
    b"slicing-certificate 1\nblocks 1\ncost 12\nbound 12\nplan 0:3x4\ntree\nE\nE\n";

const NEEDLESS_SPLIT: &[u8] =
    b"slicing-certificate 1\nblocks 1\ncost 9\nbound 9\nplan 0:3x3\ntree\nE\nS 0\nC\nC\n";

const CUT_OFF: &[u8] =
    b"slicing-certificate 1\nblocks 2\ncost 12\nbound 12\nplan 0:2x3 1:2x3 *\ntree\nE\nE\n";

const LONGER: &[u8] =
    b"slicing-certificate 1\nblocks 2\ncost 12\nbound 12\nplan 0:2x3 1:2x3 *\ntree\nE\nE\nE\nC\nC\nC\nC\n";

const STRANGE_TAG: &[u8] =
    b"slicing-certificate 1\nblocks 2\ncost 12\nbound 12\nplan 0:2x3 1:2x3 *\ntree\nX\nE\nE\nC\nC\nC\n";

/// The area of two squares of side 2 is 8, and not the cost.
const BY_AREA: &[u8] =
    b"slicing-certificate 2\nblocks 2\ncost 12\nbound 12\nplan 0:2x2 1:2x2 *\ntree\nE\nE\nE\nC a\nC p\nC p\n";

const STRANGE_PART: &[u8] =
    b"slicing-certificate 2\nblocks 1\ncost 12\nbound 12\nplan 0:3x4\ntree\nE\nC x\n";

const NO_COST: &[u8] =
    b"slicing-certificate 1\nblocks 1\ncost 18446744073709551615\nbound 12\nplan 0:3x4\ntree\nE\nC\n";

/// Certificates that are read and judged.
const JUDGED: &[Row] = &[
    Row {
        options: "--fixed",
        files: &[("a.blocks", TWO), ("a.cert", TWO_UNNAMED)],
        printed: Printed::Whole("status Yes\ncost 15\nbound 15\ndecided 9\n"),
        ..CHECK
    },
    Row {
        options: "--fixed",
        files: &[("a.blocks", TWO), ("a.cert", TWO_CERT)],
        printed: Printed::Whole("status Yes\ncost 15\nbound 15\ndecided 9\n"),
        ..CHECK
    },
    Row {
        options: "--nets a.nets --wire-weight 1",
        files: &[
            ("a.blocks", SQUARES),
            ("a.nets", JOINED),
            ("a.cert", JOINED_CERT),
        ],
        printed: Printed::Whole("status Yes\ncost 12\nbound 12\ndecided 6\n"),
        ..CHECK
    },
    Row {
        options: "--nets a.nets --wire-weight 1",
        files: &[
            ("a.blocks", SQUARES),
            ("a.nets", JOINED),
            ("a.cert", BY_AREA),
        ],
        status: Status::No,
        printed: Printed::Whole("status No NotClosed 3 8 12\n"),
        ..CHECK
    },
    Row {
        options: "--fixed",
        files: &[("a.blocks", TWO), ("a.cert", CLOSED_ROOT)],
        status: Status::No,
        printed: Printed::Whole("status No NotClosed 0 12 15\n"),
        ..CHECK
    },
    Row {
        options: "--fixed",
        files: &[("a.blocks", TWO), ("a.cert", OTHER_COST)],
        status: Status::No,
        printed: Printed::Whole("status No CostDiffers 14 15\n"),
        ..CHECK
    },
    Row {
        options: "--fixed",
        files: &[("a.blocks", TWO), ("a.cert", OTHER_PLAN)],
        status: Status::No,
        printed: Printed::Whole("status No BadPlan\n"),
        ..CHECK
    },
    Row {
        files: &[("a.blocks", EQUALS), ("a.cert", OTHER_BOUND)],
        status: Status::No,
        printed: Printed::Whole("status No BoundDiffers 13 12\n"),
        ..CHECK
    },
    Row {
        files: &[("a.blocks", ONE), ("a.cert", TOO_DEEP)],
        status: Status::No,
        printed: Printed::Whole("status No BadChildren 1\n"),
        ..CHECK
    },
    Row {
        files: &[("a.blocks", THREE), ("a.cert", NEEDLESS_SPLIT)],
        status: Status::No,
        printed: Printed::Whole("status No BadSplit 1\n"),
        ..CHECK
    },
];

/// Certificates that can't be read.
pub const UNREADABLE: &[Row] = &[
    Row {
        files: &[("a.blocks", EQUALS), ("a.cert", CUT_OFF)],
        status: Status::BadInput,
        printed: Printed::Whole("error BadInput cert 8 Truncated\n"),
        ..CHECK
    },
    Row {
        files: &[("a.blocks", EQUALS), ("a.cert", LONGER)],
        status: Status::BadInput,
        printed: Printed::Whole("error BadInput cert 13 Trailing\n"),
        ..CHECK
    },
    Row {
        files: &[("a.blocks", EQUALS), ("a.cert", STRANGE_TAG)],
        status: Status::BadInput,
        printed: Printed::Whole("error BadInput cert 7 BadTag\n"),
        ..CHECK
    },
    Row {
        files: &[("a.blocks", ONE), ("a.cert", STRANGE_PART)],
        status: Status::BadInput,
        printed: Printed::Whole("error BadInput cert 8 BadTag\n"),
        ..CHECK
    },
    Row {
        files: &[("a.blocks", ONE), ("a.cert", NO_COST)],
        status: Status::BadInput,
        printed: Printed::Whole("error BadInput cert 3 BadHeader\n"),
        ..CHECK
    },
];

#[test]
fn certificates(rt: HostRuntime) -> Result<(), Fail> {
    assert_rows(&rt, rt.alloc(), &[JUDGED, UNREADABLE])
}

/// Whether a tree of so many splits without an end is refused with this line.
fn is_endless(
    rt: &(impl Threads + Sync),
    alloc: Global,
    splits: u64,
    line: &str,
) -> Result<bool, Fail> {
    let mut text = String::from_str(
        alloc,
        "slicing-certificate 1\nblocks 1\ncost 12\nbound 12\nplan 0:3x4\ntree\n",
    )?;
    for _ in 0..splits {
        text.push_str("S 0\n")?;
    }
    let words = words_of(alloc, &[CHECK_WORDS])?;
    let files = [("a.blocks", ONE), ("a.cert", text.as_bytes())];
    is_refused(rt, alloc, &words, &files, line)
}

#[test]
fn a_tree_without_end(rt: HostRuntime) -> Result<(), Fail> {
    let too_deep = "error BadInput cert 3207 TooDeep\n";
    assert!(rt; is_endless(&rt, rt.alloc(), 3201, too_deep)?);
    let cut_off = "error BadInput cert 3205 Truncated\n";
    assert!(rt; is_endless(&rt, rt.alloc(), 3199, cut_off)?);
    Ok(())
}

const SOFT_FILES: &[Text] = &[("a.blocks", SOFT), ("a.nets", TO_PAD), ("a.pl", FAR_PAD)];

const CELL_FILES: &[Text] = &[
    ("a.blocks", CELL_BLOCKS),
    ("a.nets", CELL_NETS),
    ("a.pl", CELL_PADS),
];

/// A tree over no plan that closes one node. The answer to it names the node and its bound.
#[derive(Clone, Copy)]
struct Closed {
    command: &'static str,
    options: &'static str,
    files: &'static [Text],
    blocks: u64,
    tree: &'static str,
    node_and_bound: &'static str,
}

const SOFT_ROOT: Closed = Closed {
    command: CHECK_WIRED,
    options: "--wire-weight 10",
    files: SOFT_FILES,
    blocks: 1,
    tree: "C",
    node_and_bound: "0 24",
};

const CELL_ROOT: Closed = Closed {
    command: CHECK_WIRED,
    options: "--wire-weight 1",
    files: CELL_FILES,
    blocks: 2,
    tree: "C",
    node_and_bound: "0 18",
};

const BOUNDS: [Closed; 11] = [
    SOFT_ROOT,
    Closed {
        tree: "E C",
        node_and_bound: "1 194",
        ..SOFT_ROOT
    },
    Closed {
        tree: "E S 0 C O",
        node_and_bound: "2 234",
        ..SOFT_ROOT
    },
    Closed {
        tree: "E S 0 O C",
        node_and_bound: "3 194",
        ..SOFT_ROOT
    },
    Closed {
        tree: "E S 0 O S 0 C O",
        node_and_bound: "4 204",
        ..SOFT_ROOT
    },
    Closed {
        tree: "E S 0 O S 0 O C",
        node_and_bound: "5 196",
        ..SOFT_ROOT
    },
    CELL_ROOT,
    Closed {
        command: "check --format yal --yal a.yal --cert a.cert",
        files: &[("a.yal", CELLS)],
        ..CELL_ROOT
    },
    Closed {
        files: &[("a.blocks", PADDED), ("a.nets", TO_PAD), ("a.pl", FAR_PAD)],
        blocks: 1,
        node_and_bound: "0 6",
        ..CELL_ROOT
    },
    Closed {
        files: &[("a.blocks", SQUARES), ("a.nets", JOINED), ("a.pl", NOWHERE)],
        node_and_bound: "0 12",
        ..CELL_ROOT
    },
    Closed {
        command: CHECK_WORDS,
        options: "--fixed",
        files: &[("a.blocks", TWO)],
        node_and_bound: "0 12",
        ..CELL_ROOT
    },
];

/// Whether the answer names the node and its bound.
fn is_named(rt: &(impl Threads + Sync), alloc: Global, closed: &Closed) -> Result<bool, Fail> {
    let (blocks, tree, named) = (closed.blocks, closed.tree, closed.node_and_bound);
    let cert = format!(in alloc;
        "slicing-certificate 1\nblocks {blocks}\ncost none\nbound none\nplan none\ntree\n{tree}\n"
    )?;
    let mut shelf = shelf_of(alloc, closed.files, 0)?;
    shelf.add("a.cert", cert.as_bytes())?;
    let words = words_of(alloc, &[closed.command, closed.options])?;
    let (status, printed) = answer(rt, alloc, &words, &mut shelf, 0)?;
    let said = format!(in alloc; "status No NotClosed {named} none\n")?;
    Ok(status == Status::No && printed.as_str() == said.as_str())
}

#[test]
fn bounds(rt: HostRuntime) -> Result<(), Fail> {
    for closed in &BOUNDS {
        assert!(rt;
            is_named(&rt, rt.alloc(), closed)?,
            "{}",
            closed.node_and_bound
        );
    }
    Ok(())
}

/// Options of both commands, one of `plan` alone, and the files.
const DESIGNS: [(&str, &str, &[Text]); 13] = [
    ("", "", &[("a.blocks", ONE)]),
    ("--fixed", "", &[("a.blocks", ONE)]),
    ("--shapes 16", "", &[("a.blocks", EQUALS)]),
    ("--fixed", "", &[("a.blocks", TWO)]),
    ("--fixed --outline 3x3", "", &[("a.blocks", FIVE)]),
    ("--fixed --outline 3x4", "", &[("a.blocks", FIVE)]),
    (
        "--nets a.nets --wire-weight 1",
        "",
        &[("a.blocks", SQUARES), ("a.nets", JOINED)],
    ),
    (
        "--nets a.nets --pl a.pl --wire-weight 1",
        "",
        &[("a.blocks", PADDED), ("a.nets", TO_PAD), ("a.pl", FAR_PAD)],
    ),
    ("--nets a.nets --pl a.pl --wire-weight 10", "", SOFT_FILES),
    ("", "--nodes 1", &[("a.blocks", EQUALS)]),
    ("", "--nodes 3", &[("a.blocks", EQUALS)]),
    ("", "--nodes 5", &[("a.blocks", EQUALS)]),
    ("", "--nodes 6", &[("a.blocks", EQUALS)]),
];

const DESIGN: &str = "--format gsrc --blocks a.blocks --cert a.cert";

/// Whether the certificate that is stored with these options is valid, and the plan's report has its lines.
fn is_valid(
    rt: &(impl Threads + Sync),
    alloc: Global,
    options: &str,
    budget: &str,
    files: &[Text],
) -> Result<bool, Fail> {
    let mut shelf = shelf_of(alloc, files, 0)?;
    let plan = words_of(alloc, &["plan", DESIGN, options, budget])?;
    let (_, planned) = answer(rt, alloc, &plan, &mut shelf, 0)?;
    let check = words_of(alloc, &["check", DESIGN, options])?;
    let (status, checked) = answer(rt, alloc, &check, &mut shelf, 0)?;
    let mut lines = checked.lines();
    if status != Status::Done || lines.next() != Some("status Yes") {
        return Ok(false);
    }
    for line in lines {
        if !has_line(planned.as_str(), line) {
            return Ok(false);
        }
    }
    Ok(true)
}

#[test]
fn stored_certificates(rt: HostRuntime) -> Result<(), Fail> {
    for (options, budget, files) in DESIGNS {
        assert!(rt;
            is_valid(&rt, rt.alloc(), options, budget, files)?,
            "{options} {budget}"
        );
    }
    Ok(())
}
