//! Texts of designs: two formats of one design, loose forms that are read, and refusals with nothing stored.

use super::texts::{
    CELL_BLOCKS, CELL_CERT, CELL_LINES, CELL_NETS, CELL_PADS, CELL_PLACES, CELLS, JOINED, NOWHERE,
    ONE_CERT, ONE_LINES, PADDED, SQUARES, TO_PAD,
};
use super::{PLAN, PLAN_WIRED, PLAN_YAL, Printed, Row, assert_rows, is_refused, words_of};
use sf_io::Status;
use std::alloc::Global;
use std::test::Fail;
use std::thread::Threads;

const LOOSE: &[u8] = b"UCSC blocks 1.0
NumSoftRectangularBlocks : 0
NumHardRectilinearBlocks : 1
NumTerminals : 0
b0 hardrectilinear 4 (0, 0) (0, 4) 3 4 (3, 0)
";

const CUT_OFF: &[u8] = b"UCSC blocks 1.0
NumSoftRectangularBlocks : 0
NumHardRectilinearBlocks : 1
";

const NO_BLOCKS: &[u8] = b"UCSC blocks 1.0
NumSoftRectangularBlocks : 0
NumHardRectilinearBlocks : 0
NumTerminals : 0
";

const MISCOUNTED: &[u8] = b"UCSC blocks 1.0
NumSoftRectangularBlocks : 0
NumHardRectilinearBlocks : 2
NumTerminals : 0
b0 hardrectilinear 4 (0, 0) (0, 2) (2, 2) (2, 0)
";

const NAMESAKES: &[u8] = b"UCSC blocks 1.0
NumSoftRectangularBlocks : 0
NumHardRectilinearBlocks : 2
NumTerminals : 0
b0 hardrectilinear 4 (0, 0) (0, 2) (2, 2) (2, 0)
b0 hardrectilinear 4 (0, 0) (0, 2) (2, 2) (2, 0)
";

const TOO_LARGE: &[u8] = b"UCSC blocks 1.0
NumSoftRectangularBlocks : 1
NumHardRectilinearBlocks : 0
NumTerminals : 0
b0 softrectangular 1099511627777 0.5 2
";

const SHORT_NET: &[u8] = b"UCLA nets 1.0
NumNets : 1
NumPins : 3
NetDegree : 3
b0 B
b1 B
";

const STRANGE_NET: &[u8] = b"UCLA nets 1.0
NumNets : 1
NumPins : 2
NetDegree : 2
b0 B
zz B
";

const PAD_TWICE: &[u8] = b"UCLA pl 1.0\np0 10 0\np0 10 0\n";

const PAD_CUT: &[u8] = b"UCLA pl 1.0\np0 10\n";

const PAD_TOO_FAR: &[u8] = b"UCLA pl 1.0\np0 1048577 0\n";

const PAD_AT_LIMIT: &[u8] = b"UCLA pl 1.0\np0 1048576 0\n";

const COMPRESSED: &[u8] = b"\x1f\x8b\x08";

const YAL_UNCLOSED: &[u8] = b"MODULE a; TYPE PARENT;";

const YAL_NO_PARENT: &[u8] = b"MODULE a; ENDMODULE;";

const YAL_CLOSED_TWICE: &[u8] = b"MODULE a; ENDMODULE;\nENDMODULE;";

const YAL_TWO_PARENTS: &[u8] =
    b"MODULE a; TYPE PARENT; ENDMODULE;\nMODULE b; TYPE PARENT; ENDMODULE;";

const YAL_STRANGE_NUMBER: &[u8] = b"MODULE a;\nDIMENSIONS 0 0 2 x; ENDMODULE;";

const YAL_FLAT: &[u8] =
    b"MODULE a; DIMENSIONS 0 0 2 0; ENDMODULE;\nMODULE t; TYPE PARENT; NETWORK; u a n; ENDNETWORK; ENDMODULE;";

const YAL_STRANGE_CELL: &[u8] = b"MODULE t; TYPE PARENT; NETWORK; u zz n; ENDNETWORK; ENDMODULE;";

/// Designs that are read.
pub const READ: &[Row] = &[
    Row {
        options: "--wire-weight 1 --pl-out a.out",
        files: &[("a.yal", CELLS)],
        printed: Printed::Whole(CELL_LINES),
        stored: &[("a.cert", CELL_CERT), ("a.out", CELL_PLACES)],
        ..PLAN_YAL
    },
    Row {
        options: "--wire-weight 1 --pl-out a.out",
        files: &[
            ("a.blocks", CELL_BLOCKS),
            ("a.nets", CELL_NETS),
            ("a.pl", CELL_PADS),
        ],
        printed: Printed::Whole(CELL_LINES),
        stored: &[("a.cert", CELL_CERT), ("a.out", CELL_PLACES)],
        ..PLAN_WIRED
    },
    Row {
        files: &[("a.blocks", LOOSE)],
        printed: Printed::Whole(ONE_LINES),
        stored: &[("a.cert", ONE_CERT)],
        ..PLAN
    },
    Row {
        files: &[
            ("a.blocks", PADDED),
            ("a.nets", TO_PAD),
            ("a.pl", PAD_AT_LIMIT),
        ],
        printed: Printed::Lines("status Optimal"),
        ..PLAN_WIRED
    },
];

/// Designs of blocks, nets and pads that are refused, or that can't be loaded.
pub const REFUSED: &[Row] = &[
    Row {
        files: &[("a.blocks", b"")],
        status: Status::BadInput,
        printed: Printed::Whole("error BadInput blocks 0 Truncated\n"),
        ..PLAN
    },
    Row {
        files: &[("a.blocks", COMPRESSED)],
        status: Status::BadInput,
        printed: Printed::Whole("error BadInput blocks 1 BadTitle\n"),
        ..PLAN
    },
    Row {
        files: &[("a.blocks", CUT_OFF)],
        status: Status::BadInput,
        printed: Printed::Whole("error BadInput blocks 3 Truncated\n"),
        ..PLAN
    },
    Row {
        files: &[("a.blocks", MISCOUNTED)],
        status: Status::BadInput,
        printed: Printed::Whole("error BadInput blocks 3 CountDiffers 2 1\n"),
        ..PLAN
    },
    Row {
        files: &[("a.blocks", NO_BLOCKS)],
        status: Status::BadInput,
        printed: Printed::Whole("error BadInput design 0 NoBlocks\n"),
        ..PLAN
    },
    Row {
        files: &[("a.blocks", NAMESAKES)],
        status: Status::BadInput,
        printed: Printed::Whole("error BadInput design 0 DuplicateName b0\n"),
        ..PLAN
    },
    Row {
        files: &[
            ("a.blocks", SQUARES),
            ("a.nets", SHORT_NET),
            ("a.pl", NOWHERE),
        ],
        status: Status::BadInput,
        printed: Printed::Whole("error BadInput nets 4 BadDegree 3 2\n"),
        ..PLAN_WIRED
    },
    Row {
        files: &[
            ("a.blocks", SQUARES),
            ("a.nets", STRANGE_NET),
            ("a.pl", NOWHERE),
        ],
        status: Status::BadInput,
        printed: Printed::Whole("error BadInput design 0 UnknownName zz\n"),
        ..PLAN_WIRED
    },
    Row {
        options: "--nets a.nets",
        files: &[("a.blocks", SQUARES), ("a.nets", STRANGE_NET)],
        status: Status::BadInput,
        printed: Printed::Whole("error BadInput design 0 UnknownName zz\n"),
        ..PLAN
    },
    Row {
        files: &[
            ("a.blocks", PADDED),
            ("a.nets", TO_PAD),
            ("a.pl", PAD_TWICE),
        ],
        status: Status::BadInput,
        printed: Printed::Whole("error BadInput design 0 DuplicateName p0\n"),
        ..PLAN_WIRED
    },
    Row {
        files: &[("a.blocks", PADDED), ("a.nets", TO_PAD), ("a.pl", PAD_CUT)],
        status: Status::BadInput,
        printed: Printed::Whole("error BadInput pl 2 BadLine\n"),
        ..PLAN_WIRED
    },
    Row {
        files: &[("a.blocks", PADDED), ("a.nets", TO_PAD), ("a.pl", NOWHERE)],
        status: Status::BadInput,
        printed: Printed::Whole("error BadInput design 0 MissingPlace p0\n"),
        ..PLAN_WIRED
    },
    Row {
        files: &[("a.blocks", TOO_LARGE)],
        status: Status::OverLimit,
        printed: Printed::Whole("error OverLimit area 1099511627777 1099511627776\n"),
        ..PLAN
    },
    Row {
        files: &[
            ("a.blocks", PADDED),
            ("a.nets", TO_PAD),
            ("a.pl", PAD_TOO_FAR),
        ],
        status: Status::OverLimit,
        printed: Printed::Whole("error OverLimit coordinate 1048577 1048576\n"),
        ..PLAN_WIRED
    },
    Row {
        options: "--wire-weight 1",
        files: &[("a.blocks", SQUARES), ("a.pl", NOWHERE)],
        status: Status::ReadFault,
        ..PLAN_WIRED
    },
    Row {
        files: &[("a.yal", YAL_UNCLOSED)],
        status: Status::BadInput,
        printed: Printed::Whole("error BadInput yal 1 Truncated\n"),
        ..PLAN_YAL
    },
    Row {
        files: &[("a.yal", YAL_NO_PARENT)],
        status: Status::BadInput,
        printed: Printed::Whole("error BadInput yal 0 NoParent\n"),
        ..PLAN_YAL
    },
    Row {
        files: &[("a.yal", YAL_STRANGE_CELL)],
        status: Status::BadInput,
        printed: Printed::Whole("error BadInput yal 1 UnknownModule zz\n"),
        ..PLAN_YAL
    },
    Row {
        files: &[("a.yal", YAL_CLOSED_TWICE)],
        status: Status::BadInput,
        printed: Printed::Whole("error BadInput yal 2 BadStatement\n"),
        ..PLAN_YAL
    },
    Row {
        files: &[("a.yal", YAL_TWO_PARENTS)],
        status: Status::BadInput,
        printed: Printed::Whole("error BadInput yal 2 TwoParents\n"),
        ..PLAN_YAL
    },
    Row {
        files: &[("a.yal", YAL_STRANGE_NUMBER)],
        status: Status::BadInput,
        printed: Printed::Whole("error BadInput yal 2 BadNumber NotNumber\n"),
        ..PLAN_YAL
    },
    Row {
        files: &[("a.yal", YAL_FLAT)],
        status: Status::BadInput,
        printed: Printed::Whole("error BadInput yal 2 ZeroSide\n"),
        ..PLAN_YAL
    },
];

/// What stands before the one block of a text.
const BEFORE_BLOCK: &str =
    "UCSC blocks 1.0\nNumSoftRectangularBlocks : 0\nNumHardRectilinearBlocks : 1\nNumTerminals : 0\n";

/// Lines of a block, and the faults that they show.
const BLOCK_LINES: [(&str, &str); 7] = [
    ("b0 hardrectilinear 4 (0, 0) (0, 4) (3, 4) (3,", "BadLine"),
    (
        "b0 hardrectilinear 9000000000000000 (0, 0) (0, 4) (3, 4) (3, 0)",
        "BadLine",
    ),
    (
        "b0 hardrectilinear 99999999999999999 (0, 0) (0, 4) (3, 4) (3, 0)",
        "BadNumber TooLarge",
    ),
    (
        "b0 hardrectilinear 4 (0, 0) (0, 4) (2.5, 4) (2.5, 0)",
        "BadNumber NotWhole",
    ),
    (
        "b0 hardrectilinear 4 (0, 0) (0, 4) (x, 4) (3, 0)",
        "BadNumber NotNumber",
    ),
    (
        "b0 hardrectilinear 4 (0, 0) (0, 4) (2.1234567, 4) (3, 0)",
        "BadNumber TooManyDigits",
    ),
    ("b0 hardrectilinear 2 (0, 0) (3, 0)", "ZeroSide"),
];

#[test]
fn designs(rt: HostRuntime) -> Result<(), Fail> {
    assert_rows(&rt, rt.alloc(), &[READ, REFUSED])
}

/// Whether a text with this line of a block is refused for this fault.
fn is_line_refused(
    rt: &(impl Threads + Sync),
    alloc: Global,
    line: &str,
    fault: &str,
) -> Result<bool, Fail> {
    let text = format!(in alloc; "{BEFORE_BLOCK}{line}\n")?;
    let said = format!(in alloc; "error BadInput blocks 5 {fault}\n")?;
    let words = words_of(alloc, &[PLAN.command])?;
    let files = [("a.blocks", text.as_bytes())];
    is_refused(rt, alloc, &words, &files, said.as_str())
}

#[test]
fn lines_of_a_block(rt: HostRuntime) -> Result<(), Fail> {
    for (line, fault) in BLOCK_LINES {
        assert!(rt; is_line_refused(&rt, rt.alloc(), line, fault)?, "{line}");
    }
    Ok(())
}
