//! Searches that begin with the placement of a file.

use super::texts::{FIVE, TWO, TWO_PLACES};
use super::{GIVEN, PLAN_WORDS, Printed, Row, assert_rows};
use sf_io::Status;
use std::test::Fail;

/// A search of hard blocks that decides one subproblem and begins with a placement, which isn't made better.
const BEGUN: Row = Row {
    command: PLAN_WORDS,
    options: "--fixed --begin a.out --improve 0 --nodes 1",
    ..GIVEN
};

/// The same, refused for what stands in a text.
const REFUSED: Row = Row {
    status: Status::BadInput,
    ..BEGUN
};

const BESIDE_CERT: &[u8] =
    b"slicing-certificate 2\nblocks 2\ncost 15\nbound 12\nplan 0:2x3 1:3x2 *\ntree\nE\nO\nO\n";

const ABOVE_CERT: &[u8] =
    b"slicing-certificate 2\nblocks 2\ncost 15\nbound 12\nplan 1:3x2 0:2x3 +\ntree\nE\nO\nO\n";

const BESIDE_LINES: &str =
    "status Open\ncost 15\nbound 12\ndecided 1\nsize 5 3\narea 15\nwire 0\nplan 0:2x3 1:3x2 *\n";

const ABOVE_LINES: &str =
    "status Open\ncost 15\nbound 12\ndecided 1\nsize 3 5\narea 15\nwire 0\nplan 1:3x2 0:2x3 +\n";

/// The second block lies to the right of the first one, and above it; across comes before upward.
const APART: &[u8] = b"UCLA pl 1.0\nb0 -9 0 DIMS = (2, 3) : N\nb1 7 8 DIMS = (3, 2) : N\n";

/// The first block stands above the second one, at half of its width.
const ABOVE: &[u8] = b"UCLA pl 1.0\nb0 1 2 DIMS = (2, 3) : N\nb1 0 0 DIMS = (3, 2) : N\n";

const OVERLAPPING: &[u8] = b"UCLA pl 1.0\nb0 0 0 DIMS = (2, 3) : N\nb1 1 0 DIMS = (4, 2) : N\n";

const UNLISTED: &[u8] = b"UCLA pl 1.0\nb0 0 0 DIMS = (2, 3) : N\nb1 2 0 DIMS = (3, 3) : N\n";

const MISSING: &[u8] = b"UCLA pl 1.0\nb0 0 0 DIMS = (2, 3) : N\nb1 2 0\n";

const TWICE: &[u8] =
    b"UCLA pl 1.0\nb0 0 0 DIMS = (2, 3) : N\nb1 2 0 DIMS = (3, 2) : N\nb1 2 0 DIMS = (3, 2) : N\n";

const CUT_OFF: &[u8] = b"UCLA pl 1.0\nb0 0\n";

/// Four blocks round a fifth one.
const PINWHEEL: &[u8] = b"UCLA pl 1.0
b0 0 0 DIMS = (2, 1) : N
b1 1 2 DIMS = (2, 1) : N
b2 2 0 DIMS = (1, 2) : N
b3 0 1 DIMS = (1, 2) : N
b4 1 1 DIMS = (1, 1) : N
";

/// The packed plan is the one that is known when the budget is spent.
const ROWS: &[Row] = &[
    Row {
        files: &[("a.blocks", TWO), ("a.out", TWO_PLACES)],
        status: Status::Open,
        printed: Printed::Whole(BESIDE_LINES),
        stored: &[("a.cert", BESIDE_CERT)],
        ..BEGUN
    },
    Row {
        files: &[("a.blocks", TWO), ("a.out", APART)],
        status: Status::Open,
        printed: Printed::Whole(BESIDE_LINES),
        stored: &[("a.cert", BESIDE_CERT)],
        ..BEGUN
    },
    Row {
        files: &[("a.blocks", TWO), ("a.out", ABOVE)],
        status: Status::Open,
        printed: Printed::Whole(ABOVE_LINES),
        stored: &[("a.cert", ABOVE_CERT)],
        ..BEGUN
    },
];

/// What of the placement's file is refused, and in which order. A budget past its limit is refused before that.
const REFUSALS: &[Row] = &[
    Row {
        files: &[("a.blocks", TWO)],
        status: Status::ReadFault,
        ..BEGUN
    },
    Row {
        files: &[("a.blocks", TWO), ("a.out", CUT_OFF)],
        printed: Printed::Whole("error BadInput placed 2 BadLine\n"),
        ..REFUSED
    },
    Row {
        files: &[("a.blocks", TWO), ("a.out", MISSING)],
        printed: Printed::Whole("error BadInput design 0 MissingPlace b1\n"),
        ..REFUSED
    },
    Row {
        files: &[("a.blocks", TWO), ("a.out", TWICE)],
        printed: Printed::Whole("error BadInput design 0 DuplicateName b1\n"),
        ..REFUSED
    },
    Row {
        files: &[("a.blocks", TWO), ("a.out", OVERLAPPING)],
        printed: Printed::Whole("error BadInput design 0 NotSlicing\n"),
        ..REFUSED
    },
    Row {
        files: &[("a.blocks", FIVE), ("a.out", PINWHEEL)],
        printed: Printed::Whole("error BadInput design 0 NotSlicing\n"),
        ..REFUSED
    },
    Row {
        files: &[("a.blocks", TWO), ("a.out", UNLISTED)],
        printed: Printed::Whole("error BadInput design 0 Unlisted b1\n"),
        ..REFUSED
    },
];

#[test]
fn placements(rt: HostRuntime) -> Result<(), Fail> {
    assert_rows(&rt, rt.alloc(), &[ROWS, REFUSALS])
}
