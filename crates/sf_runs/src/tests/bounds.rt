//! The bounds that may be chosen, in plans and certificates: what a design of few blocks knows of its area, and what
//! pairs of blocks need.

use super::resuming::{OPEN_ROOT, RESUME};
use super::texts::{CLOSED_ROOT, ONE, ONE_CERT, ONE_LINES, TWO};
use super::{CHECK, PLAN, Printed, Row, assert_rows};
use sf_io::Status;
use std::test::Fail;

/// Squares of the sides 1 to 4.
const FOUR_SQUARES: &[u8] = b"UCSC blocks 1.0
NumSoftRectangularBlocks : 0
NumHardRectilinearBlocks : 4
NumTerminals : 0
b0 hardrectilinear 4 (0, 0) (0, 1) (1, 1) (1, 0)
b1 hardrectilinear 4 (0, 0) (0, 2) (2, 2) (2, 0)
b2 hardrectilinear 4 (0, 0) (0, 3) (3, 3) (3, 0)
b3 hardrectilinear 4 (0, 0) (0, 4) (4, 4) (4, 0)
";

/// The published least area of these squares is 35, that of a rectangle of 7 by 5.
const SQUARES_CERT: &[u8] =
    b"slicing-certificate 2\nblocks 4\ncost 35\nbound 35\nplan 3:4x4 2:3x3 1:2x2 0:1x1 * + *\ntree\nC a\n";

const OPEN_NONE_CERT: &[u8] =
    b"slicing-certificate 2\nblocks 2\ncost none\nbound none\nplan none\ntree\nC a\n";

/// The sides of two blocks add up to 5 either way, so they don't fit into 4 by 4; their areas and sides by
/// themselves would.
const ROWS: &[Row] = &[
    Row {
        options: "--fixed --bounds strong",
        files: &[("a.blocks", TWO)],
        printed: Printed::Lines("status Optimal\ncost 15\nbound 15\ndecided 1\narea 15\n"),
        ..PLAN
    },
    Row {
        options: "--bounds strong",
        files: &[("a.blocks", FOUR_SQUARES)],
        printed: Printed::Lines("status Optimal\ncost 35\nbound 35\ndecided 1\narea 35\n"),
        ..PLAN
    },
    Row {
        options: "--bounds strong --starts 2 --improve 9",
        files: &[("a.blocks", FOUR_SQUARES)],
        printed: Printed::Lines("status Optimal\ncost 35\nbound 35\ndecided 1\narea 35\n"),
        ..PLAN
    },
    Row {
        options: "--fixed --outline 4x4 --bounds strong",
        files: &[("a.blocks", TWO)],
        status: Status::NoneFits,
        printed: Printed::Whole(
            "status NoneFits\ncost none\nbound none\ndecided 1\nsize none\narea none\nwire none\nplan none\n",
        ),
        stored: &[("a.cert", OPEN_NONE_CERT)],
        ..PLAN
    },
    Row {
        options: "--fixed --bounds strong",
        files: &[("a.blocks", TWO), ("a.cert", CLOSED_ROOT)],
        printed: Printed::Whole("status Yes\ncost 15\nbound 15\ndecided 1\n"),
        ..CHECK
    },
    Row {
        options: "--fixed --bounds standard",
        files: &[("a.blocks", TWO), ("a.cert", CLOSED_ROOT)],
        status: Status::No,
        printed: Printed::Whole("status No NotClosed 0 12 15\n"),
        ..CHECK
    },
    Row {
        options: "--bounds strong",
        files: &[("a.blocks", FOUR_SQUARES), ("a.cert", SQUARES_CERT)],
        printed: Printed::Whole("status Yes\ncost 35\nbound 35\ndecided 1\n"),
        ..CHECK
    },
    Row {
        options: "--fixed --outline 4x4 --bounds strong",
        files: &[("a.blocks", TWO), ("a.cert", OPEN_NONE_CERT)],
        printed: Printed::Whole("status Yes\ncost none\nbound none\ndecided 1\n"),
        ..CHECK
    },
];

/// Two blocks of 2 by 3 and 3 by 2 need an area of 15, beside one another or above, where their own areas are 12.
const PAIR_CERT: &[u8] =
    b"slicing-certificate 2\nblocks 2\ncost 15\nbound 15\nplan 0:2x3 1:3x2 *\ntree\nE\nE\nE\nC a\nC a\nC f\n";

const NONE_FITS_CERT: &[u8] =
    b"slicing-certificate 2\nblocks 2\ncost none\nbound none\nplan none\ntree\nC f\n";

/// The root is left open: its value by pairs is 15.
const OPEN_PAIR: &[u8] =
    b"slicing-certificate 2\nblocks 2\ncost none\nbound 15\nplan none\ntree\nO\n";

/// The root is closed by its full value.
const CLOSED_PAIR: &[u8] =
    b"slicing-certificate 2\nblocks 2\ncost 15\nbound 15\nplan 0:2x3 1:3x2 *\ntree\nC f\n";

const PAIRS: &[Row] = &[
    Row {
        options: "--fixed --bounds pair",
        files: &[("a.blocks", TWO)],
        printed: Printed::Lines("status Optimal\ncost 15\nbound 15\ndecided 6\n"),
        stored: &[("a.cert", PAIR_CERT)],
        ..PLAN
    },
    Row {
        options: "--bounds pair",
        files: &[("a.blocks", ONE)],
        printed: Printed::Whole(ONE_LINES),
        stored: &[("a.cert", ONE_CERT)],
        ..PLAN
    },
    Row {
        options: "--fixed --outline 4x4 --bounds fit",
        files: &[("a.blocks", TWO)],
        status: Status::NoneFits,
        printed: Printed::Whole(
            "status NoneFits\ncost none\nbound none\ndecided 1\nsize none\narea none\nwire none\nplan none\n",
        ),
        stored: &[("a.cert", NONE_FITS_CERT)],
        ..PLAN
    },
    Row {
        options: "--fixed --outline 4x4 --bounds standard",
        files: &[("a.blocks", TWO)],
        status: Status::NoneFits,
        printed: Printed::Lines("status NoneFits\ncost none\nbound none\ndecided 9\n"),
        ..PLAN
    },
    Row {
        options: "--fixed --outline 4x4 --bounds both",
        files: &[("a.blocks", TWO), ("a.cert", NONE_FITS_CERT)],
        printed: Printed::Whole("status Yes\ncost none\nbound none\ndecided 1\n"),
        ..CHECK
    },
    Row {
        options: "--fixed --outline 4x4 --bounds standard",
        files: &[("a.blocks", TWO), ("a.cert", NONE_FITS_CERT)],
        status: Status::No,
        printed: Printed::Whole("status No NotClosed 0 12 none\n"),
        ..CHECK
    },
    Row {
        options: "--fixed --bounds standard",
        files: &[("a.blocks", TWO), ("a.cert", PAIR_CERT)],
        status: Status::No,
        printed: Printed::Whole("status No NotClosed 5 12 15\n"),
        ..CHECK
    },
    Row {
        options: "--fixed --bounds pair",
        files: &[("a.blocks", TWO), ("a.cert", PAIR_CERT)],
        printed: Printed::Whole("status Yes\ncost 15\nbound 15\ndecided 6\n"),
        ..CHECK
    },
];

/// `resume` and `check` with `--rewrite` judge by the chosen bound, too: of what is left open the bound is its value,
/// and what the pairs close the standard bound does not.
const CHOSEN: &[Row] = &[
    Row {
        options: "--fixed --bounds pair --nodes 9",
        files: &[("a.blocks", TWO), ("a.cert", OPEN_ROOT)],
        status: Status::No,
        printed: Printed::Whole("status No BoundDiffers 12 15\n"),
        ..RESUME
    },
    Row {
        options: "--fixed --bounds pair --nodes 9",
        files: &[("a.blocks", TWO), ("a.cert", OPEN_PAIR)],
        printed: Printed::Lines("status Optimal\ncost 15\nbound 15\n"),
        ..RESUME
    },
    Row {
        options: "--fixed --bounds both --rewrite b.cert",
        files: &[("a.blocks", TWO), ("a.cert", CLOSED_ROOT)],
        printed: Printed::Whole("status Yes\ncost 15\nbound 15\ndecided 1\n"),
        stored: &[("b.cert", CLOSED_PAIR)],
        ..CHECK
    },
    Row {
        options: "--fixed --bounds fit --rewrite b.cert",
        files: &[("a.blocks", TWO), ("a.cert", CLOSED_ROOT)],
        status: Status::No,
        printed: Printed::Whole("status No NotClosed 0 12 15\n"),
        ..CHECK
    },
];

#[test]
fn bounds_of_pairs(rt: HostRuntime) -> Result<(), Fail> {
    assert_rows(&rt, rt.alloc(), &[PAIRS, CHOSEN])
}

#[test]
fn strong_bounds(rt: HostRuntime) -> Result<(), Fail> {
    assert_rows(&rt, rt.alloc(), &[ROWS])
}
