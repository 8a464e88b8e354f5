//! Plans: what is found, at what cost, and which certificate and which placement are stored.

use super::texts::{
    EQUALS, FAR_PAD, FIVE, JOINED, JOINED_CERT, NOWHERE, ONE, ONE_CERT, ONE_LINES, PADDED,
    PADDED_CERT, PADDED_LINES, SOFT, SQUARES, TO_PAD, TWO, TWO_CERT, TWO_PLACES,
};
use super::{PLAN, PLAN_WIRED, Printed, Row, assert_rows};
use sf_io::Status;
use std::test::Fail;

const HUGE: &[u8] = b"UCSC blocks 1.0
NumSoftRectangularBlocks : 0
NumHardRectilinearBlocks : 1
NumTerminals : 0
b0 hardrectilinear 4 (0, 0) (0, 1048576) (1048576, 1048576) (1048576, 0)
";

const HUGE_PAIR: &[u8] = b"UCSC blocks 1.0
NumSoftRectangularBlocks : 0
NumHardRectilinearBlocks : 2
NumTerminals : 0
b0 hardrectilinear 4 (0, 0) (0, 1048576) (1048576, 1048576) (1048576, 0)
b1 hardrectilinear 4 (0, 0) (0, 1048576) (1048576, 1048576) (1048576, 0)
";

const TOO_WIDE: &[u8] = b"UCSC blocks 1.0
NumSoftRectangularBlocks : 0
NumHardRectilinearBlocks : 1
NumTerminals : 0
b0 hardrectilinear 4 (0, 0) (0, 1) (1048577, 1) (1048577, 0)
";

const SHAPELESS: &[u8] = b"UCSC blocks 1.0
NumSoftRectangularBlocks : 1
NumHardRectilinearBlocks : 0
NumTerminals : 0
b0 softrectangular 5 1 1
";

const HALVES: &[u8] = b"UCSC blocks 1.0
NumSoftRectangularBlocks : 0
NumHardRectilinearBlocks : 1
NumTerminals : 0
b0 hardrectilinear 4 (0, 0) (0, 4) (2.5, 4) (2.5, 0)
";

const HUGE_CERT: &[u8] =
    b"slicing-certificate 2\nblocks 1\ncost 1099511627776\nbound 1099511627776\nplan 0:1048576x1048576\ntree\nE\nC a\n";

const ONE_NONE_CERT: &[u8] =
    b"slicing-certificate 2\nblocks 1\ncost none\nbound none\nplan none\ntree\nC a\n";

const PAIR_NONE_CERT: &[u8] =
    b"slicing-certificate 2\nblocks 2\ncost none\nbound none\nplan none\ntree\nC a\n";

const EQUALS_CERT: &[u8] =
    b"slicing-certificate 2\nblocks 2\ncost 12\nbound 12\nplan 0:2x3 1:2x3 *\ntree\nE\nE\nE\nC a\nC a\nC a\n";

const LAST_OPEN_CERT: &[u8] =
    b"slicing-certificate 2\nblocks 2\ncost 12\nbound 12\nplan 0:2x3 1:2x3 *\ntree\nE\nE\nE\nC a\nC a\nO\n";

const FIRST_CERT: &[u8] =
    b"slicing-certificate 2\nblocks 2\ncost none\nbound 12\nplan none\ntree\nE\nO\nO\n";

const THIRD_CERT: &[u8] =
    b"slicing-certificate 2\nblocks 2\ncost none\nbound 12\nplan none\ntree\nE\nE\nE\nO\nO\nO\n";

const SOFT_CERT: &[u8] =
    b"slicing-certificate 2\nblocks 1\ncost 196\nbound 196\nplan 0:3x2\ntree\nE\nS 0\nC h\nS 0\nC h\nC h\n";

const EQUALS_CLOSED_CERT: &[u8] =
    b"slicing-certificate 2\nblocks 2\ncost 12\nbound 12\nplan 0:2x3 1:2x3 *\ntree\nC a\n";

const BEGUN_CERT: &[u8] =
    b"slicing-certificate 2\nblocks 2\ncost 15\nbound 12\nplan 0:2x3 1:3x2 *\ntree\nE\nO\nO\n";

const EQUALS_LINES: &str =
    "status Optimal\ncost 12\nbound 12\ndecided 6\nsize 4 3\narea 12\nwire 0\nplan 0:2x3 1:2x3 *\n";

const FIVE_OF_SIX_LINES: &str =
    "status Optimal\ncost 12\nbound 12\ndecided 5\nsize 4 3\narea 12\nwire 0\nplan 0:2x3 1:2x3 *\n";

const FIRST_LINES: &str =
    "status Open\ncost none\nbound 12\ndecided 1\nsize none\narea none\nwire none\nplan none\n";

const NONE_LINES: &str =
    "status NoneFits\ncost none\nbound none\ndecided 1\nsize none\narea none\nwire none\nplan none\n";

/// Plans with every line and every stored text.
const ROWS: &[Row] = &[
    Row {
        files: &[("a.blocks", ONE)],
        printed: Printed::Whole(ONE_LINES),
        stored: &[("a.cert", ONE_CERT)],
        ..PLAN
    },
    Row {
        options: "--fixed",
        files: &[("a.blocks", ONE)],
        printed: Printed::Whole(ONE_LINES),
        stored: &[("a.cert", ONE_CERT)],
        ..PLAN
    },
    Row {
        files: &[("a.blocks", EQUALS)],
        printed: Printed::Whole(EQUALS_LINES),
        stored: &[("a.cert", EQUALS_CERT)],
        ..PLAN
    },
    Row {
        options: "--fixed --pl-out a.out",
        files: &[("a.blocks", TWO)],
        printed: Printed::Whole(
            "status Optimal\ncost 15\nbound 15\ndecided 9\nsize 5 3\narea 15\nwire 0\nplan 0:2x3 1:3x2 *\n",
        ),
        stored: &[("a.cert", TWO_CERT), ("a.out", TWO_PLACES)],
        ..PLAN
    },
    Row {
        options: "--wire-weight 1",
        files: &[("a.blocks", SQUARES), ("a.nets", JOINED), ("a.pl", NOWHERE)],
        printed: Printed::Whole(
            "status Optimal\ncost 12\nbound 12\ndecided 6\nsize 4 2\narea 8\nwire 4\nplan 0:2x2 1:2x2 *\n",
        ),
        stored: &[("a.cert", JOINED_CERT)],
        ..PLAN_WIRED
    },
    Row {
        options: "--wire-weight 1",
        files: &[("a.blocks", PADDED), ("a.nets", TO_PAD), ("a.pl", FAR_PAD)],
        printed: Printed::Whole(PADDED_LINES),
        stored: &[("a.cert", PADDED_CERT)],
        ..PLAN_WIRED
    },
    Row {
        options: "--wire-weight 10",
        files: &[("a.blocks", SOFT), ("a.nets", TO_PAD), ("a.pl", FAR_PAD)],
        printed: Printed::Whole(
            "status Optimal\ncost 196\nbound 196\ndecided 6\nsize 3 2\narea 6\nwire 19\nplan 0:3x2\n",
        ),
        stored: &[("a.cert", SOFT_CERT)],
        ..PLAN_WIRED
    },
    Row {
        files: &[("a.blocks", HUGE)],
        printed: Printed::Whole(
            "status Optimal\ncost 1099511627776\nbound 1099511627776\ndecided 2\nsize 1048576 1048576\narea 1099511627776\nwire 0\nplan 0:1048576x1048576\n",
        ),
        stored: &[("a.cert", HUGE_CERT)],
        ..PLAN
    },
];

/// Nothing fits, or there is no plan to be had.
const UNFIT: &[Row] = &[
    Row {
        options: "--outline 2x2",
        files: &[("a.blocks", ONE)],
        status: Status::NoneFits,
        printed: Printed::Whole(NONE_LINES),
        stored: &[("a.cert", ONE_NONE_CERT)],
        ..PLAN
    },
    Row {
        files: &[("a.blocks", HUGE_PAIR)],
        status: Status::NoneFits,
        printed: Printed::Whole(NONE_LINES),
        stored: &[("a.cert", PAIR_NONE_CERT)],
        ..PLAN
    },
    Row {
        options: "--fixed",
        files: &[("a.blocks", HUGE_PAIR)],
        status: Status::NoneFits,
        printed: Printed::Whole(NONE_LINES),
        stored: &[("a.cert", PAIR_NONE_CERT)],
        ..PLAN
    },
    Row {
        files: &[("a.blocks", TOO_WIDE)],
        status: Status::OverLimit,
        printed: Printed::Whole("error OverLimit side 1048577 1048576\n"),
        ..PLAN
    },
    Row {
        files: &[("a.blocks", SHAPELESS)],
        status: Status::BadInput,
        printed: Printed::Whole("error BadInput design 0 NoShape b0\n"),
        ..PLAN
    },
];

/// The search ends at its budget.
const BUDGETS: &[Row] = &[
    Row {
        options: "--nodes 1",
        files: &[("a.blocks", EQUALS)],
        status: Status::Open,
        printed: Printed::Whole(FIRST_LINES),
        stored: &[("a.cert", FIRST_CERT)],
        ..PLAN
    },
    Row {
        options: "--fixed --nodes 1",
        files: &[("a.blocks", TWO)],
        status: Status::Open,
        printed: Printed::Whole(FIRST_LINES),
        stored: &[("a.cert", FIRST_CERT)],
        ..PLAN
    },
    Row {
        options: "--nodes 3",
        files: &[("a.blocks", EQUALS)],
        status: Status::Open,
        printed: Printed::Whole(
            "status Open\ncost none\nbound 12\ndecided 3\nsize none\narea none\nwire none\nplan none\n",
        ),
        stored: &[("a.cert", THIRD_CERT)],
        ..PLAN
    },
    Row {
        options: "--nodes 5",
        files: &[("a.blocks", EQUALS)],
        printed: Printed::Whole(FIVE_OF_SIX_LINES),
        stored: &[("a.cert", LAST_OPEN_CERT)],
        ..PLAN
    },
    Row {
        options: "--fixed --nodes 5",
        files: &[("a.blocks", EQUALS)],
        printed: Printed::Whole(FIVE_OF_SIX_LINES),
        stored: &[("a.cert", LAST_OPEN_CERT)],
        ..PLAN
    },
    Row {
        options: "--nodes 6",
        files: &[("a.blocks", EQUALS)],
        printed: Printed::Whole(EQUALS_LINES),
        stored: &[("a.cert", EQUALS_CERT)],
        ..PLAN
    },
];

/// The search begins with what walks find, where they find a floorplan.
const STARTS: &[Row] = &[
    Row {
        options: "--starts 1 --moves 1",
        files: &[("a.blocks", EQUALS)],
        printed: Printed::Whole(
            "status Optimal\ncost 12\nbound 12\ndecided 1\nsize 4 3\narea 12\nwire 0\nplan 0:2x3 1:2x3 *\n",
        ),
        stored: &[("a.cert", EQUALS_CLOSED_CERT)],
        ..PLAN
    },
    Row {
        options: "--fixed --starts 2 --improve 9 --nodes 1",
        files: &[("a.blocks", TWO)],
        status: Status::Open,
        printed: Printed::Whole(
            "status Open\ncost 15\nbound 12\ndecided 1\nsize 5 3\narea 15\nwire 0\nplan 0:2x3 1:3x2 *\n",
        ),
        stored: &[("a.cert", BEGUN_CERT)],
        ..PLAN
    },
    Row {
        options: "--starts 1 --start-seed 7",
        files: &[("a.blocks", HUGE_PAIR)],
        status: Status::NoneFits,
        printed: Printed::Whole(NONE_LINES),
        stored: &[("a.cert", PAIR_NONE_CERT)],
        ..PLAN
    },
    Row {
        options: "--starts 0 --moves 9 --start-seed 1 --improve 9",
        files: &[("a.blocks", EQUALS)],
        printed: Printed::Whole(EQUALS_LINES),
        stored: &[("a.cert", EQUALS_CERT)],
        ..PLAN
    },
];

/// Plans of which some lines are free.
const FREE: &[Row] = &[
    Row {
        options: "--fixed --outline 3x3",
        files: &[("a.blocks", FIVE)],
        status: Status::NoneFits,
        printed: Printed::Lines("status NoneFits\ncost none\nbound none\nplan none"),
        ..PLAN
    },
    Row {
        options: "--fixed --outline 3x4",
        files: &[("a.blocks", FIVE)],
        printed: Printed::Lines("status Optimal\ncost 12\nbound 12"),
        ..PLAN
    },
    Row {
        options: "--per-unit 10",
        files: &[("a.blocks", HALVES)],
        printed: Printed::Lines("status Optimal\ncost 1000\nsize 25 40\nplan 0:25x40"),
        ..PLAN
    },
    Row {
        options: "--per-unit 10 --pl-out a.out",
        files: &[("a.blocks", HALVES)],
        printed: Printed::Lines("status Optimal\ncost 1000\nsize 25 40\nplan 0:25x40"),
        stored: &[("a.out", b"UCLA pl 1.0\nb0 0 0 DIMS = (2.5, 4) : N\n")],
        ..PLAN
    },
];

#[test]
fn plans(rt: HostRuntime) -> Result<(), Fail> {
    assert_rows(&rt, rt.alloc(), &[ROWS, UNFIT, BUDGETS, STARTS, FREE])
}
