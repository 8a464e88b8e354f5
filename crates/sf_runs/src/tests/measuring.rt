//! Placements and what is said of them.

use super::texts::{CELLS, FAR_PAD, JOINED, NOWHERE, SOFT, SQUARES, TO_PAD, TWO, TWO_PLACES};
use super::{GIVEN, Printed, Row, assert_rows};
use sf_io::Status;
use std::test::Fail;

const FIXED: Row = Row {
    command: "measure --format gsrc --blocks a.blocks --placed a.out --fixed",
    ..GIVEN
};

const WIRED: Row = Row {
    command: "measure --format gsrc --blocks a.blocks --nets a.nets --pl a.pl --placed a.out",
    ..GIVEN
};

const YAL: Row = Row {
    command: "measure --format yal --yal a.yal --placed a.out",
    options: "--wire-weight 1",
    printed: Printed::Lines("status Legal\ncost 40"),
    ..GIVEN
};

const OVERLAPPING: &[u8] = b"UCLA pl 1.0\nb0 0 0 DIMS = (2, 3) : N\nb1 1 0 DIMS = (3, 2) : N\n";

const OUTSIDE: &[u8] = b"UCLA pl 1.0\nb0 0 0 DIMS = (2, 3) : N\nb1 -1 0 DIMS = (3, 2) : N\n";

const UNLISTED: &[u8] = b"UCLA pl 1.0\nb0 0 0 DIMS = (2, 3) : N\nb1 2 0 DIMS = (3, 3) : N\n";

const MISSING: &[u8] = b"UCLA pl 1.0\nb0 0 0 DIMS = (2, 3) : N\n";

const WITHOUT_SIZE: &[u8] = b"UCLA pl 1.0\nb0 0 0 DIMS = (2, 3) : N\nb1 2 0\n";

const CUT_OFF: &[u8] = b"UCLA pl 1.0\nb0 0\n";

const TWICE: &[u8] =
    b"UCLA pl 1.0\nb0 0 0 DIMS = (2, 3) : N\nb1 2 0 DIMS = (3, 2) : N\nb1 2 0 DIMS = (3, 2) : N\n";

const SIDE_BY_SIDE: &[u8] = b"UCLA pl 1.0\nb0 0 0 DIMS = (2, 2) : N\nb1 2 0 DIMS = (2, 2) : N\n";

const HIGH: &[u8] = b"UCLA pl 1.0\nb0 0 0 DIMS = (1, 4) : N\n";

const SQUARE: &[u8] = b"UCLA pl 1.0\nb0 0 0 DIMS = (2, 2) : N\n";

const WIDE: &[u8] = b"UCLA pl 1.0\nb0 0 0 DIMS = (3, 2) : N\n";

const V_ABOVE: &[u8] = b"UCLA pl 1.0\nu 0 0 DIMS = (2, 2) : N\nv 0 2 DIMS = (2, 2) : N\n";

const V_LEFT: &[u8] = b"UCLA pl 1.0\nu 2 0 DIMS = (2, 2) : N\nv 0 0 DIMS = (2, 2) : N\n";

const V_BELOW: &[u8] = b"UCLA pl 1.0\nu 0 2 DIMS = (2, 2) : N\nv 0 0 DIMS = (2, 2) : N\n";

/// Placements of the blocks 2x3 and 3x2.
const ROWS: &[Row] = &[
    Row {
        files: &[("a.blocks", TWO), ("a.out", TWO_PLACES)],
        printed: Printed::Whole("status Legal\ncost 15\nsize 5 3\narea 15\nwire 0\n"),
        ..FIXED
    },
    Row {
        files: &[("a.blocks", TWO), ("a.out", OVERLAPPING)],
        status: Status::No,
        printed: Printed::Whole("status Overlap 0 1\n"),
        ..FIXED
    },
    Row {
        files: &[("a.blocks", TWO), ("a.out", OUTSIDE)],
        status: Status::No,
        printed: Printed::Whole("status Outside 1\n"),
        ..FIXED
    },
    Row {
        files: &[("a.blocks", TWO), ("a.out", UNLISTED)],
        status: Status::No,
        printed: Printed::Whole("status Unlisted 1\n"),
        ..FIXED
    },
    Row {
        files: &[("a.blocks", TWO), ("a.out", MISSING)],
        status: Status::BadInput,
        printed: Printed::Whole("error BadInput design 0 MissingPlace b1\n"),
        ..FIXED
    },
    Row {
        files: &[("a.blocks", TWO), ("a.out", WITHOUT_SIZE)],
        status: Status::BadInput,
        printed: Printed::Whole("error BadInput design 0 MissingPlace b1\n"),
        ..FIXED
    },
    Row {
        files: &[("a.blocks", TWO), ("a.out", TWICE)],
        status: Status::BadInput,
        printed: Printed::Whole("error BadInput design 0 DuplicateName b1\n"),
        ..FIXED
    },
    Row {
        files: &[("a.blocks", TWO), ("a.out", CUT_OFF)],
        status: Status::BadInput,
        printed: Printed::Whole("error BadInput placed 2 BadLine\n"),
        ..FIXED
    },
];

/// Placements with wire.
const WIRE: &[Row] = &[
    Row {
        command: "measure --format gsrc --blocks a.blocks --nets a.nets --placed a.out",
        options: "--wire-weight 1",
        files: &[
            ("a.blocks", SQUARES),
            ("a.nets", JOINED),
            ("a.out", SIDE_BY_SIDE),
        ],
        printed: Printed::Whole("status Legal\ncost 12\nsize 4 2\narea 8\nwire 4\n"),
        ..GIVEN
    },
    Row {
        options: "--wire-weight 1",
        files: &[
            ("a.blocks", SQUARES),
            ("a.nets", JOINED),
            ("a.pl", NOWHERE),
            ("a.out", SIDE_BY_SIDE),
        ],
        printed: Printed::Whole("status Legal\ncost 12\nsize 4 2\narea 8\nwire 4\n"),
        ..WIRED
    },
    Row {
        options: "--wire-weight 10",
        files: &[
            ("a.blocks", SOFT),
            ("a.nets", TO_PAD),
            ("a.pl", FAR_PAD),
            ("a.out", HIGH),
        ],
        printed: Printed::Lines("status Legal\ncost 234"),
        ..WIRED
    },
    Row {
        options: "--wire-weight 10",
        files: &[
            ("a.blocks", SOFT),
            ("a.nets", TO_PAD),
            ("a.pl", FAR_PAD),
            ("a.out", SQUARE),
        ],
        printed: Printed::Lines("status Legal\ncost 204"),
        ..WIRED
    },
    Row {
        options: "--wire-weight 10",
        files: &[
            ("a.blocks", SOFT),
            ("a.nets", TO_PAD),
            ("a.pl", FAR_PAD),
            ("a.out", WIDE),
        ],
        printed: Printed::Lines("status Legal\ncost 196"),
        ..WIRED
    },
    Row {
        files: &[("a.yal", CELLS), ("a.out", V_ABOVE)],
        ..YAL
    },
    Row {
        files: &[("a.yal", CELLS), ("a.out", V_LEFT)],
        ..YAL
    },
    Row {
        files: &[("a.yal", CELLS), ("a.out", V_BELOW)],
        ..YAL
    },
];

#[test]
fn placements(rt: HostRuntime) -> Result<(), Fail> {
    assert_rows(&rt, rt.alloc(), &[ROWS, WIRE])
}
