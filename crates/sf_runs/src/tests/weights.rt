//! Weights of nets: what a weighted design costs, and texts of weights that are refused.

use super::texts::{CELL_PLACES, CELLS, JOINED, JOINED_CERT, NOWHERE, SQUARES};
use super::{CHECK_WIRED, GIVEN, PLAN_WIRED, PLAN_WORDS, Printed, Row, Text, assert_rows};
use sf_io::Status;
use std::test::Fail;

/// Two squares of side 2 and a net of both, with weights.
const PLAN_WEIGHED: Row = Row {
    options: "--wire-weight 1 --net-weights a.weights",
    ..PLAN_WIRED
};

const MEASURE: Row = Row {
    command: "measure --format yal --yal a.yal --placed a.out",
    ..GIVEN
};

const TRIPLE: &[u8] = b"0 3\n";

const TRIPLE_CERT: &[u8] =
    b"slicing-certificate 2\nblocks 2\ncost 20\nbound 20\nplan 0:2x2 1:2x2 *\ntree\nE\nE\nE\nC p\nC p\nC p\n";

const ZERO_CERT: &[u8] =
    b"slicing-certificate 2\nblocks 2\ncost 8\nbound 8\nplan 0:2x2 1:2x2 *\ntree\nE\nE\nE\nC a\nC a\nC a\n";

const TRIPLE_FILES: &[Text] = &[
    ("a.blocks", SQUARES),
    ("a.nets", JOINED),
    ("a.pl", NOWHERE),
    ("a.weights", TRIPLE),
    ("a.cert", TRIPLE_CERT),
];

const PLACED_TWICE: &[u8] = b"UCLA pl 1.0\nb0 0 0\nb0 0 0\n";

const PLACED_BADLY: &[u8] = b"UCLA pl 1.0\nb0 0\n";

/// Designs with weights. The net's pins are (2, 2) and (6, 2), so its wire is 4. In the other design the
/// three nets have the wires 4, 4 and 16 in the placement.
const WEIGHTED: &[Row] = &[
    Row {
        files: &[
            ("a.blocks", SQUARES),
            ("a.nets", JOINED),
            ("a.pl", NOWHERE),
            ("a.weights", TRIPLE),
        ],
        printed: Printed::Whole(
            "status Optimal\ncost 20\nbound 20\ndecided 6\nsize 4 2\narea 8\nwire 12\nplan 0:2x2 1:2x2 *\n",
        ),
        stored: &[("a.cert", TRIPLE_CERT)],
        ..PLAN_WEIGHED
    },
    Row {
        files: &[
            ("a.blocks", SQUARES),
            ("a.nets", JOINED),
            ("a.pl", NOWHERE),
            ("a.weights", b"0 0\n"),
        ],
        printed: Printed::Whole(
            "status Optimal\ncost 8\nbound 8\ndecided 6\nsize 4 2\narea 8\nwire 0\nplan 0:2x2 1:2x2 *\n",
        ),
        stored: &[("a.cert", ZERO_CERT)],
        ..PLAN_WEIGHED
    },
    Row {
        files: &[
            ("a.blocks", SQUARES),
            ("a.nets", JOINED),
            ("a.pl", NOWHERE),
            ("a.weights", b"# none\n"),
        ],
        printed: Printed::Whole(
            "status Optimal\ncost 12\nbound 12\ndecided 6\nsize 4 2\narea 8\nwire 4\nplan 0:2x2 1:2x2 *\n",
        ),
        stored: &[("a.cert", JOINED_CERT)],
        ..PLAN_WEIGHED
    },
    Row {
        command: CHECK_WIRED,
        files: TRIPLE_FILES,
        printed: Printed::Whole("status Yes\ncost 20\nbound 20\ndecided 6\n"),
        ..PLAN_WEIGHED
    },
    Row {
        command: CHECK_WIRED,
        options: "--wire-weight 1",
        files: TRIPLE_FILES,
        status: Status::No,
        printed: Printed::Whole("status No CostDiffers 20 12\n"),
        ..GIVEN
    },
    Row {
        options: "--wire-weight 1 --net-weights a.weights",
        files: &[
            ("a.yal", CELLS),
            ("a.out", CELL_PLACES),
            ("a.weights", b"2 3\n1 0\n"),
        ],
        printed: Printed::Whole("status Legal\ncost 60\nsize 4 2\narea 8\nwire 52\n"),
        ..MEASURE
    },
];

/// Texts of weights that are refused, and what comes before and behind them.
const REFUSED: &[Row] = &[
    Row {
        files: &[
            ("a.blocks", SQUARES),
            ("a.nets", JOINED),
            ("a.pl", PLACED_TWICE),
            ("a.weights", b"1 3\n"),
        ],
        status: Status::BadInput,
        printed: Printed::Whole("error BadInput weights 1 UnknownNet 1\n"),
        ..PLAN_WEIGHED
    },
    Row {
        files: &[
            ("a.blocks", SQUARES),
            ("a.nets", JOINED),
            ("a.pl", NOWHERE),
            ("a.weights", b"0 256\n"),
        ],
        status: Status::BadInput,
        printed: Printed::Whole("error BadInput weights 1 BadNumber TooLarge\n"),
        ..PLAN_WEIGHED
    },
    Row {
        files: &[
            ("a.blocks", SQUARES),
            ("a.nets", JOINED),
            ("a.pl", NOWHERE),
            ("a.weights", b"0 1\n0 1\n"),
        ],
        status: Status::BadInput,
        printed: Printed::Whole("error BadInput weights 2 RepeatedNet 0\n"),
        ..PLAN_WEIGHED
    },
    Row {
        files: &[
            ("a.blocks", SQUARES),
            ("a.nets", JOINED),
            ("a.pl", NOWHERE),
            ("a.weights", b"0\n"),
        ],
        status: Status::BadInput,
        printed: Printed::Whole("error BadInput weights 1 BadLine\n"),
        ..PLAN_WEIGHED
    },
    Row {
        files: &[
            ("a.blocks", SQUARES),
            ("a.nets", JOINED),
            ("a.pl", PLACED_BADLY),
            ("a.weights", b"0\n"),
        ],
        status: Status::BadInput,
        printed: Printed::Whole("error BadInput pl 2 BadLine\n"),
        ..PLAN_WEIGHED
    },
    Row {
        command: PLAN_WORDS,
        files: &[("a.blocks", SQUARES), ("a.weights", b"0 1\n")],
        status: Status::BadInput,
        printed: Printed::Whole("error BadInput weights 1 UnknownNet 0\n"),
        ..PLAN_WEIGHED
    },
    Row {
        options: "--net-weights a.weights",
        files: &[
            ("a.yal", CELLS),
            ("a.out", CELL_PLACES),
            ("a.weights", b"3 1\n"),
        ],
        status: Status::BadInput,
        printed: Printed::Whole("error BadInput weights 1 UnknownNet 3\n"),
        ..MEASURE
    },
    Row {
        files: &[("a.blocks", SQUARES), ("a.nets", JOINED), ("a.pl", NOWHERE)],
        status: Status::ReadFault,
        ..PLAN_WEIGHED
    },
];

#[test]
fn weights(rt: HostRuntime) -> Result<(), Fail> {
    assert_rows(&rt, rt.alloc(), &[WEIGHTED, REFUSED])
}
