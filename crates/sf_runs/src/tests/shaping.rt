//! Expressions and the curves that they spell.

use super::texts::{BESIDE, EQUALS, FIVE, SOFT};
use super::{GIVEN, Printed, Row, assert_rows};
use sf_io::Status;
use std::test::Fail;

const SHAPE: Row = Row {
    command: "shape --format gsrc --blocks a.blocks --expr a.expr",
    ..GIVEN
};

const ONE_BLOCK: &[u8] = b"0";

const ONE_TWICE: &[u8] = b"0 0 *";

const OPERATOR_TOO_EARLY: &[u8] = b"0 *";

const OPERATOR_TOO_MANY: &[u8] = b"0 1 * *";

const NO_SUCH_BLOCK: &[u8] = b"0\n2 *";

const LIKE_BEHIND_LIKE: &[u8] = b"0 1 2\n* *";

/// Expressions over two blocks 2x3 and over the soft block, and one over five blocks.
const ROWS: &[Row] = &[
    Row {
        files: &[("a.blocks", EQUALS), ("a.expr", BESIDE)],
        printed: Printed::Whole("4 3\n6 2\nleast 4 3 12\n"),
        ..SHAPE
    },
    Row {
        files: &[("a.blocks", EQUALS), ("a.expr", OPERATOR_TOO_MANY)],
        status: Status::BadInput,
        printed: Printed::Whole("error BadInput expr 1 NotBallot\n"),
        ..SHAPE
    },
    Row {
        files: &[("a.blocks", EQUALS), ("a.expr", OPERATOR_TOO_EARLY)],
        status: Status::BadInput,
        printed: Printed::Whole("error BadInput expr 1 NotBallot\n"),
        ..SHAPE
    },
    Row {
        files: &[("a.blocks", EQUALS), ("a.expr", ONE_TWICE)],
        status: Status::BadInput,
        printed: Printed::Whole("error BadInput expr 1 RepeatedBlock\n"),
        ..SHAPE
    },
    Row {
        files: &[("a.blocks", EQUALS), ("a.expr", ONE_BLOCK)],
        status: Status::BadInput,
        printed: Printed::Whole("error BadInput expr 1 MissingBlock\n"),
        ..SHAPE
    },
    Row {
        files: &[("a.blocks", EQUALS), ("a.expr", NO_SUCH_BLOCK)],
        status: Status::BadInput,
        printed: Printed::Whole("error BadInput expr 2 BadToken\n"),
        ..SHAPE
    },
    Row {
        files: &[("a.blocks", FIVE), ("a.expr", LIKE_BEHIND_LIKE)],
        status: Status::BadInput,
        printed: Printed::Whole("error BadInput expr 2 NotNormal\n"),
        ..SHAPE
    },
    Row {
        files: &[("a.blocks", SOFT), ("a.expr", ONE_BLOCK)],
        printed: Printed::Whole("1 4\n2 2\nleast 1 4 4\n"),
        ..SHAPE
    },
    Row {
        options: "--shapes 2",
        files: &[("a.blocks", SOFT), ("a.expr", ONE_BLOCK)],
        printed: Printed::Whole("1 4\n3 2\nleast 1 4 4\n"),
        ..SHAPE
    },
];

#[test]
fn curves(rt: HostRuntime) -> Result<(), Fail> {
    assert_rows(&rt, rt.alloc(), &[ROWS])
}
