//! Texts of tokens and of expressions, their faults, and plans of two and three blocks.

ghost use Rattle.std.specs.Prelude.{◌≡◌, IfOk};
ghost use Rattle.sf_model.specs.Tree.{Above, Beside, HasEachOnce, tree_of};
ghost use Rattle.sf_polish.specs.Postfix.{IsSkewed};

use sf_expr_text::{ExprFault, read_expr, read_tokens, write_expr};
use sf_model::{Plan, Shape};
use sf_polish::{expr_of, normalise, plan_of};
use std::alloc::{AllocError, Global};

/// The number of a fault and its line, and zeros where there is none.
fn fault_of<T: Drop>(outcome: Result<T, ExprFault>) -> (u8, u64) {
    match outcome {
        Ok(_) => (0, 0),
        Err(ExprFault::BadToken(line)) => (1, line),
        Err(ExprFault::NotBallot(line)) => (2, line),
        Err(ExprFault::NotNormal(line)) => (3, line),
        Err(ExprFault::RepeatedBlock(line)) => (4, line),
        Err(ExprFault::MissingBlock(line)) => (5, line),
        Err(ExprFault::NoMemory) => (6, 0),
    }
}

/// Texts of tokens of so many blocks, each with its fault; of several the one of the first word is told.
const TOKENS: [(&str, u16, (u8, u64)); 13] = [
    ("0 1 *", 2, (0, 0)),
    ("\t0\r\n1\n\n*  \n", 2, (0, 0)),
    ("0 1 * *", 2, (2, 1)),
    ("0 *", 2, (2, 1)),
    ("0 0 *", 2, (4, 1)),
    ("0", 2, (5, 1)),
    (" \n", 2, (5, 0)),
    ("0\n1\n \n", 2, (2, 2)),
    ("0 1 2\n* *", 3, (3, 2)),
    ("0 1 + 2 +", 3, (0, 0)),
    ("0\n01 *", 2, (1, 2)),
    ("0 2 *", 2, (1, 1)),
    ("0 1 **", 2, (1, 1)),
];

/// The same of expressions of two blocks.
const EXPRESSIONS: [(&str, (u8, u64)); 5] = [
    ("0:2x3 1:1048576x1 *", (0, 0)),
    ("0:2x3 1:1048577x1 *", (1, 1)),
    ("0:2x0 1:3x2 *", (1, 1)),
    ("0 1 *", (1, 1)),
    ("0:2x3\n0:3x2\n*", (4, 2)),
];

/// Of several faults the one of the first word is told.
#[test]
fn faults_by_word(rt: HostRuntime) {
    for (text, blocks, fault) in TOKENS {
        let found = fault_of(read_tokens(rt.alloc(), text.as_bytes(), blocks));
        assert!(rt; found == fault, "{text}");
    }
    for (text, fault) in EXPRESSIONS {
        let found = fault_of(read_expr(rt.alloc(), text.as_bytes(), 2));
        assert!(rt; found == fault, "{text}");
    }
}

/// One plan beside another.
fn beside(alloc: Global, left: Plan, right: Plan) -> Result<Plan, AllocError>
    ensures { IfOk result (λ plan. tree_of plan ≡ Beside (tree_of left) (tree_of right)) }
{
    Ok(Plan::Beside(Box::new(alloc, left)?, Box::new(alloc, right)?))
}

/// One plan below another.
fn above(alloc: Global, lower: Plan, upper: Plan) -> Result<Plan, AllocError>
    ensures { IfOk result (λ plan. tree_of plan ≡ Above (tree_of lower) (tree_of upper)) }
{
    Ok(Plan::Above(Box::new(alloc, lower)?, Box::new(alloc, upper)?))
}

/// Blocks 2x3, 3x2 and 1x1.
const FIRST: Plan = Plan::Leaf(0, Shape { w: 2, h: 3 });

const SECOND: Plan = Plan::Leaf(1, Shape { w: 3, h: 2 });

const THIRD: Plan = Plan::Leaf(2, Shape { w: 1, h: 1 });

/// The text of a plan.
fn written(alloc: Global, plan: &Plan, blocks: u16) -> Result<Vec<u8>, AllocError>
    requires skewed { IsSkewed (tree_of plan.now) }
    requires each_once { HasEachOnce blocks (tree_of plan.now) }
{
    let expr = expr_of(alloc, plan, blocks)?;
    write_expr(alloc, &expr)
}

/// Whether the plan of two blocks side by side has this text, which is read as it.
fn is_two(alloc: Global, wanted: &[u8]) -> Result<bool, ExprFault> {
    let plan = normalise(alloc, beside(alloc, FIRST, SECOND)?)?;
    let text = written(alloc, &plan, 2)?;
    let read = read_expr(alloc, &text, 2)?;
    Ok(text.as_slice() == wanted && matches!(plan_of(alloc, &read)?, Plan::Beside(_, _)))
}

/// A plan of two blocks is written and read again.
#[test]
fn plan_of_two(rt: HostRuntime) {
    assert!(rt; matches!(is_two(rt.alloc(), b"0:2x3 1:3x2 *"), Ok(true)));
}

/// Expressions of three blocks, of which the first two are joined first, or the last two.
const THREES: [&str; 6] = [
    "0:2x3 1:3x2 * 2:1x1 *",
    "0:2x3 1:3x2 + 2:1x1 +",
    "0:2x3 1:3x2 * 2:1x1 +",
    "0:2x3 1:3x2 + 2:1x1 *",
    "0:2x3 1:3x2 2:1x1 * +",
    "0:2x3 1:3x2 2:1x1 + *",
];

/// Whether a text of three blocks is read and written as it was.
fn is_kept(alloc: Global, text: &[u8]) -> Result<bool, ExprFault> {
    let expr = read_expr(alloc, text, 3)?;
    Ok(write_expr(alloc, &expr)?.as_slice() == text)
}

/// What was read is written as it was.
#[test]
fn written_as_read(rt: HostRuntime) {
    for text in THREES {
        assert!(rt;
            matches!(is_kept(rt.alloc(), text.as_bytes()), Ok(true)),
            "{text}"
        );
    }
}

/// Whether the first block beside the other two, one above the other, has this text.
fn is_upper(alloc: Global, wanted: &[u8]) -> Result<bool, AllocError> {
    let plan = beside(alloc, FIRST, above(alloc, SECOND, THIRD)?)?;
    Ok(written(alloc, &plan, 3)?.as_slice() == wanted)
}

/// Whether the last block above the other two, side by side, has this text.
fn is_lower(alloc: Global, wanted: &[u8]) -> Result<bool, AllocError> {
    let plan = above(alloc, beside(alloc, FIRST, SECOND)?, THIRD)?;
    Ok(written(alloc, &plan, 3)?.as_slice() == wanted)
}

/// A plan with one operator inside the other is written with the inner one first.
#[test]
fn plans_of_three(rt: HostRuntime) {
    assert!(rt; is_upper(rt.alloc(), b"0:2x3 1:3x2 2:1x1 + *") == Ok(true));
    assert!(rt; is_lower(rt.alloc(), b"0:2x3 1:3x2 * 2:1x1 +") == Ok(true));
}

/// Whether two of the three blocks are joined first, and then the last.
fn leans_left(plan: &Plan) -> bool {
    match plan {
        Plan::Beside(left, right) => {
            matches!(**left, Plan::Beside(_, _)) && matches!(**right, Plan::Leaf(2, _))
        }
        Plan::Above(left, right) => {
            matches!(**left, Plan::Above(_, _)) && matches!(**right, Plan::Leaf(2, _))
        }
        Plan::Leaf(_, _) => false,
    }
}

/// Whether a plan leans to the left once it is made skewed, and doesn't before.
fn leans_then(alloc: Global, plan: Plan) -> Result<bool, AllocError> {
    let leans_before = leans_left(&plan);
    Ok(leans_left(&normalise(alloc, plan)?) && !leans_before)
}

/// So do three blocks side by side that lean to the right.
fn row_leans_then(alloc: Global) -> Result<bool, AllocError> {
    let plan = beside(alloc, FIRST, beside(alloc, SECOND, THIRD)?)?;
    leans_then(alloc, plan)
}

/// So do three blocks one above the other.
fn pile_leans_then(alloc: Global) -> Result<bool, AllocError> {
    let plan = above(alloc, FIRST, above(alloc, SECOND, THIRD)?)?;
    leans_then(alloc, plan)
}

/// Three blocks that lean to the right, side by side and one above the other.
#[test]
fn three_blocks_are_made_skewed(rt: HostRuntime) {
    assert!(rt; row_leans_then(rt.alloc()) == Ok(true));
    assert!(rt; pile_leans_then(rt.alloc()) == Ok(true));
}
