//! Two hard blocks, and the plan with the one beside the other; a hard block and one that may be turned; and
//! three hard blocks, with each operator above the other.

ghost use Rattle.std.specs.Prelude.{◌≡◌, ◌∷◌, [], IfOk};
ghost use Rattle.sf_model.specs.Legal.{IsLegal};
ghost use Rattle.sf_model.specs.Tree.{Beside, Leaf, leaves, tree_of};
ghost use Rattle.sf_polish.specs.Postfix.{IsSkewed};
ghost use Rattle.sf_node.specs.Children.{IsSubproblem};

use crate::nodes::node_at;
use sf_model::{Design, Plan, Shape};
use sf_node::{Node, belongs};
use sf_polish::Token;
use sf_test_designs::{FLAT, NARROW, WIDE, bare, block, block_of};
use std::alloc::{AllocError, Global};

const A: Token = Token::Block(0);

const B: Token = Token::Block(1);

const C: Token = Token::Block(2);

/// Places of children, the tokens of the subproblem there, and whether the plan of two blocks belongs to it.
const TWO: [(&[usize], &[Token], bool); 6] = [
    (&[], &[], true),
    (&[0], &[A], true),
    (&[0, 0], &[A, B], true),
    (&[0, 0, 0], &[A, B, Token::Beside], true),
    (&[1], &[B], false),
    (&[0, 0, 1], &[A, B, Token::Above], false),
];

/// Whether the plan of three blocks is turned, and the same of it.
const THREE: [(bool, &[usize], &[Token], bool); 12] = [
    (false, &[0, 0, 2], &[A, B, C], false),
    (true, &[0, 0, 2], &[A, B, C], false),
    (false, &[0, 0, 0], &[A, B, Token::Beside], true),
    (true, &[0, 0, 0], &[A, B, Token::Beside], false),
    (false, &[0, 0, 1], &[A, B, Token::Above], false),
    (true, &[0, 0, 1], &[A, B, Token::Above], true),
    (
        false,
        &[0, 0, 0, 0, 1],
        &[A, B, Token::Beside, C, Token::Above],
        true,
    ),
    (
        true,
        &[0, 0, 0, 0, 1],
        &[A, B, Token::Beside, C, Token::Above],
        false,
    ),
    (
        false,
        &[0, 0, 1, 0, 0],
        &[A, B, Token::Above, C, Token::Beside],
        false,
    ),
    (
        true,
        &[0, 0, 1, 0, 0],
        &[A, B, Token::Above, C, Token::Beside],
        true,
    ),
    (
        false,
        &[0, 0, 0, 0, 0],
        &[A, B, Token::Beside, C, Token::Beside],
        false,
    ),
    (
        true,
        &[0, 0, 0, 0, 0],
        &[A, B, Token::Beside, C, Token::Beside],
        false,
    ),
];

/// The plan with a leaf 2x3 beside a leaf 3x2.
fn narrow_beside_flat(alloc: Global) -> Result<Plan, AllocError>
    ensures { IfOk result (λ plan. tree_of plan ≡ Beside (Leaf 0 NARROW) (Leaf 1 FLAT)) }
{
    let left = Box::new(alloc, Plan::Leaf(0, NARROW))?;
    let right = Box::new(alloc, Plan::Leaf(1, FLAT))?;
    Ok(Plan::Beside(left, right))
}

/// A block 2x3 and a block 3x2 by area alone, and the plan with the first beside the second.
fn two_blocks(alloc: Global) -> Result<(Design, Plan), AllocError>
    ensures legal { IfOk result (λ both. IsLegal both.0 (tree_of both.1)) }
    ensures skewed { IfOk result (λ both. IsSkewed (tree_of both.1)) }
{
    let design = sf_test_designs::two_blocks(alloc, WIDE)?;
    let plan = narrow_beside_flat(alloc)?;
    Ok((design, plan))
}

/// Three leaves of one shape: the first beside the second and the third above both, or where `turned` the
/// first above the second and the third beside both.
fn three_leaves(alloc: Global, shape: Shape, turned: bool) -> Result<Plan, AllocError>
    ensures leaves { IfOk result (λ plan. leaves (tree_of plan) ≡ (0, shape) ∷ (1, shape) ∷ (2, shape) ∷ []) }
    ensures skewed { IfOk result (λ plan. IsSkewed (tree_of plan)) }
{
    let left = Box::new(alloc, Plan::Leaf(0, shape))?;
    let right = Box::new(alloc, Plan::Leaf(1, shape))?;
    let last = Box::new(alloc, Plan::Leaf(2, shape))?;
    if turned {
        let both = Box::new(alloc, Plan::Above(left, right))?;
        return Ok(Plan::Beside(both, last));
    }
    let both = Box::new(alloc, Plan::Beside(left, right))?;
    Ok(Plan::Above(both, last))
}

/// Three blocks 2x3 by area alone, and the plan of them.
fn three_blocks(alloc: Global, turned: bool) -> Result<(Design, Plan), AllocError>
    ensures legal { IfOk result (λ both. IsLegal both.0 (tree_of both.1)) }
    ensures skewed { IfOk result (λ both. IsSkewed (tree_of both.1)) }
{
    let first = block(alloc, NARROW)?;
    let second = block(alloc, NARROW)?;
    let third = block(alloc, NARROW)?;
    let design = bare(alloc, vec![in alloc; first, second, third]?, WIDE, 0)?;
    let plan = three_leaves(alloc, NARROW, turned)?;
    Ok((design, plan))
}

/// Whether the plan belongs to a copy of the subproblem over these places, if that has these tokens.
fn belongs_at(
    alloc: Global,
    design: &Design,
    plan: &Plan,
    places: &[usize],
    tokens: &[Token],
) -> Result<Option<bool>, AllocError>
    requires legal { IsLegal design.now (tree_of plan.now) }
    requires skewed { IsSkewed (tree_of plan.now) }
{
    let node = node_at(alloc, design, places)?.copy()?;
    if node.tokens() != tokens {
        return Ok(None);
    }
    Ok(Some(belongs(alloc, plan, &node, design)?))
}

/// The same of the plan of two blocks.
fn two_belong_at(
    alloc: Global,
    places: &[usize],
    tokens: &[Token],
) -> Result<Option<bool>, AllocError> {
    let (design, plan) = two_blocks(alloc)?;
    belongs_at(alloc, &design, &plan, places, tokens)
}

/// A plan belongs to each subproblem on the way to it, and to none that turns off.
#[test]
fn belongs_along_its_path(rt: HostRuntime) {
    for (places, tokens, answer) in TWO {
        assert!(rt;
            two_belong_at(rt.alloc(), places, tokens) == Ok(Some(answer)),
            "{tokens:?}"
        );
    }
}

/// The same of a plan of three blocks.
fn three_belong_at(
    alloc: Global,
    turned: bool,
    places: &[usize],
    tokens: &[Token],
) -> Result<Option<bool>, AllocError> {
    let (design, plan) = three_blocks(alloc, turned)?;
    belongs_at(alloc, &design, &plan, places, tokens)
}

/// Three blocks in a row, one beside another or one above another, belong where their tokens lead.
#[test]
fn three_belong_each_way(rt: HostRuntime) {
    for (turned, places, tokens, answer) in THREE {
        let found = three_belong_at(rt.alloc(), turned, places, tokens);
        assert!(rt; found == Ok(Some(answer)), "{turned} {tokens:?}");
    }
}

/// A block 2x3 and a block that may be turned, by area alone, and the plan with the first beside the second,
/// which lies.
fn hard_and_turned(alloc: Global) -> Result<(Design, Plan), AllocError>
    ensures legal { IfOk result (λ both. IsLegal both.0 (tree_of both.1)) }
    ensures skewed { IfOk result (λ both. IsSkewed (tree_of both.1)) }
{
    let first = block(alloc, NARROW)?;
    let second = block_of(alloc, vec![in alloc; NARROW, FLAT]?)?;
    let design = bare(alloc, vec![in alloc; first, second]?, WIDE, 0)?;
    let plan = narrow_beside_flat(alloc)?;
    Ok((design, plan))
}

/// The subproblem with one half of the second block's span, or the subproblem itself where it has one shape.
fn half(node: Node, design: &Design, right: bool) -> Result<Node, AllocError>
    requires { IsSubproblem design.now node }
    ensures { IfOk result (IsSubproblem design.now) }
{
    if !node.can_split(1) {
        return Ok(node);
    }
    let halves = node.split_children(design, 1)?;
    Ok(if right { halves.1 } else { halves.0 })
}

/// The second block's span in the subproblem over these places with one half of it, and whether the plan
/// in which that block lies belongs there.
fn lying_belongs_at(
    alloc: Global,
    places: &[usize],
    right: bool,
) -> Result<(Option<(u16, u16)>, bool), AllocError> {
    let (design, plan) = hard_and_turned(alloc)?;
    let node = half(node_at(alloc, &design, places)?, &design, right)?;
    let answer = belongs(alloc, &plan, &node, &design)?;
    Ok((node.spans().get(1).copied(), answer))
}

/// A plan belongs only where the shape of each block stands in the block's span, whatever its tokens.
#[test]
fn belongs_within_its_spans(rt: HostRuntime) {
    for places in [[].as_slice(), &[0], &[0, 0, 0]] {
        for (right, span) in [(false, (0, 1)), (true, (1, 2))] {
            let found = lying_belongs_at(rt.alloc(), places, right);
            assert!(rt; found == Ok((Some(span), right)), "{places:?}");
        }
    }
}
