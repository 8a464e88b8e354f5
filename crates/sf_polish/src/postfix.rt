//! Plans turned into expressions.

ghost use Rattle.std.specs.Prelude.{◌≡◌, ◌++◌, length, replicate, IfOk, OnOk};
ghost use Rattle.sf_model.specs.Tree.{tree_of, HasBlocksBelow, HasEachOnce};
ghost use Rattle.sf_polish.specs.Normal.{IsNormal};
ghost use Rattle.sf_polish.specs.Postfix.{postfix, IsSkewed, Spells};
ghost use Rattle.sf_polish.specs.Shaping.{no_shape, with_leaves};

use crate::expr::{Expr, Token, Tokens};
use sf_model::{Plan, Shape, Shapes};
use std::alloc::{AllocError as NoMemory, Global};

/// The expression that spells a skewed plan. By `expressions_spell_skewed_plans` it is the only one, and
/// `plan_of` leads back to the plan.
pub fn expr_of(alloc: Global, plan: &Plan, blocks: u16) -> Result<Expr, NoMemory>
    requires skewed { IsSkewed (tree_of plan.now) }
    requires each_once { HasEachOnce blocks (tree_of plan.now) }
    ensures spelled { IfOk result (λ expr. Spells expr (tree_of plan.now)) }
    ensures normal { IfOk result (λ expr. IsNormal blocks expr.tokens) }
    ensures one_each { IfOk result (λ expr. length expr.shapes ≡ blocks) }
{
    let mut tokens = Vec::new(alloc);
    let mut shapes = without_shapes(alloc, blocks)?;
    push_postfix(plan, &mut tokens, &mut shapes)?;
    Ok(Expr {
        tokens: Tokens::from_vec(tokens),
        shapes: Shapes::from_vec(shapes),
    })
}

/// A place for the shape of each block.
pub fn without_shapes(alloc: Global, blocks: u16) -> Result<Vec<Shape>, NoMemory>
    ensures { IfOk result (λ shapes. shapes.items ≡ replicate blocks no_shape) }
{
    vec![in alloc; Shape { w: 0, h: 0 }; blocks as usize]
}

/// The tokens of a plan behind others, and the shapes of its leaves at their places.
fn push_postfix(
    plan: &Plan,
    tokens: &mut Vec<Token>,
    shapes: &mut Vec<Shape>,
) -> Result<(), NoMemory>
    requires { HasBlocksBelow (length shapes.old.items) (tree_of plan.now) }
    ensures tokens { OnOk result (tokens.new.items ≡ tokens.old.items ++ postfix (tree_of plan.now)) }
    ensures shapes { OnOk result (shapes.new.items ≡ with_leaves shapes.old.items (tree_of plan.now)) }
    ensures one_each { length shapes.new.items ≡ length shapes.old.items }
{
    match plan {
        Plan::Leaf(block, shape) => {
            shapes[*block as usize] = *shape;
            tokens.push(Token::Block(*block))?;
        }
        Plan::Beside(left, right) => {
            push_postfix(left, tokens, shapes)?;
            push_postfix(right, tokens, shapes)?;
            tokens.push(Token::Beside)?;
        }
        Plan::Above(lower, upper) => {
            push_postfix(lower, tokens, shapes)?;
            push_postfix(upper, tokens, shapes)?;
            tokens.push(Token::Above)?;
        }
    }
    Ok(())
}
