//! Slicing plans as normalised Polish expressions (Wong and Liu, 1986).
//!
//! An `Expr` is a plan in postfix: a list of tokens, and the shape of each block by number. The crate
//! stands on `sf_model` for plans. Normal expressions and skewed plans correspond: `plan_of` and `expr_of` lead from
//! the ones to the others, each other's inverse by the law `expressions_spell_skewed_plans`, and `normalise` makes
//! any plan skewed and keeps its leaves and its spots. The texts of expressions are those of `sf_expr_text`.
#![tactic(auto)]

mod expr;
mod laws;
mod normal;
mod postfix;
mod skew;
mod spell;

pub use expr::{Expr, Token, Tokens};
pub use laws::expressions_spell_skewed_plans;
pub use normal::{ends_in, is_normal};
pub use postfix::{expr_of, without_shapes};
pub use skew::normalise;
pub use spell::plan_of;
