//! Children of subproblems, which may have their parent's value.

ghost use Rattle.std.specs.Prelude.{◌≡◌, ℕ, true};
ghost use Rattle.sf_model.specs.declared.design.Design.{Design as DesignValue};
ghost use Rattle.sf_node.specs.Later.{IsChildOf};
ghost use Rattle.sf_standard.specs.Standard.{standard};

use sf_node::{Node, Step};

/// Whether a child is sure to have its parent's value: it is not complete, and only a block was moved from
/// the unused ones onto the stack.
pub fn keeps_value(child: &Node) -> bool
    ensures { result ≡ true → (design : DesignValue) (value : ℕ)
        → IsChildOf design (standard design) value child.now → value ≡ standard design child.now }
{
    match child.steps().last() {
        Some(Step::Block(_)) => !child.is_complete(),
        _ => false,
    }
}
