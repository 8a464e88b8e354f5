//! How large a plan is.

ghost use Rattle.std.specs.Prelude.{◌≡◌, ◌↔◌, ◌≤◌, IsTrue};
ghost use Rattle.sf_model.specs.Legal.{Fits};
ghost use Rattle.sf_model.specs.Tree.{tree_of, width, height, leaf_count, HasSides};

use sf_model::{Outline, Plan};

/// The width and the height of a plan, in scaled whole units.
#[tactic(auto, using(crate::proofs::Measured::width_most, crate::proofs::Measured::height_most))]
pub fn size(plan: &Plan) -> (u64, u64)
    requires few { leaf_count (tree_of plan.now) ≤ 320 }
    requires sides { HasSides (tree_of plan.now) }
    ensures width { result.0 ≡ width (tree_of plan.now) }
    ensures height { result.1 ≡ height (tree_of plan.now) }
{
    match plan {
        Plan::Leaf(_, shape) => (u64::from(shape.w), u64::from(shape.h)),
        Plan::Beside(left, right) => {
            let (left_width, left_height) = size(left);
            let (right_width, right_height) = size(right);
            (left_width + right_width, left_height.max(right_height))
        }
        Plan::Above(lower, upper) => {
            let (lower_width, lower_height) = size(lower);
            let (upper_width, upper_height) = size(upper);
            (lower_width.max(upper_width), lower_height + upper_height)
        }
    }
}

/// Whether a plan is no larger than the outline.
pub fn fits(outline: Outline, plan: &Plan) -> bool
    requires few { leaf_count (tree_of plan.now) ≤ 320 }
    requires sides { HasSides (tree_of plan.now) }
    ensures { IsTrue result ↔ Fits outline (tree_of plan.now) }
{
    let (width, height) = size(plan);
    width <= u64::from(outline.w) && height <= u64::from(outline.h)
}
