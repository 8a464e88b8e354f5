//! The laws of the standard bound.

ghost use Rattle.std.specs.Prelude.{◌≡◌, ℕ, ◌<◌, ◌≤◌, ◌^◌, IsFalse};
ghost use Rattle.sf_model.specs.declared.design.Design.{Design};
ghost use Rattle.sf_node.specs.declared.step.Step.TheVariants.{Block};
ghost use Rattle.sf_node.specs.declared.part.Part.{Part};
ghost use Rattle.sf_node.specs.Bounds.{IsSound, IsExactAtEnd};
ghost use Rattle.sf_node.specs.ByPart.{ArePartsOf};
ghost use Rattle.sf_node.specs.Children.{IsSubproblem, CanStep, after};
ghost use Rattle.sf_node.specs.Parts.{Parts};
ghost use Rattle.sf_node.specs.Subproblem.{is_complete};
ghost use Rattle.sf_model.specs.Paths.{no_paths};
ghost use Rattle.sf_standard.specs.Standard.{standard, open_value, part_value, wires_by, AllHavePlans};
ghost use Rattle.sf_standard.specs.Standard.{bounded, plans_of, wire_part};

/// No plan that belongs to a subproblem and fits costs less than the standard bound, which is the least
/// cost at a solved one.
pub fn standard_is_lawful()
    ensures sound { (design : Design) → IsSound design (standard design) }
    ensures exact { (design : Design) → IsExactAtEnd design (standard design) }
{}

/// No part of the bound is above the standard bound, at solved subproblems neither.
pub fn parts_are_below()
    ensures { (design : Design) → ArePartsOf design (standard design) (part_value design) }
{}

/// Where wires cost nothing, each part of the bound is the standard bound.
pub fn areas_are_all()
    ensures { (design : Design) (node : Parts) (part : Part) → design.weights.wire ≡ 0
        → IsSubproblem design node → part_value design node part ≡ standard design node }
{}

/// A child by a block which leaves the subproblem incomplete has its parent's value: the block is only
/// moved from the unused ones onto the stack.
pub fn blocks_keep_values()
    ensures { (design : Design) (node : Parts) (b : ℕ) → IsSubproblem design node
        → CanStep node (Block b) → IsFalse (is_complete (after node (Block b)))
        → standard design (after node (Block b)) ≡ standard design node }
{}

/// Where each item and each unused block of a subproblem has a plan in the outline, its wires are bounded by
/// less than 2^47, by each part of the bound.
pub fn wires_are_bounded()
    ensures { (design : Design) (node : Parts) (part : Part) → AllHavePlans design node
        → wires_by design node part < 2 ^ 47 }
{}

/// At every subproblem the standard bound is its value from area and wires. At a solved one the least cost
/// is what these cost: where wires cost nothing that of the least area, and else each span has one place,
/// so that the one plan which is left has that area, and the hull of its one item with the pads is the wire
/// of each net.
pub fn standard_is_open()
    ensures { (design : Design) (node : Parts) → IsSubproblem design node
        → standard design node ≡ open_value design node }
{}

/// Paths only raise the standard bound: it is nowhere below its value from the nets alone, and without paths it
/// is that value.
pub fn paths_only_raise()
    ensures above { (design : Design) (node : Parts) → IsSubproblem design node
        → bounded design (wire_part design node) (plans_of design node) ≤ standard design node }
    ensures none { (design : Design) (node : Parts) → IsSubproblem design node
        → design.routes.paths ≡ no_paths
        → standard design node ≡ bounded design (wire_part design node) (plans_of design node) }
{}
