//! What a search asks of a bound.

ghost use Rattle.std.specs.Prelude.{◌≡◌, ℕ, IfOk, true};
ghost use Rattle.sf_model.specs.declared.design.Design.{Design as DesignValue};
ghost use Rattle.sf_node.specs.declared.part.Part.{Part as PartName};
ghost use Rattle.sf_node.specs.Parts.{Parts};
ghost use Rattle.sf_node.specs.ByPart.{ArePartsOf, AreValues};
ghost use Rattle.sf_node.specs.Bounds.{IsSound, IsExactAtEnd};
ghost use Rattle.sf_node.specs.Children.{IsSubproblem};
ghost use Rattle.sf_node.specs.Later.{IsChildOf};

use sf_model::Design;
use sf_node::{Node, Part, PartValues, Values};
use std::alloc::{AllocError as NoMemory, Global};

/// A function from subproblems to numbers that no fitting plan of the subproblem undercuts.
pub trait Bounds: Values + Sync {
    /// What it keeps from one measurement to the next. No answer depends on it.
    type Room: Drop + Send;

    /// The value of each part of the bound at a subproblem of a design.
    ghost part_value: { Self → DesignValue → Parts → PartName → ℕ };

    /// What a room keeps is of this design.
    ghost serves: { Self.Room → DesignValue → Type 0 };

    /// A room that keeps nothing yet, so that it serves any design. It takes memory as the calls need it.
    fn room(&self, alloc: Global) -> Self::Room
        ensures { (design : DesignValue) → serves result design };

    /// The value of a subproblem.
    fn bound(&self, design: &Design, node: &Node, room: &mut Self::Room) -> Result<u64, NoMemory>
        requires subproblem { IsSubproblem design.now node.now }
        requires serves { serves room.old design.now }
        ensures value { IfOk result (λ v. v ≡ Self.Values.value self.now design.now node.now) }
        ensures serves { serves room.new design.now };

    /// The value of a subproblem and those of the parts below it, measured at once.
    fn all_values(
        &self,
        design: &Design,
        node: &Node,
        room: &mut Self::Room,
    ) -> Result<(u64, PartValues), NoMemory>
        requires subproblem { IsSubproblem design.now node.now }
        requires serves { serves room.old design.now }
        ensures value { IfOk result (λ v. v.0 ≡ Self.Values.value self.now design.now node.now) }
        ensures parts { IfOk result (λ v. AreValues (Self.part_value self.now design.now node.now) v.1) }
        ensures serves { serves room.new design.now };

    /// Whether a child is sure to have its parent's value, so that nothing need be measured.
    fn keeps_value(&self, child: &Node) -> bool
        ensures { result ≡ true → (design : DesignValue) (value : ℕ)
            → IsChildOf design (Self.Values.value self.now design) value child.now
            → value ≡ Self.Values.value self.now design child.now };

    /// The value of one part of the bound at a subproblem.
    fn part(
        &self,
        design: &Design,
        node: &Node,
        part: Part,
        room: &mut Self::Room,
    ) -> Result<u64, NoMemory>
        requires subproblem { IsSubproblem design.now node.now }
        requires serves { serves room.old design.now }
        ensures value { IfOk result (λ v. v ≡ Self.part_value self.now design.now node.now part) }
        ensures serves { serves room.new design.now };

    /// No plan that belongs to a subproblem and fits costs less than the value.
    ghost sound: { (bounds : Self) (design : DesignValue)
        → IsSound design (Self.Values.value bounds design) };

    /// At a solved subproblem the value is the least cost, or MAX.
    ghost exact: { (bounds : Self) (design : DesignValue)
        → IsExactAtEnd design (Self.Values.value bounds design) };

    /// No part of the bound is above the value, and the full one is the value.
    ghost parts_below: { (bounds : Self) (design : DesignValue)
        → ArePartsOf design (Self.Values.value bounds design) (Self.part_value bounds design) };
}
