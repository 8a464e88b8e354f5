//! Two bounds at once.

ghost use Rattle.std.specs.Prelude.{ℕ, max};
ghost use Rattle.sf_node.specs.declared.part.Part.{Part as PartName};
ghost use Rattle.sf_node.specs.ByPart.{AreValues};

use sf_bound::Bounds;
use sf_model::Design;
use sf_node::{Node, Part, PartValues, Values};
use std::alloc::{AllocError as NoMemory, Global};

/// The greater of two bounds.
#[derive(Drop)]
pub struct Both<A: Bounds, B: Bounds> {
    pub first: A,
    pub second: B,
}

/// The greater values of the parts.
fn greater_parts(first: PartValues, second: PartValues) -> PartValues
    ensures { (p : PartName → ℕ) (q : PartName → ℕ) → AreValues p first → AreValues q second
        → AreValues (λ part. max (p part) (q part)) result }
{
    PartValues {
        area: first.area.max(second.area),
        range: first.range.max(second.range),
        pair: first.pair.max(second.pair),
        hull: first.hull.max(second.hull),
    }
}

impl<A: Bounds, B: Bounds> Values for Both<A, B> {
    ghost use Rattle.sf_bound_kit.specs.Greater.{greater};

    ghost value = { λ both design. greater (A.Values.value both.first design) (B.Values.value both.second design) };
}

impl<A: Bounds, B: Bounds> Bounds for Both<A, B> {
    ghost use Rattle.sf_bound_kit.specs.Greater.{greater_part};
    ghost use Rattle.sf_bound_kit.specs.Lawful.{both_are_sound, both_are_exact, both_parts};

    type Room = (A::Room, B::Room);

    ghost sound = { λ both design. both_are_sound design (A.Values.value both.first design)
        (B.Values.value both.second design) (A.sound both.first design) (B.sound both.second design) };

    ghost exact = { λ both design. both_are_exact design (A.Values.value both.first design)
        (B.Values.value both.second design) (A.exact both.first design) (B.exact both.second design) };

    ghost part_value = { λ both design. greater_part (A.part_value both.first design) (B.part_value both.second design) };

    ghost parts_below = { λ both design. both_parts design (A.Values.value both.first design)
        (B.Values.value both.second design) (A.part_value both.first design) (B.part_value both.second design)
        (A.parts_below both.first design) (B.parts_below both.second design) };

    ghost serves = { λ room design. A.serves room.0 design × B.serves room.1 design };

    fn room(&self, alloc: Global) -> (A::Room, B::Room) {
        (self.first.room(alloc), self.second.room(alloc))
    }

    fn bound(
        &self,
        design: &Design,
        node: &Node,
        room: &mut (A::Room, B::Room),
    ) -> Result<u64, NoMemory> {
        let first = self.first.bound(design, node, &mut room.0)?;
        let second = self.second.bound(design, node, &mut room.1)?;
        Ok(first.max(second))
    }

    fn all_values(
        &self,
        design: &Design,
        node: &Node,
        room: &mut (A::Room, B::Room),
    ) -> Result<(u64, PartValues), NoMemory> {
        let (first, parts) = self.first.all_values(design, node, &mut room.0)?;
        let (second, others) = self.second.all_values(design, node, &mut room.1)?;
        Ok((first.max(second), greater_parts(parts, others)))
    }

    fn keeps_value(&self, child: &Node) -> bool {
        self.first.keeps_value(child) && self.second.keeps_value(child)
    }

    fn part(
        &self,
        design: &Design,
        node: &Node,
        part: Part,
        room: &mut (A::Room, B::Room),
    ) -> Result<u64, NoMemory> {
        let first = self.first.part(design, node, part, &mut room.0)?;
        let second = self.second.part(design, node, part, &mut room.1)?;
        Ok(first.max(second))
    }
}
