//! The standard bound.

use crate::children::keeps_value;
use crate::parts::{all_values, part_value};
use crate::room::Room;
use sf_bound::Bounds;
use sf_model::Design;
use sf_node::{Node, Part, PartValues, Values};
use std::alloc::{AllocError as NoMemory, Global};

/// The standard bound.
pub struct Standard;

impl Values for Standard {
    ghost use Rattle.sf_standard.specs.Standard.{standard};

    ghost value = { λ bounds design node. standard design node };
}

impl Bounds for Standard {
    ghost use Rattle.sf_standard.proofs.Soundness.{standard_is_sound};
    ghost use Rattle.sf_standard.proofs.Exact.{standard_is_exact};
    ghost use Rattle.sf_standard.specs.Standard.{part_value};
    ghost use Rattle.sf_standard.proofs.ByPart.{parts_are_below};
    ghost use Rattle.sf_bounds.specs.Memory.{IsMemoryOf};

    type Room = Room;

    ghost sound = { λ bounds design. standard_is_sound design };

    ghost exact = { λ bounds design. standard_is_exact design };

    ghost part_value = { λ bounds design node part. part_value design node part };

    ghost parts_below = { λ bounds design. parts_are_below design };

    ghost serves = { λ room design. IsMemoryOf design room };

    fn room(&self, alloc: Global) -> Room {
        Room::new(alloc)
    }

    fn bound(&self, design: &Design, node: &Node, room: &mut Room) -> Result<u64, NoMemory> {
        part_value(room, design, node, Part::Full)
    }

    fn all_values(
        &self,
        design: &Design,
        node: &Node,
        room: &mut Room,
    ) -> Result<(u64, PartValues), NoMemory> {
        all_values(room, design, node)
    }

    fn keeps_value(&self, child: &Node) -> bool {
        keeps_value(child)
    }

    fn part(
        &self,
        design: &Design,
        node: &Node,
        part: Part,
        room: &mut Room,
    ) -> Result<u64, NoMemory> {
        part_value(room, design, node, part)
    }
}
