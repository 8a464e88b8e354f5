//! A stored function as a bound.

ghost use Rattle.std.specs.Prelude.{◌≡◌, ℕ, true};
ghost use Rattle.sf_model.specs.declared.design.Design.{Design as DesignValue};
ghost use Rattle.sf_node.specs.Parts.{Parts};
ghost use Rattle.sf_node.specs.Children.{after};
ghost use Rattle.sf_bound_kit.specs.Keeping.{Keeps, IsBelow};

use crate::asked::Asked;
use sf_bound::Bounds;
use sf_bounds::{Room, Standard};
use sf_model::Design;
use sf_node::{Node, Part, PartValues, Step, Values};
use std::alloc::{AllocError as NoMemory, Global};
use std::marker::{Model, PhantomData};

/// What a stored bound says of a subproblem of a design.
pub trait Says: Sync {
    ghost own: { DesignValue → Parts → ℕ };
}

/// A function beside the fact that it may be asked at each subproblem, and gives there what is said.
#[derive(Drop)]
struct Asking<N: Says, F: Asked> {
    function: F,
    of: PhantomData<N>,
}

impl<N: Says, F: Asked> Model for Asking<N, F> {
    ghost Value = { Unit {0} };

    ghost view = { λ a. tt };

    ghost invariant = { λ a. Keeps F.may F.gives N.own a.function };
}

impl<N: Says, F: Asked> Asking<N, F> {
    fn new(function: F) -> Asking<N, F>
        requires { Keeps F.may F.gives N.own function }
    {
        Asking {
            function,
            of: PhantomData,
        }
    }
}

/// A function beside the fact that what it gives is a bound.
#[derive(Drop)]
pub struct Kit<N: Says, F: Asked> {
    asking: Asking<N, F>,
    ghost is_below: { IsBelow N.own },
}

impl<N: Says, F: Asked> Kit<N, F> {
    /// Stores a function which may be asked at every subproblem of every design, and gives there a number that
    /// no plan of the subproblem which fits undercuts.
    pub fn new(function: F) -> Kit<N, F>
        requires keeps { Keeps F.may F.gives N.own function }
        requires below { IsBelow N.own }
    {
        Kit {
            asking: Asking::new(function),
        }
    }
}

/// What a kit keeps: the room of the standard bound, and the function's number where all spans are whole.
#[derive(Drop)]
pub struct KitRoom {
    pub standard: Room,
    pub whole: Option<u64>,
}

/// Whether a child is sure to have its parent's spans: no step halved one.
fn keeps_spans(child: &Node) -> bool
    ensures { result ≡ true → (parent : Parts) (step : _) → child.now ≡ after parent step
        → child.now.spans ≡ parent.spans }
{
    !matches!(child.steps().last(), Some(Step::Left(_) | Step::Right(_)))
}

impl<N: Says, F: Asked> Values for Kit<N, F> {
    ghost use Rattle.sf_bound_kit.specs.Keeping.{kit_value};

    ghost value = { λ kit. kit_value N.own };
}

impl<N: Says, F: Asked> Bounds for Kit<N, F> {
    ghost use Rattle.std.specs.Prelude.{◌≡◌, IfSome};
    ghost use Rattle.sf_node.specs.Subproblem.{root};
    ghost use Rattle.sf_standard.proofs.Soundness.{standard_is_sound};
    ghost use Rattle.sf_standard.proofs.Exact.{standard_is_exact};
    ghost use Rattle.sf_standard.proofs.ByPart.{parts_are_below};
    ghost use Rattle.sf_bounds.specs.Memory.{IsMemoryOf};
    ghost use Rattle.sf_bound_kit.specs.Keeping.{kit_part};
    ghost use Rattle.sf_bound_kit.specs.Lawful.{kit_is_sound, kit_is_exact, kit_parts};

    type Room = KitRoom;

    ghost sound = { λ kit design. kit_is_sound N.own kit.is_below design (standard_is_sound design) };

    ghost exact = { λ kit design. kit_is_exact N.own kit.is_below design (standard_is_exact design) };

    ghost part_value = { λ kit. kit_part N.own };

    ghost parts_below = { λ kit design. kit_parts N.own design (parts_are_below design) };

    ghost serves = { λ room design. IsMemoryOf design room.standard
        × IfSome room.whole (λ own. own ≡ N.own design (root design)) };

    fn room(&self, alloc: Global) -> KitRoom {
        KitRoom {
            standard: Standard.room(alloc),
            whole: None,
        }
    }

    fn bound(&self, design: &Design, node: &Node, room: &mut KitRoom) -> Result<u64, NoMemory> {
        let standard = Standard.bound(design, node, &mut room.standard)?;
        let asking = &self.asking;
        Ok(standard.max(asking.function.recall(design, node, &mut room.whole)))
    }

    fn all_values(
        &self,
        design: &Design,
        node: &Node,
        room: &mut KitRoom,
    ) -> Result<(u64, PartValues), NoMemory> {
        let (standard, parts) = Standard.all_values(design, node, &mut room.standard)?;
        let asking = &self.asking;
        let own = asking.function.recall(design, node, &mut room.whole);
        Ok((standard.max(own), parts))
    }

    fn keeps_value(&self, child: &Node) -> bool {
        let asking = &self.asking;
        asking.function.reads_spans() && keeps_spans(child) && Standard.keeps_value(child)
    }

    fn part(
        &self,
        design: &Design,
        node: &Node,
        part: Part,
        room: &mut KitRoom,
    ) -> Result<u64, NoMemory> {
        match part {
            Part::Full => self.bound(design, node, room),
            _ => Standard.part(design, node, part, &mut room.standard),
        }
    }
}
