//! The design that admitted parts become.

ghost use Rattle.std.specs.Prelude.{◌≡◌, ◌≢◌, ◌≤◌, None, Some, [], IsTrue, OnOk, IfOk, IfErr, length};
ghost use Rattle.std.specs.Prelude.{vec_len, All, filter_map, nat_abs, if◌then◌else◌};
ghost use Rattle.std.specs.Option.{option_map, option_copied};
ghost use Rattle.sf_parts.specs.Admitted.{HasPinsInRange, IsAdmitted, IsPlaceWithin};
ghost use Rattle.sf_parts.specs.Built.{HasNetWeights, HasShapeChoices, IsDesignOf, IsOutline, IsWeighted};
ghost use Rattle.sf_parts.specs.Built.{first_shapeless, design_blocks, placed_pad};
ghost use Rattle.sf_parts.specs.declared.fault.BuildFault.TheVariants.{NoMemory, NoShape};

use crate::fault::BuildFault;
use crate::index::{AdmittedIndex, Index, RangedParts};
use crate::limits::MOST_COORDINATE;
use crate::nets::nets_of;
use crate::raw::{Parts, RawBlock, RawBlockList, RawPad, RawPadList};
use sf_model::{Block, BlockList, Design, Name, Outline, Pad, PadList, Shapes, Weights};
use std::alloc::{AllocError, Global};

/// The name of the first block whose list is empty.
fn first_shapeless<'a>(blocks: &'a [RawBlock], lists: &[Shapes]) -> Option<&'a Name>
    requires { length lists.now ≡ length blocks.now }
    ensures { option_copied result ≡ first_shapeless blocks.now lists.now }
{
    for i in 0..blocks.len() {
        if lists[i].as_slice().is_empty() {
            return Some(&blocks[i].name);
        }
    }
    None
}

/// Each block with its list, moved from the last on.
fn blocks_of(
    alloc: Global,
    blocks: RawBlockList,
    lists: Vec<Shapes>,
) -> Result<BlockList, AllocError>
    requires { vec_len lists ≡ length blocks }
    ensures { IfOk result (λ list. list ≡ design_blocks blocks lists.items) }
{
    let mut read = blocks.into_vec();
    let mut left = lists;
    let mut blocks = Vec::with_capacity(alloc, read.len())?;
    while let Some(block) = read.pop() {
        if let Some(shapes) = left.pop() {
            let name = block.name;
            blocks.push(Block { name, shapes })?;
        }
    }
    blocks.reverse();
    Ok(BlockList::from_vec(blocks))
}

/// A coordinate that keeps its limit.
fn coordinate(z: i64) -> i32
    requires { nat_abs z ≤ MOST_COORDINATE }
    ensures { result ≡ z }
{
    z as i32
}

/// The pads that have a place, moved from the last on.
fn pads_of(alloc: Global, pads: RawPadList) -> Result<PadList, AllocError>
    requires { All (λ p. IsPlaceWithin p.place) pads }
    ensures { IfOk result (λ list. list ≡ filter_map placed_pad pads) }
{
    let mut read = pads.into_vec();
    let mut pads = Vec::with_capacity(alloc, read.len())?;
    while let Some(pad) = read.pop() {
        let place = pad.place;
        if let Some((x, y)) = place {
            let name = pad.name;
            let x = coordinate(x);
            let y = coordinate(y);
            pads.push(Pad { name, x, y })?;
        }
    }
    pads.reverse();
    Ok(PadList::from_vec(pads))
}

/// The pads of a design: those that have a place, or none where no text places them.
fn placed_pads(alloc: Global, pads_in: bool, pads: RawPadList) -> Result<PadList, AllocError>
    requires { IsTrue pads_in → All (λ p. IsPlaceWithin p.place) pads }
    ensures { IfOk result (λ list. list ≡ (if pads_in then filter_map placed_pad pads else [])) }
{
    if pads_in {
        pads_of(alloc, pads)
    } else {
        Ok(PadList::from_vec(Vec::new(alloc)))
    }
}

/// Refuses blocks of which one has no shape.
fn check_shapes(alloc: Global, blocks: &[RawBlock], lists: &[Shapes]) -> Result<(), BuildFault>
    requires { length lists.now ≡ length blocks.now }
    ensures shaped { OnOk result (first_shapeless blocks.now lists.now ≡ None) }
    ensures no_shape { IfErr result (λ fault. fault ≢ NoMemory
        → option_map NoShape (first_shapeless blocks.now lists.now) ≡ Some fault) }
{
    match first_shapeless(blocks, lists) {
        Some(name) => Err(BuildFault::NoShape(Name::new(alloc, name.as_bytes())?)),
        None => Ok(()),
    }
}

/// What parts become. There is one such type, `Design`, and the trait is its call's home, since a type has methods of
/// its own in its own crate alone.
pub trait Build: Sized {
    /// Makes it of admitted parts, with a list of shapes for each block and a weight for each net.
    fn build(
        alloc: Global,
        parts: Parts,
        lists: Vec<Shapes>,
        outline: Outline,
        weights: Weights,
        net_weights: &[u8],
    ) -> Result<Self, BuildFault>
        requires admitted { IsAdmitted parts }
        requires pins { HasPinsInRange parts }
        requires choices { HasShapeChoices parts.blocks lists.items }
        requires sides { IsOutline outline }
        requires weighted { IsWeighted weights }
        requires net_weights { HasNetWeights parts net_weights.now };
}

impl Build for Design {
    /// The design of admitted parts, with a list of shapes for each block and a weight for each net. Blocks
    /// and nets keep their numbers. Pads are numbered among those that have a place; where no text places
    /// pads, the design has none. The first block with an empty list is refused by its name.
    fn build(
        alloc: Global,
        parts: Parts,
        lists: Vec<Shapes>,
        outline: Outline,
        weights: Weights,
        net_weights: &[u8],
    ) -> Result<Design, BuildFault>
        requires admitted { IsAdmitted parts }
        requires pins { HasPinsInRange parts }
        requires choices { HasShapeChoices parts.blocks lists.items }
        requires sides { IsOutline outline }
        requires weighted { IsWeighted weights }
        requires net_weights { HasNetWeights parts net_weights.now }
        ensures built { IfOk result
            (λ design. IsDesignOf parts lists.items outline weights net_weights.now design) }
        ensures shaped { OnOk result (first_shapeless parts.blocks lists.items ≡ None) }
        ensures no_shape { IfErr result (λ fault. fault ≢ NoMemory
            → option_map NoShape (first_shapeless parts.blocks lists.items) ≡ Some fault) }
    {
        check_shapes(alloc, parts.blocks.as_slice(), &lists)?;
        let index = Index::new(alloc, RangedParts { parts: &parts })?;
        let nets = nets_of(alloc, &AdmittedIndex { index }, net_weights)?;
        let pads = placed_pads(alloc, parts.pads_in, parts.pads)?;
        let blocks = blocks_of(alloc, parts.blocks, lists)?;
        Ok(Design::new(alloc, blocks, pads, nets, outline, weights)?)
    }
}
