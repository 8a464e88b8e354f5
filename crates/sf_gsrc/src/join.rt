//! Blocks, nets and places joined to the parts of a design.

ghost use Rattle.std.specs.Prelude.{◌≡◌, [], IfOk};
ghost use Rattle.sf_gsrc.specs.Join.{joined, Joins, placed_once, placed_parts, unplaced_parts};
ghost use Rattle.sf_gsrc.specs.Join.{first_twice, names_of, pads_at};

use crate::by_name::{find_strangers, place_pads};
use crate::fault::JoinFault;
use crate::numbering::number;
use crate::output::{GsrcBlocks, GsrcNets, GsrcPlaces, Place};
use sf_model::Name;
use sf_parts::{NameList, Parts, RawNetList, RawPad, RawPadList};
use std::alloc::{AllocError, Global};

/// The pads without a place.
fn pads_without_places(alloc: Global, pads: Vec<Name>) -> Result<Vec<RawPad>, AllocError>
    ensures { IfOk result (λ all. all.items ≡ pads_at [] pads.items) }
{
    let mut all = Vec::new(alloc);
    for name in pads {
        all.push(RawPad { name, place: None })?;
    }
    Ok(all)
}

/// The parts without a pl file.
fn join_unplaced(alloc: Global, blocks: GsrcBlocks, nets: RawNetList) -> Result<Parts, AllocError>
    ensures { IfOk result (λ parts. parts ≡ unplaced_parts blocks nets) }
{
    let pads = pads_without_places(alloc, blocks.pads.into_vec())?;
    Ok(Parts {
        blocks: blocks.blocks,
        pads: RawPadList::from_vec(pads),
        nets,
        strangers: NameList::from_vec(Vec::new(alloc)),
        pads_in: false,
    })
}

/// The parts with the places of a pl file.
fn join_placed(
    alloc: Global,
    blocks: GsrcBlocks,
    nets: RawNetList,
    places: Vec<Place>,
) -> Result<Parts, JoinFault>
    ensures { Joins result (placed_once (first_twice (names_of places.items))
        (placed_parts blocks nets places.items)) }
{
    let pads = place_pads(alloc, blocks.pads.into_vec(), &places)?;
    let strangers = find_strangers(alloc, blocks.blocks.as_slice(), &pads, places)?;
    Ok(Parts {
        blocks: blocks.blocks,
        pads: RawPadList::from_vec(pads),
        nets,
        strangers: NameList::from_vec(strangers),
        pads_in: true,
    })
}

/// The parts of a design. Without a nets file there are no nets, and without a pl file no pad has a place and
/// the pads are not in.
pub fn join_parts(
    alloc: Global,
    blocks: GsrcBlocks,
    nets: Option<GsrcNets>,
    places: Option<GsrcPlaces>,
) -> Result<Parts, JoinFault>
    ensures { Joins result (joined blocks nets places) }
{
    let nets = match nets {
        Some(nets) => nets.nets,
        None => RawNetList::from_vec(Vec::new(alloc)),
    };
    let parts = match places {
        Some(places) => join_placed(alloc, blocks, nets, places.places.into_vec())?,
        None => join_unplaced(alloc, blocks, nets)?,
    };
    Ok(number(alloc, parts)?)
}
