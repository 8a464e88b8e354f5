//! Places, pads and blocks by their names.

ghost use Rattle.std.specs.Prelude.{◌≡◌, List, IfOk, map};
ghost use Rattle.sf_gsrc.specs.declared.output.Place.{Place};
ghost use Rattle.sf_gsrc.specs.Join.{names_of, first_twice, pads_at, is_known, strangers_of};
ghost use Rattle.sf_gsrc.specs.ByName.{IsSpots, PlacesByName, IsNameSet, GivesPads, pads_once};

use crate::fault::JoinFault;
use crate::output::Place;
use sf_model::Name;
use sf_names::{NameMap, TextHash};
use sf_parts::{RawBlock, RawPad};
use std::alloc::{AllocError, Global};

/// Where the lines of a pl file place each name, and the first line whose name stands again.
#[derive(Drop)]
pub struct Spots<'a> {
    by_name: NameMap<'a, (i64, i64)>,
    twice: Option<&'a Place>,
}

/// The hash of the names of a pl file.
fn hash_places(places: &[Place]) -> TextHash {
    let mut hash = TextHash::new(b"");
    for place in places {
        hash.add(place.name.as_bytes());
    }
    hash
}

/// The hash of the names of blocks and pads.
pub fn hash_parts(blocks: &[RawBlock], pads: &[RawPad]) -> TextHash {
    let mut hash = TextHash::new(b"");
    for block in blocks {
        hash.add(block.name.as_bytes());
    }
    for pad in pads {
        hash.add(pad.name.as_bytes());
    }
    hash
}

/// Goes from the last line to the first, so that the first line of a name is kept.
fn find_spots(alloc: Global, places: &[Place]) -> Result<Spots<'_>, AllocError>
    ensures { IfOk result (λ spots. IsSpots spots places.now) }
{
    let mut by_name = NameMap::new(alloc, hash_places(places), places.len());
    let mut twice = None;
    for i in (0..places.len()).rev() {
        let place = &places[i];
        let later = by_name.insert(place.name.as_bytes(), (place.x, place.y))?;
        if later.is_some() {
            twice = Some(place);
        }
    }
    Ok(Spots { by_name, twice })
}

/// The pads, each at the place of its name.
fn at_spots(
    alloc: Global,
    pads: Vec<Name>,
    by_name: &NameMap<'_, (i64, i64)>,
) -> Result<Vec<RawPad>, AllocError>
    ensures { (places : List Place) → PlacesByName by_name.now places
        → IfOk result (λ all. all.items ≡ pads_at places pads.items) }
{
    let mut all = Vec::new(alloc);
    for name in pads {
        let place = by_name.get(name.as_bytes());
        all.push(RawPad { name, place })?;
    }
    Ok(all)
}

/// The pads at their places, where no name is placed twice.
pub fn place_pads(
    alloc: Global,
    pads: Vec<Name>,
    places: &[Place],
) -> Result<Vec<RawPad>, JoinFault>
    ensures { GivesPads result
        (pads_once (first_twice (names_of places.now)) (pads_at places.now pads.items)) }
{
    let spots = find_spots(alloc, places)?;
    if let Some(place) = spots.twice {
        let name = Name::new(alloc, place.name.as_bytes())?;
        return Err(JoinFault::PlacedTwice(name));
    }
    Ok(at_spots(alloc, pads, &spots.by_name)?)
}

/// The names of blocks and pads.
fn known_names<'a>(
    alloc: Global,
    blocks: &'a [RawBlock],
    pads: &'a [RawPad],
) -> Result<NameMap<'a, ()>, AllocError>
    ensures { IfOk result (λ known. IsNameSet known (is_known blocks.now (map (λ p. p.name) pads.now))) }
{
    let most = blocks.len().saturating_add(pads.len());
    let mut known = NameMap::new(alloc, hash_parts(blocks, pads), most);
    for block in blocks {
        known.insert(block.name.as_bytes(), ())?;
    }
    for pad in pads {
        known.insert(pad.name.as_bytes(), ())?;
    }
    Ok(known)
}

/// The placed names that no block and no pad has.
pub fn find_strangers(
    alloc: Global,
    blocks: &[RawBlock],
    pads: &[RawPad],
    places: Vec<Place>,
) -> Result<Vec<Name>, AllocError>
    ensures { IfOk result (λ names. names.items
        ≡ strangers_of blocks.now (map (λ p. p.name) pads.now) places.items) }
{
    let known = known_names(alloc, blocks, pads)?;
    let mut strangers = Vec::new(alloc);
    for place in places {
        let Place { name, .. } = place;
        if !known.has(name.as_bytes()) {
            strangers.push(name)?;
        }
    }
    Ok(strangers)
}
