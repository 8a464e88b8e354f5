//! The places that wait for a tag while a tree is read. The children of one node that are alike share a
//! frame, so that each tag takes a few steps at most.

ghost use Rattle.std.specs.Prelude.{◌≡◌, ◌≢◌, ◌+◌, ◌<◌, ◌≤◌, [], ◌∷◌, ◌++◌, OnOk, IfOk, MatchOption};
ghost use Rattle.std.specs.Prelude.{replicate};
ghost use Rattle.sf_certificate.specs.Places.{first_place, may_beside};
ghost use Rattle.sf_certificate.specs.Places.{may_above, after_operator, after_block};
ghost use Rattle.sf_certificate.specs.Places.{extended_places, places_under};

use sf_certificate::{Ending, Place, Tag};
use std::alloc::{AllocError as NoMemory, Global};
use std::marker::Model;

/// So many places that are alike.
#[derive(Clone, Copy)]
pub struct Frame {
    pub place: Place,
    pub count: u16,
    ghost some: { 1 ≤ count },
    ghost shallow: { place.depth ≤ 3200 },
    ghost operands: { place.operands ≤ 320 },
    ghost operators: { place.operators ≤ 320 },
}

/// The places that wait, the next one in the last frame.
#[derive(Drop)]
pub struct Waiting {
    frames: Vec<Frame>,
}

impl Model for Waiting {
    ghost use Rattle.std.specs.Prelude.{List};
    ghost use Rattle.sf_certificate.specs.declared.place.Place.{Place};
    ghost use Rattle.sf_cert_text.specs.Waiting.{places_of};

    ghost Value = { List Place };

    ghost view = { λ s. places_of s.frames.items };
}

/// Whether an operator Beside may come next.
fn may_beside(place: Place) -> bool
    requires { place.operators ≤ 320 }
    ensures { result ≡ may_beside place }
{
    place.operators + 2 <= place.operands && place.ending != Ending::Beside
}

/// Whether an operator Above may come next.
fn may_above(place: Place) -> bool
    requires { place.operators ≤ 320 }
    ensures { result ≡ may_above place }
{
    place.operators + 2 <= place.operands && place.ending != Ending::Above
}

/// The place after one more operator.
fn after_operator(place: Place, ending: Ending) -> Place
    requires depth { place.depth < 3200 }
    requires operators { place.operators ≤ 320 }
    ensures { result ≡ after_operator ending place }
{
    Place {
        depth: place.depth + 1,
        operands: place.operands,
        operators: place.operators + 1,
        ending,
    }
}

/// The place after one more block.
fn after_block(place: Place) -> Place
    requires depth { place.depth < 3200 }
    requires operands { place.operands ≤ 320 }
    ensures { result ≡ after_block place }
{
    Place {
        depth: place.depth + 1,
        operands: place.operands + 1,
        operators: place.operators,
        ending: Ending::Block,
    }
}

/// The same places but one.
fn one_fewer(frame: Frame) -> Frame
    requires { frame.count ≢ 1 }
    ensures place { result.place ≡ frame.place }
    ensures count { result.count + 1 ≡ frame.count }
{
    Frame {
        place: frame.place,
        count: frame.count - 1,
    }
}

impl Waiting {
    /// The root alone.
    pub fn new(alloc: Global) -> Result<Waiting, NoMemory>
        ensures { IfOk result (λ waiting. waiting ≡ first_place ∷ []) }
    {
        let mut frames = Vec::new(alloc);
        frames.push(Frame {
            place: Place {
                depth: 0,
                operands: 0,
                operators: 0,
                ending: Ending::Block,
            },
            count: 1,
        })?;
        Ok(Waiting { frames })
    }

    /// The next place.
    pub fn take(&mut self) -> Option<Place>
        ensures places { MatchOption result (self.old ≡ []) (λ place. self.old ≡ place ∷ self.new) }
        ensures shallow { MatchOption result (self.new ≡ []) (λ place. place.depth ≤ 3200) }
        ensures operands { MatchOption result (self.new ≡ []) (λ place. place.operands ≤ 320) }
        ensures operators { MatchOption result (self.new ≡ []) (λ place. place.operators ≤ 320) }
    {
        let frame = *self.frames.last()?;
        if frame.count == 1 {
            self.frames.pop();
        } else {
            let last = self.frames.len() - 1;
            self.frames[last] = one_fewer(frame);
        }
        Some(frame.place)
    }

    /// The places right under a tag come next.
    pub fn put(&mut self, tag: Tag, place: Place, blocks: u16) -> Result<(), NoMemory>
        requires few { blocks ≤ 320 }
        requires shallow { place.depth < 3200 }
        requires operands { place.operands ≤ 320 }
        requires operators { place.operators ≤ 320 }
        ensures { OnOk result (self.new ≡ places_under blocks tag place ++ self.old) }
    {
        match tag {
            Tag::Extend if place.operands + place.operators + 1 == 2 * blocks => Ok(()),
            Tag::Extend => self.put_extended(place, blocks),
            Tag::Split(_) => self.put_alike(
                Place {
                    depth: place.depth + 1,
                    ..place
                },
                2,
            ),
            Tag::Closed(_) | Tag::Open => Ok(()),
        }
    }

    /// The places of the children by extending come next.
    fn put_extended(&mut self, place: Place, blocks: u16) -> Result<(), NoMemory>
        requires few { blocks ≤ 320 }
        requires shallow { place.depth < 3200 }
        requires operands { place.operands ≤ 320 }
        requires operators { place.operators ≤ 320 }
        ensures { OnOk result (self.new ≡ extended_places blocks place ++ self.old) }
    {
        if place.operands < blocks {
            self.put_alike(after_block(place), blocks - place.operands)?;
        }
        if may_above(place) {
            self.put_alike(after_operator(place, Ending::Above), 1)?;
        }
        if may_beside(place) {
            self.put_alike(after_operator(place, Ending::Beside), 1)?;
        }
        Ok(())
    }

    /// So many places that are alike come next.
    fn put_alike(&mut self, place: Place, count: u16) -> Result<(), NoMemory>
        requires some { 1 ≤ count }
        requires shallow { place.depth ≤ 3200 }
        requires operands { place.operands ≤ 320 }
        requires operators { place.operators ≤ 320 }
        ensures { OnOk result (self.new ≡ replicate count place ++ self.old) }
    {
        self.frames.push(Frame { place, count })?;
        Ok(())
    }
}
