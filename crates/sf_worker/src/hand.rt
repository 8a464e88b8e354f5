//! What a worker has in hand.

ghost use Rattle.std.specs.Prelude.{◌≡◌};

use crate::visit::Visit;
use sf_bound::{Bounds, child_bound};
use sf_certificate::Tag;
use sf_cursor::{Cursor, Stretch};
use sf_model::Design;
use sf_node::{Node, Part, PartValues, Step, Values};
use sf_pieces::Piece;
use std::alloc::{AllocError as NoMemory, Global};
use std::marker::Model;

/// How many tokens are missing at least where a stretch is given away.
const FEW: usize = 5;

/// The value of a subproblem, and those of the parts of the bound where they were measured with it.
#[derive(Clone, Copy)]
pub struct Valued {
    pub value: u64,
    pub parts: Option<PartValues>,
}

/// A stretch, and the piece that a walk over it makes: where it stands, how many steps of the way are not its
/// own, whether anything is not visited yet, the path to the first subproblem, the tags from there on, and what
/// is kept to name their parts by.
#[derive(Drop)]
pub struct Hand {
    cursor: Cursor,
    floor: usize,
    more: bool,
    first: Vec<Step>,
    tags: Vec<Tag>,
    kept: Vec<PartValues>,
}

impl Model for Hand {
    ghost use Rattle.sf_worker.specs.InHand.{HandView};

    ghost Value = { HandView };

    ghost view = { λ h. record {
      path = h.cursor;
      floor = h.floor;
      more = h.more;
      first = h.first.items;
      tags = h.tags.items;
      kept = h.kept.items;
    } };
}

impl Hand {
    ghost use Rattle.std.specs.Prelude.{◌≤◌, ◌++◌, [], length, true, false, IfOk, IfSome, OnOk, MatchOption};
    ghost use Rattle.sf_certificate.specs.Marks.{MaySplit};
    ghost use Rattle.sf_cursor.specs.Path.{IsPath};
    ghost use Rattle.sf_cursor.specs.Stretches.{IsStretch};
    ghost use Rattle.sf_worker.specs.Decided.{IsValued, tag_after};
    ghost use Rattle.sf_worker.specs.InHand.{IsHand, IsStart, IsFollowed, IsParted, IsLeftOpen};
    ghost use Rattle.sf_pieces.specs.Naming.{kept_for};

    /// A stretch before its first visit.
    pub fn at<V: Values>(stretch: Stretch, design: &Design, values: &V) -> Result<Hand, NoMemory>
        requires { IsStretch design.now (V.value values.now design.now) stretch }
        ensures { IfOk result (IsStart design.now (V.value values.now design.now) stretch) }
    {
        let Stretch { cursor, floor } = stretch;
        let alloc = cursor.node().allocator();
        let first = Vec::from_slice(alloc, cursor.node().steps())?;
        Ok(Hand {
            cursor,
            floor,
            more: true,
            first,
            tags: Vec::new(alloc),
            kept: Vec::new(alloc),
        })
    }

    /// Whether anything is not visited yet.
    pub fn more(&self) -> bool
        ensures { result ≡ self.now.more }
    {
        self.more
    }

    /// The subproblem that is next.
    pub fn node(&self) -> &Node
        ensures { result.now ≡ self.now.path.node }
    {
        self.cursor.node()
    }

    /// How many subproblems were visited.
    pub fn count(&self) -> usize
        ensures { result ≡ length self.now.tags }
    {
        self.tags.len()
    }

    /// The piece, and what is left of the stretch.
    pub fn into_parts(self) -> (Piece, Option<Stretch>)
        ensures first { result.0.first.items ≡ self.first }
        ensures tags { result.0.tags.items ≡ self.tags }
        ensures kept { result.0.kept.items ≡ self.kept }
        ensures rest { MatchOption result.1 (self.more ≡ false)
            (λ rest. (self.more ≡ true) × (rest ≡ record { cursor = self.path; floor = self.floor })) }
    {
        let Hand {
            cursor,
            floor,
            more,
            first,
            tags,
            kept,
        } = self;
        let piece = Piece { first, tags, kept };
        if more {
            (piece, Some(Stretch { cursor, floor }))
        } else {
            (piece, None)
        }
    }

    /// Puts a tag down, and goes on to what it makes or past it.
    pub fn follow<V: Values>(
        &mut self,
        design: &Design,
        values: &V,
        tag: Tag,
        value: u64,
    ) -> Result<(), NoMemory>
        requires hand { IsHand design.now (V.value values.now design.now) self.old }
        requires more { self.old.more ≡ true }
        requires may { MaySplit tag self.old.path.node }
        requires value { value ≡ V.value values.now design.now self.old.path.node }
        ensures followed { OnOk result (IsFollowed design.now (V.value values.now design.now) self.old tag self.new) }
        ensures kept { OnOk result (self.new.kept ≡ self.old.kept) }
    {
        self.tags.push(tag)?;
        self.more = self
            .cursor
            .follow_to(design, values, tag, Some(value), self.floor)?;
        Ok(())
    }

    /// Gives away what waits on the shallowest level, as a stretch with the floor of this one so far, where it is
    /// worth a walk.
    pub fn part_off<V: Values>(
        &mut self,
        alloc: Global,
        design: &Design,
        values: &V,
        value: u64,
    ) -> Result<Option<Stretch>, NoMemory>
        requires hand { IsHand design.now (V.value values.now design.now) self.old }
        requires more { self.old.more ≡ true }
        ensures { IfOk result (λ given. MatchOption given (self.new ≡ self.old)
            (λ given. IsParted design.now (V.value values.now design.now) self.old self.new given)) }
    {
        match self.cursor.part_off(alloc, design, values, self.floor)? {
            Some((cursor, level)) if Hand::is_worth_a_walk(&cursor, design, values, value) => {
                let floor = self.floor;
                self.floor = level;
                Ok(Some(Stretch { cursor, floor }))
            }
            _ => Ok(None),
        }
    }

    /// Leaves all open that is not visited yet. The answer is the least of `low` and of the values there.
    pub fn leave_open<B: Bounds>(
        &mut self,
        design: &Design,
        bounds: &B,
        room: &mut B::Room,
        low: u64,
    ) -> Result<u64, NoMemory>
        requires hand { IsHand design.now (B.Values.value bounds.now design.now) self.old }
        requires serves { B.serves room.old design.now }
        ensures left { IfOk result
            (IsLeftOpen design.now (B.Values.value bounds.now design.now) low self.old self.new) }
        ensures serves { B.serves room.new design.now }
    {
        let mut low = low;
        while self.more {
            let value = match self.cursor.parent_value(design, bounds) {
                None => bounds.bound(design, self.cursor.node(), room)?,
                Some(value) => child_bound(design, bounds, self.cursor.node(), value, room)?,
            };
            low = low.min(value);
            self.follow(design, bounds, Tag::Open, value)?;
        }
        Ok(low)
    }

    /// The value of the subproblem that is next, and those of the parts where they came with it.
    pub fn value<B: Bounds>(
        &self,
        design: &Design,
        bounds: &B,
        room: &mut B::Room,
    ) -> Result<Valued, NoMemory>
        requires at { IsPath design.now (B.Values.value bounds.now design.now) self.now.path }
        requires serves { B.serves room.old design.now }
        ensures valued { IfOk result (IsValued (B.Values.value bounds.now design.now)
            (B.part_value bounds.now design.now) self.now.path.node) }
        ensures serves { B.serves room.new design.now }
    {
        match self.cursor.parent_value(design, bounds) {
            Some(value) if bounds.keeps_value(self.cursor.node()) => {
                Ok(Valued { value, parts: None })
            }
            _ => {
                let (value, parts) = bounds.all_values(design, self.cursor.node(), room)?;
                Ok(Valued {
                    value,
                    parts: Some(parts),
                })
            }
        }
    }

    /// The tag of a visit that decided against `word`. A closed subproblem names the first part that is at least
    /// the word, a solved one the first that is at least its own value; where that is not the area the values of
    /// the parts are kept, since the cost may fall.
    pub fn tag<B: Bounds>(
        &mut self,
        design: &Design,
        bounds: &B,
        seen: &Visit,
        valued: Valued,
        word: u64,
        room: &mut B::Room,
    ) -> Result<Tag, NoMemory>
        requires at { IsPath design.now (B.Values.value bounds.now design.now) self.old.path }
        requires valued { IsValued (B.Values.value bounds.now design.now)
            (B.part_value bounds.now design.now) self.old.path.node valued }
        requires serves { B.serves room.old design.now }
        ensures tag { IfOk result
            (λ tag. tag ≡ tag_after (B.Values.value bounds.now design.now)
            (B.part_value bounds.now design.now) self.old.path.node seen.now word) }
        ensures kept { IfOk result
            (λ tag. self.new
            ≡ record self.old {
              kept = self.old.kept ++ kept_for
                  (B.part_value bounds.now design.now self.old.path.node) tag;
            }) }
        ensures serves { B.serves room.new design.now }
    {
        let cost = match seen {
            Visit::Closed => word,
            Visit::Solved(_) => valued.value,
            Visit::Extended => return Ok(Tag::Extend),
            Visit::Split(block) => return Ok(Tag::Split(*block)),
        };
        let values = match valued.parts {
            Some(values) => values,
            None => {
                let (_, values) = bounds.all_values(design, self.cursor.node(), room)?;
                values
            }
        };
        let part = values.first(cost);
        if part != Part::Area {
            self.kept.push(values)?;
        }
        Ok(Tag::Closed(part))
    }

    /// Whether a walk from this cursor may take some time: the value closes none of what waits there at once, and
    /// some tokens are missing.
    fn is_worth_a_walk<V: Values>(cursor: &Cursor, design: &Design, values: &V, value: u64) -> bool
        requires { IsPath design.now (V.value values.now design.now) cursor.now }
    {
        let tokens = cursor.node().tokens().len();
        let missing = (usize::from(design.block_count()) * 2).saturating_sub(tokens);
        match cursor.parent_value(design, values) {
            Some(before) => missing >= FEW && before < value,
            None => missing >= FEW,
        }
    }
}
