//! The search by one worker: a stretch from the root in hand, the least cost found and its plan.

ghost use Rattle.std.specs.Prelude.{◌≡◌};

use sf_bound::Bounds;
use sf_certificate::Tag;
use sf_cursor::{Cursor, Stretch};
use sf_model::{Design, MAX};
use sf_node::Values;
use sf_pieces::{Piece, name_all};
use sf_polish::Expr;
use sf_worker::{Hand, Visit, decide};
use std::alloc::{AllocError as NoMemory, Global};
use std::marker::Model;

/// A search in preorder: the whole tree in hand, with the tags so far, the least cost found and its plan.
#[derive(Drop)]
pub struct Walk {
    hand: Hand,
    word: u64,
    best: Option<Expr>,
}

impl Model for Walk {
    ghost use Rattle.sf_search.specs.Stage.{WalkView};

    ghost Value = { WalkView };

    ghost view = { λ w. record {
      hand = w.hand;
      word = w.word;
      best = w.best;
    } };
}

impl Walk {
    ghost use Rattle.std.specs.Prelude.{◌++◌, length, true, IfOk};
    ghost use Rattle.sf_worker.specs.declared.visit.Visit.{Visit};
    ghost use Rattle.sf_worker.specs.InHand.{IsHand};
    ghost use Rattle.sf_pieces.specs.Naming.{renamed};
    ghost use Rattle.sf_search.specs.Stage.{IsAtRoot, IsLeftOpen, IsMove};

    /// Before the first visit.
    pub fn new<V: Values>(alloc: Global, design: &Design, values: &V) -> Result<Walk, NoMemory>
        ensures { IfOk result (IsAtRoot design.now (V.value values.now design.now)) }
    {
        let cursor = Cursor::new(alloc, design, values)?;
        let hand = Hand::at(Stretch { cursor, floor: 0 }, design, values)?;
        Ok(Walk {
            hand,
            word: MAX,
            best: None,
        })
    }

    /// Whether anything is not visited yet.
    pub fn more(&self) -> bool
        ensures { result ≡ self.now.hand.more }
    {
        self.hand.more()
    }

    /// The least cost found, or `MAX` for none.
    pub fn word(&self) -> u64
        ensures { result ≡ self.now.word }
    {
        self.word
    }

    /// A plan of the least cost found.
    pub fn best(&self) -> &Option<Expr>
        ensures { result.now ≡ self.now.best }
    {
        &self.best
    }

    /// How many subproblems were visited.
    pub fn count(&self) -> usize
        ensures { result ≡ length self.now.hand.tags }
    {
        self.hand.count()
    }

    /// The tags and the plan, at the end of a search: what the tags name is named against the cost of the
    /// plan.
    pub fn into_named(self) -> (Vec<Tag>, Option<Expr>)
        ensures tags { result.0.items ≡ renamed self.word self.hand.tags self.hand.kept }
        ensures best { result.1 ≡ self.best }
    {
        let Walk { hand, word, best } = self;
        let (piece, _) = hand.into_parts();
        let Piece {
            first: _,
            mut tags,
            kept,
        } = piece;
        name_all(&mut tags, &kept, word);
        (tags, best)
    }

    /// Visits the subproblem that is next. Inlined into the one loop that calls it.
    #[inline(always)]
    pub fn step<B: Bounds>(
        &mut self,
        design: &Design,
        bounds: &B,
        room: &mut B::Room,
    ) -> Result<(), NoMemory>
        requires hand { IsHand design.now (B.Values.value bounds.now design.now) self.old.hand }
        requires more { self.old.hand.more ≡ true }
        requires serves { B.serves room.old design.now }
        ensures moved { IfOk result
            (λ done. (seen : Visit)
            × IsMove design.now (B.Values.value bounds.now design.now)
            (B.part_value bounds.now design.now) self.old seen self.new) }
        ensures serves { B.serves room.new design.now }
    {
        let valued = self.hand.value(design, bounds, room)?;
        let seen = decide(design, bounds, self.hand.node(), valued.value, self.word)?;
        let tag = self
            .hand
            .tag(design, bounds, &seen, valued, self.word, room)?;
        self.hand.follow(design, bounds, tag, valued.value)?;
        if let Visit::Solved(expr) = seen {
            self.word = valued.value;
            self.best = Some(expr);
        }
        Ok(())
    }

    /// Leaves all open that is not visited yet. The answer is the least of the cost found and of their
    /// values.
    pub fn leave_open<B: Bounds>(
        &mut self,
        design: &Design,
        bounds: &B,
        room: &mut B::Room,
    ) -> Result<u64, NoMemory>
        requires hand { IsHand design.now (B.Values.value bounds.now design.now) self.old.hand }
        requires serves { B.serves room.old design.now }
        ensures left { IfOk result
            (IsLeftOpen design.now (B.Values.value bounds.now design.now) self.old self.new) }
        ensures serves { B.serves room.new design.now }
    {
        self.hand.leave_open(design, bounds, room, self.word)
    }
}
