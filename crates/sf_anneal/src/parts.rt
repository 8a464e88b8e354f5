//! The parts of an expression and their shape curves, found anew where they differ from known ones.

ghost use Rattle.std.specs.Prelude.{◌≡◌, ℕ, ◌+◌, ◌<◌, ◌≤◌, ◌^◌, length, slice_set, slice_index_or, false};
ghost use Rattle.std.specs.Prelude.{Bool, AllPairs, IfOk, OnOk, IsTrue};
ghost use Rattle.std.specs.Bool.{OnTrue};
ghost use Rattle.sf_model.specs.Legal.{block_count};
ghost use Rattle.sf_polish.specs.Normal.{IsNormal};
ghost use Rattle.sf_curves.specs.Direction.{size_in, token_in};
ghost use Rattle.sf_curves.specs.Points.{IsCombination, IsSlimmer};
ghost use Rattle.sf_anneal.specs.Parts.{AreBlockCurves, AreKnown, AreMoved, AreRenewed, HaveRoom};
ghost use Rattle.sf_anneal.specs.Parts.{before_in, chosen_curve, kept_in, moved_curve, token_at};

use sf_curves::{Curve, Direction, Point};
use sf_model::Design;
use sf_polish::Token;
use std::alloc::AllocError as NoMemory;
use std::mem;

/// The parts of an expression. Part `k` ends with token `k`, counted from 1, and `before[k]` tokens stand
/// before it; `curves[k]` is its curve where the token is an operator.
#[derive(Drop)]
pub struct Parts {
    pub before: Vec<u16>,
    pub curves: Vec<Curve>,
}

/// The parts of another expression. The curve of a part stands here where it is fresh, and else among the
/// known ones.
#[derive(Drop)]
pub struct Moved {
    pub before: Vec<u16>,
    pub curves: Vec<Curve>,
    pub fresh: Vec<bool>,
    pub list: Vec<Point>,
}

/// Whether a token stands at this place.
fn stands_at(tokens: &[Token], place: usize, token: Token) -> bool
    ensures inside { OnTrue result (place < length tokens.now) }
    ensures there { OnTrue result (token_at tokens.now place ≡ token) }
{
    match tokens.get(place) {
        Some(known) => *known == token,
        None => false,
    }
}

/// How many tokens both expressions begin with.
fn common_front(known: &[Token], tokens: &[Token]) -> usize
    ensures known { result ≤ length known.now }
    ensures inside { result ≤ length tokens.now }
    ensures same { (k : ℕ) → k < result → token_at tokens.now k ≡ token_at known.now k }
{
    for (place, token) in tokens.iter().enumerate() {
        if !stands_at(known, place, *token) {
            return place;
        }
    }
    tokens.len()
}

/// The curve of a part of the moved expression.
pub fn curve_of<'a>(
    blocks: &'a [Curve],
    now: &'a Parts,
    next: &'a Moved,
    tokens: &[Token],
    part: usize,
) -> &'a Curve
    requires normal { IsNormal (length blocks.now) tokens.now }
    requires some { 1 ≤ part }
    requires inside { part ≤ length tokens.now }
    requires room { HaveRoom (length tokens.now + 1) now.now next.now }
    ensures { result.now ≡ moved_curve blocks.now now.now next.now tokens.now part }
{
    match tokens[part - 1] {
        Token::Block(block) => &blocks[usize::from(block)],
        _ if next.fresh[part] => &next.curves[part],
        _ => &now.curves[part],
    }
}

/// Whether two curves have the same points.
fn are_same(curve: &Curve, other: &Curve) -> bool
    ensures { OnTrue result (curve.now ≡ other.now) }
{
    curve.points() == other.points()
}

impl Moved {
    /// Whether the part at this place joins what it did before.
    fn joins_known(&self, now: &Parts, place: usize, stays: bool) -> bool
        requires inside { place < length self.now.before.items }
        requires now { place < length now.now.before.items }
        requires fresh { place < length self.now.fresh.items }
        requires left { before_in self.now.before.items place ≤ place }
        ensures stays { OnTrue result (IsTrue stays) }
        ensures before { OnTrue result
            (before_in now.now.before.items place ≡ before_in self.now.before.items place) }
        ensures left { OnTrue result
            (slice_index_or self.now.fresh.items (before_in self.now.before.items place) false ≡ false) }
        ensures right { OnTrue result (slice_index_or self.now.fresh.items place false ≡ false) }
    {
        let left = self.before[place];
        stays && now.before[place] == left && !self.fresh[usize::from(left)] && !self.fresh[place]
    }

    /// Notes how many tokens stand before the part at this place, and whether its curve is fresh.
    fn note(&mut self, place: usize, before: u16, fresh: bool)
        requires inside { place + 1 < length self.old.before.items }
        requires fresh { place + 1 < length self.old.fresh.items }
        ensures before { self.new.before.items ≡ slice_set self.old.before.items (place + 1) before }
        ensures fresh { self.new.fresh.items ≡ slice_set self.old.fresh.items (place + 1) fresh }
        ensures curves { self.new.curves.items ≡ self.old.curves.items }
    {
        self.before[place + 1] = before;
        self.fresh[place + 1] = fresh;
    }

    /// Makes the curve of the part at this place, and says whether it is another one than the known one.
    #[inline(always)]
    fn make(
        &mut self,
        design: &Design,
        blocks: &[Curve],
        now: &Parts,
        tokens: &[Token],
        place: usize,
        direction: Direction,
    ) -> Result<bool, NoMemory>
        requires normal { IsNormal (length blocks.now) tokens.now }
        requires some { 1 ≤ before_in self.old.before.items place }
        requires left { before_in self.old.before.items place ≤ place }
        requires inside { place < length tokens.now }
        requires room { HaveRoom (length tokens.now + 1) now.now self.old }
        ensures sizes { OnOk result (IsCombination (size_in direction) design.now.outline
            (moved_curve blocks.now now.now self.old tokens.now (before_in self.old.before.items place))
            (moved_curve blocks.now now.now self.old tokens.now place)
            (kept_in self.new.curves.items (place + 1))) }
        ensures falls { OnOk result (AllPairs IsSlimmer (kept_in self.new.curves.items (place + 1))) }
        ensures known { IfOk result (λ differs. differs ≡ false
            → kept_in self.new.curves.items (place + 1) ≡ kept_in now.now.curves.items (place + 1)) }
        ensures before { self.new.before.items ≡ self.old.before.items }
        ensures fresh { self.new.fresh.items ≡ self.old.fresh.items }
        ensures curves { OnOk result (self.new.curves.items
            ≡ slice_set self.old.curves.items (place + 1) (kept_in self.new.curves.items (place + 1))) }
    {
        let left = usize::from(self.before[place]);
        let empty = Vec::new(*self.list.allocator());
        let list = mem::replace(&mut self.list, empty);
        let first = curve_of(blocks, now, self, tokens, left);
        let second = curve_of(blocks, now, self, tokens, place);
        let curve = first.joined_in(list, second, direction, design.outline)?;
        let differs = !are_same(&curve, &now.curves[place + 1]);
        let old = mem::replace(&mut self.curves[place + 1], curve);
        self.list = old.into_points();
        Ok(differs)
    }

    /// Finds the curve of the part that ends with the operator at this place, and says whether it is fresh.
    #[inline(always)]
    fn find(
        &mut self,
        design: &Design,
        blocks: &[Curve],
        known: &[Token],
        now: &Parts,
        tokens: &[Token],
        place: usize,
        direction: Direction,
    ) -> Result<bool, NoMemory>
        requires normal { IsNormal (block_count design.now) tokens.now }
        requires blocks { length blocks.now ≡ block_count design.now }
        requires known { AreKnown design.now blocks.now now.now known.now }
        requires inside { place < length tokens.now }
        requires token { token_at tokens.now place ≡ token_in direction }
        requires room { HaveRoom (length tokens.now + 1) now.now self.old }
        requires renewed { AreRenewed design.now blocks.now now.now self.old known.now tokens.now place }
        ensures sizes { IfOk result (λ fresh. IsCombination (size_in direction) design.now.outline
            (moved_curve blocks.now now.now self.old tokens.now (before_in self.old.before.items place))
            (moved_curve blocks.now now.now self.old tokens.now place)
            (chosen_curve now.now self.new fresh (place + 1))) }
        ensures falls { IfOk result
            (λ fresh. AllPairs IsSlimmer (chosen_curve now.now self.new fresh (place + 1))) }
        ensures inside { IfOk result (λ fresh. fresh ≡ false → place < length known.now) }
        ensures stays { IfOk result (λ fresh. fresh ≡ false → token_at known.now place ≡ token_in direction) }
        ensures before { self.new.before.items ≡ self.old.before.items }
        ensures fresh { self.new.fresh.items ≡ self.old.fresh.items }
        ensures curves { OnOk result
            ((k : ℕ) → k ≤ place → kept_in self.new.curves.items k ≡ kept_in self.old.curves.items k) }
        ensures many { OnOk result (length self.new.curves.items ≡ length self.old.curves.items) }
    {
        let stays = stands_at(known, place, tokens[place]);
        if self.joins_known(now, place, stays) {
            return Ok(false);
        }
        let differs = self.make(design, blocks, now, tokens, place, direction)?;
        Ok(differs || !stays)
    }

    /// Finds the part that ends with the operator at this place.
    #[inline(always)]
    fn join(
        &mut self,
        design: &Design,
        blocks: &[Curve],
        known: &[Token],
        now: &Parts,
        tokens: &[Token],
        place: usize,
        direction: Direction,
    ) -> Result<(), NoMemory>
        requires normal { IsNormal (block_count design.now) tokens.now }
        requires blocks { length blocks.now ≡ block_count design.now }
        requires known { AreKnown design.now blocks.now now.now known.now }
        requires inside { place < length tokens.now }
        requires token { token_at tokens.now place ≡ token_in direction }
        requires room { HaveRoom (length tokens.now + 1) now.now self.old }
        requires renewed { AreRenewed design.now blocks.now now.now self.old known.now tokens.now place }
        ensures room { OnOk result (HaveRoom (length tokens.now + 1) now.now self.new) }
        ensures renewed { OnOk result
            (AreRenewed design.now blocks.now now.now self.new known.now tokens.now (place + 1)) }
    {
        let fresh = self.find(design, blocks, known, now, tokens, place, direction)?;
        let left = usize::from(self.before[place]);
        let before = self.before[left];
        self.note(place, before, fresh);
        Ok(())
    }

    /// Finds the part that is the block at this place.
    fn begin(&mut self, known: &[Token], place: usize, block: u16)
        requires inside { place + 1 < length self.old.before.items }
        requires fresh { place + 1 < length self.old.fresh.items }
        requires few { place < 2 ^ 16 }
        ensures before { self.new.before.items ≡ slice_set self.old.before.items (place + 1) place }
        ensures fresh { (fresh : Bool) × (self.new.fresh.items ≡ slice_set self.old.fresh.items (place + 1) fresh)
            × (fresh ≡ false → (place < length known.now) × (token_at known.now place ≡ Token.Block block)) }
        ensures curves { self.new.curves.items ≡ self.old.curves.items }
    {
        let stays = stands_at(known, place, Token::Block(block));
        self.note(place, place as u16, !stays);
    }

    /// Finds the part that ends with the token at this place.
    #[inline(always)]
    fn step(
        &mut self,
        design: &Design,
        blocks: &[Curve],
        known: &[Token],
        now: &Parts,
        tokens: &[Token],
        place: usize,
    ) -> Result<(), NoMemory>
        requires normal { IsNormal (block_count design.now) tokens.now }
        requires blocks { length blocks.now ≡ block_count design.now }
        requires curves { AreBlockCurves design.now blocks.now }
        requires known { AreKnown design.now blocks.now now.now known.now }
        requires inside { place < length tokens.now }
        requires room { HaveRoom (length tokens.now + 1) now.now self.old }
        requires renewed { AreRenewed design.now blocks.now now.now self.old known.now tokens.now place }
        ensures room { OnOk result (HaveRoom (length tokens.now + 1) now.now self.new) }
        ensures renewed { OnOk result
            (AreRenewed design.now blocks.now now.now self.new known.now tokens.now (place + 1)) }
    {
        match tokens[place] {
            Token::Block(block) => {
                self.begin(known, place, block);
                Ok(())
            }
            Token::Beside => self.join(
                design,
                blocks,
                known,
                now,
                tokens,
                place,
                Direction::Beside,
            ),
            Token::Above => self.join(design, blocks, known, now, tokens, place, Direction::Above),
        }
    }

    /// Takes all parts as they are known.
    fn begin_as(&mut self, now: &Parts)
        requires before { length self.old.before.items ≡ length now.now.before.items }
        ensures before { self.new.before.items ≡ now.now.before.items }
        ensures many { length self.new.fresh.items ≡ length self.old.fresh.items }
        ensures fresh { (k : ℕ) → slice_index_or self.new.fresh.items k false ≡ false }
        ensures curves { self.new.curves.items ≡ self.old.curves.items }
    {
        self.before.copy_from_slice(&now.before);
        self.fresh.fill(false);
    }

    /// Finds the parts of an expression, which may differ from the known one anywhere. Those of the tokens with
    /// which both begin are known.
    pub fn renew(
        &mut self,
        design: &Design,
        blocks: &[Curve],
        known: &[Token],
        now: &Parts,
        tokens: &[Token],
    ) -> Result<(), NoMemory>
        requires normal { IsNormal (block_count design.now) tokens.now }
        requires blocks { length blocks.now ≡ block_count design.now }
        requires curves { AreBlockCurves design.now blocks.now }
        requires known { AreKnown design.now blocks.now now.now known.now }
        requires room { HaveRoom (length tokens.now + 1) now.now self.old }
        ensures room { OnOk result (HaveRoom (length tokens.now + 1) now.now self.new) }
        ensures moved { OnOk result (AreMoved design.now blocks.now now.now self.new tokens.now) }
        ensures whole { OnOk result (before_in self.new.before.items (length tokens.now) ≡ 0) }
    {
        self.begin_as(now);
        for place in common_front(known, tokens)..tokens.len() {
            self.step(design, blocks, known, now, tokens, place)?;
        }
        Ok(())
    }
}
