//! One walk.

ghost use Rattle.std.specs.Prelude.{◌≡◌, ◌+◌, ◌≤◌, ◌<◌, ◌*◌, ◌/◌, length, true, false, IfOk, IfSome, OnOk};
ghost use Rattle.sf_model.specs.declared.design.Design.{Design as DesignValue};
ghost use Rattle.sf_model.specs.Legal.{block_count};
ghost use Rattle.sf_polish.specs.Normal.{IsNormal};
ghost use Rattle.sf_anneal.specs.Measured.{whole_spans, IsCost, IsFloorplan};
ghost use Rattle.sf_anneal.specs.Walk.{chain, slack, kept, cheaper, height, trials, IsMoved, IsWalk};
ghost use Rattle.sf_anneal.specs.Parts.{HaveRoom, IsFound, IsReady};
ghost use Rattle.sf_anneal.specs.Visits.{visit_of};

use crate::keeping::Kept;
use crate::measuring::{measure, whole_spans};
use crate::moves::{flip_chain, run_count, swap_operands, swap_step};
use rand_core::Rng;
use sf_improve::part_left;
use sf_model::{Design, MAX, Spot};
use sf_polish::{Expr, Token};
use std::alloc::{AllocError as NoMemory, Global};

/// No rectangle yet.
const NOWHERE: Spot = Spot {
    block: 0,
    x: 0,
    y: 0,
    w: 0,
    h: 0,
};

/// Tokens that a walk visits, and their cost.
#[derive(Drop)]
pub struct Visit {
    pub tokens: Vec<Token>,
    pub cost: u64,
}

/// The chain `0 1 * 2 * ..`.
pub fn chain(alloc: Global, blocks: u16) -> Result<Vec<Token>, NoMemory>
    requires { 1 ≤ blocks }
    ensures { IfOk result (λ tokens. tokens.items ≡ chain blocks) }
{
    let mut tokens = Vec::new(alloc);
    tokens.push(Token::Block(0))?;
    for block in 1..blocks {
        tokens.push(Token::Block(block))?;
        tokens.push(Token::Beside)?;
    }
    Ok(tokens)
}

/// Makes the move of these two words, the first for its kind. False where there is none and all stays.
fn make_move(tokens: &mut [Token], blocks: u16, kind: u32, place: u32) -> bool
    requires normal { IsNormal blocks tokens.old }
    requires some { 2 ≤ blocks }
    ensures normal { IsNormal blocks tokens.new }
    ensures moved { IsMoved blocks kind place tokens.old tokens.new }
    ensures same { result ≡ false → tokens.new ≡ tokens.old }
{
    let blocks = usize::from(blocks);
    let place = place as usize;
    match kind % 3 {
        0 => {
            swap_operands(tokens, place % (blocks - 1));
            true
        }
        1 => {
            flip_chain(tokens, place % run_count(tokens));
            true
        }
        _ => swap_step(tokens, place % (2 * blocks - 2)),
    }
}

/// By how much the cost may rise where so many of all trials are left.
fn slack(c: u64, moves: u32, left: u32) -> u64
    requires some { 1 ≤ moves }
    requires few { left ≤ moves }
    ensures { result ≡ slack c moves left }
{
    part_left(c, moves, left) / 16
}

/// Moves the tokens at hand and finds the cost of what comes of it. False where they stay.
fn try_move(
    parts: &mut Kept,
    design: &Design,
    now: &Visit,
    next: &mut Visit,
    spots: &mut [Spot],
    kind: u32,
    place: u32,
) -> Result<bool, NoMemory>
    requires some { 2 ≤ block_count design.now }
    requires normal { IsNormal (block_count design.now) now.now.tokens.items }
    requires cost { IsCost design.now now.now.tokens.items now.now.cost }
    requires long { length next.old.tokens.items ≡ length now.now.tokens.items }
    requires spots { length spots.old ≡ block_count design.now }
    requires ready { IsReady design.now parts.old now.now.tokens.items }
    ensures normal { OnOk result (IsNormal (block_count design.now) next.new.tokens.items) }
    ensures moved { OnOk result
        (IsMoved (block_count design.now) kind place now.now.tokens.items next.new.tokens.items) }
    ensures costs { OnOk result (IsCost design.now next.new.tokens.items next.new.cost) }
    ensures ready { OnOk result (IsReady design.now parts.new now.now.tokens.items) }
    ensures found { IfOk result (λ moved. moved ≡ true → IsFound design.now parts.new next.new.tokens.items) }
    ensures same { IfOk result (λ moved. moved ≡ false → visit_of next.new ≡ visit_of now.now) }
{
    next.tokens.copy_from_slice(&now.tokens);
    if !make_move(&mut next.tokens, design.block_count(), kind, place) {
        next.cost = now.cost;
        return Ok(false);
    }
    next.cost = parts.cost_of_moved(design, &now.tokens, &next.tokens, spots)?;
    Ok(true)
}

/// Takes the other tokens and their cost.
fn take(visit: &mut Visit, other: &Visit)
    requires { length visit.old.tokens.items ≡ length other.now.tokens.items }
    ensures { visit_of visit.new ≡ visit_of other.now }
{
    visit.tokens.copy_from_slice(&other.tokens);
    visit.cost = other.cost;
}

/// Takes the moved tokens where they cost less.
fn take_cheaper(best: &mut Visit, next: &Visit)
    requires { length best.old.tokens.items ≡ length next.now.tokens.items }
    ensures { visit_of best.new ≡ cheaper (visit_of best.old) (visit_of next.now) }
{
    if next.cost < best.cost {
        take(best, next);
    }
}

/// Takes the moved tokens where their cost is at most so much greater, and keeps what was found for them.
fn take_kept(parts: &mut Kept, now: &mut Visit, rise: u64, next: &Visit)
    requires long { length now.old.tokens.items ≡ length next.now.tokens.items }
    requires room { HaveRoom (length parts.old.known.before.items) parts.old.known parts.old.moved }
    ensures kept { visit_of now.new ≡ kept rise (visit_of now.old) (visit_of next.now) }
    ensures ready { (design : DesignValue) → IsNormal (block_count design) next.now.tokens.items
        → IsReady design parts.old now.old.tokens.items → IsFound design parts.old next.now.tokens.items
        → IsReady design parts.new now.new.tokens.items }
{
    if next.cost <= now.cost.saturating_add(rise) {
        take(now, next);
        parts.keep();
    }
}

/// The same where the tokens were moved. Else the cost is that of before, and all stays.
fn settle(parts: &mut Kept, now: &mut Visit, rise: u64, next: &Visit, moved: bool)
    requires long { length now.old.tokens.items ≡ length next.now.tokens.items }
    requires room { HaveRoom (length parts.old.known.before.items) parts.old.known parts.old.moved }
    requires same { moved ≡ false → visit_of next.now ≡ visit_of now.old }
    ensures kept { visit_of now.new ≡ kept rise (visit_of now.old) (visit_of next.now) }
    ensures ready { (design : DesignValue) → IsNormal (block_count design) next.now.tokens.items
        → IsReady design parts.old now.old.tokens.items
        → (moved ≡ true → IsFound design parts.old next.now.tokens.items)
        → IsReady design parts.new now.new.tokens.items }
{
    if moved {
        take_kept(parts, now, rise, next);
    }
}

/// The number that the threshold falls from.
fn height(first: u64) -> u64
    ensures { result ≡ height first }
{
    if first == MAX { 0 } else { first }
}

/// How many trials there are: one block has no moves.
pub fn trials(blocks: u16, moves: u32) -> u32
    ensures trials { result ≡ trials blocks moves }
    ensures few { result ≤ moves }
    ensures one { blocks ≡ 1 → result ≡ 0 }
{
    if blocks == 1 { 0 } else { moves }
}

/// What is kept for the first tokens, and their cost.
fn begun(
    alloc: Global,
    design: &Design,
    tokens: &[Token],
    spots: &mut [Spot],
) -> Result<(Kept, u64), NoMemory>
    requires normal { IsNormal (block_count design.now) tokens.now }
    requires spots { length spots.old ≡ block_count design.now }
    ensures ready { IfOk result (λ pair. IsReady design.now pair.0 tokens.now) }
    ensures costs { IfOk result (λ pair. IsCost design.now tokens.now pair.1) }
{
    let spans = whole_spans(alloc, design)?;
    let mut parts = Kept::new(alloc, design, &spans)?;
    let cost = parts.cost_of_moved(design, &[], tokens, spots)?;
    parts.keep();
    Ok((parts, cost))
}

/// A walk over these words (Wong and Liu 1986): the first cheapest of all expressions that it visits, with
/// its shapes and its cost; none where all cost `MAX`.
pub fn one_start<R: Rng>(
    alloc: Global,
    design: &Design,
    words: &mut R,
    moves: u32,
) -> Result<Option<(Expr, u64)>, NoMemory>
    ensures walk { IfOk result (IsWalk design.now (R.stream words.old) moves) }
    ensures floorplan { IfOk result (λ found. IfSome found (λ pair. IsFloorplan design.now pair.0 pair.1)) }
{
    let blocks = design.block_count();
    let tokens = chain(alloc, blocks)?;
    let mut spots = vec![in alloc; NOWHERE; usize::from(blocks)]?;
    let (mut parts, first) = begun(alloc, design, &tokens, &mut spots)?;
    let height = height(first);
    let mut next = Visit {
        tokens: Vec::from_slice(alloc, &tokens)?,
        cost: first,
    };
    let mut best = Visit {
        tokens: Vec::from_slice(alloc, &tokens)?,
        cost: first,
    };
    let mut now = Visit {
        tokens,
        cost: first,
    };
    let trials = trials(blocks, moves);
    for trial in 0..trials {
        let kind = words.next_u32();
        let place = words.next_u32();
        let moved = try_move(&mut parts, design, &now, &mut next, &mut spots, kind, place)?;
        take_cheaper(&mut best, &next);
        let rise = slack(height, moves, trials - trial);
        settle(&mut parts, &mut now, rise, &next, moved);
    }
    let spans = whole_spans(alloc, design)?;
    measure(alloc, design, &spans, &best.tokens)
}
