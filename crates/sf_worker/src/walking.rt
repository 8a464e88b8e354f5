//! A walk over one stretch.

ghost use Rattle.std.specs.Prelude.{◌≡◌, ◌+◌, ◌<◌, ◌≤◌, true, IfOk, OnOk};
ghost use Rattle.sf_cursor.specs.Stretches.{IsStretch};
ghost use Rattle.sf_worker.specs.Tasks.{IsBest};
ghost use Rattle.sf_worker.specs.InHand.{IsHand, IsVisited};
ghost use Rattle.sf_worker.specs.Took.{IsPutDown, IsShared, IsWalkedInto, IsWalkedOver, Serves};

use crate::hand::Hand;
use crate::one_visit::visit_next;
use crate::state::WorkerState;
use crate::take::put;
use sf_bound::Bounds;
use sf_cursor::Stretch;
use sf_frontier::Served;
use sf_incumbent::Incumbent;
use sf_io::Gate;
use sf_model::Design;
use sf_node::Values;
use std::alloc::AllocError as NoMemory;

/// How many tags a piece has at most. What is left of a longer walk goes on as a piece of its own, so that no
/// list of tags grows far in the heap of a thread.
const MOST_TAGS: usize = 16_384;

/// The bits of the quota that are 0 where a worker looks whether it shares what it has in hand: at each 256th decision,
/// or at each 16th where nets count, since a decision takes longer there.
fn look_mask(design: &Design) -> u64 {
    if design.weights.wire == 0 { 255 } else { 15 }
}

/// One decision of the quota, of which so many were given in this pass. The answer is the value that it was made
/// against.
fn go<T: Served, B: Bounds, G: Gate>(
    state: &mut WorkerState<T>,
    hand: &mut Hand,
    room: &mut B::Room,
    design: &Design,
    bounds: &B,
    word: &Incumbent,
    gate: &G,
    given: u64,
) -> Result<u64, NoMemory>
    requires word { state.old.seat.word ≡ word.now.id }
    requires quota { 0 < state.old.quota }
    requires given { state.old.quota ≤ given }
    requires hand { IsHand design.now (B.Values.value bounds.now design.now) hand.old }
    requires more { hand.old.more ≡ true }
    requires best { IsBest design.now state.old.best state.old.seat.offered }
    requires serves { B.serves room.old design.now }
    ensures visited { OnOk result (IsVisited design.now (B.Values.value bounds.now design.now)
        (B.part_value bounds.now design.now) hand.old state.old.seat hand.new state.new.seat state.new.best) }
    ensures quota { OnOk result (state.new.quota + 1 ≡ state.old.quota) }
    ensures frame { OnOk result (state.new
        ≡ record state.old {
          seat = state.new.seat;
          best = state.new.best;
          quota = state.new.quota;
        }) }
    ensures serves { B.serves room.new design.now }
{
    gate.at(state.number, given - state.quota);
    let value = visit_next(
        hand,
        &mut state.seat,
        &mut state.best,
        room,
        design,
        bounds,
        word,
    )?;
    state.quota -= 1;
    Ok(value)
}

/// Where it is time to look and the own deque is empty, what waits on the shallowest level goes there, unless
/// the value closes it all.
#[inline(always)]
fn share<T: Served, V: Values>(
    state: &mut WorkerState<T>,
    hand: &mut Hand,
    design: &Design,
    values: &V,
    value: u64,
    wanted: bool,
) -> Result<(), NoMemory>
    requires team { Serves T.serves design.now (V.value values.now design.now) }
    requires hand { IsHand design.now (V.value values.now design.now) hand.old }
    requires more { hand.old.more ≡ true }
    ensures { OnOk result (IsShared design.now (V.value values.now design.now)
        state.old hand.old state.new hand.new) }
{
    if !wanted {
        return Ok(());
    }
    state.kept.reserve(1)?;
    if let Some(stretch) = state.place.owner.take() {
        put(&mut state.place.owner, &mut state.kept, stretch);
        return Ok(());
    }
    let alloc = hand.node().allocator();
    if let Some(stretch) = hand.part_off(alloc, design, values, value)? {
        put(&mut state.place.owner, &mut state.kept, stretch);
    }
    Ok(())
}

/// Logs the piece. The answer is what is left of the stretch, if anything is.
fn put_down<T: Served>(state: &mut WorkerState<T>, hand: Hand) -> Result<Option<Stretch>, NoMemory>
    ensures { IfOk result (IsPutDown state.old hand state.new) }
{
    let (piece, rest) = hand.into_parts();
    state.log.push(piece)?;
    Ok(rest)
}

/// Walks over a stretch until it is at its end, the quota is spent or the piece is as long as one may be. The
/// answer is what is left of the stretch, if anything is.
fn walk_into<T: Served, B: Bounds, G: Gate>(
    state: &mut WorkerState<T>,
    stretch: Stretch,
    room: &mut B::Room,
    design: &Design,
    bounds: &B,
    word: &Incumbent,
    gate: &G,
    given: u64,
) -> Result<Option<Stretch>, NoMemory>
    requires team { Serves T.serves design.now (B.Values.value bounds.now design.now) }
    requires word { state.old.seat.word ≡ word.now.id }
    requires quota { 0 < state.old.quota }
    requires given { state.old.quota ≤ given }
    requires stretch { IsStretch design.now (B.Values.value bounds.now design.now) stretch }
    requires best { IsBest design.now state.old.best state.old.seat.offered }
    requires serves { B.serves room.old design.now }
    ensures walked { IfOk result (IsWalkedInto design.now (B.Values.value bounds.now design.now)
        (B.part_value bounds.now design.now) stretch state.old state.new) }
    ensures serves { B.serves room.new design.now }
{
    let mask = look_mask(design);
    let has_others = !state.place.thieves.is_empty();
    let mut hand = Hand::at(stretch, design, bounds)?;
    let mut value = go(state, &mut hand, room, design, bounds, word, gate, given)?;
    while state.quota > 0 && hand.more() && hand.count() < MOST_TAGS {
        let wanted = has_others && state.quota & mask == 0;
        share(state, &mut hand, design, bounds, value, wanted)?;
        value = go(state, &mut hand, room, design, bounds, word, gate, given)?;
    }
    put_down(state, hand)
}

/// Walks over a stretch, piece by piece, until it is at its end or the quota is spent, of which so many were
/// given in this pass. What is left of it then is kept.
pub fn walk_over<T: Served, B: Bounds, G: Gate>(
    state: &mut WorkerState<T>,
    stretch: Stretch,
    room: &mut B::Room,
    design: &Design,
    bounds: &B,
    word: &Incumbent,
    gate: &G,
    given: u64,
) -> Result<(), NoMemory>
    requires team { Serves T.serves design.now (B.Values.value bounds.now design.now) }
    requires word { state.old.seat.word ≡ word.now.id }
    requires quota { 0 < state.old.quota }
    requires given { state.old.quota ≤ given }
    requires stretch { IsStretch design.now (B.Values.value bounds.now design.now) stretch }
    requires best { IsBest design.now state.old.best state.old.seat.offered }
    requires serves { B.serves room.old design.now }
    ensures walked { OnOk result (IsWalkedOver design.now (B.Values.value bounds.now design.now)
        (B.part_value bounds.now design.now) stretch state.old state.new) }
    ensures serves { B.serves room.new design.now }
{
    let mut rest = walk_into(state, stretch, room, design, bounds, word, gate, given)?;
    while let Some(stretch) = rest {
        if state.quota == 0 {
            state.kept.push(stretch)?;
            return Ok(());
        }
        rest = walk_into(state, stretch, room, design, bounds, word, gate, given)?;
    }
    Ok(())
}
