//! One decision.

ghost use Rattle.std.specs.Prelude.{◌≡◌, true, OnOk};
ghost use Rattle.sf_worker.specs.Tasks.{IsBest};
ghost use Rattle.sf_worker.specs.InHand.{IsHand, IsVisited};

use crate::hand::Hand;
use crate::visit::{Visit, decide};
use sf_bound::Bounds;
use sf_incumbent::{Incumbent, Seat};
use sf_model::Design;
use sf_polish::Expr;
use std::alloc::AllocError as NoMemory;

/// Visits the subproblem that is next: decides it against the word, puts its tag down and goes on. The cost of a
/// plan is offered, which is the best so far. The answer is the value that the word had.
#[inline(always)]
pub fn visit_next<B: Bounds>(
    hand: &mut Hand,
    seat: &mut Seat,
    best: &mut Option<(Expr, u64)>,
    room: &mut B::Room,
    design: &Design,
    bounds: &B,
    word: &Incumbent,
) -> Result<u64, NoMemory>
    requires word { seat.old.word ≡ word.now.id }
    requires hand { IsHand design.now (B.Values.value bounds.now design.now) hand.old }
    requires more { hand.old.more ≡ true }
    requires best { IsBest design.now best.old seat.old.offered }
    requires serves { B.serves room.old design.now }
    ensures visited { OnOk result (IsVisited design.now (B.Values.value bounds.now design.now)
        (B.part_value bounds.now design.now) hand.old seat.old hand.new seat.new best.new) }
    ensures serves { B.serves room.new design.now }
{
    let value = word.read(seat);
    let valued = hand.value(design, bounds, room)?;
    let seen = decide(design, bounds, hand.node(), valued.value, value)?;
    let tag = hand.tag(design, bounds, &seen, valued, value, room)?;
    hand.follow(design, bounds, tag, valued.value)?;
    if let Visit::Solved(expr) = seen {
        word.offer(seat, valued.value);
        *best = Some((expr, valued.value));
    }
    Ok(value)
}
