//! A pass of one worker.

ghost use Rattle.std.specs.Prelude.{◌≡◌, [], OnOk, IfOk};
ghost use Rattle.sf_worker.specs.Took.{IsReady, Serves, Passed, PassEnds};

use crate::state::{PassEnd, WorkerState};
use crate::take::find;
use crate::walking::walk_over;
use sf_bound::Bounds;
use sf_frontier::Served;
use sf_incumbent::Incumbent;
use sf_io::Gate;
use sf_model::Design;
use std::alloc::AllocError as NoMemory;

/// Walks over stretches until the quota is spent or none was found.
pub fn pass<T: Served, B: Bounds, G: Gate>(
    state: &mut WorkerState<T>,
    design: &Design,
    bounds: &B,
    word: &Incumbent,
    gate: &G,
) -> Result<PassEnd, NoMemory>
    requires team { Serves T.serves design.now (B.Values.value bounds.now design.now) }
    requires word { state.old.seat.word ≡ word.now.id }
    requires ready { IsReady design.now (B.Values.value bounds.now design.now) state.old }
    ensures ready { OnOk result (IsReady design.now (B.Values.value bounds.now design.now) state.new) }
    ensures passed { IfOk result
        (λ end. (p : Passed design.now (B.Values.value bounds.now design.now)
        (B.part_value bounds.now design.now) state.old state.new []) × PassEnds state.old state.new p end) }
{
    let given = state.quota;
    let mut room = bounds.room(*state.log.allocator());
    while state.quota > 0 {
        let Some(stretch) = find(&mut state.first, &mut state.place) else {
            return Ok(PassEnd::FoundNothing);
        };
        walk_over(state, stretch, &mut room, design, bounds, word, gate, given)?;
    }
    Ok(PassEnd::QuotaSpent)
}
