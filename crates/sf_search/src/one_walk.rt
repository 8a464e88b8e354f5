//! The whole walk of one worker.

ghost use Rattle.std.specs.Prelude.{◌≡◌, ◌≤◌, ◌∷◌, [], length, true, IfOk};
ghost use Rattle.sf_node.specs.Subproblem.{root};
ghost use Rattle.sf_certificate.specs.Marks.{marks};
ghost use Rattle.sf_pieces.specs.Naming.{AreKept};
ghost use Rattle.sf_search.specs.Stage.{IsRun};

use crate::walk::Walk;
use sf_bound::Bounds;
use sf_io::Gate;
use sf_model::Design;
use sf_node::Values;
use std::alloc::{AllocError as NoMemory, Global};

/// Visits the subproblem that is next, one after another, until all are visited or `nodes` are.
pub fn search_walk<B: Bounds, G: Gate>(
    alloc: Global,
    design: &Design,
    bounds: &B,
    nodes: u64,
    gate: &G,
    room: &mut B::Room,
) -> Result<Walk, NoMemory>
    requires serves { B.serves room.old design.now }
    ensures run { IfOk result (λ walk. IsRun design.now (B.Values.value bounds.now design.now) nodes walk) }
    ensures kept { IfOk result
        (λ walk. AreKept (B.part_value bounds.now design.now) walk.word
        (marks (root design.now ∷ []) walk.hand.tags) walk.hand.kept) }
    ensures few { IfOk result (λ walk. length walk.hand.tags ≤ nodes) }
    ensures spent { IfOk result (λ walk. walk.hand.more ≡ true → length walk.hand.tags ≡ nodes) }
    ensures serves { B.serves room.new design.now }
{
    let mut walk = Walk::new(alloc, design, bounds)?;
    for step in 0..nodes {
        if !walk.more() {
            break;
        }
        gate.at(0, step);
        walk.step(design, bounds, room)?;
    }
    Ok(walk)
}
