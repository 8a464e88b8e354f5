//! Children of subproblems, which may have their parent's value.

ghost use Rattle.std.specs.Prelude.{◌≡◌, IfOk};
ghost use Rattle.sf_node.specs.Later.{IsChildOf};

use crate::bounds::Bounds;
use sf_model::Design;
use sf_node::Node;
use std::alloc::AllocError as NoMemory;

/// The value of a child of a subproblem whose value is given: that one, where the child keeps it. Of the
/// hundreds of children of a large design nearly all do, so it costs no call there.
#[inline(always)]
pub fn child_bound<B: Bounds>(
    design: &Design,
    bounds: &B,
    child: &Node,
    value: u64,
    room: &mut B::Room,
) -> Result<u64, NoMemory>
    requires child { IsChildOf design.now (B.Values.value bounds.now design.now) value child.now }
    requires serves { B.serves room.old design.now }
    ensures value { IfOk result (λ v. v ≡ B.Values.value bounds.now design.now child.now) }
    ensures serves { B.serves room.new design.now }
{
    if bounds.keeps_value(child) {
        return Ok(value);
    }
    bounds.bound(design, child, room)
}
