//! What the tags of a certificate ask of a bound.

ghost use Rattle.std.specs.Prelude.{◌≡◌, IfOk, IfSome, OnOk};
ghost use Rattle.sf_node.specs.Later.{IsChildOf};
ghost use Rattle.sf_cursor.specs.Path.{IsPath};
ghost use Rattle.sf_checker.specs.Standing.{asked_value};

use sf_bound::{Bounds, child_bound};
use sf_certificate::Tag;
use sf_cursor::Cursor;
use sf_model::Design;
use sf_node::{Part, Step};
use std::alloc::AllocError as NoMemory;

/// The value of the subproblem one step before, where that step names a block: such a child may have the same
/// one. It is measured for the first child that asks, and told to those after it.
fn parent_value<B: Bounds>(
    cursor: &mut Cursor,
    design: &Design,
    bounds: &B,
    room: &mut B::Room,
) -> Result<Option<u64>, NoMemory>
    requires at { IsPath design.now (B.Values.value bounds.now design.now) cursor.old }
    requires serves { B.serves room.old design.now }
    ensures at { OnOk result (IsPath design.now (B.Values.value bounds.now design.now) cursor.new) }
    ensures node { OnOk result (cursor.new.node ≡ cursor.old.node) }
    ensures value { IfOk result (λ told. IfSome told
        (λ value. IsChildOf design.now (B.Values.value bounds.now design.now) value cursor.old.node)) }
    ensures serves { B.serves room.new design.now }
{
    if let Some(value) = cursor.parent_value(design, bounds) {
        return Ok(Some(value));
    }
    let Some(Step::Block(_)) = cursor.node().steps().last() else {
        return Ok(None);
    };
    let Some((step, _)) = cursor.leave(design, bounds) else {
        unreachable!()
    };
    let value = bounds.bound(design, cursor.node(), room)?;
    cursor.enter(design, bounds, step, Some(value))?;
    Ok(Some(value))
}

/// The value of the subproblem that is next.
fn value_at<B: Bounds>(
    cursor: &mut Cursor,
    design: &Design,
    bounds: &B,
    room: &mut B::Room,
) -> Result<u64, NoMemory>
    requires at { IsPath design.now (B.Values.value bounds.now design.now) cursor.old }
    requires serves { B.serves room.old design.now }
    ensures at { OnOk result (IsPath design.now (B.Values.value bounds.now design.now) cursor.new) }
    ensures node { OnOk result (cursor.new.node ≡ cursor.old.node) }
    ensures value { IfOk result (λ value. value ≡ B.Values.value bounds.now design.now cursor.old.node) }
    ensures serves { B.serves room.new design.now }
{
    match parent_value(cursor, design, bounds, room)? {
        None => bounds.bound(design, cursor.node(), room),
        Some(value) => child_bound(design, bounds, cursor.node(), value, room),
    }
}

/// The number that a tag asks for at the subproblem that is next, if it asks for one. Of a closed subproblem
/// the part that it names is measured, and nothing else.
pub fn told_at<B: Bounds>(
    cursor: &mut Cursor,
    design: &Design,
    bounds: &B,
    tag: Tag,
    room: &mut B::Room,
) -> Result<Option<u64>, NoMemory>
    requires at { IsPath design.now (B.Values.value bounds.now design.now) cursor.old }
    requires serves { B.serves room.old design.now }
    ensures at { OnOk result (IsPath design.now (B.Values.value bounds.now design.now) cursor.new) }
    ensures node { OnOk result (cursor.new.node ≡ cursor.old.node) }
    ensures told { IfOk result (λ told. told
        ≡ asked_value (B.Values.value bounds.now design.now cursor.old.node)
        (B.part_value bounds.now design.now cursor.old.node) tag) }
    ensures serves { B.serves room.new design.now }
{
    let value = match tag {
        Tag::Extend | Tag::Split(_) => return Ok(None),
        Tag::Closed(Part::Full) | Tag::Open => value_at(cursor, design, bounds, room)?,
        Tag::Closed(part) => bounds.part(design, cursor.node(), part, room)?,
    };
    Ok(Some(value))
}
