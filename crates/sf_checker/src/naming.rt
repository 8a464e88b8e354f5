//! The names of the parts that close a certificate's subproblems.

ghost use Rattle.std.specs.Prelude.{◌≡◌, [], ◌∷◌, map, IfOk, OnOk};
ghost use Rattle.sf_model.specs.Legal.{block_count};
ghost use Rattle.sf_node.specs.ByPart.{ArePartsOf};
ghost use Rattle.sf_node.specs.Children.{IsSubproblem};
ghost use Rattle.sf_node.specs.Subproblem.{root};
ghost use Rattle.sf_certificate.specs.Marks.{IsFair};
ghost use Rattle.sf_certificate.specs.Named.{AllNameFirst, AreAlikeButNames, NamesFirst, unnamed};
ghost use Rattle.sf_certificate.specs.Valid.{AreTrees, IsValid};

use sf_bound::Bounds;
use sf_certificate::{Cert, Tag, TagList};
use sf_cursor::Cursor;
use sf_model::Design;
use sf_node::{Node, Part};
use std::alloc::{AllocError as NoMemory, Global};

/// The tag with the first part that closes the subproblem, where it closes it. The area, which is the first
/// part of all, stays and is not measured.
fn name_tag<B: Bounds>(
    design: &Design,
    bounds: &B,
    node: &Node,
    cost: u64,
    tag: Tag,
    room: &mut B::Room,
) -> Result<Tag, NoMemory>
    requires subproblem { IsSubproblem design.now node.now }
    requires fair { IsFair (B.part_value bounds.now design.now) cost tag node.now }
    requires serves { B.serves room.old design.now }
    ensures named { IfOk result (λ t. NamesFirst (B.part_value bounds.now design.now) cost t node.now) }
    ensures alike { IfOk result (λ t. unnamed t ≡ unnamed tag) }
    ensures serves { B.serves room.new design.now }
{
    match tag {
        Tag::Closed(Part::Range | Part::Pair | Part::Hull | Part::Full) => {
            let (_, values) = bounds.all_values(design, node, room)?;
            Ok(Tag::Closed(values.first(cost)))
        }
        Tag::Closed(Part::Area) | Tag::Extend | Tag::Split(_) | Tag::Open => Ok(tag),
    }
}

/// Names the first parts in all tags of a tree.
fn name_tags<B: Bounds>(
    alloc: Global,
    design: &Design,
    bounds: &B,
    cost: u64,
    tags: &mut Vec<Tag>,
) -> Result<(), NoMemory>
    requires tree { AreTrees (B.part_value bounds.now design.now) cost (root design.now ∷ []) tags.old.items }
    ensures named { OnOk result (AllNameFirst design.now (B.part_value bounds.now design.now) cost
        tags.new.items) }
    ensures alike { OnOk result (map unnamed tags.new.items ≡ map unnamed tags.old.items) }
{
    let mut room = bounds.room(alloc);
    let mut cursor = Cursor::new(alloc, design, bounds)?;
    let mut at = 0;
    let mut more = true;
    while more {
        let tag = name_tag(design, bounds, cursor.node(), cost, tags[at], &mut room)?;
        tags[at] = tag;
        at += 1;
        more = cursor.follow(design, bounds, tag, None)?;
    }
    Ok(())
}

/// What a bound's law says of its parts at each subproblem of a design.
fn parts_are_below<B: Bounds>(design: &Design, bounds: &B)
    ensures { let value = B.Values.value bounds.now design.now in
        let part = B.part_value bounds.now design.now in
        ArePartsOf design.now value part }
{}

/// A valid certificate in which each closed subproblem names the first part of the bound that closes it. All
/// else stays.
pub fn name_parts<B: Bounds>(
    alloc: Global,
    design: &Design,
    bounds: &B,
    cert: Cert,
) -> Result<Cert, NoMemory>
    requires blocks { cert.blocks ≡ block_count design.now }
    requires valid { let value = B.Values.value bounds.now design.now in
        let part = B.part_value bounds.now design.now in
        IsValid design.now value part cert }
    ensures named { IfOk result
        (λ c. AllNameFirst design.now (B.part_value bounds.now design.now) c.cost c.tags) }
    ensures alike { IfOk result (AreAlikeButNames cert) }
    ensures valid { let value = B.Values.value bounds.now design.now in
        let part = B.part_value bounds.now design.now in
        IfOk result (IsValid design.now value part) }
{
    let Cert {
        blocks,
        plan,
        cost,
        bound,
        paths,
        tags,
    } = cert;
    let mut tags = tags.into_vec(alloc)?;
    parts_are_below(design, bounds);
    name_tags(alloc, design, bounds, cost, &mut tags)?;
    let named = TagList::from_vec(alloc, tags)?;
    Ok(Cert {
        blocks,
        plan,
        cost,
        bound,
        paths,
        tags: named,
    })
}
