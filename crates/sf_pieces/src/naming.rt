//! Which part of the bound closes a subproblem.

ghost use Rattle.std.specs.Prelude.{◌≡◌};
ghost use Rattle.sf_node.specs.ByPart.{first_part};
ghost use Rattle.sf_certificate.specs.declared.tag.Tag.TheVariants.{Closed};
ghost use Rattle.sf_pieces.specs.Naming.{is_late, renamed, value_in};

use sf_certificate::Tag;
use sf_node::{Part, PartValues};

/// Whether a tag names another part than the area.
pub fn is_late(tag: Tag) -> bool
    ensures { result ≡ is_late tag }
{
    match tag {
        Tag::Closed(Part::Area) | Tag::Extend | Tag::Split(_) | Tag::Open => false,
        Tag::Closed(_) => true,
    }
}

/// The tag of a closed subproblem whose parts have these values.
fn closed(values: &PartValues, cost: u64) -> Tag
    ensures { result ≡ Closed (first_part (value_in values.now) cost) }
{
    Tag::Closed(values.first(cost))
}

/// Names the parts anew, now that the cost is known. Where the area closes a subproblem it stays; each other
/// closed one takes the next of the values that are kept.
pub fn name_all(tags: &mut [Tag], kept: &[PartValues], cost: u64)
    ensures { tags.new ≡ renamed cost tags.old kept.now }
{
    if kept.is_empty() {
        return;
    }
    let mut next = 0;
    for tag in tags.iter_mut() {
        if is_late(*tag)
            && let Some(values) = kept.get(next)
        {
            *tag = closed(values, cost);
            next += 1;
        }
    }
}
