//! How far a stretch reaches over open subproblems.

ghost use Rattle.std.specs.Prelude.{◌≡◌, true, slice_index_or, IfOk};
ghost use Rattle.sf_certificate.specs.declared.tag.Tag.TheVariants.{Open};
ghost use Rattle.sf_resume.specs.Reading.{IsReading};
ghost use Rattle.sf_resume.specs.Reach.{IsReach, floor_of};

use crate::reading::Reading;
use sf_certificate::Tag;
use sf_model::Design;
use sf_node::Values;
use std::alloc::{AllocError as NoMemory, Global};

/// A stretch over open subproblems: how many steps of its way are not its own, the reading behind it, and how
/// many more subproblems are open right behind it, all of which are later siblings.
#[derive(Drop)]
pub struct Reach {
    pub floor: usize,
    pub end: Reading,
    pub loose: usize,
}

/// How many steps of the way the next subproblem leaves, where all that were read are farther away than that.
fn floor_of(more: bool, depth: usize, low: usize) -> Option<usize>
    ensures { result ≡ floor_of more depth low }
{
    if !more {
        return Some(0);
    }
    if depth < low { Some(depth) } else { None }
}

/// The longest stretch that begins at the open subproblem that is next, and stands for open ones alone.
pub fn longest<V: Values>(
    alloc: Global,
    design: &Design,
    values: &V,
    tags: &[Tag],
    reading: &Reading,
) -> Result<Reach, NoMemory>
    requires reading { IsReading design.now (V.value values.now design.now) tags.now reading.now }
    requires more { reading.now.more ≡ true }
    requires open { Open ≡ slice_index_or tags.now reading.now.at Open }
    ensures { IfOk result
        (λ reach. IsReach design.now (V.value values.now design.now) tags.now reading.now reach.floor reach.end) }
{
    let mut low = reading.cursor.node().steps().len();
    let mut ahead = reading.copy(alloc, design, values, tags)?;
    ahead.pass(design, values, tags, Tag::Open)?;
    let depth = ahead.cursor.node().steps().len();
    let mut floor = floor_of(ahead.more, depth, low).unwrap_or(low);
    let mut end = ahead.copy(alloc, design, values, tags)?;
    while let Some(Tag::Open) = ahead.next(design, values, tags) {
        low = low.min(ahead.cursor.node().steps().len());
        ahead.pass(design, values, tags, Tag::Open)?;
        let depth = ahead.cursor.node().steps().len();
        if let Some(less) = floor_of(ahead.more, depth, low) {
            floor = less;
            end = ahead.copy(alloc, design, values, tags)?;
        }
    }
    let loose = ahead.at - end.at;
    Ok(Reach { floor, end, loose })
}
