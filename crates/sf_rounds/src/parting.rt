//! Stretches cut into parts, one for each worker.

ghost use Rattle.std.specs.Prelude.{◌≡◌, ◌++◌, [], All, IfOk, IsPermutation, MatchOption};
ghost use Rattle.std.specs.List.{flat_map};
ghost use Rattle.sf_cursor.specs.Stretches.{IsStretch, waits};
ghost use Rattle.sf_rounds.specs.Parting.{AreParts, AddsParts, IsCut};

use sf_certificate::compare_steps;
use sf_cursor::Stretch;
use sf_model::Design;
use sf_node::Values;
use std::alloc::{AllocError as NoMemory, Global};

/// The stretches in preorder, cut until there are so many of them or none can be cut.
pub fn parts_of<V: Values>(
    alloc: Global,
    design: &Design,
    values: &V,
    mut stretches: Vec<Stretch>,
    many: usize,
) -> Result<Vec<Stretch>, NoMemory>
    requires { All (IsStretch design.now (V.value values.now design.now)) stretches.items }
    ensures { IfOk result
        (λ parts. AreParts design.now (V.value values.now design.now) stretches.items parts.items) }
{
    stretches.sort_by(|one, other| {
        compare_steps(one.cursor.node().steps(), other.cursor.node().steps())
    })?;
    let mut wanted = many.saturating_sub(stretches.len());
    let mut parts = Vec::new(alloc);
    for stretch in stretches {
        wanted = add_parts(alloc, design, values, &mut parts, stretch, wanted)?;
    }
    Ok(parts)
}

/// Adds a stretch, cut at most so many times. The answer is how many cuts are left.
fn add_parts<V: Values>(
    alloc: Global,
    design: &Design,
    values: &V,
    parts: &mut Vec<Stretch>,
    stretch: Stretch,
    wanted: usize,
) -> Result<usize, NoMemory>
    requires { IsStretch design.now (V.value values.now design.now) stretch }
    ensures { IfOk result
        (λ left. AddsParts design.now (V.value values.now design.now) stretch parts.old.items parts.new.items) }
{
    let mut rest = stretch;
    for done in 0..wanted {
        let (first, other) = cut(alloc, design, values, rest)?;
        parts.push(first)?;
        match other {
            None => return Ok(wanted - done),
            Some(other) => rest = other,
        }
    }
    parts.push(rest)?;
    Ok(0)
}

/// The stretch in two parts, the first of which keeps the subproblem that is next, or as it was where nothing
/// waits behind that on the way.
fn cut<V: Values>(
    alloc: Global,
    design: &Design,
    values: &V,
    stretch: Stretch,
) -> Result<(Stretch, Option<Stretch>), NoMemory>
    requires { IsStretch design.now (V.value values.now design.now) stretch }
    ensures { IfOk result (λ parts. IsCut design.now (V.value values.now design.now) stretch parts.0 parts.1) }
{
    let Stretch { cursor, floor } = stretch;
    match cursor.part_off(alloc, design, values, floor)? {
        None => Ok((Stretch { cursor, floor }, None)),
        Some((part, level)) => {
            let first = Stretch {
                cursor,
                floor: level,
            };
            let other = Stretch {
                cursor: part,
                floor,
            };
            Ok((first, Some(other)))
        }
    }
}
