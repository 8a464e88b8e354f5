//! A certificate's tree, cut into what is decided and what is open.

ghost use Rattle.std.specs.Prelude.{◌≡◌, ◌≢◌, ◌<◌, true, slice_index_or, IfOk};
ghost use Rattle.sf_certificate.specs.declared.tag.Tag.TheVariants.{Open};
ghost use Rattle.sf_resume.specs.Reach.{IsReach};
ghost use Rattle.sf_resume.specs.Reading.{AreSomeTree, IsReading};
ghost use Rattle.sf_resume.specs.Apart.{IsApart, IsDecidedRun, IsOpenRun};

use crate::reaching::{Reach, longest};
use crate::reading::Reading;
use sf_certificate::Tag;
use sf_cursor::Stretch;
use sf_model::Design;
use sf_node::Values;
use sf_pieces::Piece;
use std::alloc::{AllocError as NoMemory, Global};
use std::mem;

/// What is decided, as pieces, and what is open, as stretches.
#[derive(Drop)]
pub struct Apart {
    pub pieces: Vec<Piece>,
    pub stretches: Vec<Stretch>,
}

/// Cuts a tree into runs of decided subproblems and stretches of open ones.
pub fn cut_apart<V: Values>(
    alloc: Global,
    design: &Design,
    values: &V,
    tags: &[Tag],
) -> Result<Apart, NoMemory>
    requires { AreSomeTree design.now tags.now }
    ensures { IfOk result (IsApart design.now (V.value values.now design.now) tags.now) }
{
    let mut pieces = Vec::new(alloc);
    let mut stretches = Vec::new(alloc);
    let mut reading = Reading::new(alloc, design, values, tags)?;
    let mut loose: usize = 0;
    while let Some(tag) = reading.next(design, values, tags) {
        if tag == Tag::Open {
            let (stretch, more) = open_run(alloc, design, values, tags, &mut reading, loose)?;
            stretches.push(stretch)?;
            loose = more;
        } else {
            let piece = decided_run(alloc, design, values, tags, &mut reading, tag)?;
            pieces.push(piece)?;
        }
    }
    Ok(Apart { pieces, stretches })
}

/// The decided subproblems from the next one on, up to an open one.
fn decided_run<V: Values>(
    alloc: Global,
    design: &Design,
    values: &V,
    tags: &[Tag],
    reading: &mut Reading,
    tag: Tag,
) -> Result<Piece, NoMemory>
    requires reading { IsReading design.now (V.value values.now design.now) tags.now reading.old }
    requires more { reading.old.more ≡ true }
    requires next { tag ≡ slice_index_or tags.now reading.old.at tag }
    requires decided { tag ≢ Open }
    ensures { IfOk result
        (λ piece. IsDecidedRun design.now (V.value values.now design.now) tags.now reading.old piece reading.new) }
{
    let first = Vec::from_slice(alloc, reading.cursor.node().steps())?;
    let mut run = Vec::new(alloc);
    run.push(tag)?;
    reading.pass(design, values, tags, tag)?;
    while let Some(tag) = reading.next(design, values, tags) {
        if tag == Tag::Open {
            break;
        }
        run.push(tag)?;
        reading.pass(design, values, tags, tag)?;
    }
    Ok(Piece {
        first,
        tags: run,
        kept: Vec::new(alloc),
    })
}

/// The stretch of open subproblems that begins at the next one, and how many open siblings are loose behind
/// it. Of a loose one it is known that its stretch is no longer.
fn open_run<V: Values>(
    alloc: Global,
    design: &Design,
    values: &V,
    tags: &[Tag],
    reading: &mut Reading,
    loose: usize,
) -> Result<(Stretch, usize), NoMemory>
    requires reading { IsReading design.now (V.value values.now design.now) tags.now reading.old }
    requires more { reading.old.more ≡ true }
    requires open { Open ≡ slice_index_or tags.now reading.old.at Open }
    ensures { IfOk result
        (λ r. IsOpenRun design.now (V.value values.now design.now) tags.now reading.old r.0 reading.new) }
{
    let Reach { floor, end, loose } = if loose > 0 {
        single(alloc, design, values, tags, reading, loose)?
    } else {
        longest(alloc, design, values, tags, reading)?
    };
    let here = mem::replace(reading, end);
    let stretch = Stretch {
        cursor: here.cursor,
        floor,
    };
    Ok((stretch, loose))
}

/// The stretch of the next subproblem alone.
fn single<V: Values>(
    alloc: Global,
    design: &Design,
    values: &V,
    tags: &[Tag],
    reading: &Reading,
    loose: usize,
) -> Result<Reach, NoMemory>
    requires reading { IsReading design.now (V.value values.now design.now) tags.now reading.now }
    requires more { reading.now.more ≡ true }
    requires open { Open ≡ slice_index_or tags.now reading.now.at Open }
    requires some { 0 < loose }
    ensures { IfOk result
        (λ reach. IsReach design.now (V.value values.now design.now) tags.now reading.now reach.floor reach.end) }
{
    let floor = reading.cursor.node().steps().len();
    let mut end = reading.copy(alloc, design, values, tags)?;
    end.pass(design, values, tags, Tag::Open)?;
    Ok(Reach {
        floor,
        end,
        loose: loose - 1,
    })
}
