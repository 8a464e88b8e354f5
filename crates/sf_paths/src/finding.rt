//! The paths of both axes.

use crate::flow::Flow;
use crate::levels::{Axis, LEVELS, Levels};
use crate::search::{Search, Span};
use crate::walking::walk_all;
use crate::web::Web;
use sf_model::{Design, Path, PathList, Paths};
use std::alloc::{AllocError, Global};

/// How many places and hooks are looked at along an axis at most.
const STEPS: u64 = 20_000_000;

/// Paths from pad to pad of a design, from left to right and from below upward, those whose ends are farthest
/// apart first.
pub fn find_paths(alloc: Global, design: &Design) -> Result<Paths, AllocError> {
    let web = Web::new(alloc, design)?;
    let across = find_along(alloc, design, &web, Axis::Across)?;
    let upward = find_along(alloc, design, &web, Axis::Upward)?;
    Ok(Paths {
        across: PathList::from_vec(across),
        upward: PathList::from_vec(upward),
    })
}

/// The paths along an axis.
fn find_along(
    alloc: Global,
    design: &Design,
    web: &Web,
    axis: Axis,
) -> Result<Vec<Path>, AllocError> {
    let levels = Levels::new(alloc, design.pads.as_slice(), axis)?;
    let mut flow = Flow::new(alloc, design, web)?;
    let mut search = Search::new(alloc, web)?;
    let mut steps = STEPS;
    for nearer in 1..LEVELS {
        for low in 0..nearer {
            let high = low + LEVELS - nearer;
            let span = Span { low, high };
            fill(web, &levels, span, &mut search, &mut flow, &mut steps)?;
        }
    }
    walk_all(alloc, web, &mut flow, &levels)
}

/// Adds paths of a span until there is none more or the steps are spent.
fn fill(
    web: &Web,
    levels: &Levels,
    span: Span,
    search: &mut Search,
    flow: &mut Flow,
    steps: &mut u64,
) -> Result<(), AllocError> {
    for _ in 0..u64::MAX {
        if !search.send_paths(web, flow, levels, span, steps)? {
            return Ok(());
        }
    }
    Ok(())
}
