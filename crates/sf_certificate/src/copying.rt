//! Paths once more.

ghost use Rattle.std.specs.Prelude.{◌≡◌, IfOk};

use sf_model::{Path, PathList, Paths, Steps};
use std::alloc::{AllocError as NoMemory, Global};

/// The same paths once more.
pub fn copy_paths(alloc: Global, paths: &Paths) -> Result<Paths, NoMemory>
    ensures { IfOk result (λ copy. copy ≡ paths.now) }
{
    let across = copy_list(alloc, paths.across.as_slice())?;
    let upward = copy_list(alloc, paths.upward.as_slice())?;
    Ok(Paths {
        across: PathList::from_vec(across),
        upward: PathList::from_vec(upward),
    })
}

/// The paths of an axis once more.
fn copy_list(alloc: Global, paths: &[Path]) -> Result<Vec<Path>, NoMemory>
    ensures { IfOk result (λ copy. copy.items ≡ paths.now) }
{
    let mut copies = Vec::with_capacity(alloc, paths.len())?;
    for path in paths {
        copies.push(copy_path(alloc, path)?)?;
    }
    Ok(copies)
}

/// A path once more.
fn copy_path(alloc: Global, path: &Path) -> Result<Path, NoMemory>
    ensures { IfOk result (λ copy. copy ≡ path.now) }
{
    let steps = Vec::from_slice(alloc, path.steps.as_slice())?;
    Ok(Path {
        first: path.first,
        steps: Steps::from_vec(steps),
    })
}
