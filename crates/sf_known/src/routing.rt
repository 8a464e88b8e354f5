//! The paths that a design takes.

ghost use Rattle.std.specs.Prelude.{◌≡◌, IfOk, IfSome, Ok, None};
ghost use Rattle.sf_model.specs.Paths.{IsFirstWrong};
ghost use Rattle.sf_model.specs.Routed.{HasPaths};
ghost use Rattle.sf_known.specs.Routed.{Breaks, IsRouted, Takes};

use sf_model::{Design, PathFault, Paths};
use sf_options::BoundsChoice;
use sf_paths::find_paths;
use std::alloc::{AllocError as NoMemory, Global};

/// Gives the design paths, or tells the number of the first one that is not legal.
fn set_or_name(alloc: Global, design: &mut Design, paths: Paths) -> Result<Option<u64>, NoMemory>
    ensures set { result ≡ Ok None → HasPaths design.old paths design.new }
    ensures wrong { IfOk result (λ number.
        IfSome number (IsFirstWrong design.old.pads design.old.nets paths)) }
    ensures kept { IfOk result (λ number. IfSome number (λ _. design.new ≡ design.old)) }
{
    match design.set_paths(alloc, paths) {
        Ok(()) => Ok(None),
        Err(PathFault::BadPath(number)) => Ok(Some(number as u64)),
        Err(PathFault::NoMemory) => Err(NoMemory),
    }
}

/// Has a design take the paths of a certificate where the bounds that were asked for count them. Where one is
/// not legal the design stays as it was, and the number of the first such path is told: first those across and
/// then those upward, from 0 on through both.
pub fn take_paths(
    alloc: Global,
    bounds: BoundsChoice,
    design: &mut Design,
    paths: Paths,
) -> Result<Option<u64>, NoMemory>
    ensures taken { result ≡ Ok None → Takes bounds design.old paths design.new }
    ensures wrong { IfOk result (λ number. IfSome number (Breaks bounds design.old paths)) }
    ensures kept { IfOk result (λ number. IfSome number (λ _. design.new ≡ design.old)) }
{
    match bounds {
        BoundsChoice::Strong => set_or_name(alloc, design, paths),
        BoundsChoice::Standard | BoundsChoice::Pair | BoundsChoice::Fit | BoundsChoice::Both => {
            Ok(None)
        }
    }
}

/// The design with the paths that are found for it.
fn with_paths(alloc: Global, design: Design) -> Result<Design, NoMemory>
    ensures { IfOk result (IsRouted BoundsChoice.Strong design) }
{
    let mut routed = design;
    let paths = find_paths(alloc, &routed)?;
    set_or_name(alloc, &mut routed, paths)?;
    Ok(routed)
}

/// The design with the paths that are found for it, where the bounds that were asked for count them and wires
/// cost anything.
pub fn find_routes(alloc: Global, bounds: BoundsChoice, design: Design) -> Result<Design, NoMemory>
    ensures { IfOk result (IsRouted bounds design) }
{
    match bounds {
        BoundsChoice::Strong if design.weights.wire > 0 => with_paths(alloc, design),
        BoundsChoice::Standard
        | BoundsChoice::Strong
        | BoundsChoice::Pair
        | BoundsChoice::Fit
        | BoundsChoice::Both => Ok(design),
    }
}
