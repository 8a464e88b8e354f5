//! Paths from pad to pad on three blocks, with values of the bound that were worked out by hand, and paths that
//! were found.

ghost use Rattle.std.specs.Prelude.{◌≡◌, ◌<◌, ◌^◌, length, sum_by, All, IfOk};
ghost use Rattle.sf_model.specs.Limits.{IsCoordinate, IsPinSet, IsShapeList, IsThere, pin_order};

use crate::bounds::have_values;
use sf_bound::Bounds;
use sf_bounds::Standard;
use sf_model::{
    Block, BlockList, Design, Net, NetList, Pad, PadList, Path, PathList, Paths, Pin, Step, Steps,
    Weights,
};
use sf_paths::find_paths;
use sf_test_designs::{SQUARE, WIDEST, block, drawn, net, pad};
use std::alloc::{AllocError, Global};
use std::test::Fail;

/// A net of two pins, in their order, of three blocks and three pads.
fn joined(alloc: Global, first: Pin, second: Pin, weight: u8) -> Result<Net, AllocError>
    requires first { IsThere 3 3 first }
    requires second { IsThere 3 3 second }
    requires ordered { pin_order first < pin_order second }
    ensures length { IfOk result (λ n. length n.pins ≡ 2) }
    ensures pins { IfOk result (λ n. IsPinSet 3 3 n.pins) }
    ensures weight { IfOk result (λ n. n.weight < 2 ^ 8) }
{
    net(alloc, first, second, weight)
}

/// Three blocks of 2 by 2.
fn chain_blocks(alloc: Global) -> Result<Vec<Block>, AllocError>
    ensures count { IfOk result (λ blocks. length blocks.items ≡ 3) }
    ensures shapes { IfOk result (λ blocks. All (λ b. IsShapeList b.shapes) blocks.items) }
{
    Ok(vec![in alloc;
        block(alloc, SQUARE)?,
        block(alloc, SQUARE)?,
        block(alloc, SQUARE)?,
    ]?)
}

/// Pads of which 0 and 1 lie 10 apart across, and 2 lies above 0 by 12.
fn chain_pads(alloc: Global) -> Result<Vec<Pad>, AllocError>
    ensures count { IfOk result (λ pads. length pads.items ≡ 3) }
    ensures places { IfOk result (λ pads. All (λ p. IsCoordinate p.x × IsCoordinate p.y) pads.items) }
{
    Ok(vec![in alloc; pad(alloc, 0, 0)?, pad(alloc, 10, 0)?, pad(alloc, 0, 12)?]?)
}

/// A chain from pad 0 over the blocks to pad 1, a net from the first block to pad 2, and one of the chain's ends.
fn chain_nets(alloc: Global) -> Result<Vec<Net>, AllocError>
    ensures count { IfOk result (λ nets. length nets.items ≡ 6) }
    ensures few { IfOk result (λ nets. sum_by (λ n. length n.pins) nets.items ≡ 12) }
    ensures pins { IfOk result (λ nets. All (λ n. IsPinSet 3 3 n.pins) nets.items) }
    ensures weights { IfOk result (λ nets. All (λ n. n.weight < 2 ^ 8) nets.items) }
{
    Ok(vec![in alloc;
        joined(alloc, Pin::Block(0), Pin::Pad(0), 2)?,
        joined(alloc, Pin::Block(0), Pin::Block(1), 1)?,
        joined(alloc, Pin::Block(1), Pin::Block(2), 1)?,
        joined(alloc, Pin::Block(2), Pin::Pad(1), 1)?,
        joined(alloc, Pin::Block(0), Pin::Pad(2), 1)?,
        joined(alloc, Pin::Block(0), Pin::Block(2), 1)?,
    ]?)
}

/// Three blocks of 2 by 2. The pads 0 and 1 lie 10 apart across, and the pad 2 lies above pad 0 by 12. A chain of the
/// blocks lies between the pads 0 and 1; a net leads from the first block to the pad 2, and one joins the ends of the
/// chain. The first net has the weight 2.
pub fn chain(alloc: Global) -> Result<Design, AllocError> {
    let blocks = chain_blocks(alloc)?;
    let pads = chain_pads(alloc)?;
    let nets = chain_nets(alloc)?;
    Design::new(
        alloc,
        BlockList::from_vec(blocks),
        PadList::from_vec(pads),
        NetList::from_vec(nets),
        WIDEST,
        Weights { area: 1, wire: 1 },
    )
}

/// A path as its first pin and its steps, each a net and a pin.
pub type Written = (Pin, &'static [(u32, Pin)]);

/// The path along the chain, from pad 0 to pad 1.
pub const ALONG: Written = (
    Pin::Pad(0),
    &[
        (0, Pin::Block(0)),
        (1, Pin::Block(1)),
        (2, Pin::Block(2)),
        (3, Pin::Pad(1)),
    ],
);

/// The path from pad 0 over the first block to pad 2.
pub const ABOVE: Written = (Pin::Pad(0), &[(0, Pin::Block(0)), (4, Pin::Pad(2))]);

/// The path that is written so.
fn path_of(alloc: Global, written: Written) -> Result<Path, AllocError> {
    let mut steps = Vec::new(alloc);
    for (net, to) in written.1 {
        steps.push(Step { net: *net, to: *to })?;
    }
    Ok(Path {
        first: written.0,
        steps: Steps::from_vec(steps),
    })
}

/// The paths that are written so.
fn list_of(alloc: Global, written: &[Written]) -> Result<PathList, AllocError> {
    let mut paths = Vec::new(alloc);
    for path in written {
        paths.push(path_of(alloc, *path)?)?;
    }
    Ok(PathList::from_vec(paths))
}

/// Those across and those upward.
pub fn paths_of(
    alloc: Global,
    across: &[Written],
    upward: &[Written],
) -> Result<Paths, AllocError> {
    Ok(Paths {
        across: list_of(alloc, across)?,
        upward: list_of(alloc, upward)?,
    })
}

/// The nets alone, at no token; 0 1 *; 0 1 * 2; 0 1 * 2 *; 0 1 * 2 +. All lengths are doubled. At no token the
/// area is 12, and the nets take 2 * 4, 4, 4, 2, 2 and 4: the first block's centre is 2 across and 2 upward
/// from the corner where pad 0 lies, two centres are 4 apart, and a side holds a centre 2 off a pad on the
/// rim. In a row the centres lie at (2, 2), (6, 2) and (10, 2), so the nets take 2 * 4, 4, 4, 12, 24 and 8
/// and the area 12. With the third block above, at (2, 6), they take 2 * 4, 4, 8, 24, 24 and 4 and the area 16.
const ALONE: [(&[usize], u64); 5] = [
    (&[], 36),
    (&[0, 0, 0], 36),
    (&[0, 0, 0, 0], 36),
    (&[0, 0, 0, 0, 0], 72),
    (&[0, 0, 0, 0, 1], 88),
];

/// The same with both paths. Their ends are 20 and 24 apart. They leave the first net once, which takes 4, and
/// the last one, which takes 4, so that the wires take 52. At a plan they take what they take.
const ROUTED: [(&[usize], u64); 5] = [
    (&[], 64),
    (&[0, 0, 0], 64),
    (&[0, 0, 0, 0], 64),
    (&[0, 0, 0, 0, 0], 72),
    (&[0, 0, 0, 0, 1], 88),
];

/// Whether the subproblems of the chain have these values.
fn chain_has(alloc: Global, rows: &[(&[usize], u64)]) -> Result<bool, Fail> {
    let design = chain(alloc)?;
    Ok(have_values(alloc, &design, &mut Standard.room(alloc), rows)?)
}

/// The bound before the design is given paths.
#[test]
fn nets_count_alone(rt: HostRuntime) -> Result<(), Fail> {
    assert!(rt; chain_has(rt.alloc(), &ALONE)?);
    Ok(())
}

/// The same of the chain with both paths.
fn routed_chain_has(alloc: Global, rows: &[(&[usize], u64)]) -> Result<bool, Fail> {
    let mut design = chain(alloc)?;
    design.set_paths(alloc, paths_of(alloc, &[ALONG], &[ABOVE])?)?;
    Ok(have_values(alloc, &design, &mut Standard.room(alloc), rows)?)
}

/// The bound of the design with both paths.
#[test]
fn paths_raise_the_bound(rt: HostRuntime) -> Result<(), Fail> {
    assert!(rt; routed_chain_has(rt.alloc(), &ROUTED)?);
    Ok(())
}

/// How far the ends of the paths are apart that are found for a design, which takes them all.
fn found_wires(alloc: Global, mut design: Design) -> Result<u64, Fail> {
    let paths = find_paths(alloc, &design)?;
    design.set_paths(alloc, paths)?;
    Ok(design.routes.wires)
}

/// Paths that are found are legal. Of the three blocks there is one across, from pad 0 to pad 1, and one upward,
/// from pad 0 to pad 2.
#[test]
fn takes_the_paths_that_are_found(rt: HostRuntime) -> Result<(), Fail> {
    let alloc = rt.alloc();
    assert!(rt; found_wires(alloc, chain(alloc)?)? == 44);
    for seed in 1..4 {
        assert!(rt;
            found_wires(alloc, drawn(alloc, seed, 20, WIDEST, 1)?)? > 0,
            "{seed}"
        );
    }
    Ok(())
}
