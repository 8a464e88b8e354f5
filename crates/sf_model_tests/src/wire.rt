//! Wires and costs of small designs, worked out by hand.

ghost use Rattle.std.specs.Prelude.{◌≡◌, ◌∷◌, [], IfOk, length};
ghost use Rattle.sf_model.specs.Legal.{block_count, shapes_of};
ghost use Rattle.sf_place.specs.Verdict.{AreLegal};

use sf_model::{BlockList, Design, NetList, Outline, PadList, Pin, Plan, Spot, Weights};
use sf_place::{Verdict, check_spots};
use sf_test_designs::{SQUARE, block, net, pad, spot};
use sf_wire::{cost, net_wire, spots_cost, spots_size, wire};
use std::alloc::{AllocError, Global};
use std::test::Fail;

/// Two blocks 2x2 with a net of both, and a net of each with a pad of its own, of these weights.
fn row(alloc: Global, both: u8, own: u8) -> Result<Design, AllocError>
    ensures blocks { IfOk result (λ design. block_count design ≡ 2) }
    ensures nets { IfOk result (λ design. length design.nets ≡ 3) }
    ensures first { IfOk result (λ design. shapes_of design 0 ≡ SQUARE ∷ []) }
    ensures second { IfOk result (λ design. shapes_of design 1 ≡ SQUARE ∷ []) }
    ensures wide { IfOk result (λ design. design.outline.w ≡ 9) }
    ensures high { IfOk result (λ design. design.outline.h ≡ 9) }
{
    let blocks = vec![in alloc; block(alloc, SQUARE)?, block(alloc, SQUARE)?]?;
    let pads = vec![in alloc; pad(alloc, 0, 0)?, pad(alloc, 10, 0)?]?;
    let nets = vec![in alloc;
        net(alloc, Pin::Block(0), Pin::Pad(0), own)?,
        net(alloc, Pin::Block(0), Pin::Block(1), both)?,
        net(alloc, Pin::Block(1), Pin::Pad(1), own)?,
    ]?;
    Design::new(
        alloc,
        BlockList::from_vec(blocks),
        PadList::from_vec(pads),
        NetList::from_vec(nets),
        Outline { w: 9, h: 9 },
        Weights { area: 1, wire: 1 },
    )
}

/// What the nets of both and of the second block alone take, what all take by their weights, and what a placement
/// costs.
fn measured(design: &Design, spots: &[Spot]) -> [u64; 4]
    requires legal { AreLegal design.now spots.now }
    requires nets { length design.now.nets ≡ 3 }
{
    [
        net_wire(design, 1, spots),
        net_wire(design, 2, spots),
        wire(design, spots),
        spots_cost(design, spots),
    ]
}

/// What is measured of both blocks side by side with these weights, and zeros where that isn't legal.
fn measured_row(alloc: Global, both: u8, own: u8) -> Result<[u64; 4], AllocError> {
    let placed = [spot(0, 0, 0, SQUARE), spot(1, 2, 0, SQUARE)];
    let design = row(alloc, both, own)?;
    if check_spots(&design, &placed) != Verdict::Legal {
        return Ok([0; 4]);
    }
    Ok(measured(&design, &placed))
}

#[test]
fn wires_of_a_row(rt: HostRuntime) {
    assert!(rt; spots_size(&[spot(0, 0, 0, SQUARE), spot(1, 2, 0, SQUARE)]) == (4, 2));
    for (both, own, wires, costs) in [(1u8, 1u8, 24u64, 32u64), (3, 0, 12, 20), (0, 0, 0, 8)] {
        assert!(rt;
            measured_row(rt.alloc(), both, own) == Ok([4, 16, wires, costs]),
            "{both} {own}"
        );
    }
}

#[test]
fn cost_of_a_row(rt: HostRuntime) -> Result<(), Fail> {
    let alloc = rt.alloc();
    for (both, costs) in [(1u8, 32u64), (3, 40), (0, 28)] {
        let design = row(alloc, both, 1)?;
        let left = Box::new(alloc, Plan::Leaf(0, SQUARE))?;
        let right = Box::new(alloc, Plan::Leaf(1, SQUARE))?;
        let plan = Plan::Beside(left, right);
        assert_eq!(rt; cost(alloc, &design, &plan)?, costs);
    }
    Ok(())
}
