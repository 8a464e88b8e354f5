//! Blocks, nets, pads, spots and designs, worked out by hand.

ghost use Rattle.std.specs.Prelude.{◌≡◌, ◌∷◌, [], IfOk};
ghost use Rattle.sf_model.specs.Legal.{block_count, shapes_of};
ghost use Rattle.sf_model.specs.Limits.{IsSide, IsWithinLimits};

use sf_model::{
    Block, BlockList, Design, Name, Net, NetList, Outline, Pad, PadList, Pin, Pins, Shape, Shapes,
    Spot, Weights,
};
use std::alloc::{AllocError, Global};

/// An outline in which all designs by hand fit.
pub const WIDE: Outline = Outline { w: 100, h: 100 };

/// The largest outline.
pub const WIDEST: Outline = Outline {
    w: 1_048_576,
    h: 1_048_576,
};

/// A shape that stands.
pub const NARROW: Shape = Shape { w: 2, h: 3 };

/// The same, turned.
pub const FLAT: Shape = Shape { w: 3, h: 2 };

/// A square.
pub const SQUARE: Shape = Shape { w: 2, h: 2 };

/// A block of these shapes.
pub fn block_of(alloc: Global, shapes: Vec<Shape>) -> Result<Block, AllocError>
    ensures { IfOk result (λ b. b.shapes ≡ shapes.items) }
{
    Ok(Block {
        name: Name::new(alloc, b"b")?,
        shapes: Shapes::from_vec(shapes),
    })
}

/// A block of one shape.
pub fn block(alloc: Global, shape: Shape) -> Result<Block, AllocError>
    ensures { IfOk result (λ b. b.shapes ≡ shape ∷ []) }
{
    block_of(alloc, vec![in alloc; shape]?)
}

/// A pad at this place.
pub fn pad(alloc: Global, x: i32, y: i32) -> Result<Pad, AllocError>
    ensures x { IfOk result (λ p. p.x ≡ x) }
    ensures y { IfOk result (λ p. p.y ≡ y) }
{
    Ok(Pad {
        name: Name::new(alloc, b"p")?,
        x,
        y,
    })
}

/// A net of two pins.
pub fn net(alloc: Global, first: Pin, second: Pin, weight: u8) -> Result<Net, AllocError>
    ensures pins { IfOk result (λ n. n.pins ≡ first ∷ second ∷ []) }
    ensures weight { IfOk result (λ n. n.weight ≡ weight) }
{
    Ok(Net {
        pins: Pins::from_vec(vec![in alloc; first, second]?),
        weight,
    })
}

/// A block in this shape, with its lower left corner here.
pub fn spot(block: u16, x: i64, y: i64, shape: Shape) -> Spot
    ensures { result ≡ record { block = block; x = x; y = y; w = shape.w; h = shape.h } }
{
    Spot {
        block,
        x,
        y,
        w: shape.w,
        h: shape.h,
    }
}

/// A design of these blocks without pads and nets, whose areas count once and whose wires as often as this.
pub fn bare(
    alloc: Global,
    blocks: Vec<Block>,
    outline: Outline,
    wire: u16,
) -> Result<Design, AllocError>
    requires { IsWithinLimits blocks.items [] [] outline (record { area = 1; wire = wire }) }
    ensures { IfOk result (λ design. design.blocks ≡ blocks.items) }
{
    Design::new(
        alloc,
        BlockList::from_vec(blocks),
        PadList::from_vec(Vec::new(alloc)),
        NetList::from_vec(Vec::new(alloc)),
        outline,
        Weights { area: 1, wire },
    )
}

/// A block 2x3 and a block 3x2, area alone.
pub fn two_blocks(alloc: Global, outline: Outline) -> Result<Design, AllocError>
    requires width { IsSide outline.w }
    requires height { IsSide outline.h }
    ensures count { IfOk result (λ design. block_count design ≡ 2) }
    ensures first { IfOk result (λ design. shapes_of design 0 ≡ NARROW ∷ []) }
    ensures second { IfOk result (λ design. shapes_of design 1 ≡ FLAT ∷ []) }
{
    let first = block(alloc, NARROW)?;
    let second = block(alloc, FLAT)?;
    bare(alloc, vec![in alloc; first, second]?, outline, 0)
}

/// Two blocks 2x2 and a net of both of this weight.
pub fn two_squares(alloc: Global, weight: u8) -> Result<Design, AllocError>
    ensures { IfOk result (λ design. block_count design ≡ 2) }
{
    let blocks = vec![in alloc; block(alloc, SQUARE)?, block(alloc, SQUARE)?]?;
    let both = net(alloc, Pin::Block(0), Pin::Block(1), weight)?;
    Design::new(
        alloc,
        BlockList::from_vec(blocks),
        PadList::from_vec(Vec::new(alloc)),
        NetList::from_vec(vec![in alloc; both]?),
        WIDE,
        Weights { area: 1, wire: 1 },
    )
}

/// One block in three shapes, a pad, and a net of both, with wire weight 10.
pub fn three_shapes(alloc: Global) -> Result<Design, AllocError>
    ensures { IfOk result (λ design. block_count design ≡ 1) }
{
    let shapes = vec![in alloc; Shape { w: 1, h: 4 }, SQUARE, FLAT]?;
    let block = block_of(alloc, shapes)?;
    let pad = pad(alloc, 10, 0)?;
    let net = net(alloc, Pin::Block(0), Pin::Pad(0), 1)?;
    Design::new(
        alloc,
        BlockList::from_vec(vec![in alloc; block]?),
        PadList::from_vec(vec![in alloc; pad]?),
        NetList::from_vec(vec![in alloc; net]?),
        WIDE,
        Weights { area: 1, wire: 10 },
    )
}
