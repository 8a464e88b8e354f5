//! What a design consists of: blocks, pads, nets, outline and weights.

use crate::items::Items;
use crate::name::Name;

/// The sides of a block, or of a room for blocks, in scaled whole units.
#[derive(Clone, Copy, Debug, PartialEq, Eq)]
pub struct Shape {
    pub w: u32,
    pub h: u32,
}

/// The shapes of a block.
pub type Shapes = Items<Shape>;

/// A block and the shapes that it may take, by width, then height.
#[derive(Drop)]
pub struct Block {
    pub name: Name,
    pub shapes: Shapes,
}

/// The blocks of a design, by number.
pub type BlockList = Items<Block>;

/// A point at which wires end, in scaled whole units. It takes no room.
#[derive(Drop)]
pub struct Pad {
    pub name: Name,
    pub x: i32,
    pub y: i32,
}

/// The pads of a design, by number.
pub type PadList = Items<Pad>;

/// A block or a pad by its number.
#[derive(Clone, Copy, Debug, PartialEq, Eq)]
pub enum Pin {
    Block(u16),
    Pad(u16),
}

/// The pins of a net.
pub type Pins = Items<Pin>;

/// A set of pins, blocks before pads and each by number, and how often its wire counts.
#[derive(Drop)]
pub struct Net {
    pub pins: Pins,
    pub weight: u8,
}

/// The nets of a design, by number.
pub type NetList = Items<Net>;

/// The rectangle that floorplans are to fit, with its lower left corner at (0, 0), in scaled whole units.
#[derive(Clone, Copy)]
pub struct Outline {
    pub w: u32,
    pub h: u32,
}

/// How often the area counts, in squares of scaled whole units, and how often the wires of all nets count,
/// in doubled scaled whole units.
#[derive(Clone, Copy)]
pub struct Weights {
    pub area: u16,
    pub wire: u16,
}
