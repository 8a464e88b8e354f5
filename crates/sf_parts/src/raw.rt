//! Blocks, pads and nets as they stand in a text.

use sf_model::{Items, Name};

/// What kind of block it is: a hard one by its sides, or a soft one by its area and the least and greatest
/// height over width, these two in millionths.
#[derive(Clone, Copy, Debug, PartialEq, Eq)]
pub enum Kind {
    Hard { w: u64, h: u64 },
    Soft { area: u64, min: u64, max: u64 },
}

/// A block, with its sides or its area in scaled whole units.
#[derive(Drop)]
pub struct RawBlock {
    pub name: Name,
    pub kind: Kind,
}

/// Blocks in the order of the text.
pub type RawBlockList = Items<RawBlock>;

/// A pad and its place in scaled whole units, where the text tells one.
#[derive(Drop)]
pub struct RawPad {
    pub name: Name,
    pub place: Option<(i64, i64)>,
}

/// Pads in the order of the text.
pub type RawPadList = Items<RawPad>;

/// A pin of a net: by name, or by the place of its block or pad.
#[derive(Drop)]
pub enum RawPin {
    Named(Name),
    Block(u32),
    Pad(u32),
}

/// The pins of a net in the order of the text.
pub type RawPins = Items<RawPin>;

/// The pins of a net as they are listed, with their repeats.
#[derive(Drop)]
pub struct RawNet {
    pub pins: RawPins,
}

/// Nets in the order of the text.
pub type RawNetList = Items<RawNet>;

/// Names in the order of the text.
pub type NameList = Items<Name>;

/// All that the texts of a design say. `strangers` are the placed names that no block and no pad has, and
/// `pads_in` is false where no text places the pads, which are then left out of all nets.
#[derive(Drop)]
pub struct Parts {
    pub blocks: RawBlockList,
    pub pads: RawPadList,
    pub nets: RawNetList,
    pub strangers: NameList,
    pub pads_in: bool,
}
