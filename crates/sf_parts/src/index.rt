//! Parts whose pins are there, with the tables of their names.

ghost use Rattle.std.specs.Prelude.{◌≡◌, ◌<◌, length, IfOk, IfSome};
ghost use Rattle.std.proofs.Props.{props};
ghost use Rattle.sf_parts.specs.Admitted.{block_names, pad_names, is_block_name, is_pad_name, block_of};
ghost use Rattle.sf_parts.specs.Admitted.{pad_of, HasPinsInRange, IsAdmitted, IsPinInRange};
ghost use Rattle.sf_parts.specs.Props.{IsPinInRange-prop};
ghost use Rattle.sf_parts.specs.Table.{IsTableOf};

use crate::raw::{Parts, RawPin};
use crate::table::NameTable;
use sf_model::Name;
use std::alloc::{AllocError, Global};

/// Parts of which each pin that is given by an index is there.
#[derive(Clone, Copy)]
pub struct RangedParts<'a> {
    pub parts: &'a Parts,
    ghost pins: { HasPinsInRange parts.now } by { Prim.hlevel (props, IsPinInRange-prop) },
}

/// Such parts, and the tables of the names of their blocks and of their pads.
#[derive(Drop)]
pub struct Index<'a> {
    pub parts: &'a Parts,
    pub blocks: NameTable<'a>,
    pub pads: NameTable<'a>,
    ghost of_blocks: { IsTableOf blocks 0 (block_names parts.now.blocks) } by { Prim.hlevel props },
    ghost of_pads: { IsTableOf pads 0 (pad_names parts.now.pads) } by { Prim.hlevel props },
    ghost pins: { HasPinsInRange parts.now } by { Prim.hlevel (props, IsPinInRange-prop) },
}

/// The same of admitted parts.
#[derive(Drop)]
pub struct AdmittedIndex<'a> {
    pub index: Index<'a>,
    ghost admitted: { IsAdmitted index.parts.now } by { Prim.hlevel props },
}

impl<'a> Index<'a> {
    /// The parts with the tables of their names.
    pub fn new(alloc: Global, ranged: RangedParts<'a>) -> Result<Index<'a>, AllocError>
        ensures { IfOk result (λ index. index.parts.now ≡ ranged.entry.parts.now) }
    {
        let parts = ranged.parts;
        Ok(Index {
            parts,
            blocks: NameTable::of_blocks(alloc, parts.blocks.as_slice())?,
            pads: NameTable::of_pads(alloc, parts.pads.as_slice())?,
        })
    }

    /// Whether a block has the name.
    pub fn is_block(&self, name: &Name) -> bool
        ensures { result ≡ is_block_name self.now.parts.now name.now }
    {
        self.blocks.has(name)
    }

    /// Whether a pad has the name.
    pub fn is_pad(&self, name: &Name) -> bool
        ensures { result ≡ is_pad_name self.now.parts.now name.now }
    {
        self.pads.has(name)
    }

    /// The index of a pin's block, if it has one.
    pub fn block_of(&self, pin: &RawPin) -> Option<usize>
        requires { IsPinInRange (length self.now.parts.now.blocks) (length self.now.parts.now.pads) pin.now }
        ensures value { result ≡ block_of self.now.parts.now.blocks pin.now }
        ensures in_range { IfSome result (λ i. i < length self.now.parts.now.blocks) }
    {
        match pin {
            RawPin::Named(name) => self.blocks.place_of(name),
            RawPin::Block(b) => Some(*b as usize),
            RawPin::Pad(_) => None,
        }
    }

    /// The index of a pin's pad, if it has one.
    pub fn pad_of(&self, pin: &RawPin) -> Option<usize>
        requires { IsPinInRange (length self.now.parts.now.blocks) (length self.now.parts.now.pads) pin.now }
        ensures value { result ≡ pad_of self.now.parts.now.pads pin.now }
        ensures in_range { IfSome result (λ i. i < length self.now.parts.now.pads) }
    {
        match pin {
            RawPin::Named(name) => self.pads.place_of(name),
            RawPin::Block(_) => None,
            RawPin::Pad(p) => Some(*p as usize),
        }
    }
}
