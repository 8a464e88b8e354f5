//! Of what each name is, which is looked up once for each pin.

ghost use Rattle.std.specs.Prelude.{◌≡◌, ◌+◌, ◌<◌, ◌^◌, List, ℕ, [], ◌∷◌, IfOk, OnOk, Option, Some};
ghost use Rattle.std.specs.Prelude.{unwrap_or, length};
ghost use Rattle.sf_parts.specs.Admitted.{block_names, pad_names};
ghost use Rattle.sf_parts.specs.declared.raw.RawBlock.{RawBlock};
ghost use Rattle.sf_parts.specs.declared.raw.RawPad.{RawPad};
ghost use Rattle.sf_parts.specs.declared.raw.RawPin.TheVariants.{Named};
ghost use Rattle.sf_gsrc.specs.Join.{numbered_pin};
ghost use Rattle.sf_gsrc.specs.Owners.{AreOwners, AreOwnersFrom, owner_of};

use crate::by_name::hash_parts;
use sf_model::Name;
use sf_names::NameMap;
use sf_parts::{RawBlock, RawPad, RawPin};
use std::alloc::{AllocError, Global};

/// Of what a name is: of a block, of a pad, or of both. Of several blocks or pads the first counts.
#[derive(Clone, Copy)]
pub enum Owner {
    Block(u32),
    Pad(u32),
    Both,
}

/// The owner of a name that is also of this pad, before those that have it.
fn beside(old: Option<Owner>, pad: u32) -> Owner
    ensures { (block other : Option ℕ) → old ≡ owner_of block other
        → Some result ≡ owner_of block (Some pad) }
{
    match old {
        Some(Owner::Block(_) | Owner::Both) => Owner::Both,
        Some(Owner::Pad(_)) | None => Owner::Pad(pad),
    }
}

/// The owner of each name of a block or a pad.
#[derive(Drop)]
pub struct Owners<'a> {
    by_name: NameMap<'a, Owner>,
}

impl<'a> Owners<'a> {
    /// Goes from the last block and the last pad to the first, so that the first of a name is kept.
    pub fn new(
        alloc: Global,
        blocks: &'a [RawBlock],
        pads: &'a [RawPad],
    ) -> Result<Owners<'a>, AllocError>
        requires few_blocks { length blocks.now < 2 ^ 32 }
        requires few_pads { length pads.now < 2 ^ 32 }
        ensures { IfOk result (λ owners. AreOwners owners (block_names blocks.now) (pad_names pads.now)) }
    {
        let most = blocks.len().saturating_add(pads.len());
        let mut owners = Owners {
            by_name: NameMap::new(alloc, hash_parts(blocks, pads), most),
        };
        owners.put_blocks(blocks)?;
        owners.put_pads(pads)?;
        Ok(owners)
    }

    /// Puts all blocks, from the last to the first.
    fn put_blocks(&mut self, blocks: &'a [RawBlock]) -> Result<(), AllocError>
        requires { length blocks.now < 2 ^ 32 }
        ensures { OnOk result (AreOwners self.old [] [] → AreOwners self.new (block_names blocks.now) []) }
    {
        for i in (0..blocks.len()).rev() {
            self.put_block(&blocks[i].name, i as u32)?;
        }
        Ok(())
    }

    /// Puts all pads, from the last to the first.
    fn put_pads(&mut self, pads: &'a [RawPad]) -> Result<(), AllocError>
        requires { length pads.now < 2 ^ 32 }
        ensures { OnOk result ((blocks : List (List ℕ)) → AreOwners self.old blocks []
            → AreOwners self.new blocks (pad_names pads.now)) }
    {
        for i in (0..pads.len()).rev() {
            self.put_pad(&pads[i].name, i as u32)?;
        }
        Ok(())
    }

    /// Puts a block before those that stand there.
    fn put_block(&mut self, name: &'a Name, block: u32) -> Result<(), AllocError>
        ensures { OnOk result ((blocks : List (List ℕ))
            → AreOwnersFrom self.old (block + 1) blocks 0 []
            → AreOwnersFrom self.new block (name.now ∷ blocks) 0 []) }
    {
        self.by_name.insert(name.as_bytes(), Owner::Block(block))?;
        Ok(())
    }

    /// Puts a pad before those that stand there.
    fn put_pad(&mut self, name: &'a Name, pad: u32) -> Result<(), AllocError>
        ensures { OnOk result ((blocks pads : List (List ℕ))
            → AreOwnersFrom self.old 0 blocks (pad + 1) pads
            → AreOwnersFrom self.new 0 blocks pad (name.now ∷ pads)) }
    {
        let owner = beside(self.by_name.get(name.as_bytes()), pad);
        self.by_name.insert(name.as_bytes(), owner)?;
        Ok(())
    }

    /// The number of a name's block or pad, where it is of one of them and not of both.
    fn number_of(&self, name: &Name) -> Option<RawPin>
        ensures { (blocks : List RawBlock) (pads : List RawPad)
            → AreOwners self.now (block_names blocks) (pad_names pads)
            → numbered_pin blocks pads (Named name.now) ≡ unwrap_or result (Named name.now) }
    {
        match self.by_name.get(name.as_bytes()) {
            Some(Owner::Block(block)) => Some(RawPin::Block(block)),
            Some(Owner::Pad(pad)) => Some(RawPin::Pad(pad)),
            Some(Owner::Both) => None,
            None => None,
        }
    }

    /// Puts a pin's number in the place of its name, where it has one.
    pub fn number(&self, pin: &mut RawPin)
        ensures { (blocks : List RawBlock) (pads : List RawPad)
            → AreOwners self.now (block_names blocks) (pad_names pads)
            → pin.new ≡ numbered_pin blocks pads pin.old }
    {
        if let RawPin::Named(name) = pin
            && let Some(number) = self.number_of(name)
        {
            *pin = number;
        }
    }
}
