//! Pins by the numbers of their blocks and pads.

ghost use Rattle.std.specs.Prelude.{◌≡◌, List, IfOk, map};
ghost use Rattle.sf_parts.specs.Admitted.{block_names, pad_names};
ghost use Rattle.sf_parts.specs.declared.raw.RawBlock.{RawBlock};
ghost use Rattle.sf_parts.specs.declared.raw.RawPad.{RawPad};
ghost use Rattle.sf_gsrc.specs.Join.{numbered, numbered_net, numbered_nets, numbered_pin};
ghost use Rattle.sf_gsrc.specs.Owners.{AreOwners};

use crate::owners::Owners;
use sf_parts::{Parts, RawBlock, RawNet, RawNetList, RawPad, RawPin, RawPins};
use std::alloc::{AllocError, Global};

/// So many numbers there are.
const MANY: usize = 0x1_0000_0000;

/// Numbers the pins of a net.
fn number_pins(owners: &Owners<'_>, pins: &mut Vec<RawPin>)
    ensures { (blocks : List RawBlock) (pads : List RawPad)
        → AreOwners owners.now (block_names blocks) (pad_names pads)
        → pins.new.items ≡ map (numbered_pin blocks pads) pins.old.items }
{
    for pin in pins.iter_mut() {
        owners.number(pin);
    }
}

/// Numbers the pins of all nets.
fn number_nets(
    alloc: Global,
    owners: &Owners<'_>,
    nets: Vec<RawNet>,
) -> Result<Vec<RawNet>, AllocError>
    ensures { (blocks : List RawBlock) (pads : List RawPad)
        → AreOwners owners.now (block_names blocks) (pad_names pads)
        → IfOk result (λ all. all.items ≡ map (numbered_net blocks pads) nets.items) }
{
    let mut all = Vec::with_capacity(alloc, nets.len())?;
    for net in nets {
        let mut pins = net.pins.into_vec();
        number_pins(owners, &mut pins);
        all.push(RawNet {
            pins: RawPins::from_vec(pins),
        })?;
    }
    Ok(all)
}

/// The nets with numbered pins, unless there are more blocks or pads than a pin's number can tell apart.
fn numbered_list(
    alloc: Global,
    blocks: &[RawBlock],
    pads: &[RawPad],
    nets: RawNetList,
) -> Result<RawNetList, AllocError>
    ensures { IfOk result (λ list. list ≡ numbered_nets blocks.now pads.now nets) }
{
    if blocks.len() >= MANY || pads.len() >= MANY {
        return Ok(nets);
    }
    let owners = Owners::new(alloc, blocks, pads)?;
    let nets = number_nets(alloc, &owners, nets.into_vec())?;
    Ok(RawNetList::from_vec(nets))
}

/// Looks each pin's name up once, and hands it on as a number.
pub fn number(alloc: Global, parts: Parts) -> Result<Parts, AllocError>
    ensures { IfOk result (λ all. all ≡ numbered parts) }
{
    let Parts {
        blocks,
        pads,
        nets,
        strangers,
        pads_in,
    } = parts;
    let nets = numbered_list(alloc, blocks.as_slice(), pads.as_slice(), nets)?;
    Ok(Parts {
        blocks,
        pads,
        nets,
        strangers,
        pads_in,
    })
}
