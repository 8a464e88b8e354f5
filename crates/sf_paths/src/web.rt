//! The pins of nets as places that paths go by.

use sf_model::{Design, Net, Pin};
use std::alloc::{AllocError, Global};

/// A pin of a net.
#[derive(Clone, Copy)]
pub struct Hook {
    pub net: u32,
    pub pin: Pin,
}

/// The hooks of all nets, and the numbers of those of each net, of each block and of each pad.
#[derive(Drop)]
pub struct Web {
    hooks: Vec<Hook>,
    of_nets: Vec<Vec<usize>>,
    of_blocks: Vec<Vec<usize>>,
    of_pads: Vec<Vec<usize>>,
}

/// So many empty lists.
fn lists(alloc: Global, count: usize) -> Result<Vec<Vec<usize>>, AllocError> {
    let mut lists = Vec::with_capacity(alloc, count)?;
    for _ in 0..count {
        lists.push(Vec::new(alloc))?;
    }
    Ok(lists)
}

/// One number more in a list.
fn add(lists: &mut [Vec<usize>], at: usize, number: usize) -> Result<(), AllocError> {
    if let Some(list) = lists.get_mut(at) {
        list.push(number)?;
    }
    Ok(())
}

/// One of the lists.
fn list_at(lists: &[Vec<usize>], at: usize) -> Option<&[usize]> {
    match lists.get(at) {
        Some(list) => Some(list.as_slice()),
        None => None,
    }
}

impl Web {
    /// The hooks of a design.
    pub fn new(alloc: Global, design: &Design) -> Result<Web, AllocError> {
        let nets = design.nets.as_slice();
        let mut web = Web {
            hooks: Vec::new(alloc),
            of_nets: lists(alloc, nets.len())?,
            of_blocks: lists(alloc, design.blocks.as_slice().len())?,
            of_pads: lists(alloc, design.pads.as_slice().len())?,
        };
        let mut number: u32 = 0;
        for net in nets {
            web.add_net(number, net)?;
            number = number.wrapping_add(1);
        }
        Ok(web)
    }

    /// The hooks of one net more.
    fn add_net(&mut self, number: u32, net: &Net) -> Result<(), AllocError> {
        for pin in net.pins.as_slice() {
            let hook = self.hooks.len();
            self.hooks.push(Hook {
                net: number,
                pin: *pin,
            })?;
            add(&mut self.of_nets, number as usize, hook)?;
            match *pin {
                Pin::Block(block) => add(&mut self.of_blocks, usize::from(block), hook)?,
                Pin::Pad(pad) => add(&mut self.of_pads, usize::from(pad), hook)?,
            }
        }
        Ok(())
    }

    /// How many hooks there are.
    pub fn hook_count(&self) -> usize {
        self.hooks.len()
    }

    /// How many nets there are.
    pub fn net_count(&self) -> usize {
        self.of_nets.len()
    }

    /// How many blocks there are.
    pub fn block_count(&self) -> usize {
        self.of_blocks.len()
    }

    /// How many pads there are.
    pub fn pad_count(&self) -> usize {
        self.of_pads.len()
    }

    /// The hook of a number.
    pub fn hook(&self, number: usize) -> Option<Hook> {
        match self.hooks.get(number) {
            Some(hook) => Some(*hook),
            None => None,
        }
    }

    /// The hooks of a net.
    pub fn of_net(&self, net: u32) -> Option<&[usize]> {
        list_at(&self.of_nets, net as usize)
    }

    /// The hooks of a pin.
    pub fn of_pin(&self, pin: Pin) -> Option<&[usize]> {
        match pin {
            Pin::Block(block) => list_at(&self.of_blocks, usize::from(block)),
            Pin::Pad(pad) => list_at(&self.of_pads, usize::from(pad)),
        }
    }
}
