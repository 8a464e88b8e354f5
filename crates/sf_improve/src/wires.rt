//! The wires of a plan between the centres of its blocks, kept from one plan to the next.

use crate::nets::{Group, Pair, pins_of};
use crate::rooms::Centre;
use sf_model::Design;
use std::alloc::{AllocError as NoMemory, Global};

/// All nets, those of each block by number, groups behind pairs, and how long they are together: those without
/// blocks, all of them, and what that was when it was kept last.
#[derive(Drop)]
pub struct Wires {
    pairs: Vec<Pair>,
    groups: Vec<Group>,
    fixed: u64,
    total: u64,
    old_total: u64,
    of_blocks: Vec<Vec<usize>>,
    marks: Vec<u32>,
    mark: u32,
}

impl Wires {
    /// The nets of a design between centres.
    pub fn new(alloc: Global, design: &Design, centres: &[Centre]) -> Result<Wires, NoMemory> {
        let mut wires = Wires {
            pairs: Vec::new(alloc),
            groups: Vec::new(alloc),
            fixed: 0,
            total: 0,
            old_total: 0,
            of_blocks: Vec::new(alloc),
            marks: Vec::new(alloc),
            mark: 0,
        };
        wires.take_nets(alloc, design)?;
        wires.list_nets(alloc, design.block_count())?;
        wires.measure_all(centres);
        wires.keep();
        Ok(wires)
    }

    /// Takes the nets of a design.
    fn take_nets(&mut self, alloc: Global, design: &Design) -> Result<(), NoMemory> {
        for net in design.nets.as_slice() {
            let (blocks, pads) = pins_of(alloc, design, net)?;
            let weight = u64::from(net.weight);
            let Some(one) = blocks.first().copied() else {
                if !pads.is_none() {
                    let length = pads.half_perimeter().wrapping_mul(weight);
                    self.fixed = self.fixed.wrapping_add(length);
                }
                continue;
            };
            let other = blocks.get(1).copied().unwrap_or(one);
            if blocks.len() == 2 && pads.is_none() {
                self.pairs.push(Pair { one, other, weight })?;
                continue;
            }
            let mut others = Vec::new(alloc);
            for block in blocks.iter().skip(2) {
                others.push(*block)?;
            }
            self.groups.push(Group {
                one,
                other,
                others,
                pads,
                weight,
            })?;
        }
        Ok(())
    }

    /// Lists the nets of each block.
    fn list_nets(&mut self, alloc: Global, blocks: u16) -> Result<(), NoMemory> {
        for _block in 0..blocks {
            self.of_blocks.push(Vec::new(alloc))?;
        }
        for pair in &self.pairs {
            let net = self.marks.len();
            self.marks.push(0)?;
            note(&mut self.of_blocks, pair.one, net)?;
            note(&mut self.of_blocks, pair.other, net)?;
        }
        for group in &self.groups {
            let net = self.marks.len();
            self.marks.push(0)?;
            note(&mut self.of_blocks, group.one, net)?;
            note(&mut self.of_blocks, group.other, net)?;
            for block in &group.others {
                note(&mut self.of_blocks, *block, net)?;
            }
        }
        Ok(())
    }

    /// How long all wires are.
    pub fn total(&self) -> u64 {
        self.total
    }

    /// Measures the nets of moved blocks anew, or all where many moved.
    pub fn renew_moved(&mut self, old: &[Centre], centres: &[Centre], moved: &[u16]) {
        if moved.len() < centres.len() / 4 {
            self.measure_moved(old, centres, moved);
        } else {
            self.measure_all(centres);
        }
    }

    /// Measures all nets.
    fn measure_all(&mut self, centres: &[Centre]) {
        let mut total = self.fixed;
        for pair in &self.pairs {
            total = total.wrapping_add(pair.length(centres));
        }
        for group in &self.groups {
            total = total.wrapping_add(group.length(centres));
        }
        self.total = total;
    }

    /// Measures the nets of moved blocks, each once, between their old centres and between the present ones.
    fn measure_moved(&mut self, old: &[Centre], centres: &[Centre], moved: &[u16]) {
        self.mark = self.mark.wrapping_add(1);
        for block in moved {
            let Some(nets) = self.of_blocks.get(usize::from(*block)) else {
                continue;
            };
            for net in nets {
                let Some(mark) = self.marks.get_mut(*net) else {
                    continue;
                };
                if *mark == self.mark {
                    continue;
                }
                *mark = self.mark;
                if let Some(pair) = self.pairs.get(*net) {
                    let without = self.total.wrapping_sub(pair.length(old));
                    self.total = without.wrapping_add(pair.length(centres));
                } else if let Some(group) = self.groups.get(net.wrapping_sub(self.pairs.len())) {
                    let without = self.total.wrapping_sub(group.length(old));
                    self.total = without.wrapping_add(group.length(centres));
                }
            }
        }
    }

    /// Lets all stand as it is now.
    pub fn keep(&mut self) {
        self.old_total = self.total;
    }

    /// Makes all what it was when it was kept last.
    pub fn restore(&mut self) {
        self.total = self.old_total;
    }
}

/// Adds a net to those of a block.
fn note(of_blocks: &mut Vec<Vec<usize>>, block: u16, net: usize) -> Result<(), NoMemory> {
    if let Some(nets) = of_blocks.get_mut(usize::from(block)) {
        nets.push(net)?;
    }
    Ok(())
}
