//! The shape curves of the parts of an expression, kept from one expression to the next, and its cost.

ghost use Rattle.std.specs.Prelude.{◌≡◌, ℕ, ◌+◌, ◌*◌, ◌<◌, [], length, slice_index_or, false, IfOk, OnOk};
ghost use Rattle.sf_model.specs.Legal.{block_count};
ghost use Rattle.sf_polish.specs.Normal.{IsNormal};
ghost use Rattle.sf_anneal.specs.Measured.{whole_spans, IsCost};
ghost use Rattle.sf_anneal.specs.Parts.{AreBlockCurves, AreKnown, AreMoved, HaveRoom, IsBlockCurve};
ghost use Rattle.sf_anneal.specs.Parts.{before_in, chosen_curve, kept_in};

use crate::parts::{Moved, Parts};
use sf_curves::{Curve, area, block_curve};
use sf_model::{Design, MAX, Spot};
use sf_polish::Token;
use sf_wire::wire;
use std::alloc::{AllocError as NoMemory, Global};
use std::mem;

/// The parts of the present expression and of a moved one, and the curves of all blocks.
#[derive(Drop)]
pub struct Kept {
    pub blocks: Vec<Curve>,
    pub known: Parts,
    pub moved: Moved,
}

impl Kept {
    /// Room for the parts of expressions of all blocks.
    pub fn new(alloc: Global, design: &Design, spans: &[(u16, u16)]) -> Result<Kept, NoMemory>
        requires { spans.now ≡ whole_spans design.now }
        ensures blocks { IfOk result (λ kept. length kept.blocks.items ≡ block_count design.now) }
        ensures curves { IfOk result (λ kept. AreBlockCurves design.now kept.blocks.items) }
        ensures known { IfOk result (λ kept. AreKnown design.now kept.blocks.items kept.known []) }
        ensures room { IfOk result (λ kept. HaveRoom (2 * block_count design.now) kept.known kept.moved) }
    {
        let parts = 2 * usize::from(design.block_count());
        Ok(Kept {
            blocks: block_curves(alloc, design, spans)?,
            known: Parts {
                before: vec![in alloc; 0; parts]?,
                curves: empty_curves(alloc, design, parts)?,
            },
            moved: Moved {
                before: vec![in alloc; 0; parts]?,
                curves: empty_curves(alloc, design, parts)?,
                fresh: vec![in alloc; false; parts]?,
                list: Vec::new(alloc),
            },
        })
    }

    /// What the moved expression costs.
    fn cost(&self, design: &Design, tokens: &[Token], spots: &mut [Spot]) -> u64
        requires normal { IsNormal (block_count design.now) tokens.now }
        requires blocks { length self.now.blocks.items ≡ block_count design.now }
        requires spots { length spots.old ≡ block_count design.now }
        requires room { HaveRoom (length tokens.now + 1) self.now.known self.now.moved }
        requires moved { AreMoved design.now self.now.blocks.items self.now.known self.now.moved tokens.now }
        requires whole { before_in self.now.moved.before.items (length tokens.now) ≡ 0 }
        ensures { IsCost design.now tokens.now result }
    {
        let Some(size) = self.curve(tokens, tokens.len()).least_area() else {
            return MAX;
        };
        let rooms = u64::from(design.weights.area) * area(size);
        if design.weights.wire == 0 {
            return rooms;
        }
        self.place(tokens, tokens.len(), size, 0, 0, spots);
        rooms + u64::from(design.weights.wire) * wire(design, spots)
    }

    /// Finds the parts of a moved expression, and what it costs.
    pub fn cost_of_moved(
        &mut self,
        design: &Design,
        known: &[Token],
        tokens: &[Token],
        spots: &mut [Spot],
    ) -> Result<u64, NoMemory>
        requires normal { IsNormal (block_count design.now) tokens.now }
        requires blocks { length self.old.blocks.items ≡ block_count design.now }
        requires curves { AreBlockCurves design.now self.old.blocks.items }
        requires spots { length spots.old ≡ block_count design.now }
        requires room { HaveRoom (2 * block_count design.now) self.old.known self.old.moved }
        requires known { AreKnown design.now self.old.blocks.items self.old.known known.now }
        ensures cost { IfOk result (IsCost design.now tokens.now) }
        ensures moved { OnOk result
            (AreMoved design.now self.old.blocks.items self.old.known self.new.moved tokens.now) }
        ensures room { OnOk result (HaveRoom (2 * block_count design.now) self.old.known self.new.moved) }
        ensures blocks { self.new.blocks ≡ self.old.blocks }
        ensures known { self.new.known ≡ self.old.known }
    {
        self.moved
            .renew(design, &self.blocks, known, &self.known, tokens)?;
        Ok(self.cost(design, tokens, spots))
    }

    /// Takes the parts of the moved expression for those of the present one.
    pub fn keep(&mut self)
        requires { HaveRoom (length self.old.known.before.items) self.old.known self.old.moved }
        ensures room { HaveRoom (length self.old.known.before.items) self.new.known self.new.moved }
        ensures blocks { self.new.blocks ≡ self.old.blocks }
        ensures before { self.new.known.before.items ≡ self.old.moved.before.items }
        ensures curves { (k : ℕ) → k < length self.old.known.before.items → kept_in self.new.known.curves.items k
            ≡ chosen_curve self.old.known self.old.moved (slice_index_or self.old.moved.fresh.items k false) k }
    {
        self.known.before.copy_from_slice(&self.moved.before);
        for part in 0..self.moved.fresh.len() {
            if self.moved.fresh[part] {
                mem::swap(&mut self.known.curves[part], &mut self.moved.curves[part]);
            }
        }
    }
}

/// The curve of a block.
fn own_curve(
    alloc: Global,
    design: &Design,
    spans: &[(u16, u16)],
    block: u16,
) -> Result<Curve, NoMemory>
    requires whole { spans.now ≡ whole_spans design.now }
    requires inside { block < block_count design.now }
    ensures { IfOk result (IsBlockCurve design.now block) }
{
    block_curve(alloc, design, spans, block)
}

/// The curves of all blocks.
fn block_curves(
    alloc: Global,
    design: &Design,
    spans: &[(u16, u16)],
) -> Result<Vec<Curve>, NoMemory>
    requires { spans.now ≡ whole_spans design.now }
    ensures all { IfOk result (λ curves. length curves.items ≡ block_count design.now) }
    ensures each { IfOk result (λ curves. AreBlockCurves design.now curves.items) }
{
    let mut curves = Vec::new(alloc);
    for block in 0..design.block_count() {
        curves.push(own_curve(alloc, design, spans, block)?)?;
    }
    Ok(curves)
}

/// So many curves without points.
fn empty_curves(alloc: Global, design: &Design, count: usize) -> Result<Vec<Curve>, NoMemory>
    ensures { IfOk result (λ curves. length curves.items ≡ count) }
{
    let mut curves = Vec::new(alloc);
    for _part in 0..count {
        curves.push(Curve::of_shapes_in(Vec::new(alloc), &[], design.outline)?)?;
    }
    Ok(curves)
}
