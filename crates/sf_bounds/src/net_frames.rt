//! The frames of nets along the path that was measured last.

ghost use Rattle.std.specs.Prelude.{◌≡◌, length, is_some, true, IfOk, IfSome, OnOk};
ghost use Rattle.sf_model.specs.declared.design.Design.{Design as DesignValue};
ghost use Rattle.sf_node.specs.declared.part.Part.TheVariants.{Range, Pair};
ghost use Rattle.sf_node.specs.Children.{IsSubproblem};
ghost use Rattle.sf_standard.specs.Standard.{wires_by};
ghost use Rattle.sf_nets.specs.WireParts.{AreWireParts};
ghost use Rattle.sf_bounds.specs.Rows.{AreKeptOrNone, AreFirst, IsEnding, framed, changed};

use crate::net_back::back_to;
use crate::net_frame::{Changing, Ending, Nets};
use crate::net_push::extend;
use crate::net_start::start;
use crate::net_total::{ending_of, framed, steady_sums, total_by, total_parts};
use sf_model::Design;
use sf_nets::{Scratch, WireParts};
use sf_node::{Node, Part};
use std::alloc::AllocError as NoMemory;
use std::marker::Model;

/// How many cells are kept at most.
const MOST_CELLS: usize = 1_000_000;

/// What the nets take along the path that was measured last. A contract sees what is kept, which is of one
/// design (`AreKeptOrNone`).
#[derive(Drop)]
pub struct NetFrames {
    kept: Option<Nets>,
}

impl Model for NetFrames {
    ghost use Rattle.std.specs.Prelude.{Option};
    ghost use Rattle.sf_bounds.specs.declared.net_frame.Nets.{Nets};

    ghost Value = { Option Nets };

    ghost view = { λ s. s.kept };
}

/// Makes what holds before any token, which is done once for a design. It stands apart from what is done at
/// each subproblem.
#[inline(never)]
fn begin(kept: &mut Option<Nets>, scratch: &mut Scratch, design: &Design) -> Result<(), NoMemory>
    requires kept { AreKeptOrNone design.now kept.old }
    ensures kept { AreKeptOrNone design.now kept.new }
    ensures some { OnOk result (is_some kept.new ≡ true) }
{
    let nets = start(scratch, design)?;
    *kept = Some(nets);
    Ok(())
}

/// Makes what holds before any token, where it is not there yet. The answer is no where the rows of a path
/// may need too many cells: a row for each block, one for each operator, and one before any token.
#[inline(always)]
fn fill(kept: &mut Option<Nets>, scratch: &mut Scratch, design: &Design) -> Result<bool, NoMemory>
    requires kept { AreKeptOrNone design.now kept.old }
    ensures kept { AreKeptOrNone design.now kept.new }
    ensures some { IfOk result (λ fits. fits ≡ true → is_some kept.new ≡ true) }
{
    if design.nets.as_slice().len() * (2 * usize::from(design.block_count())) > MOST_CELLS {
        return Ok(false);
    }
    if kept.is_none() {
        begin(kept, scratch, design)?;
    }
    Ok(true)
}

/// Makes the frames that a path needs. The answer is how its tokens end; none where its rows may need too
/// many cells, or one block is all there is.
#[inline(always)]
fn follow(
    kept: &mut Option<Nets>,
    scratch: &mut Scratch,
    design: &Design,
    node: &Node,
) -> Result<Option<Ending>, NoMemory>
    requires subproblem { IsSubproblem design.now node.now }
    requires kept { AreKeptOrNone design.now kept.old }
    ensures kept { AreKeptOrNone design.now kept.new }
    ensures ending { IfOk result (λ found. IfSome found (IsEnding node.now)) }
    ensures all { IfOk result (λ found. IfSome found (λ ending.
        AreFirst design.now node.now.tokens (framed ending node.now.tokens) kept.new)) }
{
    let Some(ending) = ending_of(node) else {
        return Ok(None);
    };
    if !fill(kept, scratch, design)? {
        return Ok(None);
    }
    let Some(nets) = kept else { unreachable!() };
    let count = framed(ending, node);
    back_to(nets, design, node.tokens(), count);
    extend(nets, design, node, count)?;
    Ok(Some(ending))
}

impl NetFrames {
    /// No frame yet, so that they are of any design.
    pub fn new() -> NetFrames
        ensures { (design : DesignValue) → AreKeptOrNone design result }
    {
        NetFrames { kept: None }
    }

    /// What the wires of a subproblem take at least by each part of the bound. Or none, where a span is not
    /// whole, the rows of a path may need too many cells, or one block is all there is.
    pub fn measure(
        &mut self,
        scratch: &mut Scratch,
        design: &Design,
        node: &Node,
    ) -> Result<Option<WireParts>, NoMemory>
        requires subproblem { IsSubproblem design.now node.now }
        requires kept { AreKeptOrNone design.now self.old }
        ensures measured { IfOk result (λ found. IfSome found (AreWireParts design.now node.now)) }
        ensures kept { AreKeptOrNone design.now self.new }
    {
        if node.steps().len() != node.tokens().len() {
            return Ok(None);
        }
        let Some(ending) = follow(&mut self.kept, scratch, design, node)? else {
            return Ok(None);
        };
        let Some(nets) = &self.kept else {
            unreachable!()
        };
        Ok(Some(total_parts(nets, design, node, ending)))
    }

    /// The sums of the ranges and of the pairs, for which no frame is needed.
    fn measure_steady(
        &mut self,
        scratch: &mut Scratch,
        design: &Design,
        node: &Node,
    ) -> Result<Option<(u64, u64)>, NoMemory>
        requires subproblem { IsSubproblem design.now node.now }
        requires kept { AreKeptOrNone design.now self.old }
        requires whole { length node.now.steps ≡ length node.now.tokens }
        ensures range { IfOk result (λ found. IfSome found (λ sums.
            sums.0 ≡ wires_by design.now node.now Range)) }
        ensures pair { IfOk result (λ found. IfSome found (λ sums.
            sums.1 ≡ wires_by design.now node.now Pair)) }
        ensures kept { AreKeptOrNone design.now self.new }
    {
        if !fill(&mut self.kept, scratch, design)? {
            return Ok(None);
        }
        let Some(nets) = &self.kept else {
            unreachable!()
        };
        Ok(Some(steady_sums(nets, design, node)))
    }

    /// The sum of a part that tokens change.
    #[inline(always)]
    fn measure_changing(
        &mut self,
        scratch: &mut Scratch,
        design: &Design,
        node: &Node,
        part: Changing,
    ) -> Result<Option<u64>, NoMemory>
        requires subproblem { IsSubproblem design.now node.now }
        requires kept { AreKeptOrNone design.now self.old }
        requires whole { length node.now.steps ≡ length node.now.tokens }
        ensures measured { IfOk result (λ found. IfSome found (λ wires.
            wires ≡ wires_by design.now node.now (changed part))) }
        ensures kept { AreKeptOrNone design.now self.new }
    {
        let Some(ending) = follow(&mut self.kept, scratch, design, node)? else {
            return Ok(None);
        };
        let Some(nets) = &self.kept else {
            unreachable!()
        };
        Ok(Some(total_by(nets, design, node, ending, part)))
    }

    /// What the wires of a subproblem take at least by one part of the bound; none in the same cases.
    pub fn measure_part(
        &mut self,
        scratch: &mut Scratch,
        design: &Design,
        node: &Node,
        part: Part,
    ) -> Result<Option<u64>, NoMemory>
        requires subproblem { IsSubproblem design.now node.now }
        requires kept { AreKeptOrNone design.now self.old }
        ensures measured { IfOk result (λ found. IfSome found (λ wires.
            wires ≡ wires_by design.now node.now part)) }
        ensures kept { AreKeptOrNone design.now self.new }
    {
        if node.steps().len() != node.tokens().len() {
            return Ok(None);
        }
        match part {
            Part::Area => Ok(None),
            Part::Range => match self.measure_steady(scratch, design, node)? {
                Some((range, _)) => Ok(Some(range)),
                None => Ok(None),
            },
            Part::Pair => match self.measure_steady(scratch, design, node)? {
                Some((_, pair)) => Ok(Some(pair)),
                None => Ok(None),
            },
            Part::Hull => self.measure_changing(scratch, design, node, Changing::Hull),
            Part::Full => self.measure_changing(scratch, design, node, Changing::Full),
        }
    }
}
