//! The text of a certificate, fed to the checker in pieces.

ghost use Rattle.std.specs.Prelude.{◌++◌, ℕ, List, Err, IfErr, IfOk, OnOk};
ghost use Rattle.sf_cert_text.specs.Reading.{cert_read};
ghost use Rattle.sf_checker.specs.Feeding.{IsAnswerTo, IsFed};
ghost use Rattle.sf_model.specs.declared.design.Design.{Design as DesignValue};
ghost use Rattle.sf_model.specs.Legal.{block_count};
ghost use Rattle.sf_node.specs.declared.part.Part.{Part};
ghost use Rattle.sf_node.specs.Parts.{Parts};
ghost use Rattle.sf_program.specs.Checked.{cert_refusal};
ghost use Rattle.sf_designs.specs.Loads.{TellsNoLoad};
ghost use Rattle.sf_designs.specs.Outcome.{Stops};
ghost use Rattle.sf_designs.specs.Reading.{Judged};

use crate::answering::cert_fault;
use sf_bound::Bounds;
use sf_checker::{Answer, Checking, FinishFault};
use sf_designs::Stop;
use sf_model::Design;
use std::alloc::{AllocError as NoMemory, Global};

/// How many bytes of a text are checked at once.
const PIECE: usize = 65_536;

/// Feeds a text in pieces.
fn feed_text<B: Bounds>(checking: &mut Checking<'_, B>, text: &[u8]) -> Result<(), NoMemory>
    ensures { (design : DesignValue) (value : Parts → ℕ) (part : Parts → Part → ℕ) (fed : List ℕ) →
        let IsFedSo = IsFed B.Values.value B.part_value design value part in
        IsFedSo fed checking.old → OnOk result (IsFedSo (fed ++ text.now) checking.new) }
{
    let mut rest = text;
    while !rest.is_empty() {
        let (piece, after) = rest.split_at(rest.len().min(PIECE));
        checking.feed(piece)?;
        rest = after;
    }
    Ok(())
}

/// What the checker answers to the certificate that a text says, by these bounds.
pub fn judged_by<B: Bounds>(
    alloc: Global,
    text: &[u8],
    design: &Design,
    bounds: &B,
) -> Result<Answer, Stop>
    ensures answer { let value = B.Values.value bounds.now design.now in
        let part = B.part_value bounds.now design.now in
        IfOk result (IsAnswerTo design.now value part text.now) }
    ensures refused { IfErr result (λ stop.
        Stops stop (λ why. Judged (cert_read (block_count design.now) text.now) cert_refusal (Err why))) }
    ensures tells { TellsNoLoad result }
{
    let mut checking = Checking::new(alloc, design, bounds)?;
    feed_text(&mut checking, text)?;
    match checking.finish() {
        Ok(answer) => Ok(answer),
        Err(FinishFault::Text(fault)) => Err(cert_fault(alloc, fault)?),
        Err(FinishFault::NoMemory) => Err(Stop::NoMemory),
    }
}
