//! Checking a text that comes in pieces.

ghost use Rattle.std.specs.Prelude.{◌≡◌};
ghost use Rattle.sf_checker.specs.declared.pieces.FinishFault.TheVariants as fault;

use crate::answer::Answer;
use crate::stage::Stage;
use sf_bound::Bounds;
use sf_cert_text::{CertFault, Opening};
use sf_model::Design;
use std::alloc::{AllocError, Global};
use std::marker::Model;
use thiserror::Error;

/// Why a text has no answer.
#[derive(Clone, Copy, Debug, PartialEq, Eq, Error)]
pub enum FinishFault {
    #[error("the text is no certificate: {0}")]
    Text(CertFault),
    #[error("out of memory")]
    NoMemory,
}

impl From<AllocError> for FinishFault {
    ghost from_gives = { λ _ e. e ≡ fault.NoMemory };

    fn from(_e: AllocError) -> FinishFault {
        FinishFault::NoMemory
    }
}

/// A check of a certificate whose text comes in pieces, wherever they are cut. It keeps the header and one
/// path, which is never longer than the one to the deepest subproblem of its design.
#[derive(Drop)]
pub struct Checking<'a, B: Bounds> {
    design: &'a Design,
    bounds: &'a B,
    alloc: Global,
    room: B::Room,
    stage: Stage,
}

impl<'a, B: Bounds> Model for Checking<'a, B> {
    ghost use Rattle.sf_model.specs.declared.design.Design.{Design};
    ghost use Rattle.sf_checker.specs.declared.stage.Stage.{Stage};
    ghost use Rattle.sf_checker.specs.Stages.{IsBetween};

    ghost Value = { Design × B × Stage };

    ghost view = { λ c. (c.design.now, c.bounds.now, c.stage) };

    ghost invariant = { λ c. IsBetween c.design.now (B.Values.value c.bounds.now c.design.now) c.stage
        × B.serves c.room c.design.now };
}

impl<'a, B: Bounds> Checking<'a, B> {
    ghost use Rattle.std.specs.Prelude.{ℕ, List, [], ◌++◌, IfOk, OnOk, OnErr, IsErr, Err};
    ghost use Rattle.sf_model.specs.declared.design.Design.{Design as DesignValue};
    ghost use Rattle.sf_model.specs.Legal.{block_count};
    ghost use Rattle.sf_node.specs.declared.part.Part.{Part};
    ghost use Rattle.sf_node.specs.Parts.{Parts};
    ghost use Rattle.sf_cert_text.specs.declared.fault.CertFault.{CertFault as FaultValue};
    ghost use Rattle.sf_cert_text.specs.Reading.{cert_read};
    ghost use Rattle.sf_checker.specs.Feeding.{IsAnswerTo, IsFed, IsSpent, KeepsOneWay};

    /// Nothing is fed yet.
    pub fn new(
        alloc: Global,
        design: &'a Design,
        bounds: &'a B,
    ) -> Result<Checking<'a, B>, AllocError>
        ensures { let value = B.Values.value bounds.now design.now in
            let part = B.part_value bounds.now design.now in
            IfOk result (λ c. IsFed B.Values.value B.part_value design.now value part [] c) }
    {
        Ok(Checking {
            design,
            bounds,
            alloc,
            room: bounds.room(alloc),
            stage: Stage::Opening(Opening::new(alloc)),
        })
    }

    /// The text that is fed is longer by this piece. After want of memory each later call answers it again.
    pub fn feed(&mut self, piece: &[u8]) -> Result<(), AllocError>
        ensures fed { (design : DesignValue) (bound : Parts → ℕ) (part : Parts → Part → ℕ) (text : List ℕ)
            → IsFed B.Values.value B.part_value design bound part text self.old
            → OnOk result (IsFed B.Values.value B.part_value design bound part (text ++ piece.now) self.new) }
        ensures way { KeepsOneWay self.new }
        ensures spent { OnErr result (IsSpent self.new) }
        ensures stays { IsSpent self.old → IsErr result }
    {
        self.stage.feed(self.alloc, self.design, self.bounds, piece, &mut self.room)
    }

    /// The answer to the certificate that the fed text spells, or the first fault of the text, however it was
    /// cut.
    pub fn finish(self) -> Result<Answer, FinishFault>
        ensures answer { (design : DesignValue) (bound : Parts → ℕ) (part : Parts → Part → ℕ) (text : List ℕ)
            → IsFed B.Values.value B.part_value design bound part text self.entry
            → IfOk result (λ a. IsAnswerTo design bound part text a) }
        ensures fault { (design : DesignValue) (bound : Parts → ℕ) (part : Parts → Part → ℕ)
            (text : List ℕ) (e : FaultValue)
            → IsFed B.Values.value B.part_value design bound part text self.entry
            → result ≡ Err (fault.Text e) → cert_read (block_count design) text ≡ Err e }
        ensures stays { IsSpent self.entry → result ≡ Err fault.NoMemory }
    {
        let Checking {
            design,
            bounds,
            alloc,
            mut room,
            stage,
        } = self;
        match stage.finish(alloc, design, bounds, &mut room) {
            Ok(answer) => Ok(answer),
            Err(CertFault::NoMemory) => Err(FinishFault::NoMemory),
            Err(fault) => Err(FinishFault::Text(fault)),
        }
    }
}
