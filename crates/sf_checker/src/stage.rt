//! How far a text has come that is fed in pieces.

ghost use Rattle.std.specs.Prelude.{◌≡◌, ◌≢◌, ℕ, ◌≤◌, List, [], ◌∷◌, ◌++◌, length, take, IfOk, IfErr, OnOk};
ghost use Rattle.std.specs.Prelude.{OnErr, IsErr, IsTrue, ◌↔◌, Err};
ghost use Rattle.sf_model.specs.Legal.{block_count};
ghost use Rattle.sf_cert_text.specs.declared.fault.CertFault.TheVariants.{NoMemory};
ghost use Rattle.sf_cert_text.specs.Bytes.{IsHeader};
ghost use Rattle.sf_cert_text.specs.Reading.{cert_read};
ghost use Rattle.sf_checker.specs.declared.stage.Stage.TheVariants as stages;
ghost use Rattle.sf_checker.specs.Feeding.{IsAnswerTo};

use crate::answer::Answer;
use crate::checking::check;
use crate::judge::Judge;
use sf_bound::Bounds;
use sf_cert_text::{ByteReader, CertFault, Header, Opening, read};
use sf_model::Design;
use std::alloc::{AllocError, Global};

/// A text whose header was read: what it says, the reader of the tree, and what is found of the tags so far.
#[derive(Drop)]
pub struct Body {
    header: Header,
    reader: ByteReader,
    judge: Judge,
}

/// A text up to the end of its header, one whose header was read, or one that has a fault, whatever follows.
/// Where memory was wanting, that is the fault.
#[derive(Drop)]
pub enum Stage {
    Opening(Opening),
    Tree(Body),
    Fault(CertFault),
}

/// The answer to a text that is read at once.
fn answer_whole<B: Bounds>(
    alloc: Global,
    design: &Design,
    bounds: &B,
    text: &[u8],
) -> Result<Answer, CertFault>
    ensures answer { let value = B.Values.value bounds.now design.now in
        let part = B.part_value bounds.now design.now in
        IfOk result (λ a. IsAnswerTo design.now value part text.now a) }
    ensures fault { IfErr result (λ e. e ≢ NoMemory → cert_read (block_count design.now) text.now ≡ Err e) }
{
    let cert = read(alloc, text, design.block_count())?;
    let answer = check(alloc, design, bounds, &cert)?;
    Ok(answer)
}

impl Body {
    ghost use Rattle.sf_checker.specs.Feeding.{AnswersAt, FaultsAt};
    ghost use Rattle.sf_checker.specs.Stages.{FaultsOn, FeedsOn, IsBody, IsFaulty};
    ghost use Rattle.sf_checker.specs.Standing.{IsSteady};

    /// At the first byte behind the header.
    fn new<B: Bounds>(
        alloc: Global,
        design: &Design,
        bounds: &B,
        opening: &Opening,
    ) -> Result<Body, CertFault>
        requires { IsHeader opening.now }
        ensures steady { IfOk result
            (λ body. IsSteady design.now (B.Values.value bounds.now design.now) body.judge) }
        ensures reads { let value = B.Values.value bounds.now design.now in
            let part = B.part_value bounds.now design.now in
            IfOk result (λ body. IsBody design.now value part opening.now body) }
        ensures fault { IfErr result (λ e. e ≢ NoMemory → IsFaulty design.now opening.now e) }
    {
        let (header, reader) = opening.read(alloc, design.block_count())?;
        let judge = Judge::new(alloc, design, bounds, &header.plan, header.cost)?;
        Ok(Body {
            header,
            reader,
            judge,
        })
    }

    /// A piece more.
    fn feed<B: Bounds>(
        &mut self,
        design: &Design,
        bounds: &B,
        piece: &[u8],
        room: &mut B::Room,
    ) -> Result<(), CertFault>
        requires steady { IsSteady design.now (B.Values.value bounds.now design.now) self.old.judge }
        requires serves { B.serves room.old design.now }
        ensures steady { OnOk result (IsSteady design.now (B.Values.value bounds.now design.now)
            self.new.judge) }
        ensures fed { let value = B.Values.value bounds.now design.now in
            let part = B.part_value bounds.now design.now in
            FeedsOn design.now value part (stages.Tree self.old) piece.now result (stages.Tree self.new) }
        ensures fault { let value = B.Values.value bounds.now design.now in
            let part = B.part_value bounds.now design.now in
            FaultsOn design.now value part (stages.Tree self.old) piece.now result }
        ensures serves { B.serves room.new design.now }
    {
        let blocks = design.block_count();
        let mut at = 0;
        while at < piece.len() {
            let taken = self.reader.take(&piece[at..], blocks)?;
            if let Some(tag) = taken.tag {
                self.judge
                    .take(design, bounds, self.header.cost, tag, room)?;
            }
            at += taken.bytes;
        }
        Ok(())
    }

    /// The answer, after the last byte.
    fn finish<B: Bounds>(
        self,
        design: &Design,
        bounds: &B,
        room: &mut B::Room,
    ) -> Result<Answer, CertFault>
        requires steady { IsSteady design.now (B.Values.value bounds.now design.now) self.judge }
        requires serves { B.serves room.old design.now }
        ensures answer { let value = B.Values.value bounds.now design.now in
            let part = B.part_value bounds.now design.now in
            AnswersAt design.now value part (stages.Tree self) result }
        ensures fault { let value = B.Values.value bounds.now design.now in
            let part = B.part_value bounds.now design.now in
            FaultsAt design.now value part (stages.Tree self) result }
    {
        let Body {
            header,
            reader,
            mut judge,
        } = self;
        if let Some(tag) = reader.finish(design.block_count())? {
            judge.take(design, bounds, header.cost, tag, room)?;
        }
        Ok(judge.answer(header.cost, header.bound))
    }
}

impl Stage {
    ghost use Rattle.sf_checker.specs.Feeding.{AnswersAt, FaultsAt};
    ghost use Rattle.sf_checker.specs.Stages.{FaultsOn, FeedsOn, IsOutside, IsReady, IsStage, IsWanting};

    /// Whether memory was wanting.
    fn is_wanting(&self) -> bool
        ensures { IsTrue result ↔ IsWanting self.now }
    {
        matches!(self, Stage::Fault(CertFault::NoMemory))
    }

    /// The text is longer by a piece. One at fault stays so.
    pub fn feed<B: Bounds>(
        &mut self,
        alloc: Global,
        design: &Design,
        bounds: &B,
        piece: &[u8],
        room: &mut B::Room,
    ) -> Result<(), AllocError>
        requires ready { IsReady design.now (B.Values.value bounds.now design.now) self.old }
        requires serves { B.serves room.old design.now }
        ensures ready { IsReady design.now (B.Values.value bounds.now design.now) self.new }
        ensures fed { let value = B.Values.value bounds.now design.now in
            let part = B.part_value bounds.now design.now in
            FeedsOn design.now value part self.old piece.now result self.new }
        ensures spent { OnErr result (IsWanting self.new) }
        ensures stays { IsWanting self.old → IsErr result }
        ensures serves { B.serves room.new design.now }
    {
        if self.is_wanting() {
            return Err(AllocError);
        }
        match self.advance(alloc, design, bounds, piece, room) {
            Ok(()) => Ok(()),
            Err(fault) => self.stop(fault),
        }
    }

    /// The text is at fault from now on.
    fn stop(&mut self, fault: CertFault) -> Result<(), AllocError>
        ensures stage { self.new ≡ stages.Fault fault }
        ensures found { OnOk result (fault ≢ NoMemory) }
        ensures wanting { OnErr result (fault ≡ NoMemory) }
    {
        *self = Stage::Fault(fault);
        match fault {
            CertFault::NoMemory => Err(AllocError),
            _ => Ok(()),
        }
    }

    /// A piece more, or the fault that the text has, whatever follows.
    fn advance<B: Bounds>(
        &mut self,
        alloc: Global,
        design: &Design,
        bounds: &B,
        piece: &[u8],
        room: &mut B::Room,
    ) -> Result<(), CertFault>
        requires ready { IsReady design.now (B.Values.value bounds.now design.now) self.old }
        requires serves { B.serves room.old design.now }
        ensures ready { OnOk result (IsReady design.now (B.Values.value bounds.now design.now) self.new) }
        ensures fed { let value = B.Values.value bounds.now design.now in
            let part = B.part_value bounds.now design.now in
            FeedsOn design.now value part self.old piece.now result self.new }
        ensures fault { let value = B.Values.value bounds.now design.now in
            let part = B.part_value bounds.now design.now in
            FaultsOn design.now value part self.old piece.now result }
        ensures serves { B.serves room.new design.now }
    {
        let opened = self.open(alloc, design, bounds, piece)?;
        match self {
            Stage::Opening(_) => Ok(()),
            Stage::Tree(body) => body.feed(design, bounds, &piece[opened..], room),
            Stage::Fault(fault) => Err(*fault),
        }
    }

    /// The bytes of a piece up to the end of the header, or all of them where it ends in none. The answer is
    /// how many they are.
    fn open<B: Bounds>(
        &mut self,
        alloc: Global,
        design: &Design,
        bounds: &B,
        piece: &[u8],
    ) -> Result<usize, CertFault>
        requires ready { IsReady design.now (B.Values.value bounds.now design.now) self.old }
        ensures ready { IfOk result
            (λ opened. IsReady design.now (B.Values.value bounds.now design.now) self.new) }
        ensures inside { IfOk result (λ opened. opened ≤ length piece.now) }
        ensures all { IfOk result (λ opened. IsOutside self.new → opened ≡ length piece.now) }
        ensures fed { let value = B.Values.value bounds.now design.now in
            let part = B.part_value bounds.now design.now in
            (text : List ℕ) → IsStage design.now value part text self.old → IfOk result
            (λ opened. IsStage design.now value part (text ++ take opened piece.now) self.new) }
        ensures fault { let value = B.Values.value bounds.now design.now in
            let part = B.part_value bounds.now design.now in
            FaultsOn design.now value part self.old piece.now result }
    {
        let mut opened = 0;
        while opened < piece.len() && self.is_outside() {
            self.begin(alloc, design, bounds, piece[opened])?;
            opened += 1;
        }
        Ok(opened)
    }

    /// Whether the tree is not read.
    fn is_outside(&self) -> bool
        ensures { IsTrue result ↔ IsOutside self.now }
    {
        !matches!(self, Stage::Tree(_))
    }

    /// One byte more outside of the tree.
    fn begin<B: Bounds>(
        &mut self,
        alloc: Global,
        design: &Design,
        bounds: &B,
        byte: u8,
    ) -> Result<(), CertFault>
        requires ready { IsReady design.now (B.Values.value bounds.now design.now) self.old }
        requires outside { IsOutside self.old }
        ensures ready { OnOk result (IsReady design.now (B.Values.value bounds.now design.now) self.new) }
        ensures fed { let value = B.Values.value bounds.now design.now in
            let part = B.part_value bounds.now design.now in
            FeedsOn design.now value part self.old (byte ∷ []) result self.new }
        ensures fault { let value = B.Values.value bounds.now design.now in
            let part = B.part_value bounds.now design.now in
            FaultsOn design.now value part self.old (byte ∷ []) result }
    {
        match self {
            Stage::Opening(opening) => {
                if opening.take(byte)? {
                    *self = Stage::Tree(Body::new(alloc, design, bounds, opening)?);
                }
                Ok(())
            }
            Stage::Tree(_) => unreachable!(),
            Stage::Fault(fault) => Err(*fault),
        }
    }

    /// The answer, after the last byte.
    pub fn finish<B: Bounds>(
        self,
        alloc: Global,
        design: &Design,
        bounds: &B,
        room: &mut B::Room,
    ) -> Result<Answer, CertFault>
        requires ready { IsReady design.now (B.Values.value bounds.now design.now) self }
        requires serves { B.serves room.old design.now }
        ensures answer { let value = B.Values.value bounds.now design.now in
            let part = B.part_value bounds.now design.now in
            AnswersAt design.now value part self result }
        ensures fault { let value = B.Values.value bounds.now design.now in
            let part = B.part_value bounds.now design.now in
            FaultsAt design.now value part self result }
        ensures stays { IsWanting self → result ≡ Err NoMemory }
    {
        match self {
            Stage::Opening(opening) => answer_whole(alloc, design, bounds, opening.text()),
            Stage::Tree(body) => body.finish(design, bounds, room),
            Stage::Fault(fault) => Err(fault),
        }
    }
}
