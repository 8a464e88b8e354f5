//! The tree of a certificate's text, from pieces that are cut anywhere.

ghost use Rattle.std.specs.Prelude.{◌≡◌, ◌≢◌, ℕ, ◌+◌, ◌≤◌, false, true, List, [], ◌∷◌, ◌++◌, length, take};
ghost use Rattle.std.specs.Prelude.{IfOk, IfErr, OnOk, Ok, Err};
ghost use Rattle.std.specs.List.{count_by, position_or_len};
ghost use Rattle.sf_lex.specs.Text.{is_blank_byte, is_line_feed, has_none};
ghost use Rattle.sf_lex.specs.Scan.{LineWord, last_word_line};
ghost use Rattle.sf_cert_text.specs.declared.fault.CertFault.TheVariants.{NoMemory};
ghost use Rattle.sf_cert_text.specs.Bytes.{begun_word, bytes_on, first_byte, past_blank};
ghost use Rattle.sf_cert_text.specs.Reader.{read_on, with_some};

use crate::fault::CertFault;
use crate::tree::TreeReader;
use crate::version::Version;
use sf_certificate::Tag;
use std::alloc::{AllocError, Global};
use std::marker::Model;

/// No word of a tree has so many bytes, and of a longer one no more are kept.
const TOO_LONG: usize = 21;

/// A reader of a tree between two bytes. Of a word that is cut in two it keeps what stood in the first part.
#[derive(Drop)]
pub struct ByteReader {
    tree: TreeReader,
    word: Vec<u8>,
    line: u64,
    last: u64,
}

impl Model for ByteReader {
    ghost use Rattle.std.specs.Prelude.{◌≡◌, ◌≤◌, length, true};
    ghost use Rattle.sf_lex.specs.Text.{is_blank_byte, has_none};
    ghost use Rattle.sf_cert_text.specs.Bytes.{Bytewise};

    ghost Value = { Bytewise };

    ghost view = { λ r. record { tree = r.tree; word = r.word.items; line = r.line; last = r.last } };

    ghost invariant = { λ r. (has_none is_blank_byte r.word.items ≡ true) × (length r.word.items ≤ 21) };
}

/// What was taken of a piece: how many bytes, and the tag that they end, if they end one.
#[derive(Clone, Copy)]
pub struct Taken {
    pub tag: Option<Tag>,
    pub bytes: usize,
}

/// The number of the line behind a byte of this line. More lines than numbers go to are answered as want of
/// memory.
fn line_behind(byte: u8, line: u64) -> Result<u64, CertFault>
    ensures line { IfOk result (λ behind. behind ≡ line + count_by is_line_feed (byte ∷ [])) }
    ensures fault { IfErr result (λ e. e ≡ NoMemory) }
{
    if byte == b'\n' {
        line.checked_add(1).ok_or(CertFault::NoMemory)
    } else {
        Ok(line)
    }
}

/// How many bytes stand before the first blank.
fn run_at_front(bytes: &[u8]) -> usize
    ensures value { result ≡ position_or_len is_blank_byte bytes.now }
    ensures bound { result ≤ length bytes.now }
{
    bytes
        .iter()
        .take_while(|byte| !matches!(**byte, b' ' | b'\t' | b'\r' | b'\n'))
        .count()
}

impl ByteReader {
    /// Before the first byte of a tree, which stands in this line, where the last line that holds a word is
    /// that.
    pub fn new(
        alloc: Global,
        version: Version,
        line: u64,
        last: u64,
    ) -> Result<ByteReader, AllocError>
        ensures { IfOk result (λ reader. reader ≡ first_byte version line last) }
    {
        Ok(ByteReader {
            tree: TreeReader::new(alloc, version)?,
            word: Vec::new(alloc),
            line,
            last,
        })
    }

    /// The bytes of a piece up to its first blank, and that blank with them; or all of a piece that has none.
    /// Inlined, since it is called for each word of a tree, by a loop for each bound.
    #[inline(always)]
    pub fn take(&mut self, piece: &[u8], blocks: u16) -> Result<Taken, CertFault>
        requires { blocks ≤ 320 }
        ensures inside { IfOk result (λ taken. taken.bytes ≤ length piece.now) }
        ensures some { IfOk result (λ taken. 1 ≤ length piece.now → 1 ≤ taken.bytes) }
        ensures tag { IfOk result (λ taken. (rest : List ℕ)
            → bytes_on blocks self.old (take taken.bytes piece.now ++ rest)
            ≡ with_some taken.tag (bytes_on blocks self.new rest)) }
        ensures fault { IfErr result (λ e. e ≢ NoMemory → (rest : List ℕ)
            → bytes_on blocks self.old (piece.now ++ rest) ≡ Err e) }
    {
        let bytes = run_at_front(piece);
        let (run, rest) = piece.split_at(bytes);
        let Some(blank) = rest.first() else {
            self.keep_run(run)?;
            return Ok(Taken { tag: None, bytes });
        };
        let tag = self.end_run(run, blocks)?;
        self.line = line_behind(*blank, self.line)?;
        Ok(Taken {
            tag,
            bytes: bytes + 1,
        })
    }

    /// After the last byte. The answer is the tag that the end of the text ends, if it ends one.
    pub fn finish(mut self, blocks: u16) -> Result<Option<Tag>, CertFault>
        requires { blocks ≤ 320 }
        ensures tag { IfOk result (λ tag. bytes_on blocks self [] ≡ with_some tag (Ok [])) }
        ensures fault { IfErr result (λ e. e ≢ NoMemory → bytes_on blocks self [] ≡ Err e) }
    {
        let tag = self.end_word(blocks)?;
        self.tree.finish(self.last)?;
        Ok(tag)
    }

    /// Ends a word whose last bytes are these, at a blank that is not taken yet. The answer is the tag that
    /// it ends, if it ends one.
    #[inline(always)]
    fn end_run(&mut self, run: &[u8], blocks: u16) -> Result<Option<Tag>, CertFault>
        requires few { blocks ≤ 320 }
        requires run { has_none is_blank_byte run.now ≡ true }
        ensures tag { IfOk result (λ tag. (b : ℕ) (rest : List ℕ) → is_blank_byte b ≡ true
            → bytes_on blocks self.old (run.now ++ b ∷ rest)
            ≡ with_some tag (bytes_on blocks (past_blank b self.new) rest)) }
        ensures fault { IfErr result (λ e. e ≢ NoMemory → (b : ℕ) (rest : List ℕ) → is_blank_byte b ≡ true
            → bytes_on blocks self.old (run.now ++ b ∷ rest) ≡ Err e) }
    {
        if !self.word.is_empty() {
            self.keep_run(run)?;
            return self.end_word(blocks);
        }
        if run.is_empty() {
            return Ok(None);
        }
        let tag = self.tree.take(run, self.line, blocks)?;
        self.last = self.line;
        Ok(tag)
    }

    /// Ends the word that was begun, if one was. The answer is the tag that it ends, if it ends one.
    fn end_word(&mut self, blocks: u16) -> Result<Option<Tag>, CertFault>
        requires { blocks ≤ 320 }
        ensures tag { IfOk result (λ tag. (last : ℕ) (others : List LineWord)
            → read_on blocks last self.old.tree (begun_word self.old.line self.old.word ++ others)
            ≡ with_some tag (read_on blocks last self.new.tree others)) }
        ensures kept { IfOk result (λ tag. self.new
            ≡ record {
              tree = self.new.tree;
              word = [];
              line = self.old.line;
              last = last_word_line self.old.last (begun_word self.old.line self.old.word);
            }) }
        ensures fault { IfErr result (λ e. e ≢ NoMemory → (last : ℕ) (others : List LineWord)
            → read_on blocks last self.old.tree (begun_word self.old.line self.old.word ++ others) ≡ Err e) }
        ensures solid { has_none is_blank_byte self.old.word ≡ true }
    {
        if self.word.is_empty() {
            return Ok(None);
        }
        let tag = self.tree.take(&self.word, self.line, blocks)?;
        self.word.clear();
        self.last = self.line;
        Ok(tag)
    }

    /// Some bytes more of a word.
    fn keep_run(&mut self, run: &[u8]) -> Result<(), AllocError>
        requires { has_none is_blank_byte run.now ≡ true }
        ensures { OnOk result ((n : ℕ) (rest : List ℕ)
            → bytes_on n self.old (run.now ++ rest) ≡ bytes_on n self.new rest) }
    {
        for byte in run {
            self.keep(*byte)?;
        }
        Ok(())
    }

    /// One byte more of a word.
    fn keep(&mut self, byte: u8) -> Result<(), AllocError>
        requires { is_blank_byte byte ≡ false }
        ensures { OnOk result ((n : ℕ) (rest : List ℕ)
            → bytes_on n self.old (byte ∷ rest) ≡ bytes_on n self.new rest) }
    {
        if self.word.len() < TOO_LONG {
            self.word.push(byte)?;
        }
        Ok(())
    }
}
