//! The tree of a certificate's text, word by word.

ghost use Rattle.std.specs.Prelude.{◌≡◌, ◌≢◌, ℕ, ◌≤◌, List, [], ◌∷◌, IfOk, IfErr, IfSome, IfNone, OnOk};
ghost use Rattle.std.specs.Prelude.{IsTrue, Ok, Some, None, Err};
ghost use Rattle.sf_lex.specs.Scan.{LineWord, numbered_words, last_line_of};
ghost use Rattle.sf_cert_text.specs.declared.fault.CertFault.TheVariants.{NoMemory};
ghost use Rattle.sf_cert_text.specs.declared.letter.TagSaid.{TagSaid as SaidValue};
ghost use Rattle.sf_certificate.specs.Places.{spell_tree};
ghost use Rattle.sf_cert_text.specs.Reading.{tags_said, tree_from, tree_read};
ghost use Rattle.sf_cert_text.specs.Reader.{first_reader, read_on, with_some};

use crate::fault::CertFault;
use crate::letter::{HalfTag, Letter, TagSaid, letter_of, tag_by};
use crate::version::Version;
use crate::waiting::Waiting;
use sf_certificate::Tag;
use sf_lex::{Scan, last_line};
use std::alloc::{AllocError, Global};
use std::marker::Model;

/// No node stands so deep.
const TOO_DEEP: u16 = 3200;

/// A reader of a tree between two words: the places that wait for a tag, the version of the text, and a tag
/// whose second word comes next.
#[derive(Drop)]
pub struct TreeReader {
    waiting: Waiting,
    version: Version,
    half: Option<HalfTag>,
}

impl Model for TreeReader {
    ghost use Rattle.sf_cert_text.specs.Reader.{Reader};

    ghost Value = { Reader };

    ghost view = { λ r. record { places = r.waiting; version = r.version; half = r.half } };
}

impl TreeReader {
    /// Before the first word.
    pub fn new(alloc: Global, version: Version) -> Result<TreeReader, AllocError>
        ensures { IfOk result (λ reader. reader ≡ first_reader version) }
    {
        Ok(TreeReader {
            waiting: Waiting::new(alloc)?,
            version,
            half: None,
        })
    }

    /// One word more, of this line. The answer is the tag that it ends, if it ends one.
    pub fn take(&mut self, word: &[u8], line: u64, blocks: u16) -> Result<Option<Tag>, CertFault>
        requires { blocks ≤ 320 }
        ensures tag { IfOk result (λ tag. (last : ℕ) (others : List LineWord)
            → read_on blocks last self.old (record { line = line; text = word.now } ∷ others)
            ≡ with_some tag (read_on blocks last self.new others)) }
        ensures fault { IfErr result (λ e. e ≢ NoMemory → (last : ℕ) (others : List LineWord)
            → read_on blocks last self.old (record { line = line; text = word.now } ∷ others) ≡ Err e) }
    {
        let Some(said) = self.said(word, line) else {
            return Ok(None);
        };
        self.put(said, blocks)
    }

    /// What a word says with the one before it, or nothing where it is the first of two.
    fn said(&mut self, word: &[u8], line: u64) -> Option<TagSaid>
        ensures places { self.new.places ≡ self.old.places }
        ensures version { self.new.version ≡ self.old.version }
        ensures whole { IfSome result (λ said. self.new.half ≡ None) }
        ensures said { IfSome result (λ said. (last : ℕ) (others : List LineWord)
            → tags_said self.old.version last self.old.half (record { line = line; text = word.now } ∷ others)
            ≡ said ∷ tags_said self.old.version last None others) }
        ensures first { IfNone result ((last : ℕ) (others : List LineWord)
            → tags_said self.old.version last self.old.half (record { line = line; text = word.now } ∷ others)
            ≡ tags_said self.old.version last self.new.half others) }
    {
        if let Some(half) = self.half {
            self.half = None;
            return Some(TagSaid {
                line: half.line,
                tag: tag_by(half, word),
            });
        }
        match letter_of(self.version, word) {
            Some(Letter::Whole(tag)) => Some(TagSaid { line, tag: Ok(tag) }),
            Some(Letter::First(second)) => {
                self.half = Some(HalfTag { second, line });
                None
            }
            None => Some(TagSaid {
                line,
                tag: Err(CertFault::BadTag(line)),
            }),
        }
    }

    /// A tag that was said, or its fault, at the next place.
    fn put(&mut self, said: TagSaid, blocks: u16) -> Result<Option<Tag>, CertFault>
        requires { blocks ≤ 320 }
        ensures tag { IfOk result (λ tag. (last : ℕ) (others : List SaidValue)
            → tree_from blocks last self.old.places (said ∷ others)
            ≡ with_some tag (tree_from blocks last self.new.places others)) }
        ensures half { IfOk result (λ tag. self.new.half ≡ self.old.half) }
        ensures version { self.new.version ≡ self.old.version }
        ensures fault { IfErr result (λ e. e ≢ NoMemory → (last : ℕ) (others : List SaidValue)
            → tree_from blocks last self.old.places (said ∷ others) ≡ Err e) }
    {
        let Some(place) = self.waiting.take() else {
            return Err(CertFault::Trailing(said.line));
        };
        let tag = said.tag?;
        if place.depth >= TOO_DEEP {
            return Err(CertFault::TooDeep(said.line));
        }
        self.waiting.put(tag, place, blocks)?;
        Ok(Some(tag))
    }

    /// After the last word, where the last line that holds one is this.
    pub fn finish(mut self, last: u64) -> Result<(), CertFault>
        ensures ok { (blocks : ℕ) → OnOk result (read_on blocks last self [] ≡ Ok []) }
        ensures fault { (blocks : ℕ) → IfErr result (λ e. read_on blocks last self [] ≡ Err e) }
    {
        match (self.waiting.take(), self.half) {
            (None, None) => Ok(()),
            (None, Some(half)) => Err(CertFault::Trailing(half.line)),
            (Some(_), _) => Err(CertFault::Truncated(last)),
        }
    }
}

/// The tags that the words from the scan on spell: one tree, and nothing behind it.
pub fn read_tree(
    alloc: Global,
    scan: &mut Scan,
    text: &[u8],
    version: Version,
    blocks: u16,
) -> Result<Vec<Tag>, CertFault>
    requires { blocks ≤ 320 }
    ensures tags { IfOk result
        (λ tags. tree_read version blocks (last_line_of text.now) (numbered_words scan.old) ≡ Ok tags.items) }
    ensures tree { IfOk result (λ tags. IsTrue (spell_tree blocks tags.items)) }
    ensures fault { IfErr result (λ e. e ≢ NoMemory
        → tree_read version blocks (last_line_of text.now) (numbered_words scan.old) ≡ Err e) }
{
    let mut reader = TreeReader::new(alloc, version)?;
    let mut tags = Vec::new(alloc);
    while let Some(word) = scan.next_word() {
        if let Some(tag) = reader.take(word.text, word.line, blocks)? {
            tags.push(tag)?;
        }
    }
    reader.finish(last_line(text))?;
    Ok(tags)
}
