//! The words of a tag.

ghost use Rattle.std.specs.Prelude.{◌≡◌};
ghost use Rattle.sf_cert_text.specs.Reading.{letter_of, part_of, closed_word, tag_by, split_by, closed_by};
ghost use Rattle.sf_lex.specs.Whole.{whole_read};

use crate::fault::CertFault;
use crate::version::Version;
use sf_certificate::Tag;
use sf_lex::read_whole;
use sf_node::Part;

/// What the second word of a tag is to say: the block of a split, or the part that closes a subproblem.
#[derive(Clone, Copy)]
pub enum Second {
    Block,
    Part,
}

/// What the first word of a tag says: all of it, or what its second word is to say.
#[derive(Clone, Copy)]
pub enum Letter {
    Whole(Tag),
    First(Second),
}

/// A tag whose first word was read, and the line of that word.
#[derive(Clone, Copy)]
pub struct HalfTag {
    pub second: Second,
    pub line: u64,
}

/// What the words of a tag say, or the fault that they have, and the line of the first word.
#[derive(Clone, Copy)]
pub struct TagSaid {
    pub line: u64,
    pub tag: Result<Tag, CertFault>,
}

/// What the first word of a tag says.
pub fn letter_of(version: Version, word: &[u8]) -> Option<Letter>
    ensures { result ≡ letter_of version word.now }
{
    match word {
        b"E" => Some(Letter::Whole(Tag::Extend)),
        b"S" => Some(Letter::First(Second::Block)),
        b"C" => Some(closed_word(version)),
        b"O" => Some(Letter::Whole(Tag::Open)),
        _ => None,
    }
}

/// What a `C` says: in the first version that the full part closes the subproblem.
fn closed_word(version: Version) -> Letter
    ensures { result ≡ closed_word version }
{
    match version {
        Version::One => Letter::Whole(Tag::Closed(Part::Full)),
        Version::Two | Version::Three => Letter::First(Second::Part),
    }
}

/// The part that a word names.
fn part_of(word: &[u8]) -> Option<Part>
    ensures { result ≡ part_of word.now }
{
    match word {
        b"a" => Some(Part::Area),
        b"r" => Some(Part::Range),
        b"p" => Some(Part::Pair),
        b"h" => Some(Part::Hull),
        b"f" => Some(Part::Full),
        _ => None,
    }
}

/// The tag whose second word is this.
pub fn tag_by(half: HalfTag, word: &[u8]) -> Result<Tag, CertFault>
    ensures { result ≡ tag_by half word.now }
{
    match half.second {
        Second::Block => split_of(half.line, word),
        Second::Part => closed_of(half.line, word),
    }
}

/// A split of the block that a word names.
fn split_of(line: u64, word: &[u8]) -> Result<Tag, CertFault>
    ensures { result ≡ split_by line (whole_read 65535 word.now) }
{
    match read_whole(word, 65535) {
        None => Err(CertFault::BadTag(line)),
        Some(block) => Ok(Tag::Split(block as u16)),
    }
}

/// A subproblem closed by the part that a word names.
fn closed_of(line: u64, word: &[u8]) -> Result<Tag, CertFault>
    ensures { result ≡ closed_by line (part_of word.now) }
{
    match part_of(word) {
        None => Err(CertFault::BadTag(line)),
        Some(part) => Ok(Tag::Closed(part)),
    }
}
