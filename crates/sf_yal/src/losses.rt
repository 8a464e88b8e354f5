//! What a text says that no part of a design has a place for, and which blocks may be meant as pads.

ghost use Rattle.std.specs.Prelude.{◌≡◌, ◌+◌, ◌<◌, ◌≤◌, ◌^◌, length, is_some, IfOk};
ghost use Rattle.sf_lex.specs.Text.{words, is_blank_byte};
ghost use Rattle.sf_yal.specs.Statements.{pieces, statements, statements_of};
ghost use Rattle.sf_yal.specs.Words.{is_pad_word, is_parent_word};
ghost use Rattle.sf_yal.specs.Modules.{point_behind};
ghost use Rattle.sf_yal.specs.Losses.{names, is_length_word, outside, in_section, behind_outside, behind_in_body};
ghost use Rattle.sf_yal.specs.Losses.{behind, is_terminal, is_pad_type, one_if, counted, begun, counted_all, losses_of};

use crate::comments::hide_comments;
use crate::keyword::{Keyword, is_pad, is_parent, read_keyword};
use crate::open_module::Section;
use crate::piece::{next_piece, next_word};
use crate::vertices::read_length;
use sf_lex::{NumberFault, Scale};
use std::alloc::{AllocError, Global};

/// How much of a text is passed over, or taken otherwise than it may be meant.
#[derive(Clone, Copy)]
pub struct YalLosses {
    /// How many terminals of the parent have no coordinates, so that they are no pads.
    pub unplaced: u64,
    /// How many modules are of the type PAD. An instance of one is a block as any other.
    pub pad_modules: u64,
}

/// Where the next statement stands: outside of all modules, or in this section of a module; and whether
/// that is the parent.
#[derive(Clone, Copy)]
pub struct At {
    pub section: Option<Section>,
    pub is_parent: bool,
}

/// What is counted so far, and where the next statement stands.
#[derive(Clone, Copy)]
pub struct Counting {
    pub at: At,
    pub losses: YalLosses,
}

/// The first word is PARENT.
fn names_parent(bytes: &[u8]) -> bool
    ensures { result ≡ names is_parent_word (words is_blank_byte bytes.now) }
{
    match next_word(bytes) {
        Some((word, _)) => is_parent(word),
        None => false,
    }
}

/// The first word is PAD.
fn names_pad(bytes: &[u8]) -> bool
    ensures { result ≡ names is_pad_word (words is_blank_byte bytes.now) }
{
    match next_word(bytes) {
        Some((word, _)) => is_pad(word),
        None => false,
    }
}

/// A word has the form of a length.
fn is_length(word: &[u8], scale: Scale) -> bool
    ensures { result ≡ is_length_word scale.per_unit word.now }
{
    !matches!(read_length(word, scale), Err(NumberFault::NotNumber))
}

/// The second and the third word have the form of lengths.
fn has_point(bytes: &[u8], scale: Scale) -> bool
    ensures { result ≡ is_some (point_behind scale.per_unit (words is_blank_byte bytes.now)) }
{
    let Some((_, rest)) = next_word(bytes) else {
        return false;
    };
    let Some((x, rest)) = next_word(rest) else {
        return false;
    };
    let Some((y, _)) = next_word(rest) else {
        return false;
    };
    is_length(x, scale) && is_length(y, scale)
}

impl At {
    /// Outside of all modules.
    fn outside() -> At
        ensures { result ≡ outside }
    {
        At {
            section: None,
            is_parent: false,
        }
    }

    /// In this section of the same module.
    fn in_section(self, section: Section) -> At
        ensures { result ≡ in_section self section }
    {
        At {
            section: Some(section),
            ..self
        }
    }

    /// Behind a statement outside of all modules.
    fn behind_outside(key: Keyword) -> At
        ensures { result ≡ behind_outside key }
    {
        match key {
            Keyword::Module => At::outside().in_section(Section::Body),
            _ => At::outside(),
        }
    }

    /// Behind a statement of a module outside of its lists.
    fn behind_in_body(self, key: Keyword, rest: &[u8]) -> At
        ensures { result ≡ behind_in_body self key (words is_blank_byte rest.now) }
    {
        match key {
            Keyword::EndModule => At::outside(),
            Keyword::Type => At {
                is_parent: self.is_parent || names_parent(rest),
                ..self
            },
            Keyword::IoList => self.in_section(Section::Terminals),
            Keyword::Network => self.in_section(Section::Network),
            _ => self,
        }
    }

    /// Behind a statement with this first word and these behind it.
    fn behind(self, key: Keyword, rest: &[u8]) -> At
        ensures { result ≡ behind self self.section key (words is_blank_byte rest.now) }
    {
        match (self.section, key) {
            (None, _) => At::behind_outside(key),
            (Some(Section::Body), _) => self.behind_in_body(key, rest),
            (Some(Section::Terminals), Keyword::EndIoList)
            | (Some(Section::Network), Keyword::EndNetwork) => self.in_section(Section::Body),
            _ => self,
        }
    }

    /// A statement with this first word is a terminal of the parent.
    fn is_terminal(self, key: Keyword) -> bool
        ensures { result ≡ is_terminal self.is_parent self.section key }
    {
        self.is_parent && self.section == Some(Section::Terminals) && key != Keyword::EndIoList
    }

    /// A statement with this first word and these behind it says that the module is of the type PAD.
    fn is_pad_type(self, key: Keyword, rest: &[u8]) -> bool
        ensures { result ≡ is_pad_type self.section key (words is_blank_byte rest.now) }
    {
        self.section == Some(Section::Body) && key == Keyword::Type && names_pad(rest)
    }
}

impl Counting {
    /// Nothing is counted.
    fn new() -> Counting
        ensures { result ≡ begun }
    {
        Counting {
            at: At::outside(),
            losses: YalLosses {
                unplaced: 0,
                pad_modules: 0,
            },
        }
    }

    /// Behind the next statement.
    fn behind(self, all: &[u8], scale: Scale) -> Counting
        requires unplaced { self.losses.unplaced < 2 ^ 32 }
        requires pad_modules { self.losses.pad_modules < 2 ^ 32 }
        ensures counted { result ≡ counted scale.per_unit self (words is_blank_byte all.now) }
        ensures unplaced { result.losses.unplaced ≤ self.losses.unplaced + 1 }
        ensures pad_modules { result.losses.pad_modules ≤ self.losses.pad_modules + 1 }
    {
        let Some((word, rest)) = next_word(all) else {
            return self;
        };
        let key = read_keyword(word);
        let is_unplaced = self.at.is_terminal(key) && !has_point(rest, scale);
        let is_pad_type = self.at.is_pad_type(key, rest);
        Counting {
            at: self.at.behind(key, rest),
            losses: YalLosses {
                unplaced: self.losses.unplaced + one_if(is_unplaced),
                pad_modules: self.losses.pad_modules + one_if(is_pad_type),
            },
        }
    }
}

/// 1 where it holds, and else 0.
fn one_if(holds: bool) -> u64
    ensures value { result ≡ one_if holds }
    ensures few { result ≤ 1 }
{
    if holds { 1 } else { 0 }
}

/// What the statements of a text without comments lose.
fn count_statements(text: &[u8], scale: Scale) -> YalLosses
    requires { length text.now ≤ 67_108_864 }
    ensures { result ≡ (counted_all scale.per_unit begun (statements 1 (pieces text.now))).losses }
{
    let mut counting = Counting::new();
    let mut rest = text;
    while let Some((piece, after)) = next_piece(rest) {
        counting = counting.behind(piece, scale);
        rest = after;
    }
    counting.losses
}

/// What is lost where a text is read with this scale. The text is one that `read_yal` reads; of another one
/// the counts say little. Nothing is kept of the text, and no name is looked up.
pub fn yal_losses(alloc: Global, text: &[u8], scale: u64) -> Result<YalLosses, AllocError>
    requires scale_low { 1 ≤ scale }
    requires scale_high { scale ≤ 1000 }
    requires size { length text.now ≤ 67_108_864 }
    ensures { IfOk result (λ losses. losses ≡ losses_of scale text.now) }
{
    let (hidden, _) = hide_comments(alloc, text)?;
    Ok(count_statements(&hidden, Scale { per_unit: scale }))
}
