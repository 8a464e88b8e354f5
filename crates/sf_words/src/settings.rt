//! Options as they stand in the words.
ghost use Rattle.std.specs.Prelude.{◌≡◌, ◌≢◌, ◌↔◌, ◌∷◌, ◌++◌, List, IsTrue, IfSome, IfNone, Contains};
ghost use Rattle.std.specs.Prelude.{MatchOption, IfOk, map, string_bytes};
ghost use Rattle.sf_words.specs.declared.options.Mode.{Mode};
ghost use Rattle.sf_words.specs.declared.options.Key.{Key};
ghost use Rattle.sf_options.specs.Options.{Text};
ghost use Rattle.sf_words.specs.Table.{key_text};
ghost use Rattle.sf_words.specs.Words.{Token, key_of, before, words_of, IsValue, IsShaped, IsNew};
ghost use Rattle.sf_words.specs.Words.{AreOptions, HasForm};
ghost use Rattle.sf_words.specs.Seen.{token_of};

use crate::options::{Key, Mode, find_key, find_mode};
use std::alloc::{AllocError, Global};

/// An option as it stands in the words: `--name=value`, `--name value` or `--name`.
#[derive(Clone, Copy)]
pub enum Setting<'a> {
    Attached(Key, &'a str),
    Spaced(Key, &'a str),
    Alone(Key),
}

impl<'a> Setting<'a> {
    /// The option that it sets.
    pub fn key(&self) -> Key
        ensures { result ≡ key_of (token_of self.now) }
    {
        match self {
            Setting::Attached(key, _) => *key,
            Setting::Spaced(key, _) => *key,
            Setting::Alone(key) => *key,
        }
    }
}

/// What stands behind two hyphens at the front.
fn after_hyphens(word: &str) -> Option<&str>
    ensures { MatchOption result ((rest : Text) → word.now ≢ 45 ∷ 45 ∷ rest)
        (λ rest. word.now ≡ 45 ∷ 45 ∷ rest.now) }
{
    word.strip_prefix('-')?.strip_prefix('-')
}

/// Whether a word may be the value of the option before it.
fn is_value(text: &str) -> bool
    ensures { IsTrue result ↔ IsValue text.now }
{
    match text.as_bytes() {
        [] => false,
        [first, ..] => *first != b'-',
    }
}

/// Reads `name=value`, where one of these options has the name.
fn read_attached<'a>(keys: &[Key], text: &'a str) -> Option<(Key, &'a str)>
    ensures attached { IfSome result (λ p. Contains keys.now p.0
        × (text.now ≡ key_text p.0 ++ 61 ∷ p.1.now)) }
    ensures none { IfNone result ((k : Key) (v : Text) → Contains keys.now k
        → text.now ≢ key_text k ++ 61 ∷ v) }
{
    let (name, value) = text.split_once('=')?;
    let key = find_key(keys, name)?;
    Some((key, value))
}

/// Reads the option that stands first in the words, and gives the words behind it.
pub fn read_setting<'a>(keys: &[Key], words: &'a [String]) -> Option<(Setting<'a>, &'a [String])>
    ensures setting { IfSome result (λ p. Contains keys.now (key_of (token_of p.0))
        × IsShaped (token_of p.0)
        × (map string_bytes words.now ≡ before (token_of p.0) (map string_bytes p.1.now))) }
    ensures none { IfNone result ((t : Token) (more : List Text) → Contains keys.now (key_of t)
        → IsShaped t → map string_bytes words.now ≢ before t more) }
{
    let [word, rest @ ..] = words else {
        return None;
    };
    let text = after_hyphens(word.as_str())?;
    if let Some((key, value)) = read_attached(keys, text) {
        return if !key.is_flag() && is_value(value) {
            Some((Setting::Attached(key, value), rest))
        } else {
            None
        };
    }
    let key = find_key(keys, text)?;
    if key.is_flag() {
        return Some((Setting::Alone(key), rest));
    }
    let [value, rest @ ..] = rest else {
        return None;
    };
    if is_value(value.as_str()) {
        Some((Setting::Spaced(key, value.as_str()), rest))
    } else {
        None
    }
}

/// Whether no setting has this key.
fn is_new(settings: &[Setting], key: Key) -> bool
    ensures { IsTrue result ↔ IsNew key (map token_of settings.now) }
{
    for setting in settings {
        if setting.key() == key {
            return false;
        }
    }
    true
}

/// Reads the options of a command.
fn read_settings<'a>(
    alloc: Global,
    mode: Mode,
    words: &'a [String],
) -> Result<Option<Vec<Setting<'a>>>, AllocError>
    ensures settings { IfOk result (λ r. IfSome r (λ s. AreOptions mode (map token_of s.items)
        × (map string_bytes words.now ≡ words_of (map token_of s.items)))) }
    ensures none { IfOk result (λ r. IfNone r ((ts : List Token) → AreOptions mode ts
        → map string_bytes words.now ≢ words_of ts)) }
{
    let keys = mode.keys();
    let mut settings = Vec::new(alloc);
    let mut rest = words;
    while !rest.is_empty() {
        let Some((setting, after)) = read_setting(keys, rest) else {
            return Ok(None);
        };
        if !is_new(&settings, setting.key()) {
            return Ok(None);
        }
        settings.push(setting)?;
        rest = after;
    }
    Ok(Some(settings))
}

/// A command and its options, as they stand in the words.
#[derive(Drop)]
pub struct Form<'a> {
    pub mode: Mode,
    pub settings: Vec<Setting<'a>>,
}

/// Reads the command and its options, where the words are such.
pub fn read_form(alloc: Global, words: &[String]) -> Result<Option<Form<'_>>, AllocError>
    ensures form { IfOk result (λ r. IfSome r
        (λ f. HasForm (map string_bytes words.now) f.mode (map token_of f.settings.items))) }
    ensures none { IfOk result (λ r. IfNone r ((mode : Mode) (tokens : List Token)
        → HasForm (map string_bytes words.now) mode tokens → ⊥)) }
{
    let [command, rest @ ..] = words else {
        return Ok(None);
    };
    let Some(mode) = find_mode(command.as_str()) else {
        return Ok(None);
    };
    match read_settings(alloc, mode, rest)? {
        Some(settings) => Ok(Some(Form { mode, settings })),
        None => Ok(None),
    }
}
