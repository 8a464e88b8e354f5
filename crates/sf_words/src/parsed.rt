//! What clap found of the options of a command.
ghost use Rattle.std.specs.Prelude.{◌≡◌, ◌↔◌, Some, IsTrue, option_map};
ghost use Rattle.sf_words.specs.Kept.{texts_of};

use crate::options::Key;
use clap::ArgMatches;

/// The options that clap found.
#[derive(Clone, Copy)]
pub struct Parsed<'b, 'a> {
    pub options: &'b ArgMatches<'a>,
}

/// Whether the text is there and is this one.
pub fn is_text(text: Option<&str>, other: &str) -> bool
    ensures { IsTrue result ↔ (option_map (λ s. s.now) text.entry ≡ Some other.now) }
{
    match text {
        None => false,
        Some(text) => text == other,
    }
}

impl<'b, 'a> Parsed<'b, 'a> {
    /// The text of an option, which is empty for a flag.
    pub fn text(&self, key: Key) -> Option<&'a str>
        ensures { option_map (λ s. s.now) result ≡ texts_of self.now key }
    {
        let text = self.options.get_str(key.text());
        if key.is_flag() {
            if is_text(text, "true") {
                Some("")
            } else {
                None
            }
        } else {
            text
        }
    }
}
