//! An instance of a module.

ghost use Rattle.std.specs.Prelude.{◌≡◌, ◌<◌, length, IfOk};

use sf_model::Name;
use std::alloc::{AllocError, Global};
use std::marker::Model;

/// A word of the text. It has at least one byte.
#[derive(Drop)]
pub struct Label<'a> {
    bytes: &'a [u8],
}

impl<'a> Model for Label<'a> {
    ghost use Rattle.std.specs.Prelude.{List, ℕ, ◌<◌, length};

    ghost Value = { List ℕ };

    ghost view = { λ l. l.bytes.now };

    ghost invariant = { λ l. 0 < length l.bytes.now };
}

impl<'a> Label<'a> {
    /// This word.
    pub fn new(bytes: &'a [u8]) -> Label<'a>
        requires { 0 < length bytes.now }
        ensures { result ≡ bytes.entry.now }
    {
        Label { bytes }
    }

    /// Its bytes.
    pub fn as_bytes(&self) -> &'a [u8]
        ensures { result.now ≡ self.now }
    {
        self.bytes
    }

    /// The word as a name of its own.
    pub fn to_name(&self, alloc: Global) -> Result<Name, AllocError>
        ensures { IfOk result (λ name. name ≡ self.now) }
    {
        Name::new(alloc, self.bytes)
    }
}

/// An instance as its statement says it: its line, its name, its module's name, and the bytes of its signals.
#[derive(Drop)]
pub struct Instance<'a> {
    pub line: u64,
    pub name: Label<'a>,
    pub module_name: Label<'a>,
    pub signals: &'a [u8],
}
