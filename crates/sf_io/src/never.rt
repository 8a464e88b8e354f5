//! A shelf and a sink that never fail.

ghost use Rattle.std.specs.Prelude.{◌≡◌, ◌↔◌, ◌<◌, ◌≤◌, length, None, IsOk, IfOk, IsErrOf};
ghost use Rattle.sf_io.specs.NeverShelf.{text_under, texts_seen};

use crate::outside::copy_within;
use crate::{Failed, LoadFault, Shelf, Sink};
use std::alloc::Global;
use std::marker::Model;

/// Texts by name, given when the shelf is made. A store answers `Ok` and is let go, so the shelf tells
/// nothing of what it holds.
#[derive(Drop)]
pub struct NeverShelf {
    alloc: Global,
    texts: Vec<(String, Vec<u8>)>,
}

impl Model for NeverShelf {
    ghost use Rattle.sf_io.specs.NeverShelf.{Texts, texts_seen};

    ghost Value = { Texts };

    ghost view = { λ s. texts_seen s.texts.items };
}

impl NeverShelf {
    /// Of two texts of one name the first counts. A name without a text reads as the empty text.
    pub fn new(alloc: Global, texts: Vec<(String, Vec<u8>)>) -> Self
        ensures { result ≡ texts_seen texts.items }
    {
        NeverShelf { alloc, texts }
    }
}

/// The text under a name: the first of that name, or the empty one.
fn text_of<'a>(texts: &'a [(String, Vec<u8>)], name: &str) -> &'a [u8]
    ensures { result.now ≡ text_under (texts_seen texts.now) name.now }
{
    for (known, text) in texts {
        if known.as_str() == name {
            return text.as_slice();
        }
    }
    &[]
}

impl Shelf for NeverShelf {
    ghost seen = { λ _. record { holds = None; load_faults = 0; store_faults = 0 } };

    fn load(&mut self, name: &str, limit: u64) -> Result<Vec<u8>, LoadFault>
        ensures bytes { IfOk result (λ bytes. bytes.items ≡ text_under self.old name.now) }
        ensures limit { IfOk result (λ bytes. length bytes.items ≤ limit) }
        ensures too_long { IsErrOf result LoadFault.TooLong
            ↔ (limit < length (text_under self.old name.now)) }
        ensures failed { ¬ IsErrOf result LoadFault.Failed }
        ensures texts { self.new ≡ self.old }
    {
        copy_within(self.alloc, text_of(&self.texts, name), limit)
    }

    fn store(&mut self, _name: &str, _bytes: &[u8]) -> Result<(), Failed>
        ensures ok { IsOk result }
        ensures texts { self.new ≡ self.old }
    {
        Ok(())
    }
}

/// A sink that takes every piece whole and keeps nothing.
#[derive(Clone, Copy, Default)]
pub struct NeverSink;

impl Sink for NeverSink {
    ghost seen = { λ _. record { taken = None; faults = 0 } };

    fn put(&mut self, piece: &[u8]) -> Result<usize, Failed>
        ensures whole { result ≡ Ok (length piece.now) }
    {
        Ok(piece.len())
    }
}
