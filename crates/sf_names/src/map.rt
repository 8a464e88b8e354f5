//! A value for each of some names.

ghost use Rattle.std.specs.Prelude.{◌≡◌, ℕ, List, [], Some, IfOk, OnOk, is_some};
ghost use Rattle.std.specs.Map.{update};
ghost use Rattle.std.specs.Str.{bytes_eq};
ghost use Rattle.sf_names.specs.Values.{value_in};

use crate::hash::{TextHash, step};
use indexmap::IndexMap;
use std::alloc::{AllocError, Global};
use std::marker::Model;

/// A value for each of some names, seen as their list, with no name twice.
#[derive(Drop)]
pub struct NameMap<'a, V: Copy> {
    map: IndexMap<&'a [u8], V, TextHash>,
    most: usize,
}

impl<'a, V: Copy> Model for NameMap<'a, V> {
    ghost use Rattle.std.specs.Prelude.{List, ℕ};
    ghost use Rattle.sf_names.specs.Values.{entries_of};

    ghost Value = { List (List ℕ × V) };

    ghost view = { λ m. entries_of m.map.entries };
}

impl<'a, V: Copy> NameMap<'a, V> {
    /// No names, of which about so many are expected.
    pub fn new(alloc: Global, hash: TextHash, most: usize) -> NameMap<'a, V>
        ensures { result ≡ [] }
    {
        NameMap {
            map: IndexMap::with_hasher(alloc, hash),
            most,
        }
    }

    /// The value of a name.
    pub fn get(&self, name: &[u8]) -> Option<V>
        ensures { result ≡ value_in self.now name.now }
    {
        self.map.get(name).copied()
    }

    /// Whether a name has a value.
    pub fn has(&self, name: &[u8]) -> bool
        ensures { result ≡ is_some (value_in self.now name.now) }
    {
        self.get(name).is_some()
    }

    /// Makes room for one more name.
    fn make_room(&mut self) -> Result<(), AllocError>
        ensures { self.new ≡ self.old }
    {
        let count = self.map.len();
        if count < self.map.capacity() {
            return Ok(());
        }
        self.map.reserve(step(self.most, count))
    }

    /// Gives a name this value, and answers the one that it had.
    pub fn insert(&mut self, name: &'a [u8], value: V) -> Result<Option<V>, AllocError>
        ensures old { IfOk result (λ old. old ≡ value_in self.old name.now) }
        ensures updates { OnOk result ((other : List ℕ)
            → value_in self.new other ≡ update bytes_eq (value_in self.old) name.now (Some value) other) }
    {
        self.make_room()?;
        Ok(self.map.insert(name, value)?)
    }
}
