//! Distinct names, in the order in which they came.

ghost use Rattle.std.specs.Prelude.{◌≡◌, ◌<◌, [], ◌∷◌, ◌++◌, length, None, OnOk, IfOk, IfSome};
ghost use Rattle.sf_names.specs.Names.{bytes_of, index_of, noted};

use crate::hash::{TextHash, step};
use indexmap::IndexSet;
use std::alloc::{AllocError, Global};
use std::marker::Model;

/// Names in the order in which they came.
#[derive(Drop)]
pub struct Names<'a> {
    set: IndexSet<&'a [u8], TextHash>,
    most: usize,
}

impl<'a> Model for Names<'a> {
    ghost use Rattle.std.specs.Prelude.{List, ℕ};
    ghost use Rattle.sf_names.specs.Names.{bytes_of};

    ghost Value = { List (List ℕ) };

    ghost view = { λ n. bytes_of n.set.keys };
}

impl<'a> Names<'a> {
    /// No names, of which about so many are expected.
    pub fn new(alloc: Global, hash: TextHash, most: usize) -> Names<'a>
        ensures { result ≡ [] }
    {
        Names {
            set: IndexSet::with_hasher(alloc, hash),
            most,
        }
    }

    /// The hash of the names.
    pub fn hash(&self) -> TextHash {
        *self.set.hasher()
    }

    /// The names, borrowed.
    pub fn as_slice(&self) -> &[&'a [u8]]
        ensures { bytes_of result.now ≡ self.now }
    {
        self.set.as_slice()
    }

    /// The index of a name in the list.
    pub fn index_of(&self, name: &[u8]) -> Option<usize>
        ensures value { result ≡ index_of name.now self.now }
        ensures bound { IfSome result (λ k. k < length self.now) }
    {
        self.set.get_index_of(name)
    }

    /// Makes room for one more name.
    fn make_room(&mut self) -> Result<(), AllocError>
        ensures { self.new ≡ self.old }
    {
        let count = self.set.len();
        if count < self.set.capacity() {
            return Ok(());
        }
        self.set.reserve(step(self.most, count))
    }

    /// The place of a name in the list, or none where it is new and now the last.
    pub fn note(&mut self, name: &'a [u8]) -> Result<Option<usize>, AllocError>
        ensures place { IfOk result (λ place. place ≡ index_of name.now self.old) }
        ensures names { OnOk result (self.new ≡ noted name.now self.old) }
    {
        self.make_room()?;
        let (place, added) = self.set.insert_full(name)?;
        if added {
            return Ok(None);
        }
        Ok(Some(place))
    }

    /// A name more, which isn't in the list.
    pub fn add(&mut self, name: &'a [u8]) -> Result<(), AllocError>
        requires { index_of name.now self.old ≡ None }
        ensures { OnOk result (self.new ≡ self.old ++ name.now ∷ []) }
    {
        self.note(name)?;
        Ok(())
    }
}
