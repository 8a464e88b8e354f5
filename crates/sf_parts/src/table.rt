//! The names of blocks and of pads, found by an ordered map.

ghost use Rattle.std.specs.Prelude.{◌≡◌, ◌+◌, List, ℕ, [], ◌∷◌, map, IfOk, OnOk, is_some};
ghost use Rattle.sf_parts.specs.Admitted.{block_names, pad_names};
ghost use Rattle.sf_parts.specs.Table.{place_in, IsTableOf};

use crate::raw::{RawBlock, RawPad};
use sf_model::Name;
use std::alloc::{AllocError, Global};
use std::collections::BTreeMap;

/// The first index of each name, and the first name that stands again further on.
#[derive(Drop)]
pub struct NameTable<'a> {
    places: BTreeMap<&'a [u8], usize>,
    first_repeated: Option<&'a Name>,
}

impl<'a> NameTable<'a> {
    /// The table of no names.
    fn new(alloc: Global) -> NameTable<'a>
        ensures { (i : ℕ) → IsTableOf result i [] }
    {
        NameTable {
            places: BTreeMap::new(alloc),
            first_repeated: None,
        }
    }

    /// Puts a name before those that stand there.
    fn put(&mut self, name: &'a Name, place: usize) -> Result<(), AllocError>
        ensures { OnOk result ((names : List (List ℕ)) → IsTableOf self.old (place + 1) names
            → IsTableOf self.new place (name.now ∷ names)) }
    {
        let old = self.places.insert(name.as_bytes(), place)?;
        if old.is_some() {
            self.first_repeated = Some(name);
        }
        Ok(())
    }

    /// The table of the names of the items of a list.
    fn of_items<X, F: Fn(&'a X) -> &'a Name>(
        alloc: Global,
        items: &'a [X],
        name: F,
    ) -> Result<NameTable<'a>, AllocError>
        requires { F.IsAlwaysCallable name }
        ensures { IfOk result (λ table. (text : X → List ℕ)
            → ((x : _) (n : _) → F.post name x n → n.now ≡ text x.now)
            → IsTableOf table 0 (map text items.now)) }
    {
        let mut table = NameTable::new(alloc);
        let mut left = items.len();
        while left > 0 {
            left -= 1;
            table.put(name(&items[left]), left)?;
        }
        Ok(table)
    }

    /// The table of the names of blocks.
    pub fn of_blocks(alloc: Global, blocks: &'a [RawBlock]) -> Result<NameTable<'a>, AllocError>
        ensures { IfOk result (λ table. IsTableOf table 0 (block_names blocks.now)) }
    {
        NameTable::of_items(alloc, blocks, |block| &block.name)
    }

    /// The table of the names of pads.
    pub fn of_pads(alloc: Global, pads: &'a [RawPad]) -> Result<NameTable<'a>, AllocError>
        ensures { IfOk result (λ table. IsTableOf table 0 (pad_names pads.now)) }
    {
        NameTable::of_items(alloc, pads, |pad| &pad.name)
    }

    /// The first index of a name, if it is there.
    pub fn place_of(&self, name: &Name) -> Option<usize>
        ensures { result ≡ place_in self.now name.now }
    {
        self.places.get(name.as_bytes()).copied()
    }

    /// Whether a name is there.
    pub fn has(&self, name: &Name) -> bool
        ensures { result ≡ is_some (place_in self.now name.now) }
    {
        self.place_of(name).is_some()
    }

    /// The first name that stands again further on.
    pub fn first_repeated(&self) -> Option<&'a Name>
        ensures { result ≡ self.now.first_repeated }
    {
        self.first_repeated
    }
}
