//! A shelf and a sink in memory, whose calls fail where a list says so.

ghost use Rattle.std.specs.Prelude.{◌≡◌, ◌↔◌, ℕ, ◌≤◌, ◌<◌, ◌⊎◌, List, [], ◌++◌, length, Some, None, IfOk};
ghost use Rattle.std.specs.Prelude.{OnOk, OnErr, IsErr, IsErrOf, Contains};
ghost use Rattle.std.specs.Option.{option_map};
ghost use Rattle.sf_io.specs.Outside.{one_more, HoldsMore, MayFail, Stores, StoresPart, KeepsOthers};

use crate::outside::copy_within;
use crate::{Failed, LoadFault, Shelf, Sink};
use std::alloc::{AllocError as NoMemory, Global};
use std::collections::BTreeMap;

/// Texts by name, and the numbers of the calls that are to fail.
#[derive(Drop)]
pub struct MemShelf {
    alloc: Global,
    texts: BTreeMap<String, Vec<u8>>,
    failing: Vec<u64>,
    calls: u64,
    load_faults: u64,
    store_faults: u64,
}

impl MemShelf {
    ghost use Rattle.sf_io.specs.MemShelf.{mem_texts, mem_failing, mem_calls, mem_load_faults};
    ghost use Rattle.sf_io.specs.MemShelf.{mem_store_faults};

    /// A shelf without names. Loads and stores are numbered together from 1, and those of these numbers fail.
    pub fn new(alloc: Global, failing: Vec<u64>) -> Self
        ensures texts { (name : List ℕ) → mem_texts result name ≡ None }
        ensures failing { mem_failing result ≡ failing.items }
        ensures calls { mem_calls result ≡ 0 }
        ensures load_faults { mem_load_faults result ≡ 0 }
        ensures store_faults { mem_store_faults result ≡ 0 }
    {
        MemShelf {
            alloc,
            texts: BTreeMap::new(alloc),
            failing,
            calls: 0,
            load_faults: 0,
            store_faults: 0,
        }
    }

    /// Puts a text under a name. This is no call with a number, and a refusal is no fault.
    pub fn add(&mut self, name: &str, bytes: &[u8]) -> Result<(), NoMemory>
        ensures added { OnOk result (mem_texts self.new name.now ≡ Some bytes.now) }
        ensures others { OnOk result (KeepsOthers (mem_texts self.old) (mem_texts self.new) name.now) }
        ensures err { OnErr result (mem_texts self.new ≡ mem_texts self.old) }
        ensures failing { mem_failing self.new ≡ mem_failing self.old }
        ensures calls { mem_calls self.new ≡ mem_calls self.old }
        ensures load_faults { mem_load_faults self.new ≡ mem_load_faults self.old }
        ensures store_faults { mem_store_faults self.new ≡ mem_store_faults self.old }
    {
        let key = String::from_str(self.alloc, name)?;
        let text = bytes.to_vec(self.alloc)?;
        self.texts.insert(key, text)?;
        Ok(())
    }

    /// What a name holds.
    pub fn bytes(&self, name: &str) -> Option<&[u8]>
        ensures { option_map (λ bytes. bytes.now) result ≡ mem_texts self.now name.now }
    {
        match self.texts.get(name) {
            Some(text) => Some(text.as_slice()),
            None => None,
        }
    }
}

impl Shelf for MemShelf {
    ghost use Rattle.sf_io.specs.MemShelf.{mem_contents, mem_seen, mem_texts, mem_failing, mem_calls};
    ghost use Rattle.sf_io.specs.MemShelf.{mem_load_faults, mem_store_faults};

    ghost seen = { mem_seen };

    fn load(&mut self, name: &str, limit: u64) -> Result<Vec<u8>, LoadFault>
        ensures bytes { IfOk result (λ bytes. mem_texts self.old name.now ≡ Some bytes.items) }
        ensures limit { IfOk result (λ bytes. length bytes.items ≤ limit) }
        ensures too_long { IsErrOf result LoadFault.TooLong →
            HoldsMore (Some (mem_contents self.old)) name.now limit }

        // It fails where its number is listed or the name isn't there, and nowhere else.
        ensures listed { IsErrOf result LoadFault.Failed ↔
            (Contains (mem_failing self.old) (one_more (mem_calls self.old))
            ⊎ (mem_texts self.old name.now ≡ None)) }
        ensures lost { IsErrOf result LoadFault.Failed → MayFail (Some (mem_contents self.old)) name.now }

        // A load that failed is counted, and no other: not one of a text that is too long, or for which
        // there is no memory.
        ensures failed { IsErrOf result LoadFault.Failed →
            mem_load_faults self.new ≡ one_more (mem_load_faults self.old) }
        ensures passed { ¬ IsErrOf result LoadFault.Failed →
            mem_load_faults self.new ≡ mem_load_faults self.old }
        ensures later { mem_load_faults self.old ≤ mem_load_faults self.new }

        ensures calls { mem_calls self.new ≡ one_more (mem_calls self.old) }
        ensures failing { mem_failing self.new ≡ mem_failing self.old }
        ensures held { mem_contents self.new ≡ mem_contents self.old }
        ensures stores { mem_store_faults self.new ≡ mem_store_faults self.old }
    {
        self.calls = self.calls.saturating_add(1);
        let is_listed = self.failing.contains(&self.calls);
        match self.texts.get(name) {
            Some(text) if !is_listed => copy_within(self.alloc, text.as_slice(), limit),
            _ => {
                self.load_faults = self.load_faults.saturating_add(1);
                Err(LoadFault::Failed)
            }
        }
    }

    fn store(&mut self, name: &str, bytes: &[u8]) -> Result<(), Failed>
        ensures stored { OnOk result
            (Stores (Some (mem_contents self.old)) (Some (mem_contents self.new)) name.now bytes.now) }
        ensures part { OnErr result
            (StoresPart (Some (mem_contents self.old)) (Some (mem_contents self.new)) name.now bytes.now) }
        ensures kept { OnErr result (mem_texts self.new ≡ mem_texts self.old) }

        // It fails where its number is listed. Elsewhere only want of memory is a fault.
        ensures listed { Contains (mem_failing self.old) (one_more (mem_calls self.old)) → IsErr result }

        // A store that failed is counted, and no other.
        ensures failed { OnErr result (mem_store_faults self.new ≡ one_more (mem_store_faults self.old)) }
        ensures passed { OnOk result (mem_store_faults self.new ≡ mem_store_faults self.old) }
        ensures later { mem_store_faults self.old ≤ mem_store_faults self.new }

        ensures calls { mem_calls self.new ≡ one_more (mem_calls self.old) }
        ensures failing { mem_failing self.new ≡ mem_failing self.old }
        ensures loads { mem_load_faults self.new ≡ mem_load_faults self.old }
    {
        self.calls = self.calls.saturating_add(1);
        if self.failing.contains(&self.calls) {
            self.store_faults = self.store_faults.saturating_add(1);
            return Err(Failed);
        }
        match self.add(name, bytes) {
            Ok(()) => Ok(()),
            Err(NoMemory) => {
                self.store_faults = self.store_faults.saturating_add(1);
                Err(Failed)
            }
        }
    }
}

/// Bytes in memory, and the numbers of the puts that are to fail.
#[derive(Drop)]
pub struct MemSink {
    taken: Vec<u8>,
    failing: Vec<u64>,
    calls: u64,
    faults: u64,
}

impl MemSink {
    ghost use Rattle.sf_io.specs.MemSink.{mem_taken, sink_failing, sink_calls, sink_faults};

    /// Nothing is taken yet. Puts are numbered from 1, and those of these numbers fail.
    pub fn new(alloc: Global, failing: Vec<u64>) -> Self
        ensures taken { mem_taken result ≡ [] }
        ensures failing { sink_failing result ≡ failing.items }
        ensures calls { sink_calls result ≡ 0 }
        ensures faults { sink_faults result ≡ 0 }
    {
        MemSink {
            taken: Vec::new(alloc),
            failing,
            calls: 0,
            faults: 0,
        }
    }

    /// What was taken.
    pub fn bytes(&self) -> &[u8]
        ensures { result.now ≡ mem_taken self.now }
    {
        &self.taken
    }
}

impl Sink for MemSink {
    ghost use Rattle.sf_io.specs.MemSink.{mem_taken, sink_failing, sink_calls, sink_faults, sink_seen};

    ghost seen = { sink_seen };

    /// Takes the piece whole.
    fn put(&mut self, piece: &[u8]) -> Result<usize, Failed>
        ensures bound { IfOk result (λ n. n ≡ length piece.now) }
        ensures taken { OnOk result (mem_taken self.new ≡ mem_taken self.old ++ piece.now) }
        ensures kept { OnErr result (mem_taken self.new ≡ mem_taken self.old) }

        // It fails where its number is listed. Elsewhere only want of memory is a fault.
        ensures listed { Contains (sink_failing self.old) (one_more (sink_calls self.old)) → IsErr result }

        // A put that failed is counted, and no other.
        ensures failed { OnErr result (sink_faults self.new ≡ one_more (sink_faults self.old)) }
        ensures passed { OnOk result (sink_faults self.new ≡ sink_faults self.old) }
        ensures later { sink_faults self.old ≤ sink_faults self.new }

        ensures calls { sink_calls self.new ≡ one_more (sink_calls self.old) }
        ensures failing { sink_failing self.new ≡ sink_failing self.old }
    {
        self.calls = self.calls.saturating_add(1);
        if !self.failing.contains(&self.calls) && self.taken.extend_from_slice(piece).is_ok() {
            return Ok(piece.len());
        }
        self.faults = self.faults.saturating_add(1);
        Err(Failed)
    }
}
