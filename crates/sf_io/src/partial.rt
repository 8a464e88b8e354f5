//! A shelf and a sink in memory whose calls do a part of what they are asked for.

ghost use Rattle.std.specs.Prelude.{◌≡◌, [], Some};
ghost use Rattle.std.specs.Option.{option_map};
ghost use Rattle.sf_io.specs.MemShelf.{mem_contents, mem_load_faults, mem_texts};
ghost use Rattle.sf_io.specs.Outside.{StoresPart};
ghost use Rattle.sf_io.specs.Partial.{part_shelf_faults, part_shelf_seen, part_shelf_texts, part_shelf_whole};
ghost use Rattle.sf_io.specs.Partial.{part_sink_faults, part_sink_room, part_sink_seen, part_sink_taken};

use crate::{Failed, LoadFault, MemShelf, Shelf, Sink};
use std::alloc::{AllocError as NoMemory, Global};

/// The most bytes that a put takes.
const PIECE: usize = 3;

/// Texts by name, of which only the first stores are done whole: each later one keeps the first half of its
/// bytes, and fails. Loads are those of a shelf in memory.
#[derive(Drop)]
pub struct PartShelf {
    texts: MemShelf,
    whole: u64,
    faults: u64,
}

impl PartShelf {
    /// So many stores are done whole.
    pub fn new(texts: MemShelf, whole: u64) -> Self
        ensures texts { part_shelf_texts result ≡ texts }
        ensures whole { part_shelf_whole result ≡ whole }
        ensures faults { part_shelf_faults result ≡ 0 }
    {
        PartShelf {
            texts,
            whole,
            faults: 0,
        }
    }

    /// What a name holds.
    pub fn bytes(&self, name: &str) -> Option<&[u8]>
        ensures { option_map (λ bytes. bytes.now) result ≡ mem_texts (part_shelf_texts self.now) name.now }
    {
        self.texts.bytes(name)
    }
}

/// The first half of the bytes under a name, where there is memory for it.
fn keep_half(texts: &mut MemShelf, name: &str, bytes: &[u8])
    ensures part { let old = Some (mem_contents texts.old) in let new = Some (mem_contents texts.new) in
        StoresPart old new name.now bytes.now }
    ensures loads { mem_load_faults texts.new ≡ mem_load_faults texts.old }
{
    match texts.add(name, &bytes[..bytes.len() / 2]) {
        Ok(()) => {}
        Err(NoMemory) => {}
    }
}

impl Shelf for PartShelf {
    ghost seen = { part_shelf_seen };

    fn load(&mut self, name: &str, limit: u64) -> Result<Vec<u8>, LoadFault> {
        self.texts.load(name, limit)
    }

    fn store(&mut self, name: &str, bytes: &[u8]) -> Result<(), Failed> {
        if self.whole == 0 {
            keep_half(&mut self.texts, name, bytes);
            self.faults = self.faults.saturating_add(1);
            return Err(Failed);
        }
        self.whole -= 1;
        match self.texts.add(name, bytes) {
            Ok(()) => Ok(()),
            Err(NoMemory) => {
                self.faults = self.faults.saturating_add(1);
                Err(Failed)
            }
        }
    }
}

/// Bytes in memory, of which a put takes three at most, up to so many in all: where there is room for none,
/// it fails.
#[derive(Drop)]
pub struct PartSink {
    taken: Vec<u8>,
    room: usize,
    faults: u64,
}

impl PartSink {
    /// There is room for so many bytes.
    pub fn new(alloc: Global, room: usize) -> Self
        ensures taken { part_sink_taken result ≡ [] }
        ensures room { part_sink_room result ≡ room }
        ensures faults { part_sink_faults result ≡ 0 }
    {
        PartSink {
            taken: Vec::new(alloc),
            room,
            faults: 0,
        }
    }

    /// What was taken.
    pub fn bytes(&self) -> &[u8]
        ensures { result.now ≡ part_sink_taken self.now }
    {
        &self.taken
    }
}

impl Sink for PartSink {
    ghost seen = { part_sink_seen };

    fn put(&mut self, piece: &[u8]) -> Result<usize, Failed> {
        let count = piece.len().min(PIECE).min(self.room);
        let is_some = count > 0 || piece.is_empty();
        if is_some && self.taken.extend_from_slice(&piece[..count]).is_ok() {
            self.room -= count;
            return Ok(count);
        }
        self.faults = self.faults.saturating_add(1);
        Err(Failed)
    }
}
