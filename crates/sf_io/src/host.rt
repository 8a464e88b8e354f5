//! Files and the standard output. Nothing is told of what they hold or take.

ghost use Rattle.std.specs.Prelude.{◌≡◌, ◌+◌, ◌≤◌, ◌<◌, length, take, IfOk, OnOk, OnErr, IsErrOf};
ghost use Rattle.sf_io.specs.Outside.{one_more};

use crate::again::{read_some, write_some};
use crate::replacing::store_file;
use crate::{Failed, Gate, LoadFault, Shelf, Sink};
use std::alloc::Global;
use std::rt::Files;
use std::{fs, io};

/// The most bytes that are read at once.
const PIECE: usize = 16384;

/// Files, by their paths. A store replaces a file whole or not at all; no clause says so. The counts begin at
/// 0 and stay at the greatest number of `u64`.
#[derive(Drop)]
pub struct HostShelf<R: Files + Drop> {
    rt: R,
    alloc: Global,
    load_faults: u64,
    store_faults: u64,
}

impl<R: Files + Drop> HostShelf<R> {
    ghost use Rattle.sf_io.specs.Host.{host_load_faults, host_store_faults};

    /// Files are reached through `rt`, and what is loaded is kept in memory of `alloc`.
    pub fn new(rt: R, alloc: Global) -> Self
        ensures load_faults { host_load_faults result ≡ 0 }
        ensures store_faults { host_store_faults result ≡ 0 }
    {
        HostShelf {
            rt,
            alloc,
            load_faults: 0,
            store_faults: 0,
        }
    }
}

impl<R: Files + Drop> Shelf for HostShelf<R> {
    ghost use Rattle.sf_io.specs.Host.{host_load_faults, host_shelf_seen, host_store_faults};

    ghost seen = { host_shelf_seen };

    fn load(&mut self, name: &str, limit: u64) -> Result<Vec<u8>, LoadFault>
        ensures limit { IfOk result (λ bytes. length bytes.items ≤ limit) }

        // A load that failed is counted, and no other call.
        ensures failed { IsErrOf result LoadFault.Failed →
            host_load_faults self.new ≡ one_more (host_load_faults self.old) }
        ensures passed { ¬ IsErrOf result LoadFault.Failed →
            host_load_faults self.new ≡ host_load_faults self.old }
        ensures later { host_load_faults self.old ≤ host_load_faults self.new }
        ensures stores { host_store_faults self.new ≡ host_store_faults self.old }
    {
        let result = read_file(&self.rt, self.alloc, name, limit);
        if let Err(LoadFault::Failed) = result {
            self.load_faults = self.load_faults.saturating_add(1);
        }
        result
    }

    fn store(&mut self, name: &str, bytes: &[u8]) -> Result<(), Failed>
        // A store that failed is counted, and no other call.
        ensures failed { OnErr result (host_store_faults self.new ≡ one_more (host_store_faults self.old)) }
        ensures passed { OnOk result (host_store_faults self.new ≡ host_store_faults self.old) }
        ensures later { host_store_faults self.old ≤ host_store_faults self.new }
        ensures loads { host_load_faults self.new ≡ host_load_faults self.old }
    {
        match store_file(&self.rt, self.alloc, name, bytes) {
            Ok(()) => Ok(()),
            Err(_) => {
                self.store_faults = self.store_faults.saturating_add(1);
                Err(Failed)
            }
        }
    }
}

/// How many bytes to ask for behind so many: a whole piece, but no more than one byte past the limit.
fn asked(read: usize, limit: u64) -> usize
    requires { read ≤ limit }
    ensures some { 1 ≤ result }
    ensures piece { result ≤ 16384 }
    ensures past { read + result ≤ limit + 1 }
{
    (limit - read as u64).min(PIECE as u64 - 1) as usize + 1
}

/// Reads a file to its end, or one byte past the limit.
fn read_file<R: Files>(rt: &R, alloc: Global, name: &str, limit: u64) -> Result<Vec<u8>, LoadFault>
    ensures { IfOk result (λ bytes. length bytes.items ≤ limit) }
{
    let Ok(mut file) = fs::open(rt, name) else {
        return Err(LoadFault::Failed);
    };
    let mut bytes = Vec::new(alloc);
    let mut piece = [0; PIECE];
    while bytes.len() as u64 <= limit {
        let room = asked(bytes.len(), limit);
        match read_some(&mut file, &mut piece[..room]) {
            Ok(0) => return Ok(bytes),
            Ok(count) => {
                if bytes.extend_from_slice(&piece[..count]).is_err() {
                    return Err(LoadFault::NoMemory);
                }
            }
            Err(Failed) => return Err(LoadFault::Failed),
        }
    }
    Err(LoadFault::TooLong)
}

/// The standard output.
#[derive(Drop)]
pub struct HostSink<P: Print + Drop> {
    to: P,
    faults: u64,
}

impl<P: Print + Drop> HostSink<P> {
    ghost use Rattle.sf_io.specs.Host.{host_faults};

    /// What is put goes to the standard output of `to`.
    pub fn new(to: P) -> Self
        ensures faults { host_faults result ≡ 0 }
    {
        HostSink { to, faults: 0 }
    }
}

impl<P: Print + Drop> Sink for HostSink<P> {
    ghost use Rattle.sf_io.specs.Host.{host_faults, host_sink_seen};

    ghost seen = { host_sink_seen };

    fn put(&mut self, piece: &[u8]) -> Result<usize, Failed>
        ensures bound { IfOk result (λ n. n ≤ length piece.now) }
        ensures moves { IfOk result (λ n. 0 < length piece.now → 0 < n) }

        // A put that failed is counted, and no other.
        ensures failed { OnErr result (host_faults self.new ≡ one_more (host_faults self.old)) }
        ensures passed { OnOk result (host_faults self.new ≡ host_faults self.old) }
        ensures later { host_faults self.old ≤ host_faults self.new }
    {
        match write_some(&mut io::writer(&self.to), piece) {
            Ok(count) => Ok(count),
            Err(Failed) => {
                self.faults = self.faults.saturating_add(1);
                Err(Failed)
            }
        }
    }
}

/// The gate of a real run, which does nothing.
#[derive(Clone, Copy, Default)]
pub struct OpenGate;

impl Gate for OpenGate {
    fn at(&self, _worker: usize, _step: u64) {}
}
