//! The words of the command line.

ghost use Rattle.std.specs.Prelude.{◌≡◌, drop, IfOk};
ghost use Rattle.std.specs.Vec.Iter.{into_iter_items};

use std::alloc::{AllocError as NoMemory, Global};
use std::env;
use std::io::ErrorKind;

/// All words but the first, which is the program's name.
fn behind_the_name(alloc: Global, all: env::Args) -> Result<Vec<String>, NoMemory>
    ensures { IfOk result (λ words. words.items ≡ drop 1 (into_iter_items all)) }
{
    all.skip(1).collect(alloc)
}

/// The words after the program's name. Words that are no text are taken as no words, which mean nothing.
pub fn host_words(rt: HostRuntime) -> Result<Vec<String>, NoMemory> {
    let alloc = rt.alloc();
    match env::args(&rt) {
        Ok(all) => behind_the_name(alloc, all),
        Err(fault) if fault.kind() == ErrorKind::OutOfMemory => Err(NoMemory),
        Err(_) => Ok(Vec::new(alloc)),
    }
}
