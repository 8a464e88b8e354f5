//! What a command has worked out: its status, what is to be stored, and what is to be printed.

ghost use Rattle.std.specs.Prelude.{◌≡◌, []};
ghost use Rattle.sf_designs.specs.Stores.{stored_in};

use sf_io::Status;
use std::alloc::Global;

/// A text that is to be stored under a name.
#[derive(Drop)]
pub struct Store {
    pub name: String,
    pub bytes: Vec<u8>,
}

/// Nothing to store.
pub fn no_stores(alloc: Global) -> Vec<Store>
    ensures { stored_in result.items ≡ [] }
{
    Vec::new(alloc)
}

/// The answer of a command, before anything of it is stored or printed.
#[derive(Drop)]
pub struct Work {
    pub status: Status,
    pub stores: Vec<Store>,
    pub text: Vec<u8>,
}

impl Work {
    /// An answer that stores nothing.
    pub fn printed(alloc: Global, status: Status, text: Vec<u8>) -> Work
        ensures status { result.status ≡ status }
        ensures stores { stored_in result.stores.items ≡ [] }
        ensures text { result.text.items ≡ text.items }
    {
        Work {
            status,
            stores: no_stores(alloc),
            text,
        }
    }
}
