//! The outside as traits: a shelf on which texts are loaded and stored, a sink that output goes to, and a
//! gate that a worker passes before each decision. A shelf and a sink tell what they hold and took where
//! they can, and count their faults, so that the program above can say of each answer which fault it stands
//! for. There are three families of implementations: files and the standard output (`HostShelf`,
//! `HostSink`), memory whose calls fail where a list says so (`MemShelf`, `MemSink`), and an outside that
//! never fails (`NeverShelf`, `NeverSink`). The crate stands on std alone. The crates above use the clauses
//! of `Shelf`, `Sink` and `write_all`: bytes, and counts of faults. The loops below the shelf and the sink of
//! the host are public for tests, which give them files that fail.
#![tactic(auto)]

mod again;
mod host;
mod memory;
mod never;
mod outside;
mod partial;
mod replacing;
mod status;

pub use again::{read_some, write_some, write_whole};
pub use host::{HostShelf, HostSink, OpenGate};
pub use memory::{MemShelf, MemSink};
pub use never::{NeverShelf, NeverSink};
pub use outside::{Failed, Gate, LoadFault, Shelf, Sink, write_all};
pub use partial::{PartShelf, PartSink};
pub use status::Status;
