//! The text of a certificate: writing and reading.
//!
//! `write` gives the text of a certificate. `read` reads a text of any version, and answers the first fault of a text
//! that is no certificate, with its line. `stored_paths` reads the header alone. `Opening` and `ByteReader` read the
//! same from pieces that are cut anywhere. The crates above use what a text is read as, and that what is written is
//! read back (`texts_are_read_back`). What certificates mean stands in `sf_certificate`, words and lines in `sf_lex`,
//! and the text of a plan in `sf_expr_text`.
#![tactic(auto)]

mod bytes;
mod fault;
mod header;
mod laws;
mod letter;
mod opening;
mod path_reading;
mod path_writing;
mod reading;
mod tree;
mod version;
mod waiting;
mod writing;

pub use bytes::{ByteReader, Taken};
pub use fault::CertFault;
pub use header::Header;
pub use laws::texts_are_read_back;
pub use opening::Opening;
pub use reading::{read, stored_paths};
pub use version::Version;
pub use writing::write;
