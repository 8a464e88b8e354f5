//! The checker of certificates. It trusts nothing of the search that made one, and names none of its crates.
//!
//! `check` measures the plan anew, walks over the tree once by a cursor and takes from a bound function the
//! part that each closed leaf names, and the bound of each open leaf. `Checking` does the same for a text
//! that comes in pieces: it keeps the header, the first part of a word that is cut in two, and one path.
//! `name_parts` walks in the same way over a valid certificate, and has each closed leaf name the first part
//! that closes it. The crate stands on `sf_certificate` for the certificate, on `sf_cert_text` for its text, on
//! `sf_node` for subproblems, on `sf_cursor` for the way over them, on `sf_bound` for the trait of bound functions,
//! and on `sf_place` and `sf_wire` for what a plan costs. The crates above use that it answers Yes exactly where the
//! certificate is valid, and otherwise the first failure; and that wherever a text is cut, the answer is that to the
//! certificate which the whole text says.
#![tactic(auto)]

mod answer;
mod checking;
mod judge;
mod measuring;
mod naming;
mod pieces;
mod planning;
mod stage;
mod walk;

pub use answer::{Answer, Why, with_bad_path};
pub use checking::check;
pub use naming::name_parts;
pub use pieces::{Checking, FinishFault};
