//! What the programs take from the system beside files and output: the words of the command line, and the
//! number with which the process ends. It stands on `sf_io` for the statuses. The program crates use the
//! clause of `code_of`.
#![tactic(auto)]

mod code;
mod words;

pub use code::code_of;
pub use words::host_words;
