//! Reading of YAL files, the format of the MCNC benchmark circuits.
//!
//! A text is a list of statements, each ended by a semicolon, with comments that count as blanks. The
//! statements are cut into modules and their sections, and the module of the type PARENT holds the
//! instances of the others. `read_yal` gives the design that a text stands for: a hard block for each
//! instance, with the box of its module; a net for each distinct signal; and a pad for each terminal of
//! the parent that has a place. The crate stands on `sf_lex` for words and numbers, and on `sf_parts`
//! for the parts of a design. The crates above use the clauses of `read_yal`: by `found` and `only` it
//! reads what the text stands for and nothing else, by `refused` and `faulty` it answers the first fault
//! of a text that stands for nothing, and `exact` says both by a function. `stands_for_one` says that a
//! text stands for at most one design, or has one first fault, and `parts_keep_ranges` that its blocks
//! have sizes and its pins are of blocks and pads that are there.
#![tactic(auto)]

mod blocks;
mod comments;
mod fault;
mod found;
mod instance;
mod keyword;
mod laws;
mod losses;
mod nets;
mod open_module;
mod piece;
mod read;
mod vertices;

pub use fault::YalFault;
pub use laws::parts_keep_ranges;
pub use losses::{YalLosses, yal_losses};
pub use read::{read_yal, stands_for_one};
