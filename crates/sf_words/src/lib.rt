//! The words of the command line: which lists of words have a meaning, and what it is. A list of words has
//! the form of a command and its options, each at most once, valued ones as `--name value` or
//! `--name=value`; the crate tests this form by itself, so that this test and the ranges alone decide what
//! has no meaning. On a list of the form `clap` gives the values, and fails for want of memory alone. The
//! crate stands on `clap` for the values, on `sf_options` for the options that the words mean and their
//! defaults, on `sf_lex` for the decimals of the outline and on `sf_model` for its greatest side. The crates
//! above use the clauses of `read_words` (what the words mean, or that they mean nothing) and the law that a
//! list of words has at most one meaning.
#![tactic(auto)]

mod line;
mod meaning;
mod options;
mod outline;
mod parsed;
mod ranges;
mod settings;

pub use line::read_words;
pub use meaning::meaning_is_unique;
