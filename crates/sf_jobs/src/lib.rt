//! The words of the batch program, the lines of a jobs file, and what is printed of its jobs. A line of five words stands for the words of
//! a `plan` that stores no certificate; these are never made, but what they mean is said by the definitions
//! of `sf_words`, on which the crate stands, as it does on the lines of `sf_gsrc`, the numbers of
//! `sf_lex` and the statuses of `sf_io`. The crates above use the clauses of `read_team_words` and `read_jobs`: what the words and the
//! lines mean, or the first line that is no job, or how many there are beyond the limit; and those of
//! `batch_text` and `batch_status`: the texts of the jobs in their order, and the status of the whole.
#![tactic(auto)]

mod fault;
mod fields;
mod jobs;
mod plan;
mod team;
mod told;
mod words;

pub use fault::JobsFault;
pub use jobs::read_jobs;
pub use team::read_team_words;
pub use told::{Answer, batch_status, batch_text};
pub use words::TeamWords;
