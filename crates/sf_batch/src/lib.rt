//! The batch program as one call: `run_batch` takes the words, a shelf of files, a sink and a gate, plans the
//! designs of a jobs file with a team of threads, and prints what each job prints alone, in the order of the
//! jobs. It stands on `sf_jobs` for the words and the lines, on `sf_program` for all that a job does, by the
//! calls of which `plan` is made, and on `sf_team` for the threads. The caller reads and builds one design
//! after another; what is refused there is told at once, and each design that is built goes to the team. The
//! program crate, which holds `main` alone, uses the clauses of `run_batch`.
#![tactic(auto)]

mod answers;
mod batch;
mod begun;
mod doing;
mod file;
mod job;

pub use batch::run_batch;
