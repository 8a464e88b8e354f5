//! The search over subproblems, to a certificate, by the caller alone or by a team.
//!
//! Alone, it walks over the tree in preorder by one cursor (`search_walk`): each subproblem is decided
//! against the incumbent and its tag is put down. A closed one names the first part of the bound that is at
//! least the cost: at first against the incumbent, and at the end, by what was kept of it, against the cost of
//! the plan. What the walk does is told by the turns of the search core. With several workers, or from a plan that
//! is known (`search_below`), a team goes on from the root (`sf_rounds`), and the pieces of all walks are assembled
//! into the certificate (`sf_pieces`). The crate stands on the core (`sf_search_core`), on the cursor
//! (`sf_cursor`), on one worker's visit (`sf_worker`), on the search of teams (`sf_rounds`), and on the certificate
//! (`sf_certificate`, `sf_pieces`), and knows nothing of shape curves. The crates above use the clauses of `search`
//! and `search_below`, and that a state of the core has one certificate (`laws`).
#![tactic(auto)]

mod laws;
mod one_walk;
mod searching;
mod walk;

pub use laws::certificates_are_one;
pub use searching::{search, search_below};
