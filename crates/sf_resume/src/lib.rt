//! A search that goes on from a certificate.
//!
//! The tree of the certificate is cut into what is decided, as pieces, and what is open, as stretches
//! (`cut_apart`). The search of teams (`sf_rounds`) goes on from these stretches. What it decided and what it left
//! open are new pieces, which are laid with the old ones into one tree (`graft`, by `sf_pieces`). Where an old
//! subproblem is closed by another part of the bound than the area, the parts are named anew over the whole
//! (`sf_checker`), since the cost may have fallen. The crates above use what `resume` promises of the certificate
//! of the whole.
#![tactic(auto)]

mod cutting;
mod early;
mod grafting;
mod reaching;
mod reading;
mod resuming;

pub use cutting::{Apart, cut_apart};
pub use grafting::graft;
pub use resuming::resume;
