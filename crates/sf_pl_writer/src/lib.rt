//! The texts that the program prints and stores for a plan: the GSRC pl text of its rectangles
//! and the report of eight lines.
//!
//! Each text is a function of plain values in the specs, and the writers give it byte for byte.
//! The crate stands on `sf_expr_text`, which writes the plan's expression, and on `sf_model`. The
//! crates above use the clauses `text` of `pl_text` and of `report_text`.
#![tactic(auto)]

mod length;
mod placed;
mod report;

pub use placed::pl_text;
pub use report::{Outcome, Report, report_text};
