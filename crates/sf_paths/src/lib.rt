//! Paths from pad to pad, sought along each axis.
//!
//! `find_paths` looks for paths whose ends are far apart, as a flow that fills the nets up to their weights. No clause
//! says what it finds: `Design::set_paths` tests whether paths are legal, and any legal ones serve the bound.
#![tactic(auto)]

mod finding;
mod flow;
mod levels;
mod search;
mod walking;
mod web;

pub use finding::find_paths;
