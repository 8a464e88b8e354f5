//! Stored bounds: a function from subproblems to numbers beside the fact that no plan of a subproblem costs less.
//!
//! A `Kit` is the greater of the standard bound and of what its function says, and `Both` the greater of any two
//! bounds; each implements the trait of `sf_bound`, whose laws follow from the stored fact. `pair_area` and
//! `pair_fit` are two such functions: they read of a subproblem the least sides of its first sixteen blocks alone.
//! The crate stands on `sf_bounds` for the standard bound and its room, on `sf_standard` for what two blocks of a
//! floorplan are apart, and on `sf_certificate` for the law of kits over certificates (`laws`). The crate above
//! uses the values of kits by their definitions, and that they are bounds.
#![tactic(auto)]

mod asked;
mod both;
mod kit;
mod laws;
mod pairs;
mod sides;
mod stored;

pub use asked::Asked;
pub use both::Both;
pub use kit::{Kit, KitRoom, Says};
pub use laws::{kits_close_more, pairs_are_below};
pub use pairs::{pair_area, pair_fit};
pub use stored::{PairArea, PairFit, area_kit, fit_kit};
