//! Where the blocks of a plan stand, and whether given rectangles are a floorplan.
//!
//! `size` and `spots` pack a slicing tree to the lower left in one pass; `check_spots` judges a
//! placement by the shape lists, the outline and overlaps. The crate stands on `sf_model`. The
//! crates above use that the spots of a plan are those of its definition, by block number, and
//! that they are legal where the plan is legal and fits.
#![tactic(auto)]

mod laws;
mod measure;
mod placing;
mod verdict;

pub use laws::verdicts_are_one;
pub use measure::{fits, size};
pub use placing::{spot_at, spots};
pub use verdict::{Verdict, check_spots, is_listed};
