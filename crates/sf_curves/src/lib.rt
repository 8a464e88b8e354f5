//! Shape curves: the undominated sizes of a slicing tree's plans (Stockmeyer 1983).
//!
//! A curve is seen as the list of its points, widths rising and heights falling. The crate stands on
//! `sf_model` and on `sf_polish` for expressions. `root_curve` gives the curve of an expression whose
//! blocks take shapes from spans of their lists, and `trace` leads from a point of that curve to a plan of
//! just this size. The bound uses of `Curve` that each point is a size (`traced`) and that each size in the
//! outline is covered (`covers`), and that of tokens and spans there is one curve, one least area and one
//! trace of it (`laws`).
#![tactic(auto)]

mod combining;
mod curve;
mod curve_tree;
mod direction;
mod laws;
mod of_shapes;
mod picking;
mod point;
mod root;
mod tracing;

pub use combining::combine;
pub use curve::Curve;
pub use curve_tree::{block_curve, block_curve_in};
pub use direction::{Direction, operator};
pub use laws::traces_are_one;
pub use picking::least_area_point;
pub use point::{Point, area};
pub use root::root_curve;
pub use tracing::trace;
