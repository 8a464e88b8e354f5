//! Large designs made from a number: their GSRC texts.
//!
//! A seed starts a random number generator whose words give the sizes of the blocks and the ends of the nets
//! (`drawn`); `blocks`, `nets` and `pl` write the texts of these. The crates above use the clauses of
//! `design_of`, which say what each text is, byte for byte, and the laws: each text is read as what it spells
//! (`blocks_are_read`, `nets_are_read`, `places_are_read`), that is joined to parts which are admitted
//! (`parts_are_admitted`), and no block of these is without a shape (`blocks_have_shapes`).
#![tactic(auto)]

mod blocks;
mod design;
mod drawn;
mod laws;
mod nets;
mod pl;
mod texts;

pub use design::{Kinds, design_of};
pub use laws::{
    blocks_are_read, blocks_have_shapes, nets_are_read, parts_are_admitted, places_are_read,
};
pub use texts::GenTexts;
