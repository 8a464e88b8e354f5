//! What is made.

use sf_model::Items;

/// The texts of a design, one for each kind of GSRC file.
#[derive(Drop)]
pub struct GenTexts {
    pub blocks: Items<u8>,
    pub nets: Items<u8>,
    pub pl: Items<u8>,
}
