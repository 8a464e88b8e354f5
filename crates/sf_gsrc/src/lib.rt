//! Readers of GSRC floorplan benchmark files: blocks, nets and pl; and of the weights of nets, which those
//! files lack.
//!
//! Each reader goes over the lines of its text once, by `sf_lex`, and makes the raw parts of `sf_parts`.
//! The crates above use three clauses of a reader: `stands` (what is read is what the text stands for, by a
//! relation on its lines that knows no order of work), `only` (what the text stands for is read, unless
//! memory runs out), and `exact` (any fault is the first one, at its line and with its values).
//! `join_parts` joins what the readers gave to the parts of one design; `blocks_have_sizes`,
//! `nets_name_their_pins` and `joined_parts_keep_ranges` say that its blocks have sizes and no pin is of a
//! block or a pad that isn't there. How the files are read is this project's own choice, lenient where the
//! files of the benchmark vary.
#![tactic(auto)]

mod blocks;
mod by_name;
mod content;
mod count;
mod fault;
mod found;
mod join;
mod keywords;
mod laws;
mod line;
mod net_words;
mod nets;
mod nets_found;
mod numbering;
mod output;
mod owners;
mod place_line;
mod places;
mod weights;

pub use blocks::{blocks_stand_for_one, read_blocks};
pub use content::next_content;
pub use fault::{GsrcFault, JoinFault, WeightFault};
pub use join::join_parts;
pub use laws::{
    blocks_have_sizes, joined_parts_keep_ranges, nets_name_their_pins, numbers_change_no_fault,
};
pub use nets::{nets_stand_for_one, read_nets};
pub use output::{GsrcBlocks, GsrcNets, GsrcPlaces, Place, PlaceList};
pub use places::{places_stand_for_one, read_pl};
pub use weights::{read_weights, weights_stand_for_one};
