//! From a number to a design and the stores of its texts: what `gen` plans and stores. The texts of the design are
//! made, read back as files would be, and the design is built of what they say, which is never refused. The crate
//! stands on `sf_gen` for the texts and the laws of what they say, and on `sf_designs` for the stages from a text
//! to a design. The crate above, which searches the design, uses that the texts stand for it and that they are
//! what is stored, under the names that begin as the words say.
#![tactic(auto)]

mod designs;
mod reading;
mod texts;

pub use designs::{Generated, generate_design};
pub use texts::file_name;
