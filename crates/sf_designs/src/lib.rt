//! From the files that the options name to a design, stage by stage: a text is loaded and parsed, the parts that
//! the texts say are joined and tested, each block gets its shapes, and a design is built. A stage gives a
//! value or ends the call with the line that refuses an input. It stands on the readers of texts
//! (`sf_gsrc`, `sf_yal`), the options (`sf_options`), the shape lists (`sf_soft_shapes`) and the parts
//! (`sf_parts`). The crate above, which holds the commands, uses of each stage that it ends with what the
//! relations of `specs/Reading` say for the texts on the shelf, that nothing is stored, and that a failed load
//! is told only where one was counted.
#![tactic(auto)]

mod designs;
mod losses;
mod parsing;
mod reading;
mod refusals;
mod stop;
mod weighed;
mod weighing;
mod work;

pub use designs::{make_design, read_admitted, read_design};
pub use losses::{Losses, count_losses, lossy_file};
pub use parsing::{join, parse_blocks, parse_nets, parse_places};
pub use reading::{FILE_LIMIT, load_text, load_within, read_places_file};
pub use refusals::{bare_fault, named_fault, over_limit};
pub use stop::Stop;
pub use weighed::{AdmittedParts, ReadParts, Weighed};
pub use work::{Store, Work, no_stores};
