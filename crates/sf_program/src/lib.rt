//! The floorplanner as one call: `run` takes the words, a shelf of files, a sink and a gate, does what the
//! words ask for, and ends with a status. It stands on every crate below. A command is worked out as stages
//! one after another, each of which gives a value or the refusal that ends the call; what is stored and
//! printed is made before anything is stored. The program crate, which holds `main` alone, uses the clauses
//! of `run`: the answer that the words and the texts on the shelf have is stored and printed whole, a fault
//! is told only where one was counted, and where something failed it is said what was stored and printed. The
//! batch program uses the stages of `plan` by themselves: `read_plan`, which gives a design or the reason why
//! there is none, and `search_design`, which searches one and makes its texts.
#![tactic(auto)]

mod answering;
mod budget;
mod certificates;
mod checking;
mod chosen;
mod commands;
mod generating;
mod judging;
mod knowing;
mod laws;
mod plan_answer;
mod plan_input;
mod planning;
mod program;
mod resuming;
mod rewriting;
mod searching;
mod with_paths;

pub use commands::usage;
pub use laws::{answers_are_one, designs_are_one, taken_texts_are_answered};
pub use plan_answer::Names;
pub use plan_input::read_plan;
pub use planning::search_design;
pub use program::{run, run_unfailing};
