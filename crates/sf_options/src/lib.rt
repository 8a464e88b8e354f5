//! Commands with their options, whatever they are read from: what each command may be told, in which range, and what
//! holds where an option isn't given. The crate stands on `sf_lex` for the scale of a file and on `sf_model` for the
//! greatest side. Whoever obeys a command, as `sf_designs` and `sf_known`, stands on this crate; the words of the
//! command line, which `sf_words` reads, and the lines of a jobs file, which `sf_jobs` reads, are its two sources. The
//! crates above use the types with their ranges, and the definitions of `Options`, `Seen` and `Defaults`.
#![tactic(auto)]

mod command;
mod defaults;

pub use command::{
    BoundsChoice, CheckWords, CommandWords, DesignWords, GenWords, InputFiles, Kinds, MeasureWords,
    PlanWords, ResumeWords, ShapeWords, StartWords, WeightWords,
};
pub use defaults::{
    DEFAULT_AREA_WEIGHT, DEFAULT_MOVES, DEFAULT_PER_UNIT, DEFAULT_SHAPES, DEFAULT_START_COUNT,
    DEFAULT_START_SEED, DEFAULT_WIRE_WEIGHT, DEFAULT_WORKERS,
};
