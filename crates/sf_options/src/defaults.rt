//! What an option is where it isn't given.

ghost use Rattle.std.specs.Prelude.{◌≡◌};
ghost use Rattle.sf_options.specs.Defaults.{default_bounds, default_design, default_kinds, default_starts};
ghost use Rattle.sf_options.specs.Defaults.{weights_by_wire};
ghost use Rattle.sf_options.specs.Seen.{design_seen, input_seen, starts_seen, weights_seen};

use crate::command::{BoundsChoice, DesignWords, InputFiles, Kinds, StartWords, WeightWords};
use sf_lex::Scale;
use sf_model::MOST_SIDE;

/// How many scaled units one unit of the file is.
pub const DEFAULT_PER_UNIT: u64 = 1;

/// The greatest number of shapes of a block.
pub const DEFAULT_SHAPES: u16 = 16;

pub const DEFAULT_AREA_WEIGHT: u16 = 1;

pub const DEFAULT_WIRE_WEIGHT: u16 = 0;

pub const DEFAULT_WORKERS: u16 = 1;

/// How many walks there are.
pub const DEFAULT_START_COUNT: u16 = 0;

/// How many trials a walk has.
pub const DEFAULT_MOVES: u32 = 1000;

/// The seed of the first walk.
pub const DEFAULT_START_SEED: u64 = 0;

impl BoundsChoice {
    /// The bound where none is chosen.
    pub fn by_default() -> BoundsChoice
        ensures { result ≡ default_bounds }
    {
        BoundsChoice::Standard
    }
}

impl Kinds {
    /// The blocks of a generated design where no kinds are chosen.
    pub fn by_default() -> Kinds
        ensures { result ≡ default_kinds }
    {
        Kinds::Hard
    }
}

impl<'a> DesignWords<'a> {
    /// The options of a design of which the files alone are given.
    pub fn by_default(input: InputFiles<'a>) -> DesignWords<'a>
        ensures { design_seen result ≡ default_design (input_seen input.entry) }
    {
        DesignWords {
            input,
            scale: Scale {
                per_unit: DEFAULT_PER_UNIT,
            },
            is_fixed: false,
            shapes: DEFAULT_SHAPES,
            width: MOST_SIDE as u32,
            height: MOST_SIDE as u32,
        }
    }
}

impl WeightWords<'_> {
    /// The weights of which that of the wires alone is given.
    pub fn by_wire(wire: u16) -> WeightWords<'static>
        ensures { weights_seen result ≡ weights_by_wire wire }
    {
        WeightWords {
            area: DEFAULT_AREA_WEIGHT,
            wire,
            net_weights: None,
        }
    }
}

impl StartWords {
    /// The walks of a search of which nothing is given.
    pub fn by_default() -> StartWords
        ensures { starts_seen result ≡ default_starts }
    {
        StartWords {
            count: DEFAULT_START_COUNT,
            moves: DEFAULT_MOVES,
            seed: DEFAULT_START_SEED,
            improve: None,
        }
    }
}
