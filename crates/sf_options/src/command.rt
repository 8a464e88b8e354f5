//! Commands with their options, as the words give them or leave them to their defaults.
ghost use Rattle.std.specs.Prelude.{◌+◌, ◌^◌, ◌<◌, ◌≤◌};
ghost use Rattle.std.specs.Option.{ForSome};

use sf_lex::Scale;

/// The files that tell a design, by the format that was chosen.
#[derive(Clone, Copy)]
pub enum InputFiles<'a> {
    /// The files of the GSRC floorplan benchmarks.
    Gsrc {
        blocks: &'a str,
        nets: Option<&'a str>,
        pl: Option<&'a str>,
    },
    /// A file of the MCNC benchmarks.
    Yal {
        file: &'a str,
    },
}

/// The options that tell a design.
#[derive(Clone, Copy)]
pub struct DesignWords<'a> {
    pub input: InputFiles<'a>,
    /// How many scaled units one unit of the file is: 1, 10, 100 or 1000.
    pub scale: Scale,
    /// Whether a hard block keeps its given sides, and isn't turned.
    pub is_fixed: bool,
    /// The greatest number of shapes of a block.
    pub shapes: u16,
    /// The outline's width in scaled units.
    pub width: u32,
    /// The outline's height in scaled units.
    pub height: u32,
    ghost shapes_low: { 2 ≤ shapes },
    ghost shapes_high: { shapes ≤ 256 },
    ghost width_low: { 1 ≤ width },
    ghost width_high: { width ≤ 2 ^ 20 },
    ghost height_low: { 1 ≤ height },
    ghost height_high: { height ≤ 2 ^ 20 },
}

/// What counts in a cost.
#[derive(Clone, Copy)]
pub struct WeightWords<'a> {
    pub area: u16,
    pub wire: u16,
    /// The file that tells the weights of the nets. Without one each net has the weight 1.
    pub net_weights: Option<&'a str>,
    ghost some: { 0 < area + wire },
}

/// The walks that a search may begin with.
#[derive(Clone, Copy)]
pub struct StartWords {
    /// How many walks there are.
    pub count: u16,
    /// How many trials a walk has.
    pub moves: u32,
    /// The seed of the first walk; each further one has the next.
    pub seed: u64,
    /// How many trials make better what a walk finds. Their default depends on the number of blocks.
    pub improve: Option<u64>,
    ghost count_high: { count ≤ 64 },
    ghost moves_low: { 1 ≤ moves },
    ghost moves_high: { moves ≤ 100_000 },
    ghost improve_high: { ForSome improve (λ n. n ≤ 1_000_000_000) },
}

/// Which bound closes subproblems.
#[derive(Clone, Copy)]
pub enum BoundsChoice {
    /// The standard bound of the design as it is read.
    Standard,
    /// The same, of a design that knows more of itself.
    Strong,
    /// The greater of the standard bound and of what the area costs that a pair of blocks needs.
    Pair,
    /// The standard bound, and that a pair of blocks has no room.
    Fit,
    /// The greater of these two.
    Both,
}

/// The options of `plan`.
#[derive(Clone, Copy)]
pub struct PlanWords<'a> {
    pub design: DesignWords<'a>,
    pub weights: WeightWords<'a>,
    /// The file that the certificate is stored in.
    pub cert: &'a str,
    /// The file that the plan is stored in.
    pub pl_out: Option<&'a str>,
    pub workers: u16,
    /// The greatest number of decisions. Its default and its limit depend on the number of blocks.
    pub nodes: Option<u64>,
    /// Whether the limit by the number of blocks is lifted.
    pub is_long: bool,
    pub starts: StartWords,
    /// The file of a placement that the search begins with as well.
    pub begin: Option<&'a str>,
    pub bounds: BoundsChoice,
    ghost workers_low: { 1 ≤ workers },
    ghost workers_high: { workers ≤ 16 },
    ghost nodes_low: { ForSome nodes (λ n. 1 ≤ n) },
    ghost nodes_high: { ForSome nodes (λ n. n ≤ 1_000_000_000_000) },
}

/// The options of `check`.
#[derive(Clone, Copy)]
pub struct CheckWords<'a> {
    pub design: DesignWords<'a>,
    pub weights: WeightWords<'a>,
    /// The file of the certificate that is checked.
    pub cert: &'a str,
    /// The file that the certificate is stored in anew where it is valid.
    pub rewrite: Option<&'a str>,
    /// Whether the certificate may be longer than other files.
    pub is_long: bool,
    /// The bound that the certificate is judged by.
    pub bounds: BoundsChoice,
}

/// The options of `resume`.
#[derive(Clone, Copy)]
pub struct ResumeWords<'a> {
    pub design: DesignWords<'a>,
    pub weights: WeightWords<'a>,
    /// The file of the certificate from which the search goes on.
    pub cert: &'a str,
    /// The file that the new certificate is stored in.
    pub cert_out: &'a str,
    /// The file that the plan is stored in.
    pub pl_out: Option<&'a str>,
    pub workers: u16,
    /// The greatest number of decisions beyond those of the certificate.
    pub nodes: u64,
    /// Whether the limit by the number of blocks is lifted, and the certificate may be longer than other
    /// files.
    pub is_long: bool,
    pub bounds: BoundsChoice,
    ghost workers_low: { 1 ≤ workers },
    ghost workers_high: { workers ≤ 16 },
    ghost nodes_low: { 1 ≤ nodes },
    ghost nodes_high: { nodes ≤ 1_000_000_000_000 },
}

/// The options of `measure`.
#[derive(Clone, Copy)]
pub struct MeasureWords<'a> {
    pub design: DesignWords<'a>,
    pub weights: WeightWords<'a>,
    /// The file that places each block.
    pub placed: &'a str,
}

/// The options of `shape`.
#[derive(Clone, Copy)]
pub struct ShapeWords<'a> {
    pub design: DesignWords<'a>,
    /// The file of the expression whose curve is printed.
    pub expr: &'a str,
}

/// Which blocks a generated design has.
#[derive(Clone, Copy, PartialEq, Eq)]
pub enum Kinds {
    /// Hard blocks alone.
    Hard,
    /// Soft blocks at odd numbers.
    Mixed,
}

/// The options of `gen`.
#[derive(Clone, Copy)]
pub struct GenWords<'a> {
    pub seed: u64,
    /// How many blocks are generated.
    pub count: u16,
    pub kinds: Kinds,
    /// The greatest number of decisions. Its default and its limit depend on the number of blocks.
    pub nodes: Option<u64>,
    /// What the names of the files begin with.
    pub out: &'a str,
    ghost count_low: { 1 ≤ count },
    ghost count_high: { count ≤ 320 },
    ghost nodes_low: { ForSome nodes (λ n. 1 ≤ n) },
    ghost nodes_high: { ForSome nodes (λ n. n ≤ 4_000_000) },
}

/// A command with its options.
#[derive(Clone, Copy)]
pub enum CommandWords<'a> {
    /// Searches the slicing floorplan of least cost.
    Plan(PlanWords<'a>),
    /// Checks a certificate.
    Check(CheckWords<'a>),
    /// Goes on with a search from its certificate.
    Resume(ResumeWords<'a>),
    /// Measures a floorplan that is given.
    Measure(MeasureWords<'a>),
    /// Prints the shape curve of an expression.
    Shape(ShapeWords<'a>),
    /// Generates a design, and searches its floorplan.
    Gen(GenWords<'a>),
}
