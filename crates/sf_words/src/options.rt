//! The commands, their options, and how these are written.
ghost use Rattle.std.specs.Prelude.{◌≡◌, ◌≢◌, ◌↔◌, IsTrue, IfSome, IfNone, Contains};
ghost use Rattle.sf_words.specs.declared.options.Mode.{Mode};
ghost use Rattle.sf_words.specs.declared.options.Key.{Key};
ghost use Rattle.sf_words.specs.Table.{modes, mode_text, key_text, is_flag, keys_of};

/// What the program is asked to do.
#[derive(Clone, Copy, PartialEq, Eq)]
pub enum Mode {
    Plan,
    Check,
    Resume,
    Measure,
    Shape,
    Gen,
}

/// The name of an option.
#[derive(Clone, Copy, PartialEq, Eq)]
pub enum Key {
    Format,
    Blocks,
    Nets,
    Pl,
    Yal,
    PerUnit,
    Fixed,
    Shapes,
    Outline,
    AreaWeight,
    WireWeight,
    NetWeights,
    Cert,
    CertOut,
    PlOut,
    Rewrite,
    Workers,
    Nodes,
    Long,
    Starts,
    Moves,
    StartSeed,
    Improve,
    Begin,
    Bounds,
    Placed,
    Expr,
    Seed,
    Count,
    Kinds,
    Out,
}

/// The options that tell a design, and then these.
macro_rules! design_keys {
    ($($own:expr),*) => {
        &[
            Key::Format,
            Key::Blocks,
            Key::Nets,
            Key::Pl,
            Key::Yal,
            Key::PerUnit,
            Key::Fixed,
            Key::Shapes,
            Key::Outline,
            $($own),*
        ]
    };
}

/// The options that tell a design and what counts in a cost, and then these.
macro_rules! weighed_keys {
    ($($own:expr),*) => {
        design_keys![Key::AreaWeight, Key::WireWeight, Key::NetWeights, $($own),*]
    };
}

impl Mode {
    /// All commands.
    #[tactic(auto, unfolding(crate::specs::Table::modes))]
    pub fn all() -> &'static [Mode]
        ensures { result.now ≡ modes }
    {
        &[
            Mode::Plan,
            Mode::Check,
            Mode::Resume,
            Mode::Measure,
            Mode::Shape,
            Mode::Gen,
        ]
    }

    /// The row of the command: the word that names it, and the options that it takes.
    #[tactic(auto, unfolding(crate::specs::Table::mode_text, crate::specs::Table::keys_of))]
    fn row(self) -> (&'static str, &'static [Key])
        ensures text { result.0.now ≡ mode_text self }
        ensures keys { result.1.now ≡ keys_of self }
    {
        match self {
            Mode::Plan => (
                "plan",
                weighed_keys![
                    Key::Cert,
                    Key::PlOut,
                    Key::Workers,
                    Key::Nodes,
                    Key::Long,
                    Key::Starts,
                    Key::Moves,
                    Key::StartSeed,
                    Key::Improve,
                    Key::Begin,
                    Key::Bounds
                ],
            ),
            Mode::Check => (
                "check",
                weighed_keys![Key::Cert, Key::Rewrite, Key::Long, Key::Bounds],
            ),
            Mode::Resume => (
                "resume",
                weighed_keys![
                    Key::Cert,
                    Key::CertOut,
                    Key::PlOut,
                    Key::Workers,
                    Key::Nodes,
                    Key::Long,
                    Key::Bounds
                ],
            ),
            Mode::Measure => ("measure", weighed_keys![Key::Placed]),
            Mode::Shape => ("shape", design_keys![Key::Expr]),
            Mode::Gen => (
                "gen",
                &[Key::Nodes, Key::Seed, Key::Count, Key::Kinds, Key::Out],
            ),
        }
    }

    /// The word that names the command.
    pub fn text(self) -> &'static str
        ensures { result.now ≡ mode_text self }
    {
        self.row().0
    }

    /// The options that the command takes.
    pub fn keys(self) -> &'static [Key]
        ensures { result.now ≡ keys_of self }
    {
        self.row().1
    }
}

impl Key {
    /// The option's name, without its hyphens.
    #[tactic(auto, unfolding(crate::specs::Table::key_text))]
    pub fn text(self) -> &'static str
        ensures { result.now ≡ key_text self }
    {
        match self {
            Key::Format => "format",
            Key::Blocks => "blocks",
            Key::Nets => "nets",
            Key::Pl => "pl",
            Key::Yal => "yal",
            Key::PerUnit => "per-unit",
            Key::Fixed => "fixed",
            Key::Shapes => "shapes",
            Key::Outline => "outline",
            Key::AreaWeight => "area-weight",
            Key::WireWeight => "wire-weight",
            Key::NetWeights => "net-weights",
            Key::Cert => "cert",
            Key::CertOut => "cert-out",
            Key::PlOut => "pl-out",
            Key::Rewrite => "rewrite",
            Key::Workers => "workers",
            Key::Nodes => "nodes",
            Key::Long => "long",
            Key::Starts => "starts",
            Key::Moves => "moves",
            Key::StartSeed => "start-seed",
            Key::Improve => "improve",
            Key::Begin => "begin",
            Key::Bounds => "bounds",
            Key::Placed => "placed",
            Key::Expr => "expr",
            Key::Seed => "seed",
            Key::Count => "count",
            Key::Kinds => "kinds",
            Key::Out => "out",
        }
    }

    /// Whether the option takes no value.
    #[tactic(auto, unfolding(crate::specs::Table::is_flag))]
    pub fn is_flag(self) -> bool
        ensures { result ≡ is_flag self }
    {
        matches!(self, Key::Fixed | Key::Long)
    }
}

/// Whether a word is this text.
fn is_word(word: &str, text: &str) -> bool
    ensures { IsTrue result ↔ (word.now ≡ text.now) }
{
    word == text
}

/// The one of these options that has this name.
pub fn find_key(keys: &[Key], name: &str) -> Option<Key>
    ensures key { IfSome result (λ k. Contains keys.now k × (name.now ≡ key_text k)) }
    ensures none { IfNone result ((k : Key) → Contains keys.now k → name.now ≢ key_text k) }
{
    for key in keys {
        if is_word(name, key.text()) {
            return Some(*key);
        }
    }
    None
}

/// The command that this word names.
pub fn find_mode(word: &str) -> Option<Mode>
    ensures mode { IfSome result (λ m. Contains modes m × (word.now ≡ mode_text m)) }
    ensures none { IfNone result ((m : Mode) → Contains modes m → word.now ≢ mode_text m) }
{
    for mode in Mode::all() {
        if is_word(word, mode.text()) {
            return Some(*mode);
        }
    }
    None
}
