//! The whole numbers that options take: their ranges and defaults.
ghost use Rattle.std.specs.Prelude.{◌≡◌, ◌≤◌, ℕ, Option, IfSome, IfNone, option_map};
ghost use Rattle.sf_words.specs.Numbers.{range, nodes_range, improve_range, default_of, IsInRange, IsWithin};
ghost use Rattle.sf_words.specs.Numbers.{IsAllowed, SaysNumber, SaysIfGiven, SaysNodes};

use crate::options::Key;
use sf_lex::read_whole;
use sf_options::{
    DEFAULT_AREA_WEIGHT, DEFAULT_MOVES, DEFAULT_PER_UNIT, DEFAULT_SHAPES, DEFAULT_START_COUNT,
    DEFAULT_START_SEED, DEFAULT_WIRE_WEIGHT, DEFAULT_WORKERS,
};

impl Key {
    /// The least and the greatest number that the option takes, where it takes a number by itself.
    #[tactic(auto, unfolding(crate::specs::Numbers::range))]
    fn range(self) -> Option<(u64, u64)>
        ensures { result ≡ range self }
    {
        match self {
            Key::PerUnit => Some((1, 1000)),
            Key::Shapes => Some((2, 256)),
            Key::AreaWeight | Key::WireWeight => Some((0, 65_535)),
            Key::Workers => Some((1, 16)),
            Key::Starts => Some((0, 64)),
            Key::Moves => Some((1, 100_000)),
            Key::Count => Some((1, 320)),
            Key::Seed | Key::StartSeed => Some((0, u64::MAX)),
            _ => None,
        }
    }

    /// The number that the option has where it isn't given.
    #[tactic(auto, unfolding(crate::specs::Numbers::default_of))]
    fn default(self) -> Option<u64>
        ensures { result ≡ default_of self }
    {
        match self {
            Key::PerUnit => Some(DEFAULT_PER_UNIT),
            Key::Shapes => Some(u64::from(DEFAULT_SHAPES)),
            Key::AreaWeight => Some(u64::from(DEFAULT_AREA_WEIGHT)),
            Key::WireWeight => Some(u64::from(DEFAULT_WIRE_WEIGHT)),
            Key::Workers => Some(u64::from(DEFAULT_WORKERS)),
            Key::Starts => Some(u64::from(DEFAULT_START_COUNT)),
            Key::Moves => Some(u64::from(DEFAULT_MOVES)),
            Key::StartSeed => Some(DEFAULT_START_SEED),
            _ => None,
        }
    }
}

/// Reads a number from the least to the greatest.
fn read_within(range: (u64, u64), text: &str) -> Option<u64>
    ensures number { IfSome result (λ n. IsWithin text.now n range) }
    ensures low { IfSome result (λ n. range.0 ≤ n) }
    ensures high { IfSome result (λ n. n ≤ range.1) }
    ensures none { IfNone result ((n : ℕ) → IsWithin text.now n range → ⊥) }
{
    let (least, greatest) = range;
    let n = read_whole(text.as_bytes(), greatest)?;
    if least <= n { Some(n) } else { None }
}

/// Reads a number of an option.
fn read_in_range(key: Key, text: &str) -> Option<u64>
    ensures number { IfSome result (IsInRange key text.now) }
    ensures allowed { IfSome result (IsAllowed key) }
    ensures none { IfNone result ((n : ℕ) → IsInRange key text.now n → ⊥) }
{
    read_within(key.range()?, text)
}

/// The number of an option that has a default, or must be given.
#[tactic(auto, using(crate::proofs::Numbers::default_allowed))]
pub fn number(key: Key, text: Option<&str>) -> Option<u64>
    ensures number { IfSome result (λ n. SaysNumber key (option_map (λ s. s.now) text.entry) n) }
    ensures allowed { IfSome result (IsAllowed key) }
    ensures none { IfNone result ((n : ℕ) → SaysNumber key (option_map (λ s. s.now) text.entry) n → ⊥) }
{
    match text {
        None => key.default(),
        Some(text) => read_in_range(key, text),
    }
}

/// The least and the greatest budget of a search, which may be a long one.
#[tactic(auto, unfolding(crate::specs::Numbers::nodes_range))]
fn nodes_range(is_long: bool) -> (u64, u64)
    ensures { result ≡ nodes_range is_long }
{
    if is_long {
        (1, 1_000_000_000_000)
    } else {
        (1, 4_000_000)
    }
}

/// The number of an option that may be left out.
fn if_given(range: (u64, u64), text: Option<&str>) -> Option<Option<u64>>
    ensures number { IfSome result (λ n. SaysIfGiven range (option_map (λ s. s.now) text.entry) n) }
    ensures low { IfSome result (λ o. IfSome o (λ n. range.0 ≤ n)) }
    ensures high { IfSome result (λ o. IfSome o (λ n. n ≤ range.1)) }
    ensures none { IfNone result ((n : Option ℕ)
        → SaysIfGiven range (option_map (λ s. s.now) text.entry) n → ⊥) }
{
    match text {
        None => Some(None),
        Some(text) => match read_within(range, text) {
            Some(n) => Some(Some(n)),
            None => None,
        },
    }
}

/// The budget of a search, which may be left out.
pub fn nodes(is_long: bool, text: Option<&str>) -> Option<Option<u64>>
    ensures number { IfSome result (λ n. SaysNodes is_long (option_map (λ s. s.now) text.entry) n) }
    ensures low { IfSome result (λ o. IfSome o (λ n. (nodes_range is_long).0 ≤ n)) }
    ensures high { IfSome result (λ o. IfSome o (λ n. n ≤ (nodes_range is_long).1)) }
    ensures none { IfNone result ((n : Option ℕ)
        → SaysNodes is_long (option_map (λ s. s.now) text.entry) n → ⊥) }
{
    if_given(nodes_range(is_long), text)
}

/// How many trials make a start better, which may be left out.
#[tactic(auto, unfolding(crate::specs::Numbers::improve_range))]
pub fn trials(text: Option<&str>) -> Option<Option<u64>>
    ensures number { IfSome result (λ n. SaysIfGiven improve_range (option_map (λ s. s.now) text.entry) n) }
    ensures high { IfSome result (λ o. IfSome o (λ n. n ≤ 1_000_000_000)) }
    ensures none { IfNone result ((n : Option ℕ)
        → SaysIfGiven improve_range (option_map (λ s. s.now) text.entry) n → ⊥) }
{
    if_given((0, 1_000_000_000), text)
}
