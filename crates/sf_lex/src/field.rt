//! The words of a part of a text, where further bytes count as blanks.

ghost use Rattle.std.specs.Prelude.{◌≡◌, ◌≤◌, ◌<◌, [], ◌∷◌, length, MatchOption, IfSome};
ghost use Rattle.std.specs.List.{prefix_len, position_or_len};
ghost use Rattle.sf_lex.specs.Text.{words};
ghost use Rattle.sf_lex.specs.Gap.{is_gap, first_word, after_word};

/// What counts as a blank in a line, or in a part of it.
#[derive(Clone, Copy, PartialEq, Eq)]
pub enum Gap {
    /// Space, tab, CR and LF.
    Blanks,
    /// Also `:`.
    Colons,
    /// Also `(`, `)` and `,`.
    Points,
    /// Also `(`, `)`, `,` and `=`.
    Sizes,
}

impl Gap {
    /// Whether this byte counts as a blank.
    pub fn has(self, byte: u8) -> bool
        ensures { result ≡ is_gap self byte }
    {
        match byte {
            b' ' | b'\t' | b'\r' | b'\n' => true,
            b':' => self == Gap::Colons,
            b'(' | b')' | b',' => self == Gap::Points || self == Gap::Sizes,
            b'=' => self == Gap::Sizes,
            _ => false,
        }
    }
}

/// How many blanks stand at the front.
pub fn gap_len(bytes: &[u8], gap: Gap) -> usize
    ensures value { result ≡ prefix_len (is_gap gap) bytes.now }
    ensures bound { result ≤ length bytes.now }
{
    bytes.iter().take_while(|byte| gap.has(**byte)).count()
}

/// How many bytes stand before the first blank.
pub fn word_len(bytes: &[u8], gap: Gap) -> usize
    ensures value { result ≡ position_or_len (is_gap gap) bytes.now }
    ensures bound { result ≤ length bytes.now }
{
    bytes.iter().take_while(|byte| !gap.has(**byte)).count()
}

/// The first word and what follows it. The word is empty where there is none.
pub fn split_word(bytes: &[u8], gap: Gap) -> (&[u8], &[u8])
    ensures word { result.0.now ≡ first_word gap bytes.now }
    ensures rest { result.1.now ≡ after_word gap bytes.now }
{
    let (_, rest) = bytes.split_at(gap_len(bytes, gap));
    rest.split_at(word_len(rest, gap))
}

/// The next word and what follows it.
pub fn next_field(bytes: &[u8], gap: Gap) -> Option<(&[u8], &[u8])>
    ensures words { MatchOption result (words (is_gap gap) bytes.now ≡ [])
        (λ r. words (is_gap gap) bytes.now ≡ r.0.now ∷ words (is_gap gap) r.1.now) }
    ensures not_empty { IfSome result (λ r. 0 < length r.0.now) }
{
    let (word, rest) = split_word(bytes, gap);
    if word.is_empty() {
        None
    } else {
        Some((word, rest))
    }
}

/// How many words there are.
pub fn count_fields(bytes: &[u8], gap: Gap) -> usize
    ensures { result ≡ length (words (is_gap gap) bytes.now) }
{
    let mut count = 0;
    let mut rest = bytes;
    while let Some((_, after)) = next_field(rest, gap) {
        rest = after;
        count += 1;
    }
    count
}
