//! Words and pieces at the front of a text, and the lines in which they stand. Nothing here takes memory.

ghost use Rattle.std.specs.Prelude.{◌≡◌, ◌+◌, ◌^◌, ◌≤◌, ◌<◌, [], ◌∷◌, length, MatchOption, IfSome};
ghost use Rattle.std.specs.List.{suffix_len};
ghost use Rattle.sf_lex.specs.Text.{words, is_blank_byte};
ghost use Rattle.sf_yal.specs.Statements.{pieces, statement_at, without_end, line_of_last};

use sf_lex::{Gap, count_fields, gap_len, len_before, line_feeds, next_field};

/// How many blanks stand at the end.
fn blanks_at_end(bytes: &[u8]) -> usize
    ensures value { result ≡ suffix_len is_blank_byte bytes.now }
    ensures bound { result ≤ length bytes.now }
{
    bytes
        .iter()
        .rev()
        .take_while(|byte| Gap::Blanks.has(**byte))
        .count()
}

/// The next word and what follows it.
pub fn next_word(bytes: &[u8]) -> Option<(&[u8], &[u8])>
    ensures words { MatchOption result (words is_blank_byte bytes.now ≡ [])
        (λ r. words is_blank_byte bytes.now ≡ r.0.now ∷ words is_blank_byte r.1.now) }
    ensures not_empty { IfSome result (λ r. 0 < length r.0.now) }
{
    next_field(bytes, Gap::Blanks)
}

/// How many words there are.
pub fn count_words(bytes: &[u8]) -> usize
    ensures { result ≡ length (words is_blank_byte bytes.now) }
{
    count_fields(bytes, Gap::Blanks)
}

/// The bytes up to the next semicolon, and those behind it.
pub fn next_piece(bytes: &[u8]) -> Option<(&[u8], &[u8])>
    ensures pieces { MatchOption result (pieces bytes.now ≡ bytes.now ∷ [])
        (λ r. pieces bytes.now ≡ r.0.now ∷ pieces r.1.now) }
    ensures shorter { IfSome result (λ r. length r.0.now + 1 + length r.1.now ≡ length bytes.now) }
{
    let (piece, rest) = bytes.split_at(len_before(bytes, b';'));
    if rest.is_empty() {
        return None;
    }
    Some((piece, rest.split_at(1).1))
}

/// The number of the line of the first word of a piece that begins in this line.
pub fn first_line(piece: &[u8], line: u64) -> u64
    requires { line + length piece.now < 2 ^ 64 }
    ensures { result ≡ (statement_at line piece.now).line }
{
    let blanks = &piece[..gap_len(piece, Gap::Blanks)];
    line + line_feeds(blanks)
}

/// The number of the line in which the last byte lies that is no blank, or 0.
pub fn last_line_of(bytes: &[u8]) -> u64
    ensures { result ≡ line_of_last (without_end bytes.now) }
{
    let kept = &bytes[..bytes.len() - blanks_at_end(bytes)];
    if kept.is_empty() {
        0
    } else {
        1 + line_feeds(kept)
    }
}
