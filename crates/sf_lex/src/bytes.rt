//! Bytes of a text counted at its front, and texts cut at a byte.

ghost use Rattle.std.specs.Prelude.{◌≡◌, ◌≤◌, ◌==◌, length};
ghost use Rattle.std.specs.List.{count_by, position_or_len, before_first, after_first};
ghost use Rattle.sf_lex.specs.Text.{is_line_feed};

/// How many bytes stand before the first such byte.
pub fn len_before(bytes: &[u8], byte: u8) -> usize
    ensures value { result ≡ position_or_len (λ b. b == byte) bytes.now }
    ensures bound { result ≤ length bytes.now }
{
    bytes.iter().take_while(|other| **other != byte).count()
}

/// What stands before the first such byte, and what stands after it.
pub fn split_at_byte(bytes: &[u8], byte: u8) -> (&[u8], &[u8])
    ensures before { result.0.now ≡ before_first (λ b. b == byte) bytes.now }
    ensures after { result.1.now ≡ after_first (λ b. b == byte) bytes.now }
{
    let (before, rest) = bytes.split_at(len_before(bytes, byte));
    match rest {
        [] => (before, rest),
        [_, after @ ..] => (before, after),
    }
}

/// How many lines end in the bytes.
pub fn line_feeds(bytes: &[u8]) -> u64
    ensures value { result ≡ count_by is_line_feed bytes.now }
    ensures bound { result ≤ length bytes.now }
{
    bytes.iter().filter(|byte| **byte == b'\n').count() as u64
}
