//! A text without its comments.

ghost use Rattle.std.specs.Prelude.{◌≡◌, ◌<◌, false, length, IfOk};
ghost use Rattle.sf_yal.specs.Comments.{has_mark, shown, hide, ends_inside};

use std::alloc::{AllocError, Global};

/// A comment begins here, or ends where one is open.
fn is_mark(text: &[u8], inside: bool) -> bool
    ensures { result ≡ has_mark inside text.now }
{
    match text {
        [first, second, ..] => {
            if inside {
                *first == b'*' && *second == b'/'
            } else {
                *first == b'/' && *second == b'*'
            }
        }
        _ => false,
    }
}

/// A byte of a comment is a blank, so that lines keep their numbers; others stay.
fn shown_byte(byte: u8, inside: bool) -> u8
    ensures { result ≡ shown inside byte }
{
    if inside && byte != b'\n' { b' ' } else { byte }
}

/// The text with blanks in place of its comments, and whether the last comment is open at its end.
pub fn hide_comments(alloc: Global, text: &[u8]) -> Result<(Vec<u8>, bool), AllocError>
    ensures bytes { IfOk result (λ r. r.0.items ≡ hide false text.now) }
    ensures length { IfOk result (λ r. length r.0.items ≡ length text.now) }
    ensures inside { IfOk result (λ r. r.1 ≡ ends_inside false text.now) }
{
    let mut out = Vec::new(alloc);
    let mut inside = false;
    let mut rest = text;
    while !rest.is_empty() {
        if is_mark(rest, inside) {
            out.extend_from_slice(b"  ")?;
            inside = !inside;
            rest = rest.split_at(2).1;
        } else {
            out.push(shown_byte(rest[0], inside))?;
            rest = rest.split_at(1).1;
        }
    }
    Ok((out, inside))
}
