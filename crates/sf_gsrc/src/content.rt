//! The lines of a text without comments and lines of blanks.

ghost use Rattle.std.specs.Prelude.{◌≡◌, [], ◌∷◌, MatchOption, IfSome, ◌<◌, length};
ghost use Rattle.sf_lex.specs.Scan.{numbered_rest, line_of};
ghost use Rattle.sf_lex.specs.Gap.{first_word};
ghost use Rattle.sf_lex.specs.Results.{seen};
ghost use Rattle.sf_gsrc.specs.Blocks.{is_content, content, content_of, is_title, opened};

use crate::fault::GsrcFault;
use sf_lex::{Gap, Scan, Word, split_word};

/// Whether a line is neither blank nor a comment.
fn has_content(line: &Word) -> bool
    ensures { result ≡ is_content (line_of line.now) }
{
    let (word, _) = split_word(line.text, Gap::Blanks);
    match word.first() {
        Some(byte) => *byte != b'#',
        None => false,
    }
}

/// The next line that is neither blank nor a comment.
pub fn next_content<'a>(scan: &mut Scan<'a>) -> Option<Word<'a>>
    ensures lines { MatchOption result (content (numbered_rest scan.old) ≡ [])
        (λ w. content (numbered_rest scan.old) ≡ line_of w ∷ content (numbered_rest scan.new)) }
    ensures content { IfSome result (λ w. 0 < length (first_word Gap.Blanks w.text.now)) }
{
    while let Some(line) = scan.next_line() {
        if has_content(&line) {
            return Some(line);
        }
    }
    None
}

/// Whether a line is the title of a file of this kind.
#[tactic(auto, unfolding(crate::specs::Blocks::is_title))]
fn has_title(line: &[u8], kind: &[u8]) -> bool
    ensures { result ≡ is_title kind.now line.now }
{
    let (first, rest) = split_word(line, Gap::Blanks);
    let (second, _) = split_word(rest, Gap::Blanks);
    (first == b"UCSC".as_slice() || first == b"UCLA".as_slice()) && second == kind
}

/// The lines behind the title of a file of this kind, and the number of the title's line.
pub fn open<'a>(text: &'a [u8], kind: &[u8]) -> Result<(Scan<'a>, u64), GsrcFault>
    ensures { seen (λ r. (r.1, content (numbered_rest r.0))) result ≡ opened kind.now (content_of text.now) }
{
    let mut scan = Scan::new(text);
    let Some(title) = next_content(&mut scan) else {
        return Err(GsrcFault::Truncated(0));
    };
    if !has_title(title.text, kind) {
        return Err(GsrcFault::BadTitle(title.line));
    }
    Ok((scan, title.line))
}
