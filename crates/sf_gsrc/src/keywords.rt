//! How a word with a meaning is looked up, and the words of a blocks file.
#![tactic(auto, unfolding(crate::specs::Keywords::counted_of, crate::specs::Keywords::form_of))]

ghost use Rattle.std.specs.Prelude.{◌≡◌, map};
ghost use Rattle.sf_gsrc.specs.Keywords.{count_word, counted_of, form_of, meaning_in};

use sf_lex::{Gap, split_at_byte, split_word};

/// What a count line counts.
#[derive(Clone, Copy)]
pub enum Counted {
    Soft,
    Hard,
    Terminals,
}

/// What the second word of a line says of the first.
#[derive(Clone, Copy)]
pub enum Form {
    Soft,
    Hard,
    Terminal,
}

/// The first word of a line, up to a colon.
pub fn count_word_in(line: &[u8]) -> &[u8]
    ensures { result.now ≡ count_word line.now }
{
    let (word, _) = split_word(line, Gap::Blanks);
    split_at_byte(word, b':').0
}

/// What a word means by the first row that has it.
pub fn meaning_in<M: Copy>(word: &[u8], rows: &[(&[u8], M)]) -> Option<M>
    ensures { result ≡ meaning_in (map (λ row. (row.0.now, row.1)) rows.now) word.now }
{
    for (text, meaning) in rows {
        if word == *text {
            return Some(*meaning);
        }
    }
    None
}

/// What a count word counts.
pub fn read_counted(word: &[u8]) -> Option<Counted>
    ensures { result ≡ counted_of word.now }
{
    meaning_in(
        word,
        &[
            (b"NumSoftRectangularBlocks", Counted::Soft),
            (b"NumHardRectilinearBlocks", Counted::Hard),
            (b"NumTerminals", Counted::Terminals),
        ],
    )
}

/// What the second word of a line says.
pub fn read_form(word: &[u8]) -> Option<Form>
    ensures { result ≡ form_of word.now }
{
    meaning_in(
        word,
        &[
            (b"softrectangular", Form::Soft),
            (b"hardrectilinear", Form::Hard),
            (b"terminal", Form::Terminal),
        ],
    )
}
