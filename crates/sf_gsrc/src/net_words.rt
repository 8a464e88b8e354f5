//! The words that have a meaning in a line of a nets file.
#![tactic(auto, unfolding(crate::specs::Keywords::net_word_of))]

ghost use Rattle.std.specs.Prelude.{◌≡◌};
ghost use Rattle.sf_gsrc.specs.Keywords.{net_word_of};

use crate::keywords::meaning_in;

/// What a count line of a nets file says.
#[derive(Clone, Copy)]
pub enum NetWord {
    Nets,
    Pins,
    Degree,
}

/// What a word of a nets file says.
pub fn read_net_word(word: &[u8]) -> Option<NetWord>
    ensures { result ≡ net_word_of word.now }
{
    meaning_in(
        word,
        &[
            (b"NumNets", NetWord::Nets),
            (b"NumPins", NetWord::Pins),
            (b"NetDegree", NetWord::Degree),
        ],
    )
}
