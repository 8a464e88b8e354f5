//! Words that have a meaning.

ghost use Rattle.std.specs.Prelude.{◌≡◌};
ghost use Rattle.sf_yal.specs.Words.{is_key, keyword_of, is_pad_word, is_parent_word};

/// What the first word of a statement means.
#[derive(Clone, Copy, PartialEq, Eq)]
pub enum Keyword {
    Module,
    EndModule,
    Type,
    Dimensions,
    IoList,
    EndIoList,
    Network,
    EndNetwork,
    Other,
}

/// The word is the key, without regard to ASCII case.
fn is_word(word: &[u8], key: &[u8]) -> bool
    ensures { result ≡ is_key key.now word.now }
{
    word.eq_ignore_ascii_case(key)
}

/// The word is PARENT.
pub fn is_parent(word: &[u8]) -> bool
    ensures { result ≡ is_parent_word word.now }
{
    is_word(word, b"PARENT")
}

/// The word is PAD.
pub fn is_pad(word: &[u8]) -> bool
    ensures { result ≡ is_pad_word word.now }
{
    is_word(word, b"PAD")
}

/// What the word means.
#[tactic(auto, unfolding(crate::specs::Words::keyword_of))]
pub fn read_keyword(word: &[u8]) -> Keyword
    ensures { result ≡ keyword_of word.now }
{
    if is_word(word, b"MODULE") {
        Keyword::Module
    } else if is_word(word, b"ENDMODULE") {
        Keyword::EndModule
    } else if is_word(word, b"TYPE") {
        Keyword::Type
    } else if is_word(word, b"DIMENSIONS") {
        Keyword::Dimensions
    } else if is_word(word, b"IOLIST") {
        Keyword::IoList
    } else if is_word(word, b"ENDIOLIST") {
        Keyword::EndIoList
    } else if is_word(word, b"NETWORK") {
        Keyword::Network
    } else if is_word(word, b"ENDNETWORK") {
        Keyword::EndNetwork
    } else {
        Keyword::Other
    }
}
