//! What a word of an expression text spells.

ghost use Rattle.std.specs.Prelude.{◌≡◌, ◌<◌, ◌≤◌, ◌==◌, IfSome, IsFalse};
ghost use Rattle.std.specs.Option.{option_map};
ghost use Rattle.sf_polish.specs.Normal.{is_outside};
ghost use Rattle.sf_expr_text.specs.Word.{token_of, is_byte, block_in, side_in, shape_in, token_in, piece_in};

use sf_lex::{read_plain, split_at_byte};
use sf_model::{MOST_SIDE, Shape};
use sf_polish::Token;

/// An operator, or a block in a shape.
#[derive(Clone, Copy)]
pub enum Piece {
    Beside,
    Above,
    Block(u16, Shape),
}

/// The token of a piece, without the shape.
pub fn token_of(piece: Option<Piece>) -> Option<Token>
    ensures { result ≡ option_map token_of piece }
{
    match piece {
        None => None,
        Some(Piece::Beside) => Some(Token::Beside),
        Some(Piece::Above) => Some(Token::Above),
        Some(Piece::Block(block, _)) => Some(Token::Block(block)),
    }
}

/// Whether the word is this one byte.
fn is_byte(word: &[u8], byte: u8) -> bool
    ensures { result ≡ is_byte byte word.now }
{
    match word {
        [only] => *only == byte,
        _ => false,
    }
}

/// A number below the number of blocks.
fn read_block(word: &[u8], blocks: u16) -> Option<u16>
    ensures value { result ≡ block_in blocks word.now }
    ensures below { IfSome result (λ b. b < blocks) }
{
    match read_plain(word, u64::from(blocks)) {
        Some(block) if block < u64::from(blocks) => Some(block as u16),
        _ => None,
    }
}

/// A side from 1 to the greatest one.
fn read_side(word: &[u8]) -> Option<u32>
    ensures { result ≡ side_in word.now }
{
    match read_plain(word, MOST_SIDE) {
        Some(side) if side >= 1 => Some(side as u32),
        _ => None,
    }
}

/// Two sides with an `x` between them.
#[tactic(auto, unfolding(crate::specs::Word::shape_in))]
fn read_shape(word: &[u8]) -> Option<Shape>
    ensures { result ≡ shape_in word.now }
{
    let (w, h) = split_at_byte(word, b'x');
    let w = read_side(w)?;
    let h = read_side(h)?;
    Some(Shape { w, h })
}

/// A word of a token text: `*`, `+` or the number of a block.
#[tactic(auto, unfolding(crate::specs::Word::token_in))]
pub fn read_token(word: &[u8], blocks: u16) -> Option<Token>
    ensures value { result ≡ token_in blocks word.now }
    ensures inside { IfSome result (λ t. IsFalse (is_outside blocks t)) }
{
    if is_byte(word, b'*') {
        return Some(Token::Beside);
    }
    if is_byte(word, b'+') {
        return Some(Token::Above);
    }
    let block = read_block(word, blocks)?;
    Some(Token::Block(block))
}

/// A word of an expression text: `*`, `+`, or `i:wxh` for a block and its shape.
#[tactic(auto, unfolding(crate::specs::Word::piece_in))]
pub fn read_piece(word: &[u8], blocks: u16) -> Option<Piece>
    ensures value { result ≡ piece_in blocks word.now }
    ensures inside { IfSome result (λ p. IsFalse (is_outside blocks (token_of p))) }
{
    if is_byte(word, b'*') {
        return Some(Piece::Beside);
    }
    if is_byte(word, b'+') {
        return Some(Piece::Above);
    }
    let (number, shape) = split_at_byte(word, b':');
    let block = read_block(number, blocks)?;
    let shape = read_shape(shape)?;
    Some(Piece::Block(block, shape))
}
