//! Whether tokens are a normalised Polish expression.

ghost use Rattle.std.specs.Prelude.{◌≡◌, ◌<◌, ◌↔◌, ◌≤◌, ℕ, length, take, IsTrue, IsFalse, All, count_by};
ghost use Rattle.sf_polish.specs.Normal.{is_block, is_outside, ends_in, operands, operators, IsBallot};
ghost use Rattle.sf_polish.specs.Normal.{Alternates, IsNormal};

use crate::expr::Token;

/// Whether the token is this block.
fn is_block(block: u16, token: Token) -> bool
    ensures { result ≡ is_block block token }
{
    match token {
        Token::Block(other) => other == block,
        _ => false,
    }
}

/// Whether the token is a block that is not among the first ones of this number.
fn is_outside(blocks: u16, token: Token) -> bool
    ensures { result ≡ is_outside blocks token }
{
    match token {
        Token::Block(block) => block >= blocks,
        _ => false,
    }
}

/// Whether the block stands there exactly once.
fn is_once(block: u16, tokens: &[Token]) -> bool
    ensures { IsTrue result ↔ (count_by (is_block block) tokens.now ≡ 1) }
{
    let count = tokens
        .iter()
        .filter(|token| is_block(block, **token))
        .count();
    count == 1
}

/// Whether each block stands there exactly once.
fn has_each_once(blocks: u16, tokens: &[Token]) -> bool
    ensures { IsTrue result ↔ ((b : ℕ) → b < blocks → count_by (is_block b) tokens.now ≡ 1) }
{
    for block in 0..blocks {
        if !is_once(block, tokens) {
            return false;
        }
    }
    true
}

/// Whether no other block stands there.
fn has_no_other(blocks: u16, tokens: &[Token]) -> bool
    ensures { IsTrue result ↔ All (λ t. IsFalse (is_outside blocks t)) tokens.now }
{
    tokens.iter().all(|token| !is_outside(blocks, *token))
}

/// Whether the last token is this operator.
#[tactic(auto, using(crate::proofs::Last::last_or_place))]
pub fn ends_in(operator: Token, tokens: &[Token]) -> bool
    ensures { result ≡ ends_in operator tokens.now }
{
    match tokens {
        [.., last] => last.is_same_operator(operator),
        [] => false,
    }
}

/// Whether the tokens up to a place have more operands than operators.
fn leads_at(tokens: &[Token], end: usize) -> bool
    requires { end ≤ length tokens.now }
    ensures { IsTrue result ↔ (operators (take end tokens.now) < operands (take end tokens.now)) }
{
    let front = &tokens[..end];
    operators_of(front) < operands_of(front)
}

/// How many operands there are.
fn operands_of(tokens: &[Token]) -> usize
    ensures { result ≡ operands tokens.now }
{
    tokens.iter().filter(|token| token.is_operand()).count()
}

/// How many operators there are.
fn operators_of(tokens: &[Token]) -> usize
    ensures { result ≡ operators tokens.now }
{
    tokens.iter().filter(|token| !token.is_operand()).count()
}

/// Whether each prefix has more operands than operators.
fn is_ballot(tokens: &[Token]) -> bool
    ensures { IsTrue result ↔ IsBallot tokens.now }
{
    for end in 0..tokens.len() {
        if !leads_at(tokens, end + 1) {
            return false;
        }
    }
    true
}

/// Whether no operator stands right after its like.
fn alternates(tokens: &[Token]) -> bool
    ensures { IsTrue result ↔ Alternates tokens.now }
{
    if tokens.is_empty() {
        return true;
    }
    for place in 0..tokens.len() - 1 {
        if tokens[place].is_same_operator(tokens[place + 1]) {
            return false;
        }
    }
    true
}

/// Whether the tokens are a normalised Polish expression of the blocks from 0 on.
pub fn is_normal(tokens: &[Token], blocks: u16) -> bool
    ensures { IsTrue result ↔ IsNormal blocks tokens.now }
{
    if tokens.len() + 1 != 2 * blocks as usize {
        return false;
    }
    if !has_each_once(blocks, tokens) {
        return false;
    }
    if !has_no_other(blocks, tokens) {
        return false;
    }
    if !is_ballot(tokens) {
        return false;
    }
    alternates(tokens)
}
