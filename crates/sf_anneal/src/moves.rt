//! The moves of Wong and Liu (1986) on normalised Polish expressions.

ghost use Rattle.std.specs.Prelude.{◌≡◌, ◌+◌, ◌<◌, ◌≤◌, ◌↔◌, length, not, IsTrue};
ghost use Rattle.std.specs.Bool.{OnTrue, OnFalse};
ghost use Rattle.sf_polish.specs.Normal.{operands, is_operand};
ghost use Rattle.sf_anneal.specs.Moves.{AreNormal, operand_place, swapped, turned, runs, flipped, stepped};
ghost use Rattle.sf_anneal.specs.Moves.{begun_by, MayStep, MayFollow, MayPrecede};

use sf_polish::{Token, ends_in};

/// The place of an operand, counted from 0 on.
fn operand_place(tokens: &[Token], j: usize) -> usize
    requires { j < operands tokens.now }
    ensures place { result ≡ operand_place tokens.now j }
    ensures inside { result < length tokens.now }
{
    let mut before = j;
    for (place, token) in tokens.iter().enumerate() {
        if token.is_operand() {
            if before == 0 {
                return place;
            }
            before -= 1;
        }
    }
    unreachable!()
}

/// Operands `j` and `j + 1` in each other's place.
fn exchange(tokens: &mut [Token], j: usize)
    requires { j + 1 < operands tokens.old }
    ensures { tokens.new ≡ swapped tokens.old j }
{
    let first = operand_place(tokens, j);
    let second = operand_place(tokens, j + 1);
    tokens.swap(first, second);
}

/// Operands `j` and `j + 1` change places. Made again it restores the tokens.
pub fn swap_operands(tokens: &mut [Token], j: usize)
    requires normal { AreNormal tokens.old }
    requires inside { j + 1 < operands tokens.old }
    ensures normal { AreNormal tokens.new }
    ensures swapped { tokens.new ≡ swapped tokens.old j }
{
    exchange(tokens, j);
}

/// Whether a run goes on behind a token, and how many have begun by then.
fn run_after(token: Token, inside: bool, begun: usize) -> (bool, usize)
    requires { begun < usize.MAX }
    ensures inside { result.0 ≡ not (is_operand token) }
    ensures begun { result.1 ≡ begun_by token inside begun }
{
    match token {
        Token::Block(_) => (false, begun),
        _ if inside => (true, begun),
        _ => (true, begun + 1),
    }
}

/// How many maximal runs of operators there are.
pub fn run_count(tokens: &[Token]) -> usize
    ensures { result ≡ runs tokens.now }
{
    let mut begun = 0;
    let mut inside = false;
    for token in tokens {
        (inside, begun) = run_after(*token, inside, begun);
    }
    begun
}

/// The other operator.
fn turned(token: Token) -> Token
    ensures { result ≡ turned token }
{
    match token {
        Token::Beside => Token::Above,
        Token::Above => Token::Beside,
        Token::Block(_) => token,
    }
}

/// Each operator of run `k` becomes the other one. Made again it restores the tokens.
pub fn flip_chain(tokens: &mut [Token], k: usize)
    requires normal { AreNormal tokens.old }
    requires inside { k < runs tokens.old }
    ensures normal { AreNormal tokens.new }
    ensures flipped { tokens.new ≡ flipped tokens.old k }
{
    let mut begun = 0;
    let mut inside = false;
    for token in tokens.iter_mut() {
        (inside, begun) = run_after(*token, inside, begun);
        if begun == k + 1 {
            *token = turned(*token);
        }
    }
}

/// Whether an operator may stand behind these tokens, which begin a normal expression.
fn may_follow(tokens: &[Token], operator: Token) -> bool
    ensures { IsTrue result ↔ MayFollow tokens.now operator }
{
    let operands = tokens.iter().filter(|token| token.is_operand()).count();
    let operators = tokens.iter().filter(|token| !token.is_operand()).count();
    operators + 2 <= operands && !ends_in(operator, tokens)
}

/// Whether an operator may stand before these tokens, which end a normal expression.
fn may_precede(operator: Token, tokens: &[Token]) -> bool
    ensures { IsTrue result ↔ MayPrecede operator tokens.now }
{
    match tokens {
        [next, ..] => !operator.is_same_operator(*next),
        [] => true,
    }
}

/// Whether tokens `i` and `i + 1` are an operand and an operator that may change places.
fn may_step(tokens: &[Token], i: usize) -> bool
    requires normal { AreNormal tokens.now }
    requires inside { i + 1 < length tokens.now }
    ensures { IsTrue result ↔ MayStep tokens.now i }
{
    let (first, second) = (tokens[i], tokens[i + 1]);
    match (first.is_operand(), second.is_operand()) {
        (true, false) => may_follow(&tokens[..i], second),
        (false, true) => may_precede(first, &tokens[i + 2..]),
        _ => false,
    }
}

/// Tokens `i` and `i + 1` change places, where they are one operand and one operator and the tokens are
/// normal then. Made again it restores the tokens.
pub fn swap_step(tokens: &mut [Token], i: usize) -> bool
    requires normal { AreNormal tokens.old }
    requires inside { i + 1 < length tokens.old }
    ensures normal { AreNormal tokens.new }
    ensures may { IsTrue result ↔ MayStep tokens.old i }
    ensures stepped { OnTrue result (tokens.new ≡ stepped tokens.old i) }
    ensures same { OnFalse result (tokens.new ≡ tokens.old) }
{
    let may = may_step(tokens, i);
    if may {
        tokens.swap(i, i + 1);
    }
    may
}
