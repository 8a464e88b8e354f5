//! Moves of three blocks by hand, and walks beside those of another program.

use rand_pcg::Lcg64Xsh32;
use sf_anneal::{
    Beginning, flip_chain, improve, improved_starts, one_start, run_count, starts, swap_operands,
    swap_step,
};
use sf_expr_text::push_expr;
use sf_model::Outline;
use sf_polish::{Expr, Token, Tokens, is_normal};
use sf_test_designs::{WIDEST, drawn};
use std::alloc::{AllocError, Global};
use std::test::Fail;
use std::thread::Threads;

/// `0 1 * 2 +`
const BOTH: [Token; 5] = [
    Token::Block(0),
    Token::Block(1),
    Token::Beside,
    Token::Block(2),
    Token::Above,
];

/// `0 1 + 2 +`
const ONE: [Token; 5] = [
    Token::Block(0),
    Token::Block(1),
    Token::Above,
    Token::Block(2),
    Token::Above,
];

/// The tokens with two operands in each other's place, where they are normal.
fn swapped(tokens: [Token; 5], j: usize) -> Option<[Token; 5]> {
    let mut tokens = tokens;
    if !is_normal(&tokens, 3) || j > 1 {
        return None;
    }
    swap_operands(&mut tokens, j);
    Some(tokens)
}

/// The tokens with a run of operators turned, where they are normal and have it.
fn flipped(tokens: [Token; 5], k: usize) -> Option<[Token; 5]> {
    let mut tokens = tokens;
    if !is_normal(&tokens, 3) || k >= run_count(&tokens) {
        return None;
    }
    flip_chain(&mut tokens, k);
    Some(tokens)
}

/// The tokens with two neighbours in each other's place, where they may.
fn stepped(tokens: [Token; 5], i: usize) -> Option<[Token; 5]> {
    let mut tokens = tokens;
    if !is_normal(&tokens, 3) || i > 3 || !swap_step(&mut tokens, i) {
        return None;
    }
    Some(tokens)
}

/// `1 0 * 2 +`
const EXCHANGED: [Token; 5] = [
    Token::Block(1),
    Token::Block(0),
    Token::Beside,
    Token::Block(2),
    Token::Above,
];

/// `0 1 2 * +`
const TOGETHER: [Token; 5] = [
    Token::Block(0),
    Token::Block(1),
    Token::Block(2),
    Token::Beside,
    Token::Above,
];

/// Each of the three moves, and steps that would leave operators side by side or one with too few operands.
#[test]
fn moves_by_hand(rt: HostRuntime) {
    for (found, wanted) in [
        (swapped(BOTH, 0), Some(EXCHANGED)),
        (flipped(BOTH, 0), Some(ONE)),
        (stepped(BOTH, 2), Some(TOGETHER)),
        (stepped(BOTH, 1), None),
        (stepped(ONE, 2), None),
        (stepped(TOGETHER, 2), Some(BOTH)),
    ] {
        assert!(rt; found == wanted, "{wanted:?}");
    }
}

/// The cost and the expression of what was found, in a text.
fn found_text(alloc: Global, found: &Option<(Expr, u64)>) -> Result<String, AllocError> {
    let Some((expr, cost)) = found else {
        return format!(in alloc; "none");
    };
    let blocks = expr.shapes.as_slice().len();
    if blocks > 320 || !is_normal(expr.tokens.as_slice(), blocks as u16) {
        return format!(in alloc; "not normal");
    }
    let mut text = format!(in alloc; "{cost} ")?;
    push_expr(&mut text, expr)?;
    Ok(text)
}

/// What one walk over four blocks with wires finds.
fn one_walk(alloc: Global) -> Result<String, Fail> {
    let design = drawn(alloc, 7, 4, WIDEST, 1)?;
    let found = one_start(alloc, &design, &mut Lcg64Xsh32::new(3, 2), 100)?;
    Ok(found_text(alloc, &found)?)
}

/// What four walks over six blocks find, whose wires count as often as this.
fn four_walks(rt: &(impl Threads + Sync), alloc: Global, wire: u16) -> Result<String, Fail> {
    let design = drawn(alloc, 2, 6, WIDEST, wire)?;
    let found = starts(rt, alloc, &design, 0, 4, 300)?;
    Ok(found_text(alloc, &found)?)
}

/// Walks that an independent program made in the same words: with wires, without, and the least of four.
#[test]
fn walks_of_another_program(rt: HostRuntime) -> Result<(), Fail> {
    let alloc = rt.alloc();
    assert!(rt; one_walk(alloc)?.as_str() == "1549 1:12x8 2:5x5 * 0:22x28 + 3:7x30 *");
    let flat = "2436 4:32x20 0:32x7 + 1:10x5 3:19x19 + * 5:29x29 * 2:4x26 *";
    assert!(rt; four_walks(&rt, alloc, 0)?.as_str() == flat);
    let wired = "3843 2:4x26 1:5x10 * 4:20x32 * 5:29x29 * 0:7x32 * 3:19x19 *";
    assert!(rt; four_walks(&rt, alloc, 1)?.as_str() == wired);
    Ok(())
}

/// `0 1 * 2 * 3 * 4 * 5 *`
const CHAIN: [Token; 11] = [
    Token::Block(0),
    Token::Block(1),
    Token::Beside,
    Token::Block(2),
    Token::Beside,
    Token::Block(3),
    Token::Beside,
    Token::Block(4),
    Token::Beside,
    Token::Block(5),
    Token::Beside,
];

/// What the walk with this seed finds, made better from the chain on.
fn improved(alloc: Global, seed: u64) -> Result<Option<(Expr, u64)>, Fail> {
    let design = drawn(alloc, 2, 6, WIDEST, 1)?;
    let found = one_start(alloc, &design, &mut Lcg64Xsh32::new(seed, 2), 300)?;
    Ok(improve(alloc, &design, &CHAIN, found, seed, 2000)?)
}

/// What it costs, or more than the walks where it finds nothing.
fn improved_cost(alloc: Global, seed: u64) -> Result<u64, Fail> {
    match improved(alloc, seed)? {
        Some((_, cost)) => Ok(cost),
        None => Ok(3843),
    }
}

/// The first of four seeds whose walk costs the least once it is made better, if that is less than without.
fn least_seed(alloc: Global) -> Result<Option<u64>, Fail> {
    let mut least = (3843, None);
    for seed in 0..4 {
        let cost = improved_cost(alloc, seed)?;
        if cost < least.0 {
            least = (cost, Some(seed));
        }
    }
    Ok(least.1)
}

/// What four walks in threads find, made better.
fn improved_in_threads(rt: &(impl Threads + Sync), alloc: Global) -> Result<String, Fail> {
    let design = drawn(alloc, 2, 6, WIDEST, 1)?;
    let found = improved_starts(rt, alloc, &design, None, 0, 4, 300, 2000)?;
    Ok(found_text(alloc, &found)?)
}

/// An improvement costs less than the walk where there is something to be gained, and the answer of several
/// in threads is that of the same ones in turn.
#[test]
fn improvements_in_threads(rt: HostRuntime) -> Result<(), Fail> {
    let alloc = rt.alloc();
    let seed = least_seed(alloc)?.ok_or("no gain")?;
    let wanted = found_text(alloc, &improved(alloc, seed)?)?;
    assert!(rt; improved_in_threads(&rt, alloc)?.as_str() == wanted.as_str());
    Ok(())
}

/// What so many walks and this beginning come to over twenty blocks in an outline with a seventh of white space.
fn found_within(
    rt: &(impl Threads + Sync),
    alloc: Global,
    begin: bool,
    count: u16,
    trials: u32,
) -> Result<bool, Fail> {
    let outline = Outline { w: 85, h: 85 };
    let design = drawn(alloc, 1, 20, outline, 1)?;
    let begin = if begin {
        Some(Beginning {
            tokens: Tokens::from_vec(chain_of_twenty(alloc)?),
            plan: None,
        })
    } else {
        None
    };
    Ok(improved_starts(rt, alloc, &design, begin, 0, count, 300, trials)?.is_some())
}

/// The chain of twenty blocks.
fn chain_of_twenty(alloc: Global) -> Result<Vec<Token>, AllocError> {
    let mut tokens = vec![in alloc; Token::Block(0)]?;
    for block in 1..20 {
        tokens.push(Token::Block(block))?;
        tokens.push(Token::Beside)?;
    }
    Ok(tokens)
}

/// Within an outline walks find none, and improvements behind them do, also from tokens alone.
#[test]
fn improvements_within_an_outline(rt: HostRuntime) -> Result<(), Fail> {
    let alloc = rt.alloc();
    for (begin, count, trials, wanted) in [
        (false, 4, 0, false),
        (false, 4, 20_000, true),
        (true, 0, 0, false),
        (true, 0, 20_000, true),
        (false, 0, 20_000, false),
    ] {
        let found = found_within(&rt, alloc, begin, count, trials)?;
        assert!(rt; found == wanted, "{begin} {count} {trials}");
    }
    Ok(())
}
