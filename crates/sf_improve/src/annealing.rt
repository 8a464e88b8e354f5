//! An annealing over slicing trees. What it hands over is measured by its caller.

use crate::desk::Desk;
use crate::falling::rise;
use crate::goal::may_fit;
use crate::links::LinkedTree;
use crate::spelling::tokens_of;
use crate::words::Words;
use sf_model::Design;
use sf_polish::Token;
use std::alloc::{AllocError as NoMemory, Global};

/// The tokens of the cheapest plan within the outline that so many trials come to over the words of a seed in
/// stream 3, from the slicing tree of these tokens on. None where they come to no plan that fits, and where none
/// can.
pub fn annealed(
    alloc: Global,
    design: &Design,
    tokens: &[Token],
    seed: u64,
    trials: u32,
) -> Result<Option<Vec<Token>>, NoMemory> {
    let blocks = design.block_count();
    if blocks == 1 || !may_fit(design) {
        return Ok(None);
    }
    let mut desk = Desk::new(alloc, design, tokens)?;
    let height = desk.begin();
    let Some(value) = desk.value() else {
        return Ok(None);
    };
    let mut words = Words::new(seed);
    let mut best = LinkedTree::of_tokens(alloc, blocks, tokens)?;
    let mut least = value.fits.then_some(value.counts);
    let mut now = value.counts;
    for trial in 0..trials {
        let limit = now.saturating_add(rise(height, trials, trials - trial, blocks));
        let Some(next) = desk.try_move(&mut words, limit)? else {
            continue;
        };
        now = next.counts;
        if next.fits && is_less(now, least) {
            least = Some(now);
            best.copy_from(desk.tree())?;
        }
    }
    match least {
        Some(_) => Ok(Some(tokens_of(alloc, &best, blocks)?)),
        None => Ok(None),
    }
}

/// Whether a value is less than the least one, if there is one.
fn is_less(value: u64, least: Option<u64>) -> bool {
    match least {
        Some(least) => value < least,
        None => true,
    }
}
