//! Generated designs: what is stored of them is planned and checked.

use super::{Printed, Text, answer, comes_to, has_line, shelf_of, words_of};
use sf_io::{MemShelf, Status};
use std::alloc::Global;
use std::test::Fail;
use std::thread::Threads;

/// Words that mean the same, all options in both spellings among them.
const FOUR_BLOCKS: [&str; 4] = [
    "gen --seed 7 --count 4 --kinds hard --out g",
    "gen --seed=7 --count 004 --out g",
    "gen --seed 7 --count 4 --kinds hard --out g --nodes 100000",
    "gen --seed=7 --count=4 --kinds=hard --out=g --nodes=100000",
];

const FEW_DECISIONS: &str = "gen --seed 1 --count 200 --kinds hard --out g --nodes 700";

const PLAN: &str =
    "plan --format gsrc --blocks g.blocks --nets g.nets --pl g.pl --wire-weight 1 --cert h.cert --workers";

const CHECK: &str =
    "check --format gsrc --blocks g.blocks --nets g.nets --pl g.pl --wire-weight 1 --cert";

const STORED: [&str; 4] = ["g.blocks", "g.nets", "g.pl", "g.cert"];

const NOTHING: &[Text] = &[];

/// Whether the words of these texts end well over the shelf, and print these lines.
fn end_well(
    rt: &(impl Threads + Sync),
    alloc: Global,
    shelf: &mut MemShelf,
    texts: &[&str],
    lines: &'static str,
) -> Result<bool, Fail> {
    comes_to(rt, alloc, shelf, texts, Status::Done, Printed::Lines(lines))
}

/// Whether the design of these words is planned by several workers, and each certificate is valid.
fn are_planned(rt: &(impl Threads + Sync), alloc: Global, list: &str) -> Result<bool, Fail> {
    let mut shelf = shelf_of(alloc, NOTHING, 0)?;
    if !end_well(rt, alloc, &mut shelf, &[list], "decided 1585")? {
        return Ok(false);
    }
    for workers in ["1", "2", "4"] {
        if !end_well(
            rt,
            alloc,
            &mut shelf,
            &[PLAN, workers],
            "cost 1505\nbound 1505",
        )? || !end_well(rt, alloc, &mut shelf, &[CHECK, "h.cert"], "")?
        {
            return Ok(false);
        }
    }
    end_well(rt, alloc, &mut shelf, &[CHECK, "g.cert"], "")
}

#[test]
fn four_blocks(rt: HostRuntime) -> Result<(), Fail> {
    for list in FOUR_BLOCKS {
        assert!(rt; are_planned(&rt, rt.alloc(), list)?, "{list}");
    }
    Ok(())
}

/// Whether a plan is found of many blocks in few decisions, and all of the design is stored.
fn is_found(rt: &(impl Threads + Sync), alloc: Global) -> Result<bool, Fail> {
    let mut shelf = shelf_of(alloc, NOTHING, 0)?;
    let words = words_of(alloc, &[FEW_DECISIONS])?;
    let (status, printed) = answer(rt, alloc, &words, &mut shelf, 0)?;
    for name in STORED {
        if shelf.bytes(name).is_none() {
            return Ok(false);
        }
    }
    let is_done = matches!(status, Status::Done | Status::Open);
    Ok(is_done && !has_line(printed.as_str(), "plan none"))
}

#[test]
fn few_decisions(rt: HostRuntime) -> Result<(), Fail> {
    assert!(rt; is_found(&rt, rt.alloc())?);
    Ok(())
}
