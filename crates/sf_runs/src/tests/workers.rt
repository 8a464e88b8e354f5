//! Two workers: what is found, that its certificate is valid, and that both are at work at once.

use super::texts::EQUALS;
use super::{CHECK_WORDS, PLAN_WORDS, Printed, answer_at, comes_to, has_line, shelf_of, words_of};
use sf_io::{Gate, Status};
use std::alloc::Global;
use std::sync::atomic::{AtomicBool, Ordering};
use std::test::Fail;
use std::thread;
use std::thread::Threads;

/// How often a held worker looks for the other one.
const TURNS: u64 = 100_000_000;

/// Holds the first decision of one worker until the first of another one is at the gate.
#[derive(Drop)]
struct Held {
    held: usize,
    other_came: AtomicBool,
    turns_ran_out: AtomicBool,
}

impl Gate for Held {
    fn at(&self, worker: usize, step: u64) {
        if step > 0 {
            return;
        }
        if worker != self.held {
            self.other_came.store(true, Ordering::SeqCst);
            return;
        }
        for _ in 0..TURNS {
            if self.other_came.load(Ordering::SeqCst) {
                return;
            }
            thread::yield_now();
        }
        self.turns_ran_out.store(true, Ordering::SeqCst);
    }
}

#[test]
fn two_workers_find_the_least_cost(rt: HostRuntime) -> Result<(), Fail> {
    let alloc = rt.alloc();
    let mut shelf = shelf_of(alloc, &[("a.blocks", EQUALS)], 0)?;
    let plan = [PLAN_WORDS, "--workers 2"];
    let found = Printed::Lines("status Optimal\ncost 12\nbound 12");
    assert!(rt; comes_to(&rt, alloc, &mut shelf, &plan, Status::Done, found)?);
    let valid = Printed::Lines("status Yes");
    assert!(rt; comes_to(&rt, alloc, &mut shelf, &[CHECK_WORDS], Status::Done, valid)?);
    Ok(())
}

/// Whether the least cost is found while this worker is held, and the other one comes.
fn is_found_while_held(
    rt: &(impl Threads + Sync),
    alloc: Global,
    held: usize,
) -> Result<bool, Fail> {
    let gate = Held {
        held,
        other_came: AtomicBool::new(false),
        turns_ran_out: AtomicBool::new(false),
    };
    let mut shelf = shelf_of(alloc, &[("a.blocks", EQUALS)], 0)?;
    let words = words_of(alloc, &[PLAN_WORDS, "--workers 2"])?;
    let (status, printed) = answer_at(rt, alloc, &words, &mut shelf, 0, &gate)?;
    let other_came = gate.other_came.load(Ordering::SeqCst);
    let ran_out = gate.turns_ran_out.load(Ordering::SeqCst);
    let is_found = status == Status::Done && has_line(printed.as_str(), "cost 12");
    Ok(is_found && other_came && !ran_out)
}

#[test]
fn each_worker_waits_for_the_other(rt: HostRuntime) -> Result<(), Fail> {
    for held in [0, 1] {
        assert!(rt; is_found_while_held(&rt, rt.alloc(), held)?, "{held}");
    }
    Ok(())
}
