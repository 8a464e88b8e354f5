//! What the machine refuses, on one block by area alone.

ghost use Rattle.std.specs.Prelude.{◌≡◌, ◌<◌, length, map, IfOk};
ghost use Rattle.sf_node.specs.Children.{IsSubproblem};
ghost use Rattle.sf_search_core.specs.Conserved.{branched};
ghost use Rattle.sf_search_core.specs.Core.{IsCoreState};
ghost use Rattle.sf_search_core.specs.Events.{held_by, kind_of, AreBounds, CanCome};

use crate::nodes::Seven;
use sf_model::{Design, MAX};
use sf_node::Node;
use sf_pool::Pool;
use sf_search_core::{Costs, Event, How, Refusal};
use sf_test_designs::{FLAT, NARROW, WIDE, bare, block_of};
use std::alloc::{AllocError, Global};

/// An event of the only worker, without bounds.
#[derive(Clone, Copy)]
enum Try {
    Take(usize),
    Replace(How, u64),
    Close(u64),
    Offer(u64),
}

/// A block 2x3 or 3x2.
fn one_block(alloc: Global) -> Result<Design, AllocError> {
    let block = block_of(alloc, vec![in alloc; NARROW, FLAT]?)?;
    bare(alloc, vec![in alloc; block]?, WIDE, 0)
}

/// The bounds of the children that a way of branching makes.
fn bounds_of(alloc: Global, design: &Design, node: &Node, how: How) -> Result<Costs, AllocError>
    requires { IsSubproblem design.now node.now }
    ensures { IfOk result (λ costs. costs ≡ map (λ child. 7) (branched (kind_of how) node.now)) }
{
    match how {
        How::Extend => {
            let children = node.extend_children(design)?;
            Ok(Costs::from_vec(Vec::from_elem(alloc, 7, children.len())?))
        }
        How::Split(_) => Ok(Costs::from_vec(vec![in alloc; 7, 7]?)),
    }
}

/// The bounds of the children of the held task.
fn held_bounds(alloc: Global, design: &Design, pool: &Pool, how: How) -> Result<Costs, AllocError>
    requires core { IsCoreState design.now (λ node. 7) pool.now }
    requires worker { 0 < length pool.now.held }
    ensures { IfOk result (λ costs. AreBounds (λ node. 7) how costs (held_by pool.now 0)) }
{
    match pool.held(0) {
        None => Ok(Costs::from_vec(Vec::new(alloc))),
        Some(task) => bounds_of(alloc, design, &task.node, how),
    }
}

/// The event of a try.
fn event_of(alloc: Global, design: &Design, pool: &Pool, tried: Try) -> Result<Event, AllocError>
    requires core { IsCoreState design.now (λ node. 7) pool.now }
    requires worker { 0 < length pool.now.held }
    ensures { IfOk result (CanCome (λ node. 7) pool.now) }
{
    match tried {
        Try::Take(place) => Ok(Event::Take(0, place)),
        Try::Replace(how, value) => {
            let costs = held_bounds(alloc, design, pool, how)?;
            Ok(Event::Replace(0, how, value, costs))
        }
        Try::Close(value) => Ok(Event::Close(0, value)),
        Try::Offer(cost) => Ok(Event::Offer(0, cost)),
    }
}

/// Makes one step; what was refused, and why.
fn step(
    alloc: Global,
    design: &Design,
    pool: &mut Pool,
    tried: Try,
) -> Result<Option<Refusal>, AllocError>
    requires core { IsCoreState design.now (λ node. 7) pool.old }
    requires worker { 0 < length pool.old.held }
    ensures core { IsCoreState design.now (λ node. 7) pool.new }
    ensures worker { 0 < length pool.new.held }
{
    let event = event_of(alloc, design, pool, tried)?;
    Ok(pool.apply(design, event, &Seven).err())
}

/// Events one after another, and why they are refused.
const STEPS: [(Try, Option<Refusal>); 24] = [
    // The root is open, and nothing is held.
    (Try::Take(1), Some(Refusal::NoPlace)),
    (Try::Replace(How::Extend, MAX), Some(Refusal::NotHeld)),
    (Try::Close(MAX), Some(Refusal::NotHeld)),
    (Try::Offer(7), Some(Refusal::NotHeld)),
    // The root is held, and the word is MAX.
    (Try::Take(0), None),
    (Try::Replace(How::Extend, 9), Some(Refusal::Stale(9, MAX))),
    (Try::Replace(How::Split(1), MAX), Some(Refusal::NoStep)),
    (Try::Close(9), Some(Refusal::Stale(9, MAX))),
    (Try::Close(MAX), Some(Refusal::NotAtLeast(7, MAX))),
    (Try::Offer(7), Some(Refusal::NotCost(7, 7))),
    // The left half of the root is held, with one shape.
    (Try::Replace(How::Split(0), MAX), None),
    (Try::Take(1), None),
    (Try::Take(0), Some(Refusal::NoPlace)),
    (Try::Replace(How::Split(0), MAX), Some(Refusal::NoStep)),
    // Its child, which is complete and solved, is held.
    (Try::Replace(How::Extend, MAX), None),
    (Try::Take(1), None),
    (Try::Replace(How::Extend, MAX), Some(Refusal::NoStep)),
    (Try::Offer(8), Some(Refusal::NotCost(8, 7))),
    // The word is 7.
    (Try::Offer(7), None),
    (Try::Replace(How::Extend, 6), Some(Refusal::Stale(6, 7))),
    (Try::Replace(How::Extend, 7), Some(Refusal::NotBelow(7, 7))),
    (Try::Close(6), Some(Refusal::Stale(6, 7))),
    (Try::Close(8), Some(Refusal::NotAtLeast(7, 8))),
    (Try::Close(7), None),
];

/// Whether each event is refused for its reason, or taken.
fn are_answered(alloc: Global) -> Result<bool, AllocError> {
    let design = one_block(alloc)?;
    let mut pool = Pool::new(alloc, &design, 7, 1, &Seven)?;
    for (tried, refusal) in STEPS {
        if step(alloc, &design, &mut pool, tried)? != refusal {
            return Ok(false);
        }
    }
    Ok(true)
}

/// Events are taken, or refused for the first reason.
#[test]
fn refuses(rt: HostRuntime) {
    assert!(rt; are_answered(rt.alloc()) == Ok(true));
}
