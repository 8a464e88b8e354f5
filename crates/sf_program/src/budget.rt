//! How many subproblems a search may decide.

ghost use Rattle.std.specs.Prelude.{◌≡◌, ◌≤◌, ◌<◌};
ghost use Rattle.sf_designs.specs.Loads.{TellsNoLoad};
ghost use Rattle.sf_designs.specs.Outcome.{Ends};
ghost use Rattle.sf_program.specs.Planned.{node_limit, budget_of, BudgetTested, CountTested};

use sf_designs::{Stop, over_limit};
use std::alloc::Global;

/// The limit of what a search of so many blocks decides, where it is no long one.
fn node_limit(blocks: u64) -> u64
    requires { blocks ≤ 320 }
    ensures { result ≡ node_limit blocks }
{
    (4_000_000_000 / ((blocks + 2) * (20 * blocks + 48))).min(4_000_000)
}

/// What was asked for, or its default.
pub fn budget_of(nodes: Option<u64>, blocks: u64) -> u64
    requires { blocks ≤ 320 }
    ensures { result ≡ budget_of nodes blocks }
{
    match nodes {
        Some(nodes) => nodes,
        None => node_limit(blocks).min(100_000),
    }
}

/// Refuses a count of subproblems past the limit, but of a long search.
pub fn test_count(alloc: Global, is_long: bool, count: u64, blocks: u64) -> Result<(), Stop>
    requires { blocks ≤ 320 }
    ensures count { Ends (λ _. count) result (CountTested is_long count blocks) }
    ensures tells { TellsNoLoad result }
{
    let limit = node_limit(blocks);
    if !is_long && count > limit {
        return Err(over_limit(alloc, "nodes", count, limit)?);
    }
    Ok(())
}

/// Refuses a budget past its limit, but of a long search.
pub fn test_budget(
    alloc: Global,
    is_long: bool,
    nodes: Option<u64>,
    blocks: u64,
) -> Result<(), Stop>
    requires { blocks ≤ 320 }
    ensures budget { Ends (λ _. budget_of nodes blocks) result (BudgetTested is_long nodes blocks) }
    ensures tells { TellsNoLoad result }
{
    test_count(alloc, is_long, budget_of(nodes, blocks), blocks)
}
