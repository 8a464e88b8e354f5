//! The search of a design by a bound.

ghost use Rattle.std.specs.Prelude.{◌≡◌, ◌≤◌, IfOk, IfSome};
ghost use Rattle.sf_anneal.specs.Measured.{IsFloorplan};
ghost use Rattle.sf_certificate.specs.Valid.{decided};
ghost use Rattle.sf_program.specs.Planned.{IsSearchedBy};

use sf_bound::Bounds;
use sf_io::Gate;
use sf_model::Design;
use sf_polish::Expr;
use sf_rounds::{Found, SearchOptions};
use sf_search::{search, search_below};
use std::alloc::{AllocError as NoMemory, Global};
use std::thread::Threads;

/// The search of a design by these bounds, from this plan of this cost on where there is one.
pub fn search_from<R: Threads + Sync, B: Bounds, G: Gate>(
    rt: &R,
    alloc: Global,
    design: &Design,
    bounds: &B,
    start: Option<(Expr, u64)>,
    options: SearchOptions,
    gate: &G,
) -> Result<Found, NoMemory>
    requires start { IfSome start (λ plan. IsFloorplan design.now plan.0 plan.1) }
    requires workers { (1 ≤ options.workers) × (options.workers ≤ 16) }
    ensures searched { let value = B.Values.value bounds.now design.now in
        let part = B.part_value bounds.now design.now in
        IfOk result (λ found.
        IsSearchedBy value part design.now options.workers options.nodes start found.cert) }
    ensures plan { IfOk result (λ found. found.plan ≡ found.cert.plan) }
    ensures decided { IfOk result (λ found. found.decided ≡ decided found.cert.tags) }
{
    match start {
        None => search(rt, alloc, design, bounds, options, gate),
        Some((plan, cost)) => search_below(
            rt,
            alloc,
            design,
            bounds,
            Some(plan),
            cost,
            options,
            gate,
        ),
    }
}
