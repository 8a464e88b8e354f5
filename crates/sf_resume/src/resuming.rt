//! The search goes on.

ghost use Rattle.std.specs.Prelude.{◌≡◌, ◌≤◌, IfOk};
ghost use Rattle.sf_model.specs.Legal.{block_count};
ghost use Rattle.sf_certificate.specs.Valid.{IsValid, decided, one_decided};
ghost use Rattle.sf_resume.specs.Resumed.{IsResumed};

use crate::cutting::{Apart, cut_apart};
use crate::grafting::graft;
use sf_bound::Bounds;
use sf_certificate::{Cert, Tag, TagList};
use sf_io::Gate;
use sf_model::Design;
use sf_rounds::{Found, Leg, Opened, SearchOptions, copy_plan, go_on, leave_open};
use std::alloc::{AllocError as NoMemory, Global};
use std::thread::Threads;

/// Decides subproblems that a valid certificate leaves open, until none is open or `nodes` are decided, and
/// hands over the certificate of the whole.
pub fn resume<R: Threads + Sync, B: Bounds, G: Gate>(
    rt: &R,
    alloc: Global,
    design: &Design,
    bounds: &B,
    cert: Cert,
    options: SearchOptions,
    gate: &G,
) -> Result<Found, NoMemory>
    requires blocks { cert.blocks ≡ block_count design.now }
    requires valid { IsValid design.now (B.Values.value bounds.now design.now)
        (B.part_value bounds.now design.now) cert }
    requires workers_low { 1 ≤ options.workers }
    requires workers_high { options.workers ≤ 16 }
    ensures resumed { IfOk result
        (IsResumed design.now (B.Values.value bounds.now design.now)
        (B.part_value bounds.now design.now) cert options.nodes) }
{
    let Cert {
        plan,
        cost,
        tags,
        ..
    } = cert;
    let Apart {
        pieces: old,
        stretches,
    } = cut_apart(alloc, design, bounds, &tags.into_vec(alloc)?)?;
    let Leg {
        left,
        pieces: mut new,
        best,
        value,
    } = go_on(
        rt, alloc, design, bounds, stretches, plan, cost, options, gate,
    )?;
    let Opened {
        pieces: mut open,
        bound,
    } = leave_open(alloc, design, bounds, left, value)?;
    new.append(&mut open)?;
    let plan = copy_plan(alloc, &best)?;
    let cert = graft(alloc, design, bounds, old, new, best, value, bound)?;
    let decided = decided_by(&cert.tags)?;
    Ok(Found {
        plan,
        cost: value,
        bound,
        decided,
        cert,
    })
}

/// How many subproblems a tag decides.
fn one_decided(tag: Tag) -> u64
    ensures { result ≡ one_decided tag }
{
    match tag {
        Tag::Extend | Tag::Split(_) | Tag::Closed(_) => 1,
        Tag::Open => 0,
    }
}

/// How many subproblems the tags of a run decide.
fn decided_in(run: &[Tag]) -> u64
    ensures { result ≡ decided run.now }
{
    let mut count = 0;
    for tag in run {
        count += one_decided(*tag);
    }
    count
}

/// How many subproblems the tags decide. So many that a `u64` can't count them don't fit into memory.
fn decided_by(tags: &TagList) -> Result<u64, NoMemory>
    ensures { IfOk result (λ count. count ≡ decided tags.now) }
{
    let mut count: u64 = 0;
    for run in tags.runs() {
        count = count.checked_add(decided_in(run)).ok_or(NoMemory)?;
    }
    Ok(count)
}
