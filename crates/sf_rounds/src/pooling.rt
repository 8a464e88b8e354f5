//! What the workers of a round begin with, and what they draw later.

ghost use Rattle.std.specs.Prelude.{◌≡◌, ◌+◌, map, sum_by, All, IfOk};
ghost use Rattle.sf_worker.specs.Took.{Serves};
ghost use Rattle.sf_rounds.specs.Accounts.{AreFirst, IsNew};
ghost use Rattle.sf_rounds.specs.Jobs.{CanPass, IsPooled};

use crate::job::{Job, Member};
use crate::run::run_all;
use sf_bound::Bounds;
use sf_budget::{Account, Budget};
use sf_frontier::Served;
use sf_incumbent::Incumbent;
use sf_io::Gate;
use sf_model::Design;
use std::alloc::{AllocError as NoMemory, Global};
use std::thread::Threads;

/// A worker begins with one part in so many of its quota, where there are others.
const FIRST_PARTS: u64 = 4;

/// A worker begins with so many decisions at least, where its quota has them: in a round of small quotas nothing is
/// drawn.
const LEAST: u64 = 16_384;

/// What each worker begins with, and what is left of all quotas together.
pub fn first_quotas(alloc: Global, quotas: &[u64]) -> Result<(Vec<u64>, u64), NoMemory>
    ensures { IfOk result (λ r. AreFirst quotas.now r.0.items r.1) }
{
    let parts = if quotas.len() == 1 { 1 } else { FIRST_PARTS };
    let mut first = Vec::with_capacity(alloc, quotas.len())?;
    let mut rest: u64 = 0;
    for quota in quotas {
        let one = quota.div_ceil(parts).max(LEAST).min(*quota);
        first.push(one)?;
        rest = rest.saturating_add(quota - one);
    }
    Ok((first, rest))
}

/// Runs all workers at once, which draw from a budget of so many decisions when their quotas are spent.
pub fn run_pooled<R: Threads + Sync, T: Served + Sync, B: Bounds, G: Gate>(
    rt: &R,
    alloc: Global,
    jobs: Vec<Job<T>>,
    rest: u64,
    design: &Design,
    bounds: &B,
    word: &Incumbent,
    gate: &G,
) -> Result<Vec<Job<T>>, NoMemory>
    requires team { Serves T.serves design.now (B.Values.value bounds.now design.now) }
    requires ready { All (CanPass design.now (B.Values.value bounds.now design.now) word.now) jobs.items }
    ensures { IfOk result (λ all. IsPooled design.now (B.Values.value bounds.now design.now)
        (B.part_value bounds.now design.now) rest jobs.items all.items) }
{
    let (budget, mut account) = Budget::new(alloc, rest)?;
    let members = with_accounts(alloc, jobs, &budget, &mut account)?;
    let members = run_all(rt, members, design, bounds, word, &budget, gate);
    let jobs = without_accounts(alloc, members, &budget, &mut account)?;
    budget.finish(account);
    Ok(jobs)
}

/// The workers, each with an account of its own.
fn with_accounts<T: Served>(
    alloc: Global,
    jobs: Vec<Job<T>>,
    budget: &Budget,
    account: &mut Account,
) -> Result<Vec<Member<T>>, NoMemory>
    requires { account.old.budget ≡ budget.now.id }
    ensures jobs { IfOk result (λ members. map (λ m. m.job) members.items ≡ jobs.items) }
    ensures accounts { IfOk result (λ members. All (λ m. IsNew budget.now m.account) members.items) }
    ensures account { account.new ≡ account.old }
{
    let mut members = Vec::with_capacity(alloc, jobs.len())?;
    for job in jobs {
        let own = budget.split(account);
        members.push(Member { job, account: own })?;
    }
    Ok(members)
}

/// The workers without their accounts, which are joined into one.
fn without_accounts<T: Served>(
    alloc: Global,
    members: Vec<Member<T>>,
    budget: &Budget,
    account: &mut Account,
) -> Result<Vec<Job<T>>, NoMemory>
    requires own { account.old.budget ≡ budget.now.id }
    requires accounts { All (λ m. m.account.budget ≡ budget.now.id) members.items }
    ensures jobs { IfOk result (λ jobs. jobs.items ≡ map (λ m. m.job) members.items) }
    ensures account { IfOk result (λ _. account.new
        ≡ record account.old {
          drawn = account.old.drawn
              + sum_by (λ m. m.account.drawn) members.items;
        }) }
{
    let mut jobs = Vec::with_capacity(alloc, members.len())?;
    for member in members {
        let Member {
            job,
            account: other,
        } = member;
        budget.join(account, other);
        jobs.push(job)?;
    }
    Ok(jobs)
}
