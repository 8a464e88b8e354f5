//! The command `gen`: a design made from a number.

ghost use Rattle.std.specs.Prelude.{◌≡◌, ◌++◌, None, Err, IfErr, IfOk};
ghost use Rattle.sf_model.specs.Legal.{block_count};
ghost use Rattle.sf_options.specs.Seen.{gen_seen};
ghost use Rattle.sf_program.specs.Generated.{GenRead, IsGenerated, cert_name};
ghost use Rattle.sf_designs.specs.Loads.{TellsNoLoad};
ghost use Rattle.sf_designs.specs.Outcome.{Stops};
ghost use Rattle.sf_program.specs.Planned.{IsAnswered, budget_of};
ghost use Rattle.sf_designs.specs.Stores.{Gives, stored_in};

use crate::budget::test_budget;
use crate::plan_answer::Names;
use crate::planning::search_design;
use sf_designs::{Stop, Store, Work};
use sf_generated::{file_name, generate_design};
use sf_io::Gate;
use sf_model::Design;
use sf_options::{BoundsChoice, GenWords};
use std::alloc::{AllocError as NoMemory, Global};
use std::thread::Threads;

/// The answer of a search, behind other stores.
fn put_behind(mut stores: Vec<Store>, searched: Work) -> Result<Work, NoMemory>
    ensures stores { IfOk result (λ w.
        stored_in w.stores.items ≡ stored_in stores.items ++ stored_in searched.stores.items) }
    ensures status { IfOk result (λ w. w.status ≡ searched.status) }
    ensures text { IfOk result (λ w. w.text ≡ searched.text) }
{
    for store in searched.stores {
        stores.push(store)?;
    }
    Ok(Work {
        status: searched.status,
        stores,
        text: searched.text,
    })
}

/// What the search of a generated design tells, with one worker.
fn search_made<R: Threads + Sync, G: Gate>(
    rt: &R,
    alloc: Global,
    words: &GenWords<'_>,
    design: &Design,
    gate: &G,
) -> Result<Work, NoMemory>
    ensures { let o = gen_seen words.now in IfOk result (Gives (IsAnswered BoundsChoice.Standard design.now 1
        (budget_of o.nodes (block_count design.now)) None 1 (cert_name o) None)) }
{
    let cert = file_name(alloc, words, ".cert")?;
    let names = Names {
        cert: cert.as_str(),
        pl: None,
        scale: 1,
    };
    search_design(
        rt,
        alloc,
        BoundsChoice::Standard,
        design,
        None,
        words.nodes,
        1,
        names,
        gate,
    )
}

/// Makes a design from a number, stores its texts, and searches it as `plan` does, with one worker.
pub fn generate<R: Threads + Sync, G: Gate>(
    rt: &R,
    alloc: Global,
    words: &GenWords<'_>,
    gate: &G,
) -> Result<Work, Stop>
    ensures answer { IfOk result (Gives (IsGenerated (gen_seen words.now))) }
    ensures refused { IfErr result (λ stop. Stops stop (λ why. GenRead (gen_seen words.now) (Err why))) }
    ensures tells { TellsNoLoad result }
{
    test_budget(alloc, false, words.nodes, u64::from(words.count))?;
    let made = generate_design(alloc, words)?;
    let searched = search_made(rt, alloc, words, &made.design, gate)?;
    let work = put_behind(made.stores, searched)?;
    Ok(work)
}
