//! The calls that a bound is handed to, with the bound that was chosen.

ghost use Rattle.std.specs.Prelude.{◌≡◌, ◌≤◌, ◌↔◌, Err, IfErr, IfOk, IfSome, true};
ghost use Rattle.sf_anneal.specs.Measured.{IsFloorplan};
ghost use Rattle.sf_certificate.specs.Named.{AllNameFirst, AreAlikeButNames};
ghost use Rattle.sf_cert_text.specs.Reading.{cert_read};
ghost use Rattle.sf_certificate.specs.Valid.{decided};
ghost use Rattle.sf_checker.specs.Answers.{IsAnswer, is_yes};
ghost use Rattle.sf_checker.specs.Feeding.{IsAnswerTo};
ghost use Rattle.sf_model.specs.Legal.{block_count};
ghost use Rattle.sf_resume.specs.Resumed.{IsResumed};
ghost use Rattle.sf_program.specs.Checked.{cert_refusal};
ghost use Rattle.sf_program.specs.Chosen.{chosen_part, chosen_value};
ghost use Rattle.sf_designs.specs.Loads.{TellsNoLoad};
ghost use Rattle.sf_designs.specs.Outcome.{Stops};
ghost use Rattle.sf_program.specs.Planned.{IsSearched};
ghost use Rattle.sf_designs.specs.Reading.{Judged};
ghost use Rattle.sf_program.specs.Resumed.{IsGood};

use crate::judging::judged_by;
use crate::searching::search_from;
use sf_bound_kit::{Both, Kit, PairArea, PairFit, area_kit, fit_kit};
use sf_bounds::Standard;
use sf_certificate::Cert;
use sf_checker::{Answer, check, name_parts};
use sf_designs::Stop;
use sf_io::Gate;
use sf_model::Design;
use sf_options::BoundsChoice;
use sf_polish::Expr;
use sf_resume::resume;
use sf_rounds::{Found, SearchOptions};
use std::alloc::{AllocError as NoMemory, Global};
use std::thread::Threads;

/// The kits of both functions of pairs.
fn both_kits() -> Both<Kit<PairArea, PairArea>, Kit<PairFit, PairFit>> {
    Both {
        first: area_kit(),
        second: fit_kit(),
    }
}

/// The search of a design, from this plan of this cost on where there is one.
pub fn search_chosen<R: Threads + Sync, G: Gate>(
    rt: &R,
    alloc: Global,
    bounds: BoundsChoice,
    design: &Design,
    start: Option<(Expr, u64)>,
    options: SearchOptions,
    gate: &G,
) -> Result<Found, NoMemory>
    requires start { IfSome start (λ plan. IsFloorplan design.now plan.0 plan.1) }
    requires workers { (1 ≤ options.workers) × (options.workers ≤ 16) }
    ensures searched { IfOk result (λ found.
        IsSearched bounds design.now options.workers options.nodes start found.cert) }
    ensures plan { IfOk result (λ found. found.plan ≡ found.cert.plan) }
    ensures decided { IfOk result (λ found. found.decided ≡ decided found.cert.tags) }
{
    match bounds {
        BoundsChoice::Standard | BoundsChoice::Strong => {
            search_from(rt, alloc, design, &Standard, start, options, gate)
        }
        BoundsChoice::Pair => search_from(rt, alloc, design, &area_kit(), start, options, gate),
        BoundsChoice::Fit => search_from(rt, alloc, design, &fit_kit(), start, options, gate),
        BoundsChoice::Both => search_from(rt, alloc, design, &both_kits(), start, options, gate),
    }
}

/// The search that goes on from a valid certificate.
pub fn resume_chosen<R: Threads + Sync, G: Gate>(
    rt: &R,
    alloc: Global,
    bounds: BoundsChoice,
    design: &Design,
    cert: Cert,
    options: SearchOptions,
    gate: &G,
) -> Result<Found, NoMemory>
    requires blocks { cert.blocks ≡ block_count design.now }
    requires good { IsGood bounds design.now cert }
    requires workers { (1 ≤ options.workers) × (options.workers ≤ 16) }
    ensures { IfOk result (IsResumed design.now (chosen_value bounds design.now)
        (chosen_part bounds design.now) cert options.nodes) }
{
    match bounds {
        BoundsChoice::Standard | BoundsChoice::Strong => {
            resume(rt, alloc, design, &Standard, cert, options, gate)
        }
        BoundsChoice::Pair => resume(rt, alloc, design, &area_kit(), cert, options, gate),
        BoundsChoice::Fit => resume(rt, alloc, design, &fit_kit(), cert, options, gate),
        BoundsChoice::Both => resume(rt, alloc, design, &both_kits(), cert, options, gate),
    }
}

/// Whether a certificate is valid, or its first failure.
pub fn check_chosen(
    alloc: Global,
    bounds: BoundsChoice,
    design: &Design,
    cert: &Cert,
) -> Result<Answer, NoMemory>
    requires { cert.now.blocks ≡ block_count design.now }
    ensures answer { IfOk result
        (IsAnswer design.now (chosen_value bounds design.now) (chosen_part bounds design.now) cert.now) }
    ensures yes { IfOk result (λ answer. (is_yes answer ≡ true) ↔ IsGood bounds design.now cert.now) }
{
    match bounds {
        BoundsChoice::Standard => check(alloc, design, &Standard, cert),
        BoundsChoice::Strong => check(alloc, design, &Standard, cert),
        BoundsChoice::Pair => check(alloc, design, &area_kit(), cert),
        BoundsChoice::Fit => check(alloc, design, &fit_kit(), cert),
        BoundsChoice::Both => check(alloc, design, &both_kits(), cert),
    }
}

/// A valid certificate, each closed subproblem naming the first part that is at least the cost.
pub fn name_chosen(
    alloc: Global,
    bounds: BoundsChoice,
    design: &Design,
    cert: Cert,
) -> Result<Cert, NoMemory>
    requires blocks { cert.blocks ≡ block_count design.now }
    requires valid { IsGood bounds design.now cert }
    ensures named { IfOk result
        (λ c. AllNameFirst design.now (chosen_part bounds design.now) c.cost c.tags) }
    ensures alike { IfOk result (AreAlikeButNames cert) }
    ensures valid { IfOk result (IsGood bounds design.now) }
{
    match bounds {
        BoundsChoice::Standard | BoundsChoice::Strong => name_parts(alloc, design, &Standard, cert),
        BoundsChoice::Pair => name_parts(alloc, design, &area_kit(), cert),
        BoundsChoice::Fit => name_parts(alloc, design, &fit_kit(), cert),
        BoundsChoice::Both => name_parts(alloc, design, &both_kits(), cert),
    }
}

/// What the checker answers to the certificate that a text says.
pub fn check_text(
    alloc: Global,
    bounds: BoundsChoice,
    text: &[u8],
    design: &Design,
) -> Result<Answer, Stop>
    ensures answer { IfOk result (IsAnswerTo design.now (chosen_value bounds design.now)
        (chosen_part bounds design.now) text.now) }
    ensures refused { IfErr result (λ stop.
        Stops stop (λ why. Judged (cert_read (block_count design.now) text.now) cert_refusal (Err why))) }
    ensures tells { TellsNoLoad result }
{
    match bounds {
        BoundsChoice::Standard | BoundsChoice::Strong => judged_by(alloc, text, design, &Standard),
        BoundsChoice::Pair => judged_by(alloc, text, design, &area_kit()),
        BoundsChoice::Fit => judged_by(alloc, text, design, &fit_kit()),
        BoundsChoice::Both => judged_by(alloc, text, design, &both_kits()),
    }
}
