//! A certificate that is stored anew: where it is valid, each closed subproblem names the first part of the
//! bound that is at least the cost.

ghost use Rattle.std.specs.Prelude.{◌≡◌, Some, Err, IfErr, IfOk, true};
ghost use Rattle.sf_cert_text.specs.Reading.{cert_read};
ghost use Rattle.sf_checker.specs.Answers.{is_yes};
ghost use Rattle.sf_known.specs.Routed.{Takes};
ghost use Rattle.sf_model.specs.declared.design.Design.{Design as DesignValue};
ghost use Rattle.sf_model.specs.Legal.{block_count};
ghost use Rattle.sf_program.specs.Checked.{IsJudged, IsRewritten, IsStoredAnew, JudgedText, cert_refusal};
ghost use Rattle.sf_designs.specs.Loads.{TellsNoLoad};
ghost use Rattle.sf_designs.specs.Outcome.{Stops};
ghost use Rattle.sf_designs.specs.Reading.{Judged};
ghost use Rattle.sf_program.specs.Resumed.{IsGood};
ghost use Rattle.sf_designs.specs.Stores.{Gives, stored_in};

use crate::answering::answer_work;
use crate::certificates::read_cert;
use crate::chosen::name_chosen;
use crate::plan_answer::stored_cert;
use crate::with_paths::answer_cert;
use sf_certificate::Cert;
use sf_checker::Answer;
use sf_designs::{Stop, Store, Work, no_stores};
use sf_model::Design;
use sf_options::BoundsChoice;
use std::alloc::{AllocError as NoMemory, Global};

/// The store of a certificate that is valid for the design that took its paths, with its parts named anew.
fn stored_anew(
    alloc: Global,
    bounds: BoundsChoice,
    design: &Design,
    cert: Cert,
    name: &str,
) -> Result<Vec<Store>, NoMemory>
    requires blocks { cert.blocks ≡ block_count design.now }
    requires valid { IsGood bounds design.now cert }
    ensures { IfOk result (λ all. (before : DesignValue) → Takes bounds before cert.paths design.now
        → IsStoredAnew bounds before cert name.now (stored_in all.items)) }
{
    let cert = name_chosen(alloc, bounds, design, cert)?;
    stored_cert(alloc, &cert, name)
}

/// What is stored of a certificate with this answer, where a valid one is so for the design that took its paths.
fn stores_of(
    alloc: Global,
    bounds: BoundsChoice,
    design: &Design,
    cert: Cert,
    answer: Answer,
    name: &str,
) -> Result<Vec<Store>, NoMemory>
    requires blocks { cert.blocks ≡ block_count design.now }
    requires valid { is_yes answer ≡ true → IsGood bounds design.now cert }
    ensures { IfOk result (λ all. (before : DesignValue)
        → (is_yes answer ≡ true → Takes bounds before cert.paths design.now)
        → IsRewritten bounds before cert (Some name.now) answer (stored_in all.items)) }
{
    match answer {
        Answer::Yes(_, _, _) => stored_anew(alloc, bounds, design, cert, name),
        Answer::No(_) => Ok(no_stores(alloc)),
    }
}

/// What is told of a certificate, and stored of it under this name.
fn rewrite_cert(
    alloc: Global,
    bounds: BoundsChoice,
    design: &mut Design,
    cert: Cert,
    name: &str,
) -> Result<Work, NoMemory>
    requires { cert.blocks ≡ block_count design.old }
    ensures { IfOk result (Gives (IsJudged bounds design.old cert (Some name.now))) }
{
    let answer = answer_cert(alloc, bounds, design, &cert)?;
    let stores = stores_of(alloc, bounds, design, cert, answer, name)?;
    answer_work(alloc, answer, stores)
}

/// What is told of the certificate that a text says, and stored of it under this name.
pub fn rewrite_text(
    alloc: Global,
    bounds: BoundsChoice,
    text: &[u8],
    design: &mut Design,
    name: &str,
) -> Result<Work, Stop>
    ensures answer { IfOk result (Gives (JudgedText bounds design.old text.now (Some name.now))) }
    ensures refused { IfErr result (λ stop.
        Stops stop (λ why. Judged (cert_read (block_count design.old) text.now) cert_refusal (Err why))) }
    ensures tells { TellsNoLoad result }
{
    let cert = read_cert(alloc, text, design)?;
    let work = rewrite_cert(alloc, bounds, design, cert, name)?;
    Ok(work)
}
