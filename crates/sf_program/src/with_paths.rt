//! Certificates judged for the design that takes their paths.

ghost use Rattle.std.specs.Prelude.{◌≡◌, Err, IfErr, IfNone, IfOk, IfSome, true};
ghost use Rattle.sf_cert_text.specs.Reading.{cert_read};
ghost use Rattle.sf_checker.specs.Answers.{is_yes, with_bad_path};
ghost use Rattle.sf_known.specs.Routed.{Takes};
ghost use Rattle.sf_model.specs.Legal.{block_count};
ghost use Rattle.sf_designs.specs.Loads.{TellsNoLoad};
ghost use Rattle.sf_designs.specs.Outcome.{Stops};
ghost use Rattle.sf_designs.specs.Reading.{Judged};
ghost use Rattle.sf_program.specs.Checked.{IsChosenAnswer, IsTextAnswer, cert_refusal};
ghost use Rattle.sf_program.specs.Resumed.{IsGood};

use crate::answering::cert_fault;
use crate::chosen::{check_chosen, check_text};
use sf_cert_text::stored_paths;
use sf_certificate::{Cert, copy_paths};
use sf_checker::{Answer, with_bad_path};
use sf_designs::Stop;
use sf_known::take_paths;
use sf_model::{Design, Paths};
use sf_options::BoundsChoice;
use std::alloc::{AllocError as NoMemory, Global};

/// What is answered where a path may be wrong.
fn with_wrong_path(found: Answer, wrong: Option<u64>) -> Answer
    ensures wrong { IfSome wrong (λ path. result ≡ with_bad_path path found) }
    ensures none { IfNone wrong (result ≡ found) }
{
    match wrong {
        Some(path) => with_bad_path(found, path),
        None => found,
    }
}

/// Has the design take a certificate's paths, and tells what the checker answers then.
pub fn answer_cert(
    alloc: Global,
    bounds: BoundsChoice,
    design: &mut Design,
    cert: &Cert,
) -> Result<Answer, NoMemory>
    requires { cert.now.blocks ≡ block_count design.old }
    ensures answer { IfOk result (IsChosenAnswer bounds design.old cert.now) }
    ensures takes { IfOk result (λ answer. is_yes answer ≡ true
        → Takes bounds design.old cert.now.paths design.new) }
    ensures good { IfOk result (λ answer. is_yes answer ≡ true → IsGood bounds design.new cert.now) }
    ensures blocks { IfOk result (λ _. block_count design.new ≡ block_count design.old) }
{
    let paths = copy_paths(alloc, &cert.paths)?;
    let wrong = take_paths(alloc, bounds, design, paths)?;
    let found = check_chosen(alloc, bounds, design, cert)?;
    Ok(with_wrong_path(found, wrong))
}

/// The paths that the text of a certificate says.
fn text_paths(alloc: Global, text: &[u8], design: &Design) -> Result<Paths, Stop>
    ensures paths { IfOk result (λ paths.
        IfOk (cert_read (block_count design.now) text.now) (λ said. said.paths ≡ paths)) }
    ensures refused { IfErr result (λ stop.
        Stops stop (λ why. Judged (cert_read (block_count design.now) text.now) cert_refusal (Err why))) }
    ensures tells { TellsNoLoad result }
{
    match stored_paths(alloc, text, design.block_count()) {
        Ok(paths) => Ok(paths),
        Err(fault) => Err(cert_fault(alloc, fault)?),
    }
}

/// What the checker answers to the certificate that a text says, for the design that takes its paths.
pub fn answer_text(
    alloc: Global,
    bounds: BoundsChoice,
    text: &[u8],
    routed: &mut Design,
) -> Result<Answer, Stop>
    ensures answer { IfOk result (IsTextAnswer bounds routed.old text.now) }
    ensures refused { IfErr result (λ stop.
        Stops stop (λ why. Judged (cert_read (block_count routed.old) text.now) cert_refusal (Err why))) }
    ensures tells { TellsNoLoad result }
{
    let paths = text_paths(alloc, text, routed)?;
    let wrong = take_paths(alloc, bounds, routed, paths)?;
    let found = check_text(alloc, bounds, text, routed)?;
    Ok(with_wrong_path(found, wrong))
}
