//! The command `check`: a certificate is judged, and stored anew where it is valid and that is asked for.

ghost use Rattle.std.specs.Prelude.{None, Err, IfErr, IfOk};
ghost use Rattle.sf_cert_text.specs.Reading.{cert_read};
ghost use Rattle.sf_model.specs.Legal.{block_count};
ghost use Rattle.sf_options.specs.Options.{check};
ghost use Rattle.sf_options.specs.Seen.{check_seen, text_of};
ghost use Rattle.sf_program.specs.Answer.{Obeys};
ghost use Rattle.sf_program.specs.Checked.{CertRead, JudgedFile, JudgedText, cert_refusal};
ghost use Rattle.sf_designs.specs.Loads.{Reads, ReadsShelf, TellsNoLoad};
ghost use Rattle.sf_designs.specs.Outcome.{Stops};
ghost use Rattle.sf_designs.specs.Reading.{Judged};
ghost use Rattle.sf_designs.specs.Stores.{Gives};

use crate::answering::answer_work;
use crate::certificates::load_cert;
use crate::knowing::read_known;
use crate::rewriting::rewrite_text;
use crate::with_paths::answer_text;
use sf_designs::{Stop, Work, no_stores};
use sf_io::Shelf;
use sf_model::Design;
use sf_options::{BoundsChoice, CheckWords};
use std::alloc::Global;

/// What is told of the certificate that a text says: nothing of it is stored.
fn judge_text(
    alloc: Global,
    bounds: BoundsChoice,
    text: &[u8],
    design: &mut Design,
) -> Result<Work, Stop>
    ensures answer { IfOk result (Gives (JudgedText bounds design.old text.now None)) }
    ensures refused { IfErr result (λ stop.
        Stops stop (λ why. Judged (cert_read (block_count design.old) text.now) cert_refusal (Err why))) }
    ensures tells { TellsNoLoad result }
{
    let answer = answer_text(alloc, bounds, text, design)?;
    let work = answer_work(alloc, answer, no_stores(alloc))?;
    Ok(work)
}

/// What is told of the certificate of the named file, and stored of it where there is a name for that.
fn check_file<S: Shelf>(
    alloc: Global,
    bounds: BoundsChoice,
    shelf: &mut S,
    name: &str,
    is_long: bool,
    design: &mut Design,
    rewrite: Option<&str>,
) -> Result<Work, Stop>
    ensures answer { let rewrite = text_of rewrite.entry in IfOk result
        (Gives (JudgedFile bounds is_long (S.seen shelf.old).holds name.now design.old rewrite)) }
    ensures refused { let blocks = block_count design.old in IfErr result (λ stop.
        Stops stop (λ why. CertRead is_long (S.seen shelf.old).holds name.now blocks (Err why))) }
    ensures shelf { ReadsShelf (S.seen shelf.old) (S.seen shelf.new) result }
{
    let text = load_cert(alloc, shelf, name, is_long)?;
    match rewrite {
        None => judge_text(alloc, bounds, &text, design),
        Some(rewrite) => rewrite_text(alloc, bounds, &text, design, rewrite),
    }
}

/// Reads a design and a certificate, and tells what the checker answers. A valid certificate is stored anew
/// where there is a name for that.
pub fn check<S: Shelf>(alloc: Global, words: &CheckWords<'_>, shelf: &mut S) -> Result<Work, Stop>
    ensures answer { Obeys (check (check_seen words.now)) (S.seen shelf.old).holds result }
    ensures shelf { ReadsShelf (S.seen shelf.old) (S.seen shelf.new) result }
{
    let mut design = read_known(alloc, shelf, &words.design, words.weights, words.bounds)?;
    check_file(
        alloc,
        words.bounds,
        shelf,
        words.cert,
        words.is_long,
        &mut design,
        words.rewrite,
    )
}
