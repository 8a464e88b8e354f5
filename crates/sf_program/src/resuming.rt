//! The command `resume`: the search goes on from what a certificate leaves open.

ghost use Rattle.std.specs.Prelude.{◌≡◌, ◌+◌, Ok, Err, IfErr, IfOk};
ghost use Rattle.sf_certificate.specs.Valid.{decided};
ghost use Rattle.sf_model.specs.Legal.{block_count};
ghost use Rattle.sf_pl_writer.specs.Length.{IsScale};
ghost use Rattle.sf_options.specs.Options.{resume};
ghost use Rattle.sf_options.specs.Seen.{resume_seen, text_of};
ghost use Rattle.sf_program.specs.Answer.{Obeys};
ghost use Rattle.sf_designs.specs.Loads.{ReadsShelf, TellsNoLoad};
ghost use Rattle.sf_designs.specs.Outcome.{Stops};
ghost use Rattle.sf_program.specs.Planned.{CountTested};
ghost use Rattle.sf_program.specs.Resumed.{IsGoneOn, IsGood, IsTakenUp, SumTested};
ghost use Rattle.sf_designs.specs.Stores.{Gives};

use crate::answering::answer_work;
use crate::budget::test_count;
use crate::certificates::read_cert_file;
use crate::chosen::resume_chosen;
use crate::knowing::read_known;
use crate::plan_answer::Names;
use crate::planning::tell_found;
use crate::with_paths::answer_cert;
use sf_certificate::Cert;
use sf_checker::Answer;
use sf_designs::{Stop, Work, no_stores};
use sf_io::{Gate, Shelf};
use sf_model::Design;
use sf_options::ResumeWords;
use sf_rounds::SearchOptions;
use std::alloc::{AllocError as NoMemory, Global};
use std::thread::Threads;

/// Goes on from a valid certificate, and tells what was found.
fn go_on<R: Threads + Sync, G: Gate>(
    rt: &R,
    alloc: Global,
    design: &Design,
    words: &ResumeWords<'_>,
    cert: Cert,
    gate: &G,
) -> Result<Work, NoMemory>
    requires good { IsGood words.now.bounds design.now cert }
    requires blocks { cert.blocks ≡ block_count design.now }
    requires scale { IsScale words.now.design.scale.per_unit }
    ensures { let o = resume_seen words.now in IfOk result (Gives
        (IsGoneOn o.bounds design.now cert o.nodes o.design.per_unit o.cert_out o.pl_out)) }
{
    let options = SearchOptions {
        workers: words.workers,
        nodes: words.nodes,
    };
    let bounds = words.bounds;
    let found = resume_chosen(rt, alloc, bounds, design, cert, options, gate)?;
    let names = Names {
        cert: words.cert_out,
        pl: words.pl_out,
        scale: words.design.scale.per_unit,
    };
    tell_found(alloc, bounds, design, found, names)
}

/// Goes on from a certificate that decides so many subproblems, where these and the budget together are
/// within the limit.
fn go_on_within<R: Threads + Sync, G: Gate>(
    rt: &R,
    alloc: Global,
    design: &Design,
    words: &ResumeWords<'_>,
    cert: Cert,
    count: u64,
    gate: &G,
) -> Result<Work, Stop>
    requires good { IsGood words.now.bounds design.now cert }
    requires blocks { cert.blocks ≡ block_count design.now }
    requires count { count ≡ decided cert.tags }
    requires scale { IsScale words.now.design.scale.per_unit }
    ensures answer { let o = resume_seen words.now in IfOk result (Gives
        (IsGoneOn o.bounds design.now cert o.nodes o.design.per_unit o.cert_out o.pl_out)) }
    ensures within { let o = resume_seen words.now in let sum = decided cert.tags + o.nodes in
        IfOk result (λ w. CountTested o.is_long sum (block_count design.now) (Ok sum)) }
    ensures refused { let o = resume_seen words.now in let sum = decided cert.tags + o.nodes in
        IfErr result (λ stop.
        Stops stop (λ why. CountTested o.is_long sum (block_count design.now) (Err why))) }
    ensures tells { TellsNoLoad result }
{
    let blocks = u64::from(design.block_count());
    let sum = count.checked_add(words.nodes).ok_or(NoMemory)?;
    test_count(alloc, words.is_long, sum, blocks)?;
    Ok(go_on(rt, alloc, design, words, cert, gate)?)
}

/// What is answered to a certificate: the first failure of one that isn't valid, or what is found beyond it,
/// where the design has taken its paths.
fn take_up<R: Threads + Sync, G: Gate>(
    rt: &R,
    alloc: Global,
    design: &mut Design,
    words: &ResumeWords<'_>,
    cert: Cert,
    gate: &G,
) -> Result<Work, Stop>
    requires blocks { cert.blocks ≡ block_count design.old }
    requires scale { IsScale words.now.design.scale.per_unit }
    ensures answer { IfOk result (Gives (IsTakenUp (resume_seen words.now) design.old cert)) }
    ensures within { let o = resume_seen words.now in
        IfOk result (λ w. SumTested o.bounds o.is_long o.nodes design.old cert (Ok cert)) }
    ensures refused { let o = resume_seen words.now in IfErr result (λ stop.
        Stops stop (λ why. SumTested o.bounds o.is_long o.nodes design.old cert (Err why))) }
    ensures tells { TellsNoLoad result }
{
    let answer = answer_cert(alloc, words.bounds, design, &cert)?;
    match answer {
        Answer::Yes(_, _, count) => go_on_within(rt, alloc, design, words, cert, count, gate),
        Answer::No(_) => Ok(answer_work(alloc, answer, no_stores(alloc))?),
    }
}

/// Reads a design and a certificate, goes on with the search from what the certificate leaves open, and
/// tells what was found.
pub fn resume<R: Threads + Sync, S: Shelf, G: Gate>(
    rt: &R,
    alloc: Global,
    words: &ResumeWords<'_>,
    shelf: &mut S,
    gate: &G,
) -> Result<Work, Stop>
    requires scale { IsScale words.now.design.scale.per_unit }
    ensures answer { Obeys (resume (resume_seen words.now)) (S.seen shelf.old).holds result }
    ensures shelf { ReadsShelf (S.seen shelf.old) (S.seen shelf.new) result }
{
    let mut design = read_known(alloc, shelf, &words.design, words.weights, words.bounds)?;
    let cert = read_cert_file(alloc, shelf, words.cert, words.is_long, &design)?;
    take_up(rt, alloc, &mut design, words, cert, gate)
}
