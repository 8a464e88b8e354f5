//! Whether a certificate is valid.

ghost use Rattle.std.specs.Prelude.{◌≡◌, ◌↔◌, true, IfOk};
ghost use Rattle.sf_model.specs.Legal.{block_count};
ghost use Rattle.sf_certificate.specs.Valid.{IsValid};
ghost use Rattle.sf_checker.specs.Answers.{IsAnswer, is_yes};

use crate::answer::Answer;
use crate::judge::Judge;
use sf_bound::Bounds;
use sf_certificate::Cert;
use sf_model::Design;
use std::alloc::{AllocError as NoMemory, Global};

/// Whether a certificate is valid for a design and a bound function, or the first failure. Of a closed
/// subproblem the part that it names is measured, and nothing else.
pub fn check<B: Bounds>(
    alloc: Global,
    design: &Design,
    bounds: &B,
    cert: &Cert,
) -> Result<Answer, NoMemory>
    requires { cert.now.blocks ≡ block_count design.now }
    ensures answer { let value = B.Values.value bounds.now design.now in
        let part = B.part_value bounds.now design.now in
        IfOk result (λ a. IsAnswer design.now value part cert.now a) }
    ensures yes { let value = B.Values.value bounds.now design.now in
        let part = B.part_value bounds.now design.now in
        IfOk result (λ a. (is_yes a ≡ true) ↔ IsValid design.now value part cert.now) }
{
    let mut judge = Judge::new(alloc, design, bounds, &cert.plan, cert.cost)?;
    let mut room = bounds.room(alloc);
    for run in cert.tags.runs() {
        for tag in run {
            judge.take(design, bounds, cert.cost, *tag, &mut room)?;
        }
    }
    Ok(judge.answer(cert.cost, cert.bound))
}
