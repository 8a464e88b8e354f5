//! What is printed of a certificate: the answer of the checker, or the first fault of the text.

ghost use Rattle.std.specs.Prelude.{◌≡◌, ◌≢◌, ◌∷◌, [], IfOk, codes, string_bytes};
ghost use Rattle.std.specs.Fmt.{decimal};
ghost use Rattle.sf_model.specs.CostText.{cost_text};
ghost use Rattle.sf_checker.specs.declared.answer.Answer.TheVariants as answers;
ghost use Rattle.sf_program.specs.Checked.{answer_status, answer_text, cert_refusal, why_words};
ghost use Rattle.sf_designs.specs.Outcome.{Refuses};
ghost use Rattle.sf_designs.specs.Refusals.{line_of};
ghost use Rattle.sf_designs.specs.Stores.{stored_in};

use sf_cert_text::CertFault;
use sf_checker::{Answer, Why};
use sf_designs::{Stop, Store, Work, bare_fault};
use sf_io::Status;
use sf_model::push_cost;
use std::alloc::{AllocError as NoMemory, Global};

/// The first fault of the text of a certificate.
pub fn cert_fault(alloc: Global, fault: CertFault) -> Result<Stop, NoMemory>
    ensures refused { IfOk result (λ stop. Refuses stop (cert_refusal fault)) }
    ensures real { IfOk result (λ stop. fault ≢ CertFault.NoMemory) }
{
    match fault {
        CertFault::BadHeader(line) => bare_fault(alloc, "cert", line, "BadHeader"),
        CertFault::BadTag(line) => bare_fault(alloc, "cert", line, "BadTag"),
        CertFault::TooDeep(line) => bare_fault(alloc, "cert", line, "TooDeep"),
        CertFault::Truncated(line) => bare_fault(alloc, "cert", line, "Truncated"),
        CertFault::Trailing(line) => bare_fault(alloc, "cert", line, "Trailing"),
        CertFault::NoMemory => Err(NoMemory),
    }
}

/// A cost or a bound in digits, or `none` for MAX.
fn cost_word(alloc: Global, cost: u64) -> Result<String, NoMemory>
    ensures { IfOk result (λ word. string_bytes word ≡ cost_text cost) }
{
    let mut word = String::new(alloc);
    push_cost(&mut word, cost)?;
    Ok(word)
}

/// The four lines for a valid certificate.
fn yes_text(alloc: Global, cost: u64, bound: u64, decided: u64) -> Result<String, NoMemory>
    ensures { IfOk result (λ text. string_bytes text ≡ answer_text (answers.Yes cost bound decided)) }
{
    let cost = cost_word(alloc, cost)?;
    let bound = cost_word(alloc, bound)?;
    let text = format!(in alloc; "status Yes\ncost {cost}\nbound {bound}\ndecided {decided}\n")?;
    Ok(text)
}

/// A number that differs: what is said, and what it is.
fn differs_text(alloc: Global, fault: &str, said: u64, is: u64) -> Result<String, NoMemory>
    ensures { IfOk result (λ text. string_bytes text ≡
        line_of (codes "status" ∷ codes "No" ∷ fault.now ∷ cost_text said ∷ cost_text is ∷ [])) }
{
    let said = cost_word(alloc, said)?;
    let is = cost_word(alloc, is)?;
    format!(in alloc; "status No {fault} {said} {is}\n")
}

/// A subproblem that is closed below the cost.
fn not_closed_text(alloc: Global, node: u64, bound: u64, cost: u64) -> Result<String, NoMemory>
    ensures { let words = codes "NotClosed" ∷ decimal node ∷ cost_text bound ∷ cost_text cost ∷ [] in
        IfOk result (λ text. string_bytes text ≡ line_of (codes "status" ∷ codes "No" ∷ words)) }
{
    let bound = cost_word(alloc, bound)?;
    let cost = cost_word(alloc, cost)?;
    format!(in alloc; "status No NotClosed {node} {bound} {cost}\n")
}

/// The line with the first failure.
fn no_text(alloc: Global, why: Why) -> Result<String, NoMemory>
    ensures { IfOk result (λ text.
        string_bytes text ≡ line_of (codes "status" ∷ codes "No" ∷ why_words why)) }
{
    match why {
        Why::BadPlan => String::from_str(alloc, "status No BadPlan\n"),
        Why::CostDiffers(said, is) => differs_text(alloc, "CostDiffers", said, is),
        Why::NotClosed(node, bound, cost) => not_closed_text(alloc, node, bound, cost),
        Why::BoundDiffers(said, is) => differs_text(alloc, "BoundDiffers", said, is),
        Why::BadSplit(node) => format!(in alloc; "status No BadSplit {node}\n"),
        Why::BadChildren(node) => format!(in alloc; "status No BadChildren {node}\n"),
        Why::BadPath(path) => format!(in alloc; "status No BadPath {path}\n"),
    }
}

/// An answer of the checker as the command's, with what is stored of the certificate.
pub fn answer_work(alloc: Global, answer: Answer, stores: Vec<Store>) -> Result<Work, NoMemory>
    ensures status { IfOk result (λ w. w.status ≡ answer_status answer) }
    ensures stores { IfOk result (λ w. stored_in w.stores.items ≡ stored_in stores.items) }
    ensures text { IfOk result (λ w. w.text.items ≡ answer_text answer) }
{
    let (status, text) = match answer {
        Answer::Yes(cost, bound, decided) => {
            (Status::Done, yes_text(alloc, cost, bound, decided)?)
        }
        Answer::No(why) => (Status::No, no_text(alloc, why)?),
    };
    Ok(Work {
        status,
        stores,
        text: text.into_bytes(),
    })
}
