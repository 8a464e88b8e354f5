//! What is stored and printed of a search.

ghost use Rattle.std.specs.Prelude.{◌≡◌, ◌≤◌, ◌++◌, ◌∷◌, [], length, ℕ, IfOk, None};
ghost use Rattle.std.specs.Prelude.{Some, string_bytes};
ghost use Rattle.sf_model.specs.Legal.{block_count};
ghost use Rattle.sf_polish.specs.Writable.{IsWritable};
ghost use Rattle.sf_cert_text.specs.Text.{cert_text};
ghost use Rattle.sf_certificate.specs.Valid.{HasCost, decided};
ghost use Rattle.sf_pl_writer.specs.Length.{IsScale};
ghost use Rattle.sf_options.specs.Seen.{text_of};
ghost use Rattle.sf_program.specs.Planned.{IsEnding, AreMeasures, IsTold, outcome_status, placement_stores};
ghost use Rattle.sf_designs.specs.Stores.{stored_in};

use sf_cert_text::write;
use sf_certificate::Cert;
use sf_designs::{Store, Work};
use sf_io::Status;
use sf_model::{Design, MAX, MOST_SIDE, Spot};
use sf_pl_writer::{Outcome, Report, pl_text, report_text};
use sf_place::{size, spots};
use sf_polish::{Expr, plan_of};
use sf_wire::wire;
use std::alloc::{AllocError as NoMemory, Global};

/// The names under which the certificate and the placement are stored, and the scale of the placement's
/// lengths.
#[derive(Clone, Copy)]
pub struct Names<'a> {
    pub cert: &'a str,
    pub pl: Option<&'a str>,
    pub scale: u64,
}

/// A certificate, the word that is said of it, and how many subproblems it decides.
#[derive(Clone, Copy)]
pub struct Ended<'a> {
    pub cert: &'a Cert,
    pub said: Outcome,
    pub decided: u64,
}

/// How a search ended, by its cost and bound.
pub fn ending_of(cost: u64, bound: u64) -> Outcome
    requires { bound ≤ cost }
    ensures { IsEnding cost bound result }
{
    if bound < cost {
        Outcome::Open
    } else if cost == MAX {
        Outcome::NoneFits
    } else {
        Outcome::Optimal
    }
}

/// The status that goes with the word.
fn outcome_status(said: Outcome) -> Status
    ensures { result ≡ outcome_status said }
{
    match said {
        Outcome::Optimal => Status::Done,
        Outcome::NoneFits => Status::NoneFits,
        Outcome::Open => Status::Open,
    }
}

/// What is measured of a plan.
#[derive(Drop)]
struct Measured {
    spots: Vec<Spot>,
    size: (u64, u64),
    wire: u64,
}

/// The spots, the size and the wire length of a plan that fits.
fn measure_plan(alloc: Global, design: &Design, expr: &Expr) -> Result<Measured, NoMemory>
    requires writable { IsWritable (block_count design.now) expr.now }
    requires fits { (z : ℕ) × HasCost design.now expr.now z }
    ensures measured { IfOk result (λ m.
        AreMeasures design.now expr.now m.spots.items m.size.0 m.size.1 m.wire) }
    ensures one_each { IfOk result (λ m. length m.spots.items ≡ block_count design.now) }
    ensures small { IfOk result (λ m. (m.size.0 ≤ MOST_SIDE) × (m.size.1 ≤ MOST_SIDE)) }
{
    let plan = plan_of(alloc, expr)?;
    let spots = spots(alloc, &plan, design.block_count())?;
    let wire = wire(design, &spots);
    Ok(Measured {
        spots,
        size: size(&plan),
        wire,
    })
}

/// What is to be stored: these bytes under this name.
fn store_of(alloc: Global, name: &str, bytes: Vec<u8>) -> Result<Store, NoMemory>
    ensures name { IfOk result (λ s. string_bytes s.name ≡ name.now) }
    ensures bytes { IfOk result (λ s. s.bytes.items ≡ bytes.items) }
{
    let name = String::from_str(alloc, name)?;
    Ok(Store { name, bytes })
}

/// The certificate's store alone.
pub fn stored_cert(alloc: Global, cert: &Cert, name: &str) -> Result<Vec<Store>, NoMemory>
    ensures { IfOk result (λ all. stored_in all.items ≡ (name.now, cert_text cert.now) ∷ []) }
{
    let text = write(alloc, cert)?;
    let mut stores = Vec::new(alloc);
    stores.push(store_of(alloc, name, text)?)?;
    Ok(stores)
}

/// The placement's store where its name is given.
fn push_placed(
    alloc: Global,
    stores: &mut Vec<Store>,
    design: &Design,
    spots: &[Spot],
    names: Names<'_>,
) -> Result<(), NoMemory>
    requires one_each { length spots.now ≡ block_count design.now }
    requires scale { IsScale names.scale }
    ensures { let names = names.entry in IfOk result (λ done. stored_in stores.new.items ≡
        stored_in stores.old.items
        ++ placement_stores design.now names.scale (text_of names.pl) spots.now) }
{
    if let Some(name) = names.pl {
        let text = pl_text(alloc, design, spots, names.scale)?;
        stores.push(store_of(alloc, name, text)?)?;
    }
    Ok(())
}

/// What is told of a certificate without a plan.
pub fn tell_none(
    alloc: Global,
    design: &Design,
    ended: Ended<'_>,
    names: Names<'_>,
) -> Result<Work, NoMemory>
    requires none { ended.cert.now.plan ≡ None }
    requires decided { ended.decided ≡ decided ended.cert.now.tags }
    ensures told { let ended = ended.entry in let names = names.entry in IfOk result (λ w.
        IsTold design.now names.scale names.cert.now (text_of names.pl) ended.said ended.cert.now None
        (stored_in w.stores.items) w.text.items) }
    ensures status { IfOk result (λ w. w.status ≡ outcome_status ended.entry.said) }
{
    let Ended {
        cert,
        said,
        decided,
    } = ended;
    let report = Report {
        word: said,
        cost: cert.cost,
        bound: cert.bound,
        decided,
        size: (0, 0),
        area: 0,
        wire: 0,
        plan: None,
    };
    let text = report_text(alloc, &report)?;
    Ok(Work {
        status: outcome_status(said),
        stores: stored_cert(alloc, cert, names.cert)?,
        text,
    })
}

/// What is told of a certificate with its plan.
pub fn tell_plan(
    alloc: Global,
    design: &Design,
    ended: Ended<'_>,
    expr: Expr,
    names: Names<'_>,
) -> Result<Work, NoMemory>
    requires plan { ended.cert.now.plan ≡ Some expr }
    requires fits { HasCost design.now expr ended.cert.now.cost }
    requires blocks { ended.cert.now.blocks ≡ block_count design.now }
    requires decided { ended.decided ≡ decided ended.cert.now.tags }
    requires scale { IsScale names.scale }
    ensures told { let ended = ended.entry in let names = names.entry in IfOk result (λ w.
        IsTold design.now names.scale names.cert.now (text_of names.pl) ended.said ended.cert.now (Some expr)
        (stored_in w.stores.items) w.text.items) }
    ensures status { IfOk result (λ w. w.status ≡ outcome_status ended.entry.said) }
{
    let Ended {
        cert,
        said,
        decided,
    } = ended;
    let measured = measure_plan(alloc, design, &expr)?;
    let mut stores = stored_cert(alloc, cert, names.cert)?;
    push_placed(alloc, &mut stores, design, &measured.spots, names)?;
    let (width, height) = measured.size;
    let report = Report {
        word: said,
        cost: cert.cost,
        bound: cert.bound,
        decided,
        size: (width, height),
        area: width * height,
        wire: measured.wire,
        plan: Some(expr),
    };
    let text = report_text(alloc, &report)?;
    Ok(Work {
        status: outcome_status(said),
        stores,
        text,
    })
}
