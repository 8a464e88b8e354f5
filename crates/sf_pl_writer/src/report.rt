//! The report of a search.

ghost use Rattle.std.specs.Prelude.{◌≡◌, ◌++◌, length, IfOk, OnOk, MatchOption, ⊤, string_bytes};
ghost use Rattle.std.specs.Fmt.{decimal};
ghost use Rattle.sf_model.specs.CostText.{cost_text};
ghost use Rattle.sf_polish.specs.Normal.{IsNormal};
ghost use Rattle.sf_pl_writer.specs.ReportText.{line, outcome_text, no_plan_lines, measured_lines};
ghost use Rattle.sf_pl_writer.specs.ReportText.{report_text};

use sf_expr_text::push_expr;
use sf_model::push_cost;
use sf_polish::Expr;
use std::alloc::{AllocError as NoMemory, Global};

/// How a search ended.
#[derive(Clone, Copy)]
pub enum Outcome {
    Optimal,
    NoneFits,
    Open,
}

/// What is printed of a search. `cost` and `bound` are `MAX` for none; size, area and wire are
/// those of the plan and aren't printed where there is none.
#[derive(Drop)]
pub struct Report {
    pub word: Outcome,
    pub cost: u64,
    pub bound: u64,
    pub decided: u64,
    pub size: (u64, u64),
    pub area: u64,
    pub wire: u64,
    pub plan: Option<Expr>,
}

/// The report in eight lines.
pub fn report_text(alloc: Global, report: &Report) -> Result<Vec<u8>, NoMemory>
    requires { MatchOption report.now.plan ⊤ (λ expr. IsNormal (length expr.shapes) expr.tokens) }
    ensures text { IfOk result (λ text. text.items ≡ report_text report.now) }
{
    let mut text = String::new(alloc);
    push_words(&mut text, "status", word_of(report.word))?;
    push_value(&mut text, "cost", report.cost)?;
    push_value(&mut text, "bound", report.bound)?;
    push_number(&mut text, "decided", report.decided)?;
    match &report.plan {
        None => push_no_plan(&mut text)?,
        Some(expr) => push_plan(&mut text, report, expr)?,
    }
    Ok(text.into_bytes())
}

/// The word of an outcome.
fn word_of(outcome: Outcome) -> &'static str
    ensures { result.now ≡ outcome_text outcome }
{
    match outcome {
        Outcome::Optimal => "Optimal",
        Outcome::NoneFits => "NoneFits",
        Outcome::Open => "Open",
    }
}

/// Adds the lines that would tell a plan.
fn push_no_plan(text: &mut String) -> Result<(), NoMemory>
    ensures { OnOk result (string_bytes text.new ≡ string_bytes text.old ++ no_plan_lines) }
{
    text.push_str("size none\narea none\nwire none\nplan none\n")
}

/// Adds the lines of a plan.
fn push_plan(text: &mut String, report: &Report, expr: &Expr) -> Result<(), NoMemory>
    requires { IsNormal (length expr.now.shapes) expr.now.tokens }
    ensures { OnOk result (string_bytes text.new
        ≡ string_bytes text.old ++ measured_lines report.now expr.now) }
{
    let (w, h) = report.size;
    write!(text, "size {w} {h}\n")?;
    push_number(text, "area", report.area)?;
    push_number(text, "wire", report.wire)?;
    text.push_str("plan ")?;
    push_expr(text, expr)?;
    text.push_str("\n")
}

/// Adds a line of a label and words.
fn push_words(text: &mut String, label: &str, words: &str) -> Result<(), NoMemory>
    ensures { OnOk result (string_bytes text.new ≡ string_bytes text.old ++ line label.now words.now) }
{
    write!(text, "{label} {words}\n")
}

/// Adds a line of a label and a number.
fn push_number(text: &mut String, label: &str, number: u64) -> Result<(), NoMemory>
    ensures { OnOk result (string_bytes text.new ≡ string_bytes text.old ++ line label.now (decimal number)) }
{
    write!(text, "{label} {number}\n")
}

/// Adds a line of a label and a cost, or `none`.
fn push_value(text: &mut String, label: &str, value: u64) -> Result<(), NoMemory>
    ensures { OnOk result (string_bytes text.new
        ≡ string_bytes text.old ++ line label.now (cost_text value)) }
{
    write!(text, "{label} ")?;
    push_cost(text, value)?;
    text.push_str("\n")
}
