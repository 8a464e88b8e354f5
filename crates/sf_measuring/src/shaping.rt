//! The command `shape`: the shape curve of an expression.

ghost use Rattle.std.specs.Prelude.{◌≡◌, ◌≢◌, ◌++◌, IfOk, OnOk, string_bytes};
ghost use Rattle.std.specs.List.{flat_map};
ghost use Rattle.sf_curves.specs.Choices.{IsRootCurve};
ghost use Rattle.sf_model.specs.Legal.{block_count};
ghost use Rattle.sf_node.specs.Subproblem.{root};
ghost use Rattle.sf_polish.specs.Normal.{IsNormal};
ghost use Rattle.sf_expr_text.specs.Reading.{tokens_read};
ghost use Rattle.sf_expr_text.specs.Text.{SpellsTokens};
ghost use Rattle.sf_options.specs.Seen.{shape_seen};
ghost use Rattle.sf_designs.specs.Loads.{ReadsShelf, TellsNoLoad};
ghost use Rattle.sf_designs.specs.Outcome.{Ends, Refuses};
ghost use Rattle.sf_designs.specs.Reading.{Said};
ghost use Rattle.sf_measuring.specs.Shaped.{IsCurveText, ShapeAnswers, TokensRead, expr_refusal};
ghost use Rattle.sf_measuring.specs.Shaped.{least_line, point_line};

use sf_curves::{Curve, Point, area, root_curve};
use sf_designs::{Stop, Work, bare_fault, load_text, read_design};
use sf_expr_text::{ExprFault, read_tokens};
use sf_io::{Shelf, Status};
use sf_model::Design;
use sf_node::Node;
use sf_options::{ShapeWords, WeightWords};
use sf_polish::Token;
use std::alloc::{AllocError as NoMemory, Global};

/// The first fault of the text of an expression.
fn expr_fault(alloc: Global, fault: ExprFault) -> Result<Stop, NoMemory>
    ensures real { IfOk result (λ stop. fault ≢ ExprFault.NoMemory) }
    ensures refused { IfOk result (λ stop. Refuses stop (expr_refusal fault)) }
{
    match fault {
        ExprFault::BadToken(line) => bare_fault(alloc, "expr", line, "BadToken"),
        ExprFault::NotBallot(line) => bare_fault(alloc, "expr", line, "NotBallot"),
        ExprFault::NotNormal(line) => bare_fault(alloc, "expr", line, "NotNormal"),
        ExprFault::RepeatedBlock(line) => bare_fault(alloc, "expr", line, "RepeatedBlock"),
        ExprFault::MissingBlock(line) => bare_fault(alloc, "expr", line, "MissingBlock"),
        ExprFault::NoMemory => Err(NoMemory),
    }
}

/// The tokens that a text spells, of a design's blocks.
fn parse_tokens(alloc: Global, text: &[u8], design: &Design) -> Result<Vec<Token>, Stop>
    ensures said { let blocks = block_count design.now in Ends (λ v. v.items) result
        (Said (SpellsTokens blocks text.now) (tokens_read blocks text.now) expr_refusal) }
    ensures normal { IfOk result (λ v. IsNormal (block_count design.now) v.items) }
    ensures tells { TellsNoLoad result }
{
    match read_tokens(alloc, text, design.block_count()) {
        Ok(tokens) => Ok(tokens),
        Err(fault) => Err(expr_fault(alloc, fault)?),
    }
}

/// The tokens that the named file spells, of a design's blocks.
fn read_tokens_file<S: Shelf>(
    alloc: Global,
    shelf: &mut S,
    name: &str,
    design: &Design,
) -> Result<Vec<Token>, Stop>
    ensures tokens { Ends (λ v. v.items) result
        (TokensRead (S.seen shelf.old).holds name.now (block_count design.now)) }
    ensures normal { IfOk result (λ v. IsNormal (block_count design.now) v.items) }
    ensures shelf { ReadsShelf (S.seen shelf.old) (S.seen shelf.new) result }
{
    let text = load_text(alloc, shelf, name)?;
    parse_tokens(alloc, &text, design)
}

/// The curve of an expression over all listed shapes: the spans of the whole search space are whole lists.
fn whole_curve(alloc: Global, design: &Design, tokens: &[Token]) -> Result<Curve, NoMemory>
    requires normal { IsNormal (block_count design.now) tokens.now }
    ensures { IfOk result (IsRootCurve design.now tokens.now (root design.now).spans) }
{
    let whole = Node::root(alloc, design)?;
    root_curve(alloc, design, tokens, whole.spans())
}

/// Writes the line of a point: its width and its height.
fn push_point(text: &mut String, point: Point) -> Result<(), NoMemory>
    ensures { OnOk result (string_bytes text.new ≡ string_bytes text.old ++ point_line point) }
{
    let (w, h) = (point.w, point.h);
    write!(text, "{w} {h}\n")
}

/// Writes a line for each point.
fn push_points(text: &mut String, points: &[Point]) -> Result<(), NoMemory>
    ensures { OnOk result (string_bytes text.new ≡ string_bytes text.old ++ flat_map point_line points.now) }
{
    for point in points {
        push_point(text, *point)?;
    }
    Ok(())
}

/// Writes the line of the least area, with its point, or that there is none.
fn push_least(text: &mut String, least: Option<Point>) -> Result<(), NoMemory>
    ensures { OnOk result (string_bytes text.new ≡ string_bytes text.old ++ least_line least) }
{
    let Some(point) = least else {
        return write!(text, "least none\n");
    };
    let (w, h) = (point.w, point.h);
    let area = area(point);
    write!(text, "least {w} {h} {area}\n")
}

/// A line for each point of a curve, and one for its least area.
fn curve_text(alloc: Global, curve: &Curve) -> Result<Vec<u8>, NoMemory>
    ensures { IfOk result (λ text. IsCurveText curve.now text.items) }
{
    let mut text = String::new(alloc);
    push_points(&mut text, curve.points())?;
    push_least(&mut text, curve.least_area())?;
    Ok(text.into_bytes())
}

/// The shape curve of the named expression over the blocks of the named design. Nothing is stored.
pub fn shape<S: Shelf>(alloc: Global, words: &ShapeWords<'_>, shelf: &mut S) -> Result<Work, Stop>
    ensures answer { ShapeAnswers (shape_seen words.now) (S.seen shelf.old).holds result }
    ensures shelf { ReadsShelf (S.seen shelf.old) (S.seen shelf.new) result }
{
    let areas_alone = WeightWords {
        area: 1,
        wire: 0,
        net_weights: None,
    };
    let design = read_design(alloc, shelf, &words.design, areas_alone)?;
    let tokens = read_tokens_file(alloc, shelf, words.expr, &design)?;
    let curve = whole_curve(alloc, &design, &tokens)?;
    let text = curve_text(alloc, &curve)?;
    Ok(Work::printed(alloc, Status::Done, text))
}
