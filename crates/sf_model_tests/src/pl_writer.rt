//! The text of a placement at each scale, and reports with a plan and without.

ghost use Rattle.std.specs.Prelude.{◌≡◌, IfOk};
ghost use Rattle.sf_model.specs.Legal.{block_count};
ghost use Rattle.sf_pl_writer.specs.Length.{IsScale};

use sf_model::{
    Block, BlockList, Design, MAX, Name, NetList, Outline, Pad, PadList, Pin, Shape, Shapes,
    Weights,
};
use sf_pl_writer::{Outcome, Report, pl_text, report_text};
use sf_polish::{Expr, Token, Tokens, is_normal};
use sf_test_designs::{net, spot};
use std::alloc::{AllocError, Global};

const SHAPE: Shape = Shape { w: 25, h: 40 };

/// One block, one pad that stands in a net with it, and one pad that stands in none.
fn one_block(alloc: Global) -> Result<Design, AllocError>
    ensures { IfOk result (λ design. block_count design ≡ 1) }
{
    let block = Block {
        name: Name::new(alloc, b"b0")?,
        shapes: Shapes::from_vec(vec![in alloc; SHAPE]?),
    };
    let alone = Pad {
        name: Name::new(alloc, b"p0")?,
        x: 0,
        y: 0,
    };
    let pad = Pad {
        name: Name::new(alloc, b"p1")?,
        x: -5,
        y: 1205,
    };
    let net = net(alloc, Pin::Block(0), Pin::Pad(1), 1)?;
    Design::new(
        alloc,
        BlockList::from_vec(vec![in alloc; block]?),
        PadList::from_vec(vec![in alloc; alone, pad]?),
        NetList::from_vec(vec![in alloc; net]?),
        Outline { w: 25, h: 40 },
        Weights { area: 1, wire: 1 },
    )
}

/// Whether the placement has this text at so many units.
fn are_places(alloc: Global, scale: u64, wanted: &[u8]) -> Result<bool, AllocError>
    requires { IsScale scale }
{
    let design = one_block(alloc)?;
    let text = pl_text(alloc, &design, &[spot(0, 0, 0, SHAPE)], scale)?;
    Ok(text.as_slice() == wanted)
}

#[test]
fn writes_places(rt: HostRuntime) {
    let tenths = b"UCLA pl 1.0\nb0 0 0 DIMS = (2.5, 4) : N\np1 -0.5 120.5\n";
    assert!(rt; are_places(rt.alloc(), 10, tenths) == Ok(true));
    let whole = b"UCLA pl 1.0\nb0 0 0 DIMS = (25, 40) : N\np1 -5 1205\n";
    assert!(rt; are_places(rt.alloc(), 1, whole) == Ok(true));
    let thousandths = b"UCLA pl 1.0\nb0 0 0 DIMS = (0.025, 0.04) : N\np1 -0.005 1.205\n";
    assert!(rt; are_places(rt.alloc(), 1000, thousandths) == Ok(true));
}

/// Whether a report without a plan has this text.
fn is_none_told(alloc: Global, wanted: &[u8]) -> Result<bool, AllocError> {
    let report = Report {
        word: Outcome::NoneFits,
        cost: MAX,
        bound: MAX,
        decided: 1,
        size: (0, 0),
        area: 0,
        wire: 0,
        plan: None,
    };
    Ok(report_text(alloc, &report)?.as_slice() == wanted)
}

/// Whether a report with a plan of one block has this text.
fn is_plan_told(alloc: Global, wanted: &[u8]) -> Result<bool, AllocError> {
    let expr = Expr {
        tokens: Tokens::from_vec(vec![in alloc; Token::Block(0)]?),
        shapes: Shapes::from_vec(vec![in alloc; Shape { w: 3, h: 4 }]?),
    };
    if !is_normal(expr.tokens.as_slice(), 1) {
        return Ok(false);
    }
    let report = Report {
        word: Outcome::Optimal,
        cost: 12,
        bound: 12,
        decided: 2,
        size: (3, 4),
        area: 12,
        wire: 0,
        plan: Some(expr),
    };
    Ok(report_text(alloc, &report)?.as_slice() == wanted)
}

#[test]
fn writes_reports(rt: HostRuntime) {
    let none =
        b"status NoneFits\ncost none\nbound none\ndecided 1\nsize none\narea none\nwire none\nplan none\n";
    assert!(rt; is_none_told(rt.alloc(), none) == Ok(true));
    let plan =
        b"status Optimal\ncost 12\nbound 12\ndecided 2\nsize 3 4\narea 12\nwire 0\nplan 0:3x4\n";
    assert!(rt; is_plan_told(rt.alloc(), plan) == Ok(true));
}
