//! What a search leaves open.

ghost use Rattle.std.specs.Prelude.{◌≡◌, All, IfOk};
ghost use Rattle.sf_cursor.specs.Stretches.{IsStretch};
ghost use Rattle.sf_rounds.specs.Legs.{AreLeftOpen};

use sf_bound::Bounds;
use sf_cursor::Stretch;
use sf_model::Design;
use sf_pieces::Piece;
use sf_worker::Hand;
use std::alloc::{AllocError as NoMemory, Global};

/// Pieces of open subproblems, and the least of a value and of their bounds.
#[derive(Drop)]
pub struct Opened {
    pub pieces: Vec<Piece>,
    pub bound: u64,
}

/// Leaves open what the stretches stand for, a piece for each of them.
pub fn leave_open<B: Bounds>(
    alloc: Global,
    design: &Design,
    bounds: &B,
    stretches: Vec<Stretch>,
    value: u64,
) -> Result<Opened, NoMemory>
    requires { All (IsStretch design.now (B.Values.value bounds.now design.now)) stretches.items }
    ensures { IfOk result (AreLeftOpen design.now (B.Values.value bounds.now design.now)
        (B.part_value bounds.now design.now) value stretches.items) }
{
    let mut room = bounds.room(alloc);
    let mut opened = Opened {
        pieces: Vec::new(alloc),
        bound: value,
    };
    for stretch in stretches {
        let mut hand = Hand::at(stretch, design, bounds)?;
        opened.bound = hand.leave_open(design, bounds, &mut room, opened.bound)?;
        let (piece, _) = hand.into_parts();
        opened.pieces.push(piece)?;
    }
    Ok(opened)
}
