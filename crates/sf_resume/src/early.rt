//! Pieces whose tags name the first part of all, whatever the cost.

ghost use Rattle.std.specs.Prelude.{◌↔◌, All, IsTrue};
ghost use Rattle.sf_resume.specs.Early.{IsEarly};

use sf_pieces::{Piece, is_late};

/// Whether no tag of a piece names another part than the area.
fn is_early(piece: &Piece) -> bool
    ensures { IsTrue result ↔ IsEarly piece.now }
{
    piece.tags.iter().all(|tag| !is_late(*tag))
}

/// Whether no tag of these pieces names another part than the area. A lower cost changes none of their names.
pub fn are_early(pieces: &[Piece]) -> bool
    ensures { IsTrue result ↔ All IsEarly pieces.now }
{
    pieces.iter().all(|piece| is_early(piece))
}
