//! The certificate of a search, from the pieces that its workers put down.

ghost use Rattle.std.specs.Prelude.{◌≡◌, ℕ, List, IfOk, MatchOption};
ghost use Rattle.sf_model.specs.declared.TheConstants.{MAX};
ghost use Rattle.sf_model.specs.Legal.{block_count};
ghost use Rattle.sf_polish.specs.Writable.{IsWritable};
ghost use Rattle.sf_node.specs.declared.part.Part.{Part};
ghost use Rattle.sf_node.specs.Parts.{Parts};
ghost use Rattle.sf_search_core.specs.declared.entry.Entry.{Entry};
ghost use Rattle.sf_certificate.specs.Valid.{HasCost};
ghost use Rattle.sf_pieces.specs.Naming.{AreNamed, renamed};
ghost use Rattle.sf_pieces.specs.Searched.{IsAssembled, IsSearched};

use crate::laying::lay;
use crate::naming::name_all;
use crate::piece::Piece;
use sf_certificate::Cert;
use sf_model::Design;
use sf_polish::Expr;
use std::alloc::{AllocError as NoMemory, Global};

/// The certificate of a search: its pieces laid end to end, each closed subproblem named by the values that are
/// kept for it. The plan costs `cost`, or there is none and `cost` is MAX.
pub fn assemble(
    alloc: Global,
    design: &Design,
    pieces: Vec<Piece>,
    plan: Option<Expr>,
    cost: u64,
    bound: u64,
) -> Result<Cert, NoMemory>
    requires searched { (value : Parts → ℕ) × (part : Parts → Part → ℕ) × (entries : List Entry)
        × (left : List Parts) × IsSearched design.now value part cost bound pieces.items entries left }
    requires planned { MatchOption plan (cost ≡ MAX)
        (λ expr. HasCost design.now expr cost × IsWritable (block_count design.now) expr) }
    ensures { IfOk result (λ cert. (value : Parts → ℕ) (part : Parts → Part → ℕ) (entries : List Entry)
        (left : List Parts) → IsSearched design.now value part cost bound pieces.items entries left
        → IsAssembled design.now value part entries left plan cost bound cert) }
{
    let pieces = name_pieces(alloc, pieces, cost)?;
    let cert = lay(alloc, design, pieces, plan, cost, bound)?;
    Ok(cert)
}

/// The pieces, each with its closed subproblems named by what is kept for it. Nothing is kept any longer.
pub fn name_pieces(alloc: Global, pieces: Vec<Piece>, cost: u64) -> Result<Vec<Piece>, NoMemory>
    ensures { IfOk result (λ all. AreNamed cost pieces.items all.items) }
{
    let mut all = Vec::with_capacity(alloc, pieces.len())?;
    for piece in pieces {
        all.push(named(alloc, piece, cost))?;
    }
    Ok(all)
}

/// A piece whose closed subproblems are named.
fn named(alloc: Global, piece: Piece, cost: u64) -> Piece
    ensures first { result.first.items ≡ piece.first.items }
    ensures tags { result.tags.items ≡ renamed cost piece.tags.items piece.kept.items }
{
    let Piece {
        first,
        mut tags,
        kept,
    } = piece;
    name_all(&mut tags, &kept, cost);
    let kept = Vec::new(alloc);
    Piece { first, tags, kept }
}
