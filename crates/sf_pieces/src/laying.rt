//! Pieces laid end to end.

ghost use Rattle.std.specs.Prelude.{◌≡◌, ℕ, map, IfOk, IsPermutation, MatchOption, OnOk};
ghost use Rattle.std.specs.List.{flat_map};
ghost use Rattle.sf_model.specs.declared.TheConstants.{MAX};
ghost use Rattle.sf_model.specs.Legal.{block_count};
ghost use Rattle.sf_polish.specs.Writable.{IsWritable};
ghost use Rattle.sf_node.specs.declared.part.Part.{Part};
ghost use Rattle.sf_node.specs.Parts.{Parts};
ghost use Rattle.sf_certificate.specs.Valid.{HasCost, least};
ghost use Rattle.sf_pieces.specs.Assembly.{AreInOrder};
ghost use Rattle.sf_pieces.specs.Laid.{HoldTree, IsLaid, open_in};
ghost use Rattle.sf_pieces.specs.Told.{told_by};

use crate::piece::Piece;
use sf_certificate::{Cert, Tag, TagList, compare_steps, copy_paths};
use sf_model::Design;
use sf_polish::Expr;
use std::alloc::{AllocError as NoMemory, Global};

/// The certificate of pieces that hold one tree, whatever their order. The plan costs `cost`, or there is none
/// and `cost` is MAX. The names of parts stay as they are.
pub fn lay(
    alloc: Global,
    design: &Design,
    mut pieces: Vec<Piece>,
    plan: Option<Expr>,
    cost: u64,
    bound: u64,
) -> Result<Cert, NoMemory>
    requires tree { (part : Parts → Part → ℕ) × HoldTree design.now part cost pieces.items }
    requires planned { MatchOption plan (cost ≡ MAX)
        (λ expr. HasCost design.now expr cost × IsWritable (block_count design.now) expr) }
    // Whatever the bound function and its parts: where the pieces hold a tree by these parts, and the bound is
    // the least of the cost and of what the pieces leave open.
    ensures { IfOk result (λ cert. (value : Parts → ℕ) (part : Parts → Part → ℕ)
        → HoldTree design.now part cost pieces.items
        → bound ≡ least cost (map value (open_in (told_by design.now pieces.items)))
        → IsLaid design.now value part pieces.items plan cost bound cert) }
{
    sort(&mut pieces)?;
    let tags = TagList::from_runs(runs_of(alloc, pieces)?);
    let blocks = design.block_count();
    let paths = copy_paths(alloc, &design.routes.paths)?;
    Ok(Cert {
        blocks,
        plan,
        cost,
        bound,
        paths,
        tags,
    })
}

/// Puts pieces into the order of their first paths.
fn sort(pieces: &mut Vec<Piece>) -> Result<(), NoMemory>
    ensures moved { IsPermutation pieces.old.items pieces.new.items }
    ensures sorted { OnOk result (AreInOrder pieces.new.items) }
{
    pieces.sort_by(|a, b| compare_steps(&a.first, &b.first))?;
    Ok(())
}

/// The tags of pieces, a run for each.
fn runs_of(alloc: Global, pieces: Vec<Piece>) -> Result<Vec<Vec<Tag>>, NoMemory>
    ensures { IfOk result
        (λ runs. flat_map (λ run. run.items) runs.items ≡ flat_map (λ p. p.tags.items) pieces.items) }
{
    let mut runs = Vec::with_capacity(alloc, pieces.len())?;
    for piece in pieces {
        runs.push(piece.tags)?;
    }
    Ok(runs)
}
