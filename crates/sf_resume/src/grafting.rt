//! New pieces on an old tree.

ghost use Rattle.std.specs.Prelude.{◌≡◌, ℕ, List, IfOk, MatchOption};
ghost use Rattle.sf_model.specs.declared.TheConstants.{MAX};
ghost use Rattle.sf_model.specs.Legal.{block_count};
ghost use Rattle.sf_polish.specs.Writable.{IsWritable};
ghost use Rattle.sf_node.specs.Parts.{Parts};
ghost use Rattle.sf_search_core.specs.declared.entry.Entry.{Entry};
ghost use Rattle.sf_certificate.specs.declared.tag.Tag.{Tag};
ghost use Rattle.sf_certificate.specs.Valid.{HasCost};
ghost use Rattle.sf_resume.specs.Grafted.{CanGraft, IsGrafted};

use crate::early::are_early;
use sf_bound::Bounds;
use sf_certificate::Cert;
use sf_checker::name_parts;
use sf_model::Design;
use sf_pieces::{Piece, lay, name_pieces};
use sf_polish::Expr;
use std::alloc::{AllocError as NoMemory, Global};

/// The certificate of a tree that goes on where it was left open: the old pieces and the new ones laid end to
/// end, and each closed subproblem named by the first part that is at least the new cost. What the new pieces
/// keep names theirs. The area of an old one stays its first part; only where an old one is closed by another
/// part the parts are measured anew.
pub fn graft<B: Bounds>(
    alloc: Global,
    design: &Design,
    bounds: &B,
    mut old: Vec<Piece>,
    new: Vec<Piece>,
    plan: Option<Expr>,
    cost: u64,
    bound: u64,
) -> Result<Cert, NoMemory>
    requires can { (tags : List Tag) × (before : ℕ) × (entries : List Entry) × (left : List Parts)
        × CanGraft design.now (B.Values.value bounds.now design.now) (B.part_value bounds.now design.now)
        tags before old.items new.items cost bound entries left }
    requires planned { MatchOption plan (cost ≡ MAX)
        (λ expr. HasCost design.now expr cost × IsWritable (block_count design.now) expr) }
    ensures { let value = B.Values.value bounds.now design.now in
        let part = B.part_value bounds.now design.now in
        IfOk result (λ cert. (tags : List Tag) (before : ℕ) (entries : List Entry) (left : List Parts)
        → CanGraft design.now value part tags before old.items new.items cost bound entries left
        → IsGrafted design.now value part tags entries plan cost bound cert) }
{
    let is_named = are_early(&old);
    let mut named = name_pieces(alloc, new, cost)?;
    old.append(&mut named)?;
    let laid = lay(alloc, design, old, plan, cost, bound)?;
    if is_named {
        return Ok(laid);
    }
    let cert = name_parts(alloc, design, bounds, laid)?;
    Ok(cert)
}
