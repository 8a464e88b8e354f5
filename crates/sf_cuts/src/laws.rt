//! What cuts some blocks cuts any of them, and how large packed plans are.

ghost use Rattle.std.specs.Prelude.{◌≡◌, ◌≤◌, ℕ, Bool, List, length, All, count_by, filter};
ghost use Rattle.sf_model.specs.declared.design.Design.{Design};
ghost use Rattle.sf_model.specs.declared.plan.Spot.{Spot};
ghost use Rattle.sf_model.specs.Legal.{block_count};
ghost use Rattle.sf_model.specs.Tree.{Tree, width, height, leaves};
ghost use Rattle.sf_place.specs.Spots.{IsByNumber};
ghost use Rattle.sf_place.specs.Verdict.{IsListed};
ghost use Rattle.sf_cuts.specs.declared.axis.Axis.TheVariants.{Across, Upward};
ghost use Rattle.sf_cuts.specs.Cuts.{Cuts, extent};
ghost use Rattle.sf_cuts.specs.Packed.{IsPacked};

/// Where a tree cuts a placement, so does some tree of those of its leaves that pass a test, if any does. So
/// whichever cut of a placement is taken first, its parts are cut where the whole is.
pub fn cut_placements_have_cut_parts()
    ensures { (spots : List Spot) (tree : Tree) (keep : ℕ → Bool) → Cuts spots tree
        → 1 ≤ count_by (λ leaf. keep leaf.0) (leaves tree)
        → (part : Tree) × (leaves part ≡ filter (λ leaf. keep leaf.0) (leaves tree)) × Cuts spots part }
{}

/// Where all placed sizes are listed, the packed plan is no wider and no higher than the placement.
pub fn packed_plans_keep_to_the_extent()
    ensures width { (design : Design) (soft : List Bool) (spots : List Spot) (tree : Tree)
        → IsByNumber spots → length spots ≡ block_count design → All (IsListed design) spots
        → IsPacked design soft spots tree → width tree ≤ extent Across spots }
    ensures height { (design : Design) (soft : List Bool) (spots : List Spot) (tree : Tree)
        → IsByNumber spots → length spots ≡ block_count design → All (IsListed design) spots
        → IsPacked design soft spots tree → height tree ≤ extent Upward spots }
{}
