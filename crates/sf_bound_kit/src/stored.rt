//! The two functions as what a kit stores, and the kits of these.

use crate::asked::Asked;
use crate::kit::{Kit, Says};
use crate::pairs::{pair_area, pair_fit};
use sf_model::Design;
use sf_node::Node;

/// What `pair_area` says.
#[derive(Drop)]
pub struct PairArea;

impl Says for PairArea {
    ghost use Rattle.sf_bound_kit.specs.Pairs.{pair_area};

    ghost own = { pair_area };
}

impl Asked for PairArea {
    ghost use Rattle.std.specs.Prelude.{◌≡◌};
    ghost use Rattle.sf_node.specs.Children.{IsSubproblem};
    ghost use Rattle.sf_bound_kit.specs.Pairs.{pair_area};

    ghost may = { λ f design node. IsSubproblem design node };

    ghost gives = { λ f design node r. r ≡ pair_area design node };

    fn ask(&self, design: &Design, node: &Node) -> u64 {
        pair_area(design, node)
    }

    fn reads_spans(&self) -> bool {
        true
    }
}

/// What `pair_fit` says.
#[derive(Drop)]
pub struct PairFit;

impl Says for PairFit {
    ghost use Rattle.sf_bound_kit.specs.Pairs.{pair_fit};

    ghost own = { pair_fit };
}

impl Asked for PairFit {
    ghost use Rattle.std.specs.Prelude.{◌≡◌};
    ghost use Rattle.sf_node.specs.Children.{IsSubproblem};
    ghost use Rattle.sf_bound_kit.specs.Pairs.{pair_fit};

    ghost may = { λ f design node. IsSubproblem design node };

    ghost gives = { λ f design node r. r ≡ pair_fit design node };

    fn ask(&self, design: &Design, node: &Node) -> u64 {
        pair_fit(design, node)
    }

    fn reads_spans(&self) -> bool {
        true
    }
}

/// The kit of `pair_area`.
pub fn area_kit() -> Kit<PairArea, PairArea> {
    Kit::new(PairArea)
}

/// The kit of `pair_fit`.
pub fn fit_kit() -> Kit<PairFit, PairFit> {
    Kit::new(PairFit)
}
