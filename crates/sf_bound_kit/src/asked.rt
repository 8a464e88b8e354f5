//! What is asked for a number at a subproblem.

ghost use Rattle.std.specs.Prelude.{◌≡◌, ℕ, IfSome, true};
ghost use Rattle.sf_model.specs.declared.design.Design.{Design as DesignValue};
ghost use Rattle.sf_node.specs.Parts.{Parts};
ghost use Rattle.sf_node.specs.Children.{IsSubproblem};
ghost use Rattle.sf_node.specs.Subproblem.{root};

use sf_model::Design;
use sf_node::Node;

/// What a kit stores: something that may be asked for a number at a subproblem of a design.
pub trait Asked: Sync {
    /// It may be asked here.
    ghost may: { Self → DesignValue → Parts → Type 0 };

    /// It gives this number here.
    ghost gives: { Self → DesignValue → Parts → ℕ → Type 0 };

    /// The number, in the units of costs.
    fn ask(&self, design: &Design, node: &Node) -> u64
        requires { may self.now design.now node.now }
        ensures { gives self.now design.now node.now result };

    /// Whether it reads of a subproblem the spans alone.
    fn reads_spans(&self) -> bool
        ensures { result ≡ true → (design : DesignValue) (a : Parts) (b : Parts) (r : ℕ)
            → a.spans ≡ b.spans → gives self.now design a r → gives self.now design b r };

    /// The number, which is kept at subproblems whose spans are whole, where it is the same at all of these.
    fn recall(&self, design: &Design, node: &Node, whole: &mut Option<u64>) -> u64
        requires may { may self.now design.now node.now }
        requires subproblem { IsSubproblem design.now node.now }
        requires kept { IfSome whole.old (gives self.now design.now (root design.now)) }
        ensures gives { gives self.now design.now node.now result }
        ensures kept { IfSome whole.new (gives self.now design.now (root design.now)) }
    {
        let is_kept = self.reads_spans() && node.steps().len() == node.tokens().len();
        match whole {
            Some(own) if is_kept => *own,
            _ => {
                let own = self.ask(design, node);
                if is_kept {
                    *whole = Some(own);
                }
                own
            }
        }
    }
}
