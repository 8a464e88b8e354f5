//! The law of a search with one worker.

ghost use Rattle.std.specs.Prelude.{◌≡◌, ℕ};
ghost use Rattle.sf_model.specs.declared.design.Design.{Design};
ghost use Rattle.sf_node.specs.declared.part.Part.{Part};
ghost use Rattle.sf_node.specs.ByPart.{ArePartsOf};
ghost use Rattle.sf_node.specs.Parts.{Parts};
ghost use Rattle.sf_search_core.specs.State.{State};
ghost use Rattle.sf_certificate.specs.declared.cert.Cert.{Cert};
ghost use Rattle.sf_certificate.specs.Named.{AllNameFirst};
ghost use Rattle.sf_certificate.specs.Valid.{IsValid};
ghost use Rattle.sf_search.specs.Found.{IsCertOf};

use sf_bound::solved_plans_are_one;
use sf_certificate::{first_parts_are_one, full_parts_close, trees_are_one};

/// A state has one certificate that names the first parts. So with one worker the certificate and its plan
/// follow from the design, the bound with its parts and the budget, whatever the machine does.
pub fn certificates_are_one()
    ensures { (design : Design) (bound : Parts → ℕ) (part : Parts → Part → ℕ) (state : State)
        (first second : Cert)
        → ArePartsOf design bound part → IsValid design bound part first → IsValid design bound part second
        → first.blocks ≡ second.blocks
        → IsCertOf design state first → IsCertOf design state second
        → AllNameFirst design part first.cost first.tags → AllNameFirst design part second.cost second.tags
        → first ≡ second }
{
    trees_are_one();
    full_parts_close();
    first_parts_are_one();
    solved_plans_are_one();
}
