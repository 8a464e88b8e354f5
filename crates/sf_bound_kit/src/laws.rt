//! The laws of stored bounds.

ghost use Rattle.std.specs.Prelude.{ℕ, Contains, ◌⊎◌};
ghost use Rattle.sf_model.specs.declared.design.Design.{Design};
ghost use Rattle.sf_node.specs.Parts.{Parts};
ghost use Rattle.sf_node.specs.declared.part.Part.{Part};
ghost use Rattle.sf_standard.specs.Standard.{standard, part_value};
ghost use Rattle.sf_certificate.specs.declared.cert.Cert.{Cert};
ghost use Rattle.sf_certificate.specs.declared.tag.Tag.TheVariants.{Open};
ghost use Rattle.sf_certificate.specs.Valid.{IsValid};
ghost use Rattle.sf_bound_kit.specs.Greater.{greater, greater_part};
ghost use Rattle.sf_bound_kit.specs.Keeping.{IsBelow, kit_value, kit_part};
ghost use Rattle.sf_bound_kit.specs.Pairs.{pair_area, pair_fit};

/// No plan of a subproblem that fits costs less than what a pair of its blocks needs: of two blocks of a
/// slicing floorplan one lies wholly beside the other or wholly above it.
pub fn pairs_are_below()
    ensures area { IsBelow pair_area }
    ensures fit { IsBelow pair_fit }
{}

/// A certificate without an open leaf that is valid with the standard bound is valid with every kit, and one
/// that is valid with either of two bounds, as with a kit, is valid with the greater of both.
pub fn kits_close_more()
    ensures kit { (design : Design) (own : Design → Parts → ℕ) (cert : Cert) → ¬ (Contains cert.tags Open)
        → IsValid design (standard design) (part_value design) cert
        → IsValid design (kit_value own design) (kit_part own design) cert }
    ensures both { (design : Design) (f : Parts → ℕ) (g : Parts → ℕ) (p : Parts → Part → ℕ)
        (q : Parts → Part → ℕ) (cert : Cert) → ¬ (Contains cert.tags Open)
        → IsValid design f p cert ⊎ IsValid design g q cert
        → IsValid design (greater f g) (greater_part p q) cert }
{}
