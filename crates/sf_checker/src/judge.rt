//! What is found of a certificate while its tags come.

ghost use Rattle.std.specs.Prelude.{◌≡◌, ◌⊎◌, ⊤, ℕ, IfOk, MatchOption};
ghost use Rattle.sf_model.specs.Legal.{block_count};
ghost use Rattle.sf_polish.specs.Writable.{IsWritable};
ghost use Rattle.sf_certificate.specs.declared.cert.Cert.{Cert as CertValue};
ghost use Rattle.sf_checker.specs.Answers.{IsPlanRight, IsBadPlan, IsOtherCost};
ghost use Rattle.sf_checker.specs.declared.answer.Why.TheVariants.{BadPlan, CostDiffers};

use crate::answer::{Answer, Why};
use crate::planning::plan_cost;
use crate::walk::Walk;
use sf_bound::Bounds;
use sf_certificate::Tag;
use sf_model::Design;
use sf_polish::Expr;
use std::alloc::{AllocError as NoMemory, Global};
use std::marker::Model;

/// The walk over the tags that came, and the first failure so far, if there is one.
#[derive(Drop)]
pub struct Judge {
    walk: Walk,
    found: Option<Why>,
}

impl Model for Judge {
    ghost use Rattle.sf_checker.specs.Standing.{Judged};

    ghost Value = { Judged };

    ghost view = { λ j. record { walk = j.walk; found = j.found } };
}

/// What is wrong with the plan and its cost.
fn plan_fault(
    alloc: Global,
    design: &Design,
    plan: &Option<Expr>,
    cost: u64,
) -> Result<Option<Why>, NoMemory>
    requires { MatchOption plan.now ⊤ (IsWritable (block_count design.now)) }
    ensures { (cert : CertValue) → cert.plan ≡ plan.now → cert.cost ≡ cost
        → IfOk result (λ r. MatchOption r (IsPlanRight design.now cert)
        (λ why. ((why ≡ BadPlan) × IsBadPlan design.now cert)
        ⊎ ((is : ℕ) × (why ≡ CostDiffers cert.cost is) × IsOtherCost design.now cert is))) }
{
    let Some(expr) = plan else {
        return Ok(None);
    };
    let Some(is) = plan_cost(alloc, design, expr)? else {
        return Ok(Some(Why::BadPlan));
    };
    if is == cost {
        Ok(None)
    } else {
        Ok(Some(Why::CostDiffers(cost, is)))
    }
}

impl Judge {
    ghost use Rattle.std.specs.Prelude.{List, [], ◌∷◌, ◌++◌, OnOk};
    ghost use Rattle.sf_model.specs.declared.design.Design.{Design as DesignValue};
    ghost use Rattle.sf_node.specs.declared.part.Part.{Part};
    ghost use Rattle.sf_node.specs.Parts.{Parts};
    ghost use Rattle.sf_certificate.specs.declared.tag.Tag.{Tag as TagValue};
    ghost use Rattle.sf_checker.specs.Answers.{IsAnswer};
    ghost use Rattle.sf_checker.specs.Standing.{IsSteady, IsFound};

    /// Before the first tag of a certificate of this plan and this cost.
    pub fn new<B: Bounds>(
        alloc: Global,
        design: &Design,
        bounds: &B,
        plan: &Option<Expr>,
        cost: u64,
    ) -> Result<Judge, NoMemory>
        requires { MatchOption plan.now ⊤ (IsWritable (block_count design.now)) }
        ensures steady { IfOk result
            (λ judge. IsSteady design.now (B.Values.value bounds.now design.now) judge) }
        ensures found { let value = B.Values.value bounds.now design.now in
            let part = B.part_value bounds.now design.now in
            (cert : CertValue) → cert.plan ≡ plan.now → cert.cost ≡ cost → IfOk result
            (λ judge. IsFound design.now value part cert [] judge) }
    {
        let found = plan_fault(alloc, design, plan, cost)?;
        let walk = Walk::new(alloc, design, bounds, cost)?;
        Ok(Judge { walk, found })
    }

    /// One tag more.
    pub fn take<B: Bounds>(
        &mut self,
        design: &Design,
        bounds: &B,
        cost: u64,
        tag: Tag,
        room: &mut B::Room,
    ) -> Result<(), NoMemory>
        requires steady { IsSteady design.now (B.Values.value bounds.now design.now) self.old }
        requires serves { B.serves room.old design.now }
        ensures steady { OnOk result (IsSteady design.now (B.Values.value bounds.now design.now) self.new) }
        ensures found { let value = B.Values.value bounds.now design.now in
            let part = B.part_value bounds.now design.now in
            (cert : CertValue) (tags more : List TagValue) → cert.cost ≡ cost → cert.tags ≡ tags ++ tag ∷ more
            → IsFound design.now value part cert tags self.old
            → OnOk result (IsFound design.now value part cert (tags ++ tag ∷ []) self.new) }
        ensures serves { B.serves room.new design.now }
    {
        if self.found.is_some() {
            return Ok(());
        }
        if let Err(why) = self.walk.visit(design, bounds, cost, tag, room)? {
            self.found = Some(why);
        }
        Ok(())
    }

    /// What the certificate is found to be, after its last tag.
    pub fn answer(&self, cost: u64, bound: u64) -> Answer
        ensures { (design : DesignValue) (value : Parts → ℕ) (part : Parts → Part → ℕ) (cert : CertValue)
            → cert.blocks ≡ block_count design → cert.cost ≡ cost → cert.bound ≡ bound
            → IsFound design value part cert cert.tags self.now → IsAnswer design value part cert result }
    {
        match self.found {
            Some(why) => Answer::No(why),
            None if self.walk.low() == bound => Answer::Yes(cost, bound, self.walk.decided()),
            None => Answer::No(Why::BoundDiffers(bound, self.walk.low())),
        }
    }
}
