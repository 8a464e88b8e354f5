//! Parts as they are read, with a weight for each of their nets, and those of them that may become a design.

ghost use Rattle.std.specs.Prelude.{◌≡◌, IfOk, length, replicate};
ghost use Rattle.std.proofs.Props.{props};
ghost use Rattle.sf_parts.specs.Admitted.{HasPinsInRange, HasSizes, IsAdmitted};
ghost use Rattle.sf_parts.specs.Props.{IsPinInRange-prop, IsSized-prop};

use sf_parts::Parts;
use std::alloc::{AllocError as NoMemory, Global};

/// Parts, as the texts of a design say them.
#[derive(Drop)]
pub struct ReadParts {
    pub parts: Parts,
    pub ghost sizes: { HasSizes parts } by { Prim.hlevel (props, IsSized-prop) },
    pub ghost pins: { HasPinsInRange parts } by { Prim.hlevel (props, IsPinInRange-prop) },
}

/// Parts, and a weight for each of their nets.
#[derive(Drop)]
pub struct Weighed {
    pub read: ReadParts,
    pub net_weights: Vec<u8>,
    ghost one_each: { length net_weights.items ≡ length read.parts.nets },
}

/// Parts that may become a design, and a weight for each of their nets.
#[derive(Drop)]
pub struct AdmittedParts {
    pub weighed: Weighed,
    pub ghost admitted: { IsAdmitted weighed.read.parts } by { Prim.hlevel props },
}

/// The weight 1 for each of so many nets.
pub fn same_weights(alloc: Global, nets: usize) -> Result<Vec<u8>, NoMemory>
    ensures { IfOk result (λ weights. weights.items ≡ replicate nets 1) }
{
    vec![in alloc; 1; nets]
}

impl Weighed {
    ghost use Rattle.sf_designs.specs.Weighed.{alike, weighed_in};

    /// Parts whose nets have the weight 1.
    pub fn alike(alloc: Global, read: ReadParts) -> Result<Weighed, NoMemory>
        ensures alike { IfOk result (λ weighed. weighed_in weighed ≡ alike read.parts) }
        ensures parts { IfOk result (λ weighed. weighed.read.parts ≡ read.parts) }
    {
        let net_weights = same_weights(alloc, read.parts.nets.as_slice().len())?;
        Ok(Weighed { read, net_weights })
    }
}
