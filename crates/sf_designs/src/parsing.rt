//! Texts to what they stand for, or to their refusal.

ghost use Rattle.std.specs.Prelude.{◌≡◌, ◌≤◌, ◌^◌, length, codes, All, IfOk, IfSome};
ghost use Rattle.sf_parts.specs.Admitted.{IsSized};
ghost use Rattle.sf_gsrc.specs.Blocks.{blocks_read};
ghost use Rattle.sf_gsrc.specs.Join.{joined, nets_in};
ghost use Rattle.sf_gsrc.specs.Nets.{nets_read};
ghost use Rattle.sf_gsrc.specs.NetsStanding.{NetsStandFor};
ghost use Rattle.sf_gsrc.specs.Places.{places_read, PlacesStandFor};
ghost use Rattle.sf_gsrc.specs.Ranges.{HasPinsInAnyRange};
ghost use Rattle.sf_gsrc.specs.Standing.{StandsFor};
ghost use Rattle.sf_gsrc.specs.Weights.{weights_read, WeightsStandFor};
ghost use Rattle.sf_yal.specs.Parts.{yal_read};
ghost use Rattle.sf_yal.specs.Standing as yals;
ghost use Rattle.sf_designs.specs.Loads.{TellsNoLoad};
ghost use Rattle.sf_designs.specs.Outcome.{Ends};
ghost use Rattle.sf_designs.specs.Reading.{Said, Judged};
ghost use Rattle.sf_designs.specs.Refusals.{gsrc_refusal, weight_refusal, yal_refusal, join_refusal};

use crate::refusals::{gsrc_fault, named_fault, weight_fault, yal_fault};
use crate::stop::Stop;
use crate::weighed::ReadParts;
use sf_gsrc::{
    GsrcBlocks, GsrcNets, GsrcPlaces, JoinFault, blocks_have_sizes, join_parts,
    joined_parts_keep_ranges, nets_name_their_pins, read_blocks, read_nets, read_pl, read_weights,
};
use sf_lex::Scale;
use sf_yal::{parts_keep_ranges, read_yal};
use std::alloc::Global;

/// What a blocks file stands for.
pub fn parse_blocks(alloc: Global, text: &[u8], scale: Scale) -> Result<GsrcBlocks, Stop>
    ensures tells { TellsNoLoad result }
    ensures said { let per_unit = scale.per_unit in Ends (λ x. x) result
        (Said (StandsFor per_unit text.now) (blocks_read per_unit text.now) (gsrc_refusal (codes "blocks"))) }
    ensures sizes { IfOk result (λ out. All (λ b. IsSized b.kind) out.blocks) }
{
    blocks_have_sizes();
    match read_blocks(alloc, text, scale.per_unit) {
        Ok(blocks) => Ok(blocks),
        Err(fault) => Err(gsrc_fault(alloc, "blocks", fault)?),
    }
}

/// What a nets file stands for.
pub fn parse_nets(alloc: Global, text: &[u8]) -> Result<GsrcNets, Stop>
    ensures tells { TellsNoLoad result }
    ensures said { Ends (λ x. x) result
        (Said (NetsStandFor text.now) (nets_read text.now) (gsrc_refusal (codes "nets"))) }
    ensures pins { IfOk result (λ out. HasPinsInAnyRange out.nets) }
{
    nets_name_their_pins();
    match read_nets(alloc, text) {
        Ok(nets) => Ok(nets),
        Err(fault) => Err(gsrc_fault(alloc, "nets", fault)?),
    }
}

/// A text of places: a pl file, or a placed file.
pub fn parse_places(
    alloc: Global,
    source: &str,
    text: &[u8],
    scale: Scale,
) -> Result<GsrcPlaces, Stop>
    ensures tells { TellsNoLoad result }
    ensures said { let per_unit = scale.per_unit in Ends (λ x. x) result
        (Said (PlacesStandFor per_unit text.now) (places_read per_unit text.now) (gsrc_refusal source.now)) }
{
    match read_pl(alloc, text, scale.per_unit) {
        Ok(places) => Ok(places),
        Err(fault) => Err(gsrc_fault(alloc, source, fault)?),
    }
}

/// The weights of so many nets for which a weights file stands.
pub fn parse_weights(alloc: Global, text: &[u8], nets: u64) -> Result<Vec<u8>, Stop>
    ensures tells { TellsNoLoad result }
    ensures said { Ends (λ v. v.items) result
        (Said (WeightsStandFor text.now nets) (weights_read nets text.now) weight_refusal) }
    ensures one_each { IfOk result (λ v. length v.items ≡ nets) }
{
    match read_weights(alloc, text, nets) {
        Ok(weights) => Ok(weights),
        Err(fault) => Err(weight_fault(alloc, fault)?),
    }
}

/// What a YAL file stands for.
pub fn parse_yal(alloc: Global, text: &[u8], scale: Scale) -> Result<ReadParts, Stop>
    requires size { length text.now ≤ 2 ^ 26 }
    ensures tells { TellsNoLoad result }
    ensures said { let per_unit = scale.per_unit in Ends (λ read. read.parts) result
        (Said (yals.StandsFor per_unit text.now) (yal_read per_unit text.now) yal_refusal) }
{
    parts_keep_ranges();
    match read_yal(alloc, text, scale.per_unit) {
        Ok(parts) => Ok(ReadParts { parts }),
        Err(fault) => Err(yal_fault(alloc, fault)?),
    }
}

/// The parts that GSRC files are joined to.
pub fn join(
    alloc: Global,
    blocks: GsrcBlocks,
    nets: Option<GsrcNets>,
    places: Option<GsrcPlaces>,
) -> Result<ReadParts, Stop>
    requires sizes { All (λ b. IsSized b.kind) blocks.blocks }
    requires pins { IfSome nets (λ out. HasPinsInAnyRange out.nets) }
    ensures tells { TellsNoLoad result }
    ensures said { Ends (λ read. read.parts) result (Judged (joined blocks nets places) join_refusal) }
    ensures nets { IfOk result (λ read. length read.parts.nets ≡ length (nets_in nets)) }
{
    joined_parts_keep_ranges();
    match join_parts(alloc, blocks, nets, places) {
        Ok(parts) => Ok(ReadParts { parts }),
        Err(JoinFault::PlacedTwice(name)) => Err(named_fault(alloc, "DuplicateName", &name)?),
        Err(JoinFault::NoMemory) => Err(Stop::NoMemory),
    }
}
