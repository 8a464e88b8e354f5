//! The texts of a generated design, read back.

ghost use Rattle.std.specs.Prelude.{◌≡◌, All, IfErr, IfOk};
ghost use Rattle.sf_gsrc.specs.Ranges.{HasPinsInAnyRange};
ghost use Rattle.sf_parts.specs.Admitted.{IsSized};
ghost use Rattle.sf_options.specs.Seen.{gen_seen};
ghost use Rattle.sf_designs.specs.Loads.{TellsNoLoad};
ghost use Rattle.sf_designs.specs.Outcome.{IsFault};
ghost use Rattle.sf_generated.specs.Made.{blocks_made, blocks_said, nets_made, nets_said, parts_made};
ghost use Rattle.sf_generated.specs.Made.{pl_made, places_said};

use sf_designs::{ReadParts, Stop, join, parse_blocks, parse_nets, parse_places};
use sf_gen::{GenTexts, blocks_are_read, nets_are_read, parts_are_admitted, places_are_read};
use sf_gsrc::{GsrcBlocks, GsrcNets, GsrcPlaces};
use sf_lex::Scale;
use sf_options::GenWords;
use std::alloc::Global;

/// The blocks for which the text stands.
fn made_blocks(alloc: Global, words: &GenWords<'_>, text: &[u8]) -> Result<GsrcBlocks, Stop>
    requires { text.now ≡ blocks_made (gen_seen words.now) }
    ensures is { IfOk result (λ out. out ≡ blocks_said (gen_seen words.now)) }
    ensures sizes { IfOk result (λ out. All (λ b. IsSized b.kind) out.blocks) }
    ensures never { IfErr result IsFault }
    ensures tells { TellsNoLoad result }
{
    blocks_are_read();
    parse_blocks(alloc, text, Scale { per_unit: 1 })
}

/// The nets for which the text stands.
fn made_nets(alloc: Global, words: &GenWords<'_>, text: &[u8]) -> Result<GsrcNets, Stop>
    requires { text.now ≡ nets_made (gen_seen words.now) }
    ensures is { IfOk result (λ out. out ≡ nets_said (gen_seen words.now)) }
    ensures pins { IfOk result (λ out. HasPinsInAnyRange out.nets) }
    ensures never { IfErr result IsFault }
    ensures tells { TellsNoLoad result }
{
    nets_are_read();
    parse_nets(alloc, text)
}

/// The places for which the text stands.
fn made_places(alloc: Global, words: &GenWords<'_>, text: &[u8]) -> Result<GsrcPlaces, Stop>
    requires { text.now ≡ pl_made (gen_seen words.now) }
    ensures is { IfOk result (λ out. out ≡ places_said (gen_seen words.now)) }
    ensures never { IfErr result IsFault }
    ensures tells { TellsNoLoad result }
{
    places_are_read();
    parse_places(alloc, "pl", text, Scale { per_unit: 1 })
}

/// The parts to which the three are joined.
fn made_parts(
    alloc: Global,
    words: &GenWords<'_>,
    blocks: GsrcBlocks,
    nets: GsrcNets,
    places: GsrcPlaces,
) -> Result<ReadParts, Stop>
    requires blocks { blocks ≡ blocks_said (gen_seen words.now) }
    requires nets { nets ≡ nets_said (gen_seen words.now) }
    requires places { places ≡ places_said (gen_seen words.now) }
    requires sizes { All (λ b. IsSized b.kind) blocks.blocks }
    requires pins { HasPinsInAnyRange nets.nets }
    ensures is { IfOk result (λ read. read.parts ≡ parts_made (gen_seen words.now)) }
    ensures never { IfErr result IsFault }
    ensures tells { TellsNoLoad result }
{
    parts_are_admitted();
    join(alloc, blocks, Some(nets), Some(places))
}

/// The parts of the three texts.
pub fn read_back(alloc: Global, words: &GenWords<'_>, texts: &GenTexts) -> Result<ReadParts, Stop>
    requires blocks { texts.now.blocks ≡ blocks_made (gen_seen words.now) }
    requires nets { texts.now.nets ≡ nets_made (gen_seen words.now) }
    requires pl { texts.now.pl ≡ pl_made (gen_seen words.now) }
    ensures is { IfOk result (λ read. read.parts ≡ parts_made (gen_seen words.now)) }
    ensures never { IfErr result IsFault }
    ensures tells { TellsNoLoad result }
{
    let blocks = made_blocks(alloc, words, texts.blocks.as_slice())?;
    let nets = made_nets(alloc, words, texts.nets.as_slice())?;
    let places = made_places(alloc, words, texts.pl.as_slice())?;
    made_parts(alloc, words, blocks, nets, places)
}
