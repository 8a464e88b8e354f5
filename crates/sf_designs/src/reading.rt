//! From the named files to the parts of a design.

ghost use Rattle.std.specs.Prelude.{◌≡◌, ◌≤◌, ◌^◌, length, codes, All, IfOk, IfSome};
ghost use Rattle.sf_options.specs.Seen.{input_seen, text_of};
ghost use Rattle.sf_parts.specs.Admitted.{IsSized};
ghost use Rattle.sf_gsrc.specs.Join.{nets_in};
ghost use Rattle.sf_gsrc.specs.Ranges.{HasPinsInAnyRange};
ghost use Rattle.sf_designs.specs.Loads.{ReadsShelf, TellsNoLoad};
ghost use Rattle.sf_designs.specs.Outcome.{Ends};
ghost use Rattle.sf_designs.specs.Reading.{TextRead, TextWithin, BlocksRead, NetsRead, PlacesRead, YalRead, YalWeighed};
ghost use Rattle.sf_designs.specs.Reading.{IfNamed, JoinedRead, GsrcRead, PartsRead};
ghost use Rattle.sf_designs.specs.Weighed.{weighed_in};

use crate::parsing::{join, parse_blocks, parse_nets, parse_places, parse_yal};
use crate::refusals::over_limit;
use crate::stop::Stop;
use crate::weighed::{ReadParts, Weighed};
use crate::weighing::read_net_weights;
use sf_gsrc::{GsrcBlocks, GsrcNets, GsrcPlaces};
use sf_io::{LoadFault, Shelf};
use sf_lex::Scale;
use sf_options::InputFiles;
use std::alloc::Global;

/// The most bytes that a file may have: 64 MiB.
pub const FILE_LIMIT: u64 = 67_108_864;

/// The bytes under a name, of which there may be so many.
pub fn load_within<S: Shelf>(
    alloc: Global,
    shelf: &mut S,
    name: &str,
    limit: u64,
) -> Result<Vec<u8>, Stop>
    requires { limit ≤ 2 ^ 36 }
    ensures text { Ends (λ v. v.items) result (TextWithin limit (S.seen shelf.old).holds name.now) }
    ensures shelf { ReadsShelf (S.seen shelf.old) (S.seen shelf.new) result }
{
    match shelf.load(name, limit) {
        Ok(text) => Ok(text),
        Err(LoadFault::TooLong) => Err(over_limit(alloc, "file", limit + 1, limit)?),
        Err(LoadFault::Failed) => Err(Stop::ReadFault),
        Err(LoadFault::NoMemory) => Err(Stop::NoMemory),
    }
}

/// The bytes under a name.
pub fn load_text<S: Shelf>(alloc: Global, shelf: &mut S, name: &str) -> Result<Vec<u8>, Stop>
    ensures text { Ends (λ v. v.items) result (TextRead (S.seen shelf.old).holds name.now) }
    ensures shelf { ReadsShelf (S.seen shelf.old) (S.seen shelf.new) result }
{
    load_within(alloc, shelf, name, FILE_LIMIT)
}

/// What a blocks file stands for.
fn read_blocks_file<S: Shelf>(
    alloc: Global,
    shelf: &mut S,
    scale: Scale,
    name: &str,
) -> Result<GsrcBlocks, Stop>
    ensures blocks { Ends (λ x. x) result (BlocksRead (S.seen shelf.old).holds scale.per_unit name.now) }
    ensures sizes { IfOk result (λ out. All (λ b. IsSized b.kind) out.blocks) }
    ensures shelf { ReadsShelf (S.seen shelf.old) (S.seen shelf.new) result }
{
    let text = load_text(alloc, shelf, name)?;
    parse_blocks(alloc, &text, scale)
}

/// What a nets file stands for.
fn read_nets_file<S: Shelf>(alloc: Global, shelf: &mut S, name: &str) -> Result<GsrcNets, Stop>
    ensures nets { Ends (λ x. x) result (NetsRead (S.seen shelf.old).holds name.now) }
    ensures pins { IfOk result (λ out. HasPinsInAnyRange out.nets) }
    ensures shelf { ReadsShelf (S.seen shelf.old) (S.seen shelf.new) result }
{
    let text = load_text(alloc, shelf, name)?;
    parse_nets(alloc, &text)
}

/// A file of places: a pl file, or a placed file.
pub fn read_places_file<S: Shelf>(
    alloc: Global,
    shelf: &mut S,
    source: &str,
    scale: Scale,
    name: &str,
) -> Result<GsrcPlaces, Stop>
    ensures places { Ends (λ x. x) result
        (PlacesRead (S.seen shelf.old).holds source.now scale.per_unit name.now) }
    ensures shelf { ReadsShelf (S.seen shelf.old) (S.seen shelf.new) result }
{
    let text = load_text(alloc, shelf, name)?;
    parse_places(alloc, source, &text, scale)
}

/// What a YAL file stands for.
fn read_yal_file<S: Shelf>(
    alloc: Global,
    shelf: &mut S,
    scale: Scale,
    name: &str,
) -> Result<ReadParts, Stop>
    ensures parts { Ends (λ read. read.parts) result (YalRead (S.seen shelf.old).holds scale.per_unit name.now) }
    ensures shelf { ReadsShelf (S.seen shelf.old) (S.seen shelf.new) result }
{
    let text = load_text(alloc, shelf, name)?;
    parse_yal(alloc, &text, scale)
}

/// The nets of the named file, or none where no file is named.
fn read_named_nets<S: Shelf>(
    alloc: Global,
    shelf: &mut S,
    name: Option<&str>,
) -> Result<Option<GsrcNets>, Stop>
    ensures nets { Ends (λ x. x) result (IfNamed (NetsRead (S.seen shelf.old).holds) (text_of name.entry)) }
    ensures pins { IfOk result (λ named. IfSome named (λ out. HasPinsInAnyRange out.nets)) }
    ensures shelf { ReadsShelf (S.seen shelf.old) (S.seen shelf.new) result }
{
    match name {
        None => Ok(None),
        Some(name) => Ok(Some(read_nets_file(alloc, shelf, name)?)),
    }
}

/// The places of the named file, or none where no file is named.
fn read_named_places<S: Shelf>(
    alloc: Global,
    shelf: &mut S,
    scale: Scale,
    name: Option<&str>,
) -> Result<Option<GsrcPlaces>, Stop>
    ensures places { Ends (λ x. x) result
        (IfNamed (PlacesRead (S.seen shelf.old).holds (codes "pl") scale.per_unit) (text_of name.entry)) }
    ensures shelf { ReadsShelf (S.seen shelf.old) (S.seen shelf.new) result }
{
    match name {
        None => Ok(None),
        Some(name) => Ok(Some(read_places_file(alloc, shelf, "pl", scale, name)?)),
    }
}

/// All of GSRC files joined, with a weight for each net.
fn join_weighed(
    alloc: Global,
    blocks: GsrcBlocks,
    nets: Option<GsrcNets>,
    places: Option<GsrcPlaces>,
    net_weights: Vec<u8>,
) -> Result<Weighed, Stop>
    requires sizes { All (λ b. IsSized b.kind) blocks.blocks }
    requires pins { IfSome nets (λ out. HasPinsInAnyRange out.nets) }
    requires one_each { length net_weights.items ≡ length (nets_in nets) }
    ensures parts { Ends weighed_in result (JoinedRead blocks nets places net_weights.items) }
    ensures tells { TellsNoLoad result }
{
    let read = join(alloc, blocks, nets, places)?;
    Ok(Weighed { read, net_weights })
}

/// How many nets there are.
fn net_count(nets: &Option<GsrcNets>) -> usize
    ensures { result ≡ length (nets_in nets.now) }
{
    match nets {
        None => 0,
        Some(out) => out.nets.as_slice().len(),
    }
}

/// What GSRC files say: the blocks, and the nets, places and weights that are named.
fn read_gsrc_files<S: Shelf>(
    alloc: Global,
    shelf: &mut S,
    scale: Scale,
    blocks: &str,
    nets: Option<&str>,
    pl: Option<&str>,
    weights: Option<&str>,
) -> Result<Weighed, Stop>
    ensures parts { let held = (S.seen shelf.old).holds in let scale = scale.per_unit in
        Ends weighed_in result
        (GsrcRead held scale blocks.now (text_of nets.entry) (text_of pl.entry) (text_of weights.entry)) }
    ensures shelf { ReadsShelf (S.seen shelf.old) (S.seen shelf.new) result }
{
    let blocks = read_blocks_file(alloc, shelf, scale, blocks)?;
    let nets = read_named_nets(alloc, shelf, nets)?;
    let places = read_named_places(alloc, shelf, scale, pl)?;
    let net_weights = read_net_weights(alloc, shelf, net_count(&nets), weights)?;
    join_weighed(alloc, blocks, nets, places, net_weights)
}

/// What a YAL file says, with a weight for each net.
fn read_weighed_yal<S: Shelf>(
    alloc: Global,
    shelf: &mut S,
    scale: Scale,
    file: &str,
    weights: Option<&str>,
) -> Result<Weighed, Stop>
    ensures parts { Ends weighed_in result
        (YalWeighed (S.seen shelf.old).holds scale.per_unit file.now (text_of weights.entry)) }
    ensures shelf { ReadsShelf (S.seen shelf.old) (S.seen shelf.new) result }
{
    let read = read_yal_file(alloc, shelf, scale, file)?;
    let nets = read.parts.nets.as_slice().len();
    let net_weights = read_net_weights(alloc, shelf, nets, weights)?;
    Ok(Weighed { read, net_weights })
}

/// All that the files of a design say, with the weights of its nets.
pub fn read_parts<S: Shelf>(
    alloc: Global,
    shelf: &mut S,
    scale: Scale,
    input: InputFiles<'_>,
    weights: Option<&str>,
) -> Result<Weighed, Stop>
    ensures parts { Ends weighed_in result
        (PartsRead (S.seen shelf.old).holds scale.per_unit (input_seen input.entry) (text_of weights.entry)) }
    ensures shelf { ReadsShelf (S.seen shelf.old) (S.seen shelf.new) result }
{
    match input {
        InputFiles::Gsrc { blocks, nets, pl } => {
            read_gsrc_files(alloc, shelf, scale, blocks, nets, pl, weights)
        }
        InputFiles::Yal { file } => read_weighed_yal(alloc, shelf, scale, file, weights),
    }
}
