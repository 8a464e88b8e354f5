//! The blocks of the instances.

ghost use Rattle.std.specs.Prelude.{◌≡◌, [], Err};
ghost use Rattle.sf_yal.specs.declared.fault.YalFault.TheVariants.{UnknownModule};
ghost use Rattle.sf_yal.specs.Instances.{instance_in, instances_in};
ghost use Rattle.sf_yal.specs.Reading.{Fails, Gives};
ghost use Rattle.sf_lex.specs.Results.{seen};
ghost use Rattle.sf_yal.specs.Parts.{size_at, boxed, block_of, blocks_from, unknown};

use crate::fault::YalFault;
use crate::instance::Instance;
use sf_lex::BoxSize;
use sf_names::Names;
use sf_parts::{Kind, RawBlock};
use std::alloc::Global;

/// The box of the module at a place, if it has one.
fn size_of_module(sizes: &[Option<BoxSize>], place: usize) -> Option<BoxSize>
    ensures { result ≡ size_at sizes.now place }
{
    match sizes.get(place) {
        Some(size) => *size,
        None => None,
    }
}

/// The fault of an instance whose module is none of the text, or the parent.
fn unknown_module(alloc: Global, instance: &Instance) -> YalFault
    ensures { Fails result (unknown (instance_in instance.now)) }
{
    match instance.module_name.to_name(alloc) {
        Ok(name) => YalFault::UnknownModule(instance.line, name),
        Err(_) => YalFault::NoMemory,
    }
}

/// The block of an instance whose module has this box.
fn block_with(
    alloc: Global,
    instance: &Instance,
    size: Option<BoxSize>,
) -> Result<RawBlock, YalFault>
    ensures { Gives result (boxed (instance_in instance.now) size) }
{
    let Some(size) = size else {
        return Err(YalFault::BadStatement(instance.line));
    };
    if size.w == 0 || size.h == 0 {
        return Err(YalFault::ZeroSide(instance.line));
    }
    Ok(RawBlock {
        name: instance.name.to_name(alloc)?,
        kind: Kind::Hard {
            w: size.w,
            h: size.h,
        },
    })
}

/// The block of an instance.
#[tactic(auto, unfolding(crate::specs::Parts::block_of))]
fn read_block(
    alloc: Global,
    instance: &Instance,
    names: &Names,
    sizes: &[Option<BoxSize>],
    parent: usize,
) -> Result<RawBlock, YalFault>
    ensures { Gives result (block_of names.now sizes.now parent (instance_in instance.now)) }
{
    let Some(place) = names.index_of(instance.module_name.as_bytes()) else {
        return Err(unknown_module(alloc, instance));
    };
    if place == parent {
        return Err(unknown_module(alloc, instance));
    }
    block_with(alloc, instance, size_of_module(sizes, place))
}

/// The block of each instance, with the box of its module.
pub fn read_instances(
    alloc: Global,
    instances: &[Instance],
    names: &Names,
    sizes: &[Option<BoxSize>],
    parent: usize,
) -> Result<Vec<RawBlock>, YalFault>
    ensures { Gives (seen (λ blocks. blocks.items) result)
        (blocks_from names.now sizes.now parent [] (instances_in instances.now)) }
{
    let mut blocks = Vec::new(alloc);
    for instance in instances {
        blocks.push(read_block(alloc, instance, names, sizes, parent)?)?;
    }
    Ok(blocks)
}
