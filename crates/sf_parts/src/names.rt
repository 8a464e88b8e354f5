//! Whether the names of parts are distinct and there.

ghost use Rattle.std.specs.Prelude.{◌≡◌, ℕ, List, map, flat_map};
ghost use Rattle.std.specs.Option.{option_copied};
ghost use Rattle.sf_parts.specs.Admitted.{first, IsFirstOf, at_pin_name, at_pin_names, at_placed_name};
ghost use Rattle.sf_parts.specs.Admitted.{duplicates, unknowns};
ghost use Rattle.sf_parts.specs.Rules.{rule_faults};
ghost use Rattle.sf_parts.specs.declared.fault.BuildFault.TheVariants.{DuplicateName};

use crate::fault::BuildFault;
use crate::index::Index;
use crate::raw::{RawNet, RawPad, RawPin};
use sf_model::Name;
use std::alloc::Global;

/// What is asked of a name: that it isn't of a block and of a pad, or that it is of one of them.
#[derive(Clone, Copy)]
enum NameRule {
    NotBoth,
    Known,
}

/// Tests one name by a rule.
fn check_name(
    alloc: Global,
    index: &Index<'_>,
    rule: NameRule,
    name: &Name,
) -> Result<(), BuildFault>
    ensures { IsFirstOf (rule_faults rule index.now.parts.now name.now) result }
{
    match rule {
        NameRule::NotBoth => {
            if index.is_block(name) && index.is_pad(name) {
                return Err(BuildFault::DuplicateName(Name::new(alloc, name.as_bytes())?));
            }
        }
        NameRule::Known => {
            if !index.is_block(name) && !index.is_pad(name) {
                return Err(BuildFault::UnknownName(Name::new(alloc, name.as_bytes())?));
            }
        }
    }
    Ok(())
}

/// Tests the name of a pin that has one.
fn check_pin(
    alloc: Global,
    index: &Index<'_>,
    rule: NameRule,
    pin: &RawPin,
) -> Result<(), BuildFault>
    ensures { IsFirstOf (at_pin_name (rule_faults rule index.now.parts.now) pin.now) result }
{
    match pin {
        RawPin::Named(name) => check_name(alloc, index, rule, name),
        RawPin::Block(_) | RawPin::Pad(_) => Ok(()),
    }
}

/// Tests the names of the pins of a net.
fn check_pins(
    alloc: Global,
    index: &Index<'_>,
    rule: NameRule,
    pins: &[RawPin],
) -> Result<(), BuildFault>
    ensures { IsFirstOf (flat_map (at_pin_name (rule_faults rule index.now.parts.now)) pins.now) result }
{
    for pin in pins {
        check_pin(alloc, index, rule, pin)?;
    }
    Ok(())
}

/// Tests the names of the pins of all nets.
fn check_nets(
    alloc: Global,
    index: &Index<'_>,
    rule: NameRule,
    nets: &[RawNet],
) -> Result<(), BuildFault>
    ensures { IsFirstOf (at_pin_names (rule_faults rule index.now.parts.now) nets.now) result }
{
    for net in nets {
        check_pins(alloc, index, rule, net.pins.as_slice())?;
    }
    Ok(())
}

/// Tests that no pad that has a place has the name of a block.
fn check_placed(alloc: Global, index: &Index<'_>, pads: &[RawPad]) -> Result<(), BuildFault>
    ensures { IsFirstOf (flat_map (at_placed_name
        (rule_faults NameRule.NotBoth index.now.parts.now)) pads.now) result }
{
    for pad in pads {
        if pad.place.is_some() {
            check_name(alloc, index, NameRule::NotBoth, &pad.name)?;
        }
    }
    Ok(())
}

/// Tests that placed names are known.
fn check_strangers(alloc: Global, index: &Index<'_>, names: &[Name]) -> Result<(), BuildFault>
    ensures { IsFirstOf (flat_map (rule_faults NameRule.Known index.now.parts.now) names.now) result }
{
    for name in names {
        check_name(alloc, index, NameRule::Known, name)?;
    }
    Ok(())
}

/// Refuses a name that stands again.
fn refuse_repeated(alloc: Global, repeated: Option<&Name>) -> Result<(), BuildFault>
    ensures { (names : List (List ℕ)) → option_copied repeated.entry ≡ first names
        → IsFirstOf (map DuplicateName names) result }
{
    match repeated {
        None => Ok(()),
        Some(name) => Err(BuildFault::DuplicateName(Name::new(alloc, name.as_bytes())?)),
    }
}

/// Tests that no two blocks and no two pads share a name, nor a block and a pad that a pin or a place names.
pub fn check_duplicates(alloc: Global, index: &Index<'_>) -> Result<(), BuildFault>
    ensures { IsFirstOf (duplicates index.now.parts.now) result }
{
    refuse_repeated(alloc, index.blocks.first_repeated())?;
    refuse_repeated(alloc, index.pads.first_repeated())?;
    check_nets(alloc, index, NameRule::NotBoth, index.parts.nets.as_slice())?;
    check_placed(alloc, index, index.parts.pads.as_slice())
}

/// Tests that each name of a pin, and each stranger, is of a block or of a pad.
pub fn check_known(alloc: Global, index: &Index<'_>) -> Result<(), BuildFault>
    ensures { IsFirstOf (unknowns index.now.parts.now) result }
{
    check_nets(alloc, index, NameRule::Known, index.parts.nets.as_slice())?;
    check_strangers(alloc, index, index.parts.strangers.as_slice())
}
