//! The nets: one for each distinct signal.

ghost use Rattle.std.specs.Prelude.{◌≡◌, ◌∷◌, ◌++◌, [], None, IfOk, OnOk, slice_get};
ghost use Rattle.sf_lex.specs.Text.{words, is_blank_byte};
ghost use Rattle.sf_names.specs.Names.{index_of, bytes_of};
ghost use Rattle.sf_yal.specs.Nets.{nets_of};
ghost use Rattle.sf_parts.specs.declared.raw.RawPin.TheVariants.{Block};
ghost use Rattle.sf_yal.specs.Using.{signals_in, used_in, used_once, used_all, used_by};
ghost use Rattle.sf_yal.specs.Using.{with_pin, with_pin_at, with_pad_of, with_pads, ends_with, nothing_used};

use crate::instance::Instance;
use crate::piece::next_word;
use sf_names::{Names, TextHash};
use sf_parts::{RawNet, RawNetList, RawPin, RawPins};
use std::alloc::{AllocError, Global};
use std::mem;

/// So many bytes a signal takes at least when there are many: four letters and a blank.
const SIGNAL_LEN: usize = 5;

/// The signals so far, and the net of each.
#[derive(Drop)]
struct Used<'a> {
    signals: Names<'a>,
    nets: Vec<RawNet>,
}

/// The number of an item of a list. No list has room for more items than there are numbers.
fn number_of(place: usize) -> Result<u32, AllocError>
    ensures { IfOk result (λ n. n ≡ place) }
{
    match u32::try_from(place) {
        Ok(number) => Ok(number),
        Err(_) => Err(AllocError),
    }
}

/// The last pin is this instance.
fn is_last(pins: &[RawPin], instance: u32) -> bool
    ensures { result ≡ ends_with instance pins.now }
{
    match pins.last() {
        Some(RawPin::Block(other)) => *other == instance,
        _ => false,
    }
}

/// A pin more. A text may have millions of nets of one or two pins, so room is made for so many and not for
/// more.
fn push_pin(alloc: Global, net: &mut RawNet, pin: RawPin) -> Result<(), AllocError>
    ensures { OnOk result (net.new.pins ≡ net.old.pins ++ pin ∷ []) }
{
    let mut pins = mem::replace(&mut net.pins, RawPins::from_vec(Vec::new(alloc))).into_vec();
    if pins.len() == pins.capacity() {
        pins.reserve_exact(pins.len().max(1))?;
    }
    pins.push(pin)?;
    net.pins = RawPins::from_vec(pins);
    Ok(())
}

/// An instance is one pin, however often it names the signal.
fn use_net(alloc: Global, net: &mut RawNet, instance: u32) -> Result<(), AllocError>
    ensures { OnOk result (net.new.pins ≡ with_pin instance net.old.pins) }
{
    if !is_last(net.pins.as_slice(), instance) {
        push_pin(alloc, net, RawPin::Block(instance))?;
    }
    Ok(())
}

/// The net of the first instance that names its signal.
fn open_net(alloc: Global, instance: u32) -> Result<RawNet, AllocError>
    ensures { IfOk result (λ net. net.pins ≡ Block instance ∷ []) }
{
    let mut pins = Vec::with_capacity(alloc, 1)?;
    pins.push(RawPin::Block(instance))?;
    Ok(RawNet {
        pins: RawPins::from_vec(pins),
    })
}

impl<'a> Used<'a> {
    /// The instance is a pin of the net at this place.
    fn add_pin(&mut self, alloc: Global, place: usize, instance: u32) -> Result<(), AllocError>
        ensures nets { OnOk result (self.new.nets.items ≡ with_pin_at instance place self.old.nets.items) }
        ensures signals { self.new.signals ≡ self.old.signals }
    {
        match self.nets.get_mut(place) {
            Some(net) => {
                use_net(alloc, net, instance)?;
                Ok(())
            }
            None => Ok(()),
        }
    }

    /// The instance names the signal.
    fn use_signal(
        &mut self,
        alloc: Global,
        signal: &'a [u8],
        instance: u32,
    ) -> Result<(), AllocError>
        ensures { OnOk result (used_in self.new ≡ used_once instance (used_in self.old) signal.now) }
    {
        match self.signals.note(signal)? {
            Some(place) => self.add_pin(alloc, place, instance),
            None => Ok(self.nets.push(open_net(alloc, instance)?)?),
        }
    }

    /// The instance names these signals.
    fn use_signals(
        &mut self,
        alloc: Global,
        signals: &'a [u8],
        instance: u32,
    ) -> Result<(), AllocError>
        ensures { OnOk result
            (used_in self.new ≡ used_all instance (used_in self.old) (words is_blank_byte signals.now)) }
    {
        let mut rest = signals;
        while let Some((signal, after)) = next_word(rest) {
            self.use_signal(alloc, signal, instance)?;
            rest = after;
        }
        Ok(())
    }
}

/// About how many distinct signals the instances may name.
fn signals_expected(instances: &[Instance]) -> usize {
    let mut bytes: usize = 0;
    for instance in instances {
        bytes = bytes.saturating_add(instance.signals.len());
    }
    bytes / SIGNAL_LEN
}

/// The nets of the signals that the instances name.
fn use_instances<'a>(
    alloc: Global,
    instances: &[Instance<'a>],
    hash: TextHash,
) -> Result<Used<'a>, AllocError>
    ensures { IfOk result (λ used. used_in used ≡ used_by 0 nothing_used (signals_in instances.now)) }
{
    let mut used = Used {
        signals: Names::new(alloc, hash, signals_expected(instances)),
        nets: Vec::new(alloc),
    };
    for (place, instance) in instances.iter().enumerate() {
        used.use_signals(alloc, instance.signals, number_of(place)?)?;
    }
    Ok(used)
}

/// The pad that has the name of the signal at this place is the last pin of its net.
fn add_pad(
    alloc: Global,
    net: &mut RawNet,
    signals: &[&[u8]],
    place: usize,
    pad_names: &Names,
) -> Result<(), AllocError>
    ensures { OnOk result
        (net.new ≡ with_pad_of pad_names.now (slice_get (bytes_of signals.now) place) net.old) }
{
    let Some(signal) = signals.get(place) else {
        return Ok(());
    };
    match pad_names.index_of(signal) {
        Some(pad) => push_pin(alloc, net, RawPin::Pad(number_of(pad)?)),
        None => Ok(()),
    }
}

/// The nets with the pads of their signals' names.
fn add_pads(
    alloc: Global,
    nets: &mut Vec<RawNet>,
    signals: &[&[u8]],
    pad_names: &Names,
) -> Result<(), AllocError>
    ensures { OnOk result (nets.new.items ≡ with_pads pad_names.now (bytes_of signals.now) nets.old.items) }
{
    let mut place = 0;
    for net in nets.iter_mut() {
        add_pad(alloc, net, signals, place, pad_names)?;
        place += 1;
    }
    Ok(())
}

/// A net for each distinct signal in the order of first use: the instances that name it, and the pad of its
/// name.
pub fn read_nets(
    alloc: Global,
    instances: &[Instance],
    pad_names: &Names,
) -> Result<RawNetList, AllocError>
    ensures { IfOk result (λ nets. nets ≡ nets_of (signals_in instances.now) pad_names.now) }
{
    let used = use_instances(alloc, instances, pad_names.hash())?;
    let mut nets = used.nets;
    add_pads(alloc, &mut nets, used.signals.as_slice(), pad_names)?;
    Ok(RawNetList::from_vec(nets))
}
