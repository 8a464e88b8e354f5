//! The text of the nets.

ghost use Rattle.std.specs.Prelude.{◌≡◌, ◌+◌, ◌++◌, ◌≤◌, IfOk, OnOk, length, string_bytes};
ghost use Rattle.std.specs.List.{flat_map};
ghost use Rattle.sf_gen.specs.Texts.{net_lines, nets_head, nets_pins, pad_pins, pin_lines, pins_of};
ghost use Rattle.sf_gen.specs.Texts.{nets_text};

use crate::drawn::Ends;
use std::alloc::{AllocError as NoMemory, Global};

/// The whole text: title, counts and nets.
pub fn nets_text(alloc: Global, ends: &[Ends]) -> Result<Vec<u8>, NoMemory>
    requires { length ends.now ≤ 640 }
    ensures { IfOk result (λ t. t.items ≡ nets_text ends.now) }
{
    let mut text = String::new(alloc);
    push_head(&mut text, ends)?;
    push_nets(&mut text, ends)?;
    Ok(text.into_bytes())
}

/// The title, and the counts of nets and of pins: two pins for each net, and one more for every third.
fn push_head(text: &mut String, ends: &[Ends]) -> Result<(), NoMemory>
    requires { length ends.now ≤ 640 }
    ensures { OnOk result (string_bytes text.new ≡ string_bytes text.old ++ nets_head (nets_pins ends.now)) }
{
    let nets = ends.len();
    let pins = 2 * nets + nets.div_ceil(3);
    write!(text, "UCLA nets 1.0\nNumNets : {nets}\nNumPins : {pins}\n")
}

/// Adds the lines of the nets.
fn push_nets(text: &mut String, ends: &[Ends]) -> Result<(), NoMemory>
    ensures { OnOk result (string_bytes text.new
        ≡ string_bytes text.old ++ flat_map net_lines (nets_pins ends.now)) }
{
    for (j, ends_of_net) in ends.iter().enumerate() {
        push_net(text, j, *ends_of_net)?;
    }
    Ok(())
}

/// Adds the lines of a net.
fn push_net(text: &mut String, j: usize, ends: Ends) -> Result<(), NoMemory>
    ensures { OnOk result (string_bytes text.new ≡ string_bytes text.old ++ net_lines (pins_of j ends)) }
{
    let Ends { a, b } = ends;
    let degree = degree(j);
    write!(text, "NetDegree : {degree}\nb{a} B\nb{b} B\n")?;
    push_pad_pin(text, j)?;
    Ok(())
}

/// How many pins the net of this number has.
fn degree(j: usize) -> usize
    ensures { result ≡ 2 + length (pad_pins j) }
{
    if j % 3 == 0 { 3 } else { 2 }
}

/// Adds the pin of a pad to every third net.
fn push_pad_pin(text: &mut String, j: usize) -> Result<(), NoMemory>
    ensures { OnOk result (string_bytes text.new ≡ string_bytes text.old ++ pin_lines (pad_pins j)) }
{
    if j % 3 == 0 {
        let pad = j % 4;
        write!(text, "p{pad} B\n")
    } else {
        Ok(())
    }
}
