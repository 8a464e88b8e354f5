//! YAL texts of few modules, and the first fault of others.

ghost use Rattle.std.specs.Prelude.{◌≤◌, length};

use sf_lex::NumberFault;
use sf_parts::{Kind, Parts, RawPin};
use sf_yal::{YalFault, read_yal, yal_losses};
use std::alloc::{AllocError, Global};

/// Two instances between two pads, in a row of three nets.
const TWO_CELLS: &[u8] = b"/* two cells */
MODULE a; TYPE GENERAL; DIMENSIONS 0 0 2 0 2 2 0 2;
IOLIST; s B 0 1 1 M1; ENDIOLIST; ENDMODULE;
module b; type general; dimensions 0 0 2 0 2 2 0 2; endmodule;
MODULE top; TYPE PARENT; DIMENSIONS 0 0 9 0 9 9 0 9;
IOLIST; p PI 0 0 1 M1; q PO 10 0 1 M1; ENDIOLIST;
NETWORK; u a p n; v b n q; ENDNETWORK; ENDMODULE;
";

/// Whether these are the parts of the two cells.
fn are_two_cells(parts: &Parts) -> bool {
    match (
        parts.blocks.as_slice(),
        parts.pads.as_slice(),
        parts.nets.as_slice(),
    ) {
        ([u, v], [_, q], [first, middle, last]) => {
            u.name.as_bytes() == b"u".as_slice()
                && matches!(u.kind, Kind::Hard { w: 20, h: 20 })
                && v.name.as_bytes() == b"v".as_slice()
                && q.name.as_bytes() == b"q".as_slice()
                && q.place == Some((100, 0))
                && matches!(first.pins.as_slice(), [RawPin::Block(0), RawPin::Pad(0)])
                && matches!(middle.pins.as_slice(), [RawPin::Block(0), RawPin::Block(1)])
                && matches!(last.pins.as_slice(), [RawPin::Block(1), RawPin::Pad(1)])
                && parts.pads_in
                && parts.strangers.as_slice().is_empty()
        }
        _ => false,
    }
}

/// Instances are blocks, terminals with places are pads, and signals are nets.
#[test]
fn two_cells(rt: HostRuntime) {
    assert!(rt; matches!(&read_yal(rt.alloc(), TWO_CELLS, 10), Ok(parts) if are_two_cells(parts)));
}

/// Texts with a fault each, and some with two.
const TEXTS: &[&[u8]] = &[
    b"",
    b" /* MODULE a;",
    b"MODULE a; /*/ ENDMODULE;",
    b"MODULE a; TYPE PARENT;",
    b"MODULE a;\nENDMODULE; x\n\n",
    b"\nMODULE\n;",
    b"MODULE a; ENDMODULE; MODULE a;",
    b"MODULE a; ENDMODULE; ENDMODULE;",
    b"MODULE a;\nMODULE b;",
    b"MODULE a; IOLIST; ENDIOLIST;\nTYPE parent;",
    b"MODULE a; TYPE PARENT; TYPE PARENT;",
    b"MODULE a; TYPE PARENT; ENDMODULE;\nMODULE b; TYPE Parent;",
    b"MODULE a; DIMENSIONS 0 0 1;",
    b"MODULE a; DIMENSIONS 0 0\n1.5 1 x;",
    b"MODULE a;\nDIMENSIONS 0 0\n1.5 x;",
    b"MODULE a; ENDMODULE;",
    b"MODULE t; TYPE PARENT; NETWORK; u; ENDNETWORK; ENDMODULE;",
    b"MODULE t; TYPE PARENT; NETWORK; u zz n; ENDNETWORK; ENDMODULE;",
    b"MODULE t; TYPE PARENT; NETWORK;\nu t n; ENDNETWORK; ENDMODULE;",
    b"MODULE a; ENDMODULE; MODULE t; TYPE PARENT; NETWORK;\nu a n; ENDNETWORK; ENDMODULE;",
    b"MODULE a; DIMENSIONS 0 0 0 5; ENDMODULE; MODULE t; TYPE PARENT; NETWORK;\n\nu a n; ENDNETWORK; ENDMODULE;",
    b"MODULE t; TYPE PARENT; IOLIST; p PI 0 0.5; ENDIOLIST; ENDMODULE;",
];

/// The fault of each of them by its place, with the line.
fn has_fault(text: usize, fault: &YalFault) -> bool {
    match (text, fault) {
        (1, YalFault::Truncated(0)) => true,
        (2 | 3, YalFault::Truncated(1)) => true,
        (4, YalFault::Truncated(2)) => true,
        (5 | 8 | 9, YalFault::BadStatement(2)) => true,
        (6 | 7 | 10 | 12 | 13 | 16, YalFault::BadStatement(1)) => true,
        (11, YalFault::TwoParents(2)) => true,
        (14, YalFault::BadNumber(2, NumberFault::NotWhole)) => true,
        (0 | 15, YalFault::NoParent) => true,
        (17, YalFault::UnknownModule(1, name)) => name.as_bytes() == b"zz".as_slice(),
        (18, YalFault::UnknownModule(2, name)) => name.as_bytes() == b"t".as_slice(),
        (19, YalFault::BadStatement(2)) => true,
        (20, YalFault::ZeroSide(3)) => true,
        (21, YalFault::BadNumber(1, NumberFault::NotWhole)) => true,
        _ => false,
    }
}

/// Whether the text at this place is refused by its fault.
fn is_refused(alloc: Global, place: usize, text: &[u8]) -> bool
    requires { length text.now ≤ 67_108_864 }
{
    match read_yal(alloc, text, 1) {
        Ok(_) => false,
        Err(fault) => has_fault(place, &fault),
    }
}

/// Each text is refused by its first fault.
#[test]
fn first_faults(rt: HostRuntime) {
    for (place, text) in TEXTS.iter().enumerate() {
        assert!(rt; is_refused(rt.alloc(), place, text), "{place}");
    }
}

/// Words between modules, comments within words, terminals without a place and statements of no meaning.
const KINDLY: &[u8] =
    b"stray words; MODULE t/**/x; TYPE/* */PARENT; ; IOLIST later; p PI 1 -2.5e; p PI +.5 -2; p PI 9 9.7;
ENDIOLIST; NETWORK; u a n n/*,*/p; ENDNETWORK; other; ENDMODULE; Module a; Dimensions -1 0.5 3 1; EndModule;";

/// Whether these are the parts of that text.
fn are_kindly(parts: &Parts) -> bool {
    match (
        parts.blocks.as_slice(),
        parts.pads.as_slice(),
        parts.nets.as_slice(),
    ) {
        ([block], [pad], [first, last]) => {
            matches!(block.kind, Kind::Hard { w: 40, h: 5 })
                && pad.place == Some((5, -20))
                && matches!(first.pins.as_slice(), [RawPin::Block(0)])
                && matches!(last.pins.as_slice(), [RawPin::Block(0), RawPin::Pad(0)])
        }
        _ => false,
    }
}

/// What has no meaning is passed over.
#[test]
fn kindly(rt: HostRuntime) {
    assert!(rt; matches!(&read_yal(rt.alloc(), KINDLY, 10), Ok(parts) if are_kindly(parts)));
}

/// A parent whose terminals have coordinates, a side, or nothing, and two modules of the type PAD.
const LOSSY: &[u8] =
    b"MODULE a; TYPE GENERAL; DIMENSIONS 0 0 2 2; IOLIST; s B; ENDIOLIST; ENDMODULE;
MODULE vdd; TYPE PAD; DIMENSIONS 0 0 1 1; ENDMODULE; module gnd; type pad; dimensions 0 0 1 1; endmodule;
MODULE top; TYPE PARENT; IOLIST; p PI 0 0; q PO LEFT 3 1 M1; /* r PO; */ s PO; ENDIOLIST;
NETWORK; u a p q; v vdd q; ENDNETWORK; ENDMODULE;";

/// Terminals without coordinates are counted of the parent alone, and all modules of the type PAD.
#[test]
fn losses(rt: HostRuntime) -> Result<(), AllocError> {
    for (text, unplaced, pad_modules) in [(LOSSY, 2, 2), (TWO_CELLS, 0, 0)] {
        let losses = yal_losses(rt.alloc(), text, 10)?;
        assert!(rt; losses.unplaced == unplaced && losses.pad_modules == pad_modules);
    }
    Ok(())
}
