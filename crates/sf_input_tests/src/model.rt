//! Admission of small parts, and their design.

ghost use Rattle.std.specs.Prelude.{◌≡◌, length, vec_len, All, IfOk};
ghost use Rattle.sf_parts.specs.Admitted.{IsAdmitted, HasPinsInRange};
ghost use Rattle.sf_model.specs.Limits.{IsShapeChoice};

use sf_model::{Design, Name, Outline, Pin, Shape, Shapes, Weights};
use sf_parts::{
    Build, BuildFault, Kind, Limit, NameList, Parts, RawBlock, RawBlockList, RawNet, RawNetList,
    RawPad, RawPadList, RawPin, RawPins,
};
use std::alloc::{AllocError, Global};

/// Squares that have these letters as names.
fn squares(alloc: Global, letters: &[u8], side: u64) -> Result<RawBlockList, AllocError> {
    let mut blocks = Vec::new(alloc);
    for letter in letters {
        blocks.push(RawBlock {
            name: Name::new(alloc, &[*letter])?,
            kind: Kind::Hard { w: side, h: side },
        })?;
    }
    Ok(RawBlockList::from_vec(blocks))
}

/// A number for each fault that is asked for.
fn number_of(fault: &BuildFault) -> u8 {
    match fault {
        BuildFault::DuplicateName(name) if name.as_bytes() == b"b".as_slice() => 1,
        BuildFault::OverLimit(Limit::Side, 1_048_577, 1_048_576) => 2,
        BuildFault::NoBlocks => 3,
        BuildFault::MissingPlace(name) if name.as_bytes() == b"p".as_slice() => 4,
        BuildFault::UnknownName(name) if name.as_bytes() == b"z".as_slice() => 5,
        _ => 9,
    }
}

/// The number of the fault of squares of these names, or 0 where they are admitted.
fn number_of_squares(alloc: Global, letters: &[u8], side: u64) -> Result<u8, AllocError> {
    let parts = Parts {
        blocks: squares(alloc, letters, side)?,
        pads: RawPadList::from_vec(Vec::new(alloc)),
        nets: RawNetList::from_vec(Vec::new(alloc)),
        strangers: NameList::from_vec(Vec::new(alloc)),
        pads_in: true,
    };
    Ok(match parts.admit(alloc) {
        Ok(()) => 0,
        Err(fault) => number_of(&fault),
    })
}

/// The names of squares, their side, and the number of their fault.
const SQUARES: [(&[u8], u64, u8); 4] = [
    (b"ab", 3, 0),
    (b"baab", 3, 1),
    (b"baab", 1_048_577, 2),
    (b"", 3, 3),
];

/// Parts are admitted, or refused with their first fault.
#[test]
fn admits(rt: HostRuntime) {
    for (letters, side, number) in SQUARES {
        assert!(rt;
            number_of_squares(rt.alloc(), letters, side) == Ok(number),
            "{number}"
        );
    }
}

/// A block a, a pad p without a place and a pad q with one, and a net of a pin of this name and of a twice.
fn one_block(alloc: Global, letter: u8) -> Result<Parts, AllocError>
    ensures pins { IfOk result (λ parts. HasPinsInRange parts) }
    ensures one { IfOk result (λ parts. length parts.blocks ≡ 1) }
    ensures one_net { IfOk result (λ parts. length parts.nets ≡ 1) }
{
    let block = RawBlock {
        name: Name::new(alloc, b"a")?,
        kind: Kind::Hard { w: 3, h: 3 },
    };
    let bare = RawPad {
        name: Name::new(alloc, b"p")?,
        place: None,
    };
    let placed = RawPad {
        name: Name::new(alloc, b"q")?,
        place: Some((5, -2)),
    };
    let pins = vec![in alloc;
        RawPin::Named(Name::new(alloc, &[letter])?),
        RawPin::Named(Name::new(alloc, b"a")?),
        RawPin::Named(Name::new(alloc, b"a")?),
    ]?;
    let net = RawNet {
        pins: RawPins::from_vec(pins),
    };
    Ok(Parts {
        blocks: RawBlockList::from_vec(vec![in alloc; block]?),
        pads: RawPadList::from_vec(vec![in alloc; bare, placed]?),
        nets: RawNetList::from_vec(vec![in alloc; net]?),
        strangers: NameList::from_vec(Vec::new(alloc)),
        pads_in: true,
    })
}

/// One list of one shape.
fn one_list(alloc: Global) -> Result<Vec<Shapes>, AllocError>
    ensures one { IfOk result (λ lists. vec_len lists ≡ 1) }
    ensures fine { IfOk result (λ lists. All IsShapeChoice lists.items) }
{
    let shapes = Shapes::from_vec(vec![in alloc; Shape { w: 3, h: 3 }]?);
    Ok(vec![in alloc; shapes]?)
}

/// Whether the design is the one that is wanted.
fn is_wanted(design: &Design) -> bool {
    match (
        design.blocks.as_slice(),
        design.pads.as_slice(),
        design.nets.as_slice(),
    ) {
        ([_], [pad], [net]) => {
            pad.x == 5
                && pad.y == -2
                && net.weight == 200
                && matches!(net.pins.as_slice(), [Pin::Block(0), Pin::Pad(0)])
        }
        _ => false,
    }
}

/// 0 where the design is the one that is wanted.
fn built(alloc: Global, parts: Parts) -> Result<u8, BuildFault>
    requires admitted { IsAdmitted parts }
    requires pins { HasPinsInRange parts }
    requires one { length parts.blocks ≡ 1 }
    requires one_net { length parts.nets ≡ 1 }
{
    let lists = one_list(alloc)?;
    let outline = Outline { w: 10, h: 10 };
    let weights = Weights { area: 1, wire: 0 };
    let design = Design::build(alloc, parts, lists, outline, weights, &[200])?;
    Ok(if is_wanted(&design) { 0 } else { 7 })
}

/// The number of the fault of the parts with a pin of this name, or 0 where their design is the one that is wanted.
fn number_of_pin(alloc: Global, letter: u8) -> Result<u8, BuildFault> {
    let parts = one_block(alloc, letter)?;
    match parts.admit(alloc) {
        Ok(()) => built(alloc, parts),
        Err(fault) => Ok(number_of(&fault)),
    }
}

/// A design has what was read, and a list of shapes for each block.
#[test]
fn builds(rt: HostRuntime) {
    for (letter, number) in [(b'q', 0), (b'p', 4), (b'z', 5)] {
        assert!(rt;
            matches!(number_of_pin(rt.alloc(), letter), Ok(found) if found == number),
            "{number}"
        );
    }
}
