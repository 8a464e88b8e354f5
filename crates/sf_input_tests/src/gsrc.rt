//! Three small files joined, faults of texts, and weights of nets.

use sf_gsrc::{
    GsrcFault, JoinFault, WeightFault, join_parts, read_blocks, read_nets, read_pl, read_weights,
};
use sf_lex::NumberFault;
use sf_parts::{Kind, Parts};
use std::alloc::Global;
use std::test::Fail;

/// A soft block, a hard one with three corners, and two pads.
const BLOCKS: &[u8] =
    b"# c\n\n UCSC\tblocks 1.0\r\nNumTerminals:2\nNumSoftRectangularBlocks 1\nb softrectangular 2.5 .5 2.0 x\nNumHardRectilinearBlocks : 1\na hardrectilinear 3 -1 -1.5 2,0 (0 2.5)\np terminal\nq terminal\n";

/// A net of a block and a pad, and a net of one block.
const NETS: &[u8] =
    b"UCLA nets 1.0\nNumNets : 2\nNumPins : 3\nNetDegree : 2 n0\na B\np B : %1 %2\nNetDegree:1\nb\n";

/// The places of a name that is in no list, of a pad and of a block.
const PL: &[u8] = b"UCLA pl 1.0\nz 1 2 DIMS = (3, 4) : N\np -1.5 +2\na 0 0\n";

/// The parts of the blocks and nets with these places.
fn parts(alloc: Global, pl: &[u8]) -> Result<Parts, Fail> {
    let blocks = read_blocks(alloc, BLOCKS, 10)?;
    let nets = read_nets(alloc, NETS)?;
    let places = read_pl(alloc, pl, 10)?;
    Ok(join_parts(alloc, blocks, Some(nets), Some(places))?)
}

/// Whether these are the parts of the three texts, each name with what stands for it.
fn are_joined(parts: &Parts) -> bool {
    match (
        parts.blocks.as_slice(),
        parts.pads.as_slice(),
        parts.strangers.as_slice(),
    ) {
        ([soft, hard], [placed, bare], [stranger]) => {
            matches!(
                soft.kind,
                Kind::Soft {
                    area: 250,
                    min: 500_000,
                    max: 2_000_000
                }
            ) && matches!(hard.kind, Kind::Hard { w: 30, h: 40 })
                && placed.place == Some((-15, 20))
                && bare.place.is_none()
                && parts.nets.as_slice().len() == 2
                && stranger.as_bytes() == b"z".as_slice()
        }
        _ => false,
    }
}

/// Blocks, nets and places of three files are joined.
#[test]
fn files_are_joined(rt: HostRuntime) -> Result<(), Fail> {
    assert!(rt; are_joined(&parts(rt.alloc(), PL)?));
    Ok(())
}

/// What a text is read as.
#[derive(Clone, Copy)]
enum Reader {
    Blocks,
    Nets,
    Places,
}

/// The number of a fault, its line, and the number of the fault of a number, or 0; zeros where there is none.
type Numbers = (u8, u64, u8);

/// The number of a fault of a number.
fn of_number(fault: NumberFault) -> u8 {
    match fault {
        NumberFault::NotNumber => 1,
        NumberFault::TooManyDigits => 2,
        NumberFault::NotWhole => 3,
        NumberFault::TooLarge => 4,
    }
}

/// The numbers of a text's fault.
fn numbers_of<T: Drop>(outcome: Result<T, GsrcFault>) -> Numbers {
    match outcome {
        Ok(_) => (0, 0, 0),
        Err(GsrcFault::BadTitle(line)) => (1, line, 0),
        Err(GsrcFault::BadLine(line)) => (2, line, 0),
        Err(GsrcFault::BadNumber(line, fault)) => (3, line, of_number(fault)),
        Err(GsrcFault::CountDiffers(line, ..)) => (4, line, 0),
        Err(GsrcFault::BadDegree(line, ..)) => (5, line, 0),
        Err(GsrcFault::ZeroSide(line)) => (6, line, 0),
        Err(GsrcFault::Truncated(line)) => (7, line, 0),
        Err(GsrcFault::NoMemory) => (8, 0, 0),
    }
}

/// The numbers of the fault of a text, with lengths as they stand.
fn fault_of(alloc: Global, reader: Reader, text: &[u8]) -> Numbers {
    match reader {
        Reader::Blocks => numbers_of(read_blocks(alloc, text, 1)),
        Reader::Nets => numbers_of(read_nets(alloc, text)),
        Reader::Places => numbers_of(read_pl(alloc, text, 1)),
    }
}

const FAULTS: [(Reader, &[u8], Numbers); 11] = [
    (Reader::Blocks, b"\nUCLA nets 1.0\n", (1, 2, 0)),
    (
        Reader::Blocks,
        b"UCLA blocks\nNumTerminals 1\nNumTerminals : x",
        (2, 3, 0),
    ),
    (Reader::Places, b"UCLA pl\np 0 x DIMS = (1)\n", (2, 2, 0)),
    (Reader::Places, b"UCLA pl\na x 0\n", (3, 2, 1)),
    (Reader::Places, b"UCLA pl\na 0.1234567 0\n", (3, 2, 2)),
    (
        Reader::Blocks,
        b"UCLA blocks\na hardrectilinear 1 0 0.5",
        (3, 2, 3),
    ),
    (
        Reader::Places,
        b"UCLA pl\na 9000000000000001 0\n",
        (3, 2, 4),
    ),
    (
        Reader::Nets,
        b"UCLA nets\nNumNets 2\nNetDegree 1\na\n",
        (4, 2, 0),
    ),
    (
        Reader::Nets,
        b"UCLA nets\nNumNets 1\nNetDegree 2\na\nNetDegree x\n",
        (5, 3, 0),
    ),
    (Reader::Places, b"UCLA pl\np 0 0 DIMS = (1, 0)\n", (6, 2, 0)),
    (Reader::Blocks, b"\n# x\n", (7, 0, 0)),
];

/// Each text has its first fault, at its line.
#[test]
fn texts_have_their_first_fault(rt: HostRuntime) {
    for (reader, text, numbers) in FAULTS {
        assert!(rt; fault_of(rt.alloc(), reader, text) == numbers, "{text:?}");
    }
}

/// Whether a is told of a and b, which both are placed twice.
fn tells_first_twice(alloc: Global) -> Result<bool, GsrcFault> {
    let places = read_pl(alloc, b"UCLA pl\na 0 0\nb 0 0\nb 0 0\na 0 0\n", 1)?;
    let blocks = read_blocks(alloc, BLOCKS, 10)?;
    match join_parts(alloc, blocks, None, Some(places)) {
        Err(JoinFault::PlacedTwice(name)) => Ok(name.as_bytes() == b"a".as_slice()),
        _ => Ok(false),
    }
}

/// Whether blocks that are joined alone have no pads.
fn has_no_pads(alloc: Global) -> Result<bool, GsrcFault> {
    match join_parts(alloc, read_blocks(alloc, BLOCKS, 10)?, None, None) {
        Ok(parts) => Ok(!parts.pads_in),
        Err(_) => Ok(false),
    }
}

/// Of two names that are placed twice the first one in the list is told; without a pl file there are no pads.
#[test]
fn a_name_is_placed_twice(rt: HostRuntime) {
    assert!(rt; matches!(tells_first_twice(rt.alloc()), Ok(true)));
    assert!(rt; matches!(has_no_pads(rt.alloc()), Ok(true)));
}

/// Each cause, and which comes first: of two in one line, and of two in two lines.
const WEIGHT_FAULTS: [(&[u8], WeightFault); 17] = [
    (b"0", WeightFault::BadLine(1)),
    (b"0 1 2", WeightFault::BadLine(1)),
    (b"x 1", WeightFault::BadNumber(1, NumberFault::NotNumber)),
    (b"0.5 1", WeightFault::BadNumber(1, NumberFault::NotWhole)),
    (
        b"9000000000000001 1",
        WeightFault::BadNumber(1, NumberFault::TooLarge),
    ),
    (b"2 1", WeightFault::UnknownNet(1, 2)),
    (b"0 1\n00 1", WeightFault::RepeatedNet(2, 0)),
    (b"0 256", WeightFault::BadNumber(1, NumberFault::TooLarge)),
    (b"x", WeightFault::BadLine(1)),
    (b"x 256", WeightFault::BadNumber(1, NumberFault::NotNumber)),
    (b"2 x", WeightFault::UnknownNet(1, 2)),
    (b"0 1\n0 x", WeightFault::RepeatedNet(2, 0)),
    (b"0 1\n0 x 1", WeightFault::BadLine(2)),
    (b"0 x\n1", WeightFault::BadNumber(1, NumberFault::NotNumber)),
    (b"# 9 9\n\n9 1\n0", WeightFault::UnknownNet(3, 9)),
    (b"0 1\n0 1\n2 1", WeightFault::RepeatedNet(2, 0)),
    (b"1\n2 1", WeightFault::BadLine(1)),
];

/// The fault of a text of weights of two nets.
fn weight_fault(alloc: Global, text: &[u8]) -> Option<WeightFault> {
    read_weights(alloc, text, 2).err()
}

/// Each text of weights of two nets has its first fault.
#[test]
fn weights_have_their_first_fault(rt: HostRuntime) {
    for (text, fault) in WEIGHT_FAULTS {
        assert!(rt; weight_fault(rt.alloc(), text) == Some(fault), "{text:?}");
    }
}

/// Texts of weights of so many nets, and the weights.
const WEIGHTS: [(&[u8], u64, &[u8]); 3] = [
    (b" # of 3 nets\n\t\n2 0\r\n\t000 0255.0 ", 3, &[255, 1, 0]),
    (b"", 2, &[1, 1]),
    (b"#", 0, &[]),
];

/// Whether a text of weights of so many nets has these.
fn are_weights(alloc: Global, text: &[u8], nets: u64, wanted: &[u8]) -> bool {
    match read_weights(alloc, text, nets) {
        Ok(weights) => weights.as_slice() == wanted,
        Err(_) => false,
    }
}

/// A net without a line has the weight 1.
#[test]
fn nets_have_their_weights(rt: HostRuntime) {
    for (text, nets, wanted) in WEIGHTS {
        assert!(rt; are_weights(rt.alloc(), text, nets, wanted), "{text:?}");
    }
}
