//! The generator against its published words, and generated designs against texts of another program.

use rand_core::Rng;
use rand_pcg::Lcg64Xsh32;
use sf_gen::{Kinds, design_of};
use std::alloc::{AllocError, Global};

/// The first words of the reference program of PCG32 at the state 42 in the stream 54.
#[test]
fn the_generator_is_pcg32(rt: HostRuntime) {
    let mut rng = Lcg64Xsh32::new(42, 54);
    for word in [
        0xa15c_02b7,
        0x7b47_f409,
        0xba1d_3330,
        0x83d2_f293,
        0xbfa4_784b,
        0xcbed_606e,
    ] {
        assert!(rt; rng.next_u32() == word, "{word}");
    }
}

const HARD_BLOCKS: &[u8] =
    b"UCSC blocks 1.0\nNumSoftRectangularBlocks : 0\nNumHardRectilinearBlocks : 4\nNumTerminals : 4\nb0 hardrectilinear 4 (0, 0) (0, 22) (28, 22) (28, 0)\nb1 hardrectilinear 4 (0, 0) (0, 8) (12, 8) (12, 0)\nb2 hardrectilinear 4 (0, 0) (0, 5) (5, 5) (5, 0)\nb3 hardrectilinear 4 (0, 0) (0, 7) (30, 7) (30, 0)\np0 terminal\np1 terminal\np2 terminal\np3 terminal\n";

const HARD_NETS: &[u8] =
    b"UCLA nets 1.0\nNumNets : 8\nNumPins : 19\nNetDegree : 3\nb3 B\nb0 B\np0 B\nNetDegree : 2\nb3 B\nb3 B\nNetDegree : 2\nb0 B\nb1 B\nNetDegree : 3\nb3 B\nb3 B\np3 B\nNetDegree : 2\nb2 B\nb3 B\nNetDegree : 2\nb1 B\nb1 B\nNetDegree : 3\nb0 B\nb1 B\np2 B\nNetDegree : 2\nb2 B\nb2 B\n";

const MIXED_BLOCKS: &[u8] =
    b"UCSC blocks 1.0\nNumSoftRectangularBlocks : 1\nNumHardRectilinearBlocks : 2\nNumTerminals : 4\nb0 hardrectilinear 4 (0, 0) (0, 22) (28, 22) (28, 0)\nb1 softrectangular 96 0.5 2\nb2 hardrectilinear 4 (0, 0) (0, 5) (5, 5) (5, 0)\np0 terminal\np1 terminal\np2 terminal\np3 terminal\n";

const HARD_PLACES: &[u8] = b"UCLA pl 1.0\np0 0 0\np1 64 0\np2 0 64\np3 64 64\n";

const NO_NETS: &[u8] = b"UCLA nets 1.0\nNumNets : 0\nNumPins : 0\n";

/// Whether the texts of four hard blocks are these.
fn are_made(alloc: Global, blocks: &[u8], nets: &[u8], places: &[u8]) -> Result<bool, AllocError> {
    let four = design_of(alloc, 7, 4, Kinds::Hard)?;
    Ok(
        four.blocks.as_slice() == blocks
            && four.nets.as_slice() == nets
            && four.pl.as_slice() == places,
    )
}

/// Whether the blocks of three of both kinds, and the nets of one, are these.
fn are_few(alloc: Global, blocks: &[u8], nets: &[u8]) -> Result<bool, AllocError> {
    let three = design_of(alloc, 7, 3, Kinds::Mixed)?;
    let one = design_of(alloc, 7, 1, Kinds::Hard)?;
    Ok(three.blocks.as_slice() == blocks && one.nets.as_slice() == nets)
}

/// The texts that a program of its own, in another language, makes of the published generator.
#[test]
fn designs_are_made(rt: HostRuntime) {
    assert!(rt; are_made(rt.alloc(), HARD_BLOCKS, HARD_NETS, HARD_PLACES) == Ok(true));
    assert!(rt; are_few(rt.alloc(), MIXED_BLOCKS, NO_NETS) == Ok(true));
}
