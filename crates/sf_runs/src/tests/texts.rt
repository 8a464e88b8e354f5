//! Texts that several tables share.

/// A block 3x4.
pub const ONE: &[u8] = b"UCSC blocks 1.0
NumSoftRectangularBlocks : 0
NumHardRectilinearBlocks : 1
NumTerminals : 0
b0 hardrectilinear 4 (0, 0) (0, 4) (3, 4) (3, 0)
";

/// Blocks 2x3 and 3x2.
pub const TWO: &[u8] = b"UCSC blocks 1.0
NumSoftRectangularBlocks : 0
NumHardRectilinearBlocks : 2
NumTerminals : 0
b0 hardrectilinear 4 (0, 0) (0, 3) (2, 3) (2, 0)
b1 hardrectilinear 4 (0, 0) (0, 2) (3, 2) (3, 0)
";

/// Two blocks 2x3.
pub const EQUALS: &[u8] = b"UCSC blocks 1.0
NumSoftRectangularBlocks : 0
NumHardRectilinearBlocks : 2
NumTerminals : 0
b0 hardrectilinear 4 (0, 0) (0, 3) (2, 3) (2, 0)
b1 hardrectilinear 4 (0, 0) (0, 3) (2, 3) (2, 0)
";

/// Blocks that fill a square with sides of 3 as a pinwheel, and in no slicing floorplan.
pub const FIVE: &[u8] = b"UCSC blocks 1.0
NumSoftRectangularBlocks : 0
NumHardRectilinearBlocks : 5
NumTerminals : 0
b0 hardrectilinear 4 (0, 0) (0, 1) (2, 1) (2, 0)
b1 hardrectilinear 4 (0, 0) (0, 1) (2, 1) (2, 0)
b2 hardrectilinear 4 (0, 0) (0, 2) (1, 2) (1, 0)
b3 hardrectilinear 4 (0, 0) (0, 2) (1, 2) (1, 0)
b4 hardrectilinear 4 (0, 0) (0, 1) (1, 1) (1, 0)
";

/// Two blocks 2x2.
pub const SQUARES: &[u8] = b"UCSC blocks 1.0
NumSoftRectangularBlocks : 0
NumHardRectilinearBlocks : 2
NumTerminals : 0
b0 hardrectilinear 4 (0, 0) (0, 2) (2, 2) (2, 0)
b1 hardrectilinear 4 (0, 0) (0, 2) (2, 2) (2, 0)
";

/// A net of two blocks.
pub const JOINED: &[u8] = b"UCLA nets 1.0
NumNets : 1
NumPins : 2
NetDegree : 2
b0 B
b1 B
";

/// No places.
pub const NOWHERE: &[u8] = b"UCLA pl 1.0\n";

/// A block 2x2 and a pad.
pub const PADDED: &[u8] = b"UCSC blocks 1.0
NumSoftRectangularBlocks : 0
NumHardRectilinearBlocks : 1
NumTerminals : 1
b0 hardrectilinear 4 (0, 0) (0, 2) (2, 2) (2, 0)
p0 terminal
";

/// A soft block with the shapes 1x4, 2x2 and 3x2, and a pad.
pub const SOFT: &[u8] = b"UCSC blocks 1.0
NumSoftRectangularBlocks : 1
NumHardRectilinearBlocks : 0
NumTerminals : 1
b0 softrectangular 4 0.5 4
p0 terminal
";

/// A net of a block and a pad.
pub const TO_PAD: &[u8] = b"UCLA nets 1.0
NumNets : 1
NumPins : 2
NetDegree : 2
b0 B
p0 B
";

/// The place of the pad.
pub const FAR_PAD: &[u8] = b"UCLA pl 1.0\np0 10 0\n";

/// The best plan of the block 2x2 with a net of it and this pad, with wire weight 1.
pub const PADDED_LINES: &str =
    "status Optimal\ncost 24\nbound 24\ndecided 2\nsize 2 2\narea 4\nwire 20\nplan 0:2x2\n";

/// Its certificate.
pub const PADDED_CERT: &[u8] =
    b"slicing-certificate 2\nblocks 1\ncost 24\nbound 24\nplan 0:2x2\ntree\nE\nC h\n";

/// Two cells 2x2 between two pads, as YAL.
pub const CELLS: &[u8] = b"/* two cells */
MODULE a; TYPE GENERAL; DIMENSIONS 0 0 2 0 2 2 0 2;
IOLIST; s B 0 1 1 M1; ENDIOLIST; ENDMODULE;
module b; type general; dimensions 0 0 2 0 2 2 0 2; endmodule;
MODULE top; TYPE PARENT; DIMENSIONS 0 0 9 0 9 9 0 9;
IOLIST; p PI 0 0 1 M1; q PO 10 0 1 M1; ENDIOLIST;
NETWORK; u a p n; v b n q; ENDNETWORK; ENDMODULE;
";

/// The blocks of the same design as GSRC.
pub const CELL_BLOCKS: &[u8] = b"UCSC blocks 1.0
NumSoftRectangularBlocks : 0
NumHardRectilinearBlocks : 2
NumTerminals : 2
u hardrectilinear 4 (0, 0) (0, 2) (2, 2) (2, 0)
v hardrectilinear 4 (0, 0) (0, 2) (2, 2) (2, 0)
p terminal
q terminal
";

/// Its nets.
pub const CELL_NETS: &[u8] = b"UCLA nets 1.0
NumNets : 3
NumPins : 6
NetDegree : 2
u B
p B
NetDegree : 2
u B
v B
NetDegree : 2
v B
q B
";

/// The places of its pads.
pub const CELL_PADS: &[u8] = b"UCLA pl 1.0\np 0 0\nq 10 0\n";

/// Its best plan, with wire weight 1.
pub const CELL_LINES: &str =
    "status Optimal\ncost 32\nbound 32\ndecided 9\nsize 4 2\narea 8\nwire 24\nplan 0:2x2 1:2x2 *\n";

/// The certificate of this plan.
pub const CELL_CERT: &[u8] =
    b"slicing-certificate 2\nblocks 2\ncost 32\nbound 32\nplan 0:2x2 1:2x2 *\ntree\nE\nE\nE\nC h\nC h\nE\nE\nC h\nC h\n";

/// The placement of this plan.
pub const CELL_PLACES: &[u8] =
    b"UCLA pl 1.0\nu 0 0 DIMS = (2, 2) : N\nv 2 0 DIMS = (2, 2) : N\np 0 0\nq 10 0\n";

/// The best plan of the block 3x4.
pub const ONE_LINES: &str =
    "status Optimal\ncost 12\nbound 12\ndecided 2\nsize 3 4\narea 12\nwire 0\nplan 0:3x4\n";

/// Its certificate.
pub const ONE_CERT: &[u8] =
    b"slicing-certificate 2\nblocks 1\ncost 12\nbound 12\nplan 0:3x4\ntree\nE\nC a\n";

/// The certificate of the blocks 2x3 and 3x2.
pub const TWO_CERT: &[u8] =
    b"slicing-certificate 2\nblocks 2\ncost 15\nbound 15\nplan 0:2x3 1:3x2 *\ntree\nE\nE\nE\nC a\nC a\nE\nE\nC a\nC a\n";

/// The same as a text of the first version, which names no parts.
pub const TWO_UNNAMED: &[u8] =
    b"slicing-certificate 1\nblocks 2\ncost 15\nbound 15\nplan 0:2x3 1:3x2 *\ntree\nE\nE\nE\nC\nC\nE\nE\nC\nC\n";

/// The placement of their best plan.
pub const TWO_PLACES: &[u8] = b"UCLA pl 1.0\nb0 0 0 DIMS = (2, 3) : N\nb1 2 0 DIMS = (3, 2) : N\n";

/// A certificate of them that closes the root, whose bound is below the cost.
pub const CLOSED_ROOT: &[u8] =
    b"slicing-certificate 1\nblocks 2\ncost 15\nbound 15\nplan 0:2x3 1:3x2 *\ntree\nC\n";

/// The certificate of two squares of side 2 and a net of both, with wire weight 1.
pub const JOINED_CERT: &[u8] =
    b"slicing-certificate 2\nblocks 2\ncost 12\nbound 12\nplan 0:2x2 1:2x2 *\ntree\nE\nE\nE\nC p\nC p\nC p\n";

/// The one block beside the other.
pub const BESIDE: &[u8] = b"0 1 *";
