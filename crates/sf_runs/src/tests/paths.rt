//! Certificates with paths: three blocks in a chain between pads, with values that were worked out by hand.

use super::{GIVEN, Printed, Row, assert_rows, comes_to, shelf_of};
use sf_io::Status;
use std::alloc::Global;
use std::test::Fail;
use std::thread::Threads;

/// Three blocks of 2 by 2.
const BLOCKS: &[u8] = b"UCSC blocks 1.0
NumSoftRectangularBlocks : 0
NumHardRectilinearBlocks : 3
NumTerminals : 3
a hardrectilinear 4 (0, 0) (0, 2) (2, 2) (2, 0)
b hardrectilinear 4 (0, 0) (0, 2) (2, 2) (2, 0)
c hardrectilinear 4 (0, 0) (0, 2) (2, 2) (2, 0)
p terminal
q terminal
r terminal
";

/// The chain p a b c q, a net from a to r, and one that joins a and c.
const NETS: &[u8] = b"UCLA nets 1.0
NumNets : 6
NumPins : 12
NetDegree : 2
a B
p B
NetDegree : 2
a B
b B
NetDegree : 2
b B
c B
NetDegree : 2
c B
q B
NetDegree : 2
a B
r B
NetDegree : 2
a B
c B
";

/// The pad q lies 10 to the right of p, and r lies 12 above p.
const PLACES: &[u8] = b"UCLA pl 1.0\np 0 0\nq 10 0\nr 0 12\n";

/// The open root with the path along the chain and the one from p over a to r. At the root the area is 12, and the
/// nets take 4, 4, 4, 2, 2 and 4 in doubled units: 32 in sum. The paths' ends are 20 and 24 apart, and they leave
/// the last net alone: 44 and 4, with the area 60.
const ROUTED: &[u8] =
    b"slicing-certificate 3\nblocks 3\ncost none\nbound 60\nplan none\nacross 1\n0 0 0 1 1 2 2 3 1\nupward 1\n0 0 0 4 2\ntree\nO\n";

/// The same without paths.
const BARE: &[u8] = b"slicing-certificate 2\nblocks 3\ncost none\nbound 32\nplan none\ntree\nO\n";

/// The root is extended: a subproblem that begins with a block is worth as much.
const EXTENDED: &[u8] =
    b"slicing-certificate 3\nblocks 3\ncost none\nbound 60\nplan none\nacross 1\n0 0 0 1 1 2 2 3 1\nupward 1\n0 0 0 4 2\ntree\nE\nO\nO\nO\n";

const CHECK_WORDS: &str =
    "check --format gsrc --blocks a.blocks --nets a.nets --pl a.pl --wire-weight 1 --cert a.cert";

const RESUME_WORDS: &str =
    "resume --format gsrc --blocks a.blocks --nets a.nets --pl a.pl --wire-weight 1 --cert a.cert";

const PLAN_WORDS: &str =
    "plan --format gsrc --blocks a.blocks --nets a.nets --pl a.pl --wire-weight 1 --cert b.cert";

const CHECK: Row = Row {
    command: CHECK_WORDS,
    options: "--bounds strong",
    files: &[
        ("a.blocks", BLOCKS),
        ("a.nets", NETS),
        ("a.pl", PLACES),
        ("a.cert", ROUTED),
    ],
    ..GIVEN
};

/// The fewest nets from p to q are three, past b: they leave the two nets of b, which take 4 each, so that the root
/// is worth 64.
const TAKEN: &[Row] = &[
    Row {
        printed: Printed::Whole("status Yes\ncost none\nbound 60\ndecided 0\n"),
        ..CHECK
    },
    Row {
        options: "--bounds strong --rewrite b.cert",
        printed: Printed::Whole("status Yes\ncost none\nbound 60\ndecided 0\n"),
        stored: &[("b.cert", ROUTED)],
        ..CHECK
    },
    Row {
        options: "--bounds standard",
        status: Status::No,
        printed: Printed::Whole("status No BoundDiffers 60 32\n"),
        ..CHECK
    },
    Row {
        files: &[
            ("a.blocks", BLOCKS),
            ("a.nets", NETS),
            ("a.pl", PLACES),
            ("a.cert", BARE),
        ],
        printed: Printed::Whole("status Yes\ncost none\nbound 32\ndecided 0\n"),
        ..CHECK
    },
    Row {
        command: RESUME_WORDS,
        options: "--bounds strong --cert-out b.cert --nodes 1",
        status: Status::Open,
        printed: Printed::Lines("status Open\ncost none\nbound 60\ndecided 1\nplan none\n"),
        stored: &[("b.cert", EXTENDED)],
        ..CHECK
    },
    Row {
        command: PLAN_WORDS,
        options: "--bounds strong --nodes 1",
        status: Status::Open,
        printed: Printed::Lines("bound 64\ndecided 1\n"),
        ..CHECK
    },
];

/// Certificates whose paths are not legal.
const REFUSED: &[(&[u8], &str)] = &[
    // The same path once more, though its nets have the weight 1.
    (
        b"slicing-certificate 3\nblocks 3\ncost none\nbound 60\nplan none\nacross 2\n0 0 0 1 1 2 2 3 1\n0 0 0 1 1 2 2 3 1\nupward 0\ntree\nO\n",
        "status No BadPath 1\n",
    ),
    // A pin that isn't on its net.
    (
        b"slicing-certificate 3\nblocks 3\ncost none\nbound 60\nplan none\nacross 1\n0 0 0 2 2 3 1\nupward 0\ntree\nO\n",
        "status No BadPath 0\n",
    ),
    // From right to left.
    (
        b"slicing-certificate 3\nblocks 3\ncost none\nbound 60\nplan none\nacross 1\n1 3 2 2 1 1 0 0 0\nupward 0\ntree\nO\n",
        "status No BadPath 0\n",
    ),
    // The first net is used twice upward; across it is used once.
    (
        b"slicing-certificate 3\nblocks 3\ncost none\nbound 60\nplan none\nacross 1\n0 0 0 1 1 2 2 3 1\nupward 2\n0 0 0 4 2\n0 0 0 4 2\ntree\nO\n",
        "status No BadPath 2\n",
    ),
    // No such pad at the end.
    (
        b"slicing-certificate 3\nblocks 3\ncost none\nbound 60\nplan none\nacross 1\n0 0 0 1 1 2 2 3 7\nupward 0\ntree\nO\n",
        "status No BadPath 0\n",
    ),
    // No such net.
    (
        b"slicing-certificate 3\nblocks 3\ncost none\nbound 60\nplan none\nacross 0\nupward 1\n0 6 2\ntree\nO\n",
        "status No BadPath 0\n",
    ),
    // The cost comes first: a row of the three blocks takes 12 and 4, 4, 4, 12, 24 and 8.
    (
        b"slicing-certificate 3\nblocks 3\ncost 67\nbound 60\nplan 0:2x2 1:2x2 * 2:2x2 *\nacross 1\n0 0 1\nupward 0\ntree\nO\n",
        "status No CostDiffers 67 68\n",
    ),
    // The tree comes last.
    (
        b"slicing-certificate 3\nblocks 3\ncost 68\nbound 60\nplan 0:2x2 1:2x2 * 2:2x2 *\nacross 1\n0 0 1\nupward 0\ntree\nS 0\nO\nO\n",
        "status No BadPath 0\n",
    ),
];

/// The commands that read a certificate's paths.
const READERS: [&[&str]; 3] = [
    &[CHECK_WORDS, "--bounds strong"],
    &[CHECK_WORDS, "--bounds strong --rewrite b.cert"],
    &[RESUME_WORDS, "--bounds strong --cert-out b.cert --nodes 1"],
];

const NO_TREE: &[u8] =
    b"slicing-certificate 3\nblocks 3\ncost none\nbound 60\nplan none\nacross 1\n0 0 1\nupward 0\ntree\n";

/// A text that is no certificate is refused as one, whatever its paths are.
const CUT_OFF: Row = Row {
    files: &[
        ("a.blocks", BLOCKS),
        ("a.nets", NETS),
        ("a.pl", PLACES),
        ("a.cert", NO_TREE),
    ],
    status: Status::BadInput,
    printed: Printed::Whole("error BadInput cert 9 Truncated\n"),
    ..CHECK
};

#[test]
fn paths_are_taken(rt: HostRuntime) -> Result<(), Fail> {
    assert_rows(&rt, rt.alloc(), &[TAKEN, &[CUT_OFF]])
}

/// Whether the words of these texts tell this of the certificate, and store nothing.
fn is_told(
    rt: &(impl Threads + Sync),
    alloc: Global,
    cert: &'static [u8],
    texts: &[&str],
    told: &'static str,
) -> Result<bool, Fail> {
    let files = [
        ("a.blocks", BLOCKS),
        ("a.nets", NETS),
        ("a.pl", PLACES),
        ("a.cert", cert),
    ];
    let mut shelf = shelf_of(alloc, &files, 0)?;
    let is_so = comes_to(
        rt,
        alloc,
        &mut shelf,
        texts,
        Status::No,
        Printed::Whole(told),
    )?;
    Ok(is_so && shelf.bytes("b.cert").is_none())
}

/// Each command that reads such a certificate tells the first wrong path, and stores nothing.
#[test]
fn wrong_paths_are_told(rt: HostRuntime) -> Result<(), Fail> {
    for (text, told) in REFUSED {
        for words in READERS {
            assert!(rt; is_told(&rt, rt.alloc(), text, words, told)?, "{told}");
        }
    }
    Ok(())
}
