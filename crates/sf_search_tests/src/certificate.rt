//! Texts that are read, and the first fault of texts that are not.

use sf_cert_text::{CertFault, read, write};
use std::alloc::Global;

/// Texts of certificates of so many blocks, and as what they are written. One of the first version is written in the
/// second, its closed subproblems by their full part. One of the second is written as it was read, and one of the third,
/// here with a path from pad 3 by net 5 to block 2 and by net 7 to pad 0, one from pad 1 by net 4 to pad 2, and one
/// upward; without paths it is written in the second.
const TEXTS: [(&[u8], u16, &[u8]); 4] = [
    (
        b"slicing-certificate 1\nblocks 1\ncost 12\nbound 12\nplan 0:3x4\ntree\nE\nC\n",
        1,
        b"slicing-certificate 2\nblocks 1\ncost 12\nbound 12\nplan 0:3x4\ntree\nE\nC f\n",
    ),
    (
        b"slicing-certificate 2\nblocks 2\ncost none\nbound 0\nplan none\ntree\nE\nS 0\nC a\nC r\nS 1\nC p\nS 0\nC h\nS 0\nC f\nO\n",
        2,
        b"slicing-certificate 2\nblocks 2\ncost none\nbound 0\nplan none\ntree\nE\nS 0\nC a\nC r\nS 1\nC p\nS 0\nC h\nS 0\nC f\nO\n",
    ),
    (
        b"slicing-certificate 3\nblocks 3\ncost none\nbound 0\nplan none\nacross 2\n3 5 2 7 0\n1 4 2\nupward 1\n0 9 1\ntree\nO\n",
        3,
        b"slicing-certificate 3\nblocks 3\ncost none\nbound 0\nplan none\nacross 2\n3 5 2 7 0\n1 4 2\nupward 1\n0 9 1\ntree\nO\n",
    ),
    (
        b"slicing-certificate 3\nblocks 2\ncost none\nbound 0\nplan none\nacross 0\nupward 0\ntree\nC f\n",
        2,
        b"slicing-certificate 2\nblocks 2\ncost none\nbound 0\nplan none\ntree\nC f\n",
    ),
];

/// Whether a text of so many blocks is read, and written so.
fn is_written(alloc: Global, text: &[u8], blocks: u16, wanted: &[u8]) -> Result<bool, CertFault> {
    if blocks == 0 || blocks > 320 {
        return Ok(false);
    }
    let cert = read(alloc, text, blocks)?;
    Ok(write(alloc, &cert)?.as_slice() == wanted)
}

/// Texts are written as they were read, in the first version that says all.
#[test]
fn written_as_read(rt: HostRuntime) {
    for (text, blocks, wanted) in TEXTS {
        assert!(rt;
            is_written(rt.alloc(), text, blocks, wanted) == Ok(true),
            "{text:?}"
        );
    }
}

/// Texts of two blocks, each with the first of its faults.
const FAULTS: [(&[u8], CertFault); 22] = [
    (
        b"slicing-certificate 1\nblocks 2\ncost 12\nbound 12\nplan 0:2x3 1:2x3 *\ntree\nE\nE\n",
        CertFault::Truncated(8),
    ),
    (
        b"slicing-certificate 1\nblocks 2\ncost 12\nbound 12\nplan 0:2x3 1:2x3 *\ntree\nE E E C C C\nC\n",
        CertFault::Trailing(8),
    ),
    (
        b"slicing-certificate 1\nblocks 2\ncost 12\nbound 12\nplan 0:2x3 1:2x3 *\ntree\nX\n",
        CertFault::BadTag(7),
    ),
    (
        b"slicing-certificate 1\nblocks 2\ncost none\nbound 12\nplan 0:2x3 1:2x3 *\ntree\nO\n",
        CertFault::BadHeader(5),
    ),
    (
        b"slicing-certificate 1\nblocks 2\ncost 012\nbound 12\nplan none\ntree\nO\n",
        CertFault::BadHeader(3),
    ),
    (
        b"slicing-certificate 1\n blocks  2\ncost none\nbound 12\nplan none\n",
        CertFault::BadHeader(5),
    ),
    // No fourth version, and no zeros in front of the second.
    (
        b"slicing-certificate 4\nblocks 2\ncost none\nbound 12\nplan none\ntree\nO\n",
        CertFault::BadHeader(1),
    ),
    (
        b"slicing-certificate 02\nblocks 2\ncost none\nbound 12\nplan none\ntree\nO\n",
        CertFault::BadHeader(1),
    ),
    // A letter is a word like any other in the first version.
    (
        b"slicing-certificate 1\nblocks 2\ncost none\nbound 12\nplan none\ntree\nE\nC\na O\n",
        CertFault::BadTag(9),
    ),
    (
        b"slicing-certificate 1\nblocks 2\ncost none\nbound 12\nplan none\ntree\nC\na\n",
        CertFault::Trailing(8),
    ),
    // In the second one it belongs to the C, whose line is named.
    (
        b"slicing-certificate 2\nblocks 2\ncost none\nbound 12\nplan none\ntree\nE\nC\nx O\n",
        CertFault::BadTag(8),
    ),
    (
        b"slicing-certificate 2\nblocks 2\ncost none\nbound 12\nplan none\ntree\nE\nC\nC a\n",
        CertFault::BadTag(8),
    ),
    (
        b"slicing-certificate 2\nblocks 2\ncost none\nbound 12\nplan none\ntree\nE C\na\nC\n",
        CertFault::Truncated(9),
    ),
    (
        b"slicing-certificate 2\nblocks 2\ncost none\nbound 12\nplan none\ntree\nC a\nC\n",
        CertFault::Trailing(8),
    ),
    // The third one has paths, or says that there are none.
    (
        b"slicing-certificate 3\nblocks 2\ncost none\nbound 0\nplan none\ntree\nO\n",
        CertFault::BadHeader(6),
    ),
    (
        b"slicing-certificate 2\nblocks 2\ncost none\nbound 0\nplan none\nacross 0\nupward 0\ntree\nO\n",
        CertFault::BadHeader(6),
    ),
    // An even number of numbers, too few, a block and a net past their limits.
    (
        b"slicing-certificate 3\nblocks 2\ncost none\nbound 0\nplan none\nacross 1\n0 1 1 2\nupward 0\ntree\nO\n",
        CertFault::BadHeader(7),
    ),
    (
        b"slicing-certificate 3\nblocks 2\ncost none\nbound 0\nplan none\nacross 1\n0\nupward 0\ntree\nO\n",
        CertFault::BadHeader(7),
    ),
    (
        b"slicing-certificate 3\nblocks 2\ncost none\nbound 0\nplan none\nacross 0\nupward 1\n0 1 65536 2 1\ntree\nO\n",
        CertFault::BadHeader(8),
    ),
    (
        b"slicing-certificate 3\nblocks 2\ncost none\nbound 0\nplan none\nacross 1\n0 4294967296 1\nupward 0\ntree\nO\n",
        CertFault::BadHeader(7),
    ),
    // Fewer paths than are told, and a text that breaks off among them.
    (
        b"slicing-certificate 3\nblocks 2\ncost none\nbound 0\nplan none\nacross 2\n0 1 1\nupward 0\ntree\nO\n",
        CertFault::BadHeader(8),
    ),
    (
        b"slicing-certificate 3\nblocks 2\ncost none\nbound 0\nplan none\nacross 2\n0 1 1\n",
        CertFault::BadHeader(7),
    ),
];

/// The fault of a text of two blocks.
fn fault_of(alloc: Global, text: &[u8]) -> Option<CertFault> {
    read(alloc, text, 2).err()
}

/// Of several faults the first is told, with its line.
#[test]
fn finds_the_first_fault(rt: HostRuntime) {
    for (text, fault) in FAULTS {
        assert!(rt; fault_of(rt.alloc(), text) == Some(fault), "{text:?}");
    }
}
