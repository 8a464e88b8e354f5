//! Paths that a design takes, and the first of those that it refuses.

use crate::paths::{ABOVE, ALONG, Written, chain, paths_of};
use sf_model::{PathFault, Pin};
use std::alloc::{AllocError, Global};
use std::test::Fail;

/// From pad 0 to the first block and back, by the net of weight 2.
const BACK: Written = (Pin::Pad(0), &[(0, Pin::Block(0)), (0, Pin::Pad(0))]);

/// From pad 2 over the first block to pad 0: no way across, and downward.
const BELOW: Written = (Pin::Pad(2), &[(4, Pin::Block(0)), (0, Pin::Pad(0))]);

/// From pad 1 over the last block and the first one to pad 0: from right to left.
const LEFT: Written = (
    Pin::Pad(1),
    &[(3, Pin::Block(2)), (5, Pin::Block(0)), (0, Pin::Pad(0))],
);

/// Along the chain, but between its first two blocks to and fro.
const TO_AND_FRO: Written = (
    Pin::Pad(0),
    &[
        (0, Pin::Block(0)),
        (1, Pin::Block(1)),
        (1, Pin::Block(0)),
        (4, Pin::Pad(2)),
    ],
);

/// From pad 2 to pad 1, by nets that have room for it, but over pad 0.
const OVER_A_PAD: Written = (
    Pin::Pad(2),
    &[
        (4, Pin::Block(0)),
        (0, Pin::Pad(0)),
        (0, Pin::Block(0)),
        (5, Pin::Block(2)),
        (3, Pin::Pad(1)),
    ],
);

/// Lists of paths across and upward, with the number of the first that is refused.
const CASES: [(&[Written], &[Written], Option<usize>); 22] = [
    (&[], &[], None),
    (&[ALONG], &[ABOVE], None),
    // Ends that are equally far along.
    (&[ABOVE], &[ALONG], None),
    (&[BACK], &[BACK], None),
    (&[BELOW], &[], None),
    // Ends in the wrong order.
    (&[LEFT], &[], Some(0)),
    (&[ALONG], &[BELOW], Some(1)),
    // A net of weight 1 twice, in one path and in two.
    (&[TO_AND_FRO], &[], Some(0)),
    (&[ALONG, ALONG], &[], Some(1)),
    // One of weight 2 twice, and a third time.
    (&[ALONG, ABOVE], &[], None),
    (&[ALONG, BACK], &[], Some(1)),
    (&[ABOVE, BACK], &[], Some(1)),
    // Each axis has a count of its own, and the second one's is passed.
    (&[ALONG], &[ALONG], None),
    (&[ALONG, ABOVE], &[ALONG, ALONG], Some(3)),
    // A pin that isn't on the net, behind a step and before it.
    (
        &[(Pin::Pad(0), &[(0, Pin::Block(1)), (4, Pin::Pad(2))])],
        &[],
        Some(0),
    ),
    (
        &[],
        &[(Pin::Pad(1), &[(0, Pin::Block(0)), (4, Pin::Pad(2))])],
        Some(0),
    ),
    // A net that isn't there.
    (
        &[(Pin::Pad(0), &[(6, Pin::Block(0)), (4, Pin::Pad(2))])],
        &[],
        Some(0),
    ),
    // No end at a pad, and no beginning at one.
    (&[ALONG, (Pin::Pad(0), &[(0, Pin::Block(0))])], &[], Some(1)),
    (&[(Pin::Block(0), &[(4, Pin::Pad(2))])], &[], Some(0)),
    // Over a pad.
    (&[OVER_A_PAD], &[], Some(0)),
    // No step at all, at a pad and at a block.
    (&[(Pin::Pad(0), &[])], &[], Some(0)),
    (&[], &[ABOVE, (Pin::Block(0), &[])], Some(1)),
];

/// The number of the first of these paths that the chain refuses, if it refuses one.
fn first_wrong(
    alloc: Global,
    across: &[Written],
    upward: &[Written],
) -> Result<Option<usize>, Fail> {
    let mut design = chain(alloc)?;
    match design.set_paths(alloc, paths_of(alloc, across, upward)?) {
        Ok(()) => Ok(None),
        Err(PathFault::BadPath(number)) => Ok(Some(number)),
        Err(PathFault::NoMemory) => Err(AllocError.into()),
    }
}

/// Legal paths are taken, and of others the first is named.
#[test]
fn takes_paths_or_names_the_first_wrong_one(rt: HostRuntime) -> Result<(), Fail> {
    for (across, upward, wrong) in CASES {
        assert!(rt;
            first_wrong(rt.alloc(), across, upward)? == wrong,
            "{wrong:?}"
        );
    }
    Ok(())
}
