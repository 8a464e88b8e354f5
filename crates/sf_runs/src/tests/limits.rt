//! Texts past the limits of pads, nets, pins and files, which lines by the thousand make.

use super::{PLAN_WORDS, PLAN_YAL, Printed, comes_to};
use sf_io::{MemShelf, Status};
use std::alloc::{AllocError, Global};
use std::test::Fail;
use std::thread::Threads;

/// A text of these first lines and of one line that stands so often, and what is printed where it is read.
struct Past {
    options: &'static str,
    file: &'static str,
    head: &'static str,
    line: &'static str,
    count: u64,
    printed: &'static str,
}

const BLOCK: &[u8] = b"UCSC blocks 1.0
NumSoftRectangularBlocks : 0
NumHardRectilinearBlocks : 1
NumTerminals : 0
b0 hardrectilinear 4 (0, 0) (0, 2) (2, 2) (2, 0)
";

const PAST: &[Past] = &[
    Past {
        options: "",
        file: "a.blocks",
        head: "UCSC blocks 1.0\nNumSoftRectangularBlocks : 0\nNumHardRectilinearBlocks : 1\nNumTerminals : 16385\nb0 hardrectilinear 2 (0, 0) (2, 2)\n",
        line: "p terminal\n",
        count: 16_385,
        printed: "error OverLimit pads 16385 16384\n",
    },
    Past {
        options: "--nets a.nets",
        file: "a.nets",
        head: "UCLA nets 1.0\nNumNets : 65537\n",
        line: "NetDegree : 0\n",
        count: 65_537,
        printed: "error OverLimit nets 65537 65536\n",
    },
];

/// A net with one pin too many. A pin that is named again counts again.
const PINS: Past = Past {
    options: "--nets a.nets",
    file: "a.nets",
    head: "UCLA nets 1.0\nNumNets : 1\nNumPins : 1048577\nNetDegree : 1048577\n",
    line: "b0 B\n",
    count: 1_048_577,
    printed: "error OverLimit pins 1048577 1048576\n",
};

/// The first lines, and then the line as often as it stands.
fn text_of(alloc: Global, past: &Past) -> Result<String, AllocError> {
    let mut text = String::from_str(alloc, past.head)?;
    for _ in 0..past.count {
        text.push_str(past.line)?;
    }
    Ok(text)
}

/// Whether a search over the text is refused.
fn is_past(rt: &(impl Threads + Sync), alloc: Global, past: &Past) -> Result<bool, Fail> {
    let mut shelf = MemShelf::new(alloc, Vec::new(alloc));
    shelf.add("a.blocks", BLOCK)?;
    shelf.add(past.file, text_of(alloc, past)?.as_bytes())?;
    let words = [PLAN_WORDS, past.options];
    let printed = Printed::Whole(past.printed);
    comes_to(rt, alloc, &mut shelf, &words, Status::OverLimit, printed)
}

#[test]
fn past_each_limit(rt: HostRuntime) -> Result<(), Fail> {
    for past in PAST {
        assert!(rt; is_past(&rt, rt.alloc(), past)?, "{}", past.printed);
    }
    Ok(())
}

#[test]
fn past_the_limit_of_pins(rt: HostRuntime) -> Result<(), Fail> {
    assert!(rt; is_past(&rt, rt.alloc(), &PINS)?);
    Ok(())
}

/// Whether a file of so many bytes is refused.
fn is_too_long(
    rt: &(impl Threads + Sync),
    alloc: Global,
    bytes: usize,
    printed: &'static str,
) -> Result<bool, Fail> {
    let mut shelf = MemShelf::new(alloc, Vec::new(alloc));
    shelf.add("a.yal", &Vec::from_elem(alloc, b' ', bytes)?)?;
    let printed = Printed::Whole(printed);
    comes_to(
        rt,
        alloc,
        &mut shelf,
        &[PLAN_YAL.command],
        Status::OverLimit,
        printed,
    )
}

/// A file of one byte more than 64 MiB.
#[test]
fn past_the_limit_of_files(rt: HostRuntime) -> Result<(), Fail> {
    let line = "error OverLimit file 67108865 67108864\n";
    assert!(rt; is_too_long(&rt, rt.alloc(), 67_108_865, line)?);
    Ok(())
}
