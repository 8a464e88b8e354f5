//! The greatest number of blocks: 320 blocks 10x10 in files with comments and CR LF, and one more.

use super::{PLAN_WIRED, Printed, answer, comes_to, words_of};
use sf_io::{MemShelf, Status};
use std::alloc::{AllocError, Global};
use std::test::Fail;
use std::thread::Threads;

const NETS: &[u8] =
    b"UCLA nets 1.0\r\n# a comment\r\nNumNets : 1\r\nNumPins : 2\r\nNetDegree : 2 n0\r\nb0 B : %10.0 %10.0\r\np0 B\r\n";

const PLACES: &[u8] = b"UCLA pl 1.0\r\n# a comment\r\np0 0 0 : N\r\nb0 0 0 : N\r\n";

/// So many blocks 10x10 and a pad.
fn blocks_text(alloc: Global, count: u64) -> Result<String, AllocError> {
    let mut text = format!(in alloc;
        "UCSC blocks 1.0\r\n# a comment\r\n  # another\r\nNumSoftRectangularBlocks : 0\r\nNumHardRectilinearBlocks : {count}\r\nNumTerminals : 1\r\n"
    )?;
    for i in 0..count {
        let line = format!(in alloc; "b{i} hardrectilinear 4 (0, 0) (0, 10) (10, 10) (10, 0)\r\n")?;
        text.push_str(line.as_str())?;
    }
    text.push_str("p0 terminal\r\n")?;
    Ok(text)
}

/// A shelf with so many blocks, a net of the first and the pad, and their places.
fn shelf(alloc: Global, count: u64) -> Result<MemShelf, Fail> {
    let mut shelf = MemShelf::new(alloc, Vec::new(alloc));
    shelf.add("a.blocks", blocks_text(alloc, count)?.as_bytes())?;
    shelf.add("a.nets", NETS)?;
    shelf.add("a.pl", PLACES)?;
    Ok(shelf)
}

/// The plan that sets one block after another beside those before it.
fn chain(alloc: Global, count: u64) -> Result<String, AllocError> {
    let mut text = String::from_str(alloc, "0:10x10")?;
    for i in 1..count {
        let more = format!(in alloc; " {i}:10x10 *")?;
        text.push_str(more.as_str())?;
    }
    Ok(text)
}

/// So many nets of the first two blocks.
fn nets_text(alloc: Global, count: u64) -> Result<String, AllocError> {
    let pins = count.saturating_mul(2);
    let mut text = format!(in alloc; "UCLA nets 1.0\nNumNets : {count}\nNumPins : {pins}\n")?;
    for _ in 0..count {
        text.push_str("NetDegree : 2\nb0 B\nb1 B\n")?;
    }
    Ok(text)
}

/// How often the text has this line.
fn count_lines(text: &str, wanted: &str) -> u64 {
    let mut count = 0u64;
    for line in text.lines() {
        if line == wanted {
            count = count.saturating_add(1);
        }
    }
    count
}

/// Whether a search with these options comes to this status, and prints this.
fn plans_to(
    rt: &(impl Threads + Sync),
    alloc: Global,
    shelf: &mut MemShelf,
    options: &'static str,
    status: Status,
    printed: Printed,
) -> Result<bool, Fail> {
    let words = [PLAN_WIRED.command, options];
    comes_to(rt, alloc, shelf, &words, status, printed)
}

/// What is printed of the plan of so many blocks in a chain.
fn chain_report(alloc: Global, count: u64) -> Result<String, AllocError> {
    let chain = chain(alloc, count)?;
    format!(in alloc;
        "status Optimal\ncost 32000\nbound 32000\ndecided 1926\nsize 3200 10\narea 32000\nwire 20\nplan {chain}\n"
    )
}

/// What its certificate begins with.
fn chain_head(alloc: Global, count: u64) -> Result<String, AllocError> {
    let chain = chain(alloc, count)?;
    format!(in alloc;
        "slicing-certificate 2\nblocks {count}\ncost 32000\nbound 32000\nplan {chain}\ntree\n"
    )
}

/// How often the certificate's tree is extended, closed and open, and how many lines it has, where it begins so.
fn tree_counts(cert: &str, head: &str) -> Option<[u64; 4]> {
    if !cert.starts_with(head) {
        return None;
    }
    let lines = cert.lines().count() as u64;
    Some([
        count_lines(cert, "E"),
        count_lines(cert, "C a"),
        count_lines(cert, "O"),
        lines,
    ])
}

/// The same of the certificate that is stored with the plan of 320 blocks, where its report is printed.
fn chain_counts(rt: &(impl Threads + Sync), alloc: Global) -> Result<Option<[u64; 4]>, Fail> {
    let mut shelf = shelf(alloc, 320)?;
    let words = words_of(alloc, &[PLAN_WIRED.command])?;
    let (status, printed) = answer(rt, alloc, &words, &mut shelf, 0)?;
    if status != Status::Done || printed.as_str() != chain_report(alloc, 320)?.as_str() {
        return Ok(None);
    }
    let cert = str::from_utf8(shelf.bytes("a.cert").unwrap_or(b""))?;
    Ok(tree_counts(cert, chain_head(alloc, 320)?.as_str()))
}

#[test]
fn a_chain(rt: HostRuntime) -> Result<(), Fail> {
    let lines = 6 + 639 + 1287 + 100_794;
    assert!(rt; chain_counts(&rt, rt.alloc())? == Some([639, 1287, 100_794, lines]));
    Ok(())
}

/// The first plan takes 640 decisions: the root, and one for each block and each operator.
#[test]
fn the_first_plan(rt: HostRuntime) -> Result<(), Fail> {
    let alloc = rt.alloc();
    let mut shelf = shelf(alloc, 320)?;
    let none = Printed::Lines("status Open\ncost none\nplan none");
    assert!(rt; plans_to(&rt, alloc, &mut shelf, "--nodes 639", Status::Open, none)?);
    let first = Printed::Lines("cost 32000\nbound 32000\ndecided 640");
    assert!(rt; plans_to(&rt, alloc, &mut shelf, "--nodes 640", Status::Done, first)?);
    Ok(())
}

/// Whether a search of so many blocks is refused with this line, and stores nothing.
fn is_past(
    rt: &(impl Threads + Sync),
    alloc: Global,
    count: u64,
    options: &'static str,
    line: &'static str,
) -> Result<bool, Fail> {
    let mut shelf = shelf(alloc, count)?;
    let printed = Printed::Whole(line);
    let is_told = plans_to(rt, alloc, &mut shelf, options, Status::OverLimit, printed)?;
    Ok(is_told && shelf.bytes("a.cert").is_none())
}

#[test]
fn past_the_limits(rt: HostRuntime) -> Result<(), Fail> {
    let nodes = "error OverLimit nodes 1927 1926\n";
    assert!(rt; is_past(&rt, rt.alloc(), 320, "--nodes 1927", nodes)?);
    let blocks = "error OverLimit blocks 321 320\n";
    assert!(rt; is_past(&rt, rt.alloc(), 321, "", blocks)?);
    Ok(())
}

const RESUME: &str =
    "resume --format gsrc --blocks a.blocks --nets a.nets --pl a.pl --cert a.cert --cert-out b.cert --nodes 1";

/// A certificate that decides as many subproblems as the limit allows is gone on from by a long search alone.
#[test]
fn past_a_certificate(rt: HostRuntime) -> Result<(), Fail> {
    let alloc = rt.alloc();
    let mut shelf = shelf(alloc, 320)?;
    let planned = Printed::Lines("decided 1926");
    assert!(rt; plans_to(&rt, alloc, &mut shelf, "", Status::Done, planned)?);
    let past = Printed::Whole("error OverLimit nodes 1927 1926\n");
    assert!(rt; comes_to(&rt, alloc, &mut shelf, &[RESUME], Status::OverLimit, past)?);
    assert!(rt; shelf.bytes("b.cert").is_none());
    let lines = Printed::Lines("cost 32000\nbound 32000\ndecided 1927");
    assert!(rt;
        comes_to(
            &rt,
            alloc,
            &mut shelf,
            &[RESUME, "--long"],
            Status::Done,
            lines
        )?
    );
    Ok(())
}

/// Whether the first decision over 320 blocks and so many nets has this bound.
fn has_bound(
    rt: &(impl Threads + Sync),
    alloc: Global,
    nets: u64,
    bound: &'static str,
) -> Result<bool, Fail> {
    let mut shelf = shelf(alloc, 320)?;
    shelf.add("a.nets", nets_text(alloc, nets)?.as_bytes())?;
    let printed = Printed::Lines(bound);
    plans_to(
        rt,
        alloc,
        &mut shelf,
        "--wire-weight 1 --nodes 1",
        Status::Open,
        printed,
    )
}

/// Rows are kept of 1,500 nets of 320 blocks, and not of 1,600. Each block has the area 100, and the middles
/// of the two blocks of a net are 10 apart at least, which is 20 in doubled coordinates.
#[test]
fn nets_with_rows_and_without(rt: HostRuntime) -> Result<(), Fail> {
    assert!(rt; has_bound(&rt, rt.alloc(), 1500, "bound 62000")?);
    assert!(rt; has_bound(&rt, rt.alloc(), 1600, "bound 64000")?);
    Ok(())
}
