//! Each call of the outside once, with memory enough; the shelf and the sink of the host against files and
//! the standard output; and files that interrupt their calls or take little of each.

ghost use Rattle.std.specs.Prelude.{◌≤◌, IfOk};

use sf_io::{
    Failed, Gate, HostShelf, HostSink, LoadFault, MemShelf, MemSink, NeverShelf, NeverSink,
    OpenGate, PartShelf, PartSink, Shelf, Sink, Status, read_some, write_all, write_some,
    write_whole,
};
use std::alloc::{AllocError, Global};
use std::io::{self, ErrorKind, Read, Write};
use std::{env, fs, process};

/// Whether a load came to this text or this fault.
fn is_load(answer: Result<Vec<u8>, LoadFault>, wanted: Result<&[u8], LoadFault>) -> bool {
    match answer {
        Ok(bytes) => wanted == Ok(bytes.as_slice()),
        Err(met) => wanted == Err(met),
    }
}

/// Loads of a shelf in memory by name and limit, and what they come to where the third call fails.
const LOADS: [(&str, u64, Result<&[u8], LoadFault>); 4] = [
    ("a", 5, Ok(b"hello")),
    ("a", 4, Err(LoadFault::TooLong)),
    ("a", 5, Err(LoadFault::Failed)),
    ("b", 5, Err(LoadFault::Failed)),
];

/// Whether the loads come to that, and of two stores behind them only the first is done.
fn third_and_sixth_fail(alloc: Global) -> Result<bool, AllocError> {
    let mut shelf = MemShelf::new(alloc, [3, 6].to_vec(alloc)?);
    shelf.add("a", b"first")?;
    shelf.add("a", b"hello")?;
    for (name, limit, wanted) in LOADS {
        if !is_load(shelf.load(name, limit), wanted) {
            return Ok(false);
        }
    }
    let stores = [shelf.store("b", b"new"), shelf.store("b", b"newer")];
    Ok(
        stores == [Ok(()), Err(Failed)]
            && shelf.bytes("b") == Some(b"new".as_slice())
            && shelf.bytes("c").is_none(),
    )
}

/// Whether a sink in memory whose second call fails takes the first text and the third.
fn second_fails(alloc: Global) -> Result<bool, AllocError> {
    let mut sink = MemSink::new(alloc, [2].to_vec(alloc)?);
    let answers = [
        write_all(&mut sink, b"one"),
        write_all(&mut sink, b"two"),
        write_all(&mut sink, b"three"),
    ];
    Ok(answers == [Ok(()), Err(Failed), Ok(())] && sink.bytes() == b"onethree".as_slice())
}

/// A shelf and a sink in memory, of which given calls fail.
#[test]
fn memory(rt: HostRuntime) {
    assert!(rt; third_and_sixth_fail(rt.alloc()) == Ok(true));
    assert!(rt; second_fails(rt.alloc()) == Ok(true));
}

/// Whether a shelf of parts keeps the first text whole, and the first half of the second.
fn halves_the_second(alloc: Global) -> bool {
    let mut shelf = PartShelf::new(MemShelf::new(alloc, Vec::new(alloc)), 1);
    let stores = [shelf.store("a", b"whole"), shelf.store("b", b"halves")];
    stores == [Ok(()), Err(Failed)]
        && shelf.bytes("a") == Some(b"whole".as_slice())
        && shelf.bytes("b") == Some(b"hal".as_slice())
        && is_load(shelf.load("b", 3), Ok(b"hal"))
}

/// Whether a sink with room for five bytes takes three of four, and no more than five in all.
fn takes_five(alloc: Global) -> bool {
    let mut sink = PartSink::new(alloc, 5);
    sink.put(b"abcd") == Ok(3)
        && write_all(&mut sink, b"d") == Ok(())
        && write_all(&mut sink, b"efgh") == Err(Failed)
        && sink.bytes() == b"abcde".as_slice()
}

/// Only the first store is whole, and only five bytes are taken.
#[test]
fn parts(rt: HostRuntime) {
    assert!(rt; halves_the_second(rt.alloc()));
    assert!(rt; takes_five(rt.alloc()));
}

/// Texts of which two have the same name.
fn texts(alloc: Global) -> Result<Vec<(String, Vec<u8>)>, AllocError> {
    let mut texts = Vec::new(alloc);
    for (name, text) in [("a", "first"), ("b", "other"), ("a", "second")] {
        texts.push((
            String::from_str(alloc, name)?,
            text.as_bytes().to_vec(alloc)?,
        ))?;
    }
    Ok(texts)
}

/// Whether a shelf that never fails holds these texts, and none under another name to which one was stored.
fn holds_texts(alloc: Global) -> Result<bool, AllocError> {
    let mut shelf = NeverShelf::new(alloc, texts(alloc)?);
    let mut holds = shelf.store("c", b"kept") == Ok(());
    for (name, text) in [("a", "first"), ("b", "other"), ("c", "")] {
        holds = holds && is_load(shelf.load(name, 5), Ok(text.as_bytes()));
    }
    Ok(holds && is_load(shelf.load("a", 4), Err(LoadFault::TooLong)))
}

/// A shelf and a sink that never fail.
#[test]
fn never(rt: HostRuntime) {
    assert!(rt; holds_texts(rt.alloc()) == Ok(true));
    assert!(rt; write_all(&mut NeverSink, b"text") == Ok(()));
    OpenGate.at(0, 0);
}

/// A name for a file of this process.
fn file_name(rt: HostRuntime) -> io::Result<String> {
    let folder = env::temp_dir(&rt)?;
    Ok(format!(in rt.alloc(); "{}/sf_io-{}", folder.display(), process::id(rt.process()))?)
}

/// A text of many pieces.
fn long_text(alloc: Global) -> Result<Vec<u8>, AllocError> {
    let mut text = Vec::new(alloc);
    for number in 0..40_000u32 {
        text.push((number % 251) as u8)?;
    }
    Ok(text)
}

/// Whether a file holds the long text, and then a shorter one.
fn holds_both(shelf: &mut HostShelf<HostRuntime>, name: &str, long: &[u8]) -> bool {
    shelf.store(name, long) == Ok(())
        && is_load(shelf.load(name, 40_000), Ok(long))
        && is_load(shelf.load(name, 39_999), Err(LoadFault::TooLong))
        && shelf.store(name, b"short") == Ok(())
        && is_load(shelf.load(name, 40_000), Ok(b"short"))
}

/// The same, and that nothing is loaded once the file is gone.
fn holds_until_removed(rt: HostRuntime) -> io::Result<bool> {
    let name = file_name(rt)?;
    let long = long_text(rt.alloc())?;
    let mut shelf = HostShelf::new(rt, rt.alloc());
    let holds = holds_both(&mut shelf, name.as_str(), &long);
    fs::remove_file(&rt, name.as_str())?;
    Ok(holds && is_load(shelf.load(name.as_str(), 5), Err(LoadFault::Failed)))
}

/// Whether a file without an end is too long, and a full one takes nothing.
fn devices_answer(rt: HostRuntime) -> bool {
    let mut shelf = HostShelf::new(rt, rt.alloc());
    is_load(shelf.load("/dev/zero", 100_000), Err(LoadFault::TooLong))
        && shelf.store("/dev/full", b"text") == Err(Failed)
}

/// A shelf of files.
#[test]
fn host_shelf(rt: HostRuntime) {
    assert!(rt; matches!(holds_until_removed(rt), Ok(true)));
    assert!(rt; devices_answer(rt));
}

/// The exit status of the process is the number of its status.
#[test]
fn statuses(rt: HostRuntime) {
    let named = [
        Status::Done,
        Status::NoneFits,
        Status::Usage,
        Status::Open,
        Status::No,
        Status::BadInput,
        Status::OverLimit,
        Status::ReadFault,
        Status::WriteFault,
        Status::NoMemory,
    ];
    for (number, status) in named.iter().enumerate() {
        assert!(rt; *status as usize == number, "{status:?}");
    }
}

/// Whether the standard output takes nothing and a line.
fn output_takes(rt: HostRuntime) -> bool {
    let mut sink = HostSink::new(rt);
    sink.put(b"") == Ok(0) && write_all(&mut sink, b"a line of the sink\n") == Ok(())
}

/// The standard output, where it takes all.
#[test]
fn host_sink(rt: HostRuntime) {
    assert!(rt; output_takes(rt));
}

/// A file whose first calls fail, each by this kind, and which then gives and takes one byte a call.
#[derive(Drop)]
struct Slow {
    failing: u8,
    kind: ErrorKind,
}

impl Slow {
    /// What the next call does: it fails, or it gives or takes one byte.
    fn one(&mut self, bytes: usize) -> io::Result<usize>
        ensures { IfOk result (λ n. n ≤ bytes) }
    {
        if self.failing > 0 {
            self.failing -= 1;
            return Err(io::Error::from(self.kind));
        }
        Ok(bytes.min(1))
    }
}

impl Read for Slow {
    fn read(&mut self, piece: &mut [u8]) -> io::Result<usize> {
        self.one(piece.len())
    }
}

impl Write for Slow {
    fn write(&mut self, bytes: &[u8]) -> io::Result<usize> {
        self.one(bytes.len())
    }

    fn flush(&mut self) -> io::Result<()> {
        Ok(())
    }
}

/// What a read and a write answer, each by a file whose first calls fail.
fn read_and_written(
    failing: u8,
    kind: ErrorKind,
    piece: &mut [u8],
    bytes: &[u8],
) -> [Result<usize, Failed>; 2] {
    [
        read_some(&mut Slow { failing, kind }, piece),
        write_some(&mut Slow { failing, kind }, bytes),
    ]
}

/// An interrupted call is tried again, and any other fault is told.
#[test]
fn interrupted_calls(rt: HostRuntime) {
    for (kind, answer) in [
        (ErrorKind::Interrupted, Ok(1)),
        (ErrorKind::TimedOut, Err(Failed)),
    ] {
        assert!(rt; read_and_written(3, kind, &mut [0; 4], b"text") == [answer, answer]);
    }
    assert!(rt; read_and_written(0, ErrorKind::Interrupted, &mut [], b"") == [Ok(0), Ok(0)]);
}

/// A file that takes one byte a call, and keeps it.
#[derive(Drop)]
struct Kept {
    bytes: Vec<u8>,
}

impl Write for Kept {
    fn write(&mut self, bytes: &[u8]) -> io::Result<usize> {
        let Some(first) = bytes.first() else {
            return Ok(0);
        };
        match self.bytes.push(*first) {
            Ok(()) => Ok(1),
            Err(_) => Err(io::Error::from(ErrorKind::OutOfMemory)),
        }
    }

    fn flush(&mut self) -> io::Result<()> {
        Ok(())
    }
}

/// Whether a file that takes one byte a call keeps a whole text.
fn keeps_all(alloc: Global) -> bool {
    let mut file = Kept {
        bytes: Vec::new(alloc),
    };
    write_whole(&mut file, b"text") == Ok(()) && file.bytes.as_slice() == b"text".as_slice()
}

/// A write that took a part is followed by the rest.
#[test]
fn writes_in_parts(rt: HostRuntime) {
    assert!(rt; keeps_all(rt.alloc()));
}
