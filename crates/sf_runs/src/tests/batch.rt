//! Batches: what is printed of jobs that end in several ways, why a batch is refused, and two jobs that are
//! done at once.

use super::texts::{EQUALS, ONE};
use super::{Text, only, shelf_of, words_of};
use sf_batch::run_batch;
use sf_io::{Gate, MemSink, OpenGate, Status};
use std::alloc::Global;
use std::sync::atomic::{AtomicBool, AtomicU64, Ordering};
use std::sync::{Arc, Wait};
use std::test::Fail;
use std::thread;
use std::thread::Threads;

/// The words of a batch, its jobs, and what it answers and prints.
const ROWS: [(&str, &[u8], Status, &str); 5] = [
    (
        "--jobs jobs --team 2",
        b"# three designs\r\na.blocks - - 0 -\nb.blocks - - 0 1\n\nzz.blocks - - 0 -\n",
        Status::ReadFault,
        "job 0 0\nstatus Optimal\ncost 12\nbound 12\ndecided 2\nsize 3 4\narea 12\nwire 0\nplan 0:3x4\njob 1 3\nstatus Open\ncost none\nbound 12\ndecided 1\nsize none\narea none\nwire none\nplan none\njob 2 7\n",
    ),
    ("--jobs jobs --team 2", b"", Status::Done, ""),
    ("--jobs none --team 2", b"", Status::ReadFault, ""),
    ("--team 2 --jobs jobs", b"", Status::Usage, "error Usage\n"),
    (
        "--jobs jobs --team 2",
        b"-b - - 0 -\na.blocks - - 0\n",
        Status::BadInput,
        "error BadInput jobs 2 BadLine\n",
    ),
];

/// How often a held search looks for another one.
const TURNS: u64 = 100_000_000;

/// Holds the first decision of a search until that of another one is at the gate.
#[derive(Drop)]
struct Meeting {
    came: AtomicU64,
    turns_ran_out: AtomicBool,
}

impl Gate for Meeting {
    fn at(&self, _worker: usize, step: u64) {
        if step > 0 {
            return;
        }
        self.came.fetch_add(1, Ordering::SeqCst);
        for _ in 0..TURNS {
            if self.came.load(Ordering::SeqCst) >= 2 {
                return;
            }
            thread::yield_now();
        }
        self.turns_ran_out.store(true, Ordering::SeqCst);
    }
}

/// What a batch over these files answers and prints.
fn batch_answer<R: Threads + Wait + Sync + Copy + Send + 'static>(
    rt: &R,
    alloc: Global,
    words: &str,
    files: &[Text],
    gate: Arc<impl Gate + Drop + Send + 'static>,
) -> Result<(Status, String), Fail> {
    let words = words_of(alloc, &[words])?;
    let mut shelf = shelf_of(alloc, files, 0)?;
    let mut out = MemSink::new(alloc, only(alloc, 0)?);
    let status = run_batch(rt, alloc, &words, &mut shelf, &mut out, gate);
    let printed = str::from_utf8(out.bytes())?;
    Ok((status, String::from_str(alloc, printed)?))
}

/// Whether a batch of these jobs answers and prints this.
fn is_told<R: Threads + Wait + Sync + Copy + Send + 'static>(
    rt: &R,
    alloc: Global,
    words: &str,
    jobs: &'static [u8],
    status: Status,
    printed: &str,
) -> Result<bool, Fail> {
    let files = [("jobs", jobs), ("a.blocks", ONE), ("b.blocks", EQUALS)];
    let gate = Arc::new(alloc, OpenGate)?;
    let answer = batch_answer(rt, alloc, words, &files, gate)?;
    Ok(answer.0 == status && answer.1.as_str() == printed)
}

#[test]
fn batches_are_told_in_order(rt: HostRuntime) -> Result<(), Fail> {
    for (words, jobs, status, printed) in ROWS {
        assert!(rt;
            is_told(&rt, rt.alloc(), words, jobs, status, printed)?,
            "{words}"
        );
    }
    Ok(())
}

#[test]
fn two_jobs_are_done_at_once(rt: HostRuntime) -> Result<(), Fail> {
    let alloc = rt.alloc();
    let jobs = b"b.blocks - - 0 -\nb.blocks - - 0 -\n".as_slice();
    let gate = Arc::new(
        alloc,
        Meeting {
            came: AtomicU64::new(0),
            turns_ran_out: AtomicBool::new(false),
        },
    )?;
    let files = [("jobs", jobs), ("b.blocks", EQUALS)];
    let theirs = Arc::try_clone(&gate)?;
    let (status, _) = batch_answer(&rt, alloc, "--jobs jobs --team 2", &files, theirs)?;
    let came = gate.came.load(Ordering::SeqCst);
    let ran_out = gate.turns_ran_out.load(Ordering::SeqCst);
    assert!(rt;
        status == Status::Done && came == 2 && !ran_out,
        "{came} came"
    );
    Ok(())
}
