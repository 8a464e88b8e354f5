//! How far a search is, told in one line on the standard error that is written again and again, and taken
//! away before anything is printed.

use sf_io::{Failed, Gate, Sink};
use std::sync::atomic::{AtomicBool, AtomicU64, Ordering};

/// The decisions of a worker are counted in groups of so many.
const GROUP: u64 = 64;

/// The line is written each time so many more decisions are counted.
const STRIDE: u64 = 65_536;

/// Takes away what stands in the terminal's line.
const CLEAR: &str = "\r\u{1b}[K";

/// A gate that counts the decisions of all workers together and tells their number. Of a worker whole
/// groups are counted, in each round anew where there are rounds; a rest that fills no group is not, nor is
/// a decision between two rounds.
#[derive(Drop)]
pub struct Progress<R: Eprint + Drop> {
    rt: R,
    budget: Option<u64>,
    counted: AtomicU64,
    is_shown: AtomicBool,
}

impl<R: Eprint + Drop> Progress<R> {
    /// Nothing is counted yet. The budget is told too, where it is known.
    pub fn new(rt: R, budget: Option<u64>) -> Self {
        Progress {
            rt,
            budget,
            counted: AtomicU64::new(0),
            is_shown: AtomicBool::new(false),
        }
    }

    /// Takes the line away, where one is shown.
    pub fn clear(&self) {
        if self.is_shown.swap(false, Ordering::SeqCst) {
            let _ = eprint!(self.rt; "{CLEAR}");
        }
    }

    /// Writes the line anew. A terminal that doesn't take it changes nothing.
    fn tell(&self, counted: u64) {
        self.is_shown.store(true, Ordering::SeqCst);
        let _ = match self.budget {
            Some(budget) => eprint!(self.rt; "{CLEAR}floorplan: {counted} of {budget} decided"),
            None => eprint!(self.rt; "{CLEAR}floorplan: {counted} decided"),
        };
    }
}

impl<R: Eprint + Sync + Drop> Gate for Progress<R> {
    fn at(&self, _worker: usize, step: u64) {
        if step % GROUP != GROUP - 1 {
            return;
        }
        let before = self.counted.fetch_add(GROUP, Ordering::SeqCst);
        let counted = before.saturating_add(GROUP);
        if counted % STRIDE == 0 {
            self.tell(counted);
        }
    }
}

/// A sink before whose pieces the line of progress is taken away.
#[derive(Drop)]
pub struct AfterProgress<'a, K: Sink + Drop, R: Eprint + Drop> {
    sink: K,
    progress: &'a Progress<R>,
}

impl<'a, K: Sink + Drop, R: Eprint + Drop> AfterProgress<'a, K, R> {
    /// What is put goes to this sink.
    pub fn new(sink: K, progress: &'a Progress<R>) -> Self {
        AfterProgress { sink, progress }
    }
}

impl<'a, K: Sink + Drop, R: Eprint + Drop> Sink for AfterProgress<'a, K, R> {
    ghost seen = { λ s. K.seen s.sink };

    fn put(&mut self, piece: &[u8]) -> Result<usize, Failed> {
        self.progress.clear();
        self.sink.put(piece)
    }
}
