//! The incumbent: one word that the workers of a search share, the least cost found so far.
//!
//! A worker reads the word by one load and lowers it by one fetch-min, in any schedule. What it knows of the
//! word it carries in a `Seat`, a token of no bytes: the least value that it has seen, the least that it has
//! offered, and its parts of the right to know the whole. Seats are split off for the workers and joined
//! again after them. The crate stands on `atomic_table`, whose rule `IsWord` each step keeps: the word is the
//! least of its start and all offers. The crates above use that no answer is above what its seat has read or
//! offered before, and that whoever has all seats joined knows the word: the least of the start and all
//! offers (`finish`).
#![tactic(auto)]

ghost use Rattle.std.specs.Prelude.{◌≡◌, ◌+◌, ◌-◌, ◌<◌, ◌≤◌, [], min, IfOk};
ghost use Rattle.sf_incumbent.specs.Seen.{Word, Knows};

mod rule;

use crate::rule::{Halves, Law, Looks, Offers, Opening, View, Whole};
use atomic_table::Table;
use std::alloc::{AllocError as NoMemory, Global};
use std::marker::Model;

/// Where the word stands in its table.
const PLACE: usize = 16;

/// How many words its table has. Those before and behind it keep whatever else lies in memory and is written often
/// out of its cache lines, since each decision of each worker reads it.
const WORDS: usize = 33;

/// The word.
#[derive(Drop)]
pub struct Incumbent {
    table: Table<(), View, Opening, Law, Global>,
}

impl Model for Incumbent {
    ghost Value = { Word };

    ghost view = { λ w. record {
      id = w.table.shared.table_id;
      start = w.table.shared.key.start;
      seats = w.table.shared.key.seats;
    } };

    ghost invariant = { λ w. (w.table.shared.table_id.words ≡ 33) × (w.table.shared.table_id.slots ≡ 0) };
}

/// What one holder knows of the word: the least value that it has seen, the least that it has offered, and
/// its parts.
#[derive(Drop)]
pub struct Seat {
    seat: atomic_table::Seat<(), View>,
}

impl Model for Seat {
    ghost Value = { Knows };

    ghost view = { λ s. record {
      word = s.seat.table_id;
      seen = s.seat.me.0.seen;
      offered = s.seat.me.0.offered;
      parts = s.seat.me.0.parts;
    } };

    ghost invariant = { λ s. (0 < s.seat.me.0.parts) × (s.seat.me.1 ≡ []) };
}

impl Incumbent {
    /// The word is `start`, and the seat has all parts.
    pub fn new(alloc: Global, start: u64, seats: u16) -> Result<(Incumbent, Seat), NoMemory>
        requires { 1 ≤ seats }
        ensures word { IfOk result (λ r. (r.0.start ≡ start) × (r.0.seats ≡ seats)) }
        ensures seat { IfOk result
            (λ r. r.1 ≡ record { word = r.0.id; seen = start; offered = u64.MAX; parts = seats }) }
    {
        let mut words = [0; WORDS];
        words[PLACE] = start;
        let (table, seat) = Table::of_words(alloc, &words, &Opening { start, seats })?;
        Ok((Incumbent { table }, Seat { seat }))
    }

    /// A new seat that has seen what this one saw, has offered nothing, and takes one part from this one.
    pub fn split(&self, seat: &mut Seat) -> Seat
        requires seat { seat.old.word ≡ self.now.id }
        requires parts { 2 ≤ seat.old.parts }
        ensures one { seat.new ≡ record seat.old { parts = seat.old.parts - 1 } }
        ensures other { result
            ≡ record { word = self.now.id; seen = seat.old.seen; offered = u64.MAX; parts = 1 } }
    {
        Seat {
            seat: self.table.shared.split_seat::<Halves>(&mut seat.seat),
        }
    }

    /// One load.
    pub fn read(&self, seat: &mut Seat) -> u64
        requires { seat.old.word ≡ self.now.id }
        ensures seat { seat.new ≡ record seat.old { seen = result } }
        ensures fresh { (result ≤ seat.old.seen) × (result ≤ seat.old.offered) }
    {
        self.table.shared.load::<Looks>(&mut seat.seat, PLACE)
    }

    /// One fetch-min. The answer is the lesser of the cost and the word found.
    pub fn offer(&self, seat: &mut Seat, cost: u64) -> u64
        requires { seat.old.word ≡ self.now.id }
        ensures seat { seat.new ≡ record seat.old { seen = result; offered = min seat.old.offered cost } }
        ensures fresh { (result ≤ cost) × (result ≤ seat.old.seen) × (result ≤ seat.old.offered) }
    {
        let found = self
            .table
            .shared
            .fetch_min::<Offers>(&mut seat.seat, PLACE, cost);
        found.min(cost)
    }

    /// The one seat takes over what the other has seen and offered, and its parts.
    pub fn join(&self, into: &mut Seat, from: Seat)
        requires { (into.old.word ≡ self.now.id) × (from.word ≡ self.now.id) }
        ensures { into.new
            ≡ record into.old {
              seen = min into.old.seen from.seen;
              offered = min into.old.offered
                  from.offered;
              parts = into.old.parts + from.parts;
            } }
    {
        let Seat { seat } = from;
        self.table.shared.join_seat::<Whole>(&mut into.seat, seat);
    }

    /// The least of the start and all offers.
    pub fn finish(self, seat: Seat) -> u64
        requires seat { seat.word ≡ self.id }
        requires all { seat.parts ≡ self.seats }
        ensures least { result ≡ min self.start seat.offered }
        ensures seen { result ≤ seat.seen }
    {
        let Incumbent { table } = self;
        let Seat { seat } = seat;
        let closed = table.close_with(seat);
        let word = closed.word(PLACE);
        closed.free();
        word
    }
}
