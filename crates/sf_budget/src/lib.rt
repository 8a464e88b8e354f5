//! The budget of a round: one word that its workers share, the decisions that no worker has drawn yet.
//!
//! A worker draws some of what is left by one compare-exchange, in any schedule. How much it has drawn it carries in
//! an `Account`, a token of no bytes. Accounts are split off for the workers and joined again after them. The crate
//! stands on `atomic_table`, whose rule `IsBudget` each step keeps: what is left, and what all accounts have drawn,
//! come to the amount that the budget was made with. The crates above use that an account has drawn no more than
//! that amount, even one into which all others were joined (`finish`).
#![tactic(auto)]

ghost use Rattle.std.specs.Prelude.{◌≡◌, ◌+◌, ◌≤◌, [], IfOk, MatchOption};
ghost use Rattle.sf_budget.specs.Seen.{BudgetView, AccountView};

mod rule;

use crate::rule::{Draws, Fresh, Law, Opening, View, Whole};
use atomic_table::{Seat, Table};
use std::alloc::{AllocError as NoMemory, Global};
use std::marker::Model;

/// Where the word stands in its table.
const PLACE: usize = 16;

/// How many words its table has. Those before and behind it keep whatever else lies in memory and is written often
/// out of its cache lines.
const WORDS: usize = 33;

/// What is drawn at once is a multiple of so many decisions, or all that is left.
const STEP: u64 = 1_024;

/// How often a draw is tried before it is given up. One try fails only where another worker has drawn since.
const TRIES: u32 = 100;

/// What is left of an amount.
#[derive(Drop)]
pub struct Budget {
    table: Table<(), View, Opening, Law, Global>,
}

impl Model for Budget {
    ghost Value = { BudgetView };

    ghost view = { λ b. record { id = b.table.shared.table_id; amount = b.table.shared.key.amount } };

    ghost invariant = { λ b. (b.table.shared.table_id.words ≡ 33) × (b.table.shared.table_id.slots ≡ 0) };
}

/// How much one holder has drawn.
#[derive(Drop)]
pub struct Account {
    seat: Seat<(), View>,
}

impl Model for Account {
    ghost Value = { AccountView };

    ghost view = { λ a. record { budget = a.seat.table_id; drawn = a.seat.me.0.drawn } };

    ghost invariant = { λ a. a.seat.me.1 ≡ [] };
}

/// One part in so many of what is left, raised to a multiple of `STEP`, but no more than is left. 0 parts count as one.
fn part(left: u64, parts: u64) -> u64
    ensures { result ≤ left }
{
    let even = left.div_ceil(parts.max(1));
    even.div_ceil(STEP).saturating_mul(STEP).min(left)
}

impl Budget {
    /// The whole amount is left, and the account has drawn nothing.
    pub fn new(alloc: Global, amount: u64) -> Result<(Budget, Account), NoMemory>
        ensures budget { IfOk result (λ r. r.0.amount ≡ amount) }
        ensures account { IfOk result (λ r. r.1 ≡ record { budget = r.0.id; drawn = 0 }) }
    {
        let mut words = [0; WORDS];
        words[PLACE] = amount;
        let (table, seat) = Table::of_words(alloc, &words, &Opening { amount })?;
        Ok((Budget { table }, Account { seat }))
    }

    /// A new account that has drawn nothing, beside this one.
    pub fn split(&self, account: &mut Account) -> Account
        requires { account.old.budget ≡ self.now.id }
        ensures one { account.new ≡ account.old }
        ensures other { result ≡ record { budget = self.now.id; drawn = 0 } }
    {
        Account {
            seat: self.table.shared.split_seat::<Fresh>(&mut account.seat),
        }
    }

    /// Draws about one part in so many of what is left. The answer is how much was drawn: 0 where nothing is left, or
    /// where other workers drew at each try.
    pub fn draw(&self, account: &mut Account, parts: u64) -> u64
        requires { account.old.budget ≡ self.now.id }
        ensures { account.new ≡ record account.old { drawn = account.old.drawn + result } }
    {
        for _ in 0..TRIES {
            if let Some(drawn) = self.try_draw(account, parts) {
                return drawn;
            }
        }
        0
    }

    /// One try to draw. There is no answer where another worker has drawn meanwhile.
    fn try_draw(&self, account: &mut Account, parts: u64) -> Option<u64>
        requires { account.old.budget ≡ self.now.id }
        ensures { MatchOption result (account.new ≡ account.old)
            (λ drawn. account.new ≡ record account.old { drawn = account.old.drawn + drawn }) }
    {
        let shared = &self.table.shared;
        let left = shared.peek(PLACE);
        let drawn = part(left, parts);
        let found = shared.compare_exchange::<Draws>(&mut account.seat, PLACE, left, left - drawn);
        if found == left { Some(drawn) } else { None }
    }

    /// The one account takes over what the other has drawn.
    pub fn join(&self, into: &mut Account, from: Account)
        requires into { into.old.budget ≡ self.now.id }
        requires from { from.budget ≡ self.now.id }
        ensures { into.new ≡ record into.old { drawn = into.old.drawn + from.drawn } }
    {
        let Account { seat } = from;
        self.table.shared.join_seat::<Whole>(&mut into.seat, seat);
    }

    /// Ends the budget. An account, with all that was joined into it, has drawn no more than the amount.
    pub fn finish(self, account: Account)
        requires { account.budget ≡ self.id }
        ensures { account.drawn ≤ self.amount }
    {
        let Budget { table } = self;
        let Account { seat } = account;
        table.close_with(seat).free();
    }
}
