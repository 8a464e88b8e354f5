//! The rule of the word, which each step keeps.
use atomic_table::{Join, Play, Split, TableRule};

/// What an account has drawn. No value of it is made.
pub struct View {
    pub drawn: u64,
}

/// What the word was made with.
#[derive(Drop)]
pub struct Opening {
    pub amount: u64,
}

/// What always holds of the word and the views of the accounts.
pub struct Law;

impl TableRule<(), View, Opening> for Law {
    ghost use Rattle.sf_budget.specs.Rule.{IsBudget, view};

    ghost holds = { λ opening state. IsBudget opening.amount state.words state.views };

    ghost first = { λ opening. view 0 };
}

/// What a draw tells.
pub struct Draws;

impl Play<(), View> for Draws {
    ghost use Rattle.sf_budget.specs.Rule.{Draws};

    ghost then = { Draws };
}

/// What an account keeps beside which a new one is made, and what the new one has drawn.
pub struct Fresh;

impl Split<View> for Fresh {
    ghost use Rattle.sf_budget.specs.Rule.{view};

    ghost left = { λ v. v };

    ghost right = { λ v. view 0 };
}

/// What an account has drawn into which another one is joined, and what is left of that one.
pub struct Whole;

impl Join<View> for Whole {
    ghost use Rattle.std.specs.Prelude.{◌+◌};
    ghost use Rattle.sf_budget.specs.Rule.{view};

    ghost both = { λ v w. view (v.drawn + w.drawn) };

    ghost spent = { view 0 };
}
