//! The rule of the channel, which each step keeps.

use crate::message::Message;
use crossbeam_channel::protocol::{Join, Lesson, Outcome, Protocol, Split};
use crossbeam_channel::{Pass, RuledReceiver, RuledSender};
use std::collections::LinkedList;

/// Whether a pass sends, and what it sent and took. No value of it is made.
pub struct Hand<J: Drop> {
    pub sends: bool,
    pub sent: LinkedList<Message<J>>,
    pub taken: LinkedList<Message<J>>,
}

/// One pass sends.
pub struct Caller;

impl<J: Drop> Protocol<Message<J>, Hand<J>> for Caller {
    ghost use Rattle.std.specs.Prelude.{true, []};
    ghost use Rattle.sf_team.specs.Rule.{hand, OneSends};

    ghost holds = { OneSends };

    ghost first = { hand true [] [] };
}

/// A new pass, which sends nothing, and one that comes back with what it took.
pub struct Worker;

impl<J: Drop> Split<Hand<J>> for Worker {
    ghost use Rattle.std.specs.Prelude.{false, []};
    ghost use Rattle.sf_team.specs.Rule.{hand};

    ghost left = { λ v. v };

    ghost right = { λ v. hand false [] [] };
}

impl<J: Drop> Join<Hand<J>> for Worker {
    ghost use Rattle.std.specs.Prelude.{false, [], ◌++◌};
    ghost use Rattle.sf_team.specs.Rule.{hand};

    ghost both = { λ v w. hand v.sends v.sent (v.taken ++ w.taken) };

    ghost spent = { hand false [] [] };
}

/// A message is sent.
pub struct Sends;

impl<J: Drop> Outcome<Message<J>, Hand<J>> for Sends {
    ghost use Rattle.std.specs.Prelude.{◌≡◌, [], ◌∷◌, ◌++◌};
    ghost use Rattle.sf_team.specs.Rule.{hand};

    ghost then = { λ v x w. w ≡ hand v.sends (v.sent ++ x ∷ []) v.taken };
}

impl<J: Drop> Lesson<Message<J>, Hand<J>> for Sends {
    ghost use Rattle.std.specs.Prelude.{⊤};

    ghost fact = { λ v items. ⊤ };
}

/// A message is taken.
pub struct Takes;

impl<J: Drop> Outcome<Message<J>, Hand<J>> for Takes {
    ghost use Rattle.std.specs.Prelude.{◌≡◌, [], ◌∷◌, ◌++◌};
    ghost use Rattle.sf_team.specs.Rule.{hand};

    ghost then = { λ v x w. w ≡ hand v.sends v.sent (v.taken ++ x ∷ []) };
}

impl<J: Drop> Lesson<Message<J>, Hand<J>> for Takes {
    ghost use Rattle.std.specs.Prelude.{⊤};

    ghost fact = { λ v items. ⊤ };
}

/// What was taken was sent.
pub struct Knows;

impl<J: Drop> Lesson<Message<J>, Hand<J>> for Knows {
    ghost use Rattle.sf_team.specs.Rule.{AreAmong};

    ghost fact = { λ v items. AreAmong v.taken v.sent };
}

/// The caller's end of the channel.
pub type Jobs<J> = RuledSender<Message<J>, Hand<J>, Caller>;

/// A worker's end of the channel.
pub type Queue<J> = RuledReceiver<Message<J>, Hand<J>, Caller>;

/// A pass of the channel.
pub type JobPass<J> = Pass<Message<J>, Hand<J>>;
