//! The ticket of a request.
ghost use Rattle.std.specs.Prelude.{◌≡◌};

use std::marker::Model;

/// What a request in flight is named by. It can't be copied: whoever takes the reply gives it up.
#[derive(Drop, Debug)]
pub struct Ticket {
    pub(crate) number: u64,
}

impl Model for Ticket {
    ghost use Rattle.std.specs.Prelude.{ℕ};

    ghost Value = { ℕ };

    ghost view = { λ ticket. ticket.number };
}

impl Ticket {
    /// Its number: from 1 on, in order of submission.
    pub fn number(&self) -> u64
        ensures { result ≡ self.now }
    {
        self.number
    }
}
