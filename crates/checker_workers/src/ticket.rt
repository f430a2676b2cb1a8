// Tickets of open submissions, and what a port's submissions and judgements answer.
ghost use Rattle.std.specs.Prelude.{◌≡◌};

use event_words::{Denial, Verdict};
use std::marker::Model;

/// The right to judge one submission that a port's caller made and that is still open. Only a port
/// makes one, and it can't be copied.
#[derive(Drop)]
pub struct Ticket {
    pub(crate) unit: u8,
    pub(crate) place: u32,
    pub(crate) caller: u8,
}

impl Model for Ticket {
    ghost use Rattle.std.specs.Prelude.{◌<◌, ◌^◌};
    ghost use Rattle.checker_workers.specs.TicketViews.{TicketView};

    ghost Value = { TicketView };

    ghost view = { λ t. record { unit = t.unit; place = t.place; caller = t.caller } };

    ghost invariant = { λ t. (t.unit < 4) × (t.place < 2 ^ 24) × (t.caller < 32) };
}

impl Ticket {
    /// The unit of the submission, 0 to 3.
    pub fn unit(&self) -> u8
        ensures { result ≡ self.now.unit }
    {
        self.unit
    }

    /// The place of the submission in the history.
    pub fn place(&self) -> u32
        ensures { result ≡ self.now.place }
    {
        self.place
    }

    /// The number of the caller that made the submission.
    pub fn caller(&self) -> u8
        ensures { result ≡ self.now.caller }
    {
        self.caller
    }
}

/// What a submission answers.
#[derive(Drop)]
pub enum Submitted {
    /// The transaction is in flight.
    Passed(Ticket),
    /// The requester is stalled, and the transaction waits in the queue.
    Queued(Ticket),
    /// The requester is stalled, and the queue is full. Nothing changed.
    Busy,
    /// The same where the unit answers it by a violation.
    Stalled(Denial),
}

/// What a judgement answers.
#[derive(Drop)]
pub enum Judged {
    /// The verdict. The submission is closed.
    Done(Verdict),
    /// The submission waits in the queue. The ticket comes back.
    Held(Ticket),
}
