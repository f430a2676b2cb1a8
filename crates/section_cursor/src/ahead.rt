// What a caller awaits in its section.

use event_words::{Access, Event, SectionEnd, Stages};
use std::marker::Model;

/// A submission that is open: its unit and its place.
#[derive(Clone, Copy)]
pub struct OpenSlot {
    pub unit: u8,
    pub place: u32,
}

impl Model for OpenSlot {
    ghost use Rattle.event_words.specs.Records as records;

    ghost Value = { records.OpenSlot };

    ghost view = { λ s. record { unit = s.unit; place = s.place } };

    ghost inverse = { λ s. record { unit = s.unit; place = s.place } };
}

/// The stages of an access from number `stage` on, with at most `max` judgements at each.
#[derive(Clone, Copy)]
pub struct Chain {
    pub stages: Stages,
    pub stage: u8,
    pub access: Access,
    pub max: u32,
}

/// What an awaited event is part of. `left` is how many tries may follow it.
#[derive(Clone, Copy)]
pub enum Part {
    /// A write or a read.
    Alone,
    /// A submission, which opens a slot where it is taken.
    Submission { unit: u8 },
    /// The Aim of a submission, whose Wide follows.
    Aiming { unit: u8, access: Access },
    /// Judgements of an open slot.
    Judging { slot: u32, left: u32 },
    /// Reads until one hits.
    Polling { mask: u32, value: u32, left: u32 },
    /// The Aim of a stage's submission by this requester, whose Wide follows.
    StageAiming { unit: u8, rrid: u8, chain: Chain },
    /// The last event of a stage's submission, and the stages after it.
    Stage { unit: u8, chain: Chain },
    /// Judgements of a stage's submission, and the stages after it.
    StageJudging { left: u32, chain: Chain },
}

/// What comes next.
#[derive(Clone, Copy)]
pub enum Ahead {
    /// The next command.
    Between,
    /// This event.
    Awaiting { event: Event, part: Part },
    /// Nothing: the section ended.
    Ended { end: SectionEnd },
    /// Nothing: an event came that may not stand there.
    Broken,
}
