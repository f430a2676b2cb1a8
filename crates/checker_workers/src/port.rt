// One caller's calls on the units, one event each, or two for a submission that isn't narrow.
ghost use Rattle.std.specs.Prelude.{◌≡◌, ◌+◌, ◌*◌, ◌<◌, ◌≤◌, ◌^◌, [], length, vec_len, vec_capacity, IfSome, true};
ghost use Rattle.std.specs.List.{AllByRecursion};
ghost use Rattle.event_words.specs.declared.event.Event.TheVariants as events;
ghost use Rattle.event_words.specs.declared.reply.Reply.TheVariants as replies;
ghost use Rattle.event_words.specs.Valid.{IsValidAccess, IsValidEvent};
ghost use Rattle.event_words.specs.Events.{caller_of};
ghost use Rattle.event_words.specs.Records.{wide_event};
ghost use Rattle.event_words.specs.Sections.{IsBelow, IsValidStages, stage_units, submission_events};
ghost use Rattle.shared_log.specs.Words.{AllEventWords};
ghost use Rattle.shared_log.specs.Callers.{Belongs};
ghost use Rattle.checker_workers.specs.Ports.{IsAtReset, MakesEvent, unit_count, port_events, is_value};
ghost use Rattle.checker_workers.specs.Tickets.{IsOpenTicket, Judges, BearsTicket, HandsOut, MakesSubmission, is_submit_reply, submitted_reply, last_ticket};
ghost use Rattle.checker_workers.specs.Pieces.{PlaysThrough};
ghost use Rattle.checker_workers.specs.Told.{own_replies, HasRoom, IsTold};

use crate::ticket::{Judged, Submitted, Ticket};
use cascade_path::{ChainReply, send_through};
use event_words::{Access, Event, Reply, Stages};
use shared_log::{Caller, Shared};
use std::marker::Model;
use unit_core::Fabric;

// One reply more, where they are kept.
#[inline(always)]
fn keep_reply(told: &mut Option<Vec<Reply>>, reply: Reply)
    requires { HasRoom told.old }
    ensures { IsTold told.old reply told.new }
{
    if let Some(replies) = told {
        replies.push_reserved(reply);
    }
}

/// A caller of units, seen as that caller.
#[derive(Drop)]
pub struct Port {
    caller: Caller<Fabric>,
    // the replies to the caller's events, where they are kept
    told: Option<Vec<Reply>>,
}

impl Model for Port {
    ghost use Rattle.checker_workers.specs.Ports.{PortView};
    ghost use Rattle.checker_workers.specs.Told.{IsPort};

    ghost Value = { PortView };

    ghost view = { λ p. p.caller };

    ghost invariant = { λ p. IsPort p.caller p.told };
}

impl Port {
    /// The port of a caller whose units were one to four of valid shapes, at reset, at opening.
    pub fn new(caller: Caller<Fabric>) -> Port
        requires { IsAtReset caller.first }
        ensures { result ≡ caller }
    {
        Port { caller, told: None }
    }

    /// The same where its caller made no event yet. The port keeps the replies to its caller's events in this
    /// list, in which there is room for them.
    pub fn telling(caller: Caller<Fabric>, replies: Vec<Reply>) -> Port
        requires reset { IsAtReset caller.first }
        requires none { port_events caller ≡ [] }
        requires empty { replies.items ≡ [] }
        requires room { vec_len replies + caller.left ≤ vec_capacity replies }
        ensures { result ≡ caller }
    {
        Port {
            caller,
            told: Some(replies),
        }
    }

    /// The caller again.
    pub fn into_caller(self) -> Caller<Fabric>
        ensures { result ≡ self }
    {
        let Port { caller, .. } = self;
        caller
    }

    /// The caller again, and the replies to its events, where they were kept.
    pub fn into_told(self) -> (Caller<Fabric>, Option<Vec<Reply>>)
        ensures caller { result.0 ≡ self }
        ensures told { IfSome result.1 (λ replies. replies.items ≡ own_replies self) }
    {
        let Port { caller, told } = self;
        (caller, told)
    }

    // The number of the caller, with what holds of every port.
    pub(crate) fn number(&self) -> u8
        ensures number { result ≡ self.now.number }
        ensures small { result < 32 }
        ensures units { unit_count self.now ≤ 4 }
    {
        self.caller.number()
    }

    // How many events the caller may still make.
    pub(crate) fn left(&self) -> u32
        ensures { result ≡ self.now.left }
    {
        self.caller.left()
    }

    // One event of the port's caller.
    #[inline(always)]
    fn make(&mut self, shared: &Shared, event: Event) -> Reply
        requires belongs { Belongs self.old shared.now }
        requires left { 1 ≤ self.old.left }
        requires event { IsValidEvent event }
        requires caller { caller_of event ≡ self.old.number }
        ensures event { MakesEvent self.old event result self.new }
        ensures reset { IsAtReset self.old.first }
        ensures words { AllEventWords self.new.log }
    {
        let reply = self.caller.call(shared, event);
        keep_reply(&mut self.told, reply);
        reply
    }

    // The ticket of the last event, a submission on this unit.
    fn last_ticket(&self, unit: u8) -> Ticket
        requires unit { unit < 4 }
        requires some { 1 ≤ length self.now.log }
        ensures { result ≡ last_ticket self.now unit }
    {
        Ticket {
            unit,
            place: self.caller.place() - 1,
            caller: self.caller.number(),
        }
    }

    /// Writes a register of a unit, at one place of the history, and answers what it reads right
    /// after the write. An index is a register's byte offset divided by 4.
    pub fn write(&mut self, shared: &Shared, unit: u8, index: u32, value: u32) -> u32
        requires belongs { Belongs self.old shared.now }
        requires left { 1 ≤ self.old.left }
        requires unit { unit < unit_count self.old }
        requires index { index < 2 ^ 22 }
        ensures { MakesEvent self.old (events.RegWrite unit self.old.number index value)
            (replies.Value result) self.new }
    {
        let caller = self.number();
        let event = Event::RegWrite {
            unit,
            caller,
            index,
            value,
        };
        value_of(self.make(shared, event))
    }

    /// Reads a register of a unit at one place of the history, 0 where there is no register. An index
    /// is a register's byte offset divided by 4.
    pub fn read(&mut self, shared: &Shared, unit: u8, index: u32) -> u32
        requires belongs { Belongs self.old shared.now }
        requires left { 1 ≤ self.old.left }
        requires unit { unit < unit_count self.old }
        requires index { index < 2 ^ 22 }
        ensures { MakesEvent self.old (events.RegRead unit self.old.number index)
            (replies.Value result) self.new }
    {
        let caller = self.number();
        let event = Event::RegRead {
            unit,
            caller,
            index,
        };
        value_of(self.make(shared, event))
    }

    // Aims at an address.
    #[tactic(auto, using(crate::proofs::Making::aimed))]
    pub(crate) fn aim(&mut self, shared: &Shared, addr: u64)
        requires belongs { Belongs self.old shared.now }
        requires left { 1 ≤ self.old.left }
        requires addr { addr < 2 ^ 52 }
        ensures { MakesEvent self.old (events.Aim self.old.number addr) replies.Aimed self.new }
    {
        let caller = self.number();
        self.make(shared, Event::Aim { caller, addr });
    }

    // Submits an access whose address its caller aims at.
    pub(crate) fn submit_aimed(&mut self, shared: &Shared, unit: u8, access: Access) -> Reply
        requires belongs { Belongs self.old shared.now }
        requires left { 1 ≤ self.old.left }
        requires unit { unit < unit_count self.old }
        requires access { IsValidAccess access }
        ensures event { MakesEvent self.old (wide_event unit self.old.number access) result
            self.new }
        ensures reset { IsAtReset self.old.first }
        ensures number { self.old.number < 32 }
    {
        let caller = self.number();
        let event = Event::Wide {
            unit,
            caller,
            rrid: access.rrid,
            kind: access.kind,
            len: access.len,
        };
        self.make(shared, event)
    }

    // Submits an access by one event or, where it isn't narrow, by two. It answers the reply to the last.
    fn make_submission(&mut self, shared: &Shared, unit: u8, access: Access) -> Reply
        requires belongs { Belongs self.old shared.now }
        requires left { submission_events access ≤ self.old.left }
        requires unit { unit < unit_count self.old }
        requires access { IsValidAccess access }
        ensures event { MakesSubmission self.old unit access result self.new }
        ensures reply { is_submit_reply result ≡ true }
        ensures some { 1 ≤ length self.new.log }
        ensures unit { unit < 4 }
    {
        let caller = self.number();
        if access.narrow() {
            let event = Event::Submit {
                unit,
                caller,
                access,
            };
            return self.make(shared, event);
        }
        self.aim(shared, access.addr);
        self.submit_aimed(shared, unit, access)
    }

    // What a submission that was just replied so answers.
    pub(crate) fn answer(&self, unit: u8, reply: Reply) -> Submitted
        requires reply { is_submit_reply reply ≡ true }
        requires some { 1 ≤ length self.now.log }
        requires unit { unit < 4 }
        ensures reply { submitted_reply result ≡ reply }
        ensures ticket { BearsTicket self.now unit result }
    {
        match reply {
            Reply::Passed => Submitted::Passed(self.last_ticket(unit)),
            Reply::Queued => Submitted::Queued(self.last_ticket(unit)),
            Reply::Stalled(denial) => Submitted::Stalled(denial),
            Reply::Busy => Submitted::Busy,
            _ => unreachable!(),
        }
    }

    /// Submits an access on a unit, by one event, or by two where it isn't narrow. The answer is that of
    /// the unit at the place of the last. A ticket that it carries may be judged.
    pub fn submit(&mut self, shared: &Shared, unit: u8, access: Access) -> Submitted
        requires belongs { Belongs self.old shared.now }
        requires left { submission_events access ≤ self.old.left }
        requires unit { unit < unit_count self.old }
        requires access { IsValidAccess access }
        ensures event { MakesSubmission self.old unit access (submitted_reply result) self.new }
        ensures ticket { HandsOut self.new unit result }
    {
        let reply = self.make_submission(shared, unit, access);
        self.answer(unit, reply)
    }

    /// Judges the submission of an open ticket. The answer is that of the unit at the judgement's
    /// place: the ticket comes back exactly where the submission waits in the queue there.
    pub fn judge(&mut self, shared: &Shared, ticket: Ticket) -> Judged
        requires belongs { Belongs self.old shared.now }
        requires left { 1 ≤ self.old.left }
        requires unit { ticket.unit < unit_count self.old }
        requires ticket { IsOpenTicket self.old ticket }
        ensures { Judges self.old ticket result self.new }
    {
        let event = Event::Judge {
            unit: ticket.unit,
            caller: ticket.caller,
            place: ticket.place,
        };
        match self.make(shared, event) {
            Reply::Verdict(verdict) => Judged::Done(verdict),
            Reply::Held => Judged::Held(ticket),
            _ => unreachable!(),
        }
    }

    // Sends an access through units in turn, with up to `max` judgements at each. The units are there, so
    // the answer is never odd.
    pub(crate) fn send_through(
        &mut self,
        shared: &Shared,
        stages: &Stages,
        access: Access,
        max: u32,
    ) -> ChainReply
        requires belongs { Belongs self.old shared.now }
        requires stages { IsValidStages stages.now }
        requires units { AllByRecursion (IsBelow (unit_count self.old)) (stage_units stages.now) }
        requires access { IsValidAccess access }
        requires max { 1 ≤ max }
        requires left { stages.now.count * (submission_events access + max) ≤ self.old.left }
        ensures { PlaysThrough self.old (stage_units stages.now) access max result self.new }
    {
        self.told = None;
        let units = &stages.units[..stages.count as usize];
        send_through(&mut self.caller, shared, units, access, max)
    }
}

// The value that a register's write or read replies.
fn value_of(reply: Reply) -> u32
    requires { is_value reply ≡ true }
    ensures { reply ≡ replies.Value result }
{
    match reply {
        Reply::Value(value) => value,
        _ => unreachable!(),
    }
}
