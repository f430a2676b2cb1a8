// The commands of a lane, one piece of its record each. `first` is what was left of the port's budget
// when the lane began, by which events are numbered.
ghost use Rattle.std.specs.Prelude.{◌≡◌, ◌+◌, ◌<◌, ◌≤◌, ◌^◌, not, true, false, length, vec_len, vec_capacity, slice_index_or, slice_set, if◌then◌else◌};
ghost use Rattle.event_words.specs.declared.event.Event.TheVariants as events;
ghost use Rattle.event_words.specs.declared.section.Command.TheVariants as commands;
ghost use Rattle.event_words.specs.Sections.{IsValidCommand, NamesUnits, most_events, is_submit, submission_events};
ghost use Rattle.event_words.specs.Valid.{IsValidAccess};
ghost use Rattle.shared_log.specs.Callers.{Belongs};
ghost use Rattle.cascade_path.specs.Answers.{is_odd};
ghost use Rattle.checker_workers.specs.Ports.{RestsSince, unit_count};
ghost use Rattle.checker_workers.specs.Tickets.{HandsOut, IsOpenTicket, MakesSubmission, submitted_reply};
ghost use Rattle.checker_workers.specs.Slots.{IsTicketTable};
ghost use Rattle.checker_workers.specs.Pieces.{Polls, SettlesTicket, PlaysSlot, PlaysCommand, ticket_of};

use crate::gate::Gate;
use crate::port::Port;
use crate::ticket::{Judged, Submitted, Ticket};
use cascade_path::ChainReply;
use event_words::{Access, Command};
use shared_log::Shared;

// Tells the gate of the next event, which is no Wide.
pub(crate) fn tell<G: Gate>(gate: &G, port: &Port, first: u32)
    requires first { port.now.left ≤ first }
    requires rests { RestsSince first port.now }
{
    gate.at(port.number(), first - port.left());
}

// A register, and what its value must have in the bits of a mask.
#[derive(Clone, Copy)]
pub(crate) struct RegisterPoll {
    pub(crate) unit: u8,
    pub(crate) index: u32,
    pub(crate) mask: u32,
    pub(crate) value: u32,
}

impl RegisterPoll {
    fn new(unit: u8, index: u32, mask: u32, value: u32) -> RegisterPoll
        ensures { result ≡ record { unit = unit; index = index; mask = mask; value = value } }
    {
        RegisterPoll {
            unit,
            index,
            mask,
            value,
        }
    }
}

// Reads a register up to `max` times, until it hits. It answers whether the last read did.
fn poll<G: Gate>(
    port: &mut Port,
    shared: &Shared,
    gate: &G,
    first: u32,
    watch: RegisterPoll,
    max: u32,
) -> bool
    requires belongs { Belongs port.old shared.now }
    requires left { max ≤ port.old.left }
    requires first { port.old.left ≤ first }
    requires rests { RestsSince first port.old }
    requires some { 1 ≤ max }
    requires unit { watch.unit < unit_count port.old }
    requires index { watch.index < 2 ^ 22 }
    ensures { Polls port.old (events.RegRead watch.unit port.old.number watch.index) watch.mask
        watch.value max result port.new }
{
    for _i in 0..max {
        tell(gate, port, first);
        let word = port.read(shared, watch.unit, watch.index);
        if word & watch.mask == watch.value {
            return true;
        }
    }
    false
}

// Judges a ticket's submission up to `max` times, until the reply isn't Held.
fn settle<G: Gate>(
    port: &mut Port,
    shared: &Shared,
    gate: &G,
    first: u32,
    ticket: Ticket,
    max: u32,
) -> Judged
    requires belongs { Belongs port.old shared.now }
    requires left { max ≤ port.old.left }
    requires first { port.old.left ≤ first }
    requires rests { RestsSince first port.old }
    requires some { 1 ≤ max }
    requires unit { ticket.unit < unit_count port.old }
    requires ticket { IsOpenTicket port.old ticket }
    ensures { SettlesTicket port.old ticket max result port.new }
{
    let mut held = ticket;
    for _i in 0..max {
        tell(gate, port, first);
        match port.judge(shared, held) {
            Judged::Held(again) => held = again,
            Judged::Done(verdict) => return Judged::Done(verdict),
        }
    }
    Judged::Held(held)
}

fn take_ticket(table: &mut [Option<Ticket>], slot: usize) -> Option<Ticket>
    requires { slot < length table.old }
    ensures ticket { result ≡ slice_index_or table.old slot None }
    ensures rest { table.new ≡ slice_set table.old slot None }
{
    table[slot].take()
}

fn put_ticket(table: &mut [Option<Ticket>], slot: usize, ticket: Ticket)
    requires { slot < length table.old }
    ensures { table.new ≡ slice_set table.old slot (Some ticket) }
{
    table[slot] = Some(ticket);
}

// Judges the ticket of a slot up to `max` times, where it has one.
fn settle_slot<G: Gate>(
    port: &mut Port,
    table: &mut [Option<Ticket>],
    shared: &Shared,
    gate: &G,
    first: u32,
    slot: u32,
    max: u32,
)
    requires belongs { Belongs port.old shared.now }
    requires left { max ≤ port.old.left }
    requires first { port.old.left ≤ first }
    requires rests { RestsSince first port.old }
    requires some { 1 ≤ max }
    requires slot { slot < length table.old }
    requires tickets { IsTicketTable port.old table.old }
    ensures { PlaysSlot port.old table.old slot max port.new table.new }
{
    let at = slot as usize;
    let Some(ticket) = take_ticket(table, at) else {
        return;
    };
    if let Judged::Held(again) = settle(port, shared, gate, first, ticket, max) {
        put_ticket(table, at, again);
    }
}

// Submits an access. The gate hears of its first event alone.
fn submit<G: Gate>(
    port: &mut Port,
    shared: &Shared,
    gate: &G,
    first: u32,
    unit: u8,
    access: Access,
) -> Submitted
    requires belongs { Belongs port.old shared.now }
    requires left { submission_events access ≤ port.old.left }
    requires first { port.old.left ≤ first }
    requires rests { RestsSince first port.old }
    requires unit { unit < unit_count port.old }
    requires access { IsValidAccess access }
    ensures event { MakesSubmission port.old unit access (submitted_reply result) port.new }
    ensures ticket { HandsOut port.new unit result }
{
    tell(gate, port, first);
    port.submit(shared, unit, access)
}

// The ticket that a submission hands out.
fn ticket_of(submitted: Submitted) -> Option<Ticket>
    ensures { result ≡ ticket_of submitted }
{
    match submitted {
        Submitted::Passed(ticket) => Some(ticket),
        Submitted::Queued(ticket) => Some(ticket),
        _ => None,
    }
}

// Whether a section goes on after a chain: it does, whatever the chain answers. None answers oddly.
fn goes_on(answer: ChainReply) -> bool
    requires { is_odd answer ≡ false }
    ensures { result ≡ true }
{
    match answer {
        ChainReply::Odd { .. } => unreachable!(),
        _ => true,
    }
}

// Plays one command. It answers whether the section goes on.
pub(crate) fn play_command<G: Gate>(
    port: &mut Port,
    table: &mut Vec<Option<Ticket>>,
    shared: &Shared,
    gate: &G,
    first: u32,
    command: &Command,
) -> bool
    requires belongs { Belongs port.old shared.now }
    requires left { most_events command.now ≤ port.old.left }
    requires first { port.old.left ≤ first }
    requires rests { RestsSince first port.old }
    requires valid { IsValidCommand (vec_len table.old) command.now }
    requires units { NamesUnits (unit_count port.old) command.now }
    requires room { is_submit command.now ≡ true → vec_len table.old < vec_capacity table.old }
    requires tickets { IsTicketTable port.old table.old.items }
    ensures plays { PlaysCommand port.old table.old.items command.now port.new table.new.items
        (not result) }
    ensures count { vec_len table.new ≡ (if is_submit command.now then vec_len table.old + 1 else
        vec_len table.old) }
    ensures capacity { vec_capacity table.new ≡ vec_capacity table.old }
{
    match *command {
        Command::Write { unit, index, value } => {
            tell(gate, port, first);
            port.write(shared, unit, index, value);
            true
        }
        Command::Read { unit, index } => {
            tell(gate, port, first);
            port.read(shared, unit, index);
            true
        }
        Command::Submit { unit, access, .. } => {
            let slot = ticket_of(submit(port, shared, gate, first, unit, access));
            table.push_reserved(slot);
            true
        }
        Command::Judge { slot } => {
            settle_slot(port, table.as_mut_slice(), shared, gate, first, slot, 1);
            true
        }
        Command::Settle { slot, max } => {
            settle_slot(port, table.as_mut_slice(), shared, gate, first, slot, max);
            true
        }
        Command::Until {
            unit,
            index,
            mask,
            value,
            max,
        } => {
            let watch = RegisterPoll::new(unit, index, mask, value);
            poll(port, shared, gate, first, watch, max)
        }
        Command::Through {
            stages,
            access,
            max,
        } => {
            tell(gate, port, first);
            goes_on(port.send_through(shared, &stages, access, max))
        }
    }
}
