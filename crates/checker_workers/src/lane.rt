// Lanes.
ghost use Rattle.std.specs.Prelude.{◌≡◌, ◌≤◌, [], IfOk, vec_len, vec_capacity, sum_by, count_by};
ghost use Rattle.std.specs.List.{AllByRecursion};
ghost use Rattle.event_words.specs.Sections.{AreValidCommands, NamesUnits, most_events, is_submit};
ghost use Rattle.shared_log.specs.Callers.{Belongs};
ghost use Rattle.checker_workers.specs.Ports.{unit_count};
ghost use Rattle.checker_workers.specs.Lanes.{MayPlay, PlaysCommands, PlaysSection, Runs};
ghost use Rattle.checker_workers.specs.declared.lane.LaneEnd.TheVariants as ends;

use crate::gate::Gate;
use crate::pieces::{play_command, tell};
use crate::port::Port;
use crate::ticket::Ticket;
use event_words::{Command, Section};
use shared_log::Shared;
use std::alloc::Global;
use std::marker::Model;

/// How a lane ended.
#[derive(Clone, Copy, Debug, PartialEq, Eq)]
pub enum LaneEnd {
    /// It didn't run yet.
    Fresh,
    /// After its last command.
    Done,
    /// After an `until` all of whose reads missed.
    Stopped,
}

/// There was no memory.
#[derive(Clone, Copy, Debug, PartialEq, Eq)]
pub struct NoMemory;

/// A section that a port's caller plays once. Contracts see the section, the port and how it ended.
#[derive(Drop)]
pub struct Lane {
    section: Section,
    port: Port,
    // for each submission so far, the ticket where it is open
    table: Vec<Option<Ticket>>,
    ended: LaneEnd,
}

impl Model for Lane {
    ghost use Rattle.std.specs.Prelude.{vec_capacity};
    ghost use Rattle.checker_workers.specs.Lanes.{LaneView, IsLane};

    ghost Value = { LaneView };

    ghost view = { λ l. record { section = l.section; port = l.port; ended = l.ended } };

    ghost invariant = { λ l. IsLane l.ended l.section l.port l.table.items (vec_capacity l.table) };
}

impl Lane {
    /// A fresh lane. The section must be valid, name only units of the port and have no more events than
    /// are left to the port's caller. All memory is taken here.
    pub fn new(alloc: Global, section: Section, port: Port) -> Result<Lane, NoMemory>
        requires { MayPlay section port }
        ensures { IfOk result (λ lane. lane ≡ record {
          section = section;
          port = port;
          ended = ends.Fresh;
        }) }
    {
        let slots = section.slots as usize;
        let Ok(table) = Vec::with_capacity(alloc, slots) else {
            return Err(NoMemory);
        };
        Ok(Lane {
            section,
            port,
            table,
            ended: LaneEnd::Fresh,
        })
    }

    /// Plays the section on the shared log. The lane must be fresh and its port's caller belong to
    /// the log. The caller makes a whole record of the section, and the lane ends `Stopped` exactly
    /// where all reads of an `until` missed. The gate is called as `Gate` says.
    pub fn run<G: Gate>(&mut self, shared: &Shared, gate: &G)
        requires fresh { self.old.ended ≡ ends.Fresh }
        requires belongs { Belongs self.old.port shared.now }
        ensures { Runs self.old self.new }
    {
        let commands = commands_of(&self.section);
        self.ended = play_commands(&mut self.port, &mut self.table, commands, shared, gate);
    }

    /// How the lane ended.
    pub fn ended(&self) -> LaneEnd
        ensures { result ≡ self.now.ended }
    {
        self.ended
    }

    /// The port again.
    pub fn into_port(self) -> Port
        ensures { result ≡ self.port }
    {
        let Lane { port, .. } = self;
        port
    }
}

/// Plays a section by a port's caller, without a lane that keeps the section. The section must be valid,
/// name only units of the port and have no more events than are left to its caller, which belongs to the
/// log. The caller makes a whole record of the section. The memory for its tickets is taken before the first
/// event. The gate is called as `Gate` says.
pub fn play_section<G: Gate>(
    alloc: Global,
    section: &Section,
    port: Port,
    shared: &Shared,
    gate: &G,
) -> Result<Port, NoMemory>
    requires may { MayPlay section.now port }
    requires belongs { Belongs port shared.now }
    ensures { IfOk result (λ played. PlaysSection section.now port played) }
{
    let slots = section.slots as usize;
    let Ok(mut table) = Vec::with_capacity(alloc, slots) else {
        return Err(NoMemory);
    };
    let mut port = port;
    let commands = commands_of(section);
    play_commands(&mut port, &mut table, commands, shared, gate);
    Ok(port)
}

fn commands_of(section: &Section) -> &[Command]
    ensures { result.now ≡ section.now.commands }
{
    section.commands.as_slice()
}

// Plays commands, and tells the gate of each event and of the end.
fn play_commands<G: Gate>(
    port: &mut Port,
    table: &mut Vec<Option<Ticket>>,
    commands: &[Command],
    shared: &Shared,
    gate: &G,
) -> LaneEnd
    requires belongs { Belongs port.old shared.now }
    requires valid { AreValidCommands 0 commands.now }
    requires units { AllByRecursion (NamesUnits (unit_count port.old)) commands.now }
    requires enough { sum_by most_events commands.now ≤ port.old.left }
    requires empty { (table.old.items ≡ []) × (vec_len table.old ≡ 0) }
    requires room { count_by is_submit commands.now ≤ vec_capacity table.old }
    ensures { PlaysCommands port.old commands.now port.new result }
{
    let first = port.left();
    for command in commands {
        if !play_command(port, table, shared, gate, first, command) {
            tell(gate, port, first);
            return LaneEnd::Stopped;
        }
    }
    tell(gate, port, first);
    LaneEnd::Done
}
