// The commands of a plan.
ghost use Rattle.std.specs.Prelude.{◌≡◌, ◌++◌, [], ◌∷◌, IfOk, map};
ghost use Rattle.event_words.specs.declared.register.Register.TheVariants.{Mdstall};
ghost use Rattle.event_words.specs.Registers.{index_of};
ghost use Rattle.policy_compiler.specs.Commands.{write_command};
ghost use Rattle.update_planner.specs.Plans.{plan_commands, rewrites, rewriting};
ghost use Rattle.update_planner.specs.Values.{entry_pair, WritesUnit};

use crate::values::rewritten_values;
use event_words::{Command, Register};
use policy_compiler::{Image, RegPair};
use std::alloc::{AllocError, Global};
use std::collections::BTreeMap;

/// A write of a register of unit 0.
fn write(index: u32, value: u32) -> Command
    ensures { result ≡ Command.Write 0 index value }
{
    Command::Write {
        unit: 0,
        index,
        value,
    }
}

/// Writes the stall register: 1 to stall all requesters, 0 to release them.
fn stall(commands: &mut Vec<Command>, value: u32) -> Result<(), AllocError>
    ensures { IfOk result (λ _. commands.new.items ≡ commands.old.items ++ Command.Write 0
        (index_of Mdstall) value ∷ []) }
{
    commands.push(write(Register::Mdstall.index(), value))?;
    Ok(())
}

/// Polls the stall register until no stalled access is in flight.
fn drain(commands: &mut Vec<Command>, polls: u32) -> Result<(), AllocError>
    ensures { IfOk result (λ _. commands.new.items ≡ commands.old.items ++ Command.Until 0
        (index_of Mdstall) 1 0 polls ∷ []) }
{
    commands.push(Command::Until {
        unit: 0,
        index: Register::Mdstall.index(),
        mask: 1,
        value: 0,
        max: polls,
    })?;
    Ok(())
}

/// Makes writes of registers, in order.
fn write_all(commands: &mut Vec<Command>, writes: &[RegPair]) -> Result<(), AllocError>
    ensures { IfOk result (λ _. commands.new.items ≡ commands.old.items ++ map write_command
        writes.now) }
{
    for pair in writes {
        commands.push(write(pair.index, pair.value))?;
    }
    Ok(())
}

/// The values of registers as writes, in ascending order.
fn pairs(alloc: Global, values: &BTreeMap<u32, u32>) -> Result<Vec<RegPair>, AllocError>
    ensures { IfOk result (λ v. v.items ≡ map entry_pair values.now.entries) }
{
    let mut writes = Vec::new(alloc);
    for (index, value) in values {
        writes.push(RegPair {
            index: *index,
            value: *value,
        })?;
    }
    Ok(writes)
}

/// The table writes of a plan from one image to another, in ascending order of registers: each register
/// that one of them writes, but HWCFG0, gets the new image's value, and 0 where the new one writes none.
#[tactic(auto, using(crate::proofs::Sections::pairs_rewrite))]
pub fn rewrites(alloc: Global, old: &Image, new: &Image) -> Result<Vec<RegPair>, AllocError>
    requires old { WritesUnit new.now.shape old.now }
    requires new { WritesUnit new.now.shape new.now }
    ensures { IfOk result (λ v. map write_command v.items ≡ rewrites old.now new.now) }
{
    let values = rewritten_values(alloc, old, new)?;
    pairs(alloc, &values)
}

/// Polls until no stalled access is in flight, at most `polls` times, makes writes, and ends the stall.
pub fn rewrite(
    commands: &mut Vec<Command>,
    writes: &[RegPair],
    polls: u32,
) -> Result<(), AllocError>
    ensures { IfOk result (λ _. commands.new.items ≡ commands.old.items ++ rewriting
        (map write_command writes.now) polls) }
{
    drain(commands, polls)?;
    write_all(commands, writes)?;
    stall(commands, 0)
}

/// The commands of a plan from one image to another.
#[tactic(auto, unfolding(crate::specs::Plans::plan_commands))]
pub fn commands(
    alloc: Global,
    old: &Image,
    new: &Image,
    polls: u32,
) -> Result<Vec<Command>, AllocError>
    requires old { WritesUnit new.now.shape old.now }
    requires new { WritesUnit new.now.shape new.now }
    ensures { IfOk result (λ v. v.items ≡ plan_commands old.now new.now polls) }
{
    let writes = rewrites(alloc, old, new)?;
    let mut commands = Vec::new(alloc);
    stall(&mut commands, 1)?;
    rewrite(&mut commands, &writes, polls)?;
    Ok(commands)
}
