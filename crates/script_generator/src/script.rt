// The generated script of a number: large, and the same each time.
ghost use Rattle.std.specs.Prelude.{◌≡◌, IfOk, OnOk, map};
ghost use Rattle.std.specs.List.{range_with_len};
ghost use Rattle.policy_compiler.specs.Commands.{write_command};
ghost use Rattle.script_reader.specs.Canonical.{IsReadableScript};
ghost use Rattle.script_generator.specs.GeneratedScripts.{next_draw, draw, drawn_kind, drawn_access, lane_after, generated_lane, generated_shape, write_at, boot_writes, generated_boot, generated_script};

use event_words::{Access, Command, Kind, Section, Shape};
use script_reader::Script;
use std::alloc::{AllocError, Global};

/// The lanes of a generated script.
const LANES: u32 = 8;

/// The transactions of each lane.
const TRANSACTIONS: u32 = 4096;

/// The draw after a draw.
fn next_draw(draw: u32) -> u32
    ensures { result ≡ next_draw draw }
{
    draw.wrapping_mul(1664525).wrapping_add(1013904223)
}

fn drawn_kind(bits: u32) -> Kind
    ensures { result ≡ drawn_kind bits }
{
    match bits {
        1 => Kind::Write,
        2 => Kind::Fetch,
        _ => Kind::Read,
    }
}

/// The access that a draw gives.
fn drawn_access(draw: u32) -> Access
    ensures { result ≡ drawn_access draw }
{
    Access {
        rrid: (draw / (1 << 30)) as u8,
        kind: drawn_kind(draw / (1 << 28) % 4),
        addr: 0x80000000 + u64::from(draw / 256 % 65536),
        len: 1 + (draw / (1 << 24) % 16) as u16,
    }
}

/// A lane of transactions, each submitted and judged at once. Their draws follow `last`, which is then
/// the last of them.
fn lane_after(alloc: Global, last: &mut u32) -> Result<Section, AllocError>
    ensures section { IfOk result (λ section. section ≡ lane_after 4096 last.old) }
    ensures last { OnOk result (last.new ≡ draw last.old 4096) }
{
    let mut commands = Vec::new(alloc);
    for slot in 0..TRANSACTIONS {
        *last = next_draw(*last);
        commands.push(Command::Submit {
            unit: 0,
            access: drawn_access(*last),
            slot,
        })?;
        commands.push(Command::Judge { slot })?;
    }
    Ok(Section {
        commands,
        slots: TRANSACTIONS,
    })
}

fn lanes(alloc: Global, number: u32) -> Result<Vec<Section>, AllocError>
    ensures { IfOk result (λ lanes.
        lanes.items ≡ map (generated_lane number) (range_with_len 0 8)) }
{
    let mut last = number;
    let mut lanes = Vec::new(alloc);
    for _lane in 0..LANES {
        let lane = lane_after(alloc, &mut last)?;
        lanes.push(lane)?;
    }
    Ok(lanes)
}

fn shape() -> Shape
    ensures { result ≡ generated_shape }
{
    Shape {
        rrids: 3,
        domains: 2,
        entries: 8,
        mdcfg: 0,
        k: 0,
        srcmd: 0,
        sps: false,
        queue: 4,
        transl: None,
    }
}

/// A write of the register at an offset.
fn write_at(offset: u32, value: u32) -> Command
    ensures { result ≡ write_command (write_at offset value) }
{
    Command::Write {
        unit: 0,
        index: offset / 4,
        value,
    }
}

/// The writes that fill the unit's tables.
fn boot_commands() -> [Command; 14]
    ensures { result ≡ map write_command boot_writes }
{
    [
        write_at(0x10, 0x1),
        write_at(0x800, 0x2),
        write_at(0x804, 0x4),
        write_at(0x1000, 0x2),
        write_at(0x1020, 0x4),
        write_at(0x1040, 0x6),
        write_at(0x2000, 0x200001ff),
        write_at(0x2008, 0x19),
        write_at(0x2010, 0x20000fff),
        write_at(0x2018, 0x1b),
        write_at(0x2020, 0x20001000),
        write_at(0x2030, 0x20003000),
        write_at(0x2038, 0xd),
        write_at(0x8, 0x1),
    ]
}

fn boot(alloc: Global) -> Result<Section, AllocError>
    ensures { IfOk result (λ section. section ≡ generated_boot) }
{
    Ok(Section {
        commands: boot_commands().to_vec(alloc)?,
        slots: 0,
    })
}

/// The generated script of a number: one unit, writes that fill its tables, and 8 lanes of 4096
/// transactions each. It can be run, and it is read back from its own text.
#[tactic(auto, unfolding(crate::specs::GeneratedScripts::generated_script), using(crate::proofs::GeneratedSound::readable_parts))]
pub fn generated_script(alloc: Global, number: u32) -> Result<Script, AllocError>
    ensures script { IfOk result (λ script. script ≡ generated_script number) }
    ensures readable { IfOk result (λ script. IsReadableScript script) }
{
    let mut shapes = Vec::new(alloc);
    shapes.push(shape())?;
    Ok(Script {
        shapes,
        boot: boot(alloc)?,
        lanes: lanes(alloc, number)?,
    })
}
