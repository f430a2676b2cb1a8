// Prints a script, or a lane by itself. A line is made from its end, and added in one piece.
ghost use Rattle.std.specs.Prelude.{◌≡◌, ◌+◌, ◌≤◌, ◌++◌, length, codes, Ok, IfOk, OnOk};
ghost use Rattle.std.specs.Fmt.{decimal};
ghost use Rattle.event_words.specs.Texts.{event_text};
ghost use Rattle.script_reader.specs.Answers.{reading_of};
ghost use Rattle.script_reader.specs.Canonical.{IsReadableScript, AddsLane};
ghost use Rattle.script_reader.specs.Printed.{translation_text, sps_number, sizes_text, tables_text, requests_text, unit_text, unit_texts, stage_text, command_text, command_texts, lane_text, lane_texts, script_text};

use crate::script::Script;
use event_words::{Access, Command, Event, Line, Section, Shape, Stages};
use std::alloc::{AllocError, Global};

/// Memory ran out.
#[derive(Clone, Copy, Debug, PartialEq, Eq)]
pub struct NoMemory;

/// The most bytes of the line of a command that can be read, so that there is room for all lines at
/// once: `through` with four units and all numbers at their longest. A longer line only makes more room.
const MOST_BYTES: usize = 52;

/// Puts the requester of outgoing transactions, or a dash for none.
fn put_translation(line: &mut Line, transl: Option<u8>)
    requires { length line.old ≤ 236 }
    ensures text { line.new ≡ translation_text transl ++ line.old }
    ensures few { length line.new ≤ length line.old + 20 }
{
    match transl {
        Some(rrid) => line.put_decimal(rrid as u64),
        None => line.put(b"-"),
    }
}

/// Puts the unit of a stage, where it stands.
fn put_stage(line: &mut Line, stands: bool, unit: u8)
    requires { length line.old ≤ 235 }
    ensures text { line.new ≡ stage_text stands unit ++ line.old }
    ensures few { length line.new ≤ length line.old + 21 }
{
    if stands {
        line.put_decimal(unit as u64);
        line.put(b" ");
    }
}

fn sps_number(sps: bool) -> u8
    ensures { result ≡ sps_number sps }
{
    if sps { 1 } else { 0 }
}

fn put_sizes(line: &mut Line, shape: &Shape)
    requires { length line.old ≤ 158 }
    ensures text { line.new ≡ sizes_text shape.now ++ line.old }
    ensures few { length line.new ≤ length line.old + 90 }
{
    line.put_decimal(shape.entries as u64);
    line.put(b" entries ");
    line.put_decimal(shape.domains as u64);
    line.put(b" domains ");
    line.put_decimal(shape.rrids as u64);
    line.put(b"unit rrids ");
}

fn put_tables(line: &mut Line, shape: &Shape)
    requires { length line.old ≤ 81 }
    ensures text { line.new ≡ tables_text shape.now ++ line.old }
    ensures few { length line.new ≤ length line.old + 77 }
{
    line.put_decimal(shape.srcmd as u64);
    line.put(b" srcmd ");
    line.put_decimal(shape.k as u64);
    line.put(b" k ");
    line.put_decimal(shape.mdcfg as u64);
    line.put(b" mdcfg ");
}

fn put_requests(line: &mut Line, shape: &Shape)
    requires { length line.old ≤ 1 }
    ensures text { line.new ≡ requests_text shape.now ++ line.old }
    ensures few { length line.new ≤ length line.old + 80 }
{
    put_translation(line, shape.transl);
    line.put(b" transl ");
    line.put_decimal(shape.queue as u64);
    line.put(b" queue ");
    line.put_decimal(sps_number(shape.sps) as u64);
    line.put(b" sps ");
}

fn push_unit(out: &mut Vec<u8>, line: &mut Line, shape: &Shape) -> Result<(), AllocError>
    ensures { OnOk result (out.new.items ≡ out.old.items ++ unit_text shape.now) }
{
    line.clear();
    line.put(b"\n");
    put_requests(line, shape);
    put_tables(line, shape);
    put_sizes(line, shape);
    out.extend_from_slice(line.bytes())
}

fn push_units(out: &mut Vec<u8>, line: &mut Line, shapes: &[Shape]) -> Result<(), AllocError>
    ensures { OnOk result (out.new.items ≡ out.old.items ++ unit_texts shapes.now) }
{
    for shape in shapes {
        push_unit(out, line, shape)?;
    }
    Ok(())
}

/// Puts ` max`, a number and the end of the line into an empty line.
fn put_max(line: &mut Line, max: u32)
    ensures text { line.new ≡ codes " max " ++ (decimal max ++ codes "\n") }
    ensures few { length line.new ≤ 26 }
{
    line.clear();
    line.put(b"\n");
    line.put_decimal(max as u64);
    line.put(b" max ");
}

fn put_through(line: &mut Line, stages: &Stages, access: &Access, max: u32)
    ensures { line.new ≡ command_text (Command.Through stages.now access.now max) }
{
    let count = stages.count;
    put_max(line, max);
    line.put_access(access);
    line.put(b" ");
    put_stage(line, 3 < count, stages.units[3]);
    put_stage(line, 2 < count, stages.units[2]);
    put_stage(line, 1 < count, stages.units[1]);
    put_stage(line, 0 < count, stages.units[0]);
    line.put(b"through");
}

fn put_until(line: &mut Line, unit: u8, index: u32, mask: u32, value: u32, max: u32)
    ensures { line.new ≡ command_text (Command.Until unit index mask value max) }
{
    put_max(line, max);
    line.put_hexadecimal(value as u64);
    line.put(b" ");
    line.put_hexadecimal(mask as u64);
    line.put(b" ");
    line.put_hexadecimal(index as u64 * 4);
    line.put(b" ");
    line.put_decimal(unit as u64);
    line.put(b"until ");
}

/// Puts a slot's number and the end of the line into an empty line.
fn put_slot(line: &mut Line, slot: u32)
    ensures text { line.new ≡ decimal slot ++ codes "\n" }
    ensures few { length line.new ≤ 21 }
{
    line.clear();
    line.put(b"\n");
    line.put_decimal(slot as u64);
}

/// Makes the line of a register access: of an event.
fn put_access_line(line: &mut Line, event: &Event)
    ensures { line.new ≡ event_text event.now ++ codes "\n" }
{
    line.clear();
    line.put(b"\n");
    line.put_event(event);
}

fn put_submit(line: &mut Line, unit: u8, access: Access, slot: u32)
    ensures { line.new ≡ command_text (Command.Submit unit access slot) }
{
    put_slot(line, slot);
    line.put(b" as s");
    line.put_event(&Event::Submit {
        unit,
        caller: 0,
        access,
    });
}

fn put_settle(line: &mut Line, slot: u32, max: u32)
    ensures { line.new ≡ command_text (Command.Settle slot max) }
{
    put_max(line, max);
    line.put_decimal(slot as u64);
    line.put(b"settle s");
}

/// Makes the line of a command.
fn put_command(line: &mut Line, command: &Command)
    ensures { line.new ≡ command_text command.now }
{
    match *command {
        Command::Write { unit, index, value } => put_access_line(
            line,
            &Event::RegWrite {
                unit,
                caller: 0,
                index,
                value,
            },
        ),
        Command::Read { unit, index } => put_access_line(
            line,
            &Event::RegRead {
                unit,
                caller: 0,
                index,
            },
        ),
        Command::Submit { unit, access, slot } => put_submit(line, unit, access, slot),
        Command::Judge { slot } => {
            put_slot(line, slot);
            line.put(b"j s")
        }
        Command::Settle { slot, max } => put_settle(line, slot, max),
        Command::Until {
            unit,
            index,
            mask,
            value,
            max,
        } => put_until(line, unit, index, mask, value, max),
        Command::Through {
            stages,
            access,
            max,
        } => put_through(line, &stages, &access, max),
    }
}

fn push_command(out: &mut Vec<u8>, line: &mut Line, command: &Command) -> Result<(), AllocError>
    ensures { OnOk result (out.new.items ≡ out.old.items ++ command_text command.now) }
{
    put_command(line, command);
    out.extend_from_slice(line.bytes())
}

fn push_commands(out: &mut Vec<u8>, line: &mut Line, commands: &[Command]) -> Result<(), AllocError>
    ensures { OnOk result (out.new.items ≡ out.old.items ++ command_texts commands.now) }
{
    out.reserve(commands.len().saturating_mul(MOST_BYTES))?;
    for command in commands {
        push_command(out, line, command)?;
    }
    Ok(())
}

fn push_heading(out: &mut Vec<u8>, line: &mut Line, number: u64) -> Result<(), AllocError>
    ensures { OnOk result (out.new.items ≡ out.old.items ++
        (codes "lane " ++ (decimal number ++ codes "\n"))) }
{
    line.clear();
    line.put(b"\n");
    line.put_decimal(number);
    line.put(b"lane ");
    out.extend_from_slice(line.bytes())
}

fn push_lane(
    out: &mut Vec<u8>,
    line: &mut Line,
    number: u64,
    lane: &Section,
) -> Result<(), AllocError>
    ensures { OnOk result (out.new.items ≡ out.old.items ++ lane_text number lane.now) }
{
    push_heading(out, line, number)?;
    push_commands(out, line, &lane.commands)
}

fn push_lanes(out: &mut Vec<u8>, line: &mut Line, lanes: &[Section]) -> Result<(), AllocError>
    ensures { OnOk result (out.new.items ≡ out.old.items ++ lane_texts 1 lanes.now) }
{
    for (place, lane) in lanes.iter().enumerate() {
        push_lane(out, line, place as u64 + 1, lane)?;
    }
    Ok(())
}

fn script_bytes(alloc: Global, script: &Script) -> Result<Vec<u8>, AllocError>
    ensures { IfOk result (λ text. text.items ≡ script_text script.now) }
{
    let mut line = Line::new();
    let mut out = Vec::from_slice(alloc, b"iopmp 1\n")?;
    push_units(&mut out, &mut line, &script.shapes)?;
    out.extend_from_slice(b"boot\n")?;
    push_commands(&mut out, &mut line, &script.boot.commands)?;
    push_lanes(&mut out, &mut line, &script.lanes)?;
    out.extend_from_slice(b"end\n")?;
    Ok(out)
}

/// The canonical text of a script: one space between words, no comments, offsets, values, masks
/// and addresses in hexadecimal and other numbers in decimal. The names are `s0`, `s1` and so on,
/// in the order of a section's submissions. The reader gives the script for this text. A script that
/// can't be read has a text too, which then need not stand for it.
pub fn print_script(alloc: Global, script: &Script) -> Result<Vec<u8>, NoMemory>
    ensures text { IfOk result (λ text. text.items ≡ script_text script.now) }
    ensures read { IsReadableScript script.now →
        IfOk result (λ text. reading_of text.items ≡ Ok script.now) }
{
    match script_bytes(alloc, script) {
        Ok(text) => Ok(text),
        Err(_) => Err(NoMemory),
    }
}

fn lane_bytes(alloc: Global, number: u8, section: &Section) -> Result<Vec<u8>, AllocError>
    ensures { IfOk result (λ text. text.items ≡ lane_text number section.now) }
{
    let mut line = Line::new();
    let mut out = Vec::new(alloc);
    push_lane(&mut out, &mut line, number as u64, section)?;
    Ok(out)
}

/// The canonical text of a lane and its commands, as `print_script` writes them: the line `lane`
/// with the number, then a line for each command. Before the last line of a script with one lane fewer
/// the reader takes this text as the lane. A lane that can't be read, as one whose number is not 1 to 16,
/// has a text too, which then need not stand for it.
pub fn print_lane(alloc: Global, number: u8, section: &Section) -> Result<Vec<u8>, NoMemory>
    ensures text { IfOk result (λ text. text.items ≡ lane_text number section.now) }
    ensures read { IfOk result (λ text. AddsLane number section.now text.items) }
{
    match lane_bytes(alloc, number, section) {
        Ok(text) => Ok(text),
        Err(_) => Err(NoMemory),
    }
}
