// What a history's late violations add to its report: a line for each reading of the windows, and what is left.
ghost use Rattle.std.specs.Prelude.{◌≡◌, ◌++◌, ◌≤◌, ℕ, List, length, flat_map, OnOk};
ghost use Rattle.std.specs.List.{AllByRecursion};
ghost use Rattle.event_words.specs.declared.shape.Shape.{Shape as ShapeOf};
ghost use Rattle.event_words.specs.Runs.{IsEventWord};
ghost use Rattle.unit_core.specs.Histories.{History, history_of, logged_in};
ghost use Rattle.fault_windows.specs.Monitors.{HasSeen};
ghost use Rattle.history_reports.specs.WindowLines.{shown_text, shown_line, line_of, reading_line, left_text, left_lines, windows_text};
ghost use Rattle.history_reports.specs.Requesters.{submitter, requester_by, HasValidEvent};

use event_words::{Event, Line, LoggedEvent};
use fault_windows::{Monitor, Shown};
use history_laws::law_verdicts;
use std::alloc::AllocError;

/// The index of the register of the windows, at byte offset 0x74.
const WINDOWS: u32 = 29;

/// The requester of the access that an event submits, 0 where it submits none.
fn submitter(event: &Event) -> u8
    ensures { result ≡ submitter event.now }
{
    match event {
        Event::Submit { access, .. } => access.rrid,
        Event::Wide { rrid, .. } => *rrid,
        _ => 0,
    }
}

/// The requester of the access that an event submits or judges, 0 where it does neither.
fn requester(events: &[LoggedEvent], event: &Event) -> u8
    ensures { result ≡ requester_by events.now event.now }
{
    match event {
        Event::Judge { place, .. } => match events.get(*place as usize) {
            Some(logged) => submitter(&logged.event),
            None => 0,
        },
        _ => submitter(event),
    }
}

fn put_shown(line: &mut Line, shown: &Option<Shown>)
    requires { length line.old ≤ 1 }
    ensures text { line.new ≡ shown_text shown.now ++ line.old }
    ensures few { length line.new ≤ 64 }
{
    match shown {
        Some(shown) => {
            line.put_hexadecimal(shown.bits as u64);
            line.put(b" ");
            line.put_decimal(shown.window as u64);
        }
        None => line.put(b"-"),
    }
}

/// Makes the line of a reading.
fn put_reading(line: &mut Line, place: u32, caller: u8, unit: u8, shown: &Option<Shown>)
    ensures { line.new ≡ shown_line place caller unit shown.now }
{
    line.clear();
    line.put(b"\n");
    put_shown(line, shown);
    line.put(b" ");
    line.put_decimal(unit as u64);
    line.put(b" mfr ");
    line.put_decimal(caller as u64);
    line.put(b" ");
    line.put_decimal(place as u64);
}

/// The line of an event that is a reading; none for another.
fn push_reading(
    out: &mut Vec<u8>,
    line: &mut Line,
    logged: &LoggedEvent,
    shown: &Option<Shown>,
) -> Result<(), AllocError>
    ensures { OnOk result (out.new.items ≡
        out.old.items ++ line_of logged.now.place logged.now.event shown.now) }
{
    let Event::RegRead {
        unit,
        caller,
        index,
    } = logged.event
    else {
        return Ok(());
    };
    if index != WINDOWS {
        return Ok(());
    }
    put_reading(line, logged.place, caller, unit, shown);
    out.extend_from_slice(line.bytes())
}

/// The lines of the readings among all events of a history.
fn push_readings(
    out: &mut Vec<u8>,
    line: &mut Line,
    monitor: &mut Monitor,
    events: &[LoggedEvent],
) -> Result<(), AllocError>
    requires { AllByRecursion HasValidEvent events.now }
    ensures { (shapes : List ShapeOf) (words : List ℕ) → AllByRecursion IsEventWord words
        → events.now ≡ logged_in shapes words → HasSeen (history_of shapes words) 0 monitor.old
        → OnOk result
        ((out.new.items ≡
        out.old.items ++ flat_map (reading_line (history_of shapes words)) events.now)
        × HasSeen (history_of shapes words) (length words) monitor.new) }
{
    law_verdicts();
    for logged in events {
        let rrid = requester(events, &logged.event);
        let shown = monitor.step(&logged.event, rrid, &logged.reply);
        push_reading(out, line, logged, &shown)?;
    }
    Ok(())
}

fn push_count(out: &mut Vec<u8>, line: &mut Line, unit: u8, count: u8) -> Result<(), AllocError>
    ensures { OnOk result (out.new.items ≡ out.old.items ++ left_text unit count) }
{
    line.clear();
    line.put(b"\n");
    line.put_decimal(count as u64);
    line.put(b" ");
    line.put_decimal(unit as u64);
    line.put(b"left ");
    out.extend_from_slice(line.bytes())
}

/// How many requesters are pending, a line for each unit.
fn push_left(
    out: &mut Vec<u8>,
    line: &mut Line,
    monitor: &Monitor,
    units: u8,
) -> Result<(), AllocError>
    requires { units ≤ 4 }
    ensures { (h : History) (k : ℕ) → HasSeen h k monitor.now → OnOk result
        (out.new.items ≡ out.old.items ++ left_lines h k 0 units) }
{
    for unit in 0..units {
        push_count(out, line, unit, monitor.pending(unit))?;
    }
    Ok(())
}

/// A line for each reading among all events of a history, a line for each of its units, at most 4, and `end`.
pub fn push_windows(
    out: &mut Vec<u8>,
    line: &mut Line,
    units: u8,
    events: &[LoggedEvent],
) -> Result<(), AllocError>
    requires units { units ≤ 4 }
    requires valid { AllByRecursion HasValidEvent events.now }
    ensures { (shapes : List ShapeOf) (words : List ℕ) → AllByRecursion IsEventWord words
        → events.now ≡ logged_in shapes words → length shapes ≡ units
        → OnOk result (out.new.items ≡ out.old.items ++ windows_text shapes words) }
{
    let mut monitor = Monitor::new();
    push_readings(out, line, &mut monitor, events)?;
    push_left(out, line, &monitor, units)?;
    out.extend_from_slice(b"end\n")
}
