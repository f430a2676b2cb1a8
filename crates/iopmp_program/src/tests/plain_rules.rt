// The decisions of the rows, once more by the plain reading of the rules.
use crate::play;
use crate::tests::rows::{ROWS, Row};
use checker_workers::FreeGate;
use event_words::{Access, Decision, Event, LoggedEvent, Register, Reply, Shape, Verdict};
use history_reports::{Replay, replay_words};
use lock_rules::keep_mask;
use match_rules::decide;
use register_fields::{Regs, has_bit};
use script_reader::read_script;
use std::alloc::Global;
use std::process::Abort;
use std::test::Fail;
use std::thread::Threads;

/// The access of the submission at a place. That of a Wide begins where the event before it aims.
fn submitted(events: &[LoggedEvent], place: u32) -> Option<Access> {
    match events.get(place as usize)?.event {
        Event::Submit { access, .. } => Some(access),
        Event::Wide {
            rrid,
            kind,
            len,
            ..
        } => match events.get((place as usize).saturating_sub(1))?.event {
            Event::Aim { addr, .. } => Some(Access {
                rrid,
                kind,
                addr,
                len,
            }),
            _ => None,
        },
        _ => None,
    }
}

/// Whether a verdict answers a decision, where ERR_CFG has this word.
fn answers(verdict: Verdict, decision: Decision, configuration: u32) -> bool {
    match (verdict, decision) {
        (Verdict::Allowed { .. }, Decision::Allowed) => true,
        (
            Verdict::Denied(denied),
            Decision::Denied {
                kind,
                entry,
                mute_irq,
                mute_err,
            },
        ) => {
            denied.kind == kind
                && denied.entry == entry
                && denied.quiet == (has_bit(configuration, 2) || mute_err)
                && denied.irq == (has_bit(configuration, 1) && !mute_irq)
                && denied.kept == !(mute_irq && mute_err)
        }
        _ => false,
    }
}

/// The registers of each unit at reset.
fn registers(alloc: Global, shapes: &[Shape]) -> Result<Vec<Regs>, Fail> {
    let mut units = Vec::new(alloc);
    for shape in shapes {
        if shape.bad().is_some() {
            return Err(Fail::new("no shape"));
        }
        let Ok(regs) = Regs::new(alloc, *shape) else {
            return Err(Fail::new("no memory"));
        };
        units.push(regs)?;
    }
    Ok(units)
}

/// Makes a write in the registers alone.
fn write(units: &mut [Regs], unit: u8, index: u32, value: u32) {
    if let Some(regs) = units.get_mut(unit as usize) {
        let keep = keep_mask(regs, index);
        regs.write(index, value, keep);
    }
}

/// Whether a verdict answers what the registers alone decide about an access.
fn is_decided(units: &[Regs], unit: u8, access: Option<Access>, verdict: Verdict) -> bool {
    let (Some(access), Some(regs)) = (access, units.get(unit as usize)) else {
        return false;
    };
    access.valid() && answers(verdict, decide(regs, &access), regs.word(Register::ErrCfg))
}

/// Makes each write, and decides each access that was judged. Answers how many there were.
fn decided<R: Abort>(rt: &R, row: &Row, units: &mut [Regs], events: &[LoggedEvent]) -> u32 {
    let mut count = 0u32;
    for logged in events {
        match &logged.event {
            Event::RegWrite {
                unit,
                index,
                value,
                ..
            } => write(units, *unit, *index, *value),
            Event::Judge { unit, place, .. } => {
                if let Reply::Verdict(verdict) = logged.reply {
                    let access = submitted(events, *place);
                    assert!(rt; is_decided(units, *unit, access, verdict), "{}", row.shows);
                    count = count.saturating_add(1);
                }
            }
            _ => {}
        }
    }
    count
}

/// What a script's run made, and the registers of its units at reset.
fn played<R: Threads + Sync + AllocGlobal + Abort>(
    rt: &R,
    bytes: &[u8],
) -> Result<(Vec<Regs>, Replay), Fail> {
    let alloc = rt.alloc();
    assert!(rt; bytes.len() <= 4194304);
    let Ok(script) = read_script(alloc, bytes) else {
        return Err(Fail::new("no script"));
    };
    let Ok(history) = play(rt, alloc, &script, &FreeGate) else {
        return Err(Fail::new("no history"));
    };
    let words = history.words();
    assert!(rt; words.len() <= 1048576);
    let Ok(replay) = replay_words(alloc, &script.shapes, words) else {
        return Err(Fail::new("no memory"));
    };
    let units = registers(alloc, &script.shapes)?;
    Ok((units, replay))
}

/// How many accesses of a row are judged.
fn judged<R: Threads + Sync + AllocGlobal + Abort>(rt: &R, row: &Row) -> Result<u32, Fail> {
    let unit = row.unit;
    let commands = row.commands;
    let text = format!(in rt.alloc(); "iopmp 1\n{unit}\nboot\n{commands}end\n")?;
    let (mut units, replay) = played(rt, text.as_bytes())?;
    Ok(decided(rt, row, &mut units, &replay.events))
}

#[test]
fn the_plain_rules_decide_the_rows(rt: HostRuntime) -> Result<(), Fail> {
    let mut count = 0u32;
    for row in ROWS {
        count = count.saturating_add(judged(&rt, &row)?);
    }
    assert_eq!(rt; count, 40);
    Ok(())
}
