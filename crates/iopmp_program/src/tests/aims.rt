// Callers' aims, on a unit alone.
use crate::tests::SMALL_UNIT;
use event_words::{Denial, Event, Kind, Reply, Verdict, pack};
use history_reports::replay_words;
use std::test::Fail;

/// A write by caller 0.
fn write(index: u32, value: u32) -> Event {
    Event::RegWrite {
        unit: 0,
        caller: 0,
        index,
        value,
    }
}

/// A read by requester 3, of so many bytes where its caller aims.
fn read(caller: u8, len: u16) -> Event {
    Event::Wide {
        unit: 0,
        caller,
        rrid: 3,
        kind: Kind::Read,
        len,
    }
}

fn aim(caller: u8, addr: u64) -> Event {
    Event::Aim { caller, addr }
}

/// What is answered where no entry has a byte of the access.
const NO_ENTRY: Reply = Reply::Verdict(Verdict::Denied(Denial {
    kind: 5,
    entry: 0xffff,
    quiet: false,
    irq: false,
    kept: true,
}));

#[test]
fn each_caller_aims_by_itself(rt: HostRuntime) -> Result<(), Fail> {
    let judge = Event::Judge {
        unit: 0,
        caller: 0,
        place: 5,
    };
    let cases = [
        (write(0x200, 0x8), Reply::Value(0x8)),
        (write(0x418, 0x2), Reply::Value(0x2)),
        (write(0x2, 0x1), Reply::Value(0x2007)),
        (aim(0, 0x100_0000_0000), Reply::Aimed),
        (aim(1, 0x20), Reply::Aimed),
        (read(0, 1), Reply::Passed),
        (judge, NO_ENTRY),
        (aim(0, 0xf_ffff_ffff_ffff), Reply::Aimed),
        (read(0, 2), Reply::NoSuch),
    ];
    let mut words = Vec::new(rt.alloc());
    for (event, _) in &cases {
        assert!(rt; event.valid());
        words.push(pack(event))?;
    }
    assert!(rt; words.len() <= 1048576);
    let Ok(replay) = replay_words(rt.alloc(), &[SMALL_UNIT], &words) else {
        return Err(Fail::new("no memory"));
    };
    assert_eq!(rt; replay.events.len(), cases.len());
    for (logged, (event, reply)) in replay.events.iter().zip(cases) {
        assert_eq!(rt; logged.event, event);
        assert_eq!(rt; logged.reply, reply);
    }
    assert!(rt; replay.units.units() > 0);
    assert_eq!(rt; replay.units.error_words(0), [0x53, 0, 0x40, 0xffff_0003]);
    Ok(())
}

#[test]
fn aims_have_words(rt: HostRuntime) {
    let cases = [
        (aim(1, 0x8000_0000), 0xa100_0000_8000_0000u64),
        (read(1, 4096), 0xc103_3ffc_0000_0000),
    ];
    for (event, word) in cases {
        assert!(rt; event.valid());
        assert_eq!(rt; pack(&event), word);
    }
}
