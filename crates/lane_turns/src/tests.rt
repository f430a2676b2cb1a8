// Words of the generator, sets of lanes, and reports.
use crate::TurnReport;
use crate::lanes::LaneSet;
use crate::turns::Turns;
use crate::word::{pack, unpack, word_of};
use std::test::Fail;

/// The first two words of PCG32 for the seed 0, as its authors' port to Rust gives them in one number of 64 bits.
const FIRST: u64 = 18195738587432868099;

#[test]
fn words_are_those_of_the_generator(rt: HostRuntime) {
    let low = u64::from(word_of(0, 0));
    let high = u64::from(word_of(0, 1));
    assert_eq!(rt; low, FIRST % 4294967296);
    assert_eq!(rt; high, FIRST / 4294967296);
}

#[test]
fn lanes_are_drawn_in_ascending_order(rt: HostRuntime) {
    let lanes = LaneSet { bits: 0 }.with(16).with(1).with(4).with(4);
    assert_eq!(rt; lanes.count(), 3);
    for (word, lane) in [(0, 1), (1, 4), (2, 16), (3, 1), (4294967295, 1)] {
        assert_eq!(rt; lanes.drawn(word), Some(lane), "{word}");
    }
    let rest = lanes.without(4);
    assert_eq!(rt; rest.drawn(1), Some(16));
    assert_eq!(rt; rest.without(1).without(16).drawn(7), None);
}

#[test]
fn a_lane_that_ended_is_drawn_no_more(rt: HostRuntime) {
    let one = Turns::new().called(5, 2, 1);
    assert_eq!(rt; one.holder, None);
    let both = one.called(5, 2, 2);
    assert_eq!(rt; both.given, 1);
    let holder = both.holder.unwrap_or(0);
    assert!(rt; holder == 1 || holder == 2);
    assert!(rt; both.overdue(5).is_none());
    let Some(after) = unpack(pack(both.gone_on())).overdue(5) else {
        panic!(rt; "nothing is overdue");
    };
    assert_eq!(rt; after.holder, Some(3 - holder.min(3)));
    assert!(rt; after.is_late(holder.min(31)));
}

#[test]
fn reports_are_written(rt: HostRuntime) -> Result<(), Fail> {
    let mut report = TurnReport {
        seed: 7,
        turns: 14,
        losses: 2,
        strays: 0,
    };
    let text = format!(in rt.alloc(); "{report}")?;
    assert_eq!(rt; text.as_str(), "seed 7 turns 14 losses 2 reproducible");
    report.strays = 1;
    let text = format!(in rt.alloc(); "{report}")?;
    assert_eq!(rt; text.as_str(), "seed 7 turns 14 losses 2");
    Ok(())
}
