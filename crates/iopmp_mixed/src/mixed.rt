// A call of the program whose lanes go on by turns.
ghost use Rattle.std.specs.Prelude.{◌≡◌, map};
ghost use Rattle.std.specs.String.{string_bytes};
ghost use Rattle.iopmp_program.specs.CommandWords.{command_of};
ghost use Rattle.iopmp_program.specs.CallEndings.{change, Ends, Completes, LeavesSource, LeavesSink};
ghost use Rattle.iopmp_mixed.specs.Aheads.{left_of, handed_on, LooksAhead};

use crate::ahead::AheadSource;
use crate::lane_count::{lane_count, played};
use edge_io::{Sink, Source};
use iopmp_program::{Outcome, top};
use lane_turns::{TurnGate, TurnReport};
use std::alloc::Global;
use std::rt::Clock;
use std::thread::Threads;

/// The most bytes of an input.
const MOST_BYTES: usize = 4194304;

/// How a call ended, and what became of its turns.
#[derive(Drop)]
pub struct MixedRun {
    pub outcome: Outcome,
    pub report: TurnReport,
}

/// How many lanes the words play, of those in the input where they stand there. An input that is too long has none.
fn count_lanes<S: Source>(alloc: Global, words: &[String], source: &mut AheadSource<S>) -> u8
    ensures looks { LooksAhead S.left source.old source.new }
    ensures unread { LeavesSource (command_of (map string_bytes words.now)) → source.new
        ≡ source.old }
{
    let lanes = played(words);
    if lanes.are_read() {
        source.read_ahead(MOST_BYTES);
    }
    let bytes = source.ahead();
    if bytes.len() > MOST_BYTES {
        return 0;
    }
    lane_count(alloc, lanes, bytes)
}

/// Does all that the program does, with lanes that go on by the seed's turns. `words` are those after the seed.
pub fn mixed<R: Threads + Clock + Sync, S: Source, K: Sink>(
    rt: &R,
    alloc: Global,
    seed: u64,
    words: &[String],
    source: &mut AheadSource<S>,
    sink: &mut K,
) -> MixedRun
    // as without a seed: by the words, what the source gave, and what the sink took
    ensures ends { Ends (command_of (map string_bytes words.now))
        (change (left_of S.left) handed_on source.old source.new)
        (change K.taken K.faults sink.old sink.new)
        result.outcome.status result.outcome.history }
    ensures completes { Completes (command_of (map string_bytes words.now))
        (change (left_of S.left) handed_on source.old source.new)
        (change K.taken K.faults sink.old sink.new)
        result.outcome.status }
    ensures unread { LeavesSource (command_of (map string_bytes words.now)) → source.new
        ≡ source.old }
    ensures unwritten { LeavesSink result.outcome.status → sink.new ≡ sink.old }
{
    let lanes = count_lanes(alloc, words, source);
    let gate = TurnGate::new(seed, lanes, rt);
    let outcome = top(rt, alloc, words, source, sink, &gate);
    let report = gate.report();
    MixedRun { outcome, report }
}
