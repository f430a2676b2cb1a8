// All that the program does, over any source and sink: the words, the input, the answer, and the writing of it.
ghost use Rattle.std.specs.Prelude.{◌≡◌, map, false, Some};
ghost use Rattle.std.specs.String.{string_bytes};
ghost use Rattle.iopmp_program.specs.CommandWords.{command_of};
ghost use Rattle.command_answers.specs.CommandTables.{reads};
ghost use Rattle.iopmp_program.specs.CallEndings.{change, Ends, EndsCommand, Completes, LeavesSource, LeavesSink};

use crate::edges::{read_input, without_history, write_answer};
use crate::fault_lines::{too_long_line, usage_line};
use crate::outcome::Outcome;
use crate::words::command_in;
use checker_workers::Gate;
use command_answers::{Answer, NoAnswer, Status, Subcommand, answer};
use edge_io::{ReadError, Sink, Source};
use std::alloc::Global;
use std::thread::Threads;

/// Reads the input of a command, answers it, and writes the answer.
fn call_command<R: Threads + Sync, S: Source, K: Sink, G: Gate + Sync>(
    rt: &R,
    alloc: Global,
    command: Subcommand,
    source: &mut S,
    sink: &mut K,
    gate: &G,
) -> Outcome
    ensures ends { EndsCommand command (change S.left S.faults source.old source.new)
        (change K.taken K.faults sink.old sink.new) result.status result.history }
    ensures unread { reads command ≡ false → source.new ≡ source.old }
    ensures unwritten { LeavesSink result.status → sink.new ≡ sink.old }
{
    let bytes = match read_input(alloc, command, source) {
        Ok(bytes) => bytes,
        Err(ReadError::Fault) => return without_history(Status::ReadFault),
        Err(ReadError::NoMemory) => return without_history(Status::NoMemory),
        Err(ReadError::TooLong) => {
            return write_answer(sink, Status::TooLong, None, too_long_line().as_bytes());
        }
    };
    let given = match answer(rt, alloc, command, &bytes, gate) {
        Ok(given) => given,
        Err(NoAnswer::Refused(line)) => {
            return write_answer(sink, Status::BadInput, None, line.as_bytes());
        }
        Err(NoAnswer::NoMemory) => return without_history(Status::NoMemory),
    };
    let Answer {
        status,
        history,
        text,
    } = given;
    write_answer(sink, status, history, &text)
}

/// Does all that the program does. `words` are those after the program's name.
pub fn top<R: Threads + Sync, S: Source, K: Sink, G: Gate + Sync>(
    rt: &R,
    alloc: Global,
    words: &[String],
    source: &mut S,
    sink: &mut K,
    gate: &G,
) -> Outcome
    // how the call ends: by its words, what the source gave, and what the sink took
    ensures ends { Ends (command_of (map string_bytes words.now))
        (change S.left S.faults source.old source.new) (change K.taken K.faults sink.old sink.new)
        result.status result.history }
    // an input without a fault over streams that don't fail is answered, unless memory runs out
    ensures completes { Completes (command_of (map string_bytes words.now))
        (change S.left S.faults source.old source.new) (change K.taken K.faults sink.old sink.new)
        result.status }
    // `gen`, `soak` and words that are no command
    ensures unread { LeavesSource (command_of (map string_bytes words.now)) →
        source.new ≡ source.old }
    // a failed source, or want of memory
    ensures unwritten { LeavesSink result.status → sink.new ≡ sink.old }
{
    match command_in(words) {
        Some(command) => call_command(rt, alloc, command, source, sink, gate),
        None => write_answer(sink, Status::Usage, None, usage_line().as_bytes()),
    }
}
