// The two edges of a call: all of the input is read before anything is answered, and then one text is written.
ghost use Rattle.std.specs.Prelude.{◌≡◌, false, None};
ghost use Rattle.command_answers.specs.CommandTables.{reads};
ghost use Rattle.iopmp_program.specs.CallEndings.{change};
ghost use Rattle.iopmp_program.specs.StreamEdges.{Reads, WritesOrStops};

use crate::outcome::Outcome;
use command_answers::{Status, Subcommand};
use edge_io::{ReadError, Sink, Source, read_all, write_all};
use shared_log::History;
use std::alloc::Global;

/// The most bytes of an input.
const MOST_BYTES: usize = 4194304;

/// The bytes that a command answers for: all that the source has left, or none where it reads none.
pub fn read_input<S: Source>(
    alloc: Global,
    command: Subcommand,
    source: &mut S,
) -> Result<Vec<u8>, ReadError>
    ensures read { Reads command (change S.left S.faults source.old source.new) result }
    ensures unread { reads command ≡ false → source.new ≡ source.old }
{
    if !command.reads() {
        return Ok(Vec::new(alloc));
    }
    read_all(alloc, source, MOST_BYTES)
}

/// Writes the whole text, handing all that is left of it to the sink each time. With this status and history the
/// call ends once it is written.
pub fn write_answer<K: Sink>(
    sink: &mut K,
    status: Status,
    history: Option<History>,
    text: &[u8],
) -> Outcome
    ensures { WritesOrStops (change K.taken K.faults sink.old sink.new) status history text.now
        result.status result.history }
{
    match write_all(sink, text) {
        Ok(()) => Outcome { status, history },
        Err(_) => without_history(Status::WriteFault),
    }
}

/// An end without a text.
pub fn without_history(status: Status) -> Outcome
    ensures { result ≡ record { status = status; history = None } }
{
    Outcome {
        status,
        history: None,
    }
}
