// What a command answers for its input, before any of it is written.
ghost use Rattle.std.specs.Prelude.{◌≡◌, None, Some};
ghost use Rattle.command_answers.specs.declared.status.Status.TheVariants as statuses;

use crate::status::Status;
use shared_log::History;

/// The text that is to be written, the history that it tells of, if it tells of one, and the status of the call once
/// the whole text is written.
#[derive(Drop)]
pub struct Answer {
    pub status: Status,
    pub history: Option<History>,
    pub text: Vec<u8>,
}

/// Why a command has no answer.
#[derive(Drop)]
pub enum NoAnswer {
    /// Its input is refused, with this line.
    Refused(String),
    NoMemory,
}

/// A text, with which the work is done.
pub fn text_answer(text: Vec<u8>) -> Answer
    ensures { result ≡ record { status = statuses.Done; history = None; text = text } }
{
    Answer {
        status: Status::Done,
        history: None,
        text,
    }
}

/// A text that tells of a history, with which the work is done.
pub fn report_answer(history: History, text: Vec<u8>) -> Answer
    ensures { result ≡ record { status = statuses.Done; history = Some history; text = text } }
{
    Answer {
        status: Status::Done,
        history: Some(history),
        text,
    }
}
