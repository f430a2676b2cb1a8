// How a call of the program ends.

use command_answers::Status;
use shared_log::History;

/// How a call of `top` ended, and the history of its run where it played lanes and is done.
#[derive(Drop)]
pub struct Outcome {
    pub status: Status,
    pub history: Option<History>,
}
