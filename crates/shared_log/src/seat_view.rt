// What the holder of a seat at the table knows.
use std::collections::LinkedList;

/// What a caller knows of the log, in its seat at the table. No value of it is made.
pub struct SeatView {
    pub live: bool,
    pub number: u64,
    pub callers: u64,
    pub budget: u64,
    pub log: LinkedList<u64>,
    pub made: u64,
    pub joined: LinkedList<LinkedList<u64>>,
}
