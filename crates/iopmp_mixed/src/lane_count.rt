// How many lanes a command plays.
ghost use Rattle.std.specs.Prelude.{◌≡◌, ◌⊎◌, ◌≤◌, length, map};
ghost use Rattle.std.specs.String.{string_bytes};
ghost use Rattle.iopmp_mixed.specs.LaneCounts.{HasScriptLanes, HasUpdateLanes, Counts, are_read, played_by_two, played};

use script_reader::{read_lanes, read_script, read_update};
use std::alloc::Global;

/// The lanes of a generated script.
const GENERATED_LANES: u8 = 8;

/// Whose lanes a command plays.
#[derive(Clone, Copy, Debug, PartialEq, Eq)]
pub enum Lanes {
    /// Those of the script that is read.
    OfScript,
    /// The plan of the update that is read, and the lanes beside it.
    OfUpdate,
    /// Those of a generated script.
    Generated,
    Nothing,
}

impl Lanes {
    /// Whether they stand in the input.
    pub fn are_read(self) -> bool
        ensures { result ≡ are_read self }
    {
        match self {
            Lanes::OfScript | Lanes::OfUpdate => true,
            Lanes::Generated | Lanes::Nothing => false,
        }
    }
}

/// Whose lanes a command of two words plays.
fn played_by_two(word: &str, next: &str) -> Lanes
    ensures { result ≡ played_by_two word.now next.now }
{
    if word == "soak" {
        return Lanes::Generated;
    }
    if word == "narrow" {
        return if next == "live" {
            Lanes::OfUpdate
        } else {
            Lanes::Nothing
        };
    }
    Lanes::Nothing
}

/// Whose lanes are played, by the words after the seed.
pub fn played(words: &[String]) -> Lanes
    ensures { result ≡ played (map string_bytes words.now) }
{
    match words {
        [word] if word.as_str() == "run" => Lanes::OfScript,
        [word] if word.as_str() == "live" => Lanes::OfUpdate,
        [word] if word.as_str() == "faults" => Lanes::OfScript,
        [word, next] => played_by_two(word.as_str(), next.as_str()),
        _ => Lanes::Nothing,
    }
}

fn in_a_byte(count: usize) -> u8
    ensures { (result ≡ 0) ⊎ (result ≡ count) }
{
    u8::try_from(count).unwrap_or(0)
}

/// The lanes of a script, and 0 where it is refused.
fn script_lanes(alloc: Global, bytes: &[u8]) -> u8
    requires { length bytes.now ≤ 4194304 }
    ensures { (result ≡ 0) ⊎ HasScriptLanes bytes.now result }
{
    match read_script(alloc, bytes) {
        Ok(script) => in_a_byte(script.lanes.len()),
        Err(_) => 0,
    }
}

/// The lanes of an update, its plan among them, and 0 where they are refused.
fn update_lanes(alloc: Global, bytes: &[u8]) -> u8
    requires { length bytes.now ≤ 4194304 }
    ensures { (result ≡ 0) ⊎ HasUpdateLanes bytes.now result }
{
    let Ok(update) = read_update(alloc, bytes, true) else {
        return 0;
    };
    match read_lanes(alloc, &update.lanes, update.first_line) {
        Ok(lanes) => in_a_byte(lanes.len() + 1),
        Err(_) => 0,
    }
}

/// How many lanes are played on these bytes, and 0 where they are refused.
pub fn lane_count(alloc: Global, lanes: Lanes, bytes: &[u8]) -> u8
    requires { length bytes.now ≤ 4194304 }
    ensures { Counts lanes bytes.now result }
{
    match lanes {
        Lanes::OfScript => script_lanes(alloc, bytes),
        Lanes::OfUpdate => update_lanes(alloc, bytes),
        Lanes::Generated => GENERATED_LANES,
        Lanes::Nothing => 0,
    }
}
