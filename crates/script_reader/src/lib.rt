//! Reads scripts: the lines of a text become the shapes of units and the sections of commands, or
//! the first bad line has a code.
//!
//! The definitions of what a line means and of which code it has stand in `specs/`, one file an idea.
#![tactic(auto)]

mod command;
mod key_slots;
mod live;
mod name;
mod number;
mod print;
mod reader;
mod report_text;
mod script;
mod section;
mod step;
mod text;
mod unit_line;
mod update_text;
mod words;

pub use live::read_lanes;
pub use number::decimal_number;
pub use print::{NoMemory, print_lane, print_script};
pub use report_text::{ReportText, read_report_text};
pub use script::{Script, ScriptError, read_script};
pub use update_text::{UpdateText, read_update};
