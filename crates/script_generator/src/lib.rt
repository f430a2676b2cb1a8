//! Generated scripts: the number of one, the script itself, and the summary of a run of it.
//!
//! A script is large, and the same each time. Whatever history is made of it, the verdicts are those that its
//! tables decide, so that the summary is the same each time too. The definitions stand in `specs/`, one file
//! an idea.
#![tactic(auto)]

ghost use Rattle.script_generator.specs.SoakHistories.{LawSoak};

mod number;
mod script;
mod summaries;

pub use number::script_number;
pub use script::generated_script;
pub use summaries::{summary, verdict_codes};

/// Each legal history of a generated script has a verdict for each of its 32768 transactions, and the summary
/// of these verdicts is the one that the tables after the boot section give.
pub fn law_soak()
    ensures { LawSoak }
{}
