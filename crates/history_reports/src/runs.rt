// The report of one run: of a legal history of a script.
ghost use Rattle.std.specs.Prelude.{◌≤◌, IfOk, length};
ghost use Rattle.std.specs.List.{AllByRecursion};
ghost use Rattle.event_words.specs.Runs.{IsEventWord};
ghost use Rattle.script_reader.specs.Scripts.{IsWellFormedScript};
ghost use Rattle.unit_core.specs.Histories.{IsLegalHistory};
ghost use Rattle.script_player.specs.ToldHistories.{IsToldOf};
ghost use Rattle.history_reports.specs.WantedReports.{IsTextOf, IsRunOf};

use crate::reports::{faults_report, told_report};
use fault_windows::law_faults;
use history_laws::{law_kept, law_one_history, law_reports};
use script_player::{NoMemory, Told};
use script_reader::Script;
use std::alloc::Global;

/// Which report is wanted of a history.
#[derive(Clone, Copy, Debug, PartialEq, Eq)]
pub enum WhichReport {
    /// Its events, how its sections end, and what its units keep.
    Plain,
    /// The same, and the windows of later violations.
    WithFaults,
}

/// The report that is wanted of a history of which this is told.
fn text_of(
    alloc: Global,
    which: WhichReport,
    script: &Script,
    words: &[u64],
    told: &Told,
) -> Result<Vec<u8>, NoMemory>
    requires formed { IsWellFormedScript script.now }
    requires few { length words.now ≤ 1048576 }
    requires words { AllByRecursion IsEventWord words.now }
    requires told { IsToldOf told.now script.now.shapes words.now }
    ensures { IfOk result (λ text. IsTextOf which script.now words.now text.items) }
{
    match which {
        WhichReport::Plain => told_report(alloc, script, words, told),
        WhichReport::WithFaults => faults_report(alloc, script, words, told),
    }
}

/// The report that is wanted of one run of a script: of a legal history of which this is told, of at most 1048576
/// words.
pub fn run_report(
    alloc: Global,
    which: WhichReport,
    script: &Script,
    words: &[u64],
    told: &Told,
) -> Result<Vec<u8>, NoMemory>
    requires formed { IsWellFormedScript script.now }
    requires few { length words.now ≤ 1048576 }
    requires legal { IsLegalHistory script.now.shapes script.now.boot script.now.lanes words.now }
    requires told { IsToldOf told.now script.now.shapes words.now }
    ensures { IfOk result (λ text. IsRunOf which script.now words.now text.items) }
{
    law_kept();
    law_one_history();
    law_reports();
    law_faults();
    let text = text_of(alloc, which, script, words, told)?;
    Ok(text)
}
