// The command `audit`: whether a report is that of a legal history of a script.
ghost use Rattle.std.specs.Prelude.{◌≡◌, ◌≤◌, length, Ok, IfOk};
ghost use Rattle.script_reader.specs.Scripts.{IsWellFormedScript, need_of};
ghost use Rattle.script_reader.specs.ReportTexts.{report_text_at};
ghost use Rattle.command_answers.specs.AnswerForms.{GivesOr};
ghost use Rattle.command_answers.specs.AuditCommand.{Says, IsSaid, HasNoReport};
ghost use Rattle.command_answers.specs.CommandTables.{Answers};
ghost use Rattle.command_answers.specs.declared.subcommand.Subcommand.TheVariants as commands;

use crate::answers::{Answer, NoAnswer, text_answer};
use crate::inputs::script::written_script;
use crate::refusals::bad_line;
use crate::status::Status;
use audit_reader::Audit;
use script_reader::{ReportText, Script, read_report_text};
use std::alloc::{AllocError, Global};

/// The script's text and the report's bytes, where a heading stands between them.
fn parted<'a>(alloc: Global, bytes: &'a [u8]) -> Result<ReportText<'a>, NoAnswer>
    requires { length bytes.now ≤ 4194304 }
    ensures parts { GivesOr (λ t. report_text_at bytes.now ≡ Ok t) (HasNoReport bytes.now) result }
    ensures script { IfOk result (λ t. length t.script ≤ 4194304) }
{
    match read_report_text(bytes) {
        Ok(parts) => Ok(parts),
        Err(error) => Err(bad_line(alloc, &error)),
    }
}

/// What is said of a report that was found so, of which the heading has this line.
fn said(alloc: Global, heading: u32, found: Audit) -> Result<Answer, AllocError>
    ensures { IfOk result (λ a. Says heading found a.status a.history a.text.items) }
{
    match found {
        Audit::Legal => Ok(text_answer(b"yes\n".to_vec(alloc)?)),
        Audit::BadAt { line } => {
            let line = heading as u64 + line as u64;
            Ok(Answer {
                status: Status::NotLegal,
                history: None,
                text: format!(in alloc; "no {line}\n")?.into_bytes(),
            })
        }
    }
}

/// Audits the report of a script.
fn audited(alloc: Global, script: &Script, heading: u32, report: &[u8]) -> Result<Answer, NoAnswer>
    requires formed { IsWellFormedScript script.now }
    requires few { need_of script.now ≤ 1048576 }
    ensures { GivesOr (λ a. IsSaid script.now heading report.now a.status a.history a.text.items)
        (λ line. ⊥) result }
{
    let Ok(found) = audit_reader::audit(alloc, script, report) else {
        return Err(NoAnswer::NoMemory);
    };
    match said(alloc, heading, found) {
        Ok(answer) => Ok(answer),
        Err(_) => Err(NoAnswer::NoMemory),
    }
}

/// Whether the report in the input is that of a legal history of the script before it.
pub fn audit_answer(alloc: Global, bytes: &[u8]) -> Result<Answer, NoAnswer>
    requires { length bytes.now ≤ 4194304 }
    ensures { Answers commands.Audit bytes.now result }
{
    let parts = match parted(alloc, bytes) {
        Ok(parts) => parts,
        Err(refused) => return Err(refused),
    };
    let script = match written_script(alloc, parts.script) {
        Ok(script) => script,
        Err(refused) => return Err(refused),
    };
    audited(alloc, &script, parts.heading, parts.report)
}
