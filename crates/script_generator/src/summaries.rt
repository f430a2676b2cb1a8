// The summary of a history's verdicts.
ghost use Rattle.std.specs.Prelude.{◌≡◌, ◌++◌, count_by, filter_map, IfOk, OnOk};
ghost use Rattle.std.specs.String.{string_bytes};
ghost use Rattle.history_laws.specs.Live.{kind_of_verdict};
ghost use Rattle.script_generator.specs.Summaries.{is_code, denied_line, denied_lines, summary_text, reply_code};

use event_words::{Reply, Verdict};
use std::alloc::{AllocError, Global};

/// 0 where a verdict allows, else the violation's code.
fn kind_of_verdict(verdict: &Verdict) -> u8
    ensures { result ≡ kind_of_verdict verdict.now }
{
    match verdict {
        Verdict::Allowed { .. } => 0,
        Verdict::Denied(denial) => denial.kind,
    }
}

/// The code of a reply that is a verdict.
fn reply_code(reply: &Reply) -> Option<u8>
    ensures { result ≡ reply_code reply.now }
{
    match reply {
        Reply::Verdict(verdict) => Some(kind_of_verdict(verdict)),
        _ => None,
    }
}

/// The codes of the replies that are verdicts, in their order.
pub fn verdict_codes(alloc: Global, replies: &[Reply]) -> Result<Vec<u8>, AllocError>
    ensures { IfOk result (λ codes. codes.items ≡ filter_map reply_code replies.now) }
{
    replies
        .iter()
        .filter_map(|reply| reply_code(reply))
        .collect(alloc)
}

fn count(codes: &[u8], code: u8) -> usize
    ensures { result ≡ count_by (is_code code) codes.now }
{
    codes.iter().filter(|other| **other == code).count()
}

fn push_denied(out: &mut String, codes: &[u8], code: u8) -> Result<(), AllocError>
    ensures { OnOk result
        (string_bytes out.new ≡ string_bytes out.old ++ denied_line codes.now code) }
{
    let count = count(codes, code);
    write!(out, "denied {code} {count}\n")
}

/// A line for each code of a violation.
#[tactic(auto, unfolding(crate::specs::Summaries::denied_lines))]
fn push_all_denied(out: &mut String, codes: &[u8]) -> Result<(), AllocError>
    ensures { OnOk result (string_bytes out.new ≡ string_bytes out.old ++ denied_lines codes.now) }
{
    for code in 1..8u8 {
        push_denied(out, codes, code)?;
    }
    Ok(())
}

/// The summary of verdicts with these codes, for the script of a number.
pub fn summary(alloc: Global, number: u32, codes: &[u8]) -> Result<Vec<u8>, AllocError>
    ensures { IfOk result (λ text. text.items ≡ summary_text number codes.now) }
{
    let verdicts = codes.len();
    let allowed = count(codes, 0);
    let mut out = format!(in alloc; "soak {number}\nverdicts {verdicts}\nallowed {allowed}\n")?;
    push_all_denied(&mut out, codes)?;
    out.push_str("end\n")?;
    Ok(out.into_bytes())
}
