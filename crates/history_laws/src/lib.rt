//! Laws over histories of the units, from reset on.
//!
//! Each law is the clause of a function that takes and answers nothing. Most speak of every list of events, in
//! any order and by any callers, on units of any shapes; those on guards, of units with valid shapes. One speaks
//! of a single step of any state, and the last five of the sections of scripts and of their histories.
#![tactic(auto)]

ghost use Rattle.history_laws.specs.Queues.{LawQueued};
ghost use Rattle.history_laws.specs.Windows.{LawWindows};
ghost use Rattle.history_laws.specs.Guards.{LawGuards};
ghost use Rattle.history_laws.specs.Tickets.{LawTickets};
ghost use Rattle.history_laws.specs.Verdicts.{LawVerdicts};
ghost use Rattle.history_laws.specs.Laws.{LawKept};
ghost use Rattle.history_laws.specs.Lengths.{LawLengths};
ghost use Rattle.history_laws.specs.OneHistory.{LawOneHistory};
ghost use Rattle.history_laws.specs.Live.{LawLive};
ghost use Rattle.history_laws.specs.EqualReports.{LawReports};
ghost use Rattle.history_laws.specs.Unwritten.{LawUnwritten};
ghost use Rattle.history_laws.specs.Aims.{LawAims};
ghost use Rattle.history_laws.specs.NothingFound.{LawNoSuch};

/// In every state each queued submission has a known, stalled requester, and a queue has at most its
/// size.
pub fn law_queued()
    ensures { LawQueued }
{}

/// No verdict on an access of a requester is given in a drained window of the requester.
pub fn law_windows()
    ensures { LawWindows }
{}

/// A bit that is guarded at a place is guarded at each later place, and has the same value there.
pub fn law_guards()
    ensures { LawGuards }
{}

/// A submission that was passed or queued stands once in the queue or flight of its unit, up to the first
/// verdict on it. Its caller's judgements reply `Held` before that verdict and `NoSuch` after it, and
/// always `Held` where there is none.
pub fn law_tickets()
    ensures { LawTickets }
{}

/// A verdict is what the registers of its place decide on its submission's access.
pub fn law_verdicts()
    ensures { LawVerdicts }
{}

/// Before each place a caller aims at the address of its last Aim, and at 0 where it made none.
pub fn law_aims()
    ensures { LawAims }
{}

/// A word is answered `NoSuch` exactly where it is no event's, its unit isn't there, it judges no submission of
/// its caller that is open on the unit, or it is a wide submission that would end past the last address.
/// Nothing changes then.
pub fn law_no_such()
    ensures { LawNoSuch }
{}

/// What a program may promise of each of its histories: no verdict in a drained window, `Busy` only where
/// the queue is full, and guarded bits that never change.
pub fn law_kept()
    ensures { LawKept }
{}

/// No whole record of a section is longer than the most events that its commands make.
pub fn law_lengths()
    ensures { LawLengths }
{}

/// A script without lanes has one legal history.
pub fn law_one_history()
    ensures { LawOneHistory }
{}

/// Of two policies of equal shapes that both compile: in each history of the script whose boot section is
/// the old image's writes, whose lane 1 is the plan and whose further lanes write no register, a verdict
/// on a known requester is the old policy's up to the drained reading and the new one's after the release,
/// and none stands between the two. A verdict on an unknown requester is violation 6 everywhere.
pub fn law_live()
    ensures { LawLive }
{}

/// A report tells the whole history that it is of: two lists of event words, legal or not, that give
/// equal reports under one script are equal.
pub fn law_reports()
    ensures { LawReports }
{}

/// Where the lanes of a script write no register, each verdict of a legal history on a lane's judgement is
/// what the registers after the boot section's events decide on its submission's access, in whatever order
/// the lanes come.
pub fn law_unwritten()
    ensures { LawUnwritten }
{}
