// The rule of the table, and the kinds of step that callers make.
use crate::seat_view::SeatView;
use atomic_table::{Join, Play, Split, TableRule};

/// How many callers there may be, and how many events each may make.
#[derive(Drop)]
pub struct LogSize {
    pub callers: u64,
    pub budget: u64,
}

/// The rule of the table: its words are one log, of which each live seat knows a beginning, and the
/// first caller's seat is live.
pub struct LogRule;

impl TableRule<(), SeatView, LogSize> for LogRule {
    ghost use Rattle.shared_log.specs.Rule.{IsSharedLog};
    ghost use Rattle.shared_log.specs.SeatViews.{opening_view};

    ghost holds = { λ key s. IsSharedLog key.callers key.budget s.words s.views };

    ghost first = { λ key. opening_view key.callers key.budget };
}

/// An exchange of the word at the caller's place, from 0 to the word of its event.
pub struct AppendWord;

impl Play<(), SeatView> for AppendWord {
    ghost use Rattle.shared_log.specs.Exchanges.{Exchanges};

    ghost then = { Exchanges };
}

/// A load of a word of the own log.
pub struct ReadBack;

impl Play<(), SeatView> for ReadBack {
    ghost use Rattle.shared_log.specs.Exchanges.{ReadsBack};

    ghost then = { ReadsBack };
}

/// One caller more.
pub struct AddCaller;

impl Split<SeatView> for AddCaller {
    ghost use Rattle.shared_log.specs.SeatViews.{with_caller, new_caller};

    ghost left = { with_caller };

    ghost right = { new_caller };
}

/// One caller less, whose log is kept.
pub struct JoinCaller;

impl Join<SeatView> for JoinCaller {
    ghost use Rattle.shared_log.specs.SeatViews.{with_joined_log, spent_view};

    ghost both = { with_joined_log };

    ghost spent = { spent_view };
}
