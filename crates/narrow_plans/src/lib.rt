//! Narrow plans: the commands that take a unit from one policy to another while only those requesters
//! stall whose rules change in some state on the way.
//!
//! What a requester's rules are in a state is its view: what it sees of the entries. The definitions of
//! views, of the states and of the commands stand in `specs/`.
#![tactic(auto)]

ghost use Rattle.narrow_plans.specs.Laws.{LawNarrow, LawRanges, LawViews};

mod planning;
mod states;
mod views;

pub use planning::narrow;

/// The range of an entry's view has exactly the entry's bytes.
pub fn law_ranges()
    ensures { LawRanges }
{}

/// Registers that give a requester equal views decide each valid access of it with the same kind.
pub fn law_views()
    ensures { LawViews }
{}

/// During a narrow update each verdict on an unaffected requester is that of both policies, and none of its
/// submissions is queued or turned away. A verdict on an affected one is the old policy's up to the drained
/// reading and the new one's after the release, and none stands between the two.
pub fn law_narrow()
    ensures { LawNarrow }
{}

#[cfg(test)]
mod tests;
