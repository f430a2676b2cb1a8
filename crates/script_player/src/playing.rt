// A script played by its lanes on one shared log.
ghost use Rattle.std.specs.Prelude.{◌≡◌, ◌+◌, ◌*◌, ◌<◌, ◌≤◌, ℕ, [], All, length, map, IfOk, slice_index_or, vec_capacity};
ghost use Rattle.std.specs.List.{AllByRecursion};
ghost use Rattle.event_words.specs.Valid.{IsValidShape};
ghost use Rattle.script_reader.specs.Scripts.{IsWellFormedScript, need_of};
ghost use Rattle.shared_log.specs.Words.{words_by};
ghost use Rattle.unit_core.specs.Histories.{IsLegalHistory};
ghost use Rattle.checker_workers.specs.Ports.{PortView};
ghost use Rattle.checker_workers.specs.Lanes.{LaneView, MayPlay, MayRun};
ghost use Rattle.script_player.specs.PlayedSections.{section_of, HasPlayed, IsFirstCaller, MaySplit, MayBePlayed, MayAllPlay, IsReadyPlayer, IsReadyLane, AreReadyLanes, RunsTo, port_of};
ghost use Rattle.script_player.specs.KeptReplies.{IsKept, AreKept};
ghost use Rattle.script_player.specs.MergedReplies.{IsToldBy};
ghost use Rattle.script_player.specs.ToldHistories.{IsToldOf};

use crate::budgets::budget;
use crate::memory::NoMemory;
use crate::players::{Player, copy_sections, make_players};
use crate::seen::seen_by;
use crate::told::{Seen, Told, told_or_replayed};
use checker_workers::{Gate, Lane, Port, play_section, run_lanes};
use event_words::{Reply, Section, Shape};
use script_reader::Script;
use shared_log::{Caller, History, Shared, close, split};
use std::alloc::Global;
use std::thread::Threads;
use unit_core::Fabric;

/// A history, and what the units told of it.
#[derive(Drop)]
pub struct ToldHistory {
    pub history: History,
    pub told: Told,
}

/// The callers of lanes that ran, and for each the replies to its events, where it kept them.
#[derive(Drop)]
struct Callers {
    rest: Vec<Caller<Fabric>>,
    kept: Vec<Option<Vec<Reply>>>,
}

/// A history, the replies that each of its callers kept, and what one of them saw.
#[derive(Drop)]
struct Closed {
    history: History,
    kept: Vec<Option<Vec<Reply>>>,
    seen: Seen,
}

/// Plays the boot section by the first caller, and keeps the replies in this list where it can.
fn play_boot<G: Gate>(
    alloc: Global,
    shared: &Shared,
    first: Caller<Fabric>,
    replies: Vec<Reply>,
    section: &Section,
    gate: &G,
) -> Result<(Caller<Fabric>, Option<Vec<Reply>>), NoMemory>
    requires first { IsFirstCaller shared.now first }
    requires none { first.log ≡ [] }
    requires may { MayPlay section.now first }
    requires empty { replies.items ≡ [] }
    requires room { first.left ≤ vec_capacity replies }
    ensures first { IfOk result (λ r.
        IsFirstCaller shared.now r.0 × (r.0.first ≡ first.first)) }
    ensures played { IfOk result (λ r. HasPlayed first.first 0 section.now r.0) }
    ensures kept { IfOk result (λ r. IsKept r.0 r.1) }
{
    let port = play_section(alloc, section, Port::telling(first, replies), shared, gate)?;
    Ok(port.into_told())
}

/// One lane more, with a caller of its own.
fn split_lane(
    alloc: Global,
    shared: &Shared,
    first: &mut Caller<Fabric>,
    player: Player,
) -> Result<Lane, NoMemory>
    requires may { MaySplit shared.now first.old }
    requires player { IsReadyPlayer shared.now first.old.first player }
    ensures first { first.new ≡ record first.old { made = first.old.made + 1 } }
    ensures ready { IfOk result (λ lane.
        IsReadyLane shared.now first.old.first first.old.made player.section lane) }
    ensures alone { first.old.made ≡ 1 → words_by 0 first.old.log ≡ first.old.log }
{
    let Player {
        section,
        replica,
        replies,
    } = player;
    let caller = split(shared, first, replica);
    Ok(Lane::new(alloc, section, Port::telling(caller, replies))?)
}

/// A lane for each player, each with a caller of its own.
fn split_lanes(
    alloc: Global,
    shared: &Shared,
    first: &mut Caller<Fabric>,
    players: Vec<Player>,
) -> Result<Vec<Lane>, NoMemory>
    requires first { IsFirstCaller shared.now first.old }
    requires callers { length players.items + 1 ≡ shared.now.callers }
    requires players { AllByRecursion (IsReadyPlayer shared.now first.old.first) players.items }
    ensures first { IfOk result (λ _.
        first.new ≡ record first.old { made = length players.items + 1 }) }
    ensures ready { IfOk result (λ lanes.
        AreReadyLanes shared.now first.old.first (map section_of players.items) lanes.items) }
    ensures alone { IfOk result (λ _. first.old.made ≡ 1 → 1 ≤ length players.items →
        words_by 0 first.old.log ≡ first.old.log) }
{
    let mut lanes = Vec::new(alloc);
    for player in players {
        let lane = split_lane(alloc, shared, first, player)?;
        if lanes.push(lane).is_err() {
            return Err(NoMemory);
        }
    }
    Ok(lanes)
}

/// The callers of lanes, and what each kept.
fn into_callers(alloc: Global, lanes: Vec<Lane>) -> Result<Callers, NoMemory>
    ensures callers { IfOk result (λ c. c.rest.items ≡ map port_of lanes.items) }
    ensures kept { IfOk result (λ c. AreKept c.rest.items c.kept.items) }
{
    let mut rest = Vec::with_capacity(alloc, lanes.len())?;
    let mut kept = Vec::with_capacity(alloc, lanes.len() + 1)?;
    for lane in lanes {
        let (caller, replies) = lane.into_port().into_told();
        if rest.push(caller).is_err() || kept.push(replies).is_err() {
            return Err(NoMemory);
        }
    }
    Ok(Callers { rest, kept })
}

/// Runs the lanes beside each other, and takes their callers out.
fn run_all<R: Threads + Sync, G: Gate + Sync>(
    rt: &R,
    alloc: Global,
    shared: &Shared,
    lanes: Vec<Lane>,
    gate: &G,
) -> Result<Callers, NoMemory>
    requires ready { All (λ l. MayRun shared.now l) lanes.items }
    ensures count { IfOk result (λ c. length c.rest.items ≡ length lanes.items) }
    ensures ran { IfOk result (λ callers.
        (k : ℕ) (l : LaneView) (c : PortView) → k < length lanes.items →
        RunsTo (slice_index_or lanes.items k l) (slice_index_or callers.rest.items k c)) }
    ensures kept { IfOk result (λ c. AreKept c.rest.items c.kept.items) }
{
    let mut lanes = lanes;
    run_lanes(rt, shared, &mut lanes, gate);
    into_callers(alloc, lanes)
}

/// Plays the sections on one log, each with at most `budget` events, on units of these shapes.
fn play_sections<R: Threads + Sync, G: Gate + Sync>(
    rt: &R,
    alloc: Global,
    shapes: &[Shape],
    boot: &Section,
    lanes: Vec<Section>,
    budget: u32,
    gate: &G,
) -> Result<Closed, NoMemory>
    requires count { (1 ≤ length shapes.now) × (length shapes.now ≤ 4) }
    requires shapes { AllByRecursion IsValidShape shapes.now }
    requires lanes { length lanes.items ≤ 16 }
    requires budget { (1 ≤ budget) × ((length lanes.items + 1) * budget ≤ 1048576) }
    requires boot { MayBePlayed (length shapes.now) budget boot.now }
    requires sections { MayAllPlay (length shapes.now) budget lanes.items }
    ensures legal { IfOk result (λ p.
        IsLegalHistory shapes.now boot.now lanes.items p.history) }
    ensures few { IfOk result (λ p. length p.history ≤ (length lanes.items + 1) * budget) }
    ensures told { IfOk result (λ p. IsToldBy shapes.now p.history p.kept.items p.seen) }
{
    let count = lanes.len() as u8 + 1;
    let places = count as u32 * budget;
    let players = make_players(alloc, shapes, places, budget, lanes)?;
    let units = Fabric::open(alloc, shapes, places)?;
    let replies = Vec::with_capacity(alloc, budget as usize)?;
    let (shared, first) = Shared::open(alloc, count, budget, units)?;
    let (mut first, own) = play_boot(alloc, &shared, first, replies, boot, gate)?;
    let lanes = split_lanes(alloc, &shared, &mut first, players)?;
    let Callers { rest, mut kept } = run_all(rt, alloc, &shared, lanes, gate)?;
    if kept.insert(0, own).is_err() {
        return Err(NoMemory);
    }
    let seen = seen_by(alloc, &first, &rest)?;
    let history = close(shared, first, rest);
    Ok(Closed {
        history,
        kept,
        seen,
    })
}

/// What the units told of a history, by what its callers kept and saw where that is enough.
fn tell(alloc: Global, shapes: &[Shape], closed: Closed) -> Result<ToldHistory, NoMemory>
    requires count { (1 ≤ length shapes.now) × (length shapes.now ≤ 4) }
    requires shapes { AllByRecursion IsValidShape shapes.now }
    requires few { length closed.history ≤ 1048576 }
    requires told { IsToldBy shapes.now closed.history closed.kept.items closed.seen }
    ensures history { IfOk result (λ p. p.history ≡ closed.history) }
    ensures told { IfOk result (λ p. IsToldOf p.told shapes.now closed.history) }
{
    let Closed {
        history,
        kept,
        seen,
    } = closed;
    let told = told_or_replayed(alloc, shapes, history.words(), kept, seen)?;
    Ok(ToldHistory { history, told })
}

/// Plays a script as `play` does, and hands out what the units told of its history too.
pub fn play_told<R: Threads + Sync, G: Gate + Sync>(
    rt: &R,
    alloc: Global,
    script: &Script,
    gate: &G,
) -> Result<ToldHistory, NoMemory>
    requires formed { IsWellFormedScript script.now }
    requires few { need_of script.now ≤ 1048576 }
    ensures legal { IfOk result (λ p.
        IsLegalHistory script.now.shapes script.now.boot script.now.lanes p.history) }
    ensures few { IfOk result (λ p. length p.history ≤ need_of script.now) }
    ensures told { IfOk result (λ p. IsToldOf p.told script.now.shapes p.history) }
{
    let budget = budget(script);
    let lanes = copy_sections(alloc, &script.lanes)?;
    let shapes = script.shapes.as_slice();
    let closed = play_sections(rt, alloc, shapes, &script.boot, lanes, budget, gate)?;
    tell(alloc, shapes, closed)
}

/// The same of a script that is used up, whose sections are not copied.
pub fn play_whole<R: Threads + Sync, G: Gate + Sync>(
    rt: &R,
    alloc: Global,
    script: Script,
    gate: &G,
) -> Result<ToldHistory, NoMemory>
    requires formed { IsWellFormedScript script }
    requires few { need_of script ≤ 1048576 }
    ensures legal { IfOk result (λ p.
        IsLegalHistory script.shapes script.boot script.lanes p.history) }
    ensures few { IfOk result (λ p. length p.history ≤ need_of script) }
    ensures told { IfOk result (λ p. IsToldOf p.told script.shapes p.history) }
{
    let budget = budget(&script);
    let Script {
        shapes,
        boot,
        lanes,
    } = script;
    let closed = play_sections(rt, alloc, &shapes, &boot, lanes, budget, gate)?;
    tell(alloc, &shapes, closed)
}

/// Plays the boot section by the first caller of a log, and then the lanes beside each other, each by
/// a caller and a thread of its own. Each section tells the gate of its steps as `Gate` says.
///
/// The script has 1 to 4 units and at most 16 lanes, its sections are valid and name units that are
/// there, and it needs at most 1048576 events. `Ok` gives a legal history of the script, which has no
/// more events than the script needs.
///
/// The memory of the log, of the replicas, of the lists that keep the replies, of the lanes' sections, which
/// are copied, and of the boot section's table of tickets is taken before the first event, that of the lanes
/// and of their tables of tickets after the boot section, that of the lists of callers and of what they kept,
/// by which the log is closed, after the lanes ran, and that of the replies to the whole history after the
/// close. Whenever there is none, the history is lost.
pub fn play<R: Threads + Sync, G: Gate + Sync>(
    rt: &R,
    alloc: Global,
    script: &Script,
    gate: &G,
) -> Result<History, NoMemory>
    requires formed { IsWellFormedScript script.now }
    requires few { need_of script.now ≤ 1048576 }
    ensures legal { IfOk result (λ words.
        IsLegalHistory script.now.shapes script.now.boot script.now.lanes words) }
    ensures few { IfOk result (λ words. length words ≤ need_of script.now) }
{
    let ToldHistory { history, .. } = play_told(rt, alloc, script, gate)?;
    Ok(history)
}
