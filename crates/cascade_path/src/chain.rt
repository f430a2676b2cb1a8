// Accesses through units.
ghost use Rattle.std.specs.Prelude.{◌≡◌, ◌+◌, ◌*◌, ◌<◌, ◌≤◌, ◌^◌, length};
ghost use Rattle.std.specs.List.{AllByRecursion};
ghost use Rattle.event_words.specs.declared.event.Event.TheVariants as events;
ghost use Rattle.event_words.specs.Sections.{IsUnit, submission_events};
ghost use Rattle.event_words.specs.Valid.{IsValidAccess};
ghost use Rattle.shared_log.specs.Callers.{Belongs, IsCaller};
ghost use Rattle.cascade_path.specs.Answers.{judgement_answer};
ghost use Rattle.cascade_path.specs.Chains.{SendsThrough};
ghost use Rattle.cascade_path.specs.Stages.{JudgesUntil, PassesStage, SubmitsOrMisses};
ghost use Rattle.cascade_path.specs.declared.chain.ChainReply.TheVariants as answers;

use event_words::{Access, Denial, Event, Machine, Reply, Verdict};
use shared_log::{Caller, Shared};

/// What became of an access that was sent through units. A `stage` is the place of a unit among them,
/// from 0: the one whose reply decided.
#[derive(Clone, Copy, Debug, PartialEq, Eq)]
pub enum ChainReply {
    /// Every unit allowed it. `next` is the requester that the last one gives it, 0 to 63.
    Allowed { next: u8 },
    /// A unit denied it, by a verdict or because its requester is stalled.
    Denied { stage: u8, denial: Denial },
    /// The queue of a unit was full.
    Busy { stage: u8 },
    /// It still waits in the queue of a unit, after all tries. `place` is that of its submission.
    Open { stage: u8, place: u32 },
    /// A reply that no unit gives, to an aim, a submission or a judgement, as it came: an allowed verdict
    /// with a `next` above 63 is one too.
    Odd { stage: u8, reply: Reply },
}

// Judges a submission up to `tries` times, until the reply isn't Held. It answers the last reply.
fn judge_until<M: Machine>(
    caller: &mut Caller<M>,
    shared: &Shared,
    unit: u8,
    place: u32,
    tries: u32,
) -> Reply
    requires belongs { Belongs caller.old shared.now }
    requires caller { IsCaller M.state M.next_place M.places M.after caller.old }
    requires unit { unit < 4 }
    requires place { place < 2 ^ 24 }
    requires tries { 1 ≤ tries }
    requires left { tries ≤ caller.old.left }
    ensures judges { JudgesUntil M.after M.reply caller.old
        (events.Judge unit caller.old.number place) tries result caller.new }
    ensures caller { IsCaller M.state M.next_place M.places M.after caller.new }
{
    let judgement = Event::Judge {
        unit,
        caller: caller.number(),
        place,
    };
    for _try in 0..tries {
        match caller.call(shared, judgement) {
            Reply::Held => {}
            reply => return reply,
        }
    }
    Reply::Held
}

// What the last judgement of the submission at a place decides.
fn judgement_answer(stage: u8, place: u32, reply: Reply) -> ChainReply
    ensures { result ≡ judgement_answer stage place reply }
{
    match reply {
        Reply::Held => ChainReply::Open { stage, place },
        Reply::Verdict(Verdict::Allowed { next }) if next <= 63 => ChainReply::Allowed { next },
        Reply::Verdict(Verdict::Denied(denial)) => ChainReply::Denied { stage, denial },
        _ => ChainReply::Odd { stage, reply },
    }
}

// Submits an access, by one event or, where it isn't narrow, by an Aim of its address and a Wide. It
// answers the reply to the submission, or what an aim that isn't replied so decides.
fn submit<M: Machine>(
    caller: &mut Caller<M>,
    shared: &Shared,
    stage: u8,
    unit: u8,
    access: Access,
) -> Result<Reply, ChainReply>
    requires belongs { Belongs caller.old shared.now }
    requires unit { unit < 4 }
    requires access { IsValidAccess access }
    requires left { submission_events access ≤ caller.old.left }
    ensures submits { SubmitsOrMisses M.after M.reply caller.old stage unit access result
        caller.new }
    ensures caller { IsCaller M.state M.next_place M.places M.after caller.new }
{
    let number = caller.number();
    if access.narrow() {
        let event = Event::Submit {
            unit,
            caller: number,
            access,
        };
        return Ok(caller.call(shared, event));
    }
    let aim = Event::Aim {
        caller: number,
        addr: access.addr,
    };
    match caller.call(shared, aim) {
        Reply::Aimed => {}
        reply => return Err(ChainReply::Odd { stage, reply }),
    }
    let event = Event::Wide {
        unit,
        caller: number,
        rrid: access.rrid,
        kind: access.kind,
        len: access.len,
    };
    Ok(caller.call(shared, event))
}

// Submits an access at one stage, and judges it where it is taken.
fn pass_stage<M: Machine>(
    caller: &mut Caller<M>,
    shared: &Shared,
    stage: u8,
    unit: u8,
    access: Access,
    tries: u32,
) -> ChainReply
    requires belongs { Belongs caller.old shared.now }
    requires unit { unit < 4 }
    requires access { IsValidAccess access }
    requires tries { 1 ≤ tries }
    requires left { submission_events access + tries ≤ caller.old.left }
    ensures passes { PassesStage M.after M.reply caller.old stage unit access tries result
        caller.new }
    ensures caller { IsCaller M.state M.next_place M.places M.after caller.new }
    ensures next { (next : _) → result ≡ answers.Allowed next → next ≤ 63 }
{
    let reply = match submit(caller, shared, stage, unit, access) {
        Ok(reply) => reply,
        Err(odd) => return odd,
    };
    match reply {
        Reply::Passed | Reply::Queued => {
            let place = caller.place() - 1;
            let last = judge_until(caller, shared, unit, place, tries);
            judgement_answer(stage, place, last)
        }
        Reply::Busy => ChainReply::Busy { stage },
        Reply::Stalled(denial) => ChainReply::Denied { stage, denial },
        reply => ChainReply::Odd { stage, reply },
    }
}

/// Sends an access through 1 to 4 units in turn. At each it is submitted, by one event or by two where
/// it isn't narrow, and where it is taken it is judged until the reply isn't Held, at most `tries`
/// times. The first unit sees the access's own requester, and a later one the requester that the unit
/// before it allowed. It takes no memory and never waits.
///
/// The caller must belong to the log, each unit be 0 to 3, the access valid, and at least one judgement
/// be tried. So many events must be left to the caller that each stage may make all its tries.
pub fn send_through<M: Machine>(
    caller: &mut Caller<M>,
    shared: &Shared,
    stages: &[u8],
    access: Access,
    tries: u32,
) -> ChainReply
    requires belongs { Belongs caller.old shared.now }
    requires stages { (1 ≤ length stages.now) × (length stages.now ≤ 4) }
    requires units { AllByRecursion IsUnit stages.now }
    requires access { IsValidAccess access }
    requires tries { 1 ≤ tries }
    requires left { length stages.now * (submission_events access + tries) ≤ caller.old.left }
    ensures sends { SendsThrough M.after M.reply caller.old stages.now access tries result
        caller.new }
    ensures caller { IsCaller M.state M.next_place M.places M.after caller.new }
{
    let mut requester = access.rrid;
    for (stage, unit) in stages.iter().enumerate() {
        let borne = Access {
            rrid: requester,
            ..access
        };
        match pass_stage(caller, shared, stage as u8, *unit, borne, tries) {
            ChainReply::Allowed { next } => requester = next,
            ended => return ended,
        }
    }
    ChainReply::Allowed { next: requester }
}
