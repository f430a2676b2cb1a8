// Lanes run on threads of their own.
ghost use Rattle.std.specs.Prelude.{◌≡◌, ◌≤◌, IfOk, [], ◌∷◌};
ghost use Rattle.event_words.specs.declared.section.Command.TheVariants as commands;
ghost use Rattle.unit_core.specs.Fabrics.{opening};
ghost use Rattle.checker_workers.specs.declared.lane.LaneEnd.TheVariants as ends;
ghost use Rattle.checker_workers.specs.Trials.{trial_shape, trial_state};

use crate::{Gate, Lane, LaneEnd, NoMemory, Port, run_lanes};
use event_words::{Command, Section, Shape};
use shared_log::{Caller, Shared, split};
use std::alloc::{AllocError, Global};
use std::sync::atomic::{AtomicU64, Ordering};
use std::test::Fail;
use unit_core::Fabric;

/// Counts the steps that it is told of.
#[derive(Drop)]
struct CountingGate {
    calls: AtomicU64,
}

impl Gate for CountingGate {
    fn at(&self, _lane: u8, _step: u32) {
        self.calls.fetch_add(1, Ordering::SeqCst);
    }
}

fn replica(alloc: Global) -> Result<Fabric, unit_core::NoMemory>
    ensures { IfOk result (λ fabric. fabric ≡ opening (trial_shape ∷ []) 6) }
{
    let shape = Shape {
        rrids: 4,
        domains: 3,
        entries: 8,
        mdcfg: 0,
        k: 0,
        srcmd: 0,
        sps: false,
        queue: 1,
        transl: None,
    };
    Fabric::open(alloc, &[shape], 6)
}

fn two_reads(alloc: Global) -> Result<Section, AllocError>
    ensures { IfOk result (λ section. section ≡ record
        { commands = commands.Read 0 2 ∷ commands.Read 0 2 ∷ []; slots = 0 }) }
{
    let read = Command::Read { unit: 0, index: 2 };
    let commands = Vec::from_slice(alloc, &[read, read])?;
    Ok(Section { commands, slots: 0 })
}

fn reading_lane(alloc: Global, caller: Caller<Fabric>) -> Result<Lane, NoMemory>
    requires units { caller.first ≡ trial_state }
    requires left { 2 ≤ caller.left }
    ensures { IfOk result (λ lane. (lane.ended ≡ ends.Fresh) × (lane.port ≡ caller)) }
{
    let Ok(section) = two_reads(alloc) else {
        return Err(NoMemory);
    };
    Lane::new(alloc, section, Port::new(caller))
}

#[test]
fn each_lane_tells_the_gate_of_its_steps(rt: HostRuntime) -> Result<(), Fail> {
    let alloc: Global = rt.alloc();
    let Ok(fabric) = replica(alloc) else {
        panic!(rt; "no memory");
    };
    let Ok((shared, mut first)) = Shared::open(alloc, 3, 2, fabric) else {
        panic!(rt; "no memory");
    };
    let Ok(fabric) = replica(alloc) else {
        panic!(rt; "no memory");
    };
    let one = split(&shared, &mut first, fabric);
    let Ok(fabric) = replica(alloc) else {
        panic!(rt; "no memory");
    };
    let two = split(&shared, &mut first, fabric);
    let Ok(one) = reading_lane(alloc, one) else {
        panic!(rt; "no memory");
    };
    let Ok(two) = reading_lane(alloc, two) else {
        panic!(rt; "no memory");
    };
    let mut lanes = [one, two];
    let gate = CountingGate {
        calls: AtomicU64::new(0),
    };
    run_lanes(&rt, &shared, &mut lanes, &gate);
    assert!(rt; gate.calls.load(Ordering::SeqCst) == 6);
    assert!(rt; lanes[0].ended() == LaneEnd::Done && lanes[1].ended() == LaneEnd::Done);
    Ok(())
}
