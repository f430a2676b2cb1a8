ghost use Rattle.std.specs.Prelude.{◌≡◌, ℕ, ◌+◌, ◌<◌, ◌≤◌, ◌^◌, length, vec_len, OnOk, IfOk};
ghost use Rattle.event_words.specs.declared.event.Event.TheVariants.{RegWrite};
ghost use Rattle.shared_log.specs.Callers.{Belongs};
ghost use Rattle.shared_log.specs.Trials.{AreCallers, HaveLeft, Stays};

use crate::toy::Adder;
use crate::{Caller, Shared, close, split};
use event_words::{Event, Reply, pack, unpack};
use std::alloc::{AllocError, Global};
use std::sync::atomic::{AtomicU64, Ordering};
use std::test::Fail;
use std::thread::{Threads, for_each_mut};

const THREADS: usize = 8;

const EVENTS: u32 = 4000;

fn write(caller: u8, value: u32) -> Event
    ensures { result ≡ RegWrite 0 caller 1 value }
{
    Event::RegWrite {
        unit: 0,
        caller,
        index: 1,
        value,
    }
}

#[test]
fn two_callers_add_up(rt: HostRuntime) -> Result<(), Fail> {
    let Ok((shared, mut first)) = Shared::open(rt.alloc(), 2, 2, Adder::new(4)) else {
        panic!(rt; "no memory");
    };
    let mut second = split(&shared, &mut first, Adder::new(4));
    let mut rest = Vec::with_capacity(rt.alloc(), 1)?;
    let one = first.call(&shared, write(0, 5));
    let two = second.call(&shared, write(1, 7));
    let three = first.call(&shared, write(0, 9));
    assert!(rt; one == Reply::Value(5) && two == Reply::Value(12) && three == Reply::Value(21));
    assert!(rt; first.left() == 0 && second.left() == 1);
    rest.push_reserved(second);
    let history = close(shared, first, rest);
    let words = [pack(&write(0, 5)), pack(&write(1, 7)), pack(&write(0, 9))];
    assert!(rt; history.words() == words.as_slice());
    Ok(())
}

// Makes events 0, 1 and so on, and adds up the replies.
fn make_events(caller: &mut Caller<Adder>, shared: &Shared, replies: &AtomicU64)
    requires belongs { Belongs caller.old shared.now }
    requires left { caller.old.left ≡ 4000 }
    ensures { Stays caller.old caller.new }
{
    let number = caller.number();
    for value in 0..EVENTS {
        if let Reply::Value(sum) = caller.call(shared, write(number, value)) {
            replies.fetch_add(sum as u64, Ordering::SeqCst);
        }
    }
}

// Splits off callers until there are so many beside the first.
fn split_all(
    alloc: Global,
    shared: &Shared,
    first: &mut Caller<Adder>,
) -> Result<Vec<Caller<Adder>>, AllocError>
    requires belongs { Belongs first.old shared.now }
    requires number { (first.old.number ≡ 0) × (first.old.made ≡ 1) × (first.old.first ≡ 0) }
    requires size { (shared.now.callers ≡ 9) × (shared.now.budget ≡ 4000)
        × (first.old.machine.places ≡ 36000) }
    ensures first { OnOk result (Belongs first.new shared.now × (first.new.number ≡ 0) ×
        (first.new.made ≡ 9)) }
    ensures rest { IfOk result (λ r. (vec_len r ≡ 8) × AreCallers shared.now r.items × HaveLeft 4000
        r.items) }
{
    let mut rest = Vec::with_capacity(alloc, THREADS)?;
    for _ in 0..THREADS {
        let caller = split(shared, first, Adder::new(36000));
        rest.push_reserved(caller);
    }
    Ok(rest)
}

fn run_all<R: Threads + Sync>(
    rt: &R,
    shared: &Shared,
    callers: &mut [Caller<Adder>],
    replies: &AtomicU64,
)
    requires callers { AreCallers shared.now callers.old }
    requires left { HaveLeft 4000 callers.old }
    ensures { AreCallers shared.now callers.new }
{
    for_each_mut(
        rt,
        callers,
        THREADS,
        &|_, caller: &mut Caller<Adder>|
            requires { Belongs caller.now shared.now × (caller.now.left ≡ 4000) }
            ensures { Stays caller.entry.now caller.exit.now }
        { make_events(caller, shared, replies) },
    );
}

// Whether each caller's events stand in the words in order, and what their replies add up to.
fn replay(words: &[u64]) -> Option<u64> {
    let mut next = [0u32; 32];
    let mut sum = 0u32;
    let mut total = 0u64;
    for word in words {
        let Event::RegWrite {
            unit: 0,
            caller,
            index: 1,
            value,
        } = unpack(*word)?
        else {
            return None;
        };
        let caller = (caller % 32) as usize;
        if next[caller] != value {
            return None;
        }
        next[caller] = value.wrapping_add(1);
        sum = sum.wrapping_add(value);
        total = total.wrapping_add(sum as u64);
    }
    let each = next[0] == 0 && next[1..=THREADS].iter().all(|count| *count == EVENTS);
    if each { Some(total) } else { None }
}

#[test]
fn threads_make_one_history(rt: HostRuntime) -> Result<(), Fail> {
    let places = EVENTS * 9;
    let Ok((shared, mut first)) = Shared::open(rt.alloc(), 9, EVENTS, Adder::new(places)) else {
        panic!(rt; "no memory");
    };
    let mut rest = split_all(rt.alloc(), &shared, &mut first)?;
    let replies = AtomicU64::new(0);
    run_all(&rt, &shared, rest.as_mut_slice(), &replies);
    let history = close(shared, first, rest);
    assert!(rt; history.words().len() == EVENTS as usize * THREADS);
    assert!(rt; replay(history.words()) == Some(replies.load(Ordering::SeqCst)));
    Ok(())
}
