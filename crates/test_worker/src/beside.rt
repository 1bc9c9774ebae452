//! Two workers at play while a third caller holds a span as a writer, until a sign of their gate. What a reader may
//! rely on is that the history of the closing has just the entries of the workers' lines.
ghost use Rattle.std.specs.Prelude.{true, ◌≡◌, ◌≤◌, ◌<◌, ◌^◌, [], ◌∷◌, ◌++◌, All, None, IsSome, IfOk, map, vec_len, vec_capacity};
ghost use Rattle.std.specs.Thread.{IsSync};
ghost use Rattle.page_types.specs.Named.{IsNamedCall};
ghost use Rattle.area_rows.specs.History.{IsAtRest, Runs};
ghost use Rattle.area_rows.specs.Rows.{keeps_by};
ghost use Rattle.trace_threads.specs.Collected.{IsCollected, caller_of};
ghost use Rattle.trace_threads.specs.Hiring.{AreNewWorkers};
ghost use Rattle.trace_threads.specs.Workers.{AreOfTable, HavePlayed};
ghost use Rattle.test_worker.specs.Trials.{IsBack, IsThird};

use crate::signs::SignGate;
use area_rows::{Caller, Closed, Space, SpaceFault};
use lock_core::Mode;
use page_types::Span;
use space_model::PlainSpace;
use std::alloc::Global;
use std::marker::Brand;
use std::sync::Wait;
use std::sync::ledger::{Blank, Ledger};
use std::thread::{Threads, join_mut};
use trace_threads::{Line, Worker, play_all};
use word_rows::Steps;

/// A caller waits for the gate's second sign, and then gives its range back; it does so too where the wait is given up.
fn release_at_sign<L: Ledger>(space: &Space, gate: &SignGate, holder: &mut Caller, blank: Blank)
    requires blank { (blank.name ≡ L.name) × (blank.parts ≡ L.parts) × (0 < L.parts) }
    requires table { holder.old.seat.table ≡ space.now.table }
    requires holds { IsSome holder.old.seat.held }
    requires rest { IsAtRest holder.old.seat.pass }
    ensures { IsBack holder.old holder.new }
{
    let mut steps = Steps::<L>::new(blank);
    gate.wait_for(1);
    space.release(holder, &mut steps);
}

/// The same with a counter of its own.
fn give_back_at_sign(space: &Space, gate: &SignGate, holder: &mut Caller)
    requires table { holder.old.seat.table ≡ space.now.table }
    requires holds { IsSome holder.old.seat.held }
    requires rest { IsAtRest holder.old.seat.pass }
    ensures { IsBack holder.old holder.new }
{
    release_at_sign::<Brand>(space, gate, holder, Blank::new(1));
}

/// `play_all` with the workers last, for a closure that lends them.
fn play_behind<R: Threads + Wait + Sync>(
    space: &Space,
    rt: &R,
    gate: &SignGate,
    workers: &mut [Worker],
)
    requires workers { AreOfTable space.now.table workers.old }
    requires keeps { keeps_by space.now.table ≡ true }
    ensures { HavePlayed workers.old workers.new }
{
    play_all(space, rt, workers, gate);
}

/// The workers play, and beside them a caller gives its range back at the gate's second sign.
fn play_and_release<R: Threads + Wait + Sync>(
    space: &Space,
    rt: &R,
    gate: &SignGate,
    holder: &mut Caller,
    workers: &mut [Worker],
)
    requires workers { AreOfTable space.now.table workers.old }
    requires keeps { keeps_by space.now.table ≡ true }
    requires table { holder.old.seat.table ≡ space.now.table }
    requires holds { IsSome holder.old.seat.held }
    requires rest { IsAtRest holder.old.seat.pass }
    ensures played { HavePlayed workers.old workers.new }
    ensures back { IsBack holder.old holder.new }
{
    let mut play = ||
        requires { IsSync R.row × AreOfTable space.now.table workers.now × (keeps_by space.now.table ≡ true) }
        ensures { HavePlayed workers.entry.now workers.exit.now }
    { play_behind(space, rt, gate, workers) };
    let mut give_back = ||
        requires { (holder.now.seat.table ≡ space.now.table) × IsSome holder.now.seat.held × IsAtRest holder.now.seat.pass }
        ensures { IsBack holder.entry.now holder.exit.now }
    { give_back_at_sign(space, gate, holder) };
    join_mut(rt, &mut play, &mut give_back);
}

/// The same of a caller that holds nothing yet: it first holds the span as a writer.
fn hold_and_play<R: Threads + Wait + Sync>(
    space: &Space,
    rt: &R,
    gate: &SignGate,
    span: Span,
    holder: &mut Caller,
    workers: &mut Vec<Worker>,
)
    requires workers { AreOfTable space.now.table workers.old.items }
    requires keeps { keeps_by space.now.table ≡ true }
    requires table { holder.old.seat.table ≡ space.now.table }
    requires free { holder.old.seat.held ≡ None }
    ensures played { HavePlayed workers.old.items workers.new.items }
    ensures back { IsBack holder.old holder.new }
{
    space.acquire(rt, holder, span, Mode::Writer);
    play_and_release(space, rt, gate, holder, workers.as_mut_slice());
}

/// The three callers of a space, and the emptied list with its room.
fn three_callers(mut callers: Vec<Caller>) -> (Caller, Caller, Caller, Vec<Caller>)
    requires { vec_len callers ≡ 3 }
    ensures callers { callers.items ≡ result.0 ∷ result.1 ∷ result.2 ∷ [] }
    ensures room { (result.3.items ≡ []) × (3 ≤ vec_capacity result.3) }
{
    let first = callers.remove(0);
    let second = callers.remove(0);
    let third = callers.remove(0);
    (first, second, third, callers)
}

/// The workers' callers, and one more behind them, in a list with room for them.
fn callers_with(mut workers: Vec<Worker>, last: Caller, mut callers: Vec<Caller>) -> Vec<Caller>
    requires workers { vec_len workers ≡ 2 }
    requires room { (callers.items ≡ []) × (3 ≤ vec_capacity callers) }
    ensures { result.items ≡ map caller_of workers.items ++ last ∷ [] }
{
    callers.push_reserved(workers.remove(0).into_caller());
    callers.push_reserved(workers.remove(0).into_caller());
    callers.push_reserved(last);
    callers
}

/// A new space of three callers: two workers with these lines, the third caller, and a list with room for all three.
fn open_beside(
    alloc: Global,
    start: &PlainSpace,
    first: Vec<Line>,
    second: Vec<Line>,
) -> Result<(Space, Vec<Worker>, Caller, Vec<Caller>), SpaceFault>
    requires few { (vec_len first < 2 ^ 32) × (vec_len second < 2 ^ 32) }
    requires first { All (λ l. IsNamedCall l.call) first.items }
    requires second { All (λ l. IsNamedCall l.call) second.items }
    ensures seats { IfOk result (λ r. r.0.seats ≡ 3) }
    ensures keeps { IfOk result (λ r. keeps_by r.0.table ≡ true) }
    ensures workers { IfOk result (λ r. AreNewWorkers r.0.table start.now (first.items ∷ second.items ∷ []) r.1.items) }
    ensures third { IfOk result (λ r. IsThird r.0.table r.2) }
    ensures room { IfOk result (λ r. (r.3.items ≡ []) × (3 ≤ vec_capacity r.3)) }
{
    let calls = [first.len() as u32, second.len() as u32, 0];
    let Ok(mut workers) = Vec::with_capacity(alloc, 2) else {
        return Err(SpaceFault::Memory);
    };
    match Space::open(alloc, &calls, start) {
        Ok((space, callers)) => {
            let (one, other, third, callers) = three_callers(callers);
            workers.push_reserved(Worker::new(one, first));
            workers.push_reserved(Worker::new(other, second));
            Ok((space, workers, third, callers))
        }
        Err(fault) => Err(fault),
    }
}

/// Two workers play these lines, the first and the second list, on a space of three callers. The third caller holds the
/// span as a writer before a line is played, and gives it back beside the workers, at the gate's second sign.
pub fn play_beside_writer<R: Threads + Wait + Sync>(
    rt: &R,
    alloc: Global,
    start: &PlainSpace,
    first: Vec<Line>,
    second: Vec<Line>,
    span: Span,
    gate: &SignGate,
) -> Result<Closed, SpaceFault>
    requires few { (vec_len first < 2 ^ 32) × (vec_len second < 2 ^ 32) }
    requires first { All (λ l. IsNamedCall l.call) first.items }
    requires second { All (λ l. IsNamedCall l.call) second.items }
    ensures played { IfOk result (λ closed. IsCollected (first.items ∷ second.items ∷ [] ∷ []) closed.entries) }
    ensures runs { IfOk result (λ closed. Runs 0 start.now closed.entries closed.areas) }
{
    match open_beside(alloc, start, first, second) {
        Ok((space, workers, third, callers)) => {
            let mut workers = workers;
            let mut holder = third;
            hold_and_play(&space, rt, gate, span, &mut holder, &mut workers);
            match space.close(alloc, callers_with(workers, holder, callers)) {
                Ok(closed) => Ok(closed),
                Err(_) => Err(SpaceFault::Memory),
            }
        }
        Err(fault) => Err(fault),
    }
}
