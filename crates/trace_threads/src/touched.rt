//! A whole trace at one call, with the set of the pages that it touched: a set is opened beside the space with a seat
//! for each worker, the workers play and touch, and both are closed. A reader may rely on the pages being those of the
//! granted faults, each once and in rising order (`AreTouchedPages` in `specs/Touching.antt`).
ghost use Rattle.std.specs.Prelude.{true, ◌≡◌, ◌≤◌, ◌<◌, ◌^◌, ◌↔◌, ℕ, [], All, Contains, IfOk, IfErr, IfSome};
ghost use Rattle.std.specs.Prelude.{flat_map, length, map, sum, sum_by, vec_items, vec_len, vec_capacity};
ghost use Rattle.area_rows.specs.Rows.{keeps_by};
ghost use Rattle.page_types.specs.Named.{IsNamedCall};
ghost use Rattle.page_types.specs.declared.TheConstants.{ROWS};
ghost use Rattle.space_model.specs.Areas.{row_count};
ghost use Rattle.range_rw.specs.Contract.{IsSeatCount};
ghost use Rattle.area_rows.specs.Callers.{AreIdle, IsWhole};
ghost use Rattle.page_touch.specs.Touches.{IsRising, new_seat, seat_quota, seat_touched};
ghost use Rattle.trace_threads.specs.Collected.{IsPlayed, IsTraceFault};
ghost use Rattle.trace_threads.specs.Touching.{AreTouchedPages, fault_count};
ghost use Rattle.trace_threads.specs.Stages.{MaySit, seated, toucher_caller, toucher_seat, worker_faults};

use crate::gate::Gate;
use crate::touching::{TouchWorker, play_touching};
use crate::trace::open_workers;
use crate::worker::{Line, Worker};
use area_rows::{Caller, Closed, Space, SpaceFault};
use list_cuts::Cut;
use page_touch::{TouchSeat, Touches};
use page_types::Call;
use space_model::PlainSpace;
use std::alloc::{AllocError, Global};
use std::sync::Wait;
use std::thread::Threads;

/// How many of the lines are faults.
fn faults_in(lines: &[Line]) -> u32
    requires { length lines.now < 2 ^ 32 }
    ensures { result ≡ fault_count lines.now }
{
    let mut faults = 0;
    'lines: for line in lines {
        if matches!(line.call, Call::Fault { .. }) {
            faults += 1;
        }
    }
    faults
}

/// How many lines of each list are faults.
fn quotas_of(alloc: Global, lines: &[Vec<Line>]) -> Result<Vec<u32>, AllocError>
    requires { All (λ list. vec_len list < 2 ^ 32) lines.now }
    ensures { IfOk result (λ quotas. quotas.items ≡ map fault_count (map vec_items lines.now)) }
{
    let mut quotas = Vec::with_capacity(alloc, lines.len())?;
    'lists: for list in lines {
        quotas.push(faults_in(list.as_slice()))?;
    }
    Ok(quotas)
}

/// Each worker with its seat, in their order; and the emptied lists with their room.
fn seat_workers(
    mut workers: Vec<Worker>,
    mut seats: Vec<TouchSeat>,
    mut touchers: Vec<TouchWorker>,
) -> (Vec<TouchWorker>, Vec<TouchSeat>)
    requires ready { MaySit workers.items seats.items }
    requires empty { touchers.items ≡ [] }
    requires room { vec_len workers ≤ vec_capacity touchers }
    ensures touchers { result.0.items ≡ seated workers.items seats.items }
    ensures empty { (result.1.items ≡ []) × (vec_capacity result.1 ≡ vec_capacity seats) }
{
    'workers: while !workers.is_empty() {
        let worker = workers.remove(0);
        let seat = seats.remove(0);
        touchers.push_reserved(TouchWorker::new(worker, seat));
    }
    (touchers, seats)
}

/// The callers and the seats of the workers, in their order, in lists with room for them.
fn dismiss_touchers(
    mut touchers: Vec<TouchWorker>,
    mut callers: Vec<Caller>,
    mut seats: Vec<TouchSeat>,
) -> (Vec<Caller>, Vec<TouchSeat>)
    requires empty { (callers.items ≡ []) × (seats.items ≡ []) }
    requires room { (vec_len touchers ≤ vec_capacity callers) × (vec_len touchers ≤ vec_capacity seats) }
    ensures callers { result.0.items ≡ map toucher_caller touchers.items }
    ensures seats { result.1.items ≡ map toucher_seat touchers.items }
{
    'touchers: while !touchers.is_empty() {
        let (worker, seat) = touchers.remove(0).into_parts();
        callers.push_reserved(worker.into_caller());
        seats.push_reserved(seat);
    }
    (callers, seats)
}

/// A new set with a seat for each worker, the workers with their seats, and the emptied list of seats with its room.
/// None: out of memory.
fn open_touchers(
    alloc: Global,
    quotas: &[u32],
    workers: Vec<Worker>,
) -> Option<(Touches, Vec<TouchWorker>, Vec<TouchSeat>)>
    requires count { IsSeatCount (length quotas.now) }
    requires few { sum quotas.now ≤ 2 ^ 20 }
    requires quotas { quotas.now ≡ map worker_faults workers.items }
    ensures shape { IfSome result (λ r. (r.0.total ≡ sum quotas.now) × (r.0.room ≤ 2 ^ 20)) }
    ensures touchers { IfSome result (λ r. r.1.items ≡ seated workers.items (map (new_seat r.0.table) quotas.now)) }
    ensures room { IfSome result (λ r. (r.2.items ≡ []) × (length r.1.items ≤ vec_capacity r.2)) }
{
    let Ok((touches, seats)) = Touches::open(alloc, quotas) else {
        return None;
    };
    let Ok(touchers) = Vec::with_capacity(alloc, workers.len()) else {
        return None;
    };
    let (touchers, seats) = seat_workers(workers, seats, touchers);
    Some((touches, touchers, seats))
}

/// Closes the space and then the set. None: out of memory.
fn close_both(
    alloc: Global,
    space: Space,
    touches: Touches,
    callers: Vec<Caller>,
    seats: Vec<TouchSeat>,
) -> Option<(Closed, Vec<u64>)>
    requires count { length callers.items ≡ space.seats }
    requires idle { AreIdle space.table callers.items }
    requires keeps { keeps_by space.table ≡ true }
    requires some { 0 < length seats.items }
    requires tables { All (λ s. s.table ≡ touches.table) seats.items }
    requires all { sum_by seat_quota seats.items ≡ touches.total }
    ensures whole { IfSome result (λ r. IsWhole callers.items r.0.entries r.0.areas) }
    ensures rising { IfSome result (λ r. IsRising r.1.items) }
    ensures pages { IfSome result (λ r. (p : ℕ) → Contains r.1.items p ↔ Contains (flat_map seat_touched seats.items) p) }
    ensures few { IfSome result (λ r. length r.1.items ≤ touches.room) }
{
    let Ok(closed) = space.close(alloc, callers) else {
        return None;
    };
    let Ok(pages) = touches.close(alloc, seats) else {
        return None;
    };
    Some((closed, pages))
}

/// Plays lists of lines as `play_trace`, and gives with the closing the pages of the granted faults, each once, in
/// rising order. The lists have at most 2^20 lines together. The cut is of the space's lock, as there.
///
/// The set of touched pages is opened before the first line is played, and closed behind the space. The refusals are
/// those of `play_trace`.
pub fn play_touched_trace<R: Threads + Wait + Sync, G: Gate>(
    wait: &R,
    alloc: Global,
    cut: Cut,
    start: &PlainSpace,
    lines: Vec<Vec<Line>>,
    gate: &G,
) -> Result<(Closed, Vec<u64>), SpaceFault>
    requires count { length lines.items < 2 ^ 32 }
    requires total { sum_by vec_len lines.items ≤ 2 ^ 20 }
    requires named { All (λ ls. All (λ l. IsNamedCall l.call) ls) (map vec_items lines.items) }
    ensures opened { IfOk result (λ _. IsSeatCount (length lines.items) × (row_count start.now ≤ ROWS)) }
    ensures played { IfOk result (λ r. IsPlayed start.now (map vec_items lines.items) r.0.entries r.0.areas) }
    ensures touched { IfOk result (λ r. AreTouchedPages r.0.entries r.1.items) }
    ensures few { IfOk result (λ r. length r.1.items ≤ 2 ^ 20) }
    ensures refused { IfErr result (IsTraceFault (length lines.items) (row_count start.now)) }
{
    let Ok(quotas) = quotas_of(alloc, lines.as_slice()) else {
        return Err(SpaceFault::Memory);
    };
    match open_workers(alloc, cut, start, lines) {
        Ok((space, workers, callers)) => {
            let Some((touches, touchers, seats)) = open_touchers(alloc, quotas.as_slice(), workers)
            else {
                return Err(SpaceFault::Memory);
            };
            let mut touchers = touchers;
            play_touching(&space, &touches, wait, touchers.as_mut_slice(), gate);
            let (callers, seats) = dismiss_touchers(touchers, callers, seats);
            match close_both(alloc, space, touches, callers, seats) {
                Some(closed) => Ok(closed),
                None => Err(SpaceFault::Memory),
            }
        }
        Err(fault) => Err(fault),
    }
}
