//! A whole trace at one call: a space is opened with one caller for each list of lines, the workers play, and the space
//! is closed. All memory is taken before the first line is played or when the space is closed. A reader may rely on
//! what comes back being the history of a space that ran, with just the entries of these lines.
ghost use Rattle.std.specs.Prelude.{true, ◌≡◌, ◌≤◌, ◌<◌, ◌^◌, [], All, IfOk, IfErr, length, map, vec_items, vec_len, vec_capacity};
ghost use Rattle.area_rows.specs.Rows.{keeps_by};
ghost use Rattle.page_types.specs.Named.{IsNamedCall};
ghost use Rattle.page_types.specs.declared.TheConstants.{ROWS};
ghost use Rattle.space_model.specs.Areas.{row_count};
ghost use Rattle.range_rw.specs.Contract.{IsSeatCount};
ghost use Rattle.trace_threads.specs.Collected.{IsPlayed, IsTraceFault, caller_of};
ghost use Rattle.trace_threads.specs.Hiring.{AreReady, AreNewWorkers, hired};

use crate::gate::Gate;
use crate::playing::play_all;
use crate::worker::{Line, Worker};
use area_rows::{Caller, Closed, Space, SpaceFault};
use list_cuts::Cut;
use space_model::PlainSpace;
use std::alloc::{AllocError, Global};
use std::sync::Wait;
use std::thread::Threads;

/// How the pages are cut for the lists of a space's lock where so many workers play: into seven regions in blocks of
/// 65,536 pages for four workers or more, and otherwise not. Which is quicker was measured, and `docs/DECISIONS.md` has
/// it; what is answered doesn't depend on it.
pub fn cut_for(workers: u32) -> Cut
    ensures one { workers < 4 → result ≡ record { count = 1; bits = 62 } }
    ensures several { 4 ≤ workers → result ≡ record { count = 7; bits = 16 } }
{
    if workers < 4 {
        return Cut::one();
    }
    let Ok(cut) = Cut::of(7, 16) else {
        unreachable!()
    };
    cut
}

/// How many lines each list has.
fn counts(alloc: Global, lines: &[Vec<Line>]) -> Result<Vec<u32>, AllocError>
    requires { All (λ list. vec_len list < 2 ^ 32) lines.now }
    ensures { IfOk result (λ calls. calls.items ≡ map length (map vec_items lines.now)) }
{
    let mut calls = Vec::with_capacity(alloc, lines.len())?;
    'lists: for list in lines {
        calls.push(list.len() as u32)?;
    }
    Ok(calls)
}

/// One worker for each caller, with its list of lines, in their order; and the emptied list of callers with its room.
fn hire(
    mut callers: Vec<Caller>,
    mut lines: Vec<Vec<Line>>,
    mut workers: Vec<Worker>,
) -> (Vec<Worker>, Vec<Caller>)
    requires ready { AreReady callers.items (map vec_items lines.items) }
    requires empty { workers.items ≡ [] }
    requires room { vec_len callers ≤ vec_capacity workers }
    ensures workers { result.0.items ≡ hired callers.items (map vec_items lines.items) }
    ensures empty { (result.1.items ≡ []) × (vec_capacity result.1 ≡ vec_capacity callers) }
{
    'callers: while !callers.is_empty() {
        let caller = callers.remove(0);
        let list = lines.remove(0);
        workers.push_reserved(Worker::new(caller, list));
    }
    (workers, callers)
}

/// The callers of the workers, in their order, in a list with room for them.
fn dismiss(mut workers: Vec<Worker>, mut callers: Vec<Caller>) -> Vec<Caller>
    requires empty { callers.items ≡ [] }
    requires room { vec_len workers ≤ vec_capacity callers }
    ensures { result.items ≡ map caller_of workers.items }
{
    'workers: while !workers.is_empty() {
        let worker = workers.remove(0);
        callers.push_reserved(worker.into_caller());
    }
    callers
}

/// A new space whose lock has a list for each region of the cut, with one worker for each list of lines, and a list
/// with room for the workers' callers.
pub(crate) fn open_workers(
    alloc: Global,
    cut: Cut,
    start: &PlainSpace,
    lines: Vec<Vec<Line>>,
) -> Result<(Space, Vec<Worker>, Vec<Caller>), SpaceFault>
    requires count { length lines.items < 2 ^ 32 }
    requires few { All (λ list. vec_len list < 2 ^ 32) lines.items }
    requires named { All (λ ls. All (λ l. IsNamedCall l.call) ls) (map vec_items lines.items) }
    ensures opened { IfOk result (λ _. IsSeatCount (length lines.items) × (row_count start.now ≤ ROWS)) }
    ensures keeps { IfOk result (λ r. keeps_by r.0.table ≡ true) }
    ensures workers { IfOk result (λ r. AreNewWorkers r.0.table start.now (map vec_items lines.items) r.1.items) }
    ensures count { IfOk result (λ r. r.0.seats ≡ length r.1.items) }
    ensures room { IfOk result (λ r. (r.2.items ≡ []) × (length r.1.items ≤ vec_capacity r.2)) }
    ensures refused { IfErr result (IsTraceFault (length lines.items) (row_count start.now)) }
{
    let Ok(calls) = counts(alloc, lines.as_slice()) else {
        return Err(SpaceFault::Memory);
    };
    match Space::open_cut(alloc, calls.as_slice(), cut, start) {
        Ok((space, callers)) => {
            let Ok(workers) = Vec::with_capacity(alloc, callers.len()) else {
                return Err(SpaceFault::Memory);
            };
            let (workers, callers) = hire(callers, lines, workers);
            Ok((space, workers, callers))
        }
        Err(fault) => Err(fault),
    }
}

/// Plays lists of lines on a space that starts as this one: worker 0 the first list, worker 1 the second, and so on.
/// The calls have named bits alone. The cut says how the pages are dealt out to the lists of the space's lock. What is
/// played and what is answered does not depend on it.
///
/// `Callers` comes exactly where there is no list or there are more than 16, and otherwise `Rows` exactly where the
/// start has more than `ROWS` rows.
pub fn play_trace<R: Threads + Wait + Sync, G: Gate>(
    wait: &R,
    alloc: Global,
    cut: Cut,
    start: &PlainSpace,
    lines: Vec<Vec<Line>>,
    gate: &G,
) -> Result<Closed, SpaceFault>
    requires count { length lines.items < 2 ^ 32 }
    requires few { All (λ list. vec_len list < 2 ^ 32) lines.items }
    requires named { All (λ ls. All (λ l. IsNamedCall l.call) ls) (map vec_items lines.items) }
    ensures opened { IfOk result (λ _. IsSeatCount (length lines.items) × (row_count start.now ≤ ROWS)) }
    ensures played { IfOk result (λ closed. IsPlayed start.now (map vec_items lines.items) closed.entries closed.areas) }
    ensures refused { IfErr result (IsTraceFault (length lines.items) (row_count start.now)) }
{
    match open_workers(alloc, cut, start, lines) {
        Ok((space, workers, callers)) => {
            let mut workers = workers;
            play_all(&space, wait, workers.as_mut_slice(), gate);
            match space.close(alloc, dismiss(workers, callers)) {
                Ok(closed) => Ok(closed),
                Err(_) => Err(SpaceFault::Memory),
            }
        }
        Err(fault) => Err(fault),
    }
}
