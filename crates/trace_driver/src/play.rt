//! Playing the lines of a trace on a running address space. The lines are dealt out to workers, which play them beside
//! each other; the crate `trace_threads` opens the space, lets the workers play and closes it. A reader may rely on
//! what is given being the whole history of that space, since nothing but a closing makes one.
ghost use Rattle.std.specs.Prelude.{◌≡◌, ◌<◌, ◌≤◌, ◌^◌, List, length, map, true, vec_items, vec_len, All, IfOk};
ghost use Rattle.page_types.specs.Named.{IsNamedCall};
ghost use Rattle.page_types.specs.declared.TheConstants.{ROWS};
ghost use Rattle.space_model.specs.Areas.{row_count};
ghost use Rattle.trace_driver.specs.Dealt.{dealt};
ghost use Rattle.trace_driver.specs.Play.{IsHistoryOf};
ghost use Rattle.trace_driver.specs.Report.{CountsTouched};
ghost use Rattle.trace_driver.specs.TraceReader.{IsNamedLine};
ghost use Rattle.trace_driver.specs.declared.trace.TheConstants.{LINES_LIMIT};

use crate::dealing::deal_lines;
use crate::trace::Line;
use area_rows::Closed;
use space_model::PlainSpace;
use std::alloc::{AllocError, Global};
use std::sync::Wait;
use std::thread::Threads;
use trace_threads::{Gate, cut_for, play_touched_trace, play_trace};

/// Plays the lines from these areas on by so many workers, each its own in their order, and gives the whole history and
/// the areas that are left. All memory is taken before the first call is played and in the closing of the space.
pub fn play<R: Threads + Wait + Sync, G: Gate>(
    wait: &R,
    alloc: Global,
    threads: u32,
    opening: &PlainSpace,
    lines: &[Line],
    gate: &G,
) -> Result<Closed, AllocError>
    requires some { 0 < threads }
    requires threads { threads ≤ 16 }
    requires rows { row_count opening.now ≤ ROWS }
    requires named { All IsNamedLine lines.now }
    requires few { length lines.now ≤ LINES_LIMIT }
    ensures { IfOk result (λ closed. IsHistoryOf threads opening.now lines.now closed.entries closed.areas) }
{
    let lists = deal_lines(alloc, threads, lines)?;
    play_lists(wait, alloc, threads, opening, lists, gate)
}

/// The same of lines that are dealt out, one list for each worker.
pub fn play_lists<R: Threads + Wait + Sync, G: Gate>(
    wait: &R,
    alloc: Global,
    threads: u32,
    opening: &PlainSpace,
    lists: Vec<Vec<trace_threads::Line>>,
    gate: &G,
) -> Result<Closed, AllocError>
    requires some { 0 < threads }
    requires threads { threads ≤ 16 }
    requires rows { row_count opening.now ≤ ROWS }
    requires count { length lists.items ≡ threads }
    requires few { All (λ own. vec_len own < 2 ^ 32) lists.items }
    requires named { All (λ own. All (λ line. IsNamedCall line.call) own) (map vec_items lists.items) }
    ensures { IfOk result (λ closed. (lines : List Line) → map vec_items lists.items ≡ dealt threads lines
        → IsHistoryOf threads opening.now lines closed.entries closed.areas) }
{
    match play_trace(wait, alloc, cut_for(threads), opening, lists, gate) {
        Ok(closed) => Ok(closed),
        Err(_) => Err(AllocError),
    }
}

/// Plays the lines as `play`, and counts the pages of the faults that were granted, each once. The set of these pages
/// is opened before the first call is played, and closed behind the space.
pub fn play_touched<R: Threads + Wait + Sync, G: Gate>(
    wait: &R,
    alloc: Global,
    threads: u32,
    opening: &PlainSpace,
    lines: &[Line],
    gate: &G,
) -> Result<(Closed, u32), AllocError>
    requires some { 0 < threads }
    requires threads { threads ≤ 16 }
    requires rows { row_count opening.now ≤ ROWS }
    requires named { All IsNamedLine lines.now }
    requires few { length lines.now ≤ LINES_LIMIT }
    ensures played { IfOk result (λ r. IsHistoryOf threads opening.now lines.now r.0.entries r.0.areas) }
    ensures touched { IfOk result (λ r. CountsTouched r.0.entries r.1) }
{
    let lists = deal_lines(alloc, threads, lines)?;
    let cut = cut_for(threads);
    match play_touched_trace(wait, alloc, cut, opening, lists, gate) {
        Ok((closed, pages)) => Ok((closed, pages.len() as u32)),
        Err(_) => Err(AllocError),
    }
}

/// Plays the lines, and counts the touched pages where that is asked for; where it isn't the count is 0.
pub fn play_asked<R: Threads + Wait + Sync, G: Gate>(
    wait: &R,
    alloc: Global,
    touched: bool,
    threads: u32,
    opening: &PlainSpace,
    lines: &[Line],
    gate: &G,
) -> Result<(Closed, u32), AllocError>
    requires some { 0 < threads }
    requires threads { threads ≤ 16 }
    requires rows { row_count opening.now ≤ ROWS }
    requires named { All IsNamedLine lines.now }
    requires few { length lines.now ≤ LINES_LIMIT }
    ensures played { IfOk result (λ r. IsHistoryOf threads opening.now lines.now r.0.entries r.0.areas) }
    ensures touched { IfOk result (λ r. touched ≡ true → CountsTouched r.0.entries r.1) }
{
    if touched {
        return play_touched(wait, alloc, threads, opening, lines, gate);
    }
    match play(wait, alloc, threads, opening, lines, gate) {
        Ok(closed) => Ok((closed, 0)),
        Err(_) => Err(AllocError),
    }
}
