//! Playing a load. The crate `load_lines` makes its lines from a seed; here each is dealt out to the worker that it is
//! made for, as a line of a trace whose process has the worker's number, and the workers play. A reader may rely on
//! each worker having just the lines that were made for it.
ghost use Rattle.std.specs.Prelude.{◌≡◌, ◌<◌, ◌≤◌, ◌^◌, [], length, map, vec_items, vec_len, All, IfOk};
ghost use Rattle.load_lines.specs.declared.TheConstants.{SEED_LIMIT, THREADS_LIMIT, CALLS_LIMIT};
ghost use Rattle.load_lines.specs.Calls.{IsNamedLine as IsNamedMade, drawn_lines};
ghost use Rattle.page_types.specs.Named.{IsNamedCall};
ghost use Rattle.trace_driver.specs.Dealt.{dealt};
ghost use Rattle.trace_driver.specs.Play.{line_of, IsHistoryOf};
ghost use Rattle.trace_driver.specs.TraceReader.{IsNamedLine};
ghost use Rattle.trace_driver.specs.declared.trace.TheConstants.{LINES_LIMIT};

use crate::dealing::{deal_line, no_lines};
use crate::play::play_lists;
use crate::trace::Line;
use area_rows::Closed;
use load_lines::{MadeLine, made_lines};
use space_model::PlainSpace;
use std::alloc::{AllocError, Global};
use std::sync::Wait;
use std::thread::Threads;
use trace_threads::Gate;

/// Plays the load with this seed for so many threads, so many calls, on an empty space.
pub fn play_made<R: Threads + Wait + Sync, G: Gate>(
    wait: &R,
    alloc: Global,
    seed: u32,
    threads: u32,
    calls: u32,
    gate: &G,
) -> Result<Closed, AllocError>
    requires seed { seed ≤ SEED_LIMIT }
    requires some_threads { 0 < threads }
    requires few_threads { threads ≤ THREADS_LIMIT }
    requires calls { calls ≤ CALLS_LIMIT }
    ensures played { IfOk result (λ closed. IsHistoryOf threads [] (map line_of (drawn_lines seed threads calls)) closed.entries closed.areas) }
    ensures few { IfOk result (λ closed. length closed.entries ≤ LINES_LIMIT) }
{
    let lists = lists_of_load(alloc, seed, threads, calls)?;
    play_lists(wait, alloc, threads, &PlainSpace::new(alloc), lists, gate)
}

/// The lines of the load, in the lists of the workers that they are made for.
fn lists_of_load(
    alloc: Global,
    seed: u32,
    threads: u32,
    calls: u32,
) -> Result<Vec<Vec<trace_threads::Line>>, AllocError>
    requires seed { seed ≤ SEED_LIMIT }
    requires some_threads { 0 < threads }
    requires few_threads { threads ≤ THREADS_LIMIT }
    requires calls { calls ≤ CALLS_LIMIT }
    ensures dealt { IfOk result (λ all. map vec_items all.items ≡ dealt threads (map line_of (drawn_lines seed threads calls))) }
    ensures count { IfOk result (λ all. length all.items ≡ threads) }
    ensures few { IfOk result (λ all. All (λ own. vec_len own < 2 ^ 32) all.items) }
    ensures named { IfOk result (λ all. All (λ own. All (λ line. IsNamedCall line.call) own) (map vec_items all.items)) }
{
    let made = made_lines(alloc, seed, threads, calls)?;
    deal_made(alloc, threads, &made)
}

/// Made lines, each as a line of a trace, in the lists of their workers.
fn deal_made(
    alloc: Global,
    threads: u32,
    made: &[MadeLine],
) -> Result<Vec<Vec<trace_threads::Line>>, AllocError>
    requires some { 0 < threads }
    requires named { All IsNamedMade made.now }
    requires few { length made.now ≤ LINES_LIMIT }
    ensures dealt { IfOk result (λ all. map vec_items all.items ≡ dealt threads (map line_of made.now)) }
    ensures count { IfOk result (λ all. length all.items ≡ threads) }
    ensures few { IfOk result (λ all. All (λ own. vec_len own < 2 ^ 32) all.items) }
    ensures named { IfOk result (λ all. All (λ own. All (λ line. IsNamedCall line.call) own) (map vec_items all.items)) }
{
    let mut all = no_lines(alloc, threads)?;
    'made: for line in made {
        deal_line(&mut all, threads, &line_of(line))?;
    }
    Ok(all)
}

/// A made line as one of a trace.
fn line_of(made: &MadeLine) -> Line
    requires { IsNamedMade made.now }
    ensures is { result ≡ line_of made.now }
    ensures named { IsNamedLine result }
{
    Line {
        number: made.line,
        process: made.worker,
        call: made.call,
        recorded: None,
    }
}
