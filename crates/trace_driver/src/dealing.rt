//! Which worker plays which line. The processes of a trace are dealt out to the workers in turn, by their indexes, so a
//! process has one worker and its calls keep their order; this is the project's own profile. The lines are dealt out
//! one after another, each to the end of its worker's list. A reader may rely on each line having one worker.
ghost use Rattle.std.specs.Prelude.{◌≡◌, ◌<◌, ◌≤◌, ◌+◌, ◌^◌, ◌++◌, ◌∷◌, [], ℕ, List, length, map, vec_items, vec_len, All, IfOk, OnOk};
ghost use Rattle.page_types.specs.Named.{IsNamedCall};
ghost use Rattle.trace_driver.specs.TraceReader.{IsNamedLine};
ghost use Rattle.trace_driver.specs.Dealt.{worker_of, dealt, played_line};
ghost use Rattle.trace_driver.specs.declared.trace.TheConstants.{LINES_LIMIT};

use crate::trace::Line;
use std::alloc::{AllocError, Global};
use strace_reader::as_played;

/// The number of the worker that plays a line, of so many workers.
fn worker_of(threads: u32, line: &Line) -> u32
    requires { 0 < threads }
    ensures is { result ≡ worker_of threads line.now }
    ensures low { result < threads }
{
    line.process % threads
}

/// A line as its worker plays it.
fn played_line(line: &Line) -> trace_threads::Line
    requires { IsNamedLine line.now }
    ensures is { result ≡ played_line line.now }
    ensures named { IsNamedCall result.call }
{
    trace_threads::Line {
        line: line.number,
        call: as_played(&line.call, line.recorded),
    }
}

/// An empty list for each of so many workers.
pub fn no_lines(alloc: Global, threads: u32) -> Result<Vec<Vec<trace_threads::Line>>, AllocError>
    ensures dealt { IfOk result (λ all. map vec_items all.items ≡ dealt threads []) }
    ensures count { IfOk result (λ all. vec_len all ≡ threads) }
    ensures few { IfOk result (λ all. All (λ own. vec_len own ≤ 0) all.items) }
    ensures named { IfOk result (λ all. All (λ own. All (λ line. IsNamedCall line.call) own) (map vec_items all.items)) }
{
    let mut all = Vec::with_capacity(alloc, threads as usize)?;
    'workers: for _ in 0..threads {
        all.push_reserved(Vec::new(alloc));
    }
    Ok(all)
}

/// Adds a line, as it is played, to the list of its worker.
pub fn deal_line(
    all: &mut Vec<Vec<trace_threads::Line>>,
    threads: u32,
    line: &Line,
) -> Result<(), AllocError>
    requires some { 0 < threads }
    requires count { vec_len all.old ≡ threads }
    requires named { IsNamedLine line.now }
    ensures dealt { OnOk result ((lines : List Line) → map vec_items all.old.items ≡ dealt threads lines
        → map vec_items all.new.items ≡ dealt threads (lines ++ line.now ∷ [])) }
    ensures count { vec_len all.new ≡ threads }
    ensures few { (n : ℕ) → All (λ own. vec_len own ≤ n) all.old.items → OnOk result (All (λ own. vec_len own ≤ n + 1) all.new.items) }
    ensures named { All (λ own. All (λ line. IsNamedCall line.call) own) (map vec_items all.old.items)
        → OnOk result (All (λ own. All (λ line. IsNamedCall line.call) own) (map vec_items all.new.items)) }
{
    let worker = worker_of(threads, line) as usize;
    all[worker].push(played_line(line))?;
    Ok(())
}

/// The lines of each worker, in the order of the workers' numbers.
pub fn deal_lines(
    alloc: Global,
    threads: u32,
    lines: &[Line],
) -> Result<Vec<Vec<trace_threads::Line>>, AllocError>
    requires some { 0 < threads }
    requires named { All IsNamedLine lines.now }
    requires few { length lines.now ≤ LINES_LIMIT }
    ensures dealt { IfOk result (λ all. map vec_items all.items ≡ dealt threads lines.now) }
    ensures count { IfOk result (λ all. length all.items ≡ threads) }
    ensures few { IfOk result (λ all. All (λ own. vec_len own < 2 ^ 32) all.items) }
    ensures named { IfOk result (λ all. All (λ own. All (λ line. IsNamedCall line.call) own) (map vec_items all.items)) }
{
    let mut all = no_lines(alloc, threads)?;
    'lines: for line in lines {
        deal_line(&mut all, threads, line)?;
    }
    Ok(all)
}
