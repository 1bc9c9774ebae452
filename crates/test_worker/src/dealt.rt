//! Reads dealt out to workers, played on a new space. What a reader may rely on is that the history has just as many
//! lines of each worker as were asked for, each once.
ghost use Rattle.std.specs.Prelude.{◌≡◌, ◌≤◌, ◌<◌, All, IfOk, length};
ghost use Rattle.test_worker.specs.Trials.{HasPlayedCounts};

use crate::lines::read_lists;
use area_rows::{Closed, SpaceFault};
use list_cuts::Cut;
use space_model::PlainSpace;
use std::alloc::Global;
use std::sync::Wait;
use std::thread::Threads;
use trace_threads::{Gate, play_trace};

/// Plays so many lines of each worker: they are dealt out in turn from line 1 on, and each worker's read the pages from
/// 16 on in turn. The space's lock has a list for each region of the cut.
pub fn play_reads<R: Threads + Wait + Sync, G: Gate>(
    rt: &R,
    alloc: Global,
    cut: Cut,
    start: &PlainSpace,
    counts: &[u32],
    pages: u32,
    gate: &G,
) -> Result<Closed, SpaceFault>
    requires workers { length counts.now ≤ 17 }
    requires counts { All (λ n. n ≤ 1000) counts.now }
    requires pages { (0 < pages) × (pages ≤ 1000) }
    ensures played { IfOk result (λ closed. HasPlayedCounts start.now counts.now closed.entries closed.areas) }
{
    let Ok(lists) = read_lists(alloc, counts, pages) else {
        return Err(SpaceFault::Memory);
    };
    play_trace(rt, alloc, cut, start, lists, gate)
}
