//! The program over ports that fail as seldom as they can: a source that never fails, and two sinks that fail only
//! where their stores are full. Where these have room no port fails, so the run ends as its words and its input call
//! for. A reader may rely on that without a word on failures: `run_clean` says it.
ghost use Rattle.std.specs.Prelude.{◌≡◌, ◌≤◌, ◌∷◌, Some, codes, length, map, take, vec_len};
ghost use Rattle.std.specs.Io.KnownBytes.{Appends};
ghost use Rattle.std.specs.String.{string_bytes};
ghost use Rattle.trace_driver.specs.Clean.{left_in, held_by, HasRoomForLine, HasRoomForReports, CallForDone, EndsAsCalledFor, IsDoneOrMemory};
ghost use Rattle.byte_ports.specs.Bytes.{numbered};
ghost use Rattle.trace_driver.specs.ErrorLine.{error_line, which_text, bad_line_text};
ghost use Rattle.trace_driver.specs.Checking.{ChecksAs};
ghost use Rattle.trace_driver.specs.Run.{Wrote};

use crate::run::run;
use crate::status::{Status, Which};
use byte_ports::{CleanSink, CleanSource, Failed, Sink};
use std::alloc::Global;
use std::mem;
use std::sync::Wait;
use std::thread::Threads;
use strace_reader::What;
use trace_threads::Gate;

/// A clean sink that tells how long its store is, in front of the bytes that it holds. No write changes that length, so
/// what is known of the bytes after a run says how much room is left.
#[derive(Drop)]
struct SizedSink {
    sink: CleanSink,
}

impl Sink for SizedSink {
    ghost contents = { λ s. Some (vec_len s.sink.store ∷ take s.sink.used s.sink.store.items) };

    ghost fault_count = { λ s. s.sink.faults };

    ghost count_in_range = { λ s. s.sink.countable };

    fn write(&mut self, bytes: &[u8]) -> Result<usize, Failed> {
        self.sink.write(bytes)
    }
}

/// `run` over a source that never fails and two sinks that fail only where they are full, each with more than 200 free
/// bytes. Where the output has room for every report too, no port fails. So with accepted words, readable lines and all
/// limits kept the run is done, unless there was no memory.
pub fn run_clean<R: Threads + Wait + Sync, G: Gate>(
    wait: &R,
    alloc: Global,
    words: &[String],
    input: &mut CleanSource,
    out: &mut CleanSink,
    err: &mut CleanSink,
    gate: &G,
) -> Status
    requires out_room { HasRoomForLine out.old }
    requires err_room { HasRoomForLine err.old }
    ensures out { Wrote (map string_bytes words.now) (Some (left_in input.old)) (Some (left_in input.new))
        (Some (held_by out.old)) (Some (held_by out.new)) result }
    ensures verdict { ChecksAs (map string_bytes words.now) (Some (left_in input.old), Some (left_in input.new))
        (Some (held_by out.old), Some (held_by out.new)) result }
    ensures err { Appends (Some (held_by err.old)) (Some (held_by err.new)) (error_line result) }
    ensures err_faults { err.new.faults ≡ err.old.faults }
    ensures out_faults { HasRoomForReports (map string_bytes words.now) (left_in input.old) out.old
        → out.new.faults ≡ out.old.faults }
    ensures complete { HasRoomForReports (map string_bytes words.now) (left_in input.old) out.old
        → EndsAsCalledFor (map string_bytes words.now) (left_in input.old) result }
    ensures done { HasRoomForReports (map string_bytes words.now) (left_in input.old) out.old
        → CallForDone (map string_bytes words.now) (left_in input.old) → IsDoneOrMemory result }
{
    let mut sized_out = sized(out, alloc);
    let mut sized_err = sized(err, alloc);
    let status = run(
        wait,
        alloc,
        words,
        input,
        &mut sized_out,
        &mut sized_err,
        gate,
    );
    line_is_short(&status);
    *out = sized_out.sink;
    *err = sized_err.sink;
    status
}

/// Takes a sink out of its place, where it leaves an empty one.
fn sized(sink: &mut CleanSink, alloc: Global) -> SizedSink
    ensures { result.sink ≡ sink.old }
{
    SizedSink {
        sink: mem::replace(sink, CleanSink::new(Vec::new(alloc))),
    }
}

/// That the status's line on standard error is short. It does nothing.
#[tactic(auto, unfolding(crate::specs::ErrorLine::error_line))]
fn line_is_short(status: &Status)
    ensures { length (error_line status.now) ≤ 200 }
{
    match status {
        Status::BadLine { line, column, what } => bad_line_is_short(*line, *column, *what),
        Status::Limit { which, value } => limit_is_short(*which, *value),
        _ => {}
    }
}

/// That the line of a refused line is short. It does nothing.
fn bad_line_is_short(line: u32, column: u32, what: What)
    ensures { length (bad_line_text line column what) ≤ 200 }
{}

/// That the line of a limit is short. It does nothing.
fn limit_is_short(which: Which, value: u64)
    ensures { length (numbered (which_text which) value (codes "\n")) ≤ 200 }
{}
