//! The whole program over a source and two sinks: words, input, lines, calls, report. The calls are played by workers
//! beside each other, on one shared address space. What `run` wrote is the report of that space's history, which its
//! status carries, or the verdict on a log; why it ended otherwise is said by its status too. Each status comes only
//! with its cause, and the run ends with the one status that the words and the input call for, unless there was no
//! memory or a port failed.
ghost use Rattle.std.specs.Prelude.{◌≡◌, ◌≢◌, ◌⊎◌, ◌<◌, ◌≤◌, ℕ, List, Option, Some, map};
ghost use Rattle.std.specs.String.{string_bytes};
ghost use Rattle.load_lines.specs.declared.TheConstants.{SEED_LIMIT, THREADS_LIMIT, CALLS_LIMIT};
ghost use Rattle.command_words.specs.Commands.{AskFor, RefusesWords, AskForLoad, AskForOne};
ghost use Rattle.command_words.specs.declared.commands.Command.TheVariants.{Play, Load, Check};
ghost use Rattle.trace_driver.specs.Laws.{LogsAreGood, HasOneReport};
ghost use Rattle.trace_driver.specs.Checking.{IsChecked, ChecksAs};
ghost use Rattle.trace_driver.specs.Run.{Wrote, IsDone, IsUnwritten, HasCause, IsOnlyOutcome, IsHindered, Complains};

use crate::checking::{judge, write_verdict};
use crate::error_line::write_error;
use crate::laws::{carried_logs_are_good, one_worker_has_one_report, one_worker_plays_one_history};
use crate::load::play_made;
use crate::play::play_asked;
use crate::report::{Counts, differ_count, refused_count, write_report};
use crate::script::read_script;
use crate::shown::shown_of;
use crate::status::Status;
use byte_ports::{Sink, Source};
use command_words::{Command, Options, command_of};
use maps_printer::write_summary;
use std::alloc::Global;
use std::sync::Wait;
use std::thread::Threads;
use trace_threads::Gate;

/// Plays the trace of `input` or a load, or checks the log that `input` is, as `words` ask for, the words behind the
/// program's name. It writes the report or the verdict to `out`.
/// Where the run ends otherwise, or the log is wrong, the reason goes to `err` as one line; if that write fails the
/// status stays. `gate` is called before and after each line. It waits until every worker has played its lines.
///
/// The program's own run, on the streams of its process:
///
/// ```rust
///     let status = run(
///         &rt,
///         rt.alloc(),
///         &words,
///         &mut input,
///         &mut out,
///         &mut err,
///         &OpenGate,
///     );
///     ExitCode::from(status.code())
/// ```
pub fn run<R: Threads + Wait + Sync, S: Source, K: Sink, G: Gate>(
    wait: &R,
    alloc: Global,
    words: &[String],
    input: &mut S,
    out: &mut K,
    err: &mut K,
    gate: &G,
) -> Status
    // Read `out` in this order: `Wrote`, by status; `Reports` and `Heard`, what words and input ask for; `IsReport`;
    // then its parts: `IsScript`, the lines, `IsHistoryOf`, what became of them, and `report_text`, what is printed of
    // that. The crate's README unfolds it once for two lines and two workers.
    // Who wants to know of a check alone reads `verdict` in its place.
    ensures out { Wrote (map string_bytes words.now) (S.remaining input.old)
        (S.remaining input.new) (K.contents out.old) (K.contents out.new) result }
    ensures verdict { ChecksAs (map string_bytes words.now) (S.remaining input.old, S.remaining input.new)
        (K.contents out.old, K.contents out.new) result }
    ensures cause { HasCause (map string_bytes words.now) (S.remaining input.old)
        (S.remaining input.new) (S.fault_count input.old, S.fault_count input.new)
        (K.fault_count out.old, K.fault_count out.new) result }
    // The run ends with the one status that the words and the bytes of the input call for, unless there was no memory
    // or a port failed. So with accepted words, readable lines and all limits kept it is done, or the log is wrong; of
    // a log only the opening lines need be readable.
    ensures complete { (bytes : List ℕ) → S.remaining input.old ≡ Some bytes
        → IsOnlyOutcome (map string_bytes words.now) bytes result
        ⊎ IsHindered (S.fault_count input.old, S.fault_count input.new)
        (K.fault_count out.old, K.fault_count out.new) result }
    ensures usage { RefusesWords (map string_bytes words.now) → result ≡ Status.Usage }
    ensures nothing_read { result ≡ Status.Usage → input.new ≡ input.old }
    ensures load_reads_nothing { AskForLoad (map string_bytes words.now) → input.new ≡ input.old }
    ensures nothing_written { IsUnwritten result → out.new ≡ out.old }
    ensures err { Complains (K.contents err.old) (K.contents err.new)
        (K.fault_count err.old) (K.fault_count err.new) result }
    ensures silent { IsDone result → err.new ≡ err.old }
    // A log that was printed is good: from the areas that the input begins with, a check finds it legal.
    ensures logs_are_good { LogsAreGood (map string_bytes words.now) (S.remaining input.old)
        (S.remaining input.new) (K.contents out.old) (K.contents out.new) result }
    // By one worker the words and the bytes of the input decide the report: no other run of them writes another.
    ensures one_worker { HasOneReport (map string_bytes words.now) }
{
    one_worker_plays_one_history();
    one_worker_has_one_report();
    let status = report(wait, alloc, words, input, out, gate);
    carried_logs_are_good(&status);
    let _ = write_error(err, &status);
    status
}

/// The whole of a run but its line on standard error.
fn report<R: Threads + Wait + Sync, S: Source, K: Sink, G: Gate>(
    wait: &R,
    alloc: Global,
    words: &[String],
    input: &mut S,
    out: &mut K,
    gate: &G,
) -> Status
    ensures out { Wrote (map string_bytes words.now) (S.remaining input.old)
        (S.remaining input.new) (K.contents out.old) (K.contents out.new) result }
    ensures verdict { ChecksAs (map string_bytes words.now) (S.remaining input.old, S.remaining input.new)
        (K.contents out.old, K.contents out.new) result }
    ensures cause { HasCause (map string_bytes words.now) (S.remaining input.old)
        (S.remaining input.new) (S.fault_count input.old, S.fault_count input.new)
        (K.fault_count out.old, K.fault_count out.new) result }
    ensures usage { RefusesWords (map string_bytes words.now) → result ≡ Status.Usage }
    ensures nothing_read { result ≡ Status.Usage → input.new ≡ input.old }
    ensures load_reads_nothing { AskForLoad (map string_bytes words.now) → input.new ≡ input.old }
    ensures nothing_written { IsUnwritten result → out.new ≡ out.old }
    ensures one { AskForOne (map string_bytes words.now) }
{
    match command_of(words) {
        Some(Command::Play { options, threads }) => {
            play_input(wait, alloc, options, threads, input, out, gate)
        }
        Some(
            Command::Load {
                seed,
                threads,
                calls,
            },
        ) => play_load(wait, alloc, seed, threads, calls, out, gate),
        Some(Command::Check { opening }) => check_input(alloc, opening, input, out),
        None => Status::Usage,
    }
}

/// Plays the lines of an input, and writes its report. What is said of it is so of all words that ask for this.
fn play_input<R: Threads + Wait + Sync, S: Source, K: Sink, G: Gate>(
    wait: &R,
    alloc: Global,
    options: Options,
    threads: u32,
    input: &mut S,
    out: &mut K,
    gate: &G,
) -> Status
    requires some_threads { 0 < threads }
    requires few_threads { threads ≤ 16 }
    ensures out { (words : List (List ℕ)) → AskFor words (Play options threads) → Wrote words (S.remaining input.old)
        (S.remaining input.new) (K.contents out.old) (K.contents out.new) result }
    ensures cause { (words : List (List ℕ)) → AskFor words (Play options threads) → HasCause words (S.remaining input.old)
        (S.remaining input.new) (S.fault_count input.old, S.fault_count input.new)
        (K.fault_count out.old, K.fault_count out.new) result }
    ensures no_usage { result ≢ Status.Usage }
    ensures nothing_written { IsUnwritten result → out.new ≡ out.old }
{
    let script = match read_script(alloc, options, input) {
        Ok(script) => script,
        Err(end) => return end.status(),
    };
    let Ok((closed, touched)) = play_asked(
        wait,
        alloc,
        options.touched,
        threads,
        &script.opening,
        &script.lines,
        gate,
    ) else {
        return Status::Memory;
    };
    let Ok(shown) = shown_of(
        alloc,
        options,
        &script.opening,
        &script.lines,
        closed.entries(),
    ) else {
        return Status::Memory;
    };
    let counts = Counts {
        skipped: script.skipped,
        refused: refused_count(closed.entries()),
        differ: differ_count(&script.lines, closed.entries()),
        touched,
    };
    match write_report(
        out,
        options,
        closed.entries(),
        closed.areas(),
        shown.differing.as_slice(),
        shown.changes.as_slice(),
        counts,
    ) {
        Ok(()) => Status::Done(Some(closed)),
        Err(_) => Status::WriteFault(Some(closed)),
    }
}

/// Checks the log that is the input, and writes its verdict. What is said of it is so of all words that ask for this.
fn check_input<S: Source, K: Sink>(
    alloc: Global,
    opening: bool,
    input: &mut S,
    out: &mut K,
) -> Status
    ensures out { (words : List (List ℕ)) → AskFor words (Check opening) → Wrote words (S.remaining input.old)
        (S.remaining input.new) (K.contents out.old) (K.contents out.new) result }
    ensures verdict { IsChecked opening (S.remaining input.old, S.remaining input.new)
        (K.contents out.old, K.contents out.new) result }
    ensures cause { (words : List (List ℕ)) → AskFor words (Check opening) → HasCause words (S.remaining input.old)
        (S.remaining input.new) (S.fault_count input.old, S.fault_count input.new)
        (K.fault_count out.old, K.fault_count out.new) result }
    ensures no_usage { result ≢ Status.Usage }
    ensures nothing_written { IsUnwritten result → out.new ≡ out.old }
{
    let judged = match judge(alloc, opening, input) {
        Ok(judged) => judged,
        Err(end) => return end.status(),
    };
    match write_verdict(out, &judged) {
        Ok(()) => judged.status(),
        Err(_) => Status::WriteFault(None),
    }
}

/// Plays the lines of a load on an empty space, and writes its summary. What is said of it is so of all words that ask
/// for this, whatever the input is.
fn play_load<R: Threads + Wait + Sync, K: Sink, G: Gate>(
    wait: &R,
    alloc: Global,
    seed: u32,
    threads: u32,
    calls: u32,
    out: &mut K,
    gate: &G,
) -> Status
    requires seed { seed ≤ SEED_LIMIT }
    requires some_threads { 0 < threads }
    requires few_threads { threads ≤ THREADS_LIMIT }
    requires calls { calls ≤ CALLS_LIMIT }
    ensures out { (words : List (List ℕ)) (input : Option (List ℕ)) → AskFor words (Load seed threads calls)
        → Wrote words input input (K.contents out.old) (K.contents out.new) result }
    ensures cause { (words : List (List ℕ)) (input : Option (List ℕ)) (failures : ℕ × ℕ) → AskFor words (Load seed threads calls)
        → HasCause words input input failures (K.fault_count out.old, K.fault_count out.new) result }
    ensures no_usage { result ≢ Status.Usage }
    ensures nothing_written { IsUnwritten result → out.new ≡ out.old }
{
    let Ok(closed) = play_made(wait, alloc, seed, threads, calls, gate) else {
        return Status::Memory;
    };
    let played = closed.entries().len() as u32;
    match write_summary(out, played, 0, refused_count(closed.entries()), 0) {
        Ok(()) => Status::Done(Some(closed)),
        Err(_) => Status::WriteFault(Some(closed)),
    }
}
