//! The whole program over a source and two sinks: words, input, rewriting, lines. What `run` wrote is the one rewriting
//! of its input; each other status comes only with its cause. `specs/Run.antt` has both, and the laws of the rewriting
//! stand on `run` too, so that a reader of this file sees what the lines are worth.

ghost use Rattle.std.specs.Prelude.{◌≡◌, ◌≢◌, ◌⊎◌, ℕ, List, Some, map};
ghost use Rattle.std.specs.String.{string_bytes};
ghost use Rattle.raw_trace.specs.Laws.{KeepsCalls, KeepsOrders, KeepsGoodLines, KeepsGoodTexts};
ghost use Rattle.strace_lines.specs.declared.words.Asked.TheVariants.{Rewrite};
ghost use Rattle.strace_lines.specs.Words.{AskFor, AskForOne, RefusesWords};
ghost use Rattle.strace_lines.specs.Run.{Wrote, HasCause, IsOnlyOutcome, IsHindered, IsUnwritten, Says, status_of};

use crate::said::say;
use crate::status::Status;
use crate::words::{Asked, asked_of};
use byte_ports::{Sink, Source, Unread, read_all, write_all};
use raw_trace::{
    Fault, good_lines_stay, good_texts_stay, rewrite, rewriting_keeps_calls, rewriting_keeps_orders,
};
use std::alloc::Global;

/// How many bytes an input may have: 64 MiB.
const INPUT_LIMIT: usize = 67_108_864;

/// The help.
const HELP: &[u8] = b"usage: strace_lines [--strict] [--process N] < raw.log > my.trace

Reads what strace(1) printed, and writes lines that range_cli plays.

  --process N   the lines of process N and its threads alone
  --strict      end with status 3 at the first line of a call that can't be read
  -h, --help    print this
";

/// Rewrites the raw log of `input` into lines of the profile on `out`, as `words` ask for, the words behind the
/// program's name, or writes the help there. What was changed and left out, or why the run ended otherwise, goes to
/// `err`; if that write fails the status stays.
pub fn run<S: Source, K: Sink>(
    alloc: Global,
    words: &[String],
    input: &mut S,
    out: &mut K,
    err: &mut K,
) -> Status
    ensures out { Wrote (map string_bytes words.now) (S.remaining input.old) (S.remaining input.new) (K.contents out.old) (K.contents out.new) result }
    ensures cause { HasCause (map string_bytes words.now) (S.remaining input.old) (S.remaining input.new)
        (S.fault_count input.old, S.fault_count input.new) (K.fault_count out.old, K.fault_count out.new) result }
    // The run ends with the one status that the words and the bytes of the input call for, unless there was no memory
    // or a port failed.
    ensures complete { (bytes : List ℕ) → S.remaining input.old ≡ Some bytes → IsOnlyOutcome (map string_bytes words.now) bytes result
        ⊎ IsHindered (S.fault_count input.old, S.fault_count input.new) (K.fault_count out.old, K.fault_count out.new) result }
    ensures usage { RefusesWords (map string_bytes words.now) → result ≡ Status.Usage }
    ensures nothing_read { (result ≡ Status.Usage) ⊎ (result ≡ Status.Helped) → input.new ≡ input.old }
    ensures nothing_written { IsUnwritten result → out.new ≡ out.old }
    ensures says { Says (K.contents err.old) (K.contents err.new) (K.fault_count err.old) (K.fault_count err.new) result }
    // What is written is read by the reader of lines as just the calls of the log, in the order of the rule, and no
    // line of it is refused.
    ensures calls { KeepsCalls }
    // Each process' calls keep their order.
    ensures orders { KeepsOrders }
    // A line that is read as it is stays byte for byte.
    ensures good_lines { KeepsGoodLines }
    // Texts that are all good lines stay byte for byte.
    ensures good_texts { KeepsGoodTexts }
{
    rewriting_keeps_calls();
    rewriting_keeps_orders();
    good_lines_stay();
    good_texts_stay();
    let status = answer(alloc, words, input, out);
    let _ = say(err, &status);
    status
}

/// The whole of a run but what it says.
fn answer<S: Source, K: Sink>(alloc: Global, words: &[String], input: &mut S, out: &mut K) -> Status
    ensures out { Wrote (map string_bytes words.now) (S.remaining input.old) (S.remaining input.new) (K.contents out.old) (K.contents out.new) result }
    ensures cause { HasCause (map string_bytes words.now) (S.remaining input.old) (S.remaining input.new)
        (S.fault_count input.old, S.fault_count input.new) (K.fault_count out.old, K.fault_count out.new) result }
    ensures complete { (bytes : List ℕ) → S.remaining input.old ≡ Some bytes → IsOnlyOutcome (map string_bytes words.now) bytes result
        ⊎ IsHindered (S.fault_count input.old, S.fault_count input.new) (K.fault_count out.old, K.fault_count out.new) result }
    ensures usage { RefusesWords (map string_bytes words.now) → result ≡ Status.Usage }
    ensures nothing_read { (result ≡ Status.Usage) ⊎ (result ≡ Status.Helped) → input.new ≡ input.old }
    ensures nothing_written { IsUnwritten result → out.new ≡ out.old }
{
    match asked_of(words) {
        Some(Asked::Help) => match write_all(out, HELP) {
            Ok(()) => Status::Helped,
            Err(_) => Status::WriteFault,
        },
        Some(Asked::Rewrite { process, strict }) => rewrite_input(
            alloc, process, strict, input, out,
        ),
        None => Status::Usage,
    }
}

/// Rewrites an input. What is said of it is so of all words that ask for this.
fn rewrite_input<S: Source, K: Sink>(
    alloc: Global,
    process: Option<u32>,
    strict: bool,
    input: &mut S,
    out: &mut K,
) -> Status
    ensures out { (words : List (List ℕ)) → AskFor words (Rewrite process strict)
        → Wrote words (S.remaining input.old) (S.remaining input.new) (K.contents out.old) (K.contents out.new) result }
    ensures cause { (words : List (List ℕ)) → AskFor words (Rewrite process strict) → HasCause words (S.remaining input.old) (S.remaining input.new)
        (S.fault_count input.old, S.fault_count input.new) (K.fault_count out.old, K.fault_count out.new) result }
    ensures complete { (words : List (List ℕ)) → AskFor words (Rewrite process strict) → AskForOne words
        → (bytes : List ℕ) → S.remaining input.old ≡ Some bytes → IsOnlyOutcome words bytes result
        ⊎ IsHindered (S.fault_count input.old, S.fault_count input.new) (K.fault_count out.old, K.fault_count out.new) result }
    ensures no_usage { result ≢ Status.Usage }
    ensures no_help { result ≢ Status.Helped }
    ensures nothing_written { IsUnwritten result → out.new ≡ out.old }
{
    let bytes = match read_all(alloc, input, INPUT_LIMIT) {
        Ok(bytes) => bytes,
        Err(Unread::Failed) => return Status::ReadFault,
        Err(Unread::Long) => return Status::LongInput,
        Err(Unread::Memory) => return Status::Memory,
    };
    let found = match rewrite(alloc, bytes.as_slice(), process, strict) {
        Ok(found) => found,
        Err(fault) => return status_of(fault),
    };
    match write_all(out, found.out.as_slice()) {
        Ok(()) => Status::Done {
            calls: found.calls,
            counts: found.counts,
            ends_cut: found.ends_cut,
        },
        Err(_) => Status::WriteFault,
    }
}

/// The status of a run whose log isn't rewritten.
fn status_of(fault: Fault) -> Status
    ensures { result ≡ status_of fault }
{
    match fault {
        Fault::Unreadable {
            line,
            column,
            cause,
        } => Status::Unreadable {
            line,
            column,
            cause,
        },
        Fault::LongLine { line } => Status::LongLine { line },
        Fault::NoProcess => Status::NoProcess,
        Fault::Memory => Status::Memory,
    }
}
