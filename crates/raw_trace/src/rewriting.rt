//! The whole of a raw log: its texts, which of them are halves of one call, and in which order they are written. The
//! log is in memory as a whole, since a call may be written before its second half; nothing is written before every
//! line was read. `IsRewriting` in `specs/Rewriting.antt` is the result.

ghost use Rattle.std.specs.Prelude.{◌≡◌, ◌⊎◌, ◌≤◌, ℕ, List, length, true, Ok, Err, Some, None, IfOk, IfErr, OnOk};
ghost use Rattle.raw_logs.specs.declared.counts.Counts.{Counts as CountsOf};
ghost use Rattle.raw_trace.specs.declared.fault.Fault.{Fault as FaultOf};
ghost use Rattle.raw_trace.specs.declared.fault.Fault.TheVariants.{Memory};
ghost use Rattle.raw_trace.specs.declared.tally.Tally.{Tally as TallyOf};
ghost use Rattle.raw_trace.specs.declared.writing.Written.{Written as WrittenOf};
ghost use Rattle.raw_trace.specs.Faults.{asked_unknown, unknown_at, earlier_of};
ghost use Rattle.raw_trace.specs.Rewriting.{IsRewriting};
ghost use Rattle.raw_logs.specs.Reading.{EndsCut};
ghost use Rattle.raw_trace.specs.Laws.{HasShortLines};
ghost use Rattle.raw_trace.specs.Faults.{IsFault, IsCausedFault};

use crate::fault::{Cause, Fault};
use crate::halves::roles_of;
use crate::laws::{has_one_fault, has_one_rewriting};
use crate::tally::Tally;
use crate::writing::{Written, write_lines};
use raw_logs::{Counts, read_log};
use std::alloc::Global;

/// What a raw log becomes.
#[derive(Debug, Drop)]
pub struct Rewriting {
    /// The lines, each with its newline.
    pub out: Vec<u8>,
    /// How many lines of each sort were changed or left out.
    pub counts: Counts,
    /// How many of the lines are calls, and what their heaps show.
    pub calls: Tally,
    /// The log ends within a line, which is left out.
    pub ends_cut: bool,
}

/// The beginning of a line isn't known.
fn unknown_at(line: u32) -> Fault
    ensures { result ≡ unknown_at line }
{
    Fault::Unreadable {
        line,
        column: 1,
        cause: Cause::Unknown,
    }
}

/// Of a fault of the writing and a line whose beginning isn't known, the one that stands first in the log.
fn earlier_of(unknown: Option<u32>, fault: Fault) -> Fault
    ensures { result ≡ earlier_of unknown fault }
{
    let Some(number) = unknown else {
        return fault;
    };
    match fault {
        Fault::Unreadable { line, .. } if number < line => unknown_at(number),
        Fault::LongLine { line } if number < line => unknown_at(number),
        _ => fault,
    }
}

/// The first line whose beginning isn't known, where it matters.
fn asked_unknown(strict: bool, unknown: Option<u32>) -> Option<u32>
    ensures { result ≡ asked_unknown strict unknown }
{
    if strict { unknown } else { None }
}

/// What was written, unless the beginning of a line isn't known that stands before all that calls for a fault.
fn keep_known(written: Result<Written, Fault>, unknown: Option<u32>) -> Result<Written, Fault>
    ensures kept { IfOk result (λ found. (written ≡ Ok found) × (unknown ≡ None)) }
    ensures fault { IfErr result (λ fault. ((found : FaultOf) × (written ≡ Err found) × (fault ≡ earlier_of unknown found))
        ⊎ ((found : WrittenOf) × (written ≡ Ok found) × (number : ℕ) × (unknown ≡ Some number) × (fault ≡ unknown_at number))) }
{
    match written {
        Err(fault) => Err(earlier_of(unknown, fault)),
        Ok(found) => match unknown {
            None => Ok(found),
            Some(line) => Err(unknown_at(line)),
        },
    }
}

/// What a raw log becomes, or the fault that it calls for.
fn rewritten(
    alloc: Global,
    text: &[u8],
    process: Option<u32>,
    strict: bool,
) -> Result<Rewriting, Fault>
    requires { length text.now ≤ 67108864 }
    ensures is { IfOk result (λ found. IsRewriting process text.now found.out.items found.counts found.calls) }
    ensures short { IfOk result (λ found. HasShortLines found.out.items) }
    ensures cut { IfOk result (λ found. EndsCut text.now found.ends_cut) }
    ensures read_all { IfOk result (λ found. strict ≡ true → found.counts.unread ≡ 0) }
    ensures fault { IfErr result (IsFault process strict text.now) }
    ensures never { OnOk result ((fault : FaultOf) → ¬ IsCausedFault process strict text.now fault) }
{
    let texts = read_log(alloc, text, process)?;
    let unknown = asked_unknown(strict, texts.unknown);
    let roles = roles_of(alloc, &texts.lines)?;
    let all = write_lines(alloc, texts.lines, &roles, texts.counts, strict);
    let written = keep_known(all, unknown)?;
    Ok(Rewriting {
        out: written.out,
        counts: written.counts,
        calls: written.calls,
        ends_cut: texts.ends_cut,
    })
}

/// Rewrites a raw log of strace(1), of at most 67,108,864 bytes, into lines of the profile: of the process that is
/// asked for and its threads, or of the program and its threads. With `strict` every line has to be read.
///
/// `Err`: a line can't be read and `strict` is set, a line is too long, or there was no memory.
pub fn rewrite(
    alloc: Global,
    text: &[u8],
    process: Option<u32>,
    strict: bool,
) -> Result<Rewriting, Fault>
    requires { length text.now ≤ 67108864 }
    // It is the rewriting of the log.
    ensures is { IfOk result (λ found. IsRewriting process text.now found.out.items found.counts found.calls) }
    // There is no other.
    ensures only { (out : List ℕ) (counts : CountsOf) (calls : TallyOf) → IsRewriting process text.now out counts calls
        → IfOk result (λ found. (found.out.items ≡ out) × (found.counts ≡ counts) × (found.calls ≡ calls)) }
    // Each of its lines may be read.
    ensures short { IfOk result (λ found. HasShortLines found.out.items) }
    // Whether the log ends within a line.
    ensures cut { IfOk result (λ found. EndsCut text.now found.ends_cut) }
    // With `strict` no line is left unread.
    ensures read_all { IfOk result (λ found. strict ≡ true → found.counts.unread ≡ 0) }
    // A fault has its cause.
    ensures fault { IfErr result (IsFault process strict text.now) }
    // Where the log calls for a fault it comes, unless memory ran out.
    ensures complete { (fault : FaultOf) → IsCausedFault process strict text.now fault → (result ≡ Err fault) ⊎ (result ≡ Err Memory) }
{
    has_one_rewriting();
    has_one_fault();
    rewritten(alloc, text, process, strict)
}
