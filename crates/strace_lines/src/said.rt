//! What a run says on standard error: its counts where it wrote its lines, else why it did not. It takes no memory, so
//! that it can say that there is none. `said` in `specs/Texts.antt` has the texts.

ghost use Rattle.std.specs.Prelude.{◌≡◌, ◌≤◌, map, OnOk, OnErr};
ghost use Rattle.std.specs.Io.KnownBytes.{Appends};
ghost use Rattle.byte_ports.specs.Bytes.{AppendsPrefix};
ghost use Rattle.byte_ports.specs.Counts.{Rose};
ghost use Rattle.strace_lines.specs.Texts.{said, count_line, counted_text, counts_text, named_count, named_counts, calls_text, cut_text, done_text};
ghost use Rattle.strace_lines.specs.Texts.{cause_text, what_text, unreadable_text};

use crate::status::Status;
use byte_ports::{Failed, Sink, write_all, write_numbered};
use raw_logs::Counts;
use raw_trace::{Cause, Tally};
use strace_reader::What;

/// The line for words that are not accepted.
const USAGE: &[u8] = b"usage: strace_lines [--strict] [--process N] < raw.log > my.trace\n";

/// The lines for a log without a call.
const NO_CALL: &[u8] = b"strace_lines: calls written: 0
strace_lines: no call was found: is this a log of strace -f, without -Y?
";

/// Writes the line of a count.
fn write_count_line<K: Sink>(err: &mut K, text: &[u8], count: u32) -> Result<(), Failed>
    ensures all { OnOk result (Appends (K.contents err.old) (K.contents err.new) (count_line text.now count)) }
    ensures failed_prefix { OnErr result (AppendsPrefix (K.contents err.old) (K.contents err.new) (count_line text.now count)) }
    ensures failed_rose { OnErr result (Rose (K.fault_count err.old) (K.fault_count err.new)) }
    ensures never_falls { K.fault_count err.old ≤ K.fault_count err.new }
{
    write_all(err, b"strace_lines: ")?;
    write_all(err, text)?;
    write_numbered(err, b": ", count as u64, b"\n")
}

/// Writes the line of a count, where it isn't 0.
fn write_count<K: Sink>(err: &mut K, text: &[u8], count: u32) -> Result<(), Failed>
    ensures all { OnOk result (Appends (K.contents err.old) (K.contents err.new) (counted_text text.now count)) }
    ensures failed_prefix { OnErr result (AppendsPrefix (K.contents err.old) (K.contents err.new) (counted_text text.now count)) }
    ensures failed_rose { OnErr result (Rose (K.fault_count err.old) (K.fault_count err.new)) }
    ensures never_falls { K.fault_count err.old ≤ K.fault_count err.new }
{
    if count == 0 {
        Ok(())
    } else {
        write_count_line(err, text, count)
    }
}

/// Writes the lines of counts, each with what it counts.
fn write_counts<K: Sink>(err: &mut K, counts: &[(&[u8], u32)]) -> Result<(), Failed>
    ensures all { OnOk result (Appends (K.contents err.old) (K.contents err.new) (counts_text (map named_count counts.now))) }
    ensures failed_prefix { OnErr result (AppendsPrefix (K.contents err.old) (K.contents err.new) (counts_text (map named_count counts.now))) }
    ensures failed_rose { OnErr result (Rose (K.fault_count err.old) (K.fault_count err.new)) }
    ensures never_falls { K.fault_count err.old ≤ K.fault_count err.new }
{
    for &(text, count) in counts {
        write_count(err, text, count)?;
    }
    Ok(())
}

/// What each count counts, in the order in which they are written.
fn named_counts(calls: Tally, counts: &Counts) -> [(&'static [u8], u32); 23]
    ensures { map named_count result ≡ named_counts calls counts.now }
{
    [
        (b"lines without what options add", counts.stripped),
        (b"process numbers changed", counts.numbered),
        (b"messages of strace left out", counts.messages),
        (b"stack lines left out", counts.stack),
        (b"lines of unknown beginning left out", counts.unknown),
        (b"long lines left out", counts.long),
        (b"lines of other processes left out", counts.elsewhere),
        (b"lines before an execve left out", counts.earlier),
        (b"lines that don't tell what was made", counts.untold),
        (b"numbers that were made and have no line", counts.silent),
        (b"numbers that have lines and weren't made", counts.foreign),
        (b"numbers that were made twice", counts.twice),
        (b"calls that show another program", calls.programs),
        (b"calls of brk written as what they did", calls.brks),
        (b"calls joined", counts.joined),
        (b"calls mended", counts.mended),
        (b"calls that never returned", counts.unreturned),
        (b"lines left unread", counts.unread),
        (b"calls of other forms, not played", counts.forms),
        (
            b"calls with an injected result, not played",
            counts.injected,
        ),
        (
            b"calls that failed for reasons outside, not played",
            counts.outside,
        ),
        (b"mprotects that failed, played", calls.protects),
        (b"calls whose result isn't told", counts.unanswered),
    ]
}

/// Writes that the log ends within a line, where it does.
fn write_cut<K: Sink>(err: &mut K, ends_cut: bool) -> Result<(), Failed>
    ensures all { OnOk result (Appends (K.contents err.old) (K.contents err.new) (cut_text ends_cut)) }
    ensures failed_prefix { OnErr result (AppendsPrefix (K.contents err.old) (K.contents err.new) (cut_text ends_cut)) }
    ensures failed_rose { OnErr result (Rose (K.fault_count err.old) (K.fault_count err.new)) }
    ensures never_falls { K.fault_count err.old ≤ K.fault_count err.new }
{
    if ends_cut {
        write_all(err, b"strace_lines: last line cut, left out\n")
    } else {
        Ok(())
    }
}

/// Writes how many calls were written; where there are none, what to look for.
fn write_calls<K: Sink>(err: &mut K, calls: u32) -> Result<(), Failed>
    ensures all { OnOk result (Appends (K.contents err.old) (K.contents err.new) (calls_text calls)) }
    ensures failed_prefix { OnErr result (AppendsPrefix (K.contents err.old) (K.contents err.new) (calls_text calls)) }
    ensures failed_rose { OnErr result (Rose (K.fault_count err.old) (K.fault_count err.new)) }
    ensures never_falls { K.fault_count err.old ≤ K.fault_count err.new }
{
    if calls == 0 {
        write_all(err, NO_CALL)
    } else {
        write_count_line(err, b"calls written", calls)
    }
}

/// Writes how many calls were written, and what was changed and left out.
fn write_done<K: Sink>(
    err: &mut K,
    calls: Tally,
    counts: &Counts,
    ends_cut: bool,
) -> Result<(), Failed>
    ensures all { OnOk result (Appends (K.contents err.old) (K.contents err.new) (done_text calls counts.now ends_cut)) }
    ensures failed_prefix { OnErr result (AppendsPrefix (K.contents err.old) (K.contents err.new) (done_text calls counts.now ends_cut)) }
    ensures failed_rose { OnErr result (Rose (K.fault_count err.old) (K.fault_count err.new)) }
    ensures never_falls { K.fault_count err.old ≤ K.fault_count err.new }
{
    write_calls(err, calls.calls)?;
    write_counts(err, &named_counts(calls, counts))?;
    write_cut(err, ends_cut)
}

/// How the line says what was due, with the colon before it and the newline.
fn due(what: What) -> &'static [u8]
    ensures { result.now ≡ what_text what }
{
    match what {
        What::Number => b": number expected\n",
        What::Wide => b": number too wide\n",
        What::Word => b": word expected\n",
        What::Comma => b": comma expected\n",
        What::Close => b": closing parenthesis expected\n",
        What::Result => b": result expected\n",
        What::Form => b": no maps line\n",
        What::Order => b": maps out of order\n",
    }
}

/// How the line says why a line can't be read, with the colon before it and the newline.
fn why(cause: Cause) -> &'static [u8]
    ensures { result.now ≡ cause_text cause }
{
    match cause {
        Cause::Form(what) => due(what),
        Cause::Alone => b": second half without its first\n",
        Cause::Unclear => b": unclear line\n",
        Cause::OtherForm => b": form that isn't played\n",
        Cause::Unknown => b": unknown beginning\n",
    }
}

/// Writes the line of a line that can't be read.
fn write_unreadable<K: Sink>(
    err: &mut K,
    line: u32,
    column: u32,
    cause: Cause,
) -> Result<(), Failed>
    ensures all { OnOk result (Appends (K.contents err.old) (K.contents err.new) (unreadable_text line column cause)) }
    ensures failed_prefix { OnErr result (AppendsPrefix (K.contents err.old) (K.contents err.new) (unreadable_text line column cause)) }
    ensures failed_rose { OnErr result (Rose (K.fault_count err.old) (K.fault_count err.new)) }
{
    write_numbered(err, b"strace_lines: line ", line as u64, b" column ")?;
    write_numbered(err, b"", column as u64, why(cause))
}

/// Writes what a run says that ended so.
///
/// `Failed`: the sink failed in this call; some first part was appended.
#[tactic(auto, unfolding(crate::specs::Texts::said))]
pub fn say<K: Sink>(err: &mut K, status: &Status) -> Result<(), Failed>
    ensures all { OnOk result (Appends (K.contents err.old) (K.contents err.new) (said status.now)) }
    ensures failed_prefix { OnErr result (AppendsPrefix (K.contents err.old) (K.contents err.new) (said status.now)) }
    ensures failed_rose { OnErr result (Rose (K.fault_count err.old) (K.fault_count err.new)) }
{
    match status {
        Status::Done {
            calls,
            counts,
            ends_cut,
        } => write_done(err, *calls, counts, *ends_cut),
        Status::Helped => Ok(()),
        Status::Usage => write_all(err, USAGE),
        Status::Unreadable {
            line,
            column,
            cause,
        } => write_unreadable(err, *line, *column, *cause),
        Status::NoProcess => write_all(err, b"strace_lines: no line of that process\n"),
        Status::ReadFault => write_all(err, b"strace_lines: read fault\n"),
        Status::WriteFault => write_all(err, b"strace_lines: write fault\n"),
        Status::Memory => write_all(err, b"strace_lines: out of memory\n"),
        Status::LongInput => write_all(err, b"strace_lines: limit input: 67108865\n"),
        Status::LongLine { line } => write_numbered(
            err,
            b"strace_lines: line ",
            *line as u64,
            b": limit line: 65536\n",
        ),
    }
}
