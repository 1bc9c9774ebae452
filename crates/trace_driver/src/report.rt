//! The report of a run: the log and the changes of the calls where they are asked for, the maps that are left, the
//! summary, and the count of touched pages where that is asked for. The texts of the parts are those of the crate
//! `maps_printer`. A reader may rely on the output being the whole report, or a first part of it
//! where the sink failed.
ghost use Rattle.std.specs.Prelude.{◌≡◌, ◌≤◌, ◌^◌, ◌<◌, ◌↔◌, length, Some, IfSome, IsNone, IsTrue, OnOk, OnErr};
ghost use Rattle.std.specs.Io.KnownBytes.{Appends};
ghost use Rattle.byte_ports.specs.Bytes.{AppendsPrefix};
ghost use Rattle.byte_ports.specs.Counts.{Rose};
ghost use Rattle.trace_driver.specs.Report.{report_text, asked_changes, asked_log, asked_touched, is_refused, refused_count};
ghost use Rattle.strace_reader.specs.Playing.{Agrees, Differs};
ghost use Rattle.trace_driver.specs.Report.{Differing, DiffersFrom, DiffersFromLine, HasNoLine, IsPlaceOf, LinesRise};

use crate::trace::Line;
use area_changes::EntryChange;
use byte_ports::{Failed, Sink};
use command_words::Options;
use maps_printer::{
    DifferingReply, write_changes, write_differing, write_log, write_maps, write_summary,
    write_touched,
};
use page_types::Reply;
use space_model::{Area, Entry};
use strace_reader::{Recorded, differs};

/// The counts of a report but that of the played calls, which is the number of entries.
#[derive(Clone, Copy, Debug, PartialEq, Eq)]
pub struct Counts {
    /// Lines that were passed over.
    pub skipped: u32,
    /// Calls that were refused.
    pub refused: u32,
    /// Replies that differ from the recorded result.
    pub differ: u32,
    /// Pages of granted faults, each once; any number where it isn't asked for.
    pub touched: u32,
}

/// Writes the report of what was played: the log is that of `entries`, at most 2^32 - 1 of them, or of the replies that
/// differ, and the maps are those of `areas`.
///
/// `Failed`: the sink failed in this call; some first part of the report was appended.
pub fn write_report<K: Sink>(
    out: &mut K,
    options: Options,
    entries: &[Entry],
    areas: &[Area],
    differing: &[DifferingReply],
    changes: &[EntryChange],
    counts: Counts,
) -> Result<(), Failed>
    requires { length entries.now < 2 ^ 32 }
    ensures all { OnOk result (Appends (K.contents out.old) (K.contents out.new)
        (report_text options areas.now entries.now differing.now changes.now counts)) }
    ensures failed_prefix { OnErr result (AppendsPrefix (K.contents out.old) (K.contents out.new)
        (report_text options areas.now entries.now differing.now changes.now counts)) }
    ensures failed_rose { OnErr result (Rose (K.fault_count out.old) (K.fault_count out.new)) }
{
    write_asked_log(out, options, entries, differing)?;
    write_asked_changes(out, options, changes)?;
    write_maps(out, areas)?;
    let played = entries.len() as u32;
    write_summary(out, played, counts.skipped, counts.refused, counts.differ)?;
    write_asked_touched(out, options, counts.touched)
}

/// Writes how many pages were touched where the options ask for it.
fn write_asked_touched<K: Sink>(out: &mut K, options: Options, count: u32) -> Result<(), Failed>
    ensures all { OnOk result
        (Appends (K.contents out.old) (K.contents out.new) (asked_touched options count)) }
    ensures failed_prefix { OnErr result
        (AppendsPrefix (K.contents out.old) (K.contents out.new) (asked_touched options count)) }
    ensures failed_rose { OnErr result (Rose (K.fault_count out.old) (K.fault_count out.new)) }
    ensures never_falls { K.fault_count out.old ≤ K.fault_count out.new }
{
    if options.touched {
        write_touched(out, count)
    } else {
        Ok(())
    }
}

/// Writes the changes where the options ask for them.
fn write_asked_changes<K: Sink>(
    out: &mut K,
    options: Options,
    changes: &[EntryChange],
) -> Result<(), Failed>
    ensures all { OnOk result
        (Appends (K.contents out.old) (K.contents out.new) (asked_changes options changes.now)) }
    ensures failed_prefix { OnErr result
        (AppendsPrefix (K.contents out.old) (K.contents out.new) (asked_changes options changes.now)) }
    ensures failed_rose { OnErr result (Rose (K.fault_count out.old) (K.fault_count out.new)) }
    ensures never_falls { K.fault_count out.old ≤ K.fault_count out.new }
{
    if options.changes {
        write_changes(out, changes)
    } else {
        Ok(())
    }
}

/// Writes the log where the options ask for it, or the replies that differ where they ask for these.
fn write_asked_log<K: Sink>(
    out: &mut K,
    options: Options,
    entries: &[Entry],
    differing: &[DifferingReply],
) -> Result<(), Failed>
    ensures all { OnOk result
        (Appends (K.contents out.old) (K.contents out.new) (asked_log options entries.now differing.now)) }
    ensures failed_prefix { OnErr result
        (AppendsPrefix (K.contents out.old) (K.contents out.new) (asked_log options entries.now differing.now)) }
    ensures failed_rose { OnErr result (Rose (K.fault_count out.old) (K.fault_count out.new)) }
    ensures never_falls { K.fault_count out.old ≤ K.fault_count out.new }
{
    if options.differ {
        write_differing(out, differing)
    } else if options.log {
        write_log(out, entries)
    } else {
        Ok(())
    }
}

/// How many calls were refused.
pub fn refused_count(entries: &[Entry]) -> u32
    requires { length entries.now < 2 ^ 32 }
    ensures { result ≡ refused_count entries.now }
{
    entries
        .iter()
        .filter(|entry| is_refused(entry.reply))
        .count() as u32
}

/// Whether a reply is a refusal.
fn is_refused(reply: Reply) -> bool
    ensures { result ≡ is_refused reply }
{
    matches!(reply, Reply::Refused(_))
}

/// How many replies differ from the recorded result of their line.
pub fn differ_count(lines: &[Line], entries: &[Entry]) -> u32
    requires rising { LinesRise lines.now }
    requires few { length entries.now < 2 ^ 32 }
    ensures { Differing lines.now entries.now result }
{
    let mut count = 0;
    let mut near = 0;
    'entries: for entry in entries {
        let (differs, next) = differs_from_line(lines, entry, near);
        near = next;
        if differs {
            count += 1;
        }
    }
    count
}

/// Whether an entry's reply differs from the recorded result of its line, and where to look first for the line of the
/// next entry.
fn differs_from_line(lines: &[Line], entry: &Entry, near: usize) -> (bool, usize)
    requires { LinesRise lines.now }
    ensures { IsTrue result.0 ↔ DiffersFromLine lines.now entry.now }
{
    let (other, next) = other_result(lines, entry, near);
    (other.is_some(), next)
}

/// The recorded result of an entry's line, where the entry's reply differs from it; the line is looked for at one place
/// first. And where to look first for the line of the next entry.
pub(crate) fn other_result(lines: &[Line], entry: &Entry, near: usize) -> (Option<Recorded>, usize)
    requires { LinesRise lines.now }
    ensures some { IfSome result.0 (DiffersFrom lines.now entry.now) }
    ensures none { IsNone result.0 → ¬ DiffersFromLine lines.now entry.now }
{
    match place_of(lines, entry.line, near) {
        Some(place) => (unless_same(&entry.reply, lines[place].recorded), place + 1),
        None => (None, near),
    }
}

/// What was recorded, where the reply is not that.
fn unless_same(reply: &Reply, recorded: Option<Recorded>) -> Option<Recorded>
    ensures some { IfSome result (λ other. (recorded ≡ Some other) × (¬ Agrees reply.now other)) }
    ensures none { IsNone result → ¬ Differs reply.now recorded }
{
    if differs(reply, recorded) {
        recorded
    } else {
        None
    }
}

/// Where the line of a number stands: looked for at one place first, and otherwise by halving.
fn place_of(lines: &[Line], number: u32, near: usize) -> Option<usize>
    requires rising { LinesRise lines.now }
    ensures found { IfSome result (IsPlaceOf lines.now number) }
    ensures none { IsNone result → HasNoLine lines.now number }
{
    if near < lines.len() && lines[near].number == number {
        return Some(near);
    }
    match lines.binary_search_by_key(&number, |line| line.number) {
        Ok(place) => Some(place),
        Err(_) => None,
    }
}
