//! The changes that the calls of a history make, as text: a line for each span of pages, with the number of the entry,
//! the addresses as proc_pid_maps(5) has them, and the kind of the pages before and after. A kind is that of a log,
//! whose seal the maps don't show; no sealed page changes, so ` sealed` stands at the end of a line alone. The form of
//! a line is this project's own profile.
ghost use Rattle.std.specs.Prelude.{◌≡◌, ◌+◌, ◌≤◌, ◌++◌, length, codes, OnOk, OnErr};
ghost use Rattle.std.specs.Io.KnownBytes.{Appends};
ghost use Rattle.byte_ports.specs.Bytes.{AppendsPrefix};
ghost use Rattle.byte_ports.specs.Counts.{Rose};
ghost use Rattle.maps_printer.specs.Lines.{change_line, changes_text, kind_or_none};

use crate::buffer::{Buffer, LINE, SIZE};
use crate::numbers::{push_decimal, push_page_address};
use crate::words::push_log_kind;
use area_changes::EntryChange;
use byte_ports::{Failed, Sink};
use page_types::Kind;

/// Writes changes: a line for each, in the list's order. It takes no memory.
///
/// `Failed`: the sink failed in this call; some first part of the text was appended.
pub fn write_changes<K: Sink>(out: &mut K, changes: &[EntryChange]) -> Result<(), Failed>
    ensures text { OnOk result (Appends (K.contents out.old) (K.contents out.new) (changes_text changes.now)) }
    ensures failed_prefix { OnErr result
        (AppendsPrefix (K.contents out.old) (K.contents out.new) (changes_text changes.now)) }
    ensures failed_rose { OnErr result (Rose (K.fault_count out.old) (K.fault_count out.new)) }
    ensures never_falls { K.fault_count out.old ≤ K.fault_count out.new }
{
    let mut buffer = Buffer::new();
    for change in changes {
        push_change(&mut buffer, change);
        buffer.make_room(out)?;
    }
    buffer.flush(out)
}

/// Adds the line of a change: at most `LINE` bytes.
fn push_change(buffer: &mut Buffer, change: &EntryChange)
    requires { length buffer.old + LINE ≤ SIZE }
    ensures text { buffer.new ≡ buffer.old ++ change_line change.now }
    ensures room { length buffer.new ≤ length buffer.old + LINE }
{
    push_decimal(buffer, change.number);
    buffer.push(b" ");
    push_page_address(buffer, change.change.lo);
    buffer.push(b"-");
    push_page_address(buffer, change.change.hi);
    push_option(buffer, change.change.before);
    push_option(buffer, change.change.after);
    buffer.push(b"\n");
}

/// Adds a space and the kind of pages, or that they aren't mapped: at most 12 bytes.
fn push_option(buffer: &mut Buffer, kind: Option<Kind>)
    requires { length buffer.old + 12 ≤ SIZE }
    ensures text { buffer.new ≡ buffer.old ++ (codes " " ++ kind_or_none kind) }
    ensures room { length buffer.new ≤ length buffer.old + 12 }
{
    buffer.push(b" ");
    match kind {
        None => buffer.push(b"none"),
        Some(kind) => push_log_kind(buffer, kind),
    }
}
