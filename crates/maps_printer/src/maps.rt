//! The maps of an address space and the summary of a run, as text. The maps follow proc_pid_maps(5): a line for each
//! area, with the addresses of its first byte and of the byte after its last one, and its permissions. The summary is
//! this project's own profile.
ghost use Rattle.std.specs.Prelude.{◌≡◌, ◌+◌, ◌≤◌, ◌∷◌, ◌++◌, [], length, decimal, OnOk, OnErr};
ghost use Rattle.std.specs.Bool.{Decides};
ghost use Rattle.std.specs.Io.KnownBytes.{Appends};
ghost use Rattle.byte_ports.specs.Bytes.{AppendsPrefix};
ghost use Rattle.byte_ports.specs.Counts.{Rose};
ghost use Rattle.maps_printer.specs.Lines.{area_line, maps_text, summary_text, touched_text};

use crate::buffer::{Buffer, LINE, SIZE};
use crate::numbers::{push_decimal, push_page_address};
use crate::words::push_kind;
use byte_ports::{Failed, Sink};
use space_model::Area;

/// Writes the maps: a line for each area. It takes no memory.
///
/// `Failed`: the sink failed in this call; some first part of the text was appended.
pub fn write_maps<K: Sink>(out: &mut K, areas: &[Area]) -> Result<(), Failed>
    ensures text { OnOk result (Appends (K.contents out.old) (K.contents out.new) (maps_text areas.now)) }
    ensures failed_prefix { OnErr result
        (AppendsPrefix (K.contents out.old) (K.contents out.new) (maps_text areas.now)) }
    ensures failed_rose { OnErr result (Rose (K.fault_count out.old) (K.fault_count out.new)) }
    ensures never_falls { K.fault_count out.old ≤ K.fault_count out.new }
{
    let mut buffer = Buffer::new();
    for area in areas {
        push_area(&mut buffer, area);
        buffer.make_room(out)?;
    }
    buffer.flush(out)
}

/// Writes the summary: how many calls were played, how many lines were skipped, how many calls were refused, and how
/// many replies differ from the recorded result. It takes no memory.
///
/// `Failed`: the sink failed in this call; some first part of the text was appended.
pub fn write_summary<K: Sink>(
    out: &mut K,
    played: u32,
    skipped: u32,
    refused: u32,
    differ: u32,
) -> Result<(), Failed>
    ensures text { OnOk result
        (Appends (K.contents out.old) (K.contents out.new) (summary_text played skipped refused differ)) }
    ensures failed_prefix { OnErr result
        (AppendsPrefix (K.contents out.old) (K.contents out.new) (summary_text played skipped refused differ)) }
    ensures failed_rose { OnErr result (Rose (K.fault_count out.old) (K.fault_count out.new)) }
    ensures never_falls { K.fault_count out.old ≤ K.fault_count out.new }
{
    let mut buffer = Buffer::new();
    push_count(&mut buffer, b"played ", played);
    push_count(&mut buffer, b" skipped ", skipped);
    push_count(&mut buffer, b" refused ", refused);
    push_count(&mut buffer, b" differ ", differ);
    buffer.push(b"\n");
    buffer.flush(out)
}

/// Whether the text is the line of this area, without its newline. It takes no memory.
pub fn is_line_of_area(text: &[u8], area: &Area) -> bool
    ensures { Decides result (text.now ++ 10 ∷ [] ≡ area_line area.now) }
{
    let mut buffer = Buffer::new();
    push_area(&mut buffer, area);
    buffer.is_line(text)
}

/// Writes how many pages were touched. It takes no memory.
///
/// `Failed`: the sink failed in this call; some first part of the text was appended.
pub fn write_touched<K: Sink>(out: &mut K, count: u32) -> Result<(), Failed>
    ensures text { OnOk result (Appends (K.contents out.old) (K.contents out.new) (touched_text count)) }
    ensures failed_prefix { OnErr result
        (AppendsPrefix (K.contents out.old) (K.contents out.new) (touched_text count)) }
    ensures failed_rose { OnErr result (Rose (K.fault_count out.old) (K.fault_count out.new)) }
    ensures never_falls { K.fault_count out.old ≤ K.fault_count out.new }
{
    let mut buffer = Buffer::new();
    push_count(&mut buffer, b"touched ", count);
    buffer.push(b"\n");
    buffer.flush(out)
}

/// Adds the line of an area: at most `LINE` bytes.
fn push_area(buffer: &mut Buffer, area: &Area)
    requires { length buffer.old + LINE ≤ SIZE }
    ensures text { buffer.new ≡ buffer.old ++ area_line area.now }
    ensures room { length buffer.new ≤ length buffer.old + LINE }
{
    push_page_address(buffer, area.lo);
    buffer.push(b"-");
    push_page_address(buffer, area.hi);
    buffer.push(b" ");
    push_kind(buffer, area.kind);
    buffer.push(b" 00000000 00:00 0\n");
}

/// Adds a name and a number: at most 30 bytes.
fn push_count(buffer: &mut Buffer, name: &[u8], count: u32)
    requires short { length name.now ≤ 10 }
    requires room { length buffer.old + 30 ≤ SIZE }
    ensures text { buffer.new ≡ buffer.old ++ (name.now ++ decimal count) }
    ensures room { length buffer.new ≤ length buffer.old + 30 }
{
    buffer.push(name);
    push_decimal(buffer, u64::from(count));
}
