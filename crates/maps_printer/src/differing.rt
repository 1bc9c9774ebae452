//! The replies that aren't the recorded ones, as text: the line of each entry as a log has it, and before its end what
//! the trace recorded. Of an error that no reply may have a trace's reader keeps no name, so it is `-1 other`. The form
//! of a line is this project's own profile.
ghost use Rattle.std.specs.Prelude.{◌≡◌, ◌+◌, ◌≤◌, ◌++◌, length, OnOk, OnErr};
ghost use Rattle.std.specs.Io.KnownBytes.{Appends};
ghost use Rattle.byte_ports.specs.Bytes.{AppendsPrefix};
ghost use Rattle.byte_ports.specs.Counts.{Rose};
ghost use Rattle.maps_printer.specs.Calls.{errno_text, recorded_text};
ghost use Rattle.maps_printer.specs.Lines.{differing_line, differing_text};

use crate::buffer::{Buffer, LINE, SIZE};
use crate::log::push_ended;
use crate::numbers::push_prefixed_hex;
use byte_ports::{Failed, Sink};
use space_model::Entry;
use strace_reader::{Errno, Recorded};

/// A call whose reply isn't the recorded one.
#[derive(Clone, Copy, PartialEq, Eq, Debug)]
pub struct DifferingReply {
    /// The call with its reply.
    pub entry: Entry,
    /// What the trace recorded as its result.
    pub recorded: Recorded,
}

/// Writes the replies that differ: a line for each, in the list's order. It takes no memory.
///
/// `Failed`: the sink failed in this call; some first part of the text was appended.
pub fn write_differing<K: Sink>(out: &mut K, replies: &[DifferingReply]) -> Result<(), Failed>
    ensures text { OnOk result (Appends (K.contents out.old) (K.contents out.new) (differing_text replies.now)) }
    ensures failed_prefix { OnErr result
        (AppendsPrefix (K.contents out.old) (K.contents out.new) (differing_text replies.now)) }
    ensures failed_rose { OnErr result (Rose (K.fault_count out.old) (K.fault_count out.new)) }
    ensures never_falls { K.fault_count out.old ≤ K.fault_count out.new }
{
    let mut buffer = Buffer::new();
    for reply in replies {
        push_differing(&mut buffer, reply);
        buffer.make_room(out)?;
    }
    buffer.flush(out)
}

/// Adds the line of a reply that differs: at most `LINE` bytes.
fn push_differing(buffer: &mut Buffer, reply: &DifferingReply)
    requires { length buffer.old + LINE ≤ SIZE }
    ensures text { buffer.new ≡ buffer.old ++ differing_line reply.now }
    ensures room { length buffer.new ≤ length buffer.old + LINE }
{
    push_ended(buffer, &reply.entry, b" recorded ");
    push_recorded(buffer, reply.recorded);
    buffer.push(b"\n");
}

/// Adds what was recorded: at most 18 bytes.
fn push_recorded(buffer: &mut Buffer, recorded: Recorded)
    requires { length buffer.old + 18 ≤ SIZE }
    ensures text { buffer.new ≡ buffer.old ++ recorded_text recorded }
    ensures room { length buffer.new ≤ length buffer.old + 18 }
{
    match recorded {
        Recorded::Value(0) => buffer.push(b"0"),
        Recorded::Value(value) => push_prefixed_hex(buffer, value),
        Recorded::Failed(name) => buffer.push(errno_text(name).as_bytes()),
    }
}

/// The text of a recorded error: at most 14 bytes.
fn errno_text(name: Errno) -> &'static str
    ensures text { result.now ≡ errno_text name }
    ensures short { length result.now ≤ 14 }
{
    match name {
        Errno::Einval => "-1 EINVAL",
        Errno::Enomem => "-1 ENOMEM",
        Errno::Eexist => "-1 EEXIST",
        Errno::Eperm => "-1 EPERM",
        Errno::Efault => "-1 EFAULT",
        Errno::MapErr => "-1 SEGV_MAPERR",
        Errno::AccErr => "-1 SEGV_ACCERR",
        Errno::Other => "-1 other",
    }
}
