//! The line on standard error that says why a run did not write its whole report. It takes no memory, so that it can
//! say that there is none. The texts are this project's own profile; a reader may rely on one line for each status but
//! Done, which has none.
ghost use Rattle.std.specs.Prelude.{◌≡◌, OnOk, OnErr};
ghost use Rattle.std.specs.Io.KnownBytes.{Appends};
ghost use Rattle.byte_ports.specs.Bytes.{AppendsPrefix};
ghost use Rattle.byte_ports.specs.Counts.{Rose};
ghost use Rattle.trace_driver.specs.Run.{IsDone};
ghost use Rattle.trace_driver.specs.ErrorLine.{error_line, what_text, which_text, bad_line_text};

use crate::status::{Status, Which};
use byte_ports::{Failed, Sink, write_all, write_numbered};
use strace_reader::What;

/// The line for wrong words, with its newline.
const USAGE: &[u8] =
    b"usage: play [--threads N] [--opening] [--log] [--touched] [--changes] [--differ] or load --seed N --threads N --calls N or check [--opening]\n";

/// Writes the line for a status. For `Done` it makes no call of the sink.
///
/// `Failed`: the sink failed in this call; some first part of the line was appended.
#[tactic(auto, unfolding(crate::specs::ErrorLine::error_line))]
pub fn write_error<K: Sink>(err: &mut K, status: &Status) -> Result<(), Failed>
    ensures all { OnOk result
        (Appends (K.contents err.old) (K.contents err.new) (error_line status.now)) }
    ensures failed_prefix { OnErr result
        (AppendsPrefix (K.contents err.old) (K.contents err.new) (error_line status.now)) }
    ensures failed_rose { OnErr result (Rose (K.fault_count err.old) (K.fault_count err.new)) }
    ensures silent { IsDone status.now → err.new ≡ err.old }
{
    match status {
        Status::Done(_) => Ok(()),
        Status::Usage => write_all(err, USAGE),
        Status::BadLine { line, column, what } => write_bad_line(err, *line, *column, *what),
        Status::ReadFault => write_all(err, b"read fault\n"),
        Status::WriteFault(_) => write_all(err, b"write fault\n"),
        Status::Memory => write_all(err, b"out of memory\n"),
        Status::Limit { which, value } => write_numbered(err, limit(*which), *value, b"\n"),
        Status::Wrong { .. } => write_all(err, b"wrong log\n"),
    }
}

/// Writes the line for a refused line.
fn write_bad_line<K: Sink>(err: &mut K, line: u32, column: u32, what: What) -> Result<(), Failed>
    ensures all { OnOk result
        (Appends (K.contents err.old) (K.contents err.new) (bad_line_text line column what)) }
    ensures failed_prefix { OnErr result
        (AppendsPrefix (K.contents err.old) (K.contents err.new) (bad_line_text line column what)) }
    ensures failed_rose { OnErr result (Rose (K.fault_count err.old) (K.fault_count err.new)) }
{
    write_numbered(err, b"line ", line as u64, b" column ")?;
    write_numbered(err, b"", column as u64, due(what))
}

/// How the line says what was due, with the colon before it and the newline.
fn due(what: What) -> &'static [u8]
    ensures { result.now ≡ what_text what }
{
    match what {
        What::Number => b": number expected\n",
        What::Wide => b": number too wide\n",
        What::Word => b": word expected\n",
        What::Comma => b": comma expected\n",
        What::Close => b": closing parenthesis expected\n",
        What::Result => b": result expected\n",
        What::Form => b": no maps line\n",
        What::Order => b": maps out of order\n",
    }
}

/// How the line names a limit.
fn limit(which: Which) -> &'static [u8]
    ensures { result.now ≡ which_text which }
{
    match which {
        Which::Input => b"limit input: ",
        Which::Line => b"limit line: ",
        Which::Lines => b"limit lines: ",
        Which::Rows => b"limit rows: ",
    }
}
