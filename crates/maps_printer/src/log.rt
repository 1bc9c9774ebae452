//! The log of a history as text, a line for each entry: its number, the worker and the line of the input, the call as
//! strace(1) prints it, the reply, and which range was held. The form of a line, and what follows an error's name in a
//! reply, are this project's own profile.
ghost use Rattle.std.specs.Prelude.{◌≡◌, ◌+◌, ◌≤◌, ◌++◌, ◌∷◌, [], length, codes, OnOk, OnErr};
ghost use Rattle.std.specs.Bool.{Decides};
ghost use Rattle.std.specs.Io.KnownBytes.{Appends};
ghost use Rattle.byte_ports.specs.Bytes.{AppendsPrefix};
ghost use Rattle.byte_ports.specs.Counts.{Rose};
ghost use Rattle.maps_printer.specs.Calls.{field_text, reply_text, short_text, why_text};
ghost use Rattle.maps_printer.specs.Lines.{entry_ended, entry_line, log_text, span_text, under_text};
ghost use Rattle.maps_printer.specs.Numbers.{prefixed_hex};

use crate::buffer::{Buffer, LINE, SIZE};
use crate::calls::push_call;
use crate::numbers::{push_decimal, push_prefixed_hex};
use crate::words::push_log_kind;
use byte_ports::{Failed, Sink};
use page_types::{Field, Reply, Short, Span, Why};
use space_model::{Entry, Under};

/// Writes the log: a line for each entry, in the list's order. It takes no memory.
///
/// `Failed`: the sink failed in this call; some first part of the text was appended.
pub fn write_log<K: Sink>(out: &mut K, entries: &[Entry]) -> Result<(), Failed>
    ensures text { OnOk result (Appends (K.contents out.old) (K.contents out.new) (log_text entries.now)) }
    ensures failed_prefix { OnErr result
        (AppendsPrefix (K.contents out.old) (K.contents out.new) (log_text entries.now)) }
    ensures failed_rose { OnErr result (Rose (K.fault_count out.old) (K.fault_count out.new)) }
    ensures never_falls { K.fault_count out.old ≤ K.fault_count out.new }
{
    let mut buffer = Buffer::new();
    for entry in entries {
        push_entry(&mut buffer, entry);
        buffer.make_room(out)?;
    }
    buffer.flush(out)
}

/// Whether the text is the line of this entry, without its newline. It takes no memory.
pub fn is_line_of(text: &[u8], entry: &Entry) -> bool
    ensures { Decides result (text.now ++ 10 ∷ [] ≡ entry_line entry.now) }
{
    let mut buffer = Buffer::new();
    push_entry(&mut buffer, entry);
    buffer.is_line(text)
}

/// Adds the line of an entry: at most `LINE` bytes.
fn push_entry(buffer: &mut Buffer, entry: &Entry)
    requires { length buffer.old + LINE ≤ SIZE }
    ensures text { buffer.new ≡ buffer.old ++ entry_line entry.now }
    ensures room { length buffer.new ≤ length buffer.old + LINE }
{
    push_ended(buffer, entry, b"\n");
}

/// Adds the line of an entry up to what was held, and an ending: at most 321 bytes.
pub(crate) fn push_ended(buffer: &mut Buffer, entry: &Entry, ending: &[u8])
    requires short { length ending.now ≤ 10 }
    requires room { length buffer.old + 321 ≤ SIZE }
    ensures text { buffer.new ≡ buffer.old ++ entry_ended entry.now ending.now }
    ensures room { length buffer.new ≤ length buffer.old + 321 }
{
    push_decimal(buffer, entry.number);
    buffer.push(b" ");
    push_decimal(buffer, u64::from(entry.worker));
    buffer.push(b" ");
    push_decimal(buffer, u64::from(entry.line));
    buffer.push(b" ");
    push_call(buffer, entry.call);
    buffer.push(b" = ");
    push_reply(buffer, entry.reply);
    buffer.push(b" under ");
    push_under(buffer, entry.under);
    buffer.push(ending);
}

/// Adds a reply: at most 51 bytes.
fn push_reply(buffer: &mut Buffer, reply: Reply)
    requires { length buffer.old + 51 ≤ SIZE }
    ensures text { buffer.new ≡ buffer.old ++ reply_text reply }
    ensures room { length buffer.new ≤ length buffer.old + 51 }
{
    match reply {
        Reply::At(addr) => push_prefixed_hex(buffer, addr),
        Reply::Zero => buffer.push(b"0"),
        Reply::Granted(kind) => {
            buffer.push(b"granted ");
            push_log_kind(buffer, kind);
        }
        Reply::Refused(why) => push_why(buffer, why),
    }
}

/// Adds a refusal: at most 51 bytes.
fn push_why(buffer: &mut Buffer, why: Why)
    requires { length buffer.old + 51 ≤ SIZE }
    ensures text { buffer.new ≡ buffer.old ++ why_text why }
    ensures room { length buffer.new ≤ length buffer.old + 51 }
{
    match why {
        Why::Einval(field) => {
            buffer.push(b"-1 EINVAL ");
            buffer.push(field_text(field).as_bytes());
        }
        Why::Enomem(short) => {
            buffer.push(b"-1 ENOMEM ");
            push_short(buffer, short);
        }
        Why::Eexist(page) => push_page(buffer, b"-1 EEXIST page ", page),
        Why::Eperm(page) => push_page(buffer, b"-1 EPERM page ", page),
        Why::Efault(page) => push_page(buffer, b"-1 EFAULT page ", page),
        Why::MapErr(page) => push_page(buffer, b"-1 SEGV_MAPERR page ", page),
        Why::AccErr(page, kind) => {
            push_page(buffer, b"-1 SEGV_ACCERR page ", page);
            buffer.push(b" ");
            push_log_kind(buffer, kind);
        }
    }
}

/// The name of an argument: at most 5 bytes.
fn field_text(field: Field) -> &'static str
    ensures text { result.now ≡ field_text field }
    ensures short { length result.now ≤ 5 }
{
    match field {
        Field::Addr => "addr",
        Field::Len => "len",
        Field::Flags => "flags",
        Field::End => "end",
    }
}

/// Adds what an ENOMEM is short of: at most 38 bytes.
fn push_short(buffer: &mut Buffer, short: Short)
    requires { length buffer.old + 38 ≤ SIZE }
    ensures text { buffer.new ≡ buffer.old ++ short_text short }
    ensures room { length buffer.new ≤ length buffer.old + 38 }
{
    match short {
        Short::Missing(page) => push_page(buffer, b"missing page ", page),
        Short::PastEnd(page) => push_page(buffer, b"end page ", page),
        Short::NoGap(pages) => {
            buffer.push(b"no gap of ");
            push_decimal(buffer, pages);
            buffer.push(b" pages");
        }
        Short::Rows(rows) => {
            buffer.push(b"rows ");
            push_decimal(buffer, u64::from(rows));
        }
    }
}

/// Adds a text and a page number: at most 18 bytes more than the text has.
fn push_page(buffer: &mut Buffer, text: &[u8], page: u64)
    requires { length buffer.old + (length text.now + 18) ≤ SIZE }
    ensures text { buffer.new ≡ buffer.old ++ (text.now ++ prefixed_hex page) }
    ensures room { length buffer.new ≤ length buffer.old + (length text.now + 18) }
{
    buffer.push(text);
    push_prefixed_hex(buffer, page);
}

/// Adds what was held: at most 44 bytes.
fn push_under(buffer: &mut Buffer, under: Under)
    requires { length buffer.old + 44 ≤ SIZE }
    ensures text { buffer.new ≡ buffer.old ++ under_text under }
    ensures room { length buffer.new ≤ length buffer.old + 44 }
{
    match under {
        Under::Nothing => buffer.push(b"none"),
        Under::Reader(span) => {
            buffer.push(b"reader ");
            push_span(buffer, span);
        }
        Under::Area(span) => {
            buffer.push(b"area ");
            push_span(buffer, span);
        }
        Under::Whole => buffer.push(b"whole"),
    }
}

/// Adds a span: at most 37 bytes.
fn push_span(buffer: &mut Buffer, span: Span)
    requires { length buffer.old + 37 ≤ SIZE }
    ensures text { buffer.new ≡ buffer.old ++ span_text span }
    ensures room { length buffer.new ≤ length buffer.old + 37 }
{
    push_prefixed_hex(buffer, span.lo);
    buffer.push(b"-");
    push_prefixed_hex(buffer, span.hi);
}
