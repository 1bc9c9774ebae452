//! The law that the text of a log tells its entries. A reader may rely on it for entries whose sets have named bits
//! alone, as those of every history have: what a program logs shows its history whole. The law is the contract of a
//! function, so that code above has it by a call.
ghost use Rattle.std.specs.Prelude.{◌≡◌, ◌<◌, ◌^◌, All};
ghost use Rattle.page_types.specs.Named.{IsNamedCall, IsNamedReply};
ghost use Rattle.maps_printer.specs.Lines.{log_text};
ghost use Rattle.round_trip.specs.Logs.{HasWordNumbers, FitsCall, FitsReply, FitsHeld, IsNamedEntry};

use page_types::{Call, Reply, Short, Why};
use space_model::{Entry, Under};

/// Two lists of entries with one log text are equal. It only looks at the entries: its contract is the law.
pub fn logs_tell_entries(entries: &[Entry], others: &[Entry])
    requires entries { All IsNamedEntry entries.now }
    requires others { All IsNamedEntry others.now }
    requires text { log_text entries.now ≡ log_text others.now }
    ensures { entries.now ≡ others.now }
{
    words_fit(entries);
    words_fit(others);
}

/// The numbers of entries fit in 64 bits. It only looks at the entries: what the types of their numbers say is its
/// contract, for laws on lists of entries.
pub fn words_fit(entries: &[Entry])
    ensures { All HasWordNumbers entries.now }
{
    'entries: for entry in entries {
        has_word_numbers(*entry);
    }
}

/// That the numbers of an entry fit in 64 bits, as its types say. It only looks at the entry: its contract is the law.
pub fn has_word_numbers(entry: Entry)
    ensures { HasWordNumbers entry }
{
    fits_call(entry.call);
    fits_reply(entry.reply);
    fits_under(entry.under);
}

fn fits_call(call: Call)
    ensures { FitsCall call }
{
    match call {
        Call::Map { addr, len, .. } => in_range(addr, len),
        Call::Unmap { addr, len } => in_range(addr, len),
        Call::Protect { addr, len, .. } => in_range(addr, len),
        Call::Fault { addr, .. } => in_range(addr, addr),
        Call::Seal { addr, len, flags } => {
            in_range(addr, len);
            in_range(flags, flags);
        }
        Call::Brk { base, addr } => in_range(base, addr),
        Call::Remap {
            addr,
            old_len,
            new_len,
            hint,
            ..
        } => {
            in_range(addr, old_len);
            in_range(new_len, hint);
        }
    }
}

fn fits_reply(reply: Reply)
    ensures { FitsReply reply }
{
    match reply {
        Reply::At(addr) => in_range(addr, addr),
        Reply::Zero | Reply::Granted(_) => {}
        Reply::Refused(why) => match why {
            Why::Einval(_) => {}
            Why::Enomem(short) => match short {
                Short::Missing(number) | Short::PastEnd(number) | Short::NoGap(number) => {
                    in_range(number, number)
                }
                Short::Rows(rows) => in_range(rows as u64, rows as u64),
            },
            Why::Eexist(page)
            | Why::Eperm(page)
            | Why::Efault(page)
            | Why::MapErr(page)
            | Why::AccErr(page, _) => in_range(page, page),
        },
    }
}

fn fits_under(under: Under)
    ensures { FitsHeld under }
{
    match under {
        Under::Nothing | Under::Whole => {}
        Under::Reader(span) | Under::Area(span) => in_range(span.lo, span.hi),
    }
}

/// Two numbers of 64 bits are below 2^64. It does nothing.
fn in_range(one: u64, other: u64)
    ensures one { one < 2 ^ 64 }
    ensures other { other < 2 ^ 64 }
{}
