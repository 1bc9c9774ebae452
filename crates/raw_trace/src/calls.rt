//! The call that a line is read as, and which pages it frees and takes. `freed_by` and `taken_by` in `specs/Order.antt`
//! say it; pages are counted from 0.

ghost use Rattle.std.specs.Prelude.{◌≡◌, ◌≤◌, length};
ghost use Rattle.raw_trace.specs.Order.{no_pages, pages_at, pages_between, freed_by, taken_by, freed, taken, meet};
ghost use Rattle.strace_reader.specs.declared.item.Recorded.TheVariants.{Value};
ghost use Rattle.raw_trace.specs.Places.{IsReadAs};

use bitflags::Flags;
use page_types::{Call, MapFlags, PAGE, end_page};
use strace_reader::{Item, Recorded, read_line};

/// A call as a reader of lines has it.
#[derive(Clone, Copy, PartialEq, Eq, Debug)]
pub struct ReadCall {
    /// The process that made the call; 0 where the line names none.
    pub pid: u32,
    /// The call.
    pub call: Call,
    /// What was recorded of it.
    pub recorded: Option<Recorded>,
}

/// Pages from one up to another, without that.
#[derive(Clone, Copy, PartialEq, Eq, Debug)]
pub struct Pages {
    /// The first.
    pub from: u64,
    /// The page behind the last one.
    pub to: u64,
}

/// No pages.
pub(crate) const NONE: Pages = Pages { from: 0, to: 0 };

/// The call that a line is read as.
pub(crate) fn call_of(line: &[u8]) -> Option<ReadCall>
    requires { length line.now ≤ 65535 }
    ensures { IsReadAs line.now result }
{
    match read_line(line) {
        Ok(
            Item::Played {
                pid,
                call,
                recorded,
            },
        ) => Some(ReadCall {
            pid,
            call,
            recorded,
        }),
        _ => None,
    }
}

/// So many bytes from an address on, in whole pages.
pub(crate) fn pages_at(addr: u64, len: u64) -> Pages
    ensures { result ≡ pages_at addr len }
{
    Pages {
        from: addr / PAGE,
        to: end_page(addr, len),
    }
}

/// The pages between the ends of two lengths from one address.
fn pages_between(addr: u64, len: u64, longer: u64) -> Pages
    ensures { result ≡ pages_between addr len longer }
{
    Pages {
        from: end_page(addr, len),
        to: end_page(addr, longer),
    }
}

/// The pages that a call frees which gave this number.
pub(crate) fn freed_by(call: Call, value: u64) -> Pages
    ensures { result ≡ freed_by call (Value value) }
{
    match call {
        Call::Unmap { addr, len } => pages_at(addr, len),
        Call::Remap {
            addr,
            old_len,
            new_len,
            ..
        } => {
            if value == addr {
                pages_between(addr, new_len, old_len)
            } else {
                pages_at(addr, old_len)
            }
        }
        _ => NONE,
    }
}

/// The pages that a call takes which gave this number.
fn taken_by(call: Call, value: u64) -> Pages
    ensures { result ≡ taken_by call (Value value) }
{
    match call {
        Call::Map { len, flags, .. } => {
            if flags.contains(MapFlags::FIXED) {
                NONE
            } else {
                pages_at(value, len)
            }
        }
        Call::Remap {
            addr,
            old_len,
            new_len,
            ..
        } => {
            if value == addr {
                pages_between(addr, old_len, new_len)
            } else {
                pages_at(value, new_len)
            }
        }
        _ => NONE,
    }
}

/// The pages that a line frees.
pub(crate) fn freed(call: Option<ReadCall>) -> Pages
    ensures { result ≡ freed call }
{
    let Some(read) = call else {
        return NONE;
    };
    match read.recorded {
        Some(Recorded::Value(value)) => freed_by(read.call, value),
        _ => NONE,
    }
}

/// The pages that a line takes.
pub(crate) fn taken(call: Option<ReadCall>) -> Pages
    ensures { result ≡ taken call }
{
    let Some(read) = call else {
        return NONE;
    };
    match read.recorded {
        Some(Recorded::Value(value)) => taken_by(read.call, value),
        _ => NONE,
    }
}

/// Whether some page is one of both.
pub(crate) fn meet(a: Pages, b: Pages) -> bool
    ensures { result ≡ meet a b }
{
    a.from.max(b.from) < a.to.min(b.to)
}
