//! What C is shown of a reply, and of what a handle holds: records of numbers without gaps. A reader may rely on them
//! being functions of the reply and of the held range (`specs/Shown.antt`). Numbers of errors are those of errno(3).
ghost use Rattle.std.specs.Prelude.{◌≡◌};
ghost use Rattle.space_c.specs.Shown.{bit_of, field_cause, kind_shown, mode_bit, refusal_shown, reply_shown, short_shown, why_shown};

use bitflags::Flags;
use lock_core::Mode;
use page_types::{Field, Kind, Reply, Short, Why};

/// A reply as C reads it, all 0 where there is none.
#[repr(C)]
#[derive(Clone, Copy, Drop)]
pub struct GzReply {
    /// 1 is an address, 2 done, 3 granted, 4 refused, 5 SEGV_MAPERR, 6 SEGV_ACCERR.
    pub kind: u32,
    /// Of a refusal: EPERM 1, ENOMEM 12, EFAULT 14, EEXIST 17, EINVAL 22.
    pub error: u32,
    /// Of a refusal: what it is about, from 1 to 11.
    pub cause: u32,
    /// Of granted and SEGV_ACCERR: the page's protection.
    pub prot: u32,
    /// 1 where the page was mapped with SHARED.
    pub shared: u32,
    /// 1 where it is sealed.
    pub sealed: u32,
    /// The address in bytes, or the page or number that a refusal names.
    pub at: u64,
}

/// What a handle holds, as C reads it.
#[repr(C)]
#[derive(Clone, Copy, Drop)]
pub struct GzHeld {
    /// The lowest page.
    pub lo: u64,
    /// The page behind the last one.
    pub hi: u64,
    /// The number of the handle's caller, counted from 0.
    pub caller: u32,
    /// 1 where the pages are held as a writer.
    pub writer: u32,
}

/// What C is shown where there is no reply.
pub(crate) const NOTHING: GzReply = GzReply {
    kind: 0,
    error: 0,
    cause: 0,
    prot: 0,
    shared: 0,
    sealed: 0,
    at: 0,
};

pub(crate) fn bit_for(flag: bool) -> u32
    ensures { result ≡ bit_of flag }
{
    if flag { 1 } else { 0 }
}

/// The number of a mode.
pub(crate) fn bit_of_mode(mode: Mode) -> u32
    ensures { result ≡ mode_bit mode }
{
    match mode {
        Mode::Reader => 0,
        Mode::Writer => 1,
    }
}

fn show_kind(reply: u32, kind: Kind, page: u64) -> GzReply
    ensures { result ≡ kind_shown reply kind page }
{
    GzReply {
        kind: reply,
        error: 0,
        cause: 0,
        prot: u32::from(kind.prot.bits()),
        shared: bit_for(kind.shared),
        sealed: bit_for(kind.sealed),
        at: page,
    }
}

fn show_refusal(error: u32, cause: u32, at: u64) -> GzReply
    ensures { result ≡ refusal_shown error cause at }
{
    GzReply {
        kind: 4,
        error,
        cause,
        prot: 0,
        shared: 0,
        sealed: 0,
        at,
    }
}

fn cause_of(field: Field) -> u32
    ensures { result ≡ field_cause field }
{
    match field {
        Field::Addr => 1,
        Field::Len => 2,
        Field::Flags => 3,
        Field::End => 4,
    }
}

fn show_short(short: Short) -> GzReply
    ensures { result ≡ short_shown short }
{
    match short {
        Short::Missing(page) => show_refusal(12, 5, page),
        Short::PastEnd(page) => show_refusal(12, 6, page),
        Short::NoGap(pages) => show_refusal(12, 7, pages),
        Short::Rows(rows) => show_refusal(12, 8, u64::from(rows)),
    }
}

fn show_why(why: Why) -> GzReply
    ensures { result ≡ why_shown why }
{
    match why {
        Why::Einval(field) => show_refusal(22, cause_of(field), 0),
        Why::Enomem(short) => show_short(short),
        Why::Eexist(page) => show_refusal(17, 9, page),
        Why::Eperm(page) => show_refusal(1, 10, page),
        Why::Efault(page) => show_refusal(14, 11, page),
        Why::MapErr(page) => GzReply {
            kind: 5,
            at: page,
            ..NOTHING
        },
        Why::AccErr(page, kind) => show_kind(6, kind, page),
    }
}

/// What C is shown of a reply.
pub(crate) fn show_reply(reply: Reply) -> GzReply
    ensures { result ≡ reply_shown reply }
{
    match reply {
        Reply::At(addr) => GzReply {
            kind: 1,
            at: addr,
            ..NOTHING
        },
        Reply::Zero => GzReply { kind: 2, ..NOTHING },
        Reply::Granted(kind) => show_kind(3, kind, 0),
        Reply::Refused(why) => show_why(why),
    }
}
