//! The seven calls on an address space, their replies, and the check of a call's arguments, which comes before any look
//! at the space. The calls and the errors follow mmap(2), munmap(2), mprotect(2), mseal(2), brk(2) and mremap(2); a
//! fault's two errors are the SIGSEGV codes SEGV_MAPERR and SEGV_ACCERR of sigaction(2). `plain_reply` in `specs/`
//! lists the checks in their order, and `plain` is exactly that list.

ghost use Rattle.std.specs.Prelude.{◌≡◌, ◌↔◌, IsTrue};
ghost use Rattle.page_types.specs.Sets.{is_fixed, has_one_sharing};
ghost use Rattle.page_types.specs.PlainReply.{plain_reply, map_reply, unmap_reply, protect_reply, fault_reply, seal_reply, brk_reply, remap_reply};
ghost use Rattle.page_types.specs.Named.{IsNamedCall, IsNamedKind};

use crate::pages::{Field, end_page};
use crate::sets::{Access, MapFlags, Prot};
use crate::{LIMIT, PAGE};
use bitflags::Flags;

/// How a page is mapped: what may be done with it, whether its writes are shared, and whether it is sealed.
#[derive(Clone, Copy, PartialEq, Eq, Hash, Debug)]
pub struct Kind {
    /// What may be done with the page.
    pub prot: Prot,
    /// Whether the page was mapped with SHARED.
    pub shared: bool,
    /// Whether the page is sealed, in the manner of mseal(2): it refuses to be unmapped, replaced or protected.
    pub sealed: bool,
}

/// A call on an address space. Addresses and lengths are in bytes.
#[derive(Clone, Copy, PartialEq, Eq, Hash, Debug)]
pub enum Call {
    /// Maps pages, as mmap(2) does.
    Map {
        /// Where: a hint, unless a fixed flag makes it bind.
        addr: u64,
        /// How many bytes, rounded up to whole pages.
        len: u64,
        /// What may be done with the pages.
        prot: Prot,
        /// How the pages are mapped.
        flags: MapFlags,
    },
    /// Takes pages away, as munmap(2) does.
    Unmap {
        /// The first byte.
        addr: u64,
        /// How many bytes, rounded up to whole pages.
        len: u64,
    },
    /// Changes what may be done with pages, as mprotect(2) does.
    Protect {
        /// The first byte.
        addr: u64,
        /// How many bytes, rounded up to whole pages.
        len: u64,
        /// What may be done with the pages from now on.
        prot: Prot,
    },
    /// One access to a byte, as a program's load, store or jump makes it.
    Fault {
        /// The byte.
        addr: u64,
        /// What is done to it.
        access: Access,
    },
    /// Seals pages, in the manner of mseal(2): from then on they refuse to be unmapped, replaced or protected.
    Seal {
        /// The first byte.
        addr: u64,
        /// How many bytes, rounded up to whole pages.
        len: u64,
        /// No flag is known, so only 0 is right.
        flags: u64,
    },
    /// Moves the end of the heap, as brk(2) does. Linux remembers where a program's heap begins; here each call says
    /// it.
    Brk {
        /// The first byte of the heap, which is that of a page.
        base: u64,
        /// The byte behind the heap's last one, rounded up to whole pages.
        addr: u64,
    },
    /// Makes pages of one kind more or fewer, as mremap(2) does.
    Remap {
        /// The first byte.
        addr: u64,
        /// How many bytes there are, rounded up to whole pages.
        old_len: u64,
        /// How many there are to be, rounded up to whole pages.
        new_len: u64,
        /// Whether they may be put elsewhere, as with MREMAP_MAYMOVE.
        may_move: bool,
        /// Where they are put before any other place is tried, or 0 for none. It counts only where they may move.
        hint: u64,
    },
}

impl Kind {
    /// Whether the protection has no bit but READ, WRITE and EXEC.
    pub fn is_named(&self) -> bool
        ensures { IsTrue result ↔ IsNamedKind self.now }
    {
        self.prot.is_named()
    }
}

impl Call {
    /// Whether the sets that the call takes have no bit but the named ones.
    pub fn is_named(&self) -> bool
        ensures { IsTrue result ↔ IsNamedCall self.now }
    {
        match *self {
            Call::Map { prot, flags, .. } => prot.is_named() && flags.is_named(),
            Call::Protect { prot, .. } => prot.is_named(),
            Call::Unmap { .. }
            | Call::Fault { .. }
            | Call::Seal { .. }
            | Call::Brk { .. }
            | Call::Remap { .. } => true,
        }
    }
}

/// The reply to a call.
#[derive(Clone, Copy, PartialEq, Eq, Hash, Debug)]
pub enum Reply {
    /// The address in bytes at which a Map put its pages or a Remap left them, or at which the heap ends after a Brk.
    At(u64),
    /// An Unmap, a Protect or a Seal was done.
    Zero,
    /// A Fault found a page of this kind, which lets the access through.
    Granted(Kind),
    /// The call was refused, and nothing changed.
    Refused(Why),
}

/// Why a call is refused. Pages are page numbers.
#[derive(Clone, Copy, PartialEq, Eq, Hash, Debug)]
pub enum Why {
    /// EINVAL: an argument is wrong.
    Einval(Field),
    /// ENOMEM: pages are missing, or there is no room.
    Enomem(Short),
    /// EEXIST: the lowest page that is mapped already.
    Eexist(u64),
    /// EPERM: the lowest page that is sealed.
    Eperm(u64),
    /// EFAULT: the lowest page that isn't mapped or isn't of the first page's kind.
    Efault(u64),
    /// SEGV_MAPERR: the page isn't mapped.
    MapErr(u64),
    /// SEGV_ACCERR: the page, and its kind, which doesn't let the access through.
    AccErr(u64, Kind),
}

/// What an ENOMEM is short of.
#[derive(Clone, Copy, PartialEq, Eq, Hash, Debug)]
pub enum Short {
    /// The lowest page of the span that isn't mapped.
    Missing(u64),
    /// The page after the span's last one, which is above `LIMIT`.
    PastEnd(u64),
    /// How many pages the call asks for, where no place for so many is free.
    NoGap(u64),
    /// How many rows the result would have, which is more than `ROWS`.
    Rows(u32),
}

/// The reply to a call that its arguments alone decide; None exactly where they don't.
///
/// For each call the checks come in the order alignment, length, flags, end, and the first that fails decides. Only the
/// fixed forms of a Map ask for an aligned address and an end at or below `LIMIT`; a Protect of no bytes is done, and
/// so is a Seal, whatever its flags are; a Fault at or above `LIMIT` finds no page. Of a Brk only the base is asked,
/// and of a Remap the address, both lengths, and the end of the pages that there are.
pub fn plain(call: &Call) -> Option<Reply>
    ensures { result ≡ plain_reply call.now }
{
    match *call {
        Call::Map {
            addr,
            len,
            flags,
            ..
        } => plain_map(addr, len, flags),
        Call::Unmap { addr, len } => plain_unmap(addr, len),
        Call::Protect { addr, len, .. } => plain_protect(addr, len),
        Call::Fault { addr, .. } => plain_fault(addr),
        Call::Seal { addr, len, flags } => plain_seal(addr, len, flags),
        Call::Brk { base, .. } => plain_brk(base),
        Call::Remap {
            addr,
            old_len,
            new_len,
            ..
        } => plain_remap(addr, old_len, new_len),
    }
}

fn plain_map(addr: u64, len: u64, flags: MapFlags) -> Option<Reply>
    ensures { result ≡ map_reply addr len flags }
{
    let fixed = flags.is_fixed();
    if fixed && addr % PAGE != 0 {
        return Some(Reply::Refused(Why::Einval(Field::Addr)));
    }
    if len == 0 {
        return Some(Reply::Refused(Why::Einval(Field::Len)));
    }
    if !flags.has_one_sharing() {
        return Some(Reply::Refused(Why::Einval(Field::Flags)));
    }
    let end = end_page(addr, len);
    if fixed && end > LIMIT {
        return Some(Reply::Refused(Why::Enomem(Short::PastEnd(end))));
    }
    None
}

fn plain_unmap(addr: u64, len: u64) -> Option<Reply>
    ensures { result ≡ unmap_reply addr len }
{
    if addr % PAGE != 0 {
        return Some(Reply::Refused(Why::Einval(Field::Addr)));
    }
    if len == 0 {
        return Some(Reply::Refused(Why::Einval(Field::Len)));
    }
    if end_page(addr, len) > LIMIT {
        return Some(Reply::Refused(Why::Einval(Field::End)));
    }
    None
}

fn plain_protect(addr: u64, len: u64) -> Option<Reply>
    ensures { result ≡ protect_reply addr len }
{
    if addr % PAGE != 0 {
        return Some(Reply::Refused(Why::Einval(Field::Addr)));
    }
    if len == 0 {
        return Some(Reply::Zero);
    }
    let end = end_page(addr, len);
    if end > LIMIT {
        return Some(Reply::Refused(Why::Enomem(Short::PastEnd(end))));
    }
    None
}

fn plain_fault(addr: u64) -> Option<Reply>
    ensures { result ≡ fault_reply addr }
{
    let page = addr / PAGE;
    if page >= LIMIT {
        return Some(Reply::Refused(Why::MapErr(page)));
    }
    None
}

fn plain_seal(addr: u64, len: u64, flags: u64) -> Option<Reply>
    ensures { result ≡ seal_reply addr len flags }
{
    if addr % PAGE != 0 {
        return Some(Reply::Refused(Why::Einval(Field::Addr)));
    }
    if len == 0 {
        return Some(Reply::Zero);
    }
    if flags != 0 {
        return Some(Reply::Refused(Why::Einval(Field::Flags)));
    }
    let end = end_page(addr, len);
    if end > LIMIT {
        return Some(Reply::Refused(Why::Enomem(Short::PastEnd(end))));
    }
    None
}

fn plain_brk(base: u64) -> Option<Reply>
    ensures { result ≡ brk_reply base }
{
    if base == 0 {
        return Some(Reply::Refused(Why::Einval(Field::Addr)));
    }
    if base % PAGE != 0 {
        return Some(Reply::Refused(Why::Einval(Field::Addr)));
    }
    if base / PAGE >= LIMIT {
        return Some(Reply::Refused(Why::Einval(Field::Addr)));
    }
    None
}

fn plain_remap(addr: u64, old_len: u64, new_len: u64) -> Option<Reply>
    ensures { result ≡ remap_reply addr old_len new_len }
{
    if addr % PAGE != 0 {
        return Some(Reply::Refused(Why::Einval(Field::Addr)));
    }
    if old_len == 0 {
        return Some(Reply::Refused(Why::Einval(Field::Len)));
    }
    if new_len == 0 {
        return Some(Reply::Refused(Why::Einval(Field::Len)));
    }
    if end_page(addr, old_len) > LIMIT {
        return Some(Reply::Refused(Why::Einval(Field::End)));
    }
    None
}
