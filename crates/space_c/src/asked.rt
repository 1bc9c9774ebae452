//! A call as C says it, and the call of `page_types` that it means. A reader may rely on a kind without a name, or a
//! bit without one, meaning no call. The numbers of kinds are this project's own, and those of protections are of
//! mmap(2).
ghost use Rattle.std.specs.Prelude.{◌≡◌, IfSome};
ghost use Rattle.page_types.specs.Classes.{IsFault};
ghost use Rattle.page_types.specs.Named.{IsNamedCall};
ghost use Rattle.space_c.specs.Shown.{access_from, call_from, map_from, protect_from, remap_from};

use bitflags::Flags;
use page_types::{Access, Call, MapFlags, Prot};

/// A call as C says it. Addresses and lengths are in bytes. What a call doesn't name isn't looked at.
#[repr(C)]
#[derive(Clone, Copy, Drop)]
pub struct GzCall {
    /// 0 is a Map, 1 an Unmap, 2 a Protect, 3 a Remap, 4 a Seal, 5 a Brk.
    pub kind: u32,
    /// Of a Map and a Protect: reading is 1, writing 2, running 4.
    pub prot: u32,
    /// Of a Map: SHARED is 1, PRIVATE 2, FIXED 4, FIXED_NOREPLACE 8. Of a Remap: MAYMOVE is 1. Of a Seal: 0.
    pub flags: u32,
    /// Not looked at.
    pub zero: u32,
    /// The first byte, or for a Brk the byte behind the heap's last one.
    pub addr: u64,
    /// How many bytes; for a Remap, how many there are.
    pub len: u64,
    /// Of a Remap: how many bytes there are to be.
    pub new_len: u64,
    /// Of a Remap: where the pages are put before any other place is tried, or 0. Of a Brk: the heap's first byte.
    pub place: u64,
}

fn map_of(asked: &GzCall) -> Option<Call>
    ensures call { result ≡ map_from asked.now }
    ensures proper { IfSome result (λ call. (¬ IsFault call) × IsNamedCall call) }
{
    if asked.prot < 8 && asked.flags < 16 {
        Some(Call::Map {
            addr: asked.addr,
            len: asked.len,
            prot: Prot::from_bits_retain(asked.prot as u8),
            flags: MapFlags::from_bits_retain(asked.flags as u8),
        })
    } else {
        None
    }
}

fn protect_of(asked: &GzCall) -> Option<Call>
    ensures call { result ≡ protect_from asked.now }
    ensures proper { IfSome result (λ call. (¬ IsFault call) × IsNamedCall call) }
{
    if asked.prot < 8 {
        Some(Call::Protect {
            addr: asked.addr,
            len: asked.len,
            prot: Prot::from_bits_retain(asked.prot as u8),
        })
    } else {
        None
    }
}

fn remap_of(asked: &GzCall) -> Option<Call>
    ensures call { result ≡ remap_from asked.now }
    ensures proper { IfSome result (λ call. (¬ IsFault call) × IsNamedCall call) }
{
    if asked.flags < 2 {
        Some(Call::Remap {
            addr: asked.addr,
            old_len: asked.len,
            new_len: asked.new_len,
            may_move: asked.flags == 1,
            hint: asked.place,
        })
    } else {
        None
    }
}

/// The call that C means, if there is such a call.
pub(crate) fn call_of(asked: &GzCall) -> Option<Call>
    ensures call { result ≡ call_from asked.now }
    ensures proper { IfSome result (λ call. (¬ IsFault call) × IsNamedCall call) }
{
    if asked.kind == 0 {
        map_of(asked)
    } else if asked.kind == 1 {
        Some(Call::Unmap {
            addr: asked.addr,
            len: asked.len,
        })
    } else if asked.kind == 2 {
        protect_of(asked)
    } else if asked.kind == 3 {
        remap_of(asked)
    } else if asked.kind == 4 {
        Some(Call::Seal {
            addr: asked.addr,
            len: asked.len,
            flags: u64::from(asked.flags),
        })
    } else if asked.kind == 5 {
        Some(Call::Brk {
            base: asked.place,
            addr: asked.addr,
        })
    } else {
        None
    }
}

/// The access that C means, if it is one.
pub(crate) fn access_of(access: u32) -> Option<Access>
    ensures { result ≡ access_from access }
{
    if access == 1 {
        Some(Access::Read)
    } else if access == 2 {
        Some(Access::Write)
    } else if access == 4 {
        Some(Access::Exec)
    } else {
        None
    }
}
