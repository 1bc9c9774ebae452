//! The calls of a round, drawn at random on 64 pages that all callers share. Most are calls that the address space
//! decides; a few have an address or a length that is refused as it stands.
ghost use Rattle.std.specs.Prelude.{◌<◌, ◌^◌};
ghost use Rattle.page_types.specs.Named.{IsNamedCall};
ghost use Rattle.page_types.specs.Sets.{IsNamedFlags, IsNamedProt};

use crate::draws::below;
use bitflags::Flags;
use page_types::{Access, Call, MapFlags, PAGE, Prot};
use rand_pcg::Pcg32;

/// The first page.
const FIRST: u64 = 16;

/// At how many pages a call may begin; it takes up to three pages more.
const STARTS: u32 = 61;

/// A set of protections.
fn draw_prot(draws: &mut Pcg32) -> Prot
    ensures { IsNamedProt result }
{
    Prot::from_bits_retain(below(draws, 8) as u8)
}

/// Flags of a map: at the address or with the address as a hint, that replaces or that doesn't, private or shared.
fn draw_flags(draws: &mut Pcg32) -> MapFlags
    ensures { IsNamedFlags result }
{
    match below(draws, 6) {
        0 => MapFlags::PRIVATE,
        1 => MapFlags::PRIVATE.union(MapFlags::FIXED_NOREPLACE),
        2 => MapFlags::SHARED.union(MapFlags::FIXED),
        _ => MapFlags::PRIVATE.union(MapFlags::FIXED),
    }
}

/// What a fault does.
fn draw_access(draws: &mut Pcg32) -> Access {
    match below(draws, 3) {
        0 => Access::Read,
        1 => Access::Write,
        _ => Access::Exec,
    }
}

/// An address on a shared page: of a hundred one that isn't the first of its page.
fn draw_addr(draws: &mut Pcg32) -> u64
    ensures { result < 2 ^ 20 }
{
    let page = FIRST + u64::from(below(draws, STARTS));
    let off = if below(draws, 100) == 0 { 1 } else { 0 };
    page * PAGE + off
}

/// A length of up to four pages: of a hundred one of no bytes.
fn draw_len(draws: &mut Pcg32) -> u64 {
    if below(draws, 100) == 0 {
        return 0;
    }
    (1 + u64::from(below(draws, 4))) * PAGE
}

/// A call.
pub fn draw_call(draws: &mut Pcg32) -> Call
    ensures { IsNamedCall result }
{
    let addr = draw_addr(draws);
    match below(draws, 8) {
        0 | 1 => Call::Map {
            addr,
            len: draw_len(draws),
            prot: draw_prot(draws),
            flags: draw_flags(draws),
        },
        2 => Call::Unmap {
            addr,
            len: draw_len(draws),
        },
        3 | 4 => Call::Protect {
            addr,
            len: draw_len(draws),
            prot: draw_prot(draws),
        },
        _ => Call::Fault {
            addr,
            access: draw_access(draws),
        },
    }
}
