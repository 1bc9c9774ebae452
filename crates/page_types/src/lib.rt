//! The words of an address space: pages and spans of pages, protections, and the seven calls `mmap`, `munmap`,
//! `mprotect`, `mseal`, `brk`, `mremap` and a page's fault, with their replies. The calls follow mmap(2), munmap(2),
//! mprotect(2), mseal(2), brk(2) and mremap(2) for x86-64 with 5-level paging. A reader may rely on `plain`, the check
//! of a call's arguments: it gives the reply of exactly those calls for which no address space is needed.
#![tactic(auto)]

mod calls;
mod pages;
mod sets;

pub use calls::{Call, Kind, Reply, Short, Why, plain};
pub use pages::{Field, Span, end_page, page_count};
pub use sets::{Access, MapFlags, Prot};

/// The number of pages that user addresses have: pages are numbered from 0 to `LIMIT - 1`, and the first
/// address past them is 0xfffffffffff000. It is 2^44 - 1, as on x86-64 with 5-level paging.
pub const LIMIT: u64 = 17_592_186_044_415;

/// Where the window of a Map ends whose hint's page is below this one: pages at or above it are chosen only for a hint
/// that is there itself. A Remap without a hint puts its pages below it too. It is 2^35 - 1, where user addresses end
/// on x86-64 with 4-level paging, at 0x7ffffffff000.
pub const LOW: u64 = 34_359_738_367;

/// The lowest page at which a Map puts its pages where no fixed flag binds its address, and a Remap those that it
/// moves: page 16, which is address 0x10000.
pub const LOWEST: u64 = 16;

/// The most rows, areas and gaps counted together, that an address space may have after a change.
/// Lists of 65,530 areas, which is as many as Linux lets a process have by default, have at most so many.
pub const ROWS: usize = 131_061;

/// How many rows more than there were a change may make: two at each stretch of pages that changes, and a Remap that
/// moves its pages changes two.
pub const SPARE: usize = 4;

/// How many halvings find one row among `ROWS`, which is at most 2 to this power.
pub const SEARCH: u32 = 17;

/// The number of bytes of a page.
pub const PAGE: u64 = 4096;
