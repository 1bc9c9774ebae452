//! Maps, unmaps and seals on a running address space, after mmap(2), munmap(2) and mseal(2): a caller holds all pages
//! as a writer, plans the rows that its call leaves, draws its number, writes the rows that differ, and gives the pages
//! back. A call that its arguments decide holds nothing. A reader may rely on each entry being right at its place in
//! the one history, beside the faults of other callers too.
#![tactic(auto)]

mod maps;

pub use maps::{map, seal, unmap};
