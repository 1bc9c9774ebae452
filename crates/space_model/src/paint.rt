//! What becomes of the kinds of pages: a call that changes an address space paints a stretch of its pages and leaves
//! every other page as it is. `painted` and `with_patch` in `specs/` say what that makes of the kinds.

use page_types::{Kind, Prot};

/// What becomes of the kind of a page.
#[derive(Clone, Copy, PartialEq, Eq, Hash, Debug)]
pub enum Paint {
    /// This kind, or none, as mmap(2) and munmap(2) leave it.
    Gives(Option<Kind>),
    /// The new protection, where the page is mapped, with the rest of its kind kept, as mprotect(2) leaves it.
    Protects(Prot),
    /// Sealed, where the page is mapped, with the rest of its kind kept, as mseal(2) leaves it.
    Seals,
}

/// Pages, by their numbers, and their paint.
#[derive(Clone, Copy, PartialEq, Eq, Hash, Debug)]
pub struct Patch {
    /// The first page.
    pub lo: u64,
    /// The page after the last one.
    pub hi: u64,
    /// What becomes of them.
    pub paint: Paint,
}
