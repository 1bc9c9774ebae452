//! Whether what an entry says was held is what its call has to hold: nothing, its page, its area, or everything. What a
//! Protect may hold as its area it may also hold under everything, as a call does that looked and found its area
//! changed.
ghost use Rattle.std.specs.Prelude.{◌≡◌, ◌⊎◌, ◌↔◌, IsTrue};
ghost use Rattle.space_model.specs.declared.entries.Under.TheVariants.{Whole};
ghost use Rattle.space_model.specs.Held.{FitsUnder, HoldsSomeArea};

use page_types::Span;
use space_model::{Entry, PlainSpace, Under};

/// Whether what the entry says was held fits its call on this space. Its number, worker, line and reply don't count.
///
/// A call that its arguments decide holds nothing, a fault its page as a reader, a Map, an Unmap and a Seal everything.
/// Any other Protect holds everything, or its area with a page on each side where it keeps the number of areas and of
/// gaps, or where the area is sealed. It takes no memory.
pub fn fits(space: &PlainSpace, entry: &Entry) -> bool
    ensures { IsTrue result ↔ FitsUnder space.now entry.now.call entry.now.under }
{
    let _areas = space.areas();
    may_be(space.under(&entry.call), entry.under)
}

/// Whether this may be held where exactly that is what has to be held: the same, or everything in place of an area.
pub(crate) fn may_be(exact: Under, under: Under) -> bool
    ensures { IsTrue result ↔ ((under ≡ exact) ⊎ (HoldsSomeArea exact × (under ≡ Whole))) }
{
    match exact {
        Under::Nothing => under == Under::Nothing,
        Under::Reader(span) => match under {
            Under::Reader(held) => is_same(held, span),
            Under::Nothing | Under::Area(_) | Under::Whole => false,
        },
        Under::Area(span) => match under {
            Under::Area(held) => is_same(held, span),
            Under::Whole => true,
            Under::Nothing | Under::Reader(_) => false,
        },
        Under::Whole => under == Under::Whole,
    }
}

fn is_same(one: Span, other: Span) -> bool
    ensures { IsTrue result ↔ (one ≡ other) }
{
    one.lo == other.lo && one.hi == other.hi
}
