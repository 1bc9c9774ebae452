//! Sorts of pages, by which the searches of this crate look: the lowest page of a sort bars a call, as mmap(2) and
//! mprotect(2) say, mseal(2) of sealed ones, and mremap(2) of pages unlike the first. `is_sort` in `specs/` says which
//! kinds are of which sort.

ghost use Rattle.std.specs.Prelude.{◌≡◌};
ghost use Rattle.space_model.specs.Sorts.{is_sort};
ghost use Rattle.space_model.specs.Starts.{same_option};

use page_types::Kind;

/// A sort of pages, by their kind.
#[derive(Clone, Copy, PartialEq, Eq, Hash, Debug)]
pub enum Sort {
    /// Pages that are mapped.
    Mapped,
    /// Pages that aren't.
    Missing,
    /// Pages that are sealed.
    Sealed,
    /// Pages that aren't mapped, and those that are mapped with another kind than this one.
    Unlike(Option<Kind>),
}

/// Whether two kinds are the same, None being that of a page that isn't mapped.
fn same_option(one: Option<Kind>, other: Option<Kind>) -> bool
    ensures { result ≡ same_option one other }
{
    one == other
}

/// Whether a page of this kind is of the sort.
pub fn is_sort(sort: Sort, kind: Option<Kind>) -> bool
    ensures { result ≡ is_sort sort kind }
{
    match sort {
        Sort::Mapped => kind.is_some(),
        Sort::Missing => kind.is_none(),
        Sort::Sealed => match kind {
            Some(kind) => kind.sealed,
            None => false,
        },
        Sort::Unlike(first) => !(kind.is_some() && same_option(first, kind)),
    }
}
