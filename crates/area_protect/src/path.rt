//! The answer to a change of protection: its entry, and by which way it went. Each number of entries that a cause names
//! was found in the number word by a load of the call (`HasLooks` of `specs/Protects.antt`). What it says of the
//! history after so many entries is `HasPath` there.
use space_model::Entry;

/// Why a change of protection had to hold all pages. Entries are counted from the opening of the space.
#[derive(Clone, Copy, Debug, PartialEq, Eq)]
pub enum Cause {
    /// After the first `at` entries its pages weren't all mapped with one kind.
    NotOneArea {
        at: u64,
    },
    /// After the first `at` entries its pages were of one kind, and the change would have left another number of rows.
    NotSimple {
        at: u64,
    },
    /// A call under everything was numbered between two looks: of the first `first` entries `old_seq` were under
    /// everything, and of the first `second` ones `new_seq`.
    Moved {
        first: u64,
        second: u64,
        old_seq: u64,
        new_seq: u64,
    },
}

/// By which way a change of protection went.
#[derive(Clone, Copy, Debug, PartialEq, Eq)]
pub enum Path {
    /// Its arguments decided it, and it held nothing.
    Free,
    /// It held its area and a page on each side; `seq` entries before it were under everything.
    Area { seq: u64 },
    /// It held all pages.
    Whole(Cause),
}

/// The answer to a change of protection.
#[derive(Clone, Copy, Debug, PartialEq, Eq)]
pub enum Protected {
    /// The call's entry, and its way.
    Given { entry: Entry, path: Path },
    /// The caller has as many entries as were asked for it at the opening.
    Spent,
}
