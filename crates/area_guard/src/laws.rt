//! What the rule of a running address space comes to, in the words of the one-thread model: laws on public functions
//! with nothing to run. Each names a statement of `specs/Stored.antt`. With `keeps_apart` of the lock a reader may
//! rely on them between any two steps.
ghost use Rattle.area_guard.specs.Stored.{RunsAreLegal, HistoryIsStored, CountIsOfWhole, LayoutIsOfWhole, StoresAreNew, DrawsHold, KeptWordStands};
ghost use Rattle.area_guard.specs.Stored.{LastDrawIsKept, StepsAreCounted};

/// What runs from one area list to another is a legal history of the one-thread address space, and leaves that list.
/// It does nothing.
pub fn runs_are_legal()
    ensures { RunsAreLegal }
{}

/// Each number of the history is that of one entry of one caller, and no other number is that of any; where the space
/// keeps its history, the number word says how many there are. Taken by
/// number they are the history: each caller has seen a beginning of it, the rows show the state that it leaves, and
/// the sequence word counts its entries under everything. While one of these isn't written yet the sequence word is one
/// behind, and its caller holds everything and has a plan that shows that state. What a caller has to write is what the
/// last of its entries leaves, at the state that the entries before it lead to. It does nothing.
pub fn history_is_stored()
    ensures { HistoryIsStored }
{}

/// The row count is stored only by a caller that holds everything and whose last entry was numbered so; it is the
/// number of the rows that this entry leaves. Each other word that says which words are rows, and in which order, is
/// stored only by such a caller too. It does nothing.
pub fn count_is_of_everything()
    ensures count { CountIsOfWhole }
    ensures layout { LayoutIsOfWhole }
{}

/// While a call under everything has its number and isn't written yet, its caller stores nothing but rows that stood
/// before this call or that it leaves, in slots; their count; and the words that say which words are
/// rows. None of these is stored where it stands already. It does nothing.
pub fn stores_are_new()
    ensures { StoresAreNew }
{}

/// A number is drawn only at a step at which its caller holds the range that the entry names; the entry is then the
/// last one that the caller has seen, and the caller's pass keeps that range until its next draw, and counts the
/// steps on client words that the caller makes meanwhile. It keeps how many there were up to the draw. It does nothing.
pub fn draws_hold()
    ensures drawn { DrawsHold }
    ensures kept { LastDrawIsKept }
    ensures counted { StepsAreCounted }
{}

/// The word that tells whether a space keeps its history is never stored, nor is the number word where it keeps none.
/// It does nothing.
pub fn kept_word_stands()
    ensures { KeptWordStands }
{}
