//! Rows that are found and loaded where they are needed, by the places where they stand. Whoever keeps them says what a
//! place is: rows may stand one behind the other or in blocks. A caller of a shared space loads words under the range
//! that it holds, and a test reads a list. A reader may rely on all loads finding one list of rows, whichever of them
//! are loaded, and in which order.
ghost use Rattle.std.specs.Prelude.{ℕ, List, MatchOption, ◌≡◌, ◌<◌, ◌≤◌, ◌+◌, length, drop, slice_index};
ghost use Rattle.page_types.specs.declared.TheConstants.{LIMIT};
ghost use Rattle.row_plans.specs.RowWords.{row_start};
ghost use Rattle.row_plans.specs.RowLists.{rows_start};
ghost use Rattle.row_plans.specs.Plans.{IsRowList, IsPlaceOf};
ghost use Rattle.row_plans.specs.Gaps.{HasNoGap, IsGapBefore};

/// A row that was found.
#[derive(Clone, Copy)]
pub struct Found<P> {
    /// Where it stands.
    pub at: P,
    /// Its word.
    pub word: u64,
    /// The page at which the next row starts, or `LIMIT`.
    pub end: u64,
}

/// Rows that can be found and loaded. A load may need a hand besides, as a caller's seat where the rows are words that
/// threads share; it then says what it leaves of that hand.
pub trait Rows {
    /// What a load needs besides the rows.
    type Hand;

    /// Where a row stands.
    type Place: Copy;

    /// With this hand rows may be loaded.
    ghost may_load: { Self → Self.Hand → Type 0 };

    /// The words of all rows, as loads with this hand find them.
    ghost words: { Self → Self.Hand → List ℕ };

    /// The number of the row at a place, counted from 0; where no row stands there, no row has that number.
    ghost number: { Self → Self.Hand → Self.Place → ℕ };

    /// What loads leave of a hand.
    ghost loaded: { Self → Self.Hand → Self.Hand → Type 0 };

    /// A hand that loaded nothing is as it was.
    ghost no_load: { (rows : Self) (hand : Self.Hand) → loaded rows hand hand };

    /// One load after another is a load.
    ghost loads_on: { (rows : Self) (one two three : Self.Hand) → loaded rows one two → loaded rows two three → loaded rows one three };

    /// A load leaves the words as they were, and the hand may load again.
    ghost same_words: { (rows : Self) (one two : Self.Hand) → may_load rows one → loaded rows one two
        → may_load rows two × (words rows two ≡ words rows one) };

    /// It leaves each row at its place.
    ghost same_places: { (rows : Self) (one two : Self.Hand) → may_load rows one → loaded rows one two → number rows two ≡ number rows one };

    /// The words are a list of rows.
    ghost are_rows: { (rows : Self) (hand : Self.Hand) → may_load rows hand → IsRowList (words rows hand) };

    /// How many words were loaded with a hand; always 0 where nobody counts them.
    ghost steps: { Self → Self.Hand → ℕ };

    /// How many loads it takes at most to find the last row before another that has so many free pages.
    ghost gap_loads: { Self → Self.Hand → ℕ };

    /// A load leaves that as it was.
    ghost same_gap: { (rows : Self) (one two : Self.Hand) → may_load rows one → loaded rows one two → gap_loads rows two ≡ gap_loads rows one };

    /// How many rows there are.
    fn count(&self) -> u32
        ensures { (hand : Self.Hand) → may_load self.now hand → result ≡ length (words self.now hand) };

    /// The place of the first row.
    fn first(&self) -> Self::Place
        ensures { (hand : Self.Hand) → may_load self.now hand → number self.now hand result ≡ 0 };

    /// The row that has a page.
    fn find(&self, hand: &mut Self::Hand, page: u64) -> Found<Self::Place>
        requires may { may_load self.now hand.old }
        requires page { page < LIMIT }
        ensures there { number self.now hand.old result.at < length (words self.now hand.old) }
        ensures word { result.word ≡ slice_index (words self.now hand.old) (number self.now hand.old result.at) }
        ensures end { result.end ≡ rows_start (drop (number self.now hand.old result.at + 1) (words self.now hand.old)) }
        ensures from { row_start result.word ≤ page }
        ensures until { page < result.end }
        ensures loaded { loaded self.now hand.old hand.new }
        ensures steps { steps self.now hand.new ≤ steps self.now hand.old + 20 };

    /// The word of the row at a place.
    fn load(&self, hand: &mut Self::Hand, at: Self::Place) -> u64
        requires may { may_load self.now hand.old }
        requires there { number self.now hand.old at < length (words self.now hand.old) }
        ensures word { result ≡ slice_index (words self.now hand.old) (number self.now hand.old at) }
        ensures loaded { loaded self.now hand.old hand.new }
        ensures steps { steps self.now hand.new ≤ steps self.now hand.old + 2 };

    /// The place of the row behind, or None behind the last row.
    fn next(&self, hand: &mut Self::Hand, at: Self::Place) -> Option<Self::Place>
        requires may { may_load self.now hand.old }
        requires there { number self.now hand.old at < length (words self.now hand.old) }
        ensures next { IsPlaceOf (words self.now hand.old) (number self.now hand.old) (number self.now hand.old at + 1) result }
        ensures loaded { loaded self.now hand.old hand.new }
        ensures steps { steps self.now hand.new ≤ steps self.now hand.old + 2 };

    /// The place of the row before, where there is one.
    fn previous(&self, hand: &mut Self::Hand, at: Self::Place) -> Self::Place
        requires may { may_load self.now hand.old }
        requires there { number self.now hand.old at < length (words self.now hand.old) }
        requires less { 0 < number self.now hand.old at }
        ensures previous { number self.now hand.old result + 1 ≡ number self.now hand.old at }
        ensures loaded { loaded self.now hand.old hand.new }
        ensures steps { steps self.now hand.new ≤ steps self.now hand.old + 1 };

    /// The page at which the last row ends, before the one that starts at `start` at a place, that has so many free
    /// pages at or above `LOWEST`; or None where none has.
    fn gap_before(
        &self,
        hand: &mut Self::Hand,
        at: Self::Place,
        start: u64,
        pages: u64,
    ) -> Option<u64>
        requires may { may_load self.now hand.old }
        requires there { number self.now hand.old at < length (words self.now hand.old) }
        requires start { start ≡ row_start (slice_index (words self.now hand.old) (number self.now hand.old at)) }
        requires some { 0 < pages }
        ensures gap { MatchOption result (HasNoGap (words self.now hand.old) 0 (number self.now hand.old at) pages)
            (IsGapBefore (words self.now hand.old) (number self.now hand.old at) pages) }
        ensures loaded { loaded self.now hand.old hand.new }
        ensures steps { steps self.now hand.new ≤ steps self.now hand.old + gap_loads self.now hand.old };
}
