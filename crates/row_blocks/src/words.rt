//! Words that are loaded and stored one by one by a hand, and whose steps are counted. Whoever keeps them says what the
//! hand is: a caller of a shared space loads and stores words of its table while it holds all pages, and a test has a
//! list. A reader may rely on each store being of a row that the change has before or after it, at the place of a row,
//! or of a word of the layout; and on another word standing there.
ghost use Rattle.std.specs.Prelude.{ℕ, List, ◌≡◌, ◌≢◌, ◌<◌, ◌≤◌, ◌+◌, ◌*◌, length, slice_index, slice_set};

/// Words that a hand may load. It then says what that leaves of the hand.
pub trait Loads {
    /// What loads, and stores, need besides the words.
    type Hand;

    /// How many blocks there is room for: 128 rows each, and behind all of them the words of the layout.
    ghost blocks: { Self → ℕ };

    /// With this hand words may be loaded and stored.
    ghost may_store: { Self → Self.Hand → Type 0 };

    /// The words, as this hand finds them.
    ghost words: { Self → Self.Hand → List ℕ };

    /// A word is one of the rows before the change or after it.
    ghost is_row: { Self → Self.Hand → ℕ → Type 0 };

    /// How many steps this hand has made.
    ghost steps: { Self → Self.Hand → ℕ };

    /// What loads and stores leave of a hand, besides the words and the steps.
    ghost kept: { Self → Self.Hand → Self.Hand → Type 0 };

    /// A hand that did nothing is as it was.
    ghost no_step: { (words : Self) (hand : Self.Hand) → kept words hand hand };

    /// One step after another leaves what a step leaves.
    ghost steps_on: { (words : Self) (one two three : Self.Hand) → kept words one two → kept words two three → kept words one three };

    /// The word at a place.
    fn load(&self, hand: &mut Self::Hand, place: usize) -> u64
        requires may { may_store self.now hand.old }
        requires there { place < length (words self.now hand.old) }
        ensures word { result ≡ slice_index (words self.now hand.old) place }
        ensures words { words self.now hand.new ≡ words self.now hand.old }
        ensures may { may_store self.now hand.new }
        ensures rows { (w : ℕ) → is_row self.now hand.old w → is_row self.now hand.new w }
        ensures kept { kept self.now hand.old hand.new }
        ensures step { steps self.now hand.new ≡ steps self.now hand.old + 1 };
}

/// Words that a hand may store as well.
pub trait Words: Loads {
    /// Stores a row at a place of a row, where another word stands.
    fn store(&self, hand: &mut Self::Hand, place: usize, word: u64)
        requires may { Self.may_store self.now hand.old }
        requires slot { place < 128 * Self.blocks self.now }
        requires there { place < length (Self.words self.now hand.old) }
        requires row { Self.is_row self.now hand.old word }
        requires differs { slice_index (Self.words self.now hand.old) place ≢ word }
        ensures words { Self.words self.now hand.new ≡ slice_set (Self.words self.now hand.old) place word }
        ensures may { Self.may_store self.now hand.new }
        ensures rows { (w : ℕ) → Self.is_row self.now hand.old w → Self.is_row self.now hand.new w }
        ensures kept { Self.kept self.now hand.old hand.new }
        ensures step { Self.steps self.now hand.new ≡ Self.steps self.now hand.old + 1 };

    /// Stores a word of the layout, the block count or a body word, where another word stands.
    fn store_layout(&self, hand: &mut Self::Hand, place: usize, word: u64)
        requires may { Self.may_store self.now hand.old }
        requires layout { 128 * Self.blocks self.now ≤ place }
        requires there { place < length (Self.words self.now hand.old) }
        requires differs { slice_index (Self.words self.now hand.old) place ≢ word }
        ensures words { Self.words self.now hand.new ≡ slice_set (Self.words self.now hand.old) place word }
        ensures may { Self.may_store self.now hand.new }
        ensures rows { (w : ℕ) → Self.is_row self.now hand.old w → Self.is_row self.now hand.new w }
        ensures kept { Self.kept self.now hand.old hand.new }
        ensures step { Self.steps self.now hand.new ≡ Self.steps self.now hand.old + 1 };
}
