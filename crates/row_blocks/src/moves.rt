//! Words that move: up by one, where one comes before them, and down or away, one after another. A word is stored where
//! another one stands, so each of these loads what stands first.
ghost use Rattle.std.specs.Prelude.{ℕ, ◌≡◌, ◌<◌, ◌≤◌, ◌+◌, ◌-◌, ◌*◌, ◌^◌, ◌⊎◌, length, slice_index, slice_set};
ghost use Rattle.row_blocks.specs.Moves.{IsPushed, IsCopied};

use crate::words::Words;

/// Lays a row at a place, and gives what stood there.
pub(crate) fn exchange<W: Words>(words: &W, hand: &mut W::Hand, place: usize, word: u64) -> u64
    requires may { W.may_store words.now hand.old }
    requires slot { place < 128 * W.blocks words.now }
    requires there { place < length (W.words words.now hand.old) }
    requires row { W.is_row words.now hand.old word }
    ensures stood { result ≡ slice_index (W.words words.now hand.old) place }
    ensures words { W.words words.now hand.new ≡ slice_set (W.words words.now hand.old) place word }
    ensures may { W.may_store words.now hand.new }
    ensures rows { (w : ℕ) → W.is_row words.now hand.old w → W.is_row words.now hand.new w }
    ensures kept { W.kept words.now hand.old hand.new }
    ensures steps { W.steps words.now hand.new ≤ W.steps words.now hand.old + 2 }
{
    let stood = words.load(hand, place);
    if stood == word {
        return stood;
    }
    words.store(hand, place, word);
    stood
}

/// Lays a word of the layout at a place, and gives what stood there.
pub(crate) fn exchange_layout<W: Words>(
    words: &W,
    hand: &mut W::Hand,
    place: usize,
    word: u64,
) -> u64
    requires may { W.may_store words.now hand.old }
    requires layout { 128 * W.blocks words.now ≤ place }
    requires there { place < length (W.words words.now hand.old) }
    ensures stood { result ≡ slice_index (W.words words.now hand.old) place }
    ensures words { W.words words.now hand.new ≡ slice_set (W.words words.now hand.old) place word }
    ensures may { W.may_store words.now hand.new }
    ensures rows { (w : ℕ) → W.is_row words.now hand.old w → W.is_row words.now hand.new w }
    ensures kept { W.kept words.now hand.old hand.new }
    ensures steps { W.steps words.now hand.new ≤ W.steps words.now hand.old + 2 }
{
    let stood = words.load(hand, place);
    if stood == word {
        return stood;
    }
    words.store_layout(hand, place, word);
    stood
}

/// Lays a row at a place, and those from there on move up by one, up to another place.
pub(crate) fn raise<W: Words>(words: &W, hand: &mut W::Hand, from: usize, until: usize, word: u64)
    requires may { W.may_store words.now hand.old }
    requires ordered { from ≤ until }
    requires slot { until < 128 * W.blocks words.now }
    requires wide { until < length (W.words words.now hand.old) }
    requires row { W.is_row words.now hand.old word }
    requires rows { (s : ℕ) → from ≤ s → s < until → W.is_row words.now hand.old (slice_index (W.words words.now hand.old) s) }
    ensures pushed { IsPushed (W.words words.now hand.old) (W.words words.now hand.new) from until word }
    ensures may { W.may_store words.now hand.new }
    ensures rows { (w : ℕ) → W.is_row words.now hand.old w → W.is_row words.now hand.new w }
    ensures kept { W.kept words.now hand.old hand.new }
    ensures steps { W.steps words.now hand.new ≤ W.steps words.now hand.old + (2 * (until - from) + 2) }
{
    let mut carried = word;
    let mut to = from;
    'shift: while to < until {
        let stood = exchange(words, hand, to, carried);
        carried = stood;
        to += 1;
    }
    exchange(words, hand, until, carried);
}

/// The same of words of the layout.
pub(crate) fn raise_layout<W: Words>(
    words: &W,
    hand: &mut W::Hand,
    from: usize,
    until: usize,
    word: u64,
)
    requires may { W.may_store words.now hand.old }
    requires ordered { from ≤ until }
    requires layout { 128 * W.blocks words.now ≤ from }
    requires wide { until < length (W.words words.now hand.old) }
    ensures pushed { IsPushed (W.words words.now hand.old) (W.words words.now hand.new) from until word }
    ensures may { W.may_store words.now hand.new }
    ensures rows { (w : ℕ) → W.is_row words.now hand.old w → W.is_row words.now hand.new w }
    ensures kept { W.kept words.now hand.old hand.new }
    ensures steps { W.steps words.now hand.new ≤ W.steps words.now hand.old + (2 * (until - from) + 2) }
{
    let mut carried = word;
    let mut to = from;
    'shift: while to < until {
        let stood = exchange_layout(words, hand, to, carried);
        carried = stood;
        to += 1;
    }
    exchange_layout(words, hand, until, carried);
}

/// Lays rows at other places: further down, or where none of them stands.
pub(crate) fn copy<W: Words>(words: &W, hand: &mut W::Hand, from: usize, to: usize, count: usize)
    requires may { W.may_store words.now hand.old }
    requires slots { to + count ≤ 128 * W.blocks words.now }
    requires few_from { from + count < 2 ^ 63 }
    requires few_to { to + count < 2 ^ 63 }
    requires from { from + count ≤ length (W.words words.now hand.old) }
    requires to { to + count ≤ length (W.words words.now hand.old) }
    requires apart { (to ≤ from) ⊎ (from + count ≤ to) }
    requires rows { (m : ℕ) → m < count → W.is_row words.now hand.old (slice_index (W.words words.now hand.old) (from + m)) }
    ensures copied { IsCopied (W.words words.now hand.old) (W.words words.now hand.new) from to count }
    ensures may { W.may_store words.now hand.new }
    ensures rows { (w : ℕ) → W.is_row words.now hand.old w → W.is_row words.now hand.new w }
    ensures kept { W.kept words.now hand.old hand.new }
    ensures steps { W.steps words.now hand.new ≤ W.steps words.now hand.old + 3 * count }
{
    let mut k = 0;
    'rows: while k < count {
        let row = words.load(hand, from + k);
        exchange(words, hand, to + k, row);
        k += 1;
    }
}
