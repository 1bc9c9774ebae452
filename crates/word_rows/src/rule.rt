//! The rule of a table whose seats are numbered: with which view each seat begins, and how a view that holds what
//! many seats begin with is cut. `atomic_table` makes a table with one seat, so the seats of the other numbers are
//! cut off from it one after another; three laws make that sound.
ghost use Rattle.std.specs.Prelude.{◌≡◌, ℕ, ◌+◌, ◌<◌, List};
ghost use Rattle.atomic_table.specs.Table.{Splits};
ghost use Rattle.word_rows.specs.declared.rule.Start.{Start};

use atomic_table::TableRule;

/// What a table is told when it is made, and its rule may read: the number of seats, the opening words, and numbers
/// that the views may begin with.
#[derive(Drop)]
pub struct Start {
    pub seats: u32,
    pub words: Vec<u64>,
    pub shares: Vec<u32>,
}

/// The rule of a table whose seats are numbered from 0 on. Both its meanings take the number of seats, the opening
/// words, the shares and a seat's number.
pub trait StartRule: TableRule<(), Self::View, Start> {
    /// What a seat knows.
    type View;

    /// The view with which the seat of that number begins.
    ghost one: { ℕ → List ℕ → List ℕ → ℕ → Self.View };

    /// A view that holds what all seats from that number on begin with.
    ghost rest: { ℕ → List ℕ → List ℕ → ℕ → Self.View };

    /// The table's first view holds what all seats begin with.
    ghost starts: { (k : Start) → Self.first k ≡ rest k.seats k.words.items k.shares.items 0 };

    /// What is left for the last seat is its own view.
    ghost ends: { (words : List ℕ) (shares : List ℕ) (s : ℕ) → rest (s + 1) words shares s ≡ one (s + 1) words shares s };

    /// A seat's own view can be cut off from what is left, and the rule still holds.
    ghost cuts: { (k : Start) (s id : ℕ) → s + 1 < k.seats
        → Splits (Self.holds k) id (rest k.seats k.words.items k.shares.items s) (one k.seats k.words.items k.shares.items s)
        (rest k.seats k.words.items k.shares.items (s + 1)) };
}
