//! The rule of the table, as `atomic_table` and `word_rows` ask for it: what holds between any two steps, and that a
//! seat with its quota can be cut off. The rule itself is `Ruled` of `specs/Touched.antt`.
use crate::records::SeatRecord;
use atomic_table::TableRule;
use word_rows::{Start, StartRule};

/// The rule of a set of touched pages.
pub struct TouchRule;

impl TableRule<(), SeatRecord, Start> for TouchRule {
    ghost use Rattle.std.specs.Prelude.{◌-◌, length};
    ghost use Rattle.page_touch.specs.Touched.{IsTouchTable, share_sum, begin};

    ghost holds = { λ k. IsTouchTable (length k.words.items) (share_sum k.shares.items 0 (k.seats - 0)) };

    ghost first = { λ k. begin (share_sum k.shares.items 0 (k.seats - 0)) };
}

impl StartRule for TouchRule {
    ghost use Rattle.std.specs.Prelude.{◌+◌, ◌-◌, length, refl};
    ghost use Rattle.page_touch.specs.Touched.{share_sum, begin};
    ghost use Rattle.page_touch.specs.Starting.{last_share, cuts};

    type View = SeatRecord;

    ghost one = { λ seats words shares s. begin (share_sum shares s 1) };

    ghost rest = { λ seats words shares s. begin (share_sum shares s (seats - s)) };

    ghost starts = { λ k. refl };

    ghost ends = { λ words shares s. last_share shares s };

    ghost cuts = { λ k s id more. cuts (length k.words.items) (share_sum k.shares.items 0 (k.seats - 0)) k.shares.items k.seats s id more };
}
