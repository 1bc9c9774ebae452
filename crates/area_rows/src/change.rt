//! The one store of a call over its area: a row gets another kind, or another start. Until then the rows lag behind the
//! history at the pages of the call, which no other caller holds; so readers beside them notice nothing. A reader may
//! rely on the rows showing the state again afterwards.
ghost use Rattle.std.specs.Prelude.{◌≡◌, ◌+◌, Some};
ghost use Rattle.area_guard.specs.declared.guard.Change.{Change};
ghost use Rattle.area_guard.specs.declared.guard.Pending.TheVariants.{OneRow};
ghost use Rattle.area_guard.specs.Changes.{new_word};
ghost use Rattle.area_guard.specs.History.{after_change};
ghost use Rattle.area_rows.specs.Callers.{HasSameRows, HasToStore, IsClientStep, IsReadRound, IsStoredRow};

use crate::noted::By;
use crate::space::{Caller, Space};
use crate::words::FIRST_ROW;
use area_guard::RowGuard;
use page_types::Kind;
use range_rw::Seat;
use row_plans::write_row;
use std::marker::Brand;

impl Space {
    /// Stores the word of the row that a change is about.
    fn store_change(&self, seat: &mut Seat<RowGuard>, index: u32, word: u64)
        requires table { seat.old.table ≡ self.now.table }
        requires change { (change : Change) × (seat.old.pass.pending ≡ OneRow change) × IsReadRound seat.old change
            × (change.index ≡ index) × (word ≡ new_word change) }
        ensures step { IsClientStep seat.old (3 + index) (after_change seat.old.pass) seat.new }
    {
        self.table
            .store_as_uncounted::<By<Brand>>(seat, FIRST_ROW + index, word);
    }

    /// Gives the whole row in that slot another kind, in one step: that of the area which the
    /// caller's last call changes. The caller is of this space, has numbered this change, and has not written it yet.
    pub fn set_kind(&self, caller: &mut Caller, index: u32, kind: Kind)
        requires table { caller.old.seat.table ≡ self.now.table }
        requires store { (change : Change) × HasToStore caller.old change × (change.index ≡ index) × (change.kind ≡ kind) }
        ensures stored { IsStoredRow caller.old.seat index caller.new.seat }
        ensures left { caller.new.left ≡ caller.old.left }
        ensures rows { HasSameRows caller.old caller.new }
    {
        let Some(change) = caller.change else {
            unreachable!()
        };
        let word = write_row(change.start, Some(kind));
        self.store_change(&mut caller.seat, index, word);
    }

    /// Moves the start of the row in that slot to a page, in one step: the boundary of the area
    /// which the caller's last call changes. The caller is of this space, has numbered this change, and has not written
    /// it yet.
    pub fn move_start(&self, caller: &mut Caller, index: u32, page: u64)
        requires table { caller.old.seat.table ≡ self.now.table }
        requires store { (change : Change) × HasToStore caller.old change × (change.index ≡ index) × (change.start ≡ page) }
        ensures stored { IsStoredRow caller.old.seat index caller.new.seat }
        ensures left { caller.new.left ≡ caller.old.left }
        ensures rows { HasSameRows caller.old caller.new }
    {
        let Some(change) = caller.change else {
            unreachable!()
        };
        let word = write_row(page, Some(change.kind));
        self.store_change(&mut caller.seat, index, word);
    }
}
