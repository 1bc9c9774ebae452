//! The rows beside a row, over the borders of blocks: the row before the first one of a block is the last one of the
//! block before it. A reader may rely on the slots being those of the layout that the caller has read before.
ghost use Rattle.std.specs.Prelude.{ℕ, ◌≡◌, ◌<◌, ◌≤◌, ◌+◌, ◌*◌, ◌/◌, ◌%◌, IsSome, Some, slice_index};
ghost use Rattle.area_guard.specs.Rows.{blocks_by, slot_at, slots_of, IsInReach, IsNextOf, IsPreviousOf};
ghost use Rattle.area_guard.specs.Reads.{layout_by};
ghost use Rattle.area_guard.specs.History.{IsAtRest};
ghost use Rattle.area_rows.specs.Layouts.{IsLayout};
ghost use Rattle.area_rows.specs.Callers.{AreInReach, HasSameRows, IsKindIn, IsPlaceOf, IsReading};

use crate::space::{Caller, Space};
use page_types::Kind;
use row_plans::read_row;

/// The slot of a row, and those of the rows beside it, or None where there is no row.
#[derive(Clone, Copy)]
pub(crate) struct Beside {
    pub(crate) own: u32,
    pub(crate) before: Option<u32>,
    pub(crate) behind: Option<u32>,
}

/// The slot of a place of a block, of which the body word is given.
fn slot_in(blocks: u32, block: u32, place: u32, told: u64) -> u32
    requires blocks { blocks ≤ 2048 }
    requires body { told / 128 % 2048 < blocks }
    requires place { place < 128 }
    ensures head { place ≡ 0 → result ≡ block }
    ensures body { 0 < place → result + 1 ≡ blocks + 127 * (told / 128 % 2048) + place }
{
    if place == 0 {
        block
    } else {
        blocks + 127 * (told / 128 % 2048) as u32 + (place - 1)
    }
}

impl Space {
    /// The slot before the one of a place of a block, of which the body word is given, or None before the first.
    fn slot_before(&self, caller: &mut Caller, block: u32, place: u32, told: u64) -> Option<u32>
        requires table { caller.old.seat.table ≡ self.now.table }
        requires held { IsSome caller.old.seat.held }
        requires rest { IsAtRest caller.old.seat.pass }
        requires laid { caller.old.seat.pass.laid ≡ Some (layout_by caller.old.seat.pass.laid) }
        requires blocks { caller.old.seat.pass.blocks ≡ blocks_by caller.old.seat.table }
        requires layout { IsLayout (blocks_by caller.old.seat.table) (layout_by caller.old.seat.pass.laid) }
        requires block { block < slice_index (layout_by caller.old.seat.pass.laid) 1 }
        requires place { place ≤ told % 128 }
        requires told { slice_index (layout_by caller.old.seat.pass.laid) (2 + block) ≡ told }
        ensures before { IsPreviousOf (slots_of (layout_by caller.old.seat.pass.laid))
            (slot_at (layout_by caller.old.seat.pass.laid) (128 * block + place)) result }
        ensures reading { IsReading caller.old.seat caller.new.seat }
        ensures left { caller.new.left ≡ caller.old.left }
        ensures rows { HasSameRows caller.old caller.new }
        ensures loads { caller.new.seat.trace.taken ≤ caller.old.seat.trace.taken + 1 }
    {
        if place > 0 {
            return Some(slot_in(self.blocks, block, place - 1, told));
        }
        if block == 0 {
            return None;
        }
        let last = self.load_told(caller, block - 1);
        Some(slot_in(self.blocks, block - 1, (last % 128) as u32, last))
    }

    /// The slot behind it, or None behind the last.
    fn slot_behind(&self, caller: &mut Caller, block: u32, place: u32, told: u64) -> Option<u32>
        requires table { caller.old.seat.table ≡ self.now.table }
        requires held { IsSome caller.old.seat.held }
        requires rest { IsAtRest caller.old.seat.pass }
        requires laid { caller.old.seat.pass.laid ≡ Some (layout_by caller.old.seat.pass.laid) }
        requires blocks { caller.old.seat.pass.blocks ≡ blocks_by caller.old.seat.table }
        requires layout { IsLayout (blocks_by caller.old.seat.table) (layout_by caller.old.seat.pass.laid) }
        requires block { block < slice_index (layout_by caller.old.seat.pass.laid) 1 }
        requires place { place ≤ told % 128 }
        requires told { slice_index (layout_by caller.old.seat.pass.laid) (2 + block) ≡ told }
        ensures behind { IsNextOf (slots_of (layout_by caller.old.seat.pass.laid))
            (slot_at (layout_by caller.old.seat.pass.laid) (128 * block + place)) result }
        ensures reading { IsReading caller.old.seat caller.new.seat }
        ensures left { caller.new.left ≡ caller.old.left }
        ensures rows { HasSameRows caller.old caller.new }
        ensures loads { caller.new.seat.trace.taken ≤ caller.old.seat.trace.taken + 1 }
    {
        if place < (told % 128) as u32 {
            return Some(slot_in(self.blocks, block, place + 1, told));
        }
        if block + 1 < self.load_used(caller) {
            return Some(block + 1);
        }
        None
    }

    /// The slot of the row of that number and those beside it, by the layout that the caller has read before. It loads
    /// one word of it, and one more for each side on which the block ends there.
    pub(crate) fn beside(&self, caller: &mut Caller, index: u32) -> Beside
        requires table { caller.old.seat.table ≡ self.now.table }
        requires held { IsSome caller.old.seat.held }
        requires rest { IsAtRest caller.old.seat.pass }
        requires laid { caller.old.seat.pass.laid ≡ Some (layout_by caller.old.seat.pass.laid) }
        requires block { index / 128 < caller.old.seat.pass.blocks }
        requires there { IsPlaceOf (layout_by caller.old.seat.pass.laid) index }
        ensures own { result.own ≡ slot_at (layout_by caller.old.seat.pass.laid) index }
        ensures before { IsPreviousOf (slots_of (layout_by caller.old.seat.pass.laid)) result.own result.before }
        ensures behind { IsNextOf (slots_of (layout_by caller.old.seat.pass.laid)) result.own result.behind }
        ensures reach { AreInReach caller.old.seat.table (slots_of (layout_by caller.old.seat.pass.laid)) }
        ensures reading { IsReading caller.old.seat caller.new.seat }
        ensures left { caller.new.left ≡ caller.old.left }
        ensures rows { HasSameRows caller.old caller.new }
        ensures loads { caller.new.seat.trace.taken ≤ caller.old.seat.trace.taken + 3 }
    {
        let block = index / 128;
        let place = index % 128;
        let told = self.load_told(caller, block);
        let before = self.slot_before(caller, block, place, told);
        let behind = self.slot_behind(caller, block, place, told);
        Beside {
            own: slot_in(self.blocks, block, place, told),
            before,
            behind,
        }
    }

    /// The kind of the row in a slot, or None where there is no slot.
    pub(crate) fn kind_in(&self, caller: &mut Caller, slot: Option<u32>) -> Option<Kind>
        requires table { caller.old.seat.table ≡ self.now.table }
        requires held { IsSome caller.old.seat.held }
        requires rest { IsAtRest caller.old.seat.pass }
        requires reach { (place : ℕ) → slot ≡ Some place → IsInReach (blocks_by caller.old.seat.table) place }
        ensures read { IsKindIn caller.new.seat.pass.rows slot result }
        ensures reading { IsReading caller.old.seat caller.new.seat }
        ensures left { caller.new.left ≡ caller.old.left }
        ensures loads { caller.new.seat.trace.taken ≤ caller.old.seat.trace.taken + 1 }
    {
        let Some(place) = slot else {
            return None;
        };
        let (_, kind) = read_row(self.load_row(caller, place));
        kind
    }
}
