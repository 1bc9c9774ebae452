//! The steps by which a caller reads client words and draws a number: it loads the number word, the sequence word, the
//! row count or a row, or adds 1 to the number word; where the space keeps no history it draws by a load of that word.
//! Each is one atomic step, made at a moment of the running space, and a reader may rely on what it says being so at
//! that moment. Which steps may be made is this project's own: `Allowed` of `area_guard`.
ghost use Rattle.std.specs.Prelude.{ℕ, List, true, ◌≡◌, ◌<◌, ◌≤◌, ◌+◌, ◌*◌, ◌^◌, ◌++◌, ◌∷◌, [], IsSome, Some, length, vec_len, vec_capacity};
ghost use Rattle.page_types.specs.declared.TheConstants.{LIMIT, ROWS};
ghost use Rattle.page_types.specs.Named.{IsNamedCall, IsNamedReply};
ghost use Rattle.page_types.specs.declared.pages.Span.{Span};
ghost use Rattle.space_model.specs.declared.areas.Area.{Area};
ghost use Rattle.area_guard.specs.declared.guard.Change.{Change};
ghost use Rattle.space_model.specs.declared.entries.Under.TheVariants.{Area as OverArea, Whole};
ghost use Rattle.row_plans.specs.RowWords.{row_start};
ghost use Rattle.area_rows.specs.Halving.{IsOnSameSide};
ghost use Rattle.area_guard.specs.Rows.{blocks_by, keeps_by, IsOneOf, IsInReach};
ghost use Rattle.area_guard.specs.Reads.{slots_by, IsHeldPage};
ghost use Rattle.area_guard.specs.History.{HoldsFor, IsAtRest, IsRight, Leaves, pending_of, after_row, entry_note};
ghost use Rattle.area_rows.specs.Callers.{HasSameRows, splice_of, plan_of, IsKnown, HasToWrite, HasToStore, IsReadRound, CountsWhole, IsReading};
ghost use Rattle.area_rows.specs.Layouts.{IsSeen};
ghost use Rattle.area_rows.specs.Seen.{HasMoment};
ghost use Rattle.area_rows.specs.Callers.{IsClientStep, IsLook, IsDrawn, MayNumber, Shows};

use crate::noted::{By, Noted};
use crate::space::{Caller, Space};
use crate::words::{FIRST_ROW, NUMBER, ROW_COUNT, SEQUENCE};
use area_guard::{Change, RowGuard};
use page_types::{Call, Reply};
use range_rw::Seat;
use row_blocks::Position;
use row_plans::Cut;
use space_model::{Entry, Under};
use std::marker::Brand;
use std::sync::ledger::Ledger;
use word_rows::Steps;

/// Appends an entry to the caller's own, where these are stored.
fn store(mine: &mut Vec<Entry>, keeps: bool, entry: Entry)
    requires room { keeps ≡ true → vec_len mine.old < vec_capacity mine.old }
    ensures stored { keeps ≡ true → mine.new.items ≡ mine.old.items ++ entry ∷ [] }
    ensures room { vec_capacity mine.new ≡ vec_capacity mine.old }
{
    if keeps {
        mine.push_reserved(entry);
    }
}

impl Space {
    /// Loads the row count, from 1 to `ROWS`; with it the caller notes, in what it knows alone, the layout and the
    /// words of all slots of the moment. The caller is of this space, holds a range, and has written what it has
    /// numbered.
    pub(crate) fn load_count(&self, caller: &mut Caller) -> u64
        requires table { caller.old.seat.table ≡ self.now.table }
        requires held { IsSome caller.old.seat.held }
        requires rest { IsAtRest caller.old.seat.pass }
        ensures seen { IsSeen caller.old.seat 0 result caller.new.seat }
        ensures left { caller.new.left ≡ caller.old.left }
        ensures rows { HasSameRows caller.old caller.new }
        ensures some { 0 < result }
        ensures few { result ≤ ROWS }
    {
        self.table
            .load_as_uncounted::<By<Brand>>(&mut caller.seat, ROW_COUNT)
    }

    /// Loads how many blocks are in use; with it the caller notes, in what it knows alone, the layout and the words of
    /// all slots of the moment. The caller is of this space, holds a range, and has written what it has numbered.
    pub(crate) fn load_used(&self, caller: &mut Caller) -> u32
        requires table { caller.old.seat.table ≡ self.now.table }
        requires held { IsSome caller.old.seat.held }
        requires rest { IsAtRest caller.old.seat.pass }
        ensures seen { IsSeen caller.old.seat 1 result caller.new.seat }
        ensures left { caller.new.left ≡ caller.old.left }
        ensures rows { HasSameRows caller.old caller.new }
    {
        self.table
            .load_as_uncounted::<By<Brand>>(&mut caller.seat, FIRST_ROW + 128 * self.blocks) as u32
    }

    /// Loads the body word of a block, with which the caller notes the same.
    pub(crate) fn load_told(&self, caller: &mut Caller, block: u32) -> u64
        requires table { caller.old.seat.table ≡ self.now.table }
        requires held { IsSome caller.old.seat.held }
        requires rest { IsAtRest caller.old.seat.pass }
        requires there { block < caller.old.seat.pass.blocks }
        ensures seen { IsSeen caller.old.seat (2 + block) result caller.new.seat }
        ensures left { caller.new.left ≡ caller.old.left }
        ensures rows { HasSameRows caller.old caller.new }
    {
        let told = FIRST_ROW + 1 + 128 * self.blocks;
        self.table
            .load_as_uncounted::<By<Brand>>(&mut caller.seat, told + block)
    }

    /// Loads the word of the row in a slot. The caller is of this space, holds a range, and has written what it has
    /// numbered. A row that it has read before starts on the same side of each page that it holds as it did then.
    pub(crate) fn load_row(&self, caller: &mut Caller, index: u32) -> u64
        requires table { caller.old.seat.table ≡ self.now.table }
        requires held { IsSome caller.old.seat.held }
        requires rest { IsAtRest caller.old.seat.pass }
        requires reach { IsInReach (blocks_by caller.old.seat.table) index }
        ensures step { IsClientStep caller.old.seat (3 + index) (after_row index result caller.old.seat.pass) caller.new.seat }
        ensures left { caller.new.left ≡ caller.old.left }
        ensures rows { HasSameRows caller.old caller.new }
        ensures first { index ≡ 0 → row_start result ≡ 0 }
        ensures below { IsOneOf (slots_by caller.old.seat.pass.laid) index → row_start result < LIMIT }
        ensures side { (page : ℕ) → IsHeldPage caller.old.seat.held page → IsOnSameSide caller.old.seat.pass.rows index result page }
    {
        self.table
            .load_as_uncounted::<By<Brand>>(&mut caller.seat, FIRST_ROW + index)
    }

    /// Loads the number word: how many entries the history has. The caller then has seen all of them, and what its
    /// range has shown is so of the state that they leave. The space keeps its history.
    pub fn look(&self, caller: &mut Caller) -> u64
        requires table { caller.old.seat.table ≡ self.now.table }
        requires keeps { keeps_by self.now.table ≡ true }
        ensures look { IsLook caller.old.seat result caller.new.seat }
        ensures left { caller.new.left ≡ caller.old.left }
        ensures rows { HasSameRows caller.old caller.new }
    {
        self.table
            .load_as_uncounted::<By<Brand>>(&mut caller.seat, NUMBER + 129 * self.blocks)
    }

    /// Loads the sequence word. Where the caller, which is of this space, holds a range, it is the number of the
    /// history's entries under everything, the caller's own aside where it isn't written yet; and it stays so until the
    /// caller draws a number or gives the range back. The step is made at a moment of the running space, so what the
    /// caller's range has shown is so of the state there. One step.
    pub fn sequence(&self, caller: &mut Caller) -> u64
        requires table { caller.old.seat.table ≡ self.now.table }
        ensures counts { IsSome caller.old.seat.held → CountsWhole caller.new.seat result }
        ensures moment { HasMoment caller.old.seat }
        ensures taken { caller.new.seat.trace.taken ≡ caller.old.seat.trace.taken + 1 }
        ensures reading { IsReading caller.old.seat caller.new.seat }
        ensures left { caller.new.left ≡ caller.old.left }
        ensures rows { HasSameRows caller.old caller.new }
    {
        self.table
            .load_as_uncounted::<By<Brand>>(&mut caller.seat, SEQUENCE)
    }

    /// Draws a number for the entry that the note becomes, where a call under everything has this splice to write, of
    /// the rows that the seat knows, and a call over an area this row. The call, with all that the note says of it, is
    /// an argument so that the note can be picked from it. Where the space keeps no history the number word is loaded
    /// in place of the addition, and the entry has number 0.
    fn draw_as<N: Noted>(
        &self,
        seat: &mut Seat<RowGuard>,
        draft: &Entry,
        keeps: bool,
        cut: Cut<Position>,
        more: &[u64],
        change: Option<Change>,
    ) -> u64
        requires note { N.noted ≡ entry_note draft.now (pending_of draft.now.under (splice_of seat.old cut more.now) change) }
        requires table { seat.old.table ≡ self.now.table }
        requires blocks { seat.old.pass.blocks ≡ blocks_by seat.old.table }
        requires keeps { keeps ≡ keeps_by seat.old.table }
        requires told { seat.old.pass.keeps ≡ keeps_by seat.old.table }
        requires worker { seat.old.number ≡ draft.now.worker }
        requires few { length seat.old.pass.mine + 1 ≤ seat.old.pass.most }
        requires named { IsNamedCall draft.now.call }
        requires rest { IsAtRest seat.old.pass }
        requires held { HoldsFor (keeps_by seat.old.table) seat.old.held draft.now.under }
        requires right { Shows seat.old (λ _ state. (left : List Area)
            × IsRight state draft.now.call draft.now.reply draft.now.under left
            × Leaves state draft.now.under (pending_of draft.now.under (splice_of seat.old cut more.now) change) left) }
        ensures drawn { IsDrawn seat.old (record draft.now { number = result }) (pending_of draft.now.under (splice_of seat.old cut more.now) change) seat.new }
        ensures taken { seat.new.trace.taken ≡ seat.old.trace.taken + 1 }
    {
        let place = NUMBER + 129 * self.blocks;
        if keeps {
            self.table.add_as_uncounted::<By<N>>(seat, place, 1)
        } else {
            self.table.load_as_uncounted::<By<N>>(seat, place);
            0
        }
    }

    /// The same as `number`, without a counter of steps.
    pub(crate) fn draw(
        &self,
        caller: &mut Caller,
        line: u32,
        call: Call,
        reply: Reply,
        under: Under,
    ) -> Entry
        requires table { caller.old.seat.table ≡ self.now.table }
        requires left { 0 < caller.old.left }
        requires named { IsNamedCall call }
        requires rest { IsAtRest caller.old.seat.pass }
        requires held { HoldsFor (keeps_by caller.old.seat.table) caller.old.seat.held under }
        requires right { MayNumber caller.old call reply under }
        ensures line { result.line ≡ line }
        ensures call { result.call ≡ call }
        ensures reply { result.reply ≡ reply }
        ensures under { result.under ≡ under }
        ensures named { IsNamedReply result.reply }
        ensures drawn { IsDrawn caller.old.seat result (pending_of under (plan_of caller.old) caller.old.change) caller.new.seat }
        ensures left { caller.new.left + 1 ≡ caller.old.left }
        ensures rows { HasSameRows caller.old caller.new }
        ensures write { under ≡ Whole → IsKnown caller.old → HasToWrite caller.new }
        ensures store { (span : Span) (change : Change) → under ≡ OverArea span → caller.old.change ≡ Some change
            → IsReadRound caller.old.seat change → HasToStore caller.new change }
        ensures taken { caller.new.seat.trace.taken ≡ caller.old.seat.trace.taken + 1 }
    {
        let mut entry = Entry {
            number: 0,
            worker: caller.worker,
            line,
            call,
            reply,
            under,
        };
        entry.number = self.draw_as::<Brand>(
            &mut caller.seat,
            &entry,
            caller.keeps,
            caller.cut,
            caller.plan.as_slice(),
            caller.change,
        );
        store(&mut caller.mine, caller.keeps, entry);
        caller.left -= 1;
        entry
    }

    /// Draws the next number for a call of the caller, which is of this space, has a number left, has written what it
    /// has numbered, and holds the range that `under` names. Where the space keeps no history the entry has number 0,
    /// and a page that `under` names as read may be held as a writer.
    /// At the history's state the call fits `under` and has this reply, as what the caller has read shows. Under
    /// everything the caller's last plan is of this call, was made under this held range, and nothing was numbered
    /// since; `write_plan` is to follow. Over an area the same holds of the last plan over an area, and `set_kind` or
    /// `move_start` is to follow where it has a row to change.
    /// The entry goes to the caller's own, which stores it where the history is kept, and is the last one that it has
    /// seen; what its range has shown was so of the state before it. One step.
    pub fn number<L: Ledger>(
        &self,
        caller: &mut Caller,
        line: u32,
        call: Call,
        reply: Reply,
        under: Under,
        steps: &mut Steps<L>,
    ) -> Entry
        requires table { caller.old.seat.table ≡ self.now.table }
        requires left { 0 < caller.old.left }
        requires named { IsNamedCall call }
        requires rest { IsAtRest caller.old.seat.pass }
        requires held { HoldsFor (keeps_by caller.old.seat.table) caller.old.seat.held under }
        requires right { MayNumber caller.old call reply under }
        ensures line { result.line ≡ line }
        ensures call { result.call ≡ call }
        ensures reply { result.reply ≡ reply }
        ensures under { result.under ≡ under }
        ensures named { IsNamedReply result.reply }
        ensures drawn { IsDrawn caller.old.seat result (pending_of under (plan_of caller.old) caller.old.change) caller.new.seat }
        ensures left { caller.new.left + 1 ≡ caller.old.left }
        ensures rows { HasSameRows caller.old caller.new }
        ensures write { under ≡ Whole → IsKnown caller.old → HasToWrite caller.new }
        ensures store { (span : Span) (change : Change) → under ≡ OverArea span → caller.old.change ≡ Some change
            → IsReadRound caller.old.seat change → HasToStore caller.new change }
        ensures taken { caller.new.seat.trace.taken ≡ caller.old.seat.trace.taken + 1 }
        ensures counted { steps.new ≡ steps.old + 1 }
    {
        steps.tick();
        self.draw(caller, line, call, reply, under)
    }
}
