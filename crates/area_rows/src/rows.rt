//! The row of a page, looked for by halving, under a range that holds the page: over the heads of the blocks in use,
//! and then over the body of the block found. Each word is read by one atomic step, and none that was read is read
//! again; a reader may rely on what they show of the history's state while the range is held. Others may move rows
//! meanwhile, but none over a held page: so each row stays on the side of the page on which it was read
//! (`specs/Halving.antt`).
ghost use Rattle.std.specs.Prelude.{ℕ, ◌≡◌, ◌<◌, ◌≤◌, ◌+◌, ◌*◌, ◌/◌, ◌%◌, ◌^◌, IsSome};
ghost use Rattle.page_types.specs.declared.TheConstants.{LIMIT, SEARCH};
ghost use Rattle.page_types.specs.Named.{IsNamedOption};
ghost use Rattle.area_guard.specs.History.{IsAtRest};
ghost use Rattle.area_guard.specs.Rows.{blocks_by, IsOneOf};
ghost use Rattle.row_plans.specs.RowWords.{row_start};
ghost use Rattle.area_guard.specs.Reads.{slots_by, HasRead, IsHeldPage};
ghost use Rattle.area_rows.specs.Halving.{slots_on, IsAmong};
ghost use Rattle.area_rows.specs.Callers.{HasSameRows, IsHeldPages, IsReading, IsAsRead, RowIs, Shows};

use crate::row::Row;
use crate::space::{Caller, Space};
use page_types::LIMIT;
use row_plans::read_row;
use std::sync::ledger::Ledger;
use word_rows::Steps;

/// What halving comes to: a place, the word that was read of its row, unless it is the first place, and where the row
/// behind it starts.
#[derive(Clone, Copy)]
struct Halved {
    place: u32,
    word: u64,
    end: u64,
}

/// 1 where a row starts at or before a page, and else 0. The top bit of a difference says which, so that the processor
/// need not guess: of a comparison the compiler makes a jump.
#[inline(always)]
fn starts_up_to(start: u64, page: u64) -> u64
    requires start { start < 2 ^ 63 }
    requires page { page < 2 ^ 63 }
    ensures upper { start ≤ page → result ≡ 1 }
    ensures lower { page < start → result ≡ 0 }
{
    ((1 << 63) + page - start) >> 63
}

/// One of two numbers: the first one for 0, and the second one for 1.
#[inline(always)]
fn pick(bit: u64, zero: u64, one: u64) -> u64
    requires bit { bit ≤ 1 }
    ensures zero { bit ≡ 0 → result ≡ zero }
    ensures one { bit ≡ 1 → result ≡ one }
{
    zero.wrapping_add(one.wrapping_sub(zero).wrapping_mul(bit))
}

impl Space {
    /// The last of so many rows in slots one behind the other that starts at or before a page. The first one does, and
    /// isn't read; `last` is where what is behind all of them starts. Each step reads the middle one of those that are
    /// left.
    fn halve<L: Ledger>(
        &self,
        caller: &mut Caller,
        page: u64,
        from: u32,
        count: u32,
        last: u64,
        steps: &mut Steps<L>,
    ) -> Halved
        requires table { caller.old.seat.table ≡ self.now.table }
        requires held { IsHeldPage caller.old.seat.held page }
        requires rest { IsAtRest caller.old.seat.pass }
        requires low { page < LIMIT }
        requires some { 0 < count }
        requires room { from + count ≤ 128 * blocks_by caller.old.seat.table }
        requires there { (place : ℕ) → 0 < place → place < count → IsOneOf (slots_by caller.old.seat.pass.laid) (from + place) }
        requires limit { last ≤ LIMIT }
        ensures found { IsAmong caller.new.seat.pass.rows page count last (slots_on from) result.place 1 result.word result.end }
        ensures limit { result.end ≤ LIMIT }
        ensures reading { IsReading caller.old.seat caller.new.seat }
        ensures laid { caller.new.seat.pass.laid ≡ caller.old.seat.pass.laid }
        ensures left { caller.new.left ≡ caller.old.left }
        ensures rows { HasSameRows caller.old caller.new }
        ensures bound { (m : ℕ) → count ≤ 2 ^ m → caller.new.seat.trace.taken ≤ caller.old.seat.trace.taken + m }
        ensures counted { steps.new + caller.old.seat.trace.taken ≡ steps.old + caller.new.seat.trace.taken }
    {
        let mut base = 0;
        let mut size = count;
        let mut word = 0;
        let mut end = last;
        'halve: while size > 1 {
            let half = size / 2;
            steps.tick();
            let read = self.load_row(caller, from + (base + half));
            let (start, _) = read_row(read);
            let up = starts_up_to(start, page);
            base += (half as u64 * up) as u32;
            word = pick(up, word, read);
            end = pick(up, start, end);
            size -= half;
        }
        Halved {
            place: base,
            word,
            end,
        }
    }

    /// The word of the row at the place that both searches have come to, over the heads and in a body. Each search has
    /// read it, unless it came to its first place; so only the first row of all is still to be read.
    fn word_of<L: Ledger>(
        &self,
        caller: &mut Caller,
        heads: Halved,
        found: Halved,
        steps: &mut Steps<L>,
    ) -> u64
        requires table { caller.old.seat.table ≡ self.now.table }
        requires held { IsSome caller.old.seat.held }
        requires rest { IsAtRest caller.old.seat.pass }
        requires some { 0 < blocks_by caller.old.seat.table }
        ensures body { 0 < found.place → result ≡ found.word }
        ensures head { found.place ≡ 0 → 0 < heads.place → result ≡ heads.word }
        ensures first { found.place ≡ 0 → heads.place ≡ 0 → HasRead caller.new.seat.pass.rows 0 result × (row_start result ≡ 0) }
        ensures reading { IsReading caller.old.seat caller.new.seat }
        ensures left { caller.new.left ≡ caller.old.left }
        ensures rows { HasSameRows caller.old caller.new }
        ensures bound { caller.new.seat.trace.taken ≤ caller.old.seat.trace.taken + 1 }
        ensures none { 0 < heads.place → caller.new.seat.trace.taken ≡ caller.old.seat.trace.taken }
        ensures counted { steps.new + caller.old.seat.trace.taken ≡ steps.old + caller.new.seat.trace.taken }
    {
        if found.place > 0 {
            return found.word;
        }
        if heads.place > 0 {
            return heads.word;
        }
        steps.tick();
        self.load_row(caller, 0)
    }

    /// The row of a page that the caller holds; the caller is of this space and has written what it has numbered. It is
    /// looked for by halving, in at most `SEARCH + 3` steps: one reads how many blocks are in use, at most 11 each read
    /// a head, one reads where the body of the block is, and at most 7 each read a row of it. In the first block, which
    /// has at most 64 rows, these are at most 6, and its head is read where it is the row. All of them are counted
    /// since the caller's last draw.
    /// `lo` and `hi` are as they were read. Where the caller holds a page past each of them, or up to 0 and `LIMIT`,
    /// as a writer, they are the row's own.
    pub fn row_of<L: Ledger>(&self, caller: &mut Caller, page: u64, steps: &mut Steps<L>) -> Row
        requires table { caller.old.seat.table ≡ self.now.table }
        requires held { IsHeldPage caller.old.seat.held page }
        requires rest { IsAtRest caller.old.seat.pass }
        ensures from { result.lo ≤ page }
        ensures until { page < result.hi }
        ensures limit { result.hi ≤ LIMIT }
        ensures named { IsNamedOption result.kind }
        ensures read { IsAsRead caller.new.seat.pass result }
        ensures shows { Shows caller.new.seat (RowIs caller.old.seat.held page result) }
        ensures reading { IsReading caller.old.seat caller.new.seat }
        ensures left { caller.new.left ≡ caller.old.left }
        ensures rows { HasSameRows caller.old caller.new }
        ensures bound { caller.new.seat.trace.taken ≤ caller.old.seat.trace.taken + (SEARCH + 3) }
        ensures counted { steps.new + caller.old.seat.trace.taken ≡ steps.old + caller.new.seat.trace.taken }
    {
        caller.holds_pages();
        steps.tick();
        let used = self.load_used(caller);
        let heads = self.halve(caller, page, 0, used, LIMIT, steps);
        steps.tick();
        let told = self.load_told(caller, heads.place);
        let body = self.blocks + 127 * (told / 128 % 2048) as u32;
        let rows = (told % 128) as u32;
        let found = self.halve(caller, page, body - 1, rows + 1, heads.end, steps);
        let word = self.word_of(caller, heads, found, steps);
        let (lo, kind) = read_row(word);
        Row {
            index: 128 * heads.place + found.place,
            lo,
            hi: found.end,
            kind,
        }
    }
}
