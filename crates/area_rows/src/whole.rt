//! Calls as one piece. One that its arguments decide draws its number and holds nothing. One under everything holds all
//! pages, plans the rows that it leaves, draws its number, writes them and gives the pages back: the change of an
//! address space that mmap(2), munmap(2), brk(2) and mremap(2) make under their lock. A reader may rely on `IsCalled`
//! (`specs/Called.antt`), the one clause of all calls that give an entry.
ghost use Rattle.std.specs.Prelude.{◌≡◌, ◌<◌, ◌+◌, Some, None};
ghost use Rattle.page_types.specs.declared.calls.Reply.TheVariants.{Refused};
ghost use Rattle.page_types.specs.declared.calls.Why.{Why};
ghost use Rattle.page_types.specs.Named.{IsNamedCall};
ghost use Rattle.page_types.specs.PlainReply.{plain_reply};
ghost use Rattle.space_model.specs.declared.entries.Under.TheVariants.{Whole};
ghost use Rattle.row_plans.specs.RowLists.{areas_from};
ghost use Rattle.row_plans.specs.Plans.{spliced, IsPlan, LeavesRows};
ghost use Rattle.row_plans.specs.Loads.{TakesLoads};
ghost use Rattle.range_rw.specs.Contract.{AsksFor};
ghost use Rattle.area_guard.specs.Reads.{everything, known_rows, known_words};
ghost use Rattle.area_guard.specs.Rows.{blocks_by};
ghost use Rattle.page_types.specs.Classes.{IsFault};
ghost use Rattle.area_guard.specs.History.{IsAtRest};
ghost use Rattle.plan_words.specs.Places.{number_at};
ghost use Rattle.area_rows.specs.Callers.{HasPlanned, IsKnown, IsReading, MayPlan, place_loads};
ghost use Rattle.area_rows.specs.Called.{AsksAtCall, IsAnswered, IsCalled, EndsAtOnce, EndsSoon, TakesSteps};

use crate::answer::Answer;
use crate::space::{Caller, Space};
use lock_core::Mode;
use page_types::{Call, LIMIT, Reply, Span, plain};
use plan_words::{HeldRows, HeldWords};
use row_plans::plan_rows;
use space_model::{Entry, Under};
use std::sync::Wait;

impl Caller {
    /// Plans a call, on the rows as they stand.
    fn plan_call(&mut self, space: &Space, count: u32, call: &Call) -> (Reply, u32)
        requires may { MayPlan space.now.table count self.old.seat }
        requires named { IsNamedCall call.now }
        ensures reading { IsReading self.old.seat self.new.seat }
        ensures left { self.new.left ≡ self.old.left }
        ensures known { IsKnown self.new }
        ensures plan { IsPlan call.now result.0 result.1 (spliced (λ at. number_at self.new.seat.pass at) (known_rows self.new.seat.pass)
            self.new.cut self.new.more) (areas_from (known_rows self.new.seat.pass)) }
        ensures leaves { (why : Why) → result.0 ≡ Refused why → LeavesRows self.new.cut self.new.more }
        ensures loads { TakesLoads (known_rows self.new.seat.pass) (place_loads self.new.seat.pass.blocks (known_words self.new.seat.pass)) call.now
            self.old.seat.trace.taken self.new.seat.trace.taken }
    {
        let rows = HeldRows {
            words: HeldWords {
                table: &space.table,
                blocks: space.blocks as usize,
            },
            count,
        };
        let planned = plan_rows(&rows, &mut self.seat, call, &mut self.plan);
        self.count = count;
        self.cut = planned.cut;
        (planned.reply, planned.rows)
    }
}

impl Space {
    /// Plans a call that is no fault, by the rows as they stand: its reply, and how many rows it leaves. The splice
    /// that it makes of them goes into the caller's own room. The caller is of this space, holds everything as a
    /// writer, and has written what it has numbered. The plan is right until the caller draws a number or gives the
    /// range back. That of a refused call leaves the rows as they are: none goes and none comes, so `write_plan` takes
    /// one step. It takes no memory. The row count is one load, and a call that its arguments decide takes no more.
    /// Another one searches the pages that it names, once or twice, by at most 24 loads a search and four for each row
    /// that starts among them; one that looks for a place takes one load for each block in use and 277 more; and a
    /// change takes 25 loads and six for each row among its pages.
    pub fn plan(&self, caller: &mut Caller, call: &Call) -> (Reply, u32)
        requires table { caller.old.seat.table ≡ self.now.table }
        requires held { caller.old.seat.held ≡ Some everything }
        requires rest { IsAtRest caller.old.seat.pass }
        requires call { ¬ IsFault call.now }
        requires named { IsNamedCall call.now }
        ensures planned { HasPlanned call.now result.0 result.1 caller.new }
        ensures refused { (why : Why) → result.0 ≡ Refused why
            → spliced (λ at. number_at caller.new.seat.pass at) (known_rows caller.new.seat.pass) caller.new.cut caller.new.more
            ≡ known_rows caller.new.seat.pass }
        ensures leaves { (why : Why) → result.0 ≡ Refused why → LeavesRows caller.new.cut caller.new.more }
        ensures reading { IsReading caller.old.seat caller.new.seat }
        ensures left { caller.new.left ≡ caller.old.left }
        ensures blocks { caller.new.seat.pass.blocks ≡ blocks_by self.now.table }
        ensures loads { TakesLoads (known_rows caller.new.seat.pass) (place_loads caller.new.seat.pass.blocks (known_words caller.new.seat.pass))
            call.now (caller.old.seat.trace.taken + 1) caller.new.seat.trace.taken }
    {
        let count = self.load_count(caller) as u32;
        caller.plan_call(self, count, call)
    }

    /// Makes a call whose arguments decide it: it draws its number, in one step, and holds nothing. The caller is of
    /// this space, holds nothing and has a number left; `line` is the line of the input that names the call, counted
    /// from 1.
    pub fn call_plain(&self, caller: &mut Caller, line: u32, call: Call, reply: Reply) -> Entry
        requires table { caller.old.seat.table ≡ self.now.table }
        requires free { caller.old.seat.held ≡ None }
        requires left { 0 < caller.old.left }
        requires named { IsNamedCall call }
        requires decided { plain_reply call ≡ Some reply }
        ensures called { IsCalled caller.old line call result caller.new }
        ensures asked { caller.new.seat.trace.asked ≡ caller.old.seat.trace.asked }
        ensures taken { caller.new.seat.trace.taken ≡ caller.old.seat.trace.taken + 1 }
        ensures since { caller.new.seat.pass.since ≡ 0 }
        ensures took { caller.new.seat.pass.took ≡ caller.old.seat.pass.since }
        ensures pools { caller.new.seat.pools ≡ caller.old.seat.pools }
        ensures further { caller.new.seat.further ≡ caller.old.seat.further }
    {
        caller.holds_pages();
        self.draw(caller, line, call, reply, Under::Nothing)
    }

    /// Makes a call under everything, one that is no fault and that its arguments don't decide. It waits until the
    /// caller holds all pages, plans the call, draws its number, writes what it leaves, and gives the pages back. The
    /// caller is of this space, holds nothing and has a number left; `line` is the line of the input that names the
    /// call, counted from 1. Up to the draw it makes no more steps on client words than one plan of the call loads on
    /// the rows that there are, and one. Behind the draw it makes at most three for each row that there was and for
    /// four more, 16 for each block that the space has room for, and 2362 more; one where the call is refused. Then one
    /// step or two give the pages back.
    pub fn call_whole<R: Wait>(&self, wait: &R, caller: &mut Caller, line: u32, call: Call) -> Entry
        requires table { caller.old.seat.table ≡ self.now.table }
        requires free { caller.old.seat.held ≡ None }
        requires left { 0 < caller.old.left }
        requires call { ¬ IsFault call }
        requires named { IsNamedCall call }
        requires undecided { plain_reply call ≡ None }
        ensures called { IsCalled caller.old line call result caller.new }
        ensures under { result.under ≡ Whole }
        ensures asks { AsksFor everything caller.old.seat.trace.asked caller.new.seat.trace.asked }
        ensures looks { caller.new.seat.pass.looks ≡ caller.old.seat.pass.looks }
        ensures soon { EndsSoon caller.old.seat result caller.new.seat }
    {
        let all = Span { lo: 0, hi: LIMIT };
        self.acquire(wait, caller, all, Mode::Writer);
        let entry = self.call_held(caller, line, call);
        self.release_uncounted(caller);
        entry
    }

    /// The same by a caller that holds all pages as a writer, which it has got by `acquire` or `try_acquire`, and goes
    /// on holding; it has nothing to write before and afterwards. So what the call has changed can be made to stand
    /// elsewhere, as in a page table, before another caller sees any page. It waits for nobody. Its steps are bounded
    /// as those of `call_whole`, and the last of them raises the sequence word.
    pub fn call_held(&self, caller: &mut Caller, line: u32, call: Call) -> Entry
        requires table { caller.old.seat.table ≡ self.now.table }
        requires held { caller.old.seat.held ≡ Some everything }
        requires rest { IsAtRest caller.old.seat.pass }
        requires left { 0 < caller.old.left }
        requires call { ¬ IsFault call }
        requires named { IsNamedCall call }
        requires undecided { plain_reply call ≡ None }
        ensures called { IsCalled (record caller.old { seat = record caller.old.seat { held = None } }) line call result
            (record caller.new { seat = record caller.new.seat { held = None } }) }
        ensures under { result.under ≡ Whole }
        ensures held { caller.new.seat.held ≡ Some everything }
        ensures asked { caller.new.seat.trace.asked ≡ caller.old.seat.trace.asked }
        ensures looks { caller.new.seat.pass.looks ≡ caller.old.seat.pass.looks }
        ensures soon { EndsSoon caller.old.seat result caller.new.seat }
        ensures last { EndsAtOnce caller.new.seat }
    {
        let (reply, _) = self.plan(caller, &call);
        let entry = self.draw(caller, line, call, reply, Under::Whole);
        self.write_plan(caller);
        entry
    }

    /// The same, once the caller, which holds nothing and has a number left, has waited until it holds all pages. It
    /// goes on holding them until `release`.
    pub fn hold_call<R: Wait>(&self, wait: &R, caller: &mut Caller, line: u32, call: Call) -> Entry
        requires table { caller.old.seat.table ≡ self.now.table }
        requires free { caller.old.seat.held ≡ None }
        requires left { 0 < caller.old.left }
        requires call { ¬ IsFault call }
        requires named { IsNamedCall call }
        requires undecided { plain_reply call ≡ None }
        ensures called { IsCalled caller.old line call result (record caller.new { seat = record caller.new.seat { held = None } }) }
        ensures under { result.under ≡ Whole }
        ensures held { caller.new.seat.held ≡ Some everything }
        ensures asks { AsksFor everything caller.old.seat.trace.asked caller.new.seat.trace.asked }
        ensures looks { caller.new.seat.pass.looks ≡ caller.old.seat.pass.looks }
        ensures soon { EndsSoon caller.old.seat result caller.new.seat }
        ensures last { EndsAtOnce caller.new.seat }
    {
        let all = Span { lo: 0, hi: LIMIT };
        self.acquire(wait, caller, all, Mode::Writer);
        self.call_held(caller, line, call)
    }

    /// Makes a call that is no fault, such as a Map or a Remap; a Protect holds all pages then. The caller is of this
    /// space and holds nothing, and the call has named bits alone; `line` is the line of the input that names it,
    /// counted from 1. It waits until the caller holds all pages, and asks for no other range; a call that its
    /// arguments decide holds nothing. From the hold on its steps are bounded as those of `call_whole`; a call that its
    /// arguments decide takes one. `Spent` comes exactly where the caller has no number left, and nothing has changed
    /// then.
    pub fn call<R: Wait>(&self, wait: &R, caller: &mut Caller, line: u32, call: Call) -> Answer
        requires table { caller.old.seat.table ≡ self.now.table }
        requires free { caller.old.seat.held ≡ None }
        requires call { ¬ IsFault call }
        requires named { IsNamedCall call }
        ensures answer { IsAnswered caller.old line call result caller.new }
        ensures steps { TakesSteps caller.old.seat call result caller.new.seat }
        ensures asks { AsksAtCall call result caller.old.seat.trace.asked caller.new.seat.trace.asked }
    {
        if caller.left() == 0 {
            return Answer::Spent;
        }
        match plain(&call) {
            Some(reply) => Answer::Given(self.call_plain(caller, line, call, reply)),
            None => Answer::Given(self.call_whole(wait, caller, line, call)),
        }
    }
}
