//! One step of the lock with a hand, for all eighteen kinds: its operation from the hand's view, one atomic operation
//! on one word, and the view afterwards. A reader may rely on the view after being that of the step's line in the step
//! table, and on a range that is given back leaving the guard's pass rested.
ghost use Rattle.std.specs.Prelude.{◌≡◌, ◌+◌, ◌<◌, ℕ};
ghost use Rattle.lock_core.specs.Words.{word_count};
ghost use Rattle.lock_core.specs.Operations.{IsOp, IsStoring};
ghost use Rattle.epoch_pools.specs.Beside.{given_back, may_give_back};
ghost use Rattle.epoch_pools.specs.Running.{Enables, MayRest, line_for, part_after, Told};
ghost use Rattle.epoch_pools.specs.Hands.{IsListStep};

use crate::hand::Hand;
use crate::list::List;
use lock_core::{Guard, Op, Step, follow, op_of};
use std::sync::ledger::Ledger;
use word_rows::Steps;

impl<G: Guard> Hand<G> {
    /// Makes one step of the lock with its operation, which is that of the hand's view.
    #[inline(always)]
    fn make_with<L: Ledger>(
        &mut self,
        list: &List<G>,
        step: Step,
        op: Op,
        steps: &mut Steps<L>,
    ) -> u64
        requires table { self.old.table ≡ list.now.table }
        requires enabled { Enables self.old.part step }
        requires rest { MayRest (may_give_back G.is_at_rest) self.old.part step }
        requires op { IsOp step (line_for self.old.part step) op }
        requires place { op.place < word_count self.old.part.seats }
        ensures table { self.new.table ≡ self.old.table }
        ensures made { self.new.part ≡ part_after (given_back G.rested) self.old.part step result }
        ensures told { Told list.now.seats self.old.part step result }
        ensures store { IsStoring step → result ≡ 0 }
        ensures counted { steps.new ≡ steps.old + 1 }
    {
        let seats = self.seats();
        let number = self.number();
        let found = list.perform(&mut self.token, step, op);
        follow(seats, number, &mut self.view, step, found);
        steps.tick();
        found
    }

    /// Makes one step of the lock, which the hand's view enables, and returns what its word was, or 0 for a store.
    #[inline(always)]
    pub(crate) fn make<L: Ledger>(
        &mut self,
        list: &List<G>,
        step: Step,
        steps: &mut Steps<L>,
    ) -> u64
        requires table { self.old.table ≡ list.now.table }
        requires enabled { Enables self.old.part step }
        requires rest { MayRest (may_give_back G.is_at_rest) self.old.part step }
        ensures table { self.new.table ≡ self.old.table }
        ensures made { self.new.part ≡ part_after (given_back G.rested) self.old.part step result }
        ensures told { Told list.now.seats self.old.part step result }
        ensures store { IsStoring step → result ≡ 0 }
        ensures counted { steps.new ≡ steps.old + 1 }
    {
        let op = op_of(self.seats(), self.number(), &self.view, step);
        self.make_with(list, step, op, steps)
    }
}

/// Makes one step on a node or the list: of the kinds FillLo, FillHi, Aim, and Walk to Settle. The hand is of this
/// list, and its view enables the step. Where a Mark or a QuickUnlink may give a held range back, the pass is at rest,
/// and it becomes `rested` where the range is given back. The view after is that of the step's line. It returns what
/// the word was, or 0 for a store. The other kinds have calls of their own.
#[inline(always)]
pub fn step<G: Guard, L: Ledger>(
    list: &List<G>,
    hand: &mut Hand<G>,
    step: Step,
    steps: &mut Steps<L>,
) -> u64
    requires table { hand.old.table ≡ list.now.table }
    requires kind { IsListStep step }
    requires enabled { Enables hand.old.part step }
    requires rest { MayRest (may_give_back G.is_at_rest) hand.old.part step }
    ensures table { hand.new.table ≡ hand.old.table }
    ensures made { hand.new.part ≡ part_after (given_back G.rested) hand.old.part step result }
    ensures told { Told list.now.seats hand.old.part step result }
    ensures store { IsStoring step → result ≡ 0 }
    ensures counted { steps.new ≡ steps.old + 1 }
{
    hand.make(list, step, steps)
}
