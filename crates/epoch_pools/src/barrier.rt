//! Taking a node. The first ready node is taken; where there is none, the hand reads the home words of its used nodes,
//! and where one came home the epochs of the other seats, until the nodes that came home are ready or it is known what
//! hinders them. That nobody reaches a node that is ready or the own node of a hand is a law of the running rule
//! (`keeps_no_reuse`). The barrier is this project's own profile, after the epochs of Fraser 2004.
ghost use Rattle.std.specs.Prelude.{◌≡◌, ◌≢◌, ◌⊎◌, ℕ, ◌+◌, ◌*◌, ◌<◌, ◌≤◌, not, false, true, List, [], None, Some, is_some, length};
ghost use Rattle.view_lists.specs.Counted.{is_empty, are_others_passed};
ghost use Rattle.lock_core.specs.Views.{is_passed, note_of};
ghost use Rattle.epoch_pools.specs.Hands.{IsHandView};
ghost use Rattle.epoch_pools.specs.Taking.{IsFree, IsPoolCall, IsLooking, IsHomeKnown, IsEpochLook};
ghost use Rattle.epoch_pools.specs.Taking.{IsBarred, IsFirstInside, IsInside, IsRefill, TakesFirst, IsTaken};

use crate::hand::Hand;
use crate::list::List;
use crate::looks::begin_anew;
use crate::stuck::{Stuck, Taken};
use lock_core::{Guard, NODES, Step, View, follow};
use std::sync::ledger::Ledger;
use word_rows::Steps;

/// The first other seat that isn't passed, with the epoch that is noted of it.
fn first_inside(view: &View, seats: u32, number: u32) -> (u32, u64)
    requires passed { length view.now.passed ≡ seats }
    requires notes { length view.now.notes ≡ seats }
    requires barred { are_others_passed number view.now.passed ≡ false }
    requires noted { (k : ℕ) → k < seats → k ≢ number → is_passed view.now k ≡ false → is_some (note_of view.now k) ≡ true }
    ensures { IsFirstInside view.now seats number result.0 result.1 }
{
    'seats: for seat in 0..seats {
        if seat == number || view.passed.at(seat) {
            continue;
        }
        let Some(epoch) = view.notes.at(seat) else {
            unreachable!()
        };
        return (seat, epoch);
    }
    unreachable!()
}

impl<G: Guard> Hand<G> {
    /// Whether a node is ready.
    #[inline(always)]
    fn has_ready(&self) -> bool
        ensures some { result ≡ not (is_empty self.now.part.core.ready) }
        ensures sound { IsHandView self.now.part }
    {
        !self.view().ready.is_empty()
    }

    /// Whether a node that came home waits for the barrier.
    fn has_homes(&self) -> bool
        ensures some { result ≡ not (is_empty self.now.part.core.homes) }
        ensures sound { IsHandView self.now.part }
    {
        !self.view().homes.is_empty()
    }

    /// The lowest of the hand's sixteen nodes.
    fn first_node(&self) -> u32
        ensures first { result ≡ 16 * self.now.part.number }
        ensures small { result ≤ 240 }
        ensures there { self.now.part.number < self.now.part.seats }
    {
        NODES * self.token.number
    }

    /// Takes the first ready node.
    #[inline(always)]
    fn take_ready<L: Ledger>(&mut self, list: &List<G>, steps: &mut Steps<L>) -> u32
        requires table { self.old.table ≡ list.now.table }
        requires free { IsFree self.old.part.core }
        requires ready { self.old.part.core.ready ≢ [] }
        ensures table { self.new.table ≡ self.old.table }
        ensures call { IsPoolCall self.old.part self.new.part }
        ensures first { TakesFirst self.old.part self.new.part result }
        ensures taken { self.new.part.trace.taken ≡ self.old.part.trace.taken + 1 }
        ensures counted { steps.new ≡ steps.old + 1 }
    {
        let Some(node) = self.view().ready.first() else {
            unreachable!()
        };
        self.make(list, Step::ClearHome { node }, steps);
        node
    }

    /// Looks at the home words of all used nodes, the lowest node first. Where the hand is alone, those that came home
    /// are ready.
    fn look_homes<L: Ledger>(&mut self, list: &List<G>, steps: &mut Steps<L>)
        requires table { self.old.table ≡ list.now.table }
        requires free { IsFree self.old.part.core }
        ensures table { self.new.table ≡ self.old.table }
        ensures on { IsLooking self.old.part self.new.part }
        ensures known { (x : ℕ) → 16 * self.old.part.number ≤ x → x < 16 * self.old.part.number + 16 → IsHomeKnown self.old.part self.new.part x }
        ensures taken { self.new.part.trace.taken ≤ self.old.part.trace.taken + 16 }
        ensures counted { steps.new + self.old.part.trace.taken ≡ steps.old + self.new.part.trace.taken }
    {
        let seats = self.token.seats;
        let Hand { token, view, .. } = self;
        let view: &mut View = view;
        let came = list.read_homes(token, view.used.as_slice(), &mut view.homes, steps);
        if came {
            begin_anew(view, seats);
        }
    }

    /// Reads the epoch of another seat, while nodes wait for the barrier.
    #[inline(always)]
    fn look_epoch<L: Ledger>(&mut self, list: &List<G>, other: u32, steps: &mut Steps<L>)
        requires table { self.old.table ≡ list.now.table }
        requires free { IsFree self.old.part.core }
        requires homes { self.old.part.core.homes ≢ [] }
        requires there { other < self.old.part.seats }
        requires other { other ≢ self.old.part.number }
        ensures table { self.new.table ≡ self.old.table }
        ensures on { IsLooking self.old.part self.new.part }
        ensures looked { IsEpochLook self.old.part self.new.part other }
        ensures taken { self.new.part.trace.taken ≡ self.old.part.trace.taken + 1 }
        ensures counted { steps.new ≡ steps.old + 1 }
    {
        let seats = self.token.seats;
        let number = self.token.number;
        let found = list.read_epoch(&mut self.token, other);
        follow(
            seats,
            number,
            &mut self.view,
            Step::ReadEpoch { seat: other },
            found,
        );
        steps.tick();
    }

    /// Looks at the epochs of the other seats, the lowest seat first, until the nodes that wait are ready.
    fn look_epochs<L: Ledger>(&mut self, list: &List<G>, steps: &mut Steps<L>)
        requires table { self.old.table ≡ list.now.table }
        requires free { IsFree self.old.part.core }
        requires empty { self.old.part.core.ready ≡ [] }
        requires homes { self.old.part.core.homes ≢ [] }
        requires many { 1 < self.old.part.seats }
        ensures table { self.new.table ≡ self.old.table }
        ensures on { IsLooking self.old.part self.new.part }
        ensures barred { self.new.part.core.ready ≡ [] → IsBarred self.old.part self.new.part }
        ensures taken { self.new.part.trace.taken ≤ self.old.part.trace.taken + self.old.part.seats }
        ensures counted { steps.new + self.old.part.trace.taken ≡ steps.old + self.new.part.trace.taken }
    {
        'seats: for other in 0..self.seats() {
            if other == self.number() {
                continue;
            }
            self.look_epoch(list, other, steps);
            if self.has_ready() {
                return;
            }
        }
    }

    /// Says which seat hinders the nodes that wait.
    fn held_up(&self) -> Stuck
        requires barred { are_others_passed self.now.part.number self.now.part.core.passed ≡ false }
        requires noted { (k : ℕ) → k < self.now.part.seats → k ≢ self.now.part.number → is_passed self.now.part.core k ≡ false
            → is_some (note_of self.now.part.core k) ≡ true }
        ensures { IsInside self.now.part result }
    {
        let (seat, epoch) = first_inside(self.view(), self.seats(), self.number());
        Stuck::Inside { seat, epoch }
    }

    /// Makes used nodes ready, or says what hinders it.
    fn refill<L: Ledger>(&mut self, list: &List<G>, steps: &mut Steps<L>) -> Option<Stuck>
        requires table { self.old.table ≡ list.now.table }
        requires free { IsFree self.old.part.core }
        requires empty { self.old.part.core.ready ≡ [] }
        ensures table { self.new.table ≡ self.old.table }
        ensures on { IsLooking self.old.part self.new.part }
        ensures sound { IsHandView self.new.part }
        ensures filled { IsRefill self.old.part self.new.part result }
        ensures taken { self.new.part.trace.taken ≤ self.old.part.trace.taken + 16 + self.old.part.seats }
        ensures counted { steps.new + self.old.part.trace.taken ≡ steps.old + self.new.part.trace.taken }
    {
        let lowest = self.first_node();
        self.look_homes(list, steps);
        if self.has_ready() {
            return None;
        }
        if !self.has_homes() {
            return Some(Stuck::Away { node: lowest });
        }
        self.look_epochs(list, steps);
        if self.has_ready() {
            return None;
        }
        Some(self.held_up())
    }
}

/// Takes a node for the hand, outside an operation: the first ready one, or the first that the barrier makes ready.
/// Otherwise it says why there is none. It makes at most 17 steps and one more for each seat.
#[inline(always)]
pub fn take<G: Guard, L: Ledger>(list: &List<G>, hand: &mut Hand<G>, steps: &mut Steps<L>) -> Taken
    requires table { hand.old.table ≡ list.now.table }
    requires free { IsFree hand.old.part.core }
    ensures table { hand.new.table ≡ hand.old.table }
    ensures call { IsPoolCall hand.old.part hand.new.part }
    ensures outside { hand.new.part.core.cursor ≡ None }
    ensures cause { IsTaken hand.old.part hand.new.part result }
    ensures taken { hand.new.part.trace.taken ≤ hand.old.part.trace.taken + 17 + hand.old.part.seats }
    ensures counted { steps.new + hand.old.part.trace.taken ≡ steps.old + hand.new.part.trace.taken }
{
    if !hand.has_ready() {
        if let Some(stuck) = hand.refill(list, steps) {
            return Taken::Out(stuck);
        }
    }
    Taken::Node(hand.take_ready(list, steps))
}
