//! A scan of the lists through a borrowed seat: it gives the nodes of list 0, then those of the next list, and so on,
//! of ranges that are held or asked for, and unlinks marked ones on its way. It keeps its seat inside an epoch of the
//! list where it is, until it is ended. A reader may rely on a node that is given having been unmarked at a step of the
//! call that gives it, and on no list being left out: the seat's record has a walk of each list that the scan passed,
//! from the list's head to its end. Kogan, Dice and Issa 2020.
ghost use Rattle.std.specs.Prelude.{◌≡◌, ◌<◌, ◌≤◌, ◌+◌, ◌-◌, ◌*◌, Some, None, IfSome, IfNone, true, ◌∷◌};
ghost use Rattle.epoch_pools.specs.declared.record.Looked.{Looked};
ghost use Rattle.list_cuts.specs.Cut.{list_count};
ghost use Rattle.marked_list.specs.declared.answers.Passed.TheVariants.{End as ListEnd, Long as TooLong};
ghost use Rattle.marked_list.specs.Answers.{IsAtEnd};
ghost use Rattle.marked_list.specs.Walking.{seen_of};
ghost use Rattle.range_rw.specs.Calls.{IsHandOf, Leaves};
ghost use Rattle.range_rw.specs.Contract.{OpenScan};
ghost use Rattle.range_rw.specs.Seats.{seat_state_of};
ghost use Rattle.range_rw.specs.Scan.{scanned_as, IsNext, IsScanLater, OpensEpoch};
ghost use Rattle.range_rw.specs.Scan.{ListGives, IsNoEnd, IsNextIn, IsPassed, IsInScan, StaysInScan};

use crate::several::lists_of;
use crate::table::{RangeTable, Seat};
use crate::trying::leave_epoch;
use epoch_pools::{Hand, List, enter, leave};
use lock_core::{Guard, Mode, Range};
use marked_list::{Passed, pass};
use std::marker::Brand;
use std::sync::ledger::{Blank, Ledger};
use word_rows::Steps;

/// What one call of a scan came to.
#[derive(Clone, Copy, Debug, PartialEq, Eq)]
pub enum Scanned {
    /// The scan went past this node, which was unmarked at a step of this call. Its range may be held or asked for.
    Found {
        /// The number of the seat whose node it is.
        owner: u32,
        /// The range of the node.
        range: Range,
        /// The mode of the node.
        mode: Mode,
    },
    /// The end of the last list was read, and this call went past no node.
    End,
    /// An exchange of this call on the word at `place` of the scan's list found `found` where it expected `expected`.
    /// The next call begins at the head of that list with a new count, and may give a node of it a second time.
    Again {
        place: u32,
        expected: u64,
        found: u64,
    },
    /// The walk in the scan's list has looked at as many nodes as one may, 16 for each seat and one more, and this call
    /// went past none.
    Long {
        visits: u32,
    },
}

/// A scan of a table's lists, which keeps its seat inside an epoch. It must be spent by `end`.
pub struct Scan<'a, G: Guard> {
    seat: &'a mut Seat<G>,
    table: &'a RangeTable<G>,
}

fn answer_of(passed: Passed) -> Scanned
    ensures { result ≡ scanned_as passed }
{
    match passed {
        Passed::Found { owner, range, mode } => Scanned::Found { owner, range, mode },
        Passed::End => Scanned::End,
        Passed::Lost(lost) => Scanned::Again {
            place: lost.place,
            expected: lost.expected,
            found: lost.found,
        },
        Passed::Long { visits } => Scanned::Long { visits },
    }
}

/// Leaves the hand's epoch, turns it to the next list, and enters an epoch there: two steps. The hand's cursor stands
/// at the end of the list that it leaves.
fn next_list<G: Guard, L: Ledger>(list: &List<G>, hand: &mut Hand<G>, steps: &mut Steps<L>)
    requires inside { IsHandOf IsInScan list.now hand.old }
    requires end { IsAtEnd hand.old.part.core.cursor }
    requires more { hand.old.part.pass.list + 1 < hand.old.part.pass.lists }
    ensures inside { Leaves (OpensEpoch (hand.old.part.pass.list + 1)) hand.old hand.new steps.old steps.new }
    ensures taken { hand.new.part.trace.taken ≡ hand.old.part.trace.taken + 2 }
    ensures looked { hand.new.part.trace.looked ≡ hand.old.part.trace.looked }
    ensures walks { (walk : Looked) → hand.old.part.trace.looked ≡ Some walk → hand.new.part.trace.walks ≡ walk ∷ hand.old.part.trace.walks }
{
    let _ = hand.lists();
    let next = hand.list() + 1;
    leave(list, hand, steps);
    hand.turn(next);
    enter(list, hand, steps);
}

/// Goes on past at most one node in the list to which the hand is turned.
fn pass_here<G: Guard, L: Ledger>(
    list: &List<G>,
    hand: &mut Hand<G>,
    steps: &mut Steps<L>,
) -> Passed
    requires inside { IsHandOf IsInScan list.now hand.old }
    ensures later { Leaves StaysInScan hand.old hand.new steps.old steps.new }
    ensures list { hand.new.part.pass.list ≡ hand.old.part.pass.list }
    ensures gives { (was : OpenScan) → (seat_state_of hand.old).scan ≡ Some was
        → ListGives (hand.new.part.pass.list + 1 ≡ hand.new.part.pass.lists) (seat_state_of hand.old) (seat_state_of hand.new) was result }
    ensures end { result ≡ ListEnd → IsAtEnd hand.new.part.core.cursor }
    ensures ended { IsAtEnd hand.old.part.core.cursor → (hand.new.part ≡ hand.old.part) × (result ≡ ListEnd) }
    ensures spent { seen_of hand.old.part.core.cursor ≡ 16 * hand.old.part.seats + 1
        → (hand.new.part ≡ hand.old.part) × (result ≡ TooLong (16 * hand.old.part.seats + 1)) }
    ensures bound { hand.new.part.trace.taken ≤ hand.old.part.trace.taken + 2 + 3 * (16 * hand.old.part.seats + 1) }
{
    let _ = hand.view();
    let _ = hand.list();
    let passed = pass(list, hand, steps);
    let _ = hand.view();
    passed
}

/// The answer of a list, but for its end.
fn unless_end(passed: Passed) -> Option<Passed>
    ensures end { IfNone result (passed ≡ ListEnd) }
    ensures other { IfSome result (λ a. (a ≡ passed) × IsNoEnd a) }
{
    match passed {
        Passed::Found { owner, range, mode } => Some(Passed::Found { owner, range, mode }),
        Passed::End => None,
        Passed::Lost(lost) => Some(Passed::Lost(lost)),
        Passed::Long { visits } => Some(Passed::Long { visits }),
    }
}

/// Goes on past at most one node in a list behind which there is another. None where the end was read and no node
/// passed: the hand is inside its epoch in the next list then.
fn pass_or_turn<G: Guard, L: Ledger>(
    list: &List<G>,
    hand: &mut Hand<G>,
    steps: &mut Steps<L>,
) -> Option<Passed>
    requires inside { IsHandOf IsInScan list.now hand.old }
    requires more { hand.old.part.pass.list + 1 < hand.old.part.pass.lists }
    ensures later { Leaves StaysInScan hand.old hand.new steps.old steps.new }
    ensures passed { IfNone result ((was : OpenScan) → (seat_state_of hand.old).scan ≡ Some was
        → IsPassed (seat_state_of hand.old) (seat_state_of hand.new) was) }
    ensures turned { IfNone result (hand.new.part.pass.list ≡ hand.old.part.pass.list + 1) }
    ensures gives { IfSome result (λ a. (was : OpenScan) → (seat_state_of hand.old).scan ≡ Some was
        → IsNextIn (seat_state_of hand.old) (seat_state_of hand.new) was (scanned_as a)) }
    ensures spent { seen_of hand.old.part.core.cursor ≡ 16 * hand.old.part.seats + 1
        → (hand.new.part ≡ hand.old.part) × (result ≡ Some (TooLong (16 * hand.old.part.seats + 1))) }
    ensures bound { hand.new.part.trace.taken ≤ hand.old.part.trace.taken + 4 + 3 * (16 * hand.old.part.seats + 1) }
    ensures few { IfSome result (λ a. hand.new.part.trace.taken ≤ hand.old.part.trace.taken + 2 + 3 * (16 * hand.old.part.seats + 1)) }
{
    match unless_end(pass_here(list, hand, steps)) {
        Some(answer) => Some(answer),
        None => {
            next_list(list, hand, steps);
            None
        }
    }
}

/// Goes on past at most one node, in the list to which the hand is turned or in the first one behind it where one is
/// left. There are so many lists.
fn pass_on<G: Guard, L: Ledger>(
    list: &List<G>,
    hand: &mut Hand<G>,
    lists: u32,
    steps: &mut Steps<L>,
) -> Passed
    requires inside { IsHandOf IsInScan list.now hand.old }
    requires lists { (lists ≡ hand.old.part.pass.lists) × (lists ≡ list_count list.now.cut) }
    ensures later { Leaves IsScanLater hand.old hand.new steps.old steps.new }
    ensures next { (was : OpenScan) → (seat_state_of hand.old).scan ≡ Some was
        → IsNext (seat_state_of hand.old) (seat_state_of hand.new) was (scanned_as result) }
    ensures ended { (was : OpenScan) → (seat_state_of hand.old).scan ≡ Some was → was.ended ≡ true
        → (hand.new.part ≡ hand.old.part) × (result ≡ ListEnd) }
    ensures spent { (was : OpenScan) → (seat_state_of hand.old).scan ≡ Some was → was.nodes ≡ was.most
        → (hand.new.part ≡ hand.old.part) × (result ≡ TooLong was.most) }
    ensures bound { hand.new.part.trace.taken ≤ hand.old.part.trace.taken + 2 + 3 * (16 * hand.old.part.seats + 1)
        + (4 + 3 * (16 * hand.old.part.seats + 1)) * (list_count list.now.cut - 1 - hand.old.part.pass.list) }
{
    'all: while hand.list() + 1 < lists {
        if let Some(answer) = pass_or_turn(list, hand, steps) {
            return answer;
        }
    }
    pass_here(list, hand, steps)
}

impl<G: Guard> RangeTable<G> {
    ghost use Rattle.std.specs.Prelude.{◌≡◌, ◌<◌, ◌≤◌, ◌+◌, ◌*◌, Some, None, true, IsSome};
    ghost use Rattle.range_rw.specs.declared.scan.Scanned.TheVariants.{End, Long};
    ghost use Rattle.range_rw.specs.Contract.{OpenScan, fresh_scan, scan_steps};
    ghost use Rattle.range_rw.specs.Scan.{IsScanCall, IsNext};

    /// The first call of a scan by a layer above that borrows the seat anew for each call: it enters an epoch of the
    /// seat in list 0. The seat is of this table and holds nothing. `scan` makes the same steps.
    pub fn begin_scan<L: Ledger>(&self, seat: &mut Seat<G>, blank: Blank)
        requires blank { (blank.name ≡ L.name) × (blank.parts ≡ L.parts) × (0 < L.parts) }
        requires table { seat.old.table ≡ self.now.table }
        requires free { seat.old.held ≡ None }
        ensures call { IsScanCall seat.old seat.new }
        ensures begun { seat.new.scan ≡ Some (fresh_scan (16 * self.now.seats + 1)) }
        ensures bound { seat.new.trace.taken ≤ seat.old.trace.taken + 2 }
    {
        let mut steps = Steps::<L>::new(blank);
        leave_epoch(&self.list, &mut seat.hand, &mut steps);
        let _ = seat.hand.view();
        seat.hand.turn(0);
        enter(&self.list, &mut seat.hand, &mut steps);
    }

    /// The last call of such a scan: the seat leaves its epoch. `Scan::end` makes the same steps.
    pub fn end_scan<L: Ledger>(&self, seat: &mut Seat<G>, blank: Blank)
        requires blank { (blank.name ≡ L.name) × (blank.parts ≡ L.parts) × (0 < L.parts) }
        requires table { seat.old.table ≡ self.now.table }
        requires free { seat.old.held ≡ None }
        ensures call { IsScanCall seat.old seat.new }
        ensures ended { seat.new.scan ≡ None }
        ensures bound { seat.new.trace.taken ≤ seat.old.trace.taken + 1 }
    {
        let mut steps = Steps::<L>::new(blank);
        leave_epoch(&self.list, &mut seat.hand, &mut steps);
        let _ = seat.hand.view();
    }

    /// A call of such a scan between the two. It answers as `Scan::next`, and makes the same steps.
    pub fn scan_next<L: Ledger>(&self, seat: &mut Seat<G>, blank: Blank) -> Scanned
        requires blank { (blank.name ≡ L.name) × (blank.parts ≡ L.parts) × (0 < L.parts) }
        requires table { seat.old.table ≡ self.now.table }
        requires free { seat.old.held ≡ None }
        requires inside { IsSome seat.old.scan }
        ensures call { IsScanCall seat.old seat.new }
        ensures next { (was : OpenScan) → seat.old.scan ≡ Some was → IsNext seat.old seat.new was result }
        ensures ended { (was : OpenScan) → seat.old.scan ≡ Some was → was.ended ≡ true → (seat.new ≡ seat.old) × (result ≡ End) }
        ensures spent { (was : OpenScan) → seat.old.scan ≡ Some was → was.nodes ≡ was.most → (seat.new ≡ seat.old) × (result ≡ Long was.most) }
        ensures bound { (was : OpenScan) → seat.old.scan ≡ Some was → seat.new.trace.taken ≤ seat.old.trace.taken + scan_steps self.now was }
    {
        let mut steps = Steps::<L>::new(blank);
        let lists = lists_of(&self.list, &mut seat.hand, &mut steps);
        answer_of(pass_on(&self.list, &mut seat.hand, lists, &mut steps))
    }

    /// Begins a scan of the lists, inside an epoch of the seat in list 0. The seat is of this table and holds nothing;
    /// it is borrowed until the scan is ended. The walk begins at the head of list 0, with the first call of `next`.
    /// While the scan is open no node of another seat that came home is ready again. So a thread that tries for ranges
    /// with another seat meanwhile may be without a node, `NoNode`, at every try until it ends the scan, and its
    /// `acquire` may wait for ever.
    pub fn scan<'a>(&'a self, seat: &'a mut Seat<G>) -> Scan<'a, G>
        requires table { seat.old.table ≡ self.now.table }
        requires free { seat.old.held ≡ None }
        ensures same_reference { result.seat.ghost_name ≡ seat.entry.ghost_name }
        ensures table { result.table.now ≡ self.now }
        ensures call { IsScanCall seat.old result.seat.now }
        ensures begun { result.seat.now.scan ≡ Some (fresh_scan (16 * self.now.seats + 1)) }
        ensures bound { result.seat.now.trace.taken ≤ seat.old.trace.taken + 2 }
    {
        self.begin_scan::<Brand>(seat, Blank::new(1));
        Scan { seat, table: self }
    }
}

impl<'a, G: Guard> Scan<'a, G> {
    ghost use Rattle.std.specs.Prelude.{◌≡◌, ◌≤◌, ◌+◌, ◌*◌, Some, None, true, IsSome};
    ghost use Rattle.range_rw.specs.declared.scan.Scanned.TheVariants.{End, Long};
    ghost use Rattle.range_rw.specs.Contract.{OpenScan, scan_steps};
    ghost use Rattle.range_rw.specs.Scan.{IsScanCall, IsNext};

    /// Goes on to the next node, past at most one that isn't marked. Where no node is left in the scan's list, and it
    /// isn't the last one, this call goes on in the list behind it, with a walk of its own. The end of the list that it
    /// leaves was read then by the walk that stood there, at a step of this call or before it; the record keeps that
    /// walk, so no list is left out.
    /// `Found` comes exactly where this call went past a node, which was unmarked at a step of this call. `End` comes
    /// exactly where the end of the last list was read and this call went past no node, and `Long` where the walk in
    /// the scan's list has looked at 16 nodes for each seat and one more and this call went past none. After `End` or
    /// `Long` each further call gives the same answer and makes no step. `Again` is an exchange of this call that found
    /// another value than it expected; the next call begins at the head of that list with a new count, and may give a
    /// node of it a second time. No other call begins anew: after `Found`, `End` and `Long` the walk is the one that
    /// had begun in that list before the call, if one had. A range may stand in two lists, from the second link of
    /// its try until that node is given back, and may be held already then; so it may be given in both. No clause says
    /// that a scan gives each range that is held, or gives it once.
    pub fn next(&mut self) -> Scanned
        requires table { self.old.seat.now.table ≡ self.old.table.now.table }
        requires free { self.old.seat.now.held ≡ None }
        requires inside { IsSome self.old.seat.now.scan }
        ensures same_reference { self.new.seat.ghost_name ≡ self.old.seat.ghost_name }
        ensures table { self.new.table.now ≡ self.old.table.now }
        ensures call { IsScanCall self.old.seat.now self.new.seat.now }
        ensures next { (was : OpenScan) → self.old.seat.now.scan ≡ Some was → IsNext self.old.seat.now self.new.seat.now was result }
        ensures ended { (was : OpenScan) → self.old.seat.now.scan ≡ Some was → was.ended ≡ true → (self.new.seat.now ≡ self.old.seat.now) × (result ≡ End) }
        ensures spent { (was : OpenScan) → self.old.seat.now.scan ≡ Some was → was.nodes ≡ was.most
            → (self.new.seat.now ≡ self.old.seat.now) × (result ≡ Long was.most) }
        ensures bound { (was : OpenScan) → self.old.seat.now.scan ≡ Some was
            → self.new.seat.now.trace.taken ≤ self.old.seat.now.trace.taken + scan_steps self.old.table.now was }
    {
        let table = self.table;
        let seat = &mut *self.seat;
        table.scan_next::<Brand>(seat, Blank::new(1))
    }

    /// Ends the scan: the seat leaves its epoch, and is its owner's again.
    pub fn end(self)
        requires table { self.seat.now.table ≡ self.table.now.table }
        requires free { self.seat.now.held ≡ None }
        ensures call { IsScanCall self.entry.seat.now self.exit.0.now }
        ensures ended { self.exit.0.now.scan ≡ None }
        ensures bound { self.exit.0.now.trace.taken ≤ self.entry.seat.now.trace.taken + 1 }
    {
        let Scan { seat, table } = self;
        table.end_scan::<Brand>(seat, Blank::new(1));
    }
}
