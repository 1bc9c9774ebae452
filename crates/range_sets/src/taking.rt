//! Taking several ranges, all or none, and giving them back. The seat of each place tries once to hold the want of that
//! place; the first refusal ends the call, and the ranges before it are given back. A reader may rely on the cause of a
//! refusal being that of one try of `range_rw`, and on a set at rest staying so.
ghost use Rattle.std.specs.Prelude.{◌≡◌, ℕ, ◌+◌, ◌*◌, ◌<◌, ◌≤◌, ◌-◌, ◌∷◌, [], Some, None, All, IfErr, IfOk, OnOk, OnErr, IsSome, length, map, take};
ghost use Rattle.range_rw.specs.Contract.{AsksOnly, IsCause, IsLockCall, IsRelease, StandsIn, TellsList, pass_in};
ghost use Rattle.range_rw.specs.Several.{TakesAlone};
ghost use Rattle.range_sets.specs.Wants.{NoClash, want_held};
ghost use Rattle.range_sets.specs.Sets.{AllFree, AllRest, AreHeld, AsksEach, EachIs, IsLetGo, IsReleasedIfHeld, IsCauseAt, TriesTake, passes_after, taken_by};
ghost use Rattle.range_sets.specs.Sets.{KeepsEach, KeepsFor, KeepsUpTo, StandEach, StaysOutside, TellsAt};
ghost use Rattle.range_sets.specs.Taking.{AreGranted, IsOneTry, IsRefusedAt};

use crate::set::{Place, SetSeat};
use crate::wants::Want;
use lock_core::Guard;
use range_rw::{NotHeld, RangeTable};
use std::marker::Brand;
use std::sync::ledger::{Blank, Ledger};
use thiserror::Error;
use word_rows::Steps;

/// A set wasn't granted.
#[derive(Debug, Drop, PartialEq, Eq, Error)]
#[error("want {index}: {why}")]
pub struct SetRefused {
    /// The place of the want whose try was refused, counted from 0.
    pub index: u32,
    /// Why that try was refused.
    pub why: NotHeld,
}

impl<G: Guard> Place<G> {
    /// Tries once to hold a want. The seat holds nothing and its pass is at rest, which it is afterwards too. The
    /// refusal is that of the first of some wants.
    fn take<L: Ledger>(
        &mut self,
        table: &RangeTable<G>,
        want: Want,
        steps: &mut Steps<L>,
    ) -> Result<(), SetRefused>
        requires table { self.old.table ≡ table.now.table }
        requires free { self.old.held ≡ None }
        requires rest { G.is_at_rest self.old.pass }
        ensures call { IsLockCall self.old self.new }
        ensures asks { AsksOnly (want_held want) self.old.trace.asked self.new.trace.asked }
        ensures at_rest { G.is_at_rest self.new.pass }
        ensures held { OnOk result (self.new.held ≡ Some (want_held want)) }
        ensures free { OnErr result (self.new.held ≡ None) }
        ensures first { IfErr result (λ r. r.index ≡ 0) }
        ensures cause { IfErr result (λ r. IsCause self.old self.new (want_held want) r.why) }
        ensures stands { OnOk result (StandsIn table.now.cut want.range self.new.list) }
        ensures told { IfErr result (λ r. TellsList table.now.cut want.range r.why) }
        ensures outside { self.new.scan ≡ None }
        ensures keeps { KeepsFor table.now.cut want self.old self.new }
        ensures each { IsOneTry table.now want self.old self.new }
        ensures counted { steps.new + self.old.trace.taken ≡ steps.old + self.new.trace.taken }
    {
        match table.try_acquire(&mut self.seat, want.range, want.mode, steps) {
            Ok(()) => {
                self.want = Some(want);
                Ok(())
            }
            Err(why) => Err(SetRefused { index: 0, why }),
        }
    }

    /// Gives back what the seat holds.
    fn give<L: Ledger>(&mut self, table: &RangeTable<G>, steps: &mut Steps<L>)
        requires table { self.old.table ≡ table.now.table }
        requires holds { IsSome self.old.held }
        requires rest { G.is_at_rest self.old.pass }
        ensures release { IsRelease G.rested self.old self.new }
        ensures at_rest { G.is_at_rest self.new.pass }
        ensures counted { steps.new + self.old.trace.taken ≡ steps.old + self.new.trace.taken }
    {
        table.release(&mut self.seat, steps);
        self.want = None;
    }

    /// Gives back what the seat holds, since one of the wants behind was refused: that refusal, told from this seat's
    /// own want on.
    fn give_for<L: Ledger>(
        &mut self,
        table: &RangeTable<G>,
        behind: SetRefused,
        steps: &mut Steps<L>,
    ) -> SetRefused
        requires table { self.old.table ≡ table.now.table }
        requires holds { IsSome self.old.held }
        requires rest { G.is_at_rest self.old.pass }
        requires few { behind.index < 3 }
        ensures release { IsRelease G.rested self.old self.new }
        ensures at_rest { G.is_at_rest self.new.pass }
        ensures index { result.index ≡ behind.index + 1 }
        ensures why { result.why ≡ behind.why }
        ensures counted { steps.new + self.old.trace.taken ≡ steps.old + self.new.trace.taken }
    {
        let index = behind.index + 1;
        self.give(table, steps);
        SetRefused {
            index,
            why: behind.why,
        }
    }

    /// Gives back what the seat holds, if it holds anything.
    fn give_if_held<L: Ledger>(&mut self, table: &RangeTable<G>, steps: &mut Steps<L>)
        requires table { self.old.table ≡ table.now.table }
        requires rest { G.is_at_rest self.old.pass }
        ensures table { self.new.table ≡ self.old.table }
        ensures at_rest { G.is_at_rest self.new.pass }
        ensures released { IsReleasedIfHeld G.rested self.old self.new }
    {
        if self.want.is_some() {
            self.give(table, steps);
        }
    }
}

/// Tries to hold these wants, one at most, with the last seat.
fn try_last<G: Guard, L: Ledger>(
    table: &RangeTable<G>,
    d: &mut Place<G>,
    wants: &[Want],
    steps: &mut Steps<L>,
) -> Result<(), SetRefused>
    requires table { d.old.table ≡ table.now.table }
    requires few { length wants.now ≤ 1 }
    requires free { d.old.held ≡ None }
    requires rest { G.is_at_rest d.old.pass }
    ensures table { d.new.table ≡ d.old.table }
    ensures at_rest { G.is_at_rest d.new.pass }
    ensures granted { OnOk result (AreGranted table.now wants.now (d.old ∷ []) (d.new ∷ [])) }
    ensures refused { IfErr result (λ r. IsRefusedAt table.now G.rested wants.now (d.old ∷ []) (d.new ∷ []) r.index r.why) }
    ensures few { IfErr result (λ r. r.index < 1) }
    ensures counted { steps.new + d.old.trace.taken ≡ steps.old + d.new.trace.taken }
{
    let Some((want, _)) = wants.split_first() else {
        return Ok(());
    };
    d.take(table, *want, steps)
}

/// Tries to hold these wants, two at most, with the last two seats; none of them is held where one is refused.
fn try_two<G: Guard, L: Ledger>(
    table: &RangeTable<G>,
    c: &mut Place<G>,
    d: &mut Place<G>,
    wants: &[Want],
    steps: &mut Steps<L>,
) -> Result<(), SetRefused>
    requires table { (c.old.table ≡ table.now.table) × (d.old.table ≡ table.now.table) }
    requires few { length wants.now ≤ 2 }
    requires free { (c.old.held ≡ None) × (d.old.held ≡ None) }
    requires rest { G.is_at_rest c.old.pass × G.is_at_rest d.old.pass }
    ensures table { (c.new.table ≡ c.old.table) × (d.new.table ≡ d.old.table) }
    ensures at_rest { G.is_at_rest c.new.pass × G.is_at_rest d.new.pass }
    ensures granted { OnOk result (AreGranted table.now wants.now (c.old ∷ d.old ∷ []) (c.new ∷ d.new ∷ [])) }
    ensures refused { IfErr result (λ r. IsRefusedAt table.now G.rested wants.now (c.old ∷ d.old ∷ []) (c.new ∷ d.new ∷ []) r.index r.why) }
    ensures few { IfErr result (λ r. r.index < 2) }
    ensures counted { steps.new + taken_by (c.old ∷ d.old ∷ []) ≡ steps.old + taken_by (c.new ∷ d.new ∷ []) }
{
    let Some((want, behind)) = wants.split_first() else {
        return Ok(());
    };
    if let Err(refused) = c.take(table, *want, steps) {
        return Err(refused);
    }
    if let Err(refused) = try_last(table, d, behind, steps) {
        return Err(c.give_for(table, refused, steps));
    }
    Ok(())
}

/// Tries to hold these wants, three at most, with the last three seats; none of them is held where one is refused.
fn try_three<G: Guard, L: Ledger>(
    table: &RangeTable<G>,
    b: &mut Place<G>,
    c: &mut Place<G>,
    d: &mut Place<G>,
    wants: &[Want],
    steps: &mut Steps<L>,
) -> Result<(), SetRefused>
    requires table { (b.old.table ≡ table.now.table) × (c.old.table ≡ table.now.table) × (d.old.table ≡ table.now.table) }
    requires few { length wants.now ≤ 3 }
    requires free { (b.old.held ≡ None) × (c.old.held ≡ None) × (d.old.held ≡ None) }
    requires rest { G.is_at_rest b.old.pass × G.is_at_rest c.old.pass × G.is_at_rest d.old.pass }
    ensures table { (b.new.table ≡ b.old.table) × (c.new.table ≡ c.old.table) × (d.new.table ≡ d.old.table) }
    ensures at_rest { G.is_at_rest b.new.pass × G.is_at_rest c.new.pass × G.is_at_rest d.new.pass }
    ensures granted { OnOk result (AreGranted table.now wants.now (b.old ∷ c.old ∷ d.old ∷ []) (b.new ∷ c.new ∷ d.new ∷ [])) }
    ensures refused { IfErr result (λ r. IsRefusedAt table.now G.rested wants.now (b.old ∷ c.old ∷ d.old ∷ [])
        (b.new ∷ c.new ∷ d.new ∷ []) r.index r.why) }
    ensures few { IfErr result (λ r. r.index < 3) }
    ensures counted { steps.new + taken_by (b.old ∷ c.old ∷ d.old ∷ []) ≡ steps.old + taken_by (b.new ∷ c.new ∷ d.new ∷ []) }
{
    let Some((want, behind)) = wants.split_first() else {
        return Ok(());
    };
    if let Err(refused) = b.take(table, *want, steps) {
        return Err(refused);
    }
    if let Err(refused) = try_two(table, c, d, behind, steps) {
        return Err(b.give_for(table, refused, steps));
    }
    Ok(())
}

/// Tries to hold these wants, from one to four, with all seats; none of them is held where one is refused.
fn try_four<G: Guard, L: Ledger>(
    table: &RangeTable<G>,
    set: &mut SetSeat<G>,
    wants: &[Want],
    steps: &mut Steps<L>,
) -> Result<(), SetRefused>
    requires table { set.old.table ≡ table.now.table }
    requires four { length wants.now ≤ 4 }
    requires free { AllFree set.old.seats }
    requires rest { AllRest G.is_at_rest set.old.seats }
    ensures four { length set.old.seats ≡ 4 }
    ensures table { set.new.table ≡ set.old.table }
    ensures at_rest { AllRest G.is_at_rest set.new.seats }
    ensures granted { OnOk result (AreGranted table.now wants.now set.old.seats set.new.seats) }
    ensures refused { IfErr result (λ r. IsRefusedAt table.now G.rested wants.now set.old.seats set.new.seats r.index r.why) }
    ensures counted { steps.new + taken_by set.old.seats ≡ steps.old + taken_by set.new.seats }
{
    let SetSeat { a, b, c, d } = set;
    let Some((want, behind)) = wants.split_first() else {
        return Ok(());
    };
    if let Err(refused) = a.take(table, *want, steps) {
        return Err(refused);
    }
    if let Err(refused) = try_three(table, b, c, d, behind, steps) {
        return Err(a.give_for(table, refused, steps));
    }
    Ok(())
}

/// Holds all of these ranges, or none of them: the seat of each place, in order, tries once to hold the want of that
/// place, and waits for nobody. From 1 to 4 wants, of which no two conflict (`clash` tells); the set is of this table
/// and holds nothing, and its passes are at rest.
/// `SetRefused` says which want's try was refused, and why; the ranges before it have then been given back, and seats
/// behind it made no step. Each seat asks for the want of its place alone, and works in list 0 and in the lists that
/// this takes; afterwards it has no open scan if it had none before.
/// A try makes at most 64 steps and 386 for each seat of the table where its range takes one list, as every range does
/// in a table of one, and for each further list 55 and 193 for each seat more; giving a range back makes one or two,
/// and `steps` counts both.
pub fn try_set<G: Guard, L: Ledger>(
    table: &RangeTable<G>,
    set: &mut SetSeat<G>,
    wants: &[Want],
    steps: &mut Steps<L>,
) -> Result<(), SetRefused>
    requires table { set.old.table ≡ table.now.table }
    requires some { 0 < length wants.now }
    requires four { length wants.now ≤ 4 }
    requires apart { NoClash wants.now }
    requires free { AllFree set.old.seats }
    requires rest { AllRest G.is_at_rest set.old.seats }
    ensures table { set.new.table ≡ set.old.table }
    ensures held { OnOk result (AreHeld wants.now set.new.seats) }
    ensures calls { OnOk result (EachIs IsLockCall set.old.seats set.new.seats) }
    ensures some { OnOk result (¬ (AllFree set.new.seats)) }
    ensures free { OnErr result (AllFree set.new.seats) }
    ensures at_rest { AllRest G.is_at_rest set.new.seats }
    ensures asks { AsksEach wants.now set.old.seats set.new.seats }
    ensures let_go { OnErr result (EachIs IsLetGo set.old.seats set.new.seats) }
    ensures passes { IfErr result (λ r. map pass_in set.new.seats ≡ passes_after G.rested r.index set.old.seats) }
    ensures cause { IfErr result (λ r. IsCauseAt set.old.seats set.new.seats wants.now r.index r.why) }
    ensures stands { OnOk result (StandEach table.now.cut wants.now set.new.seats) }
    ensures only { OnOk result (KeepsEach table.now.cut wants.now set.old.seats set.new.seats) }
    ensures told { IfErr result (λ r. TellsAt table.now.cut wants.now r.index r.why) }
    ensures outside { EachIs StaysOutside set.old.seats set.new.seats }
    ensures refused_only { IfErr result (λ r. KeepsUpTo table.now.cut wants.now r.index set.old.seats set.new.seats) }
    ensures bound { All (λ w. TakesAlone table.now.cut w.range) wants.now
        → OnOk result (taken_by set.new.seats ≤ taken_by set.old.seats + length wants.now * (64 + 386 * table.now.seats)) }
    ensures each { OnOk result ((n : ℕ) → TriesTake table.now wants.now n → taken_by set.new.seats ≤ taken_by set.old.seats + n) }
    ensures refused_bound { All (λ w. TakesAlone table.now.cut w.range) wants.now
        → IfErr result (λ r. taken_by set.new.seats ≤ taken_by set.old.seats + (r.index + 1) * (64 + 386 * table.now.seats) + 2 * r.index) }
    ensures refused_each { IfErr result (λ r. (n : ℕ) → TriesTake table.now (take (r.index + 1) wants.now) n
        → taken_by set.new.seats ≤ taken_by set.old.seats + n + 2 * r.index) }
    ensures counted { steps.new + taken_by set.old.seats ≡ steps.old + taken_by set.new.seats }
{
    try_four(table, set, wants, steps)
}

/// Gives back all that the set holds, with a counter made of that blank.
fn release_with<G: Guard, L: Ledger>(table: &RangeTable<G>, set: &mut SetSeat<G>, blank: Blank)
    requires blank { (blank.name ≡ L.name) × (blank.parts ≡ L.parts) × (0 < L.parts) }
    requires table { set.old.table ≡ table.now.table }
    requires rest { AllRest G.is_at_rest set.old.seats }
    ensures table { set.new.table ≡ set.old.table }
    ensures free { AllFree set.new.seats }
    ensures at_rest { AllRest G.is_at_rest set.new.seats }
    ensures released { EachIs (IsReleasedIfHeld G.rested) set.old.seats set.new.seats }
{
    let mut steps = Steps::<L>::new(blank);
    set.a.give_if_held(table, &mut steps);
    set.b.give_if_held(table, &mut steps);
    set.c.give_if_held(table, &mut steps);
    set.d.give_if_held(table, &mut steps);
}

/// Gives back all that the set holds, in one step or two for each range. The set is of this table and holds something,
/// and its passes are at rest. It has no refusal.
pub fn release_set<G: Guard>(table: &RangeTable<G>, set: &mut SetSeat<G>)
    requires table { set.old.table ≡ table.now.table }
    requires some { ¬ (AllFree set.old.seats) }
    requires rest { AllRest G.is_at_rest set.old.seats }
    ensures table { set.new.table ≡ set.old.table }
    ensures free { AllFree set.new.seats }
    ensures at_rest { AllRest G.is_at_rest set.new.seats }
    ensures released { EachIs (IsReleasedIfHeld G.rested) set.old.seats set.new.seats }
{
    release_with::<G, Brand>(table, set, Blank::new(1));
}
