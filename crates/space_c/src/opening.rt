//! Opening a space behind its first handle, and taking callers out of it for more handles. These are the only calls
//! that take memory. A reader may rely on each refusal naming its cause, and on nothing having changed after it.
ghost use Rattle.std.specs.Prelude.{false, ◌≡◌, ◌<◌, ◌^◌, [], IfOk, IfErr, length, replicate};
ghost use Rattle.list_cuts.specs.Cut.{IsCut, list_count};
ghost use Rattle.range_rw.specs.Contract.{IsSeatCount};
ghost use Rattle.area_guard.specs.Rows.{keeps_by};
ghost use Rattle.area_rows.specs.Callers.{AreNewCallersIn};
ghost use Rattle.c_handles.specs.Asked.{cut_into};
ghost use Rattle.space_c.specs.Behind.{IsNewBehind, IsNotCounted, IsNotOpened, IsNotShared, IsShared, IsNewOf};
ghost use Rattle.space_c.specs.declared.answers.Answer.TheVariants.{Memory};

use crate::answers::Answer;
use crate::state::State;
use area_rows::{Caller, Space, SpaceFault};
use list_cuts::Cut;
use space_model::PlainSpace;
use std::alloc::{AllocFailed, Global};
use std::sync::Arc;

/// What is behind the first handle of a new space: the caller of the highest number, and the others.
fn first_state(
    alloc: Global,
    callers: u32,
    space: Space,
    mut spare: Vec<Caller>,
) -> Result<Box<State, Global>, Answer>
    requires counted { IsSeatCount callers }
    requires shape { (space.seats ≡ callers) × (length spare.items ≡ callers) }
    requires unkept { keeps_by space.table ≡ false }
    requires new { AreNewCallersIn (list_count space.cut) space.table [] (replicate callers (2 ^ 56)) spare.items }
    ensures opened { IfOk result (λ b. IsNewBehind space.cut callers b.value) }
    ensures refused { IfErr result (λ why. why ≡ Memory) }
{
    let Some(caller) = spare.pop() else {
        unreachable!()
    };
    let Ok(space) = Arc::new(alloc, space) else {
        return Err(Answer::Memory);
    };
    let state = State {
        space,
        caller,
        spare,
    };
    match Box::new(alloc, state) {
        Ok(b) => Ok(b),
        Err(_) => Err(Answer::Memory),
    }
}

/// A new empty space of so many callers over a cut.
fn open_over(alloc: Global, callers: u32, cut: Cut) -> Result<Box<State, Global>, Answer>
    ensures opened { IfOk result (λ b. IsNewBehind cut callers b.value) }
    ensures refused { IfErr result (IsNotCounted callers) }
{
    let start = PlainSpace::new(alloc);
    match Space::open_unkept(alloc, callers, cut, &start) {
        Ok((space, spare)) => first_state(alloc, callers, space, spare),
        Err(SpaceFault::Callers(_)) => Err(Answer::Callers),
        Err(SpaceFault::Rows(_)) => unreachable!(),
        Err(SpaceFault::Memory) => Err(Answer::Memory),
    }
}

/// The same over the cut into so many regions, in blocks of 2^bits pages.
pub(crate) fn open_space(
    alloc: Global,
    callers: u32,
    regions: u32,
    bits: u32,
) -> Result<Box<State, Global>, Answer>
    ensures opened { IfOk result (λ b. IsCut regions bits × IsNewBehind (cut_into regions bits) callers b.value) }
    ensures refused { IfErr result (IsNotOpened regions bits callers) }
{
    match Cut::of(regions, bits) {
        Ok(cut) => open_over(alloc, callers, cut),
        Err(_) => Err(Answer::BadCut),
    }
}

impl State {
    /// What is behind a handle with this caller of the same space, which has none to share. Where there is no memory
    /// the caller comes back.
    fn beside(&self, alloc: Global, caller: Caller) -> Result<Box<State, Global>, Caller>
        requires new { IsNewOf self.now caller }
        ensures made { IfOk result (λ b. b.value ≡ record self.now { caller = caller; spare = 0 }) }
        ensures back { IfErr result (λ c. c ≡ caller) }
    {
        let Ok(space) = Arc::try_clone(&self.space) else {
            return Err(caller);
        };
        let state = State {
            space,
            caller,
            spare: Vec::new(alloc),
        };
        match Box::new(alloc, state) {
            Ok(b) => Ok(b),
            Err(failed) => {
                let AllocFailed { value } = failed;
                let State { caller, .. } = value;
                Err(caller)
            }
        }
    }

    /// The last of the callers that are left, with an owner of the space of its own.
    pub(crate) fn share(&mut self, alloc: Global) -> Result<Box<State, Global>, Answer>
        ensures shared { IfOk result (λ b. IsShared self.old self.new b.value) }
        ensures refused { IfErr result (λ why. IsNotShared why self.old self.new) }
    {
        let Some(caller) = self.spare.pop() else {
            return Err(Answer::NoneLeft);
        };
        match self.beside(alloc, caller) {
            Ok(b) => Ok(b),
            Err(caller) => {
                self.spare.push_reserved(caller);
                Err(Answer::Memory)
            }
        }
    }
}

/// Gives back what the caller holds, and ends it with the callers that were left to share. The last owner's end frees
/// the space.
pub(crate) fn end(b: Box<State, Global>) {
    let mut state = Box::into_inner(b);
    state.give();
}
