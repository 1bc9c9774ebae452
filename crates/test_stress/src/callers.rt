//! The callers of one running address space make drawn calls on the same pages, each on a thread of its own. A reader
//! may rely on each caller having made as many calls as were asked for, or as many as it had numbers for.
ghost use Rattle.std.specs.Prelude.{true, ◌≡◌, ◌<◌, None};
ghost use Rattle.page_types.specs.Named.{IsNamedCall};
ghost use Rattle.area_rows.specs.Rows.{keeps_by};
ghost use Rattle.area_rows.specs.Called.{IsAnswered};
ghost use Rattle.test_crews.specs.Crews.{HasCalled, HaveCalled, IsCrew, IsIdleAgain};

use crate::calls::draw_call;
use crate::counts::Tries;
use crate::draws::below;
use area_protect::{Protected, make_protect, protect_beside};
use area_rows::{Answer, Caller, Space};
use page_fault::{TriedFault, fault, try_fault};
use page_types::{Access, Call};
use rand_pcg::Pcg32;
use std::marker::Brand;
use std::sync::ledger::{Blank, Ledger};
use std::sync::{Mutex, Wait};
use std::thread;
use std::thread::Threads;
use test_crews::make_call;
use word_rows::Steps;

/// A fault that is tried once, and made by the call that waits where the page wasn't got.
fn try_counting<L: Ledger, R: Wait>(
    rt: &R,
    space: &Space,
    caller: &mut Caller,
    line: u32,
    addr: u64,
    access: Access,
    tries: &mut Tries,
    blank: Blank,
)
    requires blank { (blank.name ≡ L.name) × (blank.parts ≡ L.parts) × (0 < L.parts) }
    requires table { caller.old.seat.table ≡ space.now.table }
    requires free { caller.old.seat.held ≡ None }
    ensures back { IsIdleAgain caller.old caller.new }
    ensures called { HasCalled 1 caller.old caller.new }
{
    let mut steps = Steps::<L>::new(blank);
    match try_fault(space, caller, line, addr, access, &mut steps) {
        TriedFault::Answered(_) => tries.count_held(),
        TriedFault::Spent => {}
        TriedFault::NotHeld(refusal) => {
            tries.count_refused(&refusal);
            fault(space, rt, caller, line, addr, access);
        }
    }
}

/// One call of a caller, by the function that the call is for: a change of protection that tells its way where that is
/// asked for, which only a space can that keeps its history.
fn make_drawn<R: Wait>(
    rt: &R,
    space: &Space,
    caller: &mut Caller,
    told: bool,
    line: u32,
    call: Call,
) -> Answer
    requires table { caller.old.seat.table ≡ space.now.table }
    requires free { caller.old.seat.held ≡ None }
    requires told { told ≡ true → keeps_by space.now.table ≡ true }
    requires named { IsNamedCall call }
    ensures answer { IsAnswered caller.old line call result caller.new }
{
    let Call::Protect { addr, len, prot } = call else {
        return make_call(rt, space, caller, line, call);
    };
    if !told {
        return protect_beside(space, rt, caller, line, addr, len, prot);
    }
    match make_protect(space, rt, caller, line, call) {
        Protected::Given { entry, .. } => Answer::Given(entry),
        Protected::Spent => Answer::Spent,
    }
}

/// One call of a caller, which is tried first where it is a fault and that is asked for.
fn take_turn<R: Wait>(
    rt: &R,
    space: &Space,
    caller: &mut Caller,
    told: bool,
    line: u32,
    call: Call,
    tried: bool,
    tries: &mut Tries,
)
    requires table { caller.old.seat.table ≡ space.now.table }
    requires free { caller.old.seat.held ≡ None }
    requires told { told ≡ true → keeps_by space.now.table ≡ true }
    requires named { IsNamedCall call }
    ensures back { IsIdleAgain caller.old caller.new }
    ensures called { HasCalled 1 caller.old caller.new }
{
    match call {
        Call::Fault { addr, access } if tried => {
            let blank = Blank::new(1);
            try_counting::<Brand, R>(rt, space, caller, line, addr, access, tries, blank);
        }
        _ => {
            make_drawn(rt, space, caller, told, line, call);
        }
    }
}

/// So many drawn calls of a caller, for the lines from 1 on. Of the faults one in two is tried first.
fn make_calls<R: Wait>(
    rt: &R,
    space: &Space,
    caller: &mut Caller,
    told: bool,
    draws: &mut Pcg32,
    calls: u32,
    tries: &mut Tries,
)
    requires table { caller.old.seat.table ≡ space.now.table }
    requires free { caller.old.seat.held ≡ None }
    requires told { told ≡ true → keeps_by space.now.table ≡ true }
    ensures back { IsIdleAgain caller.old caller.new }
    ensures called { HasCalled calls caller.old caller.new }
{
    for turn in 0..calls {
        let call = draw_call(draws);
        let tried = below(draws, 2) == 0;
        take_turn(rt, space, caller, told, turn + 1, call, tried, tries);
    }
}

/// A caller's calls, which add what its tries came to. Its number is the stream of its draws.
fn play_caller<R: Wait>(
    rt: &R,
    space: &Space,
    caller: &mut Caller,
    told: bool,
    seed: u64,
    calls: u32,
    total: &Mutex<Tries>,
)
    requires table { caller.old.seat.table ≡ space.now.table }
    requires free { caller.old.seat.held ≡ None }
    requires told { told ≡ true → keeps_by space.now.table ≡ true }
    ensures back { IsIdleAgain caller.old caller.new }
    ensures called { HasCalled calls caller.old caller.new }
{
    let mut draws = Pcg32::new(seed, u64::from(caller.worker()));
    let mut tries = Tries::none();
    make_calls(rt, space, caller, told, &mut draws, calls, &mut tries);
    let mut total = total.lock(rt);
    *total = total.plus(tries);
}

/// Each caller of a crew makes so many calls, on a thread of its own. Changes of protection tell their way where that
/// is asked for.
pub fn call_all<R: Threads + Wait + Sync>(
    rt: &R,
    space: &Space,
    callers: &mut [Caller],
    told: bool,
    seed: u64,
    calls: u32,
    total: &Mutex<Tries>,
)
    requires crew { IsCrew space.now.table space.now.seats callers.old }
    requires told { told ≡ true → keeps_by space.now.table ≡ true }
    ensures crew { IsCrew space.now.table space.now.seats callers.new }
    ensures called { HaveCalled calls callers.old callers.new }
{
    let turn = |_: usize, caller: &mut Caller|
        requires { (caller.now.seat.table ≡ space.now.table) × (caller.now.seat.held ≡ None)
            × (told ≡ true → keeps_by space.now.table ≡ true) }
        ensures { IsIdleAgain caller.entry.now caller.exit.now × HasCalled calls caller.entry.now caller.exit.now }
    { play_caller(rt, space, caller, told, seed, calls, total) };
    thread::for_each_mut(rt, callers, 16, &turn);
}
