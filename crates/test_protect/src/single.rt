//! One change of a protection by a caller, and by the first one of a crew, on a space that keeps its history or
//! doesn't. A reader may rely on its answer being that of the call's contract, and on the other callers being as they
//! were. It stands apart, since all else here is read with the tests alone.
ghost use Rattle.std.specs.Prelude.{true, ◌≡◌, None, drop};
ghost use Rattle.page_types.specs.declared.calls.Call.TheVariants.{Protect};
ghost use Rattle.page_types.specs.Named.{IsNamedCall};
ghost use Rattle.area_rows.specs.Rows.{keeps_by};
ghost use Rattle.area_rows.specs.Called.{IsAnswered};
ghost use Rattle.test_crews.specs.Crews.{IsCrew, OfCaller};

use area_protect::{Path, Protected, protect, protect_beside};
use area_rows::{Answer, Caller, Space};
use page_types::Prot;
use std::sync::Wait;

/// A caller changes a protection. Its way is told where that is asked for, which only a space can that keeps its
/// history.
pub fn change<R: Wait>(
    rt: &R,
    space: &Space,
    caller: &mut Caller,
    told: bool,
    line: u32,
    addr: u64,
    len: u64,
    prot: Prot,
) -> (Answer, Option<Path>)
    requires table { caller.old.seat.table ≡ space.now.table }
    requires free { caller.old.seat.held ≡ None }
    requires told { told ≡ true → keeps_by space.now.table ≡ true }
    requires named { IsNamedCall (Protect addr len prot) }
    ensures answer { IsAnswered caller.old line (Protect addr len prot) result.0 caller.new }
{
    if !told {
        let answer = protect_beside(space, rt, caller, line, addr, len, prot);
        return (answer, None);
    }
    match protect(space, rt, caller, line, addr, len, prot) {
        Protected::Given { entry, path } => (Answer::Given(entry), Some(path)),
        Protected::Spent => (Answer::Spent, None),
    }
}

/// The first caller of the crew changes a protection, and the others are as they were.
pub fn protect_by<R: Wait>(
    rt: &R,
    space: &Space,
    callers: &mut [Caller],
    told: bool,
    line: u32,
    addr: u64,
    len: u64,
    prot: Prot,
) -> (Answer, Option<Path>)
    requires crew { IsCrew space.now.table space.now.seats callers.old }
    requires told { told ≡ true → keeps_by space.now.table ≡ true }
    requires named { IsNamedCall (Protect addr len prot) }
    ensures crew { IsCrew space.now.table space.now.seats callers.new }
    ensures answer { OfCaller 0 callers.old callers.new (λ before after. IsAnswered before line (Protect addr len prot) result.0 after) }
    ensures others { drop 1 callers.new ≡ drop 1 callers.old }
{
    change(rt, space, &mut callers[0], told, line, addr, len, prot)
}
