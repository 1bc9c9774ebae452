//! Whether a list of areas is in order, as proc_pid_maps(5) prints them: each area in range, none before the end of the
//! one before it, and no two that touch of one kind. `first_wrong` finds the first area where that ends.

ghost use Rattle.std.specs.Prelude.{◌^◌, ◌<◌, ◌↔◌, length, IsTrue, MatchOption};
ghost use Rattle.space_model.specs.Areas.{IsInRange, MayFollow, IsAreaList, IsFirstWrong};
ghost use Rattle.space_model.specs.Building.{IsRightAt};

use crate::areas::Area;
use page_types::LIMIT;

fn is_in_range(area: Area) -> bool
    ensures { IsTrue result ↔ IsInRange area }
{
    area.lo < area.hi && area.hi <= LIMIT
}

/// Whether `second` may come right after `first`.
fn may_follow(first: Area, second: Area) -> bool
    ensures { IsTrue result ↔ MayFollow first second }
{
    first.hi < second.lo || (first.hi == second.lo && first.kind != second.kind)
}

/// Whether the area at an index is in range and may come after the one before it.
fn is_right_at(list: &[Area], index: usize) -> bool
    requires { index < length list.now }
    ensures { IsTrue result ↔ IsRightAt list.now index }
{
    is_in_range(list[index]) && (index == 0 || may_follow(list[index - 1], list[index]))
}

/// The first area, counted from 0, that isn't in range or may not come after the one before it.
pub fn first_wrong(list: &[Area]) -> Option<u32>
    requires { length list.now < 2 ^ 30 }
    ensures { MatchOption result (IsAreaList list.now) (IsFirstWrong list.now) }
{
    for i in 0..list.len() {
        if !is_right_at(list, i) {
            return Some(i as u32);
        }
    }
    None
}
