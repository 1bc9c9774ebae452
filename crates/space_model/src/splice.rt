//! Changing a list of areas where it stands: the areas before the place of a change stay, those that the place touches
//! are built anew, and those after it move as one where there are more or fewer areas then. So a call costs what it
//! touches and at most a copy of what lies above, whatever lies below. `build` makes the areas in the middle.

ghost use Rattle.std.specs.Prelude.{◌≡◌, ◌⊎◌, ◌^◌, ◌<◌, ◌≤◌, ◌+◌, ◌*◌, ◌++◌, length, take, IfOk, OnOk, OnErr, vec_len, vec_capacity};
ghost use Rattle.std.specs.List.{splice};
ghost use Rattle.space_model.specs.Areas.{IsAreaList, row_count};
ghost use Rattle.space_model.specs.Cutting.{end_of, start_of, IsPlan};
ghost use Rattle.space_model.specs.Effect.{AreRising};
ghost use Rattle.space_model.specs.Judges.{patches_of};

use crate::areas::Area;
use crate::build::changed;
use crate::counts::rows_between;
use crate::judged::Change;
use crate::search::{cut_by_end, cut_by_start};
use page_types::LIMIT;
use std::alloc::AllocError;

/// Which areas of a list become others, and how many rows there are then.
#[derive(Clone, Copy)]
pub struct Plan {
    /// The index of the first area that goes.
    pub first: usize,
    /// The index behind the last one.
    pub end: usize,
    /// The number of rows after the change.
    pub rows: u32,
}

/// Puts into `middle` the areas that a change makes of those that it touches. `rows` is the number of rows before it.
/// It fails only where there was no room in `middle` for five times as many as all areas and two.
pub fn planned(
    middle: &mut Vec<Area>,
    areas: &[Area],
    rows: u32,
    change: Change,
) -> Result<Plan, AllocError>
    requires in_order { IsAreaList areas.now }
    requires few { length areas.now < 2 ^ 30 }
    requires counted { rows ≡ row_count areas.now }
    requires rising { AreRising 0 (patches_of change) }
    ensures plan { IfOk result (λ plan. IsPlan areas.now (patches_of change) plan.first plan.end plan.rows middle.new.items) }
    ensures longer { OnOk result (length middle.new.items ≤ 5 * length areas.now + 2) }
    ensures capacity { vec_capacity middle.old ≤ vec_capacity middle.new }
    ensures full { OnErr result (vec_capacity middle.old < 5 * length areas.now + 2) }
{
    let (front, rest) = cut_by_end(areas, change.first.lo.saturating_sub(1));
    let (touched, back) = cut_by_start(rest, change.end());
    changed(middle, touched, change)?;
    let rows = recounted(rows, front, touched, middle.as_slice(), back);
    let first = front.len();
    let end = first + touched.len();
    Ok(Plan { first, end, rows })
}

/// The number of rows once the areas between `front` and `back` are `new` in the place of `old`.
fn recounted(rows: u32, front: &[Area], old: &[Area], new: &[Area], back: &[Area]) -> u32
    requires counted { rows ≡ row_count (front.now ++ (old.now ++ back.now)) }
    requires fits { row_count (front.now ++ (new.now ++ back.now)) < 2 ^ 32 }
    ensures { result ≡ row_count (front.now ++ (new.now ++ back.now)) }
{
    let from = end_of(front);
    let to = start_of(back);
    let outside = rows - rows_between(from, old, to);
    outside + rows_between(from, new, to)
}

/// The page behind the last area, or 0.
pub fn end_of(areas: &[Area]) -> u64
    ensures { result ≡ end_of 0 areas.now }
{
    match areas.last() {
        Some(area) => area.hi,
        None => 0,
    }
}

/// The first page of the first area, or `LIMIT`.
pub fn start_of(areas: &[Area]) -> u64
    ensures { result ≡ start_of areas.now }
{
    match areas.first() {
        Some(area) => area.lo,
        None => LIMIT,
    }
}

/// Puts the areas of `new` in the place of those from index `first` up to `end`. It allocates only where a capacity
/// doesn't serve; what is in `new` afterwards doesn't count.
pub fn replace(
    list: &mut Vec<Area>,
    first: usize,
    end: usize,
    new: &mut Vec<Area>,
) -> Result<(), AllocError>
    requires ordered { first ≤ end }
    requires within { end ≤ vec_len list.old }
    ensures items { OnOk result (list.new.items ≡ splice list.old.items first end new.old.items) }
    ensures memory { OnErr result (list.new.items ≡ list.old.items) }
    ensures list_capacity { vec_capacity list.old ≤ vec_capacity list.new }
    ensures new_capacity { vec_capacity new.old ≤ vec_capacity new.new }
    ensures full { OnErr result ((vec_capacity list.old < length (splice list.old.items first end new.old.items))
        ⊎ (vec_capacity new.old < length new.old.items + length list.old.items)) }
{
    if new.len() == end - first {
        list.as_mut_slice()[first..end].copy_from_slice(new.as_slice());
        return Ok(());
    }
    let (_, back) = list.as_slice().split_at(end);
    new.extend_from_slice(back)?;
    replace_tail(list, first, new.as_slice())
}

/// Puts other areas in the place of those from an index on.
fn replace_tail(list: &mut Vec<Area>, first: usize, tail: &[Area]) -> Result<(), AllocError>
    requires { first ≤ vec_len list.old }
    ensures items { OnOk result (list.new.items ≡ take first list.old.items ++ tail.now) }
    ensures memory { OnErr result (list.new.items ≡ list.old.items) }
    ensures capacity { vec_capacity list.old ≤ vec_capacity list.new }
    ensures full { OnErr result (vec_capacity list.old < length (take first list.old.items ++ tail.now)) }
{
    let left = list.len() - first;
    list.reserve(tail.len().saturating_sub(left))?;
    list.truncate(first);
    list.extend_from_slice(tail)?;
    Ok(())
}
