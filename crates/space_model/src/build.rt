//! Building the list of areas after a change, as mmap(2), munmap(2), mprotect(2) and mseal(2) make it: the parts before
//! the place, what the place gets, and the parts after it, appended in order. An area that touches the last and is of
//! its kind lengthens it, so the result is the one area list with the kinds of the change.

ghost use Rattle.std.specs.Prelude.{◌≡◌, ◌≤◌, ◌<◌, ◌+◌, ◌*◌, [], length, OnOk, OnErr, IfOk, vec_capacity};
ghost use Rattle.space_model.specs.Areas.{IsAreaList};
ghost use Rattle.space_model.specs.Starts.{same_kind};
ghost use Rattle.space_model.specs.Judges.{patches_of};
ghost use Rattle.space_model.specs.Building.{goes_on, joined, join_all, repainted, parts, pieces_at, with_next, changed_list};

use crate::areas::Area;
use crate::judged::Change;
use crate::paint::{Paint, Patch};
use page_types::{Kind, LIMIT};
use std::alloc::{AllocError, Global};

fn same_kind(a: Kind, b: Kind) -> bool
    ensures { result ≡ same_kind a b }
{
    a == b
}

/// Whether `area` goes on where `last` ends, in its kind.
fn goes_on(last: Area, area: Area) -> bool
    ensures { result ≡ goes_on last area }
{
    last.hi == area.lo && same_kind(last.kind, area.kind)
}

/// What becomes of the kind of an area of which a part stays, painted where there is a paint. One that gives a kind
/// keeps no part, and isn't asked here.
pub fn repainted(kind: Kind, paint: Option<Paint>) -> Kind
    ensures { result ≡ repainted paint kind }
{
    match paint {
        Some(Paint::Protects(prot)) => Kind { prot, ..kind },
        Some(Paint::Seals) => Kind {
            sealed: true,
            ..kind
        },
        Some(Paint::Gives(_)) | None => kind,
    }
}

/// Appends an area, or lengthens the last one where the two touch and are of one kind.
fn join(list: &mut Vec<Area>, area: Area) -> Result<(), AllocError>
    ensures items { OnOk result (list.new.items ≡ joined list.old.items area) }
    ensures longer { OnOk result (length list.new.items ≤ length list.old.items + 1) }
    ensures capacity { vec_capacity list.old ≤ vec_capacity list.new }
    ensures full { OnErr result (vec_capacity list.old < length list.old.items + 1) }
{
    match list.pop() {
        None => list.push(area)?,
        Some(last) => {
            if goes_on(last, area) {
                list.push(Area {
                    hi: area.hi,
                    ..last
                })?;
            } else {
                list.push(last)?;
                list.push(area)?;
            }
        }
    }
    Ok(())
}

/// Appends the parts of `areas` from page `from` up to page `to`, painted where there is a paint.
fn join_parts(
    list: &mut Vec<Area>,
    areas: &[Area],
    from: u64,
    to: u64,
    paint: Option<Paint>,
) -> Result<(), AllocError>
    ensures items { OnOk result (list.new.items ≡ join_all list.old.items (parts from to paint areas.now)) }
    ensures longer { OnOk result (length list.new.items ≤ length list.old.items + length areas.now) }
    ensures capacity { vec_capacity list.old ≤ vec_capacity list.new }
    ensures full { OnErr result (vec_capacity list.old < length list.old.items + length areas.now) }
{
    for area in areas {
        let lo = area.lo.max(from);
        let hi = area.hi.min(to);
        if lo < hi {
            join(
                list,
                Area {
                    lo,
                    hi,
                    kind: repainted(area.kind, paint),
                },
            )?;
        }
    }
    Ok(())
}

/// Appends what a patch makes of its pages.
fn join_patch(list: &mut Vec<Area>, areas: &[Area], patch: Patch) -> Result<(), AllocError>
    ensures items { OnOk result (list.new.items ≡ join_all list.old.items (pieces_at areas.now patch.lo patch.hi patch.paint)) }
    ensures longer { OnOk result (length list.new.items ≤ length list.old.items + length areas.now + 1) }
    ensures capacity { vec_capacity list.old ≤ vec_capacity list.new }
    ensures full { OnErr result (vec_capacity list.old < length list.old.items + length areas.now + 1) }
{
    let Patch { lo, hi, paint } = patch;
    match paint {
        Paint::Gives(Some(kind)) => {
            if hi > lo {
                join(list, Area { lo, hi, kind })?;
            }
        }
        Paint::Gives(None) => {}
        Paint::Protects(_) | Paint::Seals => join_parts(list, areas, lo, hi, Some(paint))?,
    }
    Ok(())
}

/// Appends the parts of `areas` from page `from` up to a patch, and what the patch makes of its pages.
fn join_up_to(
    list: &mut Vec<Area>,
    areas: &[Area],
    from: u64,
    patch: Patch,
) -> Result<(), AllocError>
    ensures items { OnOk result (list.new.items ≡ with_next list.old.items from patch areas.now) }
    ensures longer { OnOk result (length list.new.items ≤ length list.old.items + 2 * length areas.now + 1) }
    ensures capacity { vec_capacity list.old ≤ vec_capacity list.new }
    ensures full { OnErr result (vec_capacity list.old < length list.old.items + 2 * length areas.now + 1) }
{
    join_parts(list, areas, from, patch.lo, None)?;
    join_patch(list, areas, patch)
}

/// Puts into `list` the areas after a change, from left to right. It fails only where there was no room in `list` for
/// five times as many and two, which is more than they can be.
pub fn changed(list: &mut Vec<Area>, areas: &[Area], change: Change) -> Result<(), AllocError>
    ensures items { OnOk result (list.new.items ≡ changed_list areas.now (patches_of change)) }
    ensures longer { OnOk result (length list.new.items ≤ 5 * length areas.now + 2) }
    ensures capacity { vec_capacity list.old ≤ vec_capacity list.new }
    ensures full { OnErr result (vec_capacity list.old < 5 * length areas.now + 2) }
{
    list.clear();
    join_up_to(list, areas, 0, change.first)?;
    match change.second {
        Some(second) => {
            join_up_to(list, areas, change.first.hi, second)?;
            join_parts(list, areas, second.hi, LIMIT, None)
        }
        None => join_parts(list, areas, change.first.hi, LIMIT, None),
    }
}

/// The areas of pieces in order, where two that touch and are of one kind become one.
pub fn joined_pieces(alloc: Global, pieces: &[Area]) -> Result<Vec<Area>, AllocError>
    ensures list { IfOk result (λ list. list.items ≡ join_all [] pieces.now) }
    ensures few { IfOk result (λ list. length list.items ≤ length pieces.now) }
{
    let mut list = Vec::with_capacity(alloc, pieces.len())?;
    for piece in pieces {
        join(&mut list, *piece)?;
    }
    Ok(list)
}
