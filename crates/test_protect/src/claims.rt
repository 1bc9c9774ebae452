//! Whether the way that a change of protection went is true of the history that the closed space gives. It is judged by
//! the one-thread model of `space_model`, played along the history: by the areas after so many entries, and by how many
//! of these entries were under everything.
ghost use Rattle.std.specs.Prelude.{true, ◌≡◌};
ghost use Rattle.page_types.specs.Named.{IsNamedCall};
ghost use Rattle.area_rows.specs.Rows.{keeps_by};
ghost use Rattle.test_crews.specs.Crews.{IsCrew};

use area_protect::{Cause, Path};
use area_rows::{Caller, Closed, Space};
use page_types::{Call, Span};
use space_model::{Area, Entry, PlainSpace, Under, have_named_calls, legal};
use std::alloc::{AllocError, Global};
use std::process::Abort;
use std::test::Fail;

/// Closes a space. Its history is legal from the start.
pub(crate) fn closed_right(
    rt: &impl Abort,
    alloc: Global,
    space: Space,
    callers: Vec<Caller>,
    start: &PlainSpace,
) -> Result<Closed, Fail>
    requires crew { IsCrew space.table space.seats callers.items }
    requires keeps { keeps_by space.table ≡ true }
{
    let Ok(closed) = space.close(alloc, callers) else {
        panic!(rt; "memory");
    };
    let entries = closed.entries();
    assert!(rt; entries.len() < 1 << 30 && have_named_calls(entries));
    assert_eq!(rt; legal(alloc, start, entries)?, None);
    Ok(closed)
}

/// Closes a space, and gives the areas that are left.
pub(crate) fn areas_left(
    rt: &impl Abort,
    alloc: Global,
    space: Space,
    callers: Vec<Caller>,
) -> Vec<Area>
    requires { IsCrew space.table space.seats callers.items }
{
    let Ok(areas) = space.close_areas(alloc, callers) else {
        panic!(rt; "memory");
    };
    areas
}

/// Closes a space that keeps its history or doesn't. These areas are left; a history is so many entries long, and
/// legal.
pub(crate) fn ends_with(
    rt: &impl Abort,
    alloc: Global,
    keeps: bool,
    space: Space,
    callers: Vec<Caller>,
    start: &PlainSpace,
    count: usize,
    after: &[Area],
) -> Result<(), Fail>
    requires crew { IsCrew space.table space.seats callers.items }
    requires keeps { keeps_by space.table ≡ keeps }
{
    if keeps {
        let closed = closed_right(rt, alloc, space, callers, start)?;
        assert_eq!(rt; closed.entries().len(), count);
        assert_eq!(rt; closed.areas(), after);
        return Ok(());
    }
    let areas = areas_left(rt, alloc, space, callers);
    assert_eq!(rt; areas.as_slice(), after);
    Ok(())
}

/// An address space after the first entries of a history, and how many of these were under everything.
#[derive(Drop)]
pub(crate) struct Played {
    space: PlainSpace,
    whole: u64,
}

/// The address space after no entry, after the first one, and so on.
pub(crate) fn play(
    rt: &impl Abort,
    alloc: Global,
    start: &PlainSpace,
    entries: &[Entry],
) -> Result<Vec<Played>, Fail> {
    let mut space = start.copied(alloc)?;
    let mut whole = 0;
    let mut played = Vec::new(alloc);
    played.push(Played {
        space: space.copied(alloc)?,
        whole,
    })?;
    for entry in entries {
        assert!(rt; entry.call.is_named());
        space.step(&entry.call)?;
        if entry.under == Under::Whole {
            whole = u64::wrapping_add(whole, 1);
        }
        played.push(Played {
            space: space.copied(alloc)?,
            whole,
        })?;
    }
    Ok(played)
}

/// After so many entries.
fn after(played: &[Played], entries: u64) -> Option<&Played> {
    played.get(entries as usize)
}

/// How many of so many entries were under everything.
fn whole_of(played: &[Played], entries: u64) -> Option<u64> {
    Some(after(played, entries)?.whole)
}

/// Whether the pages of a change are all mapped with one kind.
fn is_one_kind(space: &PlainSpace, span: Span) -> bool {
    space
        .areas()
        .iter()
        .any(|area| area.lo <= span.lo() && span.hi() <= area.hi)
}

/// Whether a change leaves as many rows as there are.
fn is_simple(alloc: Global, space: &PlainSpace, call: &Call) -> Result<bool, AllocError>
    requires { IsNamedCall call.now }
{
    let mut copy = space.copied(alloc)?;
    let (_, under) = copy.step_under(call)?;
    Ok(matches!(under, Under::Area(_)))
}

/// Whether the cause is true of an entry, where its caller had seen so many entries before the call.
fn has_cause(
    alloc: Global,
    played: &[Played],
    entry: &Entry,
    span: Span,
    seen: u64,
    cause: Cause,
) -> Result<bool, AllocError>
    requires { IsNamedCall entry.now.call }
{
    let (first, last) = match cause {
        Cause::NotOneArea { at } | Cause::NotSimple { at } => (at, at),
        Cause::Moved { first, second, .. } => (first, second),
    };
    if seen > first || last > entry.number {
        return Ok(false);
    }
    let Some(found) = after(played, first) else {
        return Ok(false);
    };
    match cause {
        Cause::NotOneArea { .. } => Ok(!is_one_kind(&found.space, span)),
        Cause::NotSimple { .. } => {
            let one = is_one_kind(&found.space, span);
            Ok(one && !is_simple(alloc, &found.space, &entry.call)?)
        }
        Cause::Moved {
            old_seq,
            new_seq,
            ..
        } => {
            let counts = found.whole == old_seq && whole_of(played, last) == Some(new_seq);
            Ok(first < last && counts && old_seq != new_seq)
        }
    }
}

/// Whether the way is true of an entry, where its caller had seen so many entries before the call.
pub(crate) fn is_true(
    alloc: Global,
    played: &[Played],
    entry: &Entry,
    seen: u64,
    path: Path,
) -> Result<bool, AllocError>
    requires { IsNamedCall entry.now.call }
{
    let Call::Protect { addr, len, prot: _ } = entry.call else {
        return Ok(false);
    };
    match path {
        Path::Free => Ok(entry.under == Under::Nothing),
        Path::Area { seq } => {
            let over = matches!(entry.under, Under::Area(_));
            Ok(over && whole_of(played, entry.number) == Some(seq))
        }
        Path::Whole(cause) => match Span::of(addr, len) {
            Ok(span) if entry.under == Under::Whole => {
                has_cause(alloc, played, entry, span, seen, cause)
            }
            _ => Ok(false),
        },
    }
}
