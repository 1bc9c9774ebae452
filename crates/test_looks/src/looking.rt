//! Looks by the first caller of a crew: after each of them the crew may go on or be closed, which the contracts say.
ghost use Rattle.std.specs.Prelude.{◌<◌};
ghost use Rattle.page_types.specs.declared.TheConstants.{LIMIT};
ghost use Rattle.test_crews.specs.Crews.{IsCrew};

use area_looks::{Counts, area_at, areas, counts, fill_round};
use area_rows::{Caller, Space};
use page_types::Span;
use space_model::Area;
use std::alloc::AllocError;
use std::sync::Wait;

/// The areas of a span. `AllocError`: there was no room for the list.
pub fn areas_by<R: Wait>(
    rt: &R,
    space: &Space,
    callers: &mut [Caller],
    span: Span,
    into: &mut Vec<Area>,
) -> Result<(), AllocError>
    requires crew { IsCrew space.now.table space.now.seats callers.old }
    ensures crew { IsCrew space.now.table space.now.seats callers.new }
{
    areas(space, rt, &mut callers[0], span, into)
}

/// The area at a page.
pub fn area_by<R: Wait>(rt: &R, space: &Space, callers: &mut [Caller], page: u64) -> Option<Area>
    requires crew { IsCrew space.now.table space.now.seats callers.old }
    requires page { page < LIMIT }
    ensures crew { IsCrew space.now.table space.now.seats callers.new }
{
    area_at(space, rt, &mut callers[0], page)
}

/// How many areas a span has, and how many pages they have.
pub fn counts_by<R: Wait>(rt: &R, space: &Space, callers: &mut [Caller], span: Span) -> Counts
    requires crew { IsCrew space.now.table space.now.seats callers.old }
    ensures crew { IsCrew space.now.table space.now.seats callers.new }
{
    counts(space, rt, &mut callers[0], span)
}

/// The same, with the areas in places, by one round of a look. None: the round didn't get the span.
pub fn fill_by(
    space: &Space,
    callers: &mut [Caller],
    span: Span,
    into: &mut [Area],
) -> Option<Counts>
    requires crew { IsCrew space.now.table space.now.seats callers.old }
    ensures crew { IsCrew space.now.table space.now.seats callers.new }
{
    fill_round(space, &mut callers[0], span, 0, false, into).ok()
}
