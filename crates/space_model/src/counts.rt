//! Counting the rows of a list of areas: the areas, which proc_pid_maps(5) prints, and the gaps between 0 and `LIMIT`.
//! The count is this project's own, since the address space that runs under a lock keeps its gaps as rows too. The law
//! `rows_are_counted_by_their_starts` says it by pages.

ghost use Rattle.std.specs.Prelude.{◌≡◌, ◌<◌, ◌^◌};
ghost use Rattle.space_model.specs.Areas.{row_count};
ghost use Rattle.space_model.specs.Cutting.{rows_between};

use crate::areas::Area;
use page_types::LIMIT;

/// The number of areas and of gaps between 0 and `LIMIT`.
pub fn row_count(areas: &[Area]) -> u32
    requires { row_count areas.now < 2 ^ 32 }
    ensures { result ≡ row_count areas.now }
{
    rows_between(0, areas, LIMIT)
}

/// The number of areas, and of gaps between the page `from`, the areas and the page `to`.
pub fn rows_between(from: u64, areas: &[Area], to: u64) -> u32
    requires { rows_between from areas.now to < 2 ^ 32 }
    ensures { result ≡ rows_between from areas.now to }
{
    let mut rows = 0u32;
    let mut at = from;
    for area in areas {
        if at < area.lo {
            rows += 1;
        }
        rows += 1;
        at = area.hi;
    }
    if at < to {
        rows += 1;
    }
    rows
}
