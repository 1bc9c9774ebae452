//! Areas as a caller wants to have them, in a row of places that it gives: for one that takes no memory, as a library
//! for C, whose areas are records of numbers. A reader may rely on the places being those of the first areas, and on
//! both counts being of all areas, however few places there are (`IsPut` of `specs/Places.antt`).
ghost use Rattle.std.specs.Prelude.{◌≡◌, ◌<◌, ◌≤◌, List, [], ◌++◌};
ghost use Rattle.page_types.specs.declared.TheConstants.{LIMIT};
ghost use Rattle.row_plans.specs.RowLists.{with_row};
ghost use Rattle.space_model.specs.declared.areas.Area.{Area};
ghost use Rattle.area_looks.specs.Places.{IsPut};

use page_types::Kind;
use space_model::Area;

/// What an area is told as.
pub trait Told: Copy {
    ghost use Rattle.space_model.specs.declared.areas.Area.{Area};

    /// What each area is told as.
    ghost told: { Area → Self };

    /// Tells an area.
    fn of_area(area: Area) -> Self
        ensures { result ≡ told area };
}

impl Told for Area {
    ghost told = { λ area. area };

    fn of_area(area: Area) -> Area {
        area
    }
}

/// How many areas there are, and how many pages they have together.
#[derive(Clone, Copy, PartialEq, Eq, Debug)]
pub struct Counts {
    /// How many areas.
    pub areas: u64,
    /// How many pages all of them have.
    pub pages: u64,
}

/// Counts the area of the pages of a row, where it is no gap, and puts it into its place, where there is one.
pub(crate) fn put_row<T: Told>(
    into: &mut [T],
    counts: Counts,
    lo: u64,
    kind: Option<Kind>,
    hi: u64,
) -> Counts
    requires some { lo < hi }
    requires few { (counts.areas ≤ lo) × (counts.pages ≤ lo) }
    ensures put { (list : List Area) (first : List T) → IsPut T.told list first into.old counts
        → IsPut T.told (list ++ with_row lo kind hi []) first into.new result }
    ensures few { (result.areas ≤ hi) × (result.pages ≤ hi) }
{
    match kind {
        None => counts,
        Some(kind) => {
            let area = Area { lo, hi, kind };
            if counts.areas < into.len() as u64 {
                into[counts.areas as usize] = T::of_area(area);
            }
            Counts {
                areas: counts.areas + 1,
                pages: counts.pages + (hi - lo),
            }
        }
    }
}
