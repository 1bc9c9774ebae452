//! Runs of pages of one kind in a stretch of an address space: they are noted before a call, and compared with the
//! pages after it. A run is found by one search for its first page and one for its end, so a stretch costs what it has
//! areas and gaps, however many there are beside it.
ghost use Rattle.std.specs.Prelude.{◌≡◌, ◌<◌, ◌≤◌, ℕ, Option, OnOk};
ghost use Rattle.page_types.specs.declared.TheConstants.{LIMIT};
ghost use Rattle.page_types.specs.declared.calls.Kind.{Kind as KindOf};
ghost use Rattle.space_model.specs.Areas.{kind_at};
ghost use Rattle.area_changes.specs.Touching.{AreBelow, AreRuns, HasKind};

use crate::changes::{AreaChange, add};
use page_types::{Kind, Span};
use space_model::{Pages, ReservedSpace, Sort};
use std::alloc::AllocError;

/// Neighbouring pages of one kind, or that aren't mapped.
#[derive(Clone, Copy, Debug)]
pub struct Run {
    /// The pages.
    pub pages: Span,
    /// The kind of each of them.
    pub kind: Option<Kind>,
}

/// The run of one kind from page `lo` on, as far as it goes below `hi`.
fn run_from(space: &ReservedSpace, lo: u64, hi: u64) -> Run
    requires some { lo < hi }
    requires limit { hi ≤ LIMIT }
    ensures from { result.pages.lo ≡ lo }
    ensures within { result.pages.hi ≤ hi }
    ensures kind { HasKind (kind_at space.now) lo result.pages.hi result.kind }
{
    let kind = space.kind_of(&mut (), lo);
    let sort = match kind {
        None => Sort::Mapped,
        Some(_) => Sort::Unlike(kind),
    };
    let end = space.end_of(&mut (), sort, lo, hi);
    Run {
        pages: Span { lo, hi: end },
        kind,
    }
}

/// Puts into `runs` those of the pages from `lo` up to `hi`.
pub(crate) fn note_runs(
    runs: &mut Vec<Run>,
    space: &ReservedSpace,
    lo: u64,
    hi: u64,
) -> Result<(), AllocError>
    requires ordered { lo ≤ hi }
    requires limit { hi ≤ LIMIT }
    ensures { OnOk result (AreRuns (kind_at space.now) lo runs.new.items hi) }
{
    runs.clear();
    let mut at = lo;
    'runs: while at < hi {
        let run = run_from(space, at, hi);
        runs.push(run)?;
        at = run.pages.hi();
    }
    Ok(())
}

/// Goes on with the changes over the pages of a run that was noted before a call; `space` is that after it.
fn compare_run(
    list: &mut Vec<AreaChange>,
    run: &Run,
    space: &ReservedSpace,
) -> Result<(), AllocError>
    ensures { (before : ℕ → Option KindOf) → HasKind before run.now.pages.lo run.now.pages.hi run.now.kind
        → AreBelow before (kind_at space.now) run.now.pages.lo list.old.items
        → OnOk result (AreBelow before (kind_at space.now) run.now.pages.hi list.new.items) }
{
    let hi = run.pages.hi();
    let mut at = run.pages.lo();
    'runs: while at < hi {
        let new = run_from(space, at, hi);
        let end = new.pages.hi();
        add(
            list,
            AreaChange {
                lo: at,
                hi: end,
                before: run.kind,
                after: new.kind,
            },
        )?;
        at = end;
    }
    Ok(())
}

/// The same over the pages of several runs, each right behind the one before it.
pub(crate) fn compare_runs(
    list: &mut Vec<AreaChange>,
    runs: &[Run],
    space: &ReservedSpace,
) -> Result<(), AllocError>
    ensures { (before : ℕ → Option KindOf) (lo hi : ℕ) → AreRuns before lo runs.now hi
        → AreBelow before (kind_at space.now) lo list.old.items
        → OnOk result (AreBelow before (kind_at space.now) hi list.new.items) }
{
    'runs: for run in runs {
        compare_run(list, run, space)?;
    }
    Ok(())
}
