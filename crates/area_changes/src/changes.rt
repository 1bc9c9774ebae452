//! Changes of an address space, and a list of them that grows page by page: a change that goes on where the last one
//! ends, with the same two kinds, lengthens it. So the list is the one that the pages have.
ghost use Rattle.std.specs.Prelude.{◌≡◌, ◌<◌, ◌≤◌, ℕ, Option, OnOk};
ghost use Rattle.page_types.specs.declared.calls.Kind.{Kind as KindOf};
ghost use Rattle.space_model.specs.Starts.{same_option};
ghost use Rattle.area_changes.specs.Touching.{AreBelow, HasKind, goes_on, joined};

use page_types::Kind;
use std::alloc::AllocError;

/// Neighbouring pages that a call changed from one kind to another; None is the kind of a page that isn't mapped.
#[derive(Clone, Copy, PartialEq, Eq, Hash, Debug)]
pub struct AreaChange {
    /// The first page.
    pub lo: u64,
    /// The page after the last one.
    pub hi: u64,
    /// The kind of each page before the call.
    pub before: Option<Kind>,
    /// The kind of each page after it.
    pub after: Option<Kind>,
}

/// A change by the call of one entry of a history.
#[derive(Clone, Copy, PartialEq, Eq, Hash, Debug)]
pub struct EntryChange {
    /// The entry's number.
    pub number: u64,
    /// What its call changed.
    pub change: AreaChange,
}

/// Whether two kinds are the same, None being that of a page that isn't mapped.
fn same_option(one: Option<Kind>, other: Option<Kind>) -> bool
    ensures { result ≡ same_option one other }
{
    one == other
}

/// Whether `change` goes on where `last` ends, with the same two kinds.
fn goes_on(last: AreaChange, change: AreaChange) -> bool
    ensures { result ≡ goes_on last change }
{
    last.hi == change.lo
        && same_option(last.before, change.before)
        && same_option(last.after, change.after)
}

/// Appends a change, or lengthens the last one where it goes on with that.
fn join(list: &mut Vec<AreaChange>, change: AreaChange) -> Result<(), AllocError>
    ensures { OnOk result (list.new.items ≡ joined list.old.items change) }
{
    match list.pop() {
        None => list.push(change)?,
        Some(last) => {
            if goes_on(last, change) {
                list.push(AreaChange {
                    hi: change.hi,
                    ..last
                })?;
            } else {
                list.push(last)?;
                list.push(change)?;
            }
        }
    }
    Ok(())
}

/// Goes on with the list over the pages from `change.lo` up to `change.hi`, whose kinds are those of the change, and
/// may be the same before and after.
pub(crate) fn add(list: &mut Vec<AreaChange>, change: AreaChange) -> Result<(), AllocError>
    requires { change.lo < change.hi }
    ensures { (before after : ℕ → Option KindOf) → AreBelow before after change.lo list.old.items
        → HasKind before change.lo change.hi change.before → HasKind after change.lo change.hi change.after
        → OnOk result (AreBelow before after change.hi list.new.items) }
{
    if same_option(change.before, change.after) {
        return Ok(());
    }
    join(list, change)?;
    Ok(())
}
