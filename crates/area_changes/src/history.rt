//! The changes that the calls of a history make, one after another, as the calls are made once more on a space of one
//! thread. Before a call the pages that it may change are noted, and behind it they are compared.
ghost use Rattle.std.specs.Prelude.{◌≡◌, ◌++◌, ℕ, List, OnOk, IfOk, map};
ghost use Rattle.page_types.specs.Named.{IsNamedCall};
ghost use Rattle.space_model.specs.declared.areas.Area.{Area as AreaOf};
ghost use Rattle.space_model.specs.Areas.{kind_at};
ghost use Rattle.space_model.specs.Answers.{Answers};
ghost use Rattle.space_model.specs.History.{Chains, HasRightReply, HasNamedCalls};
ghost use Rattle.area_changes.specs.Changes.{AreChanges, Make, of_entry};

use crate::changes::{AreaChange, EntryChange};
use crate::runs::{Run, compare_runs, note_runs};
use crate::touched::pages_of_call;
use page_types::{Call, Reply};
use space_model::{Entry, PlainSpace, ReservedSpace};
use std::alloc::{AllocError, Global};

/// Room for what is noted of one call; what is in it between calls doesn't count.
#[derive(Drop)]
struct Notes {
    /// The runs of the first stretch of pages before the call.
    first: Vec<Run>,
    /// Those of the second one.
    second: Vec<Run>,
    /// What the call changed.
    changes: Vec<AreaChange>,
}

/// The changes that the entries make from this space on, in the order of the entries.
///
/// A call costs two searches for each area and each gap in the pages that its arguments and its reply name, and what
/// the call itself costs on a `ReservedSpace`, which doesn't grow with the space. `AllocError`: there was no room for
/// the space or for the changes.
pub fn changes_of(
    alloc: Global,
    start: &PlainSpace,
    entries: &[Entry],
) -> Result<Vec<EntryChange>, AllocError>
    requires right { (B : List AreaOf) × Chains HasRightReply start.now entries.now B }
    requires named { HasNamedCalls entries.now }
    ensures { IfOk result (λ list. Make start.now entries.now list.items) }
{
    let mut space = start.reserved()?;
    let mut notes = Notes {
        first: Vec::new(alloc),
        second: Vec::new(alloc),
        changes: Vec::new(alloc),
    };
    let mut list = Vec::new(alloc);
    'entries: for entry in entries {
        change(&mut space, &mut notes, &entry.call, entry.reply)?;
        append(&mut list, entry.number, notes.changes.as_slice())?;
    }
    Ok(list)
}

/// Makes a call that has this reply, and puts into the notes what it changes.
fn change(
    space: &mut ReservedSpace,
    notes: &mut Notes,
    call: &Call,
    reply: Reply,
) -> Result<(), AllocError>
    requires right { (B : List AreaOf) × Answers space.old call.now reply B }
    requires named { IsNamedCall call.now }
    ensures answer { OnOk result (Answers space.old call.now reply space.new) }
    ensures changes { OnOk result (AreChanges (kind_at space.old) (kind_at space.new) notes.new.changes.items) }
{
    let pages = pages_of_call(space, call, reply);
    note_runs(&mut notes.first, space, pages.lo, pages.hi)?;
    note_runs(&mut notes.second, space, pages.next, pages.end)?;
    let _ = space.step_under(call);
    notes.changes.clear();
    compare_runs(&mut notes.changes, notes.first.as_slice(), space)?;
    compare_runs(&mut notes.changes, notes.second.as_slice(), space)?;
    Ok(())
}

/// A change as one of the entry of this number.
fn of_entry(number: u64, change: AreaChange) -> EntryChange
    ensures { result ≡ of_entry number change }
{
    EntryChange { number, change }
}

/// Appends changes as those of the entry of this number.
fn append(
    list: &mut Vec<EntryChange>,
    number: u64,
    changes: &[AreaChange],
) -> Result<(), AllocError>
    ensures { OnOk result (list.new.items ≡ list.old.items ++ map (of_entry number) changes.now) }
{
    'changes: for change in changes {
        list.push(of_entry(number, *change))?;
    }
    Ok(())
}
