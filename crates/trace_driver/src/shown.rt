//! What a report shows of the entries of a history besides their log, each where it is asked for: the replies that
//! differ from the recorded result, with that, and the changes that each call made. It is found before anything is
//! written, so a run without memory for it writes nothing.
ghost use Rattle.std.specs.Prelude.{◌≡◌, List, IfOk, OnOk, true};
ghost use Rattle.space_model.specs.declared.areas.Area.{Area as AreaOf};
ghost use Rattle.space_model.specs.History.{Chains, HasRightReply, HasNamedCalls};
ghost use Rattle.area_changes.specs.Changes.{Make};
ghost use Rattle.trace_driver.specs.Report.{AreDiffering, LinesRise, with_other};

use crate::report::other_result;
use crate::trace::Line;
use area_changes::{EntryChange, changes_of};
use command_words::Options;
use maps_printer::DifferingReply;
use space_model::{Entry, PlainSpace};
use std::alloc::{AllocError, Global};
use strace_reader::Recorded;

/// What is shown of the entries; a list that isn't asked for is empty.
#[derive(Drop)]
pub struct Shown {
    /// The replies that differ from the recorded result of their line, with that.
    pub differing: Vec<DifferingReply>,
    /// What their calls changed, one call after another.
    pub changes: Vec<EntryChange>,
}

/// What the options ask to be shown of the entries of a history from these areas on.
pub fn shown_of(
    alloc: Global,
    options: Options,
    opening: &PlainSpace,
    lines: &[Line],
    entries: &[Entry],
) -> Result<Shown, AllocError>
    requires rising { LinesRise lines.now }
    requires right { (B : List AreaOf) × Chains HasRightReply opening.now entries.now B }
    requires named { HasNamedCalls entries.now }
    ensures differing { IfOk result (λ shown. options.differ ≡ true → AreDiffering lines.now entries.now shown.differing.items) }
    ensures changes { IfOk result (λ shown. options.changes ≡ true → Make opening.now entries.now shown.changes.items) }
{
    let differing = asked_differing(alloc, options.differ, lines, entries)?;
    let changes = asked_changes(alloc, options.changes, opening, entries)?;
    Ok(Shown { differing, changes })
}

/// The changes that the calls made, where they are asked for.
fn asked_changes(
    alloc: Global,
    asked: bool,
    opening: &PlainSpace,
    entries: &[Entry],
) -> Result<Vec<EntryChange>, AllocError>
    requires right { (B : List AreaOf) × Chains HasRightReply opening.now entries.now B }
    requires named { HasNamedCalls entries.now }
    ensures { IfOk result (λ list. asked ≡ true → Make opening.now entries.now list.items) }
{
    if asked {
        changes_of(alloc, opening, entries)
    } else {
        Ok(Vec::new(alloc))
    }
}

/// The replies that differ from the recorded result of their line, where they are asked for.
fn asked_differing(
    alloc: Global,
    asked: bool,
    lines: &[Line],
    entries: &[Entry],
) -> Result<Vec<DifferingReply>, AllocError>
    requires { LinesRise lines.now }
    ensures { IfOk result (λ list. asked ≡ true → AreDiffering lines.now entries.now list.items) }
{
    if asked {
        differing(alloc, lines, entries)
    } else {
        Ok(Vec::new(alloc))
    }
}

/// The replies that differ from the recorded result of their line, in the order of the entries.
fn differing(
    alloc: Global,
    lines: &[Line],
    entries: &[Entry],
) -> Result<Vec<DifferingReply>, AllocError>
    requires { LinesRise lines.now }
    ensures { IfOk result (λ list. AreDiffering lines.now entries.now list.items) }
{
    let mut list = Vec::new(alloc);
    let mut near = 0;
    'entries: for entry in entries {
        let (other, next) = other_result(lines, entry, near);
        near = next;
        keep(&mut list, entry, other)?;
    }
    Ok(list)
}

/// Appends an entry where there is a result that its reply differs from.
fn keep(
    list: &mut Vec<DifferingReply>,
    entry: &Entry,
    other: Option<Recorded>,
) -> Result<(), AllocError>
    ensures { OnOk result (list.new.items ≡ with_other other list.old.items entry.now) }
{
    if let Some(recorded) = other {
        let entry = *entry;
        list.push(DifferingReply { entry, recorded })?;
    }
    Ok(())
}
