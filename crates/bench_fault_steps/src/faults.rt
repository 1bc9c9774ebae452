//! A space with one caller, and the caller's faults.
ghost use Rattle.std.specs.Prelude.{◌≡◌, ◌-◌, IfOk, None, true};
ghost use Rattle.area_guard.specs.Rows.{keeps_by};

use anyhow::{Result, bail};
use area_rows::{Caller, Space, SpaceFault};
use page_fault::fault;
use page_types::{Access, PAGE, Reply};
use space_model::{Entry, PlainSpace};
use std::alloc::Global;
use std::sync::Wait;

/// A space over this start, and its one caller, which may make so many calls.
fn open_one(
    alloc: Global,
    start: &PlainSpace,
    calls: u32,
) -> std::result::Result<(Space, Caller), SpaceFault>
    ensures table { IfOk result (λ r. r.1.seat.table ≡ r.0.table) }
    ensures free { IfOk result (λ r. r.1.seat.held ≡ None) }
    ensures left { IfOk result (λ r. r.1.left ≡ calls) }
    ensures keeps { IfOk result (λ r. keeps_by r.1.seat.table ≡ true) }
{
    let (space, mut opened) = Space::open(alloc, &[calls], start)?;
    let first = opened.remove(0);
    Ok((space, first))
}

/// The first byte of the page that is read at a turn. The pages of two turns that follow each other lie an odd number
/// of pages apart, so every other one may be read, and eighteen turns go over nearly all rows. The first is of the
/// first row, for which a search makes as many steps as over a full block behind the first one; other rows of that
/// block take a step less, and none of them is read.
fn addr_at(turn: u32, rows: u32) -> u64 {
    let apart = u64::from(rows / 36 * 2 + 1);
    let last = u64::from(rows.max(2) - 1);
    u64::from(turn) * apart % last * PAGE
}

/// Makes so many faults of a caller of a space with so many rows, each for the line of its turn.
fn make_faults<R: Wait>(wait: &R, space: &Space, caller: &mut Caller, faults: u32, rows: u32)
    requires table { caller.old.seat.table ≡ space.now.table }
    requires free { caller.old.seat.held ≡ None }
    ensures made { caller.new.left ≡ caller.old.left - faults }
    ensures keeps { caller.new.seat.table ≡ caller.old.seat.table }
{
    for turn in 0..faults {
        fault(space, wait, caller, turn, addr_at(turn, rows), Access::Read);
    }
}

/// How many of these entries are faults that were granted.
fn granted(entries: &[Entry]) -> usize {
    let mut count = 0usize;
    for entry in entries {
        if matches!(entry.reply, Reply::Granted(_)) {
            count = count.saturating_add(1);
        }
    }
    count
}

/// One caller makes so many faults over this start; how many were made, and how many of them were granted.
pub fn made_and_granted<R: Wait>(
    wait: &R,
    alloc: Global,
    start: &PlainSpace,
    faults: u32,
) -> Result<(usize, usize)> {
    let Ok((space, mut caller)) = open_one(alloc, start, faults) else {
        bail!("no memory for a space");
    };
    make_faults(wait, &space, &mut caller, faults, start.rows());
    let entries = caller.entries();
    Ok((entries.len(), granted(entries)))
}
