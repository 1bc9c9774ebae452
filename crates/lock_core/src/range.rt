//! Ranges of whole numbers, the two modes in which they are held, and the question of which grants exclude each
//! other. Readers share a range and a writer has it alone, as in Kogan, Dice and Issa 2020; the bound 2^62 leaves
//! room for the code of a high end and a mode in one word. A reader may rely on it that every `Range` has a number in
//! it and ends at 2^62 at the latest.
ghost use Rattle.std.specs.Prelude.{◌≡◌, ◌↔◌, ◌<◌, ◌≤◌, IsTrue, IsOk, IfOk, IfErr};
ghost use Rattle.lock_core.specs.Range.{IsRange};
ghost use Rattle.lock_core.specs.Grants.{Conflicts, held_of};

use std::marker::Model;
use thiserror::Error;

/// The highest end that a range may have, 2^62.
pub const HIGHEST: u64 = 4_611_686_018_427_387_904;

/// How a range is held.
#[derive(Clone, Copy, Debug, PartialEq, Eq)]
pub enum Mode {
    /// Beside other readers, and beside no writer.
    Reader,
    /// Beside nobody.
    Writer,
}

/// The whole numbers from `lo` on and below `hi`. It isn't empty, and `hi` is at most 2^62.
#[derive(Clone, Copy, Debug, PartialEq, Eq)]
pub struct Range {
    lo: u64,
    hi: u64,
}

impl Model for Range {
    ghost use Rattle.lock_core.specs.Range.{Interval, IsRange};

    ghost Value = { Interval };

    ghost view = { λ r. record { lo = r.lo; hi = r.hi } };

    ghost invariant = { λ r. IsRange r.lo r.hi };

    ghost inverse = { λ i. record { lo = i.lo; hi = i.hi } };
}

/// Two ends that bound no range: `lo` isn't below `hi`, or `hi` is above 2^62.
#[derive(Clone, Copy, Debug, PartialEq, Eq, Error)]
#[error("no range from {lo} to {hi}")]
pub struct BadRange {
    pub lo: u64,
    pub hi: u64,
}

/// A range with the mode in which it is held.
#[derive(Clone, Copy, Debug, PartialEq, Eq)]
pub struct Held {
    pub range: Range,
    pub mode: Mode,
}

/// A range that the seat of a number, counted from 0, holds.
#[derive(Clone, Copy, Debug, PartialEq, Eq)]
pub struct Grant {
    pub seat: u32,
    pub range: Range,
    pub mode: Mode,
}

impl Range {
    /// The range from `lo` on and below `hi`. `BadRange` carries both ends, and comes where `lo` isn't below `hi` or
    /// `hi` is above 2^62.
    #[inline(always)]
    pub fn of(lo: u64, hi: u64) -> Result<Range, BadRange>
        ensures exactly { IsOk result ↔ IsRange lo hi }
        ensures ends { IfOk result (λ r. (r.lo ≡ lo) × (r.hi ≡ hi)) }
        ensures refused { IfErr result (λ e. (e.lo ≡ lo) × (e.hi ≡ hi)) }
    {
        if lo < hi && hi <= HIGHEST {
            Ok(Range { lo, hi })
        } else {
            Err(BadRange { lo, hi })
        }
    }

    /// The lowest number of the range.
    #[inline(always)]
    pub fn lo(&self) -> u64
        ensures low { result ≡ self.now.lo }
        ensures bounds { IsRange self.now.lo self.now.hi }
    {
        self.lo
    }

    /// The first number above the range, at most 2^62.
    #[inline(always)]
    pub fn hi(&self) -> u64
        ensures high { result ≡ self.now.hi }
        ensures bounds { IsRange self.now.lo self.now.hi }
    {
        self.hi
    }
}

/// Whether the ranges overlap and at least one of them is a writer's. The seats don't matter.
#[inline(always)]
pub fn conflict(a: &Grant, b: &Grant) -> bool
    ensures { IsTrue result ↔ Conflicts (held_of a.now) (held_of b.now) }
{
    let overlap = a.range.lo() < b.range.hi() && b.range.lo() < a.range.hi();
    let writer = a.mode == Mode::Writer || b.mode == Mode::Writer;
    overlap && writer
}
