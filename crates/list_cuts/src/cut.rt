//! A cut of the numbers into regions, so that a table can keep a list for each: a range of one region then works in the
//! list of that region, and in the one for ranges of several where somebody is there. A region isn't an interval:
//! blocks of numbers are dealt out to the regions in turn, so that what lies close together is spread over them. A
//! reader may rely on a range taking the list of each of its numbers, and on two ranges that overlap taking a list in
//! common (`specs/Cut.antt`). This project's own profile.
ghost use Rattle.std.specs.Prelude.{◌≡◌, ◌↔◌, ◌-◌, ◌/◌, ◌^◌, ◌<◌, ◌≤◌, IsTrue, IsOk, IfOk, IfErr, IfSome, None};
ghost use Rattle.list_cuts.specs.Cut.{IsCut, first_list, list_count, list_of, Takes, TakesOne, TakesTwo};
ghost use Rattle.list_cuts.specs.Blocks.{IsNextBlock};

use lock_core::Range;
use std::marker::Model;
use thiserror::Error;

/// How the numbers are shared out among lists: from 1 to 16 regions, in blocks of 2^bits numbers.
#[derive(Clone, Copy, Debug, PartialEq, Eq)]
pub struct Cut {
    regions: u32,
    bits: u32,
}

impl Model for Cut {
    ghost use Rattle.list_cuts.specs.Cut.{Regions, IsCut};

    ghost Value = { Regions };

    ghost view = { λ c. record { count = c.regions; bits = c.bits } };

    ghost invariant = { λ c. IsCut c.regions c.bits };

    ghost inverse = { λ r. record { regions = r.count; bits = r.bits } };
}

/// Two numbers that make no cut: there isn't a region, there are more than 16, or a block has more than 2^62 numbers.
#[derive(Clone, Copy, Debug, PartialEq, Eq, Error)]
#[error("no cut into {regions} regions in blocks of 2^{bits}")]
pub struct BadCut {
    pub regions: u32,
    pub bits: u32,
}

/// How many blocks lie between the block `first` and the next one of a region, that block itself counted as the next
/// one where it is of the region. Blocks and regions are counted from 0.
#[inline(always)]
fn blocks_to(first: u64, region: u64, count: u64) -> u64
    requires there { region < count }
    requires small { count ≤ 16 }
    ensures { IsNextBlock count first region result }
{
    let of = first % count;
    if region < of {
        region + count - of
    } else {
        region - of
    }
}

impl Cut {
    /// A cut into so many regions, from 1 to 16, in blocks of 2^bits numbers, with `bits` at most 62. `BadCut` carries
    /// both numbers, and comes where one is out of its bounds.
    pub fn of(regions: u32, bits: u32) -> Result<Cut, BadCut>
        ensures exactly { IsOk result ↔ IsCut regions bits }
        ensures cut { IfOk result (λ c. (c.count ≡ regions) × (c.bits ≡ bits)) }
        ensures refused { IfErr result (λ e. (e.regions ≡ regions) × (e.bits ≡ bits)) }
    {
        if regions > 0 && regions <= 16 && bits <= 62 {
            Ok(Cut { regions, bits })
        } else {
            Err(BadCut { regions, bits })
        }
    }

    /// The cut into one region: all numbers have one list.
    #[inline(always)]
    pub fn one() -> Cut
        ensures { result ≡ record { count = 1; bits = 62 } }
    {
        Cut {
            regions: 1,
            bits: 62,
        }
    }

    /// How many regions there are, from 1 to 16.
    #[inline(always)]
    pub fn regions(&self) -> u32
        ensures count { result ≡ self.now.count }
        ensures some { 0 < result }
        ensures few { result ≤ 16 }
    {
        self.regions
    }

    /// Of how many numbers a block is, as the exponent of a power of two, at most 62.
    #[inline(always)]
    pub fn bits(&self) -> u32
        ensures bits { result ≡ self.now.bits }
        ensures few { result ≤ 62 }
    {
        self.bits
    }

    /// How many lists there are, from 1 to 17: one for each region, and one for wide ranges where there are several.
    #[inline(always)]
    pub fn lists(&self) -> u32
        ensures lists { result ≡ list_count self.now }
        ensures some { 0 < result }
        ensures few { result ≤ 17 }
    {
        self.first() + self.regions
    }

    /// The list of the first region.
    #[inline(always)]
    fn first(&self) -> u32
        ensures first { result ≡ first_list self.now }
        ensures cut { IsCut self.now.count self.now.bits }
    {
        if self.regions == 1 { 0 } else { 1 }
    }

    /// The block of a number. Blocks are counted from 0.
    #[inline(always)]
    fn block(&self, number: u64) -> u64
        ensures { result ≡ number / 2 ^ self.now.bits }
    {
        number >> self.bits
    }

    /// The block of the range's last number.
    #[inline(always)]
    fn last_block(&self, range: Range) -> u64
        ensures last { result ≡ (range.hi - 1) / 2 ^ self.now.bits }
        ensures behind { range.lo / 2 ^ self.now.bits ≤ result }
    {
        (range.hi() - 1) >> self.bits
    }

    /// The list of a number.
    #[inline(always)]
    pub fn list_of(&self, number: u64) -> u32
        ensures list { result ≡ list_of self.now number }
        ensures there { result < list_count self.now }
    {
        let block = self.block(number);
        self.first() + (block % self.regions() as u64) as u32
    }

    /// Whether a number of the range is in that list. Lists are counted from 0; list 0 has no number where there are
    /// several regions.
    #[inline(always)]
    pub fn takes(&self, range: Range, list: u32) -> bool
        requires there { list < list_count self.now }
        ensures { IsTrue result ↔ Takes self.now range list }
    {
        let before = self.first();
        if list < before {
            return false;
        }
        let region = (list - before) as u64;
        let first = self.block(range.lo());
        let last = self.last_block(range);
        let count = self.regions() as u64;
        // So many blocks have one of every region.
        if last - first >= count - 1 {
            return true;
        }
        blocks_to(first, region, count) <= last - first
    }

    /// The list that a range takes alone, where it takes one alone: it is narrow then, and otherwise wide.
    #[inline(always)]
    pub fn only(&self, range: Range) -> Option<u32>
        ensures narrow { IfSome result (λ list. TakesOne self.now range list) }
        ensures wide { result ≡ None → TakesTwo self.now range }
    {
        let first = self.block(range.lo());
        let last = self.last_block(range);
        if self.regions() == 1 || first == last {
            Some(self.list_of(range.lo()))
        } else {
            None
        }
    }
}
