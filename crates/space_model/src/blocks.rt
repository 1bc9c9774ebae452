//! A list of areas that stands in blocks, in order, so that a change moves no more areas than those of the blocks at
//! its place. A block may be empty. Pages are looked up by going through the blocks, of which the ends alone are read,
//! and then as in one list of areas. The contracts say of the whole list what those of `search` say of theirs.

ghost use Rattle.std.specs.Prelude.{◌≡◌, ◌<◌, ◌≤◌, ◌+◌, None, MatchOption, All, IfOk, ◌*◌, ◌++◌, length, take, drop, vec_capacity};
ghost use Rattle.space_model.specs.Areas.{IsAreaList, kind_at};
ghost use Rattle.space_model.specs.Sorts.{IsEnd};
ghost use Rattle.space_model.specs.Cutting.{end_of, IsFirstAbove};
ghost use Rattle.space_model.specs.Blocks.{areas_of, blocks_at, GapsWithin, IsBlock, IsFrontCut, IsBackCut};

use crate::areas::Area;
use crate::sorts::{Sort, is_sort};
use crate::{search, splice};
use page_types::{Kind, LIMIT};
use std::alloc::{AllocError, Global};

/// The most areas of a block.
const MOST: usize = 1024;

/// Neighbouring areas of a list.
#[derive(Drop, Debug)]
pub struct Block {
    /// The areas, at most `MOST`, for which there is room.
    pub areas: Vec<Area>,
    /// No gap between two of them has more pages.
    pub gap: u64,
}

/// The page behind the last area, or this page where there is none.
fn end_from(areas: &[Area], page: u64) -> u64
    ensures { result ≡ end_of page areas.now }
{
    if areas.is_empty() {
        page
    } else {
        splice::end_of(areas)
    }
}

/// The first area that ends above a page.
pub fn first_above(blocks: &[Block], page: u64) -> Option<Area>
    requires { IsAreaList (areas_of blocks.now) }
    ensures { MatchOption result (All (λ a. a.hi ≤ page) (areas_of blocks.now)) (IsFirstAbove (areas_of blocks.now) page) }
{
    let mut left = blocks;
    'blocks: while let Some((block, others)) = left.split_first() {
        let areas = block.areas.as_slice();
        if page < splice::end_of(areas) {
            if let Some(area) = search::first_above(areas, page) {
                return Some(area);
            }
        }
        left = others;
    }
    None
}

/// The kind of a page, or None where it isn't mapped.
pub fn kind_of(blocks: &[Block], page: u64) -> Option<Kind>
    requires { IsAreaList (areas_of blocks.now) }
    ensures { result ≡ kind_at (areas_of blocks.now) page }
{
    match first_above(blocks, page) {
        Some(area) => {
            if area.lo <= page {
                Some(area.kind)
            } else {
                None
            }
        }
        None => None,
    }
}

/// The lowest page of a sort of those from `lo` up to `hi`, or `hi` where there is none.
pub fn end_of(blocks: &[Block], sort: Sort, lo: u64, hi: u64) -> u64
    requires in_order { IsAreaList (areas_of blocks.now) }
    requires ordered { lo ≤ hi }
    ensures { IsEnd (kind_at (areas_of blocks.now)) sort lo hi result }
{
    if lo == hi {
        return hi;
    }
    let mut at = lo;
    let mut left = blocks;
    'blocks: while let Some((block, others)) = left.split_first() {
        let areas = block.areas.as_slice();
        let end = splice::end_of(areas);
        if at < end {
            let border = end.min(hi);
            let page = search::end_of(areas, sort, at, border);
            if page < border {
                return page;
            }
            if border == hi {
                return hi;
            }
            at = border;
        }
        left = others;
    }
    if is_sort(sort, None) { at } else { hi }
}

/// How many blocks have no area that ends above a page, and where the last of these ends. At least one block isn't
/// among them.
pub fn cut_front(blocks: &[Block], page: u64) -> (usize, u64)
    requires some { 0 < length blocks.now }
    requires in_order { IsAreaList (areas_of blocks.now) }
    ensures { IsFrontCut blocks.now page result.0 result.1 }
{
    let mut left = blocks;
    let mut count = 0;
    let mut end = 0;
    'blocks: while let Some((block, others)) = left.split_first() {
        let next = end_from(block.areas.as_slice(), end);
        if others.is_empty() || page < next {
            return (count, end);
        }
        count += 1;
        end = next;
        left = others;
    }
    (count, end)
}

/// How many blocks go before one of which all areas start above a page, and where the first of these starts.
pub fn cut_back(blocks: &[Block], page: u64) -> (usize, u64)
    requires some { 0 < length blocks.now }
    requires in_order { IsAreaList (areas_of blocks.now) }
    ensures { IsBackCut blocks.now page result.0 result.1 }
{
    let (_, rest) = blocks.split_at(1);
    let mut left = rest;
    let mut count = 1;
    'blocks: while let Some((block, others)) = left.split_first() {
        if let Some(area) = block.areas.first() {
            if page < area.lo {
                return (count, area.lo);
            }
        }
        count += 1;
        left = others;
    }
    (count, LIMIT)
}

/// Puts the areas of blocks into a list with room for them.
pub fn gather(list: &mut Vec<Area>, blocks: &[Block])
    requires room { length (areas_of blocks.now) ≤ vec_capacity list.old }
    ensures items { list.new.items ≡ areas_of blocks.now }
    ensures capacity { vec_capacity list.old ≤ vec_capacity list.new }
{
    list.clear();
    let mut left = blocks;
    'blocks: while let Some((block, others)) = left.split_first() {
        let Ok(()) = list.extend_from_slice(block.areas.as_slice()) else {
            unreachable!()
        };
        left = others;
    }
}

/// How many pages the longest gap between two areas has.
fn widest(areas: &[Area]) -> u64
    ensures { GapsWithin result areas.now }
{
    let mut gap = 0u64;
    let mut left = areas;
    'areas: while let Some((area, others)) = left.split_first() {
        if let Some(next) = others.first() {
            gap = gap.max(next.lo.saturating_sub(area.hi));
        }
        left = others;
    }
    gap
}

/// Puts these areas into a block in the place of its own.
fn fill(block: &mut Block, areas: &[Area])
    requires few { length areas.now ≤ 1024 }
    requires room { 1024 ≤ vec_capacity block.old.areas }
    ensures areas { block.new.areas.items ≡ areas.now }
    ensures block { IsBlock block.new }
{
    block.areas.clear();
    let Ok(()) = block.areas.extend_from_slice(areas) else {
        unreachable!()
    };
    block.gap = widest(areas);
}

/// Puts these areas into blocks in the place of their own, the same share into each as long as there are any.
pub fn pour(blocks: &mut [Block], areas: &[Area], share: usize)
    requires blocks { All IsBlock blocks.old }
    requires share { share ≤ 1024 }
    requires fits { length areas.now ≤ share * length blocks.old }
    ensures areas { areas_of blocks.new ≡ areas.now }
    ensures blocks { All IsBlock blocks.new }
    ensures count { length blocks.new ≡ length blocks.old }
{
    if let Some((block, others)) = blocks.split_first_mut() {
        let (first, rest) = areas.split_at(share.min(areas.len()));
        fill(block, first);
        pour(others, rest, share);
    }
}

/// So many empty blocks.
pub fn empty_blocks(alloc: Global, count: usize) -> Result<Vec<Block>, AllocError>
    ensures blocks { IfOk result (λ blocks. All IsBlock blocks.items) }
    ensures count { IfOk result (λ blocks. length blocks.items ≡ count) }
{
    let mut blocks = Vec::with_capacity(alloc, count)?;
    'all: while blocks.len() < count {
        blocks.push_reserved(Block {
            areas: Vec::with_capacity(alloc, MOST)?,
            gap: 0,
        });
    }
    Ok(blocks)
}

/// Puts the areas of so many blocks from an index on into a list with room for them.
pub fn gather_at(list: &mut Vec<Area>, blocks: &[Block], first: usize, count: usize)
    requires within { first + count ≤ length blocks.now }
    requires room { length (areas_of (blocks_at blocks.now first count)) ≤ vec_capacity list.old }
    ensures items { list.new.items ≡ areas_of (blocks_at blocks.now first count) }
    ensures capacity { vec_capacity list.old ≤ vec_capacity list.new }
{
    let (_, rest) = blocks.split_at(first);
    let (window, _) = rest.split_at(count);
    gather(list, window);
}

/// Puts these areas into so many blocks from an index on, in the place of their own.
pub fn pour_at(blocks: &mut [Block], first: usize, count: usize, areas: &[Area], share: usize)
    requires within { first + count ≤ length blocks.old }
    requires blocks { All IsBlock blocks.old }
    requires share { share ≤ 1024 }
    requires fits { length areas.now ≤ share * count }
    ensures areas { areas_of blocks.new ≡ areas_of (take first blocks.old) ++ (areas.now ++ areas_of (drop (first + count) blocks.old)) }
    ensures blocks { All IsBlock blocks.new }
    ensures count { length blocks.new ≡ length blocks.old }
{
    let (_, rest) = blocks.split_at_mut(first);
    let (window, _) = rest.split_at_mut(count);
    pour(window, areas, share);
}
