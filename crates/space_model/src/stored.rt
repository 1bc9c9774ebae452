//! A change of a list of areas that stands in blocks, in room that was reserved: the blocks at its place are gathered
//! into one list, that list is changed as `splice` changes one, and its areas are poured back into the same blocks.
//! Where they have become too many for these, all blocks are filled anew, each in half; then some hundred changes go by
//! before that happens again. Nothing here takes memory but `stored_in_blocks`.

ghost use Rattle.std.specs.Prelude.{◌≡◌, ◌<◌, ◌≤◌, ◌+◌, ◌*◌, ◌^◌, None, MatchOption, IfOk, IfSome, length};
ghost use Rattle.page_types.specs.declared.TheConstants.{ROWS};
ghost use Rattle.page_types.specs.Named.{IsNamedReply};
ghost use Rattle.space_model.specs.Areas.{IsAreaList, HasNamedKinds, row_count};
ghost use Rattle.space_model.specs.Effect.{AreRising};
ghost use Rattle.space_model.specs.Judges.{IsNamedChange, Makes, patches_of};
ghost use Rattle.space_model.specs.Blocks.{areas_of, IsStored, IsPlace};

use crate::areas::Area;
use crate::blocks::{Block, cut_back, cut_front, empty_blocks, gather_at, pour, pour_at};
use crate::counts::{row_count, rows_between};
use crate::judged::{Change, full_reply};
use crate::splice::{planned, replace};
use page_types::{LIMIT, ROWS, Reply};
use std::alloc::{AllocError, Global};

/// How many areas a block is filled with where all are filled anew.
const HALF: usize = 512;

/// How many blocks there are, beside one for each `HALF` areas at the start.
const LEAST: usize = 256;

/// A list of areas in blocks, with room for what a change makes of it.
#[derive(Drop, Debug)]
pub struct Stored {
    /// The blocks.
    pub blocks: Vec<Block>,
    /// The number of rows.
    pub rows: u32,
    /// The most areas that there may be.
    pub room: usize,
    /// Room for the areas at the place of a change; what is in it doesn't count.
    pub taken: Vec<Area>,
    /// Room for what becomes of them.
    pub middle: Vec<Area>,
}

/// The place of a change: blocks, the page where the areas before them end, and that where the areas behind them start.
#[derive(Clone, Copy)]
struct Place {
    first: usize,
    count: usize,
    from: u64,
    to: u64,
}

/// How many areas go into each of so many blocks, if they have room for all.
fn share_of(areas: usize, blocks: usize) -> Option<usize>
    requires few { blocks < 2 ^ 24 }
    requires fit { areas < 2 ^ 32 }
    ensures { MatchOption result (512 * blocks < areas) (λ share. (share ≤ 1024) × (areas ≤ share * blocks)) }
{
    if areas <= HALF * blocks {
        return Some(HALF);
    }
    if blocks == 0 {
        return None;
    }
    let share = areas / blocks + 1;
    if share <= 2 * HALF && areas <= share * blocks {
        Some(share)
    } else {
        None
    }
}

/// These areas in blocks.
pub fn stored_in_blocks(alloc: Global, areas: &[Area]) -> Result<Stored, AllocError>
    requires in_order { IsAreaList areas.now }
    requires named { HasNamedKinds areas.now }
    requires few { length areas.now < 2 ^ 30 }
    ensures areas { IfOk result (λ s. areas_of s.blocks.items ≡ areas.now) }
    ensures stored { IfOk result IsStored }
{
    let room = areas.len().max(ROWS);
    let taken = Vec::with_capacity(alloc, 2 * room + 6)?;
    let middle = Vec::with_capacity(alloc, 8 * room + 8)?;
    let mut blocks = empty_blocks(alloc, LEAST + areas.len() / HALF)?;
    pour(blocks.as_mut_slice(), areas, HALF);
    Ok(Stored {
        blocks,
        rows: row_count(areas),
        room,
        taken,
        middle,
    })
}

impl Stored {
    /// Changes the pages of one patch or two, unless the result would have more than `ROWS` rows. It takes no memory.
    pub fn change(&mut self, change: Change) -> Reply
        requires stored { IsStored self.old }
        requires named { IsNamedChange change }
        requires rising { AreRising 0 (patches_of change) }
        ensures stored { IsStored self.new }
        ensures made { Makes (areas_of self.old.blocks.items) change result (areas_of self.new.blocks.items) }
        ensures named { IsNamedReply result }
    {
        let place = self.place_of(change);
        if let Some(reply) = self.change_at(place, change) {
            return reply;
        }
        let whole = Place {
            first: 0,
            count: self.blocks.len(),
            from: 0,
            to: LIMIT,
        };
        match self.change_at(whole, change) {
            Some(reply) => reply,
            None => unreachable!(),
        }
    }

    /// The blocks of all areas that a change touches.
    fn place_of(&self, change: Change) -> Place
        requires stored { IsStored self.now }
        requires rising { AreRising 0 (patches_of change) }
        ensures { IsPlace self.now.blocks.items change result }
    {
        let blocks = self.blocks.as_slice();
        let (first, from) = cut_front(blocks, change.first.lo.saturating_sub(1));
        let (_, rest) = blocks.split_at(first);
        let (count, to) = cut_back(rest, change.end());
        Place {
            first,
            count,
            from,
            to,
        }
    }

    /// Changes the areas of some blocks, or nothing and gives None where these have no room for what becomes of them.
    fn change_at(&mut self, place: Place, change: Change) -> Option<Reply>
        requires stored { IsStored self.old }
        requires place { IsPlace self.old.blocks.items change place }
        requires named { IsNamedChange change }
        requires rising { AreRising 0 (patches_of change) }
        ensures stored { IsStored self.new }
        ensures made { IfSome result (λ reply. Makes (areas_of self.old.blocks.items) change reply (areas_of self.new.blocks.items)) }
        ensures named { IfSome result IsNamedReply }
        ensures none { result ≡ None → (self.new.blocks.items ≡ self.old.blocks.items) × (512 * place.count < ROWS) }
    {
        let Place {
            first,
            count,
            from,
            to,
        } = place;
        gather_at(&mut self.taken, self.blocks.as_slice(), first, count);
        let taken = self.taken.as_slice();
        let outside = self.rows - rows_between(from, taken, to);
        let Ok(plan) = planned(&mut self.middle, taken, row_count(taken), change) else {
            unreachable!()
        };
        let Ok(()) = replace(&mut self.taken, plan.first, plan.end, &mut self.middle) else {
            unreachable!()
        };
        let rows = outside + rows_between(from, self.taken.as_slice(), to);
        if rows as usize > ROWS {
            return Some(full_reply(change.full, rows));
        }
        let share = share_of(self.taken.len(), count)?;
        pour_at(
            self.blocks.as_mut_slice(),
            first,
            count,
            self.taken.as_slice(),
            share,
        );
        self.rows = rows;
        Some(change.reply)
    }
}
