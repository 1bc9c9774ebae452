//! The address space of one thread: a list of areas, as proc_pid_maps(5) prints them. A page is found in it by halving,
//! and a change builds only the areas anew that it touches. Callers see the list alone. It is always an area list of
//! fewer than 2^30 areas, whose kinds have named bits alone.

ghost use Rattle.std.specs.Prelude.{◌≡◌, ◌^◌, ◌<◌, ◌↔◌, [], None, IfOk, IfErr, IsOk, OnErr, length};
ghost use Rattle.page_types.specs.Named.{IsNamedCall, IsNamedReply};
ghost use Rattle.space_model.specs.Areas.{IsAreaList, IsInOrder, HasKinds, HasNamedKinds, kind_at, row_count};
ghost use Rattle.page_types.specs.PlainReply.{plain_reply};
ghost use Rattle.space_model.specs.Answers.{Answers};
ghost use Rattle.space_model.specs.Effect.{AreRising};
ghost use Rattle.space_model.specs.Judges.{IsNamedChange, Makes, patches_of};
ghost use Rattle.space_model.specs.Faults.{Explains};
ghost use Rattle.space_model.specs.Held.{HoldsSomeArea, IsSimple, FitsByState, FitsUnder};

use crate::areas::Area;
use crate::build::joined_pieces;
use crate::calls::judge;
use crate::counts::row_count;
use crate::entries::Under;
use crate::faults::{AreasFault, NotAreas};
use crate::held::protect_under;
use crate::judged::{Change, Judged, full_reply};
use crate::judging::Pages;
use crate::order::first_wrong;
use crate::reserved::ReservedSpace;
use crate::search::{end_of, highest_fit, kind_of};
use crate::sorts::Sort;
use crate::splice::{planned, replace};
use crate::stored::stored_in_blocks;
use page_types::{Call, Kind, PAGE, ROWS, Reply, Span, plain};
use std::alloc::{AllocError, Global};
use std::marker::Model;

/// The address space of one thread; contracts see it as the list of its areas.
#[derive(Drop, Debug)]
pub struct PlainSpace {
    areas: Vec<Area>,
    /// Room for the areas that a change puts into the list; what is in it doesn't count.
    spare: Vec<Area>,
    /// The number of rows of `areas`.
    row_total: u32,
}

impl Model for PlainSpace {
    ghost use Rattle.std.specs.Prelude.{List, ◌≡◌, ◌<◌, ◌^◌, length};
    ghost use Rattle.space_model.specs.declared.areas.Area.{Area};
    ghost use Rattle.space_model.specs.Areas.{IsAreaList, HasNamedKinds, row_count};

    ghost Value = { List Area };

    ghost view = { λ s. s.areas.items };

    ghost invariant = { λ s. IsAreaList s.areas.items × HasNamedKinds s.areas.items
        × (length s.areas.items < 2 ^ 30) × (s.row_total ≡ row_count s.areas.items) };
}

impl PlainSpace {
    /// An address space with no area. It allocates nothing.
    pub fn new(alloc: Global) -> PlainSpace
        ensures { result ≡ [] }
    {
        PlainSpace {
            areas: Vec::new(alloc),
            spare: Vec::new(alloc),
            row_total: 1,
        }
    }

    /// The address space with these areas.
    ///
    /// It is refused exactly where the list isn't an area list: areas in range, sorted and disjoint, and two
    /// that touch of different kinds. The refusal names the first wrong area.
    pub fn of_areas(alloc: Global, list: &[Area]) -> Result<PlainSpace, AreasFault>
        requires few { length list.now < 2 ^ 30 }
        requires named { HasNamedKinds list.now }
        ensures space { IfOk result (λ space. space ≡ list.now) }
        ensures in_order { IsOk result → IsAreaList list.now }
        ensures fault { IfErr result (Explains list.now) }
    {
        if let Some(index) = first_wrong(list) {
            return Err(AreasFault::NotAreas(NotAreas { index }));
        }
        match Vec::from_slice(alloc, list) {
            Ok(areas) => Ok(PlainSpace {
                areas,
                spare: Vec::new(alloc),
                row_total: row_count(list),
            }),
            Err(_) => Err(AreasFault::Memory),
        }
    }

    /// The same address space once more.
    pub fn copied(&self, alloc: Global) -> Result<PlainSpace, AllocError>
        ensures { IfOk result (λ space. space ≡ self.now) }
    {
        let areas = Vec::from_slice(alloc, self.areas.as_slice())?;
        Ok(PlainSpace {
            areas,
            spare: Vec::new(alloc),
            row_total: self.row_total,
        })
    }

    /// The range that has to be held when a call draws its number on this space.
    ///
    /// A Protect that its arguments don't decide holds its area exactly where that is sealed or the change keeps the
    /// number of areas and of gaps, and everything otherwise. It takes no memory.
    pub fn under(&self, call: &Call) -> Under
        ensures fits { FitsUnder self.now call.now result }
        ensures simple { HoldsSomeArea result ↔ ((plain_reply call.now ≡ None) × IsSimple self.now call.now) }
    {
        if plain(call).is_some() {
            return Under::Nothing;
        }
        self.undecided_under(call)
    }

    /// The same for a call that its arguments don't decide.
    fn undecided_under(&self, call: &Call) -> Under
        requires { plain_reply call.now ≡ None }
        ensures fits { FitsByState self.now call.now result }
        ensures simple { HoldsSomeArea result ↔ IsSimple self.now call.now }
    {
        match *call {
            Call::Map { .. }
            | Call::Unmap { .. }
            | Call::Seal { .. }
            | Call::Brk { .. }
            | Call::Remap { .. } => Under::Whole,
            Call::Protect { addr, len, prot } => protect_under(
                self.areas.as_slice(),
                addr,
                len,
                prot,
            ),
            Call::Fault { addr, .. } => Under::Reader(Span::of_page(addr / PAGE)),
        }
    }

    /// The address space whose pages have the kinds of these areas, fewer than 2^30: in range, sorted and disjoint, as
    /// maps lines have them. Where two of one kind touch they become one.
    pub fn of_pieces(alloc: Global, pieces: &[Area]) -> Result<PlainSpace, AllocError>
        requires in_order { IsInOrder 0 pieces.now }
        requires few { length pieces.now < 2 ^ 30 }
        requires named { HasNamedKinds pieces.now }
        ensures { IfOk result (HasKinds (kind_at pieces.now)) }
    {
        let areas = joined_pieces(alloc, pieces)?;
        let row_total = row_count(areas.as_slice());
        Ok(PlainSpace {
            areas,
            spare: Vec::new(alloc),
            row_total,
        })
    }

    /// The same address space with room reserved, so that its calls take no memory.
    pub fn reserved(&self) -> Result<ReservedSpace, AllocError>
        ensures { IfOk result (λ space. space ≡ self.now) }
    {
        let alloc = *self.areas.allocator();
        let stored = stored_in_blocks(alloc, self.areas.as_slice())?;
        Ok(ReservedSpace { stored })
    }

    /// The areas, in order.
    pub fn areas(&self) -> &[Area]
        ensures list { result.now ≡ self.now }
        ensures in_order { IsAreaList self.now }
        ensures named { HasNamedKinds self.now }
    {
        self.areas.as_slice()
    }

    /// The number of rows: areas and the gaps between 0 and `LIMIT`, counted together.
    pub fn rows(&self) -> u32
        ensures { result ≡ row_count self.now }
    {
        self.row_total
    }

    /// Makes one call: gives its reply, and changes the space where that isn't a refusal.
    ///
    /// Where there is no memory nothing has changed.
    pub fn step(&mut self, call: &Call) -> Result<Reply, AllocError>
        requires { IsNamedCall call.now }
        ensures answer { IfOk result (λ reply. Answers self.old call.now reply self.new) }
        ensures named { IfOk result IsNamedReply }
        ensures memory { OnErr result (self.new ≡ self.old) }
    {
        if let Some(reply) = plain(call) {
            return Ok(reply);
        }
        self.undecided_step(call)
    }

    /// Makes one call as `step` does, and gives beside the reply what `under` gives before it, with one check of the
    /// arguments for both.
    pub fn step_under(&mut self, call: &Call) -> Result<(Reply, Under), AllocError>
        requires { IsNamedCall call.now }
        ensures answer { IfOk result (λ both. Answers self.old call.now both.0 self.new) }
        ensures named { IfOk result (λ both. IsNamedReply both.0) }
        ensures fits { IfOk result (λ both. FitsUnder self.old call.now both.1) }
        ensures simple { IfOk result (λ both. HoldsSomeArea both.1 ↔ ((plain_reply call.now ≡ None) × IsSimple self.old call.now)) }
        ensures memory { OnErr result (self.new ≡ self.old) }
    {
        match plain(call) {
            Some(reply) => Ok((reply, Under::Nothing)),
            None => {
                let under = self.undecided_under(call);
                let reply = self.undecided_step(call)?;
                Ok((reply, under))
            }
        }
    }

    /// Makes a call that its arguments don't decide.
    fn undecided_step(&mut self, call: &Call) -> Result<Reply, AllocError>
        requires named { IsNamedCall call.now }
        requires undecided { plain_reply call.now ≡ None }
        ensures answer { IfOk result (λ reply. Answers self.old call.now reply self.new) }
        ensures named { IfOk result IsNamedReply }
        ensures memory { OnErr result (self.new ≡ self.old) }
    {
        let _ = &self.areas;
        match judge(&*self, &mut (), call) {
            Judged::Refused(why) => Ok(Reply::Refused(why)),
            Judged::Keeps(reply) => Ok(reply),
            Judged::Changes(change) => self.change(change),
        }
    }

    /// Changes the pages of one patch or two, unless the result would have more than `ROWS` rows.
    fn change(&mut self, change: Change) -> Result<Reply, AllocError>
        requires named { IsNamedChange change }
        requires rising { AreRising 0 (patches_of change) }
        ensures made { IfOk result (λ reply. Makes self.old change reply self.new) }
        ensures named { IfOk result IsNamedReply }
        ensures memory { OnErr result (self.new ≡ self.old) }
    {
        let areas = self.areas.as_slice();
        let plan = planned(&mut self.spare, areas, self.row_total, change)?;
        let rows = plan.rows;
        if rows as usize > ROWS {
            return Ok(full_reply(change.full, rows));
        }
        replace(&mut self.areas, plan.first, plan.end, &mut self.spare)?;
        self.row_total = rows;
        Ok(change.reply)
    }
}

impl Pages for PlainSpace {
    ghost use Rattle.std.specs.Prelude.{refl};
    ghost use Rattle.space_model.specs.Looking.{none_at_most};

    type Hand = ();

    ghost may_look = { λ _ _. Unit {0} };

    ghost kinds = { λ areas _. kind_at areas };

    ghost looked = { λ _ _ _. Unit {0} };

    ghost no_look = { λ _ _. tt };

    ghost looks_on = { λ _ _ _ _ _ _. tt };

    ghost same_kinds = { λ _ _ _ _ _. (tt, refl) };

    ghost looks = { λ _ _. 0 };

    ghost reach = { λ _ _ _ _. 0 };

    ghost same_reach = { λ _ _ _ _ _. refl };

    ghost reach_within = { λ _ _ _ _ _ _ _ _. none_at_most };

    ghost fit_looks = { λ _ _. 0 };

    ghost same_fit = { λ _ _ _ _ _. refl };

    fn kind_of(&self, _hand: &mut (), page: u64) -> Option<Kind> {
        kind_of(self.areas.as_slice(), page)
    }

    fn end_of(&self, _hand: &mut (), sort: Sort, lo: u64, hi: u64) -> u64 {
        end_of(self.areas.as_slice(), sort, lo, hi)
    }

    fn highest_fit(&self, _hand: &mut (), window: u64, pages: u64) -> Option<u64> {
        highest_fit(self.areas.as_slice(), window, pages)
    }
}
