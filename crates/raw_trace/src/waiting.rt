//! The calls that wait. They stand by the first page that they free and then by process, so that the first which frees
//! pages of a line is looked for only where one may stand: no further below the pages than the most that a call frees.
//! Contracts see the list of them in that order.

ghost use Rattle.std.specs.Prelude.{◌≡◌, ◌≢◌, ◌==◌, ◌≤◌, ◌+◌, ℕ, [], None, Some, IfSome, IsNone, OnOk, OnErr, unwrap_or};
ghost use Rattle.std.specs.BTreeMap.{insert_entry, IsOrdered, get};
ghost use Rattle.std.specs.Ordering.{nat_cmp};
ghost use Rattle.raw_trace.specs.Order.{frees_for, freed, meet, pick, put, of_others, pair_cmp};
ghost use Rattle.raw_trace.specs.Waiting.{entry, first_key, at_place, without_place, AreBound};

use crate::calls::{Pages, freed, meet, taken};
use crate::piece::Piece;
use std::alloc::{AllocError, Global};
use std::collections::BTreeMap;
use std::marker::Model;

/// The calls that wait.
#[derive(Debug, Drop)]
pub(crate) struct Waiting {
    /// Each by the first page that it frees and its process.
    pieces: BTreeMap<(u64, u32), Piece>,
    /// The first page that the call of a process frees.
    pages: BTreeMap<u32, u64>,
    /// No call frees more pages.
    longest: u64,
}

impl Model for Waiting {
    ghost use Rattle.std.specs.Prelude.{List};
    ghost use Rattle.raw_trace.specs.Order.{Entry};
    ghost use Rattle.raw_trace.specs.Waiting.{entries_in, AreKept};

    ghost Value = { List Entry };

    ghost view = { λ w. entries_in w.pieces.entries };

    ghost invariant = { λ w. AreKept w.pieces w.pages w.longest };
}

/// Where the first call stands that frees some of these pages, where none frees more than so many.
fn key_that_frees(
    pieces: &BTreeMap<(u64, u32), Piece>,
    longest: u64,
    pages: Pages,
) -> Option<(u64, u32)>
    requires { AreBound longest pieces.now.entries }
    ensures { result ≡ first_key (λ other. meet (freed other.call) pages) pieces.now.entries }
{
    if pages.from >= pages.to {
        return None;
    }
    let low = pages.from.saturating_sub(longest);
    'pieces: for (key, other) in pieces.range((low, 0)..(pages.to, 0)) {
        if meet(freed(other.call), pages) {
            return Some(*key);
        }
    }
    None
}

/// The first page that the call of a process frees, as far as it is known.
fn page_of(pages: &BTreeMap<u32, u64>, process: u32) -> u64
    ensures { result ≡ unwrap_or (get nat_cmp pages.now process) 0 }
{
    match pages.get(&process) {
        Some(page) => *page,
        None => 0,
    }
}

/// Takes out the call that stands at a place.
fn remove_at(pieces: &mut BTreeMap<(u64, u32), Piece>, place: Option<(u64, u32)>) -> Option<Piece>
    ensures was { result ≡ at_place place pieces.old.entries }
    ensures left { pieces.new.entries ≡ without_place place pieces.old.entries }
    ensures ordered { IsOrdered pair_cmp pieces.old → IsOrdered pair_cmp pieces.new }
{
    match place {
        Some(key) => pieces.remove(&key),
        None => None,
    }
}

/// Puts a call in. Where there is no memory for it, none changes.
fn put_piece(
    pieces: &mut BTreeMap<(u64, u32), Piece>,
    key: (u64, u32),
    piece: Piece,
) -> Result<(), AllocError>
    ensures entries { OnOk result (pieces.new.entries ≡ insert_entry pair_cmp pieces.old.entries key piece) }
    ensures same { OnErr result (pieces.new.entries ≡ pieces.old.entries) }
    ensures ordered { IsOrdered pair_cmp pieces.new }
{
    match pieces.insert(key, piece) {
        Ok(_) => Ok(()),
        Err(_) => Err(AllocError),
    }
}

/// Puts in the first page that the call of a process frees. Where there is no memory for it, none changes.
fn put_page(pages: &mut BTreeMap<u32, u64>, process: u32, page: u64) -> Result<(), AllocError>
    ensures is { OnOk result (get nat_cmp pages.new process ≡ Some page) }
    ensures others { (q : ℕ) → q ≢ process → get nat_cmp pages.new q ≡ get nat_cmp pages.old q }
{
    match pages.insert(process, page) {
        Ok(_) => Ok(()),
        Err(_) => Err(AllocError),
    }
}

/// The larger of a number and how many pages these are.
fn longer(longest: u64, pages: Pages) -> u64
    ensures low { longest ≤ result }
    ensures fits { pages.to ≤ pages.from + result }
{
    longest.max(pages.to.saturating_sub(pages.from))
}

impl Waiting {
    /// No call.
    pub(crate) fn new(alloc: Global) -> Waiting
        ensures { result ≡ [] }
    {
        Waiting {
            pieces: BTreeMap::new(alloc),
            pages: BTreeMap::new(alloc),
            longest: 0,
        }
    }

    /// Takes out the call of a process.
    pub(crate) fn take_of(&mut self, process: u32) -> Option<Piece>
        ensures some { IfSome result (λ piece. pick (λ other. other.process == process) self.old
            ≡ Some (record { first = entry piece; others = self.new })) }
        ensures none { IsNone result → (pick (λ other. other.process == process) self.old ≡ None) × (self.new ≡ self.old) }
        ensures others { self.new ≡ of_others process self.old }
    {
        let page = page_of(&self.pages, process);
        remove_at(&mut self.pieces, Some((page, process)))
    }

    /// Takes out the first call that frees pages for a line.
    pub(crate) fn take_that_frees(&mut self, piece: &Piece) -> Option<Piece>
        ensures some { IfSome result (λ other. pick (λ o. frees_for o (entry piece.now)) self.old
            ≡ Some (record { first = entry other; others = self.new })) }
        ensures none { IsNone result → (pick (λ o. frees_for o (entry piece.now)) self.old ≡ None) × (self.new ≡ self.old) }
    {
        let place = key_that_frees(&self.pieces, self.longest, taken(piece.call));
        remove_at(&mut self.pieces, place)
    }

    /// Adds a call, where none of its process waits.
    fn add(&mut self, piece: Piece) -> Result<(), AllocError>
        requires { pick (λ other. other.process == piece.process) self.old ≡ None }
        ensures { OnOk result (self.new ≡ put (entry piece) self.old) }
    {
        let pages = freed(piece.call);
        put_page(&mut self.pages, piece.process, pages.from)?;
        self.longest = longer(self.longest, pages);
        put_piece(&mut self.pieces, (pages.from, piece.process), piece)
    }

    /// Adds a call, in the place of one that waits of its process.
    pub(crate) fn insert(&mut self, piece: Piece) -> Result<(), AllocError>
        ensures { OnOk result (self.new ≡ put (entry piece) (of_others piece.process self.old)) }
    {
        self.take_of(piece.process);
        self.add(piece)
    }
}
