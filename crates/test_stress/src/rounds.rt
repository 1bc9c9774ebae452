//! Rounds on a running address space. Each round is closed, and its history judged by the one-thread model: every entry
//! has to have its place's number and the reply that the model gives, every caller's calls have to be there once and in
//! order, and the areas that are left have to be the model's.
ghost use Rattle.std.specs.Prelude.{List, true, ◌≡◌, ◌<◌, IfOk, OnOk};
ghost use Rattle.space_model.specs.declared.entries.Entry.{Entry};
ghost use Rattle.page_types.specs.Named.{IsNamedCall};
ghost use Rattle.space_model.specs.History.{IsLegal};
ghost use Rattle.area_rows.specs.Rows.{keeps_by};
ghost use Rattle.area_rows.specs.Callers.{IsWhole};
ghost use Rattle.test_crews.specs.Crews.{IsCrew};

use crate::callers::call_all;
use crate::counts::{Entries, Tries};
use crate::cuts::cut_of;
use crate::limit::Limit;
use anyhow::{Result, bail, ensure};
use area_rows::{Answer, Caller, Closed, Space};
use list_cuts::Cut;
use page_types::{Access, Call, PAGE, Reply};
use space_model::{Area, Entry, PlainSpace, have_named_calls, have_named_kinds, legal};
use std::alloc::Global;
use std::sync::{Mutex, Wait};
use std::thread::Threads;
use std::time::Clock;
use test_crews::{call_by, open_cut_crew};

/// How many callers a round has.
const CALLERS: usize = 16;

/// How many pages are worked on, from page 16 on.
const PAGES: u64 = 64;

/// Whether the entries are so many calls of each caller, in the order of its lines.
fn are_all_lines(entries: &[Entry], calls: u32) -> bool {
    let mut made = [0u32; CALLERS];
    for entry in entries {
        let caller = entry.worker as usize;
        if caller >= CALLERS || entry.line != made[caller].wrapping_add(1) {
            return false;
        }
        made[caller] = entry.line;
    }
    made.iter().all(|count| *count == calls)
}

/// Plays entries on the space of one thread.
fn play_on(model: &mut PlainSpace, entries: &[Entry]) -> Result<()> {
    'entries: for entry in entries {
        ensure!(entry.call.is_named(), "a call has unnamed bits");
        model.step(&entry.call)?;
    }
    Ok(())
}

/// Whether the areas that are left are those of the model, which begins with this space.
fn leaves_the_same(alloc: Global, start: &PlainSpace, closed: &Closed) -> Result<bool> {
    let mut model = start.copied(alloc)?;
    let played = play_on(&mut model, closed.entries());
    let same = model.areas() == closed.areas();
    drop(model);
    played?;
    Ok(same)
}

/// Judges a history that began with this space.
fn judge(alloc: Global, start: &PlainSpace, closed: &Closed, calls: u32) -> Result<()>
    ensures legal { OnOk result (IsLegal start.now closed.now.entries) }
{
    let entries = closed.entries();
    ensure!(are_all_lines(entries, calls), "a call is missing");
    ensure!(
        have_named_calls(entries) && entries.len() < 1 << 32,
        "no history to judge"
    );
    if let Some(first) = legal(alloc, start, entries)? {
        bail!("entry {first} is not as a legal history has it");
    }
    ensure!(
        leaves_the_same(alloc, start, closed)?,
        "other areas are left"
    );
    Ok(())
}

/// Closes a space with all of its callers, and gives its history.
fn close(alloc: Global, space: Space, callers: Vec<Caller>) -> Result<Closed>
    requires crew { IsCrew space.table space.seats callers.items }
    requires keeps { keeps_by space.table ≡ true }
    ensures whole { IfOk result (λ c. IsWhole callers.items c.entries c.areas) }
{
    let Ok(closed) = space.close(alloc, callers) else {
        bail!("no memory to close a space");
    };
    Ok(closed)
}

/// One round of so many calls of each caller on a space that begins with this one: its closed history.
fn closed_round<R: Threads + Wait + Sync>(
    rt: &R,
    alloc: Global,
    start: &PlainSpace,
    cut: Cut,
    seed: u64,
    calls: u32,
    total: &Mutex<Tries>,
) -> Result<Closed> {
    let Ok((space, mut callers)) = open_cut_crew(alloc, true, &[calls; CALLERS], cut, start) else {
        bail!("no memory for a space");
    };
    call_all(rt, &space, callers.as_mut_slice(), true, seed, calls, total);
    close(alloc, space, callers)
}

/// One round of so many calls of each caller, and its entries by what they are.
fn play_round<R: Threads + Wait + Sync>(
    rt: &R,
    alloc: Global,
    cut: Cut,
    seed: u64,
    calls: u32,
    entries: &mut Entries,
    total: &Mutex<Tries>,
) -> Result<()> {
    let start = PlainSpace::new(alloc);
    let closed = closed_round(rt, alloc, &start, cut, seed, calls, total)?;
    let judged = judge(alloc, &start, &closed, calls);
    for entry in closed.entries() {
        entries.count(entry);
    }
    drop(closed);
    drop(start);
    judged
}

/// A read of the first byte of a page that is worked on, counted from 0.
fn read_at(index: u64) -> Call
    requires { index < 64 }
    ensures { IsNamedCall result }
{
    Call::Fault {
        addr: (16 + index) * PAGE,
        access: Access::Read,
    }
}

/// What the first caller of a crew is answered to a read of each page that is worked on.
fn read_all<R: Wait>(
    rt: &R,
    alloc: Global,
    space: &Space,
    callers: &mut [Caller],
) -> Result<Vec<Reply>>
    requires { IsCrew space.now.table space.now.seats callers.old }
    ensures { IsCrew space.now.table space.now.seats callers.new }
{
    let mut replies = Vec::new(alloc);
    for index in 0..PAGES {
        let Answer::Given(entry) = call_by(rt, space, callers, 1, read_at(index)) else {
            bail!("a caller has no number left");
        };
        replies.push(entry.reply)?;
    }
    Ok(replies)
}

/// The areas answer a read of each page as it was answered.
fn answer_alike(alloc: Global, areas: &[Area], replies: &[Reply]) -> Result<()> {
    ensure!(
        areas.len() < 1 << 30 && have_named_kinds(areas),
        "no areas to judge"
    );
    let Ok(mut model) = PlainSpace::of_areas(alloc, areas) else {
        bail!("no area list, or no memory for it");
    };
    let mut alike = true;
    for (index, reply) in replies.iter().enumerate() {
        let at = index as u64;
        if at < PAGES {
            let answer = model.step(&read_at(at))?;
            alike = alike && answer == *reply;
        }
    }
    drop(model);
    ensure!(alike, "other areas are left");
    Ok(())
}

/// Closes a space, and gives the areas that are left.
fn close_areas(alloc: Global, space: Space, callers: Vec<Caller>) -> Result<Vec<Area>>
    requires { IsCrew space.table space.seats callers.items }
    ensures left { IfOk result (λ areas. (history : List Entry) × IsWhole callers.items history areas.items) }
{
    let Ok(areas) = space.close_areas(alloc, callers) else {
        bail!("no memory to close a space");
    };
    Ok(areas)
}

/// One round of so many calls of each caller on a space that keeps no history: what each page answers at its end, and
/// the areas that are left.
fn unkept_round<R: Threads + Wait + Sync>(
    rt: &R,
    alloc: Global,
    cut: Cut,
    seed: u64,
    calls: u32,
    total: &Mutex<Tries>,
) -> Result<(Vec<Reply>, Vec<Area>)> {
    let start = PlainSpace::new(alloc);
    let Ok((space, mut callers)) = open_cut_crew(alloc, false, &[0; CALLERS], cut, &start) else {
        bail!("no memory for a space");
    };
    call_all(
        rt,
        &space,
        callers.as_mut_slice(),
        false,
        seed,
        calls,
        total,
    );
    let replies = read_all(rt, alloc, &space, callers.as_mut_slice());
    let areas = close_areas(alloc, space, callers)?;
    Ok((replies?, areas))
}

/// The same, judged: the areas that are left have to answer each page as it was answered.
pub fn play_unkept<R: Threads + Wait + Sync>(
    rt: &R,
    alloc: Global,
    cut: Cut,
    seed: u64,
    calls: u32,
    total: &Mutex<Tries>,
) -> Result<()> {
    let (replies, areas) = unkept_round(rt, alloc, cut, seed, calls, total)?;
    answer_alike(alloc, areas.as_slice(), replies.as_slice())
}

/// What rounds on address spaces came to.
#[derive(Clone, Copy, Debug)]
pub struct SpaceStress {
    /// How many there were.
    pub rounds: u64,
    /// Their entries.
    pub entries: Entries,
    /// The faults that were tried once.
    pub tries: Tries,
}

/// Rounds of 16 callers with so many calls each until the limit is past, and at least one with each cut: each on a
/// space that keeps its history, and then on one that doesn't. A history that isn't legal, or areas that answer
/// otherwise than their space did, end them with an error.
pub fn stress_space<R: Threads + Wait + Sync + Clock>(
    rt: &R,
    alloc: Global,
    seed: u64,
    calls: u32,
    limit: Limit,
) -> Result<SpaceStress> {
    let total = Mutex::new(Tries::none());
    let mut entries = Entries::none();
    let mut rounds = 0;
    for round in 0..u64::MAX {
        let seed = seed.wrapping_add(round);
        let cut = cut_of(round);
        play_round(rt, alloc, cut, seed, calls, &mut entries, &total)?;
        play_unkept(rt, alloc, cut, seed, calls, &total)?;
        rounds = round + 1;
        if limit.is_past(rt)? && rounds >= 2 {
            break;
        }
    }
    let tries = *total.lock(rt);
    Ok(SpaceStress {
        rounds,
        entries,
        tries,
    })
}
