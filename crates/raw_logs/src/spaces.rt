//! Which numbers are of one address space, and which lines are of its past. Lines of clone(2) and its like tell who
//! made whom, and whether as a thread; `specs/Spaces.antt` says what follows. A log is read from its end, so that the
//! second half of a call is known where it began.

ghost use Rattle.std.specs.Prelude.{◌≡◌, ◌+◌, ◌++◌, ◌∷◌, [], ℕ, List, Option, length, IfOk, OnOk};
ghost use Rattle.std.specs.BTreeMap.{get};
ghost use Rattle.std.specs.BTreeSet.{contains};
ghost use Rattle.std.specs.Ordering.{nat_cmp};
ghost use Rattle.std.specs.Prelude.{◌≢◌, ◌<◌, ◌^◌, ◌==◌, Some, None, is_some, true, if◌then◌else◌};
ghost use Rattle.raw_logs.specs.declared.spaces.Made.{Made as MadeOf};
ghost use Rattle.raw_logs.specs.declared.told.Told.{Told as ToldOf};
ghost use Rattle.raw_logs.specs.Spaces.{links, made_from, has_left, led, has_line, speaks, silent, twice, unmade, foreign};
ghost use Rattle.raw_logs.specs.Counting.{within_32_bits};
ghost use Rattle.raw_logs.specs.Told.{AreTold};
ghost use Rattle.raw_logs.specs.Stages.{HasMade, AreLatestFirst, pair_cmp, home_at, last_at, space_in, HasSpaces};
ghost use Rattle.raw_logs.specs.Stages.{IsPast, limit_in, IsChooser, or_else, HasSpeakers, HasNumbers, HasKnown};

use crate::lines::Lines;
use crate::told::{Told, told_of};
use raw_lines::{MadeAs, Making};
use std::alloc::{AllocError, Global};
use std::collections::{BTreeMap, BTreeSet};

/// A number that another made.
#[derive(Clone, Copy, PartialEq, Eq, Debug)]
pub(crate) struct Made {
    /// The place of the line that made it, or that began to; places count from 0.
    pub(crate) place: u32,
    /// Whose call it was.
    pub(crate) parent: u32,
    /// The number that was made.
    pub(crate) child: u32,
    /// As what.
    pub(crate) kind: MadeAs,
    /// The place behind that where it first tells of execve(2).
    pub(crate) exec: Option<u32>,
}

/// Who made whom, by the lines behind a place.
#[derive(Drop)]
struct Makers {
    /// Of each process, the number that the call made which it began before these lines.
    ended: BTreeMap<u32, u32>,
    /// Of each process, the place of the first of these lines that tells of execve(2).
    execs: BTreeMap<u32, u32>,
    /// Who made whom, the latest first.
    made: Vec<Made>,
}

/// The place where a process tells of execve(2), as far as it is known.
fn exec_of(execs: &BTreeMap<u32, u32>, pid: u32) -> Option<u32>
    ensures { result ≡ get nat_cmp execs.now pid }
{
    match execs.get(&pid) {
        Some(place) => Some(*place),
        None => None,
    }
}

impl Makers {
    /// Adds what a call made, where it made one.
    fn add(
        &mut self,
        place: u32,
        parent: u32,
        kind: MadeAs,
        child: Option<u32>,
    ) -> Result<(), AllocError>
        ensures made { OnOk result (self.new.made.items ≡ self.old.made.items ++ links place parent kind (λ q. get nat_cmp self.old.execs q) child) }
        ensures ended { self.new.ended ≡ self.old.ended }
        ensures execs { self.new.execs ≡ self.old.execs }
    {
        let Some(child) = child else {
            return Ok(());
        };
        let exec = exec_of(&self.execs, child);
        self.made.push(Made {
            place,
            parent,
            child,
            kind,
            exec,
        })?;
        Ok(())
    }

    /// The process tells of execve(2) at this place, before the lines that were taken.
    fn exec(&mut self, pid: u32, place: u32) -> Result<(), AllocError>
        ensures execs { OnOk result (get nat_cmp self.new.execs pid ≡ Some place) }
        ensures others { OnOk result ((q : ℕ) → q ≢ pid → get nat_cmp self.new.execs q ≡ get nat_cmp self.old.execs q) }
        ensures ended { self.new.ended ≡ self.old.ended }
        ensures made { self.new.made ≡ self.old.made }
    {
        match self.execs.insert(pid, place) {
            Ok(_) => Ok(()),
            Err(_) => Err(AllocError),
        }
    }

    /// A call of the process ends here, and made this number.
    fn end(&mut self, pid: u32, child: Option<u32>) -> Result<(), AllocError>
        ensures ended { OnOk result (get nat_cmp self.new.ended pid ≡ child) }
        ensures others { OnOk result ((q : ℕ) → q ≢ pid → get nat_cmp self.new.ended q ≡ get nat_cmp self.old.ended q) }
        ensures made { self.new.made ≡ self.old.made }
        ensures execs { self.new.execs ≡ self.old.execs }
    {
        let Some(child) = child else {
            self.ended.remove(&pid);
            return Ok(());
        };
        match self.ended.insert(pid, child) {
            Ok(_) => Ok(()),
            Err(_) => Err(AllocError),
        }
    }

    /// A call of the process begins here: the number that it made, where it made one.
    fn begin(&mut self, pid: u32) -> Option<u32>
        ensures was { result ≡ get nat_cmp self.old.ended pid }
        ensures gone { get nat_cmp self.new.ended pid ≡ None }
        ensures others { (q : ℕ) → q ≢ pid → get nat_cmp self.new.ended q ≡ get nat_cmp self.old.ended q }
        ensures made { self.new.made ≡ self.old.made }
        ensures execs { self.new.execs ≡ self.old.execs }
    {
        self.ended.remove(&pid)
    }

    /// Takes the line before those that were taken, which tells this.
    fn take(&mut self, place: u32, told: Told) -> Result<(), AllocError>
        ensures { OnOk result ((tolds : List ToldOf) → HasMade self.old (place + 1) tolds → HasMade self.new place (told ∷ tolds)) }
    {
        match told.making {
            Making::Nothing => Ok(()),
            Making::Execs => {
                self.exec(told.pid, place)?;
                Ok(())
            }
            Making::Makes { kind, child } => {
                self.begin(told.pid);
                self.add(place, told.pid, kind, child)?;
                Ok(())
            }
            Making::Begins(kind) => {
                let child = self.begin(told.pid);
                self.add(place, told.pid, kind, child)?;
                Ok(())
            }
            Making::Ends(child) => {
                self.end(told.pid, child)?;
                Ok(())
            }
        }
    }
}

/// Who made whom, by the lines of a log, the latest first.
pub(crate) fn all_made(alloc: Global, lines: &Lines) -> Result<Vec<Made>, AllocError>
    requires { length lines.now < 2 ^ 32 }
    ensures { IfOk result (λ made. (tolds : List ToldOf) × AreTold lines.now tolds × (made.items ≡ made_from 0 tolds)) }
{
    let mut makers = Makers {
        ended: BTreeMap::new(alloc),
        execs: BTreeMap::new(alloc),
        made: Vec::new(alloc),
    };
    let mut room = Vec::new(alloc);
    'lines: for place in (0..lines.len()).rev() {
        let (_, text) = lines.at(place, &mut room)?;
        makers.take(place as u32, told_of(text))?;
    }
    Ok(makers.made)
}

/// An address space.
#[derive(Clone, Copy, PartialEq, Eq, Debug)]
pub(crate) struct Space {
    /// The place of the line that made it, or, where none did, the number of its first thread.
    pub(crate) id: u32,
    /// A line of the log made it: it isn't the program's.
    pub(crate) made: bool,
}

/// Where a number that was made is at home.
#[derive(Clone, Copy, PartialEq, Eq, Debug)]
pub(crate) struct Home {
    /// The space of its maker.
    pub(crate) maker: Space,
    /// The place of the line that made it.
    pub(crate) place: u32,
    /// As what it was made.
    pub(crate) kind: MadeAs,
    /// The place where it tells of execve(2).
    pub(crate) exec: Option<u32>,
}

/// Whether what was made so, and tells of execve(2) there, is in a space of its own at a place.
fn has_left(kind: MadeAs, exec: Option<u32>, place: u32) -> bool
    ensures { result ≡ has_left kind exec place }
{
    match kind {
        MadeAs::Process => true,
        MadeAs::Shared => match exec {
            Some(exec) => exec <= place,
            None => false,
        },
        MadeAs::Thread => false,
        MadeAs::Untold => false,
    }
}

/// The space of a number that the line at this place made, and that has left that of its maker or hasn't.
fn led(left: bool, place: u32, maker: Space) -> Space
    ensures { result ≡ led left place maker }
{
    if left {
        return Space {
            id: place,
            made: true,
        };
    }
    maker
}

/// The last home of a number up to a place.
fn last_home(homes: &BTreeMap<(u32, u32), Home>, pid: u32, place: u32) -> Option<Home>
    ensures { result ≡ last_at (home_at homes.now pid) place }
{
    let mut found = homes.range((pid, 0)..=(pid, place));
    match found.next_back() {
        Some((_, home)) => Some(*home),
        None => None,
    }
}

/// The space of a number at a place: its own, where nothing says another.
fn space_in(homes: &BTreeMap<(u32, u32), Home>, pid: u32, place: u32) -> Space
    ensures { result ≡ space_in homes.now pid place }
{
    match last_home(homes, pid, place) {
        Some(home) => led(
            has_left(home.kind, home.exec, place),
            home.place,
            home.maker,
        ),
        None => Space {
            id: pid,
            made: false,
        },
    }
}

/// The place from which on a home counts: 0 for the first of its number.
fn from_of(homes: &BTreeMap<(u32, u32), Home>, pid: u32, place: u32) -> u32
    ensures { result ≡ (if is_some (home_at homes.now pid 0) then place else 0) }
{
    if homes.contains_key(&(pid, 0)) {
        place
    } else {
        0
    }
}

/// Gives a number a home from a place on.
fn put_home(
    homes: &mut BTreeMap<(u32, u32), Home>,
    key: (u32, u32),
    home: Home,
) -> Result<(), AllocError>
    ensures is { OnOk result (get pair_cmp homes.new key ≡ Some home) }
    ensures others { OnOk result ((q : ℕ × ℕ) → q ≢ key → get pair_cmp homes.new q ≡ get pair_cmp homes.old q) }
{
    match homes.insert(key, home) {
        Ok(_) => Ok(()),
        Err(_) => Err(AllocError),
    }
}

/// Adds what a link says of the space of the number that it made, behind earlier ones.
fn add_home(homes: &mut BTreeMap<(u32, u32), Home>, link: Made) -> Result<(), AllocError>
    ensures { OnOk result ((made : List MadeOf) → HasSpaces homes.old made → HasSpaces homes.new (link ∷ made)) }
{
    let home = Home {
        maker: space_in(homes, link.parent, link.place),
        place: link.place,
        kind: link.kind,
        exec: link.exec,
    };
    let from = from_of(homes, link.child, link.place);
    put_home(homes, (link.child, from), home)
}

/// Where all numbers that were made are at home.
fn all_homes(alloc: Global, made: &[Made]) -> Result<BTreeMap<(u32, u32), Home>, AllocError>
    ensures { IfOk result (λ homes. HasSpaces homes made.now) }
{
    let mut homes = BTreeMap::new(alloc);
    let mut left = made;
    'links: while let Some((link, later)) = left.split_last() {
        add_home(&mut homes, *link)?;
        left = later;
    }
    Ok(homes)
}

/// Up to which place lines of spaces are of the past of a process.
#[derive(Drop)]
pub(crate) struct Past {
    /// Of spaces that lines made, by the places of those.
    born: BTreeMap<u32, u32>,
    /// The number that no line made, where the past begins.
    first: u32,
    /// Its limit.
    limit: u32,
}

/// Puts in up to which place lines of a space are of the past.
fn put_limit(past: &mut BTreeMap<u32, u32>, place: u32, limit: u32) -> Result<(), AllocError>
    ensures is { OnOk result (get nat_cmp past.new place ≡ Some limit) }
    ensures others { OnOk result ((q : ℕ) → q ≢ place → get nat_cmp past.new q ≡ get nat_cmp past.old q) }
{
    match past.insert(place, limit) {
        Ok(_) => Ok(()),
        Err(_) => Err(AllocError),
    }
}

/// Puts in up to which place lines of a space are of the past, where it isn't there yet.
fn add_past(past: &mut BTreeMap<u32, u32>, place: u32, limit: u32) -> Result<(), AllocError>
    ensures { OnOk result ((q : ℕ) → get nat_cmp past.new q ≡ or_else (get nat_cmp past.old q) (if place == q then Some limit else None)) }
{
    match past.get(&place) {
        Some(_) => Ok(()),
        None => put_limit(past, place, limit),
    }
}

/// Of each space of which lines are of the past of a process, the place before which they are.
fn past_of(alloc: Global, made: &[Made], asked: u32, count: u32) -> Result<Past, AllocError>
    ensures { IfOk result (λ past. IsPast past made.now asked count) }
{
    let mut past = BTreeMap::new(alloc);
    let mut pid = asked;
    let mut limit = count;
    let mut rest = made;
    'links: while let [link, earlier @ ..] = rest {
        rest = earlier;
        if link.child != pid {
            continue;
        }
        if has_left(link.kind, link.exec, limit) {
            add_past(&mut past, link.place, limit)?;
            limit = link.place;
        }
        pid = link.parent;
    }
    Ok(Past {
        born: past,
        first: pid,
        limit,
    })
}

impl Past {
    /// The place before which lines of a space are of the past.
    fn limit_of(&self, space: Space) -> Option<u32>
        ensures { result ≡ limit_in self.now space }
    {
        if space.made {
            return match self.born.get(&space.id) {
                Some(limit) => Some(*limit),
                None => None,
            };
        }
        if self.first == space.id {
            Some(self.limit)
        } else {
            None
        }
    }
}

/// Which lines are written.
#[derive(Drop)]
pub(crate) struct Chooser {
    /// Where the numbers that were made are at home.
    homes: BTreeMap<(u32, u32), Home>,
    /// The past of the process that is asked for; the program's lines are written where none is.
    past: Option<Past>,
}

impl Chooser {
    /// Whether a line that tells this is written, or would be if a later one didn't leave it out.
    pub(crate) fn has(&self, place: u32, told: Told) -> bool
        ensures { (process : Option ℕ) (made : List MadeOf) (count : ℕ) → IsChooser process made count self.now
            → result ≡ has_line process made count place told }
    {
        if told.marked {
            return true;
        }
        let space = space_in(&self.homes, told.pid, place);
        let Some(past) = &self.past else {
            return !space.made;
        };
        match past.limit_of(space) {
            Some(limit) => place < limit,
            None => false,
        }
    }
}

/// Which lines are written: of the process that is asked for, or of the program.
pub(crate) fn chooser_of(
    alloc: Global,
    made: &[Made],
    process: Option<u32>,
    count: u32,
) -> Result<Chooser, AllocError>
    ensures { IfOk result (λ chooser. AreLatestFirst made.now → IsChooser process made.now count chooser) }
{
    let homes = all_homes(alloc, made)?;
    let past = match process {
        Some(asked) => Some(past_of(alloc, made, asked, count)?),
        None => None,
    };
    Ok(Chooser { homes, past })
}

/// Puts a number in.
fn put_number(found: &mut BTreeSet<u32>, pid: u32) -> Result<(), AllocError>
    ensures { OnOk result ((q : ℕ) → contains nat_cmp found.new q ≡ (if pid == q then true else contains nat_cmp found.old q)) }
{
    match found.insert(pid) {
        Ok(_) => Ok(()),
        Err(_) => Err(AllocError),
    }
}

/// The numbers that have a line.
pub(crate) fn speakers(alloc: Global, lines: &Lines) -> Result<BTreeSet<u32>, AllocError>
    ensures { IfOk result (λ found. HasSpeakers found lines.now) }
{
    let mut found = BTreeSet::new(alloc);
    let mut room = Vec::new(alloc);
    'lines: for place in (0..lines.len()).rev() {
        let (_, text) = lines.at(place, &mut room)?;
        put_number(&mut found, told_of(text).pid)?;
    }
    Ok(found)
}

/// The numbers that links made, and 0, which stands where a line has none.
fn made_numbers(alloc: Global, made: &[Made]) -> Result<BTreeSet<u32>, AllocError>
    ensures { IfOk result (λ found. HasKnown found made.now []) }
{
    let mut found = BTreeSet::new(alloc);
    put_number(&mut found, 0)?;
    let mut left = made;
    'links: while let Some((link, later)) = left.split_last() {
        put_number(&mut found, link.child)?;
        left = later;
    }
    Ok(found)
}

/// Counts a link whose number was made before; the count stays at 2^32 - 1.
fn count_again(found: &mut BTreeSet<u32>, link: Made, count: u32) -> Result<u32, AllocError>
    ensures found { OnOk result ((done : List MadeOf) → HasNumbers found.old done → HasNumbers found.new (link ∷ done)) }
    ensures count { IfOk result (λ next. (done : List MadeOf) → HasNumbers found.old done
        → count ≡ within_32_bits (twice done) → next ≡ within_32_bits (twice (link ∷ done))) }
{
    if found.contains(&link.child) {
        put_number(found, link.child)?;
        return Ok(count.saturating_add(1));
    }
    put_number(found, link.child)?;
    Ok(count)
}

/// How many links made a number that an earlier one made; the count stays at 2^32 - 1.
pub(crate) fn twice(alloc: Global, made: &[Made]) -> Result<u32, AllocError>
    ensures { IfOk result (λ count. count ≡ within_32_bits (twice made.now)) }
{
    let mut found = BTreeSet::new(alloc);
    let mut count: u32 = 0;
    let mut left = made;
    'links: while let Some((link, later)) = left.split_last() {
        let next = count_again(&mut found, *link, count)?;
        count = next;
        left = later;
    }
    Ok(count)
}

/// Counts the number of a line, where it isn't known yet; the count stays at 2^32 - 1.
fn count_new(known: &mut BTreeSet<u32>, told: Told, count: u32) -> Result<u32, AllocError>
    ensures known { OnOk result ((made : List MadeOf) (tolds : List ToldOf) → HasKnown known.old made tolds → HasKnown known.new made (told ∷ tolds)) }
    ensures count { IfOk result (λ next. (made : List MadeOf) (tolds : List ToldOf) → HasKnown known.old made tolds
        → count ≡ within_32_bits (unmade made tolds) → next ≡ within_32_bits (unmade made (told ∷ tolds))) }
{
    if known.contains(&told.pid) {
        return Ok(count);
    }
    put_number(known, told.pid)?;
    Ok(count.saturating_add(1))
}

/// How many numbers have lines and were made by no link; the count stays at 2^32 - 1.
pub(crate) fn unmade(alloc: Global, lines: &Lines, made: &[Made]) -> Result<u32, AllocError>
    ensures { IfOk result (λ count. (tolds : List ToldOf) → AreTold lines.now tolds → count ≡ within_32_bits (unmade made.now tolds)) }
{
    let mut known = made_numbers(alloc, made)?;
    let mut count: u32 = 0;
    let mut room = Vec::new(alloc);
    'lines: for place in (0..lines.len()).rev() {
        let (_, text) = lines.at(place, &mut room)?;
        let next = count_new(&mut known, told_of(text), count)?;
        count = next;
    }
    Ok(count)
}

/// Of so many numbers that no link made, how many may be of other programs.
pub(crate) fn foreign(unmade: u32) -> u32
    ensures { result ≡ foreign unmade }
{
    unmade.saturating_sub(1)
}

/// How many links made numbers that aren't in a set; the count stays at 2^32 - 1.
pub(crate) fn silent(made: &[Made], speakers: &BTreeSet<u32>) -> u32
    ensures { (tolds : List ToldOf) → ((q : ℕ) → contains nat_cmp speakers.now q ≡ speaks q tolds)
        → result ≡ within_32_bits (silent made.now tolds) }
{
    let mut count: u32 = 0;
    let mut left = made;
    'links: while let Some((link, later)) = left.split_last() {
        if !speakers.contains(&link.child) {
            count = count.saturating_add(1);
        }
        left = later;
    }
    count
}
