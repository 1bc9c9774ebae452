//! Which lines of a log are written, and what is left out by its cause. `picked` in `specs/Choosing.antt` says it from
//! the last line to the first, as lines are looked at here; they are taken from the first to the last, behind that.

ghost use Rattle.std.specs.Prelude.{◌≡◌, ◌≢◌, ◌≤◌, ◌<◌, ◌^◌, ◌+◌, ◌++◌, ◌∷◌, [], ℕ, List, Option, Some, Bool, true, false, length, drop, IfOk, if◌then◌else◌};
ghost use Rattle.raw_logs.specs.Buffer.{IsSieve, kept_in, rest_in};
ghost use Rattle.raw_logs.specs.declared.told.Told.{Told as ToldOf};
ghost use Rattle.raw_logs.specs.declared.spaces.Made.{Made as MadeOf};
ghost use Rattle.raw_logs.specs.Log.{Numbered, line_of};
ghost use Rattle.raw_logs.specs.Choosing.{hides, with_own, with_line, with_numbers};
ghost use Rattle.raw_logs.specs.Spaces.{execs, has_line};
ghost use Rattle.raw_logs.specs.Told.{Tells, AreTold};
ghost use Rattle.raw_logs.specs.Stages.{seen, written, keeps, kept_from, HasPicked, AreShort, IsChooser};

use crate::counts::{Counts, Sort};
use crate::lines::{Lines, Sieve};
use crate::spaces::{Chooser, foreign};
use crate::told::{Form, Told, told_of};
use raw_lines::{MadeAs, Making};
use std::alloc::{AllocError, Global};

/// What was picked of the lines behind a place.
#[derive(Clone, Copy)]
pub(crate) struct Picker {
    /// The place from which on lines are written that may be.
    pub(crate) start: u32,
    /// How many are not, by cause.
    pub(crate) counts: Counts,
    /// One of those tells of execve(2).
    pub(crate) ended: bool,
    /// The first line whose beginning isn't known.
    pub(crate) unknown: Option<u32>,
    /// The first line of a call of the profile that is too long.
    pub(crate) too_long: Option<u32>,
}

/// Whether a line tells of execve(2).
fn execs(making: Making) -> bool
    ensures { result ≡ execs making }
{
    making == Making::Execs
}

/// Whether a line makes a number, or begins to, and doesn't show as what.
fn hides(making: Making) -> bool
    ensures { result ≡ hides making }
{
    match making {
        Making::Makes {
            kind,
            child: Some(_),
        } => kind == MadeAs::Untold,
        Making::Begins(kind) => kind == MadeAs::Untold,
        _ => false,
    }
}

impl Picker {
    /// Adds a line of the space, before those that were added: whether it is written.
    fn add_own(&mut self, number: u32, told: Told) -> bool
        ensures seen { (text : List ℕ) (lines : List Numbered) → seen (written result (line_of number text) lines) self.new
            ≡ with_own told.form (line_of number text) told.making (seen lines self.old) }
        ensures start { self.new.start ≡ self.old.start }
        ensures is { result ≡ keeps told.form true }
    {
        match told.form {
            Form::Blank => {}
            Form::Unknown => {
                self.counts.add(Sort::Unknown);
                self.unknown = Some(number);
            }
            Form::Long => {
                self.counts.add(Sort::Long);
                self.ended = execs(told.making);
            }
            Form::TooLong => self.too_long = Some(number),
            Form::Whole => {
                if hides(told.making) {
                    self.counts.add(Sort::Untold);
                }
                self.ended = execs(told.making);
                return true;
            }
        }
        false
    }

    /// Adds a line before those that were added, which is of the space or not: whether it is written.
    fn add(&mut self, number: u32, told: Told, here: bool) -> bool
        ensures seen { (text : List ℕ) (lines : List Numbered) → seen (written result (line_of number text) lines) self.new
            ≡ with_line here (line_of number text) told (seen lines self.old) }
        ensures start { self.new.start ≡ self.old.start }
        ensures begins { self.old.ended ≡ false → result ≡ keeps told.form here }
        ensures stays { self.old.ended ≡ true → (result ≡ false) × (self.new.ended ≡ true) }
    {
        if told.form == Form::Blank {
            return false;
        }
        if !here {
            self.counts.add(Sort::Elsewhere);
            return false;
        }
        if self.ended {
            self.counts.add(Sort::Earlier);
            return false;
        }
        self.add_own(number, told)
    }

    /// Lines are written from this place on, unless those that were added have a later beginning.
    fn start_at(&mut self, place: u32)
        ensures start { self.new.start ≡ (if self.old.ended then self.old.start else place) }
        ensures seen { (lines : List Numbered) → seen lines self.new ≡ seen lines self.old }
    {
        if !self.ended {
            self.start = place;
        }
    }

    /// Looks at the line of a place, before those that were looked at.
    fn look(&mut self, place: u32, number: u32, told: Told, here: bool)
        ensures start { self.new.start ≡ (if self.old.ended then self.old.start else place) }
        ensures picked { (here_of : ℕ → ToldOf → Bool) (lines : List Numbered) (tolds : List ToldOf) (text : List ℕ)
            → HasPicked here_of lines tolds (place + 1) self.old → drop place lines ≡ line_of number text ∷ drop (place + 1) lines
            → drop place tolds ≡ told ∷ drop (place + 1) tolds → here ≡ here_of place told → HasPicked here_of lines tolds place self.new }
    {
        self.start_at(place);
        self.add(number, told, here);
    }
}

/// What was picked, with how many numbers were made that have no line, how many others have, and how many were made
/// twice.
pub(crate) fn with_numbers(picker: Picker, silent: u32, unmade: u32, twice: u32) -> Picker
    ensures seen { (lines : List Numbered) → seen lines result ≡ with_numbers silent unmade twice (seen lines picker) }
    ensures start { result.start ≡ picker.start }
{
    let mut picker = picker;
    picker.counts.silent = silent;
    picker.counts.foreign = foreign(unmade);
    picker.counts.twice = twice;
    picker
}

/// What is picked of the lines of a log.
pub(crate) fn pick(alloc: Global, lines: &Lines, chooser: &Chooser) -> Result<Picker, AllocError>
    requires { length lines.now < 2 ^ 32 }
    ensures picked { IfOk result (λ picker. (process : Option ℕ) (made : List MadeOf) (count : ℕ) (tolds : List ToldOf)
        → IsChooser process made count chooser.now → AreTold lines.now tolds → HasPicked (has_line process made count) lines.now tolds 0 picker) }
    ensures start { IfOk result (λ picker. picker.start ≤ length lines.now) }
{
    let mut picker = Picker {
        start: lines.len() as u32,
        counts: Counts::new(),
        ended: false,
        unknown: None,
        too_long: None,
    };
    let mut room = Vec::new(alloc);
    'lines: for place in (0..lines.len()).rev() {
        let (number, text) = lines.at(place, &mut room)?;
        let told = told_of(text);
        let here = chooser.has(place as u32, told);
        picker.look(place as u32, number, told, here);
    }
    Ok(picker)
}

/// Keeps the next line, where it is written.
fn pass(sieve: &mut Sieve, told: Told, here: bool)
    requires is { IsSieve sieve.old }
    requires left { rest_in sieve.old ≢ [] }
    ensures is { IsSieve sieve.new }
    ensures kept { (line : Numbered) (more rest : List Numbered) → rest_in sieve.old ≡ line ∷ more
        → kept_in sieve.new ++ rest ≡ kept_in sieve.old ++ written (keeps told.form here) line rest }
    ensures rest { (line : Numbered) (more : List Numbered) → rest_in sieve.old ≡ line ∷ more → rest_in sieve.new ≡ more }
    ensures few { length (kept_in sieve.new) ≤ length (kept_in sieve.old) + 1 }
    ensures short { (line : Numbered) (more : List Numbered) → rest_in sieve.old ≡ line ∷ more → Tells line.text told
        → AreShort (kept_in sieve.old) → AreShort (kept_in sieve.new) }
{
    if told.form == Form::Whole && here {
        sieve.keep();
    } else {
        sieve.skip();
    }
}

/// The lines that are written: from a place on all that may be.
pub(crate) fn chosen(
    alloc: Global,
    lines: Lines,
    chooser: &Chooser,
    start: u32,
) -> Result<Lines, AllocError>
    requires start { start ≤ length lines }
    requires few { length lines < 2 ^ 32 }
    ensures kept { IfOk result (λ kept. (process : Option ℕ) (made : List MadeOf) (count : ℕ) (tolds : List ToldOf)
        → IsChooser process made count chooser.now → AreTold lines tolds → kept ≡ kept_from (has_line process made count) start lines tolds) }
    ensures few { IfOk result (λ kept. length kept ≤ length lines) }
    ensures short { IfOk result AreShort }
{
    let count = lines.len() as u32;
    let mut sieve = Sieve::new(lines, start as usize);
    let mut room = Vec::new(alloc);
    'places: for place in start..count {
        let (_, text) = sieve.next(&mut room)?;
        let told = told_of(text);
        let here = chooser.has(place, told);
        pass(&mut sieve, told, here);
    }
    Ok(sieve.finish())
}
