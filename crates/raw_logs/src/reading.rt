//! The whole of the reading: the texts of a log, their numbers, and whose they are. The log is in memory as a whole.
//! `AreTexts` in `specs/Reading.antt` is the result.

ghost use Rattle.std.specs.Prelude.{◌≡◌, ◌⊎◌, ◌≤◌, ◌<◌, ◌^◌, ℕ, List, [], length, true, false, Option, Some, None, option_map, IfOk, IfErr, if◌then◌else◌};
ghost use Rattle.raw_logs.specs.declared.fault.LogFault.TheVariants.{NoProcess, Memory};
ghost use Rattle.std.specs.BTreeSet.{contains};
ghost use Rattle.std.specs.Ordering.{nat_cmp};
ghost use Rattle.raw_logs.specs.Spaces.{speaks};
ghost use Rattle.raw_logs.specs.declared.told.Told.{Told as ToldOf};
ghost use Rattle.raw_logs.specs.Choosing.{picked_of, fault_of, long_fault};
ghost use Rattle.raw_logs.specs.Reading.{IsNumberedLog, AreTexts, IsFirstUnknown, IsLogFault, EndsCut};
ghost use Rattle.raw_logs.specs.Log.{Numbered};
ghost use Rattle.raw_logs.specs.Stages.{part_line, AreShort, HasSpeakers, seen};
ghost use Rattle.raw_logs.specs.Told.{AreTold};

use crate::choosing::{Picker, chosen, pick, with_numbers};
use crate::counts::Counts;
use crate::fault::LogFault;
use crate::healing::{Changed, Part, heal_numbered, split_log};
use crate::lines::Lines;
use crate::spaces::{all_made, chooser_of, silent, speakers, twice, unmade};
use std::alloc::{AllocError, Global};
use std::collections::BTreeSet;

/// The texts of a log that are written.
#[derive(Debug, Drop)]
pub struct Texts {
    /// The texts, each with the number of its line.
    pub lines: Lines,
    /// How many lines of each sort were changed or left out.
    pub counts: Counts,
    /// The number of the first line whose beginning isn't known; such lines are left out.
    pub unknown: Option<u32>,
    /// The log ends within a line, which is left out.
    pub ends_cut: bool,
}

/// The texts of a log, each with its number.
#[derive(Drop)]
struct NumberedLog {
    lines: Lines,
    counts: Counts,
    ends_cut: bool,
}

/// Whether a log ends within a line: bytes are left behind the last newline, or a part of a line waits for its rest.
fn ends_within(cut: &[u8], part: &Option<Part>) -> bool
    ensures none { result ≡ false → (cut.now ≡ []) × (option_map part_line part.now ≡ None) }
    ensures some { (cut.now ≡ []) → option_map part_line part.now ≡ None → result ≡ false }
{
    if !cut.is_empty() {
        return true;
    }
    part.is_some()
}

/// The texts of a log, plain and with their numbers.
fn read_texts(alloc: Global, text: &[u8]) -> Result<NumberedLog, AllocError>
    requires { length text.now ≤ 67108864 }
    ensures read { IfOk result (λ found. IsNumberedLog text.now found.lines found.counts) }
    ensures few { IfOk result (λ found. length found.lines ≤ length text.now) }
    ensures cut { IfOk result (λ found. EndsCut text.now found.ends_cut) }
{
    let (whole, cut) = split_log(text);
    let healer = heal_numbered(alloc, whole)?;
    let ends_cut = ends_within(cut, &healer.part);
    let healed = healer.counts;
    let Changed {
        lines,
        plain,
        numbered,
        ..
    } = healer.written;
    Ok(NumberedLog {
        lines,
        counts: healed.with(plain.with(numbered)),
        ends_cut,
    })
}

/// What is picked of the lines of a log, of which these numbers have some, and the lines that are written.
fn pick_lines(
    alloc: Global,
    lines: Lines,
    process: Option<u32>,
    speakers: &BTreeSet<u32>,
) -> Result<(Picker, Lines), AllocError>
    requires { length lines < 2 ^ 32 }
    ensures picked { HasSpeakers speakers.now lines → IfOk result (λ found. (tolds : List ToldOf) × AreTold lines tolds
        × (seen found.1 found.0 ≡ picked_of process lines tolds)) }
    ensures few { IfOk result (λ found. length found.1 ≤ length lines) }
    ensures short { IfOk result (λ found. AreShort found.1) }
{
    let count = lines.len() as u32;
    let made = all_made(alloc, &lines)?;
    let chooser = chooser_of(alloc, made.as_slice(), process, count)?;
    let others = unmade(alloc, &lines, made.as_slice())?;
    let again = twice(alloc, made.as_slice())?;
    let picked = pick(alloc, &lines, &chooser)?;
    let picker = with_numbers(picked, silent(made.as_slice(), speakers), others, again);
    let kept = chosen(alloc, lines, &chooser, picker.start)?;
    Ok((picker, kept))
}

/// Whether a process is asked for that has no line.
fn is_silent(speakers: &BTreeSet<u32>, process: Option<u32>) -> bool
    ensures { (tolds : List ToldOf) → ((q : ℕ) → contains nat_cmp speakers.now q ≡ speaks q tolds) → (too_long : Option ℕ)
        → fault_of process tolds too_long ≡ (if result then Some NoProcess else long_fault too_long) }
{
    match process {
        Some(asked) => !speakers.contains(&asked),
        None => false,
    }
}

/// Reads a raw log of strace(1), of at most 67,108,864 bytes, up to the texts of the process that is asked for and its
/// threads, or of the program and its threads.
///
/// `Err`: a line of a call is too long, the process has no line, or there was no memory.
pub fn read_log(alloc: Global, text: &[u8], process: Option<u32>) -> Result<Texts, LogFault>
    requires { length text.now ≤ 67108864 }
    // They are the texts that are written.
    ensures texts { IfOk result (λ found. AreTexts process text.now found.lines found.counts) }
    // The first line whose beginning isn't known.
    ensures unknown { IfOk result (λ found. IsFirstUnknown process text.now found.unknown) }
    // None is longer than a line may be.
    ensures short { IfOk result (λ found. AreShort found.lines) }
    // There are no more of them than bytes.
    ensures few { IfOk result (λ found. length found.lines ≤ length text.now) }
    // Whether the log ends within a line.
    ensures cut { IfOk result (λ found. EndsCut text.now found.ends_cut) }
    // A fault has its cause.
    ensures fault { IfErr result (λ fault. (fault ≡ Memory) ⊎ IsLogFault process text.now fault) }
{
    let found = read_texts(alloc, text)?;
    let speakers = speakers(alloc, &found.lines)?;
    let alone = is_silent(&speakers, process);
    let (picker, lines) = pick_lines(alloc, found.lines, process, &speakers)?;
    if alone {
        return Err(LogFault::NoProcess);
    }
    if let Some(line) = picker.too_long {
        return Err(LogFault::LongLine { line });
    }
    Ok(Texts {
        lines,
        counts: found.counts.with(picker.counts),
        unknown: picker.unknown,
        ends_cut: found.ends_cut,
    })
}
