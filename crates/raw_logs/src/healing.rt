//! The texts of a log: its lines without messages of strace's own and lines of stacks, where a line that a message
//! broke goes on with the next one. `healed` in `specs/Log.antt` says it line by line. Each text is made plain and gets
//! its number as it comes, so that no text is kept twice.

ghost use Rattle.std.specs.Prelude.{◌≡◌, ◌≤◌, ◌<◌, ◌+◌, ◌-◌, ◌^◌, ◌++◌, ◌∷◌, [], ℕ, List, length, Option, None, IfOk, OnOk};
ghost use Rattle.line_parts.specs.Lines.{lines_of};
ghost use Rattle.raw_logs.specs.declared.counts.Sort.TheVariants.{Stripped, Numbered as OfNumbered};
ghost use Rattle.raw_logs.specs.declared.numbering.Numbering.TheVariants.{Plain};
ghost use Rattle.raw_logs.specs.Log.{Numbered, line_of, texts_of, goes_on, is_gap, IsLog};
ghost use Rattle.raw_logs.specs.Numbering.{IsNumbering, IsRenumbered};
ghost use Rattle.raw_logs.specs.Stages.{part_of, Takes, IsMade, AreWritten};

use crate::counts::{Counts, Sort};
use crate::lines::Lines;
use crate::numbering::{Numbering, first_of, numbering_of, renumbered};
use line_parts::next_line;
use memchr::memrchr;
use raw_lines::{broken, is_message, is_stack_line, is_unread, plain_parts};
use std::alloc::{AllocError, Global};

/// The lines of a log, and what is cut off behind its last newline.
pub(crate) fn split_log(text: &[u8]) -> (&[u8], &[u8])
    ensures log { IsLog text.now (lines_of result.0.now) result.1.now }
    ensures within { length result.0.now ≤ length text.now }
{
    match memrchr(b'\n', text) {
        Some(at) => text.split_at(at + 1),
        None => (&[], text),
    }
}

/// Texts as they are written, plain and with their numbers, and how many of them that changed.
#[derive(Drop)]
pub(crate) struct Changed {
    /// The texts.
    pub(crate) lines: Lines,
    /// How many were made plain.
    pub(crate) plain: Counts,
    /// How many got another number.
    pub(crate) numbered: Counts,
    /// How they are numbered.
    pub(crate) numbering: Numbering,
}

impl Changed {
    ghost use Rattle.std.specs.Prelude.{if◌then◌else◌};
    ghost use Rattle.raw_logs.specs.Counting.{no_counts, one_more_of};

    /// No text, in the room that lines had.
    fn new(room: Lines, numbering: Numbering) -> Changed
        ensures lines { result.lines ≡ [] }
        ensures plain { result.plain ≡ no_counts }
        ensures numbered { result.numbered ≡ no_counts }
        ensures numbering { result.numbering ≡ numbering }
    {
        let mut lines = room;
        lines.clear(first_of(numbering));
        Changed {
            lines,
            plain: Counts::new(),
            numbered: Counts::new(),
            numbering,
        }
    }

    /// Adds a text with its number.
    fn add_numbered(
        &mut self,
        number: u32,
        text: &[u8],
        first: Option<u32>,
    ) -> Result<(), AllocError>
        ensures made { OnOk result ((texts : List Numbered)
            → IsMade (IsRenumbered (Plain first)) OfNumbered texts self.old.lines self.old.numbered
            → IsMade (IsRenumbered (Plain first)) OfNumbered (texts ++ (line_of number text.now ∷ [])) self.new.lines self.new.numbered) }
        ensures one { OnOk result (length self.new.lines ≡ length self.old.lines + 1) }
        ensures plain { self.new.plain ≡ self.old.plain }
        ensures numbering { self.new.numbering ≡ self.old.numbering }
    {
        let Some((pid, body)) = renumbered(first, text) else {
            self.lines.push(number, &[], &[], text)?;
            return Ok(());
        };
        self.lines.push_numbered(number, pid, body)?;
        self.numbered.add(Sort::Numbered);
        Ok(())
    }

    /// Adds a plain text, which stands in two parts, with its number.
    fn add_plain(
        &mut self,
        alloc: Global,
        number: u32,
        front: &[u8],
        end: &[u8],
    ) -> Result<(), AllocError>
        ensures made { OnOk result ((texts : List Numbered)
            → IsMade (IsRenumbered self.old.numbering) OfNumbered texts self.old.lines self.old.numbered
            → IsMade (IsRenumbered self.old.numbering) OfNumbered (texts ++ (line_of number (front.now ++ end.now) ∷ [])) self.new.lines self.new.numbered) }
        ensures one { OnOk result (length self.new.lines ≡ length self.old.lines + 1) }
        ensures plain { self.new.plain ≡ self.old.plain }
        ensures numbering { self.new.numbering ≡ self.old.numbering }
    {
        match self.numbering {
            Numbering::AsPrinted => {
                self.lines.push(number, front, &[], end)?;
                Ok(())
            }
            Numbering::Plain(first) => {
                let mut text = Vec::from_slice(alloc, front)?;
                text.extend_from_slice(end)?;
                self.add_numbered(number, text.as_slice(), first)?;
                Ok(())
            }
        }
    }

    /// Counts a text that was made plain, where that changed it.
    fn count_if(&mut self, changes: bool)
        ensures plain { self.new.plain ≡ (if changes then one_more_of Stripped self.old.plain else self.old.plain) }
        ensures lines { self.new.lines ≡ self.old.lines }
        ensures numbered { self.new.numbered ≡ self.old.numbered }
        ensures numbering { self.new.numbering ≡ self.old.numbering }
    {
        if changes {
            self.plain.add(Sort::Stripped);
        }
    }

    /// Adds a text as it is written.
    fn add(&mut self, alloc: Global, number: u32, text: &[u8]) -> Result<(), AllocError>
        ensures made { OnOk result ((texts : List Numbered) → AreWritten self.old texts → AreWritten self.new (texts ++ (line_of number text.now ∷ []))) }
        ensures one { OnOk result (length self.new.lines ≡ length self.old.lines + 1) }
        ensures numbering { self.new.numbering ≡ self.old.numbering }
    {
        let (front, end) = plain_parts(text);
        self.count_if(front.len() + end.len() != text.len());
        self.add_plain(alloc, number, front, end)?;
        Ok(())
    }
}

/// The part of a line that a message broke off, with the number of that line.
#[derive(Debug, Drop)]
pub(crate) struct Part {
    number: u32,
    text: Vec<u8>,
}

/// What was read of a log so far.
#[derive(Drop)]
pub(crate) struct Healer {
    /// The part of a line that a message broke off, which waits for its rest.
    pub(crate) part: Option<Part>,
    /// The texts as they are written.
    pub(crate) written: Changed,
    /// What was left out.
    pub(crate) counts: Counts,
    alloc: Global,
}

impl Healer {
    ghost use Rattle.std.specs.Prelude.{Some};
    ghost use Rattle.raw_logs.specs.declared.counts.Sort.TheVariants.{Messages};
    ghost use Rattle.raw_logs.specs.Counting.{one_more_of};

    /// Nothing was read; texts take the room that lines had.
    fn new(alloc: Global, room: Lines, numbering: Numbering) -> Healer
        ensures takes { Takes result [] }
        ensures none { result.written.lines ≡ [] }
        ensures numbering { result.written.numbering ≡ numbering }
    {
        Healer {
            part: None,
            written: Changed::new(room, numbering),
            counts: Counts::new(),
            alloc,
        }
    }

    /// Whether a line is empty, and no part waits for it.
    fn is_blank(&self, text: &[u8]) -> bool
        ensures { result ≡ is_gap (part_of self.now) text.now }
    {
        if text.is_empty() {
            return self.part.is_none();
        }
        false
    }

    /// Keeps a line of this number, behind the part that waits.
    fn keep(&mut self, number: u32, text: &[u8]) -> Result<(), AllocError>
        ensures made { OnOk result ((texts : List Numbered) → AreWritten self.old.written texts
            → AreWritten self.new.written (texts ++ (goes_on (part_of self.old) number text.now ∷ []))) }
        ensures one { OnOk result (length self.new.written.lines ≡ length self.old.written.lines + 1) }
        ensures numbering { self.new.written.numbering ≡ self.old.written.numbering }
        ensures none { OnOk result (part_of self.new ≡ None) }
        ensures counts { self.new.counts ≡ self.old.counts }
    {
        let part = self.go_on(number, text)?;
        self.written
            .add(self.alloc, part.number, part.text.as_slice())?;
        Ok(())
    }

    /// A text of a line of this number, behind the part that waits.
    fn go_on(&mut self, number: u32, front: &[u8]) -> Result<Part, AllocError>
        ensures part { IfOk result (λ part. line_of part.number part.text.items ≡ goes_on (part_of self.old) number front.now) }
        ensures none { OnOk result (part_of self.new ≡ None) }
        ensures written { self.new.written ≡ self.old.written }
        ensures counts { self.new.counts ≡ self.old.counts }
    {
        match self.part.take() {
            Some(mut part) => {
                part.text.extend_from_slice(front)?;
                Ok(part)
            }
            None => Ok(Part {
                number,
                text: Vec::from_slice(self.alloc, front)?,
            }),
        }
    }

    /// Keeps what stands of a line of this number before the message that broke into it, until its rest comes.
    fn wait(&mut self, number: u32, front: &[u8]) -> Result<(), AllocError>
        ensures part { OnOk result (part_of self.new ≡ Some (goes_on (part_of self.old) number front.now)) }
        ensures written { self.new.written ≡ self.old.written }
        ensures counts { OnOk result (self.new.counts ≡ one_more_of Messages self.old.counts) }
    {
        self.counts.add(Sort::Messages);
        let part = self.go_on(number, front)?;
        self.part = Some(part);
        Ok(())
    }

    /// Takes the next line, which has this number.
    fn take(&mut self, text: &[u8], number: u32) -> Result<(), AllocError>
        ensures takes { OnOk result ((before : List (List ℕ)) → Takes self.old before → length before + 1 ≡ number
            → Takes self.new (before ++ (text.now ∷ []))) }
        ensures one { OnOk result (length self.new.written.lines ≤ length self.old.written.lines + 1) }
        ensures numbering { self.new.written.numbering ≡ self.old.written.numbering }
    {
        if is_message(text) {
            self.counts.add(Sort::Messages);
            return Ok(());
        }
        if is_stack_line(text) {
            self.counts.add(Sort::Stack);
            return Ok(());
        }
        if is_unread(text) {
            self.keep(number, text)?;
            return Ok(());
        }
        if let Some(front) = broken(text) {
            self.wait(number, front)?;
            return Ok(());
        }
        if self.is_blank(text) {
            return Ok(());
        }
        self.keep(number, text)?;
        Ok(())
    }
}

/// The texts of the lines of a log, made plain and numbered so, in the room that lines had.
pub(crate) fn heal(
    alloc: Global,
    room: Lines,
    whole: &[u8],
    numbering: Numbering,
) -> Result<Healer, AllocError>
    requires { length whole.now < 2 ^ 32 - 1 }
    ensures takes { IfOk result (λ healer. Takes healer (lines_of whole.now)) }
    ensures few { IfOk result (λ healer. length healer.written.lines ≤ length whole.now) }
    ensures numbering { IfOk result (λ healer. healer.written.numbering ≡ numbering) }
{
    let mut healer = Healer::new(alloc, room, numbering);
    let mut number = 1;
    let mut rest = whole;
    'lines: while let Some((line, behind)) = next_line(rest) {
        healer.take(line, number)?;
        number += 1;
        rest = behind;
    }
    Ok(healer)
}

/// The texts of the lines of a log, made plain and numbered as the log is. Where numbers change it is read once more,
/// into the same room, since each text is kept once.
pub(crate) fn heal_numbered(alloc: Global, whole: &[u8]) -> Result<Healer, AllocError>
    requires { length whole.now < 2 ^ 32 - 1 }
    ensures takes { IfOk result (λ healer. (t : Takes healer (lines_of whole.now))
        × IsNumbering (lines_of whole.now) (texts_of t.written.plain) healer.written.numbering) }
    ensures few { IfOk result (λ healer. length healer.written.lines ≤ length whole.now) }
{
    let healer = heal(alloc, Lines::new(alloc), whole, Numbering::AsPrinted)?;
    let numbering = numbering_of(alloc, whole, &healer.written.lines)?;
    match numbering {
        Numbering::AsPrinted => Ok(healer),
        Numbering::Plain(_) => {
            let again = heal(alloc, healer.written.lines, whole, numbering)?;
            Ok(again)
        }
    }
}
