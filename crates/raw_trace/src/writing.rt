//! What is written, place by place: whole lines as they come, and the line of two halves where the order has it.
//! `IsStep` in `specs/Places.antt` says what a text does, from the texts before and behind.

ghost use Rattle.std.specs.Prelude.{◌≡◌, ◌≢◌, ◌⊎◌, ◌≤◌, ◌<◌, ◌+◌, ◌-◌, ◌^◌, ℕ, List, [], ◌∷◌, ◌++◌, length, take, drop, reverse, true, false, Some, slice_get, All};
ghost use Rattle.std.specs.Prelude.{IfOk, IfErr, OnOk, IfSome, IsNone, if◌then◌else◌};
ghost use Rattle.raw_logs.specs.Counting.{one_more_of};
ghost use Rattle.raw_logs.specs.declared.counts.Counts.{Counts as CountsOf};
ghost use Rattle.raw_logs.specs.Log.{Numbered as NumberedOf, line_of};
ghost use Rattle.raw_trace.specs.declared.fault.Fault.TheVariants.{Memory};
ghost use Rattle.raw_trace.specs.Faults.{IsEntryFault};
ghost use Rattle.std.specs.Bool.{Decides};
ghost use Rattle.raw_trace.specs.Places.{Becomes, IsReadAs, Changes, IsOtherForm, doubles, IsCause, IsTrouble, other_form, IsEntry};
ghost use Rattle.raw_trace.specs.Rewriting.{text_of, is_form, is_unanswered, counted, counted_entry, counted_call};
ghost use Rattle.raw_trace.specs.Waiting.{entry};
ghost use Rattle.raw_trace.specs.Stages.{AreRoles, MayBeWritten, WroteLines, DidSome, StandsAt, WroteAll, EndsAll};

use crate::calls::{ReadCall, call_of};
use crate::fault::{Cause, Fault, Trouble};
use crate::halves::Role;
use crate::heaps::{call_line, instead};
use crate::order::Ordering;
use crate::piece::Piece;
use crate::roles::Roles;
use crate::settling::{Ending, cause_of, joined, settle};
use crate::tally::Tally;
use crate::waiting::Waiting;
use page_types::Call;
use raw_lines::changes_space;
use raw_logs::{Counts, LINE_LIMIT, Lines, Sort};
use std::alloc::{AllocError, Global};
use strace_reader::{Item, Recorded, cut, ends_with, read_line};

/// Fewer texts aren't let go.
const FEW: usize = 1024;

/// The lines that are written, and what was changed in them.
#[derive(Drop)]
pub(crate) struct Written {
    /// The lines, each with its newline.
    pub(crate) out: Vec<u8>,
    /// What was joined, mended, or left unread.
    pub(crate) counts: Counts,
    /// How many of them are calls.
    pub(crate) calls: Tally,
}

impl Written {
    /// Counts a line by how it became so.
    fn count_ending(&mut self, ending: Ending)
        ensures counts { self.new.counts ≡ counted ending self.old.counts }
        ensures calls { self.new.calls ≡ self.old.calls }
        ensures out { self.new.out ≡ self.old.out }
    {
        match ending {
            Ending::AsItIs => {}
            Ending::ByMends => self.counts.add(Sort::Mended),
            Ending::AsUnreturned => self.counts.add(Sort::Unreturned),
            Ending::AsUnread => self.counts.add(Sort::Unread),
            Ending::AsInjected => self.counts.add(Sort::Injected),
            Ending::AsOutside => self.counts.add(Sort::Outside),
        }
    }

    /// Counts a line of a sort, where it is one.
    fn count_if(&mut self, is: bool, sort: Sort)
        ensures counts { self.new.counts ≡ if is then one_more_of sort self.old.counts else self.old.counts }
        ensures calls { self.new.calls ≡ self.old.calls }
        ensures out { self.new.out ≡ self.old.out }
    {
        if is {
            self.counts.add(sort);
        }
    }

    /// Counts a line.
    fn count(&mut self, piece: &Piece)
        ensures counts { self.new.counts ≡ counted_entry (entry piece.now) self.old.counts }
        ensures calls { self.new.calls ≡ counted_call piece.now.call self.old.calls }
        ensures out { self.new.out ≡ self.old.out }
    {
        self.count_if(piece.joined, Sort::Joined);
        self.count_if(is_form(piece.trouble), Sort::Forms);
        self.count_if(is_unanswered(piece.call), Sort::Unanswered);
        self.count_ending(piece.ending);
        self.calls = self.calls.with(piece.call);
    }

    /// Writes a line that may be written, with its newline.
    fn push(&mut self, line: &[u8]) -> Result<(), AllocError>
        ensures out { OnOk result (self.new.out.items ≡ self.old.out.items ++ text_of (line.now ∷ [])) }
        ensures counts { self.new.counts ≡ self.old.counts }
        ensures calls { self.new.calls ≡ self.old.calls }
    {
        self.out.extend_from_slice(line)?;
        if self.out.push(b'\n').is_err() {
            return Err(AllocError);
        }
        Ok(())
    }

    /// Writes a line, or what is written instead, and counts it, unless it is too long, or isn't read where every line
    /// has to be.
    pub(crate) fn write(&mut self, alloc: Global, piece: &Piece, strict: bool) -> Result<(), Fault>
        ensures wrote { OnOk result (WroteLines strict self.old (entry piece.now ∷ []) self.new) }
        ensures fault { IfErr result (λ fault. (fault ≡ Memory) ⊎ IsEntryFault strict (entry piece.now) fault) }
    {
        if let Some(fault) = fault_of(piece, strict) {
            return Err(fault);
        }
        let read = instead(self.calls, piece.call);
        self.count(piece);
        let Some(read) = read else {
            self.push(piece.line.as_slice())?;
            return Ok(());
        };
        let line = call_line(alloc, read)?;
        self.push(line.as_slice())?;
        Ok(())
    }
}

/// Whether a line is a call whose result isn't told.
fn is_unanswered(call: Option<ReadCall>) -> bool
    ensures { result ≡ is_unanswered call }
{
    match call {
        None => false,
        Some(read) => read.recorded.is_none(),
    }
}

/// Why a line may not be written.
fn fault_of(piece: &Piece, strict: bool) -> Option<Fault>
    ensures some { IfSome result (IsEntryFault strict (entry piece.now)) }
    ensures none { IsNone result → MayBeWritten strict (entry piece.now) }
{
    if piece.line.len() > LINE_LIMIT {
        return Some(Fault::LongLine { line: piece.number });
    }
    if !strict {
        return None;
    }
    let trouble = piece.trouble?;
    Some(Fault::Unreadable {
        line: piece.number,
        column: trouble.column,
        cause: trouble.cause,
    })
}

/// Whether a call isn't played for its form.
fn is_form(trouble: Option<Trouble>) -> bool
    ensures { result ≡ is_form trouble }
{
    match trouble {
        Some(
            Trouble {
                cause: Cause::OtherForm,
                ..
            },
        ) => true,
        _ => false,
    }
}

/// Rooms for a text and for its second half.
#[derive(Drop)]
struct Rooms {
    first: Vec<u8>,
    second: Vec<u8>,
}

/// The text at a place, with the number of its line, where so many texts at the beginning were let go. It stands in
/// this room, or where it is kept.
fn text_at<'a>(
    left: &'a Lines,
    gone: usize,
    place: usize,
    room: &'a mut Vec<u8>,
) -> Result<(u32, &'a [u8]), AllocError>
    requires gone { gone ≤ place }
    requires place { place - gone < length left.now }
    ensures { IfOk result (λ found. (lines : List NumberedOf) → left.now ≡ drop gone lines
        → (line : NumberedOf) → slice_get lines place ≡ Some line → line_of found.0 found.1.now ≡ line) }
{
    left.at(place - gone, room)
}

/// The line of two halves: what is kept of the first, with the number of its process, and of the second.
fn line_of_halves(
    alloc: Global,
    first: &[u8],
    second: &[u8],
    to: u32,
    behind: u32,
) -> Result<Vec<u8>, AllocError>
    requires first { to ≤ length first.now }
    requires second { behind ≤ length second.now }
    ensures { IfOk result (λ line. line.items ≡ take to first.now ++ drop behind second.now) }
{
    let front = &first[..to as usize];
    let back = &second[behind as usize..];
    joined(alloc, front, back)
}

/// The call of a line that became so.
fn call_as(line: &[u8], ending: Ending) -> Option<ReadCall>
    requires { (from : List ℕ) × Becomes from line.now ending }
    ensures { IsReadAs line.now result }
{
    match ending {
        Ending::AsUnread => None,
        _ => call_of(line),
    }
}

/// Whether a line changes an address space, by the call that it names; one that never returned doesn't.
fn changes(line: &[u8]) -> bool
    ensures { Decides result (Changes line.now) }
{
    if ends_with(line, b"= ?") {
        return false;
    }
    let (_, body) = cut(line);
    changes_space(body)
}

/// Whether a call gives pages a second mapping.
fn doubles(call: Call, recorded: Option<Recorded>) -> bool
    ensures { result ≡ doubles call recorded }
{
    match (call, recorded) {
        (Call::Remap { old_len, .. }, Some(Recorded::Value(_))) => old_len == 0,
        _ => false,
    }
}

/// Whether a line is a call that changes an address space, in a form that the profile hasn't.
fn is_other_form(line: &[u8]) -> bool
    requires { length line.now ≤ 65535 }
    ensures { Decides result (IsOtherForm line.now) }
{
    match read_line(line) {
        Ok(Item::Other) => changes(line),
        Ok(Item::Played { call, recorded, .. }) => doubles(call, recorded),
        _ => false,
    }
}

/// Why a line that was read isn't played.
fn trouble_of_form(line: &[u8]) -> Option<Trouble>
    requires { length line.now ≤ 65535 }
    ensures some { IfSome result (λ trouble. IsOtherForm line.now × (trouble ≡ other_form)) }
    ensures none { IsNone result → ¬ IsOtherForm line.now }
{
    if is_other_form(line) {
        return Some(Trouble {
            column: 1,
            cause: Cause::OtherForm,
        });
    }
    None
}

/// Why a line is left unread. One that is too long has no cause.
fn trouble_of_unread(line: &[u8]) -> Option<Trouble>
    ensures some { IfSome result (λ trouble. (length line.now ≤ 65535) × IsCause line.now trouble) }
    ensures none { IsNone result → 65535 < length line.now }
{
    if line.len() > LINE_LIMIT {
        return None;
    }
    Some(cause_of(line))
}

/// Why a line that became so is left unread, or isn't played.
fn trouble_of(line: &[u8], written: &[u8], ending: Ending) -> Option<Trouble>
    requires { Becomes line.now written.now ending }
    ensures { IsTrouble line.now written.now ending result }
{
    match ending {
        Ending::AsUnread => trouble_of_unread(line),
        _ => trouble_of_form(written),
    }
}

/// A line as it is written.
fn piece_of(alloc: Global, line: &[u8], number: u32, joined: bool) -> Result<Piece, AllocError>
    ensures { IfOk result (λ piece. IsEntry number joined line.now (entry piece)) }
{
    let settled = settle(alloc, line)?;
    let (process, _) = cut(line);
    let call = call_as(settled.line.as_slice(), settled.ending);
    let trouble = trouble_of(line, settled.line.as_slice(), settled.ending);
    Ok(Piece {
        number,
        process,
        line: settled.line,
        ending: settled.ending,
        joined,
        trouble,
        call,
    })
}

/// Does what the text at a place does, behind those before it, where so many at the beginning were let go.
fn take_text(
    ordering: &mut Ordering,
    rooms: &mut Rooms,
    alloc: Global,
    left: &Lines,
    gone: usize,
    roles: &Roles,
    place: usize,
    strict: bool,
) -> Result<(), Fault>
    requires few { place < 2 ^ 32 - 1 }
    requires stands { (lines : List NumberedOf) × (counts : CountsOf) × StandsAt strict lines roles.now left.now gone place counts ordering.old }
    ensures did { OnOk result ((lines : List NumberedOf) (counts : CountsOf) → StandsAt strict lines roles.now left.now gone place counts ordering.old
        → DidSome strict lines (place + 1) counts ordering.new) }
    ensures fault { IfErr result (λ fault. (lines : List NumberedOf) (counts : CountsOf)
        → StandsAt strict lines roles.now left.now gone place counts ordering.old → EndsAll strict lines fault) }
{
    let (number, text) = text_at(left, gone, place, &mut rooms.first)?;
    let role = roles.at(place as u32);
    match role {
        Role::Alone => {
            let piece = piece_of(alloc, text, number, false)?;
            ordering.write(alloc, piece, strict)
        }
        Role::First { other, to, behind } => {
            let (_, second) = text_at(left, gone, other as usize, &mut rooms.second)?;
            let line = line_of_halves(alloc, text, second, to, behind)?;
            let piece = piece_of(alloc, line.as_slice(), number, true)?;
            ordering.begin(piece)
        }
        Role::Second { process } => ordering.end(alloc, process, strict),
    }
}

/// How many of the first texts are let go at a place, before which so many stand still and behind which there are so
/// many others: all, where they are an eighth of these and not few. So what is let go takes no more steps than eight
/// times the texts, and the memory of what was written and of what isn't yet is hardly more than the larger of both.
fn let_go(done: usize, others: usize) -> usize
    ensures { result ≤ done }
{
    if done < FEW || done < others / 8 {
        return 0;
    }
    done
}

/// The texts without the first ones, so many.
fn without(left: Lines, count: usize) -> Lines
    requires { count ≤ length left }
    ensures { result ≡ drop count left }
{
    if count == 0 {
        return left;
    }
    left.without_first(count)
}

/// Writes the lines in their order, counting on from these counts. Texts that were written give their memory back.
pub(crate) fn write_lines(
    alloc: Global,
    lines: Lines,
    roles: &Roles,
    counts: Counts,
    strict: bool,
) -> Result<Written, Fault>
    requires few { length lines < 2 ^ 32 - 1 }
    requires roles { AreRoles lines roles.now }
    ensures wrote { IfOk result (WroteAll strict lines counts) }
    ensures fault { IfErr result (EndsAll strict lines) }
{
    let count = lines.len();
    let mut ordering = Ordering {
        waiting: Waiting::new(alloc),
        written: Written {
            out: Vec::new(alloc),
            counts,
            calls: Tally::new(),
        },
    };
    let mut rooms = Rooms {
        first: Vec::new(alloc),
        second: Vec::new(alloc),
    };
    let mut left = lines;
    let mut gone = 0;
    'places: for place in 0..count {
        let more = let_go(place - gone, count - place);
        left = without(left, more);
        gone += more;
        take_text(
            &mut ordering,
            &mut rooms,
            alloc,
            &left,
            gone,
            roles,
            place,
            strict,
        )?;
    }
    Ok(ordering.written)
}
