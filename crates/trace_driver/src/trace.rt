//! From the lines of a trace to the calls that are played, each with the number of its line and the index of its
//! process. The form of a line is that of strace(1), and the crate `strace_reader` joins the halves of interrupted
//! calls. A reader may rely on `Reads`, which says line by line what becomes of a trace, up to the first line that ends
//! the run.
ghost use Rattle.std.specs.Prelude.{◌≡◌, ◌∷◌, ◌++◌, ◌+◌, ◌-◌, ◌*◌, ◌^◌, ◌<◌, ◌≤◌, [], List, ℕ, length, All, IfOk, IfErr, OnOk};
ghost use Rattle.line_parts.specs.Lines.{lines_of};
ghost use Rattle.strace_reader.specs.Playing.{skipped_by};
ghost use Rattle.trace_driver.specs.Script.{TracePosition, Reads, start_at, lines_by, seen_by};
ghost use Rattle.trace_driver.specs.Endings.{Ends, EndsAt};
ghost use Rattle.trace_driver.specs.TraceReader.{IsNamedLine, IsNamedAnswer, IsBefore, IsFull, IsIndexed, StandsAt, Takes, played_by};
ghost use Rattle.trace_driver.specs.Status.{OrMemory};
ghost use Rattle.trace_driver.specs.declared.input.TheConstants.{INPUT_LIMIT};

use crate::processes::Processes;
use crate::status::{EarlyEnd, Which};
use line_parts::next_line;
use page_types::Call;
use std::alloc::Global;
use strace_reader::{Fed, FeedFault, Joiner, Recorded, base_behind, on_base};

/// How many bytes a line may have, without its newline.
pub const LINE_LIMIT: usize = 65_535;

/// How many lines may be played.
pub const LINES_LIMIT: usize = 1_048_576;

/// A line that is played.
#[derive(Clone, Copy, Debug, PartialEq, Eq)]
pub struct Line {
    /// Its number in the input, counted from 1; of two halves, the number of the second.
    pub number: u32,
    /// The index of its process: 0, 1, 2 and so on, as processes first appear among the played lines.
    pub process: u32,
    /// The call that it names; a Brk has a base.
    pub call: Call,
    /// The result that the trace recorded, where it recorded one.
    pub recorded: Option<Recorded>,
}

/// What an input asks for.
#[derive(Debug, Drop)]
pub struct Trace {
    /// The lines that are played, in the input's order.
    pub lines: Vec<Line>,
    /// How many lines were passed over.
    pub skipped: u32,
}

/// Reads the lines of a trace, whose first line has the number `first`.
///
/// `Err`: the run ends so, at the first line that is too long, is refused, or is one too many to be
/// played; or there was no memory.
pub fn read_lines(alloc: Global, text: &[u8], first: u32) -> Result<Trace, EarlyEnd>
    requires numbered { 0 < first }
    requires few { first + length text.now ≤ INPUT_LIMIT + 1 }
    ensures read { IfOk result (λ trace. Reads (start_at first) (lines_of text.now) trace.lines.items trace.skipped) }
    ensures named { IfOk result (λ trace. All IsNamedLine trace.lines.items) }
    ensures few { IfOk result (λ trace. length trace.lines.items ≤ LINES_LIMIT) }
    ensures counted { IfOk result (λ trace. trace.skipped ≤ 3 * length text.now) }
    ensures stopped { IfErr result (OrMemory (EndsAt (start_at first) (lines_of text.now))) }
{
    let mut reader = TraceReader::new(alloc);
    let mut number = first;
    let mut rest = text;
    'lines: while let Some((line, behind)) = next_line(rest) {
        reader.take(line, number)?;
        number += 1;
        rest = behind;
    }
    let left = reader.joiner.end();
    Ok(Trace {
        lines: reader.lines,
        skipped: reader.skipped + left,
    })
}

/// What was read of a trace so far.
#[derive(Drop)]
struct TraceReader {
    /// The first halves of calls that wait for their second.
    joiner: Joiner,
    /// The processes of the played lines.
    processes: Processes,
    /// The base of heaps that the trace told, or 0.
    base: u64,
    /// The lines that are played.
    lines: Vec<Line>,
    /// How many lines were passed over.
    skipped: u32,
}

impl TraceReader {
    /// Nothing is read yet.
    fn new(alloc: Global) -> TraceReader
        ensures start { (first : ℕ) → StandsAt result (start_at first) }
        ensures lines { result.lines.items ≡ [] }
        ensures skipped { result.skipped ≡ 0 }
        ensures count { result.processes.count ≡ 0 }
    {
        TraceReader {
            joiner: Joiner::new(alloc),
            processes: Processes::new(alloc),
            base: 0,
            lines: Vec::new(alloc),
            skipped: 0,
        }
    }

    /// Takes the next line, which has this number.
    fn take(&mut self, text: &[u8], number: u32) -> Result<(), EarlyEnd>
        requires before { IsBefore self.old number }
        requires skipped { self.old.skipped < 2 ^ 32 - 2 }
        requires processes { self.old.processes.count ≤ length self.old.lines.items }
        requires few { length self.old.lines.items ≤ LINES_LIMIT }
        ensures takes { OnOk result ((stand : TracePosition) → StandsAt self.old stand → stand.number ≡ number → Takes stand text.now self.old self.new) }
        ensures named { All IsNamedLine self.old.lines.items → OnOk result (All IsNamedLine self.new.lines.items) }
        ensures skipped { OnOk result (self.new.skipped ≤ self.old.skipped + 2) }
        ensures processes { OnOk result (self.new.processes.count ≤ length self.new.lines.items) }
        ensures few { OnOk result (length self.new.lines.items ≤ LINES_LIMIT) }
        ensures stopped { IfErr result (λ end. (stand : TracePosition) → StandsAt self.old stand → stand.number ≡ number → OrMemory (Ends stand text.now) end) }
    {
        if text.len() > LINE_LIMIT {
            return Err(EarlyEnd::Above {
                which: Which::Line,
                value: LINE_LIMIT as u64 + 1,
            });
        }
        match self.joiner.feed(text) {
            Ok(fed) => {
                let base = base_behind(self.base, &fed);
                let told = on_base(base, &fed);
                self.base = base;
                self.add(told, number)
            }
            Err(FeedFault::Bad(bad)) => Err(EarlyEnd::Refused {
                line: number,
                column: bad.column,
                what: bad.what,
            }),
            Err(FeedFault::Memory) => Err(EarlyEnd::NoMemory),
        }
    }

    /// Adds what became of the line of this number.
    fn add(&mut self, fed: Fed, number: u32) -> Result<(), EarlyEnd>
        requires skips { skipped_by fed ≤ 2 }
        requires named { IsNamedAnswer fed }
        requires skipped { self.old.skipped < 2 ^ 32 - 2 }
        requires processes { self.old.processes.count ≤ length self.old.lines.items }
        requires few { length self.old.lines.items ≤ LINES_LIMIT }
        ensures joiner { OnOk result (self.new.joiner ≡ self.old.joiner) }
        ensures base { OnOk result (self.new.base ≡ self.old.base) }
        ensures lines { OnOk result ((stand : TracePosition) → stand.number ≡ number → IsIndexed self.old.processes stand.seen
            → self.new.lines.items ≡ self.old.lines.items ++ lines_by stand fed) }
        ensures seen { OnOk result ((seen : List ℕ) → IsIndexed self.old.processes seen → IsIndexed self.new.processes (seen_by seen fed)) }
        ensures len { OnOk result (length self.new.lines.items ≡ length self.old.lines.items + played_by fed) }
        ensures few { OnOk result (length self.new.lines.items ≤ LINES_LIMIT) }
        ensures named { All IsNamedLine self.old.lines.items → OnOk result (All IsNamedLine self.new.lines.items) }
        ensures skipped { OnOk result (self.new.skipped ≡ self.old.skipped + skipped_by fed) }
        ensures processes { OnOk result (self.new.processes.count ≤ length self.new.lines.items) }
        ensures full { IfErr result (IsFull (length self.old.lines.items) fed) }
    {
        match fed {
            Fed::Played {
                pid,
                call,
                recorded,
                skipped,
            } => {
                self.skipped += skipped;
                if self.lines.len() >= LINES_LIMIT {
                    return Err(EarlyEnd::Above {
                        which: Which::Lines,
                        value: LINES_LIMIT as u64 + 1,
                    });
                }
                let Ok(process) = self.processes.index_of(pid) else {
                    return Err(EarlyEnd::NoMemory);
                };
                let line = Line {
                    number,
                    process,
                    call,
                    recorded,
                };
                if self.lines.push(line).is_err() {
                    return Err(EarlyEnd::NoMemory);
                }
            }
            Fed::Kept { skipped } | Fed::Skipped(skipped) => self.skipped += skipped,
            Fed::Blank => {}
        }
        Ok(())
    }
}
