//! The check of a log that a run has printed. The input is read whole; its maps lines, where it begins with any, are
//! the areas before the first call, and the crate `history_check` says what the lines behind them are. A reader may
//! rely on the limits being asked before the verdict, and on the verdict being the only one that the input has.
ghost use Rattle.std.specs.Prelude.{◌≡◌, ◌≤◌, ◌<◌, ◌+◌, ◌^◌, ◌↔◌, ◌++◌, ◌∷◌, [], List, ℕ, length, IsTrue, IfOk, IfErr, OnOk, OnErr};
ghost use Rattle.std.specs.Io.KnownBytes.{Appends};
ghost use Rattle.byte_ports.specs.Bytes.{AppendsPrefix};
ghost use Rattle.byte_ports.specs.Counts.{Rose};
ghost use Rattle.history_check.specs.LogLines.{BeginsLog};
ghost use Rattle.line_parts.specs.Lines.{lines_of};
ghost use Rattle.trace_driver.specs.Checking.{KeepsLimits, EndsLog, EndsCheck, EndsCheckEarly, IsInputVerdict, HasRead};
ghost use Rattle.trace_driver.specs.Checking.{verdict_line, verdict_status, wrong_text};
ghost use Rattle.trace_driver.specs.Judging.{HasNumbers};
ghost use Rattle.trace_driver.specs.Status.{OrMemory};
ghost use Rattle.trace_driver.specs.declared.input.TheConstants.{INPUT_LIMIT};

use crate::input::read_input;
use crate::opening::read_opening;
use crate::status::{EarlyEnd, Status, Which};
use crate::trace::{LINE_LIMIT, LINES_LIMIT};
use byte_ports::{Failed, Sink, Source, write_numbered};
use history_check::{Verdict, WrongLog, check};
use line_parts::{What, begins, next_line, skip_digits};
use page_types::ROWS;
use space_model::PlainSpace;
use std::alloc::Global;

/// What a check of an input says.
#[derive(Clone, Copy, Debug, PartialEq, Eq)]
pub struct Judgement {
    /// How many lines of the input stand before those that were checked.
    pub before: u32,
    /// The verdict on the lines behind these. Its lines are counted from 1 there, so the two numbers have a sum of 32
    /// bits.
    pub verdict: Verdict,
}

/// Reads the whole input, and says what the log is that it has behind its maps lines, where these are asked for.
///
/// `Err`: the run ends so, and there is no verdict.
pub fn judge<S: Source>(alloc: Global, opening: bool, input: &mut S) -> Result<Judgement, EarlyEnd>
    ensures judged { IfOk result (λ judged. HasRead (S.remaining input.old) (S.remaining input.new)
        (λ bytes. IsInputVerdict opening bytes judged.before judged.verdict)) }
    ensures numbered { IfOk result (λ judged. HasNumbers judged.before judged.verdict) }
    ensures stopped { IfErr result (OrMemory (EndsCheckEarly opening (S.remaining input.old) (S.remaining input.new)
        (S.fault_count input.old) (S.fault_count input.new))) }
{
    let bytes = read_input(alloc, input)?;
    judge_bytes(alloc, opening, &bytes)
}

/// What the bytes of an input are as a log.
///
/// `Err`: the run ends so.
fn judge_bytes(alloc: Global, opening: bool, bytes: &[u8]) -> Result<Judgement, EarlyEnd>
    requires { length bytes.now ≤ INPUT_LIMIT }
    ensures judged { IfOk result (λ judged. IsInputVerdict opening bytes.now judged.before judged.verdict) }
    ensures numbered { IfOk result (λ judged. HasNumbers judged.before judged.verdict) }
    ensures stopped { IfErr result (OrMemory (EndsCheck opening bytes.now)) }
{
    let (opened, rest) = read_opening(alloc, bytes, opening)?;
    keep_limits(rest)?;
    let Ok(space) = PlainSpace::of_pieces(alloc, &opened.areas) else {
        return Err(EarlyEnd::NoMemory);
    };
    let rows = space.rows();
    if rows as usize > ROWS {
        return Err(EarlyEnd::Above {
            which: Which::Rows,
            value: rows as u64,
        });
    }
    let Ok(verdict) = check(space, rest) else {
        return Err(EarlyEnd::NoMemory);
    };
    Ok(Judgement {
        before: opened.next - 1,
        verdict,
    })
}

/// Asks the limits of the lines that are checked, before it is known what they say.
///
/// `Err`: the run ends so, at the first line that is too long or is one too many of the log.
fn keep_limits(text: &[u8]) -> Result<(), EarlyEnd>
    ensures kept { OnOk result (KeepsLimits (lines_of text.now)) }
    ensures stopped { IfErr result (EndsLog (lines_of text.now)) }
{
    let mut reading = LogReading {
        lines: 0,
        over: false,
    };
    let mut rest = text;
    'lines: while let Some((line, behind)) = next_line(rest) {
        reading.take(line)?;
        rest = behind;
    }
    Ok(())
}

/// Where the reading of a log stands.
#[derive(Debug, Drop)]
struct LogReading {
    /// How many lines belong to the log so far: at most `LINES_LIMIT`.
    lines: usize,
    /// Whether a line came that doesn't belong to it, as none behind that one does.
    over: bool,
}

impl LogReading {
    ghost use Rattle.std.specs.Prelude.{◌∷◌, ◌++◌, [], List, ℕ, IfErr, OnOk};
    ghost use Rattle.trace_driver.specs.Checking.{EndsBehind};
    ghost use Rattle.trace_driver.specs.Judging.{StandsBehind};

    /// Takes the next line.
    fn take(&mut self, line: &[u8]) -> Result<(), EarlyEnd>
        ensures taken { (front : List (List ℕ)) → StandsBehind front self.old → OnOk result (StandsBehind (front ++ line.now ∷ []) self.new) }
        ensures stopped { IfErr result (λ end. (front : List (List ℕ)) → StandsBehind front self.old → EndsBehind front line.now end) }
    {
        if line.len() > LINE_LIMIT {
            return Err(EarlyEnd::Above {
                which: Which::Line,
                value: LINE_LIMIT as u64 + 1,
            });
        }
        if self.over {
            return Ok(());
        }
        if !begins_log(line) {
            self.over = true;
            return Ok(());
        }
        if self.lines >= LINES_LIMIT {
            return Err(EarlyEnd::Above {
                which: Which::Lines,
                value: LINES_LIMIT as u64 + 1,
            });
        }
        self.lines += 1;
        Ok(())
    }
}

/// Whether a line begins as one of a log: with decimal digits and a space.
fn begins_log(text: &[u8]) -> bool
    ensures { IsTrue result ↔ BeginsLog text.now }
{
    match skip_digits(text, What::Number) {
        Ok(rest) => begins(rest, b' '),
        Err(_) => false,
    }
}

impl Judgement {
    ghost use Rattle.std.specs.Prelude.{◌≡◌};
    ghost use Rattle.trace_driver.specs.Checking.{verdict_status};
    ghost use Rattle.trace_driver.specs.Judging.{HasNumbers};

    /// The status of a run that wrote the verdict.
    pub fn status(&self) -> Status
        requires { HasNumbers self.now.before self.now.verdict }
        ensures { result ≡ verdict_status self.now.before self.now.verdict }
    {
        match self.verdict {
            Verdict::Legal { .. } => Status::Done(None),
            Verdict::Wrong { line, .. } => Status::Wrong {
                line: self.before + line,
            },
        }
    }
}

/// Writes the line of a verdict.
///
/// `Failed`: the sink failed in this call; some first part of the line was appended.
pub fn write_verdict<K: Sink>(out: &mut K, judged: &Judgement) -> Result<(), Failed>
    requires { HasNumbers judged.now.before judged.now.verdict }
    ensures all { OnOk result (Appends (K.contents out.old) (K.contents out.new)
        (verdict_line judged.now.before judged.now.verdict)) }
    ensures failed_prefix { OnErr result (AppendsPrefix (K.contents out.old) (K.contents out.new)
        (verdict_line judged.now.before judged.now.verdict)) }
    ensures failed_rose { OnErr result (Rose (K.fault_count out.old) (K.fault_count out.new)) }
{
    match judged.verdict {
        Verdict::Legal { entries } => write_numbered(out, b"legal ", entries as u64, b"\n"),
        Verdict::Wrong { line, why } => {
            let number = judged.before + line;
            write_numbered(out, b"wrong line ", number as u64, why_of(why))
        }
    }
}

/// How the line says why a log is wrong, with the colon before it and the newline.
fn why_of(why: WrongLog) -> &'static [u8]
    ensures { result.now ≡ wrong_text why }
{
    match why {
        WrongLog::Form => b": form\n",
        WrongLog::Number => b": number\n",
        WrongLog::Order => b": order\n",
        WrongLog::Held => b": held\n",
        WrongLog::Reply => b": reply\n",
        WrongLog::Rest => b": rest\n",
    }
}
