//! The check of a whole text, line by line: first the log, as far as lines begin as those of a log, then the rest. The
//! first wrong line ends it. A text has one verdict, so a reader may rely on `Legal` as on `Wrong`.
ghost use Rattle.std.specs.Prelude.{◌≡◌, ◌↔◌, ◌≤◌, ◌^◌, length, IsTrue, IfOk};
ghost use Rattle.line_parts.specs.Lines.{lines_of};
ghost use Rattle.history_check.specs.LogLines.{BeginsLog};
ghost use Rattle.history_check.specs.Verdicts.{IsVerdict};
ghost use Rattle.history_check.specs.declared.verdict.Verdict.{Verdict};

use crate::rest::rest_verdict;
use crate::taking::Seen;
use crate::verdict::Verdict;
use line_parts::{What, begins, next_line, skip_digits};
use space_model::{PlainSpace, ReservedSpace};
use std::alloc::AllocError;

/// Says whether the text is a good log from this space, and how many entries it has, or its first wrong line and why.
///
/// The text has at most 2^26 bytes. Its lines are counted from 1, and a last line that lacks its newline counts as
/// whole. `AllocError`: there was no room for a space that judges; the text wasn't read then. `judged` has no such
/// answer, for a space whose room was reserved before.
pub fn check(start: PlainSpace, text: &[u8]) -> Result<Verdict, AllocError>
    requires { length text.now ≤ 2 ^ 26 }
    ensures found { IfOk result (IsVerdict start (lines_of text.now)) }
    ensures only { (v : Verdict) → IsVerdict start (lines_of text.now) v → IfOk result (λ w. w ≡ v) }
{
    let space = start.reserved()?;
    Ok(judged(space, text))
}

/// The same from a space whose room is reserved. It takes no memory, so each text of at most 2^26 bytes has its
/// verdict.
pub fn judged(start: ReservedSpace, text: &[u8]) -> Verdict
    requires { length text.now ≤ 2 ^ 26 }
    ensures found { IsVerdict start (lines_of text.now) result }
    ensures only { (v : Verdict) → IsVerdict start (lines_of text.now) v → result ≡ v }
{
    let mut space = start;
    let mut seen = Seen::new();
    let mut rest = text;
    'log: while let Some((line, behind)) = next_line(rest) {
        if !begins_log(line) {
            let areas = space.into_areas();
            return rest_verdict(areas.as_slice(), seen.next, rest);
        }
        let number = seen.next + 1;
        if let Some(why) = seen.take(&mut space, line) {
            return Verdict::Wrong { line: number, why };
        }
        rest = behind;
    }
    Verdict::Legal { entries: seen.next }
}

/// Whether the line begins as one of a log, with decimal digits and a space.
fn begins_log(line: &[u8]) -> bool
    ensures { IsTrue result ↔ BeginsLog line.now }
{
    match skip_digits(line, What::Number) {
        Ok(rest) => begins(rest, b' '),
        Err(_) => false,
    }
}
