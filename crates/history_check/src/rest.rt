//! What follows the log: the maps of the space that it leaves, a line for each area, then a line that begins `played `
//! and at most one more, which begins `touched `. What these two say behind their first word is no part of the verdict:
//! a log tells how many calls were played and refused, but not what was skipped or differs, and none of it is compared.
ghost use Rattle.std.specs.Prelude.{◌≡◌, ◌↔◌, ◌+◌, ◌≤◌, ◌<◌, ◌^◌, ◌∷◌, ◌++◌, [], length, codes, IsTrue, IfSome, MatchOption};
ghost use Rattle.line_parts.specs.Lines.{lines_of};
ghost use Rattle.strace_reader.specs.Grammar.{BeginsWith};
ghost use Rattle.history_check.specs.Verdicts.{FailsAt};
ghost use Rattle.history_check.specs.Checking.{IsBehindArea, IsWholeRest, LacksArea, TellsRest};

use crate::verdict::{Verdict, WrongLog};
use line_parts::next_line;
use maps_printer::is_line_of_area;
use space_model::Area;

/// The verdict on what follows a log of so many entries, which leave these areas.
pub(crate) fn rest_verdict(areas: &[Area], entries: u32, text: &[u8]) -> Verdict
    requires { entries + length text.now ≤ 2 ^ 26 }
    ensures { TellsRest areas.now (lines_of text.now) entries result }
{
    match wrong_rest(areas, text) {
        None => Verdict::Legal { entries },
        Some(count) => Verdict::Wrong {
            line: entries + count + 1,
            why: WrongLog::Rest,
        },
    }
}

/// The first line, counted from 0, at which the text isn't the rest of a log that leaves these areas, or None.
fn wrong_rest(areas: &[Area], text: &[u8]) -> Option<u32>
    requires { length text.now ≤ 2 ^ 26 }
    ensures place { MatchOption result (IsWholeRest areas.now (lines_of text.now)) (FailsAt areas.now (lines_of text.now)) }
    ensures within { IfSome result (λ count. count ≤ length text.now) }
{
    let mut left = areas;
    let mut rest = text;
    let mut count = 0;
    'areas: while let Some((area, others)) = left.split_first() {
        let Some(behind) = behind_area(area, rest) else {
            return Some(count);
        };
        count += 1;
        left = others;
        rest = behind;
    }
    match wrong_end(rest) {
        Some(more) => Some(count + more),
        None => None,
    }
}

/// What is behind the first line, where that is the line of this area.
fn behind_area<'a>(area: &Area, text: &'a [u8]) -> Option<&'a [u8]>
    ensures { MatchOption result (LacksArea area.now (lines_of text.now)) (λ behind. IsBehindArea area.now text.now behind.now) }
{
    let (line, behind) = next_line(text)?;
    if is_line_of_area(line, area) {
        Some(behind)
    } else {
        None
    }
}

/// The same behind the areas, of what are at most two lines.
fn wrong_end(text: &[u8]) -> Option<u32>
    ensures place { MatchOption result (IsWholeRest [] (lines_of text.now)) (FailsAt [] (lines_of text.now)) }
    ensures within { IfSome result (λ count. count ≤ length text.now) }
{
    let Some((played, rest)) = next_line(text) else {
        return Some(0);
    };
    if !begins_with(played, b"played ") {
        return Some(0);
    }
    let Some((touched, rest)) = next_line(rest) else {
        return None;
    };
    if !begins_with(touched, b"touched ") {
        return Some(1);
    }
    match next_line(rest) {
        None => None,
        Some(_) => Some(2),
    }
}

/// Whether the text begins with the word.
fn begins_with(text: &[u8], word: &[u8]) -> bool
    ensures { IsTrue result ↔ BeginsWith word.now text.now }
{
    text.starts_with(word)
}
