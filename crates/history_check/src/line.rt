//! A whole line of a log. Its entry is read part by part, and then the line is compared with what the printer writes of
//! that entry. So no other text is read; and each text that the printer writes is, since its parts are read back.

ghost use Rattle.std.specs.Prelude.{◌≡◌, ◌<◌, ◌^◌, IfSome, option_map};
ghost use Rattle.std.specs.Bool.{Decides};
ghost use Rattle.space_model.specs.declared.entries.Entry.{Entry as EntryOf};
ghost use Rattle.history_check.specs.LogLines.{HasNarrowRows, IsLogLine};
ghost use Rattle.history_check.specs.Reading.{head_at, outcome_at};

use crate::calls::call;
use crate::held::under;
use crate::numbers::{DECIMAL, number, small, strip};
use crate::replies::{is_named, reply};
use maps_printer::is_line_of;
use page_types::{Reply, Short, Why};
use round_trip::has_word_numbers;
use space_model::Entry;

/// How many workers a run has at most.
const WORKERS: u32 = 16;

/// The numbers at the front: of the entry, of its worker and of the input's line; and what is left behind the space
/// that follows them.
#[tactic(auto, unfolding(crate::specs::Reading::head_at))]
fn head(text: &[u8]) -> Option<((u64, u32, u32), &[u8])>
    ensures { option_map (λ x. (x.0, x.1.now)) result ≡ head_at text.now }
{
    let (index, rest) = number(text, DECIMAL)?;
    let (worker, rest) = small(strip(rest, b" ")?)?;
    let (line, rest) = small(strip(rest, b" ")?)?;
    Some(((index, worker, line), strip(rest, b" ")?))
}

/// The reply behind a call, and what is left behind the word that follows it.
#[tactic(auto, unfolding(crate::specs::Reading::outcome_at))]
fn outcome(text: &[u8]) -> Option<(Reply, &[u8])>
    ensures { option_map (λ x. (x.0, x.1.now)) result ≡ outcome_at text.now }
{
    let (found, rest) = reply(strip(text, b" = ")?)?;
    Some((found, strip(rest, b" under ")?))
}

/// The entry of each line of a log.
fn entry(text: &[u8]) -> Option<Entry>
    ensures { (e : EntryOf) → IsLogLine text.now e → result ≡ Some e }
{
    let Some(((number, worker, line), rest)) = head(text) else {
        return None;
    };
    let Some((call, rest)) = call(rest) else {
        return None;
    };
    let Some((reply, rest)) = outcome(rest) else {
        return None;
    };
    let Some(under) = under(rest) else {
        return None;
    };
    Some(Entry {
        number,
        worker,
        line,
        call,
        reply,
        under,
    })
}

/// That the number of rows which a reply may name fits in 32 bits. It does nothing: its contract is the law.
fn has_narrow_rows(reply: Reply)
    ensures { HasNarrowRows reply }
{
    if let Reply::Refused(Why::Enomem(Short::Rows(rows))) = reply {
        in_range(rows);
    }
}

/// A number of 32 bits is below 2^32. It does nothing.
fn in_range(number: u32)
    ensures { number < 2 ^ 32 }
{}

/// Whether the text is the line of this entry in a log.
fn is_log_line(text: &[u8], entry: &Entry) -> bool
    ensures { Decides result (IsLogLine text.now entry.now) }
{
    has_word_numbers(*entry);
    has_narrow_rows(entry.reply);
    in_range(entry.line);
    if entry.worker >= WORKERS {
        return false;
    }
    if !entry.call.is_named() {
        return false;
    }
    if !is_named(&entry.reply) {
        return false;
    }
    is_line_of(text, entry)
}

/// The entry whose line in a log this text is, without its newline. `None` comes exactly where there is none: the text
/// is written otherwise than the printer writes an entry, or the worker is 16 or above. It takes no memory.
pub fn read_log_line(text: &[u8]) -> Option<Entry>
    // What is read has this line.
    ensures found { IfSome result (IsLogLine text.now) }
    // An entry with this line is read.
    ensures only { (e : EntryOf) → IsLogLine text.now e → result ≡ Some e }
{
    let found = entry(text)?;
    if is_log_line(text, &found) {
        Some(found)
    } else {
        None
    }
}
