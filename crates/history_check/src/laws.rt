//! The law that a printed log is good. A program that prints its history has by it that the checker finds the text
//! legal, whatever it counted beside.
ghost use Rattle.std.specs.Prelude.{◌<◌, ◌^◌, All};
ghost use Rattle.history_check.specs.LogLines.{HasNarrowRows};
ghost use Rattle.history_check.specs.Laws.{PrintedLogIsGood};
ghost use Rattle.history_check.specs.Checking.{IsNarrow};

use page_types::{Reply, Short, Why};
use round_trip::words_fit;
use space_model::Entry;

/// What a run prints of these entries is a good log of them: the log, the maps of the last state, a summary with any
/// counts, and nothing or one line that begins `touched `. It only looks at the entries, for the widths of their
/// numbers: its contract is the law.
pub fn printed_logs_are_good(entries: &[Entry])
    ensures { PrintedLogIsGood entries.now }
{
    words_fit(entries);
    narrow_fit(entries);
}

/// The numbers of entries that are narrower than 64 bits are so.
fn narrow_fit(entries: &[Entry])
    ensures { All IsNarrow entries.now }
{
    'entries: for entry in entries {
        entry_fits(*entry);
    }
}

fn entry_fits(entry: Entry)
    ensures { IsNarrow entry }
{
    in_range(entry.line);
    rows_fit(entry.reply);
}

/// A number of 32 bits is below 2^32. It does nothing.
fn in_range(number: u32)
    ensures { number < 2 ^ 32 }
{}

fn rows_fit(reply: Reply)
    ensures { HasNarrowRows reply }
{
    match reply {
        Reply::At(_) | Reply::Zero | Reply::Granted(_) => {}
        Reply::Refused(why) => match why {
            Why::Enomem(short) => match short {
                Short::Rows(rows) => in_range(rows),
                Short::Missing(_) | Short::PastEnd(_) | Short::NoGap(_) => {}
            },
            Why::Einval(_)
            | Why::Eexist(_)
            | Why::Eperm(_)
            | Why::Efault(_)
            | Why::MapErr(_)
            | Why::AccErr(_, _) => {}
        },
    }
}
