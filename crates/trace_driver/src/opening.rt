//! The maps lines with which an input may begin, up to the first empty line: the areas that the address space has
//! before the first call. The form of a line is that of proc_pid_maps(5); that lines come in order is this project's
//! own profile. A reader may rely on every line of the opening being an area, a line past the user addresses, or the
//! one that ends the run.
ghost use Rattle.std.specs.Prelude.{◌≡◌, ◌≢◌, ◌+◌, ◌^◌, ◌<◌, ◌≤◌, [], length, IfOk, IfErr, OnOk};
ghost use Rattle.space_model.specs.Areas.{HasNamedKinds};
ghost use Rattle.strace_reader.specs.Maps.{IsNamedMapsItem};
ghost use Rattle.line_parts.specs.Lines.{lines_of};
ghost use Rattle.trace_driver.specs.Script.{IsNext, map_start};
ghost use Rattle.trace_driver.specs.Endings.{EndsMap, EndsOpening, map_stop};
ghost use Rattle.trace_driver.specs.TraceReader.{Opens, areas_with, past_with};
ghost use Rattle.trace_driver.specs.Status.{OrMemory};
ghost use Rattle.trace_driver.specs.declared.input.TheConstants.{INPUT_LIMIT};

use crate::status::{EarlyEnd, Which};
use crate::trace::LINE_LIMIT;
use line_parts::next_line;
use page_types::PAGE;
use space_model::Area;
use std::alloc::Global;
use strace_reader::{MapsItem, What, read_maps_line};

/// What an input begins with.
#[derive(Debug, Drop)]
pub struct Opening {
    /// The areas of the maps lines, in order; two that touch may be of one kind.
    pub areas: Vec<Area>,
    /// How many maps lines lie past the user addresses.
    pub past: u32,
    /// The number of the first line of the trace.
    pub next: u32,
}

/// Reads the maps lines of an input, if it begins with any, and gives the text behind them.
///
/// `Err`: the run ends so, at the first maps line that is too long, is refused, or is out of order; or there was no
/// memory.
pub fn read_opening(
    alloc: Global,
    text: &[u8],
    has_maps: bool,
) -> Result<(Opening, &[u8]), EarlyEnd>
    requires { length text.now ≤ INPUT_LIMIT }
    ensures opens { IfOk result (λ x. Opens has_maps (lines_of text.now)
        x.0.areas.items x.0.past x.0.next (lines_of x.1.now)) }
    ensures named { IfOk result (λ x. HasNamedKinds x.0.areas.items) }
    ensures numbered { IfOk result (λ x. x.0.past < x.0.next) }
    ensures few { IfOk result (λ x. x.0.next + length x.1.now ≤ 1 + length text.now) }
    ensures areas { IfOk result (λ x. length x.0.areas.items < x.0.next) }
    ensures stopped { IfErr result (OrMemory (EndsOpening has_maps (lines_of text.now))) }
{
    let mut opening = Opening {
        areas: Vec::new(alloc),
        past: 0,
        next: 1,
    };
    if !has_maps {
        return Ok((opening, text));
    }
    let mut end = 0;
    let mut rest = text;
    'maps: while let Some((line, behind)) = next_line(rest) {
        if line.is_empty() {
            opening.next += 1;
            return Ok((opening, behind));
        }
        let item = read_map(line, opening.next, end)?;
        end = opening.take(item)?;
        rest = behind;
    }
    Ok((opening, rest))
}

/// Reads one maps line, by its number and the address at which the maps line before it ends.
fn read_map(text: &[u8], number: u32, end: u64) -> Result<MapsItem, EarlyEnd>
    requires { text.now ≢ [] }
    ensures next { IfOk result (IsNext end text.now) }
    ensures named { IfOk result IsNamedMapsItem }
    ensures stopped { IfErr result (EndsMap number end text.now) }
{
    if text.len() > LINE_LIMIT {
        return Err(EarlyEnd::Above {
            which: Which::Line,
            value: LINE_LIMIT as u64 + 1,
        });
    }
    let item = match read_maps_line(text) {
        Ok(item) => item,
        Err(bad) => {
            return Err(EarlyEnd::Refused {
                line: number,
                column: bad.column,
                what: bad.what,
            });
        }
    };
    if map_start(item) < end {
        return Err(EarlyEnd::Refused {
            line: number,
            column: 1,
            what: What::Order,
        });
    }
    Ok(item)
}

/// The address in bytes at which a maps line starts.
fn map_start(item: MapsItem) -> u64
    requires { map_start item < 2 ^ 64 }
    ensures { result ≡ map_start item }
{
    match item {
        MapsItem::Area(area) => area.lo * PAGE,
        MapsItem::Past { start, .. } => start,
    }
}

impl Opening {
    /// Takes one more maps line, and gives the address at which it ends.
    fn take(&mut self, item: MapsItem) -> Result<u64, EarlyEnd>
        requires few { self.old.next ≤ INPUT_LIMIT }
        requires numbered { self.old.past < self.old.next }
        requires fits { map_stop item < 2 ^ 64 }
        ensures areas { OnOk result (self.new.areas.items ≡ areas_with self.old.areas.items item) }
        ensures past { OnOk result (self.new.past ≡ past_with self.old.past item) }
        ensures next { OnOk result (self.new.next ≡ self.old.next + 1) }
        ensures end { IfOk result (λ end. end ≡ map_stop item) }
        ensures memory { IfErr result (λ end. end ≡ EarlyEnd.NoMemory) }
    {
        self.next += 1;
        match item {
            MapsItem::Area(area) => {
                if self.areas.push(area).is_err() {
                    return Err(EarlyEnd::NoMemory);
                }
                Ok(area.hi * PAGE)
            }
            MapsItem::Past { end, .. } => {
                self.past += 1;
                Ok(end)
            }
        }
    }
}
