//! Lists of lines for workers, each line a read of one byte: the lines are numbered from 1 on and dealt out to the
//! workers in turn, as the lines of a trace come in.
ghost use Rattle.std.specs.Prelude.{◌≡◌, ◌≤◌, ◌<◌, ◌^◌, ◌∷◌, [], All, IfOk, length, map, vec_items, vec_len};
ghost use Rattle.page_types.specs.Named.{IsNamedCall};

use bitflags::Flags;
use page_types::{Access, Call, PAGE, Prot};
use std::alloc::{AllocError, Global};
use trace_threads::Line;

/// The first page that is read.
const FIRST: u32 = 16;

/// A line that reads the first byte of a page.
pub fn read_line(line: u32, page: u32) -> Line
    ensures { IsNamedCall result.call }
{
    let call = Call::Fault {
        addr: u64::from(page) * PAGE,
        access: Access::Read,
    };
    Line { line, call }
}

/// So many lines that read so many pages from 16 on in turn. The first line has this number, and each `step` more than
/// the one before.
fn reads(
    alloc: Global,
    first: u32,
    step: u32,
    count: u32,
    pages: u32,
) -> Result<Vec<Line>, AllocError>
    requires numbers { (first ≤ 17) × (step ≤ 17) }
    requires count { count ≤ 1000 }
    requires pages { (0 < pages) × (pages ≤ 1000) }
    ensures count { IfOk result (λ lines. length lines.items ≡ count) }
    ensures named { IfOk result (λ lines. All (λ l. IsNamedCall l.call) lines.items) }
{
    let mut lines = Vec::with_capacity(alloc, count as usize)?;
    let mut line = first;
    for turn in 0..count {
        lines.push(read_line(line, FIRST + turn % pages))?;
        line += step;
    }
    Ok(lines)
}

/// A call on one page: at each second turn a read, and between them the page becomes readable, and writable too.
fn page_call(page: u32, turn: u32) -> Call
    ensures { IsNamedCall result }
{
    let addr = u64::from(page) * PAGE;
    match turn % 4 {
        1 => Call::Protect {
            addr,
            len: PAGE,
            prot: Prot::READ,
        },
        3 => Call::Protect {
            addr,
            len: PAGE,
            prot: Prot::READ.union(Prot::WRITE),
        },
        _ => Call::Fault {
            addr,
            access: Access::Read,
        },
    }
}

/// So many lines, numbered from 1 on, of a worker that works on one page.
pub fn page_lines(alloc: Global, count: u32, page: u32) -> Result<Vec<Line>, AllocError>
    requires count { count ≤ 1000 }
    ensures count { IfOk result (λ lines. length lines.items ≡ count) }
    ensures named { IfOk result (λ lines. All (λ l. IsNamedCall l.call) lines.items) }
{
    let mut lines = Vec::with_capacity(alloc, count as usize)?;
    for turn in 0..count {
        let call = page_call(page, turn);
        lines.push(Line {
            line: turn + 1,
            call,
        })?;
    }
    Ok(lines)
}

/// A list of one line.
pub fn one_line(alloc: Global, line: Line) -> Result<Vec<Line>, AllocError>
    ensures { IfOk result (λ lines. lines.items ≡ line ∷ []) }
{
    let mut lines = Vec::with_capacity(alloc, 1)?;
    lines.push(line)?;
    Ok(lines)
}

/// A list of lines for each of these numbers, with so many lines that read the pages from 16 on in turn.
pub fn read_lists(alloc: Global, counts: &[u32], pages: u32) -> Result<Vec<Vec<Line>>, AllocError>
    requires workers { length counts.now ≤ 17 }
    requires counts { All (λ n. n ≤ 1000) counts.now }
    requires pages { (0 < pages) × (pages ≤ 1000) }
    ensures counts { IfOk result (λ lists. map length (map vec_items lists.items) ≡ counts.now) }
    ensures few { IfOk result (λ lists. All (λ list. vec_len list < 2 ^ 32) lists.items) }
    ensures named { IfOk result (λ lists. All (λ ls. All (λ l. IsNamedCall l.call) ls) (map vec_items lists.items)) }
{
    let workers = counts.len() as u32;
    let mut lists = Vec::with_capacity(alloc, counts.len())?;
    let mut first = 1;
    'counts: for count in counts {
        lists.push(reads(alloc, first, workers, *count, pages)?)?;
        first += 1;
    }
    Ok(lists)
}
