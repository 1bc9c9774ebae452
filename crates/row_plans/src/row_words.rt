//! Row words: one function writes the word of a row, and one reads it. The form is this project's own. A reader may
//! rely on the word of a row with named bits reading back as that row.
ghost use Rattle.std.specs.Prelude.{◌≡◌, ◌≤◌};
ghost use Rattle.page_types.specs.declared.TheConstants.{LIMIT};
ghost use Rattle.page_types.specs.Named.{IsNamedOption};
ghost use Rattle.row_plans.specs.RowWords.{row_start, row_kind, row_word};

use bitflags::Flags;
use page_types::{Kind, Prot};

/// The page where a row starts, and the kind of its pages, or None where it is a gap.
pub fn read_row(word: u64) -> (u64, Option<Kind>)
    ensures start { result.0 ≡ row_start word }
    ensures kind { result.1 ≡ row_kind word }
    ensures named { IsNamedOption result.1 }
{
    let start = word / 64;
    if word / 32 % 2 == 1 {
        let kind = Kind {
            prot: Prot::from_bits_retain((word % 8) as u8),
            shared: word / 8 % 2 == 1,
            sealed: word / 16 % 2 == 1,
        };
        (start, Some(kind))
    } else {
        (start, None)
    }
}

/// The word of a row that starts at this page, at most `LIMIT`, and whose pages have this kind, or None for a gap.
pub fn write_row(start: u64, kind: Option<Kind>) -> u64
    requires start { start ≤ LIMIT }
    requires named { IsNamedOption kind }
    ensures word { result ≡ row_word start kind }
    ensures start { row_start result ≡ start }
    ensures kind { row_kind result ≡ kind }
{
    let bits = match kind {
        Some(kind) => {
            let shared = if kind.shared { 8 } else { 0 };
            let sealed = if kind.sealed { 16 } else { 0 };
            32 + sealed + shared + kind.prot.bits()
        }
        None => 0,
    };
    start * 64 + bits as u64
}
