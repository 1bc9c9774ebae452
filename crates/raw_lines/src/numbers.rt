//! The number that a text ends with, behind a word: the result of a call, the number in a message of strace's own. Its
//! digits are those of a base, and the byte before them is none. `EndsInNumber` in `specs/Numbers.antt` is the form.

ghost use Rattle.std.specs.Prelude.{◌<◌, ◌≤◌, ℕ, IfSome, IsNone};
ghost use Rattle.line_parts.specs.Leaves.{worth};
ghost use Rattle.raw_lines.specs.Numbers.{EndsInNumber};

use line_parts::digits;
use memchr::memrchr;
use strace_reader::ends_with;

/// The first number that no process has.
const PIDS: u64 = 1 << 32;

/// The number of 32 bits in digits of the base that the text ends with, behind this word and this byte, which is no
/// digit: 24832 of `.. = 24832` behind `=` and a space.
pub fn number_end(text: &[u8], word: &[u8], mark: u8, base: u64) -> Option<u32>
    requires base { 0 < base }
    requires mark { base ≤ worth mark }
    ensures some { IfSome result (EndsInNumber base word.now mark text.now) }
    ensures none { IsNone result → (n : ℕ) → ¬ EndsInNumber base word.now mark text.now n }
{
    let at = memrchr(mark, text)?;
    if !ends_with(&text[..at], word) {
        return None;
    }
    let (value, rest) = digits(&text[at + 1..], base);
    if !rest.is_empty() || at + 1 == text.len() {
        return None;
    }
    match value {
        Some(pid) if pid < PIDS => Some(pid as u32),
        _ => None,
    }
}
