//! Numbers and words of a log line, from left to right: each function gives what it found and what is left behind it.
//! A number may have leading zeros or upper digits here; whether the line is as the printer writes it is tested at the
//! end, on the whole line.

ghost use Rattle.std.specs.Prelude.{◌≡◌, ◌<◌, option_map};
ghost use Rattle.history_check.specs.Reading.{strip_at, number_at, small_at, page_at};

use line_parts::digits;

/// The base of counts.
pub(crate) const DECIMAL: u64 = 10;

/// The base of pages and addresses.
const HEXADECIMAL: u64 = 16;

/// The first number that needs more than 32 bits.
const NARROW: u64 = 1 << 32;

/// What is left behind a word that the text begins with.
pub(crate) fn strip<'a>(text: &'a [u8], word: &[u8]) -> Option<&'a [u8]>
    ensures { option_map (λ x. x.now) result ≡ strip_at word.now text.now }
{
    text.strip_prefix(word)
}

/// The digits at the front as a number of 64 bits.
#[tactic(auto, unfolding(crate::specs::Reading::number_at, line_parts::specs::Reading::narrow))]
pub(crate) fn number(text: &[u8], base: u64) -> Option<(u64, &[u8])>
    requires { 0 < base }
    ensures { option_map (λ x. (x.0, x.1.now)) result ≡ number_at base text.now }
{
    let (value, rest) = digits(text, base);
    match value {
        Some(found) => Some((found, rest)),
        None => None,
    }
}

/// The decimal digits at the front as a number of 32 bits.
#[tactic(auto, unfolding(crate::specs::Reading::small_at))]
pub(crate) fn small(text: &[u8]) -> Option<(u32, &[u8])>
    ensures { option_map (λ x. (x.0, x.1.now)) result ≡ small_at text.now }
{
    let (value, rest) = number(text, DECIMAL)?;
    if value < NARROW {
        Some((value as u32, rest))
    } else {
        None
    }
}

/// `0x` and hexadecimal digits at the front.
#[tactic(auto, unfolding(crate::specs::Reading::page_at))]
pub(crate) fn page(text: &[u8]) -> Option<(u64, &[u8])>
    ensures { option_map (λ x. (x.0, x.1.now)) result ≡ page_at text.now }
{
    number(strip(text, b"0x")?, HEXADECIMAL)
}
