//! Numbers: decimal digits, or `0x` and hexadecimal digits of either case, in 64 bits, as strace(1) prints them. A
//! number takes all the digits that come. One that is too wide is refused at its first byte as soon as its digits
//! end, so no refusal comes from inside a number. `number` in `specs/Leaves.antt` is the definition.

ghost use Rattle.std.specs.Prelude.{◌≡◌, ◌+◌, ◌*◌, ◌<◌, ℕ};
ghost use Rattle.line_parts.specs.Leaves.{is_hex, worth};
ghost use Rattle.line_parts.specs.Reading.{Gives, digits_of, digits_read, narrow, number_at};

use crate::refusal::{Refusal, What};

/// The base of a number, and the base behind `0x`.
const DECIMAL: u64 = 10;

const HEXADECIMAL: u64 = 16;

/// What a byte is worth that is no digit: more than any digit of either base.
const NO_DIGIT: u64 = 99;

#[tactic(auto, unfolding(crate::specs::Leaves::worth))]
fn digit(byte: u8) -> u64
    ensures { result ≡ worth byte }
{
    match byte {
        b'0'..=b'9' => (byte - b'0') as u64,
        b'A'..=b'F' => (byte - b'A') as u64 + DECIMAL,
        b'a'..=b'f' => (byte - b'a') as u64 + DECIMAL,
        _ => NO_DIGIT,
    }
}

/// Whether the byte is a hexadecimal digit, of either case.
pub fn is_hex(byte: u8) -> bool
    ensures { result ≡ is_hex byte }
{
    digit(byte) < HEXADECIMAL
}

/// The number with one more digit.
#[tactic(auto, unfolding(crate::specs::Reading::narrow))]
fn next(value: Option<u64>, base: u64, digit: u64) -> Option<u64>
    requires { 0 < base }
    ensures { (n : ℕ) → value ≡ narrow n → result ≡ narrow (n * base + digit) }
{
    value?.checked_mul(base)?.checked_add(digit)
}

/// The digits of the base at the front: their number, `None` where it passes 64 bits, and what is left behind them.
/// Without a digit the number is 0.
#[tactic(auto, unfolding(crate::specs::Reading::narrow, crate::specs::Reading::digits_of))]
pub fn digits(text: &[u8], base: u64) -> (Option<u64>, &[u8])
    requires { 0 < base }
    ensures value { result.0 ≡ narrow (digits_of base 0 text.now).0 }
    ensures rest { result.1.now ≡ (digits_of base 0 text.now).1 }
{
    let mut value = Some(0);
    let mut rest = text;
    while let [byte, after @ ..] = rest {
        let worth = digit(*byte);
        if worth >= base {
            break;
        }
        value = next(value, base, worth);
        rest = after;
    }
    (value, rest)
}

/// The number that these digits, which stand at the end of the text, begin with.
#[tactic(auto, unfolding(crate::specs::Reading::narrow))]
fn number_of<'a>(
    text: &'a [u8],
    behind: &'a [u8],
    base: u64,
    due: What,
) -> Result<(u64, &'a [u8]), Refusal>
    requires { 0 < base }
    ensures { Gives (λ x. (x.0, x.1.now)) result (digits_read due text.now behind.now (digits_of base 0 behind.now)) }
{
    let (value, rest) = digits(behind, base);
    if rest.len() == behind.len() {
        return Err(Refusal {
            left: behind.len(),
            what: due,
        });
    }
    match value {
        Some(number) => Ok((number, rest)),
        None => Err(Refusal {
            left: text.len(),
            what: What::Wide,
        }),
    }
}

/// The number at the front, and what is left behind it.
#[tactic(auto, unfolding(crate::specs::Reading::number_at, crate::specs::Reading::behind_0x))]
pub fn number(text: &[u8], due: What) -> Result<(u64, &[u8]), Refusal>
    ensures { Gives (λ x. (x.0, x.1.now)) result (number_at due text.now) }
{
    match text {
        [b'0', b'x', digits @ ..] => number_of(text, digits, HEXADECIMAL, due),
        _ => number_of(text, text, DECIMAL, due),
    }
}
