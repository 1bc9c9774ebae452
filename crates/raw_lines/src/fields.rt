//! What options of strace(1) put before a call: times, the number of the call, the address that it was made from.
//! `specs/Fields.antt` has the forms. A reader may rely on all the fields that come being passed, and on nothing else
//! being passed with them but their spaces.

ghost use Rattle.std.specs.Prelude.{◌≡◌, ◌<◌, ◌++◌, ℕ, List, ◌∷◌, MatchOption, IfSome, length, false};
ghost use Rattle.line_parts.specs.Parts.{starts};
ghost use Rattle.line_parts.specs.Leaves.{IsRun};
ghost use Rattle.line_parts.specs.Reading.{taken};
ghost use Rattle.raw_lines.specs.Fields.{is_clock_byte, is_address_byte, IsClock, IsSince, IsBracket, IsField, IsFieldTo, IsBehindField, AreFields};

use line_parts::{What, is_hex, skip_digits, skip_spaces};
use strace_reader::strip_front;

fn is_clock_byte(byte: u8) -> bool
    ensures { result ≡ is_clock_byte byte }
{
    byte.is_ascii_digit() || byte == b':' || byte == b'.'
}

fn is_address_byte(byte: u8) -> bool
    ensures { result ≡ is_address_byte byte }
{
    byte == b'?' || is_hex(byte)
}

/// What is left behind all the bytes of a clock.
#[tactic(auto, unfolding(line_parts::specs::Reading::taken))]
fn skip_clock(text: &[u8]) -> &[u8]
    ensures { result.now ≡ (taken is_clock_byte text.now).1 }
{
    let mut rest = text;
    'clock: while let [first, after @ ..] = rest {
        if !is_clock_byte(*first) {
            break;
        }
        rest = after;
    }
    rest
}

/// What is left behind the bytes of a clock, where there are some.
fn behind_clock(text: &[u8]) -> Option<&[u8]>
    ensures { MatchOption result (starts is_clock_byte text.now ≡ false) (λ x. (more : List ℕ) × IsRun is_clock_byte is_clock_byte more
        × (text.now ≡ more ++ x.now) × (starts is_clock_byte x.now ≡ false)) }
{
    let rest = skip_clock(text);
    if rest.len() == text.len() {
        None
    } else {
        Some(rest)
    }
}

/// What is left behind a time that the text begins with.
pub(crate) fn clock(text: &[u8]) -> Option<&[u8]>
    ensures { MatchOption result ((front rest : List ℕ) → IsClock front → text.now ≡ front ++ rest → ¬ (starts is_clock_byte rest ≡ false))
        (λ x. (front : List ℕ) × IsClock front × (text.now ≡ front ++ x.now) × (starts is_clock_byte x.now ≡ false)) }
{
    match skip_digits(text, What::Number) {
        Ok(behind) => behind_clock(behind),
        Err(_) => None,
    }
}

/// What is left behind the time since the call before, in parentheses.
fn since(text: &[u8]) -> Option<&[u8]>
    ensures { MatchOption result ((front rest : List ℕ) → IsSince front → ¬ (text.now ≡ front ++ rest))
        (λ x. (front : List ℕ) × IsSince front × (text.now ≡ front ++ x.now)) }
{
    let rest = strip_front(text, b"(+")?;
    let left = clock(skip_spaces(rest))?;
    strip_front(left, b")")
}

/// What is left behind all the bytes of an address.
#[tactic(auto, unfolding(line_parts::specs::Reading::taken))]
fn skip_address(text: &[u8]) -> &[u8]
    ensures { result.now ≡ (taken is_address_byte text.now).1 }
{
    let mut rest = text;
    'address: while let [first, after @ ..] = rest {
        if !is_address_byte(*first) {
            break;
        }
        rest = after;
    }
    rest
}

/// What is left behind a number or an address in brackets.
fn bracket(text: &[u8]) -> Option<&[u8]>
    ensures { MatchOption result ((front rest : List ℕ) → IsBracket front → ¬ (text.now ≡ front ++ rest))
        (λ x. (front : List ℕ) × IsBracket front × (text.now ≡ front ++ x.now)) }
{
    let behind = strip_front(text, b"[")?;
    let inner = skip_spaces(behind);
    let rest = skip_address(inner);
    if rest.len() == inner.len() {
        return None;
    }
    strip_front(rest, b"]")
}

/// What is left behind the bytes of one field, whatever stands there.
fn field_bytes(text: &[u8]) -> Option<&[u8]>
    ensures { MatchOption result ((front rest : List ℕ) → IsFieldTo front rest → ¬ (text.now ≡ front ++ rest))
        (λ x. (front : List ℕ) × IsFieldTo front x.now × (text.now ≡ front ++ x.now)) }
{
    if let Some(rest) = clock(text) {
        return Some(rest);
    }
    if let Some(rest) = since(text) {
        return Some(rest);
    }
    bracket(text)
}

/// What is left behind one field and a space.
fn field(text: &[u8]) -> Option<&[u8]>
    ensures { MatchOption result ((front rest : List ℕ) → IsField front → ¬ (text.now ≡ front ++ (32 ∷ rest)))
        (λ x. (front : List ℕ) × IsField front × (text.now ≡ front ++ (32 ∷ x.now))) }
{
    let rest = field_bytes(text)?;
    strip_front(rest, b" ")
}

/// What is left behind one field and the spaces around it.
fn behind_field(text: &[u8]) -> Option<&[u8]>
    ensures is { MatchOption result ((rest : List ℕ) → ¬ IsBehindField text.now rest) (λ x. IsBehindField text.now x.now) }
    ensures shorter { IfSome result (λ x. length x.now < length text.now) }
{
    let rest = field(skip_spaces(text))?;
    Some(skip_spaces(rest))
}

/// What is left behind all the fields that the text begins with.
pub(crate) fn skip_fields(text: &[u8]) -> &[u8]
    ensures { AreFields text.now result.now }
{
    let mut left = text;
    'fields: while let Some(behind) = behind_field(left) {
        left = behind;
    }
    left
}
