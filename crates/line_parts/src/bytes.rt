//! Bytes, words and what stands between them, as strace(1) prints them, in this project's own profile. Each function
//! takes what is left of a text and gives what is left behind its part, or the first refusal. None takes memory.
//! `specs/Leaves.antt` has the parts, `specs/Reading.antt` what each function gives.

ghost use Rattle.std.specs.Prelude.{◌≡◌};
ghost use Rattle.line_parts.specs.Parts.{starts};
ghost use Rattle.line_parts.specs.Leaves.{is, is_digit, is_capital, is_word_byte};
ghost use Rattle.line_parts.specs.Reading.{Gives, behind_first, byte_at, letters_at, taken, after_spaces, run_at, digits_end, until_at};
ghost use Rattle.line_parts.specs.declared.refusal.What.TheVariants.{Word};

use crate::refusal::{Refusal, What};

/// Whether the text begins with the byte.
pub fn begins(text: &[u8], byte: u8) -> bool
    ensures { result ≡ starts (is byte) text.now }
{
    match text {
        [first, ..] => *first == byte,
        [] => false,
    }
}

/// Whether the text begins with a digit from 0 to 9.
pub fn begins_digit(text: &[u8]) -> bool
    ensures { result ≡ starts is_digit text.now }
{
    match text {
        [first, ..] => is_digit(*first),
        [] => false,
    }
}

fn is_digit(byte: u8) -> bool
    ensures { result ≡ is_digit byte }
{
    b'/' < byte && byte < b':'
}

fn is_capital(byte: u8) -> bool
    ensures { result ≡ is_capital byte }
{
    b'@' < byte && byte < b'['
}

fn is_word_byte(byte: u8) -> bool
    ensures { result ≡ is_word_byte byte }
{
    if is_capital(byte) {
        true
    } else if is_digit(byte) {
        true
    } else {
        byte == b'_'
    }
}

/// What is left behind the first byte, nothing where there is none.
pub fn behind_first(text: &[u8]) -> &[u8]
    ensures { result.now ≡ behind_first text.now }
{
    match text {
        [_, rest @ ..] => rest,
        [] => text,
    }
}

/// What is left behind one byte that is due.
#[tactic(auto, unfolding(crate::specs::Reading::byte_at))]
pub fn byte(text: &[u8], due: u8, what: What) -> Result<&[u8], Refusal>
    ensures { Gives (λ rest. (tt, rest.now)) result (byte_at due what text.now) }
{
    match text {
        [first, rest @ ..] if *first == due => Ok(rest),
        _ => Err(Refusal {
            left: text.len(),
            what,
        }),
    }
}

/// What is left behind the bytes of a word that is due.
#[tactic(auto, unfolding(crate::specs::Reading::letters_at))]
pub fn letters<'a>(text: &'a [u8], word: &[u8], what: What) -> Result<&'a [u8], Refusal>
    ensures { Gives (λ rest. (tt, rest.now)) result (letters_at word.now what text.now) }
{
    match word {
        [] => Ok(text),
        [due, word @ ..] => letters(byte(text, *due, what)?, word, what),
    }
}

/// What is left behind all the spaces at the front.
#[tactic(auto, unfolding(crate::specs::Reading::after_spaces, crate::specs::Reading::taken))]
pub fn skip_spaces(text: &[u8]) -> &[u8]
    ensures { result.now ≡ after_spaces text.now }
{
    let mut rest = text;
    while let [b' ', after @ ..] = rest {
        rest = after;
    }
    rest
}

#[tactic(auto, unfolding(crate::specs::Reading::taken))]
fn skip_word_bytes(text: &[u8]) -> &[u8]
    ensures { result.now ≡ (taken is_word_byte text.now).1 }
{
    let mut rest = text;
    while let [first, after @ ..] = rest {
        if !is_word_byte(*first) {
            break;
        }
        rest = after;
    }
    rest
}

#[tactic(auto, unfolding(crate::specs::Reading::taken))]
fn behind_digits(text: &[u8]) -> &[u8]
    ensures { result.now ≡ (taken is_digit text.now).1 }
{
    let mut rest = text;
    while let [first, after @ ..] = rest {
        if !is_digit(*first) {
            break;
        }
        rest = after;
    }
    rest
}

fn begins_capital(text: &[u8]) -> bool
    ensures { result ≡ starts is_capital text.now }
{
    match text {
        [first, ..] => is_capital(*first),
        [] => false,
    }
}

fn begins_word_byte(text: &[u8]) -> bool
    ensures { result ≡ starts is_word_byte text.now }
{
    match text {
        [first, ..] => is_word_byte(*first),
        [] => false,
    }
}

/// The word at the front, capitals, digits and underscores with a capital first, and what is left behind it.
pub fn word(text: &[u8]) -> Result<(&[u8], &[u8]), Refusal>
    ensures { Gives (λ x. (x.0.now, x.1.now)) result (run_at is_capital is_word_byte Word text.now) }
{
    if !begins_capital(text) {
        return Err(Refusal {
            left: text.len(),
            what: What::Word,
        });
    }
    let rest = skip_word_bytes(text);
    Ok((&text[..text.len() - rest.len()], rest))
}

/// The run of capitals, digits and underscores at the front, at least one, and what is left behind it.
pub fn name(text: &[u8], due: What) -> Result<(&[u8], &[u8]), Refusal>
    ensures { Gives (λ x. (x.0.now, x.1.now)) result (run_at is_word_byte is_word_byte due text.now) }
{
    if !begins_word_byte(text) {
        return Err(Refusal {
            left: text.len(),
            what: due,
        });
    }
    let rest = skip_word_bytes(text);
    Ok((&text[..text.len() - rest.len()], rest))
}

/// What is left behind the decimal digits at the front, at least one, as many as there are.
#[tactic(auto, unfolding(crate::specs::Reading::digits_end, crate::specs::Reading::run_at))]
pub fn skip_digits(text: &[u8], due: What) -> Result<&[u8], Refusal>
    ensures { Gives (λ rest. (tt, rest.now)) result (digits_end due text.now) }
{
    match text {
        [first, after @ ..] if is_digit(*first) => Ok(behind_digits(after)),
        _ => Err(Refusal {
            left: text.len(),
            what: due,
        }),
    }
}

/// What is left behind the first `x` that a `y` follows; the `y` is left.
#[tactic(auto, unfolding(crate::specs::Reading::until_at))]
pub fn until(text: &[u8], x: u8, y: u8, what: What) -> Result<&[u8], Refusal>
    ensures { Gives (λ rest. (tt, rest.now)) result (until_at x y what text.now) }
{
    let mut rest = text;
    while let [first, after @ ..] = rest {
        if *first == x && begins(after, y) {
            return Ok(after);
        }
        rest = after;
    }
    Err(Refusal { left: 0, what })
}
