//! The arguments of a call, one function for each kind, in the order of a line of strace(1). Each takes what is left of
//! the line and gives the value and what is left behind it, or the first refusal. The forms are in `specs/Calls.antt`,
//! this project's own profile; that these functions read them is proved part by part.

ghost use Rattle.std.specs.Prelude.{◌≡◌};
ghost use Rattle.line_parts.specs.Reading.{Gives};
ghost use Rattle.strace_reader.specs.Reading.{comma_at, addr_at, prot_word_at, prot_at, commented_at, operand_at};
ghost use Rattle.strace_reader.specs.Reading.{shifted_at, flag_word_at, flags_at, listed_word_at, listed_at, path_at};
ghost use Rattle.strace_reader.specs.Reading.{descriptor_at, access_at, optional_at, alone_at, hex_number_at};
ghost use Rattle.strace_reader.specs.Reading.{zero_behind_at, move_number_at, move_word_at, moving_at};
ghost use Rattle.strace_reader.specs.Calls.{is_more};
ghost use Rattle.line_parts.specs.Parts.{starts};

use crate::words::{access_named, flag_bits, may_move, prot_bits};
use line_parts::{
    Refusal, What, begins, begins_digit, behind_first, byte, is_hex, letters, number, skip_digits,
    skip_spaces, until, word,
};
use page_types::Access;

/// The two lists of words that bars join: the protection and the flags.
#[derive(Clone, Copy)]
enum WordList {
    Prot,
    Flags,
}

#[tactic(auto, unfolding(crate::specs::Reading::comma_at))]
pub(crate) fn comma(text: &[u8]) -> Result<&[u8], Refusal>
    ensures { Gives (λ rest. (tt, rest.now)) result (comma_at text.now) }
{
    Ok(skip_spaces(byte(text, b',', What::Comma)?))
}

#[tactic(auto, unfolding(crate::specs::Reading::addr_at))]
pub(crate) fn addr(text: &[u8]) -> Result<(u64, &[u8]), Refusal>
    ensures { Gives (λ x. (x.0, x.1.now)) result (addr_at text.now) }
{
    if begins(text, b'N') {
        Ok((0, letters(text, b"NULL", What::Number)?))
    } else {
        number(text, What::Number)
    }
}

#[tactic(auto, unfolding(crate::specs::Reading::prot_word_at))]
fn prot_word(text: &[u8]) -> Result<(Option<u8>, &[u8]), Refusal>
    ensures { Gives (λ x. (x.0, x.1.now)) result (prot_word_at text.now) }
{
    if begins_digit(text) {
        return Ok((None, &[]));
    }
    let (name, rest) = word(text)?;
    match prot_bits(name) {
        Some(bits) => Ok((Some(bits), rest)),
        None => Ok((None, &[])),
    }
}

#[tactic(auto, unfolding(crate::specs::Reading::commented_at))]
fn comment(text: &[u8]) -> Result<&[u8], Refusal>
    ensures { Gives (λ rest. (tt, rest.now)) result (commented_at text.now) }
{
    if !begins(text, b' ') {
        return Ok(text);
    }
    let rest = letters(text, b" /*", What::Comma)?;
    let rest = until(rest, b'*', b'/', What::Comma)?;
    byte(rest, b'/', What::Comma)
}

#[tactic(auto, unfolding(crate::specs::Reading::operand_at))]
fn operand(text: &[u8]) -> Result<&[u8], Refusal>
    ensures { Gives (λ rest. (tt, rest.now)) result (operand_at text.now) }
{
    if begins_digit(text) {
        let (_, rest) = number(text, What::Number)?;
        return Ok(rest);
    }
    let (_, rest) = word(text)?;
    Ok(rest)
}

#[tactic(auto, unfolding(crate::specs::Reading::shifted_at))]
fn shift(text: &[u8]) -> Result<&[u8], Refusal>
    ensures { Gives (λ rest. (tt, rest.now)) result (shifted_at text.now) }
{
    if begins(text, b'<') {
        comment(operand(letters(text, b"<<", What::Comma)?)?)
    } else {
        comment(text)
    }
}

#[tactic(auto, unfolding(crate::specs::Reading::flag_word_at))]
fn flag_word(text: &[u8]) -> Result<(Option<u8>, &[u8]), Refusal>
    ensures { Gives (λ x. (x.0, x.1.now)) result (flag_word_at text.now) }
{
    if begins_digit(text) {
        let (_, rest) = number(text, What::Number)?;
        return Ok((Some(0), shift(rest)?));
    }
    let (name, rest) = word(text)?;
    match flag_bits(name) {
        Some(bits) => Ok((Some(bits), rest)),
        None => Ok((None, &[])),
    }
}

fn listed_word(list: WordList, text: &[u8]) -> Result<(Option<u8>, &[u8]), Refusal>
    ensures { Gives (λ x. (x.0, x.1.now)) result (listed_word_at list text.now) }
{
    match list {
        WordList::Prot => prot_word(text),
        WordList::Flags => flag_word(text),
    }
}

/// The bits of the words of a list. None where a word leaves the line unplayed; nothing is left of the line then.
fn listed(list: WordList, text: &[u8]) -> Result<(Option<u8>, &[u8]), Refusal>
    ensures { Gives (λ x. (x.0, x.1.now)) result (listed_at list text.now) }
{
    let mut bits = 0;
    let mut left = text;
    'items: loop {
        let (more, rest) = listed_word(list, left)?;
        let Some(more) = more else {
            return Ok((None, rest));
        };
        bits |= more;
        if !begins(rest, b'|') {
            return Ok((Some(bits), rest));
        }
        left = behind_first(rest);
    }
}

/// The bits of a protection, None where a word or a number leaves the line unplayed.
#[tactic(auto, unfolding(crate::specs::Reading::prot_at))]
pub(crate) fn prot(text: &[u8]) -> Result<(Option<u8>, &[u8]), Refusal>
    ensures { Gives (λ x. (x.0, x.1.now)) result (prot_at text.now) }
{
    listed(WordList::Prot, text)
}

/// The bits of the flags, None where a word leaves the line unplayed.
#[tactic(auto, unfolding(crate::specs::Reading::flags_at))]
pub(crate) fn flags(text: &[u8]) -> Result<(Option<u8>, &[u8]), Refusal>
    ensures { Gives (λ x. (x.0, x.1.now)) result (flags_at text.now) }
{
    listed(WordList::Flags, text)
}

#[tactic(auto, unfolding(crate::specs::Reading::path_at))]
fn path(text: &[u8]) -> Result<&[u8], Refusal>
    ensures { Gives (λ rest. (tt, rest.now)) result (path_at text.now) }
{
    if begins(text, b'<') {
        until(byte(text, b'<', What::Comma)?, b'>', b',', What::Comma)
    } else {
        Ok(text)
    }
}

#[tactic(auto, unfolding(crate::specs::Reading::descriptor_at))]
pub(crate) fn descriptor(text: &[u8]) -> Result<&[u8], Refusal>
    ensures { Gives (λ rest. (tt, rest.now)) result (descriptor_at text.now) }
{
    if begins(text, b'-') {
        path(letters(text, b"-1", What::Number)?)
    } else {
        path(skip_digits(text, What::Number)?)
    }
}

#[tactic(auto, unfolding(crate::specs::Reading::access_at))]
pub(crate) fn access(text: &[u8]) -> Result<(Access, &[u8]), Refusal>
    ensures { Gives (λ x. (x.0, x.1.now)) result (access_at text.now) }
{
    let (name, rest) = word(text)?;
    match access_named(name) {
        Some(access) => Ok((access, rest)),
        None => Err(Refusal {
            left: text.len(),
            what: What::Word,
        }),
    }
}

/// An address behind a comma, or 0 where there is none.
#[tactic(auto, unfolding(crate::specs::Reading::optional_at))]
pub(crate) fn optional(text: &[u8]) -> Result<(u64, &[u8]), Refusal>
    ensures { Gives (λ x. (x.0, x.1.now)) result (optional_at text.now) }
{
    if begins(text, b',') {
        addr(comma(text)?)
    } else {
        Ok((0, text))
    }
}

fn is_more(byte: u8) -> bool
    ensures { result ≡ is_more byte }
{
    if byte == b'|' {
        true
    } else {
        b'/' < byte && byte < b':'
    }
}

/// Whether the text begins with a bar or a digit.
fn begins_more(text: &[u8]) -> bool
    ensures { result ≡ starts is_more text.now }
{
    match text {
        [first, ..] => is_more(*first),
        [] => false,
    }
}

/// Behind `0x`: a line with a digit there is left unplayed.
#[tactic(auto, unfolding(crate::specs::Reading::hex_number_at, line_parts::specs::Reading::run_at))]
fn hex_number(text: &[u8]) -> Result<(Option<bool>, &[u8]), Refusal>
    ensures { Gives (λ x. (x.0, x.1.now)) result (hex_number_at text.now) }
{
    match text {
        [first, ..] if is_hex(*first) => Ok((None, &[])),
        _ => Err(Refusal {
            left: text.len(),
            what: What::Number,
        }),
    }
}

/// Behind a first 0: where it stands alone, pages may not move.
#[tactic(auto, unfolding(crate::specs::Reading::zero_behind_at))]
fn zero_behind(text: &[u8]) -> Result<(Option<bool>, &[u8]), Refusal>
    ensures { Gives (λ x. (x.0, x.1.now)) result (zero_behind_at text.now) }
{
    if begins(text, b'x') {
        return hex_number(byte(text, b'x', What::Number)?);
    }
    if begins_more(text) {
        Ok((None, &[]))
    } else {
        Ok((Some(false), text))
    }
}

/// A number of mremap's flags, None where it leaves the line unplayed.
#[tactic(auto, unfolding(crate::specs::Reading::move_number_at))]
fn move_number(text: &[u8]) -> Result<(Option<bool>, &[u8]), Refusal>
    ensures { Gives (λ x. (x.0, x.1.now)) result (move_number_at text.now) }
{
    if begins(text, b'0') {
        zero_behind(byte(text, b'0', What::Number)?)
    } else {
        Ok((None, &[]))
    }
}

/// A word of mremap's flags, None where it, or a bar behind it, leaves the line unplayed.
#[tactic(auto, unfolding(crate::specs::Reading::move_word_at))]
fn move_word(text: &[u8]) -> Result<(Option<bool>, &[u8]), Refusal>
    ensures { Gives (λ x. (x.0, x.1.now)) result (move_word_at text.now) }
{
    let (name, rest) = word(text)?;
    match may_move(name) {
        None => Ok((None, &[])),
        Some(may) => {
            if begins(rest, b'|') {
                Ok((None, &[]))
            } else {
                Ok((Some(may), rest))
            }
        }
    }
}

/// Whether mremap's flags say that pages may move, None where a word or a number leaves the line unplayed.
#[tactic(auto, unfolding(crate::specs::Reading::moving_at))]
pub(crate) fn moving(text: &[u8]) -> Result<(Option<bool>, &[u8]), Refusal>
    ensures { Gives (λ x. (x.0, x.1.now)) result (moving_at text.now) }
{
    if begins_digit(text) {
        move_number(text)
    } else {
        move_word(text)
    }
}
