//! The reply on a log line: an address, 0, what a fault was granted, or why the call was refused.

ghost use Rattle.std.specs.Prelude.{◌≡◌, ◌↔◌, IsTrue, option_map};
ghost use Rattle.page_types.specs.Named.{IsNamedReply};
ghost use Rattle.history_check.specs.Reading.{bit_if, marked_at, kind_at, field_at, short_at, segv_at, faulted_at, paged_at, why_at, reply_at};

use crate::numbers::{DECIMAL, number, page, small, strip};
use bitflags::Flags;
use page_types::{Field, Kind, Prot, Reply, Short, Why};

/// Whether the first byte is this letter, and what is left behind it.
#[tactic(auto, unfolding(crate::specs::Reading::marked_at))]
fn marked(text: &[u8], letter: u8) -> Option<(bool, &[u8])>
    ensures { option_map (λ x. (x.0, x.1.now)) result ≡ marked_at letter text.now }
{
    match text {
        [first, rest @ ..] => Some((*first == letter, rest)),
        [] => None,
    }
}

/// The kind that four characters show, and ` sealed` behind them where it is sealed.
#[tactic(auto, unfolding(crate::specs::Reading::kind_at))]
fn kind(text: &[u8]) -> Option<(Kind, &[u8])>
    ensures { option_map (λ x. (x.0, x.1.now)) result ≡ kind_at text.now }
{
    let (read, rest) = marked(text, b'r')?;
    let (write, rest) = marked(rest, b'w')?;
    let (exec, rest) = marked(rest, b'x')?;
    let (shared, rest) = marked(rest, b's')?;
    let bits = bit_if(read, 1) + bit_if(write, 2) + bit_if(exec, 4);
    let prot = Prot::from_bits_retain(bits);
    if let Some(rest) = strip(rest, b" sealed") {
        let kind = Kind {
            prot,
            shared,
            sealed: true,
        };
        return Some((kind, rest));
    }
    let kind = Kind {
        prot,
        shared,
        sealed: false,
    };
    Some((kind, rest))
}

/// The bit, or none where it isn't set.
fn bit_if(is_set: bool, bit: u8) -> u8
    ensures { result ≡ bit_if is_set bit }
{
    if is_set { bit } else { 0 }
}

/// The argument that an EINVAL is about.
#[tactic(auto, unfolding(crate::specs::Reading::field_at))]
fn field(text: &[u8]) -> Option<(Field, &[u8])>
    ensures { option_map (λ x. (x.0, x.1.now)) result ≡ field_at text.now }
{
    if let Some(rest) = strip(text, b"addr") {
        return Some((Field::Addr, rest));
    }
    if let Some(rest) = strip(text, b"len") {
        return Some((Field::Len, rest));
    }
    if let Some(rest) = strip(text, b"flags") {
        return Some((Field::Flags, rest));
    }
    let rest = strip(text, b"end")?;
    Some((Field::End, rest))
}

/// What an ENOMEM is short of.
#[tactic(auto, unfolding(crate::specs::Reading::short_at))]
fn short(text: &[u8]) -> Option<(Short, &[u8])>
    ensures { option_map (λ x. (x.0, x.1.now)) result ≡ short_at text.now }
{
    if let Some(rest) = strip(text, b"missing page ") {
        let (found, rest) = page(rest)?;
        return Some((Short::Missing(found), rest));
    }
    if let Some(rest) = strip(text, b"end page ") {
        let (found, rest) = page(rest)?;
        return Some((Short::PastEnd(found), rest));
    }
    if let Some(rest) = strip(text, b"no gap of ") {
        let (pages, rest) = number(rest, DECIMAL)?;
        return Some((Short::NoGap(pages), strip(rest, b" pages")?));
    }
    let (rows, rest) = small(strip(text, b"rows ")?)?;
    Some((Short::Rows(rows), rest))
}

/// Why a fault was refused, by the name of its SIGSEGV code.
#[tactic(auto, unfolding(crate::specs::Reading::segv_at))]
fn segv(text: &[u8]) -> Option<(Why, &[u8])>
    ensures { option_map (λ x. (x.0, x.1.now)) result ≡ segv_at text.now }
{
    if let Some(rest) = strip(text, b"SEGV_MAPERR page ") {
        let (found, rest) = page(rest)?;
        return Some((Why::MapErr(found), rest));
    }
    let (found, rest) = page(strip(text, b"SEGV_ACCERR page ")?)?;
    let (kind, rest) = kind(strip(rest, b" ")?)?;
    Some((Why::AccErr(found, kind), rest))
}

/// Why a call was refused: a page that isn't mapped as the call needs it.
#[tactic(auto, unfolding(crate::specs::Reading::faulted_at))]
fn faulted(text: &[u8]) -> Option<(Why, &[u8])>
    ensures { option_map (λ x. (x.0, x.1.now)) result ≡ faulted_at text.now }
{
    if let Some(rest) = strip(text, b"EFAULT page ") {
        let (found, rest) = page(rest)?;
        return Some((Why::Efault(found), rest));
    }
    segv(text)
}

/// Why a call was refused: what it names is a page.
#[tactic(auto, unfolding(crate::specs::Reading::paged_at))]
fn paged(text: &[u8]) -> Option<(Why, &[u8])>
    ensures { option_map (λ x. (x.0, x.1.now)) result ≡ paged_at text.now }
{
    if let Some(rest) = strip(text, b"EEXIST page ") {
        let (found, rest) = page(rest)?;
        return Some((Why::Eexist(found), rest));
    }
    if let Some(rest) = strip(text, b"EPERM page ") {
        let (found, rest) = page(rest)?;
        return Some((Why::Eperm(found), rest));
    }
    faulted(text)
}

/// Why a call was refused.
#[tactic(auto, unfolding(crate::specs::Reading::why_at))]
fn why(text: &[u8]) -> Option<(Why, &[u8])>
    ensures { option_map (λ x. (x.0, x.1.now)) result ≡ why_at text.now }
{
    if let Some(rest) = strip(text, b"EINVAL ") {
        let (found, rest) = field(rest)?;
        return Some((Why::Einval(found), rest));
    }
    if let Some(rest) = strip(text, b"ENOMEM ") {
        let (found, rest) = short(rest)?;
        return Some((Why::Enomem(found), rest));
    }
    paged(text)
}

/// The reply at the front, and what is left behind it.
#[tactic(auto, unfolding(crate::specs::Reading::reply_at))]
pub(crate) fn reply(text: &[u8]) -> Option<(Reply, &[u8])>
    ensures { option_map (λ x. (x.0, x.1.now)) result ≡ reply_at text.now }
{
    if let Some(rest) = strip(text, b"-1 ") {
        let (found, rest) = why(rest)?;
        return Some((Reply::Refused(found), rest));
    }
    if let Some(rest) = strip(text, b"granted ") {
        let (found, rest) = kind(rest)?;
        return Some((Reply::Granted(found), rest));
    }
    if let Some((addr, rest)) = page(text) {
        return Some((Reply::At(addr), rest));
    }
    let rest = strip(text, b"0")?;
    Some((Reply::Zero, rest))
}

/// Whether the kind that the reply names, if it names one, has no bit but the named ones.
pub(crate) fn is_named(reply: &Reply) -> bool
    ensures { IsTrue result ↔ IsNamedReply reply.now }
{
    match *reply {
        Reply::Granted(kind) => kind.is_named(),
        Reply::Refused(Why::AccErr(_, kind)) => kind.is_named(),
        _ => true,
    }
}
