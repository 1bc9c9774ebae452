//! The seven calls of a line, from behind the name to the end of the line. Each function gives the body that the line
//! has and what is left of it, which is nothing, or the first refusal. `specs/Calls.antt` has the forms; what
//! strace(1) prints between the arguments and behind them is taken as this project's own profile says.

ghost use Rattle.std.specs.Prelude.{◌≡◌};
ghost use Rattle.line_parts.specs.Reading.{Gives, end_at};
ghost use Rattle.line_parts.specs.declared.refusal.What.TheVariants.{Result as AtResult};
ghost use Rattle.strace_reader.specs.declared.item.Body.TheVariants.{Called};
ghost use Rattle.strace_reader.specs.Reading.{failed_at, recorded_at, equals_at, tail_at, outcome_at, closing_at};
ghost use Rattle.strace_reader.specs.Reading.{munmap_at, mprotect_at, fault_call_at, mseal_at, map_tail_at, mmap_at};
ghost use Rattle.strace_reader.specs.Reading.{brk_at, remap_lengths_at, mremap_at};
ghost use Rattle.strace_reader.specs.Reading.{arguments_at};

use crate::arguments::{access, addr, comma, descriptor, flags, moving, optional, prot};
use crate::item::{Body, Name, Recorded};
use crate::words::errno_named;
use bitflags::Flags;
use line_parts::{Refusal, What, begins, byte, letters, name, number, skip_spaces};
use page_types::{Call, MapFlags, Prot};

#[tactic(auto, unfolding(crate::specs::Reading::failed_at))]
fn value_or_failed(text: &[u8]) -> Result<(Option<Recorded>, &[u8]), Refusal>
    ensures { Gives (λ x. (x.0, x.1.now)) result (failed_at text.now) }
{
    if begins(text, b'-') {
        let rest = letters(text, b"-1 ", What::Result)?;
        let (word, rest) = name(rest, What::Result)?;
        Ok((Some(Recorded::Failed(errno_named(word))), rest))
    } else {
        let (value, rest) = number(text, What::Result)?;
        Ok((Some(Recorded::Value(value)), rest))
    }
}

#[tactic(auto, unfolding(crate::specs::Reading::recorded_at))]
fn recorded(text: &[u8]) -> Result<(Option<Recorded>, &[u8]), Refusal>
    ensures { Gives (λ x. (x.0, x.1.now)) result (recorded_at text.now) }
{
    if begins(text, b'?') {
        Ok((None, byte(text, b'?', What::Result)?))
    } else {
        value_or_failed(text)
    }
}

#[tactic(auto, unfolding(crate::specs::Reading::equals_at))]
fn equals(text: &[u8]) -> Result<&[u8], Refusal>
    ensures { Gives (λ rest. (tt, rest.now)) result (equals_at text.now) }
{
    let rest = skip_spaces(byte(text, b' ', What::Result)?);
    Ok(skip_spaces(letters(rest, b"= ", What::Result)?))
}

/// The body, where the text ends or goes on with a space.
#[tactic(auto, unfolding(crate::specs::Reading::tail_at, line_parts::specs::Reading::end_at))]
fn tail(body: Body, text: &[u8]) -> Result<(Body, &[u8]), Refusal>
    ensures { Gives (λ x. (x.0, x.1.now)) result (tail_at body text.now) }
{
    if begins(text, b' ') {
        return Ok((body, &[]));
    }
    end(body, text)
}

#[tactic(auto, unfolding(line_parts::specs::Reading::end_at))]
fn end(body: Body, text: &[u8]) -> Result<(Body, &[u8]), Refusal>
    ensures { Gives (λ x. (x.0, x.1.now)) result (end_at AtResult body text.now) }
{
    match text {
        [] => Ok((body, &[])),
        _ => Err(Refusal {
            left: text.len(),
            what: What::Result,
        }),
    }
}

#[tactic(auto, unfolding(crate::specs::Reading::outcome_at))]
fn outcome(call: Call, text: &[u8]) -> Result<(Body, &[u8]), Refusal>
    ensures { Gives (λ x. (x.0, x.1.now)) result (outcome_at call text.now) }
{
    if begins(text, b' ') {
        let (recorded, rest) = recorded(equals(text)?)?;
        return tail(called(call, recorded), rest);
    }
    end(called(call, None), text)
}

fn called(call: Call, recorded: Option<Recorded>) -> Body
    ensures { result ≡ Called call recorded }
{
    Body::Called { call, recorded }
}

#[tactic(auto, unfolding(crate::specs::Reading::closing_at))]
fn closing(call: Call, text: &[u8]) -> Result<(Body, &[u8]), Refusal>
    ensures { Gives (λ x. (x.0, x.1.now)) result (closing_at call text.now) }
{
    outcome(call, byte(text, b')', What::Close)?)
}

#[tactic(auto, unfolding(crate::specs::Reading::munmap_at))]
fn munmap(text: &[u8]) -> Result<(Body, &[u8]), Refusal>
    ensures { Gives (λ x. (x.0, x.1.now)) result (munmap_at text.now) }
{
    let (addr, rest) = addr(text)?;
    let (len, rest) = number(comma(rest)?, What::Number)?;
    closing(Call::Unmap { addr, len }, rest)
}

#[tactic(auto, unfolding(crate::specs::Reading::mprotect_at))]
fn mprotect(text: &[u8]) -> Result<(Body, &[u8]), Refusal>
    ensures { Gives (λ x. (x.0, x.1.now)) result (mprotect_at text.now) }
{
    let (addr, rest) = addr(text)?;
    let (len, rest) = number(comma(rest)?, What::Number)?;
    let (bits, rest) = prot(comma(rest)?)?;
    match bits {
        None => Ok((Body::Other, rest)),
        Some(bits) => {
            let prot = Prot::from_bits_retain(bits);
            closing(Call::Protect { addr, len, prot }, rest)
        }
    }
}

#[tactic(auto, unfolding(crate::specs::Reading::fault_call_at))]
fn fault(text: &[u8]) -> Result<(Body, &[u8]), Refusal>
    ensures { Gives (λ x. (x.0, x.1.now)) result (fault_call_at text.now) }
{
    let (addr, rest) = addr(text)?;
    let (access, rest) = access(comma(rest)?)?;
    closing(Call::Fault { addr, access }, rest)
}

#[tactic(auto, unfolding(crate::specs::Reading::mseal_at))]
fn mseal(text: &[u8]) -> Result<(Body, &[u8]), Refusal>
    ensures { Gives (λ x. (x.0, x.1.now)) result (mseal_at text.now) }
{
    let (addr, rest) = addr(text)?;
    let (len, rest) = number(comma(rest)?, What::Number)?;
    let (flags, rest) = number(comma(rest)?, What::Number)?;
    closing(Call::Seal { addr, len, flags }, rest)
}

#[tactic(auto, unfolding(crate::specs::Reading::brk_at))]
fn brk(text: &[u8]) -> Result<(Body, &[u8]), Refusal>
    ensures { Gives (λ x. (x.0, x.1.now)) result (brk_at text.now) }
{
    let (addr, rest) = addr(text)?;
    let (base, rest) = optional(rest)?;
    closing(Call::Brk { base, addr }, rest)
}

/// The new length, the flags and the hint, and the end of the line.
#[tactic(auto, unfolding(crate::specs::Reading::remap_lengths_at))]
fn remap_lengths(addr: u64, old_len: u64, text: &[u8]) -> Result<(Body, &[u8]), Refusal>
    ensures { Gives (λ x. (x.0, x.1.now)) result (remap_lengths_at addr old_len text.now) }
{
    let (new_len, rest) = number(comma(text)?, What::Number)?;
    let (may, rest) = moving(comma(rest)?)?;
    match may {
        None => Ok((Body::Other, rest)),
        Some(may_move) => {
            let (hint, rest) = optional(rest)?;
            let call = Call::Remap {
                addr,
                old_len,
                new_len,
                may_move,
                hint,
            };
            closing(call, rest)
        }
    }
}

#[tactic(auto, unfolding(crate::specs::Reading::mremap_at))]
fn mremap(text: &[u8]) -> Result<(Body, &[u8]), Refusal>
    ensures { Gives (λ x. (x.0, x.1.now)) result (mremap_at text.now) }
{
    let (addr, rest) = addr(text)?;
    let (old_len, rest) = number(comma(rest)?, What::Number)?;
    remap_lengths(addr, old_len, rest)
}

/// The descriptor and the offset, which are read and let go, and the end of the line.
#[tactic(auto, unfolding(crate::specs::Reading::map_tail_at))]
fn map_tail(call: Call, text: &[u8]) -> Result<(Body, &[u8]), Refusal>
    ensures { Gives (λ x. (x.0, x.1.now)) result (map_tail_at call text.now) }
{
    let rest = descriptor(comma(text)?)?;
    let (_, rest) = number(comma(rest)?, What::Number)?;
    closing(call, rest)
}

#[tactic(auto, unfolding(crate::specs::Reading::mmap_at))]
fn mmap(text: &[u8]) -> Result<(Body, &[u8]), Refusal>
    ensures { Gives (λ x. (x.0, x.1.now)) result (mmap_at text.now) }
{
    let (addr, rest) = addr(text)?;
    let (len, rest) = number(comma(rest)?, What::Number)?;
    let (prot_bits, rest) = prot(comma(rest)?)?;
    let Some(prot_bits) = prot_bits else {
        return Ok((Body::Other, rest));
    };
    let (flag_bits, rest) = flags(comma(rest)?)?;
    let Some(flag_bits) = flag_bits else {
        return Ok((Body::Other, rest));
    };
    let prot = Prot::from_bits_retain(prot_bits);
    let flags = MapFlags::from_bits_retain(flag_bits);
    let call = Call::Map {
        addr,
        len,
        prot,
        flags,
    };
    map_tail(call, rest)
}

/// What a line is whose name was read, and what is left of it, which is nothing.
pub(crate) fn arguments(name: Name, text: &[u8]) -> Result<(Body, &[u8]), Refusal>
    ensures { Gives (λ x. (x.0, x.1.now)) result (arguments_at name text.now) }
{
    match name {
        Name::Mmap => mmap(text),
        Name::Munmap => munmap(text),
        Name::Mprotect => mprotect(text),
        Name::Fault => fault(text),
        Name::Mseal => mseal(text),
        Name::Brk => brk(text),
        Name::Mremap => mremap(text),
    }
}
