//! Reads a line of a maps file, as proc_pid_maps(5) shows them: `start-end`, a space, four characters, and then the end
//! or a space and any bytes. `SpellsMaps` and `RefusesMaps` in `specs/Maps.antt` are the two relations; the reader is
//! exactly them. That lines are in order is for the caller to see.

ghost use Rattle.std.specs.Prelude.{◌≡◌, IfOk, IfErr, option_map};
ghost use Rattle.strace_reader.specs.declared.item.BadCall.{BadCall as Bad};
ghost use Rattle.strace_reader.specs.declared.maps.MapsItem.{MapsItem as Spelled};
ghost use Rattle.strace_reader.specs.Maps.{SpellsMaps, RefusesMaps, IsNamedMapsItem};
ghost use Rattle.strace_reader.specs.Reading.{address_at, behind_byte, mark_at, sharing_at, ended_at, kind_at, maps_at};

use crate::item::BadCall;
use bitflags::Flags;
use line_parts::{What, digits};
use page_types::{Kind, LIMIT, PAGE, Prot};
use space_model::Area;

/// The base of an address in a maps file.
const HEXADECIMAL: u64 = 16;

/// What a dash stands for.
const NO_BIT: u8 = 0;

/// The first address behind the user addresses.
const USER_END: u64 = LIMIT * PAGE;

/// What a line of a maps file is.
#[derive(Clone, Copy, PartialEq, Eq, Debug)]
pub enum MapsItem {
    /// The pages of the line.
    Area(Area),
    /// A line whose end is past the user addresses, with its two addresses in bytes.
    Past {
        /// The first byte.
        start: u64,
        /// The byte behind the last one, above 0xfffffffffff000.
        end: u64,
    },
}

#[tactic(auto, unfolding(crate::specs::Reading::address_at, line_parts::specs::Reading::narrow))]
fn address(text: &[u8]) -> Option<(u64, &[u8])>
    ensures { option_map (λ x. (x.0, x.1.now)) result ≡ address_at text.now }
{
    let (value, rest) = digits(text, HEXADECIMAL);
    if rest.len() == text.len() {
        return None;
    }
    match value {
        Some(addr) if addr % PAGE == 0 => Some((addr, rest)),
        _ => None,
    }
}

#[tactic(auto, unfolding(crate::specs::Reading::behind_byte))]
fn behind(text: &[u8], due: u8) -> Option<&[u8]>
    ensures { option_map (λ x. x.now) result ≡ behind_byte due text.now }
{
    match text {
        [first, rest @ ..] if *first == due => Some(rest),
        _ => None,
    }
}

#[tactic(auto, unfolding(crate::specs::Reading::mark_at))]
fn mark(text: &[u8], letter: u8, bit: u8) -> Option<(u8, &[u8])>
    ensures { option_map (λ x. (x.0, x.1.now)) result ≡ mark_at letter bit text.now }
{
    match text {
        [first, rest @ ..] if *first == letter => Some((bit, rest)),
        [b'-', rest @ ..] => Some((NO_BIT, rest)),
        _ => None,
    }
}

#[tactic(auto, unfolding(crate::specs::Reading::sharing_at))]
fn sharing(text: &[u8]) -> Option<(bool, &[u8])>
    ensures { option_map (λ x. (x.0, x.1.now)) result ≡ sharing_at text.now }
{
    match text {
        [b's', rest @ ..] => Some((true, rest)),
        [b'p', rest @ ..] => Some((false, rest)),
        _ => None,
    }
}

#[tactic(auto, unfolding(crate::specs::Reading::ended_at))]
fn ended(kind: Kind, text: &[u8]) -> Option<Kind>
    ensures { result ≡ ended_at kind text.now }
{
    match text {
        [] | [b' ', ..] => Some(kind),
        _ => None,
    }
}

#[tactic(auto, unfolding(crate::specs::Reading::kind_at))]
fn kind(text: &[u8]) -> Option<Kind>
    ensures { result ≡ kind_at text.now }
{
    let (read, rest) = mark(text, b'r', Prot::READ.bits())?;
    let (write, rest) = mark(rest, b'w', Prot::WRITE.bits())?;
    let (exec, rest) = mark(rest, b'x', Prot::EXEC.bits())?;
    let (shared, rest) = sharing(rest)?;
    let prot = Prot::from_bits_retain(read | write | exec);
    let kind = Kind {
        prot,
        shared,
        sealed: false,
    };
    ended(kind, rest)
}

#[tactic(auto, unfolding(crate::specs::Reading::maps_at))]
fn maps_form(text: &[u8]) -> Option<(u64, u64, Kind)>
    ensures { result ≡ maps_at text.now }
{
    let (start, rest) = address(text)?;
    let (end, rest) = address(behind(rest, b'-')?)?;
    let kind = kind(behind(rest, b' ')?)?;
    Some((start, end, kind))
}

/// What a line of a maps file is, without its newline.
///
/// `What::Form` comes exactly where the line has another form, or an address is no multiple of 4096 or is
/// wider than 64 bits; otherwise `What::Order` exactly where the start isn't below the end. Both have
/// column 1. A `Past` comes exactly where neither does and the end is above 0xfffffffffff000. Nothing is
/// allocated.
pub fn read_maps_line(text: &[u8]) -> Result<MapsItem, BadCall>
    // What is read is spelled so.
    ensures found { IfOk result (SpellsMaps text.now) }
    // What is spelled so is read.
    ensures only { (item : Spelled) → SpellsMaps text.now item → result ≡ Ok item }
    // A line is refused for its reason.
    ensures refused { IfErr result (RefusesMaps text.now) }
    // A line has one such reason.
    ensures only_there { (bad : Bad) → RefusesMaps text.now bad → result ≡ Err bad }
    // The protection has no bit but the named ones.
    ensures named { IfOk result IsNamedMapsItem }
{
    let Some((start, end, kind)) = maps_form(text) else {
        return Err(BadCall {
            column: 1,
            what: What::Form,
        });
    };
    if start >= end {
        return Err(BadCall {
            column: 1,
            what: What::Order,
        });
    }
    if end > USER_END {
        return Ok(MapsItem::Past { start, end });
    }
    Ok(MapsItem::Area(Area {
        lo: start / PAGE,
        hi: end / PAGE,
        kind,
    }))
}
