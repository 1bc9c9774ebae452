//! Reads a line of a trace: first the prefix that names a process, then the body behind it. The forms of a body are
//! tried in their order, which decides what it is; a body that names one of the seven calls and is no spelling of it
//! is refused at the first byte that cannot go on. `Spells` and `Refuses` in `specs/Grammar.antt` are the two
//! relations, this project's own profile of strace(1); the reader is exactly them.

ghost use Rattle.std.specs.Prelude.{◌≡◌, ◌≤◌, length, IfOk, IfErr};
ghost use Rattle.line_parts.specs.declared.refusal.Refusal.{Refusal as RefusalOf};
ghost use Rattle.strace_reader.specs.declared.item.BadCall.{BadCall as Bad};
ghost use Rattle.strace_reader.specs.declared.item.Body.{Body as BodyOf};
ghost use Rattle.strace_reader.specs.declared.item.Item.{Item as Spelled};
ghost use Rattle.strace_reader.specs.Reading.{item_of, FitsBody};
ghost use Rattle.strace_reader.specs.Grammar.{IsBody, RefusesBody, IsNamedBody, Spells, Refuses, IsNamedItem};

use crate::calls::arguments;
use crate::forms::{begins_with, cut, first_half, named, never_returned, resumed};
use crate::item::{BadCall, Body, Item};
use line_parts::{Refusal, skip_spaces};

/// What a line is behind its prefix.
fn read_body(text: &[u8]) -> Result<Body, Refusal>
    ensures found { IfOk result (λ body. IsBody text.now body) }
    ensures only { (body : BodyOf) → IsBody text.now body → result ≡ Ok body }
    ensures refused { IfErr result (RefusesBody text.now) }
    ensures only_there { (refusal : RefusalOf) → RefusesBody text.now refusal → result ≡ Err refusal }
    ensures named { IfOk result IsNamedBody }
    ensures within { IfErr result (λ refusal. refusal.left ≤ length text.now) }
{
    if begins_with(text, b"---") || begins_with(text, b"+++") {
        return Ok(Body::Other);
    }
    if let Some((name, rest)) = resumed(text) {
        let left = skip_spaces(rest).len();
        return Ok(Body::SecondHalf { name, left });
    }
    let Some((name, rest)) = named(text) else {
        return Ok(Body::Other);
    };
    if never_returned(text) {
        return Ok(Body::Other);
    }
    if let Some(len) = first_half(text) {
        return Ok(Body::FirstHalf { name, len });
    }
    match arguments(name, rest) {
        Ok((body, _)) => Ok(body),
        Err(refusal) => Err(refusal),
    }
}

/// The item of a line of `len` bytes, whose body has `body_len` bytes.
fn item(len: usize, pid: u32, body_len: usize, body: Body) -> Item
    requires short { len ≤ 131072 }
    requires within { body_len ≤ len }
    requires fits { FitsBody body_len body }
    ensures { result ≡ item_of len pid body_len body }
{
    let from = (len - body_len) as u32;
    match body {
        Body::Called { call, recorded } => Item::Played {
            pid,
            call,
            recorded,
        },
        Body::FirstHalf { name, len: half } => Item::Unfinished {
            pid,
            name,
            from,
            to: from + half as u32,
        },
        Body::SecondHalf { name, left } => Item::Resumed {
            pid,
            name,
            from: (len - left) as u32,
        },
        Body::Other => Item::Other,
    }
}

/// What a line is, without its newline. It has at most 131,072 bytes.
///
/// A refusal comes exactly where the line names one of the seven calls behind its prefix and is no spelling of it. Its
/// column is then the first byte at which the bytes up to it begin no spelling of that call, behind the last byte where
/// the line ends too early; for a number of more than 64 bits and for an access that is another word it is the first
/// byte of that number or word. Nothing is allocated.
pub fn read_line(text: &[u8]) -> Result<Item, BadCall>
    requires { length text.now ≤ 131072 }
    // What is read is spelled so.
    ensures found { IfOk result (λ item. Spells text.now item) }
    // What is spelled so is read.
    ensures only { (item : Spelled) → Spells text.now item → result ≡ Ok item }
    // A line is refused where the forms say so, and for their reason.
    ensures refused { IfErr result (Refuses text.now) }
    // A line has one such place and one such reason.
    ensures only_there { (bad : Bad) → Refuses text.now bad → result ≡ Err bad }
    // The sets of bits of a call have no bit but the named ones.
    ensures named { IfOk result IsNamedItem }
{
    if text.is_empty() {
        return Ok(Item::Blank);
    }
    let (pid, body) = cut(text);
    match read_body(body) {
        Ok(found) => Ok(item(text.len(), pid, body.len(), found)),
        Err(refusal) => Err(BadCall {
            column: (text.len() - refusal.left + 1) as u32,
            what: refusal.what,
        }),
    }
}
