//! The texts of a log with the numbers of their lines. They stand one behind the other in one buffer, since a line that
//! a message broke stands nowhere in the log as it is; so a text takes its bytes and twelve more. The number of a
//! process that many texts share stands once beside the buffer, and is put before a text where it is looked at.
//! Contracts see whole texts, as a list with their numbers. A sieve leaves texts out of them in their place.

ghost use Rattle.std.specs.Prelude.{◌≡◌, ◌≢◌, ◌≤◌, ◌<◌, ◌+◌, ◌-◌, ◌^◌, ◌++◌, ◌∷◌, [], List, length, take, drop, get_or, true, false, IfOk, OnOk};
ghost use Rattle.raw_logs.specs.Log.{Numbered, line_of};
ghost use Rattle.raw_logs.specs.Numbering.{with_number};
ghost use Rattle.raw_logs.specs.Buffer.{shown, cut_at, AreEnds, start_at, IsSieve, kept_in, rest_in};

use std::alloc::{AllocError, Global};
use std::marker::Model;

/// How many bytes a line may have, without its newline.
pub const LINE_LIMIT: usize = 65_535;

/// How many bytes a buffer may have: places in it are numbers of 32 bits.
const MOST_BYTES: usize = 4_294_967_295;

/// A text in the buffer: it stands behind the one before it.
#[derive(Clone, Copy, Debug)]
pub(crate) struct End {
    /// The number of its line, or of the first of its lines, counted from 1.
    number: u32,
    /// The place behind its last byte, counted from 0.
    behind: u32,
    /// The number that texts share stands before it, and not in the buffer.
    numbered: bool,
}

/// Texts, each with the number of its line, or of the first of its lines, counted from 1.
#[derive(Debug, Drop)]
pub struct Lines {
    bytes: Vec<u8>,
    ends: Vec<End>,
    /// The number of a process that texts share.
    first: u32,
}

impl Model for Lines {
    ghost use Rattle.std.specs.Prelude.{List, length};
    ghost use Rattle.raw_logs.specs.Log.{Numbered};
    ghost use Rattle.raw_logs.specs.Buffer.{cut_at, AreEnds};

    ghost Value = { List Numbered };

    ghost view = { λ l. cut_at l.first 0 l.bytes.items l.ends.items };

    ghost invariant = { λ l. AreEnds 0 (length l.bytes.items) l.ends.items };
}

/// Where a text of the buffer begins.
fn start_of(ends: &[End], place: usize) -> u32
    requires { place ≤ length ends.now }
    ensures { result ≡ start_at 0 ends.now place }
{
    if place == 0 {
        return 0;
    }
    ends[place - 1].behind
}

/// The bytes from one place up to another.
fn between(bytes: &[u8], from: u32, behind: u32) -> &[u8]
    requires from { from ≤ behind }
    requires behind { behind ≤ length bytes.now }
    ensures { result.now ≡ take (behind - from) (drop from bytes.now) }
{
    &bytes[from as usize..behind as usize]
}

/// Writes the number of a process, a space and a text into an empty room.
fn write_numbered(room: &mut Vec<u8>, pid: u32, body: &[u8]) -> Result<(), AllocError>
    ensures { OnOk result (room.new.items ≡ with_number pid body.now) }
{
    room.clear();
    let mut buffer = itoa::Buffer::new();
    room.extend_from_slice(buffer.format(pid).as_bytes())?;
    room.extend_from_slice(b" ")?;
    room.extend_from_slice(body)?;
    Ok(())
}

/// A text as a whole, in this room where the number that texts share stands before it.
fn whole<'a>(
    room: &'a mut Vec<u8>,
    first: u32,
    numbered: bool,
    body: &'a [u8],
) -> Result<&'a [u8], AllocError>
    ensures { IfOk result (λ text. text.now ≡ shown first numbered body.now) }
{
    if !numbered {
        return Ok(body);
    }
    write_numbered(room, first, body)?;
    Ok(room.as_slice())
}

/// A text of the buffer, with its number.
fn text_of<'a>(
    bytes: &'a [u8],
    ends: &[End],
    first: u32,
    place: usize,
    room: &'a mut Vec<u8>,
) -> Result<(u32, &'a [u8]), AllocError>
    requires ends { AreEnds 0 (length bytes.now) ends.now }
    requires place { place < length ends.now }
    ensures { IfOk result (λ found. line_of found.0 found.1.now ≡ get_or (cut_at first 0 bytes.now ends.now) place (line_of found.0 found.1.now)) }
{
    let from = start_of(ends, place);
    let end = ends[place];
    let text = whole(room, first, end.numbered, between(bytes, from, end.behind))?;
    Ok((end.number, text))
}

/// Adds a text to the buffer, and whether the number that texts share stands before it.
fn add_text(
    bytes: &mut Vec<u8>,
    ends: &mut Vec<End>,
    number: u32,
    numbered: bool,
    front: &[u8],
    middle: &[u8],
    back: &[u8],
) -> Result<(), AllocError>
    ensures bytes { OnOk result (bytes.new.items ≡ bytes.old.items ++ (front.now ++ (middle.now ++ back.now))) }
    ensures ends { OnOk result (ends.new.items ≡ ends.old.items ++ (record { number = number; behind = length bytes.new.items; numbered = numbered } ∷ [])) }
{
    bytes.extend_from_slice(front)?;
    bytes.extend_from_slice(middle)?;
    bytes.extend_from_slice(back)?;
    if bytes.len() > MOST_BYTES {
        return Err(AllocError);
    }
    ends.push(End {
        number,
        behind: bytes.len() as u32,
        numbered,
    })?;
    Ok(())
}

impl Lines {
    /// No text.
    pub(crate) fn new(alloc: Global) -> Lines
        ensures { result ≡ [] }
    {
        Lines {
            bytes: Vec::new(alloc),
            ends: Vec::new(alloc),
            first: 0,
        }
    }

    /// How many there are.
    pub fn len(&self) -> usize
        ensures { result ≡ length self.now }
    {
        self.ends.len()
    }

    /// The text at a place, counted from 0, with its number. It stands in this room, or where it is kept.
    ///
    /// `Err`: there was no memory.
    pub fn at<'a>(
        &'a self,
        place: usize,
        room: &'a mut Vec<u8>,
    ) -> Result<(u32, &'a [u8]), AllocError>
        requires { place < length self.now }
        ensures { IfOk result (λ found. line_of found.0 found.1.now ≡ get_or self.now place (line_of found.0 found.1.now)) }
    {
        text_of(
            self.bytes.as_slice(),
            self.ends.as_slice(),
            self.first,
            place,
            room,
        )
    }

    /// Takes all texts out; the room that they had stays. Texts may share this number of a process from here on.
    pub(crate) fn clear(&mut self, first: u32)
        ensures { self.new ≡ [] }
    {
        self.bytes.clear();
        self.ends.clear();
        self.first = first;
    }

    /// Adds a text in three parts. A buffer above 2^32 - 1 bytes counts as want of memory.
    ///
    /// `Err`: there was no memory; no text is left.
    pub(crate) fn push(
        &mut self,
        number: u32,
        front: &[u8],
        middle: &[u8],
        back: &[u8],
    ) -> Result<(), AllocError>
        ensures { OnOk result (self.new ≡ self.old ++ (line_of number (front.now ++ (middle.now ++ back.now)) ∷ [])) }
    {
        let Ok(()) = add_text(
            &mut self.bytes,
            &mut self.ends,
            number,
            false,
            front,
            middle,
            back,
        ) else {
            self.bytes.clear();
            self.ends.clear();
            return Err(AllocError);
        };
        Ok(())
    }

    /// Adds a text with the number of a process before it, which takes no room where texts share it.
    ///
    /// `Err`: there was no memory; no text is left.
    pub(crate) fn push_numbered(
        &mut self,
        number: u32,
        pid: u32,
        body: &[u8],
    ) -> Result<(), AllocError>
        ensures { OnOk result (self.new ≡ self.old ++ (line_of number (with_number pid body.now) ∷ [])) }
    {
        if pid != self.first {
            let mut buffer = itoa::Buffer::new();
            self.push(number, buffer.format(pid).as_bytes(), b" ", body)?;
            return Ok(());
        }
        let Ok(()) = add_text(
            &mut self.bytes,
            &mut self.ends,
            number,
            true,
            &[],
            &[],
            body,
        ) else {
            self.bytes.clear();
            self.ends.clear();
            return Err(AllocError);
        };
        Ok(())
    }

    /// Leaves the first texts out, so many, and gives back the memory that they took.
    pub fn without_first(self, count: usize) -> Lines
        requires { count ≤ length self }
        ensures { result ≡ drop count self }
    {
        let mut sieve = Sieve::new(self, count);
        'texts: while sieve.has_next() {
            sieve.keep();
        }
        sieve.finish()
    }
}

/// Texts of which some are kept. They move to the front of their buffer, so that no other is needed, and what they
/// leave goes back.
#[derive(Drop)]
pub(crate) struct Sieve {
    bytes: Vec<u8>,
    ends: Vec<End>,
    /// The number of a process that texts share.
    first: u32,
    /// How many texts were kept.
    kept: usize,
    /// The place behind the last byte of these.
    behind: u32,
    /// How many texts were looked at.
    place: usize,
    /// The place of the first byte behind these.
    from: u32,
}

impl Sieve {
    /// The texts from a place on; none was looked at.
    pub(crate) fn new(lines: Lines, start: usize) -> Sieve
        requires { start ≤ length lines }
        ensures is { IsSieve result }
        ensures kept { kept_in result ≡ [] }
        ensures rest { rest_in result ≡ drop start lines }
    {
        let Lines { bytes, ends, first } = lines;
        let from = start_of(ends.as_slice(), start);
        Sieve {
            bytes,
            ends,
            first,
            kept: 0,
            behind: 0,
            place: start,
            from,
        }
    }

    /// Whether a text is left.
    fn has_next(&self) -> bool
        ensures left { result ≡ true → rest_in self.now ≢ [] }
        ensures none { result ≡ false → rest_in self.now ≡ [] }
    {
        self.place < self.ends.len()
    }

    /// The next text, with its number. It stands in this room, or where it is kept.
    ///
    /// `Err`: there was no memory.
    pub(crate) fn next<'a>(&'a self, room: &'a mut Vec<u8>) -> Result<(u32, &'a [u8]), AllocError>
        requires is { IsSieve self.now }
        requires left { rest_in self.now ≢ [] }
        ensures { IfOk result (λ found. (line : Numbered) (more : List Numbered) → rest_in self.now ≡ line ∷ more
            → line ≡ line_of found.0 found.1.now) }
    {
        let end = self.ends[self.place];
        let text = whole(
            room,
            self.first,
            end.numbered,
            between(self.bytes.as_slice(), self.from, end.behind),
        )?;
        Ok((end.number, text))
    }

    /// Leaves the next text out.
    pub(crate) fn skip(&mut self)
        requires is { IsSieve self.old }
        requires left { rest_in self.old ≢ [] }
        ensures is { IsSieve self.new }
        ensures kept { kept_in self.new ≡ kept_in self.old }
        ensures rest { (line : Numbered) (more : List Numbered) → rest_in self.old ≡ line ∷ more → rest_in self.new ≡ more }
    {
        let end = self.ends[self.place];
        self.from = end.behind;
        self.place += 1;
    }

    /// Keeps the next text.
    pub(crate) fn keep(&mut self)
        requires is { IsSieve self.old }
        requires left { rest_in self.old ≢ [] }
        ensures is { IsSieve self.new }
        ensures kept { (line : Numbered) (more : List Numbered) → rest_in self.old ≡ line ∷ more → kept_in self.new ≡ kept_in self.old ++ (line ∷ []) }
        ensures rest { (line : Numbered) (more : List Numbered) → rest_in self.old ≡ line ∷ more → rest_in self.new ≡ more }
    {
        let end = self.ends[self.place];
        let behind = self.behind + (end.behind - self.from);
        self.bytes.copy_within(
            self.from as usize..end.behind as usize,
            self.behind as usize,
        );
        self.ends[self.kept] = End {
            number: end.number,
            behind,
            numbered: end.numbered,
        };
        self.kept += 1;
        self.behind = behind;
        self.place += 1;
        self.from = end.behind;
    }

    /// The texts that were kept.
    pub(crate) fn finish(self) -> Lines
        requires { IsSieve self }
        ensures { result ≡ kept_in self }
    {
        let Sieve {
            mut bytes,
            mut ends,
            first,
            kept,
            behind,
            ..
        } = self;
        bytes.truncate(behind as usize);
        ends.truncate(kept);
        bytes.shrink_to_fit();
        ends.shrink_to_fit();
        Lines { bytes, ends, first }
    }
}
