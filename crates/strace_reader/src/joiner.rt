//! Joins the halves of interrupted calls. Where one process's call is cut in two by the line of another, strace(1)
//! prints its beginning with `<unfinished ...>` and its end behind `<... NAME resumed>`. A joiner keeps the first
//! halves by process, and reads each with its second half as one line. `specs/Joining.antt` says what each text
//! answers, from all the texts that were fed; the counts are this project's own profile.

ghost use Rattle.std.specs.Prelude.{◌≡◌, ◌≤◌, ◌↔◌, ◌⊎◌, ◌++◌, ◌-◌, [], ◌∷◌, length, take, drop, ℕ, List, Option, Some};
ghost use Rattle.std.specs.Prelude.{None, OnOk, OnErr, IfOk, IfErr, vec_len, if◌then◌else◌, ◌==◌, ◌≢◌, is_some};
ghost use Rattle.strace_reader.specs.declared.item.Item.{Item as ItemOf};
ghost use Rattle.strace_reader.specs.Grammar.{Spells};
ghost use Rattle.strace_reader.specs.Joiner.{answer_of, IsJoinRefusal};
ghost use Rattle.strace_reader.specs.Joining.{IsAnswer, IsFeedFault, CountsKept};

use crate::half::Half;
use crate::item::{BadCall, Item, Name, Recorded};
use crate::lines::read_line;
use page_types::Call;
use std::alloc::{AllocError, Global};
use std::collections::BTreeMap;
use thiserror::Error;

/// The greatest count of halves that is told.
const MOST: usize = 4_294_967_295;

/// What a text answers that was fed to a joiner.
#[derive(Clone, Copy, PartialEq, Eq, Debug, Drop)]
pub enum Fed {
    /// A call to be played, read from the text or from the two halves of it.
    Played {
        /// The process that made the call; 0 where no line names one.
        pid: u32,
        /// The call.
        call: Call,
        /// What was recorded; None where there is no result, or `?`.
        recorded: Option<Recorded>,
        /// How many lines are passed over: 1 where a first half of the process is dropped.
        skipped: u32,
    },
    /// A first half, which is kept.
    Kept {
        /// How many lines are passed over: 1 where a first half of the process is dropped.
        skipped: u32,
    },
    /// So many lines are passed over, 1 or 2.
    Skipped(u32),
    /// An empty line.
    Blank,
}

/// Why a text was not taken. The joiner is as it was.
#[derive(Clone, Copy, PartialEq, Eq, Debug, Drop, Error)]
pub enum FeedFault {
    /// The text is refused, or the line that it makes with its first half; the column counts in that line.
    #[error("{0}")]
    Bad(BadCall),
    /// There is no memory to keep or to join a half.
    #[error("out of memory")]
    Memory,
}

/// The first halves of interrupted calls, by process.
#[derive(Drop)]
pub struct Joiner {
    halves: BTreeMap<u32, Half>,
    alloc: Global,
}

impl Joiner {
    ghost use Rattle.strace_reader.specs.Joiner.{half_of, Holds, IsFed, HoldsTheSame, IsJoinAnswer, IsJoinFault};

    /// A joiner that was fed nothing. It takes no memory yet.
    pub fn new(alloc: Global) -> Joiner
        ensures { IsFed result [] }
    {
        Joiner {
            halves: BTreeMap::new(alloc),
            alloc,
        }
    }

    /// Drops the half that is kept for the process, and says how many that were.
    fn drop_half(&mut self, pid: u32) -> u32
        ensures count { result ≡ if is_some (half_of self.old pid) then 1 else 0 }
        ensures gone { half_of self.new pid ≡ None }
        ensures others { (q : ℕ) → q ≢ pid → half_of self.new q ≡ half_of self.old q }
    {
        match self.halves.remove(&pid) {
            Some(_) => 1,
            None => 0,
        }
    }

    /// Keeps these bytes for the process, and says how many halves that drops.
    fn keep(&mut self, pid: u32, name: Name, bytes: &[u8]) -> Result<u32, AllocError>
        requires { length bytes.now ≤ 65535 }
        ensures count { IfOk result (λ count. count ≡ if is_some (half_of self.old pid) then 1 else 0) }
        ensures kept { OnOk result (Holds self.new pid name bytes.now) }
        ensures others { OnOk result ((q : ℕ) → q ≢ pid → half_of self.new q ≡ half_of self.old q) }
        ensures err { OnErr result (HoldsTheSame self.old self.new) }
    {
        let text = Vec::from_slice(self.alloc, bytes)?;
        match self.halves.insert(pid, Half { name, text }) {
            Ok(Some(_)) => Ok(1),
            Ok(None) => Ok(0),
            Err(_) => Err(AllocError),
        }
    }

    /// What a second half answers. The half that was kept is gone then, but for a refusal.
    fn join(&mut self, pid: u32, name: Name, rest: &[u8]) -> Result<Fed, FeedFault>
        requires { length rest.now ≤ 65535 }
        ensures answer { IfOk result (λ fed. IsJoinAnswer self.old pid name rest.now fed) }
        ensures gone { OnOk result (half_of self.new pid ≡ None) }
        ensures others { OnOk result ((q : ℕ) → q ≢ pid → half_of self.new q ≡ half_of self.old q) }
        ensures fault { IfErr result (λ fault. IsJoinFault self.old pid name rest.now fault) }
        ensures err { OnErr result (HoldsTheSame self.old self.new) }
    {
        let Some(half) = self.halves.get(&pid) else {
            return Ok(Fed::Skipped(1));
        };
        if half.name != name {
            self.drop_half(pid);
            return Ok(Fed::Skipped(2));
        }
        match read_joined(pid, half.text.as_slice(), rest, self.alloc) {
            Ok(fed) => {
                self.drop_half(pid);
                Ok(fed)
            }
            Err(fault) => Err(fault),
        }
    }

    /// Takes the next text, a line of at most 65,535 bytes without its newline.
    ///
    /// A first half is kept by its process. A second half is read with it as one line, and the half is gone then. A
    /// call or a first half of a process drops the half that is kept for it. After a refusal, and out of memory, the
    /// joiner is as it was.
    pub fn feed(&mut self, text: &[u8]) -> Result<Fed, FeedFault>
        requires { length text.now ≤ 65535 }
        // It stands for the texts with this one.
        ensures next { OnOk result ((fed : List (List ℕ)) → IsFed self.old fed → IsFed self.new (text.now ∷ fed)) }
        // The answer is the one that the texts fed so far say.
        ensures answer { IfOk result (λ answer. (fed : List (List ℕ)) → IsFed self.old fed → IsAnswer fed text.now answer) }
        // A refusal is the one that they say.
        ensures refused { IfErr result (λ fault. (fed : List (List ℕ)) → IsFed self.old fed → IsFeedFault fed text.now fault) }
        // It is as it was.
        ensures err { OnErr result (HoldsTheSame self.old self.new) }
        // So it stands for the same texts.
        ensures stays { OnErr result ((fed : List (List ℕ)) → IsFed self.old fed → IsFed self.new fed) }
    {
        match read_line(text) {
            Ok(Item::Blank) => Ok(Fed::Blank),
            Ok(Item::Other) => Ok(Fed::Skipped(1)),
            Ok(
                Item::Played {
                    pid,
                    call,
                    recorded,
                },
            ) => Ok(Fed::Played {
                pid,
                call,
                recorded,
                skipped: self.drop_half(pid),
            }),
            Ok(
                Item::Unfinished {
                    pid,
                    name,
                    from,
                    to,
                },
            ) => {
                match self.keep(pid, name, part(text, from, to)) {
                    Ok(skipped) => Ok(Fed::Kept { skipped }),
                    Err(_) => Err(FeedFault::Memory),
                }
            }
            Ok(Item::Resumed { pid, name, from }) => self.join(pid, name, behind(text, from)),
            Err(bad) => Err(FeedFault::Bad(bad)),
        }
    }

    /// How many first halves are left, at most 4,294,967,295.
    pub fn end(self) -> u32
        ensures { (fed : List (List ℕ)) → IsFed self fed → CountsKept fed result }
    {
        let count = self.halves.len();
        if count > MOST { u32::MAX } else { count as u32 }
    }
}

/// What the two halves of a call answer, read as one line.
fn read_joined(pid: u32, half: &[u8], rest: &[u8], alloc: Global) -> Result<Fed, FeedFault>
    requires half { length half.now ≤ 65535 }
    requires rest { length rest.now ≤ 65535 }
    ensures answer { IfOk result (λ fed. (item : ItemOf) × Spells (half.now ++ rest.now) item × (fed ≡ answer_of pid item)) }
    ensures fault { IfErr result (λ fault. IsJoinRefusal (half.now ++ rest.now) fault) }
{
    let Ok(joined) = joined(half, rest, alloc) else {
        return Err(FeedFault::Memory);
    };
    match read_line(joined.as_slice()) {
        Ok(Item::Played { call, recorded, .. }) => Ok(Fed::Played {
            pid,
            call,
            recorded,
            skipped: 0,
        }),
        Ok(Item::Unfinished { .. }) => Ok(Fed::Skipped(2)),
        Ok(Item::Resumed { .. } | Item::Other | Item::Blank) => Ok(Fed::Skipped(1)),
        Err(bad) => Err(FeedFault::Bad(bad)),
    }
}

/// The two halves, one behind the other.
fn joined(half: &[u8], rest: &[u8], alloc: Global) -> Result<Vec<u8>, AllocError>
    ensures { IfOk result (λ joined. joined.items ≡ half.now ++ rest.now) }
{
    let mut joined = Vec::from_slice(alloc, half)?;
    joined.extend_from_slice(rest)?;
    Ok(joined)
}

/// The bytes of a text from one place up to and without another.
fn part(text: &[u8], from: u32, to: u32) -> &[u8]
    requires order { from ≤ to }
    requires within { to ≤ length text.now }
    ensures bytes { result.now ≡ take (to - from) (drop from text.now) }
    ensures len { length result.now ≤ length text.now }
{
    &text[from as usize..to as usize]
}

/// The bytes of a text from a place on.
fn behind(text: &[u8], from: u32) -> &[u8]
    requires { from ≤ length text.now }
    ensures bytes { result.now ≡ drop from text.now }
    ensures len { length result.now ≤ length text.now }
{
    &text[from as usize..]
}
