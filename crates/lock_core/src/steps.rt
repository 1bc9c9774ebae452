//! The eighteen kinds of step of the list lock, by name. Each is one load, store, addition or exchange on one word,
//! with one change of the stepping seat's view; `specs/StepTable.antt` says for each kind when it is enabled and what
//! it does. The list with marked nodes follows Kogan, Dice and Issa 2020; epochs, homes and the barrier are this
//! project's own profile.

use crate::range::Mode;
use thiserror::Error;

/// One step of a seat.
#[derive(Clone, Copy, Debug, PartialEq, Eq)]
pub enum Step {
    /// Makes the own epoch odd: an operation begins.
    Enter,
    /// Makes the own epoch even again; a node that is being filled goes back to the front of `ready`.
    Leave,
    /// Reads the epoch of another seat, before homes become ready.
    ReadEpoch { seat: u32 },
    /// Reads the home word of a used node of this seat.
    ReadHome { node: u32 },
    /// Gives the node in hand home to its owner.
    GiveHome,
    /// Writes the lower end into the own node.
    FillLo { lo: u64 },
    /// Writes the higher end and the mode into the own node.
    FillHi { hi: u64, mode: Mode },
    /// Writes the next word of the own node, which isn't linked yet.
    Aim,
    /// Takes the first ready node as the own node and clears its home word.
    ClearHome { node: u32 },
    /// Reads the head, the own next word, or the next word of the cursor's node.
    Walk,
    /// Reads the lower end of the cursor's node.
    ReadLo,
    /// Reads the higher end of the cursor's node and compares it.
    ReadHi,
    /// Links the own node at the cursor's place.
    Link,
    /// Unlinks the cursor's node, which is marked.
    Unlink,
    /// Marks the own node, which gives its range back.
    Mark,
    /// Links the own node into an empty list at once.
    QuickLink,
    /// Unlinks the own node, which is alone in the list since `QuickLink`.
    QuickUnlink,
    /// Takes the low bit from the head, so that the list is walked as usual.
    Settle,
}

/// A step that its seat's view doesn't enable, or of a seat that isn't there.
#[derive(Clone, Copy, Debug, PartialEq, Eq, Error)]
#[error("seat {seat} may not make a step of kind {kind} now")]
pub struct NotEnabled {
    /// The seat that was to step.
    pub seat: u32,
    /// The kind of step, counted from 1 in the order of `Step`.
    pub kind: u8,
}
