//! The record of the steps that a seat of the list has made, as plain data that exists in proofs alone: no value of
//! these types is made when the program runs. It stands in no part of the table's rule. Contracts read it, so that an
//! answer can be tied to a step of the call that gives it: each entry carries the number of its step, which is how many
//! steps the seat had made before it. This project's own profile.
use lock_core::{Held, Step};
use std::collections::LinkedList;

/// The last step that a seat made on a client word.
pub struct LastClient {
    /// The number of the client word, counted from 0.
    pub place: u32,
    pub step: u64,
}

/// The node that a seat compared last, by ReadHi.
pub struct Met {
    /// The number of the seat whose node it is.
    pub owner: u32,
    /// The range and the mode in the words of the node.
    pub held: Held,
    /// The list in which it stands, counted from 0.
    pub list: u32,
    /// The number of the Walk that found this node unmarked.
    pub step: u64,
}

/// The last exchange on a word of the lock that found another value than it expected.
pub struct Lost {
    /// Link, Unlink, QuickLink, QuickUnlink or Settle.
    pub kind: Step,
    /// The list in which it was made, counted from 0.
    pub list: u32,
    /// The place of the word in that list.
    pub place: u32,
    pub expected: u64,
    pub found: u64,
    pub step: u64,
}

/// A used node whose home word a ReadHome found to be other than 1.
pub struct Away {
    pub node: u32,
    /// The list whose home word it was, counted from 0.
    pub list: u32,
    pub step: u64,
}

/// The odd epoch that a ReadEpoch found at another seat, which it didn't pass.
pub struct Noted {
    /// The number of the other seat.
    pub seat: u32,
    pub epoch: u64,
    /// The list whose epoch word it was, counted from 0.
    pub list: u32,
    pub step: u64,
}

/// A step that found a list not empty, where an empty one would have let the seat's range be held, count or pass at
/// once: an exchange of the head by the fast path, or a look at another list than the one that holds the range.
pub struct Occupied {
    /// The list that wasn't empty, counted from 0.
    pub list: u32,
    pub step: u64,
}

/// What the last cursor of a seat has looked at. It stays when the cursor goes.
pub struct Looked {
    /// How many nodes the cursor has looked at, as its `seen` counts them.
    pub nodes: u32,
    /// How many steps ReadHi it has made.
    pub judged: u64,
    /// Whether it came to the end of the list.
    pub ended: bool,
    /// Whether one of its steps made the range held.
    pub held: bool,
    /// The list in which it is, counted from 0.
    pub list: u32,
    /// The number of the Walk that made the cursor.
    pub step: u64,
}

/// What contracts see of the steps that a seat has made.
pub struct Record {
    /// How many steps the seat has made, of every kind, as a whole number without end.
    pub taken: u64,
    pub client: Option<LastClient>,
    pub met: Option<Met>,
    pub lost: Option<Lost>,
    /// The nodes that ReadHome found away since the last step of another kind than it and Mark, the latest first.
    pub away: LinkedList<Away>,
    /// The epochs that were read without passing their seats, the latest first.
    pub noted: LinkedList<Noted>,
    pub looked: Option<Looked>,
    /// The range of each node that the seat has filled, with its mode, the latest first. A node is filled before it is
    /// linked, and what is held is linked: so nothing is held that doesn't stand here.
    pub asked: LinkedList<Held>,
    /// The steps that found a list not empty, the latest first. A look that the seat makes while it holds its range in
    /// that list too is none of them, whatever it finds.
    pub occupied: LinkedList<Occupied>,
    /// The walks that the seat left, the latest first: what a cursor had looked at when the seat left its epoch with
    /// it.
    pub walks: LinkedList<Looked>,
    /// The number of the last Walk, which `met` carries on.
    pub walked: u64,
    /// The list in which the seat makes its next steps: that to which its hand is turned.
    pub list: u32,
}
