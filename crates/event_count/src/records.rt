//! What belongs to a seat, as plain data that exists in proofs alone: no value of these types is made when the program
//! runs. A step has the value that its word had at that moment, and a reader may rely on the list of a seat's steps
//! being all that it made on the two words, in their order.
use std::collections::LinkedList;

/// A step of a seat on one of the two words, with the value that the word had.
pub enum EventStep {
    /// It counted itself: it added 1 to the count of sleepers.
    Counted(u64),
    /// It loaded the event word.
    Read(u64),
    /// It counted itself out: it took 1 from the count of sleepers.
    Left(u64),
    /// It loaded the count of sleepers.
    Asked(u64),
    /// It added 1 to the event word.
    Advanced(u64),
}

/// What belongs to a seat, or to several before they are cut apart.
pub struct Sleeper {
    /// How many further seats may be cut off.
    pub spare: u32,
    /// Whether it is among the sleepers.
    pub counted: bool,
    /// How often it has advanced the event word.
    pub wakes: u64,
    /// Its steps, in their order.
    pub steps: LinkedList<EventStep>,
}
