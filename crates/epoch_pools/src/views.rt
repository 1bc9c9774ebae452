//! What a seat of the running table knows, as plain data that exists in proofs alone: no value of these types is made
//! when the program runs. A table has one list or several; of each the seat has the view that the machine of
//! `lock_core` has of it. Beside the views stand how what they hold counts, the pass of the layer above, and the record
//! of the steps that the seat made, which no part of the rule speaks of. A hand shows the part of one list.
use crate::record::Record;
use lock_core::View;
use std::collections::LinkedList;

/// How what the lists hold of a seat counts, where there are several lists. Lists are counted from 0.
pub enum Standing {
    /// Nothing counts.
    Free,
    /// The range that this list holds counts. It takes no other list.
    Narrow(u32),
    /// The range that list 0 holds has passed the lists below this number, and counts once it has passed all.
    Wide(u32),
}

/// All that belongs to one seat number.
pub struct SeatLists<P> {
    pub number: u32,
    /// How many seats the table has.
    pub seats: u32,
    /// What the seat knows of each list, from list 0 on.
    pub cores: LinkedList<View>,
    pub standing: Standing,
    pub pass: P,
    pub trace: Record,
}

/// What belongs to a seat beside its view of one list: what a call on that list doesn't change, but for what it gives
/// back there.
pub struct Beside<P> {
    /// How many lists there are.
    pub lists: u32,
    /// The list whose view this stands beside.
    pub list: u32,
    /// The views of all lists, with a blank one in the place of that list.
    pub others: LinkedList<View>,
    pub standing: Standing,
    pub pass: P,
}

/// What a hand shows of a seat number: its view of one list, and in the place of the pass what stands beside it.
pub struct SeatPart<P> {
    pub number: u32,
    /// How many seats the table has.
    pub seats: u32,
    /// What the seat knows of the list.
    pub core: View,
    pub pass: P,
    pub trace: Record,
}

/// What belongs to the seat numbers that are in one view: one while the table runs, and more at opening and closing.
pub struct ListView<P> {
    pub parts: LinkedList<SeatLists<P>>,
}
