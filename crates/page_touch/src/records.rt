//! What belongs to a seat, as plain data that exists in proofs alone: no value of these types is made when the program
//! runs. A contract sees it as `TouchView` of `specs/Touches.antt`, without the looking, which is over when a call is.
use std::collections::LinkedList;

/// How far the page of a call has been looked for: so many words from its own place on have other pages.
pub struct Looking {
    pub page: u64,
    pub count: u32,
}

/// A step on a word.
pub struct LastStep {
    /// Its number among the seat's steps, counted from 0.
    pub number: u64,
    /// The word, counted from 0.
    pub place: u32,
    /// Whether it was an exchange from 0 to the page plus 1, and not a load.
    pub puts: bool,
    pub page: u64,
    /// The value that the word had.
    pub found: u64,
}

/// What belongs to a seat, or to several that were joined.
pub struct SeatRecord {
    /// How many pages it may touch.
    pub quota: u32,
    /// The pages of its calls, in their order.
    pub touched: LinkedList<u64>,
    /// The pages of its calls that answered First, in their order.
    pub firsts: LinkedList<u64>,
    /// The page of a call that goes on, or None between two calls.
    pub looking: Option<Looking>,
    /// How many steps it has made.
    pub taken: u64,
    pub last: Option<LastStep>,
}
