//! What a try for a range came to. It stands apart, since a definition speaks of it, which is read without the tests
//! too.

/// What a try for a range came to.
#[derive(Clone, Copy, Debug, PartialEq, Eq)]
pub enum Kept {
    /// The range is held, and the hand is outside.
    Held,
    /// A node was met in conflict.
    Met,
    /// There was no node to take, or too many calls were made.
    Stuck,
}
