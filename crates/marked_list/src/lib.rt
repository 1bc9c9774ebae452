//! The calls that make a range lock of the steps of a running list: a node is filled, a walk finds its place and
//! unlinks marked nodes on its way, the node is linked, and a validation makes its range held; a mark gives the range
//! back. A fast path links into an empty list at once. Each call answers only by its cause, and a walk is bounded
//! whatever other seats do. The list follows Kogan, Dice and Issa, "Scalable Range Locks for Scalable Address Spaces
//! and Beyond", EuroSys 2020.
#![tactic(auto)]

mod answers;
mod cursor;
mod look;
mod own;
mod quick;
mod scanning;
mod sweeping;
mod walk_loop;
mod walking;

pub use answers::{Linked, Lost, Passed, Walked};
pub use cursor::{Cursor, begin, end};
pub use own::{fill, link, mark};
pub use quick::{quick_link, quick_unlink};
pub use scanning::pass;
pub use sweeping::sweep;
pub use walking::{validate, walk};
