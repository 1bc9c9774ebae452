//! Why a text could not be read, and where: what was due at the first byte that cannot go on. The forms of lines are
//! this project's own profile of what strace(1) prints. Every refusal of the crates above is made of these two types.

use thiserror::Error;

/// What was due at the byte that cannot go on.
#[derive(Clone, Copy, Debug, PartialEq, Eq, Drop, Error)]
pub enum What {
    /// A number is due and the byte begins none, or `0x` has no digit.
    #[error("number expected")]
    Number,
    /// A number is above 64 bits; it is refused at its first byte.
    #[error("number too wide")]
    Wide,
    /// A word is due and none begins, or the access is another word.
    #[error("word expected")]
    Word,
    /// A comma is due, or inside FLAGS and FD what leads to it.
    #[error("comma expected")]
    Comma,
    /// The closing parenthesis is due.
    #[error("closing parenthesis expected")]
    Close,
    /// Behind the parenthesis stands neither the end nor a result.
    #[error("result expected")]
    Result,
    /// A maps line has another form.
    #[error("no maps line")]
    Form,
    /// A maps line's start is not below its end, or the lines are out of order.
    #[error("maps out of order")]
    Order,
}

/// The first refusal from the left: what was due, and how many bytes are left from its place on.
#[derive(Clone, Copy, Debug, PartialEq, Eq, Drop, Error)]
#[error("{what}, {left} bytes before the end")]
pub struct Refusal {
    /// The bytes from the refused place to the end of the text.
    pub left: usize,
    /// What was due there.
    pub what: What,
}
