//! What the text of a line tells by itself: whose it is, what it tells of threads, processes and programs, and whether
//! it is written as it stands. `Tells` in `specs/Told.antt` says it.

ghost use Rattle.raw_logs.specs.Told.{IsForm, Tells};

use crate::lines::LINE_LIMIT;
use raw_lines::{Making, is_known, is_of_profile, is_unread, told_by};
use strace_reader::cut;

/// How a text is taken.
#[derive(Clone, Copy, PartialEq, Eq, Debug)]
pub(crate) enum Form {
    /// It is empty, or a number alone: left out.
    Blank,
    /// Its beginning isn't known: left out.
    Unknown,
    /// It is longer than a line may be, and of no call of the profile: left out.
    Long,
    /// It is longer than a line may be, and of a call of the profile.
    TooLong,
    /// As it is.
    Whole,
}

/// What a text tells.
#[derive(Clone, Copy, PartialEq, Eq, Debug)]
pub(crate) struct Told {
    /// Whose it is; 0 where no number stands.
    pub(crate) pid: u32,
    /// What it tells of threads, processes and programs.
    pub(crate) making: Making,
    /// How it is taken.
    pub(crate) form: Form,
    /// It bears the mark of an unread line.
    pub(crate) marked: bool,
}

/// How a text with this body is taken.
fn form_of(text: &[u8], body: &[u8]) -> Form
    ensures { IsForm text.now body.now result }
{
    if body.is_empty() {
        return Form::Blank;
    }
    if !is_known(body) {
        return Form::Unknown;
    }
    if text.len() <= LINE_LIMIT {
        return Form::Whole;
    }
    if is_of_profile(body) {
        Form::TooLong
    } else {
        Form::Long
    }
}

/// What a text tells.
pub(crate) fn told_of(text: &[u8]) -> Told
    ensures { Tells text.now result }
{
    let (pid, body) = cut(text);
    Told {
        pid,
        making: told_by(body),
        form: form_of(text, body),
        marked: is_unread(text),
    }
}
