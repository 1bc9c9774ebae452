//! Reads the lines of a trace, as strace(1) prints them, and the lines of a maps file, as proc_pid_maps(5) shows them.
//! The forms are this project's own profile of the two; `specs/` has them as relations between whole texts and items.
//! Each reader is exactly its relation, and a text has one outcome at most. A `Joiner` puts the halves of interrupted
//! calls together, by process.
#![tactic(auto)]

mod arguments;
mod calls;
mod forms;
mod half;
mod item;
mod joiner;
mod laws;
mod lines;
mod maps;
mod playing;
mod words;

pub use forms::{begins_with, cut, ends_with, strip_back, strip_front};
pub use item::{BadCall, Errno, Item, Name, Recorded};
pub use joiner::{Fed, FeedFault, Joiner};
pub use laws::{
    fed_calls_are_named, fed_texts_have_one_outcome, lines_have_one_outcome,
    maps_lines_have_one_outcome, no_more_halves_than_texts,
};
pub use line_parts::What;
pub use lines::read_line;
pub use maps::{MapsItem, read_maps_line};
pub use playing::{as_played, base_behind, differs, on_base};
