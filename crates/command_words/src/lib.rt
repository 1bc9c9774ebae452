//! Which words of a command line the program accepts, and what they ask for. `AskFor` in `specs/Commands.antt` says it
//! by what is written, a relation between whole lists of words and commands; the words are this project's own profile.
//! `command_of` gives exactly that command, and a reader may rely on there being no other.
#![tactic(auto)]

mod commands;

pub use commands::{Asked, Command, Given, Options, command_of, number};
