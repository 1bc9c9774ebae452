//! The program `strace_lines` turns what strace(1) printed into lines that `range_cli` plays. `run` is the whole
//! program over a source and two sinks, and all that is proved is said on it. This file ties it to the process: its
//! words, its standard streams and its exit status.
#![tactic(auto)]

mod run;
mod said;
mod status;
mod words;

use crate::run::run;
use crate::said::say;
use crate::status::Status;
use byte_ports::{StdSink, StdSource};
use std::process::ExitCode;
use std::{env, io};

/// Runs the program on the process's own streams.
fn main(rt: HostRuntime) -> ExitCode {
    let mut err = StdSink::error(rt.stderr());
    let words = match words_after_name(&rt) {
        Ok(words) => words,
        Err(error) if error.kind() == io::ErrorKind::OutOfMemory => {
            let _ = say(&mut err, &Status::Memory);
            return ExitCode::from(Status::Memory.code());
        }
        // A word that is no UTF-8 is no accepted word.
        Err(_) => {
            let _ = say(&mut err, &Status::Usage);
            return ExitCode::from(Status::Usage.code());
        }
    };
    let mut input = StdSource::new(rt.stdin());
    let mut out = StdSink::output(rt.stdout());
    let status = run(rt.alloc(), &words, &mut input, &mut out, &mut err);
    ExitCode::from(status.code())
}

/// The words of the command line behind the program's name.
fn words_after_name(rt: &HostRuntime) -> io::Result<Vec<String>> {
    let mut words = Vec::new(rt.alloc());
    for word in env::args(rt)?.skip(1) {
        words.push(word)?;
    }
    Ok(words)
}
