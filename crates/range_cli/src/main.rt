//! The program `range_cli` plays a trace of address-space calls, as strace(1) prints them, and prints the areas that
//! are left as proc_pid_maps(5) does. `run` of `trace_driver` is the whole program over a source and two sinks, and all
//! that is proved is said on it. This file ties it to the process: its words, its standard streams and its exit status.
#![tactic(auto)]

use byte_ports::{StdSink, StdSource};
use std::process::ExitCode;
use std::{env, io};
use trace_driver::run::run;
use trace_driver::{Status, write_error};
use trace_threads::OpenGate;

/// Runs the program on the process's own streams.
fn main(rt: HostRuntime) -> ExitCode {
    let mut err = StdSink::error(rt.stderr());
    let words = match words_after_name(&rt) {
        Ok(words) => words,
        Err(error) if error.kind() == io::ErrorKind::OutOfMemory => {
            let _ = write_error(&mut err, &Status::Memory);
            return ExitCode::from(Status::Memory.code());
        }
        // A word that is no UTF-8 is no accepted word; neither are no words at all.
        Err(_) => Vec::new(rt.alloc()),
    };
    let mut input = StdSource::new(rt.stdin());
    let mut out = StdSink::output(rt.stdout());
    let status = run(
        &rt,
        rt.alloc(),
        &words,
        &mut input,
        &mut out,
        &mut err,
        &OpenGate,
    );
    ExitCode::from(status.code())
}

/// The words of the command line behind the program's name.
fn words_after_name(rt: &HostRuntime) -> io::Result<Vec<String>> {
    let mut words = Vec::new(rt.alloc());
    for word in env::args(rt)?.skip(1) {
        words.push(word)?;
    }
    Ok(words)
}
