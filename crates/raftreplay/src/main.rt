//! Replays the committed logs of a TiKV cluster's stores, and tells what came of them.
//!
//! The program is the call of [`command`] on standard input and output. README.md has a tour.
#![tactic(auto)]

mod answer;
mod check_text;
mod commands;
mod key_word;
mod options;
mod reading;
mod selftest_text;
mod status;
mod streams;
#[cfg(test)]
mod tests;
mod words;

pub use commands::{
    check_command, command, fold_command, gen_command, history_command, pack_command, run_command,
    selftest_command, unpack_command,
};
use rs_base::OpenGate;
pub use status::Status;
use std::io;
use std::io::ErrorKind;
use std::process::ExitCode;
use streams::{StdSink, StdSource};
pub use words::Command;

fn main(rt: HostRuntime) -> ExitCode {
    let status = match arguments(&rt) {
        Ok(words) => {
            let mut source = StdSource::new(rt.stdin());
            let mut sink = StdSink::new(rt.stdout());
            command(&rt, rt.alloc(), &words, &mut source, &mut sink, &OpenGate)
        }
        Err(error) if error.kind() == ErrorKind::OutOfMemory => Status::NoMemory,
        Err(_) => Status::Usage,
    };
    if let Some(message) = status.message() {
        // Where standard error is gone, the status still tells.
        let _ = eprintln!(rt; "{message}");
    }
    ExitCode::from(status.number())
}

/// Returns the words after the program's name. Words that aren't text are an error.
fn arguments(rt: &HostRuntime) -> io::Result<Vec<String>> {
    let mut words = Vec::new(rt.alloc());
    for word in std::env::args(rt)?.skip(1) {
        words.push(word)?;
    }
    Ok(words)
}
