//! The program `maskverif`: its words, files and standard output are those of the process.
#![tactic(auto)]

mod real_files;
mod real_sink;
mod retry;

use maskverif_cli::{Status, run_plain};
use real_files::RealFiles;
use real_sink::RealSink;
use std::process::ExitCode;
use std::rt::{Env, Files};
use std::{env, io};

/// The words after the program's name.
fn words<R: Env + AllocGlobal>(rt: &R) -> io::Result<Vec<String>> {
    let mut words = Vec::new(rt.alloc());
    for word in env::args(rt)?.skip(1) {
        words.push(word)?;
    }
    Ok(words)
}

/// What is said on standard error, where the report says nothing.
fn message(status: &Status) -> Option<&'static str> {
    match status {
        Status::NoFile => Some("maskverif: no file"),
        Status::ReadFault => Some("maskverif: read fault"),
        Status::WriteFault => Some("maskverif: write fault"),
        Status::NoMemory => Some("maskverif: no memory"),
        _ => None,
    }
}

/// Runs the command that the words are. Words that are no text are no command.
fn run<R: Files + Env + Print + AllocGlobal>(rt: &R) -> Status {
    let words = match words(rt) {
        Ok(words) => words,
        Err(error) if error.kind() == io::ErrorKind::OutOfMemory => return Status::NoMemory,
        Err(_) => Vec::new(rt.alloc()),
    };
    let mut files = RealFiles::new(rt);
    let mut out = RealSink::new(rt);
    run_plain(rt.alloc(), &words, &mut files, &mut out)
}

fn main(rt: HostRuntime) -> ExitCode {
    let status = run(&rt);
    if let Some(line) = message(&status) {
        let _ = rt.eprintln(line);
    }
    ExitCode::from(status.code())
}
