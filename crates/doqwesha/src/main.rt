//! The program: hands `run` the words of the command line, the host's files and standard output, and ends with the
//! number of its status.
#![tactic(auto)]

use elpi_cli::{Status, run};
use lam_io::{HostFiles, HostSink};
use std::process::ExitCode;
use std::{env, io};

fn main(rt: HostRuntime) -> ExitCode {
    let mut files = HostFiles::new(&rt);
    let mut sink = HostSink::new(&rt);
    let status = match command_words(&rt) {
        Ok(words) => run(rt.alloc(), words.as_slice(), &mut files, &mut sink),
        Err(error) => match error.kind() {
            io::ErrorKind::OutOfMemory => Status::Memory,
            // A word that is no text can stand nowhere.
            _ => run(rt.alloc(), &[], &mut files, &mut sink),
        },
    };
    ExitCode::from(status.number())
}

/// The words behind the program's name.
fn command_words(rt: &HostRuntime) -> io::Result<Vec<String>> {
    let mut words = Vec::new(rt.alloc());
    for (index, word) in env::args(rt)?.enumerate() {
        if index > 0 {
            words.push(word)?;
        }
    }
    Ok(words)
}
