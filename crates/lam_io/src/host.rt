// Real files and the standard output. They tell nothing of their content.
ghost use Rattle.std.specs.Prelude.{◌≡◌, ◌≢◌, ◌≤◌, [], length, None, IfOk, IsOk, IsErr, IsErrOf, OnOk, OnErr};
ghost use Rattle.lam_io.specs.Faults.{HasCause, counted};

use crate::byte_text::ByteText;
use crate::files::{FileFail, Files};
use crate::sink::{Sink, SinkFailed};
use std::alloc::Global;
use std::io::{ErrorKind, Read};
use std::marker::Model;
use std::{fs, rt};

// How many bytes one read asks for.
const BUFFER: usize = 65536;

/// The files that the host has. A contract sees how often a read failed.
///
/// This is the trusted edge: it tells nothing of what a file holds, and that the host reads what
/// the file has is not proved. Every error but a file that the host says isn't there raises the
/// count by one, up to the last value of a u64. A read that gives nothing is the end of the file.
#[derive(Drop)]
pub struct HostFiles<'r, R> {
    rt: &'r R,
    faults: u64,
}

impl<'r, R> Model for HostFiles<'r, R> {
    ghost use Rattle.std.specs.Prelude.{ℕ};

    ghost Value = { ℕ };

    ghost view = { λ it. it.faults };
}

impl<'r, R> HostFiles<'r, R> {
    /// The files of this runtime, of which no read failed yet. Takes no memory.
    pub fn new(rt: &'r R) -> Self
        ensures { result ≡ 0 }
    {
        HostFiles { rt, faults: 0 }
    }
}

impl<'r, R: rt::Files + AllocGlobal> Files for HostFiles<'r, R> {
    ghost told = { λ _. None };

    ghost faults = { λ faults. faults };

    /// Reads the whole file of that name, of at most `limit` bytes.
    ///
    /// Errors: `Missing` where the host says that it isn't there; `Failed` at every other error of
    /// the host, in which alone the count of faults rises; `TooLong` where more than `limit` bytes
    /// came; `Memory` for want of memory.
    fn read_file(&mut self, name: &str, limit: usize) -> Result<ByteText, FileFail>
        ensures limit { IfOk result (λ bytes. length bytes ≤ limit) }
        ensures cause { HasCause self.old self.new (IsErrOf result FileFail.Failed) }
        ensures counted { IsErrOf result FileFail.Failed → self.new ≡ counted self.old }
        ensures still { result ≢ Err FileFail.Failed → self.new ≡ self.old }
    {
        let answer = read_named(self.rt, name, limit);
        if let Err(FileFail::Failed) = answer {
            self.faults = self.faults.saturating_add(1);
        }
        answer
    }
}

// Reads the file of that name, and tells a file that isn't there from other errors.
fn read_named<R: rt::Files + AllocGlobal>(
    rt: &R,
    name: &str,
    limit: usize,
) -> Result<ByteText, FileFail>
    ensures limit { IfOk result (λ bytes. length bytes ≤ limit) }
{
    match fs::open(rt, name) {
        Ok(mut file) => read_whole(rt.alloc(), &mut file, limit),
        Err(error) => Err(match error.kind() {
            ErrorKind::NotFound => FileFail::Missing,
            _ => FileFail::Failed,
        }),
    }
}

// Each turn takes at least one byte, or is the last.
fn read_whole<F: Read>(alloc: Global, file: &mut F, limit: usize) -> Result<ByteText, FileFail>
    ensures limit { IfOk result (λ bytes. length bytes ≤ limit) }
{
    let mut bytes = ByteText::new(alloc);
    let mut buffer = [0u8; BUFFER];
    loop {
        let taken = match file.read(&mut buffer) {
            Ok(0) => return Ok(bytes),
            Ok(taken) => taken,
            Err(_) => return Err(FileFail::Failed),
        };
        if taken > limit - bytes.len() {
            return Err(FileFail::TooLong);
        }
        bytes.push_slice(&buffer[..taken])?;
    }
}

/// The standard output. A contract sees how often a write failed.
///
/// This is the trusted edge: it tells nothing of what was written, and that the host passes it on
/// is not proved. Every error raises the count by one, up to the last value of a u64. A write that
/// takes nothing of a piece that isn't empty is an error.
#[derive(Drop)]
pub struct HostSink<'r, R> {
    rt: &'r R,
    faults: u64,
}

impl<'r, R> Model for HostSink<'r, R> {
    ghost use Rattle.std.specs.Prelude.{ℕ};

    ghost Value = { ℕ };

    ghost view = { λ it. it.faults };
}

impl<'r, R> HostSink<'r, R> {
    /// The standard output of this runtime, of which no write failed yet. Takes no memory.
    pub fn new(rt: &'r R) -> Self
        ensures { result ≡ 0 }
    {
        HostSink { rt, faults: 0 }
    }
}

impl<'r, R: Print> Sink for HostSink<'r, R> {
    ghost told = { λ _. None };

    ghost faults = { λ faults. faults };

    ghost stopped = { λ _. None };

    /// Hands the whole piece to the host, or fails. Takes no memory.
    ///
    /// Errors: `SinkFailed` at every error of the host, in which alone the count of faults rises.
    fn write(&mut self, piece: &[u8]) -> Result<(), SinkFailed>
        ensures cause { HasCause self.old self.new (IsErr result) }
        ensures counted { OnErr result (self.new ≡ counted self.old) }
        ensures still { OnOk result (self.new ≡ self.old) }
        ensures empty { piece.now ≡ [] → IsOk result }
    {
        let answer = write_all(self.rt, piece);
        if answer.is_err() {
            self.faults = self.faults.saturating_add(1);
        }
        answer
    }
}

// Each turn writes at least one byte, or is the last.
fn write_all<R: Print>(rt: &R, piece: &[u8]) -> Result<(), SinkFailed>
    ensures { piece.now ≡ [] → IsOk result }
{
    let mut rest = piece;
    while !rest.is_empty() {
        match rt.write_some(rest) {
            Ok(count) if count > 0 => rest = &rest[count..],
            _ => return Err(SinkFailed),
        }
    }
    Ok(())
}
