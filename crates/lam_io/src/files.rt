// Files that are read whole, by name.
ghost use Rattle.std.specs.Prelude.{◌≡◌, ◌≢◌, ◌<◌, ◌≤◌, ◌↔◌, List, ℕ, length, Some, IfOk, IfSome, IsErrOf, IsSome, IsTrue};
ghost use Rattle.std.specs.Option.{option_copied};
ghost use Rattle.std.specs.declared.option.Option.{Option};
ghost use Rattle.lam_io.specs.declared.byte_text.FileEntry.{FileEntry};
ghost use Rattle.lam_io.specs.declared.files.FileFail.TheVariants.{Memory};
ghost use Rattle.lam_io.specs.Faults.{HasCause, counted};
ghost use Rattle.lam_io.specs.MemoryFiles.{IsListed};
ghost use Rattle.lam_io.specs.Reads.{IsReading, bytes_of};

use crate::byte_text::{ByteText, FileEntry, FileList, Numbers};
use std::alloc::{AllocError, Global};
use std::marker::Model;
use thiserror::Error;

/// Why a file was not read.
#[derive(Clone, Copy, Debug, PartialEq, Eq, Error)]
pub enum FileFail {
    /// No file has that name.
    #[error("no such file")]
    Missing,
    /// A read failed.
    #[error("a read failed")]
    Failed,
    /// The file has more bytes than the limit.
    #[error("the file is too long")]
    TooLong,
    /// Memory was wanting.
    #[error("out of memory")]
    Memory,
}

impl From<AllocError> for FileFail {
    ghost from_gives = { λ _ e. e ≡ Memory };

    fn from(_: AllocError) -> Self {
        FileFail::Memory
    }
}

/// Files, by name.
///
/// A contract sees `told`, the files where they are told, and `faults`, how often a read failed.
/// The count of faults never falls, and stands still at the last value of a u64.
pub trait Files {
    /// The files, where they are told; the first of a name counts.
    ghost told: { Self → Option (List FileEntry) };

    /// How often a read failed. It never falls.
    ghost faults: { Self → ℕ };

    /// Reads the whole file of that name, of at most `limit` bytes.
    ///
    /// Errors: `Missing` where no file has that name; `Failed` where a read failed, and then the
    /// count of faults rose; `TooLong` where the file has more than `limit` bytes; `Memory` for
    /// want of memory. `Missing` stands before `Failed`, and `Failed` before `TooLong`. No call
    /// changes what is told.
    fn read_file(&mut self, name: &str, limit: usize) -> Result<ByteText, FileFail>
        ensures told { told self.new ≡ told self.old }
        ensures limit { IfOk result (λ bytes. length bytes ≤ limit) }
        ensures reading { IfSome (told self.old) (λ files.
            IsReading files name.now limit result) }
        ensures cause { HasCause (faults self.old) (faults self.new)
            (IsErrOf result FileFail.Failed) };
}

/// Files in memory, of which no read fails. A contract sees the list of the files.
#[derive(Drop)]
pub struct CleanFiles {
    alloc: Global,
    files: FileList,
}

impl Model for CleanFiles {
    ghost use Rattle.std.specs.Prelude.{List};
    ghost use Rattle.lam_io.specs.declared.byte_text.FileEntry.{FileEntry};

    ghost Value = { List FileEntry };

    ghost view = { λ it. it.files };
}

impl CleanFiles {
    /// Makes the files of this list, of which the first of a name counts. Takes no memory;
    /// `alloc` is for the bytes that a read answers.
    pub fn new(alloc: Global, files: FileList) -> Self
        ensures { result ≡ files }
    {
        CleanFiles { alloc, files }
    }
}

impl Files for CleanFiles {
    ghost told = { λ f. Some f };

    ghost faults = { λ _. 0 };

    /// Reads the whole file of that name, of at most `limit` bytes. It never answers `Failed`, and
    /// leaves the files as they were.
    fn read_file(&mut self, name: &str, limit: usize) -> Result<ByteText, FileFail>
        ensures told { self.new ≡ self.old }
        ensures limit { IfOk result (λ bytes. length bytes ≤ limit) }
        ensures reading { IsReading self.old name.now limit result }
        ensures never_fails { result ≢ Err FileFail.Failed }
    {
        read_from(self.alloc, self.files.as_slice(), name, limit, false)
    }
}

/// Files in memory, of which the calls with some numbers fail. A contract sees the files, the
/// numbers, and how many calls and faults there were (`MemoryFiles`).
#[derive(Drop)]
pub struct MemFiles {
    alloc: Global,
    files: FileList,
    failing: Numbers,
    calls: u64,
    faults: u64,
}

impl Model for MemFiles {
    ghost use Rattle.lam_io.specs.MemoryFiles.{MemoryFiles};

    ghost Value = { MemoryFiles };

    ghost view = { λ it. record {
      files = it.files;
      failing = it.failing;
      calls = it.calls;
      faults = it.faults;
    } };
}

impl MemFiles {
    /// Makes the files of this list, of which the first of a name counts. The calls of `read_file`
    /// with the numbers in `failing`, counted from 1, fail. Takes no memory; `alloc` is for the
    /// bytes that a read answers.
    pub fn new(alloc: Global, files: FileList, failing: Numbers) -> Self
        ensures files { result.files ≡ files }
        ensures failing { result.failing ≡ failing }
        ensures calls { result.calls ≡ 0 }
        ensures faults { result.faults ≡ 0 }
    {
        MemFiles {
            alloc,
            files,
            failing,
            calls: 0,
            faults: 0,
        }
    }
}

impl Files for MemFiles {
    ghost told = { λ f. Some f.files };

    ghost faults = { λ f. f.faults };

    /// Reads the whole file of that name, of at most `limit` bytes.
    ///
    /// It answers `Failed` exactly where the file is there and the number of this call is listed,
    /// and raises the count of faults in such a call alone. The number of calls and the count of
    /// faults stand still at the last value of a u64.
    fn read_file(&mut self, name: &str, limit: usize) -> Result<ByteText, FileFail>
        ensures told { self.new.files ≡ self.old.files }
        ensures limit { IfOk result (λ bytes. length bytes ≤ limit) }
        ensures reading { IsReading self.old.files name.now limit result }
        ensures cause { HasCause self.old.faults self.new.faults (IsErrOf result FileFail.Failed) }
        ensures listed { IsErrOf result FileFail.Failed → IsListed self.old }
        ensures fails { IsListed self.old → IsSome (bytes_of self.old.files name.now)
            → result ≡ Err FileFail.Failed }
        ensures counted { IsErrOf result FileFail.Failed
            → self.new.faults ≡ counted self.old.faults }
        ensures still { result ≢ Err FileFail.Failed → self.new.faults ≡ self.old.faults }
        ensures calls { self.new.calls ≡ counted self.old.calls }
        ensures failing { self.new.failing ≡ self.old.failing }
    {
        self.calls = self.calls.saturating_add(1);
        let fails = self.failing.as_slice().contains(&self.calls);
        let answer = read_from(self.alloc, self.files.as_slice(), name, limit, fails);
        if let Err(FileFail::Failed) = answer {
            self.faults = self.faults.saturating_add(1);
        }
        answer
    }
}

// Reads the first file of that name, unless the read is to fail.
fn read_from(
    alloc: Global,
    files: &[FileEntry],
    name: &str,
    limit: usize,
    fails: bool,
) -> Result<ByteText, FileFail>
    ensures limit { IfOk result (λ bytes. length bytes ≤ limit) }
    ensures reading { IsReading files.now name.now limit result }
    ensures failed { IsErrOf result FileFail.Failed → IsTrue fails }
    ensures fails { IsTrue fails → IsSome (bytes_of files.now name.now)
        → result ≡ Err FileFail.Failed }
{
    match find(files, name) {
        None => Err(FileFail::Missing),
        Some(bytes) => read_bytes(alloc, bytes, limit, fails),
    }
}

// Copies the bytes of a file that is there, unless the read is to fail.
fn read_bytes(alloc: Global, bytes: &[u8], limit: usize, fails: bool) -> Result<ByteText, FileFail>
    ensures copied { IfOk result (λ copy. copy ≡ bytes.now) }
    ensures limit { IfOk result (λ copy. length copy ≤ limit) }
    ensures there { result ≢ Err FileFail.Missing }
    ensures failed { IsErrOf result FileFail.Failed ↔ IsTrue fails }
    ensures too_long { IsErrOf result FileFail.TooLong → limit < length bytes.now }
{
    if fails {
        Err(FileFail::Failed)
    } else if bytes.len() > limit {
        Err(FileFail::TooLong)
    } else {
        Ok(ByteText::from_slice(alloc, bytes)?)
    }
}

// The bytes of the first file of that name.
fn find<'a>(files: &'a [FileEntry], name: &str) -> Option<&'a [u8]>
    ensures { option_copied result ≡ bytes_of files.now name.now }
{
    for file in files {
        if file.name.as_slice() == name.as_bytes() {
            return Some(file.bytes.as_slice());
        }
    }
    None
}
