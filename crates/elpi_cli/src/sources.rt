// Files by name, as they are read.
ghost use Rattle.std.specs.Prelude.{◌≡◌, ◌≤◌, ◌<◌, length, map, IfOk, IfErr, IfSome, IsErrAnd};
ghost use Rattle.std.specs.String.{string_bytes};
ghost use Rattle.lam_io.specs.Faults.{HasCause};
ghost use Rattle.lam_io.specs.Reads.{bytes_of};
ghost use Rattle.elpi_cli.specs.Words.{texts, AllBelow};
ghost use Rattle.elpi_cli.specs.Top.{word_at, files_for};
ghost use Rattle.elpi_cli.specs.Samples.{sample_files};
ghost use Rattle.elpi_cli.specs.inside.Sources.{entries_of, ReadsSource, ReadsSources, IsFailedRead, IsFileStop};

use crate::status::Status;
use lam_io::{ByteText, FileFail, Files};
use lp_samples::chain;
use ref_terms::Sequence;
use std::alloc::{AllocError, AllocFailed, Global};

// How many bytes a file may have.
const FILE_LIMIT: usize = 4_194_304;

/// A file that was read: the name by which its refusals call it, and all that it has.
#[derive(Drop)]
pub struct Source {
    pub name: String,
    pub text: ByteText,
}

/// Why files aren't read: the line that says so, with its status, or want of memory.
#[derive(Drop)]
pub enum FileStop {
    Unread(String, Status),
    Memory,
}

impl From<AllocError> for FileStop {
    ghost use Rattle.std.specs.Prelude.{◌≡◌};
    ghost use Rattle.elpi_cli.specs.declared.sources.FileStop.TheVariants.{Memory};

    ghost from_gives = { λ _ e. e ≡ Memory };

    fn from(_: AllocError) -> Self {
        FileStop::Memory
    }
}

impl From<AllocFailed<Source>> for FileStop {
    ghost use Rattle.std.specs.Prelude.{◌≡◌};
    ghost use Rattle.elpi_cli.specs.declared.sources.FileStop.TheVariants.{Memory};

    ghost from_gives = { λ _ e. e ≡ Memory };

    fn from(_: AllocFailed<Source>) -> Self {
        FileStop::Memory
    }
}

/// The word with an index. Takes no memory.
pub fn word_of(words: &[String], index: usize) -> &str
    requires { index < length words.now }
    ensures { result.now ≡ word_at (texts words.now) index }
{
    words[index].as_str()
}

// A file of this name with this text.
fn source_of(alloc: Global, name: &str, text: ByteText) -> Result<Source, AllocError>
    ensures name { IfOk result (λ source. string_bytes source.name ≡ name.now) }
    ensures text { IfOk result (λ source. source.text ≡ text) }
{
    let name = String::from_str(alloc, name)?;
    Ok(Source { name, text })
}

// Reads the file of this name.
fn read_source<F: Files>(alloc: Global, name: &str, files: &mut F) -> Result<Source, FileStop>
    ensures told { F.told files.new ≡ F.told files.old }
    ensures read { IfSome (F.told files.old) (λ told. ReadsSource name.now (bytes_of told name.now) result) }
    ensures cause { HasCause (F.faults files.old) (F.faults files.new) (IsErrAnd result IsFailedRead) }
    ensures status { IfErr result IsFileStop }
{
    match files.read_file(name, FILE_LIMIT) {
        Err(FileFail::Memory) => Err(FileStop::Memory),
        Err(FileFail::Missing) => Err(FileStop::Unread(
            format!(in alloc; "missing: {name}\n")?,
            Status::Missing,
        )),
        Err(FileFail::TooLong) => Err(FileStop::Unread(
            format!(in alloc; "too long: {name}\n")?,
            Status::TooLong,
        )),
        Err(FileFail::Failed) => Err(FileStop::Unread(
            format!(in alloc; "read fault: {name}\n")?,
            Status::ReadFault,
        )),
        Ok(text) => match source_of(alloc, name, text) {
            Ok(source) => Ok(source),
            Err(_) => Err(FileStop::Memory),
        },
    }
}

/// Reads the files that the words with these indices name, in their order. Takes time and memory linear in the files.
///
/// Errors: the line and the status of the first file that isn't there, whose read failed, or that has too many bytes; and
/// want of memory.
pub fn read_sources<F: Files>(
    alloc: Global,
    words: &[String],
    indices: &[usize],
    files: &mut F,
) -> Result<Sequence<Source>, FileStop>
    requires { AllBelow (length words.now) indices.now }
    ensures told { F.told files.new ≡ F.told files.old }
    ensures read { IfSome (files_for (map (word_at (texts words.now)) indices.now) (F.told files.old)) (λ told. ReadsSources told (map (word_at (texts words.now)) indices.now) result) }
    ensures cause { HasCause (F.faults files.old) (F.faults files.new) (IsErrAnd result IsFailedRead) }
    ensures status { IfErr result IsFileStop }
    ensures count { IfOk result (λ sources. length sources ≡ length indices.now) }
{
    let mut sources = Sequence::new(alloc);
    for index in indices {
        match read_source(alloc, word_of(words, *index), files) {
            Err(stop) => return Err(stop),
            Ok(source) => sources.push(source)?,
        }
    }
    Ok(sources)
}

/// The program of this size that comes with the interpreter, as the one file. Takes time and memory linear in its text.
///
/// Errors: want of memory.
pub fn sample_sources(alloc: Global, size: u32) -> Result<Sequence<Source>, AllocError>
    ensures { IfOk result (λ sources. entries_of sources ≡ sample_files size) }
{
    let source = source_of(alloc, "gen", chain(alloc, size)?)?;
    let mut sources = Sequence::new(alloc);
    sources.push(source)?;
    Ok(sources)
}
