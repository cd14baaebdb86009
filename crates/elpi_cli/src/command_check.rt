// The command `check`.
ghost use Rattle.std.specs.Prelude.{◌≡◌, ◌≢◌, ◌≤◌, ◌⊎◌, ℕ, List, IfSome, IfOk, IsOkAnd, Some, Ok, length, map, ◌||◌, nat_lt};
ghost use Rattle.lam_io.specs.Faults.{Rose, HasCause};
ghost use Rattle.elpi_cli.specs.Words.{texts, is_option, most_files};
ghost use Rattle.elpi_cli.specs.Output.{Output};
ghost use Rattle.elpi_cli.specs.Written.{Emits};
ghost use Rattle.elpi_cli.specs.Top.{files_for, word_at};
ghost use Rattle.elpi_cli.specs.Typed.{typed_output, asks_to_check, check_names, IsFilesOutput, IsCheckOutput, IsCheckOf};
ghost use Rattle.elpi_cli.specs.inside.Sources.{entries_of};
ghost use Rattle.elpi_cli.specs.inside.Typing.{Answers, bytes_of_lines, planned, IsPlanned, AreFileWords, ReadsFileWords};

use crate::search::{close, emit};
use crate::sources::{FileStop, Source, read_sources};
use crate::status::Status;
use crate::texts::TextStop;
use crate::typing::types_of;
use crate::words::WordsStop;
use lam_io::{Files, Sink};
use std::alloc::{AllocError, Global};

// How many files may be named.
const MAX_FILES: usize = 16;

/// What the words and the files give: lines of types, or one line and the status.
#[derive(Drop)]
pub enum Plan {
    Lines(Vec<Vec<u8>>),
    Line(String, Status),
}

/// Whether the words ask to check types: the first one is `check`.
pub fn asks_to_check(words: &[String]) -> bool
    ensures { result ≡ asks_to_check (texts words.now) }
{
    match words.first() {
        Some(word) => word.as_bytes() == b"check".as_slice(),
        None => false,
    }
}

// Whether a word can't stand at this index.
fn is_bad(word: &[u8], index: usize) -> bool
    ensures { result ≡ (is_option word.now || nat_lt most_files index) }
{
    word.starts_with(b"--") || index > MAX_FILES
}

// The indices of the words that name files, or the first word that can't stand there.
fn file_words(alloc: Global, words: &[String]) -> Result<Vec<usize>, WordsStop>
    ensures { ReadsFileWords (texts words.now) result }
{
    let mut indices = Vec::new(alloc);
    for index in 1..words.len() {
        if is_bad(words[index].as_bytes(), index) {
            return Err(WordsStop::BadWord(index));
        }
        indices.push(index)?;
    }
    if indices.is_empty() {
        return Err(WordsStop::BadWord(1));
    }
    Ok(indices)
}

// The lines of the types of these files, or the line of the first refusal.
fn plan_types(alloc: Global, sources: &[Source]) -> Result<Plan, AllocError>
    requires { length sources.now ≤ most_files }
    ensures output { IfOk result (λ plan. IsFilesOutput (Ok (entries_of sources.now)) (planned plan)) }
    ensures ends { IfOk result IsPlanned }
{
    match types_of(alloc, sources) {
        Ok(lines) => Ok(Plan::Lines(lines)),
        Err(TextStop::Refused(line)) => Ok(Plan::Line(line, Status::Refused)),
        Err(TextStop::Memory) => Err(AllocError),
    }
}

// The same of the files that the words with these indices name.
fn plan_files<F: Files>(
    alloc: Global,
    words: &[String],
    indices: &[usize],
    files: &mut F,
) -> Result<Plan, AllocError>
    requires { AreFileWords (texts words.now) indices.now }
    ensures output { IfOk result (λ plan. IfSome (files_for (check_names (texts words.now)) (F.told files.old)) (λ told.
        IsCheckOf (texts words.now) (Rose (F.faults files.old) (F.faults files.new)) told (planned plan))) }
    ensures ends { IfOk result IsPlanned }
{
    match read_sources(alloc, words, indices, files) {
        Ok(sources) => plan_types(alloc, sources.as_slice()),
        Err(FileStop::Unread(line, status)) => Ok(Plan::Line(line, status)),
        Err(FileStop::Memory) => Err(AllocError),
    }
}

// What is to be written of the words and the files.
fn plan_words<F: Files>(alloc: Global, words: &[String], files: &mut F) -> Result<Plan, AllocError>
    ensures output { IfOk result (λ plan. IfSome (files_for (check_names (texts words.now)) (F.told files.old)) (λ told.
        IsCheckOf (texts words.now) (Rose (F.faults files.old) (F.faults files.new)) told (planned plan))) }
    ensures ends { IfOk result IsPlanned }
{
    match file_words(alloc, words) {
        Ok(indices) => plan_files(alloc, words, indices.as_slice(), files),
        Err(WordsStop::BadWord(index)) => Ok(Plan::Line(
            format!(in alloc; "words: bad word at {index}\n")?,
            Status::Words,
        )),
        Err(WordsStop::Memory) => Err(AllocError),
    }
}

// Writes lines, each a piece, and the last line.
fn write_lines<K: Sink>(lines: &[Vec<u8>], sink: &mut K) -> Status
    ensures { Emits K.told K.faults K.stopped sink.old sink.new (typed_output (bytes_of_lines lines.now)) result }
{
    for line in lines {
        match emit(sink, line.as_slice()) {
            Err(_) => return Status::WriteFault,
            Ok(()) => {}
        }
    }
    close(sink, b"typed\n", Status::Done)
}

// Writes what was prepared.
fn perform<K: Sink>(plan: Plan, sink: &mut K) -> Status
    requires { IsPlanned plan }
    ensures { Emits K.told K.faults K.stopped sink.old sink.new (planned plan) result }
{
    match plan {
        Plan::Lines(lines) => write_lines(lines.as_slice(), sink),
        Plan::Line(text, status) => close(sink, text.as_bytes(), status),
    }
}

/// Types the program of the files that the words behind the first one name: writes a line for each undeclared constant that
/// occurs in it, and then `typed`; or the line of the first refusal. It stands on what `files` and `sink` tell.
pub fn check<F: Files, K: Sink>(
    alloc: Global,
    words: &[String],
    files: &mut F,
    sink: &mut K,
) -> Status
    // Memory was wanting before anything was written; or such an output is written, or the line of a failed read, as the status says.
    ensures { ((result ≡ Status.Memory) × (sink.new ≡ sink.old)) ⊎ ((whole : Output) × Emits K.told K.faults K.stopped sink.old sink.new whole result
        × IfSome (files_for (check_names (texts words.now)) (F.told files.old)) (λ told. IsCheckOf (texts words.now) (Rose (F.faults files.old) (F.faults files.new)) told whole)) }
{
    match plan_words(alloc, words, files) {
        Err(_) => Status::Memory,
        Ok(plan) => perform(plan, sink),
    }
}
