// The commands `run` and `gen`.
ghost use Rattle.std.specs.Prelude.{◌≡◌, ℕ, ◌≢◌, ◌<◌, ◌≤◌, List, IfSome, IfOk, IsOkAnd, IsErr, IsSome, Some, Ok, length};
ghost use Rattle.lam_io.specs.Faults.{Rose, HasCause};
ghost use Rattle.lam_io.specs.Writes.{Appended};
ghost use Rattle.elpi_cli.specs.Words.{texts, command as command_of, usual_steps, most_files, AllBelow, IsWithin};
ghost use Rattle.elpi_cli.specs.Samples.{sample_files, sample_query};
ghost use Rattle.elpi_cli.specs.Written.{IsStop, Emits};
ghost use Rattle.elpi_cli.specs.Texts.{FileItems, all_items};
ghost use Rattle.elpi_cli.specs.Output.{Output, line_only};
ghost use Rattle.elpi_cli.specs.Begins.{IsRefusal, BeginsRun};
ghost use Rattle.elpi_cli.specs.Top.{output, files_output, known_files, IsRunOf, IsStatusOf};
ghost use Rattle.elpi_cli.specs.Causes.{ComesBy, ComesExactlyBy, IsComplete, IsDone, IsNoAnswer, IsBadWord, IsRefused, IsFault, IsOutOfSteps, IsMissing, IsTooLong};
ghost use Rattle.elpi_cli.specs.inside.Prepared.{Prepares, IsOutputOf, HasSomeOutput, IsLineOf, status_of, IsFileStatus, IsTextStatus};
ghost use Rattle.elpi_cli.specs.inside.Sources.{entries_of};

use crate::built::{Engine, build_engine};
use crate::search::{answer_query, close};
use crate::sources::{FileStop, Source, read_sources, sample_sources, word_of};
use crate::static_rules::check_program;
use crate::status::Status;
use crate::texts::{TextStop, read_goal, read_program};
use crate::words::{Command, STEPS, WordsStop, read_words};
use goal_run::Machine;
use lam_io::{Files, Sink};
use lp_parser::Ast;
use lp_resolve::Symbols;
use std::alloc::{AllocError, Global};

/// Does what `run` and `gen` ask for, with these words: reads the files in the order of the words, runs the query over all of
/// them together, and writes each answer and the last line, each as one piece. It stands on what `files` and `sink` tell.
pub fn search<F: Files, K: Sink>(
    alloc: Global,
    words: &[String],
    files: &mut F,
    sink: &mut K,
) -> Status
    // Unless memory, a read or a write failed, the status is the reference's.
    ensures status { IfSome (known_files (texts words.now) (F.told files.old)) (λ told. IsStatusOf (texts words.now) told result) }

    // So are the bytes; after such a failure they are whole pieces, or a front, or the line that names the file.
    ensures bytes { IfSome (known_files (texts words.now) (F.told files.old)) (λ told.
        Appended (K.told sink.old) (K.told sink.new) (IsRunOf (texts words.now) told (Rose (F.faults files.old) (F.faults files.new)) result)) }

    // A fault comes only where its count rose. Bad words have their status whatever is told of files.
    ensures read_fault { result ≡ Status.ReadFault → Rose (F.faults files.old) (F.faults files.new) }
    ensures write_fault { result ≡ Status.WriteFault → Rose (K.faults sink.old) (K.faults sink.new) }
    ensures words { ComesExactlyBy (IsErr (command_of (texts words.now))) Status.Words result }

    // Each other status comes exactly by its cause, unless memory, a read or a write failed; the last line tells which it was.
    ensures done { IfSome (known_files (texts words.now) (F.told files.old)) (λ told. ComesBy (IsDone (texts words.now) told) (output (texts words.now) told) Status.Done result) }
    ensures no_answer { IfSome (known_files (texts words.now) (F.told files.old)) (λ told. ComesBy (IsNoAnswer (texts words.now) told) (output (texts words.now) told) Status.NoAnswer result) }
    ensures bad_word { IfSome (known_files (texts words.now) (F.told files.old)) (λ told. ComesBy (IsBadWord (texts words.now)) (output (texts words.now) told) Status.Words result) }
    ensures refused { IfSome (known_files (texts words.now) (F.told files.old)) (λ told. ComesBy (IsRefused (texts words.now) told) (output (texts words.now) told) Status.Refused result) }
    ensures fault { IfSome (known_files (texts words.now) (F.told files.old)) (λ told. ComesBy (IsFault (texts words.now) told) (output (texts words.now) told) Status.Fault result) }
    ensures budget { IfSome (known_files (texts words.now) (F.told files.old)) (λ told. ComesBy (IsOutOfSteps (texts words.now) told) (output (texts words.now) told) Status.Budget result) }
    ensures missing { IfSome (known_files (texts words.now) (F.told files.old)) (λ told. ComesBy (IsMissing (texts words.now) told) (output (texts words.now) told) Status.Missing result) }
    ensures too_long { IfSome (known_files (texts words.now) (F.told files.old)) (λ told. ComesBy (IsTooLong (texts words.now) told) (output (texts words.now) told) Status.TooLong result) }

    // Where no read and no write failed in this call, status and bytes are the reference's, unless memory was wanting.
    ensures complete { IfSome (known_files (texts words.now) (F.told files.old)) (λ told.
        ¬ Rose (F.faults files.old) (F.faults files.new) → ¬ Rose (K.faults sink.old) (K.faults sink.new) →
        IsComplete (output (texts words.now) told) (K.told sink.old) (K.told sink.new) result) }

    // Nothing is written after a failed write.
    ensures stopped { IsStop (K.told sink.old) (K.told sink.new) (K.stopped sink.old) (K.stopped sink.new) result }
{
    match prepare(alloc, words, files) {
        Err(_) => Status::Memory,
        Ok(prepared) => perform(alloc, prepared, sink),
    }
}

// Writes what was prepared.
fn perform<K: Sink>(alloc: Global, prepared: Prepared, sink: &mut K) -> Status
    requires status { (status_of prepared ≢ Some Status.Memory) × (status_of prepared ≢ Some Status.WriteFault) }
    requires output { HasSomeOutput prepared }
    ensures emits { (whole : Output) → IsOutputOf whole prepared → Emits K.told K.faults K.stopped sink.old sink.new whole result }
    ensures line { IsSome (status_of prepared) → result ≢ Status.Memory }
{
    match prepared {
        Prepared::Line(line, status) => close(sink, line.as_bytes(), status),
        Prepared::Search(mut job) => answer_query(
            alloc,
            &job.symbols,
            &mut job.machine,
            job.steps,
            job.answers,
            sink,
        ),
    }
}

/// A search that can begin.
#[derive(Drop)]
pub struct Job {
    pub machine: Machine,
    pub symbols: Symbols,
    pub steps: u64,
    pub answers: u64,
}

/// What the words and the files give: a search, or one line and the status.
#[derive(Drop)]
pub enum Prepared {
    Search(Job),
    Line(String, Status),
}

// Reads the words and the files.
fn prepare<F: Files>(alloc: Global, words: &[String], files: &mut F) -> Result<Prepared, AllocError>
    ensures told { F.told files.new ≡ F.told files.old }
    ensures prepared { IfOk result (λ prepared. IfSome (known_files (texts words.now) (F.told files.old)) (λ told. Prepares (texts words.now) told prepared)) }
    ensures output { IfOk result HasSomeOutput }
    ensures cause { HasCause (F.faults files.old) (F.faults files.new) (IsOkAnd result (λ prepared. status_of prepared ≡ Some Status.ReadFault)) }
    ensures words { IfOk result (λ prepared. status_of prepared ≡ Some Status.Words → IsErr (command_of (texts words.now))) }
    ensures ends { IfOk result (λ prepared. (status_of prepared ≢ Some Status.Memory) × (status_of prepared ≢ Some Status.WriteFault)) }
{
    match read_words(alloc, words) {
        Err(WordsStop::Memory) => Err(AllocError),
        Err(WordsStop::BadWord(index)) => Ok(Prepared::Line(
            format!(in alloc; "words: bad word at {index}\n")?,
            Status::Words,
        )),
        Ok(command) => load_command(alloc, words, command, files),
    }
}

// Reads the files of a command, and their texts.
fn load_command<F: Files>(
    alloc: Global,
    words: &[String],
    command: Command,
    files: &mut F,
) -> Result<Prepared, AllocError>
    requires { IsWithin (length words.now) command }
    ensures told { F.told files.new ≡ F.told files.old }
    ensures prepared { command_of (texts words.now) ≡ Ok command → IfOk result (λ prepared. IfSome (known_files (texts words.now) (F.told files.old)) (λ told. Prepares (texts words.now) told prepared)) }
    ensures output { IfOk result HasSomeOutput }
    ensures cause { HasCause (F.faults files.old) (F.faults files.new) (IsOkAnd result (λ prepared. status_of prepared ≡ Some Status.ReadFault)) }
    ensures status { IfOk result (λ prepared. IsFileStatus (status_of prepared)) }
{
    match command {
        Command::Run {
            steps,
            answers,
            query,
            files: indices,
        } => load_files(
            alloc,
            words,
            Limits { steps, answers },
            query,
            indices.as_slice(),
            files,
        ),
        Command::Gen(size) => load_sample(alloc, size),
    }
}

/// The limits of a run: how many steps it may make, and how many answers it may write, where 0 leaves that out.
#[derive(Clone, Copy)]
pub struct Limits {
    pub steps: u64,
    pub answers: u64,
}

// Reads the files that the words with these indices name, and their texts; another word is the query.
fn load_files<F: Files>(
    alloc: Global,
    words: &[String],
    limits: Limits,
    query: usize,
    indices: &[usize],
    files: &mut F,
) -> Result<Prepared, AllocError>
    requires query { query < length words.now }
    requires files { AllBelow (length words.now) indices.now }
    requires few { length indices.now ≤ most_files }
    ensures told { F.told files.new ≡ F.told files.old }
    ensures prepared { command_of (texts words.now) ≡ Ok (Command.Run limits.steps limits.answers query indices.now)
        → IfOk result (λ prepared. IfSome (known_files (texts words.now) (F.told files.old)) (λ told. Prepares (texts words.now) told prepared)) }
    ensures output { IfOk result HasSomeOutput }
    ensures cause { HasCause (F.faults files.old) (F.faults files.new) (IsOkAnd result (λ prepared. status_of prepared ≡ Some Status.ReadFault)) }
    ensures status { IfOk result (λ prepared. IsFileStatus (status_of prepared)) }
{
    match read_sources(alloc, words, indices, files) {
        Err(stop) => unread(stop),
        Ok(sources) => begin(alloc, sources.as_slice(), word_of(words, query), limits),
    }
}

// Makes the program of this size that comes with the interpreter, and reads its text.
fn load_sample(alloc: Global, size: u32) -> Result<Prepared, AllocError>
    ensures prepared { IfOk result (IsOutputOf (files_output usual_steps 1 sample_query (Ok (sample_files size)))) }
    ensures status { IfOk result (λ prepared. IsTextStatus (status_of prepared)) }
{
    let sources = sample_sources(alloc, size)?;
    let limits = Limits {
        steps: STEPS,
        answers: 1,
    };
    begin(alloc, sources.as_slice(), "main T", limits)
}

// The line of a file that isn't read.
fn unread(stop: FileStop) -> Result<Prepared, AllocError>
    ensures { IfOk result (IsLineOf stop) }
{
    match stop {
        FileStop::Unread(line, status) => Ok(Prepared::Line(line, status)),
        FileStop::Memory => Err(AllocError),
    }
}

// Reads the texts of the files and of the query, and begins the search.
fn begin(
    alloc: Global,
    sources: &[Source],
    query: &str,
    limits: Limits,
) -> Result<Prepared, AllocError>
    requires { length sources.now ≤ most_files }
    ensures prepared { IfOk result (IsOutputOf (files_output limits.steps limits.answers query.now (Ok (entries_of sources.now)))) }
    ensures status { IfOk result (λ prepared. IsTextStatus (status_of prepared)) }
{
    match read_program(alloc, sources) {
        Err(stop) => refused(stop),
        Ok(ast) => match engine_for(alloc, sources, query, &ast) {
            Err(stop) => refused(stop),
            Ok(engine) => Ok(Prepared::Search(Job {
                machine: engine.machine,
                symbols: engine.symbols,
                steps: limits.steps,
                answers: limits.answers,
            })),
        },
    }
}

// Checks the program of the files' items, reads the query, and makes the engine for both.
fn engine_for(alloc: Global, sources: &[Source], query: &str, ast: &Ast) -> Result<Engine, TextStop>
    ensures { (items : List FileItems) → ast.now ≡ all_items items → BeginsRun (entries_of sources.now) items query.now result }
{
    let mut symbols = Symbols::new(alloc)?;
    match check_program(alloc, sources, ast, &mut symbols) {
        Err(stop) => Err(stop),
        Ok(checked) => match read_goal(alloc, query.as_bytes()) {
            Err(stop) => Err(stop),
            Ok(goal) => match build_engine(alloc, ast, &checked, &goal, symbols) {
                Err(_) => Err(TextStop::Memory),
                Ok(engine) => Ok(engine),
            },
        },
    }
}

// The line of a text that is refused.
fn refused(stop: TextStop) -> Result<Prepared, AllocError>
    ensures prepared { IfOk result (λ prepared. (last : List ℕ) → IsRefusal last stop → IsOutputOf (line_only last Status.Refused) prepared) }
    ensures memory { stop ≡ TextStop.Memory → IsErr result }
    ensures status { IfOk result (λ prepared. IsTextStatus (status_of prepared)) }
{
    match stop {
        TextStop::Refused(line) => Ok(Prepared::Line(line, Status::Refused)),
        TextStop::Memory => Err(AllocError),
    }
}
