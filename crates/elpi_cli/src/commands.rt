// The top call: which command the words ask for.
ghost use Rattle.std.specs.Prelude.{◌≡◌, ◌⊎◌, true, false, IfSome};
ghost use Rattle.lam_io.specs.Faults.{Rose};
ghost use Rattle.elpi_cli.specs.Words.{texts};
ghost use Rattle.elpi_cli.specs.Output.{Output};
ghost use Rattle.elpi_cli.specs.Written.{IsStop, Emits};
ghost use Rattle.elpi_cli.specs.Top.{files_for};
ghost use Rattle.elpi_cli.specs.Typed.{asks_to_check, check_names, IsCheckOf};
ghost use Rattle.elpi_cli.specs.Runs.{IsSearchRun};

use crate::command_check::{asks_to_check, check};
use crate::status::Status;
use crate::top::search;
use lam_io::{Files, Sink};
use std::alloc::Global;

/// Does all that the program does, with these words: types the program of the files where the first word is `check`; else
/// reads the files in the order of the words, runs the query over all of them together, and writes each answer and the last
/// line, each as one piece. It stands on what `files` and `sink` tell.
pub fn run<F: Files, K: Sink>(
    alloc: Global,
    words: &[String],
    files: &mut F,
    sink: &mut K,
) -> Status
    // Words that don't ask for types: status and bytes are the reference's, but where memory, a read or a write failed; each
    // status comes exactly by its cause.
    ensures search { asks_to_check (texts words.now) ≡ false → IsSearchRun (texts words.now) (F.told files.old)
        (Rose (F.faults files.old) (F.faults files.new)) (Rose (K.faults sink.old) (K.faults sink.new)) (K.told sink.old) (K.told sink.new) result }

    // Nothing is written after a failed write.
    ensures stopped { asks_to_check (texts words.now) ≡ false → IsStop (K.told sink.old) (K.told sink.new) (K.stopped sink.old) (K.stopped sink.new) result }

    // Words that ask for types: memory was wanting before anything was written; or the output for these files is written, or
    // the line of a failed read, as the status says.
    ensures types { asks_to_check (texts words.now) ≡ true → ((result ≡ Status.Memory) × (sink.new ≡ sink.old))
        ⊎ ((whole : Output) × Emits K.told K.faults K.stopped sink.old sink.new whole result
        × IfSome (files_for (check_names (texts words.now)) (F.told files.old)) (λ told. IsCheckOf (texts words.now) (Rose (F.faults files.old) (F.faults files.new)) told whole)) }
{
    if asks_to_check(words) {
        check(alloc, words, files, sink)
    } else {
        search(alloc, words, files, sink)
    }
}
