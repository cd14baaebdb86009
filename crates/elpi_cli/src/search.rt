// The search of a run, from its first state to its last line.
ghost use Rattle.std.specs.Prelude.{◌≡◌, ◌≢◌, ◌++◌, ◌∷◌, [], List, ◌+◌, ◌-◌, ◌^◌, ◌<◌, ◌≤◌, OnOk, OnErr, IfOk, IfErr, codes, map};
ghost use Rattle.std.specs.String.{string_bytes};
ghost use Rattle.ref_terms.specs.search.Fault.{fault_name};
ghost use Rattle.ref_terms.specs.search.State as reference;
ghost use Rattle.ref_terms.specs.texts.Answer.{answer_block};
ghost use Rattle.lp_resolve.specs.Plain.{plain_variable};
ghost use Rattle.goal_run.specs.Machine.{event_of, branch_of};
ghost use Rattle.elpi_cli.specs.Output.{Output, line, line_only, preceded, written};
ghost use Rattle.elpi_cli.specs.Written.{Emits, Progress, all_of};
ghost use Rattle.elpi_cli.specs.inside.Searching.{followed, HasOutput};

use crate::status::Status;
use goal_run::laws::law_moves_show_the_same;
use goal_run::{Event, Machine};
use lam_io::{Sink, SinkFailed};
use lp_resolve::Symbols;
use ref_terms::Fault;
use std::alloc::{AllocError, Global};

// Writes the last line, and answers its status.
pub fn close<K: Sink>(sink: &mut K, line: &[u8], status: Status) -> Status
    requires end { status ≢ Status.Memory }
    requires end_too { status ≢ Status.WriteFault }
    ensures emits { Emits K.told K.faults K.stopped sink.old sink.new (line_only line.now status) result }
    ensures no_memory { result ≢ Status.Memory }
{
    match sink.write(line) {
        Ok(()) => status,
        Err(_) => Status::WriteFault,
    }
}

// Writes one piece.
pub fn emit<K: Sink>(sink: &mut K, piece: &[u8]) -> Result<(), SinkFailed>
    ensures ok { OnOk result (Emits K.told K.faults K.stopped sink.old sink.new
        (all_of (piece.now ∷ [])) Status.Done) }
    ensures err { OnErr result ((rest : Output) → Emits K.told K.faults K.stopped sink.old sink.new
        (preceded (piece.now ∷ []) rest) Status.WriteFault) }
{
    sink.write(piece)
}

// Writes what an event of a machine asks for. A status ends the search.
fn observe<K: Sink>(
    alloc: Global,
    symbols: &Symbols,
    machine: &mut Machine,
    event: Event,
    limit: u64,
    count: &mut u64,
    sink: &mut K,
) -> Result<(), Status>
    requires { count.old < 2 ^ 64 - 1 }
    ensures machine { machine.new ≡ machine.old }
    ensures count { count.new ≤ count.old + 1 }
    ensures goes_on { OnOk result ((later : List reference.Event) → Progress K.told K.faults K.stopped sink.old sink.new
        (written symbols.now (map plain_variable machine.old.variables) limit count.new later) (written symbols.now (map plain_variable machine.old.variables) limit count.old (followed (event_of machine.old event) later))) }
    ensures ends { IfErr result (λ status. (later : List reference.Event) → Emits K.told K.faults K.stopped sink.old sink.new
        (written symbols.now (map plain_variable machine.old.variables) limit count.old (followed (event_of machine.old event) later)) status) }
{
    match event {
        Event::Moved => Ok(()),
        Event::Printed(text) => match emit(sink, text.as_slice()) {
            Err(_) => Err(Status::WriteFault),
            Ok(()) => Ok(()),
        },
        Event::Answer => {
            *count += 1;
            match write_answer(symbols, machine, *count, sink) {
                Err(status) => Err(status),
                Ok(()) if *count == limit => Err(close(sink, b"stopped\n", Status::Done)),
                Ok(()) => Ok(()),
            }
        }
        Event::Failure => Err(if *count == 0 {
            close(sink, b"failure\n", Status::NoAnswer)
        } else {
            close(sink, b"no more\n", Status::Done)
        }),
        Event::Fault(fault) => Err(write_fault(alloc, fault, sink)),
    }
}

// Writes the line of a fault.
fn write_fault<K: Sink>(alloc: Global, fault: Fault, sink: &mut K) -> Status
    ensures { Emits K.told K.faults K.stopped sink.old sink.new (line_only (codes "fault: " ++ line (fault_name fault)) Status.Fault) result }
{
    match fault_text(alloc, fault) {
        Err(_) => Status::Memory,
        Ok(text) => close(sink, text.as_bytes(), Status::Fault),
    }
}

fn fault_text(alloc: Global, fault: Fault) -> Result<String, AllocError>
    ensures { IfOk result (λ text. string_bytes text ≡ codes "fault: " ++ line (fault_name fault)) }
{
    let name = fault.name();
    format!(in alloc; "fault: {name}\n")
}

// Writes the block of an answer, which has this number.
fn write_answer<K: Sink>(
    symbols: &Symbols,
    machine: &mut Machine,
    number: u64,
    sink: &mut K,
) -> Result<(), Status>
    ensures machine { machine.new ≡ machine.old }
    ensures goes_on { OnOk result (Emits K.told K.faults K.stopped sink.old sink.new
        (all_of (answer_block symbols.now (map plain_variable machine.old.variables) number (branch_of machine.old) ∷ [])) Status.Done) }
    ensures ends { IfErr result (λ status. (rest : Output) → Emits K.told K.faults K.stopped sink.old sink.new
        (preceded (answer_block symbols.now (map plain_variable machine.old.variables) number (branch_of machine.old) ∷ []) rest) status) }
{
    match machine.answer_text(symbols, number) {
        Err(_) => Err(Status::Memory),
        Ok(block) => match emit(sink, block.as_slice()) {
            Err(_) => Err(Status::WriteFault),
            Ok(()) => Ok(()),
        },
    }
}

/// Makes at most so many moves, and writes a block for each answer up to the limit, which 0 leaves out.
pub fn answer_query<K: Sink>(
    alloc: Global,
    symbols: &Symbols,
    machine: &mut Machine,
    steps: u64,
    limit: u64,
    sink: &mut K,
) -> Status
    requires { (whole : Output) × HasOutput symbols.now machine.old steps limit whole }
    ensures { (whole : Output) → HasOutput symbols.now machine.old steps limit whole → Emits K.told K.faults K.stopped sink.old sink.new whole result }
{
    law_moves_show_the_same();
    let mut count = 0;
    for made in 0..steps {
        let Ok(event) = machine.step(symbols) else {
            return Status::Memory;
        };
        match observe(alloc, symbols, machine, event, limit, &mut count, sink) {
            Ok(()) => {}
            Err(status) => return status,
        }
    }
    close(sink, b"out of steps\n", Status::Budget)
}
