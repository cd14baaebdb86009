// A sink for pieces of output.
ghost use Rattle.std.specs.Prelude.{◌≡◌, ◌≤◌, ◌+◌, ◌++◌, List, ℕ, [], length, take, Some, None, OnOk, OnErr, IfOk, IsErr, IfSome, IfNone, vec_len};
ghost use Rattle.std.specs.Vec.{vec_capacity};
ghost use Rattle.std.specs.declared.option.Option.{Option};
ghost use Rattle.lam_io.specs.Faults.{HasCause, counted};
ghost use Rattle.lam_io.specs.Writes.{Writes, Stops};
ghost use Rattle.lam_io.specs.MemorySink.{kept_at, kept_of};

use crate::byte_text::{FailEntry, FailList};
use std::alloc::{AllocError, Global};
use std::marker::Model;
use thiserror::Error;

/// A write failed.
#[derive(Clone, Copy, Debug, PartialEq, Eq, Error)]
#[error("a write failed")]
pub struct SinkFailed;

/// What takes the output, piece by piece.
///
/// A contract sees `told`, the bytes that it took so far where they are told, `faults`, how often a
/// write failed, and `stopped`, what was told when the first write that failed had ended. The count
/// of faults never falls, and stands still at the last value of a u64.
pub trait Sink {
    /// The bytes that it took so far, where they are told.
    ghost told: { Self → Option (List ℕ) };

    /// How often a write failed. It never falls.
    ghost faults: { Self → ℕ };

    /// What was told when the first write that failed had ended.
    ghost stopped: { Self → Option (List ℕ) };

    /// Takes the whole piece, or fails and takes a front of it. Takes no memory.
    ///
    /// Errors: `SinkFailed` where the write failed, and then the count of faults rose.
    fn write(&mut self, piece: &[u8]) -> Result<(), SinkFailed>
        ensures bytes { Writes (told self.old) (told self.new) piece.now result }
        ensures cause { HasCause (faults self.old) (faults self.new) (IsErr result) }
        ensures stopped { Stops (told self.old) (told self.new)
            (stopped self.old) (stopped self.new) result };
}

/// A sink that keeps nothing, tells nothing and never fails.
#[derive(Drop)]
pub struct CleanSink;

impl CleanSink {
    /// Makes such a sink. Takes no memory.
    pub fn new() -> Self {
        CleanSink
    }
}

impl Sink for CleanSink {
    ghost told = { λ _. None };

    ghost faults = { λ _. 0 };

    ghost stopped = { λ _. None };

    /// Takes the whole piece and keeps none of it. It never fails.
    fn write(&mut self, _piece: &[u8]) -> Result<(), SinkFailed>
        ensures { result ≡ Ok tt }
    {
        Ok(())
    }
}

/// A sink in memory, with its room from the start, of which the calls with some numbers fail. A
/// contract sees what was written, the room, the calls that fail, how many calls and faults there
/// were, and what was written when the first fault had ended (`MemorySink`).
#[derive(Drop)]
pub struct MemSink {
    written: Vec<u8>,
    room: usize,
    failing: FailList,
    calls: u64,
    faults: u64,
    stop: Option<usize>,
}

impl Model for MemSink {
    ghost use Rattle.std.specs.Prelude.{◌≤◌, length, take};
    ghost use Rattle.std.specs.Option.{option_map, ForSome};
    ghost use Rattle.std.specs.Vec.{vec_capacity};
    ghost use Rattle.lam_io.specs.MemorySink.{MemorySink};

    ghost Value = { MemorySink };

    ghost view = { λ it. record {
      written = it.written.items;
      room = it.room;
      failing = it.failing;
      calls = it.calls;
      faults = it.faults;
      stopped = option_map (λ at. take at it.written.items) it.stop;
    } };

    ghost invariant = { λ it. (length it.written.items ≤ it.room)
        × (it.room ≤ vec_capacity it.written)
        × ForSome it.stop (λ at. at ≤ length it.written.items) };
}

impl MemSink {
    /// Makes an empty sink with room for `room` bytes. Each item of `failing` is the number of a
    /// call of `write`, counted from 1, and how many bytes of its piece are kept; the first item
    /// for a call counts.
    ///
    /// Errors: want of memory for the room.
    pub fn new(alloc: Global, room: usize, failing: FailList) -> Result<Self, AllocError>
        ensures written { IfOk result (λ sink. sink.written ≡ []) }
        ensures room { IfOk result (λ sink. sink.room ≡ room) }
        ensures failing { IfOk result (λ sink. sink.failing ≡ failing) }
        ensures calls { IfOk result (λ sink. sink.calls ≡ 0) }
        ensures faults { IfOk result (λ sink. sink.faults ≡ 0) }
        ensures stopped { IfOk result (λ sink. sink.stopped ≡ None) }
    {
        Ok(MemSink {
            written: Vec::with_capacity(alloc, room)?,
            room,
            failing,
            calls: 0,
            faults: 0,
            stop: None,
        })
    }

    /// The bytes that the sink took so far. Takes no memory.
    pub fn written(&self) -> &[u8]
        ensures { result.now ≡ self.now.written }
    {
        self.written.as_slice()
    }

    // How many bytes of this piece the next call keeps, if it is to fail.
    fn kept(&self, piece: &[u8]) -> Option<usize>
        ensures { result ≡ kept_of self.now piece.now }
    {
        if piece.len() > self.room - self.written.len() {
            return Some(0);
        }
        kept_in(self.failing.as_slice(), self.calls.saturating_add(1))
    }
}

// How many bytes the first entry for that call keeps.
fn kept_in(entries: &[FailEntry], call: u64) -> Option<usize>
    ensures { result ≡ kept_at entries.now call }
{
    for entry in entries {
        if entry.call == call {
            return Some(entry.kept);
        }
    }
    None
}

impl Sink for MemSink {
    ghost told = { λ s. Some s.written };

    ghost faults = { λ s. s.faults };

    ghost stopped = { λ s. s.stopped };

    /// Takes the whole piece, or fails and takes a front of it. Takes no memory.
    ///
    /// A piece that passes the room fails and keeps nothing, also where its call is listed. Another
    /// call fails exactly where its number is listed, and keeps as many bytes as the first item for
    /// it says, or the whole piece where it is shorter. The count of faults rises in a call that
    /// fails alone. The number of calls and the count of faults stand still at the last value of a
    /// u64.
    fn write(&mut self, piece: &[u8]) -> Result<(), SinkFailed>
        ensures bytes { Writes (Some self.old.written) (Some self.new.written) piece.now result }
        ensures cause { HasCause self.old.faults self.new.faults (IsErr result) }
        ensures stopped { Stops (Some self.old.written) (Some self.new.written)
            self.old.stopped self.new.stopped result }
        ensures takes { IfNone (kept_of self.old piece.now) (result ≡ Ok tt) }
        ensures fails { IfSome (kept_of self.old piece.now) (λ _. IsErr result) }
        ensures kept { IfSome (kept_of self.old piece.now) (λ kept.
            self.new.written ≡ self.old.written ++ take kept piece.now) }
        ensures counted { OnErr result (self.new.faults ≡ counted self.old.faults) }
        ensures still { OnOk result (self.new.faults ≡ self.old.faults) }
        ensures calls { self.new.calls ≡ counted self.old.calls }
        ensures room { self.new.room ≡ self.old.room }
        ensures failing { self.new.failing ≡ self.old.failing }
    {
        let kept = self.kept(piece);
        self.calls = self.calls.saturating_add(1);
        match kept {
            None => {
                append(&mut self.written, piece);
                Ok(())
            }
            Some(kept) => {
                append(&mut self.written, &piece[..kept.min(piece.len())]);
                self.faults = self.faults.saturating_add(1);
                if self.stop.is_none() {
                    self.stop = Some(self.written.len());
                }
                Err(SinkFailed)
            }
        }
    }
}

// Puts a piece behind what is written, for which there is room.
fn append(written: &mut Vec<u8>, piece: &[u8])
    requires { length written.old.items + length piece.now ≤ vec_capacity written.old }
    ensures items { written.new.items ≡ written.old.items ++ piece.now }
    ensures capacity { vec_capacity written.old ≤ vec_capacity written.new }
{
    written.extend_from_slice(piece).unwrap();
}
