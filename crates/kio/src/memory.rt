//! Sources and sinks in memory, whose listed calls fail.
ghost use Rattle.std.specs.Prelude.{◌≡◌, ◌<◌, IfOk, Some, [], length};
ghost use Rattle.kio.specs.Memory.{MemReads, MemWrites};
ghost use Rattle.kio.specs.Causes.{HasCause};
ghost use Rattle.kio.specs.Known.{StillTells};
ghost use Rattle.kio.specs.Histories.{ReadGives};
ghost use Rattle.std.specs.Io.{ReadsAtMost, WritesAtMost};
ghost use Rattle.std.specs.Io.KnownBytes.{ReadConsumes, WriteAppends};

use crate::history::History;
use crate::{Failed, Sink, Source};
use std::alloc::Global;
use std::marker::Model;

/// Bytes in memory as a source. The calls whose numbers are listed fail; the first call is 1. Contracts see it as a
/// `SourceState` of `specs/Memory.antt`.
#[derive(Drop)]
pub struct MemSource {
    bytes: Vec<u8>,
    at: usize,
    history: History,
    fails: Vec<u64>,
    calls: u64,
    faults: u64,
}

impl Model for MemSource {
    ghost use Rattle.std.specs.Prelude.{drop, length, ◌≤◌};
    ghost use Rattle.kio.specs.Memory.{SourceState};

    ghost Value = { SourceState };

    ghost view = { λ s. record { left = drop s.at s.bytes.items; given = s.history.pieces; fails = s.fails.items; calls = s.calls; faults = s.faults } };

    ghost invariant = { λ s. s.at ≤ length s.bytes.items };
}

impl MemSource {
    /// A source that gives these bytes, and fails at the calls with these numbers. It takes no memory and has no refusal.
    pub fn new(bytes: Vec<u8>, fails: Vec<u64>) -> Self
        ensures fresh { result ≡ record { left = bytes.items; given = []; fails = fails.items; calls = 0; faults = 0 } }
    {
        MemSource {
            bytes,
            at: 0,
            history: History::new(),
            fails,
            calls: 0,
            faults: 0,
        }
    }
}

impl Source for MemSource {
    ghost left = { λ s. Some s.left };

    ghost given = { λ s. s.given };

    ghost faults = { λ s. s.faults };

    /// Gives as many of its bytes as there is room for, or fails where the call's number is listed.
    fn read(&mut self, buf: &mut [u8]) -> Result<usize, Failed>
        ensures bound { ReadsAtMost result buf.new }
        ensures bytes { ReadConsumes (Some self.old.left) (Some self.new.left) result buf.new }
        ensures tells { StillTells (Some self.old.left) (Some self.new.left) }
        ensures history { ReadGives self.old.given self.new.given result buf.new }
        ensures cause { HasCause self.old.faults self.new.faults result }
        ensures exact { MemReads self.old self.new result buf.new }
    {
        self.calls = self.calls.saturating_add(1);
        if self.fails.contains(&self.calls) {
            self.faults = self.faults.saturating_add(1);
            return Err(Failed);
        }
        let n = buf.len().min(self.bytes.len() - self.at);
        buf[..n].copy_from_slice(&self.bytes[self.at..self.at + n]);
        self.at += n;
        if !buf.is_empty() {
            self.history.add(&buf[..n]);
        }
        Ok(n)
    }
}

/// A sink in memory, which takes at most `most` bytes in a call. The calls whose numbers are listed fail; the first call is 1.
/// Contracts see it as a `SinkState` of `specs/Memory.antt`.
#[derive(Drop)]
pub struct MemSink {
    bytes: Vec<u8>,
    most: usize,
    fails: Vec<u64>,
    calls: u64,
    faults: u64,
}

impl Model for MemSink {
    ghost use Rattle.std.specs.Prelude.{◌<◌};
    ghost use Rattle.kio.specs.Memory.{SinkState};

    ghost Value = { SinkState };

    ghost view = { λ s. record { taken = s.bytes.items; most = s.most; fails = s.fails.items; calls = s.calls; faults = s.faults } };

    ghost invariant = { λ s. 0 < s.most };
}

impl MemSink {
    /// A sink that has taken nothing, takes at most `most` bytes in a call, and fails at the calls with these numbers. It keeps
    /// `alloc` for what it takes.
    pub fn new(alloc: Global, most: usize, fails: Vec<u64>) -> Self
        requires { 0 < most }
        ensures fresh { result ≡ record { taken = []; most = most; fails = fails.items; calls = 0; faults = 0 } }
    {
        MemSink {
            bytes: Vec::new(alloc),
            most,
            fails,
            calls: 0,
            faults: 0,
        }
    }

    /// What was taken so far. It takes no memory.
    pub fn bytes(&self) -> &[u8]
        ensures taken { result.now ≡ self.now.taken }
    {
        self.bytes.as_slice()
    }
}

impl Sink for MemSink {
    ghost taken = { λ s. Some s.taken };

    ghost received = { λ s. s.taken };

    ghost faults = { λ s. s.faults };

    /// Takes the first `most` bytes of the piece, or all of a shorter one. It fails where the call's number is listed, and
    /// where there is no memory for the bytes; both count as a fault.
    fn write(&mut self, piece: &[u8]) -> Result<usize, Failed>
        ensures bound { WritesAtMost result piece.now }
        ensures some { IfOk result (λ n. 0 < length piece.now → 0 < n) }
        ensures bytes { WriteAppends (Some self.old.taken) (Some self.new.taken) result piece.now }
        ensures tells { StillTells (Some self.old.taken) (Some self.new.taken) }
        ensures history { WriteAppends (Some self.old.taken) (Some self.new.taken) result piece.now }
        ensures cause { HasCause self.old.faults self.new.faults result }
        ensures exact { MemWrites self.old self.new result piece.now }
    {
        self.calls = self.calls.saturating_add(1);
        if self.fails.contains(&self.calls) {
            self.faults = self.faults.saturating_add(1);
            return Err(Failed);
        }
        let n = piece.len().min(self.most);
        match self.bytes.extend_from_slice(&piece[..n]) {
            Ok(()) => Ok(n),
            Err(_) => {
                self.faults = self.faults.saturating_add(1);
                Err(Failed)
            }
        }
    }
}
