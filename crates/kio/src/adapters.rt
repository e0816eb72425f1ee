//! Std's readers and writers as sources and sinks: the edge of what is proved.
ghost use Rattle.std.specs.Prelude.{◌≡◌, ◌<◌, IfOk, length, None, Some, []};
ghost use Rattle.kio.specs.Causes.{CountsFaults, HasCause};
ghost use Rattle.kio.specs.Known.{StillTells};
ghost use Rattle.kio.specs.Histories.{ReadGives};
ghost use Rattle.std.specs.Io.{ReadsAtMost, WritesAtMost};
ghost use Rattle.std.specs.Io.KnownBytes.{ReadConsumes, WriteAppends};

use crate::history::History;
use crate::{Failed, Sink, Source};
use std::io::{Read, Write};
use std::marker::Model;

/// Any reader as a source. It tells no bytes before they are read. Contracts see it as what its reads gave and its count of faults,
/// a `ReaderState` of `specs/Streams.antt`.
#[derive(Drop)]
pub struct ReaderSource<R: Read + Drop> {
    reader: R,
    history: History,
    faults: u64,
}

impl<R: Read + Drop> Model for ReaderSource<R> {
    ghost use Rattle.kio.specs.Streams.{ReaderState};

    ghost Value = { ReaderState };

    ghost view = { λ s. record { given = s.history.pieces; faults = s.faults } };
}

impl<R: Read + Drop> ReaderSource<R> {
    /// The reader as a source without a fault so far. It takes no memory.
    pub fn new(reader: R) -> Self
        ensures fresh { result ≡ record { given = []; faults = 0 } }
    {
        ReaderSource {
            reader,
            history: History::new(),
            faults: 0,
        }
    }
}

impl<R: Read + Drop> Source for ReaderSource<R> {
    ghost left = { λ s. None };

    ghost given = { λ s. s.given };

    ghost faults = { λ s. s.faults };

    /// One read of the reader. An error of the reader is a fault. What the reader gave into a buffer with room is put into the history.
    fn read(&mut self, buf: &mut [u8]) -> Result<usize, Failed>
        ensures bound { ReadsAtMost result buf.new }
        ensures bytes { ReadConsumes None None result buf.new }
        ensures tells { StillTells None None }
        ensures history { ReadGives self.old.given self.new.given result buf.new }
        ensures cause { HasCause self.old.faults self.new.faults result }
        ensures exact { CountsFaults self.old.faults self.new.faults result }
    {
        match self.reader.read(buf) {
            Ok(n) => {
                if !buf.is_empty() {
                    self.history.add(&buf[..n]);
                }
                Ok(n)
            }
            Err(_) => {
                self.faults = self.faults.saturating_add(1);
                Err(Failed)
            }
        }
    }
}

/// Any writer as a sink. It tells no bytes that lie in it. Contracts see it as what its writes took and its count of faults, a
/// `WriterState` of `specs/Streams.antt`.
#[derive(Drop)]
pub struct WriterSink<W: Write + Drop> {
    writer: W,
    history: History,
    faults: u64,
}

impl<W: Write + Drop> Model for WriterSink<W> {
    ghost use Rattle.std.specs.List.{concat};
    ghost use Rattle.kio.specs.Streams.{WriterState};

    ghost Value = { WriterState };

    ghost view = { λ s. record { received = concat s.history.pieces; faults = s.faults } };
}

impl<W: Write + Drop> WriterSink<W> {
    /// The writer as a sink without a fault so far. It takes no memory.
    pub fn new(writer: W) -> Self
        ensures fresh { result ≡ record { received = []; faults = 0 } }
    {
        WriterSink {
            writer,
            history: History::new(),
            faults: 0,
        }
    }
}

impl<W: Write + Drop> Sink for WriterSink<W> {
    ghost taken = { λ s. None };

    ghost received = { λ s. s.received };

    ghost faults = { λ s. s.faults };

    /// One write of the writer. An error of the writer is a fault, and so is a write that takes nothing of a piece that isn't
    /// empty. What the writer took is put into the history.
    fn write(&mut self, piece: &[u8]) -> Result<usize, Failed>
        ensures bound { WritesAtMost result piece.now }
        ensures some { IfOk result (λ n. 0 < length piece.now → 0 < n) }
        ensures bytes { WriteAppends None None result piece.now }
        ensures tells { StillTells None None }
        ensures history { WriteAppends (Some self.old.received) (Some self.new.received) result piece.now }
        ensures cause { HasCause self.old.faults self.new.faults result }
        ensures exact { CountsFaults self.old.faults self.new.faults result }
    {
        match self.writer.write(piece) {
            Ok(n) if n > 0 || piece.is_empty() => {
                self.history.add(&piece[..n]);
                Ok(n)
            }
            _ => {
                self.faults = self.faults.saturating_add(1);
                Err(Failed)
            }
        }
    }
}
