//! Input and output by two traits: a `Source` gives bytes, a `Sink` takes bytes, and both count their faults.
//!
//! A source has three meanings, the bytes that it has still to give, where it tells them, a history of the pieces that its reads
//! gave, and a count of faults; a sink has the bytes that it has taken, where it tells them, those that its writes took, and the
//! same kind of count. The traits' clauses say what one call does to them: `bound`, `bytes`, `tells`, `history`, `cause`, and for a
//! write `some`. A count never falls, a call fails only where it rose, and a count that stands at u64's last value counts as risen.
//!
//! What is promised: `read_all` gives the whole input where it has at most `limit` bytes (`bytes`, `rest`), refuses it as too
//! long exactly where more came, says Fault only where the count rose (`cause`), and makes at most `limit + 2` reads (`cost` of
//! `read_all_counted`). `write_all` writes all the bytes (`all`); it fails only where the count rose (`cause`), and then exactly
//! the first `written` bytes went out (`part`). By the histories both say so of each source and sink (`history`, `received`): the
//! input is what the reads of this call gave before one met its end. The objects in memory are exact to the call (`exact`).
//!
//! Below stand `thiserror` and std; `ReaderSource` and `WriterSink` are the edge to std: their histories are what std's read and
//! write answered, and that a real stream behaves as it says is not proved. Above stand `dump_printer`, `driver` and the program `erasec`.
#![tactic(auto)]

ghost use Rattle.std.specs.Prelude.{◌≡◌, ℕ, ◌+◌, ◌≤◌, ◌<◌, List, ◌++◌, length, take, Option, Some, IfOk, IfErr, OnOk};
ghost use Rattle.std.specs.Io.{ReadsAtMost, WritesAtMost};
ghost use Rattle.std.specs.Io.KnownBytes.{ReadConsumes, WriteAppends, Appends};
ghost use Rattle.kio.specs.Causes.{HasCause, Rose};
ghost use Rattle.kio.specs.Known.{StillTells, ReadsInput, LeavesRest};
ghost use Rattle.kio.specs.Histories.{GivesWhole, IsLater, ReadGives};
ghost use Rattle.kio.specs.declared.ReadAll.TheVariants.{Memory};

mod adapters;
mod history;
mod memory;
mod steps;

pub use adapters::{ReaderSource, WriterSink};
pub use memory::{MemSink, MemSource};
use std::alloc::{AllocError, AllocFailed, Global};
use std::marker::Brand;
use std::sync::ledger::{Blank, Ledger};
pub use steps::Steps;
use thiserror::Error;

/// A call on a source or a sink failed, and its count of faults rose.
#[derive(Clone, Copy, Debug, PartialEq, Eq)]
pub struct Failed;

/// Why the whole of a source was not read.
#[derive(Clone, Copy, Debug, PartialEq, Eq, Error)]
pub enum ReadAll {
    /// A read failed.
    #[error("a read failed")]
    Fault,
    /// More bytes came than the limit.
    #[error("more bytes came than the limit")]
    TooLong,
    /// There was no memory for the bytes.
    #[error("there was no memory for the bytes")]
    Memory,
}

/// A sink failed when so many bytes had gone out.
#[derive(Clone, Copy, Debug, PartialEq, Eq)]
pub struct WriteFault {
    pub written: usize,
}

impl From<AllocError> for ReadAll {
    ghost from_gives = { λ _ e. e ≡ Memory };

    fn from(_e: AllocError) -> ReadAll {
        ReadAll::Memory
    }
}

impl<T: Drop> From<AllocFailed<T>> for ReadAll {
    ghost from_gives = { λ _ e. e ≡ Memory };

    fn from(_e: AllocFailed<T>) -> ReadAll {
        ReadAll::Memory
    }
}

/// What gives bytes.
pub trait Source {
    /// The bytes that it has still to give, where the source tells them.
    ghost left: { Self → Option (List ℕ) };
    /// What its reads gave so far: a piece for each read into a buffer with room, an empty one where it met the end of the input.
    ghost given: { Self → List (List ℕ) };
    /// A count of faults, which never falls.
    ghost faults: { Self → ℕ };

    /// Gives a prefix of the bytes that are left: as many as it answers, at most the buffer's length, at the buffer's front. It
    /// gives 0 into a buffer that isn't empty only at the end of input. It fails only where the count of faults rose, and then
    /// gives nothing. What it gave is the last piece of the history.
    fn read(&mut self, buf: &mut [u8]) -> Result<usize, Failed>
        ensures bound { ReadsAtMost result buf.new }
        ensures bytes { ReadConsumes (left self.old) (left self.new) result buf.new }
        ensures tells { StillTells (left self.old) (left self.new) }
        ensures history { ReadGives (given self.old) (given self.new) result buf.new }
        ensures cause { HasCause (faults self.old) (faults self.new) result };
}

/// What takes bytes.
pub trait Sink {
    /// The bytes that it has taken, where the sink tells them.
    ghost taken: { Self → Option (List ℕ) };
    /// The bytes that its writes took so far.
    ghost received: { Self → List ℕ };
    /// A count of faults, which never falls.
    ghost faults: { Self → ℕ };

    /// Takes the first bytes of the piece: as many as it answers, at least 1 of a piece that isn't empty. It fails only where
    /// the count of faults rose, and then takes nothing.
    fn write(&mut self, piece: &[u8]) -> Result<usize, Failed>
        ensures bound { WritesAtMost result piece.now }
        ensures some { IfOk result (λ n. 0 < length piece.now → 0 < n) }
        ensures bytes { WriteAppends (taken self.old) (taken self.new) result piece.now }
        ensures tells { StillTells (taken self.old) (taken self.new) }
        ensures history { WriteAppends (Some (received self.old)) (Some (received self.new)) result piece.now }
        ensures cause { HasCause (faults self.old) (faults self.new) result };
}

/// Writes all the bytes. A WriteFault comes only where the count of faults rose in this call, and then exactly the first
/// `written` bytes went out. It takes no memory.
pub fn write_all<K: Sink>(out: &mut K, bytes: &[u8]) -> Result<(), WriteFault>
    ensures all { OnOk result (Appends (K.taken out.old) (K.taken out.new) bytes.now) }
    ensures part { IfErr result (λ f. (f.written ≤ length bytes.now) × Appends (K.taken out.old) (K.taken out.new) (take f.written bytes.now)) }
    ensures tells { StillTells (K.taken out.old) (K.taken out.new) }
    ensures received { OnOk result (K.received out.new ≡ K.received out.old ++ bytes.now) }
    ensures received_part { IfErr result (λ f. K.received out.new ≡ K.received out.old ++ take f.written bytes.now) }
    ensures cause { HasCause (K.faults out.old) (K.faults out.new) result }
{
    let mut done = 0;
    while done < bytes.len() {
        match out.write(&bytes[done..]) {
            Ok(n) => done += n,
            Err(Failed) => return Err(WriteFault { written: done }),
        }
    }
    Ok(())
}

/// One read, counted.
fn read_once<S: Source, L: Ledger>(
    src: &mut S,
    buf: &mut [u8],
    steps: &mut Steps<L>,
) -> Result<usize, Failed>
    ensures bound { ReadsAtMost result buf.new }
    ensures bytes { ReadConsumes (S.left src.old) (S.left src.new) result buf.new }
    ensures tells { StillTells (S.left src.old) (S.left src.new) }
    ensures history { ReadGives (S.given src.old) (S.given src.new) result buf.new }
    ensures cause { HasCause (S.faults src.old) (S.faults src.new) result }
    ensures one { steps.new ≡ steps.old + 1 }
{
    steps.tick();
    src.read(buf)
}

/// The whole input, if it has at most `limit` bytes, as `read_all`; each read is a step.
pub fn read_all_counted<S: Source, L: Ledger>(
    alloc: Global,
    src: &mut S,
    limit: usize,
    steps: &mut Steps<L>,
) -> Result<Vec<u8>, ReadAll>
    ensures bytes { ReadsInput (λ v. v.items) result limit (S.left src.old) (S.left src.new) }
    ensures rest { LeavesRest result limit (S.left src.old) (S.left src.new) }
    ensures tells { StillTells (S.left src.old) (S.left src.new) }
    ensures grows { IsLater (S.given src.old) (S.given src.new) }
    ensures history { GivesWhole (λ v. v.items) result limit (S.given src.old) (S.given src.new) }
    ensures later { S.faults src.old ≤ S.faults src.new }
    ensures cause { result ≡ Err ReadAll.Fault → Rose (S.faults src.old) (S.faults src.new) }
    ensures cost { steps.new ≤ steps.old + limit + 2 }
{
    let mut out = Vec::new(alloc);
    let mut chunk = [0; 4096];
    loop {
        match read_once(src, &mut chunk, steps) {
            Err(Failed) => return Err(ReadAll::Fault),
            Ok(0) => return Ok(out),
            Ok(n) => {
                if n > limit - out.len() {
                    return Err(ReadAll::TooLong);
                }
                out.extend_from_slice(&chunk[..n])?;
            }
        }
    }
}

fn read_all_from<S: Source, L: Ledger>(
    alloc: Global,
    src: &mut S,
    limit: usize,
    blank: Blank,
) -> Result<Vec<u8>, ReadAll>
    requires name { blank.name ≡ L.name }
    requires parts { blank.parts ≡ L.parts }
    requires whole { blank.parts ≡ 1 }
    ensures bytes { ReadsInput (λ v. v.items) result limit (S.left src.old) (S.left src.new) }
    ensures rest { LeavesRest result limit (S.left src.old) (S.left src.new) }
    ensures tells { StillTells (S.left src.old) (S.left src.new) }
    ensures grows { IsLater (S.given src.old) (S.given src.new) }
    ensures history { GivesWhole (λ v. v.items) result limit (S.given src.old) (S.given src.new) }
    ensures later { S.faults src.old ≤ S.faults src.new }
    ensures cause { result ≡ Err ReadAll.Fault → Rose (S.faults src.old) (S.faults src.new) }
{
    let mut steps = Steps::<L>::new(blank);
    read_all_counted(alloc, src, limit, &mut steps)
}

/// The whole input, if it has at most `limit` bytes.
///
/// TooLong comes exactly where the source gave more than `limit` bytes in this call, Fault only where the count of faults rose
/// in this call, and Memory where there is no memory for the bytes. The input is what the reads of this call gave, up to one that met
/// its end (`history`). Where the source tells its bytes, what it gave and what is left are what was left before. It makes at most `limit + 2` reads: that is a clause of `read_all_counted`.
pub fn read_all<S: Source>(alloc: Global, src: &mut S, limit: usize) -> Result<Vec<u8>, ReadAll>
    ensures bytes { ReadsInput (λ v. v.items) result limit (S.left src.old) (S.left src.new) }
    ensures rest { LeavesRest result limit (S.left src.old) (S.left src.new) }
    ensures tells { StillTells (S.left src.old) (S.left src.new) }
    ensures grows { IsLater (S.given src.old) (S.given src.new) }
    ensures history { GivesWhole (λ v. v.items) result limit (S.given src.old) (S.given src.new) }
    ensures later { S.faults src.old ≤ S.faults src.new }
    ensures cause { result ≡ Err ReadAll.Fault → Rose (S.faults src.old) (S.faults src.new) }
{
    read_all_from::<S, Brand>(alloc, src, limit, Blank::new(1))
}

#[cfg(test)]
mod tests {
    use super::*;
    use std::io::Cursor;
    use std::test::Fail;

    const TEXT: &[u8] = b"false\n";

    #[test]
    fn reads_the_whole_or_refuses(rt: HostRuntime) -> Result<(), Fail> {
        let alloc = rt.alloc();
        for (failing, limit, want) in [
            (9, 6, None),
            (9, 7, None),
            (9, 5, Some(ReadAll::TooLong)),
            (1, 6, Some(ReadAll::Fault)),
            (2, 6, Some(ReadAll::Fault)),
        ] {
            let bytes = Vec::from_slice(alloc, TEXT)?;
            let mut src = MemSource::new(bytes, Vec::from_slice(alloc, &[failing])?);
            match read_all(alloc, &mut src, limit) {
                Ok(read) => {
                    assert_eq!(rt; want, None, "call {failing} fails, limit {limit}");
                    assert_eq!(rt; read.as_slice(), TEXT);
                }
                Err(why) => assert_eq!(rt; want, Some(why), "call {failing} fails, limit {limit}"),
            }
        }
        Ok(())
    }

    #[test]
    fn writes_the_whole_or_says_how_much(rt: HostRuntime) -> Result<(), Fail> {
        let alloc = rt.alloc();
        for (failing, want, taken) in [
            (9, None, "false\n"),
            (1, Some(0), ""),
            (2, Some(3), "fal"),
        ] {
            let mut out = MemSink::new(alloc, 3, Vec::from_slice(alloc, &[failing])?);
            let result = write_all(&mut out, TEXT);
            assert_eq!(rt;
                result.err().map(|fault| fault.written),
                want,
                "call {failing} fails"
            );
            assert_eq!(rt; out.bytes(), taken.as_bytes(), "call {failing} fails");
        }
        Ok(())
    }

    #[test]
    fn adapts_readers_and_writers(rt: HostRuntime) -> Result<(), Fail> {
        let alloc = rt.alloc();
        let mut src = ReaderSource::new(Cursor::new(TEXT));
        let read = read_all(alloc, &mut src, 6)?;
        let mut written = Vec::new(alloc);
        let mut out = WriterSink::new(Cursor::new(&mut written));
        assert_eq!(rt; write_all(&mut out, &read), Ok(()));
        assert_eq!(rt; written.as_slice(), TEXT);
        let mut room = [0; 4];
        let mut full = WriterSink::new(Cursor::new(room.as_mut_slice()));
        assert_eq!(rt; write_all(&mut full, &read), Err(WriteFault { written: 4 }));
        Ok(())
    }

    fn reads_needed<L: Ledger>(alloc: Global, blank: Blank) -> Result<usize, ReadAll>
        requires name { blank.name ≡ L.name }
        requires parts { blank.parts ≡ L.parts }
        requires whole { blank.parts ≡ 1 }
    {
        let mut src = ReaderSource::new(Cursor::new(TEXT));
        let mut steps = Steps::<L>::new(blank);
        steps.tick();
        let read = read_all_counted(alloc, &mut src, 6, &mut steps)?;
        Ok(read.len())
    }

    #[test]
    fn reads_counted(rt: HostRuntime) {
        assert_eq!(rt; reads_needed::<Brand>(rt.alloc(), Blank::new(1)), Ok(6));
    }
}
