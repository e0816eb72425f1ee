//! A text that is written part by part.
ghost use Rattle.std.specs.Prelude.{◌≡◌, decimal, IfOk, [], false, true};
ghost use Rattle.dump_printer.specs.CanonicalTerms.{sort};
ghost use Rattle.dump_printer.specs.Cut.{shown_tokens};
ghost use Rattle.dump_printer.specs.Layout.{spaced};
ghost use Rattle.explanations.specs.Adding.{Adds};

use dump_printer::{write_shown, write_shown_sort};
use dump_reader::environment::RawEnv;
use itoa::Buffer;
use kio::{MemSink, write_all};
use pc_terms::term::Term;
use std::alloc::{AllocError, Global};
use universe_levels::sort::Sort;

/// A text. Once there was no memory for a part it has failed, and nothing more is written.
#[derive(Drop)]
pub(crate) struct Text {
    pub sink: MemSink,
    pub failed: bool,
}

impl Text {
    /// The empty text, which grows by `alloc`.
    pub fn new(alloc: Global) -> Text
        ensures empty { result.sink.taken ≡ [] }
        ensures fresh { result.failed ≡ false }
    {
        Text {
            sink: MemSink::new(alloc, 65536, Vec::new(alloc)),
            failed: false,
        }
    }

    /// Some bytes.
    pub fn put(&mut self, bytes: &[u8])
        ensures adds { Adds self.old self.new bytes.now }
    {
        if self.failed {
            return;
        }
        match write_all(&mut self.sink, bytes) {
            Ok(()) => {}
            Err(_) => self.failed = true,
        }
    }

    /// A number in decimal.
    pub fn put_number(&mut self, n: u32)
        ensures adds { Adds self.old self.new (decimal n) }
    {
        let mut buffer = Buffer::new();
        self.put(buffer.format(n).as_bytes())
    }

    /// A count in decimal.
    pub fn put_count(&mut self, n: u64)
        ensures adds { Adds self.old self.new (decimal n) }
    {
        let mut buffer = Buffer::new();
        self.put(buffer.format(n).as_bytes())
    }

    /// A term as in the dump; one with over 200 nodes is cut.
    pub fn put_term(&mut self, raw: &RawEnv, t: &Term)
        ensures adds { Adds self.old self.new (spaced (shown_tokens raw.now.names raw.now.level_names t.now)) }
    {
        if self.failed {
            return;
        }
        match write_shown(raw, t, &mut self.sink) {
            Ok(()) => {}
            Err(_) => self.failed = true,
        }
    }

    /// A sort as in the dump.
    pub fn put_sort(&mut self, raw: &RawEnv, s: &Sort)
        ensures adds { Adds self.old self.new (spaced (sort raw.now.level_names s.now [])) }
    {
        if self.failed {
            return;
        }
        match write_shown_sort(raw, s, &mut self.sink) {
            Ok(()) => {}
            Err(_) => self.failed = true,
        }
    }

    /// The bytes of the text. Only want of memory, here or before.
    pub fn finish(&self, alloc: Global) -> Result<Vec<u8>, AllocError>
        ensures all { IfOk result (λ v. (self.now.failed ≡ false) × (v.items ≡ self.now.sink.taken)) }
    {
        if self.failed {
            return Err(AllocError);
        }
        let bytes = Vec::from_slice(alloc, self.sink.bytes())?;
        Ok(bytes)
    }
}
