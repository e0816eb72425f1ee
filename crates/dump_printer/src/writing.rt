//! Tokens of a text, written one after another to a sink.
ghost use Rattle.std.specs.Prelude.{◌≡◌, ◌∷◌, decimal};
ghost use Rattle.sexp_reader.specs.Text.{Open, Close, Atom};
ghost use Rattle.dump_grammar.specs.Numbers.{word};
ghost use Rattle.dump_printer.specs.Layout.{gap};
ghost use Rattle.dump_printer.specs.Writing.{Puts, Writes};

use dump_grammar::{Keyword, spelling_of};
use itoa::Buffer;
use kio::{Sink, write_all};

/// How far the text has come: how many bytes have gone out, whether the next token stands without a space before it, and whether the sink
/// has failed. Once it has failed, nothing more is written.
#[derive(Drop)]
pub struct Progress {
    pub written: usize,
    pub tight: bool,
    pub failed: bool,
}

fn put<K: Sink>(out: &mut K, at: &mut Progress, bytes: &[u8])
    ensures goes { Puts (K.taken out.old) (K.taken out.new) (K.faults out.old) (K.faults out.new) at.old at.new bytes.now }
    ensures tight { at.new.tight ≡ at.old.tight }
{
    if !at.failed {
        match write_all(out, bytes) {
            Ok(()) => at.written = at.written.saturating_add(bytes.len()),
            Err(fault) => {
                at.written = at.written.saturating_add(fault.written);
                at.failed = true;
            }
        }
    }
}

fn space<K: Sink>(out: &mut K, at: &mut Progress)
    ensures goes { Puts (K.taken out.old) (K.taken out.new) (K.faults out.old) (K.faults out.new) at.old at.new (gap at.old.tight) }
    ensures tight { at.new.tight ≡ at.old.tight }
{
    if !at.tight {
        put(out, at, b" ")
    }
}

/// The bracket that opens.
pub fn open<K: Sink>(out: &mut K, at: &mut Progress)
    ensures goes { Writes (K.taken out.old) (K.taken out.new) (K.faults out.old) (K.faults out.new) at.old at.new (λ more. Open ∷ more) }
{
    space(out, at);
    put(out, at, b"(");
    at.tight = true;
}

/// The bracket that closes.
pub fn close<K: Sink>(out: &mut K, at: &mut Progress)
    ensures goes { Writes (K.taken out.old) (K.taken out.new) (K.faults out.old) (K.faults out.new) at.old at.new (λ more. Close ∷ more) }
{
    put(out, at, b")");
    at.tight = false;
}

/// An atom of these bytes.
pub fn atom<K: Sink>(out: &mut K, at: &mut Progress, bytes: &[u8])
    ensures goes { Writes (K.taken out.old) (K.taken out.new) (K.faults out.old) (K.faults out.new) at.old at.new (λ more. Atom bytes.now ∷ more) }
{
    space(out, at);
    put(out, at, bytes);
    at.tight = false;
}

/// A fixed word.
pub fn keyword<K: Sink>(out: &mut K, at: &mut Progress, which: Keyword)
    ensures goes { Writes (K.taken out.old) (K.taken out.new) (K.faults out.old) (K.faults out.new) at.old at.new (λ more. word which ∷ more) }
{
    atom(out, at, spelling_of(which))
}

/// A bracket that opens, and the word behind it.
pub fn head<K: Sink>(out: &mut K, at: &mut Progress, which: Keyword)
    ensures goes { Writes (K.taken out.old) (K.taken out.new) (K.faults out.old) (K.faults out.new) at.old at.new (λ more. Open ∷ word which ∷ more) }
{
    open(out, at);
    keyword(out, at, which)
}

/// A number in decimal.
pub fn number<K: Sink>(out: &mut K, at: &mut Progress, n: u32)
    ensures goes { Writes (K.taken out.old) (K.taken out.new) (K.faults out.old) (K.faults out.new) at.old at.new (λ more. Atom (decimal n) ∷ more) }
{
    let mut buffer = Buffer::new();
    atom(out, at, buffer.format(n).as_bytes())
}
