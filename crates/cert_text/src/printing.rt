//! A certificate to a sink.
ghost use Rattle.std.specs.Prelude.{◌∷◌, OnOk, IfErr};
ghost use Rattle.sexp_reader.specs.Text.{Atom};
ghost use Rattle.std.specs.Io.KnownBytes.{Appends};
ghost use Rattle.kio.specs.Causes.{HasCause};
ghost use Rattle.kio.specs.Known.{StillTells};
ghost use Rattle.dump_printer.specs.CanonicalTerms.{each, numeral};
ghost use Rattle.dump_printer.specs.Writing.{HasGone, Writes};
ghost use Rattle.cert_text.specs.CertText.{item_tokens, cert_before, cert_text, AreSmall, IsWithinU32};
ghost use Rattle.cert_text.specs.TextLaws.{IsReadBack};

use cert_rules::certificate::{Cert, CertItems};
use cert_rules::item::CertItem;
use dump_printer::{Progress, atom, close, number, open};
use kio::{Sink, WriteFault};

/// A word and a number.
fn write_side<K: Sink>(out: &mut K, at: &mut Progress, word: &[u8], n: u32)
    ensures goes { Writes (K.taken out.old) (K.taken out.new) (K.faults out.old) (K.faults out.new) at.old at.new (λ more. Atom word.now ∷ numeral n ∷ more) }
{
    atom(out, at, word);
    number(out, at, n)
}

/// An item.
fn write_item<K: Sink>(out: &mut K, at: &mut Progress, item: CertItem)
    ensures goes { Writes (K.taken out.old) (K.taken out.new) (K.faults out.old) (K.faults out.new) at.old at.new (λ more. item_tokens item more) }
    ensures small { IsWithinU32 item }
{
    match item {
        CertItem::Number(n) => number(out, at, n),
        CertItem::Same => atom(out, at, b"s"),
        CertItem::Conv => atom(out, at, b"c"),
        CertItem::Left(n) => write_side(out, at, b"l", n),
        CertItem::Right(n) => write_side(out, at, b"r", n),
        CertItem::Parts => atom(out, at, b"k"),
    }
}

/// The items, the first first.
fn write_items<K: Sink>(out: &mut K, at: &mut Progress, items: &CertItems)
    ensures goes { Writes (K.taken out.old) (K.taken out.new) (K.faults out.old) (K.faults out.new) at.old at.new (λ more. each item_tokens items.now more) }
    ensures small { AreSmall items.now }
{
    for i in 0..items.len() {
        match items.get(i) {
            Some(item) => write_item(out, at, item),
            None => unreachable!(),
        }
    }
}

/// The whole certificate.
fn write_cert<K: Sink>(out: &mut K, at: &mut Progress, cert: &Cert)
    ensures goes { Writes (K.taken out.old) (K.taken out.new) (K.faults out.old) (K.faults out.new) at.old at.new (λ more. cert_before cert.now more) }
    ensures small { AreSmall cert.now }
{
    open(out, at);
    atom(out, at, b"cert");
    atom(out, at, b"1");
    write_items(out, at, cert.items());
    close(out, at)
}

/// Writes a certificate as `(cert 1 item*)`, with one space between parts. It takes no memory.
///
/// A `WriteFault` comes only where the sink's count of faults rose in this call, and then exactly the first `written` bytes of the text went
/// out; that count stands still at the last number of its type. What was written, behind any other bytes, is read back as the certificate.
pub fn print_cert<K: Sink>(cert: &Cert, out: &mut K) -> Result<(), WriteFault>
    ensures all { OnOk result (Appends (K.taken out.old) (K.taken out.new) (cert_text cert.now)) }
    ensures part { IfErr result (λ f. HasGone (K.taken out.old) (K.taken out.new) (cert_text cert.now) f.written) }
    ensures tells { StillTells (K.taken out.old) (K.taken out.new) }
    ensures cause { HasCause (K.faults out.old) (K.faults out.new) result }
    ensures small { AreSmall cert.now }
    ensures read_back { IsReadBack cert.now }
{
    let mut at = Progress {
        written: 0,
        tight: true,
        failed: false,
    };
    write_cert(out, &mut at, cert);
    if at.failed {
        Err(WriteFault {
            written: at.written,
        })
    } else {
        Ok(())
    }
}
