//! Names and sorts.
ghost use Rattle.std.specs.Prelude.{◌≡◌, ◌∷◌};
ghost use Rattle.sexp_reader.specs.Text.{Atom};
ghost use Rattle.dump_printer.specs.Writing.{Writes};
ghost use Rattle.dump_printer.specs.CanonicalTerms.{text_of, anonymous, part, is_set as the_set, universe, sort, anonymous_names, each};

use crate::writing::{Progress, atom, close, head, keyword, number, open};
use dump_grammar::Keyword;
use dump_reader::names::Names;
use kio::Sink;
use universe_levels::level::LevelExpr;
use universe_levels::sort::Sort;
use universe_levels::universe::Universe;

/// The text of a number, by its table.
pub fn write_name<K: Sink>(table: &Names, n: u32, out: &mut K, at: &mut Progress)
    ensures goes { Writes (K.taken out.old) (K.taken out.new) (K.faults out.old) (K.faults out.new) at.old at.new (λ more. Atom (text_of table.now n) ∷ more) }
{
    match table.text(n) {
        Some(text) => atom(out, at, text.as_bytes()),
        None => atom(out, at, b""),
    }
}

/// The name of a binder.
pub fn write_anonymous<K: Sink>(out: &mut K, at: &mut Progress)
    ensures goes { Writes (K.taken out.old) (K.taken out.new) (K.faults out.old) (K.faults out.new) at.old at.new (λ more. anonymous ∷ more) }
{
    atom(out, at, b"_")
}

/// The names of so many binders.
pub fn write_binders<K: Sink>(count: u32, out: &mut K, at: &mut Progress)
    ensures goes { Writes (K.taken out.old) (K.taken out.new) (K.faults out.old) (K.faults out.new) at.old at.new (λ more. anonymous_names count more) }
{
    for _ in 0..count {
        write_anonymous(out, at);
    }
}

fn is_set(parts: &[LevelExpr]) -> bool
    ensures is { result ≡ the_set parts.now }
{
    match parts {
        [part] => part.level.0 == 0 && part.add == 0,
        _ => false,
    }
}

fn write_part<K: Sink>(levels: &Names, e: LevelExpr, out: &mut K, at: &mut Progress)
    ensures goes { Writes (K.taken out.old) (K.taken out.new) (K.faults out.old) (K.faults out.new) at.old at.new (λ more. part levels.now e more) }
{
    open(out, at);
    write_name(levels, e.level.0, out, at);
    number(out, at, e.add);
    close(out, at)
}

fn write_parts<K: Sink>(levels: &Names, parts: &[LevelExpr], out: &mut K, at: &mut Progress)
    ensures goes { Writes (K.taken out.old) (K.taken out.new) (K.faults out.old) (K.faults out.new) at.old at.new (λ more. each (part levels.now) parts.now more) }
{
    for e in parts {
        write_part(levels, *e, out, at);
    }
}

fn write_universe<K: Sink>(levels: &Names, u: &Universe, out: &mut K, at: &mut Progress)
    ensures goes { Writes (K.taken out.old) (K.taken out.new) (K.faults out.old) (K.faults out.new) at.old at.new (λ more. universe levels.now u.now more) }
{
    if is_set(u.parts()) {
        keyword(out, at, Keyword::Set)
    } else {
        head(out, at, Keyword::Type);
        write_parts(levels, u.parts(), out, at);
        close(out, at)
    }
}

/// A sort, by the table of levels.
pub fn write_sort<K: Sink>(levels: &Names, s: &Sort, out: &mut K, at: &mut Progress)
    ensures goes { Writes (K.taken out.old) (K.taken out.new) (K.faults out.old) (K.faults out.new) at.old at.new (λ more. sort levels.now s.now more) }
{
    match s {
        Sort::Prop => keyword(out, at, Keyword::Prop),
        Sort::Of(u) => write_universe(levels, u, out, at),
    }
}
