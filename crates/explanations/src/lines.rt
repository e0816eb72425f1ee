//! The lines of explanations.
ghost use Rattle.std.specs.Prelude.{◌≡◌, ◌++◌, slice_get};
ghost use Rattle.pc_rules.specs.declared.broken.Place.TheVariants as at;
ghost use Rattle.dump_printer.specs.CanonicalTerms.{text_of};
ghost use Rattle.explanations.specs.Adding.{Adds};
ghost use Rattle.explanations.specs.Explanation.{cut_text, declared_name, missing_line, name_of, number_line, place_line, relation_text, sort_line, term_line, text_line};

use crate::text::Text;
use dump_printer::cut_depth;
use dump_reader::declaration::RawDecl;
use dump_reader::environment::RawEnv;
use dump_reader::names::Names;
use pc_rules::broken::Place;
use pc_terms::leaf::Name;
use pc_terms::term::Term;
use universe_levels::constraint::Relation;
use universe_levels::sort::Sort;

/// A label, a text and LF.
pub(crate) fn text_line(out: &mut Text, label: &[u8], text: &[u8])
    ensures adds { Adds out.old out.new (text_line label.now text.now) }
{
    out.put(label);
    out.put(text);
    out.put(b"\n")
}

/// A label, a number and LF.
pub(crate) fn number_line(out: &mut Text, label: &[u8], n: u32)
    ensures adds { Adds out.old out.new (number_line label.now n) }
{
    out.put(label);
    out.put_number(n);
    out.put(b"\n")
}

/// A label, a count and LF.
pub(crate) fn count_line(out: &mut Text, label: &[u8], n: u64)
    ensures adds { Adds out.old out.new (number_line label.now n) }
{
    out.put(label);
    out.put_count(n);
    out.put(b"\n")
}

/// The text of a number by its table; none past its end.
pub(crate) fn text_at(table: &Names, n: u32) -> &[u8]
    ensures is { result.now ≡ text_of table.now n }
{
    match table.text(n) {
        Some(text) => text.as_bytes(),
        None => b"",
    }
}

/// Where a term of a depth is cut, if it is.
fn put_cut(out: &mut Text, at: u32, whole: u32)
    ensures adds { Adds out.old out.new (cut_text at whole) }
{
    if at < whole {
        out.put(b", cut at depth ");
        out.put_number(at);
        out.put(b" of ");
        out.put_number(whole)
    } else {
        out.put(b"")
    }
}

/// A label, how many variables a term stands under at least, and the term, which is cut where it has over 200 nodes.
pub(crate) fn term_line(out: &mut Text, raw: &RawEnv, label: &[u8], t: &Term)
    ensures adds { Adds out.old out.new (term_line raw.now label.now t.now) }
{
    out.put(label);
    out.put(b", under ");
    out.put_count(t.loose());
    out.put(b" variables or more");
    put_cut(out, cut_depth(t), t.depth());
    out.put(b": ");
    out.put_term(raw, t);
    out.put(b"\n")
}

/// A label and a sort.
pub(crate) fn sort_line(out: &mut Text, raw: &RawEnv, label: &[u8], s: &Sort)
    ensures adds { Adds out.old out.new (sort_line raw.now label.now s.now) }
{
    out.put(label);
    out.put_sort(raw, s);
    out.put(b"\n")
}

/// A sort that would have to be at most another.
pub(crate) fn missing_line(out: &mut Text, raw: &RawEnv, s: &Sort, r: &Sort)
    ensures adds { Adds out.old out.new (missing_line raw.now s.now r.now) }
{
    out.put(b"missing constraint: ");
    out.put_sort(raw, s);
    out.put(b" at most ");
    out.put_sort(raw, r);
    out.put(b"\n")
}

/// The name that a declaration declares.
fn declared_name(decl: &RawDecl) -> Name
    ensures is { result ≡ declared_name decl.now }
{
    match decl {
        RawDecl::Constant { name, .. } => *name,
        RawDecl::Block { name, .. } => *name,
    }
}

/// The text of the name of a declaration, by its place, if it is there.
fn name_text(raw: &RawEnv, i: u32) -> &[u8]
    ensures is { result.now ≡ name_of raw.now (slice_get raw.now.decls i) }
{
    match raw.decls.as_slice().get(i as usize) {
        Some(decl) => text_at(&raw.names, declared_name(decl).0),
        None => b"",
    }
}

/// A declaration by its place and its name.
fn declaration_line(out: &mut Text, raw: &RawEnv, label: &[u8], i: u32)
    ensures adds { Adds out.old out.new (place_line raw.now label.now (at.Declaration i)) }
{
    out.put(label);
    out.put(b"declaration ");
    out.put_number(i);
    out.put(b", ");
    out.put(name_text(raw, i));
    out.put(b"\n")
}

/// An item of a list by its place.
fn item_line(out: &mut Text, label: &[u8], list: &[u8], i: u32)
    ensures adds { Adds out.old out.new (label.now ++ number_line list.now i) }
{
    out.put(label);
    number_line(out, list, i)
}

/// A label and a place.
pub(crate) fn place_line(out: &mut Text, raw: &RawEnv, label: &[u8], place: Place)
    ensures adds { Adds out.old out.new (place_line raw.now label.now place) }
{
    match place {
        Place::Level(i) => item_line(out, label, b"level ", i),
        Place::Constraint(i) => item_line(out, label, b"constraint ", i),
        Place::Declaration(i) => declaration_line(out, raw, label, i),
        Place::Main => {
            out.put(label);
            out.put(b"main\n")
        }
    }
}

/// The word of a relation.
pub(crate) fn relation_text(relation: Relation) -> &'static [u8]
    ensures is { result.now ≡ relation_text relation }
{
    match relation {
        Relation::Lt => b"lt",
        Relation::Le => b"le",
        Relation::Eq => b"eq",
    }
}
