//! Declarations, levels and constraints.
ghost use Rattle.std.specs.Prelude.{◌≡◌, ◌∷◌, false};
ghost use Rattle.sexp_reader.specs.Text.{Open, Close, Atom};
ghost use Rattle.dump_grammar.specs.Numbers.{word};
ghost use Rattle.dump_grammar.specs.declared.keyword.Keyword.TheVariants as words;
ghost use Rattle.dump_printer.specs.Writing.{Writes};
ghost use Rattle.dump_printer.specs.CanonicalTerms.{text_of, each, sort, term};
ghost use Rattle.dump_printer.specs.Canonical.{binding, constructor, family, body, declaration, level, word_of as relation_word, constraint, environment};

use crate::sorts::{write_anonymous, write_name, write_sort};
use crate::terms::{write_term, write_terms};
use crate::writing::{Progress, close, head, keyword, open};
use dump_grammar::Keyword;
use dump_reader::declaration::{RawCtor, RawCtors, RawDecl, RawDecls, RawFamilies, RawFamily};
use dump_reader::environment::{Constraints, Levels, RawEnv};
use dump_reader::names::Names;
use kio::Sink;
use pc_terms::leaf::Name;
use pc_terms::lists::Telescope;
use pc_terms::term::{Term, Terms};
use universe_levels::constraint::{Constraint, Relation};
use universe_levels::sort::Sort;

fn write_binding<K: Sink>(env: &RawEnv, ty: &Term, out: &mut K, at: &mut Progress)
    ensures goes { Writes (K.taken out.old) (K.taken out.new) (K.faults out.old) (K.faults out.new) at.old at.new (λ more. binding env.now.names env.now.level_names ty.now more) }
{
    open(out, at);
    write_anonymous(out, at);
    write_term(env, ty, out, at);
    close(out, at)
}

fn write_bindings<K: Sink>(env: &RawEnv, types: &Telescope, out: &mut K, at: &mut Progress)
    ensures goes { Writes (K.taken out.old) (K.taken out.new) (K.faults out.old) (K.faults out.new) at.old at.new (λ more. each (binding env.now.names env.now.level_names) types.now more) }
{
    for ty in types.as_slice() {
        write_binding(env, ty, out, at);
    }
}

/// A word's bracket with a telescope in it.
fn write_telescope<K: Sink>(
    env: &RawEnv,
    which: Keyword,
    types: &Telescope,
    out: &mut K,
    at: &mut Progress,
)
    ensures goes { Writes (K.taken out.old) (K.taken out.new) (K.faults out.old) (K.faults out.new) at.old at.new (λ more. Open ∷ word which ∷ each (binding env.now.names env.now.level_names) types.now (Close ∷ more)) }
{
    head(out, at, which);
    write_bindings(env, types, out, at);
    close(out, at)
}

fn write_result<K: Sink>(env: &RawEnv, result_terms: &Terms, out: &mut K, at: &mut Progress)
    ensures goes { Writes (K.taken out.old) (K.taken out.new) (K.faults out.old) (K.faults out.new) at.old at.new (λ more. Open ∷ word words.Result ∷ each (term false env.now.names env.now.level_names) result_terms.now (Close ∷ more)) }
{
    head(out, at, Keyword::Result);
    write_terms(env, result_terms, out, at);
    close(out, at)
}

fn write_ctor<K: Sink>(env: &RawEnv, c: &RawCtor, out: &mut K, at: &mut Progress)
    ensures goes { Writes (K.taken out.old) (K.taken out.new) (K.faults out.old) (K.faults out.new) at.old at.new (λ more. constructor env.now.names env.now.level_names c.now more) }
{
    head(out, at, Keyword::Ctor);
    write_name(&env.names, c.name.0, out, at);
    write_telescope(env, Keyword::Args, &c.args, out, at);
    write_result(env, &c.result, out, at);
    close(out, at)
}

fn write_ctors<K: Sink>(env: &RawEnv, ctors: &RawCtors, out: &mut K, at: &mut Progress)
    ensures goes { Writes (K.taken out.old) (K.taken out.new) (K.faults out.old) (K.faults out.new) at.old at.new (λ more. each (constructor env.now.names env.now.level_names) ctors.now more) }
{
    for c in ctors.as_slice() {
        write_ctor(env, c, out, at);
    }
}

fn write_family_sort<K: Sink>(levels: &Names, s: &Sort, out: &mut K, at: &mut Progress)
    ensures goes { Writes (K.taken out.old) (K.taken out.new) (K.faults out.old) (K.faults out.new) at.old at.new (λ more. Open ∷ word words.Sort ∷ sort levels.now s.now (Close ∷ more)) }
{
    head(out, at, Keyword::Sort);
    write_sort(levels, s, out, at);
    close(out, at)
}

fn write_raw_family<K: Sink>(env: &RawEnv, f: &RawFamily, out: &mut K, at: &mut Progress)
    ensures goes { Writes (K.taken out.old) (K.taken out.new) (K.faults out.old) (K.faults out.new) at.old at.new (λ more. family env.now.names env.now.level_names f.now more) }
{
    head(out, at, Keyword::Family);
    write_name(&env.names, f.name.0, out, at);
    write_family_sort(&env.level_names, &f.sort, out, at);
    write_telescope(env, Keyword::Indices, &f.indices, out, at);
    write_ctors(env, &f.ctors, out, at);
    close(out, at)
}

fn write_families<K: Sink>(env: &RawEnv, families: &RawFamilies, out: &mut K, at: &mut Progress)
    ensures goes { Writes (K.taken out.old) (K.taken out.new) (K.faults out.old) (K.faults out.new) at.old at.new (λ more. each (family env.now.names env.now.level_names) families.now more) }
{
    for f in families.as_slice() {
        write_raw_family(env, f, out, at);
    }
}

fn write_body<K: Sink>(env: &RawEnv, t: &Option<Term>, out: &mut K, at: &mut Progress)
    ensures goes { Writes (K.taken out.old) (K.taken out.new) (K.faults out.old) (K.faults out.new) at.old at.new (λ more. body env.now.names env.now.level_names t.now more) }
{
    match t {
        None => keyword(out, at, Keyword::NoBody),
        Some(t) => write_term(env, t, out, at),
    }
}

fn write_declaration<K: Sink>(env: &RawEnv, d: &RawDecl, out: &mut K, at: &mut Progress)
    ensures goes { Writes (K.taken out.old) (K.taken out.new) (K.faults out.old) (K.faults out.new) at.old at.new (λ more. declaration env.now.names env.now.level_names d.now more) }
{
    match d {
        RawDecl::Constant { name, ty, body } => {
            head(out, at, Keyword::ConstantDecl);
            write_name(&env.names, name.0, out, at);
            write_term(env, ty, out, at);
            write_body(env, body, out, at);
            close(out, at)
        }
        RawDecl::Block {
            name,
            params,
            families,
        } => {
            head(out, at, Keyword::InductiveDecl);
            write_name(&env.names, name.0, out, at);
            write_telescope(env, Keyword::Params, params, out, at);
            write_families(env, families, out, at);
            close(out, at)
        }
    }
}

fn write_declarations<K: Sink>(env: &RawEnv, decls: &RawDecls, out: &mut K, at: &mut Progress)
    ensures goes { Writes (K.taken out.old) (K.taken out.new) (K.faults out.old) (K.faults out.new) at.old at.new (λ more. each (declaration env.now.names env.now.level_names) decls.now more) }
{
    for d in decls.as_slice() {
        write_declaration(env, d, out, at);
    }
}

fn write_levels<K: Sink>(names: &Names, levels: &Levels, out: &mut K, at: &mut Progress)
    ensures goes { Writes (K.taken out.old) (K.taken out.new) (K.faults out.old) (K.faults out.new) at.old at.new (λ more. each (level names.now) levels.now more) }
{
    for l in levels.as_slice() {
        write_name(names, l.0, out, at);
    }
}

fn word_of(relation: Relation) -> Keyword
    ensures is { result ≡ relation_word relation }
{
    match relation {
        Relation::Lt => Keyword::Lt,
        Relation::Le => Keyword::Le,
        Relation::Eq => Keyword::Eq,
    }
}

fn write_constraint<K: Sink>(names: &Names, c: Constraint, out: &mut K, at: &mut Progress)
    ensures goes { Writes (K.taken out.old) (K.taken out.new) (K.faults out.old) (K.faults out.new) at.old at.new (λ more. constraint names.now c more) }
{
    head(out, at, word_of(c.relation));
    write_name(names, c.left.0, out, at);
    write_name(names, c.right.0, out, at);
    close(out, at)
}

fn write_constraints<K: Sink>(
    names: &Names,
    constraints: &Constraints,
    out: &mut K,
    at: &mut Progress,
)
    ensures goes { Writes (K.taken out.old) (K.taken out.new) (K.faults out.old) (K.faults out.new) at.old at.new (λ more. each (constraint names.now) constraints.now more) }
{
    for c in constraints.as_slice() {
        write_constraint(names, *c, out, at);
    }
}

fn write_level_list<K: Sink>(env: &RawEnv, out: &mut K, at: &mut Progress)
    ensures goes { Writes (K.taken out.old) (K.taken out.new) (K.faults out.old) (K.faults out.new) at.old at.new (λ more. Open ∷ word words.Levels ∷ each (level env.now.level_names) env.now.levels (Close ∷ more)) }
{
    head(out, at, Keyword::Levels);
    write_levels(&env.level_names, &env.levels, out, at);
    close(out, at)
}

fn write_constraint_list<K: Sink>(env: &RawEnv, out: &mut K, at: &mut Progress)
    ensures goes { Writes (K.taken out.old) (K.taken out.new) (K.faults out.old) (K.faults out.new) at.old at.new (λ more. Open ∷ word words.Constraints ∷ each (constraint env.now.level_names) env.now.constraints (Close ∷ more)) }
{
    head(out, at, Keyword::Constraints);
    write_constraints(&env.level_names, &env.constraints, out, at);
    close(out, at)
}

fn write_main<K: Sink>(env: &RawEnv, out: &mut K, at: &mut Progress)
    ensures goes { Writes (K.taken out.old) (K.taken out.new) (K.faults out.old) (K.faults out.new) at.old at.new (λ more. Open ∷ word words.Main ∷ term false env.now.names env.now.level_names env.now.main (Close ∷ more)) }
{
    head(out, at, Keyword::Main);
    write_term(env, &env.main, out, at);
    close(out, at)
}

/// A whole environment.
pub fn write_environment<K: Sink>(env: &RawEnv, out: &mut K, at: &mut Progress)
    ensures goes { Writes (K.taken out.old) (K.taken out.new) (K.faults out.old) (K.faults out.new) at.old at.new (λ more. environment env.now more) }
{
    head(out, at, Keyword::Env);
    keyword(out, at, Keyword::One);
    write_level_list(env, out, at);
    write_constraint_list(env, out, at);
    write_declarations(env, &env.decls, out, at);
    write_main(env, out, at);
    close(out, at)
}
