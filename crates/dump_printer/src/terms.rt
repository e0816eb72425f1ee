//! Terms.
ghost use Rattle.std.specs.Prelude.{suc, ◌∷◌, true, false};
ghost use Rattle.sexp_reader.specs.Text.{Open, Close, Atom};
ghost use Rattle.pc_terms.specs.View.{tree_of};
ghost use Rattle.dump_grammar.specs.Numbers.{word};
ghost use Rattle.dump_grammar.specs.declared.keyword.Keyword.TheVariants as words;
ghost use Rattle.dump_printer.specs.Writing.{Writes};
ghost use Rattle.dump_printer.specs.CanonicalTerms.{text_of, each, sort, term, numeral, anonymous, anonymous_names};
ghost use Rattle.dump_printer.specs.Cut.{cut, dots};
ghost use Rattle.dump_printer.specs.TermLists.{family_id, arm, definition};

use crate::sorts::{write_anonymous, write_binders, write_name, write_sort};
use crate::writing::{Progress, atom, close, head, number, open};
use dump_grammar::Keyword;
use dump_reader::environment::RawEnv;
use kio::Sink;
use pc_terms::leaf::{FamilyId, Name};
use pc_terms::term::{Branch, Branches, Def, Defs, Match, Node, Term, Terms};
use universe_levels::sort::Sort;

fn write_family_id<K: Sink>(env: &RawEnv, f: FamilyId, out: &mut K, at: &mut Progress)
    ensures goes { Writes (K.taken out.old) (K.taken out.new) (K.faults out.old) (K.faults out.new) at.old at.new (λ more. family_id env.now.names f more) }
{
    write_name(&env.names, f.block.0, out, at);
    number(out, at, f.family)
}

fn write_variable<K: Sink>(i: u32, out: &mut K, at: &mut Progress)
    ensures goes { Writes (K.taken out.old) (K.taken out.new) (K.faults out.old) (K.faults out.new) at.old at.new (λ more. Open ∷ word words.Rel ∷ numeral i ∷ Close ∷ more) }
{
    head(out, at, Keyword::Rel);
    number(out, at, i);
    close(out, at)
}

fn write_sort_term<K: Sink>(env: &RawEnv, s: &Sort, out: &mut K, at: &mut Progress)
    ensures goes { Writes (K.taken out.old) (K.taken out.new) (K.faults out.old) (K.faults out.new) at.old at.new (λ more. Open ∷ word words.TermSort ∷ sort env.now.level_names s.now (Close ∷ more)) }
{
    head(out, at, Keyword::TermSort);
    write_sort(&env.level_names, s, out, at);
    close(out, at)
}

fn write_constant<K: Sink>(env: &RawEnv, c: Name, out: &mut K, at: &mut Progress)
    ensures goes { Writes (K.taken out.old) (K.taken out.new) (K.faults out.old) (K.faults out.new) at.old at.new (λ more. Open ∷ word words.Const ∷ Atom (text_of env.now.names c.0) ∷ Close ∷ more) }
{
    head(out, at, Keyword::Const);
    write_name(&env.names, c.0, out, at);
    close(out, at)
}

fn write_family<K: Sink>(env: &RawEnv, f: FamilyId, out: &mut K, at: &mut Progress)
    ensures goes { Writes (K.taken out.old) (K.taken out.new) (K.faults out.old) (K.faults out.new) at.old at.new (λ more. Open ∷ word words.Ind ∷ family_id env.now.names f (Close ∷ more)) }
{
    head(out, at, Keyword::Ind);
    write_family_id(env, f, out, at);
    close(out, at)
}

fn write_constructor<K: Sink>(env: &RawEnv, f: FamilyId, c: u32, out: &mut K, at: &mut Progress)
    ensures goes { Writes (K.taken out.old) (K.taken out.new) (K.faults out.old) (K.faults out.new) at.old at.new (λ more. Open ∷ word words.Construct ∷ family_id env.now.names f (numeral c ∷ Close ∷ more)) }
{
    head(out, at, Keyword::Construct);
    write_family_id(env, f, out, at);
    number(out, at, c);
    close(out, at)
}

/// A term.
pub fn write_term<K: Sink>(env: &RawEnv, t: &Term, out: &mut K, at: &mut Progress)
    ensures goes { Writes (K.taken out.old) (K.taken out.new) (K.faults out.old) (K.faults out.new) at.old at.new (λ more. term false env.now.names env.now.level_names t.now more) }
{
    write_cut(env, t.depth(), t, out, at)
}

/// A list of terms.
pub fn write_terms<K: Sink>(env: &RawEnv, list: &Terms, out: &mut K, at: &mut Progress)
    ensures goes { Writes (K.taken out.old) (K.taken out.new) (K.faults out.old) (K.faults out.new) at.old at.new (λ more. each (term false env.now.names env.now.level_names) list.now more) }
{
    for t in list.as_slice() {
        write_term(env, t, out, at);
    }
}

/// A term with so much depth: three dots stand where it goes deeper.
#[cycle(term)]
pub fn write_cut<K: Sink>(env: &RawEnv, room: u32, t: &Term, out: &mut K, at: &mut Progress)
    ensures goes { Writes (K.taken out.old) (K.taken out.new) (K.faults out.old) (K.faults out.new) at.old at.new (λ more. cut room false env.now.names env.now.level_names t.now more) }
{
    if room == 0 {
        atom(out, at, b"...")
    } else {
        write_node(env, room - 1, t.view(), out, at)
    }
}

/// A node, under which there is so much depth.
#[cycle(term)]
#[tactic(auto, unfolding(crate::specs::Cut::cut))]
fn write_node<K: Sink>(env: &RawEnv, room: u32, node: &Node, out: &mut K, at: &mut Progress)
    ensures goes { Writes (K.taken out.old) (K.taken out.new) (K.faults out.old) (K.faults out.new) at.old at.new (λ more. cut (suc room) false env.now.names env.now.level_names (tree_of node.now) more) }
{
    match node {
        Node::Rel(i) => write_variable(*i, out, at),
        Node::Sort(s) => write_sort_term(env, s, out, at),
        Node::Prod(domain, codomain) => {
            write_binder(env, room, Keyword::Prod, domain, out, at);
            write_cut(env, room, codomain, out, at);
            close(out, at)
        }
        Node::Lambda(domain, body) => {
            write_binder(env, room, Keyword::Lambda, domain, out, at);
            write_cut(env, room, body, out, at);
            close(out, at)
        }
        Node::LetIn(value, ty, body) => {
            write_binder(env, room, Keyword::LetIn, value, out, at);
            write_cut(env, room, ty, out, at);
            write_cut(env, room, body, out, at);
            close(out, at)
        }
        Node::App(f, a) => {
            head(out, at, Keyword::App);
            write_run(env, room, f, out, at);
            write_cut(env, room, a, out, at);
            close(out, at)
        }
        Node::Const(c) => write_constant(env, *c, out, at),
        Node::Ind(f) => write_family(env, *f, out, at),
        Node::Construct(f, c) => write_constructor(env, *f, *c, out, at),
        Node::Case(m) => write_match(env, room, m.get(), out, at),
        Node::Fix(defs, i) => write_fix(env, room, defs, *i, out, at),
    }
}

/// The head of a term that binds a variable, the binder's name, and the first term.
#[cycle(term)]
fn write_binder<K: Sink>(
    env: &RawEnv,
    room: u32,
    former: Keyword,
    first: &Term,
    out: &mut K,
    at: &mut Progress,
)
    ensures goes { Writes (K.taken out.old) (K.taken out.new) (K.faults out.old) (K.faults out.new) at.old at.new (λ more. Open ∷ word former ∷ anonymous ∷ cut room false env.now.names env.now.level_names first.now more) }
{
    head(out, at, former);
    write_anonymous(out, at);
    write_cut(env, room, first, out, at)
}

/// The head of a run of applications, and the run's arguments so far.
#[cycle(term)]
fn write_run<K: Sink>(env: &RawEnv, room: u32, t: &Term, out: &mut K, at: &mut Progress)
    ensures goes { Writes (K.taken out.old) (K.taken out.new) (K.faults out.old) (K.faults out.new) at.old at.new (λ more. cut room true env.now.names env.now.level_names t.now more) }
{
    if room == 0 {
        return write_cut(env, room, t, out, at);
    }
    match t.view() {
        Node::App(g, b) => {
            write_run(env, room - 1, g, out, at);
            write_cut(env, room - 1, b, out, at)
        }
        _ => write_cut(env, room, t, out, at),
    }
}

#[cycle(term)]
fn write_match<K: Sink>(env: &RawEnv, room: u32, m: &Match, out: &mut K, at: &mut Progress)
    ensures goes { Writes (K.taken out.old) (K.taken out.new) (K.faults out.old) (K.faults out.new) at.old at.new (λ more. cut (suc room) false env.now.names env.now.level_names (tree_of (Node.Case m.now)) more) }
{
    head(out, at, Keyword::Case);
    open(out, at);
    write_family_id(env, m.family, out, at);
    close(out, at);
    head(out, at, Keyword::Params);
    write_parameters(env, room, &m.params, out, at);
    close(out, at);
    write_predicate(env, room, m.binders, &m.ret, out, at);
    write_cut(env, room, &m.scrut, out, at);
    write_branches(env, room, &m.branches, out, at);
    close(out, at)
}

#[cycle(term)]
fn write_predicate<K: Sink>(
    env: &RawEnv,
    room: u32,
    binders: u32,
    ret: &Term,
    out: &mut K,
    at: &mut Progress,
)
    ensures goes { Writes (K.taken out.old) (K.taken out.new) (K.faults out.old) (K.faults out.new) at.old at.new (λ more. Open ∷ word words.Pred ∷ Open ∷ anonymous_names binders (Close ∷ cut room false env.now.names env.now.level_names ret.now (Close ∷ more))) }
{
    head(out, at, Keyword::Pred);
    open(out, at);
    write_binders(binders, out, at);
    close(out, at);
    write_cut(env, room, ret, out, at);
    close(out, at)
}

#[cycle(term)]
fn write_parameters<K: Sink>(env: &RawEnv, room: u32, list: &Terms, out: &mut K, at: &mut Progress)
    ensures goes { Writes (K.taken out.old) (K.taken out.new) (K.faults out.old) (K.faults out.new) at.old at.new (λ more. each (cut room false env.now.names env.now.level_names) list.now more) }
{
    for t in list.as_slice() {
        write_cut(env, room, t, out, at);
    }
}

#[cycle(term)]
fn write_branches<K: Sink>(
    env: &RawEnv,
    room: u32,
    branches: &Branches,
    out: &mut K,
    at: &mut Progress,
)
    ensures goes { Writes (K.taken out.old) (K.taken out.new) (K.faults out.old) (K.faults out.new) at.old at.new (λ more. each (arm room env.now.names env.now.level_names) branches.now more) }
{
    for b in branches.as_slice() {
        write_branch(env, room, b, out, at);
    }
}

#[cycle(term)]
fn write_branch<K: Sink>(env: &RawEnv, room: u32, b: &Branch, out: &mut K, at: &mut Progress)
    ensures goes { Writes (K.taken out.old) (K.taken out.new) (K.faults out.old) (K.faults out.new) at.old at.new (λ more. arm room env.now.names env.now.level_names b.now more) }
{
    head(out, at, Keyword::Branch);
    open(out, at);
    write_binders(b.binders, out, at);
    close(out, at);
    write_cut(env, room, &b.body, out, at);
    close(out, at)
}

#[cycle(term)]
fn write_fix<K: Sink>(env: &RawEnv, room: u32, defs: &Defs, i: u32, out: &mut K, at: &mut Progress)
    ensures goes { Writes (K.taken out.old) (K.taken out.new) (K.faults out.old) (K.faults out.new) at.old at.new (λ more. Open ∷ word words.Fix ∷ Open ∷ each (definition room env.now.names env.now.level_names) defs.now (Close ∷ numeral i ∷ Close ∷ more)) }
{
    head(out, at, Keyword::Fix);
    open(out, at);
    write_definitions(env, room, defs, out, at);
    close(out, at);
    number(out, at, i);
    close(out, at)
}

#[cycle(term)]
fn write_definitions<K: Sink>(env: &RawEnv, room: u32, defs: &Defs, out: &mut K, at: &mut Progress)
    ensures goes { Writes (K.taken out.old) (K.taken out.new) (K.faults out.old) (K.faults out.new) at.old at.new (λ more. each (definition room env.now.names env.now.level_names) defs.now more) }
{
    for d in defs.as_slice() {
        write_definition(env, room, d, out, at);
    }
}

#[cycle(term)]
fn write_definition<K: Sink>(env: &RawEnv, room: u32, d: &Def, out: &mut K, at: &mut Progress)
    ensures goes { Writes (K.taken out.old) (K.taken out.new) (K.faults out.old) (K.faults out.new) at.old at.new (λ more. definition room env.now.names env.now.level_names d.now more) }
{
    head(out, at, Keyword::Def);
    write_anonymous(out, at);
    write_cut(env, room, &d.ty, out, at);
    write_cut(env, room, &d.body, out, at);
    number(out, at, d.rarg);
    close(out, at)
}
