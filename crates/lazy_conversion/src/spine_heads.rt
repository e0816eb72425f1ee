//! Heads of values of one kind.
ghost use Rattle.std.specs.Prelude.{◌≡◌, ◌≤◌, ◌-◌, ◌==◌, ◌&&◌, length};
ghost use Rattle.pc_terms.specs.Syntax.{head, args};
ghost use Rattle.pc_rules.specs.DirectedComparison.{alike};
ghost use Rattle.reduce_machine.specs.Layers.{IsShown};
ghost use Rattle.reduce_machine.specs.Reads.{read};
ghost use Rattle.reduce_machine.specs.Seen.{seen_term, IsSeen};
ghost use Rattle.lazy_conversion.specs.Heads.{code_of};

use conversion::spine_heads::alike;
use pc_terms::term::Node;
use reduce_machine::bindings::{Bindings, Found, Lazy};
use reduce_machine::seen::Seen;
use reduce_machine::spines::Head;

/// The number of a variable behind all items.
fn past(env: &Bindings, i: u32) -> u32
    requires { length env.now.items ≤ i }
    ensures is { result ≡ i - length env.now.items }
{
    match env.find(i) {
        Found::Past(j) => j,
        Found::Item(_, _) => unreachable!(),
    }
}

/// Whether two heads under bindings are of one kind.
fn alike_codes(f: &Lazy, g: &Lazy) -> bool
    requires left { IsShown f.now }
    requires right { IsShown g.now }
    ensures is { result ≡ alike (read f.now) (read g.now) }
{
    match (f.term.view(), g.term.view()) {
        (Node::Rel(i), Node::Rel(j)) => past(&f.env, *i) == past(&g.env, *j),
        _ => alike(&f.term, &g.term),
    }
}

/// The head as it was written, under its bindings: of a match that is stuck with the scrutinee that it had then.
pub(crate) fn code(head: &Head) -> &Lazy
    ensures is { result.now ≡ code_of head.now }
{
    match head {
        Head::Open(l) => l,
        Head::Match(outer) => outer,
        Head::Fixpoint(fix, _) => fix,
    }
}

/// Whether two values have as many arguments, and heads of one kind. Takes no memory.
pub fn fit(x: Seen<'_>, y: Seen<'_>) -> bool
    requires left { IsSeen x }
    requires right { IsSeen y }
    ensures is { result ≡ ((length (args (seen_term x.entry)) == length (args (seen_term y.entry))) && alike (head (seen_term x.entry)) (head (seen_term y.entry))) }
{
    x.count() == y.count() && alike_codes(code(&x.spine.head), code(&y.spine.head))
}
