//! What a term without a step makes of the frame around it.
ghost use Rattle.std.specs.Prelude.{◌≡◌, ◌+◌, ◌↔◌, IfOk, IfErr, IsTrue, Some, None, is_some};
ghost use Rattle.trees.specs.Measures.{IsBeyond};
ghost use Rattle.pc_terms.specs.Syntax.{App, head, args};
ghost use Rattle.pc_terms.specs.View.{tree_of};
ghost use Rattle.pc_terms.specs.declared.term.Node.TheVariants.{Case};
ghost use Rattle.pc_terms.specs.declared.term.MakeFault.TheVariants.{TooDeep, Memory};
ghost use Rattle.calculus_rules.specs.Context.{Values};
ghost use Rattle.calculus_rules.specs.Environment.{Env};
ghost use Rattle.pc_rules.specs.DirectedWeakHead.{weak_next, built};
ghost use Rattle.reduction.specs.Frames.{around, missing, one_less, with_scrutinee, work, weight, IsMatch, IsHead, IsFrame};
ghost use Rattle.redexes.specs.Redexes.{contractum, unfold_next};
ghost use Rattle.reduction.specs.Met.{Lacks, Keeps, IsMet};

use crate::frames::Frame;
use pc_rules::environment::Env;
use pc_terms::term::{Branch, Branches, MakeFault, Match, Node, Term, Terms};
use redexes::constructors::{Built, branch};
use redexes::lookup::definition_at;
use redexes::redexes::Redex;
use redexes::spine::Spine;
use std::alloc::Global;

/// A term without a step, and how many arguments it lacks before its recursive one, where it is a fixpoint with at most so many.
#[derive(Drop)]
pub(crate) struct Value {
    pub(crate) term: Term,
    pub(crate) missing: Option<u32>,
}

/// What comes of a term without a step and the frame around it.
#[derive(Drop)]
pub(crate) enum Met {
    /// A step.
    Step(Redex),
    /// A fixpoint, and its recursive argument, in which a step may happen.
    Inward { function: Term, argument: Term },
    /// A term without a step.
    Stuck(Value),
}

impl Value {
    /// A term that is no application, as a value.
    pub(crate) fn of(term: Term) -> Value
        requires { IsHead term }
        ensures term { result.term ≡ term }
        ensures lacks { Lacks result }
    {
        let missing = recursive_place(&term);
        Value { term, missing }
    }
}

/// The place of a fixpoint's recursive argument; none for other terms.
fn recursive_place(t: &Term) -> Option<u32>
    requires { IsHead t.now }
    ensures lacks { result ≡ missing t.now }
{
    match t.view() {
        Node::Fix(defs, i) => match definition_at(defs, *i) {
            Some(def) => Some(def.rarg),
            None => None,
        },
        _ => None,
    }
}

/// One less, where that is a number.
fn less(missing: Option<u32>) -> Option<u32>
    ensures is { result ≡ one_less missing }
{
    match missing {
        Some(0) | None => None,
        Some(k) => Some(k - 1),
    }
}

/// Whether the next argument is the recursive one.
fn is_next(missing: Option<u32>) -> bool
    ensures is { IsTrue result ↔ (missing ≡ Some 0) }
{
    match missing {
        Some(0) => true,
        _ => false,
    }
}

/// A value that is applied to an argument.
fn meet_argument(alloc: Global, value: Value, argument: Term) -> Result<Met, MakeFault>
    requires { Lacks value }
    ensures ok { IfOk result (λ m. (E : Env) (V : Values) → weak_next E V value.term ≡ None → IsMet E V (App value.term argument) m) }
    ensures keeps { IfOk result (Keeps (App value.term argument) (work argument + 2)) }
    ensures too_deep { IfErr result (λ e. e ≡ TooDeep → IsBeyond (App value.term argument)) }
{
    if let Node::Lambda(_, body) = value.term.view() {
        let body = body.share()?;
        return Ok(Met::Step(Redex::Bound {
            body,
            value: argument,
        }));
    }
    if is_next(value.missing) {
        return Ok(Met::Inward {
            function: value.term,
            argument,
        });
    }
    let term = Term::make(alloc, Node::App(value.term, argument))?;
    let missing = less(value.missing);
    Ok(Met::Stuck(Value { term, missing }))
}

/// The same terms in a list of their own.
fn shared_terms(alloc: Global, terms: &Terms) -> Result<Terms, MakeFault>
    ensures ok { IfOk result (λ ts. ts ≡ terms.now) }
    ensures only_memory { IfErr result (λ e. e ≡ Memory) }
{
    let mut out = Terms::new(alloc);
    for t in terms.as_slice() {
        let term = t.share()?;
        out.push(term)?;
    }
    Ok(out)
}

/// The same branches in a list of their own.
fn shared_branches(alloc: Global, branches: &Branches) -> Result<Branches, MakeFault>
    ensures ok { IfOk result (λ bs. bs ≡ branches.now) }
    ensures only_memory { IfErr result (λ e. e ≡ Memory) }
{
    let mut out = Branches::new(alloc);
    for b in branches.as_slice() {
        let body = b.body.share()?;
        out.push(Branch {
            binders: b.binders,
            body,
        })?;
    }
    Ok(out)
}

/// The match with another scrutinee.
pub(crate) fn rebuilt(alloc: Global, m: &Match, scrut: Term) -> Result<Term, MakeFault>
    ensures ok { IfOk result (λ t. t ≡ with_scrutinee (tree_of (Case m.now)) scrut) }
    ensures too_deep { IfErr result (λ e. e ≡ TooDeep → IsBeyond (with_scrutinee (tree_of (Case m.now)) scrut)) }
{
    let params = shared_terms(alloc, &m.params)?;
    let ret = m.ret.share()?;
    let branches = shared_branches(alloc, &m.branches)?;
    let again = Match {
        family: m.family,
        params,
        binders: m.binders,
        ret,
        scrut,
        branches,
    };
    Term::of_match(alloc, again)
}

/// A value that is the scrutinee of a match.
fn meet_match(alloc: Global, env: &Env, value: Value, around: &Term) -> Result<Met, MakeFault>
    requires { IsMatch around.now }
    ensures ok { IfOk result (λ m. (V : Values) → weak_next env.now V value.term ≡ None → IsMet env.now V (with_scrutinee around.now value.term) m) }
    ensures keeps { IfOk result (Keeps (with_scrutinee around.now value.term) 1) }
    ensures too_deep { IfErr result (λ e. e ≡ TooDeep → IsBeyond (with_scrutinee around.now value.term)) }
{
    let Node::Case(m) = around.view() else {
        unreachable!()
    };
    let m = m.get();
    if let Some(redex) = branch(alloc, env, m, &value.term)? {
        return Ok(Met::Step(redex));
    }
    let term = rebuilt(alloc, m, value.term)?;
    Ok(Met::Stuck(Value {
        term,
        missing: None,
    }))
}

/// The step of a fixpoint with all its arguments.
fn unfolding_step(alloc: Global, function: &Term, argument: Term) -> Result<Redex, MakeFault>
    requires { missing function.now ≡ Some 0 }
    ensures ok { IfOk result (λ r. unfold_next (head function.now) (args function.now) argument ≡ Some (contractum r)) }
    ensures only_memory { IfErr result (λ e. e ≡ Memory) }
{
    let (fix, before) = Spine::of(alloc, function)?;
    let Node::Fix(_, _) = fix.view() else {
        unreachable!()
    };
    Ok(Redex::Fixpoint {
        fix,
        before,
        argument,
    })
}

/// Whether a term is a constructor with all its parameters and arguments.
fn is_built(alloc: Global, env: &Env, t: &Term) -> Result<bool, MakeFault>
    ensures ok { IfOk result (λ b. b ≡ is_some (built env.now t.now)) }
    ensures only_memory { IfErr result (λ e. e ≡ Memory) }
{
    match Built::of(alloc, env, t)? {
        Some(_) => Ok(true),
        None => Ok(false),
    }
}

/// A value that is the recursive argument of a fixpoint.
fn meet_fixpoint(alloc: Global, env: &Env, value: Value, function: Term) -> Result<Met, MakeFault>
    requires { missing function ≡ Some 0 }
    ensures ok { IfOk result (λ m. (V : Values) → weak_next env.now V value.term ≡ None → IsMet env.now V (App function value.term) m) }
    ensures keeps { IfOk result (Keeps (App function value.term) 1) }
    ensures too_deep { IfErr result (λ e. e ≡ TooDeep → IsBeyond (App function value.term)) }
{
    let built = is_built(alloc, env, &value.term)?;
    if built {
        let redex = unfolding_step(alloc, &function, value.term)?;
        return Ok(Met::Step(redex));
    }
    let term = Term::make(alloc, Node::App(function, value.term))?;
    Ok(Met::Stuck(Value {
        term,
        missing: None,
    }))
}

impl Frame {
    /// What comes of a value in the frame. `TooDeep` only where the value in its frame is beyond the limits of terms.
    pub(crate) fn meet(self, alloc: Global, env: &Env, value: Value) -> Result<Met, MakeFault>
        requires frame { IsFrame self }
        requires lacks { Lacks value }
        ensures ok { IfOk result (λ m. (V : Values) → weak_next env.now V value.term ≡ None → IsMet env.now V (around self value.term) m) }
        ensures keeps { IfOk result (Keeps (around self value.term) (weight self)) }
        ensures too_deep { IfErr result (λ e. e ≡ TooDeep → IsBeyond (around self value.term)) }
    {
        match self {
            Frame::Argument(argument) => meet_argument(alloc, value, argument),
            Frame::Scrutinee(around) => meet_match(alloc, env, value, &around),
            Frame::Recursive(function) => meet_fixpoint(alloc, env, value, function),
        }
    }
}
