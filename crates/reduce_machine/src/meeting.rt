//! What a term without a step makes of the frame around it.
ghost use Rattle.std.specs.Prelude.{◌≡◌, ◌+◌, ◌↔◌, [], List, IfOk, IfErr, IfSome, MatchOption, IsTrue, Some, None, drop, length, map};
ghost use Rattle.trees.specs.Measures.{IsBeyond};
ghost use Rattle.pc_terms.specs.Lists.{arms_of};
ghost use Rattle.pc_terms.specs.Syntax.{Term, App, apply};
ghost use Rattle.pc_terms.specs.declared.term.MakeFault.TheVariants.{TooDeep, Memory};
ghost use Rattle.calculus_rules.specs.Context.{Values};
ghost use Rattle.calculus_rules.specs.Environment.{Env};
ghost use Rattle.pc_rules.specs.DirectedWeakHead.{weak_next, built};
ghost use Rattle.calculus_rules.specs.Same.{same_families};
ghost use Rattle.redexes.specs.Redexes.{fix_body, unfold_next};
ghost use Rattle.reduction.specs.Frames.{with_scrutinee, missing, work};
ghost use Rattle.reduce_machine.specs.Normal.{IsLambda};
ghost use Rattle.reduce_machine.specs.Layered.{around, weight, IsFrame};
ghost use Rattle.reduce_machine.specs.Layers.{layer, IsLayer, IsMatchNode, IsFixNode, IsOpen};
ghost use Rattle.reduce_machine.specs.Met.{IsBodyIn, IsMet, IsBranching, Keeps};
ghost use Rattle.reduce_machine.specs.Values.{term_of, IsValue};
ghost use Rattle.reduce_machine.specs.Arms.{arm_at};
ghost use Rattle.reduce_machine.specs.Reads.{read};

use crate::bindings::{Bindings, Lazy};
use crate::frames::Frame;
use crate::spines::{Head, Spine};
use crate::steps::Step;
use crate::values::Value;
use pc_rules::environment::Env;
use pc_terms::leaf::FamilyId;
use pc_terms::term::{Branch, MakeFault, Match, Node, Term};
use redexes::lookup::{branch_at, constructor_at, family_at};
use std::alloc::Global;

/// What comes of a term without a step and the frame around it.
#[derive(Drop)]
pub(crate) enum Met {
    /// A step.
    Step(Step),
    /// A fixpoint with the arguments before its recursive one, and that one, in which a step may happen.
    Inward(Lazy, Vec<Lazy>, Lazy),
    /// A term without a step.
    Stuck(Value),
}

/// A lambda's body under bindings.
#[derive(Drop)]
pub(crate) struct Body {
    body: Term,
    env: Bindings,
}

/// A branch that was found: its body, and how many parameters the constructor has.
#[derive(Drop)]
pub(crate) struct Branching {
    body: Term,
    params: usize,
}

/// A constructor with all its parameters and arguments: its family, its number there, and how many parameters and arguments there are.
#[derive(Drop)]
pub(crate) struct Constructed {
    family: FamilyId,
    number: u32,
    params: usize,
    count: usize,
}

/// Whether the next argument is the recursive one.
fn is_next(missing: Option<u32>) -> bool
    ensures is { IsTrue result ↔ (missing ≡ Some 0) }
{
    match missing {
        Some(0) => true,
        _ => false,
    }
}

/// Whether there are no arguments.
pub(crate) fn is_alone(args: &Vec<Lazy>) -> bool
    ensures is { IsTrue result ↔ (args.now.items ≡ []) }
{
    args.is_empty()
}

/// The body of a head that is a lambda; none where it is none.
fn head_body(head: &Lazy) -> Result<Option<Body>, MakeFault>
    requires { IsOpen head.now }
    ensures ok { IfOk result (λ o. MatchOption o (IsLambda (read head.now) → ⊥) (λ b. IsBodyIn b.env.items (read head.now) b.body)) }
    ensures only_memory { IfErr result (λ e. e ≡ Memory) }
{
    if let Node::Lambda(_, body) = head.term.view() {
        let body = body.share()?;
        let env = head.env.share()?;
        return Ok(Some(Body { body, env }));
    }
    Ok(None)
}

/// The body of a lambda; none where the value is none.
fn lambda(value: &Value) -> Result<Option<Body>, MakeFault>
    requires { IsValue value.now }
    ensures ok { IfOk result (λ o. MatchOption o (IsLambda (term_of value.now) → ⊥) (λ b. IsBodyIn b.env.items (term_of value.now) b.body)) }
    ensures only_memory { IfErr result (λ e. e ≡ Memory) }
{
    match &value.spine.head {
        Head::Open(head) => {
            if is_alone(&value.spine.args) {
                return head_body(head);
            }
            Ok(None)
        }
        _ => Ok(None),
    }
}

/// A fixpoint whose next argument is its recursive one, with that one.
fn inward(value: Value, argument: Lazy) -> Met
    requires value { IsValue value }
    requires next { missing (term_of value) ≡ Some 0 }
    ensures keeps { Keeps (App (term_of value) (read argument)) (work (read argument) + 2) result }
    ensures met { (E : Env) (V : Values) → IsMet E V (App (term_of value) (read argument)) result }
{
    let Spine { head, args } = value.spine;
    let Head::Open(fix) = head else {
        unreachable!()
    };
    Met::Inward(fix, args, argument)
}

/// A value that is applied to an argument.
fn meet_argument(value: Value, argument: Lazy) -> Result<Met, MakeFault>
    requires { IsValue value }
    ensures ok { IfOk result (λ m. (E : Env) (V : Values) → weak_next E V (term_of value) ≡ None → IsMet E V (App (term_of value) (read argument)) m) }
    ensures keeps { IfOk result (Keeps (App (term_of value) (read argument)) (work (read argument) + 2)) }
    ensures only_memory { IfErr result (λ e. e ≡ Memory) }
{
    if let Some(found) = lambda(&value)? {
        return Ok(Met::Step(Step::Bound {
            body: found.body,
            env: found.env,
            value: argument,
        }));
    }
    if is_next(value.missing) {
        return Ok(inward(value, argument));
    }
    let wider = value.extended(argument)?;
    Ok(Met::Stuck(wider))
}

/// The constructor that a value is, where it has all parameters and arguments; none where it is no such constructor.
fn find_constructed(env: &Env, value: &Value) -> Option<Constructed>
    requires { IsValue value.now }
    ensures is { MatchOption result (built env.now (term_of value.now) ≡ None) (λ c. built env.now (term_of value.now) ≡ Some (c.family, c.number, drop c.params (map read value.now.spine.args.items))) }
    ensures count { IfSome result (λ c. c.count ≡ length (drop c.params (map read value.now.spine.args.items))) }
{
    let Head::Open(head) = &value.spine.head else {
        return None;
    };
    let Node::Construct(id, number) = head.term.view() else {
        return None;
    };
    let Some(block) = env.whole_block(id.block) else {
        return None;
    };
    let Some(family) = family_at(block, id.family) else {
        return None;
    };
    let Some(ctor) = constructor_at(family, *number) else {
        return None;
    };
    let count = value.spine.args.len();
    let params = block.params.len();
    if count < params {
        return None;
    }
    let given = count - params;
    let wanted = ctor.args.len();
    if given != wanted {
        return None;
    }
    Some(Constructed {
        family: *id,
        number: *number,
        params,
        count: given,
    })
}

/// Whether two families are the same.
fn same_family(a: FamilyId, b: FamilyId) -> bool
    ensures is { result ≡ same_families a b }
{
    a.block.0 == b.block.0 && a.family == b.family
}

/// The branch of a match for a constructor of so many arguments; none where it is of another family, or there is no branch of so many names.
fn chosen(m: &Match, family: FamilyId, number: u32, count: usize) -> Option<&Branch>
    ensures is { MatchOption result (arm_at (arms_of m.now.branches) m.now.family family number count ≡ None) (λ b. arm_at (arms_of m.now.branches) m.now.family family number count ≡ Some b.now.body) }
{
    if !same_family(m.family, family) {
        return None;
    }
    let Some(arm) = branch_at(&m.branches, number) else {
        return None;
    };
    if arm.binders as usize != count {
        return None;
    }
    Some(arm)
}

/// The step of a match whose scrutinee is a value; none where it chooses no branch.
fn find_branch(env: &Env, value: &Value, outer: &Lazy) -> Result<Option<Branching>, MakeFault>
    requires node { IsMatchNode outer.now.term }
    requires value { IsValue value.now }
    ensures ok { IfOk result (λ o. (V : Values) → weak_next env.now V (term_of value.now) ≡ None → IsBranching env.now V outer.now value.now o) }
    ensures only_memory { IfErr result (λ e. e ≡ Memory) }
{
    let Node::Case(m) = outer.term.view() else {
        unreachable!()
    };
    let m = m.get();
    let Some(found) = find_constructed(env, value) else {
        return Ok(None);
    };
    let Some(arm) = chosen(m, found.family, found.number, found.count) else {
        return Ok(None);
    };
    let body = arm.body.share()?;
    Ok(Some(Branching {
        body,
        params: found.params,
    }))
}

/// A value that is the scrutinee of a match.
fn meet_match(alloc: Global, env: &Env, value: Value, outer: Lazy) -> Result<Met, MakeFault>
    requires node { IsMatchNode outer.term }
    requires value { IsValue value }
    ensures ok { IfOk result (λ m. (V : Values) → weak_next env.now V (term_of value) ≡ None → IsMet env.now V (with_scrutinee (read outer) (term_of value)) m) }
    ensures keeps { IfOk result (Keeps (with_scrutinee (read outer) (term_of value)) 1) }
    ensures only_memory { IfErr result (λ e. e ≡ Memory) }
{
    if let Some(found) = find_branch(env, &value, &outer)? {
        return Ok(Met::Step(Step::Branch {
            body: found.body,
            env: outer.env,
            args: value.spine.args,
            params: found.params,
        }));
    }
    let stuck = value.under(alloc, Head::Match(outer))?;
    Ok(Met::Stuck(stuck))
}

/// A value under bindings: the root where it is known, and else the term that is read.
fn bound(alloc: Global, value: &Value, root: Option<Lazy>) -> Result<Lazy, MakeFault>
    requires value { IsValue value.now }
    requires root { IfSome root (λ l. read l ≡ term_of value.now) }
    ensures ok { IfOk result (λ l. read l ≡ term_of value.now) }
    ensures too_deep { IfErr result (λ e. e ≡ TooDeep → IsBeyond (term_of value.now)) }
{
    match root {
        Some(root) => Ok(root),
        None => {
            let term = value.read(alloc)?;
            Ok(Lazy::plain(term))
        }
    }
}

/// A fixpoint as it was written names one of its definitions: so it unfolds with any arguments.
fn seen(fix: &Lazy)
    requires { IsFixNode fix.now.term }
    ensures unfolds { (xs : List Term) (a : Term) → unfold_next (read fix.now) xs a ≡ Some (App (apply (fix_body (read fix.now)) xs) a) }
{
    let Node::Fix(_, _) = fix.term.view() else {
        unreachable!()
    };
}

/// A value that is the recursive argument of a fixpoint.
fn meet_fixpoint(
    alloc: Global,
    env: &Env,
    value: Value,
    root: Option<Lazy>,
    fix: Lazy,
    before: Vec<Lazy>,
) -> Result<Met, MakeFault>
    requires node { IsFixNode fix.term }
    requires waits { missing (apply (read fix) (map read before.items)) ≡ Some 0 }
    requires value { IsValue value }
    requires root { IfSome root (λ l. read l ≡ term_of value) }
    ensures ok { IfOk result (λ m. (V : Values) → weak_next env.now V (term_of value) ≡ None → IsMet env.now V (App (apply (read fix) (map read before.items)) (term_of value)) m) }
    ensures keeps { IfOk result (Keeps (App (apply (read fix) (map read before.items)) (term_of value)) 1) }
    ensures too_deep { IfErr result (λ e. e ≡ TooDeep → IsBeyond (term_of value)) }
{
    if let Some(_) = find_constructed(env, &value) {
        seen(&fix);
        let argument = bound(alloc, &value, root)?;
        return Ok(Met::Step(Step::Fixpoint {
            fix,
            before,
            argument,
        }));
    }
    let stuck = value.under(alloc, Head::Fixpoint(fix, before))?;
    Ok(Met::Stuck(stuck))
}

impl Frame {
    /// What comes of a value in the frame: itself, where the frame waits for what a variable is reduced to. `root` is the value under bindings,
    /// where it is known. `TooDeep` only where the value in its frame is beyond the limits of terms.
    pub(crate) fn meet(
        self,
        alloc: Global,
        env: &Env,
        value: Value,
        root: Option<Lazy>,
    ) -> Result<Met, MakeFault>
        requires frame { IsFrame (layer self) }
        requires node { IsLayer self }
        requires value { IsValue value }
        requires root { IfSome root (λ l. read l ≡ term_of value) }
        ensures ok { IfOk result (λ m. (V : Values) → weak_next env.now V (term_of value) ≡ None → IsMet env.now V (around (layer self) (term_of value)) m) }
        ensures keeps { IfOk result (Keeps (around (layer self) (term_of value)) (weight (layer self))) }
        ensures too_deep { IfErr result (λ e. e ≡ TooDeep → IsBeyond (around (layer self) (term_of value))) }
    {
        match self {
            Frame::Argument(argument) => meet_argument(value, argument),
            Frame::Scrutinee(outer) => meet_match(alloc, env, value, outer),
            Frame::Recursive(fix, before) => meet_fixpoint(alloc, env, value, root, fix, before),
            Frame::Update(_, _) => Ok(Met::Stuck(value)),
        }
    }
}
