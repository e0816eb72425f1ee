//! Terms under bindings that are seen to have no step.
ghost use Rattle.std.specs.Prelude.{◌≡◌, ◌≤◌, ◌-◌, ◌++◌, IsTrue, IfOk, IfErr, None, length, map, slice_get};
ghost use Rattle.pc_terms.specs.Lists.{rargs_of};
ghost use Rattle.pc_terms.specs.Syntax.{head, args, substitute};
ghost use Rattle.pc_terms.specs.declared.term.MakeFault.TheVariants.{Memory};
ghost use Rattle.calculus_rules.specs.Context.{values, value_at};
ghost use Rattle.pc_rules.specs.DirectedWeakHead.{weak_next};
ghost use Rattle.calculus_rules.specs.Lookups.{kept_at, body_of};
ghost use Rattle.reduce_machine.specs.Layers.{IsOpenIn};
ghost use Rattle.reduce_machine.specs.Normal.{IsWaiting, IsNormalHead};
ghost use Rattle.reduce_machine.specs.Reads.{stands, read};
ghost use Rattle.reduce_machine.specs.Values.{term_of, IsValue};

use crate::bindings::{Bindings, Found, Lazy};
use crate::values::{Value, put};
use calculus_rules::declaration::Kept;
use calculus_rules::entry::Entry;
use pc_rules::context::Ctx;
use pc_rules::environment::Env;
use pc_terms::leaf::Name;
use pc_terms::term::{Defs, MakeFault, Node, Term};
use redexes::lookup::definition_at;
use std::alloc::Global;

/// Whether a variable has no value.
fn is_assumed(ctx: &Ctx, i: u32) -> bool
    ensures is { IsTrue result → value_at (values ctx.now) i ≡ None }
{
    match ctx.entry(i) {
        Some(Entry::Assumed(_)) => true,
        _ => false,
    }
}

/// Whether a variable under bindings is bound to nothing, and has no value.
fn is_free(ctx: &Ctx, bindings: &Bindings, i: u32) -> bool
    ensures shown { IsTrue result → length bindings.now.items ≤ i }
    ensures is { IsTrue result → value_at (values ctx.now) (i - length bindings.now.items) ≡ None }
{
    match bindings.find(i) {
        Found::Past(j) => is_assumed(ctx, j),
        Found::Item(_, _) => false,
    }
}

/// Whether a constant has no body.
fn is_axiom(env: &Env, name: Name) -> bool
    ensures is { IsTrue result → body_of (kept_at env.now.declarations name) ≡ None }
{
    match env.find(name) {
        Some(Kept::Constant { body: None, .. }) => true,
        _ => false,
    }
}

/// Whether a number is at most another.
fn is_at_most(a: u32, b: u32) -> bool
    ensures is { IsTrue result → a ≤ b }
{
    a <= b
}

/// Whether a definition with so many arguments has no recursive one.
fn waits(defs: &Defs, i: u32, count: u32) -> bool
    ensures is { IsTrue result → IsWaiting (slice_get (rargs_of defs.now) i) count }
{
    match definition_at(defs, i) {
        Some(def) => is_at_most(count, def.rarg),
        None => false,
    }
}

/// Whether a number is 0.
fn is_zero(n: u32) -> bool
    ensures is { IsTrue result → n ≡ 0 }
{
    n == 0
}

/// Whether a head under bindings with so many arguments is seen to have no step.
fn is_normal_head(env: &Env, ctx: &Ctx, bindings: &Bindings, head: &Term, count: u32) -> bool
    ensures shown { IsTrue result → IsOpenIn bindings.now.items head.now }
    ensures is { IsTrue result → IsNormalHead env.now (values ctx.now) (substitute (stands bindings.now.items) head.now) count }
{
    match head.view() {
        Node::Sort(_) => true,
        Node::Prod(_, _) => true,
        Node::Ind(_) => true,
        Node::Construct(_, _) => true,
        Node::Lambda(_, _) => is_zero(count),
        Node::Rel(i) => is_free(ctx, bindings, *i),
        Node::Const(name) => is_axiom(env, *name),
        Node::Fix(defs, i) => waits(defs, *i, count),
        _ => false,
    }
}

/// Whether a term under bindings is seen to have no weak-head step: by its head, and the number of its arguments.
pub(crate) fn is_normal(env: &Env, ctx: &Ctx, bindings: &Bindings, t: &Term) -> bool
    ensures shown { IsTrue result → IsOpenIn bindings.now.items (head t.now) }
    ensures is { IsTrue result → weak_next env.now (values ctx.now) (substitute (stands bindings.now.items) t.now) ≡ None }
{
    let mut head = t;
    let mut count: u32 = 0;
    'inward: while let Node::App(function, _) = head.view() {
        if count == u32::MAX {
            return false;
        }
        head = function;
        count += 1;
    }
    is_normal_head(env, ctx, bindings, head, count)
}

/// Puts what a term under bindings is applied to behind what is there, and gives the head.
fn spine_into(t: &Term, bindings: &Bindings, out: &mut Vec<Lazy>) -> Result<Term, MakeFault>
    ensures head { IfOk result (λ h. h ≡ head t.now) }
    ensures args { IfOk result (λ _. map read out.new.items ≡ map read out.old.items ++ map (substitute (stands bindings.now.items)) (args t.now)) }
    ensures only_memory { IfErr result (λ e. e ≡ Memory) }
{
    match t.view() {
        Node::App(function, argument) => {
            let head = spine_into(function, bindings, out)?;
            let argument = Lazy::part(argument, bindings)?;
            put(out, argument)?;
            Ok(head)
        }
        _ => t.share(),
    }
}

/// A term under bindings whose head is open, as a value.
pub(crate) fn spine_value(alloc: Global, l: &Lazy) -> Result<Value, MakeFault>
    requires { IsOpenIn l.now.env.items (head l.now.term) }
    ensures term { IfOk result (λ v. term_of v ≡ read l.now) }
    ensures value { IfOk result (λ v. IsValue v) }
    ensures only_memory { IfErr result (λ e. e ≡ Memory) }
{
    let mut args = Vec::new(alloc);
    let term = spine_into(&l.term, &l.env, &mut args)?;
    let env = l.env.share()?;
    Ok(Value::applied(alloc, Lazy { term, env }, args))
}
