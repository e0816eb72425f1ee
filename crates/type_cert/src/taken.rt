//! Steps of what a script compares, which lead to values of which nothing is read.
ghost use Rattle.std.specs.Prelude.{ℕ, ◌≡◌, ◌<◌, ◌≤◌, Some, IfSome};
ghost use Rattle.calculus_rules.specs.Context.{values};
ghost use Rattle.pc_rules.specs.declared.meter.Account.{Account};
ghost use Rattle.cert_rules.specs.Walk.{Passed};
ghost use Rattle.cert_rules.specs.WalkSteps.{walk_steps};
ghost use Rattle.reduce_machine.specs.Reads.{read};
ghost use Rattle.reduce_machine.specs.Reducts.{after};
ghost use Rattle.reduce_machine.specs.Seen.{argument_term, seen_term, IsSeen};
ghost use Rattle.reduce_machine.specs.Values.{term_of, IsValue};
ghost use Rattle.lazy_conversion.specs.Sound.{IsSeenArgument};
ghost use Rattle.type_cert.specs.Passes.{paced};
ghost use Rattle.type_cert.specs.Taken.{taken_term, IsTaken};

use crate::pace::Pace;
use pc_rules::context::Ctx;
use pc_rules::environment::Env;
use pc_rules::meter::Meter;
use reduce_machine::bindings::Lazy;
use reduce_machine::seen::{Argument, Seen};
use reduce_machine::setting::{Setting, TableCell};
use reduce_machine::values::Value;
use std::alloc::Global;

/// A value that was made now, or one that was at hand.
#[derive(Drop)]
pub(crate) enum Taken<'a> {
    Made(Value),
    Given(Seen<'a>),
}

impl<'a> Taken<'a> {
    /// The value that is looked at.
    pub(crate) fn seen(&self) -> Seen<'_>
        requires { IsTaken self.now }
        ensures term { seen_term result ≡ taken_term self.now }
        ensures seen { IsSeen result }
    {
        match self {
            Taken::Made(value) => value.seen(),
            Taken::Given(seen) => *seen,
        }
    }
}

/// The weak-head normal form of a term under bindings, where exactly `n` steps lead to it. None where they are more or fewer, or reduction
/// stops.
fn normal_value(alloc: Global, env: &Env, ctx: &Ctx, n: u32, l: &Lazy) -> Option<Value>
    ensures value { IfSome result (λ v. IsValue v) }
    ensures after { IfSome result (λ v. after env.now (values ctx.now) n (read l.now) ≡ Some (term_of v)) }
{
    let Ok(start) = l.share() else {
        return None;
    };
    let tables = TableCell::new();
    let at = Setting::new(env, ctx, &tables);
    let mut units = Meter::new(n as u64);
    match at.weak_value(alloc, start, &mut units) {
        Ok(value) => {
            if units.left() == 0 {
                return Some(value);
            }
            None
        }
        Err(_) => None,
    }
}

/// An argument as a value, where it has no step.
pub(crate) fn as_value<'a>(
    alloc: Global,
    env: &Env,
    ctx: &Ctx,
    a: Argument<'a>,
) -> Option<Taken<'a>>
    requires seen { IsSeenArgument a }
    ensures taken { IfSome result IsTaken }
    ensures term { IfSome result (λ h. taken_term h ≡ argument_term a.entry) }
{
    match a {
        Argument::Lazy(l) => match normal_value(alloc, env, ctx, 0, l) {
            Some(value) => Some(Taken::Made(value)),
            None => None,
        },
        Argument::Value(seen) => Some(Taken::Given(seen)),
    }
}

/// The value to which `n` steps of an argument lead, of which each takes a unit. None where they lead to none, and for no steps.
pub(crate) fn stepped_value(
    alloc: Global,
    env: &Env,
    ctx: &Ctx,
    n: u32,
    a: Argument<'_>,
    pace: &mut Pace,
) -> Option<Value>
    ensures value { IfSome result (λ v. IsValue v) }
    ensures some { IfSome result (λ _. 0 < n) }
    ensures walks { IfSome result (λ v. (item : ℕ) (u : Account) → (walk_steps env.now (values ctx.now) item n (argument_term a.entry) (paced u pace.old)).end ≡ Passed (term_of v) (paced u pace.new)) }
    ensures less { pace.new.left ≤ pace.old.left }
{
    let units = n as u64;
    let Argument::Lazy(l) = a else {
        return None;
    };
    if n == 0 || pace.left < units {
        return None;
    }
    match normal_value(alloc, env, ctx, n, l) {
        Some(value) => {
            pace.left -= units;
            Some(value)
        }
        None => None,
    }
}
