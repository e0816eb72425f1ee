//! Weak-head normal forms of what is compared.
ghost use Rattle.std.specs.Prelude.{◌≡◌, IfOk, IsTrue, None};
ghost use Rattle.calculus_rules.specs.Context.{values};
ghost use Rattle.calculus_rules.specs.WeakHead.{WeakSteps};
ghost use Rattle.pc_rules.specs.DirectedRun.{is_beyond};
ghost use Rattle.pc_rules.specs.DirectedWeakHead.{weak_next};
ghost use Rattle.pc_rules.specs.Follows.{Follows, halted};
ghost use Rattle.reduce_machine.specs.Passed.{reduced, map_ok};
ghost use Rattle.reduce_machine.specs.Seen.{argument_term, seen_term, IsSeen};
ghost use Rattle.lazy_conversion.specs.Sound.{IsSound};
ghost use Rattle.lazy_conversion.specs.Held.{held_term, IsHeld};

use pc_rules::meter::Meter;
use pc_rules::stop::Stop;
use reduce_machine::seen::{Argument, Seen};
use reduce_machine::setting::Setting;
use reduce_machine::values::Value;
use std::alloc::Global;

/// A value that was made now, or one that was at hand.
#[derive(Drop)]
pub(crate) enum Held<'a> {
    Made(Value),
    Given(Seen<'a>),
}

impl<'a> Held<'a> {
    /// The value that is looked at.
    pub(crate) fn seen(&self) -> Seen<'_>
        requires { IsHeld self.now }
        ensures term { seen_term result ≡ held_term self.now }
        ensures seen { IsSeen result }
    {
        match self {
            Held::Made(value) => value.seen(),
            Held::Given(seen) => *seen,
        }
    }
}

/// The weak-head normal form of an argument, of which nothing is read. Each weak-head step takes a unit; a value has none.
pub(crate) fn reduce<'a>(
    alloc: Global,
    at: &Setting<'_>,
    a: Argument<'a>,
    m: &mut Meter,
) -> Result<Held<'a>, Stop>
    requires sound { IsSound at.now.env.now (values at.now.ctx.now) a }
    ensures follows { Follows (reduced at.now.env.now (values at.now.ctx.now) (argument_term a.entry) m.old.account) (halted (map_ok held_term result)) m.old m.new }
    ensures held { IfOk result IsHeld }
    ensures normal { IfOk result (λ h. weak_next at.now.env.now (values at.now.ctx.now) (held_term h) ≡ None) }
    ensures beyond { IfOk result (λ h. IsTrue (is_beyond (held_term h)) → IsTrue (reduced at.now.env.now (values at.now.ctx.now) (argument_term a.entry) m.old.account).deep) }
    ensures reached { IfOk result (λ h. WeakSteps at.now.env.now (values at.now.ctx.now) (argument_term a.entry) (held_term h)) }
{
    match a {
        Argument::Lazy(l) => {
            let l = l.share()?;
            let value = at.weak_value(alloc, l, m)?;
            Ok(Held::Made(value))
        }
        Argument::Value(seen) => Ok(Held::Given(seen)),
    }
}
