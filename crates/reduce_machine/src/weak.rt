//! Weak-head normal forms of terms under bindings, of which nothing is read.
ghost use Rattle.std.specs.Prelude.{ℕ, ◌≡◌, ◌+◌, ◌<◌, ◌≤◌, IsTrue, IfOk, IfErr, None};
ghost use Rattle.calculus_rules.specs.Context.{Values, values};
ghost use Rattle.calculus_rules.specs.Environment.{Env};
ghost use Rattle.pc_rules.specs.declared.stop.Stop.TheVariants.{Spent};
ghost use Rattle.calculus_rules.specs.WeakHead.{WeakSteps};
ghost use Rattle.pc_rules.specs.DirectedRun.{ticked, is_beyond};
ghost use Rattle.pc_rules.specs.DirectedWeakHead.{weak_next};
ghost use Rattle.pc_rules.specs.Follows.{Follows, halted};
ghost use Rattle.reduce_machine.specs.Reducts.{ticks, AreReducts, AreWaiting, IsReady};
ghost use Rattle.reduce_machine.specs.Layered.{plug};
ghost use Rattle.reduce_machine.specs.Layers.{layers};
ghost use Rattle.reduce_machine.specs.Passed.{reduced, map_ok};
ghost use Rattle.reduce_machine.specs.Payment.{HasNoResult};
ghost use Rattle.reduce_machine.specs.Reads.{read};
ghost use Rattle.reduce_machine.specs.Sought.{whole, AreSound};
ghost use Rattle.reduce_machine.specs.Steps.{contractum, IsStepNode};
ghost use Rattle.reduce_machine.specs.Values.{term_of, IsValue};

use crate::bindings::Lazy;
use crate::machine::{Machine, Sought};
use crate::reducts::{Known, Reducts};
use crate::steps::Step;
use crate::values::Value;
use pc_rules::context::Ctx;
use pc_rules::environment::Env;
use pc_rules::meter::Meter;
use pc_rules::stop::Stop;
use std::alloc::Global;

/// Takes a step. A unit is taken before its result is made.
fn paid(alloc: Global, machine: &mut Machine, step: Step, m: &mut Meter) -> Result<(), Stop>
    requires sound { AreSound machine.old.frames.items }
    requires node { IsStepNode step }
    ensures ok { IfOk result (λ _. whole machine.new ≡ plug (layers machine.old.frames.items) (contractum step)) }
    ensures waiting { IfOk result (λ _. (E : Env) (V : Values) (u : ℕ) → AreWaiting E V u machine.old.frames.items (contractum step) → AreWaiting E V u machine.new.frames.items (read machine.new.focus)) }
    ensures sound { IfOk result (λ _. AreSound machine.new.frames.items) }
    ensures unit { IfOk result (λ _. 0 < m.old.account.left) }
    ensures none { IfErr result (HasNoResult step m.old.account) }
    ensures account { m.new.account ≡ ticked m.old.account }
    ensures nest { m.new.nest ≡ m.old.nest }
{
    if !m.tick() {
        return Err(Stop::Spent);
    }
    machine.take(alloc, step)?;
    Ok(())
}

/// Takes the units of what is known of the focus, which is then the focus.
fn charged(machine: &mut Machine, known: Known, m: &mut Meter) -> Result<(), Stop>
    ensures focus { IfOk result (λ _. machine.new.focus ≡ known.term) }
    ensures frames { machine.new.frames ≡ machine.old.frames }
    ensures ok { IfOk result (λ _. (known.units ≤ m.old.account.left) × (m.new.account ≡ ticks known.units m.old.account)) }
    ensures none { IfErr result (λ e. (e ≡ Spent) × (m.old.account.left < known.units) × (m.new.account ≡ ticks (m.old.account.left + 1) m.old.account)) }
    ensures nest { m.new.nest ≡ m.old.nest }
{
    take_units(known.units, m)?;
    machine.focus = known.term;
    Ok(())
}

/// Takes so many units, one after the other; `Spent` where there are not so many, and then none is left.
fn take_units(units: u64, m: &mut Meter) -> Result<(), Stop>
    ensures ok { IfOk result (λ _. (units ≤ m.old.account.left) × (m.new.account ≡ ticks units m.old.account)) }
    ensures none { IfErr result (λ e. (e ≡ Spent) × (m.old.account.left < units) × (m.new.account ≡ ticks (m.old.account.left + 1) m.old.account)) }
    ensures nest { m.new.nest ≡ m.old.nest }
{
    let mut left = units;
    'units: while left > 0 {
        let taken = m.tick();
        if !taken {
            return Err(Stop::Spent);
        }
        left -= 1;
    }
    Ok(())
}

/// The weak-head normal form of a term under bindings, by the machine, with a table.
pub(crate) fn value_with(
    alloc: Global,
    env: &Env,
    ctx: &Ctx,
    term: Lazy,
    kept: &mut Reducts,
    m: &mut Meter,
) -> Result<Value, Stop>
    requires ready { IsReady kept.old }
    requires reducts { AreReducts env.now (values ctx.now) kept.old.entries.items }
    ensures ready { IfOk result (λ _. IsReady kept.new) }
    ensures reducts { IfOk result (λ _. AreReducts env.now (values ctx.now) kept.new.entries.items) }
    ensures follows { Follows (reduced env.now (values ctx.now) (read term) m.old.account) (halted (map_ok term_of result)) m.old m.new }
    ensures value { IfOk result (λ v. IsValue v) }
    ensures normal { IfOk result (λ v. weak_next env.now (values ctx.now) (term_of v) ≡ None) }
    ensures beyond { IfOk result (λ v. IsTrue (is_beyond (term_of v)) → IsTrue (reduced env.now (values ctx.now) (read term) m.old.account).deep) }
    ensures reached { IfOk result (λ v. WeakSteps env.now (values ctx.now) (read term) (term_of v)) }
{
    let mut machine = Machine::of(alloc, term);
    'steps: loop {
        let now = m.left();
        kept.left = now;
        let sought = machine.seek(alloc, env, ctx, kept)?;
        match sought {
            Sought::Step(step) => {
                paid(alloc, &mut machine, step, m)?;
                machine.flatten(alloc)?;
            }
            Sought::Known(known) => charged(&mut machine, known, m)?,
            Sought::Value(value) => return Ok(value),
        }
    }
}

/// The weak-head normal form of a term under bindings, by the machine.
pub(crate) fn reduced_value(
    alloc: Global,
    env: &Env,
    ctx: &Ctx,
    term: Lazy,
    m: &mut Meter,
) -> Result<Value, Stop>
    ensures follows { Follows (reduced env.now (values ctx.now) (read term) m.old.account) (halted (map_ok term_of result)) m.old m.new }
    ensures value { IfOk result (λ v. IsValue v) }
    ensures normal { IfOk result (λ v. weak_next env.now (values ctx.now) (term_of v) ≡ None) }
    ensures beyond { IfOk result (λ v. IsTrue (is_beyond (term_of v)) → IsTrue (reduced env.now (values ctx.now) (read term) m.old.account).deep) }
    ensures reached { IfOk result (λ v. WeakSteps env.now (values ctx.now) (read term) (term_of v)) }
{
    let units = m.left();
    let mut kept = Reducts::new(alloc, units)?;
    value_with(alloc, env, ctx, term, &mut kept, m)
}
