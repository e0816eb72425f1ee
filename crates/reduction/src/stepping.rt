//! One weak-head step, and the whole term after it.
ghost use Rattle.std.specs.Prelude.{◌≡◌, IfOk, IfErr};
ghost use Rattle.trees.specs.Measures.{IsBeyond};
ghost use Rattle.pc_terms.specs.declared.term.MakeFault.TheVariants.{TooDeep};
ghost use Rattle.calculus_rules.specs.Context.{values};
ghost use Rattle.pc_rules.specs.DirectedWeakHead.{weak_next};
ghost use Rattle.reduction.specs.Frames.{around, AreFrames, IsFrame};
ghost use Rattle.reduction.specs.Sought.{whole};
ghost use Rattle.reduction.specs.Single.{PassesLimit};

use crate::frames::Frame;
use crate::machine::Machine;
use crate::meeting::rebuilt;
use pc_rules::context::Ctx;
use pc_rules::environment::Env;
use pc_rules::stop::Stop;
use pc_terms::term::{MakeFault, Node, Term};
use std::alloc::Global;

/// A term in a frame.
fn wrapped(alloc: Global, frame: Frame, inner: Term) -> Result<Term, MakeFault>
    requires { IsFrame frame }
    ensures ok { IfOk result (λ t. t ≡ around frame inner) }
    ensures too_deep { IfErr result (λ e. e ≡ TooDeep → IsBeyond (around frame inner)) }
{
    match frame {
        Frame::Argument(argument) => Term::make(alloc, Node::App(inner, argument)),
        Frame::Scrutinee(around) => {
            let Node::Case(m) = around.view() else {
                unreachable!()
            };
            let m = m.get();
            rebuilt(alloc, m, inner)
        }
        Frame::Recursive(function) => Term::make(alloc, Node::App(function, inner)),
    }
}

/// The whole term, put together again.
fn closed(alloc: Global, machine: Machine) -> Result<Term, MakeFault>
    requires { AreFrames machine.frames.items }
    ensures ok { IfOk result (λ t. t ≡ whole machine) }
    ensures too_deep { IfErr result (λ e. e ≡ TooDeep → IsBeyond (whole machine)) }
{
    let mut machine = machine;
    'outward: while let Some(frame) = machine.pop() {
        let inner = machine.focus.share()?;
        let wider = wrapped(alloc, frame, inner)?;
        machine.focus = wider;
    }
    Ok(machine.focus)
}

/// The term after one weak-head step; none exactly where there is none. `TooDeep` only where the next term is beyond the limits of terms in
/// memory. It takes no unit: that is the caller's.
pub fn one_step(alloc: Global, env: &Env, ctx: &Ctx, t: &Term) -> Result<Option<Term>, Stop>
    ensures next { IfOk result (λ o. weak_next env.now (values ctx.now) t.now ≡ o) }
    ensures stops { IfErr result (PassesLimit (weak_next env.now (values ctx.now) t.now)) }
{
    let start = t.share()?;
    let mut machine = Machine::of(alloc, start);
    let Some(redex) = machine.seek(alloc, env, ctx)? else {
        return Ok(None);
    };
    let next = redex.contract(alloc)?;
    machine.focus = next;
    let term = closed(alloc, machine)?;
    Ok(Some(term))
}
