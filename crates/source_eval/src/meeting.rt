//! Values, and what waits for them.
ghost use Rattle.std.specs.Prelude.{◌≡◌, IfOk, IfErr};
ghost use Rattle.pc_terms.specs.declared.term.MakeFault.TheVariants.{TooDeep};
ghost use Rattle.pc_terms.specs.Syntax.{put, substitute};
ghost use Rattle.pc_rules.specs.DirectedEvaluation.{contracted, contracts, evaluation};
ghost use Rattle.source_eval.specs.Waiting.{meeting, branch_in, Comes, Passes};

use crate::applying::apply;
use crate::found::Found;
use crate::frames::{Frame, Since};
use pc_rules::environment::Env;
use pc_terms::term::{MakeFault, Node, Term};
use redexes::constructors::branch;
use redexes::redexes::Redex;
use std::alloc::Global;

/// What comes of a match whose scrutinee has this value.
fn choose(alloc: Global, env: &Env, around: Term, value: &Term) -> Result<Found, MakeFault>
    ensures ok { IfOk result (Comes env.now (λ u. contracts (evaluation env.now) around (branch_in env.now around value.now) u)) }
    ensures too_deep { IfErr result (λ e. e ≡ TooDeep → Passes (λ u. contracts (evaluation env.now) around (branch_in env.now around value.now) u)) }
{
    let Node::Case(m) = around.view() else {
        return Ok(Found::Stuck(around));
    };
    let m = m.get();
    let Some(redex) = branch(alloc, env, m, value)? else {
        return Ok(Found::Stuck(around));
    };
    let contractum = redex.contract(alloc)?;
    Ok(Found::Enter(contractum))
}

/// What comes of a let's body and the let's value.
fn bound(alloc: Global, env: &Env, body: Term, value: Term) -> Result<Found, MakeFault>
    ensures ok { IfOk result (Comes env.now (λ u. contracted (evaluation env.now) (substitute (put value) body) u)) }
    ensures too_deep { IfErr result (λ e. e ≡ TooDeep → Passes (λ u. contracted (evaluation env.now) (substitute (put value) body) u)) }
{
    // The environment is that of the contract alone.
    let _ = env;
    let contractum = Redex::Bound { body, value }.contract(alloc)?;
    Ok(Found::Enter(contractum))
}

/// What was entered since an application was, before which there were so many contracta, and now there are so many.
fn entered_since(before: u64, now: u64) -> Since {
    if before == now {
        return Since::Parts;
    }
    Since::Contracta
}

impl Frame {
    /// What comes of a value that is waited for, after so many contracta. `TooDeep` only where what it makes is beyond the limits of terms.
    pub(crate) fn meet(
        self,
        alloc: Global,
        env: &Env,
        value: Term,
        now: u64,
    ) -> Result<Found, MakeFault>
        ensures ok { IfOk result (Comes env.now (λ u. meeting env.now self value u)) }
        ensures too_deep { IfErr result (λ e. e ≡ TooDeep → Passes (λ u. meeting env.now self value u)) }
    {
        match self {
            Frame::Body(body) => bound(alloc, env, body, value),
            Frame::Argument {
                application,
                argument,
                contracta,
            } => Ok(Found::Inward {
                frame: Frame::Function {
                    application,
                    function: value,
                    contracta,
                },
                term: argument,
            }),
            Frame::Function {
                application,
                function,
                contracta,
            } => {
                let since = entered_since(contracta, now);
                apply(alloc, env, application, function, value, since)
            }
            Frame::Scrutinee(around) => choose(alloc, env, around, &value),
        }
    }
}
