//! Evaluation to a value.
ghost use Rattle.std.specs.Prelude.{◌≡◌, ℕ, IfOk};
ghost use Rattle.calculus_rules.specs.Evaluation.{Evaluates};
ghost use Rattle.pc_rules.specs.DirectedEvaluation.{evaluation};
ghost use Rattle.pc_rules.specs.DirectedLaws.{more};
ghost use Rattle.pc_rules.specs.Follows.{Follows};
ghost use Rattle.source_eval.specs.Evaluated.{evaluated, GivesTheValue, SpentIsTooMany, StuckHasNoValue};

use crate::entering::enter;
use crate::machine::{Machine, Settled};
use pc_rules::environment::Env;
use pc_rules::meter::Meter;
use pc_terms::term::{MakeFault, Term};
use std::alloc::Global;

/// Why an evaluation has no value.
#[derive(Drop)]
pub enum EvalStop {
    /// No unit is left for the next node.
    Spent,
    /// A term of the evaluation is beyond the limits of terms in memory.
    TooDeep,
    /// There is no rule for this term, which was entered.
    Stuck { term: Term },
    /// There is no memory.
    Memory,
}

impl From<MakeFault> for EvalStop {
    ghost use Rattle.std.specs.Prelude.{◌≡◌};
    ghost use Rattle.source_eval.specs.Evaluated.{eval_stop};

    ghost from_gives = { λ f s. s ≡ eval_stop f };

    fn from(f: MakeFault) -> EvalStop {
        match f {
            MakeFault::TooDeep => EvalStop::TooDeep,
            MakeFault::Memory => EvalStop::Memory,
        }
    }
}

/// The value of a term, or why there is none: the nodes of its evaluation, one after the other.
fn run(alloc: Global, env: &Env, t: &Term, m: &mut Meter) -> Result<Term, EvalStop>
    ensures follows { Follows (evaluation env.now t.now m.old.account) (evaluated result) m.old m.new }
    ensures value { IfOk result (λ v. (n : ℕ) × Evaluates env.now t.now v n × (m.old.account ≡ more n m.new.account)) }
    ensures stuck { StuckHasNoValue env.now t.now result }
{
    let mut machine = Machine::new(alloc);
    let mut next = t.share()?;
    'nodes: loop {
        if !m.tick() {
            return Err(EvalStop::Spent);
        }
        let found = enter(env, &next, machine.contracta)?;
        let settled = machine.settle(alloc, env, found)?;
        match settled {
            Settled::Enter(term) => next = term,
            Settled::Value(value) => return Ok(value),
            Settled::Stuck(term) => return Err(EvalStop::Stuck { term }),
        }
    }
}

/// The value of a closed term (PCUIC, POPL 2020, section 4: weak call-by-value evaluation), for which each node of its evaluation takes a
/// unit, when its term is entered.
///
/// `Spent` exactly where the evaluation enters more terms than units are left and `TooDeep` did not come. `Stuck` exactly where it enters
/// the kept term, for which there is no rule. `TooDeep` only where a term of the evaluation is beyond the limits of terms in memory. Over an accepted environment: where the term
/// has a value with a node for each unit at most, and what its evaluation makes is within the limits, the value is given, but for want of memory; after `Spent` each value has more
/// nodes than there were units; after `Stuck` there is no value.
pub fn eval(alloc: Global, env: &Env, t: &Term, m: &mut Meter) -> Result<Term, EvalStop>
    ensures follows { Follows (evaluation env.now t.now m.old.account) (evaluated result) m.old m.new }
    ensures value { IfOk result (λ v. (n : ℕ) × Evaluates env.now t.now v n × (m.old.account ≡ more n m.new.account)) }
    ensures complete { GivesTheValue env.now t.now m.old.account.left result }
    ensures spent { SpentIsTooMany env.now t.now m.old.account.left result }
    ensures stuck { StuckHasNoValue env.now t.now result }
{
    run(alloc, env, t, m)
}
