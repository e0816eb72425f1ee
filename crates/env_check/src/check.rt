//! The check of a whole environment.
ghost use Rattle.std.specs.Prelude.{◌≡◌, ◌-◌, [], IfErr, IfOk};
ghost use Rattle.dump_reader.specs.Spelled.{IsSpelled};
ghost use Rattle.calculus_rules.specs.Accepted.{IsAccepted};
ghost use Rattle.pc_rules.specs.Entailment.{test_of};
ghost use Rattle.pc_rules.specs.Follows.{IsAfter};
ghost use Rattle.calculus_rules.specs.Typing.{Types, guarded};
ghost use Rattle.pc_rules.specs.DirectedDeclarations.{main_rule};
ghost use Rattle.pc_rules.specs.DirectedRun.{most_nested};
ghost use Rattle.rule_laws.specs.Declarations.{IsCheckedEnvironment};
ghost use Rattle.env_check.specs.Rules.{givens};
ghost use Rattle.env_check.specs.Places.{StandsAt, StandsInMain, bare};
ghost use Rattle.env_check.specs.Answers.{CheckAnswers, FollowsRules};

use crate::beginning::bare_env;
use crate::declarations::check_declarations;
use crate::refusal::{Refusal, refusal_at};
use dump_reader::environment::RawEnv;
use guard_check::guard::Guard;
use lazy_conversion::comparison::LazyCompare;
use pc_rules::accepted::Accepted;
use pc_rules::broken::Place;
use pc_rules::context::Ctx;
use pc_rules::environment::Env;
use pc_rules::meter::Meter;
use pc_rules::reducer::Reducer;
use pc_rules::typer::Typer;
use pc_terms::term::Term;
use std::alloc::Global;
use type_infer::inference::Inference;

/// The environment with its main term, of which a type is inferred.
fn check_main<T: Typer>(
    alloc: Global,
    typer: &T,
    env: Env,
    main: &Term,
    m: &mut Meter,
) -> Result<Accepted, Refusal>
    requires accepted { IsAccepted env }
    ensures answers { CheckAnswers (main_rule env (test_of env) (most_nested - m.old.nest) main.now m.old.account) result m.new.account }
    ensures after { IsAfter m.old m.new }
    ensures env { IfOk result (λ a. a.env ≡ env) }
    ensures main { IfOk result (λ a. a.main ≡ main.now) }
    ensures typed { IfOk result (λ a. Types guarded env [] main.now a.main_type) }
    ensures placed { IfErr result (StandsInMain env (most_nested - m.old.nest) main.now m.old.account) }
{
    let before = m.account;
    let main_type = match typer.infer(alloc, &env, &Ctx::new(), main, m) {
        Ok(main_type) => main_type,
        Err(halt) => return Err(refusal_at(Place::Main, before, halt)),
    };
    let Ok(main) = main.share() else {
        return Err(Refusal::Memory);
    };
    Ok(Accepted {
        env,
        main,
        main_type,
    })
}

/// Checks an environment that some text spells within the limits, and gives it with the sorts of its constructors' arguments, its main term
/// and a type of that (PCUIC, Sozeau et al., "Coq Coq Correct!", POPL 2020, section 2.3: well-formed global environments).
///
/// The rules are done in this order, and the first broken one is the answer, with its place: `DuplicateName` at a level that was listed
/// before; `LevelUndeclared` at a constraint with a level that is not declared; `UniverseCycle` at the first of some constraints, by their
/// places in rising order, that alone have no valuation; then each declaration in order, with `DuplicateName` where its name was declared
/// before, and else with what its type and body or its block break; and main. Places are counted from 0. `Spent` exactly where the rules
/// have no end within the units left and `TooDeep` did not come. `TooDeep` only where they pass a limit. Both tell the place where they came,
/// and `Spent` the account with which the rules came there. The environment that is read stays as it is.
///
/// `reducer` gives the weak-head normal forms that inference and the guard look at. Comparisons reduce by closures of their own, whatever
/// it is. By the contract of a reducer no answer depends on which it is.
pub fn check_env<R: Reducer>(
    alloc: Global,
    reducer: &R,
    raw: &RawEnv,
    m: &mut Meter,
) -> Result<Accepted, Refusal>
    requires spelled { IsSpelled raw.now }
    ensures follows { FollowsRules raw.now result m.old m.new }
    ensures after { IsAfter m.old m.new }
    ensures placed { IfErr result (StandsAt (bare raw.now) (most_nested - m.old.nest) (givens raw.now) raw.now.main m.old.account) }
    ensures main { IfOk result (λ a. a.main ≡ raw.now.main) }
    ensures well_formed { IfOk result (λ a. IsCheckedEnvironment raw.now.levels raw.now.constraints (givens raw.now) raw.now.main a.env a.main_type) }
{
    let bare = bare_env(alloc, raw)?;
    let typer = Inference::new(reducer, LazyCompare, Guard::new(reducer));
    let env = check_declarations(alloc, &typer, reducer, bare, raw.decls.as_slice(), m)?;
    check_main(alloc, &typer, env, &raw.main, m)
}
