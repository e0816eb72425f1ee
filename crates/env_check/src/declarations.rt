//! Declarations, in their order.
ghost use Rattle.std.specs.Prelude.{◌≡◌, ◌≤◌, ◌-◌, length, [], map, IfOk, IfErr};
ghost use Rattle.pc_terms.specs.Syntax.{Term as Main};
ghost use Rattle.pc_terms.specs.declared.term.MakeFault.TheVariants.{Memory};
ghost use Rattle.pc_rules.specs.declared.meter.Account.{Account};
ghost use Rattle.pc_rules.specs.Lookup.{IsNew};
ghost use Rattle.calculus_rules.specs.Accepted.{IsAccepted, BodyFits};
ghost use Rattle.pc_rules.specs.Entailment.{test_of};
ghost use Rattle.pc_rules.specs.Follows.{Follows, Answers as AnswersRun, IsAfter};
ghost use Rattle.calculus_rules.specs.Lookups.{kept_at};
ghost use Rattle.pc_rules.specs.DirectedDeclarations.{fresh_name, constant_rule, declaration_rule, GivenConstant};
ghost use Rattle.pc_rules.specs.DirectedRun.{most_nested};
ghost use Rattle.rule_laws.specs.Declarations.{IsCheckedDeclaration};
ghost use Rattle.inductive_check.specs.Given.{given_of};
ghost use Rattle.env_check.specs.Places.{StandsAt};
ghost use Rattle.env_check.specs.Steps.{HasChecked, RefusesDeclarations, body_within};

use crate::refusal::{Refusal, refusal_at};
use calculus_rules::declaration::Kept;
use dump_reader::declaration::RawDecl;
use inductive_check::block::check_block;
use pc_rules::broken::{Broken, Place};
use pc_rules::context::Ctx;
use pc_rules::environment::Env;
use pc_rules::meter::Meter;
use pc_rules::reducer::Reducer;
use pc_rules::stop::Halt;
use pc_rules::typer::Typer;
use pc_terms::leaf::Name;
use pc_terms::term::{MakeFault, Term};
use std::alloc::Global;

/// Whether nothing is kept by a name. `DuplicateName` where something is. Takes no memory.
pub fn check_name(env: &Env, name: Name) -> Result<(), Halt>
    ensures answers { (u : Account) → AnswersRun (fresh_name (kept_at env.now.declarations name) name u) result u }
    ensures new { IfOk result (λ _. IsNew env.now name) }
{
    match env.find(name) {
        None => Ok(()),
        Some(_) => Err(Halt::Broken(Broken::DuplicateName { name: name.0 })),
    }
}

/// Whether a constant's body, if it has one, has the constant's type.
fn check_body<T: Typer>(
    alloc: Global,
    typer: &T,
    env: &Env,
    ty: &Term,
    body: &Option<Term>,
    m: &mut Meter,
) -> Result<(), Halt>
    requires accepted { IsAccepted env.now }
    ensures follows { Follows (body_within env.now (most_nested - m.old.nest) ty.now body.now m.old.account) result m.old m.new }
    ensures fits { IfOk result (λ _. BodyFits env.now ty.now body.now) }
{
    match body {
        None => Ok(()),
        Some(body) => typer.check(alloc, env, &Ctx::new(), body, ty, m),
    }
}

/// The same body, shared with this one. Only `Memory`.
pub fn shared(body: &Option<Term>) -> Result<Option<Term>, MakeFault>
    ensures same { IfOk result (λ b. b ≡ body.now) }
    ensures only_memory { IfErr result (λ e. e ≡ Memory) }
{
    match body {
        None => Ok(None),
        Some(body) => Ok(Some(body.share()?)),
    }
}

/// A constant whose name is new: its type has a sort, and its body, if it has one, that type.
fn check_constant<T: Typer>(
    alloc: Global,
    typer: &T,
    env: &Env,
    name: Name,
    ty: &Term,
    body: &Option<Term>,
    m: &mut Meter,
) -> Result<Kept, Halt>
    requires accepted { IsAccepted env.now }
    requires new { IsNew env.now name }
    ensures follows { Follows (constant_rule env.now (test_of env.now) (most_nested - m.old.nest) name ty.now body.now m.old.account) result m.old m.new }
    ensures checked { IfOk result (IsCheckedDeclaration env.now.levels env.now.constraints env.now.declarations (GivenConstant name ty.now body.now)) }
{
    typer.sort_of(alloc, env, &Ctx::new(), ty, m)?;
    check_body(alloc, typer, env, ty, body, m)?;
    let ty = ty.share()?;
    let body = shared(body)?;
    Ok(Kept::Constant { name, ty, body })
}

/// A declaration over the ones before, with the sorts of constructor arguments. `DuplicateName` where its name was declared before, and
/// else what its type and body or its block break.
fn check_declaration<T: Typer, R: Reducer>(
    alloc: Global,
    typer: &T,
    reducer: &R,
    env: &Env,
    decl: &RawDecl,
    m: &mut Meter,
) -> Result<Kept, Halt>
    requires accepted { IsAccepted env.now }
    ensures follows { Follows (declaration_rule env.now (test_of env.now) (most_nested - m.old.nest) (given_of decl.now) m.old.account) result m.old m.new }
    ensures checked { IfOk result (IsCheckedDeclaration env.now.levels env.now.constraints env.now.declarations (given_of decl.now)) }
{
    match decl {
        RawDecl::Constant { name, ty, body } => {
            check_name(env, *name)?;
            check_constant(alloc, typer, env, *name, ty, body, m)
        }
        RawDecl::Block { name, .. } => {
            check_name(env, *name)?;
            let block = check_block(alloc, typer, reducer, env, decl, m)?;
            Ok(Kept::Block(block))
        }
    }
}

/// All declarations, in their order, each over the ones before, by an environment without declarations.
pub(crate) fn check_declarations<T: Typer, R: Reducer>(
    alloc: Global,
    typer: &T,
    reducer: &R,
    mut env: Env,
    decls: &[RawDecl],
    m: &mut Meter,
) -> Result<Env, Refusal>
    requires few { length decls.now ≤ 65536 }
    requires accepted { IsAccepted env }
    requires empty { env.declarations ≡ [] }
    ensures checked { IfOk result (λ e. HasChecked env (most_nested - m.old.nest) (map given_of decls.now) m.old.account (length decls.now) e m.new.account) }
    ensures refused { IfErr result (λ e. RefusesDeclarations env (most_nested - m.old.nest) (map given_of decls.now) m.old.account e m.new.account) }
    ensures placed { IfErr result (λ e. (main : Main) → StandsAt env (most_nested - m.old.nest) (map given_of decls.now) main m.old.account e) }
    ensures after { IsAfter m.old m.new }
{
    for (i, decl) in decls.iter().enumerate() {
        let before = m.account;
        let kept = match check_declaration(alloc, typer, reducer, &env, decl, m) {
            Ok(kept) => kept,
            Err(halt) => return Err(refusal_at(Place::Declaration(i as u32), before, halt)),
        };
        let Ok(()) = env.keep(kept) else {
            return Err(Refusal::Memory);
        };
    }
    Ok(env)
}
