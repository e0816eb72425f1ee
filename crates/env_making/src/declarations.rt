//! Declarations, in their order.
ghost use Rattle.std.specs.Prelude.{◌≡◌, ◌+◌, ◌≤◌, length, [], map, IfOk, IfErr};
ghost use Rattle.calculus_rules.specs.Accepted.{IsAccepted};
ghost use Rattle.pc_rules.specs.Follows.{IsAfter};
ghost use Rattle.pc_rules.specs.DirectedRun.{most_nested};
ghost use Rattle.rule_laws.specs.Declarations.{AllGivenFormed};
ghost use Rattle.type_infer.specs.Ready.{IsReady};
ghost use Rattle.inductive_check.specs.Given.{given_of};
ghost use Rattle.script_making.specs.Makes.{Makes};
ghost use Rattle.env_making.specs.EnvMaking.{declaration_making, LeadsMaking, EndsMaking};

use crate::constants::constant;
use crate::refusal::{CertRefusal, halted_at};
use block_making::block::make_block;
use calculus_rules::declaration::Kept;
use dump_reader::declaration::RawDecl;
use env_check::declarations::check_name;
use pc_rules::broken::Place;
use pc_rules::environment::Env;
use pc_rules::guarder::Guarder;
use pc_rules::reducer::Reducer;
use pc_rules::stop::Halt;
use script_making::draft::Draft;
use script_making::maker::Maker;
use std::alloc::Global;
use type_making::typing::TypeMaker;

/// A declaration over the ones before, with the sorts of constructor arguments. `DuplicateName` where its name was declared before, and
/// else what its type and body or its block break.
fn declaration<R: Reducer, G: Guarder>(
    alloc: Global,
    typer: &TypeMaker<'_, R, G>,
    decl: &RawDecl,
    draft: &mut Draft,
) -> Result<Kept, Halt>
    requires nest { typer.now.maker.room + draft.old.meter.nest ≡ most_nested }
    requires ready { IsReady typer.now.maker.env.now [] }
    ensures makes { Makes (declaration_making typer.now.maker.env.now typer.now.maker.room (given_of decl.now) draft.old.meter.account) result draft.old draft.new }
{
    match decl {
        RawDecl::Constant { name, ty, body } => {
            check_name(typer.maker.env, *name)?;
            constant(alloc, typer, *name, ty, body, draft)
        }
        RawDecl::Block { name, .. } => {
            check_name(typer.maker.env, *name)?;
            let block = make_block(alloc, typer, decl, draft)?;
            Ok(Kept::Block(block))
        }
    }
}

/// All declarations, in their order, each over the ones before, by an environment.
pub(crate) fn declarations<'x, R: Reducer, G: Guarder>(
    alloc: Global,
    reducer: &'x R,
    guarder: &'x G,
    room: u32,
    mut env: Env,
    decls: &[RawDecl],
    draft: &mut Draft,
) -> Result<Env, CertRefusal>
    requires few { length decls.now ≤ 65536 }
    requires nest { room + draft.old.meter.nest ≡ most_nested }
    requires accepted { IsAccepted env }
    requires formed { AllGivenFormed (map given_of decls.now) }
    ensures leads_on { IfOk result (λ e. LeadsMaking room env 0 (map given_of decls.now) draft.old e (length decls.now) [] draft.new) }
    ensures halts { IfErr result (λ e. EndsMaking room env 0 (map given_of decls.now) draft.old e draft.new) }
    ensures accepted { IfOk result (λ e. IsAccepted e) }
    ensures after { IsAfter draft.old.meter draft.new.meter }
{
    for i in 0..decls.len() {
        let typer = TypeMaker {
            maker: Maker {
                reducer,
                env: &env,
                room,
            },
            guarder,
        };
        let kept = match declaration(alloc, &typer, &decls[i], draft) {
            Ok(kept) => kept,
            Err(halt) => return Err(halted_at(Place::Declaration(i as u32), halt)),
        };
        let Ok(()) = env.keep(kept) else {
            return Err(CertRefusal::Memory);
        };
    }
    Ok(env)
}
