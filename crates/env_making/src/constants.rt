//! Constants.
ghost use Rattle.std.specs.Prelude.{◌≡◌, ◌+◌, []};
ghost use Rattle.pc_rules.specs.DirectedRun.{most_nested};
ghost use Rattle.type_infer.specs.Ready.{IsReady};
ghost use Rattle.script_making.specs.Makes.{Makes};
ghost use Rattle.env_making.specs.EnvMaking.{body_making, constant_making};

use calculus_rules::declaration::Kept;
use env_check::declarations::shared;
use pc_rules::context::Ctx;
use pc_rules::guarder::Guarder;
use pc_rules::reducer::Reducer;
use pc_rules::stop::Halt;
use pc_terms::leaf::Name;
use pc_terms::term::Term;
use script_making::draft::Draft;
use std::alloc::Global;
use type_making::typing::TypeMaker;

/// Whether a constant's body, if it has one, has the constant's type.
fn check_body<R: Reducer, G: Guarder>(
    alloc: Global,
    typer: &TypeMaker<'_, R, G>,
    ty: &Term,
    body: &Option<Term>,
    draft: &mut Draft,
) -> Result<(), Halt>
    requires nest { typer.now.maker.room + draft.old.meter.nest ≡ most_nested }
    requires ready { IsReady typer.now.maker.env.now [] }
    ensures makes { Makes (body_making typer.now.maker.env.now typer.now.maker.room ty.now body.now draft.old.meter.account) result draft.old draft.new }
{
    match body {
        None => Ok(()),
        Some(body) => {
            let none = Ctx::new();
            typer.check(alloc, &none, body, ty, draft)
        }
    }
}

/// A constant whose name is new: its type has a sort, and its body, if it has one, that type.
pub(crate) fn constant<R: Reducer, G: Guarder>(
    alloc: Global,
    typer: &TypeMaker<'_, R, G>,
    name: Name,
    ty: &Term,
    body: &Option<Term>,
    draft: &mut Draft,
) -> Result<Kept, Halt>
    requires nest { typer.now.maker.room + draft.old.meter.nest ≡ most_nested }
    requires ready { IsReady typer.now.maker.env.now [] }
    ensures makes { Makes (constant_making typer.now.maker.env.now typer.now.maker.room name ty.now body.now draft.old.meter.account) result draft.old draft.new }
{
    let none = Ctx::new();
    let _sort = typer.sort_of(alloc, &none, ty, draft)?;
    check_body(alloc, typer, ty, body, draft)?;
    let ty = ty.share()?;
    let body = shared(body)?;
    Ok(Kept::Constant { name, ty, body })
}
