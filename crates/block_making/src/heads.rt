//! The heads of a block: what is looked at of its families before its constructors are.
ghost use Rattle.std.specs.Prelude.{◌≡◌, ◌+◌, [], ◌∷◌, map, IfOk};
ghost use Rattle.calculus_rules.specs.Context.{extend};
ghost use Rattle.calculus_rules.specs.Environment.{head_of};
ghost use Rattle.pc_rules.specs.Follows.{IsAfter};
ghost use Rattle.pc_rules.specs.WellCounted.{AreCounted, AreCountedFamilies};
ghost use Rattle.pc_rules.specs.DirectedRun.{most_nested};
ghost use Rattle.type_infer.specs.Ready.{IsReady, done_with};
ghost use Rattle.inductive_check.specs.Given.{family_of};
ghost use Rattle.block_making.specs.BlockMakes.{MakesHead, MakesHeads, MakesBlockHeads};

use dump_reader::declaration::{RawFamilies, RawFamily};
use inductive_check::levels::are_declared;
use inductive_check::names::are_distinct;
use pc_rules::context::Ctx;
use pc_rules::guarder::Guarder;
use pc_rules::reducer::Reducer;
use pc_rules::stop::Halt;
use pc_terms::lists::Telescope;
use script_making::draft::Draft;
use std::alloc::Global;
use type_making::typing::TypeMaker;

/// The head of a family, whose block's parameters are the context `ctx`: `DuplicateName` where two constructors share a name, then
/// `LevelUndeclared` in its sort, then the refusals of `TypeMaker::sort_of` for its indices.
#[tactic(auto, using(inductive_check::proofs::Leading::after_laws))]
fn head<R: Reducer, G: Guarder>(
    alloc: Global,
    typer: &TypeMaker<'_, R, G>,
    ctx: &Ctx,
    family: &RawFamily,
    draft: &mut Draft,
) -> Result<(), Halt>
    requires nest { typer.now.maker.room + draft.old.meter.nest ≡ most_nested }
    requires ready { IsReady typer.now.maker.env.now ctx.now }
    ensures makes { MakesHead typer.now.maker.env.now typer.now.maker.room ctx.now (family_of family.now) result draft.old draft.new }
    ensures after { IsAfter draft.old.meter draft.new.meter }
    ensures counted { IfOk result (λ _. AreCountedFamilies typer.now.maker.env.now (head_of (family_of family.now) ∷ [])) }
{
    are_distinct(family.ctors.as_slice())?;
    are_declared(typer.maker.env.graph().levels(), &family.sort)?;
    let _inner = typer.entered(alloc, ctx, &family.indices, draft)?;
    Ok(())
}

/// The heads of the families of a block in turn.
#[tactic(auto, using(inductive_check::proofs::Leading::after_laws))]
fn heads<R: Reducer, G: Guarder>(
    alloc: Global,
    typer: &TypeMaker<'_, R, G>,
    ctx: &Ctx,
    families: &RawFamilies,
    draft: &mut Draft,
) -> Result<(), Halt>
    requires nest { typer.now.maker.room + draft.old.meter.nest ≡ most_nested }
    requires ready { IsReady typer.now.maker.env.now ctx.now }
    ensures makes { MakesHeads typer.now.maker.env.now typer.now.maker.room ctx.now (map family_of families.now) result draft.old draft.new }
    ensures after { IsAfter draft.old.meter draft.new.meter }
    ensures counted { IfOk result (λ _. AreCountedFamilies typer.now.maker.env.now (map head_of (map family_of families.now))) }
{
    let items = families.as_slice();
    for i in 0..items.len() {
        let family = &items[i];
        head(alloc, typer, ctx, family, draft)?;
    }
    Ok(())
}

/// The parameters of a block, and then the heads of its families under them. Gives the context of the parameters.
#[tactic(auto, using(inductive_check::proofs::Leading::after_laws))]
pub(crate) fn block_heads<R: Reducer, G: Guarder>(
    alloc: Global,
    typer: &TypeMaker<'_, R, G>,
    params: &Telescope,
    families: &RawFamilies,
    draft: &mut Draft,
) -> Result<Ctx, Halt>
    requires nest { typer.now.maker.room + draft.old.meter.nest ≡ most_nested }
    requires ready { IsReady typer.now.maker.env.now [] }
    ensures makes { MakesBlockHeads typer.now.maker.env.now typer.now.maker.room params.now families.now (done_with result) draft.old draft.new }
    ensures after { IsAfter draft.old.meter draft.new.meter }
    ensures longer { IfOk result (λ d. d ≡ extend [] params.now) }
    ensures ready { IfOk result (λ d. IsReady typer.now.maker.env.now d) }
    ensures params { IfOk result (λ _. AreCounted typer.now.maker.env.now params.now) }
    ensures counted { IfOk result (λ _. AreCountedFamilies typer.now.maker.env.now (map head_of (map family_of families.now))) }
{
    let none = Ctx::new();
    let ctx = typer.entered(alloc, &none, params, draft)?;
    heads(alloc, typer, &ctx, families, draft)?;
    Ok(ctx)
}
