//! The constructors of a block's families, over the environment that knows the families by their types alone.
ghost use Rattle.std.specs.Prelude.{◌≡◌, ◌+◌, map};
ghost use Rattle.universe_levels.specs.Consistency.{IsSortOver};
ghost use Rattle.calculus_rules.specs.Environment.{head_of};
ghost use Rattle.pc_rules.specs.Follows.{IsAfter};
ghost use Rattle.pc_rules.specs.WellCounted.{AreCountedFamilies};
ghost use Rattle.pc_rules.specs.DirectedRun.{most_nested};
ghost use Rattle.type_infer.specs.Ready.{IsReady};
ghost use Rattle.inductive_check.specs.Given.{ctor_of, family_of};
ghost use Rattle.block_making.specs.BlockMakes.{MakesCtor, MakesCtors, MakesFamilies};

use crate::arguments::arguments;
use calculus_rules::declaration::{Constructor, Constructors, Families};
use dump_reader::declaration::{RawCtor, RawFamilies, RawFamily};
use inductive_check::arguments::CtorPlace;
use inductive_check::constructors::{names_none, with_constructors, with_sorts};
use inductive_check::listing::{number, push};
use pc_rules::context::Ctx;
use pc_rules::guarder::Guarder;
use pc_rules::reducer::Reducer;
use pc_rules::stop::Halt;
use pc_terms::leaf::Name;
use script_making::draft::Draft;
use std::alloc::Global;
use type_infer::counts::counted;
use type_making::typing::TypeMaker;

/// A constructor of the block, which stands at a place in it, in a family; the block's parameters are the context `ctx`. The refusals of its
/// arguments in turn, then `CountWrong` for its result terms, then the refusals of `TypeMaker::check` for these, then `NotPositive` where one of
/// them names the block.
#[tactic(auto, using(inductive_check::proofs::Leading::after_laws))]
fn constructor<R: Reducer, G: Guarder>(
    alloc: Global,
    typer: &TypeMaker<'_, R, G>,
    ctx: &Ctx,
    block: Name,
    at: CtorPlace,
    family: &RawFamily,
    ctor: &RawCtor,
    draft: &mut Draft,
) -> Result<Constructor, Halt>
    requires nest { typer.now.maker.room + draft.old.meter.nest ≡ most_nested }
    requires ready { IsReady typer.now.maker.env.now ctx.now }
    requires sort { IsSortOver typer.now.maker.env.now.levels family.now.sort }
    ensures makes { MakesCtor typer.now.maker.env.now typer.now.maker.room ctx.now block (family_of family.now) at.family at.ctor (ctor_of ctor.now) result draft.old draft.new }
    ensures after { IsAfter draft.old.meter draft.new.meter }
{
    let mut inner = ctx.share()?;
    let sorts = arguments(
        alloc,
        typer,
        &mut inner,
        block,
        at,
        &family.sort,
        &ctor.args,
        draft,
    )?;
    counted(family.indices.len(), ctor.result.len())?;
    let args = number(ctor.args.len())?;
    typer.check_all(alloc, &inner, args, &ctor.result, &family.indices, draft)?;
    names_none(block, at, &ctor.result)?;
    Ok(with_sorts(alloc, ctor, sorts)?)
}

/// The constructors of family number `place` in turn.
#[tactic(auto, using(inductive_check::proofs::Leading::after_laws))]
fn constructors<R: Reducer, G: Guarder>(
    alloc: Global,
    typer: &TypeMaker<'_, R, G>,
    ctx: &Ctx,
    block: Name,
    place: u32,
    family: &RawFamily,
    draft: &mut Draft,
) -> Result<Constructors, Halt>
    requires nest { typer.now.maker.room + draft.old.meter.nest ≡ most_nested }
    requires ready { IsReady typer.now.maker.env.now ctx.now }
    requires sort { IsSortOver typer.now.maker.env.now.levels family.now.sort }
    ensures makes { MakesCtors typer.now.maker.env.now typer.now.maker.room ctx.now block (family_of family.now) place result draft.old draft.new }
    ensures after { IsAfter draft.old.meter draft.new.meter }
{
    let mut out = Vec::new(alloc);
    let items = family.ctors.as_slice();
    for i in 0..items.len() {
        let at = CtorPlace {
            family: place,
            ctor: number(i)?,
        };
        let ctor = constructor(alloc, typer, ctx, block, at, family, &items[i], draft)?;
        push(&mut out, ctor)?;
    }
    Ok(Constructors::of(out))
}

/// The constructors of the block's families in turn. Gives the families with the sorts of the constructors' arguments.
#[tactic(auto, using(inductive_check::proofs::Leading::after_laws))]
pub(crate) fn families<R: Reducer, G: Guarder>(
    alloc: Global,
    typer: &TypeMaker<'_, R, G>,
    ctx: &Ctx,
    block: Name,
    families: &RawFamilies,
    draft: &mut Draft,
) -> Result<Families, Halt>
    requires nest { typer.now.maker.room + draft.old.meter.nest ≡ most_nested }
    requires ready { IsReady typer.now.maker.env.now ctx.now }
    requires heads { AreCountedFamilies typer.now.maker.env.now (map head_of (map family_of families.now)) }
    ensures makes { MakesFamilies typer.now.maker.env.now typer.now.maker.room ctx.now block (map family_of families.now) result draft.old draft.new }
    ensures after { IsAfter draft.old.meter draft.new.meter }
{
    let mut out = Vec::new(alloc);
    let items = families.as_slice();
    for i in 0..items.len() {
        let family = &items[i];
        let ctors = constructors(alloc, typer, ctx, block, number(i)?, family, draft)?;
        push(&mut out, with_constructors(alloc, family, ctors)?)?;
    }
    Ok(Families::of(out))
}
