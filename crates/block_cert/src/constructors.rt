//! The constructors of a block's families, over the environment that knows the families by their types alone.
ghost use Rattle.std.specs.Prelude.{◌≡◌, ◌+◌, [], map, IfOk};
ghost use Rattle.universe_levels.specs.Consistency.{IsSortOver};
ghost use Rattle.calculus_rules.specs.declared.declaration.Block.{Block};
ghost use Rattle.calculus_rules.specs.Context.{extend};
ghost use Rattle.calculus_rules.specs.Environment.{head_of};
ghost use Rattle.pc_rules.specs.Follows.{IsAfter};
ghost use Rattle.pc_rules.specs.WellCounted.{AreCounted, AreCountedFamilies};
ghost use Rattle.pc_rules.specs.DirectedRun.{most_nested};
ghost use Rattle.rule_laws.specs.Declarations.{ConstructorsFormed, FamiliesFormed};
ghost use Rattle.type_infer.specs.Ready.{IsReady};
ghost use Rattle.inductive_check.specs.Given.{ctor_of, family_of};
ghost use Rattle.type_cert.specs.Retraces.{Retraces, stand};
ghost use Rattle.block_cert.specs.BlockWalks.{ctor_walk, family_walk, families_walk};

use crate::arguments::arguments;
use calculus_rules::declaration::{Constructor, Constructors, Families};
use dump_reader::declaration::{RawCtor, RawFamilies, RawFamily};
use inductive_check::constructors::{with_constructors, with_sorts};
use inductive_check::listing::{number, push};
use pc_rules::context::Ctx;
use pc_rules::guarder::Guarder;
use std::alloc::Global;
use type_cert::halt::{WalkHalt, at_item};
use type_cert::trail::Trail;
use type_cert::typing::TypeWalk;
use type_infer::counts::counted;

/// A constructor in a family, whose block's parameters are the context `ctx`: its arguments have sorts that the family's allows, and it has
/// a result term for each index, each of that index's type.
#[tactic(auto, using(inductive_check::proofs::Leading::after_laws))]
fn constructor<G: Guarder>(
    alloc: Global,
    walk: &TypeWalk<'_, G>,
    ctx: &Ctx,
    family: &RawFamily,
    ctor: &RawCtor,
    trail: &mut Trail,
) -> Result<Constructor, WalkHalt>
    requires nest { walk.now.verifier.room + trail.old.meter.nest ≡ most_nested }
    requires ready { IsReady walk.now.verifier.env.now ctx.now }
    requires sort { IsSortOver walk.now.verifier.env.now.levels family.now.sort }
    ensures retraces { (B : Block) → extend [] B.params ≡ ctx.now → Retraces (ctor_walk walk.now.verifier B (family_of family.now) (ctor_of ctor.now) (stand trail.old)) result trail.old trail.new }
    ensures after { IsAfter trail.old.meter trail.new.meter }
    ensures counted { IfOk result (λ _. AreCounted walk.now.verifier.env.now ctor.now.args × AreCounted walk.now.verifier.env.now ctor.now.result) }
{
    let mut inner = ctx.share()?;
    let sorts = arguments(alloc, walk, &mut inner, &family.sort, &ctor.args, trail)?;
    at_item(trail.at, counted(family.indices.len(), ctor.result.len()))?;
    let args = number(ctor.args.len())?;
    walk.check_all(alloc, &inner, args, &ctor.result, &family.indices, trail)?;
    Ok(with_sorts(alloc, ctor, sorts)?)
}

/// The constructors of a family in turn.
#[tactic(auto, using(inductive_check::proofs::Leading::after_laws))]
fn constructors<G: Guarder>(
    alloc: Global,
    walk: &TypeWalk<'_, G>,
    ctx: &Ctx,
    family: &RawFamily,
    trail: &mut Trail,
) -> Result<Constructors, WalkHalt>
    requires nest { walk.now.verifier.room + trail.old.meter.nest ≡ most_nested }
    requires ready { IsReady walk.now.verifier.env.now ctx.now }
    requires sort { IsSortOver walk.now.verifier.env.now.levels family.now.sort }
    ensures retraces { (B : Block) → extend [] B.params ≡ ctx.now → Retraces (family_walk walk.now.verifier B (family_of family.now) (stand trail.old)) result trail.old trail.new }
    ensures after { IsAfter trail.old.meter trail.new.meter }
    ensures formed { IfOk result (λ _. ConstructorsFormed (map ctor_of family.now.ctors)) }
{
    let mut out = Vec::new(alloc);
    let items = family.ctors.as_slice();
    for i in 0..items.len() {
        let ctor = constructor(alloc, walk, ctx, family, &items[i], trail)?;
        push(&mut out, ctor)?;
    }
    Ok(Constructors::of(out))
}

/// The constructors of the block's families in turn. Gives the families with the sorts of the constructors' arguments.
#[tactic(auto, using(inductive_check::proofs::Leading::after_laws))]
pub(crate) fn families<G: Guarder>(
    alloc: Global,
    walk: &TypeWalk<'_, G>,
    ctx: &Ctx,
    families: &RawFamilies,
    trail: &mut Trail,
) -> Result<Families, WalkHalt>
    requires nest { walk.now.verifier.room + trail.old.meter.nest ≡ most_nested }
    requires ready { IsReady walk.now.verifier.env.now ctx.now }
    requires heads { AreCountedFamilies walk.now.verifier.env.now (map head_of (map family_of families.now)) }
    ensures retraces { (B : Block) → extend [] B.params ≡ ctx.now → Retraces (families_walk walk.now.verifier B (map family_of families.now) (stand trail.old)) result trail.old trail.new }
    ensures after { IsAfter trail.old.meter trail.new.meter }
    ensures formed { IfOk result (λ _. FamiliesFormed (map family_of families.now)) }
{
    let mut out = Vec::new(alloc);
    let items = families.as_slice();
    for i in 0..items.len() {
        let family = &items[i];
        let ctors = constructors(alloc, walk, ctx, family, trail)?;
        push(&mut out, with_constructors(alloc, family, ctors)?)?;
    }
    Ok(Families::of(out))
}
