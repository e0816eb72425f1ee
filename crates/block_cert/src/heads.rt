//! The heads of a block: what is looked at of its families before its constructors are.
ghost use Rattle.std.specs.Prelude.{◌≡◌, ◌+◌, [], ◌∷◌, map, IfOk};
ghost use Rattle.pc_terms.specs.declared.leaf.Name.{Name};
ghost use Rattle.calculus_rules.specs.declared.declaration.Block.{Block};
ghost use Rattle.calculus_rules.specs.Context.{extend};
ghost use Rattle.calculus_rules.specs.Environment.{head_of};
ghost use Rattle.pc_rules.specs.Follows.{IsAfter};
ghost use Rattle.pc_rules.specs.WellCounted.{AreCounted, AreCountedFamilies};
ghost use Rattle.pc_rules.specs.DirectedRun.{most_nested};
ghost use Rattle.type_infer.specs.Ready.{IsReady};
ghost use Rattle.inductive_check.specs.Given.{family_of, block_from};
ghost use Rattle.type_cert.specs.Retraces.{Retraces, stand, passed_with};
ghost use Rattle.block_cert.specs.BlockWalks.{head_walk, heads_walk, block_heads_walk};

use dump_reader::declaration::{RawFamilies, RawFamily};
use inductive_check::levels::are_declared;
use inductive_check::names::are_distinct;
use pc_rules::context::Ctx;
use pc_rules::guarder::Guarder;
use pc_terms::lists::Telescope;
use std::alloc::Global;
use type_cert::halt::{WalkHalt, at_item};
use type_cert::trail::Trail;
use type_cert::typing::TypeWalk;

/// The head of a family, whose block's parameters are the context `ctx`: its constructors have distinct names, the levels of its sort are
/// declared, and its indices have sorts.
#[tactic(auto, using(inductive_check::proofs::Leading::after_laws))]
fn head<G: Guarder>(
    alloc: Global,
    walk: &TypeWalk<'_, G>,
    ctx: &Ctx,
    family: &RawFamily,
    trail: &mut Trail,
) -> Result<(), WalkHalt>
    requires nest { walk.now.verifier.room + trail.old.meter.nest ≡ most_nested }
    requires ready { IsReady walk.now.verifier.env.now ctx.now }
    ensures retraces { (B : Block) → extend [] B.params ≡ ctx.now → Retraces (head_walk walk.now.verifier B (family_of family.now) (stand trail.old)) result trail.old trail.new }
    ensures after { IsAfter trail.old.meter trail.new.meter }
    ensures counted { IfOk result (λ _. AreCountedFamilies walk.now.verifier.env.now (head_of (family_of family.now) ∷ [])) }
{
    let env = walk.verifier.env;
    at_item(trail.at, are_distinct(family.ctors.as_slice()))?;
    at_item(trail.at, are_declared(env.graph().levels(), &family.sort))?;
    let _inner = walk.entered(alloc, ctx, &family.indices, trail)?;
    Ok(())
}

/// The heads of the families of a block in turn.
#[tactic(auto, using(inductive_check::proofs::Leading::after_laws))]
fn heads<G: Guarder>(
    alloc: Global,
    walk: &TypeWalk<'_, G>,
    ctx: &Ctx,
    families: &RawFamilies,
    trail: &mut Trail,
) -> Result<(), WalkHalt>
    requires nest { walk.now.verifier.room + trail.old.meter.nest ≡ most_nested }
    requires ready { IsReady walk.now.verifier.env.now ctx.now }
    ensures retraces { (B : Block) → extend [] B.params ≡ ctx.now → Retraces (heads_walk walk.now.verifier B (map family_of families.now) (stand trail.old)) result trail.old trail.new }
    ensures after { IsAfter trail.old.meter trail.new.meter }
    ensures counted { IfOk result (λ _. AreCountedFamilies walk.now.verifier.env.now (map head_of (map family_of families.now))) }
{
    let items = families.as_slice();
    for i in 0..items.len() {
        let family = &items[i];
        head(alloc, walk, ctx, family, trail)?;
    }
    Ok(())
}

/// The parameters of a block, and then the heads of its families under them. Gives the context of the parameters.
#[tactic(auto, using(inductive_check::proofs::Leading::after_laws))]
pub(crate) fn block_heads<G: Guarder>(
    alloc: Global,
    walk: &TypeWalk<'_, G>,
    params: &Telescope,
    families: &RawFamilies,
    trail: &mut Trail,
) -> Result<Ctx, WalkHalt>
    requires nest { walk.now.verifier.room + trail.old.meter.nest ≡ most_nested }
    requires ready { IsReady walk.now.verifier.env.now [] }
    ensures retraces { (k : Name) → Retraces (block_heads_walk walk.now.verifier (block_from k params.now families.now) (stand trail.old)) (passed_with result) trail.old trail.new }
    ensures after { IsAfter trail.old.meter trail.new.meter }
    ensures longer { IfOk result (λ d. d ≡ extend [] params.now) }
    ensures ready { IfOk result (λ d. IsReady walk.now.verifier.env.now d) }
    ensures params { IfOk result (λ _. AreCounted walk.now.verifier.env.now params.now) }
    ensures counted { IfOk result (λ _. AreCountedFamilies walk.now.verifier.env.now (map head_of (map family_of families.now))) }
{
    let none = Ctx::new();
    let ctx = walk.entered(alloc, &none, params, trail)?;
    heads(alloc, walk, &ctx, families, trail)?;
    Ok(ctx)
}
