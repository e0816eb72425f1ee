//! The heads of a block: what is known of its families before its constructors are.
ghost use Rattle.std.specs.Prelude.{◌≡◌, ◌+◌, [], ◌∷◌, map, IfOk, IfErr};
ghost use Rattle.calculus_rules.specs.declared.declaration.Block.{Block};
ghost use Rattle.pc_rules.specs.declared.stop.Stop.TheVariants.{Memory};
ghost use Rattle.calculus_rules.specs.Context.{extend};
ghost use Rattle.calculus_rules.specs.Environment.{head_of};
ghost use Rattle.pc_rules.specs.DirectedTyping.{infer};
ghost use Rattle.pc_rules.specs.DirectedDeclarations.{family_head, family_heads};
ghost use Rattle.pc_rules.specs.Entailment.{test_of};
ghost use Rattle.pc_rules.specs.Follows.{Follows, IsAfter};
ghost use Rattle.pc_rules.specs.WellCounted.{AreCountedFamilies, IsCountedContext, IsCountedEnv};
ghost use Rattle.pc_rules.specs.DirectedRun.{most_nested};
ghost use Rattle.inductive_check.specs.Given.{family_of};

use crate::levels::are_declared;
use crate::listing::push;
use crate::names::are_distinct;
use crate::sharing::shared_telescope;
use crate::telescope::enter;
use calculus_rules::declaration::{Constructors, Families, Family};
use dump_reader::declaration::{RawFamilies, RawFamily};
use pc_rules::context::Ctx;
use pc_rules::environment::Env;
use pc_rules::meter::Meter;
use pc_rules::stop::{Halt, Stop};
use pc_rules::typer::Typer;
use std::alloc::Global;

/// Looks at the head of a family, whose block's parameters are the context `ctx`: `DuplicateName` where two constructors share a name, then
/// `LevelUndeclared` in its sort, then the refusals of `Typer::sort_of` for its indices.
#[tactic(auto, using(crate::proofs::Leading::after_laws))]
fn check_head<T: Typer>(
    alloc: Global,
    typer: &T,
    env: &Env,
    room: u32,
    ctx: &Ctx,
    family: &RawFamily,
    m: &mut Meter,
) -> Result<(), Halt>
    requires nest { room + m.old.nest ≡ most_nested }
    requires env { IsCountedEnv env.now }
    requires ctx { IsCountedContext env.now ctx.now }
    ensures follows { (B : Block) → extend [] B.params ≡ ctx.now → Follows (family_head env.now (infer env.now (test_of env.now) room) B (family_of family.now) m.old.account) result m.old m.new }
    ensures after { IsAfter m.old m.new }
    ensures counted { IfOk result (λ _. AreCountedFamilies env.now (head_of (family_of family.now) ∷ [])) }
{
    are_distinct(family.ctors.as_slice())?;
    are_declared(env.graph().levels(), &family.sort)?;
    let mut inner = ctx.share()?;
    enter(alloc, typer, env, room, &mut inner, &family.indices, m)
}

/// Looks at the heads of the families of a block in turn.
#[tactic(auto, using(crate::proofs::Leading::after_laws))]
pub(crate) fn check_heads<T: Typer>(
    alloc: Global,
    typer: &T,
    env: &Env,
    room: u32,
    ctx: &Ctx,
    families: &RawFamilies,
    m: &mut Meter,
) -> Result<(), Halt>
    requires nest { room + m.old.nest ≡ most_nested }
    requires env { IsCountedEnv env.now }
    requires ctx { IsCountedContext env.now ctx.now }
    ensures follows { (B : Block) → extend [] B.params ≡ ctx.now → Follows (family_heads env.now (infer env.now (test_of env.now) room) B (map family_of families.now) m.old.account) result m.old m.new }
    ensures after { IsAfter m.old m.new }
    ensures counted { IfOk result (λ _. AreCountedFamilies env.now (map head_of (map family_of families.now))) }
{
    for family in families.as_slice() {
        check_head(alloc, typer, env, room, ctx, family, m)?;
    }
    Ok(())
}

/// The families of a block without their constructors. Only `Memory`.
#[tactic(auto, using(crate::proofs::Listed::listed_laws, std::proofs::lemmas::Grind::common_steps))]
pub(crate) fn heads(alloc: Global, families: &RawFamilies) -> Result<Families, Stop>
    ensures ok { IfOk result (λ Fs. Fs ≡ map head_of (map family_of families.now)) }
    ensures only_memory { IfErr result (λ s. s ≡ Memory) }
{
    let mut out = Vec::new(alloc);
    for family in families.as_slice() {
        let head = Family {
            name: family.name,
            sort: family.sort.share(alloc)?,
            indices: shared_telescope(alloc, &family.indices)?,
            ctors: Constructors::of(Vec::new(alloc)),
        };
        push(&mut out, head)?;
    }
    Ok(Families::of(out))
}
