//! The constructors of a block's families, over the environment that knows the families by their types alone.
ghost use Rattle.std.specs.Prelude.{◌≡◌, ◌+◌, [], map, IfOk, IfErr};
ghost use Rattle.universe_levels.specs.Consistency.{IsSortOver};
ghost use Rattle.calculus_rules.specs.declared.declaration.Block.{Block};
ghost use Rattle.pc_rules.specs.declared.meter.Account.{Account};
ghost use Rattle.pc_rules.specs.declared.stop.Stop.TheVariants.{Memory};
ghost use Rattle.calculus_rules.specs.Context.{extend};
ghost use Rattle.calculus_rules.specs.Environment.{head_of};
ghost use Rattle.pc_rules.specs.DirectedDeclarations.{with_sorts, with_constructors, result_names};
ghost use Rattle.pc_rules.specs.Follows.{Follows, Answers, IsAfter};
ghost use Rattle.pc_rules.specs.WellCounted.{AreCounted, AreCountedFamilies, IsCountedContext, IsCountedEnv};
ghost use Rattle.pc_rules.specs.DirectedRun.{most_nested};
ghost use Rattle.rule_laws.specs.Declarations.{ConstructorsFormed, FamiliesFormed};
ghost use Rattle.inductive_check.specs.Arguments.{constructor_within, constructors_within, families_within};
ghost use Rattle.inductive_check.specs.Given.{ctor_of, family_of};

use crate::arguments::{CtorPlace, arguments};
use crate::listing::{number, push};
use crate::results::{check_results, counted};
use crate::setting::BlockSetting;
use crate::sharing::{shared_telescope, shared_terms};
use calculus_rules::declaration::{Constructor, Constructors, Families, Family, Sorts};
use calculus_rules::target::Target;
use dump_reader::declaration::{RawCtor, RawFamilies, RawFamily};
use pc_rules::broken::Broken;
use pc_rules::context::Ctx;
use pc_rules::meter::Meter;
use pc_rules::naming::some_names;
use pc_rules::stop::{Halt, Stop};
use pc_rules::typer::Typer;
use pc_terms::leaf::Name;
use pc_terms::term::Terms;
use std::alloc::Global;

/// Whether no result term names a family of the block. `NotPositive` with the constructor's place. Takes no memory.
pub fn names_none(block: Name, at: CtorPlace, result_terms: &Terms) -> Result<(), Halt>
    ensures answers { (u : Account) → Answers (result_names block at.family at.ctor result_terms.now u) result u }
{
    if !some_names(Target::Families(block), 0, result_terms.as_slice()) {
        return Ok(());
    }
    let CtorPlace { family, ctor } = at;
    Err(Halt::Broken(Broken::NotPositive { family, ctor }))
}

/// The constructor with the sorts of its arguments, the outermost first. Only `Memory`.
pub fn with_sorts(alloc: Global, ctor: &RawCtor, arg_sorts: Sorts) -> Result<Constructor, Stop>
    ensures ok { IfOk result (λ C. C ≡ with_sorts (ctor_of ctor.now) arg_sorts) }
    ensures only_memory { IfErr result (λ s. s ≡ Memory) }
{
    Ok(Constructor {
        name: ctor.name,
        args: shared_telescope(alloc, &ctor.args)?,
        arg_sorts,
        result: shared_terms(alloc, ctor.result.as_slice())?,
    })
}

/// Checks a constructor of the block, which stands at a place in it, in a family; the block's parameters are the context `ctx`. The refusals
/// of its arguments in turn, then `CountWrong` for its result terms, then the refusals of `Typer::check` for these, then `NotPositive` where
/// one of them names the block.
#[tactic(auto, using(crate::proofs::Leading::after_laws))]
fn check_constructor<T: Typer>(
    alloc: Global,
    setting: &BlockSetting<'_, T>,
    ctx: &Ctx,
    at: CtorPlace,
    family: &RawFamily,
    ctor: &RawCtor,
    m: &mut Meter,
) -> Result<Constructor, Halt>
    requires nest { setting.now.room + m.old.nest ≡ most_nested }
    requires env { IsCountedEnv setting.now.env.now }
    requires ctx { IsCountedContext setting.now.env.now ctx.now }
    requires sort { IsSortOver setting.now.env.now.levels family.now.sort }
    ensures follows { (B : Block) → B.name ≡ setting.now.block → extend [] B.params ≡ ctx.now → Follows (constructor_within setting.now.env.now setting.now.room B (family_of family.now) at.family at.ctor (ctor_of ctor.now) m.old.account) result m.old m.new }
    ensures after { IsAfter m.old m.new }
    ensures counted { IfOk result (λ _. AreCounted setting.now.env.now ctor.now.args × AreCounted setting.now.env.now ctor.now.result) }
{
    let mut inner = ctx.share()?;
    let arg_sorts = arguments(alloc, setting, &mut inner, at, &family.sort, &ctor.args, m)?;
    counted(family.indices.len(), ctor.result.len())?;
    let args = number(ctor.args.len())?;
    check_results(
        alloc,
        setting,
        &inner,
        args,
        &ctor.result,
        &family.indices,
        m,
    )?;
    names_none(setting.block, at, &ctor.result)?;
    Ok(with_sorts(alloc, ctor, arg_sorts)?)
}

/// Checks the constructors of family number `place` in turn.
#[tactic(auto, using(crate::proofs::Leading::after_laws))]
fn check_constructors<T: Typer>(
    alloc: Global,
    setting: &BlockSetting<'_, T>,
    ctx: &Ctx,
    place: u32,
    family: &RawFamily,
    m: &mut Meter,
) -> Result<Constructors, Halt>
    requires nest { setting.now.room + m.old.nest ≡ most_nested }
    requires env { IsCountedEnv setting.now.env.now }
    requires ctx { IsCountedContext setting.now.env.now ctx.now }
    requires sort { IsSortOver setting.now.env.now.levels family.now.sort }
    ensures follows { (B : Block) → B.name ≡ setting.now.block → extend [] B.params ≡ ctx.now → Follows (constructors_within setting.now.env.now setting.now.room B (family_of family.now) place 0 (map ctor_of family.now.ctors) m.old.account) result m.old m.new }
    ensures after { IsAfter m.old m.new }
    ensures formed { IfOk result (λ _. ConstructorsFormed (map ctor_of family.now.ctors)) }
{
    let mut out = Vec::new(alloc);
    let ctors = family.ctors.as_slice();
    for n in 0..ctors.len() {
        let at = CtorPlace {
            family: place,
            ctor: number(n)?,
        };
        let ctor = check_constructor(alloc, setting, ctx, at, family, &ctors[n], m)?;
        push(&mut out, ctor)?;
    }
    Ok(Constructors::of(out))
}

/// The family with these constructors in place of those that it was read with. Only `Memory`.
pub fn with_constructors(
    alloc: Global,
    family: &RawFamily,
    ctors: Constructors,
) -> Result<Family, Stop>
    ensures ok { IfOk result (λ F. F ≡ with_constructors (family_of family.now) ctors) }
    ensures only_memory { IfErr result (λ s. s ≡ Memory) }
{
    Ok(Family {
        name: family.name,
        sort: family.sort.share(alloc)?,
        indices: shared_telescope(alloc, &family.indices)?,
        ctors,
    })
}

/// Checks the constructors of the block's families in turn, and gives the families with the sorts of the constructors' arguments.
#[tactic(auto, using(crate::proofs::Leading::after_laws))]
pub(crate) fn check_families<T: Typer>(
    alloc: Global,
    setting: &BlockSetting<'_, T>,
    ctx: &Ctx,
    families: &RawFamilies,
    m: &mut Meter,
) -> Result<Families, Halt>
    requires nest { setting.now.room + m.old.nest ≡ most_nested }
    requires env { IsCountedEnv setting.now.env.now }
    requires ctx { IsCountedContext setting.now.env.now ctx.now }
    requires heads { AreCountedFamilies setting.now.env.now (map head_of (map family_of families.now)) }
    ensures follows { (B : Block) → B.name ≡ setting.now.block → extend [] B.params ≡ ctx.now → Follows (families_within setting.now.env.now setting.now.room B 0 (map family_of families.now) m.old.account) result m.old m.new }
    ensures after { IsAfter m.old m.new }
    ensures formed { IfOk result (λ _. FamiliesFormed (map family_of families.now)) }
{
    let mut out = Vec::new(alloc);
    let items = families.as_slice();
    for f in 0..items.len() {
        let family = &items[f];
        let ctors = check_constructors(alloc, setting, ctx, number(f)?, family, m)?;
        push(&mut out, with_constructors(alloc, family, ctors)?)?;
    }
    Ok(Families::of(out))
}
