//! The counts of families.
ghost use Rattle.std.specs.Prelude.{◌≡◌, ◌++◌, ◌-◌, map, reverse, IfOk, IfErr};
ghost use Rattle.calculus_rules.specs.Environment.{with_parameters};
ghost use Rattle.pc_rules.specs.declared.stop.Stop.TheVariants.{Memory};
ghost use Rattle.erase_laws.specs.ErasedProgram.{arguments_of, counts_of};
ghost use Rattle.erase_rules.specs.DirectedProgram.{families_from, box_families};

use box_terms::program::{BoxFamilies, BoxFamily};
use calculus_rules::declaration::{Block, Constructors, Family, Kept};
use pc_rules::environment::Env;
use pc_rules::stop::Stop;
use pc_terms::leaf::FamilyId;
use pc_terms::lists::Numbers;
use std::alloc::Global;
use universe_levels::sort::Sort;

/// A length as a number of 32 bits. `Memory` where it is greater: no memory holds so many items.
pub(crate) fn short(items: usize) -> Result<u32, Stop>
    ensures is { IfOk result (λ n. n ≡ items) }
    ensures only_memory { IfErr result (λ s. s ≡ Memory) }
{
    match u32::try_from(items) {
        Ok(n) => Ok(n),
        Err(_) => Err(Stop::Memory),
    }
}

/// How many arguments each constructor has. Only `Memory`.
#[tactic(auto, using(std::proofs::lemmas::Grind::common_steps))]
fn arities(alloc: Global, ctors: &Constructors) -> Result<Numbers, Stop>
    ensures ok { IfOk result (λ ns. ns ≡ map arguments_of ctors.now) }
    ensures only_memory { IfErr result (λ s. s ≡ Memory) }
{
    let mut out = Numbers::new(alloc);
    for ctor in ctors.as_slice() {
        let count = short(ctor.args.len())?;
        out.push(count)?;
    }
    Ok(out)
}

/// The counts of a family of a block. Only `Memory`.
fn counted(alloc: Global, id: FamilyId, block: &Block, family: &Family) -> Result<BoxFamily, Stop>
    ensures ok { IfOk result (λ F. F ≡ counts_of id (with_parameters block.now.params family.now)) }
    ensures only_memory { IfErr result (λ s. s ≡ Memory) }
{
    let params = short(block.params.len())?;
    let args = arities(alloc, &family.ctors)?;
    let propositional = match &family.sort {
        Sort::Prop => true,
        Sort::Of(_) => false,
    };
    Ok(BoxFamily {
        id,
        propositional,
        params,
        args,
    })
}

/// Puts the families of a block at the end of a list, the last one first. Only `Memory`.
fn push_families(alloc: Global, out: &mut Vec<BoxFamily>, block: &Block) -> Result<(), Stop>
    ensures ok { IfOk result (λ _. out.new.items ≡ out.old.items ++ reverse (families_from block.now 0 block.now.families)) }
    ensures only_memory { IfErr result (λ s. s ≡ Memory) }
{
    let families = block.families.as_slice();
    let mut i = short(families.len())?;
    while i > 0 {
        i -= 1;
        let id = FamilyId {
            block: block.name,
            family: i,
        };
        let family = counted(alloc, id, block, &families[i as usize])?;
        let Ok(()) = out.push(family) else {
            return Err(Stop::Memory);
        };
    }
    Ok(())
}

/// The families of all whole blocks with their counts, in the order in which they are declared. Only `Memory`.
pub(crate) fn families(alloc: Global, env: &Env) -> Result<BoxFamilies, Stop>
    ensures ok { IfOk result (λ Fs. Fs ≡ box_families env.now.declarations) }
    ensures only_memory { IfErr result (λ s. s ≡ Memory) }
{
    let mut out = Vec::new(alloc);
    let mut walk = env.walk();
    while let Some(kept) = walk.next() {
        if let Kept::Block(block) = kept {
            push_families(alloc, &mut out, block)?;
        }
    }
    out.reverse();
    Ok(BoxFamilies::of(out))
}
