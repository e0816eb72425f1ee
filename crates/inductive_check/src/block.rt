//! A block that is read.
ghost use Rattle.std.specs.Prelude.{◌≡◌, ◌+◌, ◌-◌, map, IfOk, IfErr};
ghost use Rattle.pc_rules.specs.declared.stop.Stop.TheVariants.{Memory};
ghost use Rattle.pc_rules.specs.DirectedDeclarations.{block_rule, with_heads};
ghost use Rattle.pc_rules.specs.Entailment.{test_of};
ghost use Rattle.pc_rules.specs.Follows.{Follows};
ghost use Rattle.pc_rules.specs.Lookup.{IsNew};
ghost use Rattle.pc_rules.specs.WellCounted.{IsCountedEnv};
ghost use Rattle.pc_rules.specs.DirectedRun.{most_nested};
ghost use Rattle.rule_laws.specs.Declarations.{BlockFormed, IsCheckedBlock};
ghost use Rattle.inductive_check.specs.Given.{IsRawBlock, block_of, block_from};

use crate::constructors::check_families;
use crate::heads::{check_heads, heads};
use crate::setting::BlockSetting;
use crate::sharing::shared_telescope;
use crate::telescope::enter;
use calculus_rules::declaration::Block;
use dump_reader::declaration::{RawDecl, RawFamilies};
use pc_rules::context::Ctx;
use pc_rules::environment::Env;
use pc_rules::meter::Meter;
use pc_rules::reducer::Reducer;
use pc_rules::stop::{Halt, Stop};
use pc_rules::typer::Typer;
use pc_terms::leaf::Name;
use pc_terms::lists::Telescope;
use std::alloc::Global;

/// The environment in which the families of a new block are known by their types alone. Only `Memory`.
pub fn with_heads(
    alloc: Global,
    env: &Env,
    name: Name,
    params: &Telescope,
    families: &RawFamilies,
) -> Result<Env, Stop>
    requires new { IsNew env.now name }
    ensures ok { IfOk result (λ H. H ≡ with_heads env.now (block_from name params.now families.now)) }
    ensures only_memory { IfErr result (λ s. s ≡ Memory) }
{
    let block = Block {
        name,
        params: shared_telescope(alloc, params)?,
        families: heads(alloc, families)?,
    };
    env.heads(alloc, block)
}

/// Checks a block by its parts: the heads over the environment, then the constructors over the environment with the heads.
#[tactic(auto, using(crate::proofs::Leading::after_laws))]
fn check_parts<T: Typer>(
    alloc: Global,
    setting: &BlockSetting<'_, T>,
    params: &Telescope,
    families: &RawFamilies,
    m: &mut Meter,
) -> Result<Block, Halt>
    requires nest { setting.now.room + m.old.nest ≡ most_nested }
    requires env { IsCountedEnv setting.now.env.now }
    requires new { IsNew setting.now.env.now setting.now.block }
    ensures follows { Follows (block_rule setting.now.env.now (test_of setting.now.env.now) setting.now.room (block_from setting.now.block params.now families.now) m.old.account) result m.old m.new }
    ensures formed { IfOk result (λ _. BlockFormed (block_from setting.now.block params.now families.now)) }
{
    let mut ctx = Ctx::new();
    enter(
        alloc,
        setting.typer,
        setting.env,
        setting.room,
        &mut ctx,
        params,
        m,
    )?;
    check_heads(
        alloc,
        setting.typer,
        setting.env,
        setting.room,
        &ctx,
        families,
        m,
    )?;
    let under = with_heads(alloc, setting.env, setting.block, params, families)?;
    let inner = BlockSetting {
        typer: setting.typer,
        env: &under,
        room: setting.room,
        block: setting.block,
    };
    let families = check_families(alloc, &inner, &ctx, families, m)?;
    let params = shared_telescope(alloc, params)?;
    Ok(Block {
        name: setting.block,
        params,
        families,
    })
}

/// Checks a block of inductive families that is new to the environment, and gives it with the sorts of its constructors' arguments
/// (PCUIC, Sozeau et al., "Coq Coq Correct!", POPL 2020, section 2.3).
///
/// The environment is well counted. The parameters and each family's name, sort, indices and constructor names are looked at first, over
/// the environment; then the constructors, over the environment in which the families are known by their types alone. `Broken` keeps the
/// first broken rule: what `sort_of` and `check` of the typer refuse; `DuplicateName` of a constructor whose name an earlier one of its
/// family has; `LevelUndeclared` in a family's sort; `SortTooSmall` where an argument's sort is not at most the family's, unless that is
/// `Prop`; `NotPositive`, with the places of family and constructor from 0, where an argument's type is not strictly positive or a result
/// term names the block; `CountWrong` where a constructor has not as many result terms as its family has indices. `Spent` exactly where
/// the rules have no end within the units left and `TooDeep` did not come. `TooDeep` only where they pass a limit. `Memory` also where a list
/// of the block has more than 4,294,967,295 items.
pub fn check_block<T: Typer, R: Reducer>(
    alloc: Global,
    typer: &T,
    _reducer: &R,
    env: &Env,
    raw: &RawDecl,
    m: &mut Meter,
) -> Result<Block, Halt>
    requires env { IsCountedEnv env.now }
    requires block { IsRawBlock raw.now }
    requires new { IsNew env.now (block_of raw.now).name }
    ensures follows { Follows (block_rule env.now (test_of env.now) (most_nested - m.old.nest) (block_of raw.now) m.old.account) result m.old m.new }
    ensures fits { IfOk result (λ block. IsCheckedBlock env.now (block_of raw.now) block) }
{
    // The constraints of an environment are consistent.
    let _ = env.graph();
    let room = m.room();
    match raw {
        RawDecl::Block {
            name,
            params,
            families,
        } => {
            let setting = BlockSetting {
                typer,
                env,
                room,
                block: *name,
            };
            check_parts(alloc, &setting, params, families, m)
        }
        RawDecl::Constant { .. } => unreachable!(),
    }
}
