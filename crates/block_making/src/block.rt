//! A block that is read.
ghost use Rattle.std.specs.Prelude.{◌≡◌, ◌+◌, []};
ghost use Rattle.pc_rules.specs.Lookup.{IsNew};
ghost use Rattle.pc_rules.specs.DirectedRun.{most_nested};
ghost use Rattle.type_infer.specs.Ready.{IsReady};
ghost use Rattle.inductive_check.specs.Given.{IsRawBlock, block_of, block_from};
ghost use Rattle.script_making.specs.Makes.{Makes};
ghost use Rattle.block_making.specs.BlockMaking.{block_making};

use crate::constructors::families;
use crate::heads::block_heads;
use calculus_rules::declaration::Block;
use dump_reader::declaration::{RawDecl, RawFamilies};
use inductive_check::block::with_heads;
use inductive_check::sharing::shared_telescope;
use pc_rules::guarder::Guarder;
use pc_rules::reducer::Reducer;
use pc_rules::stop::Halt;
use pc_terms::leaf::Name;
use pc_terms::lists::Telescope;
use script_making::draft::Draft;
use script_making::maker::Maker;
use std::alloc::Global;
use type_making::typing::TypeMaker;

/// A block by its parts: the heads over the environment, then the constructors over the environment with the heads.
fn make_parts<R: Reducer, G: Guarder>(
    alloc: Global,
    typer: &TypeMaker<'_, R, G>,
    name: Name,
    params: &Telescope,
    listed: &RawFamilies,
    draft: &mut Draft,
) -> Result<Block, Halt>
    requires nest { typer.now.maker.room + draft.old.meter.nest ≡ most_nested }
    requires ready { IsReady typer.now.maker.env.now [] }
    requires new { IsNew typer.now.maker.env.now name }
    ensures makes { Makes (block_making typer.now.maker.env.now typer.now.maker.room (block_from name params.now listed.now) draft.old.meter.account) result draft.old draft.new }
{
    let ctx = block_heads(alloc, typer, params, listed, draft)?;
    let under = with_heads(alloc, typer.maker.env, name, params, listed)?;
    let inner = TypeMaker {
        maker: Maker {
            reducer: typer.maker.reducer,
            env: &under,
            room: typer.maker.room,
        },
        guarder: typer.guarder,
    };
    let made = families(alloc, &inner, &ctx, name, listed, draft)?;
    Ok(Block {
        name,
        params: shared_telescope(alloc, params)?,
        families: made,
    })
}

/// Checks a block of inductive families that is new to the environment, and gives it with the sorts of its constructors' arguments, while the items
/// of a certificate are written (PCUIC, Sozeau et al., "Coq Coq Correct!", POPL 2020, section 2.3).
///
/// Parameters and each family's constructor names, sort and indices come first, over the environment; then the constructors, over the environment in
/// which the families are known by their types alone. `Broken` keeps the first broken rule, as `check_block` of `inductive_check` finds it: what
/// `sort_of` and `check` refuse; `DuplicateName` of a constructor whose name an earlier one of its family has; `LevelUndeclared` in a family's sort;
/// `SortTooSmall` where an argument's sort is not at most the family's, unless that is `Prop`; `NotPositive`, with the places of family and constructor
/// from 0, where an argument's type is not strictly positive or a result term names the block; `CountWrong` where a constructor has not as many result
/// terms as its family has indices. `Spent` exactly where the rules have no end within the units left and `TooDeep` did not come. `TooDeep` only where
/// they pass a limit. `Memory` also where a list of the block has more than 4,294,967,295 items, or so many steps lead to a weak-head normal form.
pub fn make_block<R: Reducer, G: Guarder>(
    alloc: Global,
    typer: &TypeMaker<'_, R, G>,
    raw: &RawDecl,
    draft: &mut Draft,
) -> Result<Block, Halt>
    requires nest { typer.now.maker.room + draft.old.meter.nest ≡ most_nested }
    requires ready { IsReady typer.now.maker.env.now [] }
    requires block { IsRawBlock raw.now }
    requires new { IsNew typer.now.maker.env.now (block_of raw.now).name }
    ensures makes { Makes (block_making typer.now.maker.env.now typer.now.maker.room (block_of raw.now) draft.old.meter.account) result draft.old draft.new }
{
    match raw {
        RawDecl::Block {
            name,
            params,
            families,
        } => make_parts(alloc, typer, *name, params, families, draft),
        RawDecl::Constant { .. } => unreachable!(),
    }
}
