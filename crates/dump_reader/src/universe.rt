//! Sorts, with numbers for levels.
ghost use Rattle.std.specs.Prelude.{◌≡◌, ◌∷◌, IfOk, IfErr};
ghost use Rattle.dump_grammar.specs.declared.refusal.ReadRefusal.TheVariants.{Memory};
ghost use Rattle.dump_grammar.specs.Uses.{levels_of_sort};
ghost use Rattle.dump_parser.specs.Tree.{named_sort};
ghost use Rattle.dump_reader.specs.Numbered.{numbered_sort};
ghost use Rattle.dump_reader.specs.Growth.{Numbers, unused};
ghost use Rattle.dump_reader.specs.Made.{NumbersEach, part_names, part_levels, numbered_part};

use crate::numbering::Tables;
use dump_grammar::ReadRefusal;
use dump_parser::tree::{LevelPart, SortTree};
use std::alloc::Global;
use universe_levels::level::LevelExpr;
use universe_levels::sort::Sort;
use universe_levels::universe::{Universe, UniverseFault};

/// The sort of a tree.
pub(crate) fn sort(alloc: Global, tables: &mut Tables, tree: &SortTree) -> Result<Sort, ReadRefusal>
    ensures made { IfOk result (Numbers unused (levels_of_sort (named_sort tree.now)) (λ ns ls. numbered_sort ls (named_sort tree.now)) tables.old tables.new) }
    ensures only_memory { IfErr result (λ e. e ≡ Memory) }
{
    match tree {
        SortTree::Prop => Ok(Sort::Prop),
        SortTree::Type(first, more) => {
            let parts = parts_of(alloc, tables, first, more.as_slice())?;
            match Universe::of(alloc, parts.as_slice()) {
                Ok(universe) => Ok(Sort::Of(universe)),
                Err(UniverseFault::Memory) => Err(ReadRefusal::Memory),
                Err(UniverseFault::Empty) => unreachable!(),
                Err(UniverseFault::TooBig) => unreachable!(),
            }
        }
    }
}

/// The level expression of a part of a sort.
fn part_of(alloc: Global, tables: &mut Tables, part: &LevelPart) -> Result<LevelExpr, ReadRefusal>
    ensures made { IfOk result (Numbers (part_names part.now) (part_levels part.now) (λ ns ls. numbered_part ns ls part.now) tables.old tables.new) }
    ensures only_memory { IfErr result (λ e. e ≡ Memory) }
{
    let level = tables.level(alloc, part.level)?;
    let add = part.add;
    Ok(LevelExpr { level, add })
}

/// The level expressions of the parts of a sort: of its first part and of the further ones.
fn parts_of(
    alloc: Global,
    tables: &mut Tables,
    first: &LevelPart,
    more: &[LevelPart],
) -> Result<Vec<LevelExpr>, ReadRefusal>
    ensures made { IfOk result (λ made. NumbersEach part_names part_levels numbered_part (first.now ∷ more.now) tables.old tables.new made.items) }
    ensures only_memory { IfErr result (λ e. e ≡ Memory) }
{
    let mut items = Vec::new(alloc);
    let item = part_of(alloc, tables, first)?;
    items.push(item)?;
    for part in more {
        let item = part_of(alloc, tables, part)?;
        items.push(item)?;
    }
    Ok(items)
}
