//! Whole environments, with numbers for names and levels, made of a text part by part.
ghost use Rattle.std.specs.Prelude.{◌≡◌, IfOk, IfErr};
ghost use Rattle.dump_grammar.specs.declared.refusal.ReadRefusal.TheVariants.{Memory};
ghost use Rattle.dump_parser.specs.Environment.{named_relation};
ghost use Rattle.dump_reader.specs.NumberedEnvironment.{relation_of};
ghost use Rattle.dump_reader.specs.Made.{NumbersEach, level_names, level_levels, level_value, constraint_names, constraint_levels, constraint_value};
ghost use Rattle.dump_reader.specs.Spelling.{IsVerdict};

use crate::declaration::RawDecls;
use crate::declared::declarations;
use crate::environment::{Constraints, Levels, RawEnv};
use crate::numbering::Tables;
use crate::term::term;
use dump_grammar::ReadRefusal;
use dump_parser::environment::ConstraintTree;
use dump_parser::{Parser, environment};
use std::alloc::Global;
use universe_levels::constraint::{Constraint, Relation};
use universe_levels::level::Level;

/// The items of `levels`.
fn levels(alloc: Global, tables: &mut Tables, texts: &[&str]) -> Result<Vec<Level>, ReadRefusal>
    ensures made { IfOk result (λ made. NumbersEach level_names level_levels level_value texts.now tables.old tables.new made.items) }
    ensures only_memory { IfErr result (λ e. e ≡ Memory) }
{
    let mut items = Vec::new(alloc);
    for text in texts {
        let level = tables.level(alloc, text)?;
        items.push(level)?;
    }
    Ok(items)
}

/// How two levels stand to each other.
fn relation(relation: environment::Relation) -> Relation
    ensures same { result ≡ relation_of (named_relation relation) }
{
    match relation {
        environment::Relation::Less => Relation::Lt,
        environment::Relation::AtMost => Relation::Le,
        environment::Relation::Equal => Relation::Eq,
    }
}

/// The constraints.
fn constraints(
    alloc: Global,
    tables: &mut Tables,
    trees: &[ConstraintTree],
) -> Result<Vec<Constraint>, ReadRefusal>
    ensures made { IfOk result (λ made. NumbersEach constraint_names constraint_levels constraint_value trees.now tables.old tables.new made.items) }
    ensures only_memory { IfErr result (λ e. e ≡ Memory) }
{
    let mut items = Vec::new(alloc);
    for tree in trees {
        let left = tables.level(alloc, tree.left)?;
        let right = tables.level(alloc, tree.right)?;
        let relation = relation(tree.relation);
        items.push(Constraint {
            left,
            relation,
            right,
        })?;
    }
    Ok(items)
}

/// The environment of a text, or its first refusal. Each part is numbered as soon as it is read, and its tree let go of.
pub(crate) fn read(alloc: Global, bytes: &[u8]) -> Result<RawEnv, ReadRefusal>
    ensures exact { IsVerdict bytes.now result }
{
    let mut parser = Parser::new(alloc, bytes);
    let mut tables = Tables::new(alloc)?;
    let head = parser.head(alloc)?;
    let levels = levels(alloc, &mut tables, head.levels.as_slice())?;
    let constraints = constraints(alloc, &mut tables, head.constraints.as_slice())?;
    let decls = declarations(alloc, &mut tables, &mut parser)?;
    let tree = parser.main(alloc)?;
    let main = term(alloc, &mut tables, &tree)?;
    Ok(RawEnv {
        names: tables.names,
        level_names: tables.levels,
        levels: Levels::of(levels),
        constraints: Constraints::of(constraints),
        decls: RawDecls::of(decls),
        main,
    })
}
