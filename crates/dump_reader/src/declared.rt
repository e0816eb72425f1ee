//! Declarations, with numbers for names and levels, made of the trees of a text.
ghost use Rattle.std.specs.Prelude.{◌≡◌, IfOk, IfErr};
ghost use Rattle.dump_grammar.specs.declared.refusal.ReadRefusal.TheVariants.{Memory};
ghost use Rattle.dump_reader.specs.Growth.{Numbers};
ghost use Rattle.dump_reader.specs.Declarations.{ReadsDeclarations};
ghost use Rattle.dump_reader.specs.Made.{NumbersEach, ctor_names, ctor_levels, ctor_value, family_names, family_levels, family_value, decl_names, decl_levels, decl_value};

use crate::declaration::{RawCtor, RawCtors, RawDecl, RawFamilies, RawFamily};
use crate::numbering::Tables;
use crate::term::{term, terms};
use crate::universe::sort;
use dump_grammar::ReadRefusal;
use dump_parser::Parser;
use dump_parser::environment::{CtorTree, DeclTree, FamilyTree};
use pc_terms::lists::Telescope;
use pc_terms::term::Terms;
use std::alloc::Global;

/// A constructor.
fn ctor(alloc: Global, tables: &mut Tables, tree: &CtorTree) -> Result<RawCtor, ReadRefusal>
    ensures made { IfOk result (Numbers (ctor_names tree.now) (ctor_levels tree.now) (λ ns ls. ctor_value ns ls tree.now) tables.old tables.new) }
    ensures only_memory { IfErr result (λ e. e ≡ Memory) }
{
    let name = tables.name(alloc, tree.name)?;
    let args = terms(alloc, tables, tree.args.as_slice())?;
    let result = terms(alloc, tables, tree.result.as_slice())?;
    Ok(RawCtor {
        name,
        args: Telescope::of(args),
        result: Terms::of(result),
    })
}

/// The constructors of a family.
fn ctors(
    alloc: Global,
    tables: &mut Tables,
    trees: &[CtorTree],
) -> Result<Vec<RawCtor>, ReadRefusal>
    ensures made { IfOk result (λ made. NumbersEach ctor_names ctor_levels ctor_value trees.now tables.old tables.new made.items) }
    ensures only_memory { IfErr result (λ e. e ≡ Memory) }
{
    let mut items = Vec::new(alloc);
    for tree in trees {
        let item = ctor(alloc, tables, tree)?;
        items.push(item)?;
    }
    Ok(items)
}

/// A family.
fn family(alloc: Global, tables: &mut Tables, tree: &FamilyTree) -> Result<RawFamily, ReadRefusal>
    ensures made { IfOk result (Numbers (family_names tree.now) (family_levels tree.now) (λ ns ls. family_value ns ls tree.now) tables.old tables.new) }
    ensures only_memory { IfErr result (λ e. e ≡ Memory) }
{
    let name = tables.name(alloc, tree.name)?;
    let sort = sort(alloc, tables, &tree.sort)?;
    let indices = terms(alloc, tables, tree.indices.as_slice())?;
    let ctors = ctors(alloc, tables, tree.ctors.as_slice())?;
    Ok(RawFamily {
        name,
        sort,
        indices: Telescope::of(indices),
        ctors: RawCtors::of(ctors),
    })
}

/// The families of a block.
fn families(
    alloc: Global,
    tables: &mut Tables,
    trees: &[FamilyTree],
) -> Result<Vec<RawFamily>, ReadRefusal>
    ensures made { IfOk result (λ made. NumbersEach family_names family_levels family_value trees.now tables.old tables.new made.items) }
    ensures only_memory { IfErr result (λ e. e ≡ Memory) }
{
    let mut items = Vec::new(alloc);
    for tree in trees {
        let item = family(alloc, tables, tree)?;
        items.push(item)?;
    }
    Ok(items)
}

/// A declaration.
fn declaration(alloc: Global, tables: &mut Tables, tree: &DeclTree) -> Result<RawDecl, ReadRefusal>
    ensures made { IfOk result (Numbers (decl_names tree.now) (decl_levels tree.now) (λ ns ls. decl_value ns ls tree.now) tables.old tables.new) }
    ensures only_memory { IfErr result (λ e. e ≡ Memory) }
{
    match tree {
        DeclTree::Constant { name, ty, body } => {
            let name = tables.name(alloc, name)?;
            let ty = term(alloc, tables, ty)?;
            match body {
                Some(tree) => {
                    let body = Some(term(alloc, tables, tree)?);
                    Ok(RawDecl::Constant { name, ty, body })
                }
                None => Ok(RawDecl::Constant {
                    name,
                    ty,
                    body: None,
                }),
            }
        }
        DeclTree::Block {
            name,
            params,
            families: trees,
        } => {
            let name = tables.name(alloc, name)?;
            let params = terms(alloc, tables, params.as_slice())?;
            let items = families(alloc, tables, trees.as_slice())?;
            Ok(RawDecl::Block {
                name,
                params: Telescope::of(params),
                families: RawFamilies::of(items),
            })
        }
    }
}

/// The declaration of a tree that is let go of.
fn declaration_of(
    alloc: Global,
    tables: &mut Tables,
    tree: DeclTree,
) -> Result<RawDecl, ReadRefusal>
    ensures made { IfOk result (Numbers (decl_names tree.entry) (decl_levels tree.entry) (λ ns ls. decl_value ns ls tree.entry) tables.old tables.new) }
    ensures only_memory { IfErr result (λ e. e ≡ Memory) }
{
    declaration(alloc, tables, &tree)
}

/// The declarations of a text behind its head. The tree of each is let go of before the next is read.
pub(crate) fn declarations(
    alloc: Global,
    tables: &mut Tables,
    parser: &mut Parser,
) -> Result<Vec<RawDecl>, ReadRefusal>
    ensures made { ReadsDeclarations result parser.old parser.new tables.old tables.new }
{
    let mut items = Vec::new(alloc);
    while let Some(tree) = parser.declaration(alloc, items.len())? {
        let item = declaration_of(alloc, tables, tree)?;
        items.push(item)?;
    }
    Ok(items)
}
