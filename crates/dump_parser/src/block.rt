//! Blocks of families.

ghost use Rattle.std.specs.Prelude.{[], ◌∷◌, ◌++◌, map};
ghost use Rattle.dump_grammar.specs.declared.keyword.Keyword.TheVariants as words;
ghost use Rattle.dump_grammar.specs.Table.{IOpen, IClose, IWord, IParams, IName, ISort, IList, Terms, Telescope, Constructors, Families, Do, NoTypes, NoTerms, NoCtors, NoFamilies, AddCtor, AddFamily, AddBlock, act, VName, VSort, VTypes, VTerms, VCtors, VFamilies};
ghost use Rattle.dump_parser.specs.Reading.{Reads};
ghost use Rattle.dump_parser.specs.Tree.{named_sort};
ghost use Rattle.dump_parser.specs.Environment.{named_ctor, named_family, family_values, declared};

use crate::environment::{CtorTree, DeclTree, FamilyTree};
use crate::leaves::Leaves;
use crate::list::{Member, next_member};
use crate::sort::sort;
use crate::telescope::{params, telescope};
use crate::term::term_list;
use crate::token::{close, name, open, word};
use crate::tree::SortTree;
use dump_grammar::{Keyword, Limit, ReadRefusal};
use sexp_reader::Tokens;
use std::alloc::Global;

/// The most constructors that a family may have.
const MAX_CONSTRUCTORS: usize = 1024;
/// The most families that a block may have.
const MAX_FAMILIES: usize = 255;

/// A constructor, after its bracket.
#[tactic(auto, using(crate::proofs::Steps::judged_do))]
fn constructor<'a>(
    alloc: Global,
    leaves: &mut Leaves<'a>,
    tokens: &mut Tokens<'a>,
) -> Result<CtorTree<'a>, ReadRefusal>
    ensures reads { Reads result tokens.old tokens.new (IWord words.Ctor ∷ IName ∷ IOpen ∷ IWord words.Args ∷ Do NoTypes (IList Telescope) ∷ IOpen ∷ IWord words.Result ∷ Do NoTerms (IList Terms) ∷ Do AddCtor IClose ∷ []) [] (λ c vs. act AddCtor (VTerms c.result.items ∷ VTypes c.args.items ∷ VName c.name.now ∷ vs)) }
{
    word(tokens, Keyword::Ctor)?;
    let text = name(tokens)?;
    let args = telescope(alloc, leaves, tokens, Keyword::Args)?;
    let result = term_list(alloc, leaves, tokens, Keyword::Result)?;
    close(tokens)?;
    Ok(CtorTree {
        name: text,
        args,
        result,
    })
}

/// The constructors of a family, up to the bracket that closes the family.
#[tactic(auto, using(crate::proofs::Steps::judged_do, crate::proofs::Maps::map_laws))]
fn constructors<'a>(
    alloc: Global,
    leaves: &mut Leaves<'a>,
    tokens: &mut Tokens<'a>,
) -> Result<Vec<CtorTree<'a>>, ReadRefusal>
    ensures reads { Reads result tokens.old tokens.new (Do NoCtors (IList Constructors) ∷ []) [] (λ v vs. VCtors (map named_ctor v.items) ∷ vs) }
{
    let mut list = Vec::new(alloc);
    loop {
        match next_member(tokens)? {
            Member::Close(_) => return Ok(list),
            Member::Open(offset) => {
                if list.len() >= MAX_CONSTRUCTORS {
                    return Err(ReadRefusal::Limit {
                        which: Limit::Constructors,
                        offset,
                    });
                }
                let c = constructor(alloc, leaves, tokens)?;
                list.push(c)?;
            }
        }
    }
}

/// The sort of a family, in brackets.
fn family_sort<'a>(alloc: Global, tokens: &mut Tokens<'a>) -> Result<SortTree<'a>, ReadRefusal>
    ensures reads { Reads result tokens.old tokens.new (IOpen ∷ IWord words.Sort ∷ ISort ∷ IClose ∷ []) [] (λ s vs. VSort (named_sort s) ∷ vs) }
{
    open(tokens)?;
    word(tokens, Keyword::Sort)?;
    let s = sort(alloc, tokens)?;
    close(tokens)?;
    Ok(s)
}

/// A family, after its bracket.
fn family<'a>(
    alloc: Global,
    leaves: &mut Leaves<'a>,
    tokens: &mut Tokens<'a>,
) -> Result<FamilyTree<'a>, ReadRefusal>
    ensures reads { Reads result tokens.old tokens.new (IWord words.Family ∷ IName ∷ IOpen ∷ IWord words.Sort ∷ ISort ∷ IClose ∷ IOpen ∷ IWord words.Indices ∷ Do NoTypes (IList Telescope) ∷ Do NoCtors (IList Constructors) ∷ []) [] (λ f vs. family_values f ++ vs) }
{
    word(tokens, Keyword::Family)?;
    let text = name(tokens)?;
    let s = family_sort(alloc, tokens)?;
    let indices = telescope(alloc, leaves, tokens, Keyword::Indices)?;
    let ctors = constructors(alloc, leaves, tokens)?;
    Ok(FamilyTree {
        name: text,
        sort: s,
        indices,
        ctors,
    })
}

/// The families of a block after the first, up to the bracket that closes the block: all of them.
#[tactic(auto, using(crate::proofs::Steps::judged_do, crate::proofs::Maps::map_laws))]
fn families<'a>(
    alloc: Global,
    leaves: &mut Leaves<'a>,
    tokens: &mut Tokens<'a>,
    first: FamilyTree<'a>,
) -> Result<Vec<FamilyTree<'a>>, ReadRefusal>
    ensures reads { Reads result tokens.old tokens.new (IList Families ∷ []) (VFamilies (named_family first.entry ∷ []) ∷ []) (λ v vs. act AddBlock (VFamilies (map named_family v.items) ∷ vs)) }
{
    let mut list = Vec::new(alloc);
    list.push(first)?;
    loop {
        match next_member(tokens)? {
            Member::Close(_) => return Ok(list),
            Member::Open(offset) => {
                if list.len() >= MAX_FAMILIES {
                    return Err(ReadRefusal::Limit {
                        which: Limit::Families,
                        offset,
                    });
                }
                let f = family(alloc, leaves, tokens)?;
                list.push(f)?;
            }
        }
    }
}

/// A block after its word.
#[tactic(auto, using(crate::proofs::Steps::judged_do))]
pub(crate) fn block<'a>(
    alloc: Global,
    leaves: &mut Leaves<'a>,
    tokens: &mut Tokens<'a>,
) -> Result<DeclTree<'a>, ReadRefusal>
    ensures reads { Reads result tokens.old tokens.new (IName ∷ IOpen ∷ IParams ∷ Do NoTypes (IList Telescope) ∷ Do NoFamilies IOpen ∷ IWord words.Family ∷ IName ∷ IOpen ∷ IWord words.Sort ∷ ISort ∷ IClose ∷ IOpen ∷ IWord words.Indices ∷ Do NoTypes (IList Telescope) ∷ Do NoCtors (IList Constructors) ∷ Do AddFamily (IList Families) ∷ []) [] declared }
{
    let text = name(tokens)?;
    let telescope = params(alloc, leaves, tokens)?;
    open(tokens)?;
    let first = family(alloc, leaves, tokens)?;
    let all = families(alloc, leaves, tokens, first)?;
    Ok(DeclTree::Block {
        name: text,
        params: telescope,
        families: all,
    })
}
