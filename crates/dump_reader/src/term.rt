//! Terms, with numbers for names and levels, made of the trees of a text.
ghost use Rattle.std.specs.Prelude.{◌≡◌, ◌≤◌, IfOk, IfErr};
ghost use Rattle.dump_grammar.specs.declared.refusal.ReadRefusal.TheVariants.{Memory};
ghost use Rattle.dump_grammar.specs.Named.{depth};
ghost use Rattle.dump_grammar.specs.Limits.{depth_limit};
ghost use Rattle.dump_parser.specs.Tree.{named_match, named as named_node, IsIndexed};
ghost use Rattle.dump_parser.specs.declared.tree.Node.TheVariants as nodes;
ghost use Rattle.dump_reader.specs.Made.{IsTerm, AreTerms, AreBranches, AreDefs};

use crate::leaves::Leaf;
use crate::making::{made, made_match};
use crate::numbering::Tables;
use crate::universe::sort;
use dump_grammar::ReadRefusal;
use dump_parser::tree;
use dump_parser::tree::Tree;
use pc_terms::leaf::FamilyId;
use pc_terms::term::{Branch, Branches, Def, Defs, Match, Node, Term, Terms};
use std::alloc::Global;

/// The term of a tree.
#[cycle(term)]
pub(crate) fn term(alloc: Global, tables: &mut Tables, tree: &Tree) -> Result<Term, ReadRefusal>
    ensures made { IfOk result (IsTerm tree.now tables.old tables.new) }
    ensures only_memory { IfErr result (λ e. e ≡ Memory) }
{
    match tree.node() {
        tree::Node::Rel(n) => tables.leaf(alloc, Leaf::Rel(*n)),
        tree::Node::Sort(s) => {
            let s = sort(alloc, tables, s)?;
            tables.sort(alloc, s)
        }
        tree::Node::Prod(domain, codomain) => {
            let domain = term(alloc, tables, domain)?;
            let codomain = term(alloc, tables, codomain)?;
            made(alloc, Node::Prod(domain, codomain))
        }
        tree::Node::Lambda(domain, body) => {
            let domain = term(alloc, tables, domain)?;
            let body = term(alloc, tables, body)?;
            made(alloc, Node::Lambda(domain, body))
        }
        tree::Node::LetIn(value, ty, body) => let_in(alloc, tables, value, ty, body),
        tree::Node::App(function, first, more) => run(alloc, tables, function, first, more),
        tree::Node::Const(name) => {
            let name = tables.name(alloc, name)?;
            tables.leaf(alloc, Leaf::Const(name))
        }
        tree::Node::Ind(block, family) => {
            let block = tables.name(alloc, block)?;
            let family = *family;
            tables.leaf(alloc, Leaf::Ind(FamilyId { block, family }))
        }
        tree::Node::Construct(block, family, place) => {
            let block = tables.name(alloc, block)?;
            let family = *family;
            tables.leaf(alloc, Leaf::Construct(FamilyId { block, family }, *place))
        }
        tree::Node::Case(m) => case(alloc, tables, m),
        tree::Node::Fix(defs, index) => fixpoint(alloc, tables, defs, *index),
        tree::Node::Cast(subject, ty) => cast(alloc, tables, subject, ty),
    }
}

/// A definition in a term: its value, its type and the term, in this order.
#[cycle(term)]
fn let_in(
    alloc: Global,
    tables: &mut Tables,
    value: &Tree,
    ty: &Tree,
    body: &Tree,
) -> Result<Term, ReadRefusal>
    requires within { depth (named_node (nodes.LetIn value.now ty.now body.now)) ≤ depth_limit }
    ensures made { IfOk result (IsTerm (named_node (nodes.LetIn value.now ty.now body.now)) tables.old tables.new) }
    ensures only_memory { IfErr result (λ e. e ≡ Memory) }
{
    let value = term(alloc, tables, value)?;
    let ty = term(alloc, tables, ty)?;
    let body = term(alloc, tables, body)?;
    let whole = made(alloc, Node::LetIn(value, ty, body))?;
    Ok(whole)
}

/// One of the definitions of a fixpoint, by its index, which is below their number.
#[cycle(term)]
fn fixpoint(
    alloc: Global,
    tables: &mut Tables,
    defs: &Vec<tree::Def>,
    index: u32,
) -> Result<Term, ReadRefusal>
    requires within { depth (named_node (nodes.Fix defs.now index)) ≤ depth_limit }
    requires indexed { IsIndexed (nodes.Fix defs.now index) }
    ensures made { IfOk result (IsTerm (named_node (nodes.Fix defs.now index)) tables.old tables.new) }
    ensures only_memory { IfErr result (λ e. e ≡ Memory) }
{
    let items = definitions(alloc, tables, defs.as_slice())?;
    let whole = made(alloc, Node::Fix(Defs::of(items), index))?;
    Ok(whole)
}

/// A run of applications, from the function on. Each argument goes into the term as it is read.
#[cycle(term)]
fn run(
    alloc: Global,
    tables: &mut Tables,
    function: &Tree,
    first: &Tree,
    more: &Vec<Tree>,
) -> Result<Term, ReadRefusal>
    requires within { depth (named_node (nodes.App function.now first.now more.now)) ≤ depth_limit }
    ensures made { IfOk result (IsTerm (named_node (nodes.App function.now first.now more.now)) tables.old tables.new) }
    ensures only_memory { IfErr result (λ e. e ≡ Memory) }
{
    let function = term(alloc, tables, function)?;
    let first = term(alloc, tables, first)?;
    let mut whole = made(alloc, Node::App(function, first))?;
    for tree in more {
        let argument = term(alloc, tables, tree)?;
        whole = made(alloc, Node::App(whole, argument))?;
    }
    Ok(whole)
}

/// A cast: a function that gives back its argument, applied. Its type counts before its term.
#[cycle(term)]
fn cast(alloc: Global, tables: &mut Tables, subject: &Tree, ty: &Tree) -> Result<Term, ReadRefusal>
    requires within { depth (named_node (nodes.Cast subject.now ty.now)) ≤ depth_limit }
    ensures made { IfOk result (IsTerm (named_node (nodes.Cast subject.now ty.now)) tables.old tables.new) }
    ensures only_memory { IfErr result (λ e. e ≡ Memory) }
{
    let ty = term(alloc, tables, ty)?;
    let variable = tables.leaf(alloc, Leaf::Rel(0))?;
    let function = made(alloc, Node::Lambda(ty, variable))?;
    let subject = term(alloc, tables, subject)?;
    let whole = made(alloc, Node::App(function, subject))?;
    Ok(whole)
}

/// A match.
#[cycle(term)]
fn case(alloc: Global, tables: &mut Tables, m: &tree::Match) -> Result<Term, ReadRefusal>
    requires within { depth (named_match m.now) ≤ depth_limit }
    ensures made { IfOk result (IsTerm (named_match m.now) tables.old tables.new) }
    ensures only_memory { IfErr result (λ e. e ≡ Memory) }
{
    let block = tables.name(alloc, m.block)?;
    let params = terms(alloc, tables, m.params.as_slice())?;
    let ret = term(alloc, tables, &m.ret)?;
    let scrut = term(alloc, tables, &m.scrut)?;
    let branches = branches(alloc, tables, m.branches.as_slice())?;
    let family = FamilyId {
        block,
        family: m.family,
    };
    let parts = Match {
        family,
        params: Terms::of(params),
        binders: m.binders,
        ret,
        scrut,
        branches: Branches::of(branches),
    };
    let whole = made_match(alloc, parts)?;
    Ok(whole)
}

/// The terms of trees, from the first to the last.
#[cycle(term)]
pub(crate) fn terms(
    alloc: Global,
    tables: &mut Tables,
    trees: &[Tree],
) -> Result<Vec<Term>, ReadRefusal>
    ensures made { IfOk result (λ made. AreTerms trees.now tables.old tables.new made.items) }
    ensures only_memory { IfErr result (λ e. e ≡ Memory) }
{
    let mut items = Vec::new(alloc);
    for tree in trees {
        let t = term(alloc, tables, tree)?;
        items.push(t)?;
    }
    Ok(items)
}

/// The branches of a match.
#[cycle(term)]
fn branches(
    alloc: Global,
    tables: &mut Tables,
    trees: &[tree::Branch],
) -> Result<Vec<Branch>, ReadRefusal>
    ensures made { IfOk result (λ made. AreBranches trees.now tables.old tables.new made.items) }
    ensures only_memory { IfErr result (λ e. e ≡ Memory) }
{
    let mut items = Vec::new(alloc);
    for branch in trees {
        let binders = branch.binders;
        let body = term(alloc, tables, &branch.body)?;
        items.push(Branch { binders, body })?;
    }
    Ok(items)
}

/// The definitions of a fixpoint.
#[cycle(term)]
fn definitions(
    alloc: Global,
    tables: &mut Tables,
    trees: &[tree::Def],
) -> Result<Vec<Def>, ReadRefusal>
    ensures made { IfOk result (λ made. AreDefs trees.now tables.old tables.new made.items) }
    ensures only_memory { IfErr result (λ e. e ≡ Memory) }
{
    let mut items = Vec::new(alloc);
    for def in trees {
        let rarg = def.rarg;
        let ty = term(alloc, tables, &def.ty)?;
        let body = term(alloc, tables, &def.body)?;
        items.push(Def { ty, body, rarg })?;
    }
    Ok(items)
}
