//! Terms of the text. A function stands for each bracketed form, so that calls nest as brackets do.

ghost use Rattle.std.specs.Prelude.{◌≡◌, ◌<◌, ◌≤◌, [], ◌∷◌, ◌++◌, IfOk, length, map};
ghost use Rattle.dump_grammar.specs.declared.keyword.Former.TheVariants as formers;
ghost use Rattle.dump_grammar.specs.declared.keyword.Keyword.TheVariants as words;
ghost use Rattle.dump_grammar.specs.Table.{IOpen, IClose, IWord, IBinder, INumber, INames, ITerm, IHead, IList, Arguments, Terms, Branches, Definitions, Do, Zero, NoTerms, NoBranches, NoDefs, AddBranch, AddDef, row, next, act, VNumber, VName, VTerm, VTerms, VDefs};
ghost use Rattle.dump_grammar.specs.Named.{App};
ghost use Rattle.dump_parser.specs.Reading.{Reads};
ghost use Rattle.dump_parser.specs.Tree.{named_def, match_values};

use crate::head::head_word;
use crate::leaf::{
    constant_name, constructor_name, family_name, index, matched, names, predicate_binders,
    sort_term, variable,
};
use crate::leaves::Leaves;
use crate::list::{Member, next_member};
use crate::measure::{finish, make};
use crate::number::number;
use crate::token::{binder, close, open, word};
use crate::tree::{Branch, Def, Match, Node, Tree};
use dump_grammar::{Former, Keyword, Limit, ReadRefusal};
use sexp_reader::Tokens;
use std::alloc::Global;

/// The most definitions that a fixpoint may have.
const MAX_DEFINITIONS: usize = 255;

/// A term.
#[cycle(reading)]
#[tactic(auto, using(crate::proofs::Steps::judged_term))]
pub(crate) fn term<'a>(
    alloc: Global,
    leaves: &mut Leaves<'a>,
    tokens: &mut Tokens<'a>,
) -> Result<Tree<'a>, ReadRefusal>
    ensures reads { Reads result tokens.old tokens.new (ITerm ∷ []) [] (λ t vs. VTerm t ∷ vs) }
{
    open(tokens)?;
    let t = after_bracket(alloc, leaves, tokens)?;
    Ok(t)
}

/// A term after its bracket.
#[cycle(reading)]
#[tactic(auto)]
pub(crate) fn after_bracket<'a>(
    alloc: Global,
    leaves: &mut Leaves<'a>,
    tokens: &mut Tokens<'a>,
) -> Result<Tree<'a>, ReadRefusal>
    ensures reads { Reads result tokens.old tokens.new (IHead ∷ []) [] (λ t vs. VTerm t ∷ vs) }
{
    let former = head_word(tokens)?;
    let t = after_head(alloc, leaves, tokens, former)?;
    Ok(t)
}

/// A term after its head.
#[cycle(reading)]
#[tactic(auto)]
pub(crate) fn after_head<'a>(
    alloc: Global,
    leaves: &mut Leaves<'a>,
    tokens: &mut Tokens<'a>,
    former: Former,
) -> Result<Tree<'a>, ReadRefusal>
    ensures reads { Reads result tokens.old tokens.new (row former) [] (λ t vs. VTerm t ∷ vs) }
{
    match former {
        Former::Rel => variable(alloc, leaves, tokens),
        Former::Sort => sort_term(alloc, tokens),
        Former::Prod => product(alloc, leaves, tokens),
        Former::Lambda => lambda(alloc, leaves, tokens),
        Former::LetIn => let_in(alloc, leaves, tokens),
        Former::App => application(alloc, leaves, tokens),
        Former::Const => constant_name(alloc, leaves, tokens),
        Former::Ind => family_name(alloc, leaves, tokens),
        Former::Construct => constructor_name(alloc, leaves, tokens),
        Former::Case => match_term(alloc, leaves, tokens),
        Former::Fix => fixpoint(alloc, leaves, tokens),
        Former::Cast => cast(alloc, leaves, tokens),
    }
}

#[cycle(reading)]
#[tactic(auto, using(crate::proofs::Steps::judged_do))]
fn product<'a>(
    alloc: Global,
    leaves: &mut Leaves<'a>,
    tokens: &mut Tokens<'a>,
) -> Result<Tree<'a>, ReadRefusal>
    ensures reads { Reads result tokens.old tokens.new (row formers.Prod) [] (λ t vs. VTerm t ∷ vs) }
{
    binder(tokens)?;
    let domain = term(alloc, leaves, tokens)?;
    let codomain = term(alloc, leaves, tokens)?;
    let t = finish(alloc, tokens, Node::Prod(domain, codomain))?;
    Ok(t)
}

#[cycle(reading)]
#[tactic(auto, using(crate::proofs::Steps::judged_do))]
fn lambda<'a>(
    alloc: Global,
    leaves: &mut Leaves<'a>,
    tokens: &mut Tokens<'a>,
) -> Result<Tree<'a>, ReadRefusal>
    ensures reads { Reads result tokens.old tokens.new (row formers.Lambda) [] (λ t vs. VTerm t ∷ vs) }
{
    binder(tokens)?;
    let domain = term(alloc, leaves, tokens)?;
    let body = term(alloc, leaves, tokens)?;
    let t = finish(alloc, tokens, Node::Lambda(domain, body))?;
    Ok(t)
}

#[cycle(reading)]
#[tactic(auto, using(crate::proofs::Steps::judged_do))]
fn let_in<'a>(
    alloc: Global,
    leaves: &mut Leaves<'a>,
    tokens: &mut Tokens<'a>,
) -> Result<Tree<'a>, ReadRefusal>
    ensures reads { Reads result tokens.old tokens.new (row formers.LetIn) [] (λ t vs. VTerm t ∷ vs) }
{
    binder(tokens)?;
    let value = term(alloc, leaves, tokens)?;
    let ty = term(alloc, leaves, tokens)?;
    let body = term(alloc, leaves, tokens)?;
    let t = finish(alloc, tokens, Node::LetIn(value, ty, body))?;
    Ok(t)
}

#[cycle(reading)]
#[tactic(auto, using(crate::proofs::Steps::judged_do))]
fn cast<'a>(
    alloc: Global,
    leaves: &mut Leaves<'a>,
    tokens: &mut Tokens<'a>,
) -> Result<Tree<'a>, ReadRefusal>
    ensures reads { Reads result tokens.old tokens.new (row formers.Cast) [] (λ t vs. VTerm t ∷ vs) }
{
    let subject = term(alloc, leaves, tokens)?;
    binder(tokens)?;
    let ty = term(alloc, leaves, tokens)?;
    let t = finish(alloc, tokens, Node::Cast(subject, ty))?;
    Ok(t)
}

/// A run of applications. It nests by its brackets alone, however many arguments there are.
#[cycle(reading)]
#[tactic(auto, using(crate::proofs::Steps::judged_do))]
fn application<'a>(
    alloc: Global,
    leaves: &mut Leaves<'a>,
    tokens: &mut Tokens<'a>,
) -> Result<Tree<'a>, ReadRefusal>
    ensures reads { Reads result tokens.old tokens.new (row formers.App) [] (λ t vs. VTerm t ∷ vs) }
{
    let function = term(alloc, leaves, tokens)?;
    let argument = term(alloc, leaves, tokens)?;
    let t = arguments(alloc, leaves, tokens, function, argument)?;
    Ok(t)
}

/// The further arguments of a function, up to the bracket that closes them, and the whole application.
#[cycle(reading)]
#[tactic(auto, using(crate::proofs::Steps::judged_do, crate::proofs::Lists::applied_more))]
fn arguments<'a>(
    alloc: Global,
    leaves: &mut Leaves<'a>,
    tokens: &mut Tokens<'a>,
    function: Tree<'a>,
    argument: Tree<'a>,
) -> Result<Tree<'a>, ReadRefusal>
    ensures reads { Reads result tokens.old tokens.new (IList Arguments ∷ []) (VTerm (App function.entry argument.entry) ∷ []) (λ t vs. VTerm t ∷ vs) }
{
    let mut list = Vec::new(alloc);
    loop {
        match next_member(tokens)? {
            Member::Close(offset) => {
                let t = make(alloc, Node::App(function, argument, list), offset)?;
                return Ok(t);
            }
            Member::Open(_) => {
                let t = after_bracket(alloc, leaves, tokens)?;
                list.push(t)?;
            }
        }
    }
}

/// Terms up to the bracket that closes them.
#[cycle(reading)]
#[tactic(auto, using(crate::proofs::Steps::judged_do))]
fn terms<'a>(
    alloc: Global,
    leaves: &mut Leaves<'a>,
    tokens: &mut Tokens<'a>,
) -> Result<Vec<Tree<'a>>, ReadRefusal>
    ensures reads { Reads result tokens.old tokens.new (Do NoTerms (IList Terms) ∷ []) [] (λ v vs. VTerms v.items ∷ vs) }
{
    let mut list = Vec::new(alloc);
    loop {
        match next_member(tokens)? {
            Member::Close(_) => return Ok(list),
            Member::Open(_) => {
                let t = after_bracket(alloc, leaves, tokens)?;
                list.push(t)?;
            }
        }
    }
}

/// Terms after a word, in brackets.
#[cycle(reading)]
#[tactic(auto)]
pub(crate) fn term_list<'a>(
    alloc: Global,
    leaves: &mut Leaves<'a>,
    tokens: &mut Tokens<'a>,
    expected: Keyword,
) -> Result<Vec<Tree<'a>>, ReadRefusal>
    ensures reads { Reads result tokens.old tokens.new (IOpen ∷ IWord expected ∷ Do NoTerms (IList Terms) ∷ []) [] (λ v vs. VTerms v.items ∷ vs) }
{
    open(tokens)?;
    word(tokens, expected)?;
    let list = terms(alloc, leaves, tokens)?;
    Ok(list)
}

/// A term and a bracket that closes what it stands in.
#[cycle(reading)]
#[tactic(auto)]
pub(crate) fn last_term<'a>(
    alloc: Global,
    leaves: &mut Leaves<'a>,
    tokens: &mut Tokens<'a>,
) -> Result<Tree<'a>, ReadRefusal>
    ensures reads { Reads result tokens.old tokens.new (ITerm ∷ IClose ∷ []) [] (λ t vs. VTerm t ∷ vs) }
{
    let t = term(alloc, leaves, tokens)?;
    close(tokens)?;
    Ok(t)
}

/// A branch of a match, after its bracket.
#[cycle(reading)]
#[tactic(auto, using(crate::proofs::Steps::judged_do))]
fn branch<'a>(
    alloc: Global,
    leaves: &mut Leaves<'a>,
    tokens: &mut Tokens<'a>,
) -> Result<Branch<'a>, ReadRefusal>
    ensures reads { Reads result tokens.old tokens.new (IWord words.Branch ∷ IOpen ∷ Do Zero INames ∷ ITerm ∷ Do AddBranch IClose ∷ []) [] (λ b vs. act AddBranch (VTerm b.body ∷ VNumber b.binders ∷ vs)) }
{
    word(tokens, Keyword::Branch)?;
    open(tokens)?;
    let binders = names(tokens)?;
    let body = term(alloc, leaves, tokens)?;
    close(tokens)?;
    Ok(Branch { binders, body })
}

/// The branches of a match, up to the bracket that closes them, and the whole match.
#[cycle(reading)]
#[tactic(auto, using(crate::proofs::Steps::judged_do))]
fn branches<'a>(
    alloc: Global,
    leaves: &mut Leaves<'a>,
    tokens: &mut Tokens<'a>,
    front: Match<'a>,
) -> Result<Tree<'a>, ReadRefusal>
    ensures reads { Reads result tokens.old tokens.new (IList Branches ∷ []) (match_values front.entry) (λ t vs. VTerm t ∷ vs) }
{
    let mut whole = front;
    loop {
        match next_member(tokens)? {
            Member::Close(offset) => {
                let whole = Box::new(alloc, whole)?;
                let t = make(alloc, Node::Case(whole), offset)?;
                return Ok(t);
            }
            Member::Open(_) => {
                let b = branch(alloc, leaves, tokens)?;
                whole.branches.push(b)?;
            }
        }
    }
}

/// A match after its parameters.
#[cycle(reading)]
#[tactic(auto, using(crate::proofs::Steps::judged_do))]
fn match_rest<'a>(
    alloc: Global,
    leaves: &mut Leaves<'a>,
    tokens: &mut Tokens<'a>,
    block: &'a str,
    family: u32,
    params: Vec<Tree<'a>>,
) -> Result<Tree<'a>, ReadRefusal>
    ensures reads { Reads result tokens.old tokens.new (IOpen ∷ IWord words.Pred ∷ IOpen ∷ Do Zero INames ∷ ITerm ∷ IClose ∷ ITerm ∷ Do NoBranches (IList Branches) ∷ []) (VTerms params.entry.items ∷ VNumber family ∷ VName block.now ∷ []) (λ t vs. VTerm t ∷ vs) }
{
    let binders = predicate_binders(tokens)?;
    let ret = last_term(alloc, leaves, tokens)?;
    let scrut = term(alloc, leaves, tokens)?;
    let front = Match {
        block,
        family,
        params,
        binders,
        ret,
        scrut,
        branches: Vec::new(alloc),
    };
    let t = branches(alloc, leaves, tokens, front)?;
    Ok(t)
}

/// A match after its head.
#[cycle(reading)]
#[tactic(auto)]
fn match_term<'a>(
    alloc: Global,
    leaves: &mut Leaves<'a>,
    tokens: &mut Tokens<'a>,
) -> Result<Tree<'a>, ReadRefusal>
    ensures reads { Reads result tokens.old tokens.new (row formers.Case) [] (λ t vs. VTerm t ∷ vs) }
{
    let of = matched(tokens)?;
    let params = term_list(alloc, leaves, tokens, Keyword::Params)?;
    let t = match_rest(alloc, leaves, tokens, of.0, of.1, params)?;
    Ok(t)
}

/// A definition of a fixpoint, after its bracket.
#[cycle(reading)]
#[tactic(auto, using(crate::proofs::Steps::judged_do))]
fn definition<'a>(
    alloc: Global,
    leaves: &mut Leaves<'a>,
    tokens: &mut Tokens<'a>,
) -> Result<Def<'a>, ReadRefusal>
    ensures reads { Reads result tokens.old tokens.new (IWord words.Def ∷ IBinder ∷ ITerm ∷ ITerm ∷ INumber ∷ Do AddDef IClose ∷ []) [] (λ d vs. act AddDef (VNumber d.rarg ∷ VTerm d.body ∷ VTerm d.ty ∷ vs)) }
{
    word(tokens, Keyword::Def)?;
    binder(tokens)?;
    let ty = term(alloc, leaves, tokens)?;
    let body = term(alloc, leaves, tokens)?;
    let rarg = number(tokens)?;
    close(tokens)?;
    Ok(Def { ty, body, rarg })
}

/// The definitions of a fixpoint after the first, up to the bracket that closes them: all of them.
#[cycle(reading)]
#[tactic(auto, using(crate::proofs::Steps::judged_do))]
fn definitions<'a>(
    alloc: Global,
    leaves: &mut Leaves<'a>,
    tokens: &mut Tokens<'a>,
    first: Def<'a>,
) -> Result<Vec<Def<'a>>, ReadRefusal>
    ensures reads { Reads result tokens.old tokens.new (IList Definitions ∷ []) (VDefs (named_def first.entry ∷ []) ∷ []) (λ v vs. VDefs (map named_def v.items) ∷ vs) }
    ensures many { IfOk result (λ v. (0 < length v.items) × (length v.items ≤ 255)) }
{
    let mut list = Vec::new(alloc);
    list.push(first)?;
    loop {
        match next_member(tokens)? {
            Member::Close(_) => return Ok(list),
            Member::Open(offset) => {
                if list.len() >= MAX_DEFINITIONS {
                    return Err(ReadRefusal::Limit {
                        which: Limit::Definitions,
                        offset,
                    });
                }
                let d = definition(alloc, leaves, tokens)?;
                list.push(d)?;
            }
        }
    }
}

/// The definitions of a fixpoint, in brackets.
#[cycle(reading)]
#[tactic(auto, using(crate::proofs::Steps::judged_do))]
fn definition_list<'a>(
    alloc: Global,
    leaves: &mut Leaves<'a>,
    tokens: &mut Tokens<'a>,
) -> Result<Vec<Def<'a>>, ReadRefusal>
    ensures reads { Reads result tokens.old tokens.new (IOpen ∷ Do NoDefs IOpen ∷ next Definitions) [] (λ v vs. VDefs (map named_def v.items) ∷ vs) }
    ensures many { IfOk result (λ v. (0 < length v.items) × (length v.items ≤ 255)) }
{
    open(tokens)?;
    open(tokens)?;
    let first = definition(alloc, leaves, tokens)?;
    let defs = definitions(alloc, leaves, tokens, first)?;
    Ok(defs)
}

/// A fixpoint after its head.
#[cycle(reading)]
#[tactic(auto, using(crate::proofs::Steps::judged_do))]
fn fixpoint<'a>(
    alloc: Global,
    leaves: &mut Leaves<'a>,
    tokens: &mut Tokens<'a>,
) -> Result<Tree<'a>, ReadRefusal>
    ensures reads { Reads result tokens.old tokens.new (row formers.Fix) [] (λ t vs. VTerm t ∷ vs) }
{
    let defs = definition_list(alloc, leaves, tokens)?;
    let i = index(tokens, defs.as_slice())?;
    let t = finish(alloc, tokens, Node::Fix(defs, i))?;
    Ok(t)
}
