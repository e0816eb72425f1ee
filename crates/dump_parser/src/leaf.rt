//! The terms of the text without subterms, and what a match is of.

ghost use Rattle.std.specs.Prelude.{◌≡◌, [], ◌∷◌, ◌++◌, ◌≤◌, ◌<◌, IfOk, length, map};
ghost use Rattle.dump_grammar.specs.declared.keyword.Former.TheVariants as formers;
ghost use Rattle.dump_grammar.specs.declared.keyword.Keyword.TheVariants as words;
ghost use Rattle.dump_grammar.specs.Table.{IOpen, IClose, IWord, IName, INumber, IIndex, INames, Do, Zero, row, VNumber, VName, VTerm, VDefs};
ghost use Rattle.dump_parser.specs.Reading.{Reads};
ghost use Rattle.dump_parser.specs.Tree.{named_def};

use crate::leaves::{Leaf, Leaves};
use crate::measure::{finish, finish_leaf};
use crate::number::{Numeral, number, numeral_of};
use crate::sort::sort;
use crate::token::{close, name, next, open, word};
use crate::tree::{Def, Node, Tree};
use dump_grammar::{Keyword, ReadRefusal};
use sexp_reader::{TokenKind, Tokens};
use std::alloc::Global;

/// A variable after its head.
#[tactic(auto, using(crate::proofs::Steps::judged_do))]
pub(crate) fn variable<'a>(
    alloc: Global,
    leaves: &mut Leaves<'a>,
    tokens: &mut Tokens<'a>,
) -> Result<Tree<'a>, ReadRefusal>
    ensures reads { Reads result tokens.old tokens.new (row formers.Rel) [] (λ t vs. VTerm t ∷ vs) }
{
    let n = number(tokens)?;
    let t = finish_leaf(alloc, leaves, tokens, Leaf::Rel(n))?;
    Ok(t)
}

/// A sort after its head.
#[tactic(auto, using(crate::proofs::Steps::judged_do))]
pub(crate) fn sort_term<'a>(alloc: Global, tokens: &mut Tokens<'a>) -> Result<Tree<'a>, ReadRefusal>
    ensures reads { Reads result tokens.old tokens.new (row formers.Sort) [] (λ t vs. VTerm t ∷ vs) }
{
    let s = sort(alloc, tokens)?;
    let t = finish(alloc, tokens, Node::Sort(s))?;
    Ok(t)
}

/// A constant after its head.
#[tactic(auto, using(crate::proofs::Steps::judged_do))]
pub(crate) fn constant_name<'a>(
    alloc: Global,
    leaves: &mut Leaves<'a>,
    tokens: &mut Tokens<'a>,
) -> Result<Tree<'a>, ReadRefusal>
    ensures reads { Reads result tokens.old tokens.new (row formers.Const) [] (λ t vs. VTerm t ∷ vs) }
{
    let text = name(tokens)?;
    let t = finish_leaf(alloc, leaves, tokens, Leaf::Const(text))?;
    Ok(t)
}

/// A family after its head.
#[tactic(auto, using(crate::proofs::Steps::judged_do))]
pub(crate) fn family_name<'a>(
    alloc: Global,
    leaves: &mut Leaves<'a>,
    tokens: &mut Tokens<'a>,
) -> Result<Tree<'a>, ReadRefusal>
    ensures reads { Reads result tokens.old tokens.new (row formers.Ind) [] (λ t vs. VTerm t ∷ vs) }
{
    let text = name(tokens)?;
    let n = number(tokens)?;
    let t = finish_leaf(alloc, leaves, tokens, Leaf::Ind(text, n))?;
    Ok(t)
}

/// A constructor after its head.
#[tactic(auto, using(crate::proofs::Steps::judged_do))]
pub(crate) fn constructor_name<'a>(
    alloc: Global,
    leaves: &mut Leaves<'a>,
    tokens: &mut Tokens<'a>,
) -> Result<Tree<'a>, ReadRefusal>
    ensures reads { Reads result tokens.old tokens.new (row formers.Construct) [] (λ t vs. VTerm t ∷ vs) }
{
    let text = name(tokens)?;
    let n = number(tokens)?;
    let c = number(tokens)?;
    let t = finish_leaf(alloc, leaves, tokens, Leaf::Construct(text, n, c))?;
    Ok(t)
}

/// The family that a match is of, in its brackets.
pub(crate) fn matched<'a>(tokens: &mut Tokens<'a>) -> Result<(&'a str, u32), ReadRefusal>
    ensures reads { Reads result tokens.old tokens.new (IOpen ∷ IName ∷ INumber ∷ IClose ∷ []) [] (λ x vs. VNumber x.1 ∷ VName x.0.now ∷ vs) }
{
    open(tokens)?;
    let text = name(tokens)?;
    let n = number(tokens)?;
    close(tokens)?;
    Ok((text, n))
}

/// The names of binders up to the bracket that closes them, counted. `Memory` where 32 bits can't hold the count.
#[tactic(auto, using(crate::proofs::Steps::judged_do))]
pub(crate) fn names(tokens: &mut Tokens) -> Result<u32, ReadRefusal>
    ensures reads { Reads result tokens.old tokens.new (Do Zero INames ∷ []) [] (λ n vs. VNumber n ∷ vs) }
{
    let mut count: u32 = 0;
    loop {
        match next(tokens)? {
            Some(token) if token.kind == TokenKind::Close => return Ok(count),
            Some(token) if token.kind == TokenKind::Atom => {
                let Some(more) = count.checked_add(1) else {
                    return Err(ReadRefusal::Memory);
                };
                count = more;
            }
            Some(token) => {
                return Err(ReadRefusal::Syntax {
                    offset: token.start,
                });
            }
            None => {
                return Err(ReadRefusal::Syntax {
                    offset: tokens.len(),
                });
            }
        }
    }
}

/// The front of the predicate of a match: the number of its binders.
pub(crate) fn predicate_binders(tokens: &mut Tokens) -> Result<u32, ReadRefusal>
    ensures reads { Reads result tokens.old tokens.new (IOpen ∷ IWord words.Pred ∷ IOpen ∷ Do Zero INames ∷ []) [] (λ n vs. VNumber n ∷ vs) }
{
    open(tokens)?;
    word(tokens, Keyword::Pred)?;
    open(tokens)?;
    let count = names(tokens)?;
    Ok(count)
}

/// The index of a fixpoint, below the number of its definitions.
#[tactic(auto, using(crate::proofs::Numbers::index_limits))]
pub(crate) fn index(tokens: &mut Tokens, defs: &[Def]) -> Result<u32, ReadRefusal>
    requires { (0 < length defs.now) × (length defs.now ≤ 255) }
    ensures reads { Reads result tokens.old tokens.new (IIndex ∷ []) (VDefs (map named_def defs.now) ∷ []) (λ n vs. VNumber n ∷ VDefs (map named_def defs.now) ∷ vs) }
    ensures below { IfOk result (λ n. n < length defs.now) }
{
    match next(tokens)? {
        Some(token) if token.kind == TokenKind::Atom => match numeral_of(tokens.text(token)) {
            Numeral::Number(n) if (n as usize) < defs.len() => Ok(n),
            _ => Err(ReadRefusal::Syntax {
                offset: token.start,
            }),
        },
        Some(token) => Err(ReadRefusal::Syntax {
            offset: token.start,
        }),
        None => Err(ReadRefusal::Syntax {
            offset: tokens.len(),
        }),
    }
}
