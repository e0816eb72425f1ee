//! Constants.

ghost use Rattle.std.specs.Prelude.{[], ◌∷◌, ◌++◌};
ghost use Rattle.dump_grammar.specs.Table.{IClose, IName, IType, IBody, Do, AddConstant, VTerm};
ghost use Rattle.dump_parser.specs.Reading.{Reads};
ghost use Rattle.dump_parser.specs.Environment.{body_value, declared};

use crate::environment::DeclTree;
use crate::head::type_head_word;
use crate::leaves::Leaves;
use crate::term::{after_bracket, after_head};
use crate::token::{close, name, next, open};
use crate::tree::Tree;
use dump_grammar::{Keyword, ReadRefusal, is_word};
use sexp_reader::{TokenKind, Tokens};
use std::alloc::Global;

/// The type of a constant.
#[tactic(auto, using(crate::proofs::Steps::judged_type))]
fn constant_type<'a>(
    alloc: Global,
    leaves: &mut Leaves<'a>,
    tokens: &mut Tokens<'a>,
) -> Result<Tree<'a>, ReadRefusal>
    ensures reads { Reads result tokens.old tokens.new (IType ∷ []) [] (λ t vs. VTerm t ∷ vs) }
{
    open(tokens)?;
    let former = type_head_word(tokens)?;
    let t = after_head(alloc, leaves, tokens, former)?;
    Ok(t)
}

/// The body of a constant, if it has one.
fn body<'a>(
    alloc: Global,
    leaves: &mut Leaves<'a>,
    tokens: &mut Tokens<'a>,
) -> Result<Option<Tree<'a>>, ReadRefusal>
    ensures reads { Reads result tokens.old tokens.new (IBody ∷ []) [] (λ b vs. body_value b ∷ vs) }
{
    match next(tokens)? {
        Some(token) if token.kind == TokenKind::Open => {
            let t = after_bracket(alloc, leaves, tokens)?;
            Ok(Some(t))
        }
        Some(token) => {
            if token.kind == TokenKind::Atom && is_word(tokens.text(token), Keyword::NoBody) {
                Ok(None)
            } else {
                Err(ReadRefusal::Syntax {
                    offset: token.start,
                })
            }
        }
        None => Err(ReadRefusal::Syntax {
            offset: tokens.len(),
        }),
    }
}

/// A constant after its word.
#[tactic(auto, using(crate::proofs::Steps::judged_do))]
pub(crate) fn constant<'a>(
    alloc: Global,
    leaves: &mut Leaves<'a>,
    tokens: &mut Tokens<'a>,
) -> Result<DeclTree<'a>, ReadRefusal>
    ensures reads { Reads result tokens.old tokens.new (IName ∷ IType ∷ IBody ∷ Do AddConstant IClose ∷ []) [] declared }
{
    let text = name(tokens)?;
    let ty = constant_type(alloc, leaves, tokens)?;
    let value = body(alloc, leaves, tokens)?;
    close(tokens)?;
    Ok(DeclTree::Constant {
        name: text,
        ty,
        body: value,
    })
}
