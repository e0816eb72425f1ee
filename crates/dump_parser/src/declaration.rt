//! The declarations of an environment, up to the word of main.

ghost use Rattle.std.specs.Prelude.{◌≡◌, [], ◌∷◌, List, length};
ghost use Rattle.dump_grammar.specs.Named.{NamedDecl};
ghost use Rattle.dump_grammar.specs.Table.{IDecls, opened, VDecls};
ghost use Rattle.dump_parser.specs.Reading.{Leads};
ghost use Rattle.dump_parser.specs.Environment.{behind, with_next};
ghost use Rattle.dump_grammar.specs.Limits.{is_declaration as declaration};
ghost use Rattle.dump_parser.specs.Opening.{IsOpening, ReadsOpening};

use crate::block::block;
use crate::constant::constant;
use crate::environment::DeclTree;
use crate::leaves::Leaves;
use crate::token::next;
use dump_grammar::{Foreign, Keyword, Limit, Opening, ReadRefusal, is_word, opening_of};
use sexp_reader::{TokenKind, Tokens};
use std::alloc::Global;

/// The most declarations that an environment may have.
const MAX_DECLARATIONS: usize = 65536;

/// Whether the word begins a declaration, one that is known and not read included.
fn is_declaration(text: &[u8]) -> bool
    ensures declaration { result ≡ declaration text.now }
{
    is_word(text, Keyword::ConstantDecl)
        || is_word(text, Keyword::InductiveDecl)
        || is_word(text, Keyword::CoInductiveDecl)
}

/// What begins with a word, where the word stands at an offset after so many declarations and the bracket before it at another.
#[tactic(auto, using(crate::proofs::Declarations::declaration_limits))]
fn opening_at(
    text: &[u8],
    count: usize,
    bracket: usize,
    offset: usize,
) -> Result<Opening, ReadRefusal>
    ensures opening { IsOpening result text.now count bracket offset }
{
    if count >= MAX_DECLARATIONS && is_declaration(text) {
        return Err(ReadRefusal::Limit {
            which: Limit::Declarations,
            offset: bracket,
        });
    }
    match opening_of(text) {
        Some(opening) => Ok(opening),
        None if is_word(text, Keyword::CoInductiveDecl) => Err(ReadRefusal::Unsupported {
            what: Foreign::CoInductive,
            offset,
        }),
        None => Err(ReadRefusal::Syntax { offset }),
    }
}

/// The bracket before a declaration or main. Its limit is its caller's.
fn opening_bracket(tokens: &mut Tokens) -> Result<usize, ReadRefusal>
    ensures reads { ReadsOpening result tokens.old tokens.new }
{
    match next(tokens)? {
        Some(token) if token.kind == TokenKind::Open => Ok(token.start),
        Some(token) => Err(ReadRefusal::Syntax {
            offset: token.start,
        }),
        None => Err(ReadRefusal::Syntax {
            offset: tokens.len(),
        }),
    }
}

/// What begins after so many declarations, with its bracket and its word. `Limit` of the declarations, at the bracket, where a declaration begins
/// that is one too many.
fn opening(tokens: &mut Tokens, before: usize) -> Result<Opening, ReadRefusal>
    ensures leads { (ds : List NamedDecl) → length ds ≡ before → Leads result tokens.old tokens.new (IDecls ∷ []) (VDecls ds ∷ []) opened (λ o vs. VDecls ds ∷ vs) }
{
    let bracket = opening_bracket(tokens)?;
    match next(tokens)? {
        Some(token) if token.kind == TokenKind::Atom => {
            opening_at(tokens.text(token), before, bracket, token.start)
        }
        Some(token) => Err(ReadRefusal::Syntax {
            offset: token.start,
        }),
        None => Err(ReadRefusal::Syntax {
            offset: tokens.len(),
        }),
    }
}

/// The declaration that follows so many, or none where the word of main follows, which is read.
pub(crate) fn declaration<'a>(
    alloc: Global,
    leaves: &mut Leaves<'a>,
    tokens: &mut Tokens<'a>,
    before: usize,
) -> Result<Option<DeclTree<'a>>, ReadRefusal>
    ensures leads { (ds : List NamedDecl) → length ds ≡ before → Leads result tokens.old tokens.new (IDecls ∷ []) (VDecls ds ∷ []) behind (λ o vs. VDecls (with_next ds o) ∷ vs) }
{
    match opening(tokens, before)? {
        Opening::Main => Ok(None),
        Opening::Constant => {
            let tree = constant(alloc, leaves, tokens)?;
            Ok(Some(tree))
        }
        Opening::Block => {
            let tree = block(alloc, leaves, tokens)?;
            Ok(Some(tree))
        }
    }
}
