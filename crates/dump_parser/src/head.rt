//! The words after the bracket of a term.

ghost use Rattle.std.specs.Prelude.{◌≡◌, [], ◌∷◌, None, Some};
ghost use Rattle.dump_grammar.specs.Table.{IHead, ITypeHead, row};
ghost use Rattle.dump_grammar.specs.Words.{former_of as former, foreign_of as foreign};
ghost use Rattle.dump_parser.specs.Reading.{Leads};

use crate::token::next;
use dump_grammar::{Foreign, Former, Keyword, ReadRefusal, foreign_of, former_of, is_word};
use sexp_reader::{TokenKind, Tokens};

/// The head of a term, after its bracket. The head of a form that is known and not read is refused as such.
pub(crate) fn head_word(tokens: &mut Tokens) -> Result<Former, ReadRefusal>
    ensures leads { Leads result tokens.old tokens.new (IHead ∷ []) [] row (λ f vs. vs) }
{
    match next(tokens)? {
        Some(token) if token.kind == TokenKind::Atom => {
            if let Some(former) = former_of(tokens.text(token)) {
                return Ok(former);
            }
            match foreign_of(tokens.text(token)) {
                Some(what) => Err(ReadRefusal::Unsupported {
                    what,
                    offset: token.start,
                }),
                None => Err(ReadRefusal::Syntax {
                    offset: token.start,
                }),
            }
        }
        Some(token) => Err(ReadRefusal::Syntax {
            offset: token.start,
        }),
        None => Err(ReadRefusal::Syntax {
            offset: tokens.len(),
        }),
    }
}

/// The head of a constant's type, after its bracket. `universes` in its place begins a form that is known and not read.
pub(crate) fn type_head_word(tokens: &mut Tokens) -> Result<Former, ReadRefusal>
    ensures leads { Leads result tokens.old tokens.new (ITypeHead ∷ []) [] row (λ f vs. vs) }
{
    match next(tokens)? {
        Some(token) if token.kind == TokenKind::Atom => {
            if let Some(former) = former_of(tokens.text(token)) {
                return Ok(former);
            }
            if is_word(tokens.text(token), Keyword::Universes) {
                return Err(ReadRefusal::Unsupported {
                    what: Foreign::Polymorphic,
                    offset: token.start,
                });
            }
            match foreign_of(tokens.text(token)) {
                Some(what) => Err(ReadRefusal::Unsupported {
                    what,
                    offset: token.start,
                }),
                None => Err(ReadRefusal::Syntax {
                    offset: token.start,
                }),
            }
        }
        Some(token) => Err(ReadRefusal::Syntax {
            offset: token.start,
        }),
        None => Err(ReadRefusal::Syntax {
            offset: tokens.len(),
        }),
    }
}
