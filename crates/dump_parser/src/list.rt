//! The brackets of a list whose members begin with a bracket.

ghost use Rattle.std.specs.Prelude.{◌≡◌};
ghost use Rattle.sexp_reader.specs.Stream.{source, stream, depth, text_at};
ghost use Rattle.dump_parser.specs.Reading.{ReadsMember};

use crate::token::next;
use dump_grammar::ReadRefusal;
use sexp_reader::{TokenKind, Tokens};

/// A bracket that opens a member of a list, or closes the list, by its offset.
#[derive(Clone, Copy, Debug)]
pub(crate) enum Member {
    Open(usize),
    Close(usize),
}

/// The bracket that opens the next member of a list, or closes the list. The limits of the list are its caller's.
pub(crate) fn next_member(tokens: &mut Tokens) -> Result<Member, ReadRefusal>
    ensures reads { ReadsMember result tokens.old tokens.new }
{
    match next(tokens)? {
        Some(token) if token.kind == TokenKind::Open => Ok(Member::Open(token.start)),
        Some(token) if token.kind == TokenKind::Close => Ok(Member::Close(token.start)),
        Some(token) => Err(ReadRefusal::Syntax {
            offset: token.start,
        }),
        None => Err(ReadRefusal::Syntax {
            offset: tokens.len(),
        }),
    }
}
