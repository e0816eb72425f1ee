//! Single tokens of the text.

ghost use Rattle.std.specs.Prelude.{◌≡◌, [], ◌∷◌, Some, None, Ok, Err};
ghost use Rattle.std.specs.Str.{IsAscii};
ghost use Rattle.sexp_reader.specs.Stream.{source, stream, depth, text_at};
ghost use Rattle.dump_grammar.specs.Table.{IOpen, IClose, IEntryEnd, IWord, IParams, IBinder, IName, ILevel, VName};
ghost use Rattle.dump_parser.specs.Reading.{judged, Gets, Ahead, IsAsciiAtom, Reads};

use dump_grammar::{Foreign, Keyword, Limit, ReadRefusal, is_word};
use sexp_reader::{Token, TokenFault, TokenKind, Tokens};

/// The next token, or the tokenizer's refusal.
pub(crate) fn next(tokens: &mut Tokens) -> Result<Option<Token>, ReadRefusal>
    ensures gets { Gets result tokens.old tokens.new }
    ensures ahead { Ahead result tokens.old tokens.new }
    ensures ascii { IsAsciiAtom result tokens.old }
{
    match tokens.next() {
        Ok(token) => Ok(token),
        Err(TokenFault::Stray { offset }) => Err(ReadRefusal::Syntax { offset }),
        Err(TokenFault::NameBytes { offset }) => Err(ReadRefusal::Limit {
            which: Limit::NameBytes,
            offset,
        }),
        Err(TokenFault::Nesting { offset }) => Err(ReadRefusal::Limit {
            which: Limit::Nesting,
            offset,
        }),
    }
}

/// ASCII bytes as text.
pub(crate) fn text_of(bytes: &[u8]) -> &str
    requires { IsAscii bytes.now }
    ensures same { result.now ≡ bytes.now }
{
    match str::from_utf8(bytes) {
        Ok(text) => text,
        Err(_) => unreachable!(),
    }
}

/// A bracket that opens.
pub(crate) fn open(tokens: &mut Tokens) -> Result<(), ReadRefusal>
    ensures reads { Reads result tokens.old tokens.new (IOpen ∷ []) [] (λ x vs. vs) }
{
    match next(tokens)? {
        Some(token) if token.kind == TokenKind::Open => Ok(()),
        Some(token) => Err(ReadRefusal::Syntax {
            offset: token.start,
        }),
        None => Err(ReadRefusal::Syntax {
            offset: tokens.len(),
        }),
    }
}

/// A bracket that closes.
pub(crate) fn close(tokens: &mut Tokens) -> Result<(), ReadRefusal>
    ensures reads { Reads result tokens.old tokens.new (IClose ∷ []) [] (λ x vs. vs) }
{
    match next(tokens)? {
        Some(token) if token.kind == TokenKind::Close => Ok(()),
        Some(token) => Err(ReadRefusal::Syntax {
            offset: token.start,
        }),
        None => Err(ReadRefusal::Syntax {
            offset: tokens.len(),
        }),
    }
}

/// The bracket that closes an entry of a telescope. A third item in its place is a form that is known and not read.
pub(crate) fn entry_end(tokens: &mut Tokens) -> Result<(), ReadRefusal>
    ensures reads { Reads result tokens.old tokens.new (IEntryEnd ∷ []) [] (λ x vs. vs) }
{
    match next(tokens)? {
        Some(token) if token.kind == TokenKind::Close => Ok(()),
        Some(token) => Err(ReadRefusal::Unsupported {
            what: Foreign::TelescopeLet,
            offset: token.start,
        }),
        None => Err(ReadRefusal::Syntax {
            offset: tokens.len(),
        }),
    }
}

/// A fixed word.
pub(crate) fn word(tokens: &mut Tokens, expected: Keyword) -> Result<(), ReadRefusal>
    ensures reads { Reads result tokens.old tokens.new (IWord expected ∷ []) [] (λ x vs. vs) }
{
    match next(tokens)? {
        Some(token) => {
            if token.kind == TokenKind::Atom && is_word(tokens.text(token), expected) {
                Ok(())
            } else {
                Err(ReadRefusal::Syntax {
                    offset: token.start,
                })
            }
        }
        None => Err(ReadRefusal::Syntax {
            offset: tokens.len(),
        }),
    }
}

/// The word `params` after a block's name. `universes` in its place begins a form that is known and not read.
pub(crate) fn params_word(tokens: &mut Tokens) -> Result<(), ReadRefusal>
    ensures reads { Reads result tokens.old tokens.new (IParams ∷ []) [] (λ x vs. vs) }
{
    match next(tokens)? {
        Some(token) if token.kind == TokenKind::Atom => {
            if is_word(tokens.text(token), Keyword::Params) {
                Ok(())
            } else if is_word(tokens.text(token), Keyword::Universes) {
                Err(ReadRefusal::Unsupported {
                    what: Foreign::Polymorphic,
                    offset: token.start,
                })
            } else {
                Err(ReadRefusal::Syntax {
                    offset: token.start,
                })
            }
        }
        Some(token) => Err(ReadRefusal::Syntax {
            offset: token.start,
        }),
        None => Err(ReadRefusal::Syntax {
            offset: tokens.len(),
        }),
    }
}

/// The name of a binder, or the kind of a cast, of which nothing is kept.
pub(crate) fn binder(tokens: &mut Tokens) -> Result<(), ReadRefusal>
    ensures reads { Reads result tokens.old tokens.new (IBinder ∷ []) [] (λ x vs. vs) }
{
    match next(tokens)? {
        Some(token) if token.kind == TokenKind::Atom => Ok(()),
        Some(token) => Err(ReadRefusal::Syntax {
            offset: token.start,
        }),
        None => Err(ReadRefusal::Syntax {
            offset: tokens.len(),
        }),
    }
}

/// A name, where it lies in the text.
pub(crate) fn name<'a>(tokens: &mut Tokens<'a>) -> Result<&'a str, ReadRefusal>
    ensures reads { Reads result tokens.old tokens.new (IName ∷ []) [] (λ x vs. VName x.now ∷ vs) }
{
    match next(tokens)? {
        Some(token) if token.kind == TokenKind::Atom => Ok(text_of(tokens.text(token))),
        Some(token) => Err(ReadRefusal::Syntax {
            offset: token.start,
        }),
        None => Err(ReadRefusal::Syntax {
            offset: tokens.len(),
        }),
    }
}

/// A level, where it lies in the text. A bracket in its place begins a form that is known and not read.
pub(crate) fn level<'a>(tokens: &mut Tokens<'a>) -> Result<&'a str, ReadRefusal>
    ensures reads { Reads result tokens.old tokens.new (ILevel ∷ []) [] (λ x vs. VName x.now ∷ vs) }
{
    match next(tokens)? {
        Some(token) if token.kind == TokenKind::Atom => Ok(text_of(tokens.text(token))),
        Some(token) if token.kind == TokenKind::Open => Err(ReadRefusal::Unsupported {
            what: Foreign::LevelVariable,
            offset: token.start,
        }),
        Some(token) => Err(ReadRefusal::Syntax {
            offset: token.start,
        }),
        None => Err(ReadRefusal::Syntax {
            offset: tokens.len(),
        }),
    }
}
