//! Numbers of the text.

ghost use Rattle.std.specs.Prelude.{◌≡◌, [], ◌∷◌};
ghost use Rattle.sexp_reader.specs.Stream.{source, stream, depth, text_at};
ghost use Rattle.dump_grammar.specs.Table.{INumber, IAdd, IVersion, VNumber};
ghost use Rattle.dump_parser.specs.Reading.{judged, Reads};
ghost use Rattle.dump_parser.specs.Number.{IsNumber};

use crate::token::next;
use dump_grammar::{Foreign, Keyword, Limit, ReadRefusal, is_word};
use sexp_reader::{TokenKind, Tokens};

/// The greatest number that a text may hold.
const MAX_NUMBER: u64 = 4_294_967_295;
/// The most that may be added to a level.
const MAX_ADD: u32 = 1000;

/// What an atom is as a number: one that can be held, one that is too great, or none.
#[derive(Clone, Copy, Debug)]
pub(crate) enum Numeral {
    Number(u32),
    TooGreat,
    NoNumber,
}

/// The number that the text spells in decimal digits without a leading zero.
#[tactic(auto, unfolding(dump_grammar::specs::Numbers::number_of))]
pub(crate) fn numeral_of(text: &[u8]) -> Numeral
    ensures number { IsNumber result text.now }
{
    if text.is_empty() || (text.len() > 1 && text[0] == b'0') {
        return Numeral::NoNumber;
    }
    let mut n: u64 = 0;
    for b in text {
        if *b < b'0' || b'9' < *b {
            return Numeral::NoNumber;
        }
        if n <= MAX_NUMBER {
            n = n * 10 + (*b - b'0') as u64;
        }
    }
    if n <= MAX_NUMBER {
        Numeral::Number(n as u32)
    } else {
        Numeral::TooGreat
    }
}

/// A number. One that can't be held passes the limit of numbers.
#[tactic(auto, using(crate::proofs::Numbers::number_limits))]
pub(crate) fn number(tokens: &mut Tokens) -> Result<u32, ReadRefusal>
    ensures reads { Reads result tokens.old tokens.new (INumber ∷ []) [] (λ n vs. VNumber n ∷ vs) }
{
    match next(tokens)? {
        Some(token) if token.kind == TokenKind::Atom => match numeral_of(tokens.text(token)) {
            Numeral::Number(n) => Ok(n),
            Numeral::TooGreat => Err(ReadRefusal::Limit {
                which: Limit::Number,
                offset: token.start,
            }),
            Numeral::NoNumber => Err(ReadRefusal::Syntax {
                offset: token.start,
            }),
        },
        Some(token) => Err(ReadRefusal::Syntax {
            offset: token.start,
        }),
        None => Err(ReadRefusal::Syntax {
            offset: tokens.len(),
        }),
    }
}

/// What is added to a level. A number that can't be held passes the limit of numbers, and one over 1,000 that of what may be added.
#[tactic(auto, using(crate::proofs::Numbers::number_limits))]
pub(crate) fn add(tokens: &mut Tokens) -> Result<u32, ReadRefusal>
    ensures reads { Reads result tokens.old tokens.new (IAdd ∷ []) [] (λ n vs. VNumber n ∷ vs) }
{
    match next(tokens)? {
        Some(token) if token.kind == TokenKind::Atom => match numeral_of(tokens.text(token)) {
            Numeral::Number(n) if n <= MAX_ADD => Ok(n),
            Numeral::Number(_) => Err(ReadRefusal::Limit {
                which: Limit::LevelAdd,
                offset: token.start,
            }),
            Numeral::TooGreat => Err(ReadRefusal::Limit {
                which: Limit::Number,
                offset: token.start,
            }),
            Numeral::NoNumber => Err(ReadRefusal::Syntax {
                offset: token.start,
            }),
        },
        Some(token) => Err(ReadRefusal::Syntax {
            offset: token.start,
        }),
        None => Err(ReadRefusal::Syntax {
            offset: tokens.len(),
        }),
    }
}

/// The version, `1`. Another number in its place is a form that is known and not read.
pub(crate) fn version(tokens: &mut Tokens) -> Result<(), ReadRefusal>
    ensures reads { Reads result tokens.old tokens.new (IVersion ∷ []) [] (λ x vs. vs) }
{
    match next(tokens)? {
        Some(token) if token.kind == TokenKind::Atom => {
            if is_word(tokens.text(token), Keyword::One) {
                return Ok(());
            }
            match numeral_of(tokens.text(token)) {
                Numeral::NoNumber => Err(ReadRefusal::Syntax {
                    offset: token.start,
                }),
                _ => Err(ReadRefusal::Unsupported {
                    what: Foreign::Version,
                    offset: token.start,
                }),
            }
        }
        Some(token) => Err(ReadRefusal::Syntax {
            offset: token.start,
        }),
        None => Err(ReadRefusal::Syntax {
            offset: tokens.len(),
        }),
    }
}
