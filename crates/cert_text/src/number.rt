//! Numbers of a certificate's text.
ghost use Rattle.std.specs.Prelude.{◌≡◌};
ghost use Rattle.cert_text.specs.Numeral.{IsNumeral, number_of_text};
ghost use Rattle.dump_grammar.specs.Numbers.{number_of};
ghost use Rattle.cert_text.specs.Scanned.{text_of};
ghost use Rattle.std.specs.Prelude.{◌≤◌, length};

use crate::scan::{Kind, Token};

/// The greatest number that a certificate may hold.
const MAX_NUMBER: u64 = 4_294_967_295;

/// What a token is as a number: one that can be held, one that is too great, or none.
#[derive(Clone, Copy, Debug)]
pub(crate) enum Numeral {
    Number(u32),
    TooGreat,
    NoNumber,
}

/// The number that an atom spells in decimal digits without a leading zero.
#[tactic(auto, unfolding(dump_grammar::specs::Numbers::number_of))]
fn numeral_of(text: &[u8]) -> Numeral
    ensures number { IsNumeral result (number_of text.now) }
{
    if text.is_empty() || (text.len() > 1 && text[0] == b'0') {
        return Numeral::NoNumber;
    }
    let mut n: u64 = 0;
    for b in text {
        if *b < b'0' || b'9' < *b {
            return Numeral::NoNumber;
        }
        if n <= MAX_NUMBER {
            n = n * 10 + (*b - b'0') as u64;
        }
    }
    if n <= MAX_NUMBER {
        Numeral::Number(n as u32)
    } else {
        Numeral::TooGreat
    }
}

/// The number that a token spells; none where it is no atom.
pub(crate) fn numeral_at(bytes: &[u8], token: Token) -> Numeral
    requires order { token.start ≤ token.end }
    requires within { token.end ≤ length bytes.now }
    ensures number { IsNumeral result (number_of_text (text_of bytes.now token)) }
{
    match token.kind {
        Kind::Atom => numeral_of(&bytes[token.start..token.end]),
        _ => Numeral::NoNumber,
    }
}
