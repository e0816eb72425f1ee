//! A certificate out of its text, item by item. An item of one byte, and a side's with a number of one digit, are read at once where one space
//! stands before each of these bytes and one behind the last; any other is read by its tokens.
ghost use Rattle.std.specs.Prelude.{◌≡◌, ◌≤◌, ◌<◌, ◌+◌, ◌*◌, true, [], ◌∷◌, ◌++◌, length, get_or, vec_len, vec_capacity, bytes_eq, Ok, Some, IfOk, IfErr, IfSome};
ghost use Rattle.dump_grammar.specs.Numbers.{number_of};
ghost use Rattle.sexp_reader.specs.Text.{Open, Atom};
ghost use Rattle.cert_rules.specs.declared.item.CertItem.TheVariants.{Left, Right};
ghost use Rattle.cert_rules.specs.Packed.{item_of, unpacked};
ghost use Rattle.cert_text.specs.CertReading.{is_text, read_items, read_bytes, AnItem, LeftSteps, RightSteps};
ghost use Rattle.cert_text.specs.Scanned.{text_of};
ghost use Rattle.cert_text.specs.Answering.{AnswersText, Expects, Counts, behind, with_items, TakesSide, TakesWord, TakesAtom, Ends, Takes, TakesWithin, IsOfByte, IsSideOfByte};
ghost use Rattle.cert_text.specs.TextLaws.{SpellsCert};
ghost use Rattle.cert_text.specs.declared.refusal.CertText.TheVariants.{Memory};
ghost use Rattle.cert_text.specs.declared.scan.Kind.TheVariants as Kind;
ghost use Rattle.sexp_reader.specs.Lex.{is_atom_byte as atom_byte, left};

use crate::number::{Numeral, numeral_at};
use crate::refusal::CertText;
use crate::scan::{Kind, Token, next};
use cert_rules::certificate::{Cert, CertItems};
use cert_rules::item::CertItem;
use cert_rules::packed::{CONV, PARTS, PackedItems, SAME};
use std::alloc::Global;

/// A number of steps, and the offset behind it.
#[derive(Clone, Copy, Debug)]
pub(crate) struct Count {
    pub(crate) count: u32,
    pub(crate) end: usize,
}

/// An item, and the offset behind it.
#[derive(Clone, Copy, Debug)]
pub(crate) struct Taken {
    pub(crate) item: CertItem,
    pub(crate) end: usize,
}

/// Whether a token is the bracket that opens.
fn is_open(bytes: &[u8], token: Token) -> bool
    ensures is { result ≡ is_text (text_of bytes.now token) Open }
{
    match token.kind {
        Kind::Open => true,
        _ => false,
    }
}

/// Whether a text is this word.
fn is(text: &[u8], word: &[u8]) -> bool
    ensures is { result ≡ bytes_eq text.now word.now }
{
    text == word
}

/// Whether a token is this word.
fn is_word(bytes: &[u8], token: Token, word: &[u8]) -> bool
    requires order { token.start ≤ token.end }
    requires within { token.end ≤ length bytes.now }
    ensures is { result ≡ is_text (text_of bytes.now token) (Atom word.now) }
{
    match token.kind {
        Kind::Atom => is(&bytes[token.start..token.end], word),
        _ => false,
    }
}

/// The offset behind a bracket that opens, which must come next from an offset on.
fn bracket(bytes: &[u8], at: usize) -> Result<usize, CertText>
    requires { at ≤ length bytes.now }
    ensures expects { Expects Open bytes.now at result }
    ensures within { IfOk result (λ n. n ≤ length bytes.now) }
{
    match next(bytes, at) {
        Some(token) => {
            if is_open(bytes, token) {
                return Ok(token.end);
            }
            Err(CertText::Syntax {
                offset: token.start,
            })
        }
        None => Err(CertText::Syntax {
            offset: bytes.len(),
        }),
    }
}

/// The offset behind a word, which must come next from an offset on.
fn word(bytes: &[u8], at: usize, word: &[u8]) -> Result<usize, CertText>
    requires { at ≤ length bytes.now }
    ensures expects { Expects (Atom word.now) bytes.now at result }
    ensures within { IfOk result (λ n. n ≤ length bytes.now) }
{
    match next(bytes, at) {
        Some(token) => {
            if is_word(bytes, token, word) {
                return Ok(token.end);
            }
            Err(CertText::Syntax {
                offset: token.start,
            })
        }
        None => Err(CertText::Syntax {
            offset: bytes.len(),
        }),
    }
}

/// The number of a side's steps, from an offset on.
fn steps(bytes: &[u8], at: usize) -> Result<Count, CertText>
    requires { at ≤ length bytes.now }
    ensures left { Counts LeftSteps Left bytes.now at result }
    ensures right { Counts RightSteps Right bytes.now at result }
    ensures within { IfOk result (λ c. (at < c.end) × (c.end ≤ length bytes.now)) }
{
    match next(bytes, at) {
        Some(token) => match numeral_at(bytes, token) {
            Numeral::Number(count) => Ok(Count {
                count,
                end: token.end,
            }),
            Numeral::TooGreat => Err(CertText::Number {
                offset: token.start,
            }),
            Numeral::NoNumber => Err(CertText::Syntax {
                offset: token.start,
            }),
        },
        None => Err(CertText::Syntax {
            offset: bytes.len(),
        }),
    }
}

/// The item of a side's steps, at its word from `start` to `end`.
fn side_item(bytes: &[u8], text: &[u8], start: usize, end: usize) -> Result<Taken, CertText>
    requires order { start ≤ end }
    requires within { end ≤ length bytes.now }
    ensures takes { TakesSide bytes.now text.now start end result }
    ensures within { IfOk result (λ x. (end ≤ x.end) × (x.end ≤ length bytes.now)) }
{
    if is(text, b"l") {
        let found = steps(bytes, end)?;
        return Ok(Taken {
            item: CertItem::Left(found.count),
            end: found.end,
        });
    }
    if is(text, b"r") {
        let found = steps(bytes, end)?;
        return Ok(Taken {
            item: CertItem::Right(found.count),
            end: found.end,
        });
    }
    Err(CertText::Syntax { offset: start })
}

/// The item at a word from `start` to `end`, which is no number.
fn word_item(bytes: &[u8], text: &[u8], start: usize, end: usize) -> Result<Taken, CertText>
    requires order { start ≤ end }
    requires within { end ≤ length bytes.now }
    ensures takes { TakesWord bytes.now text.now start end result }
    ensures within { IfOk result (λ x. (end ≤ x.end) × (x.end ≤ length bytes.now)) }
{
    if is(text, b"s") {
        return Ok(Taken {
            item: CertItem::Same,
            end,
        });
    }
    if is(text, b"c") {
        return Ok(Taken {
            item: CertItem::Conv,
            end,
        });
    }
    if is(text, b"k") {
        return Ok(Taken {
            item: CertItem::Parts,
            end,
        });
    }
    side_item(bytes, text, start, end)
}

/// The item at an atom from `start` to `end`.
fn atom_item(bytes: &[u8], token: Token) -> Result<Taken, CertText>
    requires order { token.start ≤ token.end }
    requires within { token.end ≤ length bytes.now }
    requires atom { token.kind ≡ Kind.Atom }
    ensures takes { TakesAtom bytes.now token result }
    ensures within { IfOk result (λ x. (token.end ≤ x.end) × (x.end ≤ length bytes.now)) }
{
    match numeral_at(bytes, token) {
        Numeral::Number(n) => Ok(Taken {
            item: CertItem::Number(n),
            end: token.end,
        }),
        Numeral::TooGreat => Err(CertText::Number {
            offset: token.start,
        }),
        Numeral::NoNumber => {
            let text = &bytes[token.start..token.end];
            word_item(bytes, text, token.start, token.end)
        }
    }
}

/// None at the end of a text, which must come next from an offset on.
fn end(bytes: &[u8], at: usize) -> Result<Option<Taken>, CertText>
    requires { at ≤ length bytes.now }
    ensures ends { Ends bytes.now at result }
{
    match next(bytes, at) {
        Some(token) => Err(CertText::Syntax {
            offset: token.start,
        }),
        None => Ok(None),
    }
}

/// The number that a digit spells.
fn digit(b: u8) -> Option<u32>
    ensures atom { IfSome result (λ _. atom_byte b ≡ true) }
    ensures is { IfSome result (λ n. number_of (b ∷ []) ≡ Some n) }
{
    match b {
        b'0'..=b'9' => Some((b - b'0') as u32),
        _ => None,
    }
}

/// The byte that a list of items has for the item that an atom of this one byte is.
fn byte_code(b: u8) -> Option<u8>
    ensures atom { IfSome result (λ _. atom_byte b ≡ true) }
    ensures own { IfSome result (λ c. c < 255) }
    ensures is { IfSome result (λ c. IsOfByte b (item_of c)) }
{
    match b {
        b'0'..=b'9' => Some(b - b'0'),
        b's' => Some(SAME),
        b'c' => Some(CONV),
        b'k' => Some(PARTS),
        _ => None,
    }
}

/// The item of a side whose word is this one byte, with its number of steps.
fn byte_side(b: u8, count: u32) -> Option<CertItem>
    ensures atom { IfSome result (λ _. atom_byte b ≡ true) }
    ensures is { IfSome result (IsSideOfByte b count) }
{
    match b {
        b'l' => Some(CertItem::Left(count)),
        b'r' => Some(CertItem::Right(count)),
        _ => None,
    }
}

/// The item of a side that stands from an offset on, with a number of one digit: a space before its word, one before its number, and one behind it.
/// None where anything else comes next.
fn short_side(bytes: &[u8], at: usize) -> Option<Taken>
    requires { at ≤ length bytes.now }
    ensures takes { IfSome result (λ x. Takes bytes.now at (Ok (Some x))) }
    ensures within { IfSome result (λ x. (at < x.end) × (x.end ≤ length bytes.now)) }
{
    if bytes.len() - at < 5 || bytes[at] != b' ' || bytes[at + 2] != b' ' || bytes[at + 4] != b' ' {
        return None;
    }
    match digit(bytes[at + 3]) {
        Some(count) => match byte_side(bytes[at + 1], count) {
            Some(item) => Some(Taken { item, end: at + 4 }),
            None => None,
        },
        None => None,
    }
}

/// The item that comes next from an offset on, by its tokens; none at the bracket that closes, behind which nothing may come.
fn any_item(bytes: &[u8], at: usize) -> Result<Option<Taken>, CertText>
    requires { at ≤ length bytes.now }
    ensures takes { Takes bytes.now at result }
    ensures within { IfOk result (TakesWithin bytes.now at) }
{
    match next(bytes, at) {
        Some(token) => match token.kind {
            Kind::Atom => {
                let taken = atom_item(bytes, token)?;
                Ok(Some(taken))
            }
            Kind::Close => end(bytes, token.end),
            Kind::Open => Err(CertText::Syntax {
                offset: token.start,
            }),
            Kind::Stray => Err(CertText::Syntax {
                offset: token.start,
            }),
        },
        None => Err(CertText::Syntax {
            offset: bytes.len(),
        }),
    }
}

/// Puts an item behind others.
fn push(out: &mut PackedItems, item: CertItem) -> Result<(), CertText>
    ensures ok { IfOk result (λ _. unpacked out.new ≡ unpacked out.old ++ item ∷ []) }
    ensures only_memory { IfErr result (λ e. e ≡ Memory) }
{
    match out.push(item) {
        Ok(()) => Ok(()),
        Err(_) => Err(CertText::Memory),
    }
}

/// The item that comes next from an offset on, a side's at once where that can be; none at the bracket that closes, behind which nothing may come.
fn item_at(bytes: &[u8], at: usize) -> Result<Option<Taken>, CertText>
    requires { at ≤ length bytes.now }
    ensures takes { Takes bytes.now at result }
    ensures within { IfOk result (TakesWithin bytes.now at) }
{
    match short_side(bytes, at) {
        Some(taken) => Ok(Some(taken)),
        None => any_item(bytes, at),
    }
}

/// Puts items of one byte that stand from a space on, each before a space, behind others, at most so many, and gives the offset behind the last of
/// them. Takes no memory.
fn short_run(bytes: &[u8], from: usize, most: usize, out: &mut PackedItems) -> usize
    requires space { get_or bytes.now from 0 ≡ 32 }
    requires within { from + 2 * most < length bytes.now }
    requires room { vec_len out.old.codes + most ≤ vec_capacity out.old.codes }
    ensures read { with_items (unpacked out.old) (behind bytes.now from AnItem) ≡ with_items (unpacked out.new) (behind bytes.now result AnItem) }
    ensures within { (from ≤ result) × (result ≤ length bytes.now) }
{
    let mut count = 0;
    'short: while count < most && bytes[from + 2 * count + 2] == b' ' {
        match byte_code(bytes[from + 2 * count + 1]) {
            Some(code) => out.push_reserved(code),
            None => return from + 2 * count,
        }
        count += 1;
    }
    from + 2 * count
}

/// Puts items of one byte that stand from an offset on behind others, as many as there is room for, and gives the offset behind the last of them.
/// Takes no memory: where there was no room for the next, the caller's `push` makes it.
fn short_items(bytes: &[u8], from: usize, out: &mut PackedItems) -> usize
    requires { from ≤ length bytes.now }
    ensures read { with_items (unpacked out.old) (behind bytes.now from AnItem) ≡ with_items (unpacked out.new) (behind bytes.now result AnItem) }
    ensures within { (from ≤ result) × (result ≤ length bytes.now) }
{
    if from == bytes.len() || bytes[from] != b' ' {
        return from;
    }
    let room = out.codes.capacity() - out.codes.len();
    let follow = (bytes.len() - from - 1) / 2;
    let most = if room < follow { room } else { follow };
    short_run(bytes, from, most, out)
}

/// The items from an offset on, up to the end of the text.
fn items(alloc: Global, bytes: &[u8], from: usize) -> Result<CertItems, CertText>
    requires { from ≤ length bytes.now }
    ensures answers { AnswersText (read_items (length bytes.now) AnItem (left from bytes.now)) result }
{
    let mut out = PackedItems::new(alloc);
    let mut at = from;
    'items: while let Some(taken) = item_at(bytes, at)? {
        push(&mut out, taken.item)?;
        at = short_items(bytes, taken.end, &mut out);
    }
    Ok(CertItems::of(out))
}

/// The certificate that the text from an offset on spells: `(cert 1 item*)`, with blanks and comments between its tokens and behind it.
///
/// `Syntax` comes at the first token that continues no such text, at a byte of no token, or at the length; `Number` at a number over
/// 4,294,967,295; of both, the first in the text. `Memory` only for want of memory.
pub fn read_cert(alloc: Global, bytes: &[u8], from: usize) -> Result<Cert, CertText>
    requires { from ≤ length bytes.now }
    ensures exact { AnswersText (read_bytes bytes.now from) result }
    ensures spells { IfOk result (SpellsCert (left from bytes.now)) }
{
    let head = bracket(bytes, from)?;
    let version = word(bytes, head, b"cert")?;
    let start = word(bytes, version, b"1")?;
    let items = items(alloc, bytes, start)?;
    Ok(Cert::of(items))
}
