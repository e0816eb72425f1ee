//! Where the front of a text ends: behind the bracket that closes the first one.
//!
//! Inside the first bracket the bytes are counted by blocks, where nothing in them is unusual; elsewhere token by token. Where `ahead` finds the end and the bytes before it
//! are an environment, nothing is counted.
ghost use Rattle.std.specs.Prelude.{◌≡◌, ◌<◌, ◌≤◌, ◌+◌, length, drop, false, get_or, true};
ghost use Rattle.sexp_reader.specs.Lex.{is_atom_byte as atom_byte, is_blank as blank, atom_len, lex};
ghost use Rattle.dump_reader.specs.Front.{front_length as length_of_front};
ghost use Rattle.dump_reader.specs.CountedUpTo.{LeadsBehind};

use crate::blocks::{BLOCK, Place, behind_blocks, is_atom_byte};
use sexp_reader::{MAX_ATOM, MAX_NESTING};

/// What a place of a text leads to: a place behind it from which the front ends where it does from here, or the end of the front.
#[derive(Clone, Copy, Debug)]
enum Step {
    Goes(Place),
    Ends(usize),
}

/// Whether a byte is a blank.
pub(crate) fn is_blank(b: u8) -> bool
    ensures is { result ≡ blank b }
{
    b == b' ' || b == b'\t' || b == b'\n' || b == b'\r'
}

/// The offset behind the atom bytes that stand from `from` on.
fn atom_end(bytes: &[u8], from: usize) -> usize
    requires { from ≤ length bytes.now }
    ensures within { result ≤ length bytes.now }
    ensures is { result ≡ from + atom_len (drop from bytes.now) }
{
    let mut at = from;
    while at < bytes.len() {
        if !is_atom_byte(bytes[at]) {
            return at;
        }
        at += 1;
    }
    at
}

/// The offset behind the comment in which the bytes from `from` on stand.
fn comment_end(bytes: &[u8], from: usize) -> usize
    requires { from ≤ length bytes.now }
    ensures within { result ≤ length bytes.now }
    ensures behind { from ≤ result }
    ensures same { lex from true (drop from bytes.now) ≡ lex result false (drop result bytes.now) }
{
    let mut at = from;
    while at < bytes.len() {
        if bytes[at] == b'\n' {
            return at + 1;
        }
        at += 1;
    }
    at
}

/// What a place before an atom leads to.
fn behind_atom(bytes: &[u8], place: Place) -> Step
    requires within { place.at < length bytes.now }
    requires nested { place.nesting ≤ 1000 }
    requires atom { atom_byte (get_or bytes.now place.at 0) ≡ true }
    ensures leads { LeadsBehind bytes.now place result }
{
    let end = atom_end(bytes, place.at);
    if end - place.at > MAX_ATOM {
        return Step::Ends(bytes.len());
    }
    if place.nesting == 0 {
        return Step::Ends(end);
    }
    Step::Goes(Place {
        at: end,
        nesting: place.nesting,
    })
}

/// What a place before a byte of no atom and no blank leads to.
fn behind_other(bytes: &[u8], place: Place) -> Step
    requires within { place.at < length bytes.now }
    requires nested { place.nesting ≤ 1000 }
    requires other { atom_byte (get_or bytes.now place.at 0) ≡ false }
    requires full { blank (get_or bytes.now place.at 0) ≡ false }
    ensures leads { LeadsBehind bytes.now place result }
{
    let at = place.at + 1;
    let nesting = place.nesting;
    let b = bytes[place.at];
    if b == b';' {
        let at = comment_end(bytes, at);
        return Step::Goes(Place { at, nesting });
    }
    if b == b'(' {
        if nesting >= MAX_NESTING {
            return Step::Ends(bytes.len());
        }
        let nesting = nesting + 1;
        return Step::Goes(Place { at, nesting });
    }
    if b == b')' {
        if nesting <= 1 {
            return Step::Ends(at);
        }
        let nesting = nesting - 1;
        return Step::Goes(Place { at, nesting });
    }
    Step::Ends(bytes.len())
}

/// What a place leads to, by the token, the blank or the comment that stands there.
fn lead(bytes: &[u8], place: Place) -> Step
    requires within { place.at < length bytes.now }
    requires nested { place.nesting ≤ 1000 }
    ensures leads { LeadsBehind bytes.now place result }
{
    let b = bytes[place.at];
    if is_atom_byte(b) {
        return behind_atom(bytes, place);
    }
    if is_blank(b) {
        return Step::Goes(Place {
            at: place.at + 1,
            nesting: place.nesting,
        });
    }
    behind_other(bytes, place)
}

/// The offset behind the bracket that closes the first one; the length of the text where it isn't closed, or where a token before is refused.
pub(crate) fn front_length(bytes: &[u8]) -> usize
    ensures is { result ≡ length_of_front bytes.now }
    ensures within { result ≤ length bytes.now }
{
    let mut place = Place { at: 0, nesting: 0 };
    let mut again = 0;
    while place.at < bytes.len() {
        match lead(bytes, place) {
            Step::Ends(end) => return end,
            Step::Goes(next) => place = next,
        }
        if place.nesting > 0 && place.at >= again {
            place = behind_blocks(bytes, place);
            again = place.at.saturating_add(BLOCK);
        }
    }
    bytes.len()
}
