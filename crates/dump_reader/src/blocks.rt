//! Blocks of bytes of a text, whose brackets are counted together.
ghost use Rattle.std.specs.Prelude.{◌≡◌, ◌<◌, ◌≤◌, ◌+◌, length, true};
ghost use Rattle.sexp_reader.specs.Lex.{is_atom_byte as atom_byte};
ghost use Rattle.dump_reader.specs.CountedUpTo.{SameFront, CountsWhole, is_plain as plain};

use sexp_reader::{MAX_ATOM, MAX_NESTING};

/// How many bytes a block has.
pub(crate) const BLOCK: usize = 32;

/// A place in a text: the offset of a byte, and how many brackets are open before it.
#[derive(Clone, Copy, Debug)]
pub(crate) struct Place {
    pub(crate) at: usize,
    pub(crate) nesting: usize,
}

/// What stands in a block: how many brackets it opens and closes, and whether each other byte belongs to an atom or is a space or a line end.
#[derive(Clone, Copy, Debug)]
struct Block {
    opens: u8,
    closes: u8,
    plain: bool,
}

/// Whether a byte belongs to an atom. It is one expression without branches, so that the bytes of a block
/// are looked at side by side.
pub(crate) fn is_atom_byte(b: u8) -> bool
    ensures is { result ≡ atom_byte b }
{
    ((b'a' <= b) & (b <= b'z'))
        | ((b'A' <= b) & (b <= b'Z'))
        | ((b'0' <= b) & (b <= b'9'))
        | (b == b'_')
        | (b == b'.')
        | (b == b'\'')
        | (b == b'-')
}

/// Whether a byte belongs to an atom or is a bracket, a space or a line end. It is one expression without branches, as
/// `is_atom_byte`.
fn is_plain(b: u8) -> bool
    ensures is { result ≡ plain b }
{
    is_atom_byte(b) | (b == b' ') | (b == b'\n') | (b == b'(') | (b == b')')
}

/// What stands in the block at `at`.
fn look(bytes: &[u8], at: usize) -> Block
    requires { at + 32 ≤ length bytes.now }
    ensures few { result.opens + result.closes ≤ 32 }
    ensures passes { result.plain ≡ true → CountsWhole bytes.now at 32 result.opens result.closes }
{
    let mut opens = 0;
    let mut closes = 0;
    let mut plain = true;
    for b in &bytes[at..at + BLOCK] {
        if *b == b'(' {
            opens += 1;
        } else if *b == b')' {
            closes += 1;
        }
        plain = plain & is_plain(*b);
    }
    Block {
        opens,
        closes,
        plain,
    }
}

/// A place behind blocks that can be counted as a whole, from a place inside a bracket on; that place itself where there is none. A block can be where it is
/// plain, closes fewer brackets than are open and opens none too deep, and an atom that goes on in it stays within its limit.
pub(crate) fn behind_blocks(bytes: &[u8], from: Place) -> Place
    requires within { from.at ≤ length bytes.now }
    requires inside { 0 < from.nesting }
    requires nested { from.nesting ≤ 1000 }
    ensures goes { SameFront bytes.now from result }
{
    let mut settled = from;
    let mut at = from.at;
    let mut nesting = from.nesting;
    let mut size = 0;
    while bytes.len() - at >= BLOCK && size + BLOCK <= MAX_ATOM {
        let block = look(bytes, at);
        let opens = usize::from(block.opens);
        let closes = usize::from(block.closes);
        if !block.plain || nesting <= closes || nesting + opens > MAX_NESTING {
            return settled;
        }
        at += BLOCK;
        nesting = nesting + opens - closes;
        size = if opens + closes > 0 {
            BLOCK
        } else {
            size + BLOCK
        };
        if bytes[at - 1] == b' ' {
            settled = Place { at, nesting };
            size = 0;
        }
    }
    settled
}
