//! Items of a part: bytes, numbers, names, parts and their ends.
//!
//! Each function says what comes next in the definition's tree of items, and that reading on from the old place is reading on from the new one.

ghost use Rattle.std.specs.Prelude.{◌≡◌, ℕ, ◌+◌, ◌<◌, ◌≤◌, ◌^◌, List, [], ◌∷◌, length, OnOk, Some, None, Ok, Err, false, true, map};
ghost use Rattle.wasm_decode.specs.Reads.{Reads, Passes, TakesByte, TakesNumber, TakesPart, Finishes};
ghost use Rattle.wasm_core.specs.Format.{Name};
ghost use Rattle.wasm_core.specs.ModuleGrammar as grammar;

use crate::cursor::Cursor;
use crate::leb::number;
use std::alloc::Global;
use wasm_core::DecodeFault;

/// The next byte, whatever it is. `Bad` comes where the part has no byte left.
#[tactic(auto, using(crate::proofs::Taking::byte_taken, crate::proofs::Taking::byte_missing))]
pub fn take(c: &mut Cursor) -> Result<u8, DecodeFault>
    ensures takes { TakesByte result c.old c.new }
{
    match c.rest.split_first() {
        Some((first, rest)) => {
            c.rest = rest;
            c.at += 1;
            Ok(*first)
        }
        None => Err(DecodeFault::Bad { offset: c.at }),
    }
}

/// The next number of 32 bits, whatever it is; a signed one is given by its bits.
#[tactic(auto, using(crate::proofs::Taking::number_taken, crate::proofs::Taking::number_missing))]
pub fn take_number(c: &mut Cursor, signed: bool) -> Result<u32, DecodeFault>
    ensures takes { TakesNumber result c.old c.new signed 32 }
{
    match number(c.rest, signed, 32) {
        Some((n, used)) => {
            let (_, rest) = c.rest.split_at(used);
            c.rest = rest;
            c.at += used;
            Ok(n as u32)
        }
        None => Err(DecodeFault::Bad { offset: c.at }),
    }
}

/// A byte of one meaning.
#[tactic(auto, unfolding(wasm_core::specs::ModuleGrammar::byte))]
pub fn byte(c: &mut Cursor, b: u8) -> Result<(), DecodeFault>
    ensures passes { Passes result c.old c.new (grammar.byte b) }
{
    let start = c.at;
    if take(c)? == b {
        Ok(())
    } else {
        Err(DecodeFault::Bad { offset: start })
    }
}

/// A number of 32 bits.
#[tactic(auto, unfolding(wasm_core::specs::ModuleGrammar::u32))]
pub fn u32(c: &mut Cursor) -> Result<u32, DecodeFault>
    ensures reads { Reads result c.old c.new grammar.u32 (λ x. x) }
{
    take_number(c, false)
}

/// The bits of a signed number of 32 bits.
#[tactic(auto, unfolding(wasm_core::specs::ModuleGrammar::s32))]
pub fn s32(c: &mut Cursor) -> Result<u32, DecodeFault>
    ensures reads { Reads result c.old c.new grammar.s32 (λ x. x) }
{
    take_number(c, true)
}

/// The bits of the next signed number of 64 bits, whatever it is.
#[tactic(auto, using(crate::proofs::Taking::number_taken, crate::proofs::Taking::number_missing))]
fn take_long(c: &mut Cursor) -> Result<u64, DecodeFault>
    ensures takes { TakesNumber result c.old c.new true 64 }
{
    match number(c.rest, true, 64) {
        Some((n, used)) => {
            let (_, rest) = c.rest.split_at(used);
            c.rest = rest;
            c.at += used;
            Ok(n)
        }
        None => Err(DecodeFault::Bad { offset: c.at }),
    }
}

/// The bits of a signed number of 64 bits.
#[tactic(auto, unfolding(wasm_core::specs::ModuleGrammar::s64))]
pub fn s64(c: &mut Cursor) -> Result<u64, DecodeFault>
    ensures reads { Reads result c.old c.new grammar.s64 (λ x. x) }
{
    take_long(c)
}

/// A part (a section's contents or a body) with its size; the cursor then stands after it. `Bad` comes at the size where it is no number or
/// passes the bytes left around it.
#[tactic(auto, using(crate::proofs::Taking::size_taken, crate::proofs::Taking::size_past, crate::proofs::Taking::size_missing))]
pub fn part<'a>(c: &mut Cursor<'a>) -> Result<Cursor<'a>, DecodeFault>
    ensures takes { TakesPart result c.old c.new }
{
    match number(c.rest, false, 32) {
        Some((n, used)) => {
            let (_, rest) = c.rest.split_at(used);
            let size = n as usize;
            if size > rest.len() {
                return Err(DecodeFault::Bad { offset: c.at });
            }
            let (inside, after) = rest.split_at(size);
            let start = c.at + used;
            c.rest = after;
            c.at = start + size;
            Ok(Cursor {
                rest: inside,
                at: start,
            })
        }
        None => Err(DecodeFault::Bad { offset: c.at }),
    }
}

/// The end of a part. `Bad` comes at the first byte that is left.
#[tactic(auto, unfolding(wasm_core::specs::ModuleGrammar::finish), using(crate::proofs::Taking::part_over, crate::proofs::Taking::part_open))]
pub fn finish(c: &Cursor) -> Result<(), DecodeFault>
    ensures finishes { Finishes result c.now }
{
    if c.rest.is_empty() {
        Ok(())
    } else {
        Err(DecodeFault::Bad { offset: c.at })
    }
}

/// The UTF-8 bytes of a name, lent. A name is one item, from its length on: `Bad` comes at the length, also where the text isn't UTF-8.
#[tactic(auto, using(crate::proofs::Taking::name_taken, crate::proofs::Taking::name_past, crate::proofs::Taking::name_wrong, crate::proofs::Taking::name_missing))]
pub fn text<'a>(c: &mut Cursor<'a>) -> Result<&'a [u8], DecodeFault>
    ensures reads { Reads result c.old c.new Name (λ s. s.now) }
{
    match number(c.rest, false, 32) {
        Some((n, used)) => {
            let (_, rest) = c.rest.split_at(used);
            let size = n as usize;
            if size > rest.len() {
                return Err(DecodeFault::Bad { offset: c.at });
            }
            let (text, after) = rest.split_at(size);
            match std::str::from_utf8(text) {
                Ok(_) => {
                    c.rest = after;
                    c.at = c.at + used + size;
                    Ok(text)
                }
                Err(_) => Err(DecodeFault::Bad { offset: c.at }),
            }
        }
        None => Err(DecodeFault::Bad { offset: c.at }),
    }
}

/// The UTF-8 bytes of a name, kept.
pub fn name(alloc: Global, c: &mut Cursor) -> Result<Vec<u8>, DecodeFault>
    ensures reads { Reads result c.old c.new Name (λ s. s.items) }
{
    let text = text(c)?;
    Ok(Vec::from_slice(alloc, text)?)
}
