//! The operations on 32-bit integers (WebAssembly Core Specification, section 4.3.2).

ghost use Rattle.std.specs.Prelude.{◌≡◌, ◌<◌};
ghost use Rattle.wasm_core.specs.Arithmetic;

use wasm_core::I32Op;

/// A truth value as a word.
fn flag(b: bool) -> u32
    ensures is { result ≡ Arithmetic.flag b }
{
    if b { 1 } else { 0 }
}

/// A word with its sign bit turned over: these are ordered as the signed numbers are.
fn lifted(n: u32) -> u32
    ensures is { result ≡ Arithmetic.lifted n }
{
    n.wrapping_add(0x8000_0000)
}

/// A word shifted right by fewer than 32 bits, which are filled with its sign.
fn shifted_by_sign(n: u32, k: u32) -> u32
    requires few { k < 32 }
    ensures is { result ≡ Arithmetic.shifted_by_sign n k }
{
    if n < 0x8000_0000 {
        return n >> k;
    }
    u32::MAX - ((u32::MAX - n) >> k)
}

/// An operation of two operands. Numbers wrap, shift counts are taken modulo 32, and a comparison answers 1 or 0; `Eqz`, which has one operand, answers 0.
pub fn binary(op: I32Op, x: u32, y: u32) -> u32
    ensures is { result ≡ Arithmetic.binary op x y }
{
    match op {
        I32Op::Eqz => 0,
        I32Op::Eq => flag(x == y),
        I32Op::Ne => flag(x != y),
        I32Op::LtS => flag(lifted(x) < lifted(y)),
        I32Op::LtU => flag(x < y),
        I32Op::GtS => flag(lifted(y) < lifted(x)),
        I32Op::GtU => flag(y < x),
        I32Op::LeS => flag(lifted(x) <= lifted(y)),
        I32Op::LeU => flag(x <= y),
        I32Op::GeS => flag(lifted(y) <= lifted(x)),
        I32Op::GeU => flag(y <= x),
        I32Op::Add => x.wrapping_add(y),
        I32Op::Sub => x.wrapping_sub(y),
        I32Op::Mul => x.wrapping_mul(y),
        I32Op::And => x & y,
        I32Op::Or => x | y,
        I32Op::Xor => x ^ y,
        I32Op::Shl => x.wrapping_shl(y),
        I32Op::ShrS => shifted_by_sign(x, y % 32),
        I32Op::ShrU => x >> (y % 32),
    }
}
