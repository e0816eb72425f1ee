//! Bytes and numbers (WebAssembly Core Specification, section 5.2.2).
//!
//! Each function puts its bytes after those that are there, and says which: those of the function of the same name in the definition.

ghost use Rattle.std.specs.Prelude.{◌≡◌, ℕ, ◌+◌, ◌-◌, ◌*◌, ◌<◌, ◌≤◌, ◌^◌, List, [], ◌∷◌, ◌++◌, length, OnOk, IfOk, reverse, Ok, Err};
ghost use Rattle.wasm_core.specs.ModuleCondition.{All, IsVector, IsFuncType, IsGlobal, IsExport, IsSegment, IsInstr, IsBody, IsModule, IsU32, IsU64};
ghost use Rattle.wasm_core.specs.ShortestBytes as shortest;
ghost use Rattle.wasm_encode.specs.Puts.{Puts, PutsUnless, FirstBelow};

use std::alloc::AllocError;

/// Puts a byte.
#[tactic(auto, using(crate::proofs::Putting::pushed))]
pub fn put(out: &mut Vec<u8>, b: u8) -> Result<(), AllocError>
    ensures puts { OnOk result (Puts out.old.items out.new.items (λ w. b ∷ w)) }
{
    out.push(b)?;
    Ok(())
}

/// Puts bytes.
#[tactic(auto, using(crate::proofs::Putting::extended))]
pub fn put_bytes(out: &mut Vec<u8>, more: &[u8]) -> Result<(), AllocError>
    ensures puts { OnOk result (Puts out.old.items out.new.items (λ w. more.now ++ w)) }
{
    out.extend_from_slice(more)?;
    Ok(())
}

/// Puts a number in at most so many groups of seven bits.
#[tactic(auto, using(crate::proofs::Putting::unsigned_last, crate::proofs::Putting::unsigned_more, crate::proofs::Putting::unsigned_none))]
fn put_unsigned(out: &mut Vec<u8>, groups: u32, n: u32) -> Result<(), AllocError>
    ensures puts { OnOk result (Puts out.old.items out.new.items (shortest.unsigned groups n)) }
{
    if groups == 0 {
        return Ok(());
    }
    if n < 128 {
        return put(out, n as u8);
    }
    put(out, (n % 128 + 128) as u8)?;
    put_unsigned(out, groups - 1, n / 128)
}

/// Puts a number of 32 bits.
pub fn put_u32(out: &mut Vec<u8>, n: u32) -> Result<(), AllocError>
    ensures puts { OnOk result (Puts out.old.items out.new.items (shortest.put_u32 n)) }
{
    put_unsigned(out, 5, n)
}

/// Whether a number of so many bits isn't negative and fits one byte.
fn is_low(bits: u32, n: u64) -> bool
    requires width { (0 < bits) × (bits ≤ 64) }
    ensures is { result ≡ shortest.is_low bits n }
{
    n < 64 && n < 1 << (bits - 1)
}

/// How far a number is below two to the power of its width.
fn below(bits: u32, n: u64) -> u64
    requires width { (0 < bits) × (bits ≤ 64) × (0 < n) × (n < 2 ^ bits) }
    ensures is { result ≡ 2 ^ bits - n }
{
    if bits == 64 {
        0u64.wrapping_sub(n)
    } else {
        (1 << bits) - n
    }
}

/// Whether these are the bits of a negative number that fits one byte.
#[tactic(auto, using(crate::proofs::Putting::high_is))]
fn is_high(bits: u32, n: u64) -> bool
    requires width { (0 < bits) × (bits ≤ 64) × (0 < n) × (n < 2 ^ bits) }
    ensures is { result ≡ shortest.is_high bits n }
{
    below(bits, n) <= 64
}

/// Puts a signed number, given by its bits, in at most so many groups of seven bits.
#[tactic(auto, using(crate::proofs::Putting::signed_none, crate::proofs::Putting::signed_low, crate::proofs::Putting::signed_high, crate::proofs::Putting::signed_more, crate::proofs::Putting::more_bits, crate::proofs::Putting::fewer_bits, crate::proofs::Putting::not_zero, crate::proofs::Putting::high_near))]
fn put_signed(out: &mut Vec<u8>, groups: u32, bits: u32, n: u64) -> Result<(), AllocError>
    requires width { (0 < bits) × (bits ≤ 64) × (n < 2 ^ bits) }
    ensures puts { OnOk result (Puts out.old.items out.new.items (shortest.signed groups bits n)) }
{
    if groups == 0 {
        return Ok(());
    }
    if is_low(bits, n) {
        return put(out, n as u8);
    }
    if is_high(bits, n) {
        return put(out, (128 - below(bits, n)) as u8);
    }
    put(out, (n % 128 + 128) as u8)?;
    put_signed(out, groups - 1, bits - 7, n / 128)
}

/// Puts a signed number of 32 bits, given by its bits.
pub fn put_s32(out: &mut Vec<u8>, n: u32) -> Result<(), AllocError>
    ensures puts { OnOk result (Puts out.old.items out.new.items (shortest.put_s32 n)) }
{
    put_signed(out, 5, 32, n as u64)
}

/// Puts a signed number of 64 bits, given by its bits.
pub fn put_s64(out: &mut Vec<u8>, n: u64) -> Result<(), AllocError>
    ensures puts { OnOk result (Puts out.old.items out.new.items (shortest.put_s64 n)) }
{
    put_signed(out, 10, 64, n)
}
