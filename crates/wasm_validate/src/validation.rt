//! Whether a module has a typing.

ghost use Rattle.std.specs.Prelude.{◌≡◌, ◌<◌, IfOk, IfErr, length};
ghost use Rattle.wasm_core.specs.ModuleTyping.{AllSound, IsValid};
ghost use Rattle.wasm_core.specs.FirstFault.{counted as counted_to};
ghost use Rattle.wasm_validate.specs.Verdicts.{Says, SaysOfFunc, SaysOfModule};

use crate::body::body_fault;
use crate::outside::outside_fault;
use std::alloc::{AllocError, Global};
use wasm_core::{Module, Valid};

/// Why a module isn't valid: it has no typing, and this is where it first fails; or there was no memory to look.
///
/// `func` is 4,294,967,295 and `place` the id of the section where the fault lies outside the bodies, the least such id.
/// Otherwise `func` is the first function without a typing, and `place` the number of the first instruction in its body
/// that no typed body has there after those before it; both count from 0.
#[derive(Clone, Copy, PartialEq, Eq, Debug)]
pub enum Why {
    Invalid { func: u32, place: u32 },
    Memory,
}

/// A module that isn't valid, handed back, and why.
#[derive(Drop)]
pub struct NotValid {
    pub module: Module,
    pub why: Why,
}

/// A count, which stands still at the last value of its 32 bits.
fn counted(n: usize) -> u32
    ensures is { result ≡ counted_to n }
{
    n.min(u32::MAX as usize) as u32
}

/// The place at which the body of a function fails, where the function has no typing.
fn func_fault(alloc: Global, m: &Module, func: usize) -> Result<Option<usize>, AllocError>
    requires sound { AllSound m.now }
    requires within { func < length m.now.funcs }
    ensures is { IfOk result (λ o. SaysOfFunc m.now func o) }
{
    m.spelled();
    let index = m.funcs().as_slice()[func];
    let of = &m.types().as_slice()[index as usize];
    let body = &m.bodies().as_slice()[func];
    body_fault(alloc, m, of, body)
}

/// Where the module first fails, if it does.
fn first_fault(alloc: Global, m: &Module) -> Result<Option<(u32, u32)>, AllocError>
    ensures is { IfOk result (λ o. SaysOfModule m.now o) }
{
    if let Some(place) = outside_fault(alloc, m)? {
        return Ok(Some((u32::MAX, place)));
    }
    for func in 0..m.funcs().as_slice().len() {
        if let Some(place) = func_fault(alloc, m, func)? {
            return Ok(Some((counted(func), counted(place))));
        }
    }
    Ok(None)
}

/// The module as a valid one, where it has a typing (WebAssembly Core Specification, chapter 3).
///
/// `Invalid` comes exactly where the module has no typing, and `Memory` only for want of memory. Each refusal hands the module back.
/// The time is linear in the module, but for the names of exports, which are put in order. The depth of its nests takes memory, and no stack.
pub fn validate(alloc: Global, m: Module) -> Result<Valid, NotValid>
    ensures valid { IfOk result (λ v. (v ≡ m) × IsValid m) }
    ensures handed_back { IfErr result (λ e. e.module ≡ m) }
    ensures refused { IfErr result (λ e. Says m e.why) }
{
    match first_fault(alloc, &m) {
        Ok(None) => Ok(Valid::of(m)),
        Ok(Some((func, place))) => Err(NotValid {
            module: m,
            why: Why::Invalid { func, place },
        }),
        Err(_) => Err(NotValid {
            module: m,
            why: Why::Memory,
        }),
    }
}
