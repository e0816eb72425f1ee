//! Words in the order in which captured ones are held, each once.
ghost use Rattle.std.specs.Prelude.{◌≡◌, ℕ, ◌+◌, ◌<◌, ◌^◌, IfOk, IfErr, OnOk, reverse, nat_eq, nat_lt};
ghost use Rattle.std.specs.HashSet.{contains};
ghost use Rattle.anf_convert.specs.Captured.{is_in, add_word, captured};
ghost use Rattle.closure_lift.specs.declared.fault.LiftFault.TheVariants.{Memory};

use crate::fault::LiftFault;
use pc_terms::lists::Numbers;
use std::alloc::Global;
use std::collections::HashSet;

/// The sum of two numbers. Only `Memory`, where it is no number of 32 bits.
pub(crate) fn sum_of(a: u32, b: u32) -> Result<u32, LiftFault>
    ensures is { IfOk result (λ c. c ≡ a + b) }
    ensures only_memory { IfErr result (λ e. e ≡ Memory) }
{
    match a.checked_add(b) {
        Some(c) => Ok(c),
        None => Err(LiftFault::Memory),
    }
}

/// A number of 32 bits. Only `Memory`, where it is none.
pub(crate) fn number_of(n: usize) -> Result<u32, LiftFault>
    ensures is { IfOk result (λ c. c ≡ n) }
    ensures only_memory { IfErr result (λ e. e ≡ Memory) }
{
    if n <= 0xffff_ffff {
        Ok(n as u32)
    } else {
        Err(LiftFault::Memory)
    }
}

/// Puts a word before those found so far, where it is bound outside and isn't among them. `found` has the last one first.
fn add(
    kept: &mut HashSet<u32>,
    found: &mut Vec<u32>,
    name: u32,
    outside: u32,
) -> Result<(), LiftFault>
    requires same { (q : ℕ) → contains nat_eq kept.old q ≡ is_in q (reverse found.old.items) }
    ensures is { OnOk result (reverse found.new.items ≡ add_word (nat_lt name outside) name (reverse found.old.items)) }
    ensures same { OnOk result ((q : ℕ) → contains nat_eq kept.new q ≡ is_in q (reverse found.new.items)) }
    ensures only_memory { IfErr result (λ e. e ≡ Memory) }
{
    if name >= outside {
        return Ok(());
    }
    let Ok(new) = kept.insert(name) else {
        return Err(LiftFault::Memory);
    };
    if !new {
        return Ok(());
    }
    match found.push(name) {
        Ok(()) => Ok(()),
        Err(_) => Err(LiftFault::Memory),
    }
}

/// The words that are bound outside, each once, those that are named last being last. Only `Memory`.
pub(crate) fn captured_words(
    alloc: Global,
    names: &[u32],
    outside: u32,
) -> Result<Numbers, LiftFault>
    ensures is { IfOk result (λ ws. ws ≡ captured outside names.now) }
    ensures only_memory { IfErr result (λ e. e ≡ Memory) }
{
    let mut kept = HashSet::new(alloc);
    let mut found: Vec<u32> = Vec::new(alloc);
    for past in 0..names.len() {
        add(
            &mut kept,
            &mut found,
            names[names.len() - 1 - past],
            outside,
        )?;
    }
    found.reverse();
    Ok(Numbers::of(found))
}
