//! Blocks, and instructions that branch.

ghost use Rattle.std.specs.Prelude.{◌≡◌, [], ◌∷◌, length, IfOk, Some, None, slice_get, true, false};
ghost use Rattle.std.specs.Option.{option_to_list};
ghost use Rattle.wasm_core.specs.MachineStep.{on_some};
ghost use Rattle.wasm_core.specs.declared.types.ValType.TheVariants.{I32 as Word};
ghost use Rattle.wasm_core.specs.ModuleTyping.{left_by as types_left_by};
ghost use Rattle.wasm_core.specs.Pass.{dead, fit_labels, fits_label, labels_of, off, only, opened, put_on, More, drop_one};
ghost use Rattle.wasm_validate.specs.Progress.{shows};

use crate::checker::{Checker, Progress};
use std::alloc::{AllocError, Global};
use wasm_core::{BlockType, ValType};

/// What a block leaves.
fn left_by(of: BlockType) -> Option<ValType>
    ensures is { option_to_list result ≡ types_left_by of }
{
    match of {
        BlockType::Empty => None,
        BlockType::Value(of) => Some(of),
    }
}

/// `block`: a branch to it takes along what it leaves.
pub(crate) fn check_block(
    alloc: Global,
    checker: &mut Checker,
    of: BlockType,
) -> Result<Progress, AllocError>
    ensures is { IfOk result (λ p. Some (opened (types_left_by of) (types_left_by of) false checker.old.now checker.old.ctls) ≡ shows p checker.new) }
{
    checker.enter(alloc, left_by(of), left_by(of), false)?;
    Ok(Progress::Goes)
}

/// `loop`: a branch to it takes nothing along.
pub(crate) fn check_loop(
    alloc: Global,
    checker: &mut Checker,
    of: BlockType,
) -> Result<Progress, AllocError>
    ensures is { IfOk result (λ p. Some (opened [] (types_left_by of) false checker.old.now checker.old.ctls) ≡ shows p checker.new) }
{
    checker.enter(alloc, None, left_by(of), false)?;
    Ok(Progress::Goes)
}

/// `if`.
pub(crate) fn check_if(
    alloc: Global,
    checker: &mut Checker,
    of: BlockType,
) -> Result<Progress, AllocError>
    ensures is { IfOk result (λ p. on_some (off (Word ∷ []) checker.old.now) (λ k. Some (opened (types_left_by of) (types_left_by of) true k checker.old.ctls)) ≡ shows p checker.new) }
{
    if !checker.take(ValType::I32) {
        return Ok(Progress::Stuck);
    }
    checker.enter(alloc, left_by(of), left_by(of), true)?;
    Ok(Progress::Goes)
}

/// `unreachable`: nothing runs past it.
pub(crate) fn check_unreachable(checker: &mut Checker) -> Progress
    ensures is { Some (dead checker.old) ≡ shows result checker.new }
{
    checker.kill();
    Progress::Goes
}

/// `drop`.
pub(crate) fn check_drop(checker: &mut Checker) -> Progress
    ensures is { on_some (drop_one checker.old.now.vals checker.old.now.loose) (λ k. Some (More (record checker.old { now = k }))) ≡ shows result checker.new }
{
    if checker.take_any() {
        return Progress::Goes;
    }
    Progress::Stuck
}

/// `br`, in a function with the result `own`.
pub(crate) fn check_br(checker: &mut Checker, own: Option<ValType>, label: u32) -> Progress
    ensures is { on_some (slice_get (labels_of (option_to_list own) checker.old.ctls) label) (λ lt. on_some (off lt checker.old.now) (λ k. Some (dead checker.old))) ≡ shows result checker.new }
{
    let Some(along) = checker.label(label, own) else {
        return Progress::Stuck;
    };
    if !checker.take_if(along) {
        return Progress::Stuck;
    }
    checker.kill();
    Progress::Goes
}

/// `br_if`, in a function with the result `own`.
pub(crate) fn check_br_if(
    checker: &mut Checker,
    own: Option<ValType>,
    label: u32,
) -> Result<Progress, AllocError>
    ensures is { IfOk result (λ p. on_some (slice_get (labels_of (option_to_list own) checker.old.ctls) label) (λ lt. on_some (off (Word ∷ []) checker.old.now) (λ k. on_some (off lt k) (λ j. Some (More (record checker.old { now = put_on lt j }))))) ≡ shows p checker.new) }
{
    let Some(along) = checker.label(label, own) else {
        return Ok(Progress::Stuck);
    };
    if !checker.take(ValType::I32) {
        return Ok(Progress::Stuck);
    }
    if !checker.take_if(along) {
        return Ok(Progress::Stuck);
    }
    checker.put_if(along)?;
    Ok(Progress::Goes)
}

/// Whether a label is there, takes along as many operands as `along` has, and the operands fit it.
fn fits(checker: &Checker, own: Option<ValType>, along: Option<ValType>, label: u32) -> bool
    ensures is { result ≡ fits_label (slice_get (labels_of (option_to_list own) checker.now.ctls) label) (length (option_to_list along)) checker.now.now }
{
    let Some(wanted) = checker.label(label, own) else {
        return false;
    };
    wanted.is_some() == along.is_some() && checker.has(wanted)
}

/// Whether all these labels fit.
fn all_fit(checker: &Checker, own: Option<ValType>, along: Option<ValType>, labels: &[u32]) -> bool
    ensures is { result ≡ fit_labels (labels_of (option_to_list own) checker.now.ctls) (length (option_to_list along)) checker.now.now labels.now }
{
    for at in 0..labels.len() {
        if !fits(checker, own, along, labels[at]) {
            return false;
        }
    }
    true
}

/// `br_table`, in a function with the result `own`: the labels take along as many operands as the last one does. Their
/// types may differ only where the operands aren't known.
pub(crate) fn check_br_table(
    checker: &mut Checker,
    own: Option<ValType>,
    labels: &[u32],
    last: u32,
) -> Progress
    ensures is { on_some (slice_get (labels_of (option_to_list own) checker.old.ctls) last) (λ lt. on_some (off (Word ∷ []) checker.old.now) (λ k. on_some (off lt k) (λ j. only (fit_labels (labels_of (option_to_list own) checker.old.ctls) (length lt) k labels.now) (Some (dead checker.old))))) ≡ shows result checker.new }
{
    let Some(along) = checker.label(last, own) else {
        return Progress::Stuck;
    };
    if !checker.take(ValType::I32) {
        return Progress::Stuck;
    }
    if !checker.has(along) || !all_fit(checker, own, along, labels) {
        return Progress::Stuck;
    }
    checker.kill();
    Progress::Goes
}

/// `return`, in a function with the result `own`.
pub(crate) fn check_return(checker: &mut Checker, own: Option<ValType>) -> Progress
    ensures is { on_some (off (option_to_list own) checker.old.now) (λ k. Some (dead checker.old)) ≡ shows result checker.new }
{
    if !checker.take_if(own) {
        return Progress::Stuck;
    }
    checker.kill();
    Progress::Goes
}
