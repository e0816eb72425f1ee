//! Tail calls: the callee runs in place of the function, so its results are that function's.

ghost use Rattle.std.specs.Prelude.{◌≡◌, Some};
ghost use Rattle.std.specs.Option.{option_to_list};
ghost use Rattle.wasm_core.specs.declared.instrs.Instr.TheVariants.{ReturnCall, ReturnCallIndirect};
ghost use Rattle.wasm_core.specs.ModuleTyping.{calling, calling_entry, tail_effect};
ghost use Rattle.wasm_core.specs.Pass.{check_tail};
ghost use Rattle.wasm_validate.specs.Progress.{shows};

use crate::checker::{Checker, Progress};
use crate::plain::{take_params, type_of_entry, type_of_func};
use wasm_core::{FuncType, Module, ValType};

/// A tail call of a function of this type, in one with the result `own`.
fn check_tail_callee(checker: &mut Checker, of: &FuncType, own: Option<ValType>) -> Progress
    ensures is { check_tail (option_to_list own) (Some (calling of.now)) checker.old ≡ shows result checker.new }
{
    if of.result != own || !take_params(checker, of.params.as_slice()) {
        return Progress::Stuck;
    }
    checker.kill();
    Progress::Goes
}

/// A tail call of a table's entry with this type, whose index lies above the arguments.
fn check_tail_entry(checker: &mut Checker, of: &FuncType, own: Option<ValType>) -> Progress
    ensures is { check_tail (option_to_list own) (Some (calling_entry of.now)) checker.old ≡ shows result checker.new }
{
    if !checker.take(ValType::I32) {
        return Progress::Stuck;
    }
    check_tail_callee(checker, of, own)
}

/// `return_call`, in a function with the result `own`.
pub(crate) fn check_return_call(
    m: &Module,
    checker: &mut Checker,
    own: Option<ValType>,
    func: u32,
) -> Progress
    ensures is { check_tail (option_to_list own) (tail_effect m.now (ReturnCall func)) checker.old ≡ shows result checker.new }
{
    match type_of_func(m, func) {
        Some(of) => check_tail_callee(checker, of, own),
        None => Progress::Stuck,
    }
}

/// `return_call_indirect`, through the table 0, in a function with the result `own`.
pub(crate) fn check_return_call_indirect(
    m: &Module,
    checker: &mut Checker,
    own: Option<ValType>,
    index: u32,
    table: u32,
) -> Progress
    ensures is { check_tail (option_to_list own) (tail_effect m.now (ReturnCallIndirect index table)) checker.old ≡ shows result checker.new }
{
    match type_of_entry(m, index, table) {
        Some(of) => check_tail_entry(checker, of, own),
        None => Progress::Stuck,
    }
}
