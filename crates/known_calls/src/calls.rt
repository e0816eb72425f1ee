//! Applications: calls of closures by the table, and of known functions by their workers.
ghost use Rattle.std.specs.Prelude.{◌≡◌, IfOk, IfErr, OnOk, reverse};
ghost use Rattle.closure_lift.specs.LiftedProgram.{lifted_of};
ghost use Rattle.wasm_emit.specs.Pushed.{Pushed};
ghost use Rattle.wasm_emit.specs.declared.fault.EmitFault.TheVariants.{Memory};
ghost use Rattle.known_calls.specs.KnownPlaces.{known_function};
ghost use Rattle.known_calls.specs.KnownCode.{application, call_worker, jumps as is_jump, worker_index as index_of_worker};
ghost use Rattle.known_calls.specs.KnownCode.{call_of as call_at, closure_call as closure_call_at};
ghost use Rattle.known_calls.specs.KnownPushed.{argument_code, arguments_code, unknown_application};

use crate::instructions::{push_atom, push_into_params, push_words};
use crate::places::{Place, place_of};
use crate::site::Position;
use crate::words::Word;
use anf_convert::program::Atom;
use closure_lift::program::Lifted;
use wasm_core::Instr;
use wasm_emit::EmitFault;
use wasm_emit::functions::function_index;
use wasm_emit::instructions::{bytes_of, push, push_load};

/// A branch out of more blocks is a tail call.
const MOST_BLOCKS: u32 = 16_383;

/// The index of the worker of function g. An index past 32 bits is `Memory`.
pub(crate) fn worker_index(p: &Lifted, g: u32) -> Result<u32, EmitFault>
    ensures is { IfOk result (λ i. i ≡ index_of_worker (lifted_of p.now) g) }
    ensures only_memory { IfErr result (λ e. e ≡ Memory) }
{
    let Some(sum) = p.constants.len().checked_add(g as usize) else {
        return Err(EmitFault::Memory);
    };
    let Some(after) = sum.checked_add(1) else {
        return Err(EmitFault::Memory);
    };
    function_index(p, after)
}

/// Whether a call of worker g in the tail of the body of worker h, in so many blocks, is a branch.
fn jumps(g: u32, h: u32, depth: u32) -> bool
    ensures is { result ≡ is_jump g h depth }
{
    g == h && depth <= MOST_BLOCKS
}

/// The call of the function with this index.
pub(crate) fn call_of(at: Position, index: u32) -> Instr
    ensures is { result ≡ call_at at index }
{
    match at {
        Position::Inside => Instr::Call(index),
        Position::Final | Position::InTail(_, _) => Instr::ReturnCall(index),
    }
}

/// The call of an unknown closure's function, by its entry of table 0.
fn closure_call(at: Position) -> Instr
    ensures is { result ≡ closure_call_at at }
{
    match at {
        Position::Inside => Instr::CallIndirect(2, 0),
        Position::Final | Position::InTail(_, _) => Instr::ReturnCallIndirect(2, 0),
    }
}

/// Calls the worker of function g with n captured words and an argument, which are on the operands. Only `Memory`.
fn push_worker_call(
    p: &Lifted,
    at: Position,
    g: u32,
    n: u32,
    out: &mut Vec<Instr>,
) -> Result<(), EmitFault>
    ensures pushed { OnOk result (Pushed out.old.items out.new.items (call_worker (lifted_of p.now) at g n)) }
    ensures only_memory { IfErr result (λ e. e ≡ Memory) }
{
    let index = worker_index(p, g)?;
    match at {
        Position::Inside => push(out, Instr::Call(index)),
        Position::Final => push(out, Instr::ReturnCall(index)),
        Position::InTail(h, depth) => {
            if jumps(g, h, depth) {
                push_into_params(n, out)?;
                return push(out, Instr::Br(depth));
            }
            push(out, Instr::ReturnCall(index))
        }
    }
}

/// Calls a closure's function with the closure and the argument: its entry of the table is the first word of its block. Only `Memory`.
fn push_unknown(
    places: &[Place],
    at: Position,
    f: Atom,
    a: Atom,
    out: &mut Vec<Instr>,
) -> Result<(), EmitFault>
    ensures pushed { OnOk result (Pushed out.old.items out.new.items (unknown_application (reverse places.now) at f a)) }
    ensures only_memory { IfErr result (λ e. e ≡ Memory) }
{
    push_atom(places, f, out)?;
    push_atom(places, a, out)?;
    push_atom(places, f, out)?;
    push_load(out, 0)?;
    push(out, closure_call(at))
}

/// Applies a function to an argument: a known one by its worker, any other by the table. Only `Memory`.
pub(crate) fn push_application(
    p: &Lifted,
    places: &[Place],
    at: Position,
    f: Atom,
    a: Atom,
    out: &mut Vec<Instr>,
) -> Result<(), EmitFault>
    ensures pushed { OnOk result (Pushed out.old.items out.new.items (application (lifted_of p.now) (reverse places.now) at f a (known_function (reverse places.now) f))) }
    ensures only_memory { IfErr result (λ e. e ≡ Memory) }
{
    let Atom::Var(i) = f else {
        return push_unknown(places, at, f, a, out);
    };
    let Some(Place::Known(g, words)) = place_of(places, i) else {
        return push_unknown(places, at, f, a, out);
    };
    let Ok(n) = u32::try_from(words.len()) else {
        return Err(EmitFault::Memory);
    };
    push_words(words, out)?;
    push_atom(places, a, out)?;
    push_worker_call(p, at, *g, n, out)
}

/// Applies the word on the operands to argument n, counted from 0: the function's word comes into local 0, and the argument's, which lies so many words behind the
/// address in global 3, into local 1. Only `Memory`.
fn push_argument(n: u32, out: &mut Vec<Instr>) -> Result<(), EmitFault>
    ensures pushed { OnOk result (Pushed out.old.items out.new.items (argument_code n)) }
    ensures only_memory { IfErr result (λ e. e ≡ Memory) }
{
    let offset = bytes_of(n as usize)?;
    push(out, Instr::LocalSet(0))?;
    push(out, Instr::GlobalGet(3))?;
    push_load(out, offset)?;
    push(out, Instr::LocalSet(1))?;
    let places = [Place::At(Word::Local(0)), Place::At(Word::Local(1))];
    push_unknown(&places, Position::Inside, Atom::Var(1), Atom::Var(0), out)
}

/// Applies the word on the operands to `k` arguments, the first first. Only `Memory`.
pub(crate) fn push_arguments(k: u32, out: &mut Vec<Instr>) -> Result<(), EmitFault>
    ensures pushed { OnOk result (Pushed out.old.items out.new.items (arguments_code k)) }
    ensures only_memory { IfErr result (λ e. e ≡ Memory) }
{
    for n in 0..k {
        push_argument(n, out)?;
    }
    Ok(())
}
