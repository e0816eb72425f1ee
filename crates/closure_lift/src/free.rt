//! The free variables of the lambdas and fixpoints of a program, found in one walk from the leaves up.
ghost use Rattle.std.specs.Prelude.{◌≡◌, ℕ, suc, ◌+◌, ◌≤◌, [], ◌∷◌, ◌++◌, IfOk, IfErr, OnOk, length, take, drop, reverse};
ghost use Rattle.anf_convert.specs.Captured.{captured};
ghost use Rattle.anf_convert.specs.AnfView.{seen};
ghost use Rattle.closure_lift.specs.FreeVariables.{free_atom, free_atoms, free_block, free_branches, free_defs, notes_block, notes_branches, notes_defs, nothing};
ghost use Rattle.closure_lift.specs.Noting.{free_bound, notes_bound, put_first};
ghost use Rattle.closure_lift.specs.declared.fault.LiftFault.TheVariants.{Memory};

use crate::fault::LiftFault;
use crate::words::{captured_words, number_of, sum_of};
use anf_convert::lists::Atoms;
use anf_convert::program::{AnfBlock, AnfBranches, AnfDef, AnfDefs, Atom, Op};
use pc_terms::lists::Numbers;
use std::alloc::Global;

/// Puts a level behind the others. Only `Memory`.
fn name_level(level: u32, names: &mut Vec<u32>) -> Result<(), LiftFault>
    ensures names { OnOk result (names.new.items ≡ names.old.items ++ level ∷ []) }
    ensures only_memory { IfErr result (λ e. e ≡ Memory) }
{
    match names.push(level) {
        Ok(()) => Ok(()),
        Err(_) => Err(LiftFault::Memory),
    }
}

/// Names the variable of an atom under `n` variables. Only `Memory`.
fn name_atom(n: u32, a: &Atom, names: &mut Vec<u32>) -> Result<(), LiftFault>
    ensures names { OnOk result (names.new.items ≡ names.old.items ++ free_atom n a.now) }
    ensures only_memory { IfErr result (λ e. e ≡ Memory) }
{
    match *a {
        Atom::Var(i) => {
            if i < n {
                return name_level(n - (i + 1), names);
            }
            Ok(())
        }
        Atom::Box | Atom::Empty(_) => Ok(()),
    }
}

/// Names the variables of a constructor's arguments under `n` variables. Only `Memory`.
fn name_atoms(n: u32, atoms: &Atoms, names: &mut Vec<u32>) -> Result<(), LiftFault>
    ensures names { OnOk result (names.new.items ≡ names.old.items ++ free_atoms n atoms.now) }
    ensures only_memory { IfErr result (λ e. e ≡ Memory) }
{
    let items = atoms.as_slice();
    for past in 0..items.len() {
        name_atom(n, &items[items.len() - 1 - past], names)?;
    }
    Ok(())
}

/// Puts `count` empty lists behind the others, places for the free variables of a lambda or fixpoint. Only `Memory`.
#[tactic(auto, using(crate::proofs::Noting::nothing_more, std::proofs::lemmas::Grind::common_steps))]
fn reserve(alloc: Global, count: u32, notes: &mut Vec<Numbers>) -> Result<(), LiftFault>
    ensures notes { OnOk result (notes.new.items ≡ notes.old.items ++ nothing count) }
    ensures only_memory { IfErr result (λ e. e ≡ Memory) }
{
    for _i in 0..count {
        if notes.push(Numbers::new(alloc)).is_err() {
            return Err(LiftFault::Memory);
        }
    }
    Ok(())
}

/// The free variables among the names from `start` on, of a lambda or fixpoint under `n` variables. They stand in the names' place. Only
/// `Memory`.
fn close(alloc: Global, n: u32, start: usize, names: &mut Vec<u32>) -> Result<Numbers, LiftFault>
    requires start { start ≤ length names.old.items }
    ensures is { IfOk result (λ xs. xs ≡ captured n (drop start names.old.items)) }
    ensures names { IfOk result (λ xs. names.new.items ≡ take start names.old.items ++ xs) }
    ensures only_memory { IfErr result (λ e. e ≡ Memory) }
{
    let free = captured_words(alloc, &names[start..], n)?;
    names.truncate(start);
    for x in free.as_slice() {
        name_level(*x, names)?;
    }
    Ok(free)
}

/// Notes the free variables of a lambda or fixpoint in the first of its `count` places, which begin at `place`.
fn note(count: u32, place: usize, free: Numbers, notes: &mut Vec<Numbers>)
    requires place { place + count ≤ length notes.old.items }
    ensures notes { notes.new.items ≡ put_first place count free notes.old.items }
{
    if count > 0 {
        notes[place] = free;
    }
}

/// Names what an operation under `n` variables names, and notes the free variables of the lambdas and fixpoints in it. Only `Memory`.
#[cycle(note)]
pub(crate) fn note_op(
    alloc: Global,
    n: u32,
    op: &Op,
    names: &mut Vec<u32>,
    notes: &mut Vec<Numbers>,
) -> Result<(), LiftFault>
    ensures names { OnOk result (names.new.items ≡ names.old.items ++ free_bound n (seen op.now)) }
    ensures notes { OnOk result (notes.new.items ≡ notes.old.items ++ notes_bound n (seen op.now)) }
    ensures only_memory { IfErr result (λ e. e ≡ Memory) }
{
    match op {
        Op::Atom(a) => name_atom(n, a, names),
        Op::Const(_) => Ok(()),
        Op::App(f, a) => {
            name_atom(n, f, names)?;
            name_atom(n, a, names)
        }
        Op::Construct(_, atoms) => name_atoms(n, atoms, names),
        Op::Lambda(body) => {
            let start = names.len();
            let place = notes.len();
            reserve(alloc, 1, notes)?;
            note_block(alloc, sum_of(1, n)?, body, names, notes)?;
            let free = close(alloc, n, start, names)?;
            note(1, place, free, notes);
            Ok(())
        }
        Op::Fix(defs, _) => {
            let start = names.len();
            let place = notes.len();
            let count = number_of(defs.as_slice().len())?;
            reserve(alloc, count, notes)?;
            note_defs(alloc, sum_of(count, n)?, defs, names, notes)?;
            let free = close(alloc, n, start, names)?;
            note(count, place, free, notes);
            Ok(())
        }
        Op::Case(a, branches) => {
            name_atom(n, a, names)?;
            note_branches(alloc, n, branches, names, notes)
        }
    }
}

/// Names what a block under `n` variables names, and notes the free variables of the lambdas and fixpoints in it. Only `Memory`.
#[cycle(note)]
pub(crate) fn note_block(
    alloc: Global,
    n: u32,
    block: &AnfBlock,
    names: &mut Vec<u32>,
    notes: &mut Vec<Numbers>,
) -> Result<(), LiftFault>
    ensures names { OnOk result (names.new.items ≡ names.old.items ++ free_block n block.now) }
    ensures notes { OnOk result (notes.new.items ≡ notes.old.items ++ notes_block n block.now) }
    ensures only_memory { IfErr result (λ e. e ≡ Memory) }
{
    let mut under = n;
    let ops = block.bindings.as_slice();
    for i in 0..ops.len() {
        note_op(alloc, under, &ops[i], names, notes)?;
        under = sum_of(1, under)?;
    }
    note_op(alloc, under, &block.tail, names, notes)
}

/// Names what branches under `n` variables name, and notes the free variables of the lambdas and fixpoints in them. Only `Memory`.
#[cycle(note)]
fn note_branches(
    alloc: Global,
    n: u32,
    branches: &AnfBranches,
    names: &mut Vec<u32>,
    notes: &mut Vec<Numbers>,
) -> Result<(), LiftFault>
    ensures names { OnOk result (names.new.items ≡ names.old.items ++ free_branches n branches.now) }
    ensures notes { OnOk result (notes.new.items ≡ notes.old.items ++ notes_branches n branches.now) }
    ensures only_memory { IfErr result (λ e. e ≡ Memory) }
{
    let items = branches.as_slice();
    for i in 0..items.len() {
        let arm = &items[i];
        let under = sum_of(arm.binders, n)?;
        note_block(alloc, under, &arm.body, names, notes)?;
    }
    Ok(())
}

/// Names what the definitions of a fixpoint name under `n` variables, the fixpoint's among them, and notes the free variables of the lambdas
/// and fixpoints in them. Only `Memory`.
#[cycle(note)]
fn note_defs(
    alloc: Global,
    n: u32,
    defs: &AnfDefs,
    names: &mut Vec<u32>,
    notes: &mut Vec<Numbers>,
) -> Result<(), LiftFault>
    ensures names { OnOk result (names.new.items ≡ names.old.items ++ free_defs n defs.now) }
    ensures notes { OnOk result (notes.new.items ≡ notes.old.items ++ notes_defs n defs.now) }
    ensures only_memory { IfErr result (λ e. e ≡ Memory) }
{
    let items = defs.as_slice();
    for i in 0..items.len() {
        match &items[i] {
            AnfDef::Lambda(body) => note_block(alloc, sum_of(1, n)?, body, names, notes)?,
            AnfDef::Box => {}
        }
    }
    Ok(())
}
