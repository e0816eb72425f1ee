//! Atoms of a lifted block, and the closures that are made for those that are fixpoints' variables.
ghost use Rattle.std.specs.Prelude.{◌≡◌, ℕ, ◌+◌, [], ◌∷◌, ◌++◌, IfOk, IfErr, OnOk, map};
ghost use Rattle.anf_convert.specs.Anf.{AppOp, ConOp, AtomIs, OpIs};
ghost use Rattle.closure_lift.specs.Lift.{held, atom};
ghost use Rattle.closure_lift.specs.Lifted.{ClosOp};
ghost use Rattle.closure_lift.specs.Lifted as lifted;
ghost use Rattle.closure_lift.specs.LiftedView.{seen, bounds_of};
ghost use Rattle.closure_lift.specs.Lifting.{WithClosures, closure_frame, closures_frame, closure_code, closures_code};
ghost use Rattle.closure_lift.specs.declared.fault.LiftFault.TheVariants.{Memory};

use crate::fault::LiftFault;
use crate::frame::Frame;
use crate::program::LiftedOp;
use crate::variables::{Found, Variables};
use crate::words::number_of;
use anf_convert::lists::Atoms;
use anf_convert::program::Atom;
use pc_terms::lists::Numbers;
use std::alloc::Global;

/// The atom that gives a word. Only `Memory`.
fn held_atom(frame: &Frame, word: u32) -> Result<Atom, LiftFault>
    ensures is { IfOk result (λ a. a ≡ held frame.now word) }
    ensures only_memory { IfErr result (λ e. e ≡ Memory) }
{
    Ok(Atom::Var(number_of(frame.word_place(word))?))
}

/// The atoms that give these words. Only `Memory`.
fn held_atoms(alloc: Global, frame: &Frame, words: &Numbers) -> Result<Atoms, LiftFault>
    ensures is { IfOk result (λ as'. as' ≡ map (held frame.now) words.now) }
    ensures only_memory { IfErr result (λ e. e ≡ Memory) }
{
    let words = words.as_slice();
    let mut items = Vec::new(alloc);
    for past in 0..words.len() {
        let a = held_atom(frame, words[words.len() - 1 - past])?;
        if items.push(a).is_err() {
            return Err(LiftFault::Memory);
        }
    }
    Ok(Atoms::of(items))
}

/// An atom of a lifted block. Only `Memory`.
fn lift_atom(variables: &Variables, frame: &Frame, a: &Atom) -> Result<Atom, LiftFault>
    ensures is { IfOk result (λ b. b ≡ atom variables.now.0 frame.now a.now) }
    ensures only_memory { IfErr result (λ e. e ≡ Memory) }
{
    match *a {
        Atom::Var(i) => match variables.find(i) {
            Found::Unbound => Ok(Atom::Box),
            Found::Word(word) => held_atom(frame, word),
            Found::Fix(_, _) => Ok(Atom::Var(number_of(frame.closure_place(i))?)),
        },
        Atom::Box => Ok(Atom::Box),
        Atom::Empty(c) => Ok(Atom::Empty(c)),
    }
}

/// Atoms of a lifted block. Only `Memory`.
fn lift_atoms(
    alloc: Global,
    variables: &Variables,
    frame: &Frame,
    atoms: &Atoms,
) -> Result<Atoms, LiftFault>
    ensures is { IfOk result (λ bs. bs ≡ map (atom variables.now.0 frame.now) atoms.now) }
    ensures only_memory { IfErr result (λ e. e ≡ Memory) }
{
    let mut items = Vec::new(alloc);
    for a in atoms.as_slice() {
        let b = lift_atom(variables, frame, a)?;
        if items.push(b).is_err() {
            return Err(LiftFault::Memory);
        }
    }
    Ok(Atoms::of(items))
}

/// Makes a closure for an atom that is a fixpoint's variable. Only `Memory`.
fn make_closure(
    alloc: Global,
    variables: &Variables,
    frame: &mut Frame,
    code: &mut Vec<LiftedOp>,
    a: &Atom,
) -> Result<(), LiftFault>
    ensures frame { OnOk result (frame.new ≡ closure_frame variables.now.0 frame.old a.now) }
    ensures code { OnOk result (bounds_of code.new.items ≡ bounds_of code.old.items ++ closure_code variables.now.0 variables.now.1 frame.old a.now) }
    ensures only_memory { IfErr result (λ e. e ≡ Memory) }
{
    let Atom::Var(i) = *a else {
        return Ok(());
    };
    let Found::Fix(number, words) = variables.find(i) else {
        return Ok(());
    };
    let atoms = held_atoms(alloc, frame, words)?;
    let closure = LiftedOp::Closure(number_of(number)?, atoms);
    frame.push_closure(i)?;
    if code.push(closure).is_err() {
        return Err(LiftFault::Memory);
    }
    Ok(())
}

/// Makes closures for those of a constructor's arguments that are fixpoints' variables, the last one first. Only `Memory`.
fn make_closures(
    alloc: Global,
    variables: &Variables,
    frame: &mut Frame,
    code: &mut Vec<LiftedOp>,
    atoms: &Atoms,
) -> Result<(), LiftFault>
    ensures frame { OnOk result (frame.new ≡ closures_frame variables.now.0 frame.old atoms.now) }
    ensures code { OnOk result (bounds_of code.new.items ≡ bounds_of code.old.items ++ closures_code variables.now.0 variables.now.1 frame.old atoms.now) }
    ensures only_memory { IfErr result (λ e. e ≡ Memory) }
{
    let items = atoms.as_slice();
    for past in 0..items.len() {
        make_closure(
            alloc,
            variables,
            frame,
            code,
            &items[items.len() - 1 - past],
        )?;
    }
    Ok(())
}

/// An atom, after the closure that it names. Only `Memory`.
pub(crate) fn lift_one(
    alloc: Global,
    variables: &Variables,
    frame: &mut Frame,
    code: &mut Vec<LiftedOp>,
    a: &Atom,
) -> Result<Atom, LiftFault>
    ensures is { IfOk result (λ b. b ≡ atom variables.now.0 frame.new a.now) }
    ensures frame { OnOk result (frame.new ≡ closures_frame variables.now.0 frame.old (a.now ∷ [])) }
    ensures code { OnOk result (WithClosures variables.now frame.old (AtomIs a.now) (bounds_of code.old.items) (bounds_of code.new.items)) }
    ensures only_memory { IfErr result (λ e. e ≡ Memory) }
{
    make_closure(alloc, variables, frame, code, a)?;
    lift_atom(variables, frame, a)
}

/// An application, after the closures that it names. Only `Memory`.
pub(crate) fn lift_application(
    alloc: Global,
    variables: &Variables,
    frame: &mut Frame,
    code: &mut Vec<LiftedOp>,
    f: &Atom,
    a: &Atom,
) -> Result<LiftedOp, LiftFault>
    ensures is { IfOk result (λ o. seen o ≡ lifted.OpIs (lifted.AppOp (atom variables.now.0 frame.new f.now) (atom variables.now.0 frame.new a.now))) }
    ensures frame { OnOk result (frame.new ≡ closures_frame variables.now.0 frame.old (f.now ∷ a.now ∷ [])) }
    ensures code { OnOk result (WithClosures variables.now frame.old (OpIs (AppOp f.now a.now)) (bounds_of code.old.items) (bounds_of code.new.items)) }
    ensures only_memory { IfErr result (λ e. e ≡ Memory) }
{
    make_closure(alloc, variables, frame, code, f)?;
    make_closure(alloc, variables, frame, code, a)?;
    let function = lift_atom(variables, frame, f)?;
    Ok(LiftedOp::App(function, lift_atom(variables, frame, a)?))
}

/// A constructor with arguments, after the closures that it names. Only `Memory`.
pub(crate) fn lift_constructor(
    alloc: Global,
    variables: &Variables,
    frame: &mut Frame,
    code: &mut Vec<LiftedOp>,
    c: u32,
    atoms: &Atoms,
) -> Result<LiftedOp, LiftFault>
    ensures is { IfOk result (λ o. seen o ≡ lifted.OpIs (lifted.ConOp c (map (atom variables.now.0 frame.new) atoms.now))) }
    ensures frame { OnOk result (frame.new ≡ closures_frame variables.now.0 frame.old atoms.now) }
    ensures code { OnOk result (WithClosures variables.now frame.old (OpIs (ConOp c atoms.now)) (bounds_of code.old.items) (bounds_of code.new.items)) }
    ensures only_memory { IfErr result (λ e. e ≡ Memory) }
{
    make_closures(alloc, variables, frame, code, atoms)?;
    let fields = lift_atoms(alloc, variables, frame, atoms)?;
    Ok(LiftedOp::Construct(c, fields))
}

/// The closure of function `i` of those that are numbered from `at` on, with these captured words. Only `Memory`.
pub(crate) fn closure_of(
    alloc: Global,
    frame: &Frame,
    words: &Numbers,
    at: usize,
    i: u32,
) -> Result<LiftedOp, LiftFault>
    ensures is { IfOk result (λ o. seen o ≡ lifted.OpIs (ClosOp (at + i) (map (held frame.now) words.now))) }
    ensures only_memory { IfErr result (λ e. e ≡ Memory) }
{
    let Some(function) = at.checked_add(i as usize) else {
        return Err(LiftFault::Memory);
    };
    let atoms = held_atoms(alloc, frame, words)?;
    Ok(LiftedOp::Closure(number_of(function)?, atoms))
}
