//! Closures that are known, and need no code.
ghost use Rattle.std.specs.Prelude.{◌≡◌, ◌∷◌, [], IfOk, IfErr, None, Some, reverse};
ghost use Rattle.closure_lift.specs.LiftedView.{seen};
ghost use Rattle.closure_lift.specs.LiftedProgram.{place_in, lifted_of};
ghost use Rattle.wasm_emit.specs.ConstantNumbers.{AreNumbered};
ghost use Rattle.known_calls.specs.KnownPlaces.{At, all_at, word_of as word_in, words_of as words_in};
ghost use Rattle.known_calls.specs.KnownCode.{closure_alone as alone_in, known as known_in, known_closure as closure_of, partial as partial_of};
ghost use Rattle.known_calls.specs.KnownPushed.{op_known};
ghost use Rattle.closure_lift.specs.Lifted.{AppOp, ConstOp};
ghost use Rattle.wasm_emit.specs.declared.fault.EmitFault.TheVariants.{Memory};

use crate::places::{Place, place_of};
use crate::words::{Word, Words};
use anf_convert::lists::Atoms;
use anf_convert::program::Atom;
use closure_lift::program::{Lifted, LiftedBlock, LiftedOp};
use pc_terms::leaf::Name;
use std::alloc::Global;
use std::collections::HashMap;
use wasm_emit::EmitFault;
use wasm_emit::instructions::empty_word;

/// A closure of more captured words is never known, and its function has no worker.
pub(crate) const MOST_WORDS: usize = 7;

/// Where the word of an atom is; none where the atom is a closure that is made nowhere, or isn't there. Only `Memory`.
pub(crate) fn word_of(places: &[Place], a: Atom) -> Result<Option<Word>, EmitFault>
    ensures is { IfOk result (λ w. w ≡ word_in (reverse places.now) a) }
    ensures only_memory { IfErr result (λ e. e ≡ Memory) }
{
    match a {
        Atom::Var(i) => match place_of(places, i) {
            Some(Place::At(w)) => Ok(Some(*w)),
            Some(Place::Known(_, _)) => Ok(None),
            None => Ok(None),
        },
        Atom::Box => Ok(Some(Word::Const(0))),
        Atom::Empty(c) => {
            let word = empty_word(c)?;
            Ok(Some(Word::Const(word)))
        }
    }
}

/// Where the words of atoms are, where each has one. Only `Memory`.
fn words_of(alloc: Global, places: &[Place], atoms: &Atoms) -> Result<Option<Words>, EmitFault>
    ensures is { IfOk result (λ ws. ws ≡ words_in (reverse places.now) atoms.now) }
    ensures only_memory { IfErr result (λ e. e ≡ Memory) }
{
    let mut words = Vec::new(alloc);
    for a in atoms.as_slice() {
        let Some(word) = word_of(places, *a)? else {
            return Ok(None);
        };
        words.push(word)?;
    }
    Ok(Some(Words::of(words)))
}

/// The closure of function g with these captured words; none where it has too many, or one that is nowhere. Only `Memory`.
fn known_closure(
    alloc: Global,
    places: &[Place],
    g: u32,
    atoms: &Atoms,
) -> Result<Option<Place>, EmitFault>
    ensures is { IfOk result (λ q. q ≡ closure_of g (words_in (reverse places.now) atoms.now)) }
    ensures only_memory { IfErr result (λ e. e ≡ Memory) }
{
    if atoms.len() > MOST_WORDS {
        return Ok(None);
    }
    match words_of(alloc, places, atoms)? {
        Some(words) => Ok(Some(Place::Known(g, words))),
        None => Ok(None),
    }
}

/// What a block is that makes a closure and does nothing else; none for every other block. Only `Memory`.
fn closure_alone(
    alloc: Global,
    places: &[Place],
    b: &LiftedBlock,
) -> Result<Option<Place>, EmitFault>
    ensures is { IfOk result (λ q. q ≡ alone_in (reverse places.now) b.now) }
    ensures only_memory { IfErr result (λ e. e ≡ Memory) }
{
    if b.bindings.as_slice().len() > 0 {
        return Ok(None);
    }
    match &b.tail {
        LiftedOp::Closure(g, atoms) => known_closure(alloc, places, *g, atoms),
        LiftedOp::Atom(_) => Ok(None),
        LiftedOp::Const(_) => Ok(None),
        LiftedOp::App(_, _) => Ok(None),
        LiftedOp::Construct(_, _) => Ok(None),
        LiftedOp::Case(_, _) => Ok(None),
    }
}

/// The places of a function's captured words, and of its argument. Only `Memory`.
fn places_at(alloc: Global, words: &Words, argument: Word) -> Result<Vec<Place>, EmitFault>
    ensures is { IfOk result (λ v. reverse v.items ≡ At argument ∷ all_at words.now) }
    ensures only_memory { IfErr result (λ e. e ≡ Memory) }
{
    let mut places = Vec::new(alloc);
    for w in words.as_slice() {
        places.push(Place::At(*w))?;
    }
    places.push(Place::At(argument))?;
    Ok(places)
}

/// The closure that a known closure gives when it is applied, where its function makes a closure and does nothing else. Only `Memory`.
fn partial(
    alloc: Global,
    p: &Lifted,
    g: u32,
    words: &Words,
    argument: Word,
) -> Result<Option<Place>, EmitFault>
    ensures is { IfOk result (λ q. q ≡ partial_of (lifted_of p.now) (g, words.now) (Some argument)) }
    ensures only_memory { IfErr result (λ e. e ≡ Memory) }
{
    let functions = p.functions.as_slice();
    let place = g as usize;
    if place >= functions.len() {
        return Ok(None);
    }
    let places = places_at(alloc, words, argument)?;
    closure_alone(alloc, places.as_slice(), &functions[place].body)
}

/// The closure that an application is known to give. Only `Memory`.
fn known_application(
    alloc: Global,
    p: &Lifted,
    places: &[Place],
    f: Atom,
    a: Atom,
) -> Result<Option<Place>, EmitFault>
    ensures is { IfOk result (λ q. q ≡ known_in (lifted_of p.now) (reverse places.now) (AppOp f a)) }
    ensures only_memory { IfErr result (λ e. e ≡ Memory) }
{
    let Atom::Var(i) = f else {
        return Ok(None);
    };
    let Some(Place::Known(g, words)) = place_of(places, i) else {
        return Ok(None);
    };
    match word_of(places, a)? {
        Some(argument) => partial(alloc, p, *g, words, argument),
        None => Ok(None),
    }
}

/// The closure that a constant is known to be; `numbers` are those of the program's constants. Only `Memory`.
fn known_constant(
    alloc: Global,
    p: &Lifted,
    numbers: &HashMap<u32, usize>,
    name: Name,
) -> Result<Option<Place>, EmitFault>
    requires numbered { AreNumbered numbers.now p.now.constants }
    ensures is { IfOk result (λ q. q ≡ known_in (lifted_of p.now) [] (ConstOp (place_in p.now.constants name.0))) }
    ensures only_memory { IfErr result (λ e. e ≡ Memory) }
{
    let Some(number) = numbers.get(&name.0) else {
        return Ok(None);
    };
    let constants = p.constants.as_slice();
    if *number >= constants.len() {
        return Ok(None);
    }
    let c = &constants[constants.len() - 1 - *number];
    closure_alone(alloc, &[], &c.body)
}

/// The closure that an operation is known to give, in these places, the innermost last. Only `Memory`.
pub(crate) fn known(
    p: &Lifted,
    numbers: &HashMap<u32, usize>,
    places: &Vec<Place>,
    op: &LiftedOp,
) -> Result<Option<Place>, EmitFault>
    requires numbered { AreNumbered numbers.now p.now.constants }
    ensures is { IfOk result (λ q. q ≡ op_known p.now (reverse places.now.items) (seen op.now)) }
    ensures only_memory { IfErr result (λ e. e ≡ Memory) }
{
    let alloc = *places.allocator();
    match op {
        LiftedOp::Atom(_) => Ok(None),
        LiftedOp::Const(name) => known_constant(alloc, p, numbers, *name),
        LiftedOp::App(f, a) => known_application(alloc, p, places.as_slice(), *f, *a),
        LiftedOp::Construct(_, _) => Ok(None),
        LiftedOp::Closure(g, atoms) => known_closure(alloc, places.as_slice(), *g, atoms),
        LiftedOp::Case(_, _) => Ok(None),
    }
}
