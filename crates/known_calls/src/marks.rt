//! Which bindings of a block are read as a word in the block behind them, and of which branches the only variable is read twice or more.
//!
//! One walk, from the back of each block, finds all marks of a body: of each variable that is there it is kept how often it has been read
//! so far, and where the walk comes to a variable's binding this says the binding's mark; where it comes to a branch of one variable, the
//! branch's.
ghost use Rattle.std.specs.Prelude.{◌≡◌, ◌∷◌, ◌++◌, [], IfOk, IfErr, OnOk, drop, get_or, length, replicate, reverse, true};
ghost use Rattle.closure_lift.specs.LiftedView.{seen, branches_of};
ghost use Rattle.known_calls.specs.KnownPlaces.{Never, More, is_read, names, some_names, block_reads, branches_read};
ghost use Rattle.known_calls.specs.KnownCode.{moves};
ghost use Rattle.known_calls.specs.KnownMarks.{Begins, also, block_marks, bound_marks, bound_reads, branch_marks, empties_read, empty_marks, field_marks, head_marks, heads_read};
ghost use Rattle.wasm_emit.specs.declared.fault.EmitFault.TheVariants.{Memory};

use crate::times::Times;
use anf_convert::lists::Atoms;
use anf_convert::program::Atom;
use closure_lift::program::{LiftedBlock, LiftedBranch, LiftedBranches, LiftedOp};
use std::alloc::Global;
use wasm_emit::EmitFault;

/// Takes the next mark off; where there is none, a binding counts as read.
pub(crate) fn take_mark(marks: &mut Vec<bool>) -> bool
    ensures is { result ≡ get_or (reverse marks.old.items) 0 true }
    ensures left { reverse marks.new.items ≡ drop 1 (reverse marks.old.items) }
{
    match marks.pop() {
        Some(mark) => mark,
        None => true,
    }
}

/// Takes the next mark off where a branch has one of its own, and says whether its field comes into the local in which its block's address is.
pub(crate) fn take_field_mark(marks: &mut Vec<bool>, b: &LiftedBranch) -> bool
    requires marked { Begins (branch_marks b.now.binders b.now.body) (reverse marks.old.items) }
    ensures is { result ≡ moves b.now.binders b.now.body }
    ensures marked { Begins (block_marks b.now.body) (reverse marks.new.items) }
    ensures left { drop (length (block_marks b.now.body)) (reverse marks.new.items) ≡ drop (length (branch_marks b.now.binders b.now.body)) (reverse marks.old.items) }
{
    if b.binders == 1 {
        take_mark(marks)
    } else {
        false
    }
}

/// Takes the innermost variable's note off; where there is none, one counts as read twice.
fn take_note(notes: &mut Vec<Times>) -> Times
    ensures is { result ≡ get_or (reverse notes.old.items) 0 More }
    ensures left { reverse notes.new.items ≡ drop 1 (reverse notes.old.items) }
{
    match notes.pop() {
        Some(note) => note,
        None => Times::More,
    }
}

/// Notes that the variable that an atom names is read once more. The variables' notes lie with the innermost variable's last.
fn note_atom(notes: &mut Vec<Times>, a: Atom)
    ensures noted { reverse notes.new.items ≡ also (λ i. names i a) (reverse notes.old.items) }
{
    let Atom::Var(i) = a else {
        return;
    };
    let n = notes.len();
    if (i as usize) < n {
        let k = n - 1 - i as usize;
        let note = notes[k];
        notes[k] = note.once_more();
    }
}

/// The same for the variables that these atoms name.
fn note_atoms(notes: &mut Vec<Times>, atoms: &Atoms)
    ensures noted { reverse notes.new.items ≡ also (λ i. some_names i atoms.now) (reverse notes.old.items) }
{
    for a in atoms.as_slice() {
        note_atom(notes, *a);
    }
}

/// n variables more, of which none has been read. Only `Memory`.
fn push_unread(notes: &mut Vec<Times>, n: usize) -> Result<(), EmitFault>
    ensures pushed { OnOk result (reverse notes.new.items ≡ replicate n Never ++ reverse notes.old.items) }
    ensures only_memory { IfErr result (λ e. e ≡ Memory) }
{
    for _ in 0..n {
        notes.push(Times::Never)?;
    }
    Ok(())
}

/// Notes what a block reads, and puts its marks in front of those that are there; the marks lie with the next one last. Only `Memory`.
#[cycle(notes)]
fn note_block(
    notes: &mut Vec<Times>,
    marks: &mut Vec<bool>,
    b: &LiftedBlock,
) -> Result<(), EmitFault>
    ensures noted { OnOk result (reverse notes.new.items ≡ also (λ i. block_reads i b.now) (reverse notes.old.items)) }
    ensures marked { OnOk result (reverse marks.new.items ≡ block_marks b.now ++ reverse marks.old.items) }
    ensures only_memory { IfErr result (λ e. e ≡ Memory) }
{
    let ops = b.bindings.as_slice();
    let n = ops.len();
    push_unread(notes, n)?;
    note_op(notes, marks, &b.tail)?;
    for k in 0..n {
        note_binding(notes, marks, &ops[n - 1 - k])?;
    }
    Ok(())
}

/// The innermost variable's note becomes the mark of its binding, and then what is bound is noted. Only `Memory`.
#[cycle(notes)]
fn note_binding(
    notes: &mut Vec<Times>,
    marks: &mut Vec<bool>,
    op: &LiftedOp,
) -> Result<(), EmitFault>
    ensures noted { OnOk result (reverse notes.new.items ≡ also (λ i. bound_reads i (seen op.now)) (drop 1 (reverse notes.old.items))) }
    ensures marked { OnOk result (reverse marks.new.items ≡ is_read (get_or (reverse notes.old.items) 0 More) ∷ (bound_marks (seen op.now) ++ reverse marks.old.items)) }
    ensures only_memory { IfErr result (λ e. e ≡ Memory) }
{
    let note = take_note(notes);
    note_op(notes, marks, op)?;
    marks.push(note.is_read())?;
    Ok(())
}

/// Notes what an operation reads, and puts its marks in front of those that are there. Only `Memory`.
#[cycle(notes)]
fn note_op(notes: &mut Vec<Times>, marks: &mut Vec<bool>, op: &LiftedOp) -> Result<(), EmitFault>
    ensures noted { OnOk result (reverse notes.new.items ≡ also (λ i. bound_reads i (seen op.now)) (reverse notes.old.items)) }
    ensures marked { OnOk result (reverse marks.new.items ≡ bound_marks (seen op.now) ++ reverse marks.old.items) }
    ensures only_memory { IfErr result (λ e. e ≡ Memory) }
{
    match op {
        LiftedOp::Atom(a) => {
            note_atom(notes, *a);
            Ok(())
        }
        LiftedOp::Const(_) => Ok(()),
        LiftedOp::App(_, a) => {
            note_atom(notes, *a);
            Ok(())
        }
        LiftedOp::Construct(_, atoms) => {
            note_atoms(notes, atoms);
            Ok(())
        }
        LiftedOp::Closure(_, atoms) => {
            note_atoms(notes, atoms);
            Ok(())
        }
        LiftedOp::Case(a, bs) => {
            note_branches(notes, marks, bs)?;
            note_atom(notes, *a);
            Ok(())
        }
    }
}

/// The same for the branches of a match: first for those with binders, whose marks are the last. Only `Memory`.
#[cycle(notes)]
fn note_branches(
    notes: &mut Vec<Times>,
    marks: &mut Vec<bool>,
    bs: &LiftedBranches,
) -> Result<(), EmitFault>
    ensures noted { OnOk result (reverse notes.new.items ≡ also (λ i. branches_read i bs.now) (reverse notes.old.items)) }
    ensures marked { OnOk result (reverse marks.new.items ≡ empty_marks bs.now ++ (head_marks bs.now ++ reverse marks.old.items)) }
    ensures only_memory { IfErr result (λ e. e ≡ Memory) }
{
    note_heads(notes, marks, bs.as_slice())?;
    note_empties(notes, marks, bs.as_slice())
}

/// The same for the branches with binders. Only `Memory`.
#[cycle(notes)]
fn note_heads(
    notes: &mut Vec<Times>,
    marks: &mut Vec<bool>,
    bs: &[LiftedBranch],
) -> Result<(), EmitFault>
    ensures noted { OnOk result (reverse notes.new.items ≡ also (λ i. heads_read i (branches_of bs.now)) (reverse notes.old.items)) }
    ensures marked { OnOk result (reverse marks.new.items ≡ head_marks (branches_of bs.now) ++ reverse marks.old.items) }
    ensures only_memory { IfErr result (λ e. e ≡ Memory) }
{
    let n = bs.len();
    for k in 0..n {
        note_head(notes, marks, &bs[n - 1 - k])?;
    }
    Ok(())
}

/// The same for the branches without binders. Only `Memory`.
#[cycle(notes)]
fn note_empties(
    notes: &mut Vec<Times>,
    marks: &mut Vec<bool>,
    bs: &[LiftedBranch],
) -> Result<(), EmitFault>
    ensures noted { OnOk result (reverse notes.new.items ≡ also (λ i. empties_read i (branches_of bs.now)) (reverse notes.old.items)) }
    ensures marked { OnOk result (reverse marks.new.items ≡ empty_marks (branches_of bs.now) ++ reverse marks.old.items) }
    ensures only_memory { IfErr result (λ e. e ≡ Memory) }
{
    let n = bs.len();
    for k in 0..n {
        note_empty(notes, marks, &bs[n - 1 - k])?;
    }
    Ok(())
}

/// Puts the mark of a branch of n variables, the first of which has the innermost note, in front of those that are there. Only `Memory`.
fn mark_field(notes: &[Times], marks: &mut Vec<bool>, n: u32) -> Result<(), EmitFault>
    ensures marked { OnOk result (reverse marks.new.items ≡ field_marks n (get_or (reverse notes.now) 0 More) ++ reverse marks.old.items) }
    ensures only_memory { IfErr result (λ e. e ≡ Memory) }
{
    if n != 1 {
        return Ok(());
    }
    let note = innermost(notes);
    marks.push(note.is_twice())?;
    Ok(())
}

/// The innermost variable's note; where there is none, one counts as read twice.
fn innermost(notes: &[Times]) -> Times
    ensures is { result ≡ get_or (reverse notes.now) 0 More }
{
    let n = notes.len();
    if n == 0 {
        return Times::More;
    }
    notes[n - 1]
}

/// The same for a branch, where it has binders. They are gone behind it. Only `Memory`.
#[cycle(notes)]
fn note_head(
    notes: &mut Vec<Times>,
    marks: &mut Vec<bool>,
    b: &LiftedBranch,
) -> Result<(), EmitFault>
    ensures noted { OnOk result (reverse notes.new.items ≡ also (λ i. heads_read i (branches_of (b.now ∷ []))) (reverse notes.old.items)) }
    ensures marked { OnOk result (reverse marks.new.items ≡ head_marks (branches_of (b.now ∷ [])) ++ reverse marks.old.items) }
    ensures only_memory { IfErr result (λ e. e ≡ Memory) }
{
    if b.binders == 0 {
        return Ok(());
    }
    let outer = notes.len();
    push_unread(notes, b.binders as usize)?;
    note_block(notes, marks, &b.body)?;
    mark_field(notes.as_slice(), marks, b.binders)?;
    notes.truncate(outer);
    Ok(())
}

/// The same for a branch, where it has no binders. Only `Memory`.
#[cycle(notes)]
fn note_empty(
    notes: &mut Vec<Times>,
    marks: &mut Vec<bool>,
    b: &LiftedBranch,
) -> Result<(), EmitFault>
    ensures noted { OnOk result (reverse notes.new.items ≡ also (λ i. empties_read i (branches_of (b.now ∷ []))) (reverse notes.old.items)) }
    ensures marked { OnOk result (reverse marks.new.items ≡ empty_marks (branches_of (b.now ∷ [])) ++ reverse marks.old.items) }
    ensures only_memory { IfErr result (λ e. e ≡ Memory) }
{
    if b.binders > 0 {
        return Ok(());
    }
    note_block(notes, marks, &b.body)
}

/// The marks of a block, the first one last. Only `Memory`.
pub(crate) fn marks_of(alloc: Global, b: &LiftedBlock) -> Result<Vec<bool>, EmitFault>
    ensures is { IfOk result (λ v. reverse v.items ≡ block_marks b.now) }
    ensures only_memory { IfErr result (λ e. e ≡ Memory) }
{
    let mut notes = Vec::new(alloc);
    let mut marks = Vec::new(alloc);
    note_block(&mut notes, &mut marks, b)?;
    Ok(marks)
}
