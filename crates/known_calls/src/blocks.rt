//! The instructions of the blocks of a lifted program.
//!
//! A binding gets the local whose number is how many stand before it; but one that is known, and read as a word nowhere, gets no local and no code. A match puts its
//! scrutinee into the next local and compares it with the words of the constructors without arguments, and then its block's header with those of the others; the last
//! branch needs no test, and six of a kind or more are told by halves. What a branch binds is read from the block; but a branch's only variable, where it is read twice, comes into the
//! scrutinee's local.
ghost use Rattle.std.specs.Prelude.{◌≡◌, ◌<◌, ◌≤◌, ◌+◌, ◌∷◌, ◌++◌, [], IfOk, IfErr, OnOk, drop, get_or, length, reverse, true};
ghost use Rattle.closure_lift.specs.LiftedView.{seen, branches_of};
ghost use Rattle.closure_lift.specs.LiftedProgram.{lifted_of};
ghost use Rattle.wasm_emit.specs.ConstantNumbers.{AreNumbered};
ghost use Rattle.wasm_emit.specs.Pushed.{Pushed};
ghost use Rattle.wasm_emit.specs.declared.fault.EmitFault.TheVariants.{Memory};
ghost use Rattle.known_calls.specs.KnownMarks.{Begins, block_marks, bound_marks, branch_marks, empty_marks, head_marks, kind_marks};
ghost use Rattle.known_calls.specs.KnownPushed.{OneArm, TestedArms, ToldArms, alone_code, alternative_of, binding_code, block_code, both_kinds_code, branch_code, branches_code, count_of, few_bare_code, kind_of, local_behind, op_code, op_made, op_unmade, place_bound, search_code, under_position};
ghost use Rattle.known_calls.specs.KnownPlaces.{At, InLocal};
ghost use Rattle.known_calls.specs.KnownCode.{Inside};
ghost use Rattle.wasm_core.specs.declared.instrs.Instr.TheVariants.{LocalSet};

use crate::alternatives::{
    MANY_ALTERNATIVES, branches_from, by_halves, count_from, is_last_of, is_of, place_of,
    push_bare_test, push_below_test, push_equal_test,
};
use crate::calls::{call_of, push_application};
use crate::closures::known;
use crate::instructions::{push_atom, push_closure, push_construct, push_moved_field};
use crate::marks::{take_field_mark, take_mark};
use crate::places::{Place, push_branch_places};
use crate::site::{Arm, Kind, Part, Position, Site, under};
use crate::words::Word;
use closure_lift::program::{Lifted, LiftedBlock, LiftedBranch, LiftedBranches, LiftedOp};
use std::collections::HashMap;
use wasm_core::Instr;
use wasm_emit::EmitFault;
use wasm_emit::functions::index_of_constant;
use wasm_emit::instructions::{push, push_ends};

/// By at most so many halvings: these leave fewer than six of 65,536 constructors.
const MOST_ROUNDS: u32 = 16;

/// Puts the value of a block on the operands; the places are those of the variables, the innermost last, and the first marks are those of the block. Only `Memory`.
#[cycle(blocks)]
pub(crate) fn push_block(
    p: &Lifted,
    numbers: &HashMap<u32, usize>,
    places: &mut Vec<Place>,
    site: Site,
    b: &LiftedBlock,
    marks: &mut Vec<bool>,
    out: &mut Vec<Instr>,
) -> Result<(), EmitFault>
    requires numbered { AreNumbered numbers.now p.now.constants }
    requires marked { Begins (block_marks b.now) (reverse marks.old.items) }
    ensures pushed { OnOk result (Pushed out.old.items out.new.items (block_code p.now (reverse places.old.items) site.local site.at b.now)) }
    ensures left { OnOk result (reverse marks.new.items ≡ drop (length (block_marks b.now)) (reverse marks.old.items)) }
    ensures same { OnOk result (places.new.items ≡ places.old.items) }
    ensures only_memory { IfErr result (λ e. e ≡ Memory) }
{
    let outer = places.len();
    let mut local = site.local;
    for op in b.bindings.as_slice() {
        local = push_binding(p, numbers, places, local, op, marks, out)?;
    }
    let last = Site { local, at: site.at };
    push_op(p, numbers, places, last, &b.tail, marks, out)?;
    places.truncate(outer);
    Ok(())
}

/// Binds the value of an operation, which has the first mark and the next ones, and gives the first local that is free behind it. Only `Memory`.
#[cycle(blocks)]
fn push_binding(
    p: &Lifted,
    numbers: &HashMap<u32, usize>,
    places: &mut Vec<Place>,
    local: u32,
    op: &LiftedOp,
    marks: &mut Vec<bool>,
    out: &mut Vec<Instr>,
) -> Result<u32, EmitFault>
    requires numbered { AreNumbered numbers.now p.now.constants }
    requires marked { Begins (bound_marks (seen op.now)) (drop 1 (reverse marks.old.items)) }
    ensures pushed { OnOk result (Pushed out.old.items out.new.items (binding_code p.now (reverse places.old.items) local (get_or (reverse marks.old.items) 0 true) (seen op.now))) }
    ensures left { OnOk result (reverse marks.new.items ≡ drop (length (bound_marks (seen op.now))) (drop 1 (reverse marks.old.items))) }
    ensures place { OnOk result (places.new.items ≡ places.old.items ++ place_bound local (op_unmade p.now (reverse places.old.items) (get_or (reverse marks.old.items) 0 true) (seen op.now)) ∷ []) }
    ensures next { IfOk result (λ n. n ≡ local_behind local (op_unmade p.now (reverse places.old.items) (get_or (reverse marks.old.items) 0 true) (seen op.now))) }
    ensures only_memory { IfErr result (λ e. e ≡ Memory) }
{
    if take_mark(marks) {
        return push_made(p, numbers, places, local, op, marks, out);
    }
    match known(p, numbers, places, op)? {
        Some(place) => {
            places.push(place)?;
            Ok(local)
        }
        None => push_made(p, numbers, places, local, op, marks, out),
    }
}

/// Puts the value of an operation into the first free local, and gives the next one. Only `Memory`.
#[cycle(blocks)]
fn push_made(
    p: &Lifted,
    numbers: &HashMap<u32, usize>,
    places: &mut Vec<Place>,
    local: u32,
    op: &LiftedOp,
    marks: &mut Vec<bool>,
    out: &mut Vec<Instr>,
) -> Result<u32, EmitFault>
    requires numbered { AreNumbered numbers.now p.now.constants }
    requires marked { Begins (bound_marks (seen op.now)) (reverse marks.old.items) }
    ensures pushed { OnOk result (Pushed out.old.items out.new.items (op_made p.now (reverse places.old.items) local (seen op.now))) }
    ensures left { OnOk result (reverse marks.new.items ≡ drop (length (bound_marks (seen op.now))) (reverse marks.old.items)) }
    ensures place { OnOk result (places.new.items ≡ places.old.items ++ At (InLocal local) ∷ []) }
    ensures next { IfOk result (λ n. n ≡ local + 1) }
    ensures only_memory { IfErr result (λ e. e ≡ Memory) }
{
    push_into_local(p, numbers, places, local, op, marks, out)?;
    places.push(Place::At(Word::Local(local)))?;
    match local.checked_add(1) {
        Some(next) => Ok(next),
        None => Err(EmitFault::Memory),
    }
}

/// Puts the value of an operation into the first free local, in which a new block has its address anyway. Only `Memory`.
#[cycle(blocks)]
fn push_into_local(
    p: &Lifted,
    numbers: &HashMap<u32, usize>,
    places: &mut Vec<Place>,
    local: u32,
    op: &LiftedOp,
    marks: &mut Vec<bool>,
    out: &mut Vec<Instr>,
) -> Result<(), EmitFault>
    requires numbered { AreNumbered numbers.now p.now.constants }
    requires marked { Begins (bound_marks (seen op.now)) (reverse marks.old.items) }
    ensures pushed { OnOk result (Pushed out.old.items out.new.items (op_made p.now (reverse places.old.items) local (seen op.now))) }
    ensures left { OnOk result (reverse marks.new.items ≡ drop (length (bound_marks (seen op.now))) (reverse marks.old.items)) }
    ensures same { OnOk result (places.new.items ≡ places.old.items) }
    ensures only_memory { IfErr result (λ e. e ≡ Memory) }
{
    match op {
        LiftedOp::Construct(c, args) => push_construct(places.as_slice(), local, *c, args, out),
        LiftedOp::Closure(g, words) => push_closure(places.as_slice(), local, *g, words, out),
        LiftedOp::Atom(_) | LiftedOp::Const(_) | LiftedOp::App(_, _) | LiftedOp::Case(_, _) => {
            push_then_set(p, numbers, places, local, op, marks, out)
        }
    }
}

/// Puts the value of an operation on the operands, and from there into the first free local. Only `Memory`.
#[cycle(blocks)]
fn push_then_set(
    p: &Lifted,
    numbers: &HashMap<u32, usize>,
    places: &mut Vec<Place>,
    local: u32,
    op: &LiftedOp,
    marks: &mut Vec<bool>,
    out: &mut Vec<Instr>,
) -> Result<(), EmitFault>
    requires numbered { AreNumbered numbers.now p.now.constants }
    requires marked { Begins (bound_marks (seen op.now)) (reverse marks.old.items) }
    ensures pushed { OnOk result (Pushed out.old.items out.new.items (λ rest. op_code p.now (reverse places.old.items) local Inside (seen op.now) (LocalSet local ∷ rest))) }
    ensures left { OnOk result (reverse marks.new.items ≡ drop (length (bound_marks (seen op.now))) (reverse marks.old.items)) }
    ensures same { OnOk result (places.new.items ≡ places.old.items) }
    ensures only_memory { IfErr result (λ e. e ≡ Memory) }
{
    let site = Site {
        local,
        at: Position::Inside,
    };
    push_op(p, numbers, places, site, op, marks, out)?;
    push(out, Instr::LocalSet(local))
}

/// Puts the value of an operation on the operands. Only `Memory`.
#[cycle(blocks)]
fn push_op(
    p: &Lifted,
    numbers: &HashMap<u32, usize>,
    places: &mut Vec<Place>,
    site: Site,
    op: &LiftedOp,
    marks: &mut Vec<bool>,
    out: &mut Vec<Instr>,
) -> Result<(), EmitFault>
    requires numbered { AreNumbered numbers.now p.now.constants }
    requires marked { Begins (bound_marks (seen op.now)) (reverse marks.old.items) }
    ensures pushed { OnOk result (Pushed out.old.items out.new.items (op_code p.now (reverse places.old.items) site.local site.at (seen op.now))) }
    ensures left { OnOk result (reverse marks.new.items ≡ drop (length (bound_marks (seen op.now))) (reverse marks.old.items)) }
    ensures same { OnOk result (places.new.items ≡ places.old.items) }
    ensures only_memory { IfErr result (λ e. e ≡ Memory) }
{
    match op {
        LiftedOp::Atom(a) => push_atom(places.as_slice(), *a, out),
        LiftedOp::Const(name) => {
            let index = index_of_constant(p, numbers, *name)?;
            push(out, call_of(site.at, index))
        }
        LiftedOp::App(f, a) => push_application(p, places.as_slice(), site.at, *f, *a, out),
        LiftedOp::Construct(c, args) => {
            push_construct(places.as_slice(), site.local, *c, args, out)?;
            push(out, Instr::LocalGet(site.local))
        }
        LiftedOp::Closure(g, words) => {
            push_closure(places.as_slice(), site.local, *g, words, out)?;
            push(out, Instr::LocalGet(site.local))
        }
        LiftedOp::Case(a, bs) => {
            push_atom(places.as_slice(), *a, out)?;
            push(out, Instr::LocalSet(site.local))?;
            push_branches(p, numbers, places, site, bs, marks, out)
        }
    }
}

/// The branches of a match on the word in the site's local. Only `Memory`.
#[cycle(blocks)]
fn push_branches(
    p: &Lifted,
    numbers: &HashMap<u32, usize>,
    places: &mut Vec<Place>,
    site: Site,
    bs: &LiftedBranches,
    marks: &mut Vec<bool>,
    out: &mut Vec<Instr>,
) -> Result<(), EmitFault>
    requires numbered { AreNumbered numbers.now p.now.constants }
    requires marked { Begins (empty_marks bs.now ++ head_marks bs.now) (reverse marks.old.items) }
    ensures pushed { OnOk result (Pushed out.old.items out.new.items (branches_code p.now (reverse places.old.items) site.local site.at bs.now)) }
    ensures left { OnOk result (reverse marks.new.items ≡ drop (length (empty_marks bs.now ++ head_marks bs.now)) (reverse marks.old.items)) }
    ensures same { OnOk result (places.new.items ≡ places.old.items) }
    ensures only_memory { IfErr result (λ e. e ≡ Memory) }
{
    let items = bs.as_slice();
    if count_from(Kind::Fielded, items, 0) == 0 {
        let all = Part {
            kind: Kind::Bare,
            first: 0,
            rounds: MOST_ROUNDS,
            site,
        };
        return push_search(p, numbers, places, all, items, marks, out);
    }
    if count_from(Kind::Bare, items, 0) < MANY_ALTERNATIVES {
        return push_few_bare(p, numbers, places, site, items, marks, out);
    }
    push_both_kinds(p, numbers, places, site, items, marks, out)
}

/// The branches of a match of both kinds, of which few are bare: these are told one by one from the others. Only `Memory`.
#[cycle(blocks)]
fn push_few_bare(
    p: &Lifted,
    numbers: &HashMap<u32, usize>,
    places: &mut Vec<Place>,
    site: Site,
    bs: &[LiftedBranch],
    marks: &mut Vec<bool>,
    out: &mut Vec<Instr>,
) -> Result<(), EmitFault>
    requires numbered { AreNumbered numbers.now p.now.constants }
    requires marked { Begins (empty_marks (branches_of bs.now) ++ head_marks (branches_of bs.now)) (reverse marks.old.items) }
    ensures pushed { OnOk result (Pushed out.old.items out.new.items (few_bare_code p.now (reverse places.old.items) site.local site.at (branches_of bs.now))) }
    ensures left { OnOk result (reverse marks.new.items ≡ drop (length (empty_marks (branches_of bs.now) ++ head_marks (branches_of bs.now))) (reverse marks.old.items)) }
    ensures same { OnOk result (places.new.items ≡ places.old.items) }
    ensures only_memory { IfErr result (λ e. e ≡ Memory) }
{
    let bare = Part {
        kind: Kind::Bare,
        first: 0,
        rounds: MOST_ROUNDS,
        site,
    };
    let begun = push_tested(p, numbers, places, bare, bs, marks, out)?;
    let at = under(site.at, begun)?;
    let inner = Site {
        local: site.local,
        at,
    };
    let fielded = Part {
        kind: Kind::Fielded,
        first: 0,
        rounds: MOST_ROUNDS,
        site: inner,
    };
    push_search(p, numbers, places, fielded, bs, marks, out)?;
    push_ends(begun, out)
}

/// The branches of a match of both kinds, of which many are bare: one test tells which kind it is. Only `Memory`.
#[cycle(blocks)]
fn push_both_kinds(
    p: &Lifted,
    numbers: &HashMap<u32, usize>,
    places: &mut Vec<Place>,
    site: Site,
    bs: &[LiftedBranch],
    marks: &mut Vec<bool>,
    out: &mut Vec<Instr>,
) -> Result<(), EmitFault>
    requires numbered { AreNumbered numbers.now p.now.constants }
    requires marked { Begins (empty_marks (branches_of bs.now) ++ head_marks (branches_of bs.now)) (reverse marks.old.items) }
    ensures pushed { OnOk result (Pushed out.old.items out.new.items (both_kinds_code p.now (reverse places.old.items) site.local site.at (branches_of bs.now))) }
    ensures left { OnOk result (reverse marks.new.items ≡ drop (length (empty_marks (branches_of bs.now) ++ head_marks (branches_of bs.now))) (reverse marks.old.items)) }
    ensures same { OnOk result (places.new.items ≡ places.old.items) }
    ensures only_memory { IfErr result (λ e. e ≡ Memory) }
{
    let at = under(site.at, 1)?;
    let inner = Site {
        local: site.local,
        at,
    };
    let bare = Part {
        kind: Kind::Bare,
        first: 0,
        rounds: MOST_ROUNDS,
        site: inner,
    };
    let fielded = Part {
        kind: Kind::Fielded,
        first: 0,
        rounds: MOST_ROUNDS,
        site: inner,
    };
    push_bare_test(site.local, out)?;
    push_search(p, numbers, places, bare, bs, marks, out)?;
    push(out, Instr::Else)?;
    push_search(p, numbers, places, fielded, bs, marks, out)?;
    push(out, Instr::End)
}

/// The branches of one kind of a part of a match's branches: many are told by halves, fewer one after another. Only `Memory`.
#[cycle(blocks)]
fn push_search(
    p: &Lifted,
    numbers: &HashMap<u32, usize>,
    places: &mut Vec<Place>,
    part: Part,
    bs: &[LiftedBranch],
    marks: &mut Vec<bool>,
    out: &mut Vec<Instr>,
) -> Result<(), EmitFault>
    requires numbered { AreNumbered numbers.now p.now.constants }
    requires marked { Begins (kind_marks part.kind (branches_of bs.now)) (reverse marks.old.items) }
    ensures pushed { OnOk result (Pushed out.old.items out.new.items (search_code p.now (reverse places.old.items) part.site.local part.site.at part.kind part.first part.rounds (branches_of bs.now))) }
    ensures left { OnOk result (reverse marks.new.items ≡ drop (length (kind_marks part.kind (branches_of bs.now))) (reverse marks.old.items)) }
    ensures same { OnOk result (places.new.items ≡ places.old.items) }
    ensures only_memory { IfErr result (λ e. e ≡ Memory) }
{
    if by_halves(part, bs) {
        return push_halves(p, numbers, places, part, bs, marks, out);
    }
    push_alone(p, numbers, places, part, bs, marks, out)
}

/// The two halves of the branches of one kind of a part, of which there are many, behind a test of the constructor's number. Only `Memory`.
#[cycle(blocks)]
fn push_halves(
    p: &Lifted,
    numbers: &HashMap<u32, usize>,
    places: &mut Vec<Place>,
    part: Part,
    bs: &[LiftedBranch],
    marks: &mut Vec<bool>,
    out: &mut Vec<Instr>,
) -> Result<(), EmitFault>
    requires numbered { AreNumbered numbers.now p.now.constants }
    requires more { 0 < part.rounds }
    requires many { 6 ≤ count_of part.kind (branches_of bs.now) }
    requires marked { Begins (kind_marks part.kind (branches_of bs.now)) (reverse marks.old.items) }
    ensures pushed { OnOk result (Pushed out.old.items out.new.items (search_code p.now (reverse places.old.items) part.site.local part.site.at part.kind part.first part.rounds (branches_of bs.now))) }
    ensures left { OnOk result (reverse marks.new.items ≡ drop (length (kind_marks part.kind (branches_of bs.now))) (reverse marks.old.items)) }
    ensures same { OnOk result (places.new.items ≡ places.old.items) }
    ensures only_memory { IfErr result (λ e. e ≡ Memory) }
{
    let half = count_from(part.kind, bs, 0) / 2;
    let place = place_of(part.kind, bs, half);
    let behind = branches_from(bs, place);
    let Some(second) = part.first.checked_add(place) else {
        return Err(EmitFault::Memory);
    };
    let at = under(part.site.at, 1)?;
    let rounds = part.rounds - 1;
    let site = Site {
        local: part.site.local,
        at,
    };
    let front = Part {
        kind: part.kind,
        first: part.first,
        rounds,
        site,
    };
    let back = Part {
        kind: part.kind,
        first: second,
        rounds,
        site,
    };
    push_below_test(part.kind, part.site.local, second, out)?;
    push_search(p, numbers, places, front, &bs[..place], marks, out)?;
    push(out, Instr::Else)?;
    push_search(p, numbers, places, back, behind, marks, out)?;
    push(out, Instr::End)
}

/// The branches of one kind of a part, one after another. Only `Memory`.
#[cycle(blocks)]
fn push_alone(
    p: &Lifted,
    numbers: &HashMap<u32, usize>,
    places: &mut Vec<Place>,
    part: Part,
    bs: &[LiftedBranch],
    marks: &mut Vec<bool>,
    out: &mut Vec<Instr>,
) -> Result<(), EmitFault>
    requires numbered { AreNumbered numbers.now p.now.constants }
    requires marked { Begins (kind_marks part.kind (branches_of bs.now)) (reverse marks.old.items) }
    ensures pushed { OnOk result (Pushed out.old.items out.new.items (alone_code p.now (reverse places.old.items) part.site.local part.site.at part.kind part.first (branches_of bs.now))) }
    ensures left { OnOk result (reverse marks.new.items ≡ drop (length (kind_marks part.kind (branches_of bs.now))) (reverse marks.old.items)) }
    ensures same { OnOk result (places.new.items ≡ places.old.items) }
    ensures only_memory { IfErr result (λ e. e ≡ Memory) }
{
    let begun = push_told(p, numbers, places, part, bs, marks, out)?;
    push_ends(begun, out)
}

/// The branches of one kind of a part, each in an arm of its own, up to the `else` of the last. It gives how many arms it has begun. Only `Memory`.
#[cycle(blocks)]
fn push_tested(
    p: &Lifted,
    numbers: &HashMap<u32, usize>,
    places: &mut Vec<Place>,
    part: Part,
    bs: &[LiftedBranch],
    marks: &mut Vec<bool>,
    out: &mut Vec<Instr>,
) -> Result<usize, EmitFault>
    requires numbered { AreNumbered numbers.now p.now.constants }
    requires marked { Begins (kind_marks part.kind (branches_of bs.now)) (reverse marks.old.items) }
    ensures pushed { IfOk result (λ n. TestedArms part.site.local part.site.at (kind_of p.now (reverse places.old.items) part.site.local part.kind part.first (branches_of bs.now)) out.old.items out.new.items n) }
    ensures left { OnOk result (reverse marks.new.items ≡ drop (length (kind_marks part.kind (branches_of bs.now))) (reverse marks.old.items)) }
    ensures same { OnOk result (places.new.items ≡ places.old.items) }
    ensures only_memory { IfErr result (λ e. e ≡ Memory) }
{
    let mut begun = 0;
    for c in 0..bs.len() {
        let arm = arm_of(part, begun, c)?;
        let arms = push_arm(p, numbers, places, arm, &bs[c], marks, out)?;
        begun += arms;
    }
    Ok(begun)
}

/// The branches of one kind of a part, each in an arm of its own, but for the last, which needs no test. It gives how many arms it has begun. Only `Memory`.
#[cycle(blocks)]
fn push_told(
    p: &Lifted,
    numbers: &HashMap<u32, usize>,
    places: &mut Vec<Place>,
    part: Part,
    bs: &[LiftedBranch],
    marks: &mut Vec<bool>,
    out: &mut Vec<Instr>,
) -> Result<usize, EmitFault>
    requires numbered { AreNumbered numbers.now p.now.constants }
    requires marked { Begins (kind_marks part.kind (branches_of bs.now)) (reverse marks.old.items) }
    ensures pushed { IfOk result (λ n. ToldArms part.site.local part.site.at (kind_of p.now (reverse places.old.items) part.site.local part.kind part.first (branches_of bs.now)) out.old.items out.new.items n) }
    ensures left { OnOk result (reverse marks.new.items ≡ drop (length (kind_marks part.kind (branches_of bs.now))) (reverse marks.old.items)) }
    ensures same { OnOk result (places.new.items ≡ places.old.items) }
    ensures only_memory { IfErr result (λ e. e ≡ Memory) }
{
    let mut begun = 0;
    for c in 0..bs.len() {
        let arm = arm_of(part, begun, c)?;
        let b = &bs[c];
        if is_last_of(part.kind, b, bs, c + 1) {
            push_fielded(p, numbers, places, arm.site, b, marks, out)?;
            return Ok(begun);
        }
        let arms = push_arm(p, numbers, places, arm, b, marks, out)?;
        begun += arms;
    }
    push(out, Instr::Unreachable)?;
    Ok(begun)
}

/// Branch c of a part that stands there, behind so many arms that have begun. Only `Memory`.
fn arm_of(part: Part, begun: usize, c: usize) -> Result<Arm, EmitFault>
    ensures is { IfOk result (λ a. a ≡ record { kind = part.kind; number = part.first + c; site = record { local = part.site.local; at = under_position begun part.site.at } }) }
    ensures only_memory { IfErr result (λ e. e ≡ Memory) }
{
    let Some(number) = part.first.checked_add(c) else {
        return Err(EmitFault::Memory);
    };
    let at = under(part.site.at, begun)?;
    Ok(Arm {
        kind: part.kind,
        number,
        site: Site {
            local: part.site.local,
            at,
        },
    })
}

/// The arm of a branch, up to its `else`. It gives how many arms it has begun: 1, or 0 where the branch is of the other kind. Only `Memory`.
#[cycle(blocks)]
fn push_arm(
    p: &Lifted,
    numbers: &HashMap<u32, usize>,
    places: &mut Vec<Place>,
    arm: Arm,
    b: &LiftedBranch,
    marks: &mut Vec<bool>,
    out: &mut Vec<Instr>,
) -> Result<usize, EmitFault>
    requires numbered { AreNumbered numbers.now p.now.constants }
    requires marked { Begins (kind_marks arm.kind (branches_of (b.now ∷ []))) (reverse marks.old.items) }
    ensures pushed { IfOk result (λ n. OneArm arm.site.local arm.site.at arm.kind (alternative_of p.now (reverse places.old.items) arm.site.local arm.number b.now) out.old.items out.new.items n) }
    ensures left { OnOk result (reverse marks.new.items ≡ drop (length (kind_marks arm.kind (branches_of (b.now ∷ [])))) (reverse marks.old.items)) }
    ensures same { OnOk result (places.new.items ≡ places.old.items) }
    ensures only_memory { IfErr result (λ e. e ≡ Memory) }
{
    if !is_of(arm.kind, b) {
        return Ok(0);
    }
    let at = under(arm.site.at, 1)?;
    let inner = Site {
        local: arm.site.local,
        at,
    };
    push_equal_test(arm.site.local, arm.number, b.binders, out)?;
    push_fielded(p, numbers, places, inner, b, marks, out)?;
    push(out, Instr::Else)?;
    Ok(1)
}

/// The body of a branch of a match on the word in the site's local; the local behind that is the first free one. Where the branch has one
/// variable, which is read twice, its field first comes into the site's local, in which the block's address was; otherwise its variables are
/// the fields of that block. Only `Memory`.
#[cycle(blocks)]
fn push_fielded(
    p: &Lifted,
    numbers: &HashMap<u32, usize>,
    places: &mut Vec<Place>,
    site: Site,
    b: &LiftedBranch,
    marks: &mut Vec<bool>,
    out: &mut Vec<Instr>,
) -> Result<(), EmitFault>
    requires numbered { AreNumbered numbers.now p.now.constants }
    requires marked { Begins (branch_marks b.now.binders b.now.body) (reverse marks.old.items) }
    ensures pushed { OnOk result (Pushed out.old.items out.new.items (branch_code p.now (reverse places.old.items) site.local site.at b.now)) }
    ensures left { OnOk result (reverse marks.new.items ≡ drop (length (branch_marks b.now.binders b.now.body)) (reverse marks.old.items)) }
    ensures same { OnOk result (places.new.items ≡ places.old.items) }
    ensures only_memory { IfErr result (λ e. e ≡ Memory) }
{
    let Some(local) = site.local.checked_add(1) else {
        return Err(EmitFault::Memory);
    };
    let inner = Site { local, at: site.at };
    let outer = places.len();
    let moved = take_field_mark(marks, b);
    push_moved_field(moved, site.local, out)?;
    push_branch_places(places, moved, site.local, b.binders)?;
    push_block(p, numbers, places, inner, &b.body, marks, out)?;
    places.truncate(outer);
    Ok(())
}
