//! Lifted programs as text.
use crate::anf::put_const;
use crate::items::{
    Place, Role, put_app, put_arm, put_atom, put_case, put_families, put_level, put_levels,
    put_line, put_numbered, put_role,
};
use closure_lift::program::{
    Function, Lifted, LiftedBlock, LiftedBranch, LiftedBranches, LiftedOp,
};
use dump_reader::environment::RawEnv;
use row_terms::put_name;
use std::alloc::AllocError;

/// What is still to be put of a block.
#[derive(Clone, Copy)]
enum Piece<'a> {
    Block(Place, &'a LiftedBlock),
    Op(Place, Role, &'a LiftedOp),
    /// A branch, and its constructor's number.
    Arm(Place, usize, &'a LiftedBranch),
}

/// A block under so many variables: what is still to be put stands on a stack.
fn put_block(
    out: &mut String,
    raw: &RawEnv,
    under: usize,
    block: &LiftedBlock,
) -> Result<(), AllocError> {
    let alloc = *out.allocator();
    let mut stack = Vec::new(alloc);
    let place = Place { indent: 2, under };
    stack.push(Piece::Block(place, block))?;
    for _ in 0..u64::MAX {
        let Some(piece) = stack.pop() else {
            return Ok(());
        };
        put_piece(out, raw, &mut stack, piece)?;
    }
    Ok(())
}

/// The front of a piece, with what stands behind that on the stack.
fn put_piece<'a>(
    out: &mut String,
    raw: &RawEnv,
    stack: &mut Vec<Piece<'a>>,
    piece: Piece<'a>,
) -> Result<(), AllocError> {
    match piece {
        Piece::Block(place, block) => open_block(stack, place, block),
        Piece::Op(place, role, op) => {
            put_role(out, place, role)?;
            put_op(out, raw, stack, place, op)
        }
        Piece::Arm(place, number, arm) => open_arm(out, stack, place, number, arm),
    }
}

/// What a block binds, and its tail.
fn open_block<'a>(
    stack: &mut Vec<Piece<'a>>,
    place: Place,
    block: &'a LiftedBlock,
) -> Result<(), AllocError> {
    let ops = block.bindings.as_slice();
    stack.push(Piece::Op(place.behind(ops.len()), Role::Tail, &block.tail))?;
    for past in 0..ops.len() {
        let at = ops.len() - 1 - past;
        stack.push(Piece::Op(place.behind(at), Role::Binding, &ops[at]))?;
    }
    Ok(())
}

/// The front of an operation.
fn put_op<'a>(
    out: &mut String,
    raw: &RawEnv,
    stack: &mut Vec<Piece<'a>>,
    place: Place,
    op: &'a LiftedOp,
) -> Result<(), AllocError> {
    let under = place.under;
    match op {
        LiftedOp::Atom(atom) => put_atom(out, under, *atom),
        LiftedOp::Const(name) => put_const(out, raw, *name),
        LiftedOp::App(f, a) => put_app(out, under, *f, *a),
        LiftedOp::Construct(number, atoms) => put_numbered(out, under, "Construct", *number, atoms),
        LiftedOp::Closure(number, words) => put_numbered(out, under, "Closure", *number, words),
        LiftedOp::Case(scrutinee, arms) => {
            put_case(out, under, *scrutinee)?;
            open_arms(stack, place, arms)
        }
    }
}

/// The branches of a match.
fn open_arms<'a>(
    stack: &mut Vec<Piece<'a>>,
    place: Place,
    arms: &'a LiftedBranches,
) -> Result<(), AllocError> {
    let items = arms.as_slice();
    for past in 0..items.len() {
        let at = items.len() - 1 - past;
        stack.push(Piece::Arm(place.inside(0), at, &items[at]))?;
    }
    Ok(())
}

/// The line of a branch, and then its body.
fn open_arm<'a>(
    out: &mut String,
    stack: &mut Vec<Piece<'a>>,
    place: Place,
    number: usize,
    arm: &'a LiftedBranch,
) -> Result<(), AllocError> {
    let binders = arm.binders as usize;
    put_arm(out, place, number, binders)?;
    stack.push(Piece::Block(place.inside(binders), &arm.body))?;
    Ok(())
}

/// A function: its number, its captured words, its argument, and its body.
fn put_function(
    out: &mut String,
    raw: &RawEnv,
    number: usize,
    function: &Function,
) -> Result<(), AllocError> {
    let captured = function.captured as usize;
    write!(out, "\n  function {number} (captured")?;
    put_levels(out, 0, captured)?;
    out.push_str(") ")?;
    put_level(out, captured)?;
    put_block(out, raw, captured.saturating_add(1), &function.body)
}

/// A program: its functions, its constants, the counts of its families, and main.
pub fn put_lifted(out: &mut String, raw: &RawEnv, program: &Lifted) -> Result<(), AllocError> {
    out.push_str("program")?;
    let functions = program.functions.as_slice();
    for number in 0..functions.len() {
        put_function(out, raw, number, &functions[number])?;
    }
    for constant in program.constants.as_slice() {
        put_line(out, 1)?;
        out.push_str("constant ")?;
        put_name(out, raw, constant.name)?;
        put_block(out, raw, 0, &constant.body)?;
    }
    put_families(out, raw, &program.families)?;
    out.push_str("\n  main")?;
    put_block(out, raw, 0, &program.main)
}

/// How large a program is: its constants, its functions, and the captured words of the function that has most.
pub fn put_sizes(out: &mut String, program: &Lifted) -> Result<(), AllocError> {
    let constants = program.constants.len();
    let functions = program.functions.as_slice();
    let mut most = 0;
    for function in functions {
        if function.captured > most {
            most = function.captured;
        }
    }
    let count = functions.len();
    write!(
        out,
        "constants {constants}, functions {count}, captured words at most {most}"
    )
}
