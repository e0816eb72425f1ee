//! Programs in A-normal form as text.
use crate::items::{
    Place, Role, put_app, put_arm, put_atom, put_case, put_families, put_level, put_line,
    put_numbered, put_role,
};
use anf_convert::program::{AnfBlock, AnfBranch, AnfBranches, AnfDef, AnfDefs, AnfProgram, Op};
use dump_reader::environment::RawEnv;
use pc_terms::leaf::Name;
use row_terms::put_name;
use std::alloc::AllocError;

/// What is still to be put of a block.
#[derive(Clone, Copy)]
enum Piece<'a> {
    Block(Place, &'a AnfBlock),
    Op(Place, Role, &'a Op),
    /// A branch, and its constructor's number.
    Arm(Place, usize, &'a AnfBranch),
    /// A definition of a fixpoint that has so many, with its number, which stands outside all of them.
    Def(Place, usize, usize, &'a AnfDef),
}

/// A block: what is still to be put stands on a stack, so that the deepest block is put without calls in one another.
fn put_block(out: &mut String, raw: &RawEnv, block: &AnfBlock) -> Result<(), AllocError> {
    let alloc = *out.allocator();
    let mut stack = Vec::new(alloc);
    let place = Place {
        indent: 2,
        under: 0,
    };
    stack.push(Piece::Block(place, block))?;
    for _ in 0..u64::MAX {
        let Some(piece) = stack.pop() else {
            return Ok(());
        };
        put_piece(out, raw, &mut stack, piece)?;
    }
    Ok(())
}

/// The front of a piece, with what stands behind that on the stack.
fn put_piece<'a>(
    out: &mut String,
    raw: &RawEnv,
    stack: &mut Vec<Piece<'a>>,
    piece: Piece<'a>,
) -> Result<(), AllocError> {
    match piece {
        Piece::Block(place, block) => open_block(stack, place, block),
        Piece::Op(place, role, op) => {
            put_role(out, place, role)?;
            put_op(out, raw, stack, place, op)
        }
        Piece::Arm(place, number, arm) => open_arm(out, stack, place, number, arm),
        Piece::Def(place, count, number, def) => open_def(out, stack, place, count, number, def),
    }
}

/// What a block binds, and its tail.
fn open_block<'a>(
    stack: &mut Vec<Piece<'a>>,
    place: Place,
    block: &'a AnfBlock,
) -> Result<(), AllocError> {
    let ops = block.bindings.as_slice();
    stack.push(Piece::Op(place.behind(ops.len()), Role::Tail, &block.tail))?;
    for past in 0..ops.len() {
        let at = ops.len() - 1 - past;
        stack.push(Piece::Op(place.behind(at), Role::Binding, &ops[at]))?;
    }
    Ok(())
}

/// The front of an operation.
fn put_op<'a>(
    out: &mut String,
    raw: &RawEnv,
    stack: &mut Vec<Piece<'a>>,
    place: Place,
    op: &'a Op,
) -> Result<(), AllocError> {
    let under = place.under;
    match op {
        Op::Atom(atom) => put_atom(out, under, *atom),
        Op::Const(name) => put_const(out, raw, *name),
        Op::App(f, a) => put_app(out, under, *f, *a),
        Op::Construct(number, atoms) => put_numbered(out, under, "Construct", *number, atoms),
        Op::Lambda(body) => open_lambda(out, stack, place, body),
        Op::Fix(defs, number) => open_fix(out, stack, place, defs, *number),
        Op::Case(scrutinee, arms) => {
            put_case(out, under, *scrutinee)?;
            open_arms(stack, place, arms)
        }
    }
}

/// A constant.
pub fn put_const(out: &mut String, raw: &RawEnv, name: Name) -> Result<(), AllocError> {
    out.push_str("Const ")?;
    put_name(out, raw, name)
}

/// A lambda with its variable, and then its body.
fn open_lambda<'a>(
    out: &mut String,
    stack: &mut Vec<Piece<'a>>,
    place: Place,
    body: &'a AnfBlock,
) -> Result<(), AllocError> {
    out.push_str("Lambda ")?;
    put_level(out, place.under)?;
    stack.push(Piece::Block(place.inside(1), body))?;
    Ok(())
}

/// A fixpoint: which definition it is, and then all of them.
fn open_fix<'a>(
    out: &mut String,
    stack: &mut Vec<Piece<'a>>,
    place: Place,
    defs: &'a AnfDefs,
    number: u32,
) -> Result<(), AllocError> {
    out.push_str("Fix ")?;
    put_level(out, place.under.saturating_add(number as usize))?;
    let items = defs.as_slice();
    for past in 0..items.len() {
        let at = items.len() - 1 - past;
        stack.push(Piece::Def(place.inside(0), items.len(), at, &items[at]))?;
    }
    Ok(())
}

/// The line of a definition, and then its body.
fn open_def<'a>(
    out: &mut String,
    stack: &mut Vec<Piece<'a>>,
    place: Place,
    count: usize,
    number: usize,
    def: &'a AnfDef,
) -> Result<(), AllocError> {
    put_role(out, place.behind(number), Role::Binding)?;
    match def {
        AnfDef::Lambda(body) => open_lambda(out, stack, place.behind(count), body),
        AnfDef::Box => out.push_str("Box"),
    }
}

/// The branches of a match.
fn open_arms<'a>(
    stack: &mut Vec<Piece<'a>>,
    place: Place,
    arms: &'a AnfBranches,
) -> Result<(), AllocError> {
    let items = arms.as_slice();
    for past in 0..items.len() {
        let at = items.len() - 1 - past;
        stack.push(Piece::Arm(place.inside(0), at, &items[at]))?;
    }
    Ok(())
}

/// The line of a branch, and then its body.
fn open_arm<'a>(
    out: &mut String,
    stack: &mut Vec<Piece<'a>>,
    place: Place,
    number: usize,
    arm: &'a AnfBranch,
) -> Result<(), AllocError> {
    let binders = arm.binders as usize;
    put_arm(out, place, number, binders)?;
    stack.push(Piece::Block(place.inside(binders), &arm.body))?;
    Ok(())
}

/// A program: its constants, the counts of its families, and main.
pub fn put_anf(out: &mut String, raw: &RawEnv, program: &AnfProgram) -> Result<(), AllocError> {
    out.push_str("program")?;
    for constant in program.constants.as_slice() {
        put_line(out, 1)?;
        out.push_str("constant ")?;
        put_name(out, raw, constant.name)?;
        put_block(out, raw, &constant.body)?;
    }
    put_families(out, raw, &program.families)?;
    out.push_str("\n  main")?;
    put_block(out, raw, &program.main)
}
