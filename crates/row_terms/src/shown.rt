//! Terms as text: as a dump has them, with `_` for each binder.
use crate::sorts::{put_family, put_name, put_sort};
use dump_reader::environment::RawEnv;
use pc_terms::leaf::{FamilyId, Name};
use pc_terms::term::{Branch, Branches, Def, Defs, Match, Node, Term, Terms};
use std::alloc::AllocError;
use universe_levels::sort::Sort;

/// What is still to be put of a term.
#[derive(Clone, Copy)]
enum Piece<'a> {
    Term(&'a Term),
    /// A blank and a term.
    Next(&'a Term),
    /// The function of a run of applications, with its arguments.
    Run(&'a Term),
    /// The predicate of a match.
    Predicate(&'a Match),
    Branch(&'a Branch),
    /// A definition of a fixpoint.
    Definition(&'a Def),
    /// A blank.
    Blank,
    /// A blank, a number and a bracket that closes.
    Number(u32),
    /// A bracket that closes.
    Close,
}

/// A term: what is still to be put stands on a stack, so that the deepest term is put without calls in one another.
pub fn put_term(out: &mut String, env: &RawEnv, term: &Term) -> Result<(), AllocError> {
    let alloc = *out.allocator();
    let mut stack = Vec::new(alloc);
    stack.push(Piece::Term(term))?;
    for _ in 0..u64::MAX {
        let Some(piece) = stack.pop() else {
            return Ok(());
        };
        put_piece(out, env, &mut stack, piece)?;
    }
    Ok(())
}

/// The front of a piece, with what stands behind that on the stack.
fn put_piece<'a>(
    out: &mut String,
    env: &RawEnv,
    stack: &mut Vec<Piece<'a>>,
    piece: Piece<'a>,
) -> Result<(), AllocError> {
    match piece {
        Piece::Term(term) => put_node(out, env, stack, term.view()),
        Piece::Next(term) => {
            stack.push(Piece::Term(term))?;
            out.push_str(" ")
        }
        Piece::Run(term) => open_run(stack, term),
        Piece::Predicate(whole) => open_predicate(out, stack, whole),
        Piece::Branch(branch) => open_branch(out, stack, branch),
        Piece::Definition(def) => open_definition(out, stack, def),
        Piece::Blank => out.push_str(" "),
        Piece::Number(number) => write!(out, " {number})"),
        Piece::Close => out.push_str(")"),
    }
}

/// The front of a node, with what stands behind that on the stack.
fn put_node<'a>(
    out: &mut String,
    env: &RawEnv,
    stack: &mut Vec<Piece<'a>>,
    node: &'a Node,
) -> Result<(), AllocError> {
    match node {
        Node::Rel(index) => write!(out, "(tRel {index})"),
        Node::Sort(sort) => put_sort_node(out, env, sort),
        Node::Const(name) => put_const(out, env, *name),
        Node::Ind(id) => put_ind(out, env, *id),
        Node::Construct(id, constructor) => put_construct(out, env, *id, *constructor),
        Node::Prod(domain, codomain) => open_two(out, stack, "(tProd _ ", domain, codomain),
        Node::Lambda(domain, body) => open_two(out, stack, "(tLambda _ ", domain, body),
        Node::LetIn(value, ty, body) => open_let(out, stack, value, ty, body),
        Node::App(function, argument) => open_app(out, stack, function, argument),
        Node::Case(whole) => open_match(out, env, stack, whole.get()),
        Node::Fix(defs, index) => open_fix(out, stack, defs, *index),
    }
}

fn put_sort_node(out: &mut String, env: &RawEnv, sort: &Sort) -> Result<(), AllocError> {
    out.push_str("(tSort ")?;
    put_sort(out, env, sort)?;
    out.push_str(")")
}

fn put_const(out: &mut String, env: &RawEnv, name: Name) -> Result<(), AllocError> {
    out.push_str("(tConst ")?;
    put_name(out, env, name)?;
    out.push_str(")")
}

fn put_ind(out: &mut String, env: &RawEnv, id: FamilyId) -> Result<(), AllocError> {
    out.push_str("(tInd ")?;
    put_family(out, env, id)?;
    out.push_str(")")
}

fn put_construct(
    out: &mut String,
    env: &RawEnv,
    id: FamilyId,
    constructor: u32,
) -> Result<(), AllocError> {
    out.push_str("(tConstruct ")?;
    put_family(out, env, id)?;
    write!(out, " {constructor})")
}

/// A node of two terms.
fn open_two<'a>(
    out: &mut String,
    stack: &mut Vec<Piece<'a>>,
    front: &str,
    first: &'a Term,
    second: &'a Term,
) -> Result<(), AllocError> {
    stack.push(Piece::Close)?;
    stack.push(Piece::Next(second))?;
    stack.push(Piece::Term(first))?;
    out.push_str(front)
}

fn open_let<'a>(
    out: &mut String,
    stack: &mut Vec<Piece<'a>>,
    value: &'a Term,
    ty: &'a Term,
    body: &'a Term,
) -> Result<(), AllocError> {
    stack.push(Piece::Close)?;
    stack.push(Piece::Next(body))?;
    stack.push(Piece::Next(ty))?;
    stack.push(Piece::Term(value))?;
    out.push_str("(tLetIn _ ")
}

fn open_app<'a>(
    out: &mut String,
    stack: &mut Vec<Piece<'a>>,
    function: &'a Term,
    argument: &'a Term,
) -> Result<(), AllocError> {
    stack.push(Piece::Close)?;
    stack.push(Piece::Next(argument))?;
    stack.push(Piece::Run(function))?;
    out.push_str("(tApp ")
}

/// The function of a run of applications, with its arguments.
fn open_run<'a>(stack: &mut Vec<Piece<'a>>, term: &'a Term) -> Result<(), AllocError> {
    match term.view() {
        Node::App(function, argument) => {
            stack.push(Piece::Next(argument))?;
            Ok(stack.push(Piece::Run(function))?)
        }
        _ => Ok(stack.push(Piece::Term(term))?),
    }
}

/// So many names of binders in brackets.
fn put_binders(out: &mut String, count: u32) -> Result<(), AllocError> {
    out.push_str("(")?;
    for i in 0..count {
        out.push_str(if i == 0 { "_" } else { " _" })?;
    }
    out.push_str(")")
}

/// Puts terms on the stack, the first on top, with a blank before each.
fn open_each<'a>(stack: &mut Vec<Piece<'a>>, terms: &'a Terms) -> Result<(), AllocError> {
    for term in terms.as_slice().iter().rev() {
        stack.push(Piece::Next(term))?;
    }
    Ok(())
}

/// Puts branches on the stack, the first on top.
fn open_branches<'a>(stack: &mut Vec<Piece<'a>>, branches: &'a Branches) -> Result<(), AllocError> {
    for branch in branches.as_slice().iter().rev() {
        stack.push(Piece::Branch(branch))?;
    }
    Ok(())
}

fn open_match<'a>(
    out: &mut String,
    env: &RawEnv,
    stack: &mut Vec<Piece<'a>>,
    whole: &'a Match,
) -> Result<(), AllocError> {
    stack.push(Piece::Close)?;
    open_branches(stack, &whole.branches)?;
    stack.push(Piece::Next(&whole.scrut))?;
    stack.push(Piece::Predicate(whole))?;
    open_each(stack, &whole.params)?;
    out.push_str("(tCase (")?;
    put_family(out, env, whole.family)?;
    out.push_str(") (params")
}

fn open_predicate<'a>(
    out: &mut String,
    stack: &mut Vec<Piece<'a>>,
    whole: &'a Match,
) -> Result<(), AllocError> {
    stack.push(Piece::Close)?;
    stack.push(Piece::Next(&whole.ret))?;
    out.push_str(") (pred ")?;
    put_binders(out, whole.binders)
}

fn open_branch<'a>(
    out: &mut String,
    stack: &mut Vec<Piece<'a>>,
    branch: &'a Branch,
) -> Result<(), AllocError> {
    stack.push(Piece::Close)?;
    stack.push(Piece::Next(&branch.body))?;
    out.push_str(" (br ")?;
    put_binders(out, branch.binders)
}

/// Puts definitions on the stack, the first on top, with a blank between two of them.
fn open_definitions<'a>(stack: &mut Vec<Piece<'a>>, defs: &'a [Def]) -> Result<(), AllocError> {
    for (place, def) in defs.iter().enumerate().rev() {
        stack.push(Piece::Definition(def))?;
        if place != 0 {
            stack.push(Piece::Blank)?;
        }
    }
    Ok(())
}

fn open_definition<'a>(
    out: &mut String,
    stack: &mut Vec<Piece<'a>>,
    def: &'a Def,
) -> Result<(), AllocError> {
    stack.push(Piece::Number(def.rarg))?;
    stack.push(Piece::Next(&def.body))?;
    stack.push(Piece::Term(&def.ty))?;
    out.push_str("(def _ ")
}

fn open_fix<'a>(
    out: &mut String,
    stack: &mut Vec<Piece<'a>>,
    defs: &'a Defs,
    index: u32,
) -> Result<(), AllocError> {
    stack.push(Piece::Number(index))?;
    stack.push(Piece::Close)?;
    open_definitions(stack, defs.as_slice())?;
    out.push_str("(tFix (")
}
