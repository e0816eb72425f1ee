//! The layers of evaluation and of data: `eval`, and the data that a value is along the first-order set of a type, in an environment that is not checked.
use crate::unchecked::unchecked;
use data_trees::Data;
use first_order::faults::{ShapeRefusal, TextFault};
use first_order::reading::data_of;
use first_order::searching::first_order;
use first_order::shapes::Shapes;
use first_order::texts::tags_of;
use pc_rules::environment::Env;
use pc_rules::meter::Meter;
use pc_rules::stop::Stop;
use pc_terms::term::{MakeFault, Node, Term};
use reduction::substitution::Subst;
use row_files::{Case, Fault, put_bytes};
use row_terms::{Opened, made, put_stop, put_term};
use source_eval::evaluation::{EvalStop, eval};
use std::alloc::{AllocError, Global};

/// As many units as a job gives where it is not told.
const UNITS: u64 = 1_000_000;

/// Runs a row of the layers.
pub fn run(case: &Case, out: &mut String) -> Result<(), Fault> {
    let opened = Opened::of(case)?;
    run_opened(case, &opened, out)
}

/// Runs a row in its environment.
fn run_opened(case: &Case, opened: &Opened, out: &mut String) -> Result<(), Fault> {
    let env = unchecked(case.alloc, opened)?;
    run_in(case, opened, &env, out)
}

/// Makes the call of a row.
fn run_in(case: &Case, opened: &Opened, env: &Env, out: &mut String) -> Result<(), Fault> {
    match case.row.given("call")? {
        "eval" => run_eval(case, opened, env, out),
        "data" => run_data(case, opened, env, opened.term(case, "value")?, out),
        "data doubled" => run_doubled(case, opened, env, out),
        _ => Err(Fault::Faulty("no such call")),
    }
}

/// What an evaluation answers.
fn put_evaluated(
    out: &mut String,
    opened: &Opened,
    evaluated: Result<Term, EvalStop>,
) -> Result<(), AllocError> {
    match evaluated {
        Ok(value) => put_term(out, &opened.raw, &value),
        Err(EvalStop::Stuck { term }) => {
            out.push_str("stuck at ")?;
            put_term(out, &opened.raw, &term)
        }
        Err(EvalStop::Spent) => put_stop(out, Stop::Spent),
        Err(EvalStop::TooDeep) => put_stop(out, Stop::TooDeep),
        Err(EvalStop::Memory) => put_stop(out, Stop::Memory),
    }
}

/// The value of `term`, with `units`, and the units that are left.
fn run_eval(case: &Case, opened: &Opened, env: &Env, out: &mut String) -> Result<(), Fault> {
    let term = opened.term(case, "term")?;
    let mut m = Meter::new(case.row.number("units", UNITS)?);
    put_evaluated(out, opened, eval(case.alloc, env, term, &mut m))?;
    let left = m.left();
    write!(out, "\n  units left {left}")?;
    Ok(())
}

/// Why a type has no first-order set.
fn put_refusal(out: &mut String, opened: &Opened, refusal: ShapeRefusal) -> Result<(), AllocError> {
    match refusal {
        ShapeRefusal::NotFirstOrder { ty } => {
            out.push_str("not first-order: ")?;
            put_term(out, &opened.raw, &ty)
        }
        ShapeRefusal::Types => out.push_str("too many types"),
        ShapeRefusal::Spent => put_stop(out, Stop::Spent),
        ShapeRefusal::TooDeep => put_stop(out, Stop::TooDeep),
        ShapeRefusal::Memory => put_stop(out, Stop::Memory),
    }
}

/// Why there is no data, or no text of it.
fn put_fault(out: &mut String, fault: TextFault) -> Result<(), AllocError> {
    match fault {
        TextFault::NotOfShape { node } => write!(out, "no data at node {node}"),
        TextFault::AnswerNodes => out.push_str("too many nodes"),
        TextFault::Memory => put_stop(out, Stop::Memory),
    }
}

/// How many nodes data has, and its text by the numbers of constructors.
fn put_data(out: &mut String, tree: &Data, text: &[u8]) -> Result<(), AllocError> {
    let nodes = tree.len();
    write!(out, "{nodes} nodes: ")?;
    put_bytes(out, text)
}

/// The text of data.
fn put_tags(alloc: Global, out: &mut String, tree: &Data) -> Result<(), AllocError> {
    match tags_of(alloc, tree) {
        Ok(text) => put_data(out, tree, text.as_slice()),
        Err(fault) => put_fault(out, fault),
    }
}

/// The data that a value is along a first-order set.
fn put_read(
    alloc: Global,
    out: &mut String,
    value: &Term,
    shapes: &Shapes,
) -> Result<(), AllocError> {
    match data_of(alloc, value, shapes) {
        Ok(tree) => put_tags(alloc, out, &tree),
        Err(fault) => put_fault(out, fault),
    }
}

/// The data that a value is along the first-order set of `type`.
fn run_data(
    case: &Case,
    opened: &Opened,
    env: &Env,
    value: &Term,
    out: &mut String,
) -> Result<(), Fault> {
    let ty = opened.term(case, "type")?;
    let mut m = Meter::new(case.row.number("units", UNITS)?);
    match first_order(case.alloc, &Subst, env, ty, &mut m) {
        Ok(shapes) => put_read(case.alloc, out, value, &shapes)?,
        Err(refusal) => put_refusal(out, opened, refusal)?,
    }
    Ok(())
}

/// A term that is applied to a value twice, and to what comes of it twice, so often.
fn doubled(alloc: Global, node: &Term, leaf: &Term, doublings: u64) -> Result<Term, MakeFault> {
    let mut term = leaf.share()?;
    for _ in 0..doublings {
        let function = node.share()?;
        let half = term.share()?;
        let whole = Term::make(alloc, Node::App(function, term))?;
        term = Term::make(alloc, Node::App(whole, half))?;
    }
    Ok(term)
}

/// The data of what comes of applying `term`, a constructor of two arguments, to `value` twice, and so on, `doublings` times.
fn run_doubled(case: &Case, opened: &Opened, env: &Env, out: &mut String) -> Result<(), Fault> {
    let leaf = opened.term(case, "value")?;
    let node = opened.term(case, "term")?;
    let doublings = case.row.number("doublings", 0)?;
    let value = made(doubled(case.alloc, node, leaf, doublings))?;
    run_data(case, opened, env, &value, out)
}
