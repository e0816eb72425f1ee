//! The data that a run answers.
ghost use Rattle.std.specs.Prelude.{◌≤◌, length};

use data_trees::Data;
use mem_value::{AnswerFault, answer_tree};
use std::alloc::{AllocError, Global};
use wasm_run::Machine;

/// How many of a longer answer's first nodes are printed.
const FIRST: u32 = 24;

/// How many of a longer answer's last nodes are printed.
const LAST: u32 = 4;

/// Prints the nodes of data from one place up to another, each as its constructor's number and its number of arguments.
fn put_nodes(out: &mut String, data: &Data, from: u32, to: u32) -> Result<(), AllocError>
    requires within { to ≤ length data.now }
{
    for place in from..to {
        let (number, arity) = data.node(place);
        write!(out, " {number}/{arity}")?;
    }
    Ok(())
}

/// Prints data in preorder: how many nodes it has, and these; of a longer one the first and the last.
fn put_data(out: &mut String, data: &Data) -> Result<(), AllocError> {
    let count = data.len();
    write!(out, "\n  data of {count} nodes:")?;
    if count <= FIRST + LAST {
        return put_nodes(out, data, 0, count);
    }
    put_nodes(out, data, 0, FIRST)?;
    out.push_str(" ..")?;
    put_nodes(out, data, count - LAST, count)
}

/// Prints what a machine answers, in a line of its own.
pub fn put_answer(alloc: Global, machine: &Machine, out: &mut String) -> Result<(), AllocError> {
    match answer_tree(alloc, machine) {
        Ok(data) => put_data(out, &data),
        Err(AnswerFault::NotAValue { word }) => write!(out, "\n  no value: {word}"),
        Err(AnswerFault::AnswerNodes) => out.push_str("\n  limit AnswerNodes"),
        Err(AnswerFault::Memory) => out.push_str("\n  out of memory"),
    }
}
