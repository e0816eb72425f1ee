//! The arguments of a row: trees of constructor numbers, each in lines `argument:` of its own.
ghost use Rattle.std.specs.Prelude.{◌≡◌, ◌<◌, ◌^◌, IfOk, length, true};
ghost use Rattle.wasm_core.specs.ModuleCondition.{All as Each};
ghost use Rattle.data_trees.specs.Preorder.{IsTree};
ghost use Rattle.mem_value.specs.Storing.{IsSmallData};

use data_trees::Data;
use row_files::{Fault, Row};
use std::alloc::Global;

/// The number that decimal digits spell.
fn number_of(digits: &str) -> Result<u32, Fault> {
    match digits.parse::<u32>() {
        Ok(number) => Ok(number),
        Err(_) => Err(Fault::Faulty("no number")),
    }
}

/// The node that `NUMBER/COUNT` spells: a constructor's number, and its count of arguments.
fn node_of(word: &str) -> Result<(u32, u32), Fault> {
    match word.split_once('/') {
        Some((number, count)) => Ok((number_of(number)?, number_of(count)?)),
        None => Err(Fault::Faulty("no node")),
    }
}

/// The nodes that the words of a line spell.
fn nodes_of(alloc: Global, text: &str) -> Result<Vec<(u32, u32)>, Fault> {
    let mut nodes: Vec<(u32, u32)> = Vec::new(alloc);
    for word in text.split_whitespace() {
        nodes.push(node_of(word)?)?;
    }
    Ok(nodes)
}

/// Whether the nodes are one tree in preorder, each with numbers below 65,536. At most 1,000,000 trees may be wanted at a place.
fn is_small_tree(nodes: &[(u32, u32)]) -> bool
    ensures tree { result ≡ true → IsTree nodes.now × IsSmallData nodes.now }
{
    let mut wanted: u32 = 1;
    for i in 0..nodes.len() {
        let (number, count) = nodes[i];
        if wanted == 0 || wanted > 1_000_000 || number > 65_535 || count > 65_535 {
            return false;
        }
        wanted = wanted - 1 + count;
    }
    wanted == 0
}

/// The tree of nodes.
fn tree_of(nodes: Vec<(u32, u32)>) -> Result<Data, Fault>
    ensures small { IfOk result (λ d. IsSmallData d) }
{
    if nodes.len() > 1_000_000_000 {
        return Err(Fault::Faulty("too many nodes"));
    }
    if !is_small_tree(nodes.as_slice()) {
        return Err(Fault::Faulty("no tree"));
    }
    Ok(Data::of(nodes))
}

/// The arguments of a row, the first line first.
pub fn arguments_of(alloc: Global, row: &Row) -> Result<Vec<Data>, Fault>
    ensures small { IfOk result (λ v. Each IsSmallData v.items) }
{
    let mut arguments: Vec<Data> = Vec::new(alloc);
    for field in row.fields() {
        if field.key == "argument" {
            let nodes = nodes_of(alloc, field.value)?;
            arguments.push(tree_of(nodes)?)?;
        }
    }
    Ok(arguments)
}
