//! The data that a word stands for, node by node in preorder. The words that are still to be read wait in a vector.

ghost use Rattle.std.specs.Prelude.{◌≡◌, ◌+◌, ◌*◌, ◌^◌, ◌<◌, ◌≤◌, ◌++◌, ℕ, IfOk, OnOk, MatchOption, length, reverse};
ghost use Rattle.wasm_core.specs.WordData.{DataNodes, StandsFor};
ghost use Rattle.mem_value.specs.Tells.{HasData, HasMany, most_nodes};
ghost use Rattle.mem_value.specs.Waiting.{IsNode, words};

use std::alloc::{AllocError, Global};
use wasm_run::load;

/// The most nodes of an answer.
const MOST_NODES: usize = 4_000_000;

/// The first node of the data of a word that stands for some: the constructor's number, and its count of arguments.
fn node_of(memory: &[u8], word: u32) -> (u32, u32)
    requires stands { HasData memory.now word }
    ensures is { (d : DataNodes) → StandsFor memory.now word d → IsNode memory.now word d result.0 result.1 }
    ensures inside { 0 < result.1 → word + 4 + 4 * result.1 ≤ length memory.now }
{
    if word % 2 == 1 {
        return (word / 2, 0);
    }
    let header = load(memory, word as usize);
    (header % 65_536, header / 65_536)
}

/// The words from an address on are put on those that wait, the last first.
fn put_words(
    memory: &[u8],
    address: usize,
    count: usize,
    waiting: &mut Vec<u32>,
) -> Result<(), AllocError>
    requires small { address + 4 * count < 2 ^ 40 }
    requires inside { 0 < count → address + 4 * count ≤ length memory.now }
    ensures is { OnOk result (reverse waiting.new.items ≡ words memory.now address count ++ reverse waiting.old.items) }
{
    for i in 0..count {
        waiting.push(load(memory, address + 4 * (count - 1 - i)))?;
    }
    Ok(())
}

/// The data that a word stands for, or none where it has over 4,000,000 nodes.
pub fn read(alloc: Global, memory: &[u8], word: u32) -> Result<Option<Vec<(u32, u32)>>, AllocError>
    requires stands { HasData memory.now word }
    ensures is { IfOk result (λ o. MatchOption o (HasMany memory.now word) (λ v. StandsFor memory.now word v.items × (length v.items ≤ most_nodes))) }
{
    let mut nodes: Vec<(u32, u32)> = Vec::new(alloc);
    let mut waiting: Vec<u32> = Vec::new(alloc);
    waiting.push(word)?;
    for _made in 0..MOST_NODES + 1 {
        let Some(next) = waiting.pop() else {
            return Ok(Some(nodes));
        };
        let (number, arity) = node_of(memory, next);
        if nodes.len() + 1 + waiting.len() + arity as usize > MOST_NODES {
            return Ok(None);
        }
        nodes.push((number, arity))?;
        put_words(memory, next as usize + 4, arity as usize, &mut waiting)?;
    }
    unreachable!()
}
