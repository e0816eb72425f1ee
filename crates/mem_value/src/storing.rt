//! Data that is put into a machine's memory before its run. It goes node by node, from the last one in preorder to the first, so that it has no recursion; the
//! words of what was put wait in a vector until the block comes whose fields they are.

ghost use Rattle.std.specs.Prelude.{◌≡◌, ◌+◌, ◌*◌, ◌<◌, ◌≤◌, ◌∷◌, IfOk, OnOk, Some, length, reverse, slice_get, take, drop, false};
ghost use Rattle.wasm_core.specs.HostStore.{IsForCall};
ghost use Rattle.wasm_core.specs.ModuleCondition.{All as Each};
ghost use Rattle.wasm_core.specs.Runs.{store_of};
ghost use Rattle.data_trees.specs.Preorder.{IsTree};
ghost use Rattle.wasm_run.specs.Hosting.{IsAtStart};
ghost use Rattle.mem_value.specs.Storing.{IsSmallData, PutSays, StackSays, put_node, put_nodes, put_trees};

use crate::store_fault::StoreFault;
use data_trees::Data;
use std::alloc::{AllocError, Global};
use wasm_core::RunFault;
use wasm_run::Machine;

/// Puts words at `heap`, and gives their address.
pub fn put(machine: &mut Machine, words: &[u32]) -> Result<u32, StoreFault>
    requires unmade { machine.old.made ≡ 0 }
    requires for_call { IsForCall machine.old.program }
    ensures kept { (machine.new.program ≡ machine.old.program) × (machine.new.cap ≡ machine.old.cap) × (machine.new.made ≡ machine.old.made) }
    ensures says { PutSays machine.old machine.new words.now result }
    ensures start { machine.new.failed ≡ false → IsAtStart machine.new }
{
    match machine.host_block(words) {
        Ok(Some(address)) => Ok(address),
        Ok(None) => Err(StoreFault::Exhausted),
        Err(RunFault::Failed) => Err(StoreFault::Failed),
        Err(RunFault::Memory) => Err(StoreFault::Memory),
        Err(RunFault::StepsSpent) => unreachable!(),
    }
}

/// A header, and the words that wait behind it, of which so many are taken off.
fn take_block(
    alloc: Global,
    header: u32,
    arity: u32,
    words: &mut Vec<u32>,
) -> Result<Vec<u32>, AllocError>
    requires there { arity ≤ length words.old.items }
    ensures block { IfOk result (λ b. b.items ≡ header ∷ take arity (reverse words.old.items)) }
    ensures rest { OnOk result (reverse words.new.items ≡ drop arity (reverse words.old.items)) }
{
    let mut block: Vec<u32> = Vec::new(alloc);
    block.push(header)?;
    for _taken in 0..arity {
        match words.pop() {
            Some(word) => block.push(word)?,
            None => unreachable!(),
        }
    }
    Ok(block)
}

/// Puts one node: the odd word of a constructor without arguments, or a block with the words of its arguments, waits then.
fn store_node(
    alloc: Global,
    machine: &mut Machine,
    number: u32,
    arity: u32,
    words: &mut Vec<u32>,
) -> Result<(), StoreFault>
    requires unmade { machine.old.made ≡ 0 }
    requires for_call { IsForCall machine.old.program }
    requires there { arity ≤ length words.old.items }
    requires small { (number < 65536) × (arity < 65536) }
    ensures kept { (machine.new.program ≡ machine.old.program) × (machine.new.cap ≡ machine.old.cap) × (machine.new.made ≡ machine.old.made) }
    ensures says { StackSays machine.old machine.new (reverse words.new.items)
        (put_node machine.old.program machine.old.cap number arity (record { store = store_of machine.old.state; words = reverse words.old.items })) result }
{
    if arity == 0 {
        words.push(2 * number + 1)?;
        return Ok(());
    }
    let block = take_block(alloc, arity * 65_536 + number, arity, words)?;
    match put(machine, block.as_slice()) {
        Ok(address) => {
            words.push(address)?;
            Ok(())
        }
        Err(fault) => Err(fault),
    }
}

/// Puts the nodes of a tree, the last one first; the tree's word waits then.
fn store_nodes(
    alloc: Global,
    machine: &mut Machine,
    data: &Data,
    words: &mut Vec<u32>,
) -> Result<(), StoreFault>
    requires unmade { machine.old.made ≡ 0 }
    requires for_call { IsForCall machine.old.program }
    requires small { IsSmallData data.now }
    ensures kept { (machine.new.program ≡ machine.old.program) × (machine.new.cap ≡ machine.old.cap) × (machine.new.made ≡ machine.old.made) }
    ensures says { StackSays machine.old machine.new (reverse words.new.items)
        (put_nodes machine.old.program machine.old.cap data.now (record { store = store_of machine.old.state; words = reverse words.old.items })) result }
    ensures tree { IsTree data.now }
{
    let len = data.len();
    for past in 0..len {
        let (number, arity) = data.node(len - 1 - past);
        match store_node(alloc, machine, number, arity, words) {
            Ok(()) => {}
            Err(fault) => return Err(fault),
        }
    }
    Ok(())
}

/// A tree of a list.
fn tree_at(trees: &[Data], at: usize) -> &Data
    requires there { at < length trees.now }
    ensures is { slice_get trees.now at ≡ Some result.now }
{
    &trees[at]
}

/// Puts trees, the last one first; the word of each waits then.
pub fn store_trees(
    alloc: Global,
    machine: &mut Machine,
    trees: &[Data],
    words: &mut Vec<u32>,
) -> Result<(), StoreFault>
    requires unmade { machine.old.made ≡ 0 }
    requires for_call { IsForCall machine.old.program }
    requires small { Each IsSmallData trees.now }
    ensures kept { (machine.new.program ≡ machine.old.program) × (machine.new.cap ≡ machine.old.cap) × (machine.new.made ≡ machine.old.made) }
    ensures says { StackSays machine.old machine.new (reverse words.new.items)
        (put_trees machine.old.program machine.old.cap trees.now (record { store = store_of machine.old.state; words = reverse words.old.items })) result }
    ensures trees { OnOk result (Each IsTree trees.now) }
{
    for past in 0..trees.len() {
        let tree = tree_at(trees, trees.len() - 1 - past);
        match store_nodes(alloc, machine, tree, words) {
            Ok(()) => {}
            Err(fault) => return Err(fault),
        }
    }
    Ok(())
}
