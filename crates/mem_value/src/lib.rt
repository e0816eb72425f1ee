//! The data that a machine answers, and that of its arguments, in words that are this project's own.
//!
//! The word 2 * c + 1 stands for constructor c without arguments; the address of a block in memory, a multiple of 4, for a constructor with
//! arguments: a header word, `arity * 65536 + c`, and a word for each argument, of which the addresses lie below the block. `answer_tree` reads the
//! word in `result` so (`tells`): first it searches the blocks that the word needs, each once, from the highest address down (`blocks`), and then it
//! reads node by node (`reading`). It has no recursion. `wasm_run` stands below it, and `data_trees`, whose `Data` it gives.
#![tactic(auto)]

ghost use Rattle.std.specs.Prelude.{◌≡◌, false};
ghost use Rattle.wasm_core.specs.HostStore.{IsForCall};
ghost use Rattle.wasm_core.specs.ModuleCondition.{All as Each};
ghost use Rattle.wasm_core.specs.Runs.{store_of};
ghost use Rattle.wasm_run.specs.Hosting.{IsAtStart};
ghost use Rattle.mem_value.specs.Storing.{HasHeap, IsSmallData, StoreSays};
ghost use Rattle.mem_value.specs.Tells.{TellsResult};

mod blocks;
mod fault;
mod reading;
mod store_fault;
mod storing;

use crate::blocks::stands;
use crate::reading::read;
use crate::storing::{put, store_trees};
use data_trees::Data;
pub use fault::AnswerFault;
use std::alloc::Global;
pub use store_fault::StoreFault;
use wasm_run::Machine;

/// The data that the word in `result` stands for, as a tree in preorder of constructor numbers with their counts of arguments.
///
/// `NotAValue` comes exactly where it stands for none, with that word; `AnswerNodes` exactly where the data has over 4,000,000 nodes. After want of memory
/// a machine's `result` may be any word.
pub fn answer_tree(alloc: Global, m: &Machine) -> Result<Data, AnswerFault>
    ensures tells { TellsResult m.now result }
{
    let word = m.result();
    let memory = m.memory();
    match stands(alloc, memory, word) {
        Err(_) => return Err(AnswerFault::Memory),
        Ok(false) => return Err(AnswerFault::NotAValue { word }),
        Ok(true) => {}
    }
    match read(alloc, memory, word) {
        Err(_) => Err(AnswerFault::Memory),
        Ok(None) => Err(AnswerFault::AnswerNodes),
        Ok(Some(nodes)) => Ok(Data::of(nodes)),
    }
}

/// Puts arguments into the memory of a machine that hasn't made a step: each with its fields before it, then one word for each argument, whose address `args`
/// gets. A constructor without arguments is the word 2 * c + 1, another one a block, as `answer_tree` reads them.
///
/// `Exhausted` comes exactly where `host_block` answered None for a block, so where there was no room for it, and `Failed` exactly where it answered `Failed`. After
/// an error, want of memory too, some blocks may lie in memory, and the machine has failed or stands at the start of a run.
pub fn store_values(alloc: Global, m: &mut Machine, args: &[Data]) -> Result<(), StoreFault>
    requires unmade { m.old.made ≡ 0 }
    requires for_call { IsForCall m.old.program }
    requires heap { m.old.failed ≡ false → HasHeap m.old.program (store_of m.old.state) }
    requires small { Each IsSmallData args.now }
    ensures kept { (m.new.program ≡ m.old.program) × (m.new.cap ≡ m.old.cap) × (m.new.made ≡ m.old.made) }
    ensures says { StoreSays m.old m.new args.now result }
    ensures start { m.new.failed ≡ false → IsAtStart m.new }
{
    m.at_start();
    let mut words: Vec<u32> = Vec::new(alloc);
    match store_trees(alloc, m, args, &mut words) {
        Ok(()) => {}
        Err(fault) => {
            m.at_start();
            return Err(fault);
        }
    }
    words.reverse();
    match put(m, words.as_slice()) {
        Ok(address) => {
            m.set_args(address);
            Ok(())
        }
        Err(fault) => {
            m.at_start();
            Err(fault)
        }
    }
}
