//! What storing arguments makes of a new machine of a module for calls.
//!
//! The headline for calls speaks of runs from a store in which a host has put the arguments. `store_values` of `mem_value` says what it does to a machine's memory and globals. Here
//! the two meet, with no result but their contracts (`stored_arguments_are_held`): a module for calls has the entries that a host asks for (`entries`), a new machine's `heap` is an
//! address that blocks may begin at (`heap`), and after storing the store holds the arguments (`held`).
//!
//! Below stand `mem_value` with the call that stores, `known_calls` with the module, and `call_answers` with the headline; above stands `call_laws`, with what the job `call` owes.
#![tactic(auto)]

ghost use Rattle.stored_calls.specs.Laws.{CallModulesHaveEntries, NewMachinesHaveAHeap, StoredArgumentsAreHeld};

/// A module for calls has all entries, a new machine of it a heap to put blocks at; and where arguments are stored there, the store holds them as the headline for calls asks.
pub fn stored_arguments_are_held()
    ensures entries { CallModulesHaveEntries }
    ensures heap { NewMachinesHaveAHeap }
    ensures held { StoredArgumentsAreHeld }
{}
