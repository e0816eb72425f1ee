//! Data: trees of constructor numbers, without types and without parameters.
//!
//! Evaluation gives a value's data, and a run of a module gives its answer's; both are told as text from here on. A tree is the list of its nodes in preorder,
//! so this layer and those that read it have no recursion (`of`, `len`, `node`). Nothing of this repository stands below it.
#![tactic(auto)]

ghost use Rattle.std.specs.Prelude.{◌≡◌, ◌<◌, ◌^◌, Some, length, slice_get};
ghost use Rattle.data_trees.specs.Preorder.{IsTree};

use std::marker::Model;

/// A tree of constructor numbers, without parameters. Contracts see it as the list of its nodes in preorder, each with its constructor's number and its
/// number of arguments; there are fewer than 2^32.
#[derive(Drop)]
pub struct Data {
    nodes: Vec<(u32, u32)>,
}

impl Model for Data {
    ghost use Rattle.std.specs.Prelude.{ℕ, List, length, ◌<◌, ◌^◌};
    ghost use Rattle.std.specs.Coded.{coded_list, coded×, coded_ℕ};
    ghost use Rattle.data_trees.specs.Preorder.{IsTree};

    ghost Value = { List (ℕ × ℕ) };

    ghost coded = { coded_list (coded× coded_ℕ coded_ℕ) };

    ghost view = { λ d. d.nodes.items };

    ghost invariant = { λ d. IsTree d.nodes.items × (length d.nodes.items < 2 ^ 32) };
}

impl Data {
    /// The data of a list that is one tree in preorder, with fewer than 2^32 nodes. Takes no memory.
    pub fn of(nodes: Vec<(u32, u32)>) -> Data
        requires tree { IsTree nodes.items }
        requires few { length nodes.items < 2 ^ 32 }
        ensures is { result ≡ nodes.items }
    {
        Data { nodes }
    }

    /// The number of nodes, which are one tree. Takes no memory.
    pub fn len(&self) -> u32
        ensures is { result ≡ length self.now }
        ensures tree { IsTree self.now }
    {
        self.nodes.len() as u32
    }

    /// Node i in preorder, from 0: its constructor's number, and its number of arguments. Takes no memory.
    pub fn node(&self, i: u32) -> (u32, u32)
        requires there { i < length self.now }
        ensures at { slice_get self.now i ≡ Some result }
    {
        self.nodes[i as usize]
    }
}
