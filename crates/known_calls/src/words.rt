//! Where a word is while a function runs.
ghost use Rattle.std.specs.Prelude.{◌≡◌, length, reverse};

use std::marker::Model;

/// Where the word of a variable or of a captured variable is.
#[derive(Clone, Copy, Debug, PartialEq, Eq)]
pub enum Word {
    /// In this local.
    Local(u32),
    /// In the block whose address is in the local: the local, and the offset in bytes.
    Field(u32, u32),
    /// Nowhere: it is this word.
    Const(u32),
}

/// Where the captured words of a closure are, in the order of its function's captured variables. Contracts see the last one first.
#[derive(Drop)]
pub struct Words {
    items: Vec<Word>,
}

impl Model for Words {
    ghost use Rattle.std.specs.Prelude.{List, reverse};
    ghost use Rattle.known_calls.specs.declared.words.Word.{Word};

    ghost Value = { List Word };

    ghost view = { λ a. reverse a.items.items };
}

impl Words {
    /// The list of the items of a vector. It takes no memory.
    pub fn of(items: Vec<Word>) -> Words
        ensures is { result ≡ reverse items.items }
    {
        Words { items }
    }

    /// The items, the first first.
    pub fn as_slice(&self) -> &[Word]
        ensures is { reverse result.now ≡ self.now }
    {
        self.items.as_slice()
    }

    /// The number of items.
    pub fn len(&self) -> usize
        ensures is { result ≡ length self.now }
    {
        self.items.len()
    }
}
