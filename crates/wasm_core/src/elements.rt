//! Element segments (WebAssembly Core Specification, section 2.5.7).

ghost use Rattle.std.specs.Prelude.{◌≡◌};

use crate::numbers::Numbers;
use std::marker::Model;

/// An element segment: from a place of the table on, the functions that stand there when a run starts.
#[derive(Drop)]
pub struct Segment {
    pub offset: u32,
    pub funcs: Numbers,
}

/// A list of element segments.
#[derive(Drop)]
pub struct Segments {
    items: Vec<Segment>,
}

impl Model for Segments {
    ghost use Rattle.std.specs.Prelude.{List};
    ghost use Rattle.wasm_core.specs.declared.elements.Segment.{Segment};

    ghost Value = { List Segment };

    ghost view = { λ a. a.items.items };
}

impl Segments {
    /// The list of these items. It takes no memory.
    pub fn of(items: Vec<Segment>) -> Segments
        ensures items { result ≡ items.items }
    {
        Segments { items }
    }

    /// The items. It takes no memory.
    pub fn into_vec(self) -> Vec<Segment>
        ensures items { result.items ≡ self }
    {
        let Segments { items } = self;
        items
    }

    /// The items, lent.
    pub fn as_slice(&self) -> &[Segment]
        ensures items { result.now ≡ self.now }
    {
        self.items.as_slice()
    }
}
