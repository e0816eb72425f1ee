//! A history of pieces of bytes, which only clauses read.
ghost use Rattle.std.specs.Prelude.{◌≡◌, ℕ, List, [], ◌∷◌, ◌++◌};
ghost use Rattle.std.specs.Borrow.{ftrue};

use std::marker::{Model, PhantomData};

/// The pieces that were added, the first in front. It takes no bytes at run time, and its calls do nothing there.
#[derive(Drop)]
pub(crate) struct History {
    marker: PhantomData<u8>,
    pub(crate) ghost pieces: { List (List ℕ) },
}

impl Model for History {
    ghost also_owns = { λ _. ftrue };
}

impl History {
    /// No piece so far.
    pub(crate) fn new() -> History
        ensures none { result.pieces ≡ [] }
    {
        History {
            marker: PhantomData,
        }
    }

    /// One piece more, behind the others.
    pub(crate) fn add(&mut self, _piece: &[u8])
        ensures more { self.new.pieces ≡ self.old.pieces ++ _piece.now ∷ [] }
    {}
}
