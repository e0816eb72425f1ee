//! Lists that share what they have in common.
ghost use Rattle.std.specs.Prelude.{◌≡◌, ◌∷◌, [], IfOk, slice_get, MatchOption, Some, None};

use std::alloc::{AllocError, Global};
use std::marker::Model;
use std::rc::Rc;

/// A list, the newest item first. A list with one item more shares all others with it.
#[cycle(shared_list)]
pub struct SharedList<T: Drop> {
    first: Option<Rc<Cell<T>>>,
}

#[cycle(shared_list)]
#[derive(Drop)]
struct Cell<T: Drop> {
    item: T,
    below: SharedList<T>,
}

impl<T: Drop> Model for SharedList<T> {
    ghost use Rattle.std.specs.Prelude.{List, length};

    ghost Value = { List T };

    ghost use Rattle.pc_rules.specs.SharedCells.{items};

    ghost view = { λ r. items r.first };

    ghost size = { length };
}

// A list may be long, so its cells are let go in a loop.
impl<T: Drop> Drop for SharedList<T> {
    fn drop(mut self) {
        loop {
            let SharedList { first } = self;
            match first {
                None => return,
                Some(rc) => match Rc::into_inner(rc) {
                    None => return,
                    Some(Cell { item: _, below }) => self = below,
                },
            }
        }
    }
}

impl<T: Drop> SharedList<T> {
    /// The empty list.
    pub fn new() -> SharedList<T>
        ensures empty { result ≡ [] }
    {
        SharedList { first: None }
    }

    /// The same list.
    pub fn share(&self) -> Result<SharedList<T>, AllocError>
        ensures same { IfOk result (λ r. r ≡ self.now) }
    {
        match &self.first {
            None => Ok(SharedList { first: None }),
            Some(cell) => Ok(SharedList {
                first: Some(cell.clone()?),
            }),
        }
    }

    /// The list with an item in front.
    pub fn with(&self, alloc: Global, item: T) -> Result<SharedList<T>, AllocError>
        ensures longer { IfOk result (λ r. r ≡ item ∷ self.now) }
    {
        let below = self.share()?;
        match Rc::new(alloc, Cell { item, below }) {
            Ok(cell) => Ok(SharedList { first: Some(cell) }),
            Err(_) => Err(AllocError),
        }
    }

    /// Item i, where the newest is item 0.
    pub fn get(&self, i: u32) -> Option<&T>
        ensures at { MatchOption result (slice_get self.now i ≡ None) (λ x. slice_get self.now i ≡ Some x.now) }
    {
        let mut list = self;
        let mut left = i;
        loop {
            match &list.first {
                None => return None,
                Some(cell) => {
                    if left == 0 {
                        return Some(&cell.item);
                    }
                    left -= 1;
                    list = &cell.below;
                }
            }
        }
    }

    /// The newest item and the list of all others; none exactly where the list is empty. Takes no memory.
    pub fn parts(&self) -> Option<(&T, &SharedList<T>)>
        ensures parts { MatchOption result (self.now ≡ []) (λ p. self.now ≡ p.0.now ∷ p.1.now) }
    {
        match &self.first {
            None => None,
            Some(cell) => Some((&cell.item, &cell.below)),
        }
    }
}
