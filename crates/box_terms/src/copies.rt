//! Copies of shared terms that a walk keeps, so that it makes each once and the result shares what the term shares.
//!
//! A shared node keeps a number, the place of its last copy in the table of the walk that met it last. It is a hint: what is found there
//! is taken only where its stamp shows that it is a copy of the same node. So a hint that is wrong costs time, and changes no answer.
ghost use Rattle.std.specs.Prelude.{◌≡◌, ℕ, IfSome, IfErr};
ghost use Rattle.box_terms.specs.BoxSyntax.{BoxTerm};
ghost use Rattle.box_terms.specs.BoxCopies.{IsCopy, AreCopies};
ghost use Rattle.pc_terms.specs.declared.term.MakeFault.TheVariants.{Memory};

use crate::term::BoxTerm;
use pc_terms::term::MakeFault;
use std::alloc::Global;

/// Which of the two kinds of walks keeps copies: each has a number of its own in each node, since a substitution lifts.
#[derive(Clone, Copy, Drop)]
pub(crate) enum Walk {
    Lift,
    Subst,
}

/// How a copy is made of a term.
#[derive(Clone, Copy, PartialEq, Eq, Drop)]
pub(crate) enum Way {
    /// By the walk that keeps the copies, at a cutoff.
    Walked(u64),
    /// Lifted by a number at cutoff 0.
    Lifted(u32),
}

/// A copy of a term, with the place of the copy of the same node that was kept before.
#[derive(Drop)]
pub(crate) struct Copied {
    term: BoxTerm,
    way: Way,
    copy: BoxTerm,
    before: u32,
}

/// The copies that a walk has made of shared terms.
#[derive(Drop)]
pub(crate) struct Copies {
    walk: Walk,
    items: Vec<Copied>,
}

impl Copies {
    /// No copies. It takes no memory.
    pub(crate) fn new(alloc: Global, walk: Walk) -> Copies
        ensures none { (f : ℕ → ℕ → BoxTerm) → AreCopies f result.items.items }
    {
        Copies {
            walk,
            items: Vec::new(alloc),
        }
    }

    /// The copy that was made of a term in that way, where it is found.
    pub(crate) fn find(&self, term: &BoxTerm, way: Way) -> Option<&BoxTerm>
        ensures copy { (f : ℕ → ℕ → BoxTerm) → AreCopies f self.now.items.items → IfSome result (λ c. IsCopy f term.now way c.now) }
    {
        let mut at = term.hint(self.walk);
        for _i in 0..self.items.len() {
            let item = self.items.get(at as usize)?;
            if !item.term.shares_node(term) {
                return None;
            }
            if item.way == way {
                return Some(&item.copy);
            }
            at = item.before;
        }
        None
    }

    /// Keeps a copy.
    pub(crate) fn keep(&mut self, term: &BoxTerm, way: Way, copy: &BoxTerm) -> Result<(), MakeFault>
        ensures kept { (f : ℕ → ℕ → BoxTerm) → AreCopies f self.old.items.items → IsCopy f term.now way copy.now → AreCopies f self.new.items.items }
        ensures only_memory { IfErr result (λ e. e ≡ Memory) }
    {
        let item = Copied {
            term: term.share()?,
            way,
            copy: copy.share()?,
            before: term.hint(self.walk),
        };
        let place = self.items.len();
        match self.items.push(item) {
            Ok(()) => {
                term.set_hint(self.walk, place.min(u32::MAX as usize) as u32);
                Ok(())
            }
            Err(_) => Err(MakeFault::Memory),
        }
    }
}
