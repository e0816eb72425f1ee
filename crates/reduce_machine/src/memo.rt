//! Terms that bindings were read to.
ghost use Rattle.std.specs.Prelude.{◌≡◌, IsTrue, IfOk, IfErr, IfSome};
ghost use Rattle.pc_terms.specs.Counted.{number_of};
ghost use Rattle.pc_terms.specs.declared.term.MakeFault.TheVariants.{Memory};
ghost use Rattle.reduce_machine.specs.Memos.{IsMemo};
ghost use Rattle.reduce_machine.specs.Reads.{read};

use crate::bindings::Lazy;
use pc_terms::term::{MakeFault, Term};
use stamps::Stamp;
use std::alloc::Global;
use std::cell::{Cell, OnceCell};
use std::marker::Model;
use std::rc::Rc;

/// A term that was read, with the stamp of the place for which it was. Contracts see the term.
#[derive(Drop)]
struct Kept {
    stamp: Rc<Stamp>,
    term: Term,
}

impl Model for Kept {
    ghost use Rattle.std.specs.Prelude.{◌≡◌};
    ghost use Rattle.pc_terms.specs.Syntax.{Term};
    ghost use Rattle.pc_terms.specs.Code.{coded_term};
    ghost use Rattle.pc_terms.specs.Counted.{number_of};

    ghost Value = { Term };

    ghost coded = { coded_term };

    ghost view = { λ k. k.term };

    ghost invariant = { λ k. k.stamp.value ≡ number_of k.term };
}

/// The stamp of another place for the same term, with that of the place itself. Contracts see the number of the term.
#[derive(Drop)]
struct Twin {
    own: Rc<Stamp>,
    other: Rc<Stamp>,
}

impl Model for Twin {
    ghost use Rattle.std.specs.Prelude.{ℕ, ◌≡◌};

    ghost Value = { ℕ };

    ghost view = { λ t. t.other.value };

    ghost invariant = { λ t. t.own.value ≡ t.other.value };
}

/// A place for one term, which is written at most once. Contracts see the number of the only term that it can have.
///
/// It may be joined, once, to another place for the same term, so that the two are known to be for one. Besides it has a hint, which may be
/// set again: where a table may have what the term was reduced to.
#[derive(Drop)]
pub struct Memo {
    stamp: Rc<Stamp>,
    kept: OnceCell<Kept>,
    twin: OnceCell<Twin>,
    hint: Cell<u32>,
}

impl Model for Memo {
    ghost use Rattle.std.specs.Prelude.{ℕ};

    ghost Value = { ℕ };

    ghost view = { λ m. m.stamp.value };
}

impl Memo {
    /// The term, where it was written.
    pub(crate) fn term(&self) -> Option<&Term>
        ensures is { IfSome result (λ t. number_of t.now ≡ self.now) }
    {
        match self.kept.get() {
            Some(kept) => {
                if kept.stamp.same(&self.stamp) {
                    return Some(&kept.term);
                }
                None
            }
            None => None,
        }
    }

    /// The number that was said last of the place in a table; it may be of another table.
    pub(crate) fn hint(&self) -> u32 {
        self.hint.get()
    }

    /// Says the number of the place in a table.
    pub(crate) fn set_hint(&self, number: u32) {
        self.hint.set(number);
    }

    /// The stamp of the place.
    pub(crate) fn key(&self) -> Result<Rc<Stamp>, MakeFault>
        ensures ok { IfOk result (λ k. k.value ≡ self.now) }
        ensures only_memory { IfErr result (λ e. e ≡ Memory) }
    {
        match self.stamp.clone() {
            Ok(stamp) => Ok(stamp),
            Err(_) => Err(MakeFault::Memory),
        }
    }

    /// Whether a stamp is seen to be that of the place.
    pub(crate) fn is_of(&self, key: &Rc<Stamp>) -> bool
        ensures is { IsTrue result → key.now.value ≡ self.now }
    {
        key.same(&self.stamp)
    }

    /// Writes the term, if there is memory for that.
    pub(crate) fn keep(&self, term: &Term)
        requires is { self.now ≡ number_of term.now }
    {
        let Ok(term) = term.share() else {
            return;
        };
        let Ok(stamp) = self.stamp.clone() else {
            return;
        };
        let _ = self.kept.set(Kept { stamp, term });
    }

    /// Whether both are seen to be places for one term: they are one place, or were joined, or were both joined to one place.
    pub fn same(&self, other: &Memo) -> bool
        ensures is { IsTrue result → self.now ≡ other.now }
    {
        let left = self.mark();
        let right = other.mark();
        left.same(right) || left.same(&other.stamp) || self.stamp.same(right)
    }

    /// Joins two places for one term, where one of them isn't joined yet and there is memory for that.
    pub fn join(&self, other: &Memo)
        requires one { self.now ≡ other.now }
    {
        if self.twin.get().is_none() {
            self.follow(other.mark());
        } else {
            other.follow(self.mark());
        }
    }

    /// The stamp of the place to which this one was joined, and else its own.
    fn mark(&self) -> &Rc<Stamp>
        ensures is { result.now.value ≡ self.now }
    {
        match self.twin.get() {
            Some(twin) => {
                if twin.own.same(&self.stamp) {
                    return &twin.other;
                }
                &self.stamp
            }
            None => &self.stamp,
        }
    }

    /// Keeps the stamp of another place.
    fn follow(&self, mark: &Rc<Stamp>)
        requires one { mark.now.value ≡ self.now }
    {
        let Ok(own) = self.stamp.clone() else {
            return;
        };
        let Ok(other) = mark.clone() else {
            return;
        };
        let _ = self.twin.set(Twin { own, other });
    }
}

/// A place for the term that an item is; none where that term is at hand.
pub(crate) fn memo_of(alloc: Global, item: &Lazy) -> Result<Option<Memo>, MakeFault>
    ensures ok { IfOk result (λ m. IsMemo m (read item.now)) }
    ensures only_memory { IfErr result (λ e. e ≡ Memory) }
{
    if item.env.is_empty() {
        return Ok(None);
    }
    let stamp = stamp_of(item);
    match Rc::new(alloc, stamp) {
        Ok(stamp) => Ok(Some(Memo {
            stamp,
            kept: OnceCell::new(),
            twin: OnceCell::new(),
            hint: Cell::new(0),
        })),
        Err(_) => Err(MakeFault::Memory),
    }
}

/// A stamp for the term that an item is.
fn stamp_of(_item: &Lazy) -> Stamp
    ensures is { result ≡ number_of (read _item.now) }
{
    Stamp::new()
}
