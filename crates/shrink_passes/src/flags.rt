//! A truth for each place of a constant's parameters.
ghost use Rattle.std.specs.Prelude.{◌≡◌, ◌≤◌, ◌<◌, ◌-◌, ℕ, true, false, ◌&&◌, length, reverse, IfOk, IfErr};
ghost use Rattle.lambda_box.specs.declared.fault.PassFault.TheVariants.{Memory};
ghost use Rattle.shrink_passes.specs.DeadPlaces.{flag_at, is_below, keeps};
ghost use Rattle.shrink_passes.specs.declared.flags.Loss.TheVariants.{Place};

use lambda_box::PassFault;
use std::alloc::Global;
use std::marker::Model;

/// Which places are lost.
#[derive(Clone, Copy)]
pub(crate) enum Loss {
    /// One place.
    Place(u32),
    /// All places from this one on.
    From(u32),
}

/// A truth for each place, from place 0. Beyond the last one it is false.
#[derive(Drop)]
pub(crate) struct Flags {
    items: Vec<bool>,
}

impl Model for Flags {
    ghost use Rattle.std.specs.Prelude.{List, Bool};

    ghost Value = { List Bool };

    ghost view = { λ a. a.items.items };
}

impl Flags {
    /// True for each of the first `n` places. Only `Memory`.
    #[tactic(auto, using(crate::proofs::Flagging::trues_more, crate::proofs::Flagging::flag_trues, crate::proofs::Flagging::length_trues))]
    pub(crate) fn all(alloc: Global, n: u32) -> Result<Flags, PassFault>
        ensures is { IfOk result (λ xs. (p : ℕ) → flag_at p xs ≡ is_below p n) }
        ensures len { IfOk result (λ xs. length xs ≡ n) }
        ensures only_memory { IfErr result (λ e. e ≡ Memory) }
    {
        let mut items = Vec::new(alloc);
        for _ in 0..n {
            if items.push(true).is_err() {
                return Err(PassFault::Memory);
            }
        }
        Ok(Flags { items })
    }

    /// Whether it is true at place `p`.
    pub(crate) fn at(&self, p: usize) -> bool
        ensures is { result ≡ flag_at p self.now }
    {
        let n = self.items.len();
        if p < n { self.items[p] } else { false }
    }

    /// Makes it false at place `i`.
    pub(crate) fn clear(&mut self, i: u32)
        ensures is { (p : ℕ) → flag_at p self.new ≡ (flag_at p self.old && keeps (Place i) p) }
        ensures len { length self.new ≡ length self.old }
    {
        let i = i as usize;
        if i < self.items.len() {
            self.items[i] = false;
        }
    }

    /// Makes it false at the places that are lost.
    pub(crate) fn lose(&mut self, loss: Loss)
        ensures is { (p : ℕ) → flag_at p self.new ≡ (flag_at p self.old && keeps loss p) }
    {
        match loss {
            Loss::Place(i) => self.clear(i),
            Loss::From(n) => self.items.truncate(n as usize),
        }
    }

    /// The truths in the other order.
    pub(crate) fn reversed(self) -> Flags
        ensures is { result ≡ reverse self }
    {
        let Flags { mut items } = self;
        items.reverse();
        Flags { items }
    }

    /// The number of places up to the last one at which it is true.
    pub(crate) fn end(&self) -> usize
        ensures past { (p : ℕ) → result ≤ p → flag_at p self.now ≡ false }
        ensures last { 0 < result → flag_at (result - 1) self.now ≡ true }
    {
        let mut n = self.items.len();
        while n > 0 && !self.at(n - 1) {
            n -= 1;
        }
        n
    }
}
