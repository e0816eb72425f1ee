//! Values that are looked at.
ghost use Rattle.std.specs.Prelude.{◌≡◌, ◌<◌, ◌+◌, ◌++◌, ◌∷◌, IfOk, IfErr, IfSome, IfNone, Some, length, map, slice_get};
ghost use Rattle.trees.specs.Measures.{IsBeyond};
ghost use Rattle.pc_terms.specs.Syntax.{args};
ghost use Rattle.pc_terms.specs.declared.term.MakeFault.TheVariants.{TooDeep};
ghost use Rattle.reduce_machine.specs.Reads.{read};
ghost use Rattle.reduce_machine.specs.Spines.{IsOpenHead, IsStuckHead};
ghost use Rattle.reduce_machine.specs.Seen.{seen_term, inner_term, argument_term, IsSeen, IsInner, IsInnerArgument};

use crate::bindings::Lazy;
use crate::spines::{Head, Spine};
use pc_terms::term::{MakeFault, Term};
use std::alloc::Global;

/// A value, or what a value is stuck on: its outermost spine, and the spines below, the innermost first.
#[derive(Clone, Copy, Drop)]
pub struct Seen<'a> {
    pub spine: &'a Spine,
    pub below: &'a [Spine],
}

/// An argument of a value: a term under bindings, or the value that a fixpoint is stuck on.
#[derive(Clone, Copy, Drop)]
pub enum Argument<'a> {
    Lazy(&'a Lazy),
    Value(Seen<'a>),
}

impl<'a> Seen<'a> {
    /// What the outermost head is stuck on; none where it is open.
    pub fn inner(&self) -> Option<Seen<'a>>
        requires { IsSeen self.now }
        ensures some { IfSome result (λ s. IsInner self.now s) }
        ensures none { IfNone result (IsOpenHead self.now.spine.now.head) }
    {
        match self.below.split_last() {
            Some((spine, below)) => Some(Seen { spine, below }),
            None => None,
        }
    }

    /// The term that this is.
    pub fn read(&self, alloc: Global) -> Result<Term, MakeFault>
        requires { IsSeen self.now }
        ensures ok { IfOk result (λ t. t ≡ seen_term self.now) }
        ensures too_deep { IfErr result (λ e. e ≡ TooDeep → IsBeyond (seen_term self.now)) }
    {
        let mut inner: Option<Term> = None;
        for spine in self.below {
            let term = spine.read(alloc, inner)?;
            inner = Some(term);
        }
        self.spine.read(alloc, inner)
    }

    /// How many arguments the term has.
    pub fn count(&self) -> usize
        requires { IsSeen self.now }
        ensures is { result ≡ length (args (seen_term self.now)) }
    {
        let after = self.spine.args.len();
        match &self.spine.head {
            Head::Fixpoint(_, before) => before.len() + 1 + after,
            _ => after,
        }
    }

    /// The argument of this number; of a fixpoint that is stuck, the recursive one is a value.
    pub fn argument(&self, i: usize) -> Argument<'a>
        requires seen { IsSeen self.now }
        requires within { i < length (args (seen_term self.now)) }
        ensures is { slice_get (args (seen_term self.now)) i ≡ Some (argument_term result) }
        ensures inner { IsInnerArgument self.now result }
    {
        let args = self.spine.args.as_slice();
        match &self.spine.head {
            Head::Fixpoint(_, before) => self.fixpoint_argument(i, before.as_slice(), args),
            _ => Argument::Lazy(&args[i]),
        }
    }

    /// The argument of this number of a fixpoint that is stuck, with those before its recursive one and those behind it.
    fn fixpoint_argument(&self, i: usize, before: &'a [Lazy], after: &'a [Lazy]) -> Argument<'a>
        requires seen { IsSeen self.now }
        requires within { i < length before.now + 1 + length after.now }
        requires stuck { IsStuckHead self.now.spine.now.head }
        ensures is { slice_get (map read before.now ++ inner_term self.now ∷ map read after.now) i ≡ Some (argument_term result) }
        ensures inner { IsInnerArgument self.now result }
    {
        let count = before.len();
        if i < count {
            return Argument::Lazy(&before[i]);
        }
        if i > count {
            return Argument::Lazy(&after[i - count - 1]);
        }
        match self.inner() {
            Some(seen) => Argument::Value(seen),
            None => unreachable!(),
        }
    }
}
