//! Terms without a step, of which nothing is read.
ghost use Rattle.std.specs.Prelude.{◌≡◌, ◌++◌, ◌∷◌, [], IfOk, IfErr, map};
ghost use Rattle.trees.specs.Measures.{IsBeyond};
ghost use Rattle.pc_terms.specs.Syntax.{App, apply};
ghost use Rattle.pc_terms.specs.declared.term.MakeFault.TheVariants.{TooDeep, Memory};
ghost use Rattle.reduction.specs.Frames.{missing, one_less, IsHead};
ghost use Rattle.reduce_machine.specs.Layers.{IsOpen};
ghost use Rattle.reduce_machine.specs.Reads.{read};
ghost use Rattle.reduce_machine.specs.Seen.{seen_term, IsSeen};
ghost use Rattle.reduce_machine.specs.Spines.{head_on, IsStuckHead};
ghost use Rattle.reduce_machine.specs.Values.{term_of, lessened, IsValue};

use crate::bindings::Lazy;
use crate::seen::Seen;
use crate::spines::{Head, Spine};
use pc_terms::term::{MakeFault, Node, Term};
use redexes::lookup::definition_at;
use std::alloc::Global;

/// A term without a step: spines in one another. Beside the outermost stand those below it, the innermost first; and how many arguments
/// the term lacks before its recursive one, where it is a fixpoint with at most so many.
#[derive(Drop)]
pub struct Value {
    pub spine: Spine,
    pub below: Vec<Spine>,
    pub(crate) missing: Option<u32>,
}

/// The place of a fixpoint's recursive argument; none for other terms.
fn recursive_place(t: &Term) -> Option<u32>
    requires { IsHead t.now }
    ensures lacks { result ≡ missing t.now }
{
    match t.view() {
        Node::Fix(defs, i) => match definition_at(defs, *i) {
            Some(def) => Some(def.rarg),
            None => None,
        },
        _ => None,
    }
}

/// One less, where that is a number.
fn less(missing: Option<u32>) -> Option<u32>
    ensures is { result ≡ one_less missing }
{
    match missing {
        Some(0) | None => None,
        Some(k) => Some(k - 1),
    }
}

/// So many less, where that is a number.
fn lessened(missing: Option<u32>, count: usize) -> Option<u32>
    ensures is { result ≡ lessened count missing }
{
    let mut left = missing;
    for _n in 0..count {
        left = less(left);
    }
    left
}

/// One more argument at the end.
pub(crate) fn put(args: &mut Vec<Lazy>, x: Lazy) -> Result<(), MakeFault>
    ensures ok { IfOk result (λ _. args.new.items ≡ args.old.items ++ x ∷ []) }
    ensures only_memory { IfErr result (λ e. e ≡ Memory) }
{
    match args.push(x) {
        Ok(()) => Ok(()),
        Err(_) => Err(MakeFault::Memory),
    }
}

/// One more spine at the end.
fn put_spine(spines: &mut Vec<Spine>, spine: Spine) -> Result<(), MakeFault>
    ensures ok { IfOk result (λ _. spines.new.items ≡ spines.old.items ++ spine ∷ []) }
    ensures only_memory { IfErr result (λ e. e ≡ Memory) }
{
    match spines.push(spine) {
        Ok(()) => Ok(()),
        Err(_) => Err(MakeFault::Memory),
    }
}

impl Value {
    /// A head with arguments as a value.
    pub(crate) fn applied(alloc: Global, head: Lazy, args: Vec<Lazy>) -> Value
        requires { IsOpen head }
        ensures term { term_of result ≡ apply (read head) (map read args.items) }
        ensures value { IsValue result }
    {
        let missing = lessened(recursive_place(&head.term), args.len());
        let spine = Spine {
            head: Head::Open(head),
            args,
        };
        Value {
            spine,
            below: Vec::new(alloc),
            missing,
        }
    }

    /// A head as a value.
    pub(crate) fn of(alloc: Global, head: Lazy) -> Value
        requires { IsOpen head }
        ensures term { term_of result ≡ read head }
        ensures value { IsValue result }
    {
        let missing = recursive_place(&head.term);
        let spine = Spine {
            head: Head::Open(head),
            args: Vec::new(alloc),
        };
        Value {
            spine,
            below: Vec::new(alloc),
            missing,
        }
    }

    /// The value that is looked at.
    pub fn seen(&self) -> Seen<'_>
        requires { IsValue self.now }
        ensures term { seen_term result ≡ term_of self.now }
        ensures seen { IsSeen result }
    {
        Seen {
            spine: &self.spine,
            below: self.below.as_slice(),
        }
    }

    /// The term that the value is.
    pub fn read(&self, alloc: Global) -> Result<Term, MakeFault>
        requires { IsValue self.now }
        ensures ok { IfOk result (λ t. t ≡ term_of self.now) }
        ensures too_deep { IfErr result (λ e. e ≡ TooDeep → IsBeyond (term_of self.now)) }
    {
        self.seen().read(alloc)
    }

    /// A value that is no lambda and no fixpoint that waits for this argument, with the argument.
    pub(crate) fn extended(self, argument: Lazy) -> Result<Value, MakeFault>
        ensures head { IfOk result (λ v. v.spine.head ≡ self.spine.head) }
        ensures below { IfOk result (λ v. v.below ≡ self.below) }
        ensures term { IfOk result (λ v. term_of v ≡ App (term_of self) (read argument)) }
        ensures missing { IfOk result (λ v. v.missing ≡ one_less self.missing) }
        ensures only_memory { IfErr result (λ e. e ≡ Memory) }
    {
        let Value {
            spine,
            below,
            missing,
        } = self;
        let Spine { head, mut args } = spine;
        put(&mut args, argument)?;
        let spine = Spine { head, args };
        Ok(Value {
            spine,
            below,
            missing: less(missing),
        })
    }

    /// A match or a fixpoint that is stuck on the value.
    pub(crate) fn under(self, alloc: Global, head: Head) -> Result<Value, MakeFault>
        requires value { IsValue self }
        requires stuck { IsStuckHead head }
        ensures term { IfOk result (λ v. term_of v ≡ head_on head (term_of self)) }
        ensures value { IfOk result (λ v. IsValue v) }
        ensures only_memory { IfErr result (λ e. e ≡ Memory) }
    {
        let Value {
            spine,
            mut below,
            ..
        } = self;
        put_spine(&mut below, spine)?;
        let spine = Spine {
            head,
            args: Vec::new(alloc),
        };
        Ok(Value {
            spine,
            below,
            missing: None,
        })
    }
}
