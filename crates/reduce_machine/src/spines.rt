//! Heads without a step, and what they are applied to.
ghost use Rattle.std.specs.Prelude.{◌≡◌, IfOk, IfErr, map};
ghost use Rattle.trees.specs.Measures.{IsBeyond};
ghost use Rattle.pc_terms.specs.Syntax.{App, apply};
ghost use Rattle.pc_terms.specs.declared.term.MakeFault.TheVariants.{TooDeep, Memory};
ghost use Rattle.reduction.specs.Frames.{with_scrutinee};
ghost use Rattle.reduce_machine.specs.Layers.{IsMatchNode};
ghost use Rattle.reduce_machine.specs.Reads.{read};
ghost use Rattle.reduce_machine.specs.Spines.{head_on, spine_on, below_term, IsOn};

use crate::bindings::Lazy;
use crate::reading::read_around;
use pc_terms::term::{MakeFault, Node, Term};
use std::alloc::Global;

/// A head without a step.
#[derive(Drop)]
pub enum Head {
    /// No application, no match and no bound variable.
    Open(Lazy),
    /// A match that is stuck: its scrutinee is the spine below.
    Match(Lazy),
    /// A fixpoint that is stuck, with the arguments before its recursive one, which is the spine below.
    Fixpoint(Lazy, Vec<Lazy>),
}

/// A head with what it is applied to.
#[derive(Drop)]
pub struct Spine {
    pub head: Head,
    pub args: Vec<Lazy>,
}

/// A term that is applied to each of a list of arguments, which are read.
fn applied(alloc: Global, function: Term, args: &Vec<Lazy>) -> Result<Term, MakeFault>
    ensures ok { IfOk result (λ t. t ≡ apply function (map read args.now.items)) }
    ensures too_deep { IfErr result (λ e. e ≡ TooDeep → IsBeyond (apply function (map read args.now.items))) }
{
    let mut term = function;
    for x in args {
        let x = x.read(alloc)?;
        term = Term::make(alloc, Node::App(term, x))?;
    }
    Ok(term)
}

/// A match under bindings, which is read around another scrutinee.
fn read_match(alloc: Global, outer: &Lazy, inner: Term) -> Result<Term, MakeFault>
    requires { IsMatchNode outer.now.term }
    ensures ok { IfOk result (λ t. t ≡ with_scrutinee (read outer.now) inner) }
    ensures too_deep { IfErr result (λ e. e ≡ TooDeep → IsBeyond (with_scrutinee (read outer.now) inner)) }
{
    let Node::Case(m) = outer.term.view() else {
        unreachable!()
    };
    let m = m.get();
    read_around(m, alloc, &outer.env, inner)
}

/// A fixpoint with the arguments before its recursive one, which are read, and that one.
fn read_fixpoint(
    alloc: Global,
    fix: &Lazy,
    before: &Vec<Lazy>,
    inner: Term,
) -> Result<Term, MakeFault>
    ensures ok { IfOk result (λ t. t ≡ App (apply (read fix.now) (map read before.now.items)) inner) }
    ensures too_deep { IfErr result (λ e. e ≡ TooDeep → IsBeyond (App (apply (read fix.now) (map read before.now.items)) inner)) }
{
    let head = fix.read(alloc)?;
    let function = applied(alloc, head, before)?;
    Term::make(alloc, Node::App(function, inner))
}

impl Head {
    /// The term of a head. `inner` is the term of the spine below it; none where the head is open.
    fn read(&self, alloc: Global, inner: Option<Term>) -> Result<Term, MakeFault>
        requires { IsOn self.now inner }
        ensures ok { IfOk result (λ t. t ≡ head_on self.now (below_term inner)) }
        ensures too_deep { IfErr result (λ e. e ≡ TooDeep → IsBeyond (head_on self.now (below_term inner))) }
    {
        match (self, inner) {
            (Head::Open(l), _) => l.read(alloc),
            (Head::Match(outer), Some(inner)) => read_match(alloc, outer, inner),
            (Head::Fixpoint(fix, before), Some(inner)) => read_fixpoint(alloc, fix, before, inner),
            _ => unreachable!(),
        }
    }
}

impl Spine {
    /// The term of a spine. `inner` is the term of the spine below it; none where the head is open.
    pub(crate) fn read(&self, alloc: Global, inner: Option<Term>) -> Result<Term, MakeFault>
        requires { IsOn self.now.head inner }
        ensures ok { IfOk result (λ t. t ≡ spine_on self.now (below_term inner)) }
        ensures too_deep { IfErr result (λ e. e ≡ TooDeep → IsBeyond (spine_on self.now (below_term inner))) }
    {
        let head = self.head.read(alloc, inner)?;
        applied(alloc, head, &self.args)
    }
}
