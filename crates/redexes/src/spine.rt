//! The arguments of applications.
ghost use Rattle.std.specs.Prelude.{◌≡◌, [], ◌∷◌, IfOk, IfErr, MatchOption, length, drop};
ghost use Rattle.trees.specs.Measures.{IsBeyond};
ghost use Rattle.pc_terms.specs.Syntax.{head, args, apply};
ghost use Rattle.pc_terms.specs.declared.term.MakeFault.TheVariants.{TooDeep, Memory};

use pc_terms::term::{MakeFault, Node, Term, Terms};
use smallvec::SmallVec;
use std::alloc::Global;
use std::marker::Model;

/// The arguments of a term. Contracts see them as their list, the first first. Up to four lie in the value itself.
#[derive(Drop)]
pub struct Spine {
    // The last first, so that the first is the next to be taken.
    items: SmallVec<Option<Term>, 4>,
}

impl Model for Spine {
    ghost use Rattle.std.specs.Prelude.{◌≡◌, List, length};
    ghost use Rattle.std.specs.Coded.{coded_list};
    ghost use Rattle.pc_terms.specs.Syntax.{Term};
    ghost use Rattle.pc_terms.specs.Code.{coded_term};
    ghost use Rattle.redexes.specs.Spines.{stacked};

    ghost Value = { List Term };

    ghost coded = { coded_list coded_term };

    ghost view = { λ s. stacked s.items.items };

    ghost invariant = { λ s. length (stacked s.items.items) ≡ length s.items.items };
}

impl Spine {
    /// No arguments.
    fn new(alloc: Global) -> Spine
        ensures empty { result ≡ [] }
    {
        Spine {
            items: SmallVec::new(alloc),
        }
    }

    /// Puts an argument before the others.
    fn put(&mut self, argument: Term) -> Result<(), MakeFault>
        ensures ok { IfOk result (λ _. self.new ≡ argument ∷ self.old) }
        ensures only_memory { IfErr result (λ e. e ≡ Memory) }
    {
        if self.items.push(Some(argument)).is_err() {
            return Err(MakeFault::Memory);
        }
        Ok(())
    }

    /// Takes the first argument.
    fn take(&mut self) -> Option<Term>
        ensures first { MatchOption result (self.old ≡ []) (λ t. self.old ≡ t ∷ self.new) }
        ensures rest { self.new ≡ drop 1 self.old }
    {
        let Some(argument) = self.items.pop() else {
            return None;
        };
        argument
    }

    /// The head of a term, which is no application, and the arguments; none and the term itself where it is no application.
    pub fn of(alloc: Global, t: &Term) -> Result<(Term, Spine), MakeFault>
        ensures head { IfOk result (λ p. p.0 ≡ head t.now) }
        ensures args { IfOk result (λ p. p.1 ≡ args t.now) }
        ensures only_memory { IfErr result (λ e. e ≡ Memory) }
    {
        let mut spine = Spine::new(alloc);
        let mut function = t;
        'inward: while let Node::App(next, argument) = function.view() {
            let argument = argument.share()?;
            spine.put(argument)?;
            function = next;
        }
        let head = function.share()?;
        Ok((head, spine))
    }

    /// The number of arguments.
    pub fn len(&self) -> usize
        ensures is { result ≡ length self.now }
    {
        self.items.len()
    }

    /// The arguments behind the first `count`.
    pub fn behind(self, count: usize) -> Spine
        ensures is { result ≡ drop count self }
    {
        let mut spine = self;
        for _ in 0..count {
            spine.take();
        }
        spine
    }

    /// The arguments as a list of terms.
    pub fn into_terms(self, alloc: Global) -> Result<Terms, MakeFault>
        ensures ok { IfOk result (λ ts. ts ≡ self) }
        ensures only_memory { IfErr result (λ e. e ≡ Memory) }
    {
        let mut spine = self;
        let mut terms = Terms::new(alloc);
        'next: while let Some(argument) = spine.take() {
            terms.push(argument)?;
        }
        Ok(terms)
    }

    /// A term applied to the arguments. `TooDeep` only where that is beyond the limits of terms.
    pub fn applied(self, alloc: Global, head: Term) -> Result<Term, MakeFault>
        ensures ok { IfOk result (λ t. t ≡ apply head self) }
        ensures too_deep { IfErr result (λ e. e ≡ TooDeep → IsBeyond (apply head self)) }
    {
        let mut spine = self;
        let mut term = head;
        'next: while let Some(argument) = spine.take() {
            term = Term::make(alloc, Node::App(term, argument))?;
        }
        Ok(term)
    }
}
