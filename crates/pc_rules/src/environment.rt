//! Environments.
ghost use Rattle.std.specs.Prelude.{◌≡◌, ◌↔◌, [], ◌∷◌, slice_get, IsTrue, IfOk, IfErr, MatchOption, Some, None};
ghost use Rattle.universe_levels.specs.Consistency.{IsConsistent, AreOver, IsOver, IsSortOver};
ghost use Rattle.pc_rules.specs.DirectedComparison.{sort_below};
ghost use Rattle.pc_rules.specs.Entailment.{test_of};
ghost use Rattle.pc_rules.specs.declared.stop.Stop.TheVariants.{Memory};
ghost use Rattle.calculus_rules.specs.declared.declaration.Kept.TheVariants.{Heads};
ghost use Rattle.calculus_rules.specs.Environment.{name_of, SortEntails};
ghost use Rattle.calculus_rules.specs.Lookups.{kept_at, known_block, whole_block};
ghost use Rattle.pc_rules.specs.Lookup.{IsNew, AreHeads, HasNoConstructors, family_kept, with_kept};

use crate::declarations::{Declarations, Walk};
use crate::stop::Stop;
use calculus_rules::declaration::{Block, Family, Kept};
use pc_terms::leaf::{FamilyId, Name};
use std::alloc::Global;
use std::marker::Model;
use universe_graph::graph::Graph;
use universe_levels::sort::Sort;

/// A global environment: the declared levels with their constraints, and the declarations. Contracts see it as the number of levels, the
/// constraints, and the declarations, the newest first.
///
/// An environment that is made of this one shares its declarations.
#[derive(Drop)]
pub struct Env {
    alloc: Global,
    graph: Graph,
    declarations: Declarations,
}

impl Model for Env {
    ghost use Rattle.calculus_rules.specs.Environment.{Env};
    ghost use Rattle.std.specs.Coded.{codes};
    ghost use Rattle.pc_terms.specs.Code.{coded_term};

    ghost Value = { Env };

    ghost coded = { Prim.hlevel (codes, coded_term) };

    ghost view = { λ e. record { levels = e.graph.levels; constraints = e.graph.constraints; declarations = e.declarations } };

    ghost use Rattle.universe_levels.specs.Consistency.{IsConsistent};

    ghost invariant = { λ e. IsConsistent e.graph.levels e.graph.constraints };
}

impl Env {
    /// The environment of a graph of constraints, without declarations; declarations are kept by memory of `alloc`. Takes no memory.
    pub fn new(alloc: Global, graph: Graph) -> Env
        ensures levels { result.levels ≡ graph.levels }
        ensures constraints { result.constraints ≡ graph.constraints }
        ensures empty { result.declarations ≡ [] }
    {
        // A graph is there only where its constraints are consistent.
        let _ = graph.constraints();
        Env {
            alloc,
            graph,
            declarations: Declarations::new(),
        }
    }

    /// The graph of constraints on levels. Takes no memory.
    pub fn graph(&self) -> &Graph
        ensures levels { result.now.levels ≡ self.now.levels }
        ensures constraints { result.now.constraints ≡ self.now.constraints }
        ensures consistent { IsConsistent self.now.levels self.now.constraints }
    {
        &self.graph
    }

    /// Whether a sort is at most another under every valuation that meets the constraints; `Prop` is at most every sort. The constraints
    /// and both sorts speak of declared levels alone. Takes no memory.
    pub fn entails(&self, low: &Sort, high: &Sort) -> bool
        requires over { AreOver self.now.levels self.now.constraints }
        requires low_over { IsSortOver self.now.levels low.now }
        requires high_over { IsSortOver self.now.levels high.now }
        ensures test { result ≡ sort_below (test_of self.now) low.now high.now }
        ensures entailed { IsTrue result ↔ SortEntails self.now low.now high.now }
    {
        match (low, high) {
            (Sort::Prop, _) => true,
            (Sort::Of(_), Sort::Prop) => false,
            (Sort::Of(u), Sort::Of(w)) => {
                // A universe has a part.
                let _ = w.parts();
                self.graph.entails(u, w)
            }
        }
    }

    /// What is kept by a name: the newest declaration of it; none exactly where nothing is. Takes no memory.
    pub fn find(&self, n: Name) -> Option<&Kept>
        ensures kept { MatchOption result (kept_at self.now.declarations n ≡ None) (λ k. kept_at self.now.declarations n ≡ Some k.now) }
    {
        self.declarations.find(n)
    }

    /// The declaration at a place, where the newest is at 0; none exactly where there are not so many. Takes no memory.
    pub fn declaration(&self, place: u32) -> Option<&Kept>
        ensures at { MatchOption result (slice_get self.now.declarations place ≡ None) (λ k. slice_get self.now.declarations place ≡ Some k.now) }
    {
        self.declarations.get(place)
    }

    /// A walk over the declarations, which begins at the newest. Takes no memory.
    pub fn walk(&self) -> Walk<'_>
        ensures whole { result ≡ self.now.declarations }
    {
        self.declarations.walk()
    }

    /// The block that is kept by a name, whole or as heads; none exactly where there is none. Takes no memory.
    pub fn block(&self, n: Name) -> Option<&Block>
        ensures known { MatchOption result (known_block (kept_at self.now.declarations n) ≡ None) (λ b. known_block (kept_at self.now.declarations n) ≡ Some b.now) }
    {
        match self.find(n) {
            Some(Kept::Block(block)) => Some(block),
            Some(Kept::Heads(block)) => Some(block),
            _ => None,
        }
    }

    /// The whole block that is kept by a name; none exactly where there is none, as where its heads are kept. Takes no memory.
    pub fn whole_block(&self, n: Name) -> Option<&Block>
        ensures whole { MatchOption result (whole_block (kept_at self.now.declarations n) ≡ None) (λ b. whole_block (kept_at self.now.declarations n) ≡ Some b.now) }
    {
        match self.find(n) {
            Some(Kept::Block(whole)) => Some(whole),
            _ => None,
        }
    }

    /// A family of a block that is kept, whole or as heads; none exactly where no block is kept by that name, or it has no family of that
    /// number. Takes no memory.
    pub fn family(&self, id: FamilyId) -> Option<&Family>
        ensures kept { MatchOption result (family_kept self.now id ≡ None) (λ f. family_kept self.now id ≡ Some f.now) }
    {
        match self.block(id.block) {
            Some(block) => block.families.as_slice().get(id.family as usize),
            None => None,
        }
    }

    /// Keeps a declaration as the newest. Its name is new, and it is no heads. Only `Memory`, and the environment is as before then.
    pub fn keep(&mut self, k: Kept) -> Result<(), Stop>
        requires new { IsNew self.old (name_of k) }
        requires no_heads { AreHeads k → ⊥ }
        ensures kept { IfOk result (λ _. self.new ≡ with_kept self.old k) }
        ensures only_memory { IfErr result (λ s. s ≡ Memory) }
        ensures as_before { IfErr result (λ _. self.new ≡ self.old) }
    {
        let declarations = self.declarations.with(self.alloc, k)?;
        self.declarations = declarations;
        Ok(())
    }

    /// This environment with a block that is being declared, whose families are known by their types alone. The name is new, and no family
    /// has a constructor. Only `Memory`.
    pub fn heads(&self, alloc: Global, block: Block) -> Result<Env, Stop>
        requires new { IsNew self.now block.name }
        requires no_constructors { HasNoConstructors block }
        ensures kept { IfOk result (λ e. e ≡ with_kept self.now (Heads block)) }
        ensures only_memory { IfErr result (λ s. s ≡ Memory) }
    {
        let Ok(graph) = self.graph.share() else {
            return Err(Stop::Memory);
        };
        let declarations = self.declarations.with(alloc, Kept::Heads(block))?;
        Ok(Env {
            alloc,
            graph,
            declarations,
        })
    }
}
