//! Lifting: adding to the variables of a term.
ghost use Rattle.std.specs.Prelude.{◌≡◌, ◌<◌, ◌^◌, ℕ, IfOk, IfErr, length, map};
ghost use Rattle.trees.specs.Tree.{terms_of};
ghost use Rattle.trees.specs.Substitution.{walk, lift_var, lift};
ghost use Rattle.trees.specs.Parallel.{shift};
ghost use Rattle.trees.specs.Measures.{loose, IsWithin, IsBeyond, AreBeyond};
ghost use Rattle.pc_terms.specs.Lists.{arms_of, AreBeyondDefs, walk_branch, walk_def, walk_match};
ghost use Rattle.pc_terms.specs.View.{tree_of};
ghost use Rattle.pc_terms.specs.Syntax.{Term, HasIndex};
ghost use Rattle.pc_terms.specs.Copies.{AreCopies};
ghost use Rattle.pc_terms.specs.declared.term.Node.TheVariants.{Case};
ghost use Rattle.pc_terms.specs.declared.term.MakeFault.TheVariants.{TooDeep};

use crate::copies::{Copies, Walk, Way};
use crate::term::{Branch, Branches, Def, Defs, MakeFault, Match, Node, Term, Terms};
use std::alloc::Global;

impl Term {
    /// The term with `k` added to each variable that is `n` or more.
    ///
    /// Subterms that are closed below the cutoff are shared, and the whole term where `k` is 0; what else the term shares is copied once for
    /// each cutoff. `TooDeep` where a variable number passes 4,294,967,295.
    #[tactic(auto, using(trees::proofs::Cutoffs::cutoff_laws))]
    pub fn lift(&self, alloc: Global, k: u32, n: u32) -> Result<Term, MakeFault>
        ensures ok { IfOk result (λ t. t ≡ lift k n self.now) }
        ensures parallel { IfOk result (λ t. t ≡ shift k n self.now) }
        ensures within { IfOk result IsWithin }
        ensures too_deep { IfErr result (λ e. e ≡ TooDeep → IsBeyond (lift k n self.now)) }
    {
        self.lift_anew(alloc, k, u64::from(n))
    }

    // The same, with a table of copies of its own, in which the term itself need not be kept.
    #[tactic(auto, using(trees::proofs::Closed::closed_laws, crate::proofs::Unlifted::unlifted_laws, std::proofs::lemmas::Grind::common_steps))]
    fn lift_anew(&self, alloc: Global, k: u32, n: u64) -> Result<Term, MakeFault>
        ensures ok { IfOk result (λ t. t ≡ walk (lift_var k) n self.now) }
        ensures within { IfOk result IsWithin }
        ensures too_deep { IfErr result (λ e. e ≡ TooDeep → IsBeyond (walk (lift_var k) n self.now)) }
    {
        if k == 0 || self.loose() <= n {
            return self.share();
        }
        let mut copies = Copies::new(alloc, Walk::Lift);
        self.view().lift_above(alloc, k, n, &mut copies)
    }

    // The term lifted by `k` at cutoff 0, which is made once for all places of a substitution with the same `k`.
    #[tactic(auto, using(trees::proofs::Closed::closed_laws, crate::proofs::Unlifted::unlifted_laws))]
    pub(crate) fn lift_once(
        &self,
        alloc: Global,
        k: u32,
        copies: &mut Copies,
    ) -> Result<Term, MakeFault>
        requires kept { (f : ℕ → ℕ → Term) × AreCopies f copies.old.items.items }
        ensures ok { IfOk result (λ t. t ≡ lift k 0 self.now) }
        ensures within { IfOk result IsWithin }
        ensures too_deep { IfErr result (λ e. e ≡ TooDeep → IsBeyond (lift k 0 self.now)) }
        ensures copies { (f : ℕ → ℕ → Term) → AreCopies f copies.old.items.items → AreCopies f copies.new.items.items }
    {
        if k == 0 || self.loose() == 0 || self.depth() == 1 {
            return self.lift(alloc, k, 0);
        }
        if let Some(copy) = copies.find(self, Way::Lifted(k)) {
            return copy.share();
        }
        let copy = self.lift(alloc, k, 0)?;
        copies.keep(self, Way::Lifted(k), &copy)?;
        Ok(copy)
    }
}

impl Terms {
    #[cycle(lift)]
    #[tactic(auto, using(crate::proofs::Parts::part_laws, trees::proofs::Closed::closed_laws, std::proofs::lemmas::Grind::common_steps))]
    fn lift_above(
        &self,
        alloc: Global,
        k: u32,
        n: u64,
        copies: &mut Copies,
    ) -> Result<Terms, MakeFault>
        requires small { n < 2 ^ 32 }
        requires copies { AreCopies (lift_var k) copies.old.items.items }
        ensures ok { IfOk result (λ out. out ≡ map (walk (lift_var k) n) self.now) }
        ensures too_deep { IfErr result (λ e. e ≡ TooDeep → AreBeyond (terms_of (map (walk (lift_var k) n) self.now))) }
        ensures copies { AreCopies (lift_var k) copies.new.items.items }
    {
        let mut items = Vec::new(alloc);
        for t in &self.items {
            let t = t.lift_above(alloc, k, n, copies)?;
            if items.push(t).is_err() {
                return Err(MakeFault::Memory);
            }
        }
        Ok(Terms { items })
    }
}

impl Branches {
    #[cycle(lift)]
    #[tactic(auto, using(crate::proofs::Parts::part_laws, trees::proofs::Closed::closed_laws, std::proofs::lemmas::Grind::common_steps))]
    fn lift_above(
        &self,
        alloc: Global,
        k: u32,
        n: u64,
        copies: &mut Copies,
    ) -> Result<Branches, MakeFault>
        requires small { n < 2 ^ 32 }
        requires copies { AreCopies (lift_var k) copies.old.items.items }
        ensures ok { IfOk result (λ out. out ≡ map (walk_branch (lift_var k) n) self.now) }
        ensures too_deep { IfErr result (λ e. e ≡ TooDeep → AreBeyond (arms_of (map (walk_branch (lift_var k) n) self.now))) }
        ensures copies { AreCopies (lift_var k) copies.new.items.items }
    {
        let mut items = Vec::new(alloc);
        for b in &self.items {
            let binders = b.binders;
            let body = b.body.lift_above(alloc, k, n + u64::from(binders), copies)?;
            if items.push(Branch { binders, body }).is_err() {
                return Err(MakeFault::Memory);
            }
        }
        Ok(Branches { items })
    }
}

impl Defs {
    #[cycle(lift)]
    #[tactic(auto, using(crate::proofs::Parts::part_laws, trees::proofs::Closed::closed_laws, std::proofs::lemmas::Grind::common_steps))]
    fn lift_above(
        &self,
        alloc: Global,
        k: u32,
        n: u64,
        copies: &mut Copies,
    ) -> Result<Defs, MakeFault>
        requires small { n < 2 ^ 32 }
        requires copies { AreCopies (lift_var k) copies.old.items.items }
        ensures ok { IfOk result (λ out. out ≡ map (walk_def (lift_var k) n (length self.now)) self.now) }
        ensures too_deep { IfErr result (λ e. e ≡ TooDeep → AreBeyondDefs (map (walk_def (lift_var k) n (length self.now)) self.now)) }
        ensures copies { AreCopies (lift_var k) copies.new.items.items }
    {
        let inner = n + self.items.len() as u64;
        let mut items = Vec::new(alloc);
        for d in &self.items {
            let rarg = d.rarg;
            let ty = d.ty.lift_above(alloc, k, n, copies)?;
            let body = d.body.lift_above(alloc, k, inner, copies)?;
            if items.push(Def { ty, body, rarg }).is_err() {
                return Err(MakeFault::Memory);
            }
        }
        Ok(Defs { items })
    }
}

impl Match {
    #[cycle(lift)]
    #[tactic(auto, using(crate::proofs::Parts::part_laws, trees::proofs::Closed::closed_laws, std::proofs::lemmas::Grind::common_steps))]
    fn lift_above(
        &self,
        alloc: Global,
        k: u32,
        n: u64,
        copies: &mut Copies,
    ) -> Result<Match, MakeFault>
        requires small { n < 2 ^ 32 }
        requires copies { AreCopies (lift_var k) copies.old.items.items }
        ensures ok { IfOk result (λ m. m ≡ walk_match (lift_var k) n self.now) }
        ensures too_deep { IfErr result (λ e. e ≡ TooDeep → IsBeyond (tree_of (Case (walk_match (lift_var k) n self.now)))) }
        ensures copies { AreCopies (lift_var k) copies.new.items.items }
    {
        let params = self.params.lift_above(alloc, k, n, copies)?;
        let ret = self
            .ret
            .lift_above(alloc, k, n + u64::from(self.binders), copies)?;
        let scrut = self.scrut.lift_above(alloc, k, n, copies)?;
        let branches = self.branches.lift_above(alloc, k, n, copies)?;
        Ok(Match {
            family: self.family,
            params,
            binders: self.binders,
            ret,
            scrut,
            branches,
        })
    }
}

impl Node {
    #[cycle(lift)]
    #[tactic(auto, using(crate::proofs::Parts::part_laws, crate::proofs::Unlifted::unlifted_laws, trees::proofs::Closed::closed_laws, std::proofs::lemmas::Grind::common_steps))]
    fn lift_above(
        &self,
        alloc: Global,
        k: u32,
        n: u64,
        copies: &mut Copies,
    ) -> Result<Term, MakeFault>
        requires open { n < loose (tree_of self.now) }
        requires small { n < 2 ^ 32 }
        requires indexed { HasIndex (tree_of self.now) }
        requires copies { AreCopies (lift_var k) copies.old.items.items }
        ensures ok { IfOk result (λ t. t ≡ walk (lift_var k) n (tree_of self.now)) }
        ensures within { IfOk result IsWithin }
        ensures too_deep { IfErr result (λ e. e ≡ TooDeep → IsBeyond (walk (lift_var k) n (tree_of self.now))) }
        ensures copies { AreCopies (lift_var k) copies.new.items.items }
    {
        match self {
            Node::Rel(i) => match i.checked_add(k) {
                Some(j) => Term::make(alloc, Node::Rel(j)),
                None => Err(MakeFault::TooDeep),
            },
            Node::Prod(domain, codomain) => {
                let domain = domain.lift_above(alloc, k, n, copies)?;
                let codomain = codomain.lift_above(alloc, k, n + 1, copies)?;
                Term::make(alloc, Node::Prod(domain, codomain))
            }
            Node::Lambda(domain, body) => {
                let domain = domain.lift_above(alloc, k, n, copies)?;
                let body = body.lift_above(alloc, k, n + 1, copies)?;
                Term::make(alloc, Node::Lambda(domain, body))
            }
            Node::LetIn(value, ty, body) => {
                let value = value.lift_above(alloc, k, n, copies)?;
                let ty = ty.lift_above(alloc, k, n, copies)?;
                let body = body.lift_above(alloc, k, n + 1, copies)?;
                Term::make(alloc, Node::LetIn(value, ty, body))
            }
            Node::App(function, argument) => {
                let function = function.lift_above(alloc, k, n, copies)?;
                let argument = argument.lift_above(alloc, k, n, copies)?;
                Term::make(alloc, Node::App(function, argument))
            }
            Node::Case(m) => {
                let m = m.get().lift_above(alloc, k, n, copies)?;
                Term::of_match(alloc, m)
            }
            Node::Fix(ds, i) => {
                let ds = ds.lift_above(alloc, k, n, copies)?;
                Term::make(alloc, Node::Fix(ds, *i))
            }
            Node::Sort(_) | Node::Const(_) | Node::Ind(_) | Node::Construct(_, _) => unreachable!(),
        }
    }
}

impl Term {
    #[cycle(lift)]
    #[tactic(auto, using(crate::proofs::Parts::part_laws, crate::proofs::Unlifted::unlifted_laws, trees::proofs::Closed::closed_laws, std::proofs::lemmas::Grind::common_steps))]
    fn lift_above(
        &self,
        alloc: Global,
        k: u32,
        n: u64,
        copies: &mut Copies,
    ) -> Result<Term, MakeFault>
        requires copies { AreCopies (lift_var k) copies.old.items.items }
        ensures ok { IfOk result (λ t. t ≡ walk (lift_var k) n self.now) }
        ensures within { IfOk result IsWithin }
        ensures too_deep { IfErr result (λ e. e ≡ TooDeep → IsBeyond (walk (lift_var k) n self.now)) }
        ensures copies { AreCopies (lift_var k) copies.new.items.items }
    {
        if k == 0 || self.loose() <= n {
            return self.share();
        }
        if !self.is_shared() {
            return self.view().lift_above(alloc, k, n, copies);
        }
        if let Some(copy) = copies.find(self, Way::Walked(n)) {
            return copy.share();
        }
        let copy = self.view().lift_above(alloc, k, n, copies)?;
        copies.keep(self, Way::Walked(n), &copy)?;
        Ok(copy)
    }
}
