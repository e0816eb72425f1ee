//! Substitution of a term for a variable.
ghost use Rattle.std.specs.Prelude.{◌≡◌, ◌<◌, ◌^◌, IfOk, IfErr, length, map};
ghost use Rattle.trees.specs.Tree.{terms_of};
ghost use Rattle.trees.specs.Substitution.{walk, subst_var, subst};
ghost use Rattle.trees.specs.Parallel.{overs, substitute, put};
ghost use Rattle.trees.specs.Measures.{loose, IsWithin, IsBeyond, AreBeyond};
ghost use Rattle.pc_terms.specs.Lists.{arms_of, AreBeyondDefs, walk_branch, walk_def, walk_match};
ghost use Rattle.pc_terms.specs.View.{tree_of};
ghost use Rattle.pc_terms.specs.Syntax.{HasIndex};
ghost use Rattle.pc_terms.specs.Copies.{AreCopies};
ghost use Rattle.pc_terms.specs.declared.term.Node.TheVariants.{Case};
ghost use Rattle.pc_terms.specs.declared.term.MakeFault.TheVariants.{TooDeep};

use crate::copies::{Copies, Walk, Way};
use crate::term::{Branch, Branches, Def, Defs, MakeFault, Match, Node, Term, Terms};
use std::alloc::Global;

impl Term {
    /// The term with `a`, lifted by `k`, in the place of variable `k`, and the variables above `k` lowered by one.
    ///
    /// Subterms that are closed below the cutoff are shared, and so is `a` where it is lifted by 0; what else the term shares is copied once
    /// for each cutoff, and `a` once for each number of variables that it is lifted by. `TooDeep` where the term asked for has a depth over
    /// 2,048 or a variable number over 4,294,967,295.
    #[tactic(auto, using(trees::proofs::Cutoffs::cutoff_laws))]
    pub fn subst(&self, alloc: Global, k: u32, a: &Term) -> Result<Term, MakeFault>
        ensures ok { IfOk result (λ t. t ≡ subst k a.now self.now) }
        ensures parallel { IfOk result (λ t. t ≡ substitute (overs k (put a.now)) self.now) }
        ensures within { IfOk result IsWithin }
        ensures too_deep { IfErr result (λ e. e ≡ TooDeep → IsBeyond (subst k a.now self.now)) }
    {
        self.subst_anew(alloc, u64::from(k), a)
    }

    // The same, with a table of copies of its own, in which the term itself need not be kept.
    #[tactic(auto, using(trees::proofs::Closed::closed_laws, std::proofs::lemmas::Grind::common_steps))]
    fn subst_anew(&self, alloc: Global, k: u64, x: &Term) -> Result<Term, MakeFault>
        ensures ok { IfOk result (λ t. t ≡ walk (subst_var x.now) k self.now) }
        ensures within { IfOk result IsWithin }
        ensures too_deep { IfErr result (λ e. e ≡ TooDeep → IsBeyond (walk (subst_var x.now) k self.now)) }
    {
        if self.loose() <= k {
            return self.share();
        }
        let mut copies = Copies::new(alloc, Walk::Subst);
        self.view().subst_above(alloc, k, x, &mut copies)
    }
}

impl Terms {
    #[cycle(subst)]
    #[tactic(auto, using(crate::proofs::Parts::part_laws, trees::proofs::Closed::closed_laws, std::proofs::lemmas::Grind::common_steps))]
    fn subst_above(
        &self,
        alloc: Global,
        k: u64,
        x: &Term,
        copies: &mut Copies,
    ) -> Result<Terms, MakeFault>
        requires small { k < 2 ^ 32 }
        requires copies { AreCopies (subst_var x.now) copies.old.items.items }
        ensures ok { IfOk result (λ out. out ≡ map (walk (subst_var x.now) k) self.now) }
        ensures too_deep { IfErr result (λ e. e ≡ TooDeep → AreBeyond (terms_of (map (walk (subst_var x.now) k) self.now))) }
        ensures copies { AreCopies (subst_var x.now) copies.new.items.items }
    {
        let mut items = Vec::new(alloc);
        for t in &self.items {
            let t = t.subst_above(alloc, k, x, copies)?;
            if items.push(t).is_err() {
                return Err(MakeFault::Memory);
            }
        }
        Ok(Terms { items })
    }
}

impl Branches {
    #[cycle(subst)]
    #[tactic(auto, using(crate::proofs::Parts::part_laws, trees::proofs::Closed::closed_laws, std::proofs::lemmas::Grind::common_steps))]
    fn subst_above(
        &self,
        alloc: Global,
        k: u64,
        x: &Term,
        copies: &mut Copies,
    ) -> Result<Branches, MakeFault>
        requires small { k < 2 ^ 32 }
        requires copies { AreCopies (subst_var x.now) copies.old.items.items }
        ensures ok { IfOk result (λ out. out ≡ map (walk_branch (subst_var x.now) k) self.now) }
        ensures too_deep { IfErr result (λ e. e ≡ TooDeep → AreBeyond (arms_of (map (walk_branch (subst_var x.now) k) self.now))) }
        ensures copies { AreCopies (subst_var x.now) copies.new.items.items }
    {
        let mut items = Vec::new(alloc);
        for b in &self.items {
            let binders = b.binders;
            let body = b
                .body
                .subst_above(alloc, k + u64::from(binders), x, copies)?;
            if items.push(Branch { binders, body }).is_err() {
                return Err(MakeFault::Memory);
            }
        }
        Ok(Branches { items })
    }
}

impl Defs {
    #[cycle(subst)]
    #[tactic(auto, using(crate::proofs::Parts::part_laws, trees::proofs::Closed::closed_laws, std::proofs::lemmas::Grind::common_steps))]
    fn subst_above(
        &self,
        alloc: Global,
        k: u64,
        x: &Term,
        copies: &mut Copies,
    ) -> Result<Defs, MakeFault>
        requires small { k < 2 ^ 32 }
        requires copies { AreCopies (subst_var x.now) copies.old.items.items }
        ensures ok { IfOk result (λ out. out ≡ map (walk_def (subst_var x.now) k (length self.now)) self.now) }
        ensures too_deep { IfErr result (λ e. e ≡ TooDeep → AreBeyondDefs (map (walk_def (subst_var x.now) k (length self.now)) self.now)) }
        ensures copies { AreCopies (subst_var x.now) copies.new.items.items }
    {
        let inner = k + self.items.len() as u64;
        let mut items = Vec::new(alloc);
        for d in &self.items {
            let rarg = d.rarg;
            let ty = d.ty.subst_above(alloc, k, x, copies)?;
            let body = d.body.subst_above(alloc, inner, x, copies)?;
            if items.push(Def { ty, body, rarg }).is_err() {
                return Err(MakeFault::Memory);
            }
        }
        Ok(Defs { items })
    }
}

impl Match {
    #[cycle(subst)]
    #[tactic(auto, using(crate::proofs::Parts::part_laws, trees::proofs::Closed::closed_laws, std::proofs::lemmas::Grind::common_steps))]
    fn subst_above(
        &self,
        alloc: Global,
        k: u64,
        x: &Term,
        copies: &mut Copies,
    ) -> Result<Match, MakeFault>
        requires small { k < 2 ^ 32 }
        requires copies { AreCopies (subst_var x.now) copies.old.items.items }
        ensures ok { IfOk result (λ m. m ≡ walk_match (subst_var x.now) k self.now) }
        ensures too_deep { IfErr result (λ e. e ≡ TooDeep → IsBeyond (tree_of (Case (walk_match (subst_var x.now) k self.now)))) }
        ensures copies { AreCopies (subst_var x.now) copies.new.items.items }
    {
        let params = self.params.subst_above(alloc, k, x, copies)?;
        let ret = self
            .ret
            .subst_above(alloc, k + u64::from(self.binders), x, copies)?;
        let scrut = self.scrut.subst_above(alloc, k, x, copies)?;
        let branches = self.branches.subst_above(alloc, k, x, copies)?;
        Ok(Match {
            family: self.family,
            params,
            binders: self.binders,
            ret,
            scrut,
            branches,
        })
    }
}

impl Node {
    #[cycle(subst)]
    #[tactic(auto, using(crate::proofs::Parts::part_laws, trees::proofs::Closed::closed_laws, std::proofs::lemmas::Grind::common_steps))]
    fn subst_above(
        &self,
        alloc: Global,
        k: u64,
        x: &Term,
        copies: &mut Copies,
    ) -> Result<Term, MakeFault>
        requires open { k < loose (tree_of self.now) }
        requires small { k < 2 ^ 32 }
        requires indexed { HasIndex (tree_of self.now) }
        requires copies { AreCopies (subst_var x.now) copies.old.items.items }
        ensures ok { IfOk result (λ t. t ≡ walk (subst_var x.now) k (tree_of self.now)) }
        ensures within { IfOk result IsWithin }
        ensures too_deep { IfErr result (λ e. e ≡ TooDeep → IsBeyond (walk (subst_var x.now) k (tree_of self.now))) }
        ensures copies { AreCopies (subst_var x.now) copies.new.items.items }
    {
        match self {
            Node::Rel(i) => {
                if u64::from(*i) == k {
                    x.lift_once(alloc, *i, copies)
                } else {
                    Term::make(alloc, Node::Rel(*i - 1))
                }
            }
            Node::Prod(domain, codomain) => {
                let domain = domain.subst_above(alloc, k, x, copies)?;
                let codomain = codomain.subst_above(alloc, k + 1, x, copies)?;
                Term::make(alloc, Node::Prod(domain, codomain))
            }
            Node::Lambda(domain, body) => {
                let domain = domain.subst_above(alloc, k, x, copies)?;
                let body = body.subst_above(alloc, k + 1, x, copies)?;
                Term::make(alloc, Node::Lambda(domain, body))
            }
            Node::LetIn(value, ty, body) => {
                let value = value.subst_above(alloc, k, x, copies)?;
                let ty = ty.subst_above(alloc, k, x, copies)?;
                let body = body.subst_above(alloc, k + 1, x, copies)?;
                Term::make(alloc, Node::LetIn(value, ty, body))
            }
            Node::App(function, argument) => {
                let function = function.subst_above(alloc, k, x, copies)?;
                let argument = argument.subst_above(alloc, k, x, copies)?;
                Term::make(alloc, Node::App(function, argument))
            }
            Node::Case(m) => {
                let m = m.get().subst_above(alloc, k, x, copies)?;
                Term::of_match(alloc, m)
            }
            Node::Fix(ds, i) => {
                let ds = ds.subst_above(alloc, k, x, copies)?;
                Term::make(alloc, Node::Fix(ds, *i))
            }
            Node::Sort(_) | Node::Const(_) | Node::Ind(_) | Node::Construct(_, _) => unreachable!(),
        }
    }
}

impl Term {
    #[cycle(subst)]
    #[tactic(auto, using(crate::proofs::Parts::part_laws, trees::proofs::Closed::closed_laws, std::proofs::lemmas::Grind::common_steps))]
    fn subst_above(
        &self,
        alloc: Global,
        k: u64,
        x: &Term,
        copies: &mut Copies,
    ) -> Result<Term, MakeFault>
        requires copies { AreCopies (subst_var x.now) copies.old.items.items }
        ensures ok { IfOk result (λ t. t ≡ walk (subst_var x.now) k self.now) }
        ensures within { IfOk result IsWithin }
        ensures too_deep { IfErr result (λ e. e ≡ TooDeep → IsBeyond (walk (subst_var x.now) k self.now)) }
        ensures copies { AreCopies (subst_var x.now) copies.new.items.items }
    {
        if self.loose() <= k {
            return self.share();
        }
        if !self.is_shared() {
            return self.view().subst_above(alloc, k, x, copies);
        }
        if let Some(copy) = copies.find(self, Way::Walked(k)) {
            return copy.share();
        }
        let copy = self.view().subst_above(alloc, k, x, copies)?;
        copies.keep(self, Way::Walked(k), &copy)?;
        Ok(copy)
    }
}
