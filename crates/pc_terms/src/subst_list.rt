//! Substitution of a list of terms for as many variables, all at once.
ghost use Rattle.std.specs.Prelude.{◌≡◌, ◌<◌, ◌^◌, IfOk, IfErr, length, map};
ghost use Rattle.trees.specs.Tree.{terms_of, Rel as variable};
ghost use Rattle.trees.specs.Substitution.{walk, subst_list_var, subst_list};
ghost use Rattle.trees.specs.Parallel.{overs, substitute, put_all};
ghost use Rattle.trees.specs.Measures.{loose, IsWithin, IsBeyond, AreBeyond};
ghost use Rattle.pc_terms.specs.Lists.{arms_of, AreBeyondDefs, walk_branch, walk_def, walk_match};
ghost use Rattle.pc_terms.specs.View.{tree_of};
ghost use Rattle.pc_terms.specs.Syntax.{HasIndex};
ghost use Rattle.pc_terms.specs.Copies.{AreCopies};
ghost use Rattle.pc_terms.specs.declared.term.Node.TheVariants.{Case};
ghost use Rattle.pc_terms.specs.declared.term.MakeFault.TheVariants.{TooDeep};

use crate::copies::{Copies, Walk, Way};
use crate::term::{Branch, Branches, Def, Defs, MakeFault, Match, Node, Term, Terms};
use std::alloc::Global;

impl Term {
    /// The term with the items of `list` in the place of its innermost variables, all at once, the last item in the place of variable
    /// 0, and the variables above them lowered by as many.
    ///
    /// Closed subterms are shared, and so are items where they are lifted by 0; what else the term shares is copied once for each cutoff, and
    /// an item once for each number of variables that it is lifted by. `TooDeep` where the term asked for has a depth over 2,048 or a
    /// variable number over 4,294,967,295.
    #[tactic(auto, using(trees::proofs::Cutoffs::cutoff_laws))]
    pub fn subst_list(&self, alloc: Global, list: &Terms) -> Result<Term, MakeFault>
        ensures ok { IfOk result (λ t. t ≡ subst_list 0 list.now self.now) }
        ensures parallel { IfOk result (λ t. t ≡ substitute (put_all list.now variable) self.now) }
        ensures within { IfOk result IsWithin }
        ensures too_deep { IfErr result (λ e. e ≡ TooDeep → IsBeyond (subst_list 0 list.now self.now)) }
    {
        self.subst_list_anew(alloc, 0, list)
    }

    /// The same under `k` variables, as the entries of a telescope need it: the items of `list`, lifted by `k`, in the place of the
    /// variables from `k` on, the last item in the place of variable `k`.
    #[tactic(auto, using(trees::proofs::Cutoffs::cutoff_laws))]
    pub fn subst_list_at(&self, alloc: Global, k: u32, list: &Terms) -> Result<Term, MakeFault>
        ensures ok { IfOk result (λ t. t ≡ subst_list k list.now self.now) }
        ensures parallel { IfOk result (λ t. t ≡ substitute (overs k (put_all list.now variable)) self.now) }
        ensures within { IfOk result IsWithin }
        ensures too_deep { IfErr result (λ e. e ≡ TooDeep → IsBeyond (subst_list k list.now self.now)) }
    {
        self.subst_list_anew(alloc, u64::from(k), list)
    }

    // The same, with a table of copies of its own, in which the term itself need not be kept.
    #[tactic(auto, using(trees::proofs::Closed::closed_laws, std::proofs::lemmas::Grind::common_steps))]
    fn subst_list_anew(&self, alloc: Global, k: u64, xs: &Terms) -> Result<Term, MakeFault>
        ensures ok { IfOk result (λ t. t ≡ walk (subst_list_var xs.now) k self.now) }
        ensures within { IfOk result IsWithin }
        ensures too_deep { IfErr result (λ e. e ≡ TooDeep → IsBeyond (walk (subst_list_var xs.now) k self.now)) }
    {
        if self.loose() <= k {
            return self.share();
        }
        let mut copies = Copies::new(alloc, Walk::Subst);
        self.view().subst_list_above(alloc, k, xs, &mut copies)
    }
}

impl Terms {
    #[cycle(subst_list)]
    #[tactic(auto, using(crate::proofs::Parts::part_laws, trees::proofs::Closed::closed_laws, std::proofs::lemmas::Grind::common_steps))]
    fn subst_list_above(
        &self,
        alloc: Global,
        k: u64,
        xs: &Terms,
        copies: &mut Copies,
    ) -> Result<Terms, MakeFault>
        requires small { k < 2 ^ 32 }
        requires copies { AreCopies (subst_list_var xs.now) copies.old.items.items }
        ensures ok { IfOk result (λ out. out ≡ map (walk (subst_list_var xs.now) k) self.now) }
        ensures too_deep { IfErr result (λ e. e ≡ TooDeep → AreBeyond (terms_of (map (walk (subst_list_var xs.now) k) self.now))) }
        ensures copies { AreCopies (subst_list_var xs.now) copies.new.items.items }
    {
        let mut items = Vec::new(alloc);
        for t in &self.items {
            let t = t.subst_list_above(alloc, k, xs, copies)?;
            if items.push(t).is_err() {
                return Err(MakeFault::Memory);
            }
        }
        Ok(Terms { items })
    }
}

impl Branches {
    #[cycle(subst_list)]
    #[tactic(auto, using(crate::proofs::Parts::part_laws, trees::proofs::Closed::closed_laws, std::proofs::lemmas::Grind::common_steps))]
    fn subst_list_above(
        &self,
        alloc: Global,
        k: u64,
        xs: &Terms,
        copies: &mut Copies,
    ) -> Result<Branches, MakeFault>
        requires small { k < 2 ^ 32 }
        requires copies { AreCopies (subst_list_var xs.now) copies.old.items.items }
        ensures ok { IfOk result (λ out. out ≡ map (walk_branch (subst_list_var xs.now) k) self.now) }
        ensures too_deep { IfErr result (λ e. e ≡ TooDeep → AreBeyond (arms_of (map (walk_branch (subst_list_var xs.now) k) self.now))) }
        ensures copies { AreCopies (subst_list_var xs.now) copies.new.items.items }
    {
        let mut items = Vec::new(alloc);
        for b in &self.items {
            let binders = b.binders;
            let body = b
                .body
                .subst_list_above(alloc, k + u64::from(binders), xs, copies)?;
            if items.push(Branch { binders, body }).is_err() {
                return Err(MakeFault::Memory);
            }
        }
        Ok(Branches { items })
    }
}

impl Defs {
    #[cycle(subst_list)]
    #[tactic(auto, using(crate::proofs::Parts::part_laws, trees::proofs::Closed::closed_laws, std::proofs::lemmas::Grind::common_steps))]
    fn subst_list_above(
        &self,
        alloc: Global,
        k: u64,
        xs: &Terms,
        copies: &mut Copies,
    ) -> Result<Defs, MakeFault>
        requires small { k < 2 ^ 32 }
        requires copies { AreCopies (subst_list_var xs.now) copies.old.items.items }
        ensures ok { IfOk result (λ out. out ≡ map (walk_def (subst_list_var xs.now) k (length self.now)) self.now) }
        ensures too_deep { IfErr result (λ e. e ≡ TooDeep → AreBeyondDefs (map (walk_def (subst_list_var xs.now) k (length self.now)) self.now)) }
        ensures copies { AreCopies (subst_list_var xs.now) copies.new.items.items }
    {
        let inner = k + self.items.len() as u64;
        let mut items = Vec::new(alloc);
        for d in &self.items {
            let rarg = d.rarg;
            let ty = d.ty.subst_list_above(alloc, k, xs, copies)?;
            let body = d.body.subst_list_above(alloc, inner, xs, copies)?;
            if items.push(Def { ty, body, rarg }).is_err() {
                return Err(MakeFault::Memory);
            }
        }
        Ok(Defs { items })
    }
}

impl Match {
    #[cycle(subst_list)]
    #[tactic(auto, using(crate::proofs::Parts::part_laws, trees::proofs::Closed::closed_laws, std::proofs::lemmas::Grind::common_steps))]
    fn subst_list_above(
        &self,
        alloc: Global,
        k: u64,
        xs: &Terms,
        copies: &mut Copies,
    ) -> Result<Match, MakeFault>
        requires small { k < 2 ^ 32 }
        requires copies { AreCopies (subst_list_var xs.now) copies.old.items.items }
        ensures ok { IfOk result (λ m. m ≡ walk_match (subst_list_var xs.now) k self.now) }
        ensures too_deep { IfErr result (λ e. e ≡ TooDeep → IsBeyond (tree_of (Case (walk_match (subst_list_var xs.now) k self.now)))) }
        ensures copies { AreCopies (subst_list_var xs.now) copies.new.items.items }
    {
        let params = self.params.subst_list_above(alloc, k, xs, copies)?;
        let ret = self
            .ret
            .subst_list_above(alloc, k + u64::from(self.binders), xs, copies)?;
        let scrut = self.scrut.subst_list_above(alloc, k, xs, copies)?;
        let branches = self.branches.subst_list_above(alloc, k, xs, copies)?;
        Ok(Match {
            family: self.family,
            params,
            binders: self.binders,
            ret,
            scrut,
            branches,
        })
    }
}

impl Node {
    #[cycle(subst_list)]
    #[tactic(auto, using(crate::proofs::Parts::part_laws, trees::proofs::Closed::closed_laws, std::proofs::lemmas::Grind::common_steps))]
    fn subst_list_above(
        &self,
        alloc: Global,
        k: u64,
        xs: &Terms,
        copies: &mut Copies,
    ) -> Result<Term, MakeFault>
        requires open { k < loose (tree_of self.now) }
        requires small { k < 2 ^ 32 }
        requires indexed { HasIndex (tree_of self.now) }
        requires copies { AreCopies (subst_list_var xs.now) copies.old.items.items }
        ensures ok { IfOk result (λ t. t ≡ walk (subst_list_var xs.now) k (tree_of self.now)) }
        ensures within { IfOk result IsWithin }
        ensures too_deep { IfErr result (λ e. e ≡ TooDeep → IsBeyond (walk (subst_list_var xs.now) k (tree_of self.now))) }
        ensures copies { AreCopies (subst_list_var xs.now) copies.new.items.items }
    {
        match self {
            Node::Rel(i) => {
                let behind = u64::from(*i) - k;
                let count = xs.items.len();
                if behind < count as u64 {
                    xs.items[count - 1 - behind as usize].lift_once(alloc, k as u32, copies)
                } else {
                    Term::make(alloc, Node::Rel(*i - count as u32))
                }
            }
            Node::Prod(domain, codomain) => {
                let domain = domain.subst_list_above(alloc, k, xs, copies)?;
                let codomain = codomain.subst_list_above(alloc, k + 1, xs, copies)?;
                Term::make(alloc, Node::Prod(domain, codomain))
            }
            Node::Lambda(domain, body) => {
                let domain = domain.subst_list_above(alloc, k, xs, copies)?;
                let body = body.subst_list_above(alloc, k + 1, xs, copies)?;
                Term::make(alloc, Node::Lambda(domain, body))
            }
            Node::LetIn(value, ty, body) => {
                let value = value.subst_list_above(alloc, k, xs, copies)?;
                let ty = ty.subst_list_above(alloc, k, xs, copies)?;
                let body = body.subst_list_above(alloc, k + 1, xs, copies)?;
                Term::make(alloc, Node::LetIn(value, ty, body))
            }
            Node::App(function, argument) => {
                let function = function.subst_list_above(alloc, k, xs, copies)?;
                let argument = argument.subst_list_above(alloc, k, xs, copies)?;
                Term::make(alloc, Node::App(function, argument))
            }
            Node::Case(m) => {
                let m = m.get().subst_list_above(alloc, k, xs, copies)?;
                Term::of_match(alloc, m)
            }
            Node::Fix(ds, i) => {
                let ds = ds.subst_list_above(alloc, k, xs, copies)?;
                Term::make(alloc, Node::Fix(ds, *i))
            }
            Node::Sort(_) | Node::Const(_) | Node::Ind(_) | Node::Construct(_, _) => unreachable!(),
        }
    }
}

impl Term {
    #[cycle(subst_list)]
    #[tactic(auto, using(crate::proofs::Parts::part_laws, trees::proofs::Closed::closed_laws, std::proofs::lemmas::Grind::common_steps))]
    fn subst_list_above(
        &self,
        alloc: Global,
        k: u64,
        xs: &Terms,
        copies: &mut Copies,
    ) -> Result<Term, MakeFault>
        requires copies { AreCopies (subst_list_var xs.now) copies.old.items.items }
        ensures ok { IfOk result (λ t. t ≡ walk (subst_list_var xs.now) k self.now) }
        ensures within { IfOk result IsWithin }
        ensures too_deep { IfErr result (λ e. e ≡ TooDeep → IsBeyond (walk (subst_list_var xs.now) k self.now)) }
        ensures copies { AreCopies (subst_list_var xs.now) copies.new.items.items }
    {
        if self.loose() <= k {
            return self.share();
        }
        if !self.is_shared() {
            return self.view().subst_list_above(alloc, k, xs, copies);
        }
        if let Some(copy) = copies.find(self, Way::Walked(k)) {
            return copy.share();
        }
        let copy = self.view().subst_list_above(alloc, k, xs, copies)?;
        copies.keep(self, Way::Walked(k), &copy)?;
        Ok(copy)
    }
}
