//! Depth and loose bound of a node, from those of its parts.
ghost use Rattle.std.specs.Prelude.{◌+◌, ◌≡◌, ◌≤◌, ◌^◌};
ghost use Rattle.std.specs.List.{All};
ghost use Rattle.trees.specs.Tree.{terms_of};
ghost use Rattle.trees.specs.Measures.{depth, depth_trees, loose, loose_trees, above, above_trees, depth_limit};
ghost use Rattle.pc_terms.specs.Syntax.{HasIndex};
ghost use Rattle.pc_terms.specs.Formed.{IsFormed};
ghost use Rattle.pc_terms.specs.Lists.{arms_of, depth_defs, above_defs, loose_defs};
ghost use Rattle.pc_terms.specs.View.{tree_of};
ghost use Rattle.pc_terms.specs.declared.term.Node.TheVariants.{Case};

use crate::term::{Branches, Defs, Match, Node, Terms};

#[tactic(auto, using(crate::proofs::Most::list_laws, std::proofs::lemmas::Grind::common_steps))]
impl Terms {
    pub(crate) fn depth(&self) -> u32
        ensures is { result ≡ depth_trees (terms_of self.now) }
        ensures depths { depth_trees (terms_of self.now) ≤ depth_limit }
        ensures numbers { above_trees (terms_of self.now) ≤ 2 ^ 32 }
        ensures formed { All IsFormed self.now }
    {
        let mut most = 0;
        for x in &self.items {
            most = most.max(x.depth());
        }
        most
    }

    pub(crate) fn loose(&self) -> u64
        ensures is { result ≡ loose_trees (terms_of self.now) }
    {
        let mut most = 0;
        for x in &self.items {
            most = most.max(x.loose());
        }
        most
    }
}

#[tactic(auto, using(crate::proofs::Most::list_laws, std::proofs::lemmas::Grind::common_steps))]
impl Branches {
    pub(crate) fn depth(&self) -> u32
        ensures is { result ≡ depth_trees (arms_of self.now) }
        ensures depths { depth_trees (arms_of self.now) ≤ depth_limit }
        ensures numbers { above_trees (arms_of self.now) ≤ 2 ^ 32 }
        ensures formed { All (λ b. IsFormed b.body) self.now }
    {
        let mut most = 0;
        for x in &self.items {
            most = most.max(x.body.depth());
        }
        most
    }

    pub(crate) fn loose(&self) -> u64
        ensures is { result ≡ loose_trees (arms_of self.now) }
    {
        let mut most = 0;
        for x in &self.items {
            most = most.max(x.body.loose().saturating_sub(u64::from(x.binders)));
        }
        most
    }
}

#[tactic(auto, using(crate::proofs::Most::list_laws, std::proofs::lemmas::Grind::common_steps))]
impl Defs {
    pub(crate) fn depth(&self) -> u32
        ensures is { result ≡ depth_defs self.now }
        ensures depths { depth_defs self.now ≤ depth_limit }
        ensures numbers { above_defs self.now ≤ 2 ^ 32 }
        ensures formed { All (λ d. IsFormed d.ty × IsFormed d.body) self.now }
    {
        let mut most = 0;
        for x in &self.items {
            most = most.max(x.ty.depth()).max(x.body.depth());
        }
        most
    }

    pub(crate) fn loose(&self) -> u64
        ensures is { result ≡ loose_defs self.now }
    {
        let count = self.items.len() as u64;
        let mut most = 0;
        for x in &self.items {
            most = most
                .max(x.ty.loose())
                .max(x.body.loose().saturating_sub(count));
        }
        most
    }
}

#[tactic(auto, using(crate::proofs::Most::list_laws))]
impl Match {
    pub(crate) fn depth(&self) -> u32
        ensures is { result ≡ depth (tree_of (Case self.now)) }
        ensures depths { depth (tree_of (Case self.now)) ≤ depth_limit + 1 }
        ensures numbers { above (tree_of (Case self.now)) ≤ 2 ^ 32 }
        ensures formed { IsFormed (tree_of (Case self.now)) }
    {
        let outer = self.params.depth().max(self.ret.depth());
        let inner = self.scrut.depth().max(self.branches.depth());
        outer.max(inner) + 1
    }
}

#[tactic(auto, using(crate::proofs::Most::list_laws))]
impl Node {
    pub(crate) fn depth(&self) -> u32
        ensures is { result ≡ depth (tree_of self.now) }
        ensures depths { depth (tree_of self.now) ≤ depth_limit + 1 }
        ensures numbers { above (tree_of self.now) ≤ 2 ^ 32 }
        ensures formed { HasIndex (tree_of self.now) → IsFormed (tree_of self.now) }
    {
        match self {
            Node::Rel(i) => {
                let _number = *i;
                1
            }
            Node::Sort(_) => 1,
            Node::Prod(a, b) => a.depth().max(b.depth()) + 1,
            Node::Lambda(a, b) => a.depth().max(b.depth()) + 1,
            Node::LetIn(v, a, b) => v.depth().max(a.depth()).max(b.depth()) + 1,
            Node::App(f, a) => f.depth().max(a.depth()) + 1,
            Node::Const(_) => 1,
            Node::Ind(_) => 1,
            Node::Construct(_, _) => 1,
            Node::Case(m) => m.get().depth(),
            Node::Fix(ds, _) => ds.depth() + 1,
        }
    }

    pub(crate) fn loose(&self) -> u64
        ensures is { result ≡ loose (tree_of self.now) }
    {
        match self {
            Node::Rel(i) => u64::from(*i) + 1,
            Node::Sort(_) => 0,
            Node::Prod(a, b) => a.loose().max(b.loose().saturating_sub(1)),
            Node::Lambda(a, b) => a.loose().max(b.loose().saturating_sub(1)),
            Node::LetIn(v, a, b) => v.loose().max(a.loose()).max(b.loose().saturating_sub(1)),
            Node::App(f, a) => f.loose().max(a.loose()),
            Node::Const(_) => 0,
            Node::Ind(_) => 0,
            Node::Construct(_, _) => 0,
            Node::Case(m) => {
                let m = m.get();
                let binders = u64::from(m.binders);
                let outer = m.params.loose().max(m.ret.loose().saturating_sub(binders));
                let inner = m.scrut.loose().max(m.branches.loose());
                outer.max(inner)
            }
            Node::Fix(ds, _) => ds.loose(),
        }
    }
}
