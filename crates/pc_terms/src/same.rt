//! Comparison of terms.
ghost use Rattle.std.specs.Prelude.{◌≡◌, ◌↔◌, IsTrue};

use crate::term::{Branches, Defs, Match, Node, Term, Terms};

impl Terms {
    #[cycle(same)]
    #[tactic(auto, using(std::proofs::lemmas::Grind::common_steps))]
    fn same(&self, other: &Terms) -> bool
        ensures is { IsTrue result ↔ (self.now ≡ other.now) }
    {
        let n = self.items.len();
        if n != other.items.len() {
            return false;
        }
        for i in 0..n {
            let a = &self.items[i];
            let b = &other.items[i];
            if !a.same(b) {
                return false;
            }
        }
        true
    }
}

impl Branches {
    #[cycle(same)]
    #[tactic(auto, using(std::proofs::lemmas::Grind::common_steps))]
    fn same(&self, other: &Branches) -> bool
        ensures is { IsTrue result ↔ (self.now ≡ other.now) }
    {
        let n = self.items.len();
        if n != other.items.len() {
            return false;
        }
        for i in 0..n {
            let a = &self.items[i];
            let b = &other.items[i];
            if a.binders != b.binders || !a.body.same(&b.body) {
                return false;
            }
        }
        true
    }
}

impl Defs {
    #[cycle(same)]
    #[tactic(auto, using(std::proofs::lemmas::Grind::common_steps))]
    fn same(&self, other: &Defs) -> bool
        ensures is { IsTrue result ↔ (self.now ≡ other.now) }
    {
        let n = self.items.len();
        if n != other.items.len() {
            return false;
        }
        for i in 0..n {
            let a = &self.items[i];
            let b = &other.items[i];
            if a.rarg != b.rarg || !a.ty.same(&b.ty) || !a.body.same(&b.body) {
                return false;
            }
        }
        true
    }
}

impl Match {
    #[cycle(same)]
    #[tactic(auto, using(std::proofs::lemmas::Grind::common_steps))]
    fn same(&self, other: &Match) -> bool
        ensures is { IsTrue result ↔ (self.now ≡ other.now) }
    {
        self.family == other.family
            && self.binders == other.binders
            && self.params.same(&other.params)
            && self.ret.same(&other.ret)
            && self.scrut.same(&other.scrut)
            && self.branches.same(&other.branches)
    }
}

impl Node {
    #[cycle(same)]
    #[tactic(auto, using(std::proofs::lemmas::Grind::common_steps))]
    fn same(&self, other: &Node) -> bool
        ensures is { IsTrue result ↔ (self.now ≡ other.now) }
    {
        match (self, other) {
            (Node::Rel(i), Node::Rel(j)) => *i == *j,
            (Node::Sort(s), Node::Sort(t)) => s.same(t),
            (Node::Prod(a, b), Node::Prod(c, d)) => a.same(c) && b.same(d),
            (Node::Lambda(a, b), Node::Lambda(c, d)) => a.same(c) && b.same(d),
            (Node::LetIn(u, a, b), Node::LetIn(v, c, d)) => u.same(v) && a.same(c) && b.same(d),
            (Node::App(f, a), Node::App(g, b)) => f.same(g) && a.same(b),
            (Node::Const(c), Node::Const(d)) => *c == *d,
            (Node::Ind(f), Node::Ind(g)) => *f == *g,
            (Node::Construct(f, c), Node::Construct(g, d)) => *f == *g && *c == *d,
            (Node::Case(m), Node::Case(n)) => m.get().same(n.get()),
            (Node::Fix(ds, i), Node::Fix(es, j)) => *i == *j && ds.same(es),
            _ => false,
        }
    }
}

impl Term {
    /// Whether two terms are the same tree. It takes no memory, and no walk where both share one node.
    #[cycle(same)]
    #[tactic(auto, using(std::proofs::lemmas::Grind::common_steps))]
    pub fn same(&self, other: &Term) -> bool
        ensures is { IsTrue result ↔ (self.now ≡ other.now) }
    {
        self.shares_node(other) || self.view().same(other.view())
    }
}
