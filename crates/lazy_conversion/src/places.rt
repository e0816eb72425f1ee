//! Where terms stand in a walk over two parts, and what their variables are there.
ghost use Rattle.std.specs.Prelude.{◌≡◌, ◌<◌, ◌^◌, IsTrue, ◌↔◌};
ghost use Rattle.pc_terms.specs.Syntax.{Rel};
ghost use Rattle.lazy_conversion.specs.Lifted.{seen, seen_below, IsNear, IsMeaning};

use pc_terms::term::{Node, Term};
use reduce_machine::bindings::{Bindings, Found, Lazy};
use reduce_machine::memo::Memo;

/// Where a term stands: below `under` variables of its own, under bindings; and what it is there stands below `lifted` variables more.
#[derive(Clone, Copy, Drop)]
pub(crate) struct Place<'a> {
    pub(crate) under: u64,
    pub(crate) lifted: u64,
    pub(crate) env: &'a Bindings,
}

/// What a variable of a term at a place is.
#[derive(Clone, Copy, Drop)]
pub(crate) enum Meaning<'a> {
    /// A variable that is bound to nothing, by its number.
    Variable(u64),
    /// An item, the place for the term that it is read to, and how many variables more it stands below.
    Item(&'a Lazy, &'a Option<Memo>, u64),
}

impl<'a> Place<'a> {
    /// What variable i is.
    #[tactic(auto, using(crate::proofs::Lifting::meaning_laws))]
    pub(crate) fn meaning(&self, i: u32) -> Meaning<'a>
        requires near { IsNear self.now.lifted self.now.env.now.rank }
        ensures is { IsMeaning self.now i result }
    {
        if u64::from(i) < self.under {
            return Meaning::Variable(u64::from(i));
        }
        let k = self.under as u32;
        match self.env.find(i - k) {
            Found::Item(item, memo) => Meaning::Item(item, memo, self.lifted + self.under),
            Found::Past(j) => Meaning::Variable(self.lifted + self.under + u64::from(j)),
        }
    }

    /// The place of a part of the term that stands below n variables more.
    #[tactic(auto, using(crate::proofs::Lifting::part_closed))]
    pub(crate) fn below(&self, part: &Term, n: u64) -> Place<'a>
        requires small { n < 2 ^ 63 }
        ensures seen { seen result part.now ≡ seen_below self.now n part.now }
        ensures lifted { result.lifted ≡ self.now.lifted }
        ensures env { result.env.now ≡ self.now.env.now }
    {
        // A part that has no variable beyond its own has none below more either.
        if part.loose() <= self.under {
            return Place {
                under: self.under,
                lifted: self.lifted,
                env: self.env,
            };
        }
        Place {
            under: self.under + n,
            lifted: self.lifted,
            env: self.env,
        }
    }
}

/// Whether two terms are seen to be the same exactly where they are one tree: both are closed below their own variables, or both stand
/// under no bindings, in the same way.
pub(crate) fn are_plain(a: &Term, p: &Place<'_>, b: &Term, q: &Place<'_>) -> bool
    ensures plain { IsTrue result → ((seen p.now a.now ≡ seen q.now b.now) ↔ (a.now ≡ b.now)) }
{
    if a.loose() <= p.under && b.loose() <= q.under {
        return true;
    }
    if !p.env.is_empty() {
        return false;
    }
    if !q.env.is_empty() {
        return false;
    }
    if p.lifted != q.lifted {
        return false;
    }
    p.under == q.under
}

/// Whether a term at a place is the variable n.
pub(crate) fn is_variable(n: u64, b: &Term, q: &Place<'_>) -> bool
    requires near { IsNear q.now.lifted q.now.env.now.rank }
    ensures is { IsTrue result ↔ (Rel n ≡ seen q.now b.now) }
{
    let Node::Rel(j) = b.view() else {
        return false;
    };
    match q.meaning(*j) {
        Meaning::Variable(m) => n == m,
        Meaning::Item(item, _, lifted) => {
            let place = Place {
                under: 0,
                lifted,
                env: &item.env,
            };
            is_variable(n, &item.term, &place)
        }
    }
}
