//! Sorts as types, where no term needs to be made.
ghost use Rattle.std.specs.Prelude.{◌≡◌, ◌+◌, ◌<◌, IsTrue, IsFalse, IfOk, IfErr, IfSome, None, Ok, Some, slice_get};
ghost use Rattle.universe_levels.specs.Sorts.{super_sort, product_sort};
ghost use Rattle.pc_terms.specs.Syntax.{SortT, Ind};
ghost use Rattle.calculus_rules.specs.Context.{Context};
ghost use Rattle.pc_rules.specs.declared.meter.Account.{Account};
ghost use Rattle.pc_rules.specs.DirectedRun.{ticked};
ghost use Rattle.pc_rules.specs.DirectedTyping.{first_undeclared, undeclared_in, ind_rule};
ghost use Rattle.pc_rules.specs.Follows.{Answers};
ghost use Rattle.cert_rules.specs.declared.item.CertItem.TheVariants.{Number};
ghost use Rattle.type_cert.specs.Retraces.{Retraces, stand};
ghost use Rattle.type_cert.specs.Going.{inferring};

use crate::trail::{Trail, passes_no_step};
use crate::verifier::Verifier;
use cert_rules::certificate::CertItems;
use pc_rules::environment::Env;
use pc_terms::leaf::FamilyId;
use pc_terms::term::{Node, Term};
use std::alloc::Global;
use type_infer::declared::family_in;
use universe_levels::level::LevelExpr;
use universe_levels::sort::Sort;
use universe_levels::universe::UniverseFault;

/// Whether all levels are among the first `levels`, the number of levels that are declared, and each part can be raised by one.
fn parts_stand(levels: u32, parts: &[LevelExpr]) -> bool
    ensures declared { IsTrue result → first_undeclared levels parts.now ≡ None }
{
    for i in 0..parts.len() {
        let level = parts[i].level;
        if level.0 > levels {
            return false;
        }
        if parts[i].add == u32::MAX {
            return false;
        }
    }
    true
}

/// Whether a sort's levels are among the first `levels`, and it can be raised by one.
pub(crate) fn sort_stands(levels: u32, s: &Sort) -> bool
    ensures declared { IsTrue result → undeclared_in levels s.now ≡ None }
{
    match s {
        Sort::Prop => true,
        Sort::Of(u) => parts_stand(levels, u.parts()),
    }
}

/// Passes the number of no steps where it comes next and the term is a sort; whether it was so.
pub(crate) fn stays_sort(cert: &CertItems, t: &Term, trail: &mut Trail) -> bool
    ensures sort { IsTrue result → (s : _) × (SortT s ≡ t.now) }
    ensures there { IsTrue result → slice_get cert.now trail.old.at ≡ Some (Number 0) }
    ensures passed { IsTrue result → trail.new.at ≡ trail.old.at + 1 }
    ensures stays { IsFalse result → trail.new ≡ trail.old }
    ensures meter { trail.new.meter ≡ trail.old.meter }
{
    match t.view() {
        Node::Sort(_) => passes_no_step(cert, trail),
        _ => false,
    }
}

/// The sort of a product, by those of its domain and its codomain as terms; of other terms none is made.
pub(crate) fn sort_over(alloc: Global, low: &Term, high: &Term) -> Result<Sort, UniverseFault>
    ensures value { IfOk result (λ s. (l h : Sort) → SortT l ≡ low.now → SortT h ≡ high.now → s ≡ product_sort l h) }
    ensures only_memory { IfErr result (λ e. e ≡ UniverseFault.Memory) }
{
    match (low.view(), high.view()) {
        (Node::Sort(l), Node::Sort(h)) => Sort::product(alloc, l, h),
        _ => Err(UniverseFault::Memory),
    }
}

/// The sort of a family without parameters and indices, which is its type; none of another.
pub(crate) fn plain_sort(env: &Env, id: FamilyId) -> Option<&Sort>
    ensures answers { IfSome result (λ s. (u : Account) → Answers (ind_rule env.now id u) (Ok (SortT s.now)) u) }
{
    let Some(block) = env.block(id.block) else {
        return None;
    };
    let Ok(family) = family_in(block, id) else {
        return None;
    };
    if !block.params.as_slice().is_empty() {
        return None;
    }
    if !family.indices.as_slice().is_empty() {
        return None;
    }
    Some(&family.sort)
}

impl Verifier<'_> {
    /// Takes a unit and passes the number of no steps, where there is a unit, that number comes next, and one more rule may stand; whether it was so.
    fn pays(&self, trail: &mut Trail) -> bool
        ensures room { IsTrue result → 0 < self.now.room }
        ensures left { IsTrue result → 0 < trail.old.meter.account.left }
        ensures there { IsTrue result → slice_get self.now.cert.now trail.old.at ≡ Some (Number 0) }
        ensures passed { IsTrue result → trail.new.at ≡ trail.old.at + 1 }
        ensures account { IsTrue result → trail.new.meter.account ≡ ticked trail.old.meter.account }
        ensures nest { trail.new.meter.nest ≡ trail.old.meter.nest }
        ensures stays { IsFalse result → trail.new ≡ trail.old }
    {
        if self.room == 0 {
            return false;
        }
        if trail.meter.left() == 0 {
            return false;
        }
        if !passes_no_step(self.cert, trail) {
            return false;
        }
        let _paid = trail.meter.tick();
        true
    }

    /// Takes a unit and passes the number of no steps where a sort is seen to have a sort so, which is not made; whether it was so.
    pub(crate) fn passes_sort(&self, s: &Sort, trail: &mut Trail) -> bool
        ensures infers { IsTrue result → (c : Context) → Retraces (inferring self.now c (SortT s.now) (stand trail.old)) (Ok (SortT (super_sort s.now))) trail.old (record { meter = trail.new.meter; at = trail.old.at }) }
        ensures there { IsTrue result → slice_get self.now.cert.now trail.old.at ≡ Some (Number 0) }
        ensures passed { IsTrue result → trail.new.at ≡ trail.old.at + 1 }
        ensures stays { IsFalse result → trail.new ≡ trail.old }
    {
        let levels = self.env.graph().levels();
        if !sort_stands(levels, s) {
            return false;
        }
        self.pays(trail)
    }

    /// Takes a unit and passes the number of no steps where the type of a family is seen to be a sort, which is not made; whether it was so.
    pub(crate) fn passes_family(&self, id: FamilyId, trail: &mut Trail) -> bool
        ensures infers { IsTrue result → (s : _) × ((c : Context) → Retraces (inferring self.now c (Ind id) (stand trail.old)) (Ok (SortT s)) trail.old (record { meter = trail.new.meter; at = trail.old.at })) }
        ensures there { IsTrue result → slice_get self.now.cert.now trail.old.at ≡ Some (Number 0) }
        ensures passed { IsTrue result → trail.new.at ≡ trail.old.at + 1 }
        ensures stays { IsFalse result → trail.new ≡ trail.old }
    {
        match plain_sort(self.env, id) {
            Some(_) => self.pays(trail),
            None => false,
        }
    }
}
