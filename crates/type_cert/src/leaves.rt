//! Variables, constants and plain families as arguments: whether their types are those that are asked for is told by the types that are kept, so none is made.
ghost use Rattle.std.specs.Prelude.{◌≡◌, ◌+◌, ◌<◌, ◌≤◌, ◌^◌, IsTrue, IsFalse, IfSome, IfNone, List, Ok, Some, length, slice_get};
ghost use Rattle.pc_terms.specs.Syntax.{Term, Rel, Const, Ind, subst_list};
ghost use Rattle.calculus_rules.specs.Context.{Context, type_of};
ghost use Rattle.calculus_rules.specs.Lookups.{kept_at};
ghost use Rattle.pc_rules.specs.declared.meter.Account.{Account};
ghost use Rattle.pc_rules.specs.DirectedRun.{ticked};
ghost use Rattle.pc_rules.specs.DirectedTyping.{const_rule};
ghost use Rattle.pc_rules.specs.Follows.{Answers};
ghost use Rattle.cert_rules.specs.declared.item.CertItem.TheVariants.{Number, Same, Conv};
ghost use Rattle.type_infer.specs.Ready.{IsReady};
ghost use Rattle.type_cert.specs.Retraces.{Retraces, stand};
ghost use Rattle.type_cert.specs.Going.{inferring, checking, fitting};

use crate::sorts::{plain_sort, sort_stands};
use crate::standing::{stands, stands_lifted};
use crate::trail::{Trail, next_is_same};
use crate::verifier::Verifier;
use calculus_rules::declaration::Kept;
use calculus_rules::entry::Entry;
use cert_rules::packed::{CONV, NO_STEP, SAME};
use pc_rules::context::Ctx;
use pc_rules::environment::Env;
use pc_terms::leaf::{FamilyId, Name};
use pc_terms::term::{Node, Term};
use type_infer::pending::PendingType;

/// The type of an entry.
fn type_of(entry: &Entry) -> &Term
    ensures is { result.now ≡ type_of entry.now }
{
    match entry {
        Entry::Assumed(ty) => ty,
        Entry::Defined { ty, .. } => ty,
    }
}

/// The type of a constant, as it is kept; none unless a constant is kept by the name.
fn constant_type(env: &Env, name: Name) -> Option<&Term>
    ensures answers { IfSome result (λ ty. (u : Account) → Answers (const_rule name (kept_at env.now.declarations name) u) (Ok ty.now) u) }
{
    match env.find(name) {
        Some(Kept::Constant { ty, .. }) => Some(ty),
        _ => None,
    }
}

impl Verifier<'_> {
    /// Takes a unit and passes the item that says that two types are the same, where there is a unit, that item comes next, and one more rule may stand;
    /// whether it was so.
    fn pays_same(&self, trail: &mut Trail) -> bool
        ensures room { IsTrue result → 0 < self.now.room }
        ensures left { IsTrue result → 0 < trail.old.meter.account.left }
        ensures there { IsTrue result → slice_get self.now.cert.now trail.old.at ≡ Some Same }
        ensures passed { IsTrue result → trail.new.at ≡ trail.old.at + 1 }
        ensures account { IsTrue result → trail.new.meter.account ≡ ticked trail.old.meter.account }
        ensures nest { trail.new.meter.nest ≡ trail.old.meter.nest }
        ensures stays { IsFalse result → trail.new ≡ trail.old }
    {
        if self.room == 0 {
            return false;
        }
        if trail.meter.left() == 0 {
            return false;
        }
        if !next_is_same(self.cert, trail) {
            return false;
        }
        trail.at += 1;
        let _paid = trail.meter.tick();
        true
    }

    /// Checks variable `i` against a domain in which arguments are still to be put, where its entry's type is seen to be that; whether it was so.
    fn fits_variable(
        &self,
        ctx: &Ctx,
        i: u32,
        ty: &PendingType,
        domain: &Term,
        trail: &mut Trail,
    ) -> bool
        ensures checks { IsTrue result → Retraces (checking self.now ctx.now (Rel i) (subst_list 0 ty.now.arguments domain.now) (stand trail.old)) (Ok tt) trail.old trail.new }
        ensures stays { IsFalse result → trail.new ≡ trail.old }
    {
        let Some(entry) = ctx.entry(i) else {
            return false;
        };
        if !next_is_same(self.cert, trail) {
            return false;
        }
        let found = type_of(entry);
        if !stands_lifted(ty.arguments.as_slice(), 0, domain, u64::from(i) + 1, found) {
            return false;
        }
        self.pays_same(trail)
    }

    /// Checks a constant against a domain in which arguments are still to be put, where its type is seen to be that; whether it was so.
    fn fits_constant(
        &self,
        ctx: &Ctx,
        name: Name,
        ty: &PendingType,
        domain: &Term,
        trail: &mut Trail,
    ) -> bool
        ensures checks { IsTrue result → Retraces (checking self.now ctx.now (Const name) (subst_list 0 ty.now.arguments domain.now) (stand trail.old)) (Ok tt) trail.old trail.new }
        ensures stays { IsFalse result → trail.new ≡ trail.old }
    {
        let Some(found) = constant_type(self.env, name) else {
            return false;
        };
        if !next_is_same(self.cert, trail) {
            return false;
        }
        if !stands(ty.arguments.as_slice(), 0, domain, found) {
            return false;
        }
        self.pays_same(trail)
    }

    /// Whether the next items say that a type is not the one that is asked for, that this has a sort after no step, and that one is below the other as they stand.
    fn next_are_sorts(&self, trail: &Trail) -> bool
        ensures within { IsTrue result → trail.now.at + 3 ≤ length self.now.cert.now }
        ensures conv { IsTrue result → slice_get self.now.cert.now trail.now.at ≡ Some Conv }
        ensures none { IsTrue result → slice_get self.now.cert.now (trail.now.at + 1) ≡ Some (Number 0) }
        ensures same { IsTrue result → slice_get self.now.cert.now (trail.now.at + 2) ≡ Some Same }
        ensures fits { IsTrue result → trail.now.at + 3 < 2 ^ 64 }
    {
        let count = self.cert.len();
        let at = trail.at;
        if count < 3 || at > count - 3 {
            return false;
        }
        if !self.cert.is_own(at, CONV) {
            return false;
        }
        if !self.cert.is_own(at + 1, NO_STEP) {
            return false;
        }
        self.cert.is_own(at + 2, SAME)
    }

    /// Checks a family whose type is a sort against a sort, where the next items say that this is above and it is; whether it was so.
    fn fits_family(&self, ctx: &Ctx, id: FamilyId, domain: &Term, trail: &mut Trail) -> bool
        requires ready { IsReady self.now.env.now ctx.now }
        ensures checks { IsTrue result → (xs : List Term) → Retraces (checking self.now ctx.now (Ind id) (subst_list 0 xs domain.now) (stand trail.old)) (Ok tt) trail.old trail.new }
        ensures stays { IsFalse result → trail.new ≡ trail.old }
    {
        let Node::Sort(high) = domain.view() else {
            return false;
        };
        if self.room == 0 || trail.meter.left() < 2 {
            return false;
        }
        if !self.next_are_sorts(trail) {
            return false;
        }
        let Some(low) = plain_sort(self.env, id) else {
            return false;
        };
        if !sort_stands(self.env.graph().levels(), high) {
            return false;
        }
        if !self.env.entails(low, high) {
            return false;
        }
        trail.at += 3;
        let _first = trail.meter.tick();
        let _second = trail.meter.tick();
        true
    }

    /// Checks a variable, a constant or a family against a domain in which arguments are still to be put, where its type is seen to be that, or a sort below it, as the
    /// next items say; whether it was so.
    pub(crate) fn fits_leaf(
        &self,
        ctx: &Ctx,
        t: &Term,
        ty: &PendingType,
        domain: &Term,
        trail: &mut Trail,
    ) -> bool
        requires ready { IsReady self.now.env.now ctx.now }
        ensures checks { IsTrue result → Retraces (checking self.now ctx.now t.now (subst_list 0 ty.now.arguments domain.now) (stand trail.old)) (Ok tt) trail.old trail.new }
        ensures stays { IsFalse result → trail.new ≡ trail.old }
    {
        match t.view() {
            Node::Rel(i) => self.fits_variable(ctx, *i, ty, domain, trail),
            Node::Const(name) => self.fits_constant(ctx, *name, ty, domain, trail),
            Node::Ind(id) => self.fits_family(ctx, *id, domain, trail),
            _ => false,
        }
    }

    /// Passes the item that says that a type that was found is the one that is asked for, a domain in which arguments are still to be put, where it is
    /// seen to be that; whether it was so.
    pub(crate) fn fits_instance(
        &self,
        found: &Term,
        ty: &PendingType,
        domain: &Term,
        trail: &mut Trail,
    ) -> bool
        ensures fits { IsTrue result → (c : Context) → Retraces (fitting self.now c found.now (subst_list 0 ty.now.arguments domain.now) (stand trail.old)) (Ok tt) trail.old trail.new }
        ensures stays { IsFalse result → trail.new ≡ trail.old }
    {
        if !next_is_same(self.cert, trail) {
            return false;
        }
        if !stands(ty.arguments.as_slice(), 0, domain, found) {
            return false;
        }
        trail.at += 1;
        true
    }

    /// The type of a constant that is applied, with the unit of its inference, where there is a unit, one more rule may stand, and the type can be shared.
    pub(crate) fn constant_head(&self, name: Name, trail: &mut Trail) -> Option<Term>
        ensures infers { IfSome result (λ ty. (c : Context) → Retraces (inferring self.now c (Const name) (stand trail.old)) (Ok ty) trail.old trail.new) }
        ensures stays { IfNone result (trail.new ≡ trail.old) }
    {
        if self.room == 0 {
            return None;
        }
        if trail.meter.left() == 0 {
            return None;
        }
        let found = constant_type(self.env, name)?;
        let Ok(ty) = found.share() else {
            return None;
        };
        let _paid = trail.meter.tick();
        Some(ty)
    }
}
