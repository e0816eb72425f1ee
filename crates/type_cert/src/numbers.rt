//! The numbers of a certificate: how many weak-head steps a type makes. Where they lead to a weak-head normal form, they are made by closures.
ghost use Rattle.std.specs.Prelude.{◌≡◌, ◌<◌, ◌+◌, ◌^◌, ℕ, slice_get, Ok, Some, IfOk, IfSome, MatchOption};
ghost use Rattle.calculus_rules.specs.Context.{values};
ghost use Rattle.calculus_rules.specs.WeakHead.{WeakSteps};
ghost use Rattle.cert_rules.specs.WalkSteps.{number_at, walk_steps, reduced};
ghost use Rattle.reduce_machine.specs.Reducts.{after};
ghost use Rattle.type_cert.specs.Retraces.{Retraces, stand, at_number};

use crate::halt::WalkHalt;
use crate::trail::Trail;
use crate::verifier::Verifier;
use cert_rules::certificate::CertItems;
use cert_rules::item::CertItem;
use pc_rules::context::Ctx;
use pc_rules::environment::Env;
use pc_rules::meter::Meter;
use pc_rules::reducer::Reducer;
use pc_rules::stop::Stop;
use pc_terms::term::Term;
use reduce_machine::closures::Closures;
use reduction::stepping::one_step;
use std::alloc::Global;

/// The item at a number; none exactly where there are not so many.
pub fn item_at(cert: &CertItems, at: usize) -> Option<CertItem>
    ensures is { result ≡ slice_get cert.now at }
    ensures more { IfSome result (λ _. at + 1 < 2 ^ 64) }
{
    cert.get(at)
}

/// The number that comes next. Refused at the next item where it is no number, or where there is none.
pub fn number(cert: &CertItems, trail: &mut Trail) -> Result<u32, WalkHalt>
    ensures retraces { Retraces (number_at (slice_get cert.now trail.old.at) (stand trail.old)) result trail.old trail.new }
{
    match cert.get(trail.at) {
        Some(CertItem::Number(n)) => {
            trail.at += 1;
            Ok(n)
        }
        _ => Err(WalkHalt::Barred { item: trail.at }),
    }
}

/// The weak-head normal form of a term, where exactly `n` steps lead to it; by closures, so a step copies no body. None where they are more or
/// fewer, or reduction stops.
fn normal_after(alloc: Global, env: &Env, ctx: &Ctx, n: u32, t: &Term) -> Option<Term>
    ensures after { IfSome result (λ w. after env.now (values ctx.now) n t.now ≡ Some w) }
    ensures steps { IfSome result (λ w. WeakSteps env.now (values ctx.now) t.now w) }
{
    let mut units = Meter::new(n as u64);
    match Closures.whnf(alloc, env, ctx, t, &mut units) {
        Ok(term) => {
            if units.left() == 0 {
                return Some(term);
            }
            None
        }
        Err(_) => None,
    }
}

/// A term after `n` weak-head steps, of which each takes a unit, where they lead to its weak-head normal form and the units are there: this is
/// what a certificate mostly asks for. None, and no unit is taken, where it isn't so, and for less than two steps.
fn at_once(alloc: Global, env: &Env, ctx: &Ctx, n: u32, t: &Term, trail: &mut Trail) -> Option<Term>
    ensures retraces { (item : ℕ) → MatchOption result (trail.new ≡ trail.old) (λ w. Retraces (walk_steps env.now (values ctx.now) item n t.now (stand trail.old)) (Ok w) trail.old trail.new) }
    ensures steps { IfSome result (λ w. WeakSteps env.now (values ctx.now) t.now w) }
{
    let units = n as u64;
    if n < 2 || trail.meter.left() < units {
        return None;
    }
    match normal_after(alloc, env, ctx, n, t) {
        Some(term) => {
            trail.meter.account.left -= units;
            Some(term)
        }
        None => None,
    }
}

/// A term after `n` weak-head steps, one after the other; one unit before each. Refused at item number `item` where there are fewer.
fn one_by_one(
    alloc: Global,
    env: &Env,
    ctx: &Ctx,
    item: usize,
    n: u32,
    t: Term,
    trail: &mut Trail,
) -> Result<Term, WalkHalt>
    ensures retraces { Retraces (walk_steps env.now (values ctx.now) item n t (stand trail.old)) result trail.old trail.new }
    ensures steps { IfOk result (λ u. WeakSteps env.now (values ctx.now) t u) }
{
    let mut term = t;
    let mut left = n;
    'steps: while left > 0 {
        if !trail.meter.tick() {
            return Err(WalkHalt::Stop(Stop::Spent));
        }
        match one_step(alloc, env, ctx, &term)? {
            Some(next) => {
                term = next;
                left -= 1;
            }
            None => return Err(WalkHalt::Barred { item }),
        }
    }
    Ok(term)
}

/// A term after `n` weak-head steps, for which item number `item` asks; one unit before each. Refused at that item where there are fewer.
pub fn steps(
    alloc: Global,
    env: &Env,
    ctx: &Ctx,
    item: usize,
    n: u32,
    t: Term,
    trail: &mut Trail,
) -> Result<Term, WalkHalt>
    ensures retraces { Retraces (walk_steps env.now (values ctx.now) item n t (stand trail.old)) result trail.old trail.new }
    ensures steps { IfOk result (λ u. WeakSteps env.now (values ctx.now) t u) }
{
    match at_once(alloc, env, ctx, n, &t, trail) {
        Some(term) => Ok(term),
        None => one_by_one(alloc, env, ctx, item, n, t, trail),
    }
}

/// A term after the steps that the next number asks for, with that number.
pub fn reduced(
    alloc: Global,
    verifier: &Verifier,
    ctx: &Ctx,
    t: Term,
    trail: &mut Trail,
) -> Result<(u32, Term), WalkHalt>
    ensures retraces { Retraces (reduced verifier.now.cert.now verifier.now.env.now (values ctx.now) t (stand trail.old)) (at_number trail.old.at result) trail.old trail.new }
    ensures steps { IfOk result (λ p. WeakSteps verifier.now.env.now (values ctx.now) t p.1) }
{
    let item = trail.at;
    let count = number(verifier.cert, trail)?;
    let term = steps(alloc, verifier.env, ctx, item, count, t, trail)?;
    Ok((count, term))
}
