//! Sorts as types, where no term needs to be made: that a sort has a sort, and that one is below another.
ghost use Rattle.std.specs.Prelude.{◌≡◌, ◌↔◌, ◌≤◌, ◌+◌, ◌^◌, ℕ, Any, IsTrue, false};
ghost use Rattle.universe_levels.specs.Consistency.{AreOver, IsSortOver};
ghost use Rattle.universe_levels.specs.Sorts.{PassesLimit, super_sort};
ghost use Rattle.pc_terms.specs.Syntax.{SortT};
ghost use Rattle.calculus_rules.specs.Context.{Context};
ghost use Rattle.pc_rules.specs.declared.meter.Account.{Account};
ghost use Rattle.pc_rules.specs.Entailment.{test_of};
ghost use Rattle.pc_rules.specs.Follows.{Answers, Follows};
ghost use Rattle.pc_rules.specs.DirectedComparison.{compare, entered};
ghost use Rattle.pc_rules.specs.DirectedTyping.{infer, sort_rule};
ghost use Rattle.pc_rules.specs.DirectedRun.{most_nested};
ghost use Rattle.type_infer.specs.Unread.{with_result};

use crate::leaves::undeclared_in;
use pc_rules::broken::{BoxedSort, Broken, Clash};
use pc_rules::environment::Env;
use pc_rules::meter::Meter;
use pc_rules::stop::{Halt, Stop};
use pc_terms::term::{Node, Term};
use std::alloc::Global;
use universe_levels::level::LevelExpr;
use universe_levels::sort::Sort;

/// Whether a term is a sort.
pub(crate) fn is_sort(t: &Term) -> bool
    ensures sort { IsTrue result → (s : _) × (SortT s ≡ t.now) }
{
    match t.view() {
        Node::Sort(_) => true,
        _ => false,
    }
}

/// Whether one more would pass 4,294,967,295 in one of the parts.
fn part_at_limit(parts: &[LevelExpr]) -> bool
    ensures is { IsTrue result ↔ Any (λ e. 2 ^ 32 ≤ e.add + 1) parts.now }
{
    parts.iter().any(|part| part.add == u32::MAX)
}

/// Whether one more would pass 4,294,967,295 in a sort.
fn at_limit(s: &Sort) -> bool
    ensures passes { IsTrue result ↔ PassesLimit s.now }
{
    match s {
        Sort::Prop => false,
        Sort::Of(u) => part_at_limit(u.parts()),
    }
}

/// That a sort has a sort, rule 2, which is not made. `LevelUndeclared` at its first level that the environment does not declare, and `TooDeep`
/// where the sort would pass a limit. Takes no memory.
fn sort_stands(env: &Env, s: &Sort) -> Result<(), Halt>
    ensures answers { (u : Account) → Answers (sort_rule env.now s.now u) (with_result (SortT (super_sort s.now)) result) u }
{
    let levels = env.graph().levels();
    if let Some(level) = undeclared_in(levels, s) {
        return Err(Halt::Broken(Broken::LevelUndeclared { level }));
    }
    if at_limit(s) {
        return Err(Halt::Stop(Stop::TooDeep));
    }
    Ok(())
}

/// That a sort has a sort, with the unit of its inference, one more rule that stands, and the note of rule 2. Takes no memory.
pub(crate) fn sort_of_sort(env: &Env, s: &Sort, m: &mut Meter) -> Result<(), Halt>
    ensures follows { (c : Context) (n : ℕ) → n + m.old.nest ≡ most_nested → Follows (infer env.now (test_of env.now) n c (SortT s.now) m.old.account) (with_result (SortT (super_sort s.now)) result) m.old m.new }
{
    if !m.tick() {
        return Err(Halt::Stop(Stop::Spent));
    }
    if !m.enter() {
        return Err(Halt::Stop(Stop::TooDeep));
    }
    m.note(2);
    let answer = sort_stands(env, s);
    m.leave();
    answer
}

/// Whether two sorts, `s` of the term `a` and `t` of `b`, are one or the first is below the second. `NotBelow` with both where not, and else
/// only `Memory`.
fn stand_below(alloc: Global, env: &Env, a: &Term, b: &Term, s: &Sort, t: &Sort) -> Result<(), Halt>
    requires left { SortT s.now ≡ a.now }
    requires right { SortT t.now ≡ b.now }
    requires constraints { AreOver env.now.levels env.now.constraints }
    requires left_over { IsSortOver env.now.levels s.now }
    requires right_over { IsSortOver env.now.levels t.now }
    ensures answers { (c : Context) (k : ℕ) (u : Account) → Answers (entered env.now (test_of env.now) (compare env.now (test_of env.now) k) c false a.now b.now u) result u }
{
    if a.same(b) {
        return Ok(());
    }
    if env.entails(s, t) {
        return Ok(());
    }
    let low = BoxedSort::new(alloc, s.share(alloc)?)?;
    let high = BoxedSort::new(alloc, t.share(alloc)?)?;
    Err(Halt::Broken(Broken::NotBelow {
        clash: Clash::Sorts(low, high),
    }))
}

/// The comparison of two sorts, `s` of the term `a` and `t` of `b`: a unit, and whether they are one or the first is below the second.
pub(crate) fn sorts_below(
    alloc: Global,
    env: &Env,
    a: &Term,
    b: &Term,
    s: &Sort,
    t: &Sort,
    m: &mut Meter,
) -> Result<(), Halt>
    requires left { SortT s.now ≡ a.now }
    requires right { SortT t.now ≡ b.now }
    requires constraints { AreOver env.now.levels env.now.constraints }
    requires left_over { IsSortOver env.now.levels s.now }
    requires right_over { IsSortOver env.now.levels t.now }
    ensures follows { (c : Context) (n : ℕ) → n + m.old.nest ≡ most_nested → Follows (compare env.now (test_of env.now) n c false a.now b.now m.old.account) result m.old m.new }
{
    if !m.tick() {
        return Err(Halt::Stop(Stop::Spent));
    }
    if m.room() == 0 {
        return Err(Halt::Stop(Stop::TooDeep));
    }
    stand_below(alloc, env, a, b, s, t)
}
