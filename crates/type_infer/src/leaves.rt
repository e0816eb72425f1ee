//! Variables and sorts: rules 1 and 2.
ghost use Rattle.std.specs.Prelude.{◌≡◌, MatchOption, None, Some};
ghost use Rattle.pc_rules.specs.declared.meter.Account.{Account};
ghost use Rattle.calculus_rules.specs.Context.{type_at};
ghost use Rattle.pc_rules.specs.Follows.{Answers};
ghost use Rattle.pc_rules.specs.DirectedTyping.{first_undeclared, undeclared_in, rel_rule, sort_rule};

use calculus_rules::entry::Entry;
use pc_rules::broken::Broken;
use pc_rules::context::Ctx;
use pc_rules::environment::Env;
use pc_rules::stop::Halt;
use pc_terms::term::{Node, Term};
use std::alloc::Global;
use universe_levels::level::{Level, LevelExpr};
use universe_levels::sort::Sort;

/// The type of variable `i` (de Bruijn, the innermost 0) of a context, rule 1: its entry's type, lifted by `i + 1`. `UnboundRel` with the
/// index and the context's length where there is no entry, and else only `TooDeep` and `Memory`.
pub fn rel_rule(alloc: Global, ctx: &Ctx, i: u32) -> Result<Term, Halt>
    ensures answers { (u : Account) → Answers (rel_rule ctx.now i (type_at ctx.now i) u) result u }
{
    let length = ctx.len();
    if i >= length {
        return Err(Halt::Broken(Broken::UnboundRel { index: i, length }));
    }
    match ctx.entry(i) {
        Some(Entry::Assumed(ty)) => Ok(ty.lift(alloc, i + 1, 0)?),
        Some(Entry::Defined { ty, .. }) => Ok(ty.lift(alloc, i + 1, 0)?),
        None => Err(Halt::Broken(Broken::UnboundRel { index: i, length })),
    }
}

/// The first level above `levels`, the number of levels that are declared; none where all are declared.
fn first_undeclared(levels: u32, parts: &[LevelExpr]) -> Option<Level>
    ensures is { result ≡ first_undeclared levels parts.now }
{
    for i in 0..parts.len() {
        let level = parts[i].level;
        if level.0 > levels {
            return Some(level);
        }
    }
    None
}

/// The first level of a sort above `levels`, the number of levels that are declared; none where all are declared.
pub(crate) fn undeclared_in(levels: u32, s: &Sort) -> Option<Level>
    ensures is { result ≡ undeclared_in levels s.now }
{
    match s {
        Sort::Prop => None,
        Sort::Of(u) => first_undeclared(levels, u.parts()),
    }
}

/// The sort of a sort, rule 2. `LevelUndeclared` at its first level that the environment does not declare.
pub fn sort_rule(alloc: Global, env: &Env, s: &Sort) -> Result<Term, Halt>
    ensures answers { (u : Account) → Answers (sort_rule env.now s.now u) result u }
{
    let levels = env.graph().levels();
    if let Some(level) = undeclared_in(levels, s) {
        return Err(Halt::Broken(Broken::LevelUndeclared { level }));
    }
    let above = s.super_of(alloc)?;
    Ok(Term::make(alloc, Node::Sort(above))?)
}
