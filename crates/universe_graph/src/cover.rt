//! Whether a universe is at most another, by the spans.
ghost use Rattle.std.specs.Prelude.{◌↔◌, ◌<◌, ◌≤◌, ℕ, suc, IsTrue, length, All, Any};
ghost use Rattle.universe_graph.specs.Spans.{chained, span, IsSquare, Covers, IsCovered};

use crate::hints::covers_by_hints;
use crate::order::Order;
use crate::row::Row;
use universe_levels::level::{Level, LevelExpr};

/// Whether each level expression of `low` is at most one of `high` by the spans. Takes no memory.
///
/// Where both rise with the levels, each part's own level is found by going once along both; only a part that isn't at most what `high`
/// adds to its own level is compared with each of `high`. Where that has taken as many looks as there are constraints and levels, a pass over
/// the constraints tells what each part is compared with first.
pub(crate) fn covers(rows: &[Row], order: &Order, low: &[LevelExpr], high: &[LevelExpr]) -> bool
    requires square { IsSquare rows.now }
    requires itself { (i : ℕ) → i < length rows.now → 1 ≤ span rows.now i i }
    requires low_in { All (λ e. e.level.0 < length rows.now) low.now }
    requires high_in { All (λ e. e.level.0 < length rows.now) high.now }
    ensures covered { IsTrue result ↔ IsCovered (span rows.now) low.now high.now }
{
    let enough = rows.len().saturating_add(order.steps().len());
    let mut looks = 0;
    let mut at = 0;
    for part in low {
        if looks > enough {
            return covers_by_hints(rows, order, low, high);
        }
        at = own_place(part.level, high, at);
        if !covers_from(rows, *part, high, at, &mut looks) {
            return false;
        }
    }
    true
}

/// The first place from `at` on whose level isn't below a level, or the end.
fn own_place(level: Level, high: &[LevelExpr], at: usize) -> usize {
    for i in at..high.len() {
        if high[i].level.0 >= level.0 {
            return i;
        }
    }
    high.len()
}

/// Whether a level expression is at most one of `high` by the spans, where the one at place `at` is tried first.
fn covers_from(
    rows: &[Row],
    part: LevelExpr,
    high: &[LevelExpr],
    at: usize,
    looks: &mut usize,
) -> bool
    requires square { IsSquare rows.now }
    requires itself { 1 ≤ span rows.now part.level.0 part.level.0 }
    requires part_in { part.level.0 < length rows.now }
    requires high_in { All (λ e. e.level.0 < length rows.now) high.now }
    ensures covered { IsTrue result ↔ Any (Covers (span rows.now) part) high.now }
{
    is_own(part, high, at) || covers_part(rows, part, high, looks)
}

/// Whether the level expression at a place is of the part's own level and adds no less.
fn is_own(part: LevelExpr, high: &[LevelExpr], at: usize) -> bool
    ensures covered { (s : ℕ → ℕ → ℕ) → 1 ≤ s part.level.0 part.level.0 → IsTrue result → Any (Covers s part) high.now }
{
    if at >= high.len() {
        return false;
    }
    let own = high[at];
    own.level == part.level && part.add <= own.add
}

/// Whether a level expression is at most one of `high` by the spans. Where it is, `looks` grows by how many were looked at.
pub(crate) fn covers_part(
    rows: &[Row],
    part: LevelExpr,
    high: &[LevelExpr],
    looks: &mut usize,
) -> bool
    requires square { IsSquare rows.now }
    requires part_in { part.level.0 < length rows.now }
    requires high_in { All (λ e. e.level.0 < length rows.now) high.now }
    ensures covered { IsTrue result ↔ Any (Covers (span rows.now) part) high.now }
{
    let row = &rows[part.level.0 as usize];
    for i in 0..high.len() {
        let above = high[i];
        let span = row.span(above.level.0 as usize);
        if is_at_most(part.add, above.add, span) {
            *looks = looks.saturating_add(i + 1);
            return true;
        }
    }
    false
}

/// Whether a level with `low` added is at most another with `high` added, where the span leads from the one to the other.
pub(crate) fn is_at_most(low: u32, high: u32, span: u16) -> bool
    ensures covered { IsTrue result ↔ (low < chained (suc high) span) }
{
    span > 0 && u64::from(low) < u64::from(high) + u64::from(span)
}
