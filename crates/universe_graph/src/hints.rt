//! Whether a large universe is at most another: for each level a place of the other is found in one pass over the steps of the constraints, and tried
//! first.
ghost use Rattle.std.specs.Prelude.{◌↔◌, ◌<◌, ◌≤◌, ℕ, IsTrue, length, All, Any};
ghost use Rattle.universe_graph.specs.Spans.{span, IsSquare, Covers, IsCovered};

use crate::cover::{covers_part, is_at_most};
use crate::order::{Order, Step};
use crate::row::Row;
use universe_levels::level::LevelExpr;

/// As many levels have a hint.
const WIDTH: usize = 1025;

/// What is known of a level: that it with less than `most` added is at most the level expression at a place. Nothing is known where `most` is 0.
#[derive(Clone, Copy)]
struct Hint {
    most: u64,
    place: usize,
}

/// Whether each level expression of `low` is at most one of `high` by the spans; that at the place of its level's hint is tried first. Takes no memory,
/// but some of the stack, which a comparison of small universes doesn't ask for.
#[inline(never)]
pub(crate) fn covers_by_hints(
    rows: &[Row],
    order: &Order,
    low: &[LevelExpr],
    high: &[LevelExpr],
) -> bool
    requires square { IsSquare rows.now }
    requires low_in { All (λ e. e.level.0 < length rows.now) low.now }
    requires high_in { All (λ e. e.level.0 < length rows.now) high.now }
    ensures covered { IsTrue result ↔ IsCovered (span rows.now) low.now high.now }
{
    let mut hints = [Hint { most: 0, place: 0 }; WIDTH];
    begin(&mut hints, high);
    climb(&mut hints, order.steps());
    for part in low {
        let place = hint_of(&hints, part.level.0 as usize).place;
        if !covers_hinted(rows, *part, high, place) {
            return false;
        }
    }
    true
}

/// Whether a level expression is at most one of `high` by the spans; that at a place is tried first.
fn covers_hinted(rows: &[Row], part: LevelExpr, high: &[LevelExpr], place: usize) -> bool
    requires square { IsSquare rows.now }
    requires part_in { part.level.0 < length rows.now }
    requires high_in { All (λ e. e.level.0 < length rows.now) high.now }
    ensures covered { IsTrue result ↔ Any (Covers (span rows.now) part) high.now }
{
    covers_at(rows, part, high, place) || covers_part(rows, part, high, &mut 0)
}

/// Whether a level expression is at most the one at a place of `high` by the spans.
fn covers_at(rows: &[Row], part: LevelExpr, high: &[LevelExpr], place: usize) -> bool
    requires square { IsSquare rows.now }
    requires part_in { part.level.0 < length rows.now }
    requires high_in { All (λ e. e.level.0 < length rows.now) high.now }
    ensures covered { IsTrue result → Any (Covers (span rows.now) part) high.now }
{
    if place >= high.len() {
        return false;
    }
    let above = high[place];
    let span = rows[part.level.0 as usize].span(above.level.0 as usize);
    is_at_most(part.add, above.add, span)
}

/// Each level of `high` has its own place.
fn begin(hints: &mut [Hint], high: &[LevelExpr]) {
    for place in 0..high.len() {
        let most = u64::from(high[place].add) + 1;
        offer(hints, high[place].level.0 as usize, Hint { most, place });
    }
}

/// The lower level of each step has the place of the upper one, where that is the better.
fn climb(hints: &mut [Hint], steps: &[Step]) {
    for step in steps {
        let above = hint_of(hints, step.to);
        if above.most > 0 {
            let most = above.most.saturating_add(u64::from(step.added));
            offer(
                hints,
                step.from,
                Hint {
                    most,
                    place: above.place,
                },
            );
        }
    }
}

/// Keeps a hint for a level, where it is better than the one that is there.
fn offer(hints: &mut [Hint], level: usize, hint: Hint) {
    if let Some(kept) = hints.get_mut(level) {
        if kept.most < hint.most {
            *kept = hint;
        }
    }
}

/// The hint for a level.
fn hint_of(hints: &[Hint], level: usize) -> Hint {
    match hints.get(level) {
        Some(hint) => *hint,
        None => Hint { most: 0, place: 0 },
    }
}
