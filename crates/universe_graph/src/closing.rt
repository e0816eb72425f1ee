//! Closing the table of spans: chains through one level after another, as Floyd and Warshall do.
ghost use Rattle.std.specs.Prelude.{◌≡◌, ◌↔◌, ◌+◌, ◌<◌, ◌≤◌, ℕ, IfOk, [], length, slice_index_or};
ghost use Rattle.std.specs.Bool.{OnTrue, OnFalse};
ghost use Rattle.universe_graph.specs.Spans.{span, through, IsSquare, SpansAreWithin};
ghost use Rattle.universe_graph.specs.Closure.{Follows, IsClosedAt};

use crate::row::Row;
use std::alloc::{AllocError, Global};

/// Adds the spans of all chains. The answer is false where that was given up, since some strict chain leads back to its beginning: then no
/// valuation follows the spans that were there.
pub(crate) fn close(alloc: Global, levels: u32, rows: &mut Vec<Row>) -> Result<bool, AllocError>
    requires few { levels ≤ 1024 }
    requires height { length rows.old.items ≡ levels + 1 }
    requires square { IsSquare rows.old.items }
    requires itself { (i : ℕ) → i ≤ levels → 1 ≤ span rows.old.items i i }
    requires small { SpansAreWithin 2 rows.old.items }
    ensures height { length rows.new.items ≡ levels + 1 }
    ensures square { IsSquare rows.new.items }
    ensures more { (i j : ℕ) → span rows.old.items i j ≤ span rows.new.items i j }
    ensures follows { (v : ℕ → ℕ) → Follows v (span rows.old.items) → Follows v (span rows.new.items) }
    ensures closed { IfOk result (λ done. OnTrue done ((m : ℕ) → m ≤ levels → IsClosedAt levels (span rows.new.items) m)) }
    ensures clash { IfOk result (λ done. OnFalse done ((v : ℕ → ℕ) → Follows v (span rows.old.items) → ((l : ℕ) → v l ≤ levels + 1) → ⊥)) }
{
    let limit = levels as u16 + 2;
    let mut next = Row::empty(alloc, rows.len())?;
    for level in 0..levels + 1 {
        let row = &rows[level as usize];
        if row.span(level as usize) > 1 {
            return Ok(false);
        }
        next.copy_from(row);
        if go_through(rows, level as usize, &next, limit) > limit {
            return Ok(false);
        }
    }
    Ok(true)
}

/// Adds the spans of the chains through a level, whose row is `next`. The answer is within the limit exactly where each span is.
fn go_through(rows: &mut Vec<Row>, level: usize, next: &Row, limit: u16) -> u16
    requires square { IsSquare rows.old.items }
    requires level_in { level < length rows.old.items }
    requires next { next.now ≡ slice_index_or rows.old.items level [] }
    requires limit { limit ≤ 2000 }
    requires within { SpansAreWithin limit rows.old.items }
    ensures height { length rows.new.items ≡ length rows.old.items }
    ensures square { IsSquare rows.new.items }
    ensures value { (i j : ℕ) → span rows.new.items i j ≡ through (span rows.old.items) level i j }
    ensures within { (result ≤ limit) ↔ SpansAreWithin limit rows.new.items }
{
    let mut largest = 0;
    for i in 0..rows.len() {
        let row = &mut rows[i];
        let by = row.span(level);
        let most = row.extend_through(by, next, limit);
        largest = most.max(largest);
    }
    largest
}
