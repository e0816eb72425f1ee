//! One row of the table of spans: the spans from one level to each.
ghost use Rattle.std.specs.Prelude.{◌≡◌, ◌↔◌, ◌+◌, ◌<◌, ◌≤◌, ℕ, max, IfOk, IsTrue, length, replicate, slice_index, slice_set};
ghost use Rattle.universe_graph.specs.Spans.{chained};

use std::alloc::{AllocError, Global};
use std::marker::Model;

/// The spans from one level: for each level, by its number, one more than the largest number of strict steps in a chain up to it, and 0
/// where there is no chain. Contracts see it as the list of the spans.
#[derive(Drop)]
pub(crate) struct Row {
    spans: Vec<u16>,
}

impl Model for Row {
    ghost use Rattle.std.specs.Prelude.{List, ℕ};

    ghost Value = { List ℕ };

    ghost view = { λ r. r.spans.items };
}

impl Row {
    /// A row of that many levels without any chain.
    pub(crate) fn empty(alloc: Global, width: usize) -> Result<Row, AllocError>
        ensures value { IfOk result (λ r. r ≡ replicate width 0) }
    {
        let spans = vec![in alloc; 0; width]?;
        Ok(Row { spans })
    }

    /// The span to a level.
    pub(crate) fn span(&self, level: usize) -> u16
        requires level_in { level < length self.now }
        ensures value { result ≡ slice_index self.now level }
    {
        self.spans[level]
    }

    /// To how many levels there is a chain.
    pub(crate) fn reached(&self) -> u32 {
        let mut reached: u32 = 0;
        for span in &self.spans {
            if *span > 0 {
                reached = reached.saturating_add(1);
            }
        }
        reached
    }

    /// Keeps a span to a level, where it is greater than the one that is there.
    pub(crate) fn offer(&mut self, level: usize, span: u16)
        requires level_in { level < length self.old }
        ensures value { self.new ≡ slice_set self.old level (max (slice_index self.old level) span) }
    {
        let most = self.spans[level].max(span);
        self.spans[level] = most;
    }

    /// Takes over the spans of another row of as many levels.
    pub(crate) fn copy_from(&mut self, other: &Row)
        requires width { length self.old ≡ length other.now }
        ensures value { self.new ≡ other.now }
    {
        self.spans
            .as_mut_slice()
            .copy_from_slice(other.spans.as_slice());
    }

    /// Keeps each span that a chain through a level gives, `by` to the level and `next` from there. The answer is within the limit exactly
    /// where each span is.
    pub(crate) fn extend_through(&mut self, by: u16, next: &Row, limit: u16) -> u16
        requires width { length self.old ≡ length next.now }
        requires small { by ≤ 2000 }
        requires small_next { (j : ℕ) → slice_index next.now j ≤ 2000 }
        requires within { (j : ℕ) → slice_index self.old j ≤ limit }
        ensures width { length self.new ≡ length self.old }
        ensures value { (j : ℕ) → slice_index self.new j ≡ max (slice_index self.old j) (chained by (slice_index next.now j)) }
        ensures within { (result ≤ limit) ↔ ((j : ℕ) → slice_index self.new j ≤ limit) }
    {
        if by == 0 {
            return 0;
        }
        lengthen(self.spans.as_mut_slice(), by, next.spans.as_slice())
    }
}

/// Keeps each span that a chain gives, `by` and then `next`; the answer is the largest span.
fn lengthen(spans: &mut [u16], by: u16, next: &[u16]) -> u16
    requires width { length spans.old ≡ length next.now }
    requires by_some { 1 ≤ by }
    requires small { by ≤ 2000 }
    requires small_next { (j : ℕ) → slice_index next.now j ≤ 2000 }
    ensures value { (j : ℕ) → slice_index spans.new j ≡ max (slice_index spans.old j) (chained by (slice_index next.now j)) }
    ensures bound { (j : ℕ) → slice_index spans.new j ≤ result }
    ensures least { (n : ℕ) → ((j : ℕ) → slice_index spans.new j ≤ n) → result ≤ n }
{
    let mut largest = 0;
    for j in 0..spans.len() {
        let on = next[j];
        let chain = if on == 0 { 0 } else { by - 1 + on };
        let most = spans[j].max(chain);
        spans[j] = most;
        largest = most.max(largest);
    }
    largest
}
