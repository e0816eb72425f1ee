//! The constraints in an order in which they rise, for comparisons of large universes.
//!
//! What the order is decides the time of a comparison and not its answer: `hints` takes from it what is tried first. So nothing is promised of it.
ghost use Rattle.std.specs.Prelude.{◌<◌, length};
ghost use Rattle.universe_graph.specs.Spans.{IsSquare};

use crate::row::Row;
use std::alloc::{AllocError, Global};
use universe_levels::constraint::{Constraint, Relation};

/// A step up: the level `to` is at least the level `from` and what is `added`.
#[derive(Clone, Copy)]
pub(crate) struct Step {
    /// When the step is taken, among the others.
    turn: u32,
    pub(crate) from: usize,
    pub(crate) to: usize,
    /// 1 for a strict step, and else 0.
    pub(crate) added: u32,
}

/// The steps of constraints. Each comes after those that lead on from its upper level; levels that are equal are gathered in the first of them
/// before steps lead down from any of them.
#[derive(Drop)]
pub(crate) struct Order {
    steps: Vec<Step>,
}

impl Order {
    /// The order of constraints whose table of spans is closed.
    pub(crate) fn of(
        alloc: Global,
        rows: &[Row],
        constraints: &[Constraint],
    ) -> Result<Order, AllocError>
        requires square { IsSquare rows.now }
    {
        let heights = heights(alloc, rows)?;
        let mut steps = Vec::new(alloc);
        push_constraints(&mut steps, heights.as_slice(), constraints)?;
        push_equals(&mut steps, heights.as_slice(), rows)?;
        steps.as_mut_slice().sort_unstable_by_key(|step| step.turn);
        Ok(Order { steps })
    }

    /// The steps, in their order.
    pub(crate) fn steps(&self) -> &[Step] {
        self.steps.as_slice()
    }
}

/// Of each level, to how many levels a chain leads up from it: to fewer from the upper level of a step, but where the two are equal.
fn heights(alloc: Global, rows: &[Row]) -> Result<Vec<u32>, AllocError> {
    let mut heights = Vec::new(alloc);
    for row in rows {
        heights.push(row.reached())?;
    }
    Ok(heights)
}

/// Adds the steps of the constraints between levels that aren't equal.
fn push_constraints(
    steps: &mut Vec<Step>,
    heights: &[u32],
    constraints: &[Constraint],
) -> Result<(), AllocError> {
    for constraint in constraints {
        let from = constraint.left.0 as usize;
        let to = constraint.right.0 as usize;
        let height = height_of(heights, from);
        if height != height_of(heights, to) {
            let added = if constraint.relation == Relation::Lt {
                1
            } else {
                0
            };
            steps.push(step_at(height, 0, from, to, added))?;
        }
    }
    Ok(())
}

/// Adds the steps between equal levels: from the first of them to each, and then from each to the first.
fn push_equals(steps: &mut Vec<Step>, heights: &[u32], rows: &[Row]) -> Result<(), AllocError>
    requires square { IsSquare rows.now }
{
    for i in 0..rows.len() {
        let first = first_equal(&rows[i], heights, i);
        if first < i {
            let height = height_of(heights, i);
            steps.push(step_at(height, 1, first, i, 0))?;
            steps.push(step_at(height, 2, i, first, 0))?;
        }
    }
    Ok(())
}

/// The first level that is equal to a level, whose row this is.
fn first_equal(row: &Row, heights: &[u32], level: usize) -> usize
    requires level_in { level < length row.now }
{
    let height = height_of(heights, level);
    for j in 0..level {
        if row.span(j) > 0 && height_of(heights, j) == height {
            return j;
        }
    }
    level
}

/// The height of a level, 0 where there is no such level.
fn height_of(heights: &[u32], level: usize) -> u32 {
    match heights.get(level) {
        Some(height) => *height,
        None => 0,
    }
}

/// A step from a level of that height; at one height the lesser phase comes first.
fn step_at(height: u32, phase: u32, from: usize, to: usize, added: u32) -> Step {
    Step {
        turn: height.saturating_mul(3).saturating_add(phase),
        from,
        to,
        added,
    }
}
