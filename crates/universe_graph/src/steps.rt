//! The table of spans as it begins: the steps of the constraints alone.
ghost use Rattle.std.specs.Prelude.{◌≡◌, ◌+◌, ◌<◌, ◌≤◌, ℕ, max, IfOk, length, replicate, All};
ghost use Rattle.universe_levels.specs.Valuation.{IsValuation, Meets};
ghost use Rattle.universe_levels.specs.Consistency.{AreOver};
ghost use Rattle.universe_graph.specs.Spans.{span, IsSquare, SpansAreWithin, HasOffered};
ghost use Rattle.universe_graph.specs.Closure.{Follows, StepsIn, HasSteps, Begins};

use crate::row::Row;
use std::alloc::{AllocError, Global};
use universe_levels::constraint::{Constraint, Relation};

/// The table of the steps alone: of each level to itself, from `Set` to each declared level, and of each constraint.
pub(crate) fn steps(
    alloc: Global,
    levels: u32,
    constraints: &[Constraint],
) -> Result<Vec<Row>, AllocError>
    requires few { levels ≤ 1024 }
    requires over { AreOver levels constraints.now }
    ensures value { IfOk result (λ rows. Begins levels constraints.now rows.items) }
{
    let width = levels as usize + 1;
    let mut rows = blank(alloc, width)?;
    add_own_steps(&mut rows);
    add_declared_steps(&mut rows);
    add_constraints(&mut rows, constraints);
    Ok(rows)
}

/// A square table without any chain.
fn blank(alloc: Global, width: usize) -> Result<Vec<Row>, AllocError>
    ensures value { IfOk result (λ rows. rows.items ≡ replicate width (replicate width 0)) }
{
    let mut rows = Vec::new(alloc);
    for _i in 0..width {
        rows.push(Row::empty(alloc, width)?)?;
    }
    Ok(rows)
}

/// Adds the step of each level to itself.
fn add_own_steps(rows: &mut Vec<Row>)
    requires square { IsSquare rows.old.items }
    ensures height { length rows.new.items ≡ length rows.old.items }
    ensures square { IsSquare rows.new.items }
    ensures more { (i j : ℕ) → span rows.old.items i j ≤ span rows.new.items i j }
    ensures steps { (i : ℕ) → i < length rows.old.items → 1 ≤ span rows.new.items i i }
    ensures follows { (v : ℕ → ℕ) → Follows v (span rows.old.items) → Follows v (span rows.new.items) }
    ensures small { SpansAreWithin 2 rows.old.items → SpansAreWithin 2 rows.new.items }
{
    for i in 0..rows.len() {
        offer(rows, i, i, 1);
    }
}

/// Adds the strict step from `Set` to each declared level.
fn add_declared_steps(rows: &mut Vec<Row>)
    requires square { IsSquare rows.old.items }
    ensures height { length rows.new.items ≡ length rows.old.items }
    ensures square { IsSquare rows.new.items }
    ensures more { (i j : ℕ) → span rows.old.items i j ≤ span rows.new.items i j }
    ensures steps { (l : ℕ) → 1 ≤ l → l < length rows.old.items → 2 ≤ span rows.new.items 0 l }
    ensures follows { (v : ℕ → ℕ) → ((l : ℕ) → 1 ≤ l → l < length rows.old.items → v 0 < v l) → Follows v (span rows.old.items) → Follows v (span rows.new.items) }
    ensures small { SpansAreWithin 2 rows.old.items → SpansAreWithin 2 rows.new.items }
{
    for level in 1..rows.len() {
        offer(rows, 0, level, 2);
    }
}

/// Adds the steps of the constraints.
fn add_constraints(rows: &mut Vec<Row>, constraints: &[Constraint])
    requires square { IsSquare rows.old.items }
    requires over { All (λ c. (c.left.0 < length rows.old.items) × (c.right.0 < length rows.old.items)) constraints.now }
    ensures height { length rows.new.items ≡ length rows.old.items }
    ensures square { IsSquare rows.new.items }
    ensures more { (i j : ℕ) → span rows.old.items i j ≤ span rows.new.items i j }
    ensures steps { All (λ c. StepsIn (span rows.new.items) c.relation c.left.0 c.right.0) constraints.now }
    ensures follows { (v : ℕ → ℕ) → All (Meets v) constraints.now → Follows v (span rows.old.items) → Follows v (span rows.new.items) }
    ensures small { SpansAreWithin 2 rows.old.items → SpansAreWithin 2 rows.new.items }
{
    for constraint in constraints {
        add_constraint(rows, *constraint);
    }
}

/// Adds the steps of a constraint.
fn add_constraint(rows: &mut Vec<Row>, constraint: Constraint)
    requires square { IsSquare rows.old.items }
    requires left { constraint.left.0 < length rows.old.items }
    requires right { constraint.right.0 < length rows.old.items }
    ensures height { length rows.new.items ≡ length rows.old.items }
    ensures square { IsSquare rows.new.items }
    ensures more { (i j : ℕ) → span rows.old.items i j ≤ span rows.new.items i j }
    ensures steps { StepsIn (span rows.new.items) constraint.relation constraint.left.0 constraint.right.0 }
    ensures follows { (v : ℕ → ℕ) → Meets v constraint → Follows v (span rows.old.items) → Follows v (span rows.new.items) }
    ensures small { SpansAreWithin 2 rows.old.items → SpansAreWithin 2 rows.new.items }
{
    let left = constraint.left.0 as usize;
    let right = constraint.right.0 as usize;
    match constraint.relation {
        Relation::Lt => offer(rows, left, right, 2),
        Relation::Le => offer(rows, left, right, 1),
        Relation::Eq => {
            offer(rows, left, right, 1);
            offer(rows, right, left, 1);
        }
    }
}

/// Keeps a span from a level to another, where it is greater than the one that is there.
fn offer(rows: &mut Vec<Row>, from: usize, to: usize, size: u16)
    requires square { IsSquare rows.old.items }
    requires from_in { from < length rows.old.items }
    requires to_in { to < length rows.old.items }
    ensures height { length rows.new.items ≡ length rows.old.items }
    ensures square { IsSquare rows.new.items }
    ensures spans { HasOffered (span rows.old.items) (span rows.new.items) from to size }
{
    let row = &mut rows[from];
    row.offer(to, size);
}
