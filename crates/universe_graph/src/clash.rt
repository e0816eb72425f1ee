//! Which constraints clash, where no valuation meets all of them.
ghost use Rattle.std.specs.Prelude.{◌≡◌, ◌+◌, ◌<◌, ◌≤◌, ◌^◌, ℕ, true, false, IfOk, IfSome, length, All, Contains, IsTrue, slice_index_or};
ghost use Rattle.std.specs.List.Sorted.{IsStrictlyIncreasing};
ghost use Rattle.universe_levels.specs.Valuation.{IsValuation, Meets};
ghost use Rattle.universe_levels.specs.Consistency.{AreOver, Solves};
ghost use Rattle.universe_graph.specs.Listed.{MeetsAt, Clashes, AreClashing};

use std::alloc::{AllocError, Global};
use universe_levels::constraint::{Constraint, Relation};
use universe_levels::level::Level;

/// The places of constraints that alone have no valuation, in rising order: those of one cycle, where one is found.
pub(crate) fn clash(
    alloc: Global,
    levels: u32,
    constraints: &[Constraint],
) -> Result<Vec<u32>, AllocError>
    requires few { levels ≤ 1024 }
    requires few_constraints { length constraints.now ≤ 16384 }
    requires over { AreOver levels constraints.now }
    requires inconsistent { (v : ℕ → ℕ) → Solves levels constraints.now v → ⊥ }
    ensures value { IfOk result (λ places. Clashes levels constraints.now places.items) }
{
    let marks = clashing(alloc, levels, constraints)?;
    let places = places_of(alloc, marks.as_slice())?;
    Ok(places)
}

/// Marks constraints that alone have no valuation: those of one cycle, where one is found, and else all.
fn clashing(alloc: Global, levels: u32, constraints: &[Constraint]) -> Result<Vec<bool>, AllocError>
    requires few { levels ≤ 1024 }
    requires few_constraints { length constraints.now ≤ 16384 }
    requires over { AreOver levels constraints.now }
    requires inconsistent { (v : ℕ → ℕ) → Solves levels constraints.now v → ⊥ }
    ensures length { IfOk result (λ marks. length marks.items ≡ length constraints.now) }
    ensures clashing { IfOk result (λ marks. AreClashing levels constraints.now marks.items) }
{
    let raises = climb(alloc, levels, constraints)?;
    if let Some(used) = retrace(alloc, levels, constraints, raises.as_slice())? {
        return Ok(used);
    }
    let all = vec![in alloc; true; constraints.len()]?;
    Ok(all)
}

/// The places that are marked, in rising order.
fn places_of(alloc: Global, marks: &[bool]) -> Result<Vec<u32>, AllocError>
    requires few { length marks.now < 2 ^ 32 }
    ensures rising { IfOk result (λ places. IsStrictlyIncreasing places.items) }
    ensures within { IfOk result (λ places. All (λ i. i < length marks.now) places.items) }
    ensures all { IfOk result (λ places. (k : ℕ) → k < length marks.now → slice_index_or marks.now k false ≡ true → Contains places.items k) }
{
    let mut places = Vec::new(alloc);
    for i in 0..marks.len() {
        if marks[i] {
            places.push(i as u32)?;
        }
    }
    Ok(places)
}

/// A value that the constraints force upon a level, and the place of the constraint that did so last.
#[derive(Clone, Copy)]
struct Raise {
    value: u32,
    by: Option<u32>,
}

/// The values that the constraints force upon the levels, by as many rounds as there are levels, and two more: where no valuation meets
/// the constraints, some value is too large for a chain without a cycle.
fn climb(alloc: Global, levels: u32, constraints: &[Constraint]) -> Result<Vec<Raise>, AllocError>
    requires few { levels ≤ 1024 }
    requires few_constraints { length constraints.now ≤ 16384 }
    requires over { AreOver levels constraints.now }
    ensures length { IfOk result (λ raises. length raises.items ≡ levels + 1) }
{
    let start = Raise { value: 1, by: None };
    let mut raises = vec![in alloc; start; levels as usize + 1]?;
    raises[0].value = 0;
    for _round in 0..levels + 2 {
        climb_once(raises.as_mut_slice(), constraints);
    }
    Ok(raises)
}

/// Raises each level as the constraints ask, once.
fn climb_once(raises: &mut [Raise], constraints: &[Constraint])
    requires over { All (λ c. (c.left.0 < length raises.old) × (c.right.0 < length raises.old)) constraints.now }
    requires few_constraints { length constraints.now ≤ 16384 }
{
    for i in 0..constraints.len() {
        let Constraint {
            left,
            relation,
            right,
        } = constraints[i];
        match relation {
            Relation::Lt => lift(raises, left, right, 1, i as u32),
            Relation::Le => lift(raises, left, right, 0, i as u32),
            Relation::Eq => {
                lift(raises, left, right, 0, i as u32);
                lift(raises, right, left, 0, i as u32);
            }
        }
    }
}

/// Raises a level to the value of another and `more`, where it is below.
fn lift(raises: &mut [Raise], from: Level, to: Level, more: u32, by: u32)
    requires from_in { from.0 < length raises.old }
    requires to_in { to.0 < length raises.old }
{
    let value = raises[from.0 as usize].value.saturating_add(more);
    if raises[to.0 as usize].value < value {
        raises[to.0 as usize] = Raise {
            value,
            by: Some(by),
        };
    }
}

/// The level that a constraint puts below another, or equal to it, and by how much.
#[derive(Clone, Copy)]
struct Step {
    from: Level,
    more: u32,
}

/// How a constraint leads to a level, where it does.
fn step_to(constraint: Constraint, level: Level) -> Option<Step>
    ensures more { IfSome result (λ s. s.more ≤ 1) }
    ensures from { (n : ℕ) → constraint.left.0 ≤ n → constraint.right.0 ≤ n → IfSome result (λ s. s.from.0 ≤ n) }
    ensures meaning { IfSome result (λ s. (v : ℕ → ℕ) → Meets v constraint → v s.from.0 + s.more ≤ v level.0) }
{
    let Constraint {
        left,
        relation,
        right,
    } = constraint;
    if right == level {
        let more = if relation == Relation::Lt { 1 } else { 0 };
        return Some(Step { from: left, more });
    }
    if left == level && relation == Relation::Eq {
        return Some(Step {
            from: right,
            more: 0,
        });
    }
    None
}

/// The step by which a level was raised last, with the place of its constraint.
fn last_step(constraints: &[Constraint], raises: &[Raise], level: u32) -> Option<(u32, Step)>
    requires level_in { level < length raises.now }
    ensures place { IfSome result (λ found. found.0 < length constraints.now) }
    ensures more { IfSome result (λ found. found.1.more ≤ 1) }
    ensures from { (n : ℕ) → AreOver n constraints.now → IfSome result (λ found. found.1.from.0 ≤ n) }
    ensures meaning { IfSome result (λ found. (v : ℕ → ℕ) → MeetsAt v constraints.now found.0 → v found.1.from.0 + found.1.more ≤ v level) }
{
    let place = raises[level as usize].by?;
    if place as usize >= constraints.len() {
        return None;
    }
    let step = step_to(constraints[place as usize], Level(level))?;
    Some((place, step))
}

/// The level where a walk back over the last steps begins: `Set` where it was raised, and else one on a cycle, where there is one.
fn turning_point(levels: u32, constraints: &[Constraint], raises: &[Raise]) -> u32
    requires few { levels ≤ 1024 }
    requires over { AreOver levels constraints.now }
    requires raises { length raises.now ≡ levels + 1 }
    ensures within { result ≤ levels }
{
    if raises[0].value > 0 {
        return 0;
    }
    let mut level = highest(levels, raises);
    for _i in 0..levels + 1 {
        match last_step(constraints, raises, level) {
            Some((_, step)) => level = step.from.0,
            None => return level,
        }
    }
    level
}

/// A level whose value is too large for a chain without a cycle, where there is one.
fn highest(levels: u32, raises: &[Raise]) -> u32
    requires few { levels ≤ 1024 }
    requires raises { length raises.now ≡ levels + 1 }
    ensures within { result ≤ levels }
{
    for level in 0..levels + 1 {
        if raises[level as usize].value > levels {
            return level;
        }
    }
    0
}

/// Walks back over the last steps and marks their constraints, until they alone clash; `None` where they don't.
fn retrace(
    alloc: Global,
    levels: u32,
    constraints: &[Constraint],
    raises: &[Raise],
) -> Result<Option<Vec<bool>>, AllocError>
    requires few { levels ≤ 1024 }
    requires over { AreOver levels constraints.now }
    requires raises { length raises.now ≡ levels + 1 }
    ensures length { IfOk result (λ found. IfSome found (λ used. length used.items ≡ length constraints.now)) }
    ensures clashing { IfOk result (λ found. IfSome found (λ used. AreClashing levels constraints.now used.items)) }
{
    let start = turning_point(levels, constraints, raises);
    let mut used = vec![in alloc; false; constraints.len()]?;
    let mut level = start;
    let mut gain = 0;
    for _i in 0..levels + 1 {
        let Some((place, step)) = last_step(constraints, raises, level) else {
            return Ok(None);
        };
        used[place as usize] = true;
        level = step.from.0;
        gain += step.more;
        if cannot_be(start, level, gain) {
            return Ok(Some(used));
        }
    }
    Ok(None)
}

/// Whether no valuation gives `level` and `gain` at most the value of `start`.
fn cannot_be(start: u32, level: u32, gain: u32) -> bool
    ensures sound { (levels : ℕ) (v : ℕ → ℕ) → level ≤ levels → IsTrue result → IsValuation levels v → v level + gain ≤ v start → ⊥ }
{
    if start == 0 {
        level > 0 || gain > 0
    } else {
        level == start && gain > 0
    }
}
