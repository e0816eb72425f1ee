//! What no clause says: that each call has an answer where memory is ample, at values from outside, and that a cycle is listed alone.
ghost use Rattle.std.specs.Prelude.{◌≤◌, IfOk};
ghost use Rattle.universe_levels.specs.Consistency.{AreOver, IsOver};

use crate::graph::{Graph, GraphFault};
use crate::numbers::Numbers;
use std::alloc::{AllocError, Global};
use std::test::Fail;
use universe_levels::constraint::{Constraint, Relation};
use universe_levels::level::{Level, LevelExpr};
use universe_levels::universe::{Universe, UniverseFault};

/// Constraints on that many levels from triples: a level, 0 for less, 1 for at most and 2 for equal, and a level.
fn constraints_of(
    alloc: Global,
    levels: u32,
    triples: &[(u32, u32, u32)],
) -> Result<Vec<Constraint>, AllocError>
    ensures over { IfOk result (λ cs. AreOver levels cs.items) }
{
    let mut constraints = Vec::new(alloc);
    for triple in triples {
        constraints.push(constraint_of(levels, triple.0, triple.1, triple.2))?;
    }
    Ok(constraints)
}

fn constraint_of(levels: u32, left: u32, relation: u32, right: u32) -> Constraint
    ensures left { result.left.0 ≤ levels }
    ensures right { result.right.0 ≤ levels }
{
    let relation = match relation {
        0 => Relation::Lt,
        1 => Relation::Le,
        _ => Relation::Eq,
    };
    Constraint {
        left: Level(left.min(levels)),
        relation,
        right: Level(right.min(levels)),
    }
}

/// A universe over that many levels from pairs: a level, and what is added.
fn universe_of(alloc: Global, levels: u32, pairs: &[(u32, u32)]) -> Result<Universe, UniverseFault>
    ensures over { IfOk result (λ u. IsOver levels u) }
{
    let mut parts = Vec::new(alloc);
    for pair in pairs {
        let part = LevelExpr {
            level: Level(pair.0.min(levels)),
            add: pair.1,
        };
        parts.push(part).map_err(|_| UniverseFault::Memory)?;
    }
    let universe = Universe::of(alloc, parts.as_slice())?;
    Ok(universe)
}

/// 0 for a cycle, 1 where the first universe is at most the second, and 2 where it isn't.
fn judged(
    alloc: Global,
    levels: u32,
    triples: &[(u32, u32, u32)],
    low: &[(u32, u32)],
    high: &[(u32, u32)],
) -> Result<u32, Fail> {
    let constraints = constraints_of(alloc, levels, triples)?;
    if levels > 1024 || constraints.len() > 16384 {
        return Ok(3);
    }
    let graph = match Graph::build(alloc, levels, constraints.as_slice()) {
        Ok(graph) => graph,
        Err(
            GraphFault::Cycle {
                constraints: _listed,
            },
        ) => return Ok(0),
        Err(GraphFault::Memory) => return Ok(3),
    };
    let low = universe_of(alloc, levels, low)?;
    let high = universe_of(alloc, levels, high)?;
    Ok(if graph.entails(&low, &high) { 1 } else { 2 })
}

/// The places of a cycle.
fn cycle(alloc: Global, levels: u32, triples: &[(u32, u32, u32)]) -> Result<Option<Numbers>, Fail> {
    let constraints = constraints_of(alloc, levels, triples)?;
    if levels > 1024 || constraints.len() > 16384 {
        return Ok(None);
    }
    match Graph::build(alloc, levels, constraints.as_slice()) {
        Ok(_graph) => Ok(None),
        Err(GraphFault::Cycle { constraints }) => Ok(Some(constraints)),
        Err(GraphFault::Memory) => Ok(None),
    }
}

#[test]
fn lists_the_cycle_alone(rt: HostRuntime) -> Result<(), Fail> {
    let rows: [(u32, &[(u32, u32, u32)], &[u32]); 6] = [
        (2, &[(1, 0, 2), (2, 0, 1)], &[0, 1]),
        (3, &[(1, 0, 2), (2, 0, 1)], &[0, 1]),
        (
            3,
            &[(2, 1, 3), (1, 0, 2), (1, 1, 3), (2, 1, 1), (0, 1, 1)],
            &[1, 3],
        ),
        (3, &[(1, 1, 2), (3, 2, 2), (1, 1, 1), (3, 0, 1)], &[0, 1, 3]),
        (3, &[(1, 0, 2), (2, 1, 0), (1, 1, 3)], &[1]),
        (3, &[(1, 1, 2), (2, 0, 2)], &[1]),
    ];
    for (levels, triples, want) in rows {
        let listed = cycle(rt.alloc(), levels, triples)?.ok_or("no cycle")?;
        assert_eq!(rt; listed.as_slice(), want);
        assert_eq!(rt; listed.into_vec().as_slice(), want);
    }
    Ok(())
}

#[test]
fn judges_levels_above_set(rt: HostRuntime) -> Result<(), Fail> {
    let le = [(1, 1, 2)];
    let constraints = constraints_of(rt.alloc(), 3, &le)?;
    assert_eq!(rt; constraints.len(), 1);
    let graph = Graph::build(rt.alloc(), 3, constraints.as_slice())
        .ok()
        .ok_or("refused")?;
    assert_eq!(rt; graph.levels(), 3);
    assert_eq!(rt; graph.constraints(), constraints.as_slice());
    assert_eq!(rt; judged(rt.alloc(), 3, &le, &[(1, 0)], &[(2, 0)])?, 1);
    assert_eq!(rt; judged(rt.alloc(), 3, &le, &[(1, 1)], &[(2, 0)])?, 2);
    assert_eq!(rt; judged(rt.alloc(), 3, &le, &[(0, 1)], &[(1, 0)])?, 1);
    Ok(())
}

/// With both levels at 1 the second and the third are false.
#[test]
fn judges_two_levels(rt: HostRuntime) -> Result<(), Fail> {
    let rows = [
        ((1, 0), (2, 0), 1),
        ((2, 0), (1, 0), 2),
        ((1, 1), (2, 0), 2),
    ];
    for (low, high, want) in rows {
        let got = judged(rt.alloc(), 2, &[(1, 1, 2)], &[low], &[high])?;
        assert_eq!(rt; got, want, "at {low:?} and {high:?}");
    }
    Ok(())
}

/// Graphs on three levels, judged by trying all valuations up to 12. The last four are compared by hints.
#[test]
fn agrees_with_all_small_valuations(rt: HostRuntime) -> Result<(), Fail> {
    for (triples, low, high, want) in ROWS {
        let got = judged(rt.alloc(), 3, triples, low, high)?;
        assert_eq!(rt; got, want, "at {triples:?}, {low:?} and {high:?}");
    }
    Ok(())
}

type Row = (
    &'static [(u32, u32, u32)],
    &'static [(u32, u32)],
    &'static [(u32, u32)],
    u32,
);

const ROWS: [Row; 36] = [
    (
        &[(1, 1, 0), (2, 1, 1), (0, 1, 3), (0, 0, 1)],
        &[(2, 1), (3, 1)],
        &[(1, 0), (2, 2)],
        0,
    ),
    (
        &[(2, 1, 3), (0, 2, 3), (3, 0, 1), (1, 0, 1)],
        &[(0, 0), (1, 1)],
        &[(2, 1), (2, 0)],
        0,
    ),
    (
        &[(0, 0, 2), (1, 0, 1), (0, 0, 2), (2, 0, 2)],
        &[(3, 0), (2, 2)],
        &[(3, 0), (1, 1)],
        0,
    ),
    (
        &[(0, 2, 1), (3, 1, 1), (0, 1, 0), (1, 1, 1)],
        &[(1, 0), (0, 1)],
        &[(0, 2), (2, 2)],
        0,
    ),
    (
        &[(1, 1, 1), (3, 1, 0), (3, 0, 1), (1, 0, 1)],
        &[(0, 1), (1, 2)],
        &[(3, 0), (0, 1)],
        0,
    ),
    (
        &[(2, 1, 3), (0, 2, 1), (3, 1, 3), (3, 1, 0)],
        &[(3, 0), (3, 1)],
        &[(1, 0), (2, 1)],
        0,
    ),
    (
        &[(2, 1, 1), (0, 1, 1), (0, 2, 2), (0, 0, 3)],
        &[(1, 2), (1, 1)],
        &[(0, 0), (2, 1)],
        0,
    ),
    (
        &[(1, 0, 1), (3, 1, 3), (1, 1, 3), (2, 1, 2)],
        &[(0, 2), (3, 1)],
        &[(2, 2), (1, 1)],
        0,
    ),
    (
        &[(1, 0, 3), (3, 2, 2), (1, 1, 3), (0, 0, 1)],
        &[(3, 0), (0, 1)],
        &[(2, 0), (0, 2)],
        1,
    ),
    (
        &[(3, 2, 2), (1, 1, 3), (0, 1, 1), (3, 1, 3)],
        &[(1, 1), (0, 1)],
        &[(1, 1), (3, 0)],
        1,
    ),
    (
        &[(2, 1, 1), (0, 2, 0), (2, 0, 3), (1, 1, 2)],
        &[(1, 2), (1, 0)],
        &[(3, 0), (2, 2)],
        1,
    ),
    (
        &[(1, 0, 3), (0, 1, 3), (0, 0, 3), (3, 1, 2)],
        &[(0, 2), (1, 1)],
        &[(2, 1), (2, 0)],
        1,
    ),
    (
        &[(1, 2, 1), (3, 1, 2), (3, 0, 2), (3, 1, 3)],
        &[(1, 0), (0, 1)],
        &[(3, 1), (1, 2)],
        1,
    ),
    (
        &[(1, 1, 2), (3, 1, 1), (2, 1, 1), (0, 1, 3)],
        &[(1, 0), (1, 2)],
        &[(2, 2), (2, 0)],
        1,
    ),
    (
        &[(0, 1, 0), (1, 2, 1), (0, 0, 2), (3, 2, 1)],
        &[(0, 0), (1, 1)],
        &[(2, 0), (3, 1)],
        1,
    ),
    (
        &[(0, 1, 0), (1, 0, 2), (1, 1, 1), (0, 1, 3)],
        &[(0, 2), (1, 2)],
        &[(1, 2), (3, 1)],
        1,
    ),
    (
        &[(0, 0, 2), (2, 1, 3), (1, 1, 1), (3, 2, 1)],
        &[(0, 1), (2, 2)],
        &[(1, 1), (3, 2)],
        1,
    ),
    (
        &[(1, 1, 2), (1, 1, 2), (0, 1, 1), (1, 2, 3)],
        &[(1, 0), (2, 0)],
        &[(2, 0), (0, 2)],
        1,
    ),
    (
        &[(0, 0, 3), (2, 1, 1), (1, 1, 3), (0, 1, 3)],
        &[(0, 2), (0, 0)],
        &[(0, 1), (1, 1)],
        1,
    ),
    (
        &[(3, 2, 1), (2, 2, 1), (3, 1, 1), (2, 1, 2)],
        &[(3, 2), (2, 2)],
        &[(1, 2), (2, 2)],
        1,
    ),
    (
        &[(3, 0, 1), (1, 2, 2), (3, 0, 2), (1, 1, 2)],
        &[(1, 2), (0, 0)],
        &[(2, 0), (3, 1)],
        2,
    ),
    (
        &[(0, 2, 0), (3, 1, 3), (1, 1, 1), (0, 1, 2)],
        &[(0, 1), (3, 2)],
        &[(3, 1), (2, 2)],
        2,
    ),
    (
        &[(2, 1, 3), (1, 2, 2), (0, 1, 3), (3, 1, 3)],
        &[(3, 1), (2, 1)],
        &[(2, 2), (0, 0)],
        2,
    ),
    (
        &[(3, 1, 2), (0, 0, 3), (1, 0, 3), (2, 1, 2)],
        &[(1, 2), (0, 2)],
        &[(0, 0), (2, 0)],
        2,
    ),
    (
        &[(2, 1, 3), (3, 1, 1), (0, 0, 3), (0, 1, 2)],
        &[(0, 2), (1, 2)],
        &[(0, 2), (1, 0)],
        2,
    ),
    (
        &[(0, 1, 0), (0, 0, 2), (1, 1, 1), (0, 1, 2)],
        &[(3, 1), (0, 1)],
        &[(0, 1), (1, 1)],
        2,
    ),
    (
        &[(2, 1, 1), (0, 1, 2), (2, 1, 3), (2, 1, 1)],
        &[(3, 1), (3, 1)],
        &[(0, 0), (0, 0)],
        2,
    ),
    (
        &[(0, 0, 1), (1, 0, 3), (1, 2, 1), (1, 0, 3)],
        &[(0, 2), (1, 1)],
        &[(0, 2), (1, 0)],
        2,
    ),
    (
        &[(0, 2, 0), (3, 1, 2), (0, 0, 3), (2, 1, 1)],
        &[(1, 2), (1, 0)],
        &[(1, 1), (3, 2)],
        2,
    ),
    (
        &[(0, 0, 2), (2, 1, 2), (1, 0, 3), (1, 1, 1)],
        &[(2, 0), (1, 1)],
        &[(0, 0), (0, 1)],
        2,
    ),
    (
        &[(1, 1, 1), (0, 0, 1), (0, 1, 2), (0, 1, 3)],
        &[(1, 1), (1, 2)],
        &[(3, 1), (1, 1)],
        2,
    ),
    (
        &[(0, 0, 1), (1, 2, 1), (0, 1, 3), (0, 1, 2)],
        &[(1, 1), (3, 1)],
        &[(0, 1), (3, 0)],
        2,
    ),
    (
        &[(1, 0, 3), (2, 0, 3)],
        &[(1, 1), (2, 1), (3, 1)],
        &[(0, 0), (1, 0), (2, 0), (3, 1)],
        1,
    ),
    (
        &[(1, 0, 3), (2, 0, 3)],
        &[(1, 1), (2, 1), (3, 2)],
        &[(0, 0), (1, 0), (2, 0), (3, 1)],
        2,
    ),
    (
        &[(1, 1, 3), (2, 1, 3)],
        &[(1, 1), (2, 1), (3, 1)],
        &[(0, 0), (1, 0), (2, 0), (3, 1)],
        1,
    ),
    (
        &[(1, 2, 3), (2, 2, 3)],
        &[(0, 1), (1, 1), (2, 1), (3, 1)],
        &[(0, 0), (1, 0), (2, 0), (3, 1)],
        1,
    ),
];
