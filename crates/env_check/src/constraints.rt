//! Constraints on levels, and their graph.
ghost use Rattle.std.specs.Prelude.{◌≡◌, ◌≤◌, length, None, IfOk, IfErr};
ghost use Rattle.universe_levels.specs.Consistency.{AreOver, IsConsistent};
ghost use Rattle.pc_rules.specs.DirectedDeclarations.{undeclared_end, first_undeclared_end, place_of};
ghost use Rattle.env_check.specs.Beginning.{Refuses, end_refusal, RefusesGraph};

use crate::refusal::BareRefusal;
use pc_rules::broken::{Broken, Place};
use pc_terms::lists::Numbers;
use std::alloc::Global;
use universe_graph::graph::{Graph, GraphFault};
use universe_levels::constraint::Constraint;
use universe_levels::level::Level;

/// The first end of a constraint that is not declared, where so many levels are; none exactly where both are. Takes no memory.
fn undeclared_end(levels: u32, constraint: &Constraint) -> Option<Level>
    ensures is { result ≡ undeclared_end levels constraint.now }
{
    if constraint.left.0 > levels {
        return Some(constraint.left);
    }
    if constraint.right.0 > levels {
        return Some(constraint.right);
    }
    None
}

/// Whether each constraint names declared levels. `LevelUndeclared` at the first that does not. Takes no memory.
pub fn check_constraints(levels: u32, constraints: &[Constraint]) -> Result<(), BareRefusal>
    requires few { length constraints.now ≤ 16384 }
    ensures passed { IfOk result (λ _. first_undeclared_end levels 0 constraints.now ≡ None) }
    ensures over { IfOk result (λ _. AreOver levels constraints.now) }
    ensures refused { IfErr result (Refuses (first_undeclared_end levels 0 constraints.now) end_refusal) }
{
    for (i, constraint) in constraints.iter().enumerate() {
        if let Some(level) = undeclared_end(levels, constraint) {
            return Err(BareRefusal::Broken {
                place: Place::Constraint(i as u32),
                rule: Broken::LevelUndeclared { level },
            });
        }
    }
    Ok(())
}

/// The place of constraints that clash: that of the first of them. Takes no memory.
fn place_of(constraints: &[u32]) -> Place
    ensures is { result ≡ place_of constraints.now }
{
    match constraints {
        [] => Place::Constraint(0),
        [first, ..] => Place::Constraint(*first),
    }
}

/// The graph of constraints on declared levels. `UniverseCycle` where no valuation meets them all, and else only `Memory`.
pub fn graph_of(
    alloc: Global,
    levels: u32,
    constraints: &[Constraint],
) -> Result<Graph, BareRefusal>
    requires few_levels { levels ≤ 1024 }
    requires few_constraints { length constraints.now ≤ 16384 }
    requires over { AreOver levels constraints.now }
    ensures levels { IfOk result (λ g. g.levels ≡ levels) }
    ensures constraints { IfOk result (λ g. g.constraints ≡ constraints.now) }
    ensures consistent { IfOk result (λ _. IsConsistent levels constraints.now) }
    ensures refused { IfErr result (RefusesGraph levels constraints.now) }
{
    match Graph::build(alloc, levels, constraints) {
        Ok(graph) => Ok(graph),
        Err(GraphFault::Memory) => Err(BareRefusal::Memory),
        Err(GraphFault::Cycle { constraints }) => {
            let place = place_of(constraints.as_slice());
            let constraints = Numbers::of(constraints.into_vec());
            Err(BareRefusal::Broken {
                place,
                rule: Broken::UniverseCycle { constraints },
            })
        }
    }
}
