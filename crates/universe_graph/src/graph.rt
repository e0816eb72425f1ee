//! The graph of constraints on universe levels.
ghost use Rattle.std.specs.Prelude.{◌≡◌, ◌≤◌, ◌↔◌, IfOk, IfErr, IsTrue, length};
ghost use Rattle.universe_levels.specs.Consistency.{AreOver, IsOver, IsConsistent, Entails};
ghost use Rattle.universe_graph.specs.Fault.{IsClash};
ghost use Rattle.universe_graph.specs.declared.graph.GraphFault.TheVariants.{Memory};

use crate::clash::clash;
use crate::closing::close;
use crate::cover::covers;
use crate::numbers::Numbers;
use crate::order::Order;
use crate::row::Row;
use crate::steps::steps;
use std::alloc::{AllocError, Global};
use std::marker::Model;
use std::rc::Rc;
use universe_levels::constraint::Constraint;
use universe_levels::universe::Universe;

/// Why there is no graph.
#[derive(Debug, Drop)]
pub enum GraphFault {
    /// No valuation meets all constraints; those at the listed places, from 0 and in rising order, alone have none.
    Cycle { constraints: Numbers },
    /// There is no memory for it.
    Memory,
}

impl From<AllocError> for GraphFault {
    ghost from_gives = { λ _ e. e ≡ Memory };

    fn from(_e: AllocError) -> GraphFault {
        GraphFault::Memory
    }
}

/// Constraints on universe levels that some valuation meets, with what they entail. Contracts see it as the number of declared levels and
/// the list of the constraints.
#[derive(Drop)]
pub struct Graph {
    table: Rc<Table>,
}

// What graphs of the same constraints share.
#[derive(Drop)]
struct Table {
    levels: u32,
    constraints: Vec<Constraint>,
    rows: Vec<Row>,
    order: Order,
}

impl Model for Graph {
    ghost use Rattle.universe_graph.specs.Constrained.{Constrained};

    ghost Value = { Constrained };

    ghost use Rattle.universe_graph.specs.Table.{IsTable};

    ghost view = { λ g. record { levels = g.table.value.levels; constraints = g.table.value.constraints.items } };

    ghost invariant = { λ g. IsTable g.table.value.levels g.table.value.constraints.items g.table.value.rows.items };
}

impl Graph {
    /// The graph of constraints on that many declared levels. `Cycle` exactly where no valuation meets all constraints, and else only
    /// `Memory`.
    pub fn build(
        alloc: Global,
        levels: u32,
        constraints: &[Constraint],
    ) -> Result<Graph, GraphFault>
        requires few_levels { levels ≤ 1024 }
        requires few_constraints { length constraints.now ≤ 16384 }
        requires over { AreOver levels constraints.now }
        ensures levels { IfOk result (λ g. g.levels ≡ levels) }
        ensures constraints { IfOk result (λ g. g.constraints ≡ constraints.now) }
        ensures consistent { IfOk result (λ _. IsConsistent levels constraints.now) }
        ensures cycle { IfErr result (IsClash levels constraints.now) }
    {
        let mut rows = steps(alloc, levels, constraints)?;
        let closed = close(alloc, levels, &mut rows)?;
        if !closed {
            let places = clash(alloc, levels, constraints)?;
            return Err(GraphFault::Cycle {
                constraints: Numbers::of(places),
            });
        }
        let order = Order::of(alloc, rows.as_slice(), constraints)?;
        let constraints = constraints.to_vec(alloc)?;
        let table = shared(
            alloc,
            Table {
                levels,
                constraints,
                rows,
                order,
            },
        )?;
        Ok(Graph { table })
    }

    /// The same graph, which shares all it has with this one; answers only `Memory` besides.
    pub fn share(&self) -> Result<Graph, GraphFault>
        ensures same { IfOk result (λ g. g ≡ self.now) }
        ensures only_memory { IfErr result (λ e. e ≡ Memory) }
    {
        let table = self.table.clone()?;
        Ok(Graph { table })
    }

    /// Whether `low` is at most `high` under every valuation that meets the constraints. Takes no memory.
    pub fn entails(&self, low: &Universe, high: &Universe) -> bool
        requires low_over { IsOver self.now.levels low.now }
        requires high_over { IsOver self.now.levels high.now }
        ensures entailed { IsTrue result ↔ Entails self.now.levels self.now.constraints low.now high.now }
    {
        covers(
            self.table.rows.as_slice(),
            &self.table.order,
            low.parts(),
            high.parts(),
        )
    }

    /// The number of declared levels. Takes no memory.
    pub fn levels(&self) -> u32
        ensures value { result ≡ self.now.levels }
    {
        self.table.levels
    }

    /// The constraints, in the order that they were given. Takes no memory.
    pub fn constraints(&self) -> &[Constraint]
        ensures value { result.now ≡ self.now.constraints }
        ensures consistent { IsConsistent self.now.levels self.now.constraints }
        ensures over { AreOver self.now.levels self.now.constraints }
    {
        self.table.constraints.as_slice()
    }
}

// The table, to be shared.
fn shared(alloc: Global, table: Table) -> Result<Rc<Table>, GraphFault>
    ensures same { IfOk result (λ rc. rc.value ≡ table) }
    ensures only_memory { IfErr result (λ e. e ≡ Memory) }
{
    match Rc::new(alloc, table) {
        Ok(rc) => Ok(rc),
        Err(_) => Err(GraphFault::Memory),
    }
}
