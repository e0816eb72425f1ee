//! Environments with contexts in which terms are reduced one after the other, and the table that outlives a reduction.
//!
//! What bindings were reduced to is of use in the next reduction too, where it is in the same environment and the same context: an argument of a
//! value leads to bindings that the last reduction made. A table that is put away has the stamps of both, by which it is known again; what it has
//! is true in them. So a setting may be passed on as a plain reference, and no clause speaks of what was put away.
//!
//! Memory: one table at a time is put away, for all settings that share the place, with at most 65,536 entries (`reducts`); where the next reduction
//! that looks for one is in another context, it is let go of. A reduction in a setting that puts none away has a table of its own meanwhile. What
//! the bindings of a table lead to was made by the steps of the reductions in that context so far.
ghost use Rattle.std.specs.Prelude.{ℕ, ◌≡◌, IsTrue, IfOk, IfErr, None};
ghost use Rattle.pc_terms.specs.declared.term.MakeFault.TheVariants.{Memory};
ghost use Rattle.calculus_rules.specs.Context.{values};
ghost use Rattle.calculus_rules.specs.WeakHead.{WeakSteps};
ghost use Rattle.pc_rules.specs.DirectedRun.{is_beyond};
ghost use Rattle.pc_rules.specs.DirectedWeakHead.{weak_next};
ghost use Rattle.pc_rules.specs.Follows.{Follows, halted};
ghost use Rattle.reduce_machine.specs.Passed.{reduced, map_ok};
ghost use Rattle.reduce_machine.specs.Reads.{read};
ghost use Rattle.reduce_machine.specs.Reducts.{IsReady};
ghost use Rattle.reduce_machine.specs.Settings.{number_of_environment, number_of_context, environment_of, context_of, AreKept};
ghost use Rattle.reduce_machine.specs.Values.{term_of, IsValue};

use crate::bindings::Lazy;
use crate::quick::{is_normal, spine_value};
use crate::reducts::Reducts;
use crate::values::Value;
use crate::weak::{reduced_value, value_with};
use pc_rules::context::Ctx;
use pc_rules::environment::Env;
use pc_rules::meter::Meter;
use pc_rules::stop::Stop;
use pc_terms::term::MakeFault;
use stamps::Stamp;
use std::alloc::Global;
use std::cell::Cell;
use std::marker::Model;
use std::rc::Rc;

/// A stamp for an environment and one for a context.
#[derive(Drop)]
struct World {
    env: Stamp,
    ctx: Stamp,
}

/// A table that was put away, with the stamps of the environment and of the context in which it is true.
#[derive(Drop)]
struct Table {
    world: Rc<World>,
    reducts: Reducts,
}

impl Model for Table {
    ghost use Rattle.std.specs.Prelude.{ℕ};
    ghost use Rattle.reduce_machine.specs.Reducts.{IsReady};
    ghost use Rattle.reduce_machine.specs.Settings.{AreKept};

    ghost Value = { ℕ };

    ghost view = { λ t. t.world.value.env };

    ghost invariant = { λ t. IsReady t.reducts × AreKept t.world.value.env t.world.value.ctx t.reducts.entries.items };
}

/// A place for a table between two reductions.
#[derive(Drop)]
pub struct TableCell {
    table: Cell<Option<Table>>,
}

/// An environment and a context in which terms are reduced, with the place for a table; and the stamps of both, where tables are put there.
#[derive(Drop)]
pub struct Setting<'a> {
    pub env: &'a Env,
    pub ctx: &'a Ctx,
    pub tables: &'a TableCell,
    world: Option<Rc<World>>,
    ghost of_env: { environment_of world (number_of_environment env.now) ≡ number_of_environment env.now },
    ghost of_ctx: { context_of world (number_of_context ctx.now) ≡ number_of_context ctx.now },
}

/// A stamp for an environment.
fn environment_stamp(_env: &Env) -> Stamp
    ensures is { result ≡ number_of_environment _env.now }
{
    Stamp::new()
}

/// A stamp for a context.
fn context_stamp(_ctx: &Ctx) -> Stamp
    ensures is { result ≡ number_of_context _ctx.now }
{
    Stamp::new()
}

impl World {
    /// Stamps for an environment and a context.
    fn of(alloc: Global, env: &Env, ctx: &Ctx) -> Result<Rc<World>, MakeFault>
        ensures env { IfOk result (λ w. w.value.env ≡ number_of_environment env.now) }
        ensures ctx { IfOk result (λ w. w.value.ctx ≡ number_of_context ctx.now) }
        ensures only_memory { IfErr result (λ e. e ≡ Memory) }
    {
        let world = World {
            env: environment_stamp(env),
            ctx: context_stamp(ctx),
        };
        match Rc::new(alloc, world) {
            Ok(world) => Ok(world),
            Err(_) => Err(MakeFault::Memory),
        }
    }
}

impl TableCell {
    /// A place where no table is.
    pub fn new() -> TableCell {
        TableCell {
            table: Cell::new(None),
        }
    }

    /// The table, which is taken away, where it has these stamps; else an empty one.
    fn take(&self, alloc: Global, world: &Rc<World>, left: u64) -> Result<Reducts, MakeFault>
        ensures ready { IfOk result (λ k. IsReady k) }
        ensures kept { IfOk result (λ k. AreKept world.now.value.env world.now.value.ctx k.entries.items) }
        ensures only_memory { IfErr result (λ e. e ≡ Memory) }
    {
        if let Some(table) = self.table.replace(None) {
            if table.world.env.same(&world.env) && table.world.ctx.same(&world.ctx) {
                return Ok(table.reducts);
            }
        }
        Reducts::new(alloc, left)
    }

    /// Puts a table away with these stamps, if there is memory for that.
    fn put(&self, world: &Rc<World>, reducts: Reducts)
        requires ready { IsReady reducts }
        requires kept { AreKept world.now.value.env world.now.value.ctx reducts.entries.items }
    {
        let Ok(world) = world.clone() else {
            return;
        };
        self.table.set(Some(Table { world, reducts }));
    }
}

impl<'a> Setting<'a> {
    /// An environment and a context, of whose reductions no table is put away.
    pub fn new(env: &'a Env, ctx: &'a Ctx, tables: &'a TableCell) -> Setting<'a>
        ensures env { result.env.now ≡ env.now }
        ensures ctx { result.ctx.now ≡ ctx.now }
    {
        Setting {
            env,
            ctx,
            tables,
            world: None,
        }
    }

    /// The same environment and context, where each reduction takes the table of the one before and puts it away again.
    pub fn keeping(&self, alloc: Global) -> Result<Setting<'a>, MakeFault>
        ensures env { IfOk result (λ s. s.env.now ≡ self.now.env.now) }
        ensures ctx { IfOk result (λ s. s.ctx.now ≡ self.now.ctx.now) }
        ensures only_memory { IfErr result (λ e. e ≡ Memory) }
    {
        let world = self.world(alloc)?;
        Ok(Setting {
            env: self.env,
            ctx: self.ctx,
            tables: self.tables,
            world: Some(world),
        })
    }

    /// The stamps, which are made where there are none.
    fn world(&self, alloc: Global) -> Result<Rc<World>, MakeFault>
        ensures env { IfOk result (λ w. w.value.env ≡ number_of_environment self.now.env.now) }
        ensures ctx { IfOk result (λ w. w.value.ctx ≡ number_of_context self.now.ctx.now) }
        ensures only_memory { IfErr result (λ e. e ≡ Memory) }
    {
        match &self.world {
            Some(world) => match world.clone() {
                Ok(world) => Ok(world),
                Err(_) => Err(MakeFault::Memory),
            },
            None => World::of(alloc, self.env, self.ctx),
        }
    }

    /// The weak-head normal form of a term under bindings, by the machine, with the table of these stamps, which is put away then.
    fn kept_value(
        &self,
        alloc: Global,
        world: &Rc<World>,
        term: Lazy,
        m: &mut Meter,
    ) -> Result<Value, Stop>
        requires env { world.now.value.env ≡ number_of_environment self.now.env.now }
        requires ctx { world.now.value.ctx ≡ number_of_context self.now.ctx.now }
        ensures follows { Follows (reduced self.now.env.now (values self.now.ctx.now) (read term) m.old.account) (halted (map_ok term_of result)) m.old m.new }
        ensures value { IfOk result (λ v. IsValue v) }
        ensures normal { IfOk result (λ v. weak_next self.now.env.now (values self.now.ctx.now) (term_of v) ≡ None) }
        ensures beyond { IfOk result (λ v. IsTrue (is_beyond (term_of v)) → IsTrue (reduced self.now.env.now (values self.now.ctx.now) (read term) m.old.account).deep) }
        ensures reached { IfOk result (λ v. WeakSteps self.now.env.now (values self.now.ctx.now) (read term) (term_of v)) }
    {
        let units = m.left();
        let mut kept = self.tables.take(alloc, world, units)?;
        let value = value_with(alloc, self.env, self.ctx, term, &mut kept, m)?;
        self.tables.put(world, kept);
        Ok(value)
    }

    /// The weak-head normal form of a term under bindings, of which nothing is read. Each weak-head step takes a unit (PCUIC, weak-head
    /// reduction). `Spent` exactly where the steps have no end within the units left and `TooDeep` did not come. `TooDeep` only where the term
    /// that it is given as, or one of its steps, is beyond the limits of terms in memory.
    pub fn weak_value(&self, alloc: Global, term: Lazy, m: &mut Meter) -> Result<Value, Stop>
        ensures follows { Follows (reduced self.now.env.now (values self.now.ctx.now) (read term) m.old.account) (halted (map_ok term_of result)) m.old m.new }
        ensures value { IfOk result (λ v. IsValue v) }
        ensures normal { IfOk result (λ v. weak_next self.now.env.now (values self.now.ctx.now) (term_of v) ≡ None) }
        ensures beyond { IfOk result (λ v. IsTrue (is_beyond (term_of v)) → IsTrue (reduced self.now.env.now (values self.now.ctx.now) (read term) m.old.account).deep) }
        ensures reached { IfOk result (λ v. WeakSteps self.now.env.now (values self.now.ctx.now) (read term) (term_of v)) }
    {
        if is_normal(self.env, self.ctx, &term.env, &term.term) {
            let value = spine_value(alloc, &term)?;
            return Ok(value);
        }
        match &self.world {
            Some(world) => self.kept_value(alloc, world, term, m),
            None => reduced_value(alloc, self.env, self.ctx, term, m),
        }
    }
}
