//! Sites: an environment and a context at which a table is asked.
ghost use Rattle.std.specs.Prelude.{◌≡◌, IfSome, None};
ghost use Rattle.pc_terms.specs.Formed.{IsFormed};
ghost use Rattle.calculus_rules.specs.Context.{Context};
ghost use Rattle.calculus_rules.specs.Environment.{Env as Environment};
ghost use Rattle.known_types.specs.Located.{IsOf};
ghost use Rattle.known_types.specs.Sites.{IsWorldOf, AreWorldsOf, Longer};

use crate::sited::Sited;
use crate::table::Table;
use crate::world::{World, shared};
use pc_rules::context::Ctx;
use pc_rules::environment::Env;
use pc_rules::meter::{Account, Meter};
use pc_terms::term::Term;
use std::alloc::Global;
use std::rc::Rc;

/// An environment and a context in which terms are inferred, with the table that is asked first; or nothing.
#[derive(Drop)]
pub struct Site<'a> {
    table: Option<&'a Table>,
    world: Option<Rc<World>>,
}

impl<'a> Site<'a> {
    /// A site without a table, of each environment and context. Takes no memory.
    pub fn none() -> Site<'a>
        ensures of { (E : Environment) (c : Context) → IsOf result E c }
    {
        Site {
            table: None,
            world: None,
        }
    }

    /// A site with a table for an environment and a context; without one where there is no memory.
    pub fn of(alloc: Global, table: &'a Table, env: &Env, ctx: &Ctx) -> Site<'a>
        ensures of { IsOf result env.now ctx.now }
    {
        Site {
            table: Some(table),
            world: World::of(alloc, table.serial(), env, ctx),
        }
    }
}

impl<'a> Sited for Site<'a> {
    ghost is_of = { IsOf };

    fn deeper(&self, alloc: Global, env: &Env, ctx: &Ctx, under: &Ctx) -> Site<'a> {
        match (self.table, &self.world) {
            (Some(table), Some(from)) => Site {
                table: Some(table),
                world: longer(alloc, table, from, env, ctx, under),
            },
            _ => Site::none(),
        }
    }

    // Of a term without subterms nothing is known.
    fn known(&self, room: u32, t: &Term, m: &mut Meter) -> Option<Term> {
        match (self.table, &self.world) {
            (Some(table), Some(world)) => {
                if t.depth() < 2 {
                    return None;
                }
                table.find(world, room, t, m)
            }
            _ => None,
        }
    }

    fn keeps(&self) -> bool {
        self.world.is_some()
    }

    fn keep(
        &self,
        alloc: Global,
        room: u32,
        t: &Term,
        ty: &Term,
        before: &Account,
        after: &Account,
    ) {
        if let (Some(table), Some(world)) = (self.table, &self.world) {
            if t.depth() > 1 {
                table.keep(alloc, world, room, t, ty, before, after);
            }
        }
    }
}

/// The stamps of a longer context: those that were made before, where the table has them, and else new ones, if there is memory for that.
fn longer(
    alloc: Global,
    table: &Table,
    from: &Rc<World>,
    env: &Env,
    ctx: &Ctx,
    under: &Ctx,
) -> Option<Rc<World>>
    requires from { IsWorldOf from.now.value env.now ctx.now }
    requires longer { Longer ctx.now under.now }
    ensures of { AreWorldsOf result env.now under.now }
{
    let count = under.len().saturating_sub(ctx.len());
    if count == 0 {
        return shared(from);
    }
    if let Some(world) = table.find_below(from, count, under) {
        return Some(world);
    }
    let world = World::of(alloc, table.serial(), env, under)?;
    table.keep_below(from, count, under, &world);
    Some(world)
}
