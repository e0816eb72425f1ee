//! Stamps of an environment and a context.
ghost use Rattle.std.specs.Prelude.{◌≡◌, IsTrue, IfSome};
ghost use Rattle.known_types.specs.Sites.{environment_number, context_number, IsWorldOf};

use pc_rules::context::Ctx;
use pc_rules::environment::Env;
use stamps::Stamp;
use std::alloc::Global;
use std::rc::Rc;

/// A stamp for an environment and one for a context, with a number by which a table finds them.
#[derive(Drop)]
pub(crate) struct World {
    env: Stamp,
    ctx: Stamp,
    serial: u64,
}

/// A stamp for an environment.
fn environment_stamp(_env: &Env) -> Stamp
    ensures is { result ≡ environment_number _env.now }
{
    Stamp::new()
}

/// A stamp for a context.
fn context_stamp(_ctx: &Ctx) -> Stamp
    ensures is { result ≡ context_number _ctx.now }
{
    Stamp::new()
}

impl World {
    /// Stamps for an environment and a context, if there is memory for that.
    pub(crate) fn of(alloc: Global, serial: u64, env: &Env, ctx: &Ctx) -> Option<Rc<World>>
        ensures of { IfSome result (λ w. IsWorldOf w.value env.now ctx.now) }
    {
        let world = World {
            env: environment_stamp(env),
            ctx: context_stamp(ctx),
            serial,
        };
        match Rc::new(alloc, world) {
            Ok(world) => Some(world),
            Err(_) => None,
        }
    }
}

/// Whether both are seen to be of one environment and one context.
pub(crate) fn are_one(a: &Rc<World>, b: &Rc<World>) -> bool
    ensures env { IsTrue result → a.now.value.env ≡ b.now.value.env }
    ensures ctx { IsTrue result → a.now.value.ctx ≡ b.now.value.ctx }
{
    a.ctx.same(&b.ctx) && a.env.same(&b.env)
}

/// The number by which a table finds stamps.
pub(crate) fn serial_of(world: &Rc<World>) -> u64 {
    world.serial
}

/// The same stamps, if there is memory for that.
pub(crate) fn shared(world: &Rc<World>) -> Option<Rc<World>>
    ensures is { IfSome result (λ w. w.value ≡ world.now.value) }
{
    match world.clone() {
        Ok(world) => Some(world),
        Err(_) => None,
    }
}
