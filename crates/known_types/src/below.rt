//! Longer contexts that were met.
ghost use Rattle.std.specs.Prelude.{◌≡◌, ◌++◌, IsTrue, IfSome, List, length, take};
ghost use Rattle.calculus_rules.specs.declared.entry.Entry.{Entry};
ghost use Rattle.known_types.specs.Sites.{context_number, IsLonger, IsWorldOf};
ghost use Rattle.calculus_rules.specs.Context.{Context};
ghost use Rattle.calculus_rules.specs.Environment.{Env};

use crate::world::{World, are_one, shared};
use calculus_rules::entry::Entry;
use pc_rules::context::Ctx;
use std::marker::Model;
use std::rc::Rc;

/// A longer context: the stamps of the shorter one, how many entries it has more, and its own stamps. Contracts see how many.
#[derive(Drop)]
pub(crate) struct Below {
    from: Rc<World>,
    count: u32,
    ctx: Ctx,
    world: Rc<World>,
}

impl Model for Below {
    ghost use Rattle.std.specs.Prelude.{ℕ};
    ghost use Rattle.known_types.specs.Sites.{IsLonger};

    ghost Value = { ℕ };

    ghost view = { λ b. b.count };

    ghost invariant = { λ b. IsLonger b.from.value b.world.value b.count b.ctx };
}

/// Whether two entries are the same.
fn same_entry(a: &Entry, b: &Entry) -> bool
    ensures is { IsTrue result → a.now ≡ b.now }
{
    match (a, b) {
        (Entry::Assumed(a), Entry::Assumed(b)) => a.same(b),
        (Entry::Defined { value: v, ty: a }, Entry::Defined { value: w, ty: b }) => {
            v.same(w) && a.same(b)
        }
        _ => false,
    }
}

/// Whether the innermost entries of two contexts are the same, so many.
fn same_entries(a: &Ctx, b: &Ctx, count: u32) -> bool
    ensures is { IsTrue result → take count a.now ≡ take count b.now }
{
    for i in 0..count {
        match (a.entry(i), b.entry(i)) {
            (Some(x), Some(y)) => {
                if !same_entry(x, y) {
                    return false;
                }
            }
            _ => return false,
        }
    }
    true
}

impl Below {
    /// A longer context that is kept, if there is memory for that.
    pub(crate) fn of(from: &Rc<World>, count: u32, ctx: &Ctx, world: &Rc<World>) -> Option<Below>
        requires longer { IsLonger from.now.value world.now.value count ctx.now }
    {
        let from = shared(from)?;
        let world = shared(world)?;
        match ctx.share() {
            Ok(ctx) => Some(Below {
                from,
                count,
                ctx,
                world,
            }),
            Err(_) => None,
        }
    }

    /// The stamps of a context that is so many entries longer than that of `from`, where it is this one.
    pub(crate) fn again(&self, from: &Rc<World>, count: u32, ctx: &Ctx) -> Option<Rc<World>>
        ensures of { IfSome result (λ w. (E : Env) (c : Context) (es : List Entry) → IsWorldOf from.now.value E c → ctx.now ≡ es ++ c → length es ≡ count → IsWorldOf w.value E ctx.now) }
    {
        if self.count != count
            || !are_one(&self.from, from)
            || !same_entries(&self.ctx, ctx, count)
        {
            return None;
        }
        shared(&self.world)
    }
}
