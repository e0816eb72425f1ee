//! The table.
ghost use Rattle.std.specs.Prelude.{◌≡◌, ◌<◌, ◌++◌, IfSome, List, length};
ghost use Rattle.calculus_rules.specs.declared.entry.Entry.{Entry};
ghost use Rattle.calculus_rules.specs.Context.{Context};
ghost use Rattle.calculus_rules.specs.Environment.{Env};
ghost use Rattle.known_types.specs.Knowing.{Gives, HasRun};
ghost use Rattle.known_types.specs.Sites.{IsLonger, IsWorldOf};

use crate::below::Below;
use crate::known::Known;
use crate::marks::{entry_mark, mixed, term_mark};
use crate::world::{World, serial_of};
use pc_rules::context::Ctx;
use pc_rules::meter::{Account, Meter};
use pc_terms::term::Term;
use std::alloc::Global;
use std::cell::Cell;
use std::rc::Rc;

/// So many slots a table has for inferences, and for longer contexts.
const SLOTS: u64 = 8192;

const CONTEXTS: u64 = 4096;

/// Inferences and longer contexts that were met, one in each slot. An inference belongs into two slots, and the next one that belongs there takes the place of the older;
/// a longer context belongs into one.
#[derive(Drop)]
pub struct Table {
    knowns: Vec<Cell<Option<Known>>>,
    belows: Vec<Cell<Option<Below>>>,
    next: Cell<u64>,
}

/// The first of the two slots where a term belongs.
fn slot_of(mark: u64, world: &Rc<World>) -> usize
    ensures within { result < 8192 }
{
    (mixed(mark, serial_of(world)) % (SLOTS / 2)) as usize * 2
}

/// Where a longer context belongs. One nest of binders has a slot for each of its contexts.
fn below_slot(from: &Rc<World>, ctx: &Ctx) -> usize {
    let first = serial_of(from).wrapping_mul(4) ^ (entry_mark(ctx) % 4);
    (first % CONTEXTS) as usize
}

impl Table {
    /// A table in which nothing is, with as many slots as there is memory for.
    pub fn new(alloc: Global) -> Table {
        let mut knowns = Vec::new(alloc);
        for _ in 0..SLOTS {
            let Ok(()) = knowns.push(Cell::new(None)) else {
                break;
            };
        }
        let mut belows = Vec::new(alloc);
        for _ in 0..CONTEXTS {
            let Ok(()) = belows.push(Cell::new(None)) else {
                break;
            };
        }
        Table {
            knowns,
            belows,
            next: Cell::new(0),
        }
    }

    /// A number for stamps, another one at each call.
    pub(crate) fn serial(&self) -> u64 {
        let number = self.next.get();
        self.next.set(number.wrapping_add(1));
        number
    }

    /// The type of a term, where it is known and its units are left.
    pub(crate) fn find(&self, world: &Rc<World>, room: u32, t: &Term, m: &mut Meter) -> Option<Term>
        ensures gives { Gives (IsWorldOf world.now.value) room t.now result m.old m.new }
    {
        let mark = term_mark(t);
        let slot = slot_of(mark, world);
        match self.found_in(slot, mark, world, room, t, m) {
            Some(ty) => Some(ty),
            None => self.found_in(slot + 1, mark, world, room, t, m),
        }
    }

    /// The same of one slot.
    fn found_in(
        &self,
        slot: usize,
        mark: u64,
        world: &Rc<World>,
        room: u32,
        t: &Term,
        m: &mut Meter,
    ) -> Option<Term>
        ensures gives { Gives (IsWorldOf world.now.value) room t.now result m.old m.new }
    {
        let slot = self.knowns.get(slot)?;
        let known = slot.replace(None)?;
        let ty = known.again(mark, world, room, t, m);
        slot.set(Some(known));
        ty
    }

    /// Keeps an inference.
    pub(crate) fn keep(
        &self,
        alloc: Global,
        world: &Rc<World>,
        room: u32,
        t: &Term,
        ty: &Term,
        before: &Account,
        after: &Account,
    )
        requires run { HasRun (IsWorldOf world.now.value) room t.now ty.now before.now after.now }
    {
        let mark = term_mark(t);
        let slot = slot_of(mark, world);
        if let (Some(first), Some(second)) = (self.knowns.get(slot), self.knowns.get(slot + 1)) {
            let known = Known::of(alloc, mark, world, room, t, ty, before, after);
            second.set(first.replace(known));
        }
    }

    /// The stamps of a longer context, where it is known.
    pub(crate) fn find_below(&self, from: &Rc<World>, count: u32, ctx: &Ctx) -> Option<Rc<World>>
        ensures of { IfSome result (λ w. (E : Env) (c : Context) (es : List Entry) → IsWorldOf from.now.value E c → ctx.now ≡ es ++ c → length es ≡ count → IsWorldOf w.value E ctx.now) }
    {
        let slot = self.belows.get(below_slot(from, ctx))?;
        let below = slot.replace(None)?;
        let world = below.again(from, count, ctx);
        slot.set(Some(below));
        world
    }

    /// Keeps a longer context.
    pub(crate) fn keep_below(&self, from: &Rc<World>, count: u32, ctx: &Ctx, world: &Rc<World>)
        requires longer { IsLonger from.now.value world.now.value count ctx.now }
    {
        if let Some(slot) = self.belows.get(below_slot(from, ctx)) {
            slot.set(Below::of(from, count, ctx, world));
        }
    }
}
