//! Inferences that were met.
ghost use Rattle.std.specs.Prelude.{◌≡◌, IfSome};
ghost use Rattle.known_types.specs.Knowing.{Gives, HasRun};
ghost use Rattle.known_types.specs.Sites.{IsWorldOf};

use crate::spending::{all_under, spend};
use crate::world::{World, are_one, shared};
use pc_rules::meter::{Account, Meter};
use pc_terms::term::Term;
use run_costs::directed_rules_take_alike;
use std::alloc::Global;
use std::marker::Model;
use std::rc::Rc;

/// The accounts at the start and at the end of an inference.
#[derive(Drop)]
pub(crate) struct Took {
    before: Account,
    after: Account,
}

/// An inference: the stamps of its environment and context, the room that it had, its term and its type, and its accounts. Contracts see the room.
#[derive(Drop)]
pub(crate) struct Known {
    mark: u64,
    room: u32,
    world: Rc<World>,
    term: Term,
    ty: Term,
    took: Rc<Took>,
}

impl Model for Known {
    ghost use Rattle.std.specs.Prelude.{ℕ};
    ghost use Rattle.known_types.specs.Knowing.{IsKnown};

    ghost Value = { ℕ };

    ghost view = { λ k. k.room };

    ghost invariant = { λ k. IsKnown k.world.value k.room k.term k.ty k.took.value.before k.took.value.after };
}

impl Known {
    /// An inference that is kept, if there is memory for that, and no count of its uses stands at its last value.
    pub(crate) fn of(
        alloc: Global,
        mark: u64,
        world: &Rc<World>,
        room: u32,
        t: &Term,
        ty: &Term,
        before: &Account,
        after: &Account,
    ) -> Option<Known>
        requires run { HasRun (IsWorldOf world.now.value) room t.now ty.now before.now after.now }
    {
        if !all_under(&after.uses) {
            return None;
        }
        let world = shared(world)?;
        let (Ok(term), Ok(ty)) = (t.share(), ty.share()) else {
            return None;
        };
        let took = Took {
            before: *before,
            after: *after,
        };
        match Rc::new(alloc, took) {
            Ok(took) => Some(Known {
                mark,
                room,
                world,
                term,
                ty,
                took,
            }),
            Err(_) => None,
        }
    }

    /// The type, where the inference was of this term in this environment and context, with no more room, and the units that it took are left: they are
    /// taken, and its uses are noted.
    pub(crate) fn again(
        &self,
        mark: u64,
        world: &Rc<World>,
        room: u32,
        t: &Term,
        m: &mut Meter,
    ) -> Option<Term>
        ensures gives { Gives (IsWorldOf world.now.value) room t.now result m.old m.new }
    {
        directed_rules_take_alike();
        if self.mark != mark
            || self.room > room
            || !are_one(&self.world, world)
            || !self.term.same(t)
        {
            return None;
        }
        let Ok(ty) = self.ty.share() else {
            return None;
        };
        if spend(m, &self.took.before, &self.took.after) {
            return Some(ty);
        }
        None
    }
}
