//! What inference asks for types that were inferred before, and nothing to ask.
ghost use Rattle.std.specs.Prelude.{◌≡◌, IfSome, None};
ghost use Rattle.pc_terms.specs.Formed.{IsFormed};
ghost use Rattle.calculus_rules.specs.Context.{Context};
ghost use Rattle.calculus_rules.specs.Environment.{Env as Environment};
ghost use Rattle.known_types.specs.Knowing.{Gives, HasRun};
ghost use Rattle.known_types.specs.Sites.{Longer};

use pc_rules::context::Ctx;
use pc_rules::environment::Env;
use pc_rules::meter::{Account, Meter};
use pc_terms::term::Term;
use std::alloc::Global;

/// An environment and a context, where types that were inferred may be known.
pub trait Sited: Drop {
    /// Whether it is of an environment and a context.
    ghost is_of: { Self → Environment → Context → Type 0 };

    /// The site of a longer context.
    fn deeper(&self, alloc: Global, env: &Env, ctx: &Ctx, under: &Ctx) -> Self
        requires of { is_of self.now env.now ctx.now }
        requires longer { Longer ctx.now under.now }
        ensures of { is_of result env.now under.now };

    /// The type of a term that was inferred here before with no more room, where the units that this took are left: they are taken, and the uses are
    /// noted.
    fn known(&self, room: u32, t: &Term, m: &mut Meter) -> Option<Term>
        ensures gives { Gives (is_of self.now) room t.now result m.old m.new }
        ensures still { result ≡ None → m.new ≡ m.old }
        ensures formed { IfSome result (λ _. IsFormed t.now) };

    /// Whether an inference may be kept.
    fn keeps(&self) -> bool;

    /// Keeps an inference, which had so much room, with its accounts at the start and at the end.
    fn keep(&self, alloc: Global, room: u32, t: &Term, ty: &Term, before: &Account, after: &Account)
        requires run { HasRun (is_of self.now) room t.now ty.now before.now after.now };
}

/// No site: nothing is known, and nothing is kept.
#[derive(Drop)]
pub struct Nowhere;

impl Sited for Nowhere {
    ghost is_of = { λ s E c. Unit {0} };

    fn deeper(&self, _alloc: Global, _env: &Env, _ctx: &Ctx, _under: &Ctx) -> Nowhere {
        Nowhere
    }

    fn known(&self, _room: u32, _t: &Term, _m: &mut Meter) -> Option<Term> {
        None
    }

    fn keeps(&self) -> bool {
        false
    }

    fn keep(
        &self,
        _alloc: Global,
        _room: u32,
        _t: &Term,
        _ty: &Term,
        _before: &Account,
        _after: &Account,
    ) {}
}
