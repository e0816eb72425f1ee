//! A typer that is asked at sites and knows of none.
use known_types::site::Site;
use known_types::typer::SiteTyper;
use pc_rules::context::Ctx;
use pc_rules::environment::Env;
use pc_rules::meter::Meter;
use pc_rules::stop::Halt;
use pc_rules::typer::Typer;
use pc_terms::term::Term;
use std::alloc::Global;
use universe_levels::sort::Sort;

/// A typer that infers at each site as it does without one: nothing is asked there, and nothing is kept.
#[derive(Drop)]
pub struct Anywhere<'a, T> {
    typer: &'a T,
}

impl<'a, T: Typer> Anywhere<'a, T> {
    /// What asks a typer, whatever the site. Takes no memory.
    pub fn of(typer: &'a T) -> Anywhere<'a, T> {
        Anywhere { typer }
    }
}

impl<T: Typer> SiteTyper for Anywhere<'_, T> {
    fn infer_in(
        &self,
        alloc: Global,
        env: &Env,
        ctx: &Ctx,
        _site: &Site<'_>,
        t: &Term,
        m: &mut Meter,
    ) -> Result<Term, Halt> {
        self.typer.infer(alloc, env, ctx, t, m)
    }

    fn sort_in(
        &self,
        alloc: Global,
        env: &Env,
        ctx: &Ctx,
        _site: &Site<'_>,
        t: &Term,
        m: &mut Meter,
    ) -> Result<Sort, Halt> {
        self.typer.sort_of(alloc, env, ctx, t, m)
    }
}
