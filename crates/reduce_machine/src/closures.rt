//! Weak-head reduction by closures and a stack, with read-back.
use crate::bindings::Lazy;
use crate::quick::is_normal;
use crate::weak::reduced_value;
use pc_rules::context::Ctx;
use pc_rules::environment::Env;
use pc_rules::meter::Meter;
use pc_rules::reducer::Reducer;
use pc_rules::stop::Stop;
use pc_terms::term::Term;
use std::alloc::Global;

/// Reduction by closures and a stack.
#[derive(Clone, Copy, Debug, Drop)]
pub struct Closures;

impl Reducer for Closures {
    fn whnf(
        &self,
        alloc: Global,
        env: &Env,
        ctx: &Ctx,
        t: &Term,
        m: &mut Meter,
    ) -> Result<Term, Stop> {
        let term = t.share()?;
        let start = Lazy::plain(term);
        if is_normal(env, ctx, &start.env, &start.term) {
            return Ok(start.term);
        }
        let value = reduced_value(alloc, env, ctx, start, m)?;
        let normal = value.read(alloc)?;
        Ok(normal)
    }
}
