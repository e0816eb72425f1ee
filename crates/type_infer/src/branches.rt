//! The branches of a match.
ghost use Rattle.std.specs.Prelude.{◌≡◌, ◌+◌};
ghost use Rattle.pc_terms.specs.Lists.{arms_of};
ghost use Rattle.pc_terms.specs.Syntax.{list_of};
ghost use Rattle.pc_rules.specs.Entailment.{test_of};
ghost use Rattle.pc_rules.specs.Follows.{Follows};
ghost use Rattle.pc_rules.specs.DirectedComparison.{compare};
ghost use Rattle.pc_rules.specs.DirectedTyping.{infer, branch_rule, branches_rule};
ghost use Rattle.pc_rules.specs.DirectedRun.{most_nested};
ghost use Rattle.type_infer.specs.Ready.{IsReady};

use crate::inference::Inference;
use calculus_rules::declaration::{Constructor, Constructors};
use instances::instances::branches::{branch_entries, branch_type};
use known_types::sited::Sited;
use pc_rules::context::Ctx;
use pc_rules::converter::Converter;
use pc_rules::environment::Env;
use pc_rules::guarder::Guarder;
use pc_rules::meter::Meter;
use pc_rules::reducer::Reducer;
use pc_rules::stop::{Halt, Stop};
use pc_terms::term::{Match, Term};
use std::alloc::Global;

impl<R: Reducer + Drop, C: Converter + Drop, G: Guarder + Drop> Inference<R, C, G> {
    /// The body of the branch of a constructor, which has place `place` in the match's family: the entries have sorts, and under them the
    /// body has the type of the predicate at what the constructor builds.
    #[cycle(infer)]
    fn branch_rule<S: Sited>(
        &self,
        alloc: Global,
        env: &Env,
        ctx: &Ctx,
        site: &S,
        room: u32,
        place: u32,
        ctor: &Constructor,
        x: &Match,
        body: &Term,
        m: &mut Meter,
    ) -> Result<(), Halt>
        requires nest { room + m.old.nest ≡ most_nested }
        requires ready { IsReady env.now ctx.now }
        requires site { S.is_of site.now env.now ctx.now }
        ensures follows { Follows (branch_rule env.now (infer env.now (test_of env.now) room) (compare env.now (test_of env.now) room) ctx.now x.now.family place ctor.now x.now.params x.now.ret body.now m.old.account) result m.old m.new }
    {
        let entries = branch_entries(alloc, ctor, &x.params)?;
        let inner = self.entered(alloc, env, ctx, site, room, &entries, m)?;
        let ty = branch_type(alloc, place, ctor, x)?;
        let within = site.deeper(alloc, env, ctx, &inner);
        self.check_at(alloc, env, &inner, &within, room, body, &ty, m)
    }

    /// The branches of a match, as far as there are constructors.
    #[cycle(infer)]
    pub(crate) fn branches_rule<S: Sited>(
        &self,
        alloc: Global,
        env: &Env,
        ctx: &Ctx,
        site: &S,
        room: u32,
        ctors: &Constructors,
        x: &Match,
        m: &mut Meter,
    ) -> Result<(), Halt>
        requires nest { room + m.old.nest ≡ most_nested }
        requires ready { IsReady env.now ctx.now }
        requires site { S.is_of site.now env.now ctx.now }
        ensures follows { Follows (branches_rule env.now (infer env.now (test_of env.now) room) (compare env.now (test_of env.now) room) ctx.now x.now.family 0 ctors.now x.now.params x.now.ret (list_of (arms_of x.now.branches)) m.old.account) result m.old m.new }
    {
        let listed = ctors.as_slice();
        let bodies = x.branches.as_slice();
        let Ok(count) = u32::try_from(listed.len().min(bodies.len())) else {
            return Err(Halt::Stop(Stop::Memory));
        };
        for i in 0..count {
            let ctor = &listed[i as usize];
            let branch = &bodies[i as usize];
            self.branch_rule(alloc, env, ctx, site, room, i, ctor, x, &branch.body, m)?;
        }
        Ok(())
    }
}
