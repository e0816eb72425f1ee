//! Matches: rule 10.
ghost use Rattle.std.specs.Prelude.{◌≡◌, ◌+◌, Some};
ghost use Rattle.trees.specs.Tree.{terms_of};
ghost use Rattle.pc_terms.specs.Lists.{arms_of};
ghost use Rattle.calculus_rules.specs.Environment.{with_parameters};
ghost use Rattle.pc_rules.specs.Entailment.{test_of};
ghost use Rattle.pc_rules.specs.Follows.{Follows};
ghost use Rattle.pc_rules.specs.DirectedComparison.{compare};
ghost use Rattle.pc_rules.specs.DirectedTyping.{infer, predicate_rule, case_rule};
ghost use Rattle.pc_rules.specs.DirectedRun.{most_nested};
ghost use Rattle.type_infer.specs.Ready.{IsReady};

use crate::counts::match_counted;
use crate::elimination::eliminated;
use crate::inference::Inference;
use crate::lookup::whole_family;
use calculus_rules::declaration::{Block, Family};
use instances::instances::predicates::{pred_at, predicate_entries};
use known_types::sited::Sited;
use pc_rules::context::Ctx;
use pc_rules::converter::Converter;
use pc_rules::environment::Env;
use pc_rules::guarder::Guarder;
use pc_rules::meter::Meter;
use pc_rules::reducer::Reducer;
use pc_rules::stop::Halt;
use pc_terms::term::{Match, Term};
use std::alloc::Global;

impl<R: Reducer + Drop, C: Converter + Drop, G: Guarder + Drop> Inference<R, C, G> {
    /// The predicate of a match: its entries have sorts, it has a sort under them, and the family may be eliminated into that.
    #[cycle(infer)]
    fn predicate_rule<S: Sited>(
        &self,
        alloc: Global,
        env: &Env,
        ctx: &Ctx,
        site: &S,
        room: u32,
        block: &Block,
        family: &Family,
        x: &Match,
        m: &mut Meter,
    ) -> Result<(), Halt>
        requires nest { room + m.old.nest ≡ most_nested }
        requires ready { IsReady env.now ctx.now }
        requires site { S.is_of site.now env.now ctx.now }
        ensures follows { Follows (predicate_rule env.now (infer env.now (test_of env.now) room) ctx.now (Some block.now) x.now.family (with_parameters block.now.params family.now) x.now.params x.now.ret m.old.account) result m.old m.new }
    {
        let entries = predicate_entries(alloc, x.family, family, &x.params)?;
        let inner = self.entered(alloc, env, ctx, site, room, &entries, m)?;
        let within = site.deeper(alloc, env, ctx, &inner);
        let target = self.sort_at(alloc, env, &inner, &within, room, &x.ret, m)?;
        eliminated(block, x.family, family, &target)
    }

    /// A match has its predicate at the indices and the scrutinee.
    #[cycle(infer)]
    pub(crate) fn case_rule<S: Sited>(
        &self,
        alloc: Global,
        env: &Env,
        ctx: &Ctx,
        site: &S,
        room: u32,
        x: &Match,
        m: &mut Meter,
    ) -> Result<Term, Halt>
        requires nest { room + m.old.nest ≡ most_nested }
        requires ready { IsReady env.now ctx.now }
        requires site { S.is_of site.now env.now ctx.now }
        ensures follows { Follows (case_rule env.now (infer env.now (test_of env.now) room) (compare env.now (test_of env.now) room) ctx.now x.now.family (terms_of x.now.params) x.now.binders x.now.ret x.now.scrut (arms_of x.now.branches) m.old.account) result m.old m.new }
    {
        let (block, family) = whole_family(env, x.family)?;
        match_counted(block, family, x)?;
        self.check_all(alloc, env, ctx, site, room, &x.params, &block.params, m)?;
        self.predicate_rule(alloc, env, ctx, site, room, block, family, x, m)?;
        let indices = self.scrutinee_rule(alloc, env, ctx, site, room, block, family, x, m)?;
        self.branches_rule(alloc, env, ctx, site, room, &family.ctors, x, m)?;
        Ok(pred_at(alloc, x, &indices, &x.scrut)?)
    }
}
