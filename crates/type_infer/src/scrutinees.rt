//! The scrutinee of a match: its type is the match's family, at the written parameters and at some indices.
ghost use Rattle.std.specs.Prelude.{◌≡◌, ◌+◌, ◌++◌, IfOk, IfErr, Ok, length, drop};
ghost use Rattle.trees.specs.Measures.{IsBeyond};
ghost use Rattle.pc_terms.specs.Syntax.{Ind, apply, args};
ghost use Rattle.pc_terms.specs.declared.term.MakeFault.TheVariants.{TooDeep, Memory};
ghost use Rattle.pc_rules.specs.declared.meter.Account.{Account};
ghost use Rattle.calculus_rules.specs.Environment.{with_parameters};
ghost use Rattle.pc_rules.specs.Entailment.{test_of};
ghost use Rattle.pc_rules.specs.Follows.{Answers, Halts, Follows};
ghost use Rattle.pc_rules.specs.WellCounted.{IsCounted, AreCounted};
ghost use Rattle.pc_rules.specs.DirectedComparison.{compare};
ghost use Rattle.pc_rules.specs.DirectedTyping.{infer, is_the_family, found_family, scrutinee_fits, scrutinee_rule};
ghost use Rattle.pc_rules.specs.DirectedRun.{most_nested};
ghost use Rattle.type_infer.specs.Ready.{IsReady};

use crate::conversions::conv;
use crate::inference::Inference;
use calculus_rules::declaration::{Block, Family};
use known_types::sited::Sited;
use pc_rules::broken::Broken;
use pc_rules::context::Ctx;
use pc_rules::converter::Converter;
use pc_rules::environment::Env;
use pc_rules::guarder::Guarder;
use pc_rules::meter::Meter;
use pc_rules::reducer::Reducer;
use pc_rules::stop::Halt;
use pc_terms::leaf::FamilyId;
use pc_terms::term::{MakeFault, Match, Node, Term, Terms};
use std::alloc::Global;

/// Whether a term is the family.
fn is_the_family(id: FamilyId, head: &Term) -> bool
    ensures is { result ≡ is_the_family id head.now }
{
    match head.view() {
        Node::Ind(found) => id == *found,
        _ => false,
    }
}

/// The items of a list from place `start` (from 0) on. Only `Memory`.
fn items_from(alloc: Global, items: &Terms, start: usize) -> Result<Terms, MakeFault>
    ensures ok { IfOk result (λ out. out ≡ drop start items.now) }
    ensures only_memory { IfErr result (λ e. e ≡ Memory) }
{
    let mut out = Terms::new(alloc);
    let items = items.as_slice();
    for i in start..items.len() {
        let item = items[i].share()?;
        out.push(item)?;
    }
    Ok(out)
}

/// The indices that the type of a scrutinee, in weak-head normal form, has behind its parameters. `NotTheFamily` keeps that normal form
/// where it is not the family with all its arguments, and else there is only `Memory`.
pub fn found_indices(
    alloc: Global,
    block: &Block,
    id: FamilyId,
    family: &Family,
    whnf: &Term,
) -> Result<Terms, Halt>
    ensures found { IfOk result (λ _. (u : Account) → Answers (found_family id (with_parameters block.now.params family.now) whnf.now u) (Ok tt) u) }
    ensures indices { IfOk result (λ is. is ≡ drop (length block.now.params) (args whnf.now)) }
    ensures halts { IfErr result (λ h. (u : Account) → Halts (found_family id (with_parameters block.now.params family.now) whnf.now u) h u) }
{
    let (head, arguments) = whnf.spine(alloc)?;
    let params = block.params.len();
    if is_the_family(id, &head)
        && arguments.len() >= params
        && arguments.len() - params == family.indices.len()
    {
        return Ok(items_from(alloc, &arguments, params)?);
    }
    let whnf = whnf.share()?;
    Err(Halt::Broken(Broken::NotTheFamily { whnf }))
}

/// The family `id` applied to parameters, then to indices, all of one context. `TooDeep` only where that is beyond the limits of terms, and else
/// only `Memory`.
pub fn family_at_indices(
    alloc: Global,
    id: FamilyId,
    params: &Terms,
    indices: &Terms,
) -> Result<Term, MakeFault>
    ensures ok { IfOk result (λ t. t ≡ apply (Ind id) (params.now ++ indices.now)) }
    ensures too_deep { IfErr result (λ e. e ≡ TooDeep → IsBeyond (apply (Ind id) (params.now ++ indices.now))) }
{
    let head = Term::make(alloc, Node::Ind(id))?;
    let at_params = head.apply(alloc, params)?;
    at_params.apply(alloc, indices)
}

impl<R: Reducer + Drop, C: Converter + Drop, G: Guarder + Drop> Inference<R, C, G> {
    /// The found type of a scrutinee, in weak-head normal form, in place of the type that is asked for.
    #[cycle(infer)]
    fn scrutinee_fits<S: Sited>(
        &self,
        alloc: Global,
        env: &Env,
        ctx: &Ctx,
        site: &S,
        room: u32,
        found: &Term,
        asked: &Term,
        m: &mut Meter,
    ) -> Result<(), Halt>
        requires nest { room + m.old.nest ≡ most_nested }
        requires ready { IsReady env.now ctx.now }
        requires site { S.is_of site.now env.now ctx.now }
        requires found { IsCounted env.now found.now }
        requires asked { IsCounted env.now asked.now }
        ensures follows { Follows (scrutinee_fits env.now (infer env.now (test_of env.now) room) (compare env.now (test_of env.now) room) ctx.now found.now asked.now m.old.account) result m.old m.new }
    {
        if asked.same(found) {
            return Ok(());
        }
        conv(m)?;
        self.sorted_at(alloc, env, ctx, site, room, asked, m)?;
        self.below(alloc, env, ctx, room, found, asked, m)
    }

    /// The indices at which the scrutinee of a match has the match's family. The parameters have been checked.
    #[cycle(infer)]
    pub(crate) fn scrutinee_rule<S: Sited>(
        &self,
        alloc: Global,
        env: &Env,
        ctx: &Ctx,
        site: &S,
        room: u32,
        block: &Block,
        family: &Family,
        x: &Match,
        m: &mut Meter,
    ) -> Result<Terms, Halt>
        requires nest { room + m.old.nest ≡ most_nested }
        requires ready { IsReady env.now ctx.now }
        requires site { S.is_of site.now env.now ctx.now }
        requires params { AreCounted env.now x.now.params }
        ensures follows { Follows (scrutinee_rule env.now (infer env.now (test_of env.now) room) (compare env.now (test_of env.now) room) ctx.now x.now.family (with_parameters block.now.params family.now) x.now.params x.now.scrut m.old.account) result m.old m.new }
    {
        let ty = self.infer_at(alloc, env, ctx, site, room, &x.scrut, m)?;
        let whnf = self.reducer.whnf(alloc, env, ctx, &ty, m)?;
        let indices = found_indices(alloc, block, x.family, family, &whnf)?;
        self.retype(alloc, env, ctx, site, room, &ty, &whnf, m)?;
        let asked = family_at_indices(alloc, x.family, &x.params, &indices)?;
        self.scrutinee_fits(alloc, env, ctx, site, room, &whnf, &asked, m)?;
        Ok(indices)
    }
}
