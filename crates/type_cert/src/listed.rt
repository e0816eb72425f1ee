//! Scripts of matches and fixpoints: a script for each two parts of a list.
ghost use Rattle.std.specs.Prelude.{◌≡◌, ◌+◌, ℕ, Bool, Some, None, Option, List, MatchOption, IfOk, IfErr};
ghost use Rattle.pc_terms.specs.View.{tree_of};
ghost use Rattle.pc_terms.specs.declared.term.Node.TheVariants.{Case, Fix};
ghost use Rattle.calculus_rules.specs.Context.{values, under};
ghost use Rattle.pc_rules.specs.declared.stop.Stop.TheVariants.{Memory};
ghost use Rattle.pc_rules.specs.DirectedTyping.{rule_number};
ghost use Rattle.pc_rules.specs.WellCounted.{IsCountedEnv, AreCountedValues};
ghost use Rattle.pc_rules.specs.DirectedRun.{most_nested};
ghost use Rattle.cert_rules.specs.Walk.{walk_all};
ghost use Rattle.type_cert.specs.Retraces.{Retraces, stand};
ghost use Rattle.type_cert.specs.Comparable.{AreScriptable};
ghost use Rattle.type_cert.specs.Going.{going, parting};
ghost use Rattle.type_cert.specs.Pairs.{acts_of, AreCountedParts};

use crate::halt::WalkHalt;
use crate::parts::{Part, fix_parts, match_parts};
use crate::trail::Trail;
use crate::verifier::Verifier;
use calculus_rules::entry::Entry;
use conversion::mode::Mode;
use pc_rules::context::Ctx;
use pc_rules::stop::Stop;
use pc_terms::term::{Defs, Match, Node, Term};
use std::alloc::Global;

/// A context with so many more entries, none of which is defined; their type, which nothing reads, is any term. Only `Memory`.
pub(crate) fn assumed(alloc: Global, ctx: &Ctx, count: usize, ty: &Term) -> Result<Ctx, Stop>
    ensures longer { IfOk result (λ c. values c ≡ under count (values ctx.now)) }
    ensures only_memory { IfErr result (λ e. e ≡ Memory) }
{
    let mut out = ctx.share()?;
    for _ in 0..count {
        let entry = Entry::Assumed(ty.share()?);
        let longer = out.extended(alloc, entry)?;
        out = longer;
    }
    Ok(out)
}

impl Verifier<'_> {
    /// The parts of two matches; refused at item `at` where their families or counts differ.
    #[cycle(script)]
    pub(crate) fn matches(
        &self,
        alloc: Global,
        ctx: &Ctx,
        at: usize,
        x: &Match,
        b: &Term,
        trail: &mut Trail,
    ) -> Result<(), WalkHalt>
        requires nest { self.now.room + trail.old.meter.nest ≡ most_nested }
        requires scriptable { AreScriptable self.now.env.now (values ctx.now) (tree_of (Case x.now)) b.now }
        requires number { rule_number b.now ≡ 10 }
        ensures retraces { (equal : Bool) → Retraces (parting self.now at (values ctx.now) equal (tree_of (Case x.now)) b.now (stand trail.old)) result trail.old trail.new }
    {
        let Node::Case(y) = b.view() else {
            unreachable!()
        };
        let y = y.get();
        let found = match_parts(alloc, x, y)?;
        let Some(parts) = found else {
            return Err(WalkHalt::Barred { item: at });
        };
        self.each_part(alloc, ctx, parts.as_slice(), trail)
    }

    /// The parts of two fixpoints; refused at item `at` where their indices or recursive arguments differ.
    #[cycle(script)]
    pub(crate) fn fixpoints(
        &self,
        alloc: Global,
        ctx: &Ctx,
        at: usize,
        ds: &Defs,
        i: u32,
        b: &Term,
        trail: &mut Trail,
    ) -> Result<(), WalkHalt>
        requires nest { self.now.room + trail.old.meter.nest ≡ most_nested }
        requires scriptable { AreScriptable self.now.env.now (values ctx.now) (tree_of (Fix ds.now i)) b.now }
        requires number { rule_number b.now ≡ 11 }
        ensures retraces { (equal : Bool) → Retraces (parting self.now at (values ctx.now) equal (tree_of (Fix ds.now i)) b.now (stand trail.old)) result trail.old trail.new }
    {
        let Node::Fix(es, j) = b.view() else {
            unreachable!()
        };
        let found = fix_parts(alloc, ds, i, es, *j)?;
        let Some(parts) = found else {
            return Err(WalkHalt::Barred { item: at });
        };
        self.each_part(alloc, ctx, parts.as_slice(), trail)
    }

    /// A script for each two parts, which are to be equal.
    #[cycle(script)]
    fn each_part(
        &self,
        alloc: Global,
        ctx: &Ctx,
        parts: &[Part],
        trail: &mut Trail,
    ) -> Result<(), WalkHalt>
        requires nest { self.now.room + trail.old.meter.nest ≡ most_nested }
        requires env { IsCountedEnv self.now.env.now }
        requires values { AreCountedValues self.now.env.now (values ctx.now) }
        requires parts { AreCountedParts self.now.env.now parts.now }
        ensures retraces { Retraces (walk_all (acts_of (going self.now) (values ctx.now) parts.now) (stand trail.old)) result trail.old trail.new }
    {
        for i in 0..parts.len() {
            let part = &parts[i];
            let inner = assumed(alloc, ctx, part.under, &part.left)?;
            self.terms_script(alloc, &inner, Mode::Equal, &part.left, &part.right, trail)?;
        }
        Ok(())
    }
}
