//! The result terms of a constructor: the indices of what it builds.
ghost use Rattle.std.specs.Prelude.{◌≡◌, ◌+◌, length, IfOk};
ghost use Rattle.pc_terms.specs.Syntax.{Rel};
ghost use Rattle.pc_rules.specs.declared.meter.Account.{Account};
ghost use Rattle.pc_rules.specs.DirectedTyping.{counted};
ghost use Rattle.pc_rules.specs.Follows.{Follows, Answers};
ghost use Rattle.pc_rules.specs.WellCounted.{AreCounted, IsCountedContext, IsCountedEnv};
ghost use Rattle.pc_rules.specs.DirectedRun.{most_nested};
ghost use Rattle.inductive_check.specs.Arguments.{results_within};

use crate::setting::BlockSetting;
use crate::types::check;
use instances::instances::replacing::replace;
use pc_rules::broken::Broken;
use pc_rules::context::Ctx;
use pc_rules::meter::Meter;
use pc_rules::stop::{Halt, Stop};
use pc_rules::typer::Typer;
use pc_terms::lists::Telescope;
use pc_terms::term::Terms;
use std::alloc::Global;

/// Whether the number that is given is the wanted one. `CountWrong`; `Memory` where one of them is no number of 32 bits.
pub(crate) fn counted(want: usize, got: usize) -> Result<(), Halt>
    ensures answers { (u : Account) → Answers (counted want got u) result u }
    ensures same { IfOk result (λ _. want ≡ got) }
{
    if want == got {
        return Ok(());
    }
    match (u32::try_from(want), u32::try_from(got)) {
        (Ok(want), Ok(got)) => Err(Halt::Broken(Broken::CountWrong { want, got })),
        _ => Err(Halt::Stop(Stop::Memory)),
    }
}

/// Checks each result term against the type of its index at the result terms before, with the refusals of `Typer::check`. There are as many
/// of both. The types stand under the block's parameters; the terms, in the context `ctx`, under these and `args` arguments. `TooDeep` also
/// where such a type is beyond the limits of terms.
pub(crate) fn check_results<T: Typer>(
    alloc: Global,
    setting: &BlockSetting<'_, T>,
    ctx: &Ctx,
    args: u32,
    result_terms: &Terms,
    indices: &Telescope,
    m: &mut Meter,
) -> Result<(), Halt>
    requires nest { setting.now.room + m.old.nest ≡ most_nested }
    requires env { IsCountedEnv setting.now.env.now }
    requires ctx { IsCountedContext setting.now.env.now ctx.now }
    requires count { length indices.now ≡ length result_terms.now }
    ensures follows { Follows (results_within setting.now.env.now setting.now.room ctx.now (λ i. Rel (args + i)) result_terms.now indices.now m.old.account) result m.old m.new }
    ensures counted { IfOk result (λ _. AreCounted setting.now.env.now result_terms.now) }
{
    let terms = result_terms.as_slice();
    let types = indices.as_slice();
    let mut before = Terms::new(alloc);
    for i in 0..terms.len() {
        let term = &terms[i];
        let ty = replace(alloc, &types[i], args, &before)?;
        check(alloc, setting, ctx, term, &ty, m)?;
        before.push(term.share()?)?;
    }
    Ok(())
}
