//! The variables of branches.
ghost use Rattle.std.specs.Prelude.{◌≡◌, IfOk, IfErr, slice_get, if◌then◌else◌};
ghost use Rattle.trees.specs.Tree.{terms_of};
ghost use Rattle.calculus_rules.specs.Context.{under};
ghost use Rattle.calculus_rules.specs.Guardedness.{others, ending};
ghost use Rattle.calculus_rules.specs.Lookups.{family_of};
ghost use Rattle.pc_rules.specs.DirectedGuard.{constructors_of};
ghost use Rattle.pc_rules.specs.declared.stop.Stop.TheVariants.{Memory};
ghost use Rattle.guard_check.specs.Marks.{values_in, marks_in};
ghost use Rattle.guard_check.specs.Tasks.{opened_marks};

use crate::families::constructor;
use crate::scope::Scope;
use pc_rules::environment::Env;
use pc_rules::stop::Stop;
use pc_terms::leaf::Name;
use pc_terms::term::{Branch, Match};
use std::alloc::Global;

/// The scope of a branch of a match, by its place from 0: in a match that is opened, some of its variables are smaller. Only `Memory`.
pub(crate) fn branch_scope(
    alloc: Global,
    env: &Env,
    recursive: Option<Name>,
    scope: &Scope,
    opened: bool,
    x: &Match,
    place: usize,
    branch: &Branch,
) -> Result<Scope, Stop>
    ensures values { IfOk result (λ s. values_in s ≡ under branch.now.binders (values_in scope.now)) }
    ensures marks { IfOk result (λ s. marks_in s ≡ (if opened then opened_marks (ending env.now recursive x.now.family (terms_of x.now.params)) (slice_get (constructors_of (family_of env.now x.now.family)) place) branch.now.binders (marks_in scope.now) else others branch.now.binders (marks_in scope.now))) }
    ensures only_memory { IfErr result (λ e. e ≡ Memory) }
{
    let binders = branch.binders as usize;
    if !opened {
        return scope.under(alloc, binders, &x.ret);
    }
    match constructor(env, x.family, place) {
        Some(ctor) => scope.opened(alloc, env, recursive, binders, x, ctor),
        None => scope.under(alloc, binders, &x.ret),
    }
}
