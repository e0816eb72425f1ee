//! What terms in weak-head normal form are, and the terms that this depends on.
ghost use Rattle.std.specs.Prelude.{◌≡◌, ◌++◌, IfOk, IfErr, map};
ghost use Rattle.trees.specs.Tree.{terms_of};
ghost use Rattle.pc_terms.specs.Lists.{arms_of};
ghost use Rattle.calculus_rules.specs.Guardedness.{ending};
ghost use Rattle.calculus_rules.specs.Lookups.{family_of};
ghost use Rattle.pc_rules.specs.DirectedGuard.{constructors_of};
ghost use Rattle.pc_rules.specs.declared.stop.Stop.TheVariants.{Memory};
ghost use Rattle.guard_check.specs.Marks.{mark_of, marks_of, values_in, marks_in};
ghost use Rattle.guard_check.specs.Tasks.{head_mark, to_find, bodies_to_find, branches_to_find};

use crate::branches::branch_scope;
use crate::mark::Mark;
use crate::scope::Scope;
use pc_rules::environment::Env;
use pc_rules::shared_list::SharedList;
use pc_rules::stop::Stop;
use pc_terms::leaf::Name;
use pc_terms::term::{Match, Node, Term};
use std::alloc::Global;

/// A term that is still to be found smaller, and the variables in scope.
#[derive(Drop)]
pub(crate) struct Task {
    pub scope: Scope,
    pub body: Term,
}

/// What a term in weak-head normal form is, where the bodies of the matches at its head are smaller: that of a variable by its mark, of
/// an application by its function, of a match by its scrutinee.
pub(crate) fn head_mark(marks: &SharedList<Mark>, t: &Term) -> Mark
    ensures is { mark_of result ≡ head_mark (marks_of marks.now) t.now }
{
    match t.view() {
        Node::Rel(i) => match marks.get(*i) {
            Some(Mark::Argument) => Mark::Argument,
            Some(Mark::Smaller) => Mark::Smaller,
            _ => Mark::Other,
        },
        Node::App(f, _) => head_mark(marks, f).applied(),
        Node::Case(x) => {
            let x = x.get();
            if head_mark(marks, &x.scrut).opens() {
                Mark::Smaller
            } else {
                Mark::Other
            }
        }
        _ => Mark::Other,
    }
}

/// Puts the bodies of a match that is opened behind the tasks that are there, the last branch first. Only `Memory`.
fn push_bodies(
    alloc: Global,
    env: &Env,
    recursive: Option<Name>,
    scope: &Scope,
    x: &Match,
    tasks: &mut Vec<Task>,
) -> Result<(), Stop>
    ensures pushed { IfOk result (λ _. map to_find tasks.new.items ≡ map to_find tasks.old.items ++ bodies_to_find (values_in scope.now) (marks_in scope.now) (ending env.now recursive x.now.family (terms_of x.now.params)) (constructors_of (family_of env.now x.now.family)) (arms_of x.now.branches)) }
    ensures only_memory { IfErr result (λ e. e ≡ Memory) }
{
    let branches = x.branches.as_slice();
    let count = branches.len();
    for i in 0..count {
        let place = count - 1 - i;
        let branch = &branches[place];
        let inner = branch_scope(alloc, env, recursive, scope, true, x, place, branch)?;
        let body = branch.body.share()?;
        let task = Task { scope: inner, body };
        if tasks.push(task).is_err() {
            return Err(Stop::Memory);
        }
    }
    Ok(())
}

/// Puts the bodies of all matches at the head of a term in weak-head normal form behind the tasks that are there, so that those of the
/// innermost match come last, and of each match the last branch first. Only `Memory`.
pub(crate) fn push_branches(
    alloc: Global,
    env: &Env,
    recursive: Option<Name>,
    scope: &Scope,
    t: &Term,
    tasks: &mut Vec<Task>,
) -> Result<(), Stop>
    ensures pushed { IfOk result (λ _. map to_find tasks.new.items ≡ map to_find tasks.old.items ++ branches_to_find env.now recursive (values_in scope.now) (marks_in scope.now) t.now) }
    ensures only_memory { IfErr result (λ e. e ≡ Memory) }
{
    match t.view() {
        Node::App(f, _) => push_branches(alloc, env, recursive, scope, f, tasks),
        Node::Case(x) => {
            let x = x.get();
            push_bodies(alloc, env, recursive, scope, x, tasks)?;
            push_branches(alloc, env, recursive, scope, &x.scrut, tasks)
        }
        _ => Ok(()),
    }
}
