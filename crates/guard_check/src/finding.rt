//! What terms are found to be by their weak-head normal forms.
ghost use Rattle.std.specs.Prelude.{◌≡◌, None, map};
ghost use Rattle.pc_rules.specs.DirectedWeakHead.{weak_next};
ghost use Rattle.pc_rules.specs.DirectedGuard.{find, normal_found};
ghost use Rattle.pc_rules.specs.Follows.{Follows};
ghost use Rattle.guard_check.specs.Marks.{values_in, marks_in, marked, marked_term};
ghost use Rattle.guard_check.specs.Tasks.{to_find, each_smaller};

use crate::guard::Guard;
use crate::mark::Mark;
use crate::scope::Scope;
use crate::tasks::{Task, head_mark, push_branches};
use pc_rules::environment::Env;
use pc_rules::meter::Meter;
use pc_rules::reducer::Reducer;
use pc_rules::stop::{Halt, Stop};
use pc_terms::leaf::Name;
use pc_terms::term::Term;
use std::alloc::Global;

impl<R: Reducer + Drop> Guard<R> {
    /// The weak-head normal form of a term, and what it is: the argument, smaller, or neither.
    pub(crate) fn normal_found(
        &self,
        alloc: Global,
        env: &Env,
        recursive: Option<Name>,
        scope: &Scope,
        t: &Term,
        m: &mut Meter,
    ) -> Result<(Term, Mark), Halt>
        ensures follows { Follows (normal_found env.now recursive (values_in scope.now) (marks_in scope.now) t.now m.old.account) (marked_term result) m.old m.new }
    {
        let whnf = self.reducer.whnf(alloc, env, &scope.ctx, t, m)?;
        let mark = self.found(alloc, env, recursive, scope, &whnf, m)?;
        Ok((whnf, mark))
    }

    /// What a term in weak-head normal form is.
    fn found(
        &self,
        alloc: Global,
        env: &Env,
        recursive: Option<Name>,
        scope: &Scope,
        t: &Term,
        m: &mut Meter,
    ) -> Result<Mark, Halt>
        requires normal { weak_next env.now (values_in scope.now) t.now ≡ None }
        ensures follows { Follows (find env.now recursive m.old.account.left (values_in scope.now) (marks_in scope.now) t.now m.old.account) (marked result) m.old m.new }
    {
        let mark = head_mark(&scope.marks, t);
        let Mark::Smaller = mark else {
            return Ok(mark);
        };
        let mut tasks = Vec::new(alloc);
        push_branches(alloc, env, recursive, scope, t, &mut tasks)?;
        self.all_smaller(alloc, env, recursive, tasks, m)
    }

    /// `Smaller` where each of some terms is, the last first, and `Other` at the first that is not.
    ///
    /// A body may reduce to a match on a smaller variable again, as often as there are units for that. So bodies wait in a list, and not
    /// in calls.
    fn all_smaller(
        &self,
        alloc: Global,
        env: &Env,
        recursive: Option<Name>,
        mut tasks: Vec<Task>,
        m: &mut Meter,
    ) -> Result<Mark, Halt>
        ensures follows { Follows (each_smaller env.now recursive (map to_find tasks.items) m.old.account) (marked result) m.old m.new }
    {
        for _ in 0..u64::MAX {
            let Some(task) = tasks.pop() else {
                return Ok(Mark::Smaller);
            };
            let whnf = self
                .reducer
                .whnf(alloc, env, &task.scope.ctx, &task.body, m)?;
            let Mark::Smaller = head_mark(&task.scope.marks, &whnf) else {
                return Ok(Mark::Other);
            };
            push_branches(alloc, env, recursive, &task.scope, &whnf, &mut tasks)?;
        }
        // No memory holds so many bodies.
        Err(Halt::Stop(Stop::Memory))
    }
}
