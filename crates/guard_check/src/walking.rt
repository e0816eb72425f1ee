//! The walk over the body of a definition.
ghost use Rattle.std.specs.Prelude.{◌≡◌, [], length, slice_get};
ghost use Rattle.trees.specs.Tree.{terms_of};
ghost use Rattle.pc_terms.specs.Syntax.{Rel};
ghost use Rattle.pc_terms.specs.Lists.{arms_of, rargs_of, types_of, bodies_of};
ghost use Rattle.calculus_rules.specs.Context.{under};
ghost use Rattle.calculus_rules.specs.Guardedness.{others, ending};
ghost use Rattle.pc_rules.specs.DirectedRun.{run_all};
ghost use Rattle.calculus_rules.specs.Lookups.{family_of};
ghost use Rattle.pc_rules.specs.DirectedGuard.{call_rule, walk, walk_terms, walk_branches, walk_passed, walk_under, interleaved, constructors_of, passed_argument, argument_found};
ghost use Rattle.pc_rules.specs.Follows.{Follows};
ghost use Rattle.guard_check.specs.Marks.{mark_of, values_in, marks_in, marked};
ghost use Rattle.guard_check.specs.Walks.{binder_rule, match_rule, definitions_rule};

use crate::args::Args;
use crate::branches::branch_scope;
use crate::guard::Guard;
use crate::mark::Mark;
use crate::scope::Scope;
use pc_rules::broken::Broken;
use pc_rules::environment::Env;
use pc_rules::meter::Meter;
use pc_rules::reducer::Reducer;
use pc_rules::stop::{Halt, Stop};
use pc_terms::leaf::Name;
use pc_terms::term::{Def, Match, Node, Term};
use std::alloc::Global;

impl<R: Reducer + Drop> Guard<R> {
    /// A term that is applied to no argument.
    #[cycle(walk)]
    pub(crate) fn walk(
        &self,
        alloc: Global,
        env: &Env,
        recursive: Option<Name>,
        scope: &Scope,
        t: &Term,
        m: &mut Meter,
    ) -> Result<(), Halt>
        ensures follows { Follows (walk env.now recursive (values_in scope.now) (marks_in scope.now) [] t.now m.old.account) result m.old m.new }
    {
        self.walk_applied(alloc, env, recursive, scope, &Args::none(), t, m)
    }

    /// A term that is applied to arguments: each call of the fixpoint in it is on a smaller argument.
    #[cycle(walk)]
    fn walk_applied(
        &self,
        alloc: Global,
        env: &Env,
        recursive: Option<Name>,
        scope: &Scope,
        args: &Args,
        t: &Term,
        m: &mut Meter,
    ) -> Result<(), Halt>
        ensures follows { Follows (walk env.now recursive (values_in scope.now) (marks_in scope.now) args.now t.now m.old.account) result m.old m.new }
    {
        match t.view() {
            Node::Rel(i) => self.call(alloc, env, recursive, scope, args, t, *i, m),
            Node::App(f, a) => {
                self.walk_applied(alloc, env, recursive, scope, &Args::with(a, &*args), f, m)?;
                self.walk(alloc, env, recursive, scope, a, m)
            }
            Node::Prod(a, b) => self.binder(alloc, env, recursive, scope, a, b, m),
            Node::Lambda(a, b) => self.binder(alloc, env, recursive, scope, a, b, m),
            Node::LetIn(value, ty, body) => {
                self.walk(alloc, env, recursive, scope, value, m)?;
                self.walk(alloc, env, recursive, scope, ty, m)?;
                let inner = scope.defined(alloc, value, ty)?;
                self.walk(alloc, env, recursive, &inner, body, m)
            }
            Node::Case(x) => self.case(alloc, env, recursive, scope, x.get(), m),
            Node::Fix(defs, _) => {
                self.definitions(alloc, env, recursive, scope, args, t, defs.as_slice(), m)
            }
            Node::Sort(_) | Node::Const(_) | Node::Ind(_) | Node::Construct(_, _) => Ok(()),
        }
    }

    /// A variable that is applied to arguments: where it is the fixpoint's, a unit, and then its recursive argument is smaller.
    fn call(
        &self,
        alloc: Global,
        env: &Env,
        recursive: Option<Name>,
        scope: &Scope,
        args: &Args,
        variable: &Term,
        index: u32,
        m: &mut Meter,
    ) -> Result<(), Halt>
        requires is { variable.now ≡ Rel index }
        ensures follows { Follows (call_rule env.now recursive (values_in scope.now) (marks_in scope.now) index args.now (slice_get (marks_in scope.now) index) m.old.account) result m.old m.new }
    {
        let Some(Mark::Recursive(place)) = scope.marks.get(index) else {
            return Ok(());
        };
        let Some(argument) = args.get(*place) else {
            let argument = variable.share()?;
            return Err(Halt::Broken(Broken::NotGuarded { argument }));
        };
        if !m.tick() {
            return Err(Halt::Stop(Stop::Spent));
        }
        let (argument, mark) = self.normal_found(alloc, env, recursive, scope, argument, m)?;
        match mark {
            Mark::Smaller => Ok(()),
            _ => Err(Halt::Broken(Broken::NotGuarded { argument })),
        }
    }

    /// A product or a function: the domain, and what is under it.
    #[cycle(walk)]
    fn binder(
        &self,
        alloc: Global,
        env: &Env,
        recursive: Option<Name>,
        scope: &Scope,
        domain: &Term,
        body: &Term,
        m: &mut Meter,
    ) -> Result<(), Halt>
        ensures follows { Follows (binder_rule env.now recursive (values_in scope.now) (marks_in scope.now) domain.now body.now m.old.account) result m.old m.new }
    {
        self.walk(alloc, env, recursive, scope, domain, m)?;
        let inner = scope.assumed(alloc, domain, Mark::Other)?;
        self.walk(alloc, env, recursive, &inner, body, m)
    }

    /// A match: what the scrutinee is, and then scrutinee, parameters, predicate and branches.
    #[cycle(walk)]
    fn case(
        &self,
        alloc: Global,
        env: &Env,
        recursive: Option<Name>,
        scope: &Scope,
        x: &Match,
        m: &mut Meter,
    ) -> Result<(), Halt>
        ensures follows { Follows (match_rule env.now recursive (values_in scope.now) (marks_in scope.now) x.now.family (terms_of x.now.params) x.now.binders x.now.ret x.now.scrut (arms_of x.now.branches) m.old.account) result m.old m.new }
    {
        let (_, mark) = self.normal_found(alloc, env, recursive, scope, &x.scrut, m)?;
        self.walk(alloc, env, recursive, scope, &x.scrut, m)?;
        self.terms(alloc, env, recursive, scope, x.params.as_slice(), m)?;
        let inner = scope.under(alloc, x.binders as usize, &x.ret)?;
        self.walk(alloc, env, recursive, &inner, &x.ret, m)?;
        self.branches(alloc, env, recursive, scope, mark.opens(), x, m)
    }

    /// The branches of a match, which may be opened.
    #[cycle(walk)]
    fn branches(
        &self,
        alloc: Global,
        env: &Env,
        recursive: Option<Name>,
        scope: &Scope,
        opened: bool,
        x: &Match,
        m: &mut Meter,
    ) -> Result<(), Halt>
        ensures follows { Follows (run_all (walk_branches env.now recursive (values_in scope.now) (marks_in scope.now) (ending env.now recursive x.now.family (terms_of x.now.params)) opened (constructors_of (family_of env.now x.now.family)) (arms_of x.now.branches)) m.old.account) result m.old m.new }
    {
        let branches = x.branches.as_slice();
        for place in 0..branches.len() {
            let branch = &branches[place];
            let inner = branch_scope(alloc, env, recursive, scope, opened, x, place, branch)?;
            self.walk(alloc, env, recursive, &inner, &branch.body, m)?;
        }
        Ok(())
    }

    /// Some terms, from the first to the last.
    #[cycle(walk)]
    fn terms(
        &self,
        alloc: Global,
        env: &Env,
        recursive: Option<Name>,
        scope: &Scope,
        ts: &[Term],
        m: &mut Meter,
    ) -> Result<(), Halt>
        ensures follows { Follows (run_all (walk_terms env.now recursive (values_in scope.now) (marks_in scope.now) (terms_of ts.now)) m.old.account) result m.old m.new }
    {
        for t in ts {
            self.walk(alloc, env, recursive, scope, t, m)?;
        }
        Ok(())
    }

    /// What the recursive argument of a fixpoint of one definition is found to be, where it is among the arguments.
    fn argument_found(
        &self,
        alloc: Global,
        env: &Env,
        recursive: Option<Name>,
        scope: &Scope,
        args: &Args,
        defs: &[Def],
        m: &mut Meter,
    ) -> Result<Mark, Halt>
        ensures follows { Follows (argument_found env.now recursive (values_in scope.now) (marks_in scope.now) (passed_argument (rargs_of defs.now) args.now) m.old.account) (marked result) m.old m.new }
    {
        if defs.len() != 1 {
            return Ok(Mark::Other);
        }
        let Some(argument) = args.get(defs[0].rarg) else {
            return Ok(Mark::Other);
        };
        let (_, mark) = self.normal_found(alloc, env, recursive, scope, argument, m)?;
        Ok(mark)
    }

    /// The definitions of a fixpoint inside the body: what its recursive argument is, and then of each its type, and its body under all of
    /// them.
    #[cycle(walk)]
    fn definitions(
        &self,
        alloc: Global,
        env: &Env,
        recursive: Option<Name>,
        scope: &Scope,
        args: &Args,
        fixpoint: &Term,
        defs: &[Def],
        m: &mut Meter,
    ) -> Result<(), Halt>
        ensures follows { Follows (definitions_rule env.now recursive (values_in scope.now) (marks_in scope.now) args.now (rargs_of defs.now) (types_of defs.now) (bodies_of (length defs.now) defs.now) m.old.account) result m.old m.new }
    {
        let mark = self.argument_found(alloc, env, recursive, scope, args, defs, m)?;
        let inner = scope.under(alloc, defs.len(), fixpoint)?;
        match mark {
            Mark::Smaller => self.passed(alloc, env, recursive, scope, &inner, defs, m),
            _ => self.others(alloc, env, recursive, scope, &inner, defs, m),
        }
    }

    /// The definitions of a fixpoint whose recursive argument is not smaller.
    #[cycle(walk)]
    fn others(
        &self,
        alloc: Global,
        env: &Env,
        recursive: Option<Name>,
        scope: &Scope,
        inner: &Scope,
        defs: &[Def],
        m: &mut Meter,
    ) -> Result<(), Halt>
        requires values { values_in inner.now ≡ under (length defs.now) (values_in scope.now) }
        requires marks { marks_in inner.now ≡ others (length defs.now) (marks_in scope.now) }
        ensures follows { Follows (run_all (interleaved (walk_terms env.now recursive (values_in scope.now) (marks_in scope.now) (types_of defs.now)) (walk_terms env.now recursive (values_in scope.now) (marks_in scope.now) (bodies_of (length defs.now) defs.now))) m.old.account) result m.old m.new }
    {
        for def in defs {
            self.walk(alloc, env, recursive, scope, &def.ty, m)?;
            self.walk(alloc, env, recursive, inner, &def.body, m)?;
        }
        Ok(())
    }

    /// The definitions of a fixpoint whose recursive argument is smaller, and so is its variable in the body.
    #[cycle(walk)]
    fn passed(
        &self,
        alloc: Global,
        env: &Env,
        recursive: Option<Name>,
        scope: &Scope,
        inner: &Scope,
        defs: &[Def],
        m: &mut Meter,
    ) -> Result<(), Halt>
        requires values { values_in inner.now ≡ under (length defs.now) (values_in scope.now) }
        requires marks { marks_in inner.now ≡ others (length defs.now) (marks_in scope.now) }
        ensures follows { Follows (run_all (interleaved (walk_terms env.now recursive (values_in scope.now) (marks_in scope.now) (types_of defs.now)) (walk_passed env.now recursive (values_in scope.now) (marks_in scope.now) (rargs_of defs.now) (bodies_of (length defs.now) defs.now))) m.old.account) result m.old m.new }
    {
        for def in defs {
            self.walk(alloc, env, recursive, scope, &def.ty, m)?;
            self.under(
                alloc,
                env,
                recursive,
                inner,
                Mark::Smaller,
                def.rarg,
                &def.body,
                m,
            )?;
        }
        Ok(())
    }

    /// A body that begins with rarg + 1 lambdas: their domains, and then what is under them, where the last of their variables has a mark.
    /// `NotGuarded` keeps what stands where a lambda is missing.
    #[cycle(walk)]
    pub(crate) fn under(
        &self,
        alloc: Global,
        env: &Env,
        recursive: Option<Name>,
        scope: &Scope,
        mark: Mark,
        rarg: u32,
        t: &Term,
        m: &mut Meter,
    ) -> Result<(), Halt>
        ensures follows { Follows (walk_under env.now recursive (values_in scope.now) (marks_in scope.now) (mark_of mark) rarg t.now m.old.account) result m.old m.new }
    {
        let Node::Lambda(domain, body) = t.view() else {
            let found = t.share()?;
            return Err(Halt::Broken(Broken::NotGuarded { argument: found }));
        };
        self.walk(alloc, env, recursive, scope, domain, m)?;
        if rarg == 0 {
            let inner = scope.assumed(alloc, domain, mark)?;
            return self.walk(alloc, env, recursive, &inner, body, m);
        }
        let inner = scope.assumed(alloc, domain, Mark::Other)?;
        self.under(alloc, env, recursive, &inner, mark, rarg - 1, body, m)
    }
}
