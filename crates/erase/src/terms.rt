//! Erasure of a term.
ghost use Rattle.std.specs.Prelude.{◌≡◌, ◌+◌, length, IfOk};
ghost use Rattle.trees.specs.Measures.{IsWithin};
ghost use Rattle.pc_terms.specs.Syntax.{Lambda, LetIn, App};
ghost use Rattle.pc_rules.specs.Entailment.{test_of};
ghost use Rattle.pc_rules.specs.Follows.{Follows};
ghost use Rattle.pc_rules.specs.DirectedTyping.{infer};
ghost use Rattle.pc_rules.specs.DirectedErasable.{erasable_test};
ghost use Rattle.pc_rules.specs.WellCounted.{IsCounted, IsCountedContext, IsCountedEnv};
ghost use Rattle.pc_rules.specs.DirectedRun.{most_nested};
ghost use Rattle.known_types.specs.Located.{IsOf};
ghost use Rattle.erase_rules.specs.DirectedErasure.{erased, kept, kept_branches, kept_bodies};
ghost use Rattle.erase.specs.Arms.{arms_in, bodies_in, under_entries};
ghost use Rattle.calculus_rules.specs.Instances.{branch_entries};
ghost use Rattle.pc_rules.specs.WellCounted.{AreCounted, AreCountedConstructors, IsCountedNode};
ghost use Rattle.pc_terms.specs.Lists.{arms_of, bodies_of, rargs_of};
ghost use Rattle.pc_terms.specs.Formed.{EachTerm};
ghost use Rattle.box_terms.specs.BoxLists.{rargs_of as box_rargs};
ghost use Rattle.pc_terms.specs.View.{tree_of};
ghost use Rattle.pc_terms.specs.declared.term.Node.TheVariants.{Case, Fix};

use crate::making::made;
use box_terms::term::{BoxBranch, BoxBranches, BoxDef, BoxDefs, BoxNode, BoxTerm};
use calculus_rules::declaration::{Constructor, Constructors};
use calculus_rules::entry::Entry;
use calculus_rules::evidence::Evidence;
use erasable::test::test_in;
use instances::contexts::{definition_entries, extended};
use instances::instances::branches::branch_entries;
use instances::kept::kept_family;
use known_types::site::Site;
use known_types::sited::Sited;
use known_types::typer::SiteTyper;
use pc_rules::broken::Broken;
use pc_rules::context::Ctx;
use pc_rules::environment::Env;
use pc_rules::meter::Meter;
use pc_rules::reducer::Reducer;
use pc_rules::stop::Halt;
use pc_terms::term::{Defs, Match, Node, Term, Terms};
use std::alloc::Global;

/// Erases terms, by a typer and a reducer.
#[derive(Drop)]
pub(crate) struct Eraser<T: SiteTyper + Drop, R: Reducer + Drop> {
    typer: T,
    reducer: R,
}

impl<T: SiteTyper + Drop, R: Reducer + Drop> Eraser<T, R> {
    /// Erasure by a typer and a reducer.
    pub(crate) fn new(typer: T, reducer: R) -> Eraser<T, R> {
        Eraser { typer, reducer }
    }

    /// The evidence that a term is erasable.
    fn evidence(
        &self,
        alloc: Global,
        env: &Env,
        ctx: &Ctx,
        site: &Site<'_>,
        room: u32,
        t: &Term,
        m: &mut Meter,
    ) -> Result<Option<Evidence>, Halt>
        requires nest { room + m.old.nest ≡ most_nested }
        requires env { IsCountedEnv env.now }
        requires ctx { IsCountedContext env.now ctx.now }
        requires site { IsOf site.now env.now ctx.now }
        requires counted { IsCounted env.now t.now }
        ensures follows { Follows (erasable_test env.now (infer env.now (test_of env.now) room) ctx.now t.now m.old.account) result m.old m.new }
    {
        test_in(alloc, &self.typer, &self.reducer, env, ctx, site, t, m)
    }

    /// A term: box where there is evidence, and else its former.
    #[cycle(erase)]
    pub(crate) fn erased(
        &self,
        alloc: Global,
        env: &Env,
        ctx: &Ctx,
        site: &Site<'_>,
        room: u32,
        t: &Term,
        m: &mut Meter,
    ) -> Result<BoxTerm, Halt>
        requires nest { room + m.old.nest ≡ most_nested }
        requires env { IsCountedEnv env.now }
        requires ctx { IsCountedContext env.now ctx.now }
        requires site { IsOf site.now env.now ctx.now }
        requires counted { IsCounted env.now t.now }
        ensures follows { Follows (erased env.now (infer env.now (test_of env.now) room) ctx.now t.now m.old.account) result m.old m.new }
    {
        let evidence = self.evidence(alloc, env, ctx, site, room, t, m)?;
        match evidence {
            Some(_) => Ok(made(alloc, BoxNode::Boxed)?),
            None => self.kept(alloc, env, ctx, site, room, t, m),
        }
    }

    /// What is kept of a term without evidence.
    #[cycle(erase)]
    fn kept(
        &self,
        alloc: Global,
        env: &Env,
        ctx: &Ctx,
        site: &Site<'_>,
        room: u32,
        t: &Term,
        m: &mut Meter,
    ) -> Result<BoxTerm, Halt>
        requires nest { room + m.old.nest ≡ most_nested }
        requires env { IsCountedEnv env.now }
        requires ctx { IsCountedContext env.now ctx.now }
        requires site { IsOf site.now env.now ctx.now }
        requires counted { IsCounted env.now t.now }
        ensures follows { Follows (kept env.now (infer env.now (test_of env.now) room) ctx.now t.now m.old.account) result m.old m.new }
    {
        let _depth = t.depth();
        match t.view() {
            Node::Rel(i) => Ok(made(alloc, BoxNode::Rel(*i))?),
            Node::Lambda(ty, body) => self.lambda(alloc, env, ctx, site, room, ty, body, m),
            Node::LetIn(value, ty, body) => {
                self.let_in(alloc, env, ctx, site, room, value, ty, body, m)
            }
            Node::App(function, argument) => {
                self.application(alloc, env, ctx, site, room, function, argument, m)
            }
            Node::Const(name) => Ok(made(alloc, BoxNode::Const(*name))?),
            Node::Construct(id, number) => Ok(made(alloc, BoxNode::Construct(*id, *number))?),
            Node::Case(x) => self.case(alloc, env, ctx, site, room, x.get(), m),
            Node::Fix(defs, i) => self.fixpoint(alloc, env, ctx, site, room, defs, *i, m),
            _ => Ok(made(alloc, BoxNode::Boxed)?),
        }
    }

    /// A lambda keeps its body.
    #[cycle(erase)]
    fn lambda(
        &self,
        alloc: Global,
        env: &Env,
        ctx: &Ctx,
        site: &Site<'_>,
        room: u32,
        ty: &Term,
        body: &Term,
        m: &mut Meter,
    ) -> Result<BoxTerm, Halt>
        requires nest { room + m.old.nest ≡ most_nested }
        requires env { IsCountedEnv env.now }
        requires ctx { IsCountedContext env.now ctx.now }
        requires site { IsOf site.now env.now ctx.now }
        requires counted { IsCounted env.now (Lambda ty.now body.now) }
        requires within { IsWithin (Lambda ty.now body.now) }
        ensures follows { Follows (kept env.now (infer env.now (test_of env.now) room) ctx.now (Lambda ty.now body.now) m.old.account) result m.old m.new }
    {
        let ty = ty.share()?;
        let inner = ctx.extended(alloc, Entry::Assumed(ty))?;
        let within = site.deeper(alloc, env, ctx, &inner);
        let body = self.erased(alloc, env, &inner, &within, room, body, m)?;
        Ok(made(alloc, BoxNode::Lambda(body))?)
    }

    /// A let keeps its value and its body.
    #[cycle(erase)]
    fn let_in(
        &self,
        alloc: Global,
        env: &Env,
        ctx: &Ctx,
        site: &Site<'_>,
        room: u32,
        value: &Term,
        ty: &Term,
        body: &Term,
        m: &mut Meter,
    ) -> Result<BoxTerm, Halt>
        requires nest { room + m.old.nest ≡ most_nested }
        requires env { IsCountedEnv env.now }
        requires ctx { IsCountedContext env.now ctx.now }
        requires site { IsOf site.now env.now ctx.now }
        requires counted { IsCounted env.now (LetIn value.now ty.now body.now) }
        requires within { IsWithin (LetIn value.now ty.now body.now) }
        ensures follows { Follows (kept env.now (infer env.now (test_of env.now) room) ctx.now (LetIn value.now ty.now body.now) m.old.account) result m.old m.new }
    {
        let first = self.erased(alloc, env, ctx, site, room, value, m)?;
        let value = value.share()?;
        let ty = ty.share()?;
        let inner = ctx.extended(alloc, Entry::Defined { value, ty })?;
        let within = site.deeper(alloc, env, ctx, &inner);
        let second = self.erased(alloc, env, &inner, &within, room, body, m)?;
        Ok(made(alloc, BoxNode::LetIn(first, second))?)
    }

    /// An application keeps both its parts.
    #[cycle(erase)]
    fn application(
        &self,
        alloc: Global,
        env: &Env,
        ctx: &Ctx,
        site: &Site<'_>,
        room: u32,
        function: &Term,
        argument: &Term,
        m: &mut Meter,
    ) -> Result<BoxTerm, Halt>
        requires nest { room + m.old.nest ≡ most_nested }
        requires env { IsCountedEnv env.now }
        requires ctx { IsCountedContext env.now ctx.now }
        requires site { IsOf site.now env.now ctx.now }
        requires counted { IsCounted env.now (App function.now argument.now) }
        requires within { IsWithin (App function.now argument.now) }
        ensures follows { Follows (kept env.now (infer env.now (test_of env.now) room) ctx.now (App function.now argument.now) m.old.account) result m.old m.new }
    {
        let first = self.erased(alloc, env, ctx, site, room, function, m)?;
        let second = self.erased(alloc, env, ctx, site, room, argument, m)?;
        Ok(made(alloc, BoxNode::App(first, second))?)
    }

    /// A match keeps its scrutinee and its branches.
    #[cycle(erase)]
    fn case(
        &self,
        alloc: Global,
        env: &Env,
        ctx: &Ctx,
        site: &Site<'_>,
        room: u32,
        x: &Match,
        m: &mut Meter,
    ) -> Result<BoxTerm, Halt>
        requires nest { room + m.old.nest ≡ most_nested }
        requires env { IsCountedEnv env.now }
        requires ctx { IsCountedContext env.now ctx.now }
        requires site { IsOf site.now env.now ctx.now }
        requires counted { IsCounted env.now (tree_of (Case x.now)) }
        requires within { IsWithin (tree_of (Case x.now)) }
        ensures follows { Follows (kept env.now (infer env.now (test_of env.now) room) ctx.now (tree_of (Case x.now)) m.old.account) result m.old m.new }
    {
        let scrut = self.erased(alloc, env, ctx, site, room, &x.scrut, m)?;
        let Some(family) = kept_family(env, x.family) else {
            return Err(Halt::Broken(Broken::UnknownName {
                name: x.family.block,
            }));
        };
        let branches = self.branches(alloc, env, ctx, site, room, &family.ctors, x, m)?;
        Ok(made(alloc, BoxNode::Case(x.family, scrut, branches))?)
    }

    /// The branches of a match.
    #[cycle(erase)]
    fn branches(
        &self,
        alloc: Global,
        env: &Env,
        ctx: &Ctx,
        site: &Site<'_>,
        room: u32,
        ctors: &Constructors,
        x: &Match,
        m: &mut Meter,
    ) -> Result<BoxBranches, Halt>
        requires nest { room + m.old.nest ≡ most_nested }
        requires env { IsCountedEnv env.now }
        requires ctx { IsCountedContext env.now ctx.now }
        requires site { IsOf site.now env.now ctx.now }
        requires ctors { AreCountedConstructors env.now ctors.now }
        requires counted { IsCounted env.now (tree_of (Case x.now)) }
        ensures follows { Follows (kept_branches env.now (infer env.now (test_of env.now) room) ctx.now x.now.params ctors.now (arms_of x.now.branches) m.old.account) (arms_in result) m.old m.new }
    {
        let listed = ctors.as_slice();
        let xs = x.branches.as_slice();
        let count = listed.len().min(xs.len());
        let mut out = BoxBranches::new(alloc);
        for i in 0..count {
            let arm = &xs[i];
            let body = self.branch(
                alloc, env, ctx, site, room, &listed[i], &x.params, &arm.body, m,
            )?;
            let binders = arm.binders;
            out.push(BoxBranch { binders, body })?;
        }
        Ok(out)
    }

    /// A branch, under the entries of its constructor's arguments.
    #[cycle(erase)]
    fn branch(
        &self,
        alloc: Global,
        env: &Env,
        ctx: &Ctx,
        site: &Site<'_>,
        room: u32,
        ctor: &Constructor,
        params: &Terms,
        body: &Term,
        m: &mut Meter,
    ) -> Result<BoxTerm, Halt>
        requires nest { room + m.old.nest ≡ most_nested }
        requires env { IsCountedEnv env.now }
        requires ctx { IsCountedContext env.now ctx.now }
        requires site { IsOf site.now env.now ctx.now }
        requires args { AreCounted env.now ctor.now.args }
        requires params { AreCounted env.now params.now }
        requires counted { IsCounted env.now body.now }
        ensures follows { Follows (under_entries env.now (infer env.now (test_of env.now) room) ctx.now (branch_entries ctor.now params.now) body.now m.old.account) result m.old m.new }
    {
        let entries = branch_entries(alloc, ctor, params)?;
        let inner = extended(alloc, ctx, &entries)?;
        let within = site.deeper(alloc, env, ctx, &inner);
        self.erased(alloc, env, &inner, &within, room, body, m)
    }

    /// A fixpoint keeps its definitions' bodies, under all definitions.
    #[cycle(erase)]
    fn fixpoint(
        &self,
        alloc: Global,
        env: &Env,
        ctx: &Ctx,
        site: &Site<'_>,
        room: u32,
        defs: &Defs,
        i: u32,
        m: &mut Meter,
    ) -> Result<BoxTerm, Halt>
        requires nest { room + m.old.nest ≡ most_nested }
        requires env { IsCountedEnv env.now }
        requires ctx { IsCountedContext env.now ctx.now }
        requires site { IsOf site.now env.now ctx.now }
        requires counted { IsCounted env.now (tree_of (Fix defs.now i)) }
        requires within { IsWithin (tree_of (Fix defs.now i)) }
        ensures follows { Follows (kept env.now (infer env.now (test_of env.now) room) ctx.now (tree_of (Fix defs.now i)) m.old.account) result m.old m.new }
    {
        let entries = definition_entries(alloc, defs)?;
        let inner = extended(alloc, ctx, &entries)?;
        let within = site.deeper(alloc, env, ctx, &inner);
        let bodies = self.bodies(alloc, env, &inner, &within, room, defs, m)?;
        Ok(made(alloc, BoxNode::Fix(bodies, i))?)
    }

    /// The bodies of definitions.
    #[cycle(erase)]
    fn bodies(
        &self,
        alloc: Global,
        env: &Env,
        ctx: &Ctx,
        site: &Site<'_>,
        room: u32,
        defs: &Defs,
        m: &mut Meter,
    ) -> Result<BoxDefs, Halt>
        requires nest { room + m.old.nest ≡ most_nested }
        requires env { IsCountedEnv env.now }
        requires ctx { IsCountedContext env.now ctx.now }
        requires site { IsOf site.now env.now ctx.now }
        requires counted { EachTerm (IsCountedNode env.now) (bodies_of (length defs.now) defs.now) }
        ensures follows { Follows (kept_bodies env.now (infer env.now (test_of env.now) room) ctx.now (bodies_of (length defs.now) defs.now) m.old.account) (bodies_in (length defs.now) result) m.old m.new }
        ensures rargs { IfOk result (λ ds. box_rargs ds ≡ rargs_of defs.now) }
    {
        let items = defs.as_slice();
        let mut out = BoxDefs::new(alloc);
        for i in 0..items.len() {
            let def = &items[i];
            let body = self.erased(alloc, env, ctx, site, room, &def.body, m)?;
            let rarg = def.rarg;
            out.push(BoxDef { body, rarg })?;
        }
        Ok(out)
    }
}
