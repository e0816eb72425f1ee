//! The variables in scope.
ghost use Rattle.std.specs.Prelude.{◌≡◌, ◌∷◌, [], IfOk, IfErr, Some, None, if◌then◌else◌};
ghost use Rattle.guard_check.specs.Marks.{mark_of};
ghost use Rattle.calculus_rules.specs.Context.{values, under};
ghost use Rattle.trees.specs.Tree.{terms_of};
ghost use Rattle.calculus_rules.specs.Guardedness.{Smaller, Other, others, branch_marks, ending};
ghost use Rattle.pc_rules.specs.declared.stop.Stop.TheVariants.{Memory};

use crate::families::ends_smaller;
use crate::mark::Mark;
use calculus_rules::declaration::Constructor;
use calculus_rules::entry::Entry;
use pc_rules::context::Ctx;
use pc_rules::environment::Env;
use pc_rules::shared_list::SharedList;
use pc_rules::stop::Stop;
use pc_terms::leaf::Name;
use pc_terms::term::{Match, Term};
use std::alloc::Global;

/// The variables in scope: their entries, and their marks, the innermost first. Nothing is known of the variables past the marks.
///
/// The guard reduces terms, which looks at values alone. So where a variable is only assumed, any term may stand in for its type.
#[derive(Drop)]
pub(crate) struct Scope {
    pub ctx: Ctx,
    pub marks: SharedList<Mark>,
}

/// The mark of a branch's variable, by the place and the type of the constructor's argument, in a match that is opened. Only `Memory`.
#[tactic(auto, using(crate::proofs::Endings::ending_is))]
fn branch_mark(
    alloc: Global,
    env: &Env,
    recursive: Option<Name>,
    x: &Match,
    place: usize,
    ty: &Term,
) -> Result<Mark, Stop>
    ensures is { IfOk result (λ k. mark_of k ≡ (if ending env.now recursive x.now.family (terms_of x.now.params) place ty.now then Smaller else Other)) }
    ensures only_memory { IfErr result (λ e. e ≡ Memory) }
{
    let Ok(under) = u32::try_from(place) else {
        return Err(Stop::Memory);
    };
    if ends_smaller(alloc, env, recursive, x.family.block, &x.params, under, ty)? {
        return Ok(Mark::Smaller);
    }
    Ok(Mark::Other)
}

impl Scope {
    ghost use Rattle.guard_check.specs.Marks.{values_in, marks_in};

    /// The scope of a context, of whose variables nothing is known. Only `Memory`.
    pub fn of(ctx: &Ctx) -> Result<Scope, Stop>
        ensures values { IfOk result (λ s. values_in s ≡ values ctx.now) }
        ensures marks { IfOk result (λ s. marks_in s ≡ []) }
        ensures only_memory { IfErr result (λ e. e ≡ Memory) }
    {
        let ctx = ctx.share()?;
        Ok(Scope {
            ctx,
            marks: SharedList::new(),
        })
    }

    /// This scope with one variable more, which has a mark. Only `Memory`.
    pub fn assumed(&self, alloc: Global, ty: &Term, mark: Mark) -> Result<Scope, Stop>
        ensures values { IfOk result (λ s. values_in s ≡ None ∷ values_in self.now) }
        ensures marks { IfOk result (λ s. marks_in s ≡ mark_of mark ∷ marks_in self.now) }
        ensures only_memory { IfErr result (λ e. e ≡ Memory) }
    {
        let ctx = self.ctx.extended(alloc, Entry::Assumed(ty.share()?))?;
        let marks = self.marks.with(alloc, mark)?;
        Ok(Scope { ctx, marks })
    }

    /// This scope with one variable more, which is defined as a value. Only `Memory`.
    pub fn defined(&self, alloc: Global, value: &Term, ty: &Term) -> Result<Scope, Stop>
        ensures values { IfOk result (λ s. values_in s ≡ Some value.now ∷ values_in self.now) }
        ensures marks { IfOk result (λ s. marks_in s ≡ Other ∷ marks_in self.now) }
        ensures only_memory { IfErr result (λ e. e ≡ Memory) }
    {
        let value = value.share()?;
        let ty = ty.share()?;
        let ctx = self.ctx.extended(alloc, Entry::Defined { value, ty })?;
        let marks = self.marks.with(alloc, Mark::Other)?;
        Ok(Scope { ctx, marks })
    }

    /// This scope with some variables more, of which nothing is known. Only `Memory`.
    pub fn under(&self, alloc: Global, count: usize, ty: &Term) -> Result<Scope, Stop>
        ensures values { IfOk result (λ s. values_in s ≡ under count (values_in self.now)) }
        ensures marks { IfOk result (λ s. marks_in s ≡ others count (marks_in self.now)) }
        ensures only_memory { IfErr result (λ e. e ≡ Memory) }
    {
        let ctx = self.entries(alloc, count, ty)?;
        let mut marks = self.marks.share()?;
        for _ in 0..count {
            marks = marks.with(alloc, Mark::Other)?;
        }
        Ok(Scope { ctx, marks })
    }

    /// This scope with the variables of the branch of a constructor, in a match that is opened: a variable is smaller where its type, as the
    /// constructor declares it, makes it so. Only `Memory`.
    #[tactic(auto, using(crate::proofs::Endings::marks_next, std::proofs::lemmas::Grind::common_steps))]
    pub fn opened(
        &self,
        alloc: Global,
        env: &Env,
        recursive: Option<Name>,
        count: usize,
        x: &Match,
        ctor: &Constructor,
    ) -> Result<Scope, Stop>
        ensures values { IfOk result (λ s. values_in s ≡ under count (values_in self.now)) }
        ensures marks { IfOk result (λ s. marks_in s ≡ branch_marks (ending env.now recursive x.now.family (terms_of x.now.params)) 0 ctor.now.args (marks_in self.now)) }
        ensures only_memory { IfErr result (λ e. e ≡ Memory) }
    {
        let ctx = self.entries(alloc, count, &x.ret)?;
        let mut marks = self.marks.share()?;
        let args = ctor.args.as_slice();
        for i in 0..args.len() {
            let mark = branch_mark(alloc, env, recursive, x, i, &args[i])?;
            marks = marks.with(alloc, mark)?;
        }
        Ok(Scope { ctx, marks })
    }

    /// The context with some variables more.
    fn entries(&self, alloc: Global, count: usize, ty: &Term) -> Result<Ctx, Stop>
        ensures values { IfOk result (λ c. values c ≡ under count (values_in self.now)) }
        ensures only_memory { IfErr result (λ e. e ≡ Memory) }
    {
        let mut ctx = self.ctx.share()?;
        for _ in 0..count {
            ctx = ctx.extended(alloc, Entry::Assumed(ty.share()?))?;
        }
        Ok(ctx)
    }
}
