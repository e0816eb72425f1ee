//! Types of which arguments are still to be put in, so that an application to many arguments takes one substitution.
ghost use Rattle.std.specs.Prelude.{◌≡◌, IfOk, IfErr};
ghost use Rattle.trees.specs.Measures.{IsWithin};
ghost use Rattle.pc_terms.specs.Syntax.{put, substitute, subst_list};
ghost use Rattle.pc_terms.specs.declared.term.MakeFault.TheVariants.{Memory};
ghost use Rattle.type_infer.specs.Pending.{IsMaking, standing};

use pc_terms::term::{MakeFault, Term, Terms};
use std::alloc::Global;

/// A type of which arguments are still to be put in: it stands for its base with the arguments in the place of the base's innermost
/// variables, all at once, the last in that of variable 0.
#[derive(Drop)]
pub struct PendingType {
    pub base: Term,
    pub arguments: Terms,
}

impl PendingType {
    /// A type of which nothing is to be put in. It takes no memory.
    #[tactic(auto, using(crate::proofs::Pendings::pending_laws))]
    pub fn of(alloc: Global, base: Term) -> PendingType
        ensures is { standing result ≡ base }
        ensures within { IsWithin base }
    {
        let _depth = base.depth();
        PendingType {
            base,
            arguments: Terms::new(alloc),
        }
    }

    /// A codomain of which an argument is to be put in.
    #[tactic(auto, using(crate::proofs::Pendings::pending_laws))]
    pub fn of_one(alloc: Global, codomain: &Term, argument: &Term) -> Result<PendingType, MakeFault>
        ensures ok { IfOk result (λ p. standing p ≡ substitute (put argument.now) codomain.now) }
        ensures only_memory { IfErr result (λ e. e ≡ Memory) }
    {
        let mut arguments = Terms::new(alloc);
        arguments.push(argument.share()?)?;
        Ok(PendingType {
            base: codomain.share()?,
            arguments,
        })
    }

    /// A codomain under the arguments, of which these and one more are to be put in. A closed one keeps no argument more.
    #[tactic(auto, using(crate::proofs::Pendings::pending_laws))]
    pub fn and(mut self, codomain: Term, argument: &Term) -> Result<PendingType, MakeFault>
        ensures ok { IfOk result (λ p. standing p ≡ substitute (put argument.now) (subst_list 1 self.arguments codomain)) }
        ensures only_memory { IfErr result (λ e. e ≡ Memory) }
    {
        if codomain.loose() == 0 {
            self.base = codomain;
            return Ok(self);
        }
        self.arguments.push(argument.share()?)?;
        self.base = codomain;
        Ok(self)
    }

    /// The type, with its arguments put in. `TooDeep` where the type asked for has a depth over 2,048 or a variable number over
    /// 4,294,967,295.
    pub fn whole(&self, alloc: Global) -> Result<Term, MakeFault>
        ensures making { IsMaking (standing self.now) result }
    {
        self.instance(alloc, &self.base)
    }

    /// A term under the arguments, with these put in. `TooDeep` where the term asked for has a depth over 2,048 or a variable number
    /// over 4,294,967,295.
    #[tactic(auto, using(crate::proofs::Pendings::pending_laws))]
    pub fn instance(&self, alloc: Global, t: &Term) -> Result<Term, MakeFault>
        ensures making { IsMaking (subst_list 0 self.now.arguments t.now) result }
    {
        if self.arguments.is_empty() {
            return t.share();
        }
        t.subst_list(alloc, &self.arguments)
    }
}
