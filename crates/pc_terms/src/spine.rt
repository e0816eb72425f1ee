//! Applications to lists of arguments, made and taken apart.
ghost use Rattle.std.specs.Prelude.{◌≡◌, ◌++◌, IfOk, IfErr};
ghost use Rattle.trees.specs.Measures.{IsWithin, IsBeyond};
ghost use Rattle.pc_terms.specs.Syntax.{head, args, apply};
ghost use Rattle.pc_terms.specs.declared.term.MakeFault.TheVariants.{TooDeep, Memory};

use crate::term::{MakeFault, Node, Term, Terms};
use std::alloc::Global;

impl Term {
    /// Puts the arguments behind those that are there, and gives the head.
    fn spine_into(&self, out: &mut Terms) -> Result<Term, MakeFault>
        ensures head { IfOk result (λ t. t ≡ head self.now) }
        ensures args { IfOk result (λ _. out.new ≡ out.old ++ args self.now) }
        ensures only_memory { IfErr result (λ e. e ≡ Memory) }
    {
        match self.view() {
            Node::App(f, a) => {
                let t = f.spine_into(out)?;
                let a = a.share()?;
                out.push(a)?;
                Ok(t)
            }
            _ => self.share(),
        }
    }

    /// The head of a term, which is no application, and its arguments in order; none and the term itself where it is no application.
    ///
    /// It never answers `TooDeep`.
    pub fn spine(&self, alloc: Global) -> Result<(Term, Terms), MakeFault>
        ensures head { IfOk result (λ p. p.0 ≡ head self.now) }
        ensures args { IfOk result (λ p. p.1 ≡ args self.now) }
        ensures only_memory { IfErr result (λ e. e ≡ Memory) }
    {
        let mut out = Terms::new(alloc);
        let t = self.spine_into(&mut out)?;
        Ok((t, out))
    }

    /// The term applied to the list of arguments, the first of them innermost.
    ///
    /// `TooDeep` where the term asked for has a depth over 2,048.
    #[tactic(auto, using(crate::proofs::Applied::applied_laws, std::proofs::lemmas::Grind::common_steps))]
    pub fn apply(&self, alloc: Global, args: &Terms) -> Result<Term, MakeFault>
        ensures ok { IfOk result (λ t. t ≡ apply self.now args.now) }
        ensures within { IfOk result IsWithin }
        ensures too_deep { IfErr result (λ e. e ≡ TooDeep → IsBeyond (apply self.now args.now)) }
    {
        let mut t = self.share()?;
        for a in &args.items {
            let a = a.share()?;
            t = Term::make(alloc, Node::App(t, a))?;
        }
        Ok(t)
    }
}
