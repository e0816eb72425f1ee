//! The pass.
ghost use Rattle.std.specs.Prelude.{◌≡◌, ◌≤◌, IfOk, IfErr, map};
ghost use Rattle.trees.specs.Measures.{depth, depth_limit};
ghost use Rattle.anf_convert.specs.BoxForms.{AreShallow, ToAnfKeepsData, HasAnfForm};
ghost use Rattle.anf_convert.specs.ToAnf as spec;
ghost use Rattle.anf_convert.specs.Writing.{number_of};
ghost use Rattle.anf_convert.specs.Renumbering.{anf_of};
ghost use Rattle.anf_convert.specs.NamedProgram.{named_constant, named_anf};
ghost use Rattle.lambda_box.specs.declared.fault.PassFault.TheVariants.{Memory};

use crate::level::Levels;
use crate::lists::AnfConstants;
use crate::norm::block;
use crate::program::{AnfBlock, AnfConstant, AnfProgram};
use box_terms::program::{BoxConstants, BoxProgram};
use box_terms::term::BoxTerm;
use lambda_box::PassFault;
use std::alloc::Global;

/// The program in A-normal form: each function, argument and scrutinee that is no atom gets a variable, and so does each let (Flanagan et al.,
/// "The Essence of Compiling with Continuations", PLDI 1993). Constants keep their names, and the program its families.
///
/// The answer is the program of `specs/ToAnf.antt`, in which each constant stands by its place. Where `p` has the form of programs and no match
/// on a propositional family that has a constructor, main, applied to any values that are data, gives the same data as before, with as many
/// matches and blocks, no more contractions and no wider block; names are in scope, and counts within the limits. `Memory` is the only
/// refusal; it comes too where a place has over 4,294,967,295 variables. No call recurses deeper than the terms.
pub fn to_anf(alloc: Global, p: &BoxProgram) -> Result<AnfProgram, PassFault>
    ensures exact { IfOk result (λ q. q ≡ named_anf p.now) }
    ensures is { IfOk result (λ q. anf_of q ≡ spec.to_anf p.now) }
    ensures data_kept { IfOk result (λ q. ToAnfKeepsData p.now (anf_of q)) }
    ensures form { IfOk result (λ q. HasAnfForm p.now (anf_of q)) }
    ensures only_memory { IfErr result (λ e. e ≡ Memory) }
{
    let constants = constants(alloc, &p.constants)?;
    let Ok(families) = p.families.copied(alloc) else {
        return Err(PassFault::Memory);
    };
    let main = code(alloc, &p.main)?;
    Ok(AnfProgram {
        constants,
        families,
        main,
    })
}

/// The constants in A-normal form, in the same order. `Memory` as with `to_anf`.
#[tactic(auto, using(box_terms::proofs::Items::reverse_map, crate::proofs::Prepared::shallow_laws, std::proofs::lemmas::Grind::common_steps))]
fn constants(alloc: Global, cs: &BoxConstants) -> Result<AnfConstants, PassFault>
    ensures ok { IfOk result (λ xs. xs ≡ map named_constant cs.now) }
    ensures shallow { IfOk result (λ _. AreShallow cs.now) }
    ensures only_memory { IfErr result (λ e. e ≡ Memory) }
{
    let mut items = Vec::new(alloc);
    for c in cs.as_slice() {
        let body = code(alloc, &c.body)?;
        let name = c.name;
        if items.push(AnfConstant { name, body }).is_err() {
            return Err(PassFault::Memory);
        }
    }
    Ok(AnfConstants::of(items))
}

/// The block of a term that stands under no variable. `Memory` as with `to_anf`.
fn code(alloc: Global, t: &BoxTerm) -> Result<AnfBlock, PassFault>
    ensures ok { IfOk result (λ b. b ≡ spec.code_of number_of t.now) }
    ensures shallow { IfOk result (λ _. depth t.now ≤ depth_limit) }
    ensures only_memory { IfErr result (λ e. e ≡ Memory) }
{
    let _within = t.depth();
    let mut levels = Levels::new(alloc);
    block(alloc, &mut levels, 0, 0, t)
}
