//! The families of a program: their counts, and copies of them.
ghost use Rattle.std.specs.Prelude.{◌≡◌, IfOk, IfErr, map};
ghost use Rattle.lambda_box.specs.OrdinaryForm.{propositional_of};
ghost use Rattle.lambda_box.specs.OrdinaryForm.{family_of};
ghost use Rattle.box_passes.specs.Saturate.{without_parameters};
ghost use Rattle.box_passes.specs.Heads.{arity_of};
ghost use Rattle.lambda_box.specs.declared.fault.PassFault.TheVariants.{Memory};

use box_terms::program::{BoxFamilies, BoxFamily, copied_numbers};
use lambda_box::PassFault;
use pc_terms::leaf::FamilyId;
use std::alloc::Global;

/// How many parameters and arguments a constructor has.
#[derive(Clone, Copy, Debug, PartialEq, Eq)]
pub(crate) struct Arity {
    /// How many parameters, which stand before the arguments.
    pub params: u32,
    /// How many arguments.
    pub args: u32,
}

/// Whether a family is in Prop; `false` where the list has no such family.
pub(crate) fn propositional(fs: &BoxFamilies, f: FamilyId) -> bool
    ensures is { result ≡ propositional_of (family_of fs.now f) }
{
    for g in fs.as_slice() {
        if g.id == f {
            return g.propositional;
        }
    }
    false
}

/// The counts of a constructor; none where the list has no such family or the family no such constructor.
pub(crate) fn arity_at(fs: &BoxFamilies, f: FamilyId, c: u32) -> Option<Arity>
    ensures is { result ≡ arity_of fs.now f c }
{
    for g in fs.as_slice() {
        if g.id == f {
            return match g.args.as_slice().get(c as usize) {
                Some(n) => Some(Arity {
                    params: g.params,
                    args: *n,
                }),
                None => None,
            };
        }
    }
    None
}

/// The families with no parameters. Only `Memory`.
#[tactic(auto, using(std::proofs::lemmas::Grind::common_steps))]
pub(crate) fn bare(alloc: Global, fs: &BoxFamilies) -> Result<BoxFamilies, PassFault>
    ensures ok { IfOk result (λ gs. gs ≡ map without_parameters fs.now) }
    ensures only_memory { IfErr result (λ e. e ≡ Memory) }
{
    let mut items = Vec::new(alloc);
    for f in fs.as_slice() {
        let Ok(args) = copied_numbers(alloc, &f.args) else {
            return Err(PassFault::Memory);
        };
        let copy = BoxFamily {
            id: f.id,
            propositional: f.propositional,
            params: 0,
            args,
        };
        if items.push(copy).is_err() {
            return Err(PassFault::Memory);
        }
    }
    Ok(BoxFamilies::of(items))
}
