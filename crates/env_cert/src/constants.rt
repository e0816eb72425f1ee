//! Constants.
ghost use Rattle.std.specs.Prelude.{◌≡◌, ◌+◌, [], IfOk};
ghost use Rattle.pc_terms.specs.Formed.{IsFormed};
ghost use Rattle.pc_rules.specs.DirectedRun.{most_nested};
ghost use Rattle.rule_laws.specs.Declarations.{BodyFormed};
ghost use Rattle.type_infer.specs.Ready.{IsReady};
ghost use Rattle.type_cert.specs.Retraces.{Retraces, stand};
ghost use Rattle.env_cert.specs.EnvWalks.{body_walk, constant_walk};

use calculus_rules::declaration::Kept;
use env_check::declarations::shared;
use pc_rules::context::Ctx;
use pc_rules::guarder::Guarder;
use pc_terms::leaf::Name;
use pc_terms::term::Term;
use std::alloc::Global;
use type_cert::halt::WalkHalt;
use type_cert::trail::Trail;
use type_cert::typing::TypeWalk;

/// A constant's body, if it has one, has the constant's type.
fn check_body<G: Guarder>(
    alloc: Global,
    walk: &TypeWalk<'_, G>,
    ty: &Term,
    body: &Option<Term>,
    trail: &mut Trail,
) -> Result<(), WalkHalt>
    requires nest { walk.now.verifier.room + trail.old.meter.nest ≡ most_nested }
    requires ready { IsReady walk.now.verifier.env.now [] }
    ensures retraces { Retraces (body_walk walk.now.verifier ty.now body.now (stand trail.old)) result trail.old trail.new }
    ensures formed { IfOk result (λ _. BodyFormed body.now) }
{
    match body {
        None => Ok(()),
        Some(body) => {
            // A term has the form of terms in memory.
            let _ = body.view();
            let none = Ctx::new();
            walk.check(alloc, &none, body, ty, trail)
        }
    }
}

/// A constant whose name is new: its type has a sort, and its body, if it has one, that type.
pub(crate) fn constant<G: Guarder>(
    alloc: Global,
    walk: &TypeWalk<'_, G>,
    name: Name,
    ty: &Term,
    body: &Option<Term>,
    trail: &mut Trail,
) -> Result<Kept, WalkHalt>
    requires nest { walk.now.verifier.room + trail.old.meter.nest ≡ most_nested }
    requires ready { IsReady walk.now.verifier.env.now [] }
    ensures retraces { Retraces (constant_walk walk.now.verifier name ty.now body.now (stand trail.old)) result trail.old trail.new }
    ensures formed { IfOk result (λ _. IsFormed ty.now × BodyFormed body.now) }
{
    let _ = ty.view();
    let none = Ctx::new();
    let _sort = walk.sort_of(alloc, &none, ty, trail)?;
    check_body(alloc, walk, ty, body, trail)?;
    let ty = ty.share()?;
    let body = shared(body)?;
    Ok(Kept::Constant { name, ty, body })
}
