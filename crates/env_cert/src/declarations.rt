//! Declarations, in their order.
ghost use Rattle.std.specs.Prelude.{◌≡◌, ◌+◌, [], map, IfOk, IfErr};
ghost use Rattle.calculus_rules.specs.Accepted.{IsAccepted};
ghost use Rattle.pc_rules.specs.Follows.{IsAfter};
ghost use Rattle.pc_rules.specs.DirectedRun.{most_nested};
ghost use Rattle.rule_laws.specs.Declarations.{GivenFormed, AllGivenFormed};
ghost use Rattle.type_infer.specs.Ready.{IsReady};
ghost use Rattle.inductive_check.specs.Given.{given_of};
ghost use Rattle.type_cert.specs.Retraces.{Retraces, stand};
ghost use Rattle.env_cert.specs.EnvWalks.{declaration_walk, LeadsOn, StopsAmong};

use crate::constants::constant;
use block_cert::block::walk_block;
use calculus_rules::declaration::Kept;
use cert_rules::certificate::CertItems;
use dump_reader::declaration::RawDecl;
use env_check::declarations::check_name;
use pc_rules::environment::Env;
use pc_rules::guarder::Guarder;
use std::alloc::Global;
use type_cert::halt::{WalkHalt, at_item};
use type_cert::trail::Trail;
use type_cert::typing::TypeWalk;
use type_cert::verifier::Verifier;
use type_infer::made_types::MadeTypes;

/// A declaration over the ones before, with the sorts of constructor arguments. Refused at the next item where its name was declared
/// before.
fn declaration<G: Guarder>(
    alloc: Global,
    walk: &TypeWalk<'_, G>,
    decl: &RawDecl,
    trail: &mut Trail,
) -> Result<Kept, WalkHalt>
    requires nest { walk.now.verifier.room + trail.old.meter.nest ≡ most_nested }
    requires ready { IsReady walk.now.verifier.env.now [] }
    ensures retraces { Retraces (declaration_walk walk.now.verifier (given_of decl.now) (stand trail.old)) result trail.old trail.new }
    ensures formed { IfOk result (λ _. GivenFormed (given_of decl.now)) }
{
    match decl {
        RawDecl::Constant { name, ty, body } => {
            at_item(trail.at, check_name(walk.verifier.env, *name))?;
            constant(alloc, walk, *name, ty, body, trail)
        }
        RawDecl::Block { name, .. } => {
            at_item(trail.at, check_name(walk.verifier.env, *name))?;
            let block = walk_block(alloc, walk, decl, trail)?;
            Ok(Kept::Block(block))
        }
    }
}

/// All declarations, in their order, each over the ones before, by an environment.
pub(crate) fn declarations<'x, G: Guarder>(
    alloc: Global,
    cert: &'x CertItems,
    guarder: &'x G,
    room: u32,
    mut env: Env,
    decls: &[RawDecl],
    trail: &mut Trail,
) -> Result<Env, WalkHalt>
    requires nest { room + trail.old.meter.nest ≡ most_nested }
    requires accepted { IsAccepted env }
    ensures leads_on { IfOk result (λ e. LeadsOn cert.now room env (map given_of decls.now) trail.old e [] trail.new) }
    ensures halts { IfErr result (λ h. StopsAmong cert.now room env (map given_of decls.now) trail.old h trail.new) }
    ensures accepted { IfOk result (λ e. IsAccepted e) }
    ensures formed { IfOk result (λ _. AllGivenFormed (map given_of decls.now)) }
    ensures after { IsAfter trail.old.meter trail.new.meter }
{
    let made = MadeTypes::new();
    for i in 0..decls.len() {
        let walk = TypeWalk {
            verifier: Verifier {
                cert,
                env: &env,
                room,
            },
            guarder,
            made: &made,
        };
        let kept = declaration(alloc, &walk, &decls[i], trail)?;
        env.keep(kept)?;
    }
    Ok(env)
}
