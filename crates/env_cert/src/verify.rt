//! An environment that is read, with a certificate.
ghost use Rattle.std.specs.Prelude.{◌≡◌, ◌+◌, [], IfOk};
ghost use Rattle.dump_reader.specs.Spelled.{IsSpelled};
ghost use Rattle.pc_rules.specs.Follows.{IsAfter};
ghost use Rattle.pc_rules.specs.DirectedRun.{most_nested};
ghost use Rattle.rule_laws.specs.Declarations.{IsCheckedEnvironment};
ghost use Rattle.type_infer.specs.Ready.{IsReady};
ghost use Rattle.env_check.specs.Rules.{givens};
ghost use Rattle.type_cert.specs.Retraces.{Retraces, stand};
ghost use Rattle.env_cert.specs.EnvWalks.{main_walk, in_env};
ghost use Rattle.env_cert.specs.Verified.{WalksAlong, Verifies, IsVerified};

use crate::beginning::begun;
use crate::declarations::declarations;
use crate::refusal::{VerifyRefusal, verified};
use cert_rules::certificate::{Cert, CertItems};
use dump_reader::environment::RawEnv;
use pc_rules::context::Ctx;
use pc_rules::environment::Env;
use pc_rules::guarder::Guarder;
use pc_rules::meter::Meter;
use pc_terms::term::Term;
use std::alloc::Global;
use type_cert::halt::WalkHalt;
use type_cert::trail::Trail;
use type_cert::typing::TypeWalk;
use type_cert::verifier::Verifier;
use type_infer::made_types::MadeTypes;

/// A type of main, behind which no item is left. Refused at the first of those that are.
fn walk_main<G: Guarder>(
    alloc: Global,
    walk: &TypeWalk<'_, G>,
    main: &Term,
    trail: &mut Trail,
) -> Result<Term, WalkHalt>
    requires nest { walk.now.verifier.room + trail.old.meter.nest ≡ most_nested }
    requires ready { IsReady walk.now.verifier.env.now [] }
    ensures retraces { Retraces (main_walk walk.now.verifier main.now (stand trail.old)) (in_env walk.now.verifier.env.now result) trail.old trail.new }
{
    let none = Ctx::new();
    let ty = walk.infer(alloc, &none, main, trail)?;
    if trail.at == walk.verifier.cert.len() {
        return Ok(ty);
    }
    Err(WalkHalt::Barred { item: trail.at })
}

/// The walk of a whole environment: gives it with the sorts of its constructors' arguments, and a type of main.
fn walk_env<'x, G: Guarder>(
    alloc: Global,
    guarder: &'x G,
    raw: &RawEnv,
    cert: &'x CertItems,
    trail: &mut Trail,
) -> Result<(Env, Term), WalkHalt>
    requires spelled { IsSpelled raw.now }
    ensures walks { WalksAlong raw.now cert.now result trail.old trail.new }
    ensures after { IsAfter trail.old.meter trail.new.meter }
    ensures well_formed { IfOk result (λ p. IsCheckedEnvironment raw.now.levels raw.now.constraints (givens raw.now) raw.now.main p.0 p.1) }
{
    // Main has the form of terms in memory.
    let _ = raw.main.view();
    let room = trail.meter.room();
    let bare = begun(alloc, raw, trail.at)?;
    let env = declarations(
        alloc,
        cert,
        guarder,
        room,
        bare,
        raw.decls.as_slice(),
        trail,
    )?;
    let made = MadeTypes::new();
    let walk = TypeWalk {
        verifier: Verifier {
            cert,
            env: &env,
            room,
        },
        guarder,
        made: &made,
    };
    let ty = walk_main(alloc, &walk, &raw.main, trail)?;
    Ok((env, ty))
}

/// Verifies an environment that some text spells within the limits with a certificate: goes along the certified walk, in which the
/// certificate says which weak-head steps and comparisons are made, so that none is looked for outside the guard.
///
/// `Bad` comes exactly where the walk is refused within the units and the limits, at the number of its item. `Spent` exactly where the walk
/// takes more units than are left and `TooDeep` did not come. `TooDeep` only where the walk, up to its end or its last unit, makes a term
/// beyond the limits of terms or an addition to a level over 4,294,967,295, or has more than 2,048 rules in one another. `Memory` also
/// where a list has more than 4,294,967,295 items. The guarder judges fixpoints. The environment that is read stays as it is.
pub fn verify_env<G: Guarder>(
    alloc: Global,
    guarder: &G,
    raw: &RawEnv,
    cert: &Cert,
    m: &mut Meter,
) -> Result<(), VerifyRefusal>
    requires spelled { IsSpelled raw.now }
    ensures walks { Verifies raw.now cert.now result m.old m.new }
    ensures after { IsAfter m.old m.new }
    ensures well_formed { IfOk result (λ _. IsVerified raw.now) }
{
    let mut trail = Trail {
        meter: Meter {
            account: m.account,
            nest: m.nest,
        },
        at: 0,
    };
    let answer = walk_env(alloc, guarder, raw, cert.items(), &mut trail);
    m.account = trail.meter.account;
    m.nest = trail.meter.nest;
    verified(answer)
}
