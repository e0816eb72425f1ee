//! The constants that are reached.
ghost use Rattle.std.specs.Prelude.{◌≡◌, ◌+◌, [], ◌∷◌, length, IfOk, IfErr};
ghost use Rattle.pc_rules.specs.Entailment.{test_of};
ghost use Rattle.pc_rules.specs.DirectedTyping.{infer};
ghost use Rattle.pc_rules.specs.Follows.{Follows};
ghost use Rattle.pc_rules.specs.WellCounted.{IsCounted, IsCountedEnv};
ghost use Rattle.pc_rules.specs.declared.stop.Stop.TheVariants.{Memory};
ghost use Rattle.pc_rules.specs.DirectedRun.{most_nested};
ghost use Rattle.erase_rules.specs.DirectedErasure.{erased};
ghost use Rattle.erase_rules.specs.DirectedProgram.{erased_constants};
ghost use Rattle.erase.specs.AtPlaces.{FollowsAt, halted_at};
ghost use Rattle.erase.specs.HaltPlaces.{IsAtBody, HaltsIn};
ghost use Rattle.erase.specs.ReachedSoFar.{reached_in};

use crate::names::add_names;
use crate::refusal::{HaltAt, no_memory};
use crate::terms::Eraser;
use box_terms::program::BoxConstant;
use box_terms::term::BoxTerm;
use calculus_rules::declaration::Kept;
use known_types::site::Site;
use known_types::table::Table;
use known_types::typer::SiteTyper;
use pc_rules::broken::Place;
use pc_rules::context::Ctx;
use pc_rules::environment::Env;
use pc_rules::meter::Meter;
use pc_rules::reducer::Reducer;
use pc_rules::stop::Stop;
use pc_terms::leaf::Name;
use pc_terms::term::Term;
use std::alloc::Global;
use std::collections::HashSet;

/// The constants that are reached, with their erased bodies, the newest first; and the first declared constant without a body that is.
#[derive(Drop)]
pub(crate) struct Reached {
    pub constants: Vec<BoxConstant>,
    pub without_body: Option<Name>,
}

/// The number of declarations. Only `Memory`: no memory holds more of them than numbers of 32 bits.
fn count(env: &Env) -> Result<u32, Stop>
    ensures is { IfOk result (λ n. n ≡ length env.now.declarations) }
    ensures only_memory { IfErr result (λ s. s ≡ Memory) }
{
    let mut count = 0;
    let mut walk = env.walk();
    while let Some(_) = walk.next() {
        if count == u32::MAX {
            return Err(Stop::Memory);
        }
        count += 1;
    }
    Ok(count)
}

/// What a closed term erases to. It halts at `place`, where the term stands.
pub(crate) fn erased_at<T: SiteTyper + Drop, R: Reducer + Drop>(
    alloc: Global,
    eraser: &Eraser<T, R>,
    env: &Env,
    table: &Table,
    room: u32,
    place: Place,
    t: &Term,
    m: &mut Meter,
) -> Result<BoxTerm, HaltAt>
    requires nest { room + m.old.nest ≡ most_nested }
    requires env { IsCountedEnv env.now }
    requires counted { IsCounted env.now t.now }
    ensures follows { Follows (erased env.now (infer env.now (test_of env.now) room) [] t.now m.old.account) (halted_at result) m.old m.new }
    ensures place { IfErr result (λ x. x.place ≡ place) }
{
    let empty = Ctx::new();
    let site = Site::of(alloc, table, env, &empty);
    match eraser.erased(alloc, env, &empty, &site, room, t, m) {
        Ok(t) => Ok(t),
        Err(halt) => Err(HaltAt { place, halt }),
    }
}

/// The constants that erased terms reach, from the latest declared to the earliest: those that `main` names, and those that the erased body
/// of a reached constant names. A body is erased when it is reached; what halts that has the declaration's place.
pub(crate) fn reach_constants<T: SiteTyper + Drop, R: Reducer + Drop>(
    alloc: Global,
    eraser: &Eraser<T, R>,
    env: &Env,
    table: &Table,
    room: u32,
    main: &BoxTerm,
    m: &mut Meter,
) -> Result<Reached, HaltAt>
    requires nest { room + m.old.nest ≡ most_nested }
    requires env { IsCountedEnv env.now }
    ensures follows { FollowsAt (erased_constants env.now (infer env.now (test_of env.now) room) (main.now ∷ []) env.now.declarations m.old.account) (reached_in result) m.old m.new }
    ensures halted { IfErr result (λ x. HaltsIn (IsAtBody env.now (infer env.now (test_of env.now) room) (main.now ∷ []) env.now.declarations m.old.account) x.place x.halt m.new.account) }
{
    let Ok(mut place) = count(env) else {
        return Err(no_memory(Place::Main));
    };
    let mut names = HashSet::new(alloc);
    let Ok(()) = add_names(main, &mut names) else {
        return Err(no_memory(Place::Main));
    };
    let mut constants = Vec::new(alloc);
    let mut without_body = None;
    let mut walk = env.walk();
    while let Some(kept) = walk.next() {
        place -= 1;
        let Kept::Constant { name, body, .. } = kept else {
            continue;
        };
        if !names.contains(&name.0) {
            continue;
        }
        let name = *name;
        let Some(body) = body else {
            without_body = Some(name);
            continue;
        };
        let at = Place::Declaration(place);
        let body = erased_at(alloc, eraser, env, table, room, at, body, m)?;
        let Ok(()) = add_names(&body, &mut names) else {
            return Err(no_memory(at));
        };
        let Ok(()) = constants.push(BoxConstant { name, body }) else {
            return Err(no_memory(at));
        };
    }
    Ok(Reached {
        constants,
        without_body,
    })
}
