//! An environment that is read, and its certificate.
ghost use Rattle.std.specs.Prelude.{◌≡◌, ◌+◌, ◌-◌, ◌≤◌, IfOk, IfSome};
ghost use Rattle.dump_reader.specs.Spelled.{IsSpelled};
ghost use Rattle.pc_rules.specs.Follows.{IsAfter};
ghost use Rattle.env_cert.specs.Verified.{IsVerified};
ghost use Rattle.env_making.specs.Refusals.{IsCertified};
ghost use Rattle.cert_rules.specs.Packed.{unpacked};
ghost use Rattle.env_making.specs.EnvMaking.{DraftsAlong};
ghost use Rattle.env_making.specs.Certified.{MakesCert, FollowsDirected, IsCertificateOf};

use crate::declarations::declarations;
use crate::refusal::{CertRefusal, halted_at};
use cert_rules::certificate::{Cert, CertItems};
use cert_rules::item::CertItem;
use cert_rules::packed::PackedItems;
use dump_reader::environment::RawEnv;
use env_check::beginning::bare_env;
use pc_rules::broken::Place;
use pc_rules::context::Ctx;
use pc_rules::environment::Env;
use pc_rules::guarder::Guarder;
use pc_rules::meter::Meter;
use pc_rules::reducer::Reducer;
use pc_terms::term::Term;
use script_making::draft::Draft;
use script_making::maker::Maker;
use std::alloc::Global;
use type_making::typing::TypeMaker;

/// A whole environment: gives it with the sorts of its constructors' arguments, and a type of main.
fn make_env<'x, R: Reducer, G: Guarder>(
    alloc: Global,
    reducer: &'x R,
    guarder: &'x G,
    raw: &RawEnv,
    draft: &mut Draft,
) -> Result<(Env, Term), CertRefusal>
    requires spelled { IsSpelled raw.now }
    ensures makes { DraftsAlong raw.now result draft.old draft.new }
    ensures after { IsAfter draft.old.meter draft.new.meter }
{
    let room = draft.meter.room();
    let bare = bare_env(alloc, raw)?;
    let env = declarations(
        alloc,
        reducer,
        guarder,
        room,
        bare,
        raw.decls.as_slice(),
        draft,
    )?;
    let typer = TypeMaker {
        maker: Maker {
            reducer,
            env: &env,
            room,
        },
        guarder,
    };
    let none = Ctx::new();
    match typer.infer(alloc, &none, &raw.main, draft) {
        Ok(ty) => Ok((env, ty)),
        Err(halt) => Err(halted_at(Place::Main, halt)),
    }
}

/// The items that were written, a byte for each; none for want of memory.
fn packed(alloc: Global, written: &[CertItem]) -> Option<PackedItems>
    ensures is { IfSome result (λ items. unpacked items ≡ written.now) }
{
    let mut items = PackedItems::new(alloc);
    for item in written {
        match items.push(*item) {
            Ok(()) => {}
            Err(_) => return None,
        }
    }
    Some(items)
}

/// An end of the making, with what was written, as an answer.
fn certified(
    alloc: Global,
    written: Vec<CertItem>,
    answer: Result<(Env, Term), CertRefusal>,
) -> Result<Cert, CertRefusal>
    ensures is { IsCertified written.items answer result }
{
    match answer {
        Ok(_found) => match packed(alloc, written.as_slice()) {
            Some(items) => Ok(Cert::of(CertItems::of(items))),
            None => Err(CertRefusal::Memory),
        },
        Err(refusal) => Err(refusal),
    }
}

/// Makes the certificate of an environment that some text spells within the limits: does the directed rules, as `check_env` of `env_check` does
/// them, and writes each choice that the certified walk asks a certificate for (PCUIC, Sozeau et al., "Coq Coq Correct!", POPL 2020, section 2.3).
///
/// The rules are done in the order of `check_env`, and the first broken one is the answer, with its place: levels, constraints, their graph, the
/// declarations in order, and main. Places are counted from 0. `Spent` exactly where the rules have no end within the units left and `TooDeep` did
/// not come. `TooDeep` only where they pass a limit. The units left and the uses of rules are those of the check. `reducer` gives weak-head normal
/// forms, whose steps are counted by the units that it takes, and `guarder` judges fixpoints. The environment that is read stays as it is.
pub fn make_cert<R: Reducer, G: Guarder>(
    alloc: Global,
    reducer: &R,
    guarder: &G,
    raw: &RawEnv,
    m: &mut Meter,
) -> Result<Cert, CertRefusal>
    requires spelled { IsSpelled raw.now }
    requires units { m.old.account.left ≤ 4294967295 }
    ensures makes { MakesCert raw.now result m.old m.new }
    ensures follows { FollowsDirected raw.now result m.old m.new }
    ensures after { IsAfter m.old m.new }
    ensures well_formed { IfOk result (λ _. IsVerified raw.now) }
    ensures accepted { IfOk result (λ cert. IsCertificateOf raw.now cert (m.old.account.left - m.new.account.left)) }
{
    let mut draft = Draft {
        meter: Meter {
            account: m.account,
            nest: m.nest,
        },
        written: Vec::new(alloc),
    };
    let answer = make_env(alloc, reducer, guarder, raw, &mut draft);
    let Draft { meter, written } = draft;
    m.account = meter.account;
    m.nest = meter.nest;
    certified(alloc, written, answer)
}
