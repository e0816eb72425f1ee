//! The facts of the check that accepts an environment.
ghost use Rattle.std.specs.Prelude.{◌≡◌, count_by};
ghost use Rattle.driver.specs.CheckFacts.{facts_of_check, is_axiom as is_bodiless};

use crate::reporting::Facts;
use dump_reader::declaration::RawDecl;
use dump_reader::environment::RawEnv;
use pc_rules::meter::Meter;

/// Whether a declaration is a constant without a body.
fn is_axiom(decl: &RawDecl) -> bool
    ensures is { result ≡ is_bodiless decl.now }
{
    matches!(decl, RawDecl::Constant { body: None, .. })
}

/// How many of the declarations are constants without a body.
fn count_axioms(decls: &[RawDecl]) -> u64
    ensures is { result ≡ count_by is_bodiless decls.now }
{
    decls.iter().filter(|decl| is_axiom(decl)).count() as u64
}

/// The facts of the check of an environment, by the meter right after it accepted: a use of a rule by a later stage isn't one.
pub(crate) fn check_facts(raw: &RawEnv, meter: &Meter) -> Facts
    ensures is { result ≡ facts_of_check raw.now meter.now.account }
{
    Facts {
        declarations: raw.decls.len() as u64,
        axioms: count_axioms(raw.decls.as_slice()),
        uses: meter.account.uses,
    }
}
