//! The layer of comparison: `below` and `equal`, in a checked environment and the empty context, of terms that have types there.
ghost use Rattle.std.specs.Prelude.{IfOk};
ghost use Rattle.dump_reader.specs.Spelled.{IsSpelled};
ghost use Rattle.calculus_rules.specs.Accepted.{IsAccepted};
ghost use Rattle.pc_rules.specs.WellCounted.{IsCounted, IsCountedEnv};

use crate::products::{doubled, products};
use conversion::comparison::Compare;
use dump_reader::environment::RawEnv;
use env_check::check::check_env;
use guard_check::guard::Guard;
use lazy_conversion::comparison::LazyCompare;
use pc_rules::context::Ctx;
use pc_rules::converter::Converter;
use pc_rules::environment::Env;
use pc_rules::meter::Meter;
use pc_rules::stop::Halt;
use pc_rules::typer::Typer;
use pc_terms::term::Term;
use reduction::substitution::Subst;
use row_files::{Case, Fault};
use row_terms::{Opened, made, put_broken, put_stop, read};
use std::alloc::{AllocError, Global};
use type_infer::inference::Inference;

/// As many units as the check of an environment and of a term may take.
const UNITS: u64 = 1_000_000;

/// Which comparison a row makes.
#[derive(Clone, Copy)]
enum Comparison {
    Below,
    Equal,
}

/// Runs a row of the layer.
pub fn run(case: &Case, out: &mut String) -> Result<(), Fault> {
    let opened = Opened::of(case)?;
    run_opened(case, &opened, out)
}

/// Runs a row in its environment, checked.
fn run_opened(case: &Case, opened: &Opened, out: &mut String) -> Result<(), Fault> {
    let env = checked(case)?;
    run_in(case, opened, &env, out)
}

/// Makes the call of a row.
fn run_in(case: &Case, opened: &Opened, env: &Env, out: &mut String) -> Result<(), Fault>
    requires accepted { IsAccepted env.now }
{
    match case.row.given("call")? {
        "below" => run_two(case, opened, env, Comparison::Below, out),
        "equal" => run_two(case, opened, env, Comparison::Equal, out),
        "below doubled" => run_doubled(case, opened, env, Comparison::Below, out),
        "equal doubled" => run_doubled(case, opened, env, Comparison::Equal, out),
        _ => Err(Fault::Faulty("no such call")),
    }
}

/// The row's environment, checked.
pub fn checked(case: &Case) -> Result<Env, Fault>
    ensures accepted { IfOk result IsAccepted }
{
    let raw = read(case)?;
    checked_of(case.alloc, &raw)
}

/// An environment, checked.
fn checked_of(alloc: Global, raw: &RawEnv) -> Result<Env, Fault>
    requires spelled { IsSpelled raw.now }
    ensures accepted { IfOk result IsAccepted }
{
    match check_env(alloc, &Subst, raw, &mut Meter::new(UNITS)) {
        Ok(accepted) => Ok(accepted.env),
        Err(_) => Err(Fault::Faulty("the environment is not accepted")),
    }
}

/// That a term has a type in the empty context: a fault where it has none.
fn typed(alloc: Global, env: &Env, term: &Term) -> Result<(), Fault>
    requires accepted { IsAccepted env.now }
    ensures counted { IfOk result (λ _. IsCounted env.now term.now) }
{
    let typer = Inference::new(Subst, Compare::new(Subst), Guard::new(Subst));
    match typer.infer(alloc, env, &Ctx::new(), term, &mut Meter::new(UNITS)) {
        Ok(_) => Ok(()),
        Err(_) => Err(Fault::Faulty("a term without a type")),
    }
}

/// A term, which has a type in the empty context, under so many products.
fn under(alloc: Global, env: &Env, term: &Term, count: u64) -> Result<Term, Fault>
    requires accepted { IsAccepted env.now }
    ensures counted { IfOk result (IsCounted env.now) }
{
    typed(alloc, env, term)?;
    let term = made(term.share())?;
    made(products(alloc, count, term))
}

/// The term by a key, under `products` products.
fn side(case: &Case, opened: &Opened, env: &Env, key: &str) -> Result<Term, Fault>
    requires accepted { IsAccepted env.now }
    ensures counted { IfOk result (IsCounted env.now) }
{
    let term = opened.term(case, key)?;
    let count = case.row.number("products", 0)?;
    under(case.alloc, env, term, count)
}

/// A meter of `units`, where `entered` rules stand already.
fn metered(case: &Case) -> Result<Meter, Fault> {
    let mut m = Meter::new(case.row.number("units", UNITS)?);
    for _ in 0..case.row.number("entered", 0)? {
        let _ = m.enter();
    }
    Ok(m)
}

/// Compares two terms in the empty context.
fn compared<C: Converter>(
    converter: &C,
    alloc: Global,
    comparison: Comparison,
    env: &Env,
    a: &Term,
    b: &Term,
    m: &mut Meter,
) -> Result<(), Halt>
    requires env { IsCountedEnv env.now }
    requires left { IsCounted env.now a.now }
    requires right { IsCounted env.now b.now }
{
    match comparison {
        Comparison::Below => converter.below(alloc, env, &Ctx::new(), a, b, m),
        Comparison::Equal => converter.equal(alloc, env, &Ctx::new(), a, b, m),
    }
}

/// What a comparison came to.
fn put_came(out: &mut String, raw: &RawEnv, came: &Result<(), Halt>) -> Result<(), AllocError> {
    match came {
        Ok(()) => out.push_str("holds"),
        Err(Halt::Stop(stop)) => put_stop(out, *stop),
        Err(Halt::Broken(rule)) => put_broken(out, raw, rule),
    }
}

/// What a comparison came to, and the units that are left.
fn put_compared(
    out: &mut String,
    raw: &RawEnv,
    came: &Result<(), Halt>,
    m: &Meter,
) -> Result<(), AllocError> {
    put_came(out, raw, came)?;
    let left = m.left();
    write!(out, "\n  units left {left}")
}

/// Compares two terms by a converter with `units`, where `entered` rules stand already, and tells the units that are left.
fn compared_by<C: Converter>(
    converter: &C,
    case: &Case,
    opened: &Opened,
    env: &Env,
    comparison: Comparison,
    a: &Term,
    b: &Term,
) -> Result<String, Fault>
    requires accepted { IsAccepted env.now }
    requires left { IsCounted env.now a.now }
    requires right { IsCounted env.now b.now }
{
    let mut m = metered(case)?;
    let came = compared(converter, case.alloc, comparison, env, a, b, &mut m);
    let mut out = String::new(case.alloc);
    put_compared(&mut out, &opened.raw, &came, &m)?;
    Ok(out)
}

/// Compares two terms by both converters, which come to the same.
fn compare(
    case: &Case,
    opened: &Opened,
    env: &Env,
    comparison: Comparison,
    a: &Term,
    b: &Term,
    out: &mut String,
) -> Result<(), Fault>
    requires accepted { IsAccepted env.now }
    requires left { IsCounted env.now a.now }
    requires right { IsCounted env.now b.now }
{
    let stepwise = compared_by(&Compare::new(Subst), case, opened, env, comparison, a, b)?;
    let unread = compared_by(&LazyCompare, case, opened, env, comparison, a, b)?;
    out.push_str(stepwise.as_str())?;
    if unread.as_str() != stepwise.as_str() {
        out.push_str("\n  by closures ")?;
        out.push_str(unread.as_str())?;
    }
    Ok(())
}

/// Compares a term with `other`.
fn compare_other(
    case: &Case,
    opened: &Opened,
    env: &Env,
    comparison: Comparison,
    a: &Term,
    out: &mut String,
) -> Result<(), Fault>
    requires accepted { IsAccepted env.now }
    requires left { IsCounted env.now a.now }
{
    let b = side(case, opened, env, "other")?;
    compare(case, opened, env, comparison, a, &b, out)
}

/// Compares `term` with `other`.
fn run_two(
    case: &Case,
    opened: &Opened,
    env: &Env,
    comparison: Comparison,
    out: &mut String,
) -> Result<(), Fault>
    requires accepted { IsAccepted env.now }
{
    let a = side(case, opened, env, "term")?;
    compare_other(case, opened, env, comparison, &a, out)
}

/// The product of a term and itself.
fn once_doubled(alloc: Global, env: &Env, term: &Term) -> Result<Term, Fault>
    requires counted { IsCounted env.now term.now }
    ensures counted { IfOk result (IsCounted env.now) }
{
    let same = made(term.share())?;
    made(doubled(alloc, 1, same))
}

/// `term`, doubled `doublings` times.
fn doubled_term(case: &Case, opened: &Opened, env: &Env) -> Result<Term, Fault>
    requires accepted { IsAccepted env.now }
    ensures counted { IfOk result (IsCounted env.now) }
{
    let doublings = case.row.number("doublings", 0)?;
    let term = side(case, opened, env, "term")?;
    made(doubled(case.alloc, doublings, term))
}

/// Compares the product of a term and itself, `a`, with one that is made anew.
fn compare_anew(
    case: &Case,
    opened: &Opened,
    env: &Env,
    comparison: Comparison,
    whole: &Term,
    a: &Term,
    out: &mut String,
) -> Result<(), Fault>
    requires accepted { IsAccepted env.now }
    requires counted { IsCounted env.now whole.now }
    requires left { IsCounted env.now a.now }
{
    let b = once_doubled(case.alloc, env, whole)?;
    compare(case, opened, env, comparison, a, &b, out)
}

/// Compares two products of a term and itself.
fn compare_doubled(
    case: &Case,
    opened: &Opened,
    env: &Env,
    comparison: Comparison,
    whole: &Term,
    out: &mut String,
) -> Result<(), Fault>
    requires accepted { IsAccepted env.now }
    requires counted { IsCounted env.now whole.now }
{
    let a = once_doubled(case.alloc, env, whole)?;
    compare_anew(case, opened, env, comparison, whole, &a, out)
}

/// Compares two products of `term`, doubled `doublings` times, with itself: no walk over so many leaves would come to an end.
fn run_doubled(
    case: &Case,
    opened: &Opened,
    env: &Env,
    comparison: Comparison,
    out: &mut String,
) -> Result<(), Fault>
    requires accepted { IsAccepted env.now }
{
    let whole = doubled_term(case, opened, env)?;
    compare_doubled(case, opened, env, comparison, &whole, out)
}
