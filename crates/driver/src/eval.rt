//! The job `eval`: from the bytes of a dump to the text of main's value, by the source's own evaluation.

ghost use Rattle.std.specs.Prelude.{◌≡◌, ℕ, IfOk, IfErr, OnOk};
ghost use Rattle.calculus_rules.specs.Evaluation.{Evaluates};
ghost use Rattle.calculus_rules.specs.FirstOrder.{IsFirstOrder};
ghost use Rattle.first_order.specs.Reading.{read, Read};
ghost use Rattle.first_order.specs.Searching.{members, AreNamed};
ghost use Rattle.first_order.specs.Texts.{HasNames};
ghost use Rattle.command_line.specs.declared.job.Job.TheVariants.{Eval};
ghost use Rattle.driver.specs.JobFacts.{JobIsTold};
ghost use Rattle.driver.specs.Serve.{JobSays};
ghost use Rattle.driver.specs.SourceSays.{ShapesSay, ValueSays, DataSays, IsLine};

use crate::check::{accept_within, units};
use crate::refusal::Refusal;
use command_line::Request;
use data_trees::Data;
use dump_reader::environment::RawEnv;
use dump_reader::names::Names;
use dump_reader::reading::read_env;
use first_order::faults::{ShapeRefusal, TextFault};
use first_order::reading::data_of;
use first_order::searching::first_order;
use first_order::shapes::Shapes;
use first_order::texts::text_of;
use pc_rules::accepted::Accepted;
use pc_rules::meter::Meter;
use pc_terms::term::Term;
use reduce_machine::closures::Closures;
use reports::Report;
use source_eval::evaluation::{EvalStop, eval as evaluate};
use std::alloc::Global;

/// The types of a first-order set of main's type.
pub(crate) fn shapes_of(
    alloc: Global,
    accepted: &Accepted,
    m: &mut Meter,
) -> Result<Shapes, Refusal>
    ensures says { ShapesSay accepted.now.env accepted.now.main_type m.old.account result m.new.account }
    ensures set { IfOk result (λ s. IsFirstOrder accepted.now.env accepted.now.main_type (members s.types)) }
    ensures named { IfOk result (λ s. AreNamed accepted.now.env s.types) }
    ensures nest { m.new.nest ≡ m.old.nest }
{
    match first_order(alloc, &Closures, &accepted.env, &accepted.main_type, m) {
        Ok(shapes) => Ok(shapes),
        Err(ShapeRefusal::NotFirstOrder { .. }) => Err(Refusal::NotFirstOrder),
        Err(ShapeRefusal::Types) => Err(Refusal::Types),
        Err(ShapeRefusal::Spent) => Err(Refusal::TurnsSpent),
        Err(ShapeRefusal::TooDeep) => Err(Refusal::Depth),
        Err(ShapeRefusal::Memory) => Err(Refusal::Memory),
    }
}

/// The value of main.
fn value_of(alloc: Global, accepted: &Accepted, m: &mut Meter) -> Result<Term, Refusal>
    ensures says { ValueSays accepted.now.env accepted.now.main m.old.account result m.new.account }
    ensures value { IfOk result (λ v. (n : ℕ) × Evaluates accepted.now.env accepted.now.main v n) }
{
    match evaluate(alloc, &accepted.env, &accepted.main, m) {
        Ok(value) => Ok(value),
        Err(EvalStop::Stuck { .. }) => Err(Refusal::Stuck),
        Err(EvalStop::Spent) => Err(Refusal::TurnsSpent),
        Err(EvalStop::TooDeep) => Err(Refusal::Depth),
        Err(EvalStop::Memory) => Err(Refusal::Memory),
    }
}

/// The data that a value is at the first of the types.
fn data_at(alloc: Global, value: &Term, shapes: &Shapes) -> Result<Data, Refusal>
    ensures says { DataSays shapes.now.types value.now result }
{
    match data_of(alloc, value, shapes) {
        Ok(tree) => Ok(tree),
        Err(TextFault::NotOfShape { .. }) => Err(Refusal::Stuck),
        Err(TextFault::AnswerNodes) => Err(Refusal::AnswerNodes),
        Err(TextFault::Memory) => Err(Refusal::Memory),
    }
}

/// The text of the data that a value is at the types, and LF.
fn line_of(
    alloc: Global,
    value: &Term,
    tree: &Data,
    shapes: &Shapes,
    names: &Names,
) -> Result<Vec<u8>, Refusal>
    requires named { HasNames shapes.now.types names.now }
    requires of { read shapes.now.types value.now ≡ Read tree.now }
    ensures line { IfOk result (λ v. IsLine shapes.now.types names.now tree.now v.items) }
    ensures only_memory { IfErr result (λ r. r ≡ Refusal.Memory) }
{
    // The value is of the contract alone.
    let _ = value;
    match text_of(alloc, tree, shapes, names) {
        Ok(mut text) => {
            text.push(b'\n')?;
            Ok(text)
        }
        Err(TextFault::Memory) => Err(Refusal::Memory),
        Err(TextFault::NotOfShape { .. }) => unreachable!(),
        Err(TextFault::AnswerNodes) => unreachable!(),
    }
}

/// The text of the answer on a dump: the stages from its bytes to the text of main's value. One meter serves the check, the search for the types and
/// the evaluation.
pub(crate) fn eval<R: Report>(
    alloc: Global,
    request: Request,
    bytes: &[u8],
    reports: &mut Vec<R>,
) -> Result<Vec<u8>, Refusal>
    ensures says { JobSays Eval request (λ v. v.items) result bytes.now }
    ensures told { OnOk result (JobIsTold R.shown Eval request bytes.now reports.old.items reports.new.items) }
{
    let environment = read_env(alloc, bytes)?;
    let mut meter = units(request.turns);
    let accepted = accept_within(alloc, request.turns, &environment, &mut meter, reports)?;
    let shapes = shapes_of(alloc, &accepted, &mut meter)?;
    let value = value_of(alloc, &accepted, &mut meter)?;
    let tree = data_at(alloc, &value, &shapes)?;
    line_of(alloc, &value, &tree, &shapes, &environment.names)
}
