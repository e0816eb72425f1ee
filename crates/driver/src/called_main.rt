//! Main's module for calls and the arguments of an input: the stages of `call` before the module's bytes.
ghost use Rattle.std.specs.Prelude.{◌≡◌, ◌≤◌, IfOk, OnOk, drop, length};
ghost use Rattle.sexp_reader.specs.Lex.{tokens_of};
ghost use Rattle.dump_grammar.specs.Judge.{texts};
ghost use Rattle.dump_reader.specs.Front.{front_length};
ghost use Rattle.data_trees.specs.Preorder.{IsTree};
ghost use Rattle.first_order.specs.ArgumentTexts.{SpellsArguments};
ghost use Rattle.first_order.specs.Awaited.{argument_sets};
ghost use Rattle.mem_value.specs.Storing.{IsSmallData};
ghost use Rattle.wasm_core.specs.ModuleCondition.{All as Each};
ghost use Rattle.command_line.specs.Line.{IsInRange};
ghost use Rattle.driver.specs.CallEnds.{ArgumentsSay};
ghost use Rattle.driver.specs.CalledMain.{CalledMainSays};
ghost use Rattle.driver.specs.JobFacts.{FrontIsTold};

use crate::callable::{call_compiled, count_arguments, signature_of};
use crate::check::{accept_within, units};
use crate::erasing::erased;
use crate::refusal::{ArgumentFault, Refusal};
use command_line::Request;
use data_trees::Data;
use dump_reader::environment::RawEnv;
use dump_reader::names::Names;
use dump_reader::reading::read_call;
use first_order::faults::ArgsFault;
use first_order::given::read_args;
use first_order::shapes::Signature;
use reports::Report;
use std::alloc::Global;
use wasm_core::Valid;

/// Main's module for calls, its arguments, and what its answer is read by.
#[derive(Drop)]
pub(crate) struct CalledMain {
    /// The environment that the front of the input spells.
    pub(crate) environment: RawEnv,
    /// The signature of main's type.
    pub(crate) signature: Signature,
    /// The arguments, one for each of the signature's.
    pub(crate) arguments: Vec<Data>,
    /// The module for calls of main's erased program, whose memory grows to at most the request's pages of 65,536 bytes.
    pub(crate) module: Valid,
}

/// The arguments that stand behind the environment, of the signature.
fn arguments_of(
    alloc: Global,
    bytes: &[u8],
    from: usize,
    signature: &Signature,
    names: &Names,
) -> Result<Vec<Data>, Refusal>
    requires from { from ≡ front_length bytes.now }
    requires within { from ≤ length bytes.now }
    ensures says { ArgumentsSay (λ v. v.items) bytes.now signature.now names.now result }
    ensures spells { IfOk result (λ v. SpellsArguments names.now (argument_sets signature.now.args) (texts (tokens_of (drop from bytes.now))) v.items) }
{
    match read_args(alloc, bytes, from, signature, names) {
        Ok(arguments) => Ok(arguments),
        Err(ArgsFault::Syntax { offset }) => Err(Refusal::Argument {
            why: ArgumentFault::Syntax { offset },
        }),
        Err(ArgsFault::Nesting) => Err(Refusal::Argument {
            why: ArgumentFault::Nesting,
        }),
        Err(ArgsFault::NameBytes) => Err(Refusal::Argument {
            why: ArgumentFault::NameBytes,
        }),
        Err(ArgsFault::Wrong { offset }) => Err(Refusal::Argument {
            why: ArgumentFault::Wrong { offset },
        }),
        Err(ArgsFault::Memory) => Err(Refusal::Memory),
    }
}

/// Main's module for calls and the arguments of an input: the stages from its bytes to the module, in order. One meter serves the check, the search for the signature and erasure; the arguments take none
/// of its units. Each report is told the facts of the check.
pub(crate) fn called_main<R: Report>(
    alloc: Global,
    request: Request,
    bytes: &[u8],
    reports: &mut Vec<R>,
) -> Result<CalledMain, Refusal>
    requires range { IsInRange request }
    ensures says { CalledMainSays request result bytes.now }
    ensures small { IfOk result (λ m. Each IsSmallData m.arguments.items) }
    ensures trees { IfOk result (λ m. Each IsTree m.arguments.items) }
    ensures told { OnOk result (FrontIsTold R.shown request.turns bytes.now reports.old.items reports.new.items) }
{
    let (environment, from) = read_call(alloc, bytes)?;
    let mut meter = units(request.turns);
    let accepted = accept_within(alloc, request.turns, &environment, &mut meter, reports)?;
    let signature = signature_of(alloc, &accepted, &mut meter)?;
    let arguments = arguments_of(alloc, bytes, from, &signature, &environment.names)?;
    let program = erased(alloc, &environment, &accepted, &mut meter)?;
    let count = count_arguments(&signature);
    let module = call_compiled(alloc, request.pages, count, &program)?;
    Ok(CalledMain {
        environment,
        signature,
        arguments,
        module,
    })
}
