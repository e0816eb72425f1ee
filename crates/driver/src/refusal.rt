//! The refusals of a job, each with its status and the parts of its line.

ghost use Rattle.std.specs.Prelude.{◌≡◌, Some, None};
ghost use Rattle.driver.specs.Lines.{status_of, status_of_argument, status_of_certificate, status_of_module, status_of_run, front_of, front_of_argument, front_of_certificate, front_of_foreign, front_of_entry, front_of_limit, front_of_module, front_of_program, front_of_run, front_of_trap, certificate_number, number_in, place_of, name_in, second_in};

use dump_grammar::{Foreign, Limit, ReadRefusal};
use std::alloc::{AllocError, AllocFailed};
use wasm_core::{Entry, TrapKind};

/// Where in an environment a rule is broken, as a line tells it: a declaration by the bytes of its name.
#[derive(Drop)]
pub(crate) enum Where {
    Levels,
    Constraints,
    Declaration(Vec<u8>),
    Main,
}

/// A limit of a program after erasure, or of its module.
#[derive(Clone, Copy, Debug, PartialEq, Eq)]
pub(crate) enum ProgramLimit {
    /// A lambda or fixpoint has over 1,000 captured words.
    Captured,
    /// The constants, the definitions of fixpoints and the other lambdas are together over 32,768.
    Functions,
    /// A function would have over 50,000 locals.
    Locals,
    /// The module's bytes pass 16 MiB (16,777,216 bytes).
    ModuleBytes,
}

/// Why the run of a module gave no answer.
#[derive(Clone, Copy, Debug, PartialEq, Eq)]
pub(crate) enum RunEnd {
    /// It trapped with the value 1 in `status`, which by `exec` tells of a refused grow.
    Exhausted,
    /// It hadn't ended after the most steps.
    StepsSpent,
    /// It trapped with another status.
    Trapped { kind: TrapKind },
    /// The word in `result` stands for no data, or, by `exec`, for data that isn't of main's type.
    NoValue { word: u32 },
}

/// Why a module that is given as bytes isn't run. Offsets are bytes from the start of the input.
#[derive(Clone, Copy, Debug, PartialEq, Eq)]
pub(crate) enum ModuleFault {
    /// The bytes spell no module: the first item without a spelling in its place begins at the offset.
    Bad { offset: usize },
    /// The module first fails to have a typing at this place of this function.
    Invalid { func: u32, place: u32 },
    /// An entry is no export, or one of another type.
    NoEntry { entry: Entry },
    /// The least pages of memory pass the bound.
    Pages,
    /// The table has over 65,536 entries.
    Table,
    /// An element segment doesn't fit the table.
    ElementPastTable,
}

/// Why the text of the arguments gives none. Offsets are bytes from the start of the input.
#[derive(Clone, Copy, Debug, PartialEq, Eq)]
pub(crate) enum ArgumentFault {
    /// No text of arguments goes on with the token there.
    Syntax { offset: usize },
    /// Over 1,000 brackets are open.
    Nesting,
    /// An atom has over 255 bytes.
    NameBytes,
    /// What stands there is no item of the type that is asked for there, or an item is missing or one too many.
    Wrong { offset: usize },
}

/// Why an environment isn't verified along the certificate behind it. Offsets are bytes from the start of the input, items are numbered from 0.
#[derive(Clone, Copy, Debug, PartialEq, Eq)]
pub(crate) enum CertificateFault {
    /// No text of a certificate goes on with the token there.
    Syntax { offset: usize },
    /// A number of the certificate is over 4,294,967,295.
    Number,
    /// The walk is refused at the item.
    Refused { item: u64 },
}

/// Why a job gives no answer. Offsets are bytes from the start of the input.
#[derive(Drop)]
pub(crate) enum Refusal {
    Memory,
    Usage,
    ReadFault,
    WriteFault,
    Syntax { offset: usize },
    Unsupported { what: Foreign, offset: usize },
    Limit { which: Limit },
    InputBytes,
    /// A limit was passed in the check, or in what comes after it, or by `verify` in the walk: the depth of a term, a number, or the rules that stand in one another; or a term of the saturated program is too deep.
    Depth,
    /// The check, or what comes after it with the same units, or by `verify` the walk, has no end within the units of a job.
    TurnsSpent,
    /// More types than the limit would be put in the list of a first-order search.
    Types,
    /// Main's type takes more arguments than the limit.
    Arguments,
    /// The answer has more nodes than the limit.
    AnswerNodes,
    /// Main's type has no first-order set, or where main is to be called no signature.
    NotFirstOrder,
    /// By `eval`: main has no value, or its value is no data of main's type.
    Stuck,
    /// The rule of this number is broken at a place of the environment.
    Broken { number: u8, place: Where },
    /// The erased program would name a constant without a body: the first declared of these, by the bytes of its name.
    Axiom { name: Vec<u8> },
    /// The erased program, or its module, passes a limit.
    Program { which: ProgramLimit },
    /// The run of a module gave no answer.
    Run { why: RunEnd },
    /// A module isn't run.
    Module { why: ModuleFault },
    /// The text of the arguments gives none.
    Argument { why: ArgumentFault },
    /// The environment isn't verified along the certificate.
    Certificate { why: CertificateFault },
}

/// The status of a run without an answer.
fn run_status(why: &RunEnd) -> u8
    ensures value { result ≡ status_of_run why.now }
{
    match why {
        RunEnd::Exhausted => 11,
        RunEnd::StepsSpent => 12,
        RunEnd::Trapped { .. } | RunEnd::NoValue { .. } => 15,
    }
}

/// The status of a module that isn't run.
fn module_status(why: &ModuleFault) -> u8
    ensures value { result ≡ status_of_module why.now }
{
    match why {
        ModuleFault::Bad { .. } => 13,
        ModuleFault::Invalid { .. } => 14,
        ModuleFault::NoEntry { .. } | ModuleFault::ElementPastTable => 15,
        ModuleFault::Pages | ModuleFault::Table => 7,
    }
}

/// The status of arguments that are none.
fn argument_status(why: &ArgumentFault) -> u8
    ensures value { result ≡ status_of_argument why.now }
{
    match why {
        ArgumentFault::Syntax { .. } => 5,
        ArgumentFault::Nesting | ArgumentFault::NameBytes => 7,
        ArgumentFault::Wrong { .. } => 16,
    }
}

/// The status of a certificate along which nothing is verified.
fn certificate_status(why: &CertificateFault) -> u8
    ensures value { result ≡ status_of_certificate why.now }
{
    match why {
        CertificateFault::Syntax { .. } => 5,
        CertificateFault::Number => 7,
        CertificateFault::Refused { .. } => 17,
    }
}

/// The program's status.
pub(crate) fn status(refusal: &Refusal) -> u8
    ensures value { result ≡ status_of refusal.now }
{
    match refusal {
        Refusal::Memory => 1,
        Refusal::Usage => 2,
        Refusal::ReadFault => 3,
        Refusal::WriteFault => 4,
        Refusal::Syntax { .. } => 5,
        Refusal::Unsupported { .. } => 6,
        Refusal::Limit { .. } | Refusal::InputBytes | Refusal::Depth => 7,
        Refusal::Types | Refusal::Arguments | Refusal::AnswerNodes => 7,
        Refusal::Program { .. } => 7,
        Refusal::TurnsSpent => 8,
        Refusal::Broken { .. } => 9,
        Refusal::NotFirstOrder | Refusal::Axiom { .. } => 10,
        Refusal::Stuck => 15,
        Refusal::Run { why } => run_status(why),
        Refusal::Module { why } => module_status(why),
        Refusal::Argument { why } => argument_status(why),
        Refusal::Certificate { why } => certificate_status(why),
    }
}

/// What stands before the offset of a form that is known and not read.
#[tactic(auto, unfolding(crate::specs::Lines::front_of_foreign))]
fn foreign_front(what: Foreign) -> &'static [u8]
    ensures bytes { result.now ≡ front_of_foreign what }
{
    match what {
        Foreign::Var => b"unsupported Var at ",
        Foreign::Evar => b"unsupported Evar at ",
        Foreign::Proj => b"unsupported Proj at ",
        Foreign::CoFix => b"unsupported CoFix at ",
        Foreign::Int => b"unsupported Int at ",
        Foreign::Float => b"unsupported Float at ",
        Foreign::String => b"unsupported String at ",
        Foreign::Array => b"unsupported Array at ",
        Foreign::SProp => b"unsupported SProp at ",
        Foreign::CoInductive => b"unsupported CoInductive at ",
        Foreign::Polymorphic => b"unsupported Polymorphic at ",
        Foreign::TelescopeLet => b"unsupported TelescopeLet at ",
        Foreign::LevelVariable => b"unsupported LevelVariable at ",
        Foreign::Version => b"unsupported Version at ",
    }
}

/// The line of a limit of the text, but for its LF.
#[tactic(auto, unfolding(crate::specs::Lines::front_of_limit))]
fn limit_front(which: Limit) -> &'static [u8]
    ensures bytes { result.now ≡ front_of_limit which }
{
    match which {
        Limit::Nesting => b"limit Nesting",
        Limit::NameBytes => b"limit NameBytes",
        Limit::Number => b"limit Number",
        Limit::LevelAdd => b"limit LevelAdd",
        Limit::Depth => b"limit Depth",
        Limit::Declarations => b"limit Declarations",
        Limit::Families => b"limit Families",
        Limit::Constructors => b"limit Constructors",
        Limit::Telescope => b"limit Telescope",
        Limit::Definitions => b"limit Definitions",
        Limit::Levels => b"limit Levels",
        Limit::Constraints => b"limit Constraints",
    }
}

/// The line of a limit of a program, but for its LF.
#[tactic(auto, unfolding(crate::specs::Lines::front_of_program))]
fn program_front(which: ProgramLimit) -> &'static [u8]
    ensures bytes { result.now ≡ front_of_program which }
{
    match which {
        ProgramLimit::Captured => b"limit Captured",
        ProgramLimit::Functions => b"limit Functions",
        ProgramLimit::Locals => b"limit Locals",
        ProgramLimit::ModuleBytes => b"limit ModuleBytes",
    }
}

/// The line of a trap, but for its LF.
#[tactic(auto, unfolding(crate::specs::Lines::front_of_trap))]
fn trap_front(kind: TrapKind) -> &'static [u8]
    ensures bytes { result.now ≡ front_of_trap kind }
{
    match kind {
        TrapKind::Unreachable => b"trapped Unreachable",
        TrapKind::OutOfBounds => b"trapped OutOfBounds",
        TrapKind::UndefinedElement => b"trapped UndefinedElement",
        TrapKind::UninitializedElement => b"trapped UninitializedElement",
        TrapKind::IndirectType => b"trapped IndirectType",
    }
}

/// What the line of a run without an answer begins with.
#[tactic(auto, unfolding(crate::specs::Lines::front_of_run))]
fn run_front(why: RunEnd) -> &'static [u8]
    ensures bytes { result.now ≡ front_of_run why }
{
    match why {
        RunEnd::Exhausted => b"memory exhausted",
        RunEnd::StepsSpent => b"steps spent",
        RunEnd::Trapped { kind } => trap_front(kind),
        RunEnd::NoValue { .. } => b"no value at ",
    }
}

/// The line of an entry that isn't there, but for its LF.
#[tactic(auto, unfolding(crate::specs::Lines::front_of_entry))]
fn entry_front(entry: Entry) -> &'static [u8]
    ensures bytes { result.now ≡ front_of_entry entry }
{
    match entry {
        Entry::Main => b"no entry main",
        Entry::Memory => b"no entry memory",
        Entry::Result => b"no entry result",
        Entry::Status => b"no entry status",
        Entry::Heap => b"no entry heap",
        Entry::Args => b"no entry args",
    }
}

/// What the line of a module that isn't run begins with.
#[tactic(auto, unfolding(crate::specs::Lines::front_of_module))]
fn module_front(why: ModuleFault) -> &'static [u8]
    ensures bytes { result.now ≡ front_of_module why }
{
    match why {
        ModuleFault::Bad { .. } => b"bad module at ",
        ModuleFault::Invalid { .. } => b"invalid module in function ",
        ModuleFault::NoEntry { entry } => entry_front(entry),
        ModuleFault::Pages => b"limit Pages",
        ModuleFault::Table => b"limit Table",
        ModuleFault::ElementPastTable => b"element past table",
    }
}

/// What the line of arguments that are none begins with.
#[tactic(auto, unfolding(crate::specs::Lines::front_of_argument))]
fn argument_front(why: ArgumentFault) -> &'static [u8]
    ensures bytes { result.now ≡ front_of_argument why }
{
    match why {
        ArgumentFault::Syntax { .. } => b"syntax at ",
        ArgumentFault::Nesting => b"limit Nesting",
        ArgumentFault::NameBytes => b"limit NameBytes",
        ArgumentFault::Wrong { .. } => b"argument at ",
    }
}

/// What the line of a certificate along which nothing is verified begins with.
#[tactic(auto, unfolding(crate::specs::Lines::front_of_certificate))]
fn certificate_front(why: CertificateFault) -> &'static [u8]
    ensures bytes { result.now ≡ front_of_certificate why }
{
    match why {
        CertificateFault::Syntax { .. } => b"syntax at ",
        CertificateFault::Number => b"limit Number",
        CertificateFault::Refused { .. } => b"certificate refused at ",
    }
}

/// What the line on err begins with: all of it but for numbers, a place, a name and its LF.
#[tactic(auto, unfolding(crate::specs::Lines::front_of))]
pub(crate) fn front(refusal: &Refusal) -> &'static [u8]
    ensures bytes { result.now ≡ front_of refusal.now }
{
    match refusal {
        Refusal::Memory => b"out of memory",
        Refusal::Usage => b"usage: erasec JOB [--turns N] [--pages N] [--steps N] [--size N]",
        Refusal::ReadFault => b"read fault",
        Refusal::WriteFault => b"write fault",
        Refusal::Syntax { .. } => b"syntax at ",
        Refusal::Unsupported { what, .. } => foreign_front(*what),
        Refusal::Limit { which } => limit_front(*which),
        Refusal::InputBytes => b"limit InputBytes",
        Refusal::Depth => b"limit Depth",
        Refusal::Types => b"limit Types",
        Refusal::Arguments => b"limit Arguments",
        Refusal::AnswerNodes => b"limit AnswerNodes",
        Refusal::NotFirstOrder => b"main is not first-order",
        Refusal::Stuck => b"stuck",
        Refusal::TurnsSpent => b"turns spent",
        Refusal::Broken { .. } => b"broken ",
        Refusal::Axiom { .. } => b"axiom ",
        Refusal::Program { which } => program_front(*which),
        Refusal::Run { why } => run_front(*why),
        Refusal::Module { why } => module_front(*why),
        Refusal::Argument { why } => argument_front(*why),
        Refusal::Certificate { why } => certificate_front(*why),
    }
}

/// The number in a certificate's line, if it tells one: an offset or an item's number.
fn certificate_number(why: &CertificateFault) -> Option<usize>
    ensures value { result ≡ certificate_number why.now }
{
    match why {
        CertificateFault::Syntax { offset } => Some(*offset),
        CertificateFault::Refused { item } => Some(*item as usize),
        CertificateFault::Number => None,
    }
}

/// The number in the line, if it tells one: an offset, that of a broken rule or of an item, or a word that stands for no data.
pub(crate) fn number(refusal: &Refusal) -> Option<usize>
    ensures value { result ≡ number_in refusal.now }
{
    match refusal {
        Refusal::Syntax { offset } => Some(*offset),
        Refusal::Unsupported { offset, .. } => Some(*offset),
        Refusal::Broken { number, .. } => Some(*number as usize),
        Refusal::Run {
            why: RunEnd::NoValue { word },
        } => Some(*word as usize),
        Refusal::Module {
            why: ModuleFault::Bad { offset },
        } => Some(*offset),
        Refusal::Argument {
            why: ArgumentFault::Syntax { offset },
        } => Some(*offset),
        Refusal::Argument {
            why: ArgumentFault::Wrong { offset },
        } => Some(*offset),
        Refusal::Module {
            why: ModuleFault::Invalid { func, .. },
        } => Some(*func as usize),
        Refusal::Certificate { why } => certificate_number(why),
        _ => None,
    }
}

/// The place in the line, if it tells one, but for the name of a declaration.
#[tactic(auto, unfolding(crate::specs::Lines::place_of))]
pub(crate) fn place(refusal: &Refusal) -> &'static [u8]
    ensures bytes { result.now ≡ place_of refusal.now }
{
    match refusal {
        Refusal::Broken { place, .. } => match place {
            Where::Levels => b" in levels",
            Where::Constraints => b" in constraints",
            Where::Declaration(_) => b" in declaration ",
            Where::Main => b" in main",
        },
        Refusal::Module {
            why: ModuleFault::Invalid { .. },
        } => b" at ",
        _ => b"",
    }
}

/// The name in the line, if it tells one: that of a declaration.
pub(crate) fn name(refusal: &Refusal) -> &[u8]
    ensures bytes { result.now ≡ name_in refusal.now }
{
    match refusal {
        Refusal::Broken {
            place: Where::Declaration(name),
            ..
        } => name.as_slice(),
        Refusal::Axiom { name } => name.as_slice(),
        _ => b"",
    }
}

/// The second number in the line, if it tells one: the place in a function.
pub(crate) fn second(refusal: &Refusal) -> Option<usize>
    ensures value { result ≡ second_in refusal.now }
{
    match refusal {
        Refusal::Module {
            why: ModuleFault::Invalid { place, .. },
        } => Some(*place as usize),
        _ => None,
    }
}

impl From<ReadRefusal> for Refusal {
    ghost use Rattle.driver.specs.Lines.{refusal_of};

    ghost from_gives = { λ e r. r ≡ refusal_of e };

    fn from(why: ReadRefusal) -> Refusal {
        match why {
            ReadRefusal::Syntax { offset } => Refusal::Syntax { offset },
            ReadRefusal::Unsupported { what, offset } => Refusal::Unsupported { what, offset },
            ReadRefusal::Limit { which, .. } => Refusal::Limit { which },
            ReadRefusal::Memory => Refusal::Memory,
        }
    }
}

impl From<AllocError> for Refusal {
    ghost use Rattle.driver.specs.declared.refusal.Refusal.TheVariants.{Memory};

    ghost from_gives = { λ _ r. r ≡ Memory };

    fn from(_e: AllocError) -> Refusal {
        Refusal::Memory
    }
}

impl<T: Drop> From<AllocFailed<T>> for Refusal {
    ghost use Rattle.driver.specs.declared.refusal.Refusal.TheVariants.{Memory};

    ghost from_gives = { λ _ r. r ≡ Memory };

    fn from(_e: AllocFailed<T>) -> Refusal {
        Refusal::Memory
    }
}
