//! Counts of the facts of a run.
ghost use Rattle.std.specs.Prelude.{◌≡◌, ◌+◌, ◌-◌, ◌≤◌, ◌<◌, ◌++◌, ◌∷◌, [], List};
ghost use Rattle.std.specs.List.{AllZip};
ghost use Rattle.reports.specs.Shown.{IsTold};
ghost use Rattle.reports.specs.declared.fact.Fact.{Fact as Told};
ghost use Rattle.reports.specs.declared.fact.Fact.TheVariants.{StepDone};
ghost use Rattle.reports.specs.Counting.{numbered};
ghost use Rattle.wasm_run.specs.Tallies.{IsTally, counted_facts};
ghost use Rattle.wasm_run.specs.ToldSteps.{class_of as class_is, grow_facts};

use reports::{Fact, Report, tell};
use wasm_core::Instr;

/// How many steps of each class were made, and how many grows of memory weren't refused, each up to the last value of u64.
#[derive(Clone, Copy)]
pub struct Tally {
    pub steps: [u64; 6],
    pub grows: u64,
}

/// What a step tells: its class, 1 to 6, and whether it is a grow of memory that isn't refused.
#[derive(Clone, Copy)]
pub struct StepFacts {
    pub class: u8,
    pub grows: bool,
}

/// The class of the step that executes an instruction.
pub fn class_of(instr: &Instr) -> u8
    ensures is { result ≡ class_is instr.now }
    ensures range { (1 ≤ result) × (result ≤ 6) }
{
    match instr {
        Instr::Unreachable
        | Instr::Nop
        | Instr::Block(_)
        | Instr::Loop(_)
        | Instr::If(_)
        | Instr::Br(_)
        | Instr::BrIf(_)
        | Instr::BrTable(_, _)
        | Instr::Return
        | Instr::Drop => 1,
        Instr::Call(_)
        | Instr::CallIndirect(_, _)
        | Instr::ReturnCall(_)
        | Instr::ReturnCallIndirect(_, _) => 2,
        Instr::LocalGet(_)
        | Instr::LocalSet(_)
        | Instr::LocalTee(_)
        | Instr::GlobalGet(_)
        | Instr::GlobalSet(_) => 3,
        Instr::I32Load(_)
        | Instr::I32Load8U(_)
        | Instr::I32Store(_)
        | Instr::I32Store8(_)
        | Instr::MemorySize
        | Instr::MemoryGrow => 4,
        Instr::I32Const(_) | Instr::I64Const(_) | Instr::I32(_) => 5,
        Instr::Else | Instr::End => 6,
    }
}

impl Tally {
    /// No fact.
    pub fn new() -> Tally
        ensures none { IsTally result [] }
    {
        Tally {
            steps: [0; 6],
            grows: 0,
        }
    }

    /// Counts a step of a class.
    fn note_step(&mut self, class: u8)
        requires range { (1 ≤ class) × (class ≤ 6) }
        ensures more { (facts : List Told) → IsTally self.old facts → IsTally self.new (facts ++ StepDone class ∷ []) }
    {
        let place = class as usize - 1;
        self.steps[place] = self.steps[place].saturating_add(1);
    }

    /// Counts a grow, where there is one.
    fn note_grow(&mut self, grows: bool)
        ensures more { (facts : List Told) → IsTally self.old facts → IsTally self.new (facts ++ grow_facts grows) }
    {
        if grows {
            self.grows = self.grows.saturating_add(1);
        }
    }

    /// Counts a step.
    pub fn note(&mut self, step: StepFacts)
        requires range { (1 ≤ step.class) × (step.class ≤ 6) }
        ensures more { (facts : List Told) → IsTally self.old facts → IsTally self.new (facts ++ StepDone step.class ∷ grow_facts step.grows) }
    {
        self.note_step(step.class);
        self.note_grow(step.grows);
    }
}

/// Tells each report the steps that were counted.
fn tell_steps<R: Report>(reports: &mut Vec<R>, steps: &[u64; 6])
    ensures told { AllZip (λ b c. IsTold (numbered StepDone 1 steps.now) (R.shown b) (R.shown c)) reports.old.items reports.new.items }
{
    for class in 0..6 {
        tell(reports, Fact::StepDone(class + 1), steps[class as usize]);
    }
}

/// Tells each report the facts that were counted. It takes no memory.
pub fn tell_counted<R: Report>(reports: &mut Vec<R>, tally: &Tally)
    ensures told { AllZip (λ b c. IsTold (counted_facts tally.now) (R.shown b) (R.shown c)) reports.old.items reports.new.items }
{
    tell_steps(reports, &tally.steps);
    tell(reports, Fact::Grew, tally.grows);
}
