//! A machine that runs a valid module.

ghost use Rattle.std.specs.Prelude.{◌≡◌, ◌+◌, ◌-◌, ◌^◌, ◌<◌, ◌≤◌, ◌∷◌, [], List, IfOk, OnOk, OnErr, MatchOption, MatchResult, Some, false, length, map, max, min, slice_get, true, ℕ};
ghost use Rattle.wasm_core.specs.Answer.{global_of};
ghost use Rattle.wasm_core.specs.Entries.{missing, missing_for_call};
ghost use Rattle.wasm_core.specs.HostStore.{IsForCall, set_entry, with_store};
ghost use Rattle.wasm_core.specs.Instance.{segments_fit, segment_fits, zero_of};
ghost use Rattle.wasm_core.specs.MachineRun.{GoesOn, IsFreshMachine, HasEndedAs, Makes, MakesForCall, MachineSays, first_past};
ghost use Rattle.wasm_core.specs.Memory.{zeroed};
ghost use Rattle.wasm_core.specs.ModuleTyping.{IsValid};
ghost use Rattle.wasm_core.specs.Runs.{Move, store_of};
ghost use Rattle.wasm_core.specs.Words.{HasWords};
ghost use Rattle.wasm_run.specs.Hosting.{IsAtStart, MakesOfSize, SaysPut};
ghost use Rattle.wasm_run.specs.MachineEntries.{HasEntries};
ghost use Rattle.wasm_run.specs.Standing.{HasPeak, frames};
ghost use Rattle.wasm_run.specs.Tallies.{IsTally};
ghost use Rattle.wasm_run.specs.Threads.{state_of};
ghost use Rattle.wasm_run.specs.ToldRuns.{SaysTold};
ghost use Rattle.wasm_run.specs.ToldSteps.{grow_facts, step_facts};
ghost use Rattle.std.specs.List.{AllZip};
ghost use Rattle.reports.specs.Shown.{IsTold};
ghost use Rattle.reports.specs.declared.fact.Fact.{Fact};
ghost use Rattle.reports.specs.declared.fact.Fact.TheVariants.{StepDone};

use crate::entries::index_of;
use crate::exec::{next_facts, run_step, zero};
use crate::frame::Frame;
use crate::hosting::{has_room, put_block, set_i32};
use crate::program::{Program, least_of};
use crate::tally::{StepFacts, Tally, tell_counted};
use crate::thread::Thread;
use reports::Report;
use std::alloc::{AllocError, Global};
use std::marker::Model;
use wasm_core::{
    ConstValue, Ended, Entry, Module, NewFault, RunFault, Segment, ValType, Valid, calls_are_runs,
    first_is_ready, hosted_entries_are_there, hosted_never_stuck, hosted_words_stay,
    modules_have_words,
};

/// A machine that runs `main` of a valid module (WebAssembly Core Specification, chapter 4).
#[derive(Drop)]
pub struct Machine<'m> {
    alloc: Global,
    program: Program<'m>,
    thread: Thread,
    cap: u32,
    result_at: u32,
    status_at: u32,
    heap_at: u32,
    args_at: u32,
    made: u64,
    peak: u64,
    ended: Option<Ended>,
    failed: bool,
}

impl<'m> Model for Machine<'m> {
    ghost use Rattle.wasm_core.specs.MachineRun.{MachineShown};

    ghost Value = { MachineShown };

    ghost use Rattle.wasm_run.specs.Machines.{IsMachine, shown};

    ghost view = { shown };

    ghost invariant = { IsMachine };
}

/// The places of the entries.
#[derive(Clone, Copy)]
pub struct Entries {
    main: u32,
    result: u32,
    status: u32,
    heap: u32,
    args: u32,
}

/// A place, or 0 where there is none.
fn or_zero(place: Option<u32>) -> u32
    ensures is { (x : ℕ) → place ≡ Some x → result ≡ x }
{
    match place {
        Some(x) => x,
        None => 0,
    }
}

/// The places of the entries, or the first that is missing of the four that a run asks for.
fn entries_of(m: &Module) -> Result<Entries, Entry>
    ensures is { MatchResult result (HasEntries m.now) (λ e. missing m.now ≡ Some e) }
{
    let Some(main) = index_of(m, Entry::Main) else {
        return Err(Entry::Main);
    };
    if index_of(m, Entry::Memory).is_none() {
        return Err(Entry::Memory);
    }
    let Some(result) = index_of(m, Entry::Result) else {
        return Err(Entry::Result);
    };
    let Some(status) = index_of(m, Entry::Status) else {
        return Err(Entry::Status);
    };
    Ok(Entries {
        main,
        result,
        status,
        heap: or_zero(index_of(m, Entry::Heap)),
        args: or_zero(index_of(m, Entry::Args)),
    })
}

/// The places of the entries, or the first that is missing of all six.
fn call_entries_of(m: &Module) -> Result<Entries, Entry>
    ensures is { MatchResult result (HasEntries m.now) (λ e. missing_for_call m.now ≡ Some e) }
    ensures all { IfOk result (λ e. missing_for_call m.now ≡ None) }
{
    let entries = entries_of(m)?;
    if index_of(m, Entry::Heap).is_none() {
        return Err(Entry::Heap);
    }
    if index_of(m, Entry::Args).is_none() {
        return Err(Entry::Args);
    }
    Ok(entries)
}

/// Whether a segment fits a table of this size.
fn fits(size: u32, segment: &Segment) -> bool
    ensures is { result ≡ segment_fits size segment.now }
{
    segment.offset as usize <= size as usize
        && segment.funcs.as_slice().len() <= size as usize - segment.offset as usize
}

/// The first segment that doesn't fit a table of this size.
fn past(size: u32, segments: &[Segment]) -> Option<u32>
    requires few { length segments.now < 2 ^ 32 }
    ensures is { result ≡ first_past 0 size segments.now }
{
    for i in 0..segments.len() {
        if !fits(size, &segments[i]) {
            return Some(i as u32);
        }
    }
    None
}

/// So many pages of zeros.
#[tactic(auto, unfolding(wasm_core::specs::Memory::zeroed))]
fn zeros(alloc: Global, pages: u32) -> Result<Vec<u8>, AllocError>
    ensures is { IfOk result (λ v. v.items ≡ zeroed pages) }
{
    let count = 65_536 * pages as usize;
    vec![in alloc; 0; count]
}

/// The first values of the globals.
fn first_globals(alloc: Global, m: &Module) -> Result<Vec<ConstValue>, AllocError>
    ensures is { IfOk result (λ v. v.items ≡ map (λ g. g.init) m.now.globals) }
{
    let mut values = Vec::new(alloc);
    for def in m.globals().as_slice() {
        values.push(def.init)?;
    }
    Ok(values)
}

/// The first values of further locals.
fn first_locals(alloc: Global, types: &[ValType]) -> Result<Vec<ConstValue>, AllocError>
    ensures is { IfOk result (λ v. v.items ≡ map zero_of types.now) }
{
    let mut values = Vec::new(alloc);
    for i in 0..types.len() {
        values.push(zero(types[i]))?;
    }
    Ok(values)
}

/// The value of an i32 global.
fn i32_at(globals: &[ConstValue], place: u32) -> u32
    ensures is { (n : ℕ) → slice_get globals.now place ≡ Some (ConstValue.I32 n) → result ≡ n }
{
    match globals.get(place as usize) {
        Some(ConstValue::I32(n)) => *n,
        _ => 0,
    }
}

/// The frames that stand: that of the function that runs and those that wait for it, and none after the run's end.
fn standing(program: &Program, ended: Option<Ended>, thread: &Thread) -> u64
    ensures is { result ≡ frames (state_of program.now ended thread.now) }
{
    match ended {
        Some(_) => 0,
        None => thread.callers.len() as u64 + 1,
    }
}

/// The greater of two numbers.
fn higher(m: u64, n: u64) -> u64
    ensures is { result ≡ max m n }
{
    if m < n { n } else { m }
}

impl<'m> Machine<'m> {
    /// A machine at the start of a run of `main`, whose memory grows to `cap` pages of 65,536 bytes at most, or to the module's maximum where that
    /// is smaller.
    ///
    /// `NoEntry` names the first of `main`, `memory`, `result` and `status` that the module doesn't export as asked.
    /// `Pages` comes where the entries are there and the memory's least pages pass `cap`; `Table` where also these don't pass it, and the
    /// table has over 65,536 entries; `ElementPastTable` names the first element segment that doesn't fit the table where nothing else is refused.
    pub fn new(alloc: Global, valid: &'m Valid, cap: u32) -> Result<Machine<'m>, NewFault>
        ensures makes { Makes valid.now cap result }
    {
        match entries_of(valid.module()) {
            Ok(entries) => Machine::with_entries(alloc, valid, cap, entries),
            Err(entry) => Err(NewFault::NoEntry(entry)),
        }
    }

    /// A machine as `new` makes one, for a host that gives arguments: before the run it may put words into memory (`host_block`) and say where the
    /// arguments are (`set_args`).
    ///
    /// `NoEntry` names the first of `main`, `memory`, `result`, `status`, `heap` and `args` that the module doesn't export as asked. The other refusals, and
    /// their order, are those of `new`.
    pub fn new_call(alloc: Global, valid: &'m Valid, cap: u32) -> Result<Machine<'m>, NewFault>
        ensures makes { MakesForCall valid.now cap result }
        ensures for_call { IfOk result (λ a. IsForCall a.program) }
        ensures start { IfOk result IsAtStart }
    {
        calls_are_runs();
        match call_entries_of(valid.module()) {
            Ok(entries) => Machine::with_entries(alloc, valid, cap, entries),
            Err(entry) => Err(NewFault::NoEntry(entry)),
        }
    }

    /// A machine at the start of a run of `main`, where the entries are there.
    #[tactic(auto, using(wasm_core::proofs::Refusals::all_held))]
    fn with_entries(
        alloc: Global,
        valid: &'m Valid,
        cap: u32,
        entries: Entries,
    ) -> Result<Machine<'m>, NewFault>
        requires entries { HasEntries valid.now entries }
        ensures makes { MakesOfSize valid.now cap result }
        ensures start { IfOk result IsAtStart }
    {
        let module = valid.module();
        module.spelled();
        if cap < least_of(module.memory()) {
            return Err(NewFault::Pages);
        }
        let size = least_of(module.table());
        if size > 65_536 {
            return Err(NewFault::Table);
        }
        if let Some(segment) = past(size, module.elements().as_slice()) {
            return Err(NewFault::ElementPastTable { segment });
        }
        modules_have_words();
        match Machine::start(alloc, module, cap, entries) {
            Ok(machine) => Ok(machine),
            Err(_) => Err(NewFault::Memory),
        }
    }

    /// A machine at the start of a run of `main`, with its first pages, its globals and its table.
    fn start(
        alloc: Global,
        m: &'m Module,
        cap: u32,
        entries: Entries,
    ) -> Result<Machine<'m>, AllocError>
        requires words { HasWords m.now }
        requires valid { IsValid m.now }
        requires entries { HasEntries m.now entries }
        requires fit { segments_fit m.now ≡ true }
        ensures is { IfOk result (λ a. IsFreshMachine m.now cap a) }
        ensures start { IfOk result IsAtStart }
    {
        first_is_ready();
        let pages = least_of(m.memory());
        let program = Program::new(alloc, m)?;
        let main = entries.main as usize;
        let locals = first_locals(alloc, program.locals(main))?;
        let current = Frame::new(alloc, main, false, locals);
        let callers: Vec<Frame> = Vec::new(alloc);
        let memory = zeros(alloc, pages)?;
        let globals = first_globals(alloc, m)?;
        let thread = Thread {
            current,
            callers,
            pages,
            memory,
            globals,
            refused: false,
            by_choice: false,
        };
        Ok(Machine {
            alloc,
            program,
            thread,
            cap,
            result_at: entries.result,
            status_at: entries.status,
            heap_at: entries.heap,
            args_at: entries.args,
            made: 0,
            peak: 1,
            ended: None,
            failed: false,
        })
    }

    /// How the run ended, if it has.
    fn end(&self) -> Option<Ended>
        ensures is { MatchOption result (GoesOn self.now.state) (λ e. HasEndedAs e self.now.state) }
    {
        self.ended
    }

    /// One step.
    fn advance(&mut self) -> Result<(), AllocError>
        requires sound { self.old.failed ≡ false }
        requires goes_on { GoesOn self.old.state }
        ensures ok { OnOk result (Move self.old.program self.old.cap self.old.state self.new.state) }
        ensures kept { (self.new.program ≡ self.old.program) × (self.new.cap ≡ self.old.cap) }
        ensures made { OnOk result (self.new.made ≡ min (self.old.made + 1) (2 ^ 64 - 1)) }
        ensures sound { OnOk result (self.new.failed ≡ false) }
        ensures err { OnErr result (self.new.failed ≡ true) }
        ensures unmade { OnErr result (self.new.made ≡ self.old.made) }
    {
        hosted_never_stuck();
        hosted_words_stay();
        match run_step(self.alloc, &self.program, self.cap, &mut self.thread) {
            Ok(ended) => {
                self.ended = ended;
                self.made = self.made.saturating_add(1);
                let frames = standing(&self.program, ended, &self.thread);
                self.peak = higher(self.peak, frames);
                Ok(())
            }
            Err(error) => {
                self.failed = true;
                Err(error)
            }
        }
    }

    /// Makes at most `steps` steps, up to the run's end.
    ///
    /// `StepsSpent` comes exactly where that many were made and the run hadn't ended; a later call goes on. After the end the
    /// same end is answered again. After `Memory` every call answers `Failed`.
    pub fn run(&mut self, steps: u64) -> Result<Ended, RunFault>
        ensures kept { (self.new.program ≡ self.old.program) × (self.new.cap ≡ self.old.cap) }
        ensures says { MachineSays self.old self.new steps result }
    {
        if self.failed {
            return Err(RunFault::Failed);
        }
        let _before = self.steps();
        for _made in 0..steps {
            if let Some(ended) = self.end() {
                return Ok(ended);
            }
            match self.advance() {
                Ok(()) => {}
                Err(_) => return Err(RunFault::Memory),
            }
        }
        match self.end() {
            Some(ended) => Ok(ended),
            None => Err(RunFault::StepsSpent),
        }
    }

    /// What the step tells that comes next.
    fn coming(&self) -> StepFacts
        requires sound { self.now.failed ≡ false }
        requires goes_on { GoesOn self.now.state }
        ensures range { (1 ≤ result.class) × (result.class ≤ 6) }
        ensures is { step_facts self.now.program self.now.cap self.now.state ≡ StepDone result.class ∷ grow_facts result.grows }
    {
        hosted_never_stuck();
        next_facts(&self.program, self.cap, &self.thread)
    }

    /// Makes at most `steps` steps, up to the run's end, as `run` does, and counts what they tell.
    fn run_counted(&mut self, steps: u64, tally: &mut Tally) -> Result<Ended, RunFault>
        requires none { IsTally tally.old [] }
        ensures kept { (self.new.program ≡ self.old.program) × (self.new.cap ≡ self.old.cap) }
        ensures says { (facts : List Fact) × SaysTold self.old self.new steps result facts × IsTally tally.new facts }
    {
        if self.failed {
            return Err(RunFault::Failed);
        }
        let _before = self.steps();
        for _made in 0..steps {
            if let Some(ended) = self.end() {
                return Ok(ended);
            }
            let step = self.coming();
            match self.advance() {
                Ok(()) => tally.note(step),
                Err(_) => return Err(RunFault::Memory),
            }
        }
        match self.end() {
            Some(ended) => Ok(ended),
            None => Err(RunFault::StepsSpent),
        }
    }

    /// Makes at most `steps` steps, up to the run's end, and answers as `run` does; then each report, in order, is told the facts of these steps: each with its class, and
    /// each grow of memory that wasn't refused. So they are told where memory is wanted, too: those of the steps before. It takes no memory for that.
    ///
    /// A class is 1 for `unreachable`, `nop`, `block`, `loop`, `if`, the branches, `return` and `drop`; 2 for the calls; 3 for locals and globals; 4 for memory; 5 for constants and operations; and 6
    /// where a block, a loop, an arm or a function is left at its end.
    pub fn run_told<R: Report>(
        &mut self,
        steps: u64,
        reports: &mut Vec<R>,
    ) -> Result<Ended, RunFault>
        ensures kept { (self.new.program ≡ self.old.program) × (self.new.cap ≡ self.old.cap) }
        ensures says { MachineSays self.old self.new steps result }
        ensures told { (facts : List Fact) × SaysTold self.old self.new steps result facts ×
            AllZip (λ b c. IsTold facts (R.shown b) (R.shown c)) reports.old.items reports.new.items }
    {
        let mut tally = Tally::new();
        let ended = self.run_counted(steps, &mut tally);
        tell_counted(reports, &tally);
        ended
    }

    /// The value of the global `result`.
    pub fn result(&self) -> u32
        ensures is { self.now.failed ≡ false → global_of Entry.Result self.now.program (store_of self.now.state) ≡ Some result }
    {
        hosted_entries_are_there();
        i32_at(self.thread.globals.as_slice(), self.result_at)
    }

    /// The value of the global `status`.
    pub fn status(&self) -> u32
        ensures is { self.now.failed ≡ false → global_of Entry.Status self.now.program (store_of self.now.state) ≡ Some result }
    {
        hosted_entries_are_there();
        i32_at(self.thread.globals.as_slice(), self.status_at)
    }

    /// The value of the global `heap`: the first address that is free for a host's words, and for the run.
    pub fn heap(&self) -> u32
        requires for_call { IsForCall self.now.program }
        ensures is { self.now.failed ≡ false → global_of Entry.Heap self.now.program (store_of self.now.state) ≡ Some result }
    {
        hosted_entries_are_there();
        i32_at(self.thread.globals.as_slice(), self.heap_at)
    }

    /// Before the first step a machine that hasn't failed is at the start of a run of `main`, in a store in which a run may start. It does nothing.
    pub fn at_start(&self)
        requires unmade { self.now.made ≡ 0 }
        ensures start { self.now.failed ≡ false → IsAtStart self.now }
    {
        let _made = self.made;
    }

    /// Before the first step, puts words at `heap` and `heap` past them, where memory grows by the fewest pages, and gives their address. All else stays.
    ///
    /// None comes exactly where the address past the words would be over 4,294,967,295, or the pages that are needed pass the smaller of the machine's bound and
    /// the module's maximum; nothing changes then. `Failed` comes as in `run`, and `StepsSpent` never.
    pub fn host_block(&mut self, words: &[u32]) -> Result<Option<u32>, RunFault>
        requires unmade { self.old.made ≡ 0 }
        requires for_call { IsForCall self.old.program }
        ensures kept { (self.new.program ≡ self.old.program) × (self.new.cap ≡ self.old.cap) × (self.new.made ≡ self.old.made) }
        ensures says { SaysPut self.old self.new words.now result }
        ensures start { self.new.failed ≡ false → IsAtStart self.new }
    {
        if self.failed {
            return Err(RunFault::Failed);
        }
        let at = self.heap();
        if !has_room(&self.program, self.cap, at as u64 + 4 * words.len() as u64) {
            return Ok(None);
        }
        hosted_words_stay();
        if let Err(_) = put_block(&mut self.thread, self.heap_at, at, words) {
            self.failed = true;
            return Err(RunFault::Memory);
        }
        Ok(Some(at))
    }

    /// Before the first step, sets the global `args`: the address where the arguments' words are. All else stays.
    pub fn set_args(&mut self, address: u32)
        requires unmade { self.old.made ≡ 0 }
        requires for_call { IsForCall self.old.program }
        ensures is { self.new ≡ record self.old { state = with_store self.old.state (set_entry Entry.Args self.old.program address (store_of self.old.state)) } }
        ensures start { self.new.failed ≡ false → IsAtStart self.new }
    {
        set_i32(&mut self.thread.globals, self.args_at, address);
    }

    /// The pages of memory, of 65,536 bytes each.
    pub fn pages(&self) -> u32
        ensures is { result ≡ (store_of self.now.state).pages }
    {
        self.thread.pages
    }

    /// The bytes of memory.
    pub fn memory(&self) -> &[u8]
        ensures is { result.now ≡ (store_of self.now.state).memory }
    {
        self.thread.memory.as_slice()
    }

    /// The frames that stand now: that of the function that runs and those that wait for it; 0 where the run has ended. It takes no memory.
    pub fn frames(&self) -> u64
        ensures is { result ≡ frames self.now.state }
    {
        standing(&self.program, self.ended, &self.thread)
    }

    /// The most frames that have stood at once since `new`: at the start of the run and after each of this machine's steps. It takes no memory.
    pub fn peak(&self) -> u64
        ensures is { self.now.failed ≡ false → HasPeak self.now result }
    {
        self.peak
    }

    /// The steps made so far, which stop at u64's last value.
    pub fn steps(&self) -> u64
        ensures is { result ≡ self.now.made }
    {
        self.made
    }
}
