//! Laws of the definitions, as functions with no result but their contracts.

ghost use Rattle.wasm_core.specs.Laws.{AnswerIsUnique, BodiesAreJudged, CallsAreRuns, DataIsUnique, EndedAnswers, EndedAnswersFrom, EndsAreOver, EntriesAreThere, FaultPlaceIsUnique, FirstFaultIsFault, FirstFaultIsUnique, FirstIsReady, FrontsCanGoOn, HostedEndsAreOver, HostedEntriesAreThere, HostedNeverStuck, HostedStarts, HostedWordsStay, MemoryGrows, ModulesAreJudged, ModulesHaveWords, MovesAreSteps, NeverStuck, ReadingIsExact, ShortestBytesSpell, SpelledIsModule, SpentIsFew, SpentIsFewFrom, StartsUnlessRefused, StepsAreDetermined, TreeAnswers, TypedIsClosed, WordsStay};

/// A step is determined by whether a grow of memory is granted.
pub fn steps_are_determined()
    ensures holds { StepsAreDetermined }
{}

/// Until a run of `main` in a valid module ends, there is a step, whether a grow of memory is granted or refused.
pub fn never_stuck()
    ensures holds { NeverStuck }
{}

/// A run of a valid module that can go no further is over.
pub fn ends_are_over()
    ensures holds { EndsAreOver }
{}

/// Where a module's numbers are within their types, so are those of each state that a run reaches, and its memory is whole pages of bytes.
pub fn words_stay()
    ensures holds { WordsStay }
{}

/// Memory never shrinks, in pages or in bytes, and a refused grow isn't forgotten.
pub fn memory_grows()
    ensures holds { MemoryGrows }
{}

/// The globals of the entries are i32s in each state of a run of a valid module.
pub fn entries_are_there()
    ensures holds { EntriesAreThere }
{}

/// The steps of a machine with a bound on its pages are steps of a run.
pub fn moves_are_steps()
    ensures holds { MovesAreSteps }
{}

/// A front with which a typed body can begin has only such fronts.
pub fn fronts_can_go_on()
    ensures holds { FrontsCanGoOn }
{}

/// A body fails at one place at most.
pub fn fault_place_is_unique()
    ensures holds { FaultPlaceIsUnique }
{}

/// A word of a memory stands for one tree of data at most.
pub fn data_is_unique()
    ensures holds { DataIsUnique }
{}

/// A store answers one tree of data at most.
pub fn answer_is_unique()
    ensures holds { AnswerIsUnique }
{}

/// A module whose runs all answer, by their tree, answers within the tree's bound.
pub fn tree_answers()
    ensures holds { TreeAnswers }
{}

/// Any bytes spell one module, or stop at one offset, and never both.
pub fn reading_is_exact()
    ensures holds { ReadingIsExact }
{}

/// What bytes spell meets the condition of modules.
pub fn spelled_is_module()
    ensures holds { SpelledIsModule }
{}

/// The shortest bytes of a module spell it.
pub fn shortest_bytes_spell()
    ensures holds { ShortestBytesSpell }
{}

/// The numbers of a valid module are within their types.
pub fn modules_have_words()
    ensures holds { ModulesHaveWords }
{}

/// A body with a typing is closed as the binary format asks.
pub fn typed_is_closed()
    ensures holds { TypedIsClosed }
{}

/// A module without a typing first fails in one function and at one place.
pub fn first_fault_is_unique()
    ensures holds { FirstFaultIsUnique }
{}

/// A module that fails somewhere has no typing.
pub fn first_fault_is_fault()
    ensures holds { FirstFaultIsFault }
{}

/// A closed body has a typing, or fails at a place.
pub fn bodies_are_judged()
    ensures holds { BodiesAreJudged }
{}

/// A module that bytes can spell has a typing, or first fails somewhere.
pub fn modules_are_judged()
    ensures holds { ModulesAreJudged }
{}

/// Where a machine's run is over, it answers the data that all runs of its module answer, or is exhausted.
pub fn ended_answers()
    ensures holds { EndedAnswers }
{}

/// A machine makes at most as many steps as the runs of its module are long.
pub fn spent_is_few()
    ensures holds { SpentIsFew }
{}

/// A run of a valid module starts wherever nothing is refused.
pub fn starts_unless_refused()
    ensures holds { StartsUnlessRefused }
{}

/// The store in which a run of a valid module starts by itself is one in which a run may start.
pub fn first_is_ready()
    ensures holds { FirstIsReady }
{}

/// A run starts in any store as it starts by itself, but for the store.
pub fn hosted_starts()
    ensures holds { HostedStarts }
{}

/// Until a run of `main` in a valid module ends, which started in a store that a host has made ready, there is a step, whether a grow is granted or refused.
pub fn hosted_never_stuck()
    ensures holds { HostedNeverStuck }
{}

/// Where a module's numbers are within their types, so are those of each state that a run from such a store reaches, and its memory is whole pages of bytes.
pub fn hosted_words_stay()
    ensures holds { HostedWordsStay }
{}

/// A run of a valid module from such a store that can go no further is over.
pub fn hosted_ends_are_over()
    ensures holds { HostedEndsAreOver }
{}

/// The globals of the entries are i32s in each state of a run of a valid module from such a store.
pub fn hosted_entries_are_there()
    ensures holds { HostedEntriesAreThere }
{}

/// Where a machine's run from a state is over, it answers the data that all runs from there answer, or is exhausted.
pub fn ended_answers_from()
    ensures holds { EndedAnswersFrom }
{}

/// A machine makes at most as many steps from a state as the runs from there are long.
pub fn spent_is_few_from()
    ensures holds { SpentIsFewFrom }
{}

/// Where nothing is refused to a host that gives arguments, the module exports what such a host asks for, and nothing is refused for a run without them.
pub fn calls_are_runs()
    ensures holds { CallsAreRuns }
{}
