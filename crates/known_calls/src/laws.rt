//! Laws of emission with workers, as functions with no result but their contracts.

ghost use Rattle.known_calls.specs.KnownLaws.{AnfAnswersKnown, AnfKnownValid, CallsAnswer, CallsTell, CallsValid, KnownAnswers, KnownSpelled, KnownValid, KnownStatusTells};
ghost use Rattle.known_calls.specs.CallBytes.{CallsSized};
ghost use Rattle.known_calls.specs.KnownWeight.{KnownIsSmall, KnownSized, LiftedIsLight, LocalsBound};

/// Where main of a lifted program evaluates to data, every run of the program's module answers that data or is exhausted after a refused grow,
/// within a bound on steps and on bytes of memory; and a run that answers makes at least as many steps as there are matches.
pub fn known_runs_answer()
    ensures runs { KnownAnswers }
{}

/// In every run of such a module, whether main has a value or not, the status is 1 only after a refused grow of that run.
pub fn known_status_tells()
    ensures told { KnownStatusTells }
{}

/// The module of a program whose names are in scope is valid.
pub fn known_modules_are_valid()
    ensures valid { KnownValid }
{}

/// Where the counts of a program fit, some bytes spell its module.
pub fn known_modules_can_be_spelled()
    ensures spelled { KnownSpelled }
{}

/// Where main of a program in A-normal form evaluates to data, every run of the lifted program's module answers it or is exhausted; and the
/// module is valid.
pub fn known_programs_in_normal_form_answer()
    ensures runs { AnfAnswersKnown }
    ensures valid { AnfKnownValid }
{}

/// The bytes of a module, and the locals of its functions, are bounded by the size of the lifted program, and so by that of the program in A-normal
/// form, and by the number of nodes of the program from which that was made; those of a module for calls besides by the number of arguments.
pub fn known_bytes_are_bounded()
    ensures bytes { KnownSized }
    ensures locals { LocalsBound }
    ensures lifted { LiftedIsLight }
    ensures small { KnownIsSmall }
    ensures calls { CallsSized }
{}

/// Every run of the module for a call, on arguments that a host has stored, answers main's data or is exhausted; such a module is valid; and its
/// status is 1 only after a refused grow.
pub fn known_calls_of_main_answer()
    ensures runs { CallsAnswer }
    ensures valid { CallsValid }
    ensures status { CallsTell }
{}
