//! Directed erasure: erasure as total functions with units, and what it means. No code: the crate that erases gives exactly what these
//! functions give.
//!
//! The definitions: `specs/DirectedErasure.antt`, of a term (the test stands before each former; box where there is evidence); and
//! `specs/DirectedProgram.antt`, of a whole environment: main, then the constants that are reached, from the latest declared to the
//! earliest, the families with their counts, the first declared constant without a body that is reached, and the place of each refusal.
//!
//! Each function has no result but its clauses, which are statements of `specs/Laws.antt`. What is promised of a term
//! (`directed_erasure_is_erasure`): it is an erasure of its source (`sound`) and no greater (`sizes`), and a term without evidence has a
//! former after erasure (`formers`). Of a program (`directed_programs_are_erased`): it is erased from its environment (`programs`), has the
//! form of box programs (`form`, and `checked` after the directed check of the environment), no more nodes than the source (`sizes`), no
//! constants but those that main reaches (`reached`), and a constant that is named for having no body has none (`axioms`). It keeps values
//! (`directed_programs_keep_values`). What erasure ends with depends neither on units nor on room (`directed_erasure_agrees`), and more
//! units change no answer (`directed_erasure_is_steady`).
//!
//! Below stand `rule_laws` and `agreeing` (what the directed rules mean, and that any two runs agree), `lambda_box` and `erase_laws` (the
//! language after erasure, the erasure relation with its laws); above stands the crate that erases.
#![tactic(auto)]

ghost use Rattle.erase_rules.specs.Laws.{
  NoEvidenceNoType,
  ErasureIsSound,
  ErasedIsNoGreater,
  ProgramsAreErased,
  ProgramsHaveForm,
  CheckedProgramsHaveForm,
  ProgramsKeepValues,
  ProgramsAreNoGreater,
  AxiomsHaveNoBody,
  ConstantsAreReached,
  ErasureAgrees,
  ProgramsAgree,
  ErasabilityIsSteady,
  ErasureIsSteady,
  ProgramsAreSteady,
};

/// A term for which the test finds no evidence has a former after erasure: so the box that directed erasure gives to sorts, products and
/// families without evidence is given to no term that has a type. What directed erasure makes of a term is an erasure of it; and it is no
/// greater than the term, by nodes, depth and greatest variable.
pub fn directed_erasure_is_erasure()
    ensures formers { NoEvidenceNoType }
    ensures sound { ErasureIsSound }
    ensures sizes { ErasedIsNoGreater }
{}

/// The program that directed erasure makes of an accepted environment is erased from it, and has the form of box programs; it has no more
/// nodes than the source, and no constants but those that main reaches; and a constant that is named for having no body has none.
pub fn directed_programs_are_erased()
    ensures programs { ProgramsAreErased }
    ensures form { ProgramsHaveForm }
    ensures checked { CheckedProgramsHaveForm }
    ensures sizes { ProgramsAreNoGreater }
    ensures reached { ConstantsAreReached }
    ensures axioms { AxiomsHaveNoBody }
{}

/// It evaluates to the data that the source evaluates to, in no more nodes.
pub fn directed_programs_keep_values()
    ensures values { ProgramsKeepValues }
{}

/// What directed erasure ends with depends neither on the units nor on the room for nested rules.
pub fn directed_erasure_agrees()
    ensures terms { ErasureAgrees }
    ensures programs { ProgramsAgree }
{}

/// The test of erasable terms and directed erasure never go back on units, and more units change no result or refusal.
pub fn directed_erasure_is_steady()
    ensures erasability { ErasabilityIsSteady }
    ensures erasure { ErasureIsSteady }
    ensures programs { ProgramsAreSteady }
{}
