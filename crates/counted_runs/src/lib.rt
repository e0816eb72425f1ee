//! Bounds on the steps, the memory and the frames of a module's runs by the counts of evaluation with environments.
//!
//! The bounds of `headline` go by the nodes of evaluation by substitution, which counts the nodes of a value at each use, so for programs on data they are thousands of times too great. Here they go by the
//! contractions, the blocks and the words that the evaluation of the saturated program with environments counts (`lambda_box`, `ClosureEvaluation`): by what a run does. What is promised
//! (`specs/CountedRuns.antt`):
//! - `counts_bound_runs` (`bounded`): with b blocks, c contractions and no block of over w words, and m branches of a match at most, no run makes more than `64 * (b + c + 1) * (w + m)` steps, each answers the
//!   data or is exhausted, and where `4 * b * w + 8` bytes are within the maximum it is exhausted only where a grow was refused that the maximum allows;
//! - `peaks_go_by_call_depth` (`frames`): with call depth d, at most c, a machine's run of the module has a peak of at most `d + 2` frames (`specs/FewFrames.antt`);
//! - `evaluations_have_counts` (`counted`, `one`): where the program evaluates by substitution to data with n nodes, these counts are there, and are no greater than n allows; there is one of each;
//! - `values_are_answered_by_counts` (`answered`): so of the module of an accepted environment whose main has a value.
//!
//! Below stand `lambda_box` with the counts, `wasm_run` with the machine's peak, `wasm_emit` with the call depth, `back_end` with the passes, and `headline`.
#![tactic(auto)]

ghost use Rattle.counted_runs.specs.CountedRuns.{CountsBoundRuns, PeaksGoByCallDepth, EvaluationsHaveCounts, CountsAreOne, ValuesAreAnsweredByCounts};

/// No run makes more than `64 * (b + c + 1) * (w + m)` steps, by the counts of the evaluation with environments; and so with memory.
pub fn counts_bound_runs()
    ensures bounded { CountsBoundRuns }
{}

/// A machine's run of the module has a peak of at most two frames more than the call depth of the program's evaluation, and that is at most its contractions.
pub fn peaks_go_by_call_depth()
    ensures frames { PeaksGoByCallDepth }
{}

/// An evaluation by substitution has these counts, within what its nodes allow; and a program has one of each.
pub fn evaluations_have_counts()
    ensures counted { EvaluationsHaveCounts }
    ensures one { CountsAreOne }
{}

/// The module of an accepted environment whose main has a value answers it within these bounds.
pub fn values_are_answered_by_counts()
    ensures answered { ValuesAreAnsweredByCounts }
{}
