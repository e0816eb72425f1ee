//! What the jobs that make main's module answer where main evaluates sparingly, or over lemmas.
//!
//! On status 0 of `exec` the input spells an environment, and out took the text of the data that a run of main's module answered; where main evaluates over lemmas (`sparing_laws`), as it may where lemmas have no
//! proofs, the value is read as exactly that data; and so is a sparing value, where the erased program has a value (`exec_answers_sparingly`, `means`). On status 0 of `compile` out took
//! the shortest bytes of main's module, of which the laws of both values hold (`compile_answers_sparingly`, `means`). Nothing is asked of the source: where it doesn't tell its bytes, the input is some bytes within the limit.
//!
//! Where it tells them, all that is promised of `exec`, `compile` and `bench` where the erased program evaluates to data is promised with whichever status, with the bounds by the nodes of that evaluation: of a value
//! over lemmas (`jobs_answer_over_lemmas`, `serves`), and of a sparing one where the erased program has a value (`jobs_answer_sparingly`, `serves`). These are laws of the record `Served`, so they hold of each call of
//! `serve`.
//!
//! Below stand `driver` with the contract and `sparing_answers` with the law of modules; nothing stands above.
#![tactic(auto)]

ghost use Rattle.sparing_exec.specs.Laws.{CompileAnswersSparingly, ExecAnswersSparingly, JobsAnswerOverLemmas, JobsAnswerSparingly};

/// On status 0 of `exec` the data whose text out took is that of main's value over lemmas; and that of main's sparing value, where there is one and the erased program has a value.
pub fn exec_answers_sparingly<S, K, E>()
    ensures means { ExecAnswersSparingly S K E }
{}

/// On status 0 of `compile` out took the shortest bytes of main's module: every long enough run of it answers main's value over lemmas or is exhausted, and so it is with main's sparing value where the erased program
/// has a value.
pub fn compile_answers_sparingly<S, K, E>()
    ensures means { CompileAnswersSparingly S K E }
{}

/// Where main evaluates over lemmas, `exec`, `compile` and `bench` answer the data that the value is.
pub fn jobs_answer_over_lemmas<S, K, E>()
    ensures serves { JobsAnswerOverLemmas S K E }
{}

/// Where main evaluates sparingly and the erased program has a value, `exec`, `compile` and `bench` answer the data that main's value is.
pub fn jobs_answer_sparingly<S, K, E>()
    ensures serves { JobsAnswerSparingly S K E }
{}
