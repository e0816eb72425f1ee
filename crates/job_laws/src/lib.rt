//! Laws of the jobs, over what the contract of `serve` promises: `eval` is stuck at nothing but axioms, reports break no promise, calls on the same words and input answer alike, and
//! `explain` refuses nothing that the check refuses.
//!
//! `driver`'s contract of `serve` says that the refusal `stuck` comes where the run of main's evaluation shows it: there is no rule for a term that is reached, or the value
//! isn't data of its type. In an environment that the check accepts only the first comes, and the term is a constant that the text declares without a body
//! (`stuck_evals_meet_axioms`, clauses `axioms` and `never`).
//!
//! That contract is one record, `Served`, over the objects that the call is lent and what its reports show. With reports the top call keeps all that it promises without: the status,
//! out and what is left of the source meet the promises of a call without reports, with the lines of the reports taken off err (`reports_break_no_promise`, clause `kept`). And two calls on the same
//! words and input have one status and one text, whichever reports they are lent, but for want of memory, faults of what is lent, and limits of depth (`calls_answer_alike`, clauses `one` and `text`).
//!
//! By `explain` the refusals of the check are answers: none of the call is one of spent units, of a limit behind the text or of a broken rule, so its status is neither 8 nor 9
//! (`explain_answers_refusals`, clauses `beside` and `statuses`).
//!
//! Below stand `command_line`, `driver`, `progress` with the laws of the evaluation, `first_order` with the reading of values, `wasm_core` and `module_run` with one run of a module, and `reports`; nothing stands above.
#![tactic(auto)]

ghost use Rattle.job_laws.specs.EvalLaws.{StuckEvalsMeetAxioms, NoEvalIsStuck};
ghost use Rattle.job_laws.specs.OneAnswer.{StatusIsOne, TextIsOne};
ghost use Rattle.job_laws.specs.ReportLaws.{ReportsBreakNoPromise};
ghost use Rattle.job_laws.specs.ExplainLaws.{ExplainHasNoSuchStatus, ExplainRefusesBesideCheck};

/// Where the job `eval` is stuck, the evaluation of main met a constant that the text declares without a body; so it never is where each constant has one.
pub fn stuck_evals_meet_axioms()
    ensures axioms { StuckEvalsMeetAxioms }
    ensures never { NoEvalIsStuck }
{}

/// With reports a call of `serve` keeps all that one without promises, where err counts on status 0 as it was before the lines of the reports, and on any other as it is left.
pub fn reports_break_no_promise<S, K, E>()
    ensures kept { ReportsBreakNoPromise S K E }
{}

/// Two calls of `serve` on the same words and the same input, which meet no fault in reading nor in writing to out, have one status, whichever reports they are lent, or one of them wants memory; where
/// the directed rules pass no limit of depth on the environment. Where both have an answer, by another job than `eval` and `explain`, out takes the same text.
pub fn calls_answer_alike<S, K, E>()
    ensures one { StatusIsOne S K E }
    ensures text { TextIsOne S K E }
{}

/// By `explain` no refusal of a call is one of the check: what the directed rules come to is its answer.
pub fn explain_answers_refusals<S, K, E>()
    ensures beside { ExplainRefusesBesideCheck S K E }
    ensures statuses { ExplainHasNoSuchStatus S K E }
{}
