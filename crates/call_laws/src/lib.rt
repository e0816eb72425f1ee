//! What the job `call` owes an evaluation of main, applied to the source terms of the arguments.
//!
//! The input of `call` is the text of an environment, the front, and behind it that of arguments. Where the source tells it, where the environment is accepted and main's type has a signature within the
//! units, and where the text behind spells arguments of its types, main can be applied to their source terms, and that term has a type (`spelled_arguments_apply`, `applied`). Where it evaluates weakly call by value to
//! a value, that is exactly one tree of data; the module for calls validates and answers it or is exhausted, from each store that holds the arguments; and the status is 0 with the text of that data on
//! out, or neither 0 nor 15, by its cause (`calls_answer_values`, `serves`). So it is of data to which the erased main evaluates, applied to the arguments' data, however that comes
//! (`calls_answer_data`, `serves`). And where the program that is made of main is small, or has a module for calls within 16 MiB, the rules pass no limit and no fault is met, the status is 0, or 1, or it is one of the run: 7 where the answer has over
//! 4,000,000 nodes, 11, 12, or 15, the last only where the erased main evaluates to no data of the answer's types (`calls_finish`, `finishes`). These are laws of the record `Served`, so they hold of each call of `serve`.
//!
//! Where nothing is told of the source, status 0 means the same of some bytes within the limit: out took the text of data, and each value of main, applied to the arguments that stand behind the front, is
//! exactly that (`call_means`, `means`).
//!
//! Of the text: the tokens of the input are those of its front and then those of what stands behind it (`fronts_part_the_input`, `tokens`), and a refusal of the arguments as `Syntax` comes at the first token
//! with which no text of their form goes on (`syntax_faults_break_the_form`, `syntax`).
//!
//! Below stand `driver` with the contract, `call_answers` with the headline for calls, and `stored_calls` with what storing makes; nothing stands above.
#![tactic(auto)]

ghost use Rattle.call_laws.specs.ArgumentForm.{SyntaxIsOfTheForm};
ghost use Rattle.call_laws.specs.Laws.{CallsAnswerData, CallsAnswerValues, CallsFinish, SpelledArgumentsApply};
ghost use Rattle.call_laws.specs.Meaning.{CallMeans};
ghost use Rattle.call_laws.specs.Texts.{FrontAndRestAreTheInput};

/// Main can be applied to the source terms of arguments that are spelled, and the applied term has a type, with the first-order set of the signature's answer.
pub fn spelled_arguments_apply()
    ensures applied { SpelledArgumentsApply }
{}

/// The theorem of `call`: where main, applied to the source terms of the arguments, evaluates to a value, the status is 0 with the text of exactly that value, or it is neither 0 nor 15 and comes by its cause.
pub fn calls_answer_values<S, K, E>()
    ensures serves { CallsAnswerValues S K E }
{}

/// The same of the data to which the erased main evaluates, applied to terms that are the arguments' data, where it is of the answer's types.
pub fn calls_answer_data<S, K, E>()
    ensures serves { CallsAnswerData S K E }
{}

/// Completeness of `call`: where main has a module for calls and the arguments are whole, the status is 0, 1, or one that a run of the module shows.
pub fn calls_finish<S, K, E>()
    ensures finishes { CallsFinish S K E }
{}

/// On status 0 of `call` out took the text of data; and each value to which main evaluates, applied to the source terms of the arguments that the input spells, is exactly that data.
pub fn call_means<S, K, E>()
    ensures means { CallMeans S K E }
{}

/// The tokens of an input of `call` are those of its front, which spells the environment, and then those of the text behind it, which spells the arguments: no token is cut, and none is lost.
pub fn fronts_part_the_input()
    ensures tokens { FrontAndRestAreTheInput }
{}

/// `Syntax` of reading arguments comes at the first token with which no text of their form goes on, or at the end of a text that isn't one, whichever the types are.
pub fn syntax_faults_break_the_form()
    ensures syntax { SyntaxIsOfTheForm }
{}
